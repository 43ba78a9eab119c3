ghost use Rattle.std.specs.Prelude.{◌≡◌, map, IfOk};

use crate::copies::{actions_of, guarded_of, optional_text, property, supply, text};
use pt_document::{Event, Input, OutputAction, Property, SetAction, State, Transition};
use pt_value::Text;
use std::alloc::{AllocError, Global};

/// What is copied with all that is in it.
pub trait Copied: Drop {
    /// What a contract sees of it.
    ghost Tree: { Type 0 };

    ghost tree: { Self → Tree };

    fn copied(&self, alloc: Global) -> Result<Self, AllocError>
        ensures { IfOk result (λ new. tree new ≡ tree self.now) };
}

/// The same things.
pub fn copies<T: Copied>(alloc: Global, old: &[T]) -> Result<Vec<T>, AllocError>
    ensures { IfOk result (λ new. map T.tree new.items ≡ map T.tree old.now) }
{
    let mut new = Vec::with_capacity(alloc, old.len())?;
    for item in old {
        new.push(item.copied(alloc)?)?;
    }
    Ok(new)
}

impl Copied for Text {
    ghost use Rattle.std.specs.Prelude.{List, ℕ};

    ghost Tree = { List ℕ };

    ghost tree = { λ text. text };

    fn copied(&self, alloc: Global) -> Result<Text, AllocError> {
        text(alloc, self)
    }
}

impl Copied for Option<Text> {
    ghost use Rattle.std.specs.Prelude.{List, ℕ, Option};

    ghost Tree = { Option (List ℕ) };

    ghost tree = { λ text. text };

    fn copied(&self, alloc: Global) -> Result<Option<Text>, AllocError> {
        optional_text(alloc, self)
    }
}

impl Copied for State {
    ghost use Rattle.pt_document.specs.declared.job.State.{State};

    ghost Tree = { State };

    ghost tree = { λ state. state };

    fn copied(&self, alloc: Global) -> Result<State, AllocError> {
        Ok(State {
            name: text(alloc, &self.name)?,
            refinement: optional_text(alloc, &self.refinement)?,
        })
    }
}

impl Copied for OutputAction {
    ghost use Rattle.pt_document.specs.declared.job.OutputAction.{OutputAction};

    ghost Tree = { OutputAction };

    ghost tree = { λ action. action };

    fn copied(&self, alloc: Global) -> Result<OutputAction, AllocError> {
        Ok(OutputAction {
            port: text(alloc, &self.port)?,
            value: text(alloc, &self.value)?,
        })
    }
}

impl Copied for SetAction {
    ghost use Rattle.pt_document.specs.declared.job.SetAction.{SetAction};

    ghost Tree = { SetAction };

    ghost tree = { λ action. action };

    fn copied(&self, alloc: Global) -> Result<SetAction, AllocError> {
        Ok(SetAction {
            name: text(alloc, &self.name)?,
            value: text(alloc, &self.value)?,
        })
    }
}

impl Copied for Transition {
    ghost use Rattle.pt_document.specs.Document.{TransitionTree};
    ghost use Rattle.pt_document.specs.View.{transition_view};

    ghost Tree = { TransitionTree };

    ghost tree = { transition_view };

    fn copied(&self, alloc: Global) -> Result<Transition, AllocError> {
        let guarded = guarded_of(alloc, self)?;
        match actions_of(alloc, self) {
            Ok(actions) => Ok(Transition {
                from: guarded.from,
                to: guarded.to,
                guard: guarded.guard,
                preemptive: self.preemptive,
                history: self.history,
                output: actions.output,
                set: actions.set,
            }),
            Err(fault) => {
                drop(guarded);
                Err(fault)
            }
        }
    }
}

impl Copied for Event {
    ghost use Rattle.pt_document.specs.declared.job.Event.{Event};

    ghost Tree = { Event };

    ghost tree = { λ event. event };

    fn copied(&self, alloc: Global) -> Result<Event, AllocError> {
        Ok(Event {
            time: self.time,
            step: self.step,
            value: text(alloc, &self.value)?,
        })
    }
}

impl Copied for Property {
    ghost use Rattle.pt_document.specs.Document.{PropertyTree};
    ghost use Rattle.pt_document.specs.View.{property_view};

    ghost Tree = { PropertyTree };

    ghost tree = { property_view };

    fn copied(&self, alloc: Global) -> Result<Property, AllocError> {
        property(alloc, self)
    }
}

impl Copied for Input {
    ghost use Rattle.pt_document.specs.Document.{InputTree};
    ghost use Rattle.pt_document.specs.View.{input_view};

    ghost Tree = { InputTree };

    ghost tree = { input_view };

    fn copied(&self, alloc: Global) -> Result<Input, AllocError> {
        Ok(Input {
            port: text(alloc, &self.port)?,
            supply: supply(alloc, &self.supply)?,
        })
    }
}
