ghost use Rattle.std.specs.Prelude.{◌≡◌, IfOk, IsTrue};

use pt_firing::Tokens;
use pt_transitions::copied_lists;
use std::alloc::{AllocError, Global};
use std::mem;

/// The tokens of a reaction: what came to the own inputs, what the refinement takes of that, and what the own outputs have.
#[derive(Drop)]
pub(crate) struct Lists {
    pub(crate) inputs: Vec<Tokens>,
    pub(crate) lent: Vec<Tokens>,
    pub(crate) outputs: Vec<Tokens>,
}

impl Lists {
    ghost use Rattle.pt_modal.specs.Lists.{IsBare, AreSame};

    /// Those where no reaction is under way.
    pub(crate) fn none(alloc: Global) -> Lists
        ensures { IsBare result }
    {
        Lists {
            inputs: Vec::new(alloc),
            lent: Vec::new(alloc),
            outputs: Vec::new(alloc),
        }
    }

    /// Whether none is under way: no own input and no own output has a list.
    pub(crate) fn are_none(&self) -> bool
        ensures { IsTrue result → IsBare self.now }
    {
        self.inputs.is_empty() && self.outputs.is_empty()
    }

    /// Hands out what the own outputs have, and lets go of the rest.
    pub(crate) fn hand_out(&mut self, alloc: Global) -> Vec<Tokens>
        ensures given { result.items ≡ self.old.outputs.items }
        ensures left { IsBare self.new }
    {
        let outputs = mem::replace(&mut self.outputs, Vec::new(alloc));
        self.inputs = Vec::new(alloc);
        self.lent = Vec::new(alloc);
        outputs
    }

    pub(crate) fn copy(&self, alloc: Global) -> Result<Lists, AllocError>
        ensures { IfOk result (λ lists. AreSame self.now lists) }
    {
        Ok(Lists {
            inputs: copied_lists(alloc, &self.inputs)?,
            lent: copied_lists(alloc, &self.lent)?,
            outputs: copied_lists(alloc, &self.outputs)?,
        })
    }
}
