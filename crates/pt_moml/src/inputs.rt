// The tokens that come to the top.
ghost use Rattle.std.specs.Prelude.{◌≡◌};
ghost use Rattle.pt_json.specs.View.{view};
ghost use Rattle.pt_document.specs.View.{input_view};
ghost use Rattle.pt_document.specs.Outcome.{Gives};
ghost use Rattle.pt_moml.specs.Reading.{tokens_input, events_input};

use crate::fields::{Part, has_fields, list, required, text_of, whole_number};
use pt_document::{DocFault, Event, Input, Supply};
use pt_json::Value;
use pt_value::Text;
use std::alloc::Global;

impl Part for Text {
    ghost use Rattle.std.specs.Prelude.{refl, List, ℕ};
    ghost use Rattle.pt_moml.specs.Fields.{text_at};

    ghost Tree = { List ℕ };

    ghost tree = { λ x. x };

    ghost trees = { λ xs. xs };

    ghost reading = { text_at };

    ghost of_none = { refl };

    ghost of_more = { λ xs x. refl };

    fn read(alloc: Global, path: &str, value: &Value) -> Result<Text, DocFault> {
        text_of(alloc, path, value)
    }
}

impl Part for Option<Text> {
    ghost use Rattle.std.specs.Prelude.{refl, List, ℕ, Option};
    ghost use Rattle.pt_moml.specs.Reading.{token_at};

    ghost Tree = { Option (List ℕ) };

    ghost tree = { λ x. x };

    ghost trees = { λ xs. xs };

    ghost reading = { token_at };

    ghost of_none = { refl };

    ghost of_more = { λ xs x. refl };

    fn read(alloc: Global, path: &str, value: &Value) -> Result<Option<Text>, DocFault> {
        match value {
            Value::Null => Ok(None),
            _ => Ok(Some(text_of(alloc, path, value)?)),
        }
    }
}

impl Part for Event {
    ghost use Rattle.std.specs.Prelude.{refl};
    ghost use Rattle.pt_document.specs.declared.job.Event.{Event};
    ghost use Rattle.pt_moml.specs.Reading.{event_at};

    ghost Tree = { Event };

    ghost tree = { λ x. x };

    ghost trees = { λ xs. xs };

    ghost reading = { event_at };

    ghost of_none = { refl };

    ghost of_more = { λ xs x. refl };

    #[tactic(auto, unfolding(crate::specs::Reading::event_at))]
    fn read(alloc: Global, path: &str, value: &Value) -> Result<Event, DocFault> {
        has_fields(alloc, path, value, &["time", "step", "value"])?;
        let time = whole_number(alloc, path, value.get("time"))?;
        let step = whole_number(alloc, path, value.get("step"))?;
        let text = required(alloc, path, value.get("value"))?;
        Ok(Event {
            time,
            step,
            value: text,
        })
    }
}

#[tactic(auto, unfolding(crate::specs::Reading::tokens_input))]
fn input_of_tokens(alloc: Global, path: &str, value: &Value) -> Result<Input, DocFault>
    ensures { Gives input_view result (tokens_input path.now (view value.now)) }
{
    has_fields(alloc, path, value, &["port", "tokens"])?;
    let port = required(alloc, path, value.get("port"))?;
    let tokens = list(alloc, path, value.get("tokens"))?;
    Ok(Input {
        port,
        supply: Supply::Tokens(tokens),
    })
}

#[tactic(auto, unfolding(crate::specs::Reading::events_input))]
fn input_of_events(alloc: Global, path: &str, value: &Value) -> Result<Input, DocFault>
    ensures { Gives input_view result (events_input path.now (view value.now)) }
{
    has_fields(alloc, path, value, &["port", "events"])?;
    let port = required(alloc, path, value.get("port"))?;
    let events = list(alloc, path, value.get("events"))?;
    Ok(Input {
        port,
        supply: Supply::Events(events),
    })
}

impl Part for Input {
    ghost use Rattle.std.specs.Prelude.{map, refl};
    ghost use Rattle.std.proofs.lemmas.List.{map_push};
    ghost use Rattle.pt_document.specs.Document.{InputTree};
    ghost use Rattle.pt_document.specs.View.{input_view};
    ghost use Rattle.pt_moml.specs.Reading.{input_at};

    ghost Tree = { InputTree };

    ghost tree = { input_view };

    ghost trees = { λ xs. map input_view xs };

    ghost reading = { input_at };

    ghost of_none = { refl };

    ghost of_more = { map_push input_view };

    fn read(alloc: Global, path: &str, value: &Value) -> Result<Input, DocFault> {
        if value.get("tokens").is_some() {
            input_of_tokens(alloc, path, value)
        } else {
            input_of_events(alloc, path, value)
        }
    }
}
