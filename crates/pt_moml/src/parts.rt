// The parts of an entity that read alike wherever they stand.
ghost use Rattle.std.specs.Prelude.{◌≡◌, option_map};
ghost use Rattle.pt_json.specs.View.{view};
ghost use Rattle.pt_document.specs.Outcome.{Gives};
ghost use Rattle.pt_moml.specs.Reading.{direction_at, facing_at, declared_at, port_link, relations_link, way_at, effect_at};
ghost use Rattle.pt_moml.specs.StageView.{effect_view};

use crate::fields::{
    Named, Part, has_fields, list_or_empty, name_of, optional, required, text_of, truth,
    truth_or_false,
};
use crate::property::properties_of;
use pt_document::{
    Code, Direction, DocFault, Link, OutputAction, Port, Relation, SetAction, State, Transition,
    is_type_text, refused,
};
use pt_json::Value;
use pt_value::Text;
use std::alloc::Global;

/// Exactly one of input and output.
fn direction_of(
    alloc: Global,
    path: &str,
    is_input: bool,
    is_output: bool,
) -> Result<Direction, DocFault>
    ensures { Gives (λ d. d) result (direction_at path.now is_input is_output) }
{
    match (is_input, is_output) {
        (true, false) => Ok(Direction::Input),
        (false, true) => Ok(Direction::Output),
        _ => Err(refused(alloc, Code::Shape, path)),
    }
}

/// The direction that the fields of a port say.
#[tactic(auto, unfolding(crate::specs::Reading::facing_at))]
fn facing(alloc: Global, path: &str, value: &Value) -> Result<Direction, DocFault>
    ensures { Gives (λ d. d) result (facing_at path.now (view value.now)) }
{
    let is_input = truth_or_false(alloc, path, value.get("input"))?;
    let is_output = truth_or_false(alloc, path, value.get("output"))?;
    direction_of(alloc, path, is_input, is_output)
}

/// The text of a declared type.
#[tactic(auto, unfolding(crate::specs::Reading::declared_at))]
fn declared_of(alloc: Global, path: &str, field: Option<&Value>) -> Result<Option<Text>, DocFault>
    ensures { Gives (λ t. t) result
        (declared_at path.now (option_map (λ v. view v.now) field.entry)) }
{
    let Some(value) = field else {
        return Ok(None);
    };
    let text = text_of(alloc, path, value)?;
    if is_type_text(alloc, text.as_str())? {
        Ok(Some(text))
    } else {
        Err(refused(alloc, Code::Shape, path))
    }
}

impl Part for Port {
    ghost use Rattle.std.specs.Prelude.{map, refl};
    ghost use Rattle.std.proofs.lemmas.List.{map_push};
    ghost use Rattle.pt_document.specs.Document.{PortTree};
    ghost use Rattle.pt_document.specs.View.{port_view};
    ghost use Rattle.pt_moml.specs.Reading.{port_at};

    ghost Tree = { PortTree };

    ghost tree = { port_view };

    ghost trees = { λ xs. map port_view xs };

    ghost reading = { port_at };

    ghost of_none = { refl };

    ghost of_more = { map_push port_view };

    fn read(alloc: Global, path: &str, value: &Value) -> Result<Port, DocFault> {
        has_fields(
            alloc,
            path,
            value,
            &["name", "input", "output", "type", "properties"],
        )?;
        let name = name_of(alloc, path, value.get("name"))?;
        let direction = facing(alloc, path, value)?;
        let declared = declared_of(alloc, path, value.get("type"))?;
        let properties = properties_of(alloc, path, value.get("properties"))?;
        Ok(Port {
            name,
            direction,
            declared,
            properties,
        })
    }
}

impl Named for Port {
    ghost use Rattle.std.specs.Prelude.{map, refl};
    ghost use Rattle.pt_document.specs.View.{port_view};

    ghost name = { λ p. p.name };

    ghost names = { λ ps. map (λ p. p.name) (map port_view ps) };

    ghost of_none = { refl };

    ghost of_more = { λ p ps. refl };

    fn name(&self) -> &str {
        self.name.as_str()
    }
}

impl Part for Relation {
    ghost use Rattle.std.specs.Prelude.{refl};
    ghost use Rattle.pt_document.specs.declared.job.Relation.{Relation};
    ghost use Rattle.pt_moml.specs.Reading.{relation_at};

    ghost Tree = { Relation };

    ghost tree = { λ x. x };

    ghost trees = { λ xs. xs };

    ghost reading = { relation_at };

    ghost of_none = { refl };

    ghost of_more = { λ xs x. refl };

    #[tactic(auto, unfolding(crate::specs::Reading::relation_at))]
    fn read(alloc: Global, path: &str, value: &Value) -> Result<Relation, DocFault> {
        has_fields(alloc, path, value, &["name"])?;
        let name = name_of(alloc, path, value.get("name"))?;
        Ok(Relation { name })
    }
}

impl Named for Relation {
    ghost use Rattle.std.specs.Prelude.{map, refl};

    ghost name = { λ x. x.name };

    ghost names = { λ xs. map (λ x. x.name) xs };

    ghost of_none = { refl };

    ghost of_more = { λ x xs. refl };

    fn name(&self) -> &str {
        self.name.as_str()
    }
}

#[tactic(auto, unfolding(crate::specs::Reading::port_link))]
fn link_of_port(alloc: Global, path: &str, value: &Value) -> Result<Link, DocFault>
    ensures { Gives (λ l. l) result (port_link path.now (view value.now)) }
{
    has_fields(alloc, path, value, &["port", "relation"])?;
    let port = required(alloc, path, value.get("port"))?;
    let relation = required(alloc, path, value.get("relation"))?;
    Ok(Link::Port { port, relation })
}

#[tactic(auto, unfolding(crate::specs::Reading::relations_link))]
fn link_of_relations(alloc: Global, path: &str, value: &Value) -> Result<Link, DocFault>
    ensures { Gives (λ l. l) result (relations_link path.now (view value.now)) }
{
    has_fields(alloc, path, value, &["relation1", "relation2"])?;
    let first = required(alloc, path, value.get("relation1"))?;
    let second = required(alloc, path, value.get("relation2"))?;
    Ok(Link::Relations { first, second })
}

impl Part for Link {
    ghost use Rattle.std.specs.Prelude.{refl};
    ghost use Rattle.pt_document.specs.declared.job.Link.{Link};
    ghost use Rattle.pt_moml.specs.Reading.{link_at};

    ghost Tree = { Link };

    ghost tree = { λ x. x };

    ghost trees = { λ xs. xs };

    ghost reading = { link_at };

    ghost of_none = { refl };

    ghost of_more = { λ xs x. refl };

    fn read(alloc: Global, path: &str, value: &Value) -> Result<Link, DocFault> {
        if value.get("port").is_some() {
            link_of_port(alloc, path, value)
        } else {
            link_of_relations(alloc, path, value)
        }
    }
}

impl Part for State {
    ghost use Rattle.std.specs.Prelude.{refl};
    ghost use Rattle.pt_document.specs.declared.job.State.{State};
    ghost use Rattle.pt_moml.specs.Reading.{state_at};

    ghost Tree = { State };

    ghost tree = { λ x. x };

    ghost trees = { λ xs. xs };

    ghost reading = { state_at };

    ghost of_none = { refl };

    ghost of_more = { λ xs x. refl };

    #[tactic(auto, unfolding(crate::specs::Reading::state_at))]
    fn read(alloc: Global, path: &str, value: &Value) -> Result<State, DocFault> {
        has_fields(alloc, path, value, &["name", "refinement"])?;
        let name = name_of(alloc, path, value.get("name"))?;
        let refinement = optional(alloc, path, value.get("refinement"))?;
        Ok(State { name, refinement })
    }
}

impl Named for State {
    ghost use Rattle.std.specs.Prelude.{map, refl};

    ghost name = { λ x. x.name };

    ghost names = { λ xs. map (λ x. x.name) xs };

    ghost of_none = { refl };

    ghost of_more = { λ x xs. refl };

    fn name(&self) -> &str {
        self.name.as_str()
    }
}

impl Part for OutputAction {
    ghost use Rattle.std.specs.Prelude.{refl};
    ghost use Rattle.pt_document.specs.declared.job.OutputAction.{OutputAction};
    ghost use Rattle.pt_moml.specs.Reading.{output_at};

    ghost Tree = { OutputAction };

    ghost tree = { λ x. x };

    ghost trees = { λ xs. xs };

    ghost reading = { output_at };

    ghost of_none = { refl };

    ghost of_more = { λ xs x. refl };

    #[tactic(auto, unfolding(crate::specs::Reading::output_at))]
    fn read(alloc: Global, path: &str, value: &Value) -> Result<OutputAction, DocFault> {
        has_fields(alloc, path, value, &["port", "value"])?;
        let port = required(alloc, path, value.get("port"))?;
        let text = required(alloc, path, value.get("value"))?;
        Ok(OutputAction { port, value: text })
    }
}

impl Part for SetAction {
    ghost use Rattle.std.specs.Prelude.{refl};
    ghost use Rattle.pt_document.specs.declared.job.SetAction.{SetAction};
    ghost use Rattle.pt_moml.specs.Reading.{set_at};

    ghost Tree = { SetAction };

    ghost tree = { λ x. x };

    ghost trees = { λ xs. xs };

    ghost reading = { set_at };

    ghost of_none = { refl };

    ghost of_more = { λ xs x. refl };

    #[tactic(auto, unfolding(crate::specs::Reading::set_at))]
    fn read(alloc: Global, path: &str, value: &Value) -> Result<SetAction, DocFault> {
        has_fields(alloc, path, value, &["name", "value"])?;
        let name = required(alloc, path, value.get("name"))?;
        let text = required(alloc, path, value.get("value"))?;
        Ok(SetAction { name, value: text })
    }
}

/// Where a transition leads and when it may be taken.
#[derive(Drop)]
struct Way {
    from: Text,
    to: Text,
    guard: Text,
}

#[tactic(auto, unfolding(crate::specs::Reading::way_at))]
fn way_of(alloc: Global, path: &str, value: &Value) -> Result<Way, DocFault>
    ensures { Gives (λ w. w) result (way_at path.now (view value.now)) }
{
    let from = required(alloc, path, value.get("from"))?;
    let to = required(alloc, path, value.get("to"))?;
    let guard = required(alloc, path, value.get("guard"))?;
    Ok(Way { from, to, guard })
}

/// How a transition is taken and what it does.
#[derive(Drop)]
struct Effect {
    preemptive: bool,
    history: bool,
    output: Vec<OutputAction>,
    set: Vec<SetAction>,
}

#[tactic(auto, unfolding(crate::specs::Reading::effect_at))]
fn effect_of(alloc: Global, path: &str, value: &Value) -> Result<Effect, DocFault>
    ensures { Gives effect_view result (effect_at path.now (view value.now)) }
{
    let preemptive = truth_or_false(alloc, path, value.get("preemptive"))?;
    let history = truth(alloc, path, value.get("history"))?;
    let output = list_or_empty(alloc, path, value.get("output"))?;
    let set = list_or_empty(alloc, path, value.get("set"))?;
    Ok(Effect {
        preemptive,
        history,
        output,
        set,
    })
}

impl Part for Transition {
    ghost use Rattle.std.specs.Prelude.{map, refl};
    ghost use Rattle.std.proofs.lemmas.List.{map_push};
    ghost use Rattle.pt_document.specs.Document.{TransitionTree};
    ghost use Rattle.pt_document.specs.View.{transition_view};
    ghost use Rattle.pt_moml.specs.Reading.{transition_at};

    ghost Tree = { TransitionTree };

    ghost tree = { transition_view };

    ghost trees = { λ xs. map transition_view xs };

    ghost reading = { transition_at };

    ghost of_none = { refl };

    ghost of_more = { map_push transition_view };

    fn read(alloc: Global, path: &str, value: &Value) -> Result<Transition, DocFault> {
        has_fields(
            alloc,
            path,
            value,
            &[
                "from",
                "to",
                "guard",
                "preemptive",
                "history",
                "output",
                "set",
            ],
        )?;
        let way = way_of(alloc, path, value)?;
        let effect = effect_of(alloc, path, value)?;
        Ok(Transition {
            from: way.from,
            to: way.to,
            guard: way.guard,
            preemptive: effect.preemptive,
            history: effect.history,
            output: effect.output,
            set: effect.set,
        })
    }
}
