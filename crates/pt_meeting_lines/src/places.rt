ghost use Rattle.std.specs.Prelude.{◌≡◌, ℕ, ◌++◌, List, IfOk, IfSome, IfNone, Some, slice_get};
ghost use Rattle.pt_document.specs.Names.{below};
ghost use Rattle.pt_net.specs.declared.net.NetEntity.{NetEntity};
ghost use Rattle.pt_trace.specs.declared.meetings.ChildPlace.{ChildPlace};
ghost use Rattle.pt_meeting_lines.specs.Tells.{IsPortOf, IsChildOf, EndsAt};

use pt_net::{End, Net, NetEntity};
use pt_trace::ChildPlace;
use pt_value::Text;
use std::alloc::{AllocError, Global};

/// The item of that number, which is there.
#[tactic(auto, using(std::proofs::lemmas::Option::slice_get_within, std::proofs::lemmas::Option::slice_get_read))]
pub(crate) fn item_at<T>(items: &[T], number: usize) -> &T
    requires { (item : T) × (slice_get items.now number ≡ Some item) }
    ensures { slice_get items.now number ≡ Some result.now }
{
    &items[number]
}

/// What is behind a front, where a text begins with it.
fn behind<'a>(front: &str, text: &'a str) -> Option<&'a str>
    ensures some { IfSome result (λ rest. text.now ≡ front.now ++ rest.now) }
    ensures none { IfNone result ((rest : List ℕ) → text.now ≡ front.now ++ rest → ⊥) }
{
    text.strip_prefix(front)
}

/// The path of an entity as it is below a composite of the first path.
fn path_below<'a>(round: &str, path: &'a str) -> &'a str
    ensures { (rest : List ℕ) → below round.now rest ≡ path.now → below round.now result.now ≡ path.now }
{
    if round == "." {
        return path;
    }
    let Some(rest) = behind(round, path) else {
        return path;
    };
    match behind(".", rest) {
        Some(below) => below,
        None => path,
    }
}

/// The path of a child as it is below its composite.
fn inner_path<'a>(round: &NetEntity, child: &'a NetEntity) -> &'a str
    ensures { (rest : List ℕ) → below round.now.path rest ≡ child.now.path → below round.now.path result.now ≡ child.now.path }
{
    path_below(round.path.as_str(), child.path.as_str())
}

/// The entity of that number, as a child below a composite: its path there.
pub(crate) fn child_path(
    alloc: Global,
    net: &Net,
    round: &NetEntity,
    number: usize,
) -> Result<Text, AllocError>
    requires { (path : List ℕ) × (child : NetEntity) × IsChildOf net.now round.now number path child }
    ensures { IfOk result (λ path. (child : NetEntity) × IsChildOf net.now round.now number path child) }
{
    let entities = net.entities.as_slice();
    let child = item_at(entities, number);
    let path = inner_path(round, child);
    Text::of(alloc, path)
}

/// The name of the port of that number.
pub(crate) fn port_name(alloc: Global, entity: &NetEntity, number: u32) -> Result<Text, AllocError>
    requires { (name : List ℕ) × IsPortOf entity.now number name }
    ensures { IfOk result (λ name. IsPortOf entity.now number name) }
{
    let ports = entity.ports.as_slice();
    let port = item_at(ports, number as usize);
    port.name.copy(alloc)
}

/// The place of a child at which a channel ends.
pub(crate) fn place_at(
    alloc: Global,
    net: &Net,
    round: &NetEntity,
    end: End,
) -> Result<ChildPlace, AllocError>
    requires { (place : ChildPlace) × EndsAt net.now round.now place end }
    ensures { IfOk result (λ place. EndsAt net.now round.now place end) }
{
    let entities = net.entities.as_slice();
    let entity = item_at(entities, end.entity as usize);
    let child = child_path(alloc, net, round, end.entity as usize)?;
    let port = port_name(alloc, entity, end.port)?;
    let channel = u64::from(end.index);
    Ok(ChildPlace {
        child,
        port,
        channel,
    })
}
