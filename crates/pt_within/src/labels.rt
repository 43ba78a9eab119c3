ghost use Rattle.std.specs.Prelude.{◌≡◌, ℕ, ◌++◌, List, IfOk, IfSome, IfNone, Some, map};
ghost use Rattle.pt_net.specs.Inside.{channels_in};
ghost use Rattle.pt_trace.specs.MeetingText.{place_text};
ghost use Rattle.pt_trees.specs.Directors.{director_of};
ghost use Rattle.pt_trees.specs.Labels.{path_below, child_label, label_of, is_network, has_network, labels_of};

use crate::entities::{director_of, entity_in};
use pt_document::Director;
use pt_net::{Channel, Net, NetEntity};
use pt_past::Labels;
use pt_trees::Directing;
use pt_value::Text;
use std::alloc::{AllocError, Global};

/// What is behind a front, where a text begins with it.
fn behind<'a>(front: &str, text: &'a str) -> Option<&'a str>
    ensures some { IfSome result (λ rest. text.now ≡ front.now ++ rest.now) }
    ensures none { IfNone result ((rest : List ℕ) → text.now ≡ front.now ++ rest → ⊥) }
{
    text.strip_prefix(front)
}

/// The path of a child, as it is below that of its composite.
fn path_below<'a>(round: &str, child: &'a str) -> &'a str
    ensures { result.now ≡ path_below round.now child.now }
{
    if round == "." {
        return child;
    }
    let Some(rest) = behind(round, child) else {
        return child;
    };
    match behind(".", rest) {
        Some(below) => below,
        None => child,
    }
}

/// Channel `number` at a port of a child, as a report tells it.
fn place_label(alloc: Global, child: &str, port: &str, number: u32) -> Result<Text, AllocError>
    ensures { IfOk result (λ label. label ≡ place_text (record { child = child.now; port = port.now; channel = number })) }
{
    let label = format!(in alloc; "{child}.{port}.{number}")?;
    Text::of(alloc, label.as_str())
}

/// Channel `number` at a port of this child of the composite of that path. A port that isn't there has an empty label.
fn child_label(
    alloc: Global,
    round: &Text,
    child: &NetEntity,
    port: u32,
    number: u32,
) -> Result<Text, AllocError>
    ensures { IfOk result (λ label. label ≡ child_label round.now (Some child.now) port number) }
{
    let path = path_below(round.as_str(), child.path.as_str());
    match child.ports.get(port as usize) {
        Some(port) => place_label(alloc, path, port.name.as_str(), number),
        None => Text::of(alloc, ""),
    }
}

/// A channel within the composite of that path, by the place of a child where it ends.
fn label_of(alloc: Global, net: &Net, round: &Text, channel: &Channel) -> Result<Text, AllocError>
    ensures { IfOk result (λ label. label ≡ label_of net.now round.now channel.now) }
{
    let end = channel.to;
    match entity_in(&net.entities, end.entity as usize) {
        Some(child) => child_label(alloc, round, child, end.port, end.index),
        None => Text::of(alloc, ""),
    }
}

/// Each of these channels within the composite of that path.
fn labels_in(
    alloc: Global,
    net: &Net,
    round: &Text,
    channels: &[Channel],
) -> Result<Labels, AllocError>
    ensures { IfOk result (λ labels. labels ≡ map (label_of net.now round.now) channels.now) }
{
    let mut labels = Vec::with_capacity(alloc, channels.len())?;
    for channel in channels {
        let label = label_of(alloc, net, round, channel)?;
        labels.push(label)?;
    }
    Ok(Labels::of(labels))
}

/// Whether the composites of a director are process networks.
fn is_network(director: Directing) -> bool
    ensures { result ≡ is_network director }
{
    match director {
        Directing::By(Director::Pn) => true,
        Directing::By(Director::Sdf | Director::Sr | Director::De | Director::Rendezvous) => false,
        Directing::Modal => false,
    }
}

/// Whether an entity is a process network.
fn has_network(entity: &NetEntity) -> bool
    ensures { result ≡ has_network (director_of entity.now) }
{
    match director_of(entity) {
        Some(director) => is_network(director),
        None => false,
    }
}

/// How a report tells the channels within a composite, which are these, if it is a process network. It takes time linear in them.
pub fn labels_of(
    alloc: Global,
    net: &Net,
    entity: &NetEntity,
    channels: &[Channel],
) -> Result<Labels, AllocError>
    ensures { (k : ℕ) → channels.now ≡ channels_in net.now.channels.items k → IfOk result (λ labels. labels ≡ labels_of net.now k entity.now) }
{
    if has_network(entity) {
        labels_in(alloc, net, &entity.path, channels)
    } else {
        Ok(Labels::none(alloc))
    }
}
