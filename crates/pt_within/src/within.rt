ghost use Rattle.std.specs.Prelude.{◌≡◌, ℕ, ◌++◌, ◌∷◌, [], List, length, get_or, IfOk, OnOk};
ghost use Rattle.pt_net.specs.declared.net.Channel.{Channel};
ghost use Rattle.pt_within.specs.Within.{AreWithin};

use pt_net::Channel;
use std::alloc::{AllocError, Global};
use std::marker::Model;

/// The channels within a composite, in the order of their numbers.
#[derive(Debug, Drop)]
pub struct Within {
    channels: Vec<Channel>,
}

impl Model for Within {
    ghost use Rattle.std.specs.Prelude.{List};
    ghost use Rattle.pt_net.specs.declared.net.Channel.{Channel};

    ghost Value = { List Channel };

    ghost view = { λ w. w.channels.items };
}

impl Within {
    fn new(alloc: Global) -> Within
        ensures { result ≡ [] }
    {
        Within {
            channels: Vec::new(alloc),
        }
    }

    fn push(&mut self, channel: Channel) -> Result<(), AllocError>
        ensures { OnOk result (self.new ≡ self.old ++ channel ∷ []) }
    {
        self.channels.push(channel)?;
        Ok(())
    }

    fn as_slice(&self) -> &[Channel]
        ensures { result.now ≡ self.now }
    {
        &self.channels
    }
}

fn no_lists(alloc: Global, count: usize) -> Result<Vec<Within>, AllocError>
    ensures counted { IfOk result (λ lists. length lists.items ≡ count) }
    ensures empty { IfOk result (λ lists. (c : ℕ) → get_or lists.items c [] ≡ []) }
{
    let mut lists = Vec::with_capacity(alloc, count)?;
    for _ in 0..count {
        lists.push(Within::new(alloc))?;
    }
    Ok(lists)
}

/// Puts a channel behind those of its composite.
fn add_channel(lists: &mut Vec<Within>, channel: Channel) -> Result<(), AllocError>
    ensures { OnOk result ((count : ℕ) (ks : List Channel) → AreWithin count ks lists.old.items → AreWithin count (ks ++ channel ∷ []) lists.new.items) }
{
    let composite = channel.composite as usize;
    if composite < lists.len() {
        lists[composite].push(channel)?;
    }
    Ok(())
}

/// The channels within each of so many entities.
pub fn within_all(
    alloc: Global,
    count: usize,
    channels: &[Channel],
) -> Result<Vec<Within>, AllocError>
    ensures { IfOk result (λ lists. AreWithin count channels.now lists.items) }
{
    let mut lists = no_lists(alloc, count)?;
    for channel in channels {
        add_channel(&mut lists, *channel)?;
    }
    Ok(lists)
}

/// The channels within an entity, of which there are none behind the last.
pub fn within_at(lists: &[Within], k: usize) -> &[Channel]
    ensures { result.now ≡ get_or lists.now k [] }
{
    match lists.get(k) {
        Some(within) => within.as_slice(),
        None => &[],
    }
}
