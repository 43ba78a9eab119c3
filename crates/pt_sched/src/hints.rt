ghost use Rattle.std.specs.Prelude.{ℕ, ◌<◌, All, length};
ghost use Rattle.pt_sched.specs.Channels.{IsSchedEdge, AreSmall};

use crate::edge::{SchedEdge, is_short};
use std::alloc::{AllocError, Global};

/// Which children may be able to fire. It says where to look first, and no proof rests on it.
#[derive(Drop)]
pub(crate) struct Hints {
    // Whether each channel lacked tokens when it was looked at last, and how many of those that end at each child did.
    short: Vec<bool>,
    lacking: Vec<u64>,
    pub(crate) ready: Vec<u32>,
}

impl Hints {
    /// Before the first firing, where `fired` are zeros: the first child comes first.
    pub(crate) fn new(
        alloc: Global,
        n: u32,
        channels: &[SchedEdge],
        fired: &[u64],
    ) -> Result<Hints, AllocError>
        requires channels { All (IsSchedEdge (length fired.now)) channels.now }
        requires small { AreSmall fired.now }
    {
        let mut hints = Hints {
            short: vec![in alloc; false; channels.len()]?,
            lacking: vec![in alloc; 0u64; n as usize]?,
            ready: Vec::new(alloc),
        };
        for (number, channel) in channels.iter().enumerate() {
            hints.look(channel, number, fired);
        }
        for child in (0..n).rev() {
            hints.add(child)?;
        }
        Ok(hints)
    }

    /// After firings of a child: the child itself, and before it those that it gave the last tokens that they lacked.
    pub(crate) fn fired(
        &mut self,
        channels: &[SchedEdge],
        ins: &[usize],
        outs: &[usize],
        fired: &[u64],
        child: u32,
    ) -> Result<(), AllocError>
        requires channels { All (IsSchedEdge (length fired.now)) channels.now }
        requires small { AreSmall fired.now }
        requires ins { All (λ number. number < length channels.now) ins.now }
        requires outs { All (λ number. number < length channels.now) outs.now }
    {
        for number in ins {
            self.look(&channels[*number], *number, fired);
        }
        self.add(child)?;
        for number in outs {
            let channel = &channels[*number];
            if self.look(channel, *number, fired) {
                self.add(channel.edge.to)?;
            }
        }
        Ok(())
    }

    /// Looks at a channel again: whether it lacked tokens before, and doesn't now.
    fn look(&mut self, channel: &SchedEdge, number: usize, fired: &[u64]) -> bool
        requires channel { IsSchedEdge (length fired.now) channel.now }
        requires small { AreSmall fired.now }
    {
        let short = is_short(channel, fired);
        let to = channel.edge.to as usize;
        if number >= self.short.len() || to >= self.lacking.len() || self.short[number] == short {
            return false;
        }
        self.short[number] = short;
        self.lacking[to] = if short {
            self.lacking[to].saturating_add(1)
        } else {
            self.lacking[to].saturating_sub(1)
        };
        !short
    }

    /// Notes a child that lacks no channel.
    fn add(&mut self, child: u32) -> Result<(), AllocError> {
        if self.lacking.get(child as usize) == Some(&0) {
            self.ready.push(child)?;
        }
        Ok(())
    }
}
