ghost use Rattle.std.specs.Prelude.{◌≡◌, ℕ, ◌+◌, ◌<◌, ◌≤◌, ◌++◌, All, IfOk, List, OnOk, length, replicate, slice_index, slice_set, sum};
ghost use Rattle.pt_sched.specs.Channels.{IsSchedEdge, AreSmall};
ghost use Rattle.pt_sched.specs.Lists.{AreAt};
ghost use Rattle.pt_sched.specs.Next.{IsReadyFor};
ghost use Rattle.pt_sched.specs.Runs.{AreGreatestLengths};
ghost use Rattle.pt_sched.specs.State.{IsHeld, IsCounted};
ghost use Rattle.pt_sched.specs.Stretches.{spread};
ghost use Rattle.pt_sched.specs.declared.lists.Side.TheVariants.{Start};

use crate::edge::{SchedEdge, tokens};
use crate::stretch::Stretch;
use std::alloc::{AllocError, Global};

/// A run: its order, how often each child fired in it, and the greatest length of each channel.
#[derive(Drop)]
pub(crate) struct Run {
    pub(crate) order: Vec<Stretch>,
    pub(crate) fired: Vec<u64>,
    pub(crate) lengths: Vec<u64>,
}

impl Run {
    /// No child has fired.
    pub(crate) fn new(alloc: Global, n: u32, channels: &[SchedEdge]) -> Result<Run, AllocError>
        ensures { IfOk result (λ run. (q : List ℕ) → length q ≡ n → IsHeld channels.now q run) }
    {
        let fired = vec![in alloc; 0u64; n as usize]?;
        let mut lengths = Vec::with_capacity(alloc, channels.len())?;
        for channel in channels {
            lengths.push(channel.initial)?;
        }
        Ok(Run {
            order: Vec::new(alloc),
            fired,
            lengths,
        })
    }

    /// Fires a child that has its tokens so many times. `outs` are the channels that begin at it.
    pub(crate) fn fire(
        &mut self,
        channels: &[SchedEdge],
        q: &[u64],
        outs: &[usize],
        child: u32,
        times: u64,
    ) -> Result<(), AllocError>
        requires channels { All (IsSchedEdge (length q.now)) channels.now }
        requires q { sum q.now ≤ 1000000 }
        requires held { IsHeld channels.now q.now self.old }
        requires outs { AreAt Start channels.now child outs.now }
        requires ready { IsReadyFor channels.now q.now (slice_index self.old.fired.items) child times }
        ensures held { OnOk result (IsHeld channels.now q.now self.new) }
        ensures order { OnOk result (spread self.new.order.items ≡ spread self.old.order.items ++ replicate times child) }
        ensures fired { OnOk result (self.new.fired.items ≡ slice_set self.old.fired.items child (slice_index self.old.fired.items child + times)) }
    {
        let again = (times - 1) as u32;
        self.order.push(Stretch { child, again })?;
        self.fired[child as usize] += times;
        raise(channels, outs, &self.fired, &mut self.lengths);
        Ok(())
    }
}

/// Raises the greatest lengths of these channels, which are all that begin at a child, after the child has fired some times.
fn raise(channels: &[SchedEdge], outs: &[usize], fired: &[u64], lengths: &mut [u64])
    requires channels { All (IsSchedEdge (length fired.now)) channels.now }
    requires small { AreSmall fired.now }
    requires inside { All (λ number. number < length channels.now) outs.now }
    requires counted { length lengths.old ≡ length channels.now }
    ensures { (order : List ℕ) (child times : ℕ) → IsCounted fired.now (order ++ replicate times child) → AreAt Start channels.now child outs.now → AreGreatestLengths channels.now order lengths.old → AreGreatestLengths channels.now (order ++ replicate times child) lengths.new }
{
    for number in outs {
        let most = lengths[*number];
        lengths[*number] = most.max(tokens(&channels[*number], fired));
    }
}
