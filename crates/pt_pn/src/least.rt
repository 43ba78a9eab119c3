ghost use Rattle.std.specs.Prelude.{◌≡◌, IfSome, Some};

use crate::pn::Core;
use pt_time::Tag;

/// Which channel grows, by the ranks that are noted.
impl Core {
    ghost use Rattle.std.specs.Prelude.{◌≡◌, ℕ, ◌<◌, length, IfSome, IfNone};
    ghost use Rattle.pt_pn_laws.specs.State.{least_full};
    ghost use Rattle.pt_pn_work.specs.Core.{PutsOn};
    ghost use Rattle.pt_pn.specs.Waiting.{AwaitsGrowth};

    /// Of the channels that processes wait to put on, and that may still grow, the one of least capacity, and of these the one of least number, with its capacity.
    pub(crate) fn best(&mut self) -> Option<(u32, usize)>
        ensures same { self.new ≡ self.old }
        ensures best { result ≡ least_full self.old }
        ensures there { IfSome result (λ best. best.0 < length self.old.network.plan.net.sources) }
    {
        for _ in 0..self.notes.turns() {
            match self.best_noted() {
                Some(best) => return best,
                None => {}
            }
        }
        self.best_of_all()
    }

    /// The best channel by the least rank. Nothing is said where a process isn't noted as stopped, or where that rank was out of date, which it is no more.
    fn best_noted(&mut self) -> Option<Option<(u32, usize)>>
        ensures same { self.new ≡ self.old }
        ensures best { IfSome result (λ best. best ≡ least_full self.old) }
        ensures there { IfSome result (λ best. IfSome best (λ best. best.0 < length self.old.network.plan.net.sources)) }
    {
        if !self.notes.are_settled() {
            return None;
        }
        let Some(rank) = self.notes.least() else {
            return Some(None);
        };
        let channel = rank.step;
        let process = self.notes.writer(channel);
        let capacity = self.growing(process, channel);
        match of_rank(capacity, rank) {
            Some(found) => Some(Some((channel, found))),
            None => {
                self.notes.note_rank(channel, capacity);
                None
            }
        }
    }

    /// The capacity of a channel, where a process puts next on it and it may grow.
    fn growing(&self, process: u32, channel: u32) -> Option<usize>
        ensures some { IfSome result (AwaitsGrowth self.now process channel) }
        ensures none { IfNone result ((capacity : ℕ) → AwaitsGrowth self.now process channel capacity → ⊥) }
    {
        if process as usize >= self.processes.len() {
            return None;
        }
        match self.processes[process as usize].next_put() {
            Some(next) => self.growing_at(process, next, channel),
            None => None,
        }
    }

    /// The same where the process puts next on some channel.
    fn growing_at(&self, process: u32, next: u32, channel: u32) -> Option<usize>
        requires { PutsOn self.now process next }
        ensures some { IfSome result (AwaitsGrowth self.now process channel) }
        ensures none { IfNone result ((capacity : ℕ) → AwaitsGrowth self.now process channel capacity → ⊥) }
    {
        if next != channel {
            return None;
        }
        let capacity = self.capacity[next as usize];
        if capacity >= self.network.greatest(next as usize) {
            return None;
        }
        Some(capacity)
    }
}

/// The capacity of a channel, where it is that of the rank.
fn of_rank(capacity: Option<usize>, rank: Tag) -> Option<usize>
    ensures given { IfSome result (λ found. capacity ≡ Some found) }
    ensures time { IfSome result (λ found. found ≡ rank.time) }
{
    let capacity = capacity?;
    if capacity as u64 != rank.time {
        return None;
    }
    Some(capacity)
}
