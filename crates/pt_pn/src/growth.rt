ghost use Rattle.std.specs.Prelude.{◌≡◌, true, false, IfSome, IsSome};
ghost use Rattle.pt_pn_laws.specs.State.{doubled};
ghost use Rattle.pt_pn_work.specs.Least.{IsNoWorse};

use crate::pn::{Core, Stage};
use crate::waiting::is_any_putting;
use pt_firing::Ask;

/// What comes where no process goes further.
impl Core {
    ghost use Rattle.std.specs.Prelude.{◌≡◌, ◌+◌, ◌<◌, length, true, false, IfSome, Some, None};
    ghost use Rattle.pt_pn_laws.specs.State.{Open, AllStopped, least_full};
    ghost use Rattle.pt_pn_work.specs.Core.{PutsOn};
    ghost use Rattle.pt_pn_work.specs.Least.{IsBest};
    ghost use Rattle.pt_pn.specs.Core.{Comes};
    ghost use Rattle.pt_pn.specs.Waiting.{SomePuts, NonePut};

    /// What comes where no process goes further: the best channel grows, or the firing is over or in a jam.
    pub(crate) fn stopped(&mut self) -> Ask
        requires running { self.old.stage ≡ Open }
        requires stopped { AllStopped self.old }
        ensures { Comes self.old result self.new }
    {
        match self.best() {
            Some((channel, capacity)) => self.grow(channel, capacity),
            None => self.end(),
        }
    }

    /// The best channel, by a look at each process.
    pub(crate) fn best_of_all(&self) -> Option<(u32, usize)>
        ensures best { result ≡ least_full self.now }
        ensures there { IfSome result (λ best. best.0 < length self.now.network.plan.net.sources) }
    {
        let mut best = None;
        for process in 0..self.processes.len() {
            best = self.better(process, best);
        }
        best
    }

    /// The best of the first so many processes and the next one.
    fn better(&self, process: usize, best: Option<(u32, usize)>) -> Option<(u32, usize)>
        requires there { process < length self.now.network.plan.net.places }
        requires best { IsBest self.now process best }
        requires within { IfSome best (λ best. best.0 < length self.now.network.plan.net.sources) }
        ensures best { IsBest self.now (process + 1) result }
        ensures within { IfSome result (λ best. best.0 < length self.now.network.plan.net.sources) }
    {
        match self.processes[process].next_put() {
            Some(channel) => self.better_with(process, channel, best),
            None => best,
        }
    }

    /// The same where that process puts next on a channel.
    fn better_with(
        &self,
        process: usize,
        channel: u32,
        best: Option<(u32, usize)>,
    ) -> Option<(u32, usize)>
        requires puts { PutsOn self.now process channel }
        requires best { IsBest self.now process best }
        requires within { IfSome best (λ best. best.0 < length self.now.network.plan.net.sources) }
        ensures best { IsBest self.now (process + 1) result }
        ensures within { IfSome result (λ best. best.0 < length self.now.network.plan.net.sources) }
    {
        let capacity = self.capacity[channel as usize];
        if capacity >= self.network.greatest(channel as usize) {
            return best;
        }
        if stays_best(best, channel, capacity) {
            return best;
        }
        Some((channel, capacity))
    }

    /// A full channel of this capacity grows.
    fn grow(&mut self, channel: u32, capacity: usize) -> Ask
        requires running { self.old.stage ≡ Open }
        requires stopped { AllStopped self.old }
        requires best { least_full self.old ≡ Some (channel, capacity) }
        requires there { channel < length self.old.network.plan.net.sources }
        ensures { Comes self.old result self.new }
    {
        let greatest = self.network.greatest(channel as usize);
        self.capacity[channel as usize] = doubled(capacity, greatest);
        self.notes.note_room(channel);
        Ask::Grow
    }

    /// The end, or a jam, where no process goes further and no channel that is waited for may grow.
    fn end(&mut self) -> Ask
        requires running { self.old.stage ≡ Open }
        requires stopped { AllStopped self.old }
        requires none { least_full self.old ≡ None }
        ensures { Comes self.old result self.new }
    {
        if self.is_anyone_putting() {
            self.stage = Stage::Blocked;
            Ask::Full
        } else {
            self.stage = Stage::Closed;
            Ask::Finished
        }
    }

    /// Whether some process waits to put. Where it is noted that none does, no process is looked at.
    fn is_anyone_putting(&self) -> bool
        ensures some { result ≡ true → SomePuts self.now.halfway.puts }
        ensures none { result ≡ false → NonePut self.now.halfway.puts }
    {
        if self.notes.are_resting() {
            return false;
        }
        is_any_putting(&self.processes)
    }
}

/// Whether there is a best one, and it stays so beside another channel: it has less capacity, or as much and no greater number.
fn stays_best(best: Option<(u32, usize)>, channel: u32, capacity: usize) -> bool
    ensures yes { result ≡ true → IsSome best }
    ensures stays { result ≡ true → IfSome best (λ best. IsNoWorse best.0 best.1 channel capacity) }
    ensures no { result ≡ false → IfSome best (λ best. IsNoWorse channel capacity best.0 best.1) }
{
    match best {
        Some(best) => best.1 < capacity || best.1 == capacity && best.0 <= channel,
        None => false,
    }
}

/// A capacity that is doubled, at most to the greatest.
fn doubled(capacity: usize, greatest: usize) -> usize
    ensures { result ≡ doubled greatest capacity }
{
    capacity.saturating_add(capacity).min(greatest)
}
