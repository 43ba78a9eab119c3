use crate::offers::{can_join, can_pass};
use crate::passing::{pass, pass_all};
use crate::rv::{Core, Stage};
use pt_firing::{Ask, Meeting};

/// What comes of a look at a process or at a meeting, and at one after another.
impl Core {
    ghost use Rattle.std.specs.Prelude.{◌≡◌, ◌<◌, length, true, false, IfSome, IsNone};
    ghost use Rattle.pt_meaning.specs.Log.{Channel, Barrier};
    ghost use Rattle.pt_rv_laws.specs.State.{Open, AllRest, MayFire, IsLegal, IsOver};
    ghost use Rattle.pt_rv_work.specs.Seen.{IsIllegal};
    ghost use Rattle.pt_rv.specs.Core.{Comes, Looks, FiresOrRests, NoneOnChannels};

    /// What comes next: a firing of a process, or where none can fire a meeting, or the end.
    #[inline(always)]
    pub(crate) fn next(&mut self) -> Ask
        requires { self.old.stage ≡ Open }
        ensures { Comes self.old result self.new }
    {
        match self.fire_next() {
            Some(answer) => answer,
            None => self.meet_next(),
        }
    }

    /// Asks a process to fire, if one may.
    #[inline(always)]
    fn fire_next(&mut self) -> Option<Ask>
        requires { self.old.stage ≡ Open }
        ensures { FiresOrRests self.old result self.new }
    {
        match self.any_firing() {
            Some(process) => Some(self.fire(process)),
            None => None,
        }
    }

    /// A process that may fire, if one may.
    #[inline(always)]
    fn any_firing(&self) -> Option<u32>
        ensures may { IfSome result (λ process. MayFire self.now process) }
        ensures rests { IsNone result → AllRest self.now }
    {
        match self.parties.team.any_firing() {
            Some(process) => Some(process as u32),
            None => None,
        }
    }

    /// A process hands over what it has gathered, and is asked to fire.
    #[inline(always)]
    fn fire(&mut self, process: u32) -> Ask
        requires running { self.old.stage ≡ Open }
        requires may { MayFire self.old process }
        ensures { Comes self.old result self.new }
    {
        self.parties.team.hand(process as usize);
        self.stage = Stage::Asked(process);
        Ask::Fire(process, self.tag)
    }

    /// Makes a meeting that is legal, or ends. Only where the worklist leads to none are all looked at.
    #[inline(always)]
    fn meet_next(&mut self) -> Ask
        requires running { self.old.stage ≡ Open }
        requires rests { AllRest self.old }
        ensures { Comes self.old result self.new }
    {
        for _ in 0..self.worklist.len() {
            match self.look_at_next() {
                Some(answer) => return answer,
                None => {}
            }
        }
        self.look_at_all()
    }

    /// Looks at each channel and at each Barrier.
    fn look_at_all(&mut self) -> Ask
        requires running { self.old.stage ≡ Open }
        requires rests { AllRest self.old }
        ensures { Comes self.old result self.new }
    {
        for channel in 0..self.plan.channels() {
            match self.look_at_channel(channel as u32) {
                Some(answer) => return answer,
                None => {}
            }
        }
        self.look_at_barriers()
    }

    /// Looks at each Barrier, where no meeting on a channel is legal.
    fn look_at_barriers(&mut self) -> Ask
        requires running { self.old.stage ≡ Open }
        requires rests { AllRest self.old }
        requires channels { NoneOnChannels self.old }
        ensures { Comes self.old result self.new }
    {
        for barrier in 0..self.plan.processes() {
            match self.look_at_barrier(barrier as u32) {
                Some(answer) => return answer,
                None => {}
            }
        }
        self.end()
    }

    /// The firing is over.
    fn end(&mut self) -> Ask
        requires running { self.old.stage ≡ Open }
        requires over { IsOver self.old }
        ensures { Comes self.old result self.new }
    {
        self.stage = Stage::Closed;
        Ask::Finished
    }

    /// Makes the meeting on a channel, if that is legal.
    #[inline(always)]
    pub(crate) fn look_at_channel(&mut self, channel: u32) -> Option<Ask>
        requires there { channel < length self.old.processes.plan.net.sources }
        requires running { self.old.stage ≡ Open }
        requires rests { AllRest self.old }
        ensures { Looks self.old (Channel channel) result self.new }
    {
        if self.is_channel_legal(channel) {
            return Some(self.meet_on(channel));
        }
        None
    }

    /// Whether the meeting on a channel is legal.
    #[inline(always)]
    fn is_channel_legal(&mut self, channel: u32) -> bool
        requires there { channel < length self.old.processes.plan.net.sources }
        requires running { self.old.stage ≡ Open }
        ensures same { self.new ≡ self.old }
        ensures legal { result ≡ true → IsLegal self.old (Channel channel) }
        ensures illegal { result ≡ false → IsIllegal self.old (Channel channel) }
    {
        can_pass(&self.plan, &mut self.parties, channel as usize)
    }

    /// Makes the meeting on a channel.
    #[inline(always)]
    fn meet_on(&mut self, channel: u32) -> Ask
        requires there { channel < length self.old.processes.plan.net.sources }
        requires running { self.old.stage ≡ Open }
        requires rests { AllRest self.old }
        requires legal { IsLegal self.old (Channel channel) }
        ensures { Comes self.old result self.new }
    {
        let target = self.plan.target(channel as usize);
        let source = self.plan.source(channel as usize);
        pass(&self.plan, &mut self.parties, channel as usize, target);
        self.met.note(Meeting::Channel(channel));
        self.worklist.note_sender(source);
        self.worklist.note_target(target);
        Ask::Meet(Meeting::Channel(channel))
    }

    /// Makes the meeting of a Barrier, if that is legal.
    pub(crate) fn look_at_barrier(&mut self, barrier: u32) -> Option<Ask>
        requires there { barrier < length self.old.processes.plan.net.places }
        requires running { self.old.stage ≡ Open }
        requires rests { AllRest self.old }
        ensures { Looks self.old (Barrier barrier) result self.new }
    {
        if self.is_barrier_legal(barrier) {
            return Some(self.meet_barrier(barrier));
        }
        None
    }

    /// Whether the meeting of a Barrier is legal.
    fn is_barrier_legal(&mut self, barrier: u32) -> bool
        requires there { barrier < length self.old.processes.plan.net.places }
        requires running { self.old.stage ≡ Open }
        ensures same { self.new ≡ self.old }
        ensures legal { result ≡ true → IsLegal self.old (Barrier barrier) }
        ensures illegal { result ≡ false → IsIllegal self.old (Barrier barrier) }
    {
        can_join(&self.plan, &mut self.parties, barrier as usize)
    }

    /// Makes the meeting of a Barrier.
    fn meet_barrier(&mut self, barrier: u32) -> Ask
        requires there { barrier < length self.old.processes.plan.net.places }
        requires running { self.old.stage ≡ Open }
        requires rests { AllRest self.old }
        requires legal { IsLegal self.old (Barrier barrier) }
        ensures { Comes self.old result self.new }
    {
        pass_all(&self.plan, &mut self.parties, barrier);
        self.met.note(Meeting::Barrier(barrier));
        self.worklist.note_barrier(&self.plan, barrier);
        Ask::Meet(Meeting::Barrier(barrier))
    }
}
