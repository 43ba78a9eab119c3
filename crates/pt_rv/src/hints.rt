// Where the worklist leads to a meeting. What is found is made only where a look shows that it is legal.

use crate::offers::is_offered;
use crate::rv::Core;
use pt_firing::Ask;
use pt_rv_parts::Event;
use pt_rv_plan::Target;

impl Core {
    ghost use Rattle.std.specs.Prelude.{◌≡◌, ◌<◌, length};
    ghost use Rattle.pt_rv_laws.specs.State.{Open, AllRest};
    ghost use Rattle.pt_rv.specs.Core.{MayCome};

    /// What comes of the next party in the worklist, if anything does.
    #[inline(always)]
    pub(crate) fn look_at_next(&mut self) -> Option<Ask>
        requires running { self.old.stage ≡ Open }
        requires rests { AllRest self.old }
        ensures { MayCome self.old result self.new }
    {
        match self.next_party() {
            Some(party) => self.look_at_party(party),
            None => None,
        }
    }

    /// Takes a party out of the worklist.
    #[inline(always)]
    fn next_party(&mut self) -> Option<u32>
        ensures { self.new ≡ self.old }
    {
        self.worklist.take()
    }

    /// What comes of a look at a party: first at the channel of what it does next, then at whatever else that may lead to.
    #[inline(always)]
    fn look_at_party(&mut self, party: u32) -> Option<Ask>
        requires running { self.old.stage ≡ Open }
        requires rests { AllRest self.old }
        ensures { MayCome self.old result self.new }
    {
        match self.look_at_channel_of(party) {
            Some(answer) => Some(answer),
            None => self.look_further(party),
        }
    }

    /// What comes of a look at the channel of what a party does next.
    #[inline(always)]
    fn look_at_channel_of(&mut self, party: u32) -> Option<Ask>
        requires running { self.old.stage ≡ Open }
        requires rests { AllRest self.old }
        ensures { MayCome self.old result self.new }
    {
        match self.channel_of(party) {
            Some(channel) => self.try_channel(channel),
            None => None,
        }
    }

    /// The channel of the put or of the get that a party does next, if it does one.
    #[inline(always)]
    fn channel_of(&mut self, party: u32) -> Option<usize>
        requires { self.old.stage ≡ Open }
        ensures { self.new ≡ self.old }
    {
        if (party as usize) < self.plan.processes() {
            return self.channel_of_process(party);
        }
        match self.inlet_put(party as usize) {
            Some(channel) => Some(channel as usize),
            None => None,
        }
    }

    /// The same of a process.
    #[inline(always)]
    fn channel_of_process(&mut self, process: u32) -> Option<usize>
        requires there { process < length self.old.processes.plan.net.places }
        requires running { self.old.stage ≡ Open }
        ensures { self.new ≡ self.old }
    {
        let event = self.event(process);
        match event {
            Event::Put(channel) => Some(channel as usize),
            Event::Get(place) => self.channel_to(process, place),
            Event::GetAny | Event::Join | Event::Fire | Event::Over => None,
        }
    }

    /// The channel of the next put of the own input with this number behind the processes, if it has one.
    fn inlet_put(&self, party: usize) -> Option<u32> {
        let port = party.saturating_sub(self.plan.processes());
        match self.parties.inlets.get(port) {
            Some(inlet) => inlet.next_put(),
            None => None,
        }
    }

    /// What a process does next.
    #[inline(always)]
    fn event(&mut self, process: u32) -> Event
        requires there { process < length self.old.processes.plan.net.places }
        requires running { self.old.stage ≡ Open }
        ensures { self.new ≡ self.old }
    {
        self.parties.team.next(process as usize)
    }

    /// The channel that ends at a place of a process, if it has that.
    #[inline(always)]
    fn channel_to(&self, process: u32, place: usize) -> Option<usize>
        requires { process < length self.now.processes.plan.net.places }
    {
        if place >= self.plan.places(process as usize) {
            return None;
        }
        Some(self.plan.channel_at(process as usize, place))
    }

    /// What else comes of a party, where no meeting on the channel of what it does next is legal.
    #[inline(never)]
    fn look_further(&mut self, party: u32) -> Option<Ask>
        requires running { self.old.stage ≡ Open }
        requires rests { AllRest self.old }
        ensures { MayCome self.old result self.new }
    {
        if (party as usize) < self.plan.processes() {
            return self.look_at_process(party);
        }
        match self.inlet_put(party as usize) {
            Some(channel) => self.look_along(channel),
            None => None,
        }
    }

    /// What else comes of a process.
    fn look_at_process(&mut self, process: u32) -> Option<Ask>
        requires there { process < length self.old.processes.plan.net.places }
        requires running { self.old.stage ≡ Open }
        requires rests { AllRest self.old }
        ensures { MayCome self.old result self.new }
    {
        let event = self.event(process);
        self.look_by(process, event)
    }

    /// What else comes of a process that does this next.
    fn look_by(&mut self, process: u32, event: Event) -> Option<Ask>
        requires there { process < length self.old.processes.plan.net.places }
        requires running { self.old.stage ≡ Open }
        requires rests { AllRest self.old }
        ensures { MayCome self.old result self.new }
    {
        match event {
            Event::Put(channel) => self.look_along(channel),
            Event::GetAny => self.look_at_waiting(process),
            Event::Join => self.look_at_join(process),
            Event::Get(_) | Event::Fire | Event::Over => None,
        }
    }

    /// What else comes of a put on a channel, by what is done where it ends.
    fn look_along(&mut self, channel: u32) -> Option<Ask>
        requires running { self.old.stage ≡ Open }
        requires rests { AllRest self.old }
        ensures { MayCome self.old result self.new }
    {
        match self.end_of(channel) {
            Some(Target::Place(process, _)) => self.look_at_receiver(process, channel),
            Some(Target::Outlet(_)) | None => None,
        }
    }

    /// Where a channel ends, if it is there.
    fn end_of(&self, channel: u32) -> Option<Target> {
        if channel as usize >= self.plan.channels() {
            return None;
        }
        Some(self.plan.target(channel as usize))
    }

    /// What else comes of a put on a channel that ends at a process.
    fn look_at_receiver(&mut self, process: u32, channel: u32) -> Option<Ask>
        requires running { self.old.stage ≡ Open }
        requires rests { AllRest self.old }
        ensures { MayCome self.old result self.new }
    {
        if process as usize >= self.plan.processes() {
            return None;
        }
        let event = self.event(process);
        self.look_from(process, channel, event)
    }

    /// What else comes of a put to a process that does this next. Where that is something else than a get, the token waits.
    fn look_from(&mut self, process: u32, channel: u32, event: Event) -> Option<Ask>
        requires there { process < length self.old.processes.plan.net.places }
        requires running { self.old.stage ≡ Open }
        requires rests { AllRest self.old }
        ensures { MayCome self.old result self.new }
    {
        match event {
            Event::Join => self.look_at_join(process),
            Event::Get(_) | Event::GetAny => None,
            Event::Put(_) | Event::Fire | Event::Over => self.wait(process, channel),
        }
    }

    /// A token waits for a process that gets from any place.
    fn wait(&mut self, process: u32, channel: u32) -> Option<Ask>
        ensures { MayCome self.old result self.new }
    {
        self.worklist.wait(process, channel);
        None
    }

    /// What comes of a get at any place, by the channels on which tokens wait for it.
    fn look_at_waiting(&mut self, process: u32) -> Option<Ask>
        requires running { self.old.stage ≡ Open }
        requires rests { AllRest self.old }
        ensures { MayCome self.old result self.new }
    {
        for _ in 0..self.worklist.waiting_len(process) {
            match self.try_waiting(process) {
                Some(answer) => return Some(answer),
                None => {}
            }
        }
        None
    }

    /// What comes of the channel that waited first for a process.
    fn try_waiting(&mut self, process: u32) -> Option<Ask>
        requires running { self.old.stage ≡ Open }
        requires rests { AllRest self.old }
        ensures { MayCome self.old result self.new }
    {
        match self.next_waiting(process) {
            Some(channel) => self.try_channel(channel as usize),
            None => None,
        }
    }

    /// Takes out the channel that waited first for a process.
    fn next_waiting(&mut self, process: u32) -> Option<u32>
        ensures { self.new ≡ self.old }
    {
        self.worklist.take_waiting(process)
    }

    /// What comes of the meeting on a channel, if it is there.
    #[inline(always)]
    fn try_channel(&mut self, channel: usize) -> Option<Ask>
        requires running { self.old.stage ≡ Open }
        requires rests { AllRest self.old }
        ensures { MayCome self.old result self.new }
    {
        if channel >= self.plan.channels() {
            return None;
        }
        self.look_at_channel(channel as u32)
    }

    /// What comes of a Barrier that joins. All its channels are looked at only once each was found to offer a token.
    fn look_at_join(&mut self, barrier: u32) -> Option<Ask>
        requires there { barrier < length self.old.processes.plan.net.places }
        requires running { self.old.stage ≡ Open }
        requires rests { AllRest self.old }
        ensures { MayCome self.old result self.new }
    {
        if self.misses(barrier) {
            return None;
        }
        self.look_at_barrier(barrier)
    }

    /// Whether a place of a Barrier is found at which no token is offered.
    fn misses(&mut self, barrier: u32) -> bool
        requires { barrier < length self.old.processes.plan.net.places }
        ensures { self.new ≡ self.old }
    {
        let missing = self.first_missing(barrier);
        self.note_missing(barrier, missing.unwrap_or(0));
        missing.is_some()
    }

    /// The first place of a Barrier at which no token is offered, from the one on where none was before.
    fn first_missing(&self, barrier: u32) -> Option<usize>
        requires { barrier < length self.now.processes.plan.net.places }
    {
        let process = barrier as usize;
        for place in self.worklist.missing(barrier)..self.plan.places(process) {
            let channel = self.plan.channel_at(process, place);
            let offered = is_offered(&self.plan, &self.parties, channel);
            if !offered {
                return Some(place);
            }
        }
        None
    }

    /// No token is offered at this place of a Barrier.
    fn note_missing(&mut self, barrier: u32, place: usize)
        ensures { self.new ≡ self.old }
    {
        self.worklist.misses(barrier, place);
    }
}
