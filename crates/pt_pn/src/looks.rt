use crate::pn::{Core, Stage};
use crate::processes::{get_from, hand_at, next_of, take_put};
use crate::puts::put_promised;
use pt_firing::Ask;
use pt_process::Event;

/// What comes of a look at a process, and at one after another.
impl Core {
    ghost use Rattle.std.specs.Prelude.{◌≡◌, ◌+◌, ◌<◌, length, IfSome};
    ghost use Rattle.pt_pn_laws.specs.State.{Open, MayPut, MayFire, offset_of, has_room};
    ghost use Rattle.pt_pn_work.specs.Core.{PutsOn, LacksAt, GetsAt};
    ghost use Rattle.pt_pn.specs.Core.{Comes, MayCome, Looks};

    /// What comes of a process in the worklist, or else of any.
    pub(crate) fn next(&mut self) -> Ask
        requires { self.old.stage ≡ Open }
        ensures { Comes self.old result self.new }
    {
        for _ in 0..self.notes.len() {
            match self.look_at_next() {
                Some(ask) => return ask,
                None => {}
            }
        }
        self.next_of_all()
    }

    /// What comes of any process. All are looked at only where one isn't noted as stopped.
    pub(crate) fn next_of_all(&mut self) -> Ask
        requires { self.old.stage ≡ Open }
        ensures { Comes self.old result self.new }
    {
        if self.notes.are_settled() {
            return self.stopped();
        }
        self.look_at_all()
    }

    /// What comes of the next process in the worklist, if anything does.
    fn look_at_next(&mut self) -> Option<Ask>
        requires { self.old.stage ≡ Open }
        ensures { MayCome self.old result self.new }
    {
        match self.taken() {
            Some(process) => self.look_once(process),
            None => None,
        }
    }

    /// Takes a process out of the worklist.
    pub(crate) fn taken(&mut self) -> Option<u32>
        ensures same { self.new ≡ self.old }
        ensures there { IfSome result (λ process. process < length self.old.network.plan.net.places) }
    {
        let process = self.notes.take()?;
        if (process as usize) < self.network.processes() {
            return Some(process);
        }
        None
    }

    /// What comes of a look at each process.
    fn look_at_all(&mut self) -> Ask
        requires { self.old.stage ≡ Open }
        ensures { Comes self.old result self.new }
    {
        for process in 0..self.network.processes() {
            match self.look_once(process as u32) {
                Some(ask) => return ask,
                None => {}
            }
        }
        self.stopped()
    }

    /// What comes of a look at a process, which stands in the worklist again where it made a get or a put.
    fn look_once(&mut self, process: u32) -> Option<Ask>
        requires there { process < length self.old.network.plan.net.places }
        requires running { self.old.stage ≡ Open }
        ensures { Looks self.old process result self.new }
    {
        match self.look(process) {
            Some(Ask::Get(of)) => {
                self.look_again(process);
                Some(Ask::Get(of))
            }
            Some(Ask::Put(of)) => {
                self.look_again(process);
                Some(Ask::Put(of))
            }
            other => other,
        }
    }

    /// A process stands in the worklist again.
    fn look_again(&mut self, process: u32)
        ensures { self.new ≡ self.old }
    {
        self.notes.look_again(process);
    }

    /// What comes of a look at a process: it makes its next event, or is stopped.
    #[inline(always)]
    pub(crate) fn look(&mut self, process: u32) -> Option<Ask>
        requires there { process < length self.old.network.plan.net.places }
        requires running { self.old.stage ≡ Open }
        ensures { Looks self.old process result self.new }
    {
        match next_of(&mut self.processes, process as usize) {
            Event::Put(channel) => self.look_at_put(process, channel),
            Event::Get(place) => self.look_at_get(process, place),
            Event::Fire => Some(self.fire(process)),
            Event::Over => {
                self.notes.rest(process);
                None
            }
        }
    }

    /// The same where its next event is a put.
    #[inline(always)]
    fn look_at_put(&mut self, process: u32, channel: u32) -> Option<Ask>
        requires there { process < length self.old.network.plan.net.places }
        requires running { self.old.stage ≡ Open }
        requires puts { PutsOn self.old process channel }
        ensures { Looks self.old process result self.new }
    {
        if !self.has_room(process, channel) {
            let capacity = self.capacity[channel as usize];
            self.notes.await_room(process, channel, capacity);
            return None;
        }
        Some(self.put(process))
    }

    /// Whether a put on a channel may be made, which is the next one of a process.
    #[inline(always)]
    fn has_room(&self, process: u32, channel: u32) -> bool
        requires { PutsOn self.now process channel }
        ensures { result ≡ has_room self.now channel }
    {
        if channel as usize >= self.network.inner() {
            return true;
        }
        self.queues.len(channel) < self.capacity[channel as usize]
    }

    /// A process makes its next put.
    #[inline(always)]
    fn put(&mut self, process: u32) -> Ask
        requires running { self.old.stage ≡ Open }
        requires may { MayPut self.old process }
        ensures { Comes self.old result self.new }
    {
        let put = take_put(&mut self.processes, process as usize);
        self.notes.note_put(process, put.channel);
        put_promised(&mut self.queues, &mut self.promised, put);
        Ask::Put(process)
    }

    /// What comes of a look at a process whose next event is a get.
    #[inline(always)]
    fn look_at_get(&mut self, process: u32, place: usize) -> Option<Ask>
        requires there { process < length self.old.network.plan.net.places }
        requires running { self.old.stage ≡ Open }
        requires lacks { LacksAt self.old process place }
        ensures { Looks self.old process result self.new }
    {
        let channel = (self.network.offset(process as usize) + place) as u32;
        if self.queues.len(channel) == 0 {
            self.notes.await_token(process, channel);
            return None;
        }
        Some(self.get(process, place, channel))
    }

    /// A process takes a token at a place, from the channel that ends there.
    #[inline(always)]
    fn get(&mut self, process: u32, place: usize, channel: u32) -> Ask
        requires running { self.old.stage ≡ Open }
        requires may { GetsAt self.old process place }
        requires channel { channel ≡ offset_of self.old.network.plan.net.places process + place }
        ensures { Comes self.old result self.new }
    {
        let which = process as usize;
        get_from(&mut self.queues, channel, &mut self.processes, which, place);
        self.notes.note_get(process, channel);
        Ask::Get(process)
    }

    /// A process hands over what it has gathered, and is asked to fire.
    #[inline(always)]
    fn fire(&mut self, process: u32) -> Ask
        requires running { self.old.stage ≡ Open }
        requires may { MayFire self.old process }
        ensures { Comes self.old result self.new }
    {
        hand_at(&mut self.processes, process as usize);
        self.stage = Stage::Asked(process);
        Ask::Fire(process, self.tag)
    }
}
