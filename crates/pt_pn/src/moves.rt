ghost use Rattle.std.specs.Prelude.{◌≡◌, true};
ghost use Rattle.pt_pn.specs.Core.{IsSomeTransfer};

use crate::pn::{Core, Stage};
use pt_firing::Ask;

/// Several moves in one call: a process makes its gets and puts one after another, and then the next does, until something else comes.
impl Core {
    ghost use Rattle.std.specs.Prelude.{◌≡◌, ◌<◌, length};
    ghost use Rattle.pt_pn_laws.specs.State.{Open};
    ghost use Rattle.pt_pn_laws.specs.PnActs.{MayAsk, pn_calls};
    ghost use Rattle.pt_pn.specs.Moves.{ComesOn};
    ghost use Rattle.pt_pn.specs.Core.{GoesOn};

    /// What comes next, after gets and puts that are made as it is asked. It takes no memory.
    pub fn ask_on(&mut self) -> Ask
        requires { MayAsk self.old.stage }
        ensures { ComesOn pn_calls self.old result self.new }
    {
        match self.stage {
            Stage::Open => self.next_on(),
            Stage::Idle | Stage::Asked(_) | Stage::Closed | Stage::Blocked => unreachable!(),
        }
    }

    /// What comes of the processes in the worklist, or else of any.
    fn next_on(&mut self) -> Ask
        requires { self.old.stage ≡ Open }
        ensures { ComesOn pn_calls self.old result self.new }
    {
        for _ in 0..u64::MAX {
            match self.go_on_next() {
                Some(ask) => return ask,
                None => {}
            }
        }
        self.next()
    }

    /// The next process in the worklist goes on, or else what comes of any.
    #[inline(always)]
    fn go_on_next(&mut self) -> Option<Ask>
        requires { self.old.stage ≡ Open }
        ensures { GoesOn self.old result self.new }
    {
        match self.taken() {
            Some(process) => self.go_on(process),
            None => Some(self.next_of_all()),
        }
    }

    /// A process makes its gets and puts, until it is stopped, or is asked to fire.
    #[inline(always)]
    fn go_on(&mut self, process: u32) -> Option<Ask>
        requires there { process < length self.old.network.plan.net.places }
        requires running { self.old.stage ≡ Open }
        ensures { GoesOn self.old result self.new }
    {
        for _ in 0..u64::MAX {
            let answer = self.look(process);
            if !is_transfer(&answer) {
                return answer;
            }
        }
        None
    }
}

/// Whether this answer tells a get or a put.
#[inline(always)]
fn is_transfer(answer: &Option<Ask>) -> bool
    ensures { result ≡ true → IsSomeTransfer answer.now }
{
    match answer {
        Some(Ask::Get(_) | Ask::Put(_)) => true,
        _ => false,
    }
}
