ghost use Rattle.std.specs.Prelude.{◌≡◌, ◌<◌, length, replicate, get_or, set, IfOk};
ghost use Rattle.pt_de_laws.specs.State.{Waits, Answered, Over};
ghost use Rattle.pt_de_due.specs.Due.{is_waiting};

use pt_reaction::Marks;
use std::alloc::{AllocError, Global};
use std::marker::Model;

/// What each child has done within a reaction. All are put back at once, without a walk over them.
#[derive(Drop)]
pub struct Turns {
    answered: Marks,
    over: Marks,
}

impl Model for Turns {
    ghost use Rattle.std.specs.Prelude.{◌≡◌, List, length};
    ghost use Rattle.pt_de_laws.specs.State.{Turn};
    ghost use Rattle.pt_de_parts.specs.Turns.{coded_turns, turns_in};

    ghost Value = { List Turn };

    ghost coded = { coded_turns };

    ghost view = { λ t. turns_in t.answered t.over };

    ghost invariant = { λ t. length t.answered ≡ length t.over };
}

impl Turns {
    /// So many children, which have had no turn.
    pub fn new(alloc: Global, count: usize) -> Result<Turns, AllocError>
        ensures { IfOk result (λ turns. turns ≡ replicate count Waits) }
    {
        let answered = Marks::new(alloc, count)?;
        let over = Marks::new(alloc, count)?;
        Ok(Turns { answered, over })
    }

    /// Whether a child has had no turn.
    pub fn waits(&self, child: usize) -> bool
        requires { child < length self.now }
        ensures { result ≡ is_waiting (get_or self.now child Over) }
    {
        let over = self.over.is_marked(child);
        let answered = self.answered.is_marked(child);
        if over {
            return false;
        }
        !answered
    }

    /// Notes that a child which has had no turn has answered early.
    pub fn answer(&mut self, child: usize)
        requires there { child < length self.old }
        requires waits { get_or self.old child Over ≡ Waits }
        ensures { self.new ≡ set self.old child Answered }
    {
        self.answered.mark(child);
    }

    /// Notes that a child was asked for its turn.
    pub fn end(&mut self, child: usize)
        requires { child < length self.old }
        ensures { self.new ≡ set self.old child Over }
    {
        self.over.mark(child);
    }

    /// Puts all back to no turn.
    pub fn clear(&mut self)
        ensures { self.new ≡ replicate (length self.old) Waits }
    {
        self.answered.clear();
        self.over.clear();
    }

    pub fn copy(&self, alloc: Global) -> Result<Turns, AllocError>
        ensures { IfOk result (λ turns. turns ≡ self.now) }
    {
        let answered = self.answered.copy(alloc)?;
        let over = self.over.copy(alloc)?;
        Ok(Turns { answered, over })
    }
}
