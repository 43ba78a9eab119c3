// The firings of a stretch that are made at once.

ghost use Rattle.std.specs.Prelude.{◌≡◌};

use super::{Core, Stage};
use pt_firing::IntRows;
use pt_sdf_parts::{
    Inlet, Outlet, advance, are_rows_of_one, make_room, put_on_each, rows_in_front, skip_rows,
};
use std::alloc::AllocError;

/// With no more firings than so many and one in a stretch, each by itself costs less.
const FEW: u32 = 3;

impl Core {
    ghost use Rattle.std.specs.Prelude.{◌≡◌, ℕ, IfSome, OnOk, OnErr, Some};
    ghost use Rattle.pt_meaning.specs.Streams.{Streams};
    ghost use Rattle.pt_value.specs.declared.token.Token.{Token};
    ghost use Rattle.pt_sdf.specs.State.{asked_child};
    ghost use Rattle.pt_sdf.specs.InARow.{TellsInTurn, AreAhead, given_by};

    /// Whether the child just asked for may make several firings at once, or gives several numbers, or none, to one channel. A hint of how it may fire.
    #[inline(always)]
    pub fn gives_several(&self, child: u32) -> bool
        requires { asked_child self.now.stage ≡ Some child }
    {
        let lane = self.tables.lanes[child as usize];
        if self.plan.order[self.at].again > FEW {
            return match lane.inlet {
                Inlet::Alone(_, _) | Inlet::Nothing => true,
                Inlet::Each | Inlet::Several => false,
            };
        }
        match lane.outlet {
            Outlet::Burst(_, _) => true,
            Outlet::Nothing | Outlet::One(_) | Outlet::Several => false,
        }
    }

    /// The inputs of the next firings of the child just asked for, at most so many, where they are integers that stand in front of its only channel, or it takes none; and how many tokens each gives on the one port.
    pub fn int_rows(&self, child: u32, most: usize) -> Option<(IntRows<'_>, usize)>
        requires { asked_child self.now.stage ≡ Some child }
        ensures { IfSome result (λ rows. AreAhead child rows.0 self.now) }
    {
        let Stage::Asked(_) = self.stage else {
            return None;
        };
        let [rate] = self.plan.rates[child as usize].as_slice() else {
            return None;
        };
        let left = (self.plan.order[self.at].again - self.done) as usize + 1;
        let firings = most.min(left);
        match self.tables.lanes[child as usize].inlet {
            Inlet::Alone(c, need) => Some((rows_in_front(&self.channels, c, need, firings), *rate)),
            Inlet::Nothing => Some((IntRows::nothing(firings), *rate)),
            Inlet::Each | Inlet::Several => None,
        }
    }

    /// Takes the numbers that so many firings of the child gave, each so many on its one port, where it may make as many at once. After an `Err` the core is as before.
    pub fn told_rows(
        &mut self,
        child: u32,
        firings: usize,
        rate: usize,
        numbers: &[i64],
    ) -> Result<(), AllocError>
        requires asked { asked_child self.old.stage ≡ Some child }
        ensures told { OnOk result ((inputs : ℕ → Streams Token) × TellsInTurn child inputs (given_by rate numbers.now) firings self.old self.new) }
        ensures kept { OnErr result (self.new ≡ self.old) }
    {
        let Stage::Asked(_) = self.stage else {
            return Err(AllocError);
        };
        let i = child as usize;
        let Some(again) = firings.checked_sub(1) else {
            return Err(AllocError);
        };
        if again > (self.plan.order[self.at].again - self.done) as usize {
            return Err(AllocError);
        }
        if !are_rows_of_one(self.plan.rates[i].as_slice(), rate, firings, numbers.len()) {
            return Err(AllocError);
        }
        make_room(&mut self.channels, &self.tables.feeds[i], numbers.len())?;
        if !skip_rows(&mut self.channels, self.tables.lanes[i].inlet, firings) {
            return Err(AllocError);
        }
        put_on_each(&mut self.channels, &self.tables.feeds[i], numbers);
        self.done += again as u32;
        advance(
            &self.plan.order,
            &mut self.left,
            &mut self.at,
            &mut self.done,
        );
        self.stage = Stage::Open;
        Ok(())
    }
}
