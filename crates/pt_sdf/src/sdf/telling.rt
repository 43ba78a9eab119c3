// What the core is told of the firing of a child.

ghost use Rattle.std.specs.Prelude.{◌≡◌};

use super::{Core, Stage};
use pt_firing::Outputs;
use pt_sdf_parts::{
    advance, are_all_of_one, fill_rooms, fits_rates, give_number, give_numbers, make_room,
    put_on_each, scatter, skip_inlet, skip_places,
};
use std::alloc::{AllocError, Global};

impl Core {
    ghost use Rattle.std.specs.Prelude.{◌≡◌, [], ◌∷◌, map, IsTrue, OnOk, OnErr, Some, if◌then◌else◌};
    ghost use Rattle.pt_value.specs.declared.token.Token.TheVariants.{Int};
    ghost use Rattle.pt_sdf.specs.State.{Open, asked_child, after_told, is_wrong};
    ghost use Rattle.pt_sdf.specs.Clauses.{MayAsk};

    /// Takes what the firing of the child gave: a list for each of its ports. After an `Err` the core is as before.
    pub fn told(&mut self, alloc: Global, child: u32, outputs: Outputs) -> Result<(), AllocError>
        requires asked { asked_child self.old.stage ≡ Some child }
        ensures told { OnOk result (self.new ≡ after_told child outputs self.old) }
        ensures kept { OnErr result (self.new ≡ self.old) }
    {
        let i = child as usize;
        let from = self.tables.offsets[i];
        let n = self.plan.places.as_slice()[i];
        let unmoved = self.stage.unmoved(n);
        let needs = self.plan.needs.as_slice();
        if !fits_rates(self.plan.rates[i].as_slice(), &outputs) {
            skip_places(&mut self.channels, needs, from, unmoved);
            self.stage = Stage::Wrong(child);
            return Ok(());
        }
        fill_rooms(alloc, &mut self.rooms, needs, from, n)?;
        scatter(
            alloc,
            &mut self.channels,
            &mut self.staged,
            &self.tables.feeds[i],
            outputs,
            needs,
            from,
            unmoved,
        )?;
        advance(
            &self.plan.order,
            &mut self.left,
            &mut self.at,
            &mut self.done,
        );
        self.stage = Stage::Open;
        Ok(())
    }

    /// Takes the number that the firing of the child gave as the one token on its one port, where it feeds at most one channel and no memory is wanted. `false` says that nothing was done.
    #[inline(always)]
    pub fn told_number(&mut self, child: u32, number: i64) -> bool
        requires asked { asked_child self.old.stage ≡ Some child }
        ensures told { self.new ≡ (if result then after_told child ((Int number ∷ []) ∷ []) self.old else self.old) }
        ensures right { IsTrue result → self.new.stage ≡ Open }
    {
        let Stage::Asked(_) = self.stage else {
            return false;
        };
        let i = child as usize;
        let lane = self.tables.lanes[i];
        if !give_number(&mut self.channels, lane.outlet, number) {
            return false;
        }
        let from = self.tables.offsets[i];
        let n = self.plan.places.as_slice()[i];
        skip_inlet(
            &mut self.channels,
            lane.inlet,
            self.plan.needs.as_slice(),
            from,
            n,
        );
        advance(
            &self.plan.order,
            &mut self.left,
            &mut self.at,
            &mut self.done,
        );
        self.stage = Stage::Open;
        true
    }

    /// The same of several numbers for one channel.
    #[inline(always)]
    fn told_burst(&mut self, child: u32, numbers: &[i64]) -> bool
        requires asked { asked_child self.old.stage ≡ Some child }
        ensures { self.new ≡ (if result then after_told child (map Int numbers.now ∷ []) self.old else self.old) }
    {
        let Stage::Asked(_) = self.stage else {
            return false;
        };
        let i = child as usize;
        let lane = self.tables.lanes[i];
        if !give_numbers(&mut self.channels, lane.outlet, numbers) {
            return false;
        }
        let from = self.tables.offsets[i];
        let n = self.plan.places.as_slice()[i];
        skip_inlet(
            &mut self.channels,
            lane.inlet,
            self.plan.needs.as_slice(),
            from,
            n,
        );
        advance(
            &self.plan.order,
            &mut self.left,
            &mut self.at,
            &mut self.done,
        );
        self.stage = Stage::Open;
        true
    }

    /// Takes the numbers that the firing of the child gave as the tokens on its one port. After an `Err` the core is as before.
    #[inline(always)]
    pub fn told_numbers(
        &mut self,
        alloc: Global,
        child: u32,
        numbers: &[i64],
    ) -> Result<(), AllocError>
        requires asked { asked_child self.old.stage ≡ Some child }
        ensures told { OnOk result (self.new ≡ after_told child (map Int numbers.now ∷ []) self.old) }
        ensures kept { OnErr result (self.new ≡ self.old) }
    {
        if self.told_burst(child, numbers) {
            return Ok(());
        }
        self.told_anyhow(alloc, child, numbers)
    }

    /// The same, where room may have to be made on any number of channels.
    #[inline(never)]
    fn told_anyhow(&mut self, alloc: Global, child: u32, numbers: &[i64]) -> Result<(), AllocError>
        requires asked { asked_child self.old.stage ≡ Some child }
        ensures told { OnOk result (self.new ≡ after_told child (map Int numbers.now ∷ []) self.old) }
        ensures kept { OnErr result (self.new ≡ self.old) }
    {
        let i = child as usize;
        let from = self.tables.offsets[i];
        let n = self.plan.places.as_slice()[i];
        let unmoved = self.stage.unmoved(n);
        let needs = self.plan.needs.as_slice();
        if !are_all_of_one(self.plan.rates[i].as_slice(), numbers.len()) {
            skip_places(&mut self.channels, needs, from, unmoved);
            self.stage = Stage::Wrong(child);
            return Ok(());
        }
        fill_rooms(alloc, &mut self.rooms, needs, from, n)?;
        make_room(&mut self.channels, &self.tables.feeds[i], numbers.len())?;
        skip_places(&mut self.channels, needs, from, unmoved);
        put_on_each(&mut self.channels, &self.tables.feeds[i], numbers);
        advance(
            &self.plan.order,
            &mut self.left,
            &mut self.at,
            &mut self.done,
        );
        self.stage = Stage::Open;
        Ok(())
    }

    /// Whether the child that was told last gave another number of tokens than its rates say.
    #[inline(always)]
    pub fn is_wrong(&self) -> bool
        requires { MayAsk self.now.stage }
        ensures { result ≡ is_wrong self.now.stage }
    {
        match self.stage {
            Stage::Wrong(_) => true,
            Stage::Idle | Stage::Open | Stage::Asked(_) | Stage::Handed(_) | Stage::Closed => false,
        }
    }
}
