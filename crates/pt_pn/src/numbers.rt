// Firings of processes that take and give integers alone, of which no lists of tokens are made.
use crate::pn::{Core, Stage};
use crate::processes::{fits, tell_number_at};
use pt_firing::{IntInputs, Need};
use pt_process::promise_each;
use std::alloc::{AllocError, Global};

impl Core {
    ghost use Rattle.std.specs.Prelude.{◌≡◌, [], ◌∷◌, IfSome, IsSome, OnOk, OnErr, Some};
    ghost use Rattle.pt_firing.specs.Need.{need_of};
    ghost use Rattle.pt_value.specs.declared.token.Token.TheVariants.{Int};
    ghost use Rattle.pt_pn_laws.specs.State.{asked_process, lent_if, after_told};

    /// The inputs of the process that was asked to fire, where each is one integer. `row` is a buffer. `None` says nothing of the inputs.
    #[inline(always)]
    pub fn int_inputs<'a>(&'a self, row: &'a mut Vec<i64>) -> Option<IntInputs<'a>>
        requires { IsSome (asked_process self.now.stage) }
        ensures { IfSome result (λ inputs. inputs ≡ lent_if self.now (asked_process self.now.stage)) }
    {
        match self.stage {
            Stage::Asked(process) => self.processes[process as usize].int_inputs(row),
            Stage::Idle | Stage::Open | Stage::Closed | Stage::Blocked => None,
        }
    }

    /// Takes the integer that the firing of the process gave as the one token on its one port, and the need that it has then: a count for each of its places, or none. After an `Err` the core is as before.
    #[inline(always)]
    pub fn told_number(
        &mut self,
        alloc: Global,
        process: u32,
        number: i64,
        need: Need<'_>,
    ) -> Result<(), AllocError>
        requires asked { asked_process self.old.stage ≡ Some process }
        ensures told { OnOk result (self.new ≡ after_told process ((Int number ∷ []) ∷ []) (need_of need.entry) self.old) }
        ensures kept { OnErr result (self.new ≡ self.old) }
    {
        let which = process as usize;
        // No process of a network has another need.
        if !fits(need, self.places_of(which)) {
            return Err(AllocError);
        }
        let fan = self.network.fan(which, 0);
        promise_each(&mut self.queues, &mut self.promised, fan)?;
        tell_number_at(alloc, &mut self.processes, which, need, number, fan)?;
        self.notes.note(process);
        self.stage = Stage::Open;
        Ok(())
    }
}
