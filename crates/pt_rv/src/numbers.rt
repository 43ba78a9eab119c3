// Firings of processes that take and give integers alone, of which no lists of tokens are made.
ghost use Rattle.std.specs.Prelude.{◌≡◌, ◌<◌, [], ◌∷◌, length, get_or, true, OnOk, OnErr};
ghost use Rattle.pt_firing.specs.Need.{need_of};
ghost use Rattle.pt_meaning.specs.Streams.{change_at};
ghost use Rattle.pt_meaning.specs.Process.{puts_of};
ghost use Rattle.pt_meaning.specs.Running.{total};
ghost use Rattle.pt_value.specs.declared.token.Token.TheVariants.{Int};
ghost use Rattle.pt_rv_laws.specs.Lawful.{HasPlaces};
ghost use Rattle.pt_rv_work.specs.Core.{nobody, once_fired};
ghost use Rattle.pt_rv.specs.Ends.{PromisedMore};
ghost use Rattle.pt_rv.specs.Parties.{outputs_of};

use crate::parties::Parties;
use crate::rv::{Core, Stage, fits};
use crate::staging::{tell, tell_one};
use pt_firing::{IntInputs, Need};
use pt_puts::StagedPut;
use pt_rv_plan::{Meetings, Plan, stage_number};
use pt_value::Token;
use std::alloc::{AllocError, Global};
use std::collections::VecDeque;

impl Core {
    ghost use Rattle.std.specs.Prelude.{◌≡◌, [], ◌∷◌, IfSome, IsSome, OnOk, OnErr, Some};
    ghost use Rattle.pt_firing.specs.Need.{need_of};
    ghost use Rattle.pt_value.specs.declared.token.Token.TheVariants.{Int};
    ghost use Rattle.pt_rv_laws.specs.State.{asked_process, lent_if, after_told};

    /// The inputs of the process that was asked to fire, where each is one integer. `row` is a buffer. `None` says nothing of the inputs.
    #[inline(always)]
    pub fn int_inputs<'a>(&'a self, row: &'a mut Vec<i64>) -> Option<IntInputs<'a>>
        requires { IsSome (asked_process self.now.stage) }
        ensures { IfSome result (λ inputs. inputs ≡ lent_if self.now (asked_process self.now.stage)) }
    {
        match self.stage {
            Stage::Asked(process) => self.parties.team.int_inputs(process as usize, row),
            Stage::Idle | Stage::Open | Stage::Closed => None,
        }
    }

    /// Takes the integer that the firing of the process gave as the one token on its one port, and the need that it has then: a count for each of its places, one token from any, or none. After an `Err` the core is as before.
    #[inline(always)]
    pub fn told_number(
        &mut self,
        alloc: Global,
        process: u32,
        number: i64,
        need: Need<'_>,
    ) -> Result<(), AllocError>
        requires asked { asked_process self.old.stage ≡ Some process }
        ensures told { OnOk result (self.new ≡ after_told process ((Int number ∷ []) ∷ []) (need_of need.entry) self.old) }
        ensures kept { OnErr result (self.new ≡ self.old) }
    {
        let which = process as usize;
        // No process has counts for other places than its own.
        if !fits(need, self.places_of(which)) {
            return Err(AllocError);
        }
        tell_number(
            alloc,
            &mut self.parties,
            &mut self.met,
            &mut self.staged,
            &self.plan,
            which,
            number,
            need,
        )?;
        self.worklist.note(process);
        self.stage = Stage::Open;
        Ok(())
    }
}

/// A process has fired, and gave an integer on its one port. To one channel it is put straight, and to several by what is staged.
#[inline(always)]
fn tell_number(
    alloc: Global,
    parties: &mut Parties,
    met: &mut Meetings,
    staged: &mut VecDeque<StagedPut>,
    plan: &Plan,
    process: usize,
    number: i64,
    need: Need<'_>,
) -> Result<(), AllocError>
    requires planned { process < length plan.now.plan.net.places }
    requires there { process < length parties.old.team }
    requires handed { (get_or parties.old.team process nobody).handed ≡ true }
    requires none { (get_or parties.old.team process nobody).puts ≡ [] }
    requires places { HasPlaces (length (get_or parties.old.team process nobody).got) (need_of need) }
    ensures told { OnOk result (parties.new.team ≡ change_at process (once_fired (need_of need.entry) (puts_of plan.now.plan.net.sources process 0 ((Int number ∷ []) ∷ []))) parties.old.team) }
    ensures kept { OnErr result (parties.new.team ≡ parties.old.team) }
    ensures inlets { parties.new.inlets.items ≡ parties.old.inlets.items }
    ensures outputs { outputs_of parties.new.outlets.items ≡ outputs_of parties.old.outlets.items }
    ensures met { met.new.list ≡ met.old.list }
    ensures room { PromisedMore (total plan.now.plan.net.places) parties.old.outlets.items parties.new.outlets.items met.old.spare met.new.spare [] }
    ensures more { OnOk result (PromisedMore (total plan.now.plan.net.places) parties.old.outlets.items parties.new.outlets.items met.old.spare met.new.spare (puts_of plan.now.plan.net.sources process 0 ((Int number ∷ []) ∷ []) ∷ [])) }
{
    let inner = plan.inner();
    let fan = plan.fan(process, 0);
    match fan {
        [] => parties.team.told_none(alloc, process, need),
        [channel] => {
            let token = Token::Int(number);
            let put = StagedPut {
                channel: *channel,
                token,
            };
            tell_one(alloc, parties, met, inner, process, need, put)
        }
        _ => {
            stage_number(alloc, staged, plan, process, number)?;
            tell(alloc, parties, met, staged, inner, process, need)
        }
    }
}
