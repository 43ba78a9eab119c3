// What is staged before the parties move, so that an `Err` leaves them as they were.
ghost use Rattle.std.specs.Prelude.{◌≡◌, ℕ, ◌<◌, [], ◌∷◌, length, get_or, true, OnOk, OnErr};
ghost use Rattle.pt_firing.specs.Need.{need_of};
ghost use Rattle.pt_meaning.specs.Streams.{at, change_at};
ghost use Rattle.pt_meaning.specs.Net.{Own};
ghost use Rattle.pt_meaning.specs.Process.{puts_of_port, channels_from};
ghost use Rattle.pt_meaning.specs.Running.{total};
ghost use Rattle.pt_puts.specs.Puts.{put_of, puts_in};
ghost use Rattle.pt_rv_laws.specs.Lawful.{HasPlaces};
ghost use Rattle.pt_rv_work.specs.Core.{nobody, once_fired};
ghost use Rattle.pt_rv.specs.Ends.{comings_of, no_inlet, PromisedMore};
ghost use Rattle.pt_rv.specs.Parties.{inputs_of, outputs_of};

use crate::ends::{promise, promise_inputs, promise_put, stage_inputs};
use crate::parties::Parties;
use pt_firing::{Inputs, Need};
use pt_puts::StagedPut;
use pt_rv_plan::{Meetings, Plan};
use std::alloc::{AllocError, Global};
use std::collections::VecDeque;

/// These inputs are to come, and there is room for what becomes of them.
pub(crate) fn stage_arrivals(
    alloc: Global,
    parties: &mut Parties,
    met: &mut Meetings,
    plan: &Plan,
    inputs: &Inputs<'_>,
) -> Result<(), AllocError>
    ensures team { parties.new.team ≡ parties.old.team }
    ensures inputs { inputs_of parties.new.inlets.items ≡ inputs_of parties.old.inlets.items }
    ensures outputs { outputs_of parties.new.outlets.items ≡ outputs_of parties.old.outlets.items }
    ensures met { met.new.list ≡ met.old.list }
    ensures kept { PromisedMore (total plan.now.plan.net.places) parties.old.outlets.items parties.new.outlets.items met.old.spare met.new.spare [] }
    ensures coming { OnOk result ((j : ℕ) → j < length parties.new.inlets.items → (get_or parties.new.inlets.items j no_inlet).coming ≡ puts_of_port (channels_from 0 (Own j) plan.now.plan.net.sources) (at inputs.now j)) }
    ensures more { OnOk result (PromisedMore (total plan.now.plan.net.places) parties.old.outlets.items parties.new.outlets.items met.old.spare met.new.spare (comings_of parties.new.inlets.items)) }
{
    stage_inputs(alloc, &mut parties.inlets, plan, inputs)?;
    promise_inputs(
        alloc,
        &mut parties.outlets,
        met,
        &parties.inlets,
        plan.inner(),
    )
}

/// A process has fired, and has the staged puts to make, for which there is room, and this need.
pub(crate) fn tell(
    alloc: Global,
    parties: &mut Parties,
    met: &mut Meetings,
    staged: &mut VecDeque<StagedPut>,
    inner: usize,
    process: usize,
    need: Need<'_>,
) -> Result<(), AllocError>
    requires there { process < length parties.old.team }
    requires handed { (get_or parties.old.team process nobody).handed ≡ true }
    requires places { HasPlaces (length (get_or parties.old.team process nobody).got) (need_of need) }
    ensures told { OnOk result (parties.new.team ≡ change_at process (once_fired (need_of need.entry) (puts_in staged.old.items)) parties.old.team) }
    ensures kept { OnErr result (parties.new.team ≡ parties.old.team) }
    ensures inlets { parties.new.inlets.items ≡ parties.old.inlets.items }
    ensures outputs { outputs_of parties.new.outlets.items ≡ outputs_of parties.old.outlets.items }
    ensures met { met.new.list ≡ met.old.list }
    ensures room { PromisedMore inner parties.old.outlets.items parties.new.outlets.items met.old.spare met.new.spare [] }
    ensures more { OnOk result (PromisedMore inner parties.old.outlets.items parties.new.outlets.items met.old.spare met.new.spare (puts_in staged.old.items ∷ [])) }
{
    promise(alloc, &mut parties.outlets, met, staged, inner)?;
    parties.team.told(alloc, process, need, staged)
}

/// A process has fired, and has this one put to make, for which there is room, and this need.
#[inline(always)]
pub(crate) fn tell_one(
    alloc: Global,
    parties: &mut Parties,
    met: &mut Meetings,
    inner: usize,
    process: usize,
    need: Need<'_>,
    put: StagedPut,
) -> Result<(), AllocError>
    requires there { process < length parties.old.team }
    requires handed { (get_or parties.old.team process nobody).handed ≡ true }
    requires none { (get_or parties.old.team process nobody).puts ≡ [] }
    requires places { HasPlaces (length (get_or parties.old.team process nobody).got) (need_of need) }
    ensures told { OnOk result (parties.new.team ≡ change_at process (once_fired (need_of need.entry) (put_of put ∷ [])) parties.old.team) }
    ensures kept { OnErr result (parties.new.team ≡ parties.old.team) }
    ensures inlets { parties.new.inlets.items ≡ parties.old.inlets.items }
    ensures outputs { outputs_of parties.new.outlets.items ≡ outputs_of parties.old.outlets.items }
    ensures met { met.new.list ≡ met.old.list }
    ensures room { PromisedMore inner parties.old.outlets.items parties.new.outlets.items met.old.spare met.new.spare [] }
    ensures more { OnOk result (PromisedMore inner parties.old.outlets.items parties.new.outlets.items met.old.spare met.new.spare ((put_of put ∷ []) ∷ [])) }
{
    promise_put(alloc, &mut parties.outlets, met, &put, inner)?;
    parties.team.told_one(alloc, process, need, put)
}
