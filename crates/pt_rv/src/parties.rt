ghost use Rattle.std.specs.Prelude.{◌≡◌, ℕ, length, IfOk};
ghost use Rattle.pt_rv.specs.Parties.{inputs_of, outputs_of};

use pt_rv_parts::Team;
use pt_rv_plan::{Inlet, Outlet};
use std::alloc::{AllocError, Global};

/// Who takes part in meetings: the processes, the own inputs and the own outputs.
#[derive(Drop)]
pub(crate) struct Parties {
    pub(crate) team: Team,
    pub(crate) inlets: Vec<Inlet>,
    pub(crate) outlets: Vec<Outlet>,
}

impl Parties {
    ghost use Rattle.std.specs.Prelude.{◌≡◌, IfOk};
    ghost use Rattle.pt_rv.specs.Parties.{AreSame};

    /// The same parties again.
    pub(crate) fn copy(&self, alloc: Global) -> Result<Parties, AllocError>
        ensures { IfOk result (λ parties. AreSame self.now parties) }
    {
        let team = self.team.copy(alloc)?;
        let inlets = inlets_again(alloc, &self.inlets)?;
        let outlets = outlets_again(alloc, &self.outlets)?;
        Ok(Parties {
            team,
            inlets,
            outlets,
        })
    }
}

fn inlets_again(alloc: Global, inlets: &[Inlet]) -> Result<Vec<Inlet>, AllocError>
    ensures { IfOk result (λ copies. inputs_of copies.items ≡ inputs_of inlets.now) }
{
    let mut copies = Vec::with_capacity(alloc, inlets.len())?;
    for inlet in inlets {
        let copy = inlet.copy(alloc)?;
        copies.push(copy)?;
    }
    Ok(copies)
}

fn outlets_again(alloc: Global, outlets: &[Outlet]) -> Result<Vec<Outlet>, AllocError>
    ensures { IfOk result (λ copies. copies.items ≡ outlets.now) }
{
    let mut copies = Vec::with_capacity(alloc, outlets.len())?;
    for outlet in outlets {
        let copy = outlet.copy(alloc)?;
        copies.push(copy)?;
    }
    Ok(copies)
}
