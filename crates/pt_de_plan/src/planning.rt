ghost use Rattle.std.specs.Prelude.{◌≡◌, IfErr, IfOk};
ghost use Rattle.pt_de_laws.specs.Lawful.{IsLawful};
ghost use Rattle.pt_de_plan.specs.Inside.{plan_of, roles_of, IsInside};
ghost use Rattle.pt_de_plan.specs.Depths.{AreDepthsIn, FaultStands};

use crate::edges::edges_of;
use crate::inside::DeInside;
use pt_events::{DepthFault, depths};
use std::alloc::Global;

/// The plan of a DE composite: what is within it, and the depth of each child.
#[derive(Debug, Drop)]
pub struct DePlan {
    pub inside: DeInside,
    pub depths: Vec<u32>,
}

/// The plan of a DE composite.
///
/// Where there is a directed loop in which no place is a delay there is none, and the fault names the children of one, each of which feeds
/// the next, and the last the first. Each child and channel is looked at a few times.
pub fn plan(alloc: Global, inside: DeInside) -> Result<DePlan, DepthFault>
    requires { IsInside inside }
    ensures inside { IfOk result (λ p. p.inside ≡ inside) }
    ensures depths { IfOk result (λ p. AreDepthsIn (plan_of inside) inside.delayed.items p.depths.items) }
    ensures lawful { IfOk result (λ p. IsLawful (plan_of inside) (roles_of inside p.depths.items)) }
    ensures err { IfErr result (FaultStands inside) }
{
    match depths_of(alloc, &inside) {
        Ok(depths) => Ok(DePlan { inside, depths }),
        // Let go by a call, which keeps what that takes out of the proof.
        Err(fault) => {
            drop(inside);
            Err(fault)
        }
    }
}

/// The depth of each child.
fn depths_of(alloc: Global, inside: &DeInside) -> Result<Vec<u32>, DepthFault>
    requires { IsInside inside.now }
    ensures depths { IfOk result (λ depths. AreDepthsIn (plan_of inside.now) inside.now.delayed.items depths.items) }
    ensures err { IfErr result (FaultStands inside.now) }
{
    let places = inside.places.as_slice();
    let edges = edges_of(alloc, places, &inside.sources, &inside.delayed)?;
    depths(alloc, places.len() as u32, &edges)
}
