ghost use Rattle.std.specs.Prelude.{◌≡◌, IfOk, Some, slice_get};

use crate::children::{entities_at, parted_of};
use crate::site::Site;
use pt_frames::Frames;
use pt_machine_parts::{ModalEntity, short_number};
use pt_net::{Net, NetEntity};
use pt_scopes::Values;
use pt_typing::Typing;
use pt_wiring::Insides;
use std::alloc::{AllocError, Global};

/// What is prepared once for all entities of a net: the parameters that are seen, what stands in each entity, and whether a
/// transparent composite does.
pub(crate) struct Ground<'a> {
    pub(crate) net: &'a Net,
    pub(crate) values: &'a Values,
    pub(crate) typing: &'a Typing,
    pub(crate) frames: Frames,
    pub(crate) insides: Insides,
    pub(crate) parted: Vec<bool>,
}

// By hand, so that letting go of one is one call in the proofs above.
impl<'a> Drop for Ground<'a> {
    fn drop(self) {
        let Ground {
            net: _,
            values: _,
            typing: _,
            frames: _,
            insides: _,
            parted: _,
        } = self;
    }
}

impl<'a> Ground<'a> {
    ghost use Rattle.pt_machines.specs.Grounds.{IsPrepared};

    /// Prepares a net with its values and types.
    pub(crate) fn of(
        alloc: Global,
        net: &'a Net,
        values: &'a Values,
        typing: &'a Typing,
    ) -> Result<Ground<'a>, AllocError>
        ensures prepared { IfOk result IsPrepared }
        ensures net { IfOk result (λ ground. ground.net ≡ net.entry) }
        ensures values { IfOk result (λ ground. ground.values ≡ values.entry) }
        ensures typing { IfOk result (λ ground. ground.typing ≡ typing.entry) }
    {
        let parted = parted_of(alloc, net.entities.len(), &net.transparent)?;
        let frames = Frames::of(alloc, net, values)?;
        let insides = Insides::of(alloc, net)?;
        Ok(Ground {
            net,
            values,
            typing,
            frames,
            insides,
            parted,
        })
    }

    ghost use Rattle.pt_machines.specs.Grounds.{IsReady, IsSiteOf};

    /// The Modal entity of this number, in its net.
    pub(crate) fn site_of(
        &'a self,
        alloc: Global,
        number: usize,
        entity: &'a NetEntity,
    ) -> Result<Site<'a>, AllocError>
        requires ready { IsReady self.now }
        requires entity { slice_get self.now.net.now.entities.items number ≡ Some entity.now }
        ensures { IfOk result (IsSiteOf self.now number entity.now) }
    {
        let inside = self.insides.children[number].as_slice();
        let children = entities_at(alloc, &self.net.entities, inside)?;
        let modal = ModalEntity::of(alloc, entity, children, self.parted[number])?;
        let short = short_number(number)?;
        Ok(Site {
            number: short,
            modal,
            values: &self.values.entities[number],
            frames: &self.frames,
            typing: self.typing,
        })
    }
}
