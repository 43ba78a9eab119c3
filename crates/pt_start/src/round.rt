ghost use Rattle.std.specs.Prelude.{◌≡◌};

use pt_net::{NetEntity, Transparent};

/// What is round an entity or a transparent composite: where it stands in a transparent composite, the number of that one, and
/// the number of the innermost opaque one.
#[derive(Clone, Copy, Debug, PartialEq, Eq)]
pub struct Round {
    pub within: Option<u32>,
    pub parent: Option<u32>,
}

impl Round {
    pub fn of_entity(entity: &NetEntity) -> Round
        ensures { result ≡ record { within = entity.now.within; parent = entity.now.parent } }
    {
        Round {
            within: entity.within,
            parent: entity.parent,
        }
    }

    pub fn of_transparent(composite: &Transparent) -> Round
        ensures { result ≡ record { within = composite.now.within; parent = composite.now.parent } }
    {
        Round {
            within: composite.within,
            parent: composite.parent,
        }
    }
}
