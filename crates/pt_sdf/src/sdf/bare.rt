// What a caller may see of a core between two firings of the composite.

ghost use Rattle.std.specs.Prelude.{◌≡◌};

use super::{Core, Stage};
use pt_sdf_parts::CorePlan;

impl Core {
    ghost use Rattle.std.specs.Prelude.{◌≡◌, IsTrue};
    ghost use Rattle.pt_sdf.specs.Bare.{IsBare};
    ghost use Rattle.pt_sdf_parts.specs.Plan.{plan_of};

    /// The plan of its firings.
    pub fn plan(&self) -> &CorePlan
        ensures plan { plan_of result.now ≡ self.now.plan }
        ensures needs { result.now.needs ≡ self.now.needs }
    {
        &self.plan
    }

    /// Whether no firing of the composite is under way, and no channel has a token.
    pub fn is_bare(&self) -> bool
        ensures { IsTrue result → IsBare self.now }
    {
        let Stage::Idle = self.stage else {
            return false;
        };
        for c in 0..self.plan.sources.len() {
            if self.channels.len(c as u32) > 0 {
                return false;
            }
        }
        true
    }
}
