ghost use Rattle.pt_plannable.specs.Laws.{InsidesAreThere};

use pt_stated::stated_is_lawful;

/// A composite of SDF of such a net has the inside that its director plans.
pub fn insides_are_there()
    ensures { InsidesAreThere }
{
    stated_is_lawful();
}
