ghost use Rattle.std.specs.Prelude.{◌≡◌, ℕ};
ghost use Rattle.pt_meaning.specs.NodeFacts.{is_zero};
ghost use Rattle.pt_firing.specs.Need.{need_of};
ghost use Rattle.pt_firing.specs.Row.{one_each};

use pt_firing::Need;

/// Whether an actor that needs one token on each of its places has no place.
pub fn has_no_places(need: Need<'_>) -> bool
    ensures { (places : ℕ) → need_of need.entry ≡ one_each places → result ≡ is_zero places }
{
    match need {
        Need::All(counts) => counts.len() == 0,
        Need::Over | Need::Any => false,
    }
}
