ghost use Rattle.std.specs.Prelude.{◌≤◌, List, ℕ, map};
ghost use Rattle.pt_meaning.specs.Basics as basics;
ghost use Rattle.pt_value.specs.declared.token.Token.{Token};
ghost use Rattle.pt_directors.specs.Directors as directors;
ghost use Rattle.pt_directors.specs.Directors.{of_sdf};
ghost use Rattle.pt_node.specs.Acts.{acts};
ghost use Rattle.pt_node.specs.Shown.{Shown, shown};
ghost use Rattle.pt_turns.specs.Between.{At, IsUnderWay, Rested};
ghost use Rattle.pt_turns.specs.OwnMeetings.{OwnMeetings};

use pt_node::Node;
use pt_number_rows::fire_numbers;
use pt_sdf::Core;
use pt_stretches::fire_stretch;
use pt_turns::Rest;
use std::alloc::Global;

/// Makes firings of numbers alone under SDF: one after another, and those of a stretch at once where they take and give integers.
#[inline(always)]
pub(crate) fn fire_stretches(
    alloc: Global,
    core: &mut Core,
    children: &mut Vec<Node>,
    left: &mut u64,
    row: &mut Vec<i64>,
) -> Rest
    requires { (tag : basics.Tag) × IsUnderWay acts tag (of_sdf core.old) (map shown children.old.items) left.old }
    ensures lowered { left.new ≤ left.old }
    ensures goes { (before : directors.Director) (olds : List Shown) (tag : basics.Tag) (X : basics.Streams Token) (allowance : ℕ) (own : OwnMeetings) → At acts before olds tag X allowance own (of_sdf core.old) (map shown children.old.items) left.old → Rested before olds tag X allowance own result (of_sdf core.new) (map shown children.new.items) left.new }
{
    loop {
        match fire_numbers(alloc, core, children, left, row) {
            Rest::Turn(number, when, given) => {
                if given.is_some() {
                    return Rest::Turn(number, when, given);
                }
                let child = &mut children[number as usize];
                match fire_stretch(core, child, number, when, left, row) {
                    Ok(true) => {}
                    Ok(false) => return Rest::Turn(number, when, None),
                    Err(_) => return Rest::Memory,
                }
            }
            rest => return rest,
        }
    }
}
