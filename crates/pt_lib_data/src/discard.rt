// `Discard`: takes its inputs and gives nothing. It has no output.
ghost use Rattle.pt_lib_data.specs.Reply.{Tells};
ghost use Rattle.pt_lib_data.specs.Discard as discard;

use pt_firing::{Outputs, Step};

pub(crate) fn give() -> Step
    ensures { Tells discard.give result }
{
    Step::Done(Outputs::none(0))
}
