//! How the line of a meeting ends: who met.
ghost use Rattle.std.specs.Prelude.{◌≡◌, ◌++◌, codes, IfOk};
ghost use Rattle.pt_trace.specs.MeetingText.{met_text, place_text};

use pt_trace::{ChildPlace, Met};
use pt_value::Text;
use std::alloc::{AllocError, Global};

pub(crate) fn end_of(alloc: Global, what: &Met) -> Result<Text, AllocError>
    ensures { IfOk result (λ end. end ≡ met_text what.now ++ codes "\n") }
{
    match what {
        Met::Meet(place) => place_end(alloc, place),
        Met::Out(port) => out_end(alloc, port.as_str()),
        Met::Barrier(child) => barrier_end(alloc, child.as_str()),
    }
}

#[tactic(auto, using(crate::proofs::PlaceLines::place_line))]
fn place_end(alloc: Global, place: &ChildPlace) -> Result<Text, AllocError>
    ensures { IfOk result (λ end. end ≡ (codes "meet " ++ place_text place.now) ++ codes "\n") }
{
    let child = place.child.as_str();
    let port = place.port.as_str();
    let channel = place.channel;
    let end = format!(in alloc; "meet {child}.{port}.{channel}\n")?;
    Text::of(alloc, end.as_str())
}

fn out_end(alloc: Global, port: &str) -> Result<Text, AllocError>
    ensures { IfOk result (λ end. end ≡ (codes "out " ++ port.now) ++ codes "\n") }
{
    let end = format!(in alloc; "out {port}\n")?;
    Text::of(alloc, end.as_str())
}

fn barrier_end(alloc: Global, child: &str) -> Result<Text, AllocError>
    ensures { IfOk result (λ end. end ≡ (codes "barrier " ++ child.now) ++ codes "\n") }
{
    let end = format!(in alloc; "barrier {child}\n")?;
    Text::of(alloc, end.as_str())
}
