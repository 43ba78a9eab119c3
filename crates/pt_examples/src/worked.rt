//! Some of the examples as values: what was worked by hand, and what the definitions compute.
ghost use Rattle.std.specs.Prelude.{◌≡◌, [], ◌∷◌, Some};
ghost use Rattle.pt_meaning.specs.Asked.{IsJamOf};
ghost use Rattle.pt_meaning.specs.Headline.{count_in};
ghost use Rattle.pt_meaning.specs.Job.{Iterations, Stop, Deadlock, meaning};
ghost use Rattle.pt_meaning.specs.Schedule.{sdf_top, sr_top, de_top, once_top};
ghost use Rattle.pt_meaning.specs.Step.{no_meetings};
ghost use Rattle.pt_examples.specs.Dataflow.{doubled, feedback};
ghost use Rattle.pt_examples.specs.Events.{clocks, desk, two_summed};
ghost use Rattle.pt_examples.specs.Jams.{jamming, two};
ghost use Rattle.pt_examples.specs.Modals.{below_clock, below_source, has_output, on_and_off, stop_and_go};
ghost use Rattle.pt_examples.specs.Models.{run, run_under, told, EndedBy};
ghost use Rattle.pt_examples.specs.Nesting.{switching_events, two_lags};
ghost use Rattle.pt_examples.specs.Networks.{repeated_sum};
ghost use Rattle.pt_examples.specs.Rendezvous.{merging, of_top, other_order};
ghost use Rattle.pt_examples.specs.Small.{rows};
ghost use Rattle.pt_examples.specs.Ticks.{muxes};
ghost use Rattle.pt_examples.specs.Unfed.{of_two_clocks};
ghost use Rattle.pt_examples.specs.Worked.{shown};

/// A number in a trace, with the time and the microstep of the firing that gave it.
#[derive(Clone, Copy, Debug, PartialEq, Eq)]
pub struct Sample {
    pub time: u64,
    pub step: u32,
    pub value: i64,
}

/// The samples of a trace, each as its time, its microstep and its value.
macro_rules! trace {
    ($(($time:expr, $step:expr, $value:expr)),*) => {
        [$(Sample { time: $time, step: $step, value: $value }),*]
    };
}

/// SDF: an adder that gets its own sum back, by a delay with the first token 0, and the constant 1.
pub fn feedback_trace() -> [Sample; 3]
    ensures { told (run 5 (sdf_top 3 [] []) feedback) (1 ∷ []) 0 ≡ (shown result, EndedBy Iterations) }
{
    trace![(0, 0, 1), (0, 0, 2), (0, 0, 3)]
}

/// SDF: the number of firings of three iterations of a Ramp and a Scale.
pub fn doubled_count() -> u64
    ensures { count_in (meaning 5 rows no_meetings (sdf_top 3 [] []) doubled) doubled ≡ result }
{
    9
}

/// SDF below DE: a Scale, in a composite that waits for a token of its own input that feeds nothing as well.
pub fn waiting_trace() -> [Sample; 3]
    ensures { told (run 7 (de_top rows (Some 6) []) of_two_clocks) (2 ∷ []) 0 ≡ (shown result, EndedBy Stop) }
{
    trace![(0, 0, 10), (3, 0, 10), (6, 0, 10)]
}

/// PN: four tokens, each three times, added to the four tokens.
pub fn repeated_sum_trace() -> [Sample; 4]
    ensures { told (run 13 (once_top []) repeated_sum) (2 ∷ []) 0 ≡ (shown result, EndedBy Deadlock) }
{
    trace![(0, 0, 0), (0, 0, 1), (0, 0, 2), (0, 0, 4)]
}

/// SR: two muxes that feed each other.
pub fn mux_trace() -> [Sample; 2]
    ensures { told (run 4 (sr_top 2 []) muxes) (0 ∷ []) 0 ≡ (shown result, EndedBy Iterations) }
{
    trace![(0, 0, 7), (1, 0, 5)]
}

/// DE: the sum of clocks of period 2 and 3.
pub fn clocks_trace() -> [Sample; 5]
    ensures { told (run 8 (de_top rows (Some 6) []) clocks) (2 ∷ []) 0 ≡ (shown result, EndedBy Stop) }
{
    trace![(0, 0, 11), (2, 0, 1), (3, 0, 10), (4, 0, 1), (6, 0, 11)]
}

/// DE: a queue at a desk.
pub fn desk_trace() -> [Sample; 3]
    ensures { told (run 12 (de_top rows (Some 10) []) desk) (1 ∷ []) 0 ≡ (shown result, EndedBy Stop) }
{
    trace![(3, 0, 1), (6, 0, 1), (9, 0, 1)]
}

/// DE: a running sum of two tokens at one tag.
pub fn two_summed_trace() -> [Sample; 2]
    ensures { told (run 4 (de_top rows (Some 2) []) two_summed) (2 ∷ []) 0 ≡ (shown result, EndedBy Stop) }
{
    trace![(0, 0, 1), (0, 0, 2)]
}

/// Rendezvous: a Merge of two sources, whose second source meets it first.
pub fn merging_trace() -> [Sample; 2]
    ensures { told (run_under (of_top other_order) 3 (once_top []) merging) (2 ∷ []) 0 ≡ (shown result, EndedBy Deadlock) }
{
    trace![(0, 0, 2), (0, 0, 1)]
}

/// Modal: a counter that is held for a while, with history or without.
pub fn stop_and_go_trace(history: bool) -> [Sample; 3]
    ensures { told (run 7 (sr_top 5 []) (below_source (stop_and_go history))) (1 ∷ []) 0 ≡ (shown result, EndedBy Iterations) }
{
    if history {
        trace![(0, 0, 0), (1, 0, 1), (4, 0, 2)]
    } else {
        trace![(0, 0, 0), (1, 0, 1), (4, 0, 0)]
    }
}

/// Modal: a clock of period 3 that stands still from 0 to 2.
pub fn lagging_trace() -> [Sample; 2]
    ensures { told (run 8 (de_top rows (Some 6) []) (below_clock (on_and_off has_output))) (1 ∷ []) 0 ≡ (shown result, EndedBy Stop) }
{
    trace![(0, 0, 1), (5, 0, 1)]
}

/// A clock of period 2 below two Modals, each of which stands still for a while.
pub fn two_lags_trace() -> [Sample; 3]
    ensures { told (run 12 (de_top rows (Some 9) switching_events) two_lags) (0 ∷ []) 0 ≡ (shown result, EndedBy Stop) }
{
    trace![(0, 0, 1), (7, 0, 1), (9, 0, 1)]
}

/// PN: the number and the length of the full channel of a jam.
pub fn full_channel() -> (u32, u64)
    ensures { IsJamOf rows no_meetings (once_top []) jamming two (meaning 4 rows no_meetings (once_top []) jamming) [] ((result.0, result.1) ∷ []) }
{
    (0, 2)
}
