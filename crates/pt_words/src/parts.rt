// What stands behind a command.
ghost use Rattle.std.specs.Prelude.{option_map};
ghost use Rattle.clap.specs.Matches.{found_of};
ghost use Rattle.clap.specs.Walk.{rows_of};
ghost use Rattle.pt_words.specs.Number.{IsBudget};
ghost use Rattle.pt_words.specs.Parts.{IsStages, IsWorkers, IsTheOne};
ghost use Rattle.pt_words.specs.Matches.{IsReadBy, AreParts};

use crate::command::{BUDGET, STAGES, WORKERS};
use crate::number::{budget, stages, workers};
use clap::ArgMatches;

/// A number of stages and the values of options, as far as words give them.
#[derive(Clone, Copy, Debug, PartialEq, Eq)]
pub struct Parts {
    pub stages: Option<u32>,
    pub workers: Option<u32>,
    pub budget: Option<u64>,
}

/// No words give these.
pub const NOTHING: Parts = Parts {
    stages: None,
    workers: None,
    budget: None,
};

/// The number of stages that the text gives, if there is a text.
fn stages_in(text: Option<&str>) -> Option<Option<u32>>
    ensures { IsTheOne (IsReadBy IsStages (option_map (λ t. t.now) text.entry)) result }
{
    match text {
        Some(text) => match stages(text) {
            Some(n) => Some(Some(n)),
            None => None,
        },
        None => Some(None),
    }
}

/// The number of workers that the text gives, if there is a text.
fn workers_in(text: Option<&str>) -> Option<Option<u32>>
    ensures { IsTheOne (IsReadBy IsWorkers (option_map (λ t. t.now) text.entry)) result }
{
    match text {
        Some(text) => match workers(text) {
            Some(n) => Some(Some(n)),
            None => None,
        },
        None => Some(None),
    }
}

/// The budget that the text gives, if there is a text.
fn budget_in(text: Option<&str>) -> Option<Option<u64>>
    ensures { IsTheOne (IsReadBy IsBudget (option_map (λ t. t.now) text.entry)) result }
{
    match text {
        Some(text) => match budget(text) {
            Some(n) => Some(Some(n)),
            None => None,
        },
        None => Some(None),
    }
}

/// What the matches of a command give.
pub fn parts_of(matches: &ArgMatches<'_>) -> Option<Parts>
    ensures { IsTheOne (AreParts (rows_of (found_of matches.now))) result }
{
    let stages = stages_in(matches.get_str(STAGES))?;
    let workers = workers_in(matches.get_str(WORKERS))?;
    let budget = budget_in(matches.get_str(BUDGET))?;
    Some(Parts {
        stages,
        workers,
        budget,
    })
}
