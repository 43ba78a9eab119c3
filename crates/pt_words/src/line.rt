ghost use Rattle.std.specs.Prelude.{◌≡◌, List, ℕ, map, string_bytes, IfOk, IfErr};
ghost use Rattle.clap.specs.Words.{subcommand_rows_of};
ghost use Rattle.pt_words.specs.Parts.{IsTheOne, workers_of, budget_of, Asks, IsRun, IsCheck, IsGeneration, IsDemonstration, IsWithin, IsLineFor};
ghost use Rattle.pt_words.specs.Matches.{IsTold};
ghost use Rattle.pt_words.specs.declared.line.Line.{Line};
ghost use Rattle.pt_words.specs.declared.fault.WordsFault.TheVariants.{Refused};

use crate::command::program;
use crate::fault::WordsFault;
use crate::parts::{NOTHING, Parts, parts_of};
use crate::reserved::has_reserved;
use clap::ArgMatches;
use std::alloc::Global;

/// What a line of the program asks for.
#[derive(Clone, Copy, Debug, PartialEq, Eq)]
pub enum Task {
    /// Read a document, run it and write the report.
    Run,
    /// Read a document and write its types and plans.
    Check,
    /// Write the generated document of so many stages.
    Generate(u32),
    /// Run the generated document of so many stages and write a summary.
    Demonstrate(u32),
}

/// A line: its task, by how many workers, and after how many firings a run stops.
#[derive(Clone, Copy, Debug, PartialEq, Eq)]
pub struct Line {
    pub task: Task,
    pub workers: u32,
    pub budget: u64,
}

/// The number of workers where no word gives one.
const USUAL_WORKERS: u32 = 1;

/// The budget where no word gives one.
const USUAL_BUDGET: u64 = 1_000_000;

fn line_of(task: Task, parts: Parts) -> Line
    ensures { result ≡ record { task = task; workers = workers_of parts; budget = budget_of parts } }
{
    Line {
        task,
        workers: parts.workers.unwrap_or(USUAL_WORKERS),
        budget: parts.budget.unwrap_or(USUAL_BUDGET),
    }
}

fn run(parts: Parts) -> Option<Line>
    ensures { IsTheOne (IsRun parts) result }
{
    match parts.stages {
        Some(_) => None,
        None => Some(line_of(Task::Run, parts)),
    }
}

fn check(parts: Parts) -> Option<Line>
    ensures { IsTheOne (IsCheck parts) result }
{
    if parts == NOTHING {
        Some(line_of(Task::Check, parts))
    } else {
        None
    }
}

fn generation(parts: Parts) -> Option<Line>
    ensures { IsTheOne (IsGeneration parts) result }
{
    match (parts.stages, parts.workers, parts.budget) {
        (Some(stages), None, None) => Some(line_of(Task::Generate(stages), parts)),
        _ => None,
    }
}

fn demonstration(parts: Parts) -> Option<Line>
    ensures { IsTheOne (IsDemonstration parts) result }
{
    match parts.stages {
        Some(stages) => Some(line_of(Task::Demonstrate(stages), parts)),
        None => None,
    }
}

/// What a command asks for with these parts.
fn asked(first: &str, parts: Parts) -> Option<Line>
    ensures { IsTheOne (Asks first.now parts) result }
{
    match first {
        "run" => run(parts),
        "check" => check(parts),
        "gen" => generation(parts),
        "demo" => demonstration(parts),
        _ => None,
    }
}

/// What the command that a parse met asks for, with what the parse found for it.
fn line_in(matches: &ArgMatches<'_>) -> Option<Line>
    ensures { IsTheOne (IsTold (subcommand_rows_of matches.now)) result }
{
    match matches.subcommand() {
        Some((command, matches)) => asked(command, parts_of(matches)?),
        None => None,
    }
}

/// What the words of the command line, without the program's name, ask for.
pub fn read(alloc: Global, words: &[String]) -> Result<Line, WordsFault>
    ensures ok { IfOk result (λ l. IsLineFor (map string_bytes words.now) l) }
    ensures refused { IfErr result (λ fault. fault ≡ Refused → (l : Line) → IsLineFor (map string_bytes words.now) l → ⊥) }
{
    if has_reserved(words) {
        return Err(WordsFault::Refused);
    }
    let matches = program(alloc)?.try_get_matches_from(words)?;
    match line_in(&matches) {
        Some(line) => Ok(line),
        None => Err(WordsFault::Refused),
    }
}

/// A law of the lines: the same words ask for one thing.
pub fn words_are_one_line()
    ensures { (words : List (List ℕ)) (a b : Line) → IsLineFor words a → IsLineFor words b → a ≡ b }
{}

/// A law of the lines: what they ask for is in its ranges.
pub fn lines_are_within()
    ensures { (words : List (List ℕ)) (line : Line) → IsLineFor words line → IsWithin line }
{}
