ghost use Rattle.std.specs.Prelude.{◌≡◌, ◌<◌, ◌≤◌, List, ℕ, map, string_bytes};
ghost use Rattle.std.specs.Io.KnownBytes.{Consumes, IsAtEnd};
ghost use Rattle.pt_io.specs.Causes.{Rose};
ghost use Rattle.pt_words.specs.Parts.{IsWithin};
ghost use Rattle.pt_reply.specs.declared.form.Form.TheVariants as form;
ghost use Rattle.pt_reply.specs.declared.status.Status.{Status};
ghost use Rattle.pt_reply.specs.Tells.{Tells};
ghost use Rattle.pt_generated.specs.Text.{generated_text};
ghost use Rattle.pt_top.specs.Outcome.{AnswersAs, IsFaultless, IsReported, IsGenerated, IsDueFor, IsDueForTask, IsDue, IsCompleteFor, IsCompleteForTask, IsComplete, Reads, DoRead};

use crate::answer::answer;
use crate::check::check_document;
use crate::generated::demonstration;
use pt_firing::Gate;
use pt_generated::generated_document;
use pt_io::{ReadAll, Sink, Source, read_all};
use pt_reply::{Form, Status, finish};
use pt_words::{Line, Task, WordsFault, lines_are_within, read, words_are_one_line};
use std::alloc::Global;
use std::sync::Wait;
use std::thread::Threads;

/// Documents have at most this many bytes.
pub(crate) const LIMIT: usize = 16_777_216;

/// Answers a document within a budget.
fn finish_document<K: Sink>(alloc: Global, bytes: &[u8], budget: u64, sink: &mut K) -> Status
    requires { 0 < budget }
    ensures { (due : Status) × (text : List ℕ) × AnswersAs form.Report bytes.now budget due text × (IsFaultless bytes.now budget → IsReported due)
        × Tells (K.faults sink.old) (K.faults sink.new) (K.taken sink.old) (K.taken sink.new) due text result }
{
    match answer(alloc, Form::Report, bytes, budget) {
        Ok(reply) => finish(sink, reply.status, &reply.text),
        Err(_) => finish(sink, Status::Memory, b"refused memory\n"),
    }
}

/// Reads a document to its end and answers it within a budget.
fn run_document<S: Source, K: Sink>(
    alloc: Global,
    budget: u64,
    source: &mut S,
    sink: &mut K,
) -> Status
    requires { 0 < budget }
    ensures outcome { (due : Status) × (text bytes : List ℕ)
        × Consumes (S.left source.old) (S.left source.new) bytes
        × IsDueFor budget bytes (Rose (S.faults source.old) (S.faults source.new)) (IsAtEnd (S.left source.new)) due text
        × Tells (K.faults sink.old) (K.faults sink.new) (K.taken sink.old) (K.taken sink.new) due text result }
    ensures complete { IsCompleteFor budget (S.left source.old)
        (Rose (S.faults source.old) (S.faults source.new)) (Rose (K.faults sink.old) (K.faults sink.new)) result }
{
    match read_all(alloc, source, LIMIT) {
        Ok(bytes) => finish_document(alloc, &bytes, budget, sink),
        Err(ReadAll::Failed) => finish(sink, Status::Read, b"refused read\n"),
        Err(ReadAll::TooLong) => finish(sink, Status::Length, b"refused length\n"),
        Err(ReadAll::Memory) => finish(sink, Status::Memory, b"refused memory\n"),
    }
}

/// Writes the generated document of so many stages.
fn generate<K: Sink>(alloc: Global, stages: u32, sink: &mut K) -> Status
    requires positive { 1 ≤ stages }
    requires within { stages ≤ 9000 }
    ensures { (due : Status) × (text : List ℕ) × IsGenerated stages due text × IsReported due
        × Tells (K.faults sink.old) (K.faults sink.new) (K.taken sink.old) (K.taken sink.new) due text result }
{
    match generated_document(alloc, stages) {
        Ok(bytes) => finish(sink, Status::Done, &bytes),
        Err(_) => finish(sink, Status::Memory, b"refused memory\n"),
    }
}

/// Runs the generated document of so many stages within a budget, and writes a summary.
fn demonstrate<K: Sink>(alloc: Global, stages: u32, budget: u64, sink: &mut K) -> Status
    requires positive { 1 ≤ stages }
    requires within { stages ≤ 9000 }
    requires budget { 0 < budget }
    ensures { (due : Status) × (text : List ℕ) × AnswersAs form.Summary (generated_text stages) budget due text
        × (IsFaultless (generated_text stages) budget → IsReported due)
        × Tells (K.faults sink.old) (K.faults sink.new) (K.taken sink.old) (K.taken sink.new) due text result }
{
    match demonstration(alloc, stages, budget) {
        Ok(told) => finish(sink, told.status, &told.text),
        Err(_) => finish(sink, Status::Memory, b"refused memory\n"),
    }
}

/// Does what a line asks for.
fn answer_line<S: Source, K: Sink>(
    alloc: Global,
    line: Line,
    source: &mut S,
    sink: &mut K,
) -> Status
    requires { IsWithin line }
    ensures outcome { (due : Status) × (text bytes : List ℕ)
        × Consumes (S.left source.old) (S.left source.new) bytes
        × IsDueForTask line.task line.budget bytes (Rose (S.faults source.old) (S.faults source.new)) (IsAtEnd (S.left source.new)) due text
        × Tells (K.faults sink.old) (K.faults sink.new) (K.taken sink.old) (K.taken sink.new) due text result }
    ensures complete { IsCompleteForTask line.task line.budget (S.left source.old)
        (Rose (S.faults source.old) (S.faults source.new)) (Rose (K.faults sink.old) (K.faults sink.new)) result }
    ensures unread { (Reads line.task → ⊥) → source.new ≡ source.old }
{
    match line.task {
        Task::Run => run_document(alloc, line.budget, source, sink),
        Task::Check => check_document(alloc, source, sink),
        Task::Generate(stages) => generate(alloc, stages, sink),
        Task::Demonstrate(stages) => demonstrate(alloc, stages, line.budget, sink),
    }
}

/// All that the program does. `run` reads a document to its end, runs its model within the budget that the words give and writes the
/// report, or the line of a refusal. `check` reads one likewise, runs nothing, and writes what it tells of the model. `gen N` writes the
/// generated document of N stages, and `demo N` a summary of its run: they read nothing. The words are those of the command line without the program's name. However many workers they give, one does all, and
/// no thread is started yet, so `rt` and `gate` wait for the directors that use them.
pub fn run_program<R: Threads + Wait + Sync, S: Source, K: Sink, G: Gate + Sync>(
    _rt: &R,
    alloc: Global,
    words: &[String],
    source: &mut S,
    sink: &mut K,
    _gate: &G,
) -> Status
    // What was read has an answer, and that is what was written.
    ensures outcome { (due : Status) × (text bytes : List ℕ)
        × Consumes (S.left source.old) (S.left source.new) bytes
        × IsDue (map string_bytes words.now) bytes (Rose (S.faults source.old) (S.faults source.new)) (IsAtEnd (S.left source.new)) due text
        × Tells (K.faults sink.old) (K.faults sink.new) (K.taken sink.old) (K.taken sink.new) due text result }
    // A document that isn't refused, and whose model is never stuck or in a jam and stays below the budget, is answered by its run, unless memory or a device fails.
    ensures complete { IsComplete (map string_bytes words.now) (S.left source.old)
        (Rose (S.faults source.old) (S.faults source.new)) (Rose (K.faults sink.old) (K.faults sink.new)) result }
    // Words that ask for no document leave the input as it was.
    ensures unread { (DoRead (map string_bytes words.now) → ⊥) → source.new ≡ source.old }
    // Reading or writing is told to have failed only where it did.
    ensures read { result ≡ Status.Read → Rose (S.faults source.old) (S.faults source.new) }
    ensures write { result ≡ Status.Write → Rose (K.faults sink.old) (K.faults sink.new) }
{
    words_are_one_line();
    lines_are_within();
    match read(alloc, words) {
        Ok(line) => answer_line(alloc, line, source, sink),
        Err(WordsFault::Refused) => finish(sink, Status::Words, b"refused words\n"),
        Err(WordsFault::Memory) => finish(sink, Status::Memory, b"refused memory\n"),
    }
}
