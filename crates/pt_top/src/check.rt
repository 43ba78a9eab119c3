// What answers a document that is checked.
ghost use Rattle.std.specs.Prelude.{List, ℕ, IfOk};
ghost use Rattle.std.specs.Io.KnownBytes.{Consumes, IsAtEnd};
ghost use Rattle.pt_io.specs.Causes.{Rose};
ghost use Rattle.pt_reply.specs.declared.status.Status.{Status};
ghost use Rattle.pt_reply.specs.Tells.{Tells};
ghost use Rattle.pt_document.specs.View.{job_view};
ghost use Rattle.pt_moml.specs.Reading.{IsJobOf};
ghost use Rattle.pt_moml.specs.Stands.{IsClean};
ghost use Rattle.pt_net.specs.declared.net.Net.{Net};
ghost use Rattle.pt_order.specs.Laws.{IsNetOfDocument};
ghost use Rattle.pt_model.specs.Checked.{AreFactsOf};
ghost use Rattle.pt_top.specs.Check.{ChecksNet};
ghost use Rattle.pt_top.specs.Outcome.{Checks, IsAccepted, IsDueBy, IsCompleteWhere};

use crate::report::answer_fault;
use crate::run::LIMIT;
use pt_document::{DocFault, Job};
use pt_facts::{Facts, check_text};
use pt_graph::flatten;
use pt_io::{ReadAll, Sink, Source, read_all};
use pt_model::check_net;
use pt_moml::read;
use pt_net::Net;
use pt_reply::{Reply, Status, finish, refuse};
use std::alloc::{AllocError, Global};

/// The answer that tells these facts.
fn told(alloc: Global, facts: &Facts) -> Result<Reply, AllocError>
    ensures { (net : Net) → AreFactsOf net facts.now → IfOk result (λ r. ChecksNet net r.status r.text.items) }
{
    Ok(Reply {
        status: Status::Done,
        text: check_text(alloc, facts)?,
    })
}

/// The answer to the net of a document that is checked, unless memory runs out for it.
fn check_of_net(alloc: Global, net: &Net) -> Result<Reply, AllocError>
    requires { IsNetOfDocument net.now }
    ensures { IfOk result (λ r. ChecksNet net.now r.status r.text.items) }
{
    match check_net(alloc, net) {
        Ok(facts) => told(alloc, &facts),
        Err(fault) => answer_fault(alloc, fault),
    }
}

/// The answer to the job of a document that is checked, unless memory runs out for it.
fn check_of_job(alloc: Global, job: &Job) -> Result<Reply, AllocError>
    requires { (bytes : List ℕ) × IsJobOf bytes (job_view job.now) }
    ensures { (bytes : List ℕ) → IsJobOf bytes (job_view job.now) → IsClean bytes → IfOk result (λ r. Checks bytes r.status r.text.items) }
{
    match flatten(alloc, job) {
        Ok(net) => check_of_net(alloc, &net),
        Err(DocFault::Refused(refusal)) => refuse(alloc, &refusal),
        Err(DocFault::Memory) => Err(AllocError),
    }
}

/// The answer to a document's bytes that are checked, unless memory runs out for it.
fn check(alloc: Global, bytes: &[u8]) -> Result<Reply, AllocError>
    ensures { IfOk result (λ r. Checks bytes.now r.status r.text.items) }
{
    match read(alloc, bytes) {
        Ok(job) => check_of_job(alloc, &job),
        Err(DocFault::Refused(refusal)) => refuse(alloc, &refusal),
        Err(DocFault::Memory) => Err(AllocError),
    }
}

/// Checks a document.
fn finish_check<K: Sink>(alloc: Global, bytes: &[u8], sink: &mut K) -> Status
    ensures { (due : Status) × (text : List ℕ) × Checks bytes.now due text
        × Tells (K.faults sink.old) (K.faults sink.new) (K.taken sink.old) (K.taken sink.new) due text result }
{
    match check(alloc, bytes) {
        Ok(reply) => finish(sink, reply.status, &reply.text),
        Err(_) => finish(sink, Status::Memory, b"refused memory\n"),
    }
}

/// Reads a document to its end and checks it.
pub fn check_document<S: Source, K: Sink>(alloc: Global, source: &mut S, sink: &mut K) -> Status
    ensures outcome { (due : Status) × (text bytes : List ℕ)
        × Consumes (S.left source.old) (S.left source.new) bytes
        × IsDueBy (Checks bytes) bytes (Rose (S.faults source.old) (S.faults source.new)) (IsAtEnd (S.left source.new)) due text
        × Tells (K.faults sink.old) (K.faults sink.new) (K.taken sink.old) (K.taken sink.new) due text result }
    ensures complete { IsCompleteWhere IsAccepted (S.left source.old)
        (Rose (S.faults source.old) (S.faults source.new)) (Rose (K.faults sink.old) (K.faults sink.new)) result }
{
    match read_all(alloc, source, LIMIT) {
        Ok(bytes) => finish_check(alloc, &bytes, sink),
        Err(ReadAll::Failed) => finish(sink, Status::Read, b"refused read\n"),
        Err(ReadAll::TooLong) => finish(sink, Status::Length, b"refused length\n"),
        Err(ReadAll::Memory) => finish(sink, Status::Memory, b"refused memory\n"),
    }
}
