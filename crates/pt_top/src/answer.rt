// What answers a document.
ghost use Rattle.std.specs.Prelude.{◌≡◌, ◌⊎◌, ◌<◌, ℕ, List, IfOk};
ghost use Rattle.pt_document.specs.View.{job_view};
ghost use Rattle.pt_moml.specs.Reading.{IsJobOf};
ghost use Rattle.pt_net.specs.declared.net.Net.{Net};
ghost use Rattle.pt_net.specs.Net.{IsNetOf};
ghost use Rattle.pt_reply.specs.declared.status.Status.TheVariants.{Done, Document};
ghost use Rattle.pt_top.specs.Reply.{IsAffordableNet};
ghost use Rattle.pt_top.specs.Outcome.{AnswersAs, AnswersJob, IsWellLinked, IsFaultless};

use crate::report::reply_to_net;
use pt_document::{DocFault, Job};
use pt_graph::flatten;
use pt_moml::read;
use pt_reply::{Form, Reply, refuse};
use std::alloc::{AllocError, Global};
use std::mem::ManuallyDrop;

/// The answer to the job of a document in a form, within a budget, unless memory runs out for it. Its net is kept to the end of the
/// program, as its model is.
fn answer_job(alloc: Global, form: Form, job: &Job, budget: u64) -> Result<Reply, AllocError>
    requires job { (bytes : List ℕ) × IsJobOf bytes (job_view job.now) }
    requires budget { 0 < budget }
    ensures answers { IfOk result (λ r. AnswersJob form (job_view job.now) budget r.status r.text.items) }
    // Where the models are affordable, what isn't done is refused.
    ensures complete { ((net : Net) → IsNetOf (job_view job.now) net → IsWellLinked (job_view job.now) → IsAffordableNet net budget)
        → IfOk result (λ r. (r.status ≡ Done) ⊎ (r.status ≡ Document)) }
{
    match flatten(alloc, job) {
        Ok(net) => {
            let reply = reply_to_net(alloc, form, &net, budget);
            let _kept = ManuallyDrop::new(net);
            reply
        }
        Err(DocFault::Refused(refusal)) => refuse(alloc, &refusal),
        Err(DocFault::Memory) => Err(AllocError),
    }
}

/// The answer to a document's bytes in a form, within a budget, unless memory runs out for it. Its job is kept to the end of the
/// program.
pub fn answer(alloc: Global, form: Form, bytes: &[u8], budget: u64) -> Result<Reply, AllocError>
    requires { 0 < budget }
    ensures answers { IfOk result (λ r. AnswersAs form bytes.now budget r.status r.text.items) }
    ensures complete { IsFaultless bytes.now budget → IfOk result (λ r. r.status ≡ Done) }
{
    match read(alloc, bytes) {
        Ok(job) => {
            let reply = answer_job(alloc, form, &job, budget);
            let _kept = ManuallyDrop::new(job);
            reply
        }
        Err(DocFault::Refused(refusal)) => refuse(alloc, &refusal),
        Err(DocFault::Memory) => Err(AllocError),
    }
}
