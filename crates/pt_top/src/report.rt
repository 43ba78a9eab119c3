// What is answered to a net.
ghost use Rattle.std.specs.Prelude.{◌≡◌, ◌⊎◌, ◌<◌, ℕ, length, IfOk};
ghost use Rattle.pt_reply.specs.declared.form.Form.{Form};
ghost use Rattle.pt_reply.specs.declared.status.Status.TheVariants.{Done, Document};
ghost use Rattle.pt_order.specs.Laws.{IsNetOfDocument};
ghost use Rattle.pt_node.specs.Shown.{shown_node};
ghost use Rattle.pt_trees.specs.Start.{IsRunnable};
ghost use Rattle.pt_trees.specs.Ports.{AreNumbered};
ghost use Rattle.pt_trees.specs.Run.{IsAffordable};
ghost use Rattle.pt_net.specs.declared.net.Net.{Net};
ghost use Rattle.pt_elaboration.specs.Refused.{FaultStands};
ghost use Rattle.pt_model.specs.Model.{IsModel};
ghost use Rattle.pt_top.specs.Reply as reply;
ghost use Rattle.pt_top.specs.Reply.{IsReport, AnswersNet, IsAffordableNet};

use pt_document::DocFault;
use pt_meetings::write_meetings_of;
use pt_model::{Model, model_of};
use pt_net::Net;
use pt_node::Node;
use pt_reply::{Form, Reply, Status, refuse, told_in};
use pt_reporting::{numbers_stay, report};
use pt_run::run;
use pt_trees::{Ended, Top};
use std::alloc::{AllocError, Global};
use std::mem::ManuallyDrop;

fn status_of(ended: &Ended) -> Status
    ensures { result ≡ reply.status_of ended.now }
{
    match ended {
        Ended::Iterations => Status::Done,
        Ended::Inputs => Status::Done,
        Ended::Stop => Status::Done,
        Ended::Idle => Status::Done,
        Ended::Deadlock => Status::Done,
        Ended::Fault(_) => Status::Fault,
        Ended::Full(_) => Status::Queue,
        Ended::Spent(_) => Status::Budget,
    }
}

/// Runs the model of a net within a budget, and tells the run.
fn report_run(
    alloc: Global,
    form: Form,
    net: &Net,
    top: &mut Node,
    job: &Top,
    budget: u64,
) -> Result<Reply, AllocError>
    requires net { IsNetOfDocument net.now }
    requires model { IsModel net.now (shown_node top.old) job.now }
    requires runnable { IsRunnable job.now (shown_node top.old) }
    requires numbered { AreNumbered (length net.now.recorded.items) (shown_node top.old) }
    requires budget { 0 < budget }
    ensures report { IfOk result (λ r. IsReport form net.now budget r.status r.text.items) }
    ensures complete { IsAffordable job.now budget (shown_node top.old) → IfOk result (λ r. r.status ≡ Done) }
{
    numbers_stay();
    let ran = run(alloc, top, job, budget)?;
    let firings = ran.firings;
    let status = status_of(&ran.ended);
    let mut lists = Vec::new(alloc);
    write_meetings_of(alloc, net, top, &mut lists)?;
    let report = report(alloc, top, Vec::new(alloc), ran.ended, net.recorded.len())?;
    Ok(Reply {
        status,
        text: told_in(alloc, form, report, &lists, firings)?,
    })
}

/// The answer of a run of a net's model within a budget. The model is kept to the end of the program, which is near, and where the
/// system takes all memory back at once.
fn answer_model(
    alloc: Global,
    form: Form,
    net: &Net,
    mut model: Model,
    budget: u64,
) -> Result<Reply, AllocError>
    requires net { IsNetOfDocument net.now }
    requires model { IsModel net.now (shown_node model.top) model.job }
    requires runnable { IsRunnable model.job (shown_node model.top) }
    requires numbered { AreNumbered (length net.now.recorded.items) (shown_node model.top) }
    requires budget { 0 < budget }
    ensures answers { IfOk result (λ r. AnswersNet form net.now budget r.status r.text.items) }
    ensures complete { IsAffordable model.job budget (shown_node model.top) → IfOk result (λ r. (r.status ≡ Done) ⊎ (r.status ≡ Document)) }
{
    let reply = report_run(alloc, form, net, &mut model.top, &model.job, budget);
    let _kept = ManuallyDrop::new(model);
    reply
}

/// The answer to a net that has no model, unless memory ran out.
pub(crate) fn answer_fault(alloc: Global, fault: DocFault) -> Result<Reply, AllocError>
    ensures answers { (form : Form) (net : Net) (budget : ℕ) → FaultStands net fault → IfOk result (λ r. AnswersNet form net budget r.status r.text.items) }
    ensures refused { IfOk result (λ r. r.status ≡ Document) }
{
    match fault {
        DocFault::Refused(refusal) => refuse(alloc, &refusal),
        DocFault::Memory => Err(AllocError),
    }
}

/// The answer to the net of a document in a form, within a budget, unless memory runs out for it.
pub fn reply_to_net(alloc: Global, form: Form, net: &Net, budget: u64) -> Result<Reply, AllocError>
    requires net { IsNetOfDocument net.now }
    requires budget { 0 < budget }
    ensures answers { IfOk result (λ r. AnswersNet form net.now budget r.status r.text.items) }
    // Where the models are affordable, what isn't done is refused.
    ensures complete { IsAffordableNet net.now budget → IfOk result (λ r. (r.status ≡ Done) ⊎ (r.status ≡ Document)) }
{
    match model_of(alloc, net) {
        Ok(model) => answer_model(alloc, form, net, model, budget),
        Err(fault) => answer_fault(alloc, fault),
    }
}
