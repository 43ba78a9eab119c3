// What answers the document of a generated job.
ghost use Rattle.std.specs.Prelude.{◌≡◌, ◌<◌, ◌≤◌, IfOk};
ghost use Rattle.pt_reply.specs.declared.form.Form.TheVariants.{Summary};
ghost use Rattle.pt_reply.specs.declared.status.Status.TheVariants.{Done};
ghost use Rattle.pt_generated.specs.Text.{generated_text};
ghost use Rattle.pt_top.specs.Outcome.{AnswersAs, IsFaultless};

use crate::answer::answer;
use pt_generated::generated_document;
use pt_reply::{Form, Reply};
use std::alloc::{AllocError, Global};

/// A summary of a run of the generated document of so many stages, within a budget, unless memory runs out for it. The document is
/// written and read, so that what is known of documents is known of it.
pub fn demonstration(alloc: Global, stages: u32, budget: u64) -> Result<Reply, AllocError>
    requires positive { 1 ≤ stages }
    requires within { stages ≤ 9000 }
    requires budget { 0 < budget }
    ensures answers { IfOk result (λ r. AnswersAs Summary (generated_text stages) budget r.status r.text.items) }
    ensures complete { IsFaultless (generated_text stages) budget → IfOk result (λ r. r.status ≡ Done) }
{
    let bytes = generated_document(alloc, stages)?;
    let reply = answer(alloc, Form::Summary, &bytes, budget);
    drop(bytes);
    reply
}
