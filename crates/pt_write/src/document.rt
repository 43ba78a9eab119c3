ghost use Rattle.std.specs.Prelude.{◌≡◌, ℕ, List, IfOk, OnOk};
ghost use Rattle.pt_document.specs.Document.{JobTree};
ghost use Rattle.pt_document.specs.View.{job_view};
ghost use Rattle.pt_moml.specs.Reading.{IsJobOf};
ghost use Rattle.pt_write.specs.Written.{tokens};
ghost use Rattle.pt_write.specs.Document.{document};
ghost use Rattle.pt_write.specs.Text.{document_text, IsReadable};
ghost use Rattle.pt_write.specs.Form.{IsSayable};
ghost use Rattle.pt_write.specs.Appends.{Appends};

use crate::entity::write_entity;
use crate::fields::{begin_object, end_object, optional_list_field, whole_field};
use json::Writer;
use pt_document::Job;
use std::alloc::{AllocError, Global};

fn write_job(out: &mut Writer, job: &Job) -> Result<(), AllocError>
    ensures { OnOk result (Appends out.old out.new (tokens (document (job_view job.now)))) }
{
    begin_object(out)?;
    whole_field(out, "version", 1)?;
    out.key("model")?;
    write_entity(out, &job.model)?;
    optional_list_field(out, "inputs", &job.inputs)?;
    optional_list_field(out, "record", &job.records)?;
    end_object(out)?;
    Ok(())
}

/// The document of a job: compact JSON, with the fields of each object in the order of the format. It goes as deep as
/// the job nests.
pub fn write(alloc: Global, job: &Job) -> Result<Vec<u8>, AllocError>
    ensures text { IfOk result (λ bytes. bytes.items ≡ document_text (job_view job.now)) }
    // A job that has the form of what documents say is read again.
    ensures read { IfOk result (λ bytes. IsSayable (job_view job.now) → IsJobOf bytes.items (job_view job.now)) }
    // So is a job that was read, whatever the bytes were.
    ensures again { IfOk result (λ bytes. IsReadable (job_view job.now) → IsJobOf bytes.items (job_view job.now)) }
{
    let mut out = Writer::new(Vec::new(alloc));
    write_job(&mut out, job)?;
    Ok(out.into_inner())
}

/// A law of the format: what a document says is sayable.
pub fn document_is_read()
    ensures { (bytes : List ℕ) (job : JobTree) → IsJobOf bytes job → IsSayable job }
{}
