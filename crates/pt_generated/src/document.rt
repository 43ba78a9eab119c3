ghost use Rattle.std.specs.Prelude.{◌≡◌, ◌≤◌, ℕ, IfOk};
ghost use Rattle.pt_moml.specs.Reading.{IsJobOf};
ghost use Rattle.pt_write.specs.Form.{IsSayable};
ghost use Rattle.pt_write.specs.Text.{document_text};
ghost use Rattle.pt_gen.specs.Generated.{generated};

use pt_gen::job;
use pt_write::write;
use std::alloc::{AllocError, Global};

/// A law of the generated jobs: a document says each of them.
pub fn generated_jobs_are_sayable()
    ensures { (n : ℕ) → n ≤ 9000 → IsSayable (generated n) }
{}

/// The document of the generated job of `n`.
pub fn document_of_generated(alloc: Global, n: u32) -> Result<Vec<u8>, AllocError>
    requires positive { 1 ≤ n }
    requires within { n ≤ 9000 }
    ensures text { IfOk result (λ bytes. bytes.items ≡ document_text (generated n)) }
    // It is read as this job.
    ensures read { IfOk result (λ bytes. IsJobOf bytes.items (generated n)) }
{
    generated_jobs_are_sayable();
    let job = job(alloc, n)?;
    let written = write(alloc, &job);
    drop(job);
    written
}
