ghost use Rattle.std.specs.Prelude.{◌≡◌, ◌≤◌, IfOk};
ghost use Rattle.pt_generated.specs.Text.{generated_text};

use crate::document::document_of_generated;
use std::alloc::{AllocError, Global};

/// The generated document of so many stages. That it is read as its job stays out of its clause, so no caller's proof looks at it.
pub fn generated_document(alloc: Global, stages: u32) -> Result<Vec<u8>, AllocError>
    requires positive { 1 ≤ stages }
    requires within { stages ≤ 9000 }
    ensures { IfOk result (λ bytes. bytes.items ≡ generated_text stages) }
{
    document_of_generated(alloc, stages)
}
