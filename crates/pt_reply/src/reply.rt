// A refusal of a document, as it is answered.
ghost use Rattle.std.specs.Prelude.{◌≡◌, IfOk};
ghost use Rattle.pt_reply.specs.declared.status.Status.TheVariants.{Document};
ghost use Rattle.pt_reply.specs.Texts.{refusal_text};

use crate::status::Status;
use pt_document::Refusal;
use std::alloc::{AllocError, Global};

/// A status, and the text that goes with it.
#[derive(Drop)]
pub struct Reply {
    pub status: Status,
    pub text: Vec<u8>,
}

/// The answer that refuses a document.
pub fn refuse(alloc: Global, refusal: &Refusal) -> Result<Reply, AllocError>
    ensures { IfOk result (λ r. (r.status ≡ Document) × (r.text.items ≡ refusal_text refusal.now)) }
{
    let code = refusal.code.number();
    let name = refusal.code.name();
    let path = refusal.path.as_str();
    let line = format!(in alloc; "refused {code} {name} {path}\n")?;
    Ok(Reply {
        status: Status::Document,
        text: line.into_bytes(),
    })
}
