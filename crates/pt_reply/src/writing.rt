ghost use Rattle.pt_reply.specs.Tells.{Tells};

use crate::status::Status;
use pt_io::{Sink, write_all};

/// Writes the text that is due, and tells its status.
pub fn finish<K: Sink>(sink: &mut K, status: Status, text: &[u8]) -> Status
    ensures { Tells (K.faults sink.old) (K.faults sink.new) (K.taken sink.old) (K.taken sink.new) status text.now result }
{
    match write_all(sink, text) {
        Ok(()) => status,
        Err(_) => Status::Write,
    }
}
