//! Whether bytes are a document.

ghost use Rattle.jsonb_c.specs.Calls.{IsCheckOf};

use crate::status::Status;

/// Returns the status for these bytes: success if and only if they are a document, otherwise the error.
#[unsafe(no_mangle)]
pub extern "C" fn jdoc_check(document: &[u8]) -> u32
    ensures { IsCheckOf document.now result }
{
    match jsonb::check(document) {
        Ok(()) => Status::Answered.to_u32(),
        Err(error) => Status::Refused(error).to_u32(),
    }
}
