//! Documents from lists of events.

ghost use Rattle.std.specs.Prelude.{ℕ, List, Result, IsUtf8};
ghost use Rattle.jsonb_c.specs.Answers.{DeliversNothing};
ghost use Rattle.jsonb_c.specs.Builders.{DeliversAnswer, MakesDocumentOf};
ghost use Rattle.jsonb_c.specs.Private.Views.{list_answer};
ghost use Rattle.jsonb_c.specs.declared.status.Status.TheVariants.{NotUtf8};

use crate::builder::events::cause_of;
use crate::deliver::{deliver_bytes, deliver_nothing};
use crate::status::Status;
use jsonb::{EventError, TextEvent, document_from_events};
use std::alloc::Global;

/// Returns the document of some events, whose keys and strings are in `text`, one after the other. It must be
/// UTF-8. Fails with `OutOfOrder` at the first event that cannot come next, or unless `keep_last` with
/// `ObjectDuplicateKey` at the end of the first object with a duplicate key, and with `TooLarge` if the document
/// exceeds the limits.
#[unsafe(no_mangle)]
pub extern "C" fn jdoc_from_events(
    alloc: Global,
    text: &[u8],
    events: &[TextEvent],
    keep_last: bool,
    out: &mut [u8],
    out_len: &mut usize,
) -> u32
    ensures text { IsUtf8 text.now → (answer : Result (List ℕ) EventError)
        × MakesDocumentOf keep_last events.now text.now answer
        × DeliversAnswer out.old out.new out_len.new result answer }
    ensures other { ¬ (IsUtf8 text.now) → DeliversNothing out.old out.new out_len.new result NotUtf8 }
{
    let Ok(text) = str::from_utf8(text) else {
        return deliver_nothing(Status::NotUtf8, out_len);
    };
    deliver_made(
        document_from_events(alloc, text, events, keep_last),
        out,
        out_len,
    )
}

/// Stores the document, or returns the status of the error.
fn deliver_made(answer: Result<Vec<u8>, EventError>, out: &mut [u8], out_len: &mut usize) -> u32
    ensures { DeliversAnswer out.old out.new out_len.new result (list_answer answer) }
{
    match answer {
        Ok(document) => deliver_bytes(&document, out, out_len),
        Err(error) => deliver_nothing(cause_of(error), out_len),
    }
}
