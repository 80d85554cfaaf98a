//! Documents from lists of events.

ghost use Rattle.std.specs.Prelude.{◌≡◌, ◌⊎◌, suc, length, IfOk, IfErr, MatchResult};
ghost use Rattle.jsonb_doc.specs.Tree.{Tree};
ghost use Rattle.jsonb_doc.specs.Payload.{Form};
ghost use Rattle.jsonb_doc.specs.Format.{Decodes};
ghost use Rattle.jsonb_doc.specs.Limits.{IsTooLarge, Builds};
ghost use Rattle.jsonb_doc.specs.EventList.{AreEventsOf, FailsWith};
ghost use Rattle.jsonb_doc.specs.Private.EventParts.{IsPart};
ghost use Rattle.jsonb_doc.specs.declared.error.Error.TheVariants.{OutOfMemory, TooLarge};
ghost use Rattle.jsonb_doc.specs.declared.event_error.EventError.TheVariants.{Failed};

pub(crate) mod collecting;
mod sorting;
mod writing;

use crate::encoding::encode_item;
use crate::error::Error;
use crate::event_error::EventError;
use crate::event_list::collecting::{Collected, Part, collect};
use crate::event_list::writing::write_container;
use crate::item::Item;
use crate::text_event::{TextEvent, plain_item};
use std::alloc::Global;

/// Returns the document of a list of events, such as those of a parser. The bytes of their keys and strings are in
/// `text`, one after the other. It may have more bytes.
///
/// Members are sorted by key. If `keep_last`, the last value of a duplicate key is kept.
///
/// # Errors
///
/// - `OutOfOrder` if an event cannot come next or has another kind, if its string or key ends past the text or within a
///   character, or if the root is not complete at the end.
/// - `Failed` with `ObjectDuplicateKey` if a key is a duplicate, unless `keep_last`. Keys are compared when their
///   object ends, so an event that is out of order before that is the error.
/// - `Failed` with `TooLarge` if the document exceeds the limits, or with `OutOfMemory` if an allocation fails.
///
/// # Complexity
///
/// O(n) for n events and bytes, and O(k log k) comparisons of keys, for k members of an object. Allocates. No call
/// recurses, however deep the containers are.
///
/// # Examples
///
/// ```rust crates/jsonb_examples/src/events.rt
/// let events = [
///     event(OBJECT, 0),
///     event(KEY, 2),
///     event(TRUE, 0),
///     event(END, 0),
/// ];
/// document_from_events(alloc, "ok", &events, false)
/// ```
pub fn document_from_events(
    alloc: Global,
    text: &str,
    events: &[TextEvent],
    keep_last: bool,
) -> Result<Vec<u8>, EventError>
    ensures document { (form : Form) → IfOk result (λ v. (t : Tree)
        × AreEventsOf keep_last events.now text.now t × Decodes form v.items t) }
    ensures complete { (form : Form) (t : Tree) → AreEventsOf keep_last events.now text.now t
        → MatchResult result (λ v. Decodes form v.items t)
        (λ e. (e ≡ Failed OutOfMemory) ⊎ ((e ≡ Failed TooLarge) × IsTooLarge form t)) }
    ensures errors { (form : Form) → IfErr result (FailsWith form keep_last events.now text.now) }
{
    let collected = collect(alloc, text, events, keep_last)?;
    let capacity = text
        .len()
        .saturating_add(events.len().saturating_mul(12))
        .saturating_add(8);
    Ok(collected_document(alloc, &collected, capacity)?)
}

/// Returns the document of what was collected.
#[tactic(auto, using(crate::proofs::EventListLemmas::plain_stands))]
fn collected_document(
    alloc: Global,
    collected: &Collected<'_>,
    capacity: usize,
) -> Result<Vec<u8>, Error>
    ensures document { (form : Form) (t : Tree)
        → IsPart collected.now.members.items (suc (length collected.now.members.items)) collected.now.root t
        → Builds form t result (λ v. Decodes form v.items t) }
{
    match collected.root {
        Part::Text(text) => encode_item(alloc, &Item::String(text)),
        Part::Plain(event) => match plain_item(event) {
            Some(item) => encode_item(alloc, &item),
            None => Err(Error::InvalidJsonb),
        },
        Part::Nested(run) => write_container(alloc, &collected.members, run, capacity),
    }
}

#[cfg(test)]
mod tests;
