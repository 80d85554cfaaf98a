//! The items that a prepared JSON path selects from a document, delivered one at a time.

ghost use Rattle.std.specs.Prelude.{◌≡◌, IfErr, MatchResult, Some, None, Err};
ghost use Rattle.jsonb_doc.specs.Answer.{IsDecodingError, IsOutOfMemory, ◌or◌};
ghost use Rattle.jsonb_doc.specs.declared.error.Error.TheVariants.{OutOfMemory, TooLarge};
ghost use Rattle.jsonb.specs.FoundItems.{IsItemOf};
ghost use Rattle.jsonb.specs.PathViews.{path_view};
ghost use Rattle.jsonb.specs.SelectionErrors.{IsSelectionError};
ghost use Rattle.jsonb.specs.SelectorAnswers.{ByMeanings, AreAll};
ghost use Rattle.jsonb_c.specs.Answers.{Delivers, DeliversBy, WithKept, WritesResult};
ghost use Rattle.jsonb_c.specs.Calls.{mode_of};
ghost use Rattle.jsonb_c.specs.Limits.{WithPath};
ghost use Rattle.jsonb_c.specs.Items.{IsNextOf, LeavesItems};
ghost use Rattle.jsonb_c.specs.Representation.Prepared.{items_left, json_limit, json_steps};
ghost use Rattle.jsonb_c.specs.Private.Boxes.{HoldsItems};
ghost use Rattle.jsonb_c.specs.Status.{code};
ghost use Rattle.jsonb_c.specs.declared.status.Status.TheVariants.{Answered, NoPath, Refused};
ghost use Rattle.jsonb_c.specs.declared.prepared.path.PreparedPath.TheVariants.{Items};

use crate::deliver::{deliver, deliver_nothing};
use crate::document::select::selector;
use crate::prepared::{PathHandle, PreparedPath};
use crate::status::Status;
use jsonb::{Error, FoundItem, JsonPath, OwnedJsonb, RawJsonb};
use std::alloc::Global;
use std::collections::VecDeque;

pub(crate) mod span;

/// Evaluates the path on a document, and keeps what it selects in place of what `items` keeps.
#[unsafe(no_mangle)]
pub extern "C" fn jdoc_path_items(
    alloc: Global,
    path: &mut PathHandle,
    document: &[u8],
    strict: bool,
    items: &mut PathHandle,
) -> u32
    ensures kept { path.new.value ≡ path.old.value }
    ensures items { WithPath (json_limit path.old.value) (json_steps path.old.value) document.now
        (λ steps. WritesResult (ByMeanings (mode_of strict) document.now steps (AreAll (IsItemOf document.now)))
        (IsSelectionError (mode_of strict) or TooLarge) (λ answer. MatchResult answer
        (λ found. (result ≡ code Answered) × (items_left items.new.value ≡ Some found.items))
        (λ e. (result ≡ code (Refused e)) × (items.new.value ≡ None))))
        (λ cause. (result ≡ code cause) × (items.new.value ≡ None)) }
{
    let Some(kept) = path.take(alloc) else {
        return items.keep(alloc, Err(Status::NoPath));
    };
    let found = items_of(alloc, &kept, document, strict);
    path.put(kept);
    items.keep(alloc, found)
}

/// Returns what a path selects, or the status if it is not a JSON path or fails.
#[tactic(auto, using(crate::proofs::LimitLemmas::admitted))]
fn items_of(
    alloc: Global,
    path: &PreparedPath,
    document: &[u8],
    strict: bool,
) -> Result<Box<PreparedPath>, Status>
    ensures { WithPath (json_limit (Some path.now)) (json_steps (Some path.now)) document.now
        (λ steps. WritesResult (ByMeanings (mode_of strict) document.now steps (AreAll (IsItemOf document.now)))
        (IsSelectionError (mode_of strict) or TooLarge) (λ answer. HoldsItems answer result))
        (λ cause. result ≡ Err cause) }
{
    let steps = path.admitted(alloc, document)?;
    boxed_items(alloc, steps, document, strict)
}

fn boxed_items(
    alloc: Global,
    path: &JsonPath<'_>,
    document: &[u8],
    strict: bool,
) -> Result<Box<PreparedPath>, Status>
    ensures { WritesResult
        (ByMeanings (mode_of strict) document.now (path_view path.now) (AreAll (IsItemOf document.now)))
        (IsSelectionError (mode_of strict) or TooLarge) (λ answer. HoldsItems answer result) }
{
    let found = selector(alloc, document, strict).find_values(path)?;
    Ok(box_items(alloc, found)?)
}

fn box_items(alloc: Global, found: Vec<FoundItem>) -> Result<Box<PreparedPath>, Error>
    ensures { MatchResult result (λ made. items_left (Some made.value) ≡ Some found.items) IsOutOfMemory }
{
    let items = VecDeque::from(found);
    Ok(Box::new(alloc, PreparedPath::Items(items))?)
}

/// Returns the next item as a document.
#[unsafe(no_mangle)]
pub extern "C" fn jdoc_items_next(
    alloc: Global,
    items: &mut PathHandle,
    document: &[u8],
    out: &mut [u8],
    out_len: &mut usize,
) -> u32
    ensures item { DeliversBy (WithKept (items_left items.old.value))
        (λ left. WritesResult (IsNextOf document.now left) (IsDecodingError or OutOfMemory or TooLarge))
        out.old out.new out_len.new result }
    ensures left { LeavesItems result items.old.value items.new.value }
{
    let Some(mut kept) = items.take(alloc) else {
        return deliver_nothing(Status::NoPath, out_len);
    };
    let status = deliver_next(alloc, &mut kept, document, out, out_len);
    items.put(kept);
    status
}

/// Stores the next item, if items are kept.
fn deliver_next(
    alloc: Global,
    kept: &mut PreparedPath,
    document: &[u8],
    out: &mut [u8],
    out_len: &mut usize,
) -> u32
    ensures item { DeliversBy (WithKept (items_left (Some kept.old)))
        (λ left. WritesResult (IsNextOf document.now left) (IsDecodingError or OutOfMemory or TooLarge))
        out.old out.new out_len.new result }
    ensures left { LeavesItems result (Some kept.old) (Some kept.new) }
{
    match kept {
        PreparedPath::Items(left) => deliver_front(alloc, left, document, out, out_len),
        PreparedPath::Json(_) | PreparedPath::Keys(_) | PreparedPath::Events(_) => {
            deliver_nothing(Status::NoPath, out_len)
        }
    }
}

/// Stores the first of the items, and removes it if it is delivered.
fn deliver_front(
    alloc: Global,
    items: &mut VecDeque<FoundItem>,
    document: &[u8],
    out: &mut [u8],
    out_len: &mut usize,
) -> u32
    ensures item { WritesResult (IsNextOf document.now items.old.items) (IsDecodingError or OutOfMemory or TooLarge)
        (Delivers out.old out.new out_len.new result) }
    ensures left { LeavesItems result (Some (Items items.old)) (Some (Items items.new)) }
{
    let status = deliver(front_document(alloc, items, document), out, out_len);
    pop_delivered(items, status);
    status
}

/// Removes the first of the items if the call delivers it.
fn pop_delivered(items: &mut VecDeque<FoundItem>, status: u32)
    ensures { LeavesItems status (Some (Items items.old)) (Some (Items items.new)) }
{
    if status == Status::Answered.to_u32() {
        drop(items.pop_front());
    }
}

/// Returns the first of the items as a document.
fn front_document(
    alloc: Global,
    items: &VecDeque<FoundItem>,
    document: &[u8],
) -> Result<Option<OwnedJsonb>, Error>
    ensures item { IsNextOf document.now items.now.items result }
    ensures errors { IfErr result (IsDecodingError or OutOfMemory or TooLarge) }
{
    match items.front() {
        Some(item) => Ok(Some(item.to_document(alloc, &RawJsonb::new(document))?)),
        None => Ok(None),
    }
}

/// Drops the items that the handle keeps, if there are some.
#[unsafe(no_mangle)]
pub extern "C" fn jdoc_items_free(alloc: Global, items: &mut PathHandle)
    ensures { items.new.value ≡ None }
{
    items.clear(alloc);
}
