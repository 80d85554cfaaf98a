//! The items that a prepared JSON path selects from a document, found in place one at a time.

ghost use Rattle.std.specs.Prelude.{◌≡◌, IfErr, IfOk, IfSome, IsOkAnd, Some};
ghost use Rattle.jsonb_doc.specs.Answer.{IsDecodingError};
ghost use Rattle.jsonb_doc.specs.Format.{Decodes};
ghost use Rattle.jsonb_doc.specs.Payload.{Form};
ghost use Rattle.jsonb_doc.specs.Tree.{Tree};
ghost use Rattle.jsonb.specs.FirstItems.{IsFirstItem};
ghost use Rattle.jsonb.specs.FoundItems.{IsItemOf};
ghost use Rattle.jsonb_c.specs.Answers.{ShowsNothing, WithKept, WritesResult};
ghost use Rattle.jsonb_c.specs.FirstSpans.{ShowsFirst};
ghost use Rattle.jsonb_c.specs.Private.Boxes.{is_computed};
ghost use Rattle.jsonb_c.specs.Private.Views.{IsFirstWithin};
ghost use Rattle.jsonb_c.specs.Items.{IsNextSpan, LeavesItems};
ghost use Rattle.jsonb_c.specs.Representation.Prepared.{items_left};
ghost use Rattle.jsonb_c.specs.Spans.{IsSpanOf, IsWithin};
ghost use Rattle.jsonb_c.specs.Status.{code};
ghost use Rattle.jsonb_c.specs.declared.status.Status.TheVariants.{Answered};
ghost use Rattle.jsonb_c.specs.declared.prepared.path.PreparedPath.TheVariants.{Items};

use super::pop_delivered;
use crate::prepared::{PathHandle, PreparedPath};
use crate::span::first::store_first;
use crate::span::{Span, span_of};
use crate::status::Status;
use jsonb::{Error, FirstItem, FoundItem};
use std::alloc::Global;
use std::collections::VecDeque;

/// Stores the span of the next item.
#[unsafe(no_mangle)]
pub extern "C" fn jdoc_items_find_next(
    alloc: Global,
    items: &mut PathHandle,
    document: &[u8],
    span: &mut Span,
) -> u32
    ensures item { WithKept (items_left items.old.value)
        (λ left. WritesResult (IsNextSpan document.now left) IsDecodingError (ShowsFirst span.old span.new result))
        (ShowsNothing span.old span.new result) }
    ensures within { result ≡ code Answered → IsWithin document.now span.new }
    ensures left { LeavesItems result items.old.value items.new.value }
{
    let Some(mut kept) = items.take(alloc) else {
        return Status::NoPath.to_u32();
    };
    let status = find_next(&mut kept, document, span);
    items.put(kept);
    status
}

/// Stores the span of the next item, if items are kept.
fn find_next(kept: &mut PreparedPath, document: &[u8], span: &mut Span) -> u32
    ensures item { WithKept (items_left (Some kept.old))
        (λ left. WritesResult (IsNextSpan document.now left) IsDecodingError (ShowsFirst span.old span.new result))
        (ShowsNothing span.old span.new result) }
    ensures within { result ≡ code Answered → IsWithin document.now span.new }
    ensures left { LeavesItems result (Some kept.old) (Some kept.new) }
{
    match kept {
        PreparedPath::Items(left) => find_front(left, document, span),
        PreparedPath::Json(_) | PreparedPath::Keys(_) | PreparedPath::Events(_) => {
            Status::NoPath.to_u32()
        }
    }
}

/// Stores the span of the first of the items, and removes it if it is delivered.
fn find_front(items: &mut VecDeque<FoundItem>, document: &[u8], span: &mut Span) -> u32
    ensures item { WritesResult (IsNextSpan document.now items.old.items) IsDecodingError
        (ShowsFirst span.old span.new result) }
    ensures within { result ≡ code Answered → IsWithin document.now span.new }
    ensures left { LeavesItems result (Some (Items items.old)) (Some (Items items.new)) }
{
    let status = store_first(front_span(items, document), span);
    pop_delivered(items, status);
    status
}

/// Returns the span of the first of the items.
fn front_span(
    items: &VecDeque<FoundItem>,
    document: &[u8],
) -> Result<Option<FirstItem<Span>>, Error>
    ensures span { IsNextSpan document.now items.now.items result }
    ensures within { IfOk result (λ found. IfSome found (IsFirstWithin document.now)) }
    ensures errors { IfErr result IsDecodingError }
{
    match items.front() {
        Some(item) => Ok(Some(item_span(document, item)?)),
        None => Ok(None),
    }
}

/// Returns the span of an item, if it is in the document.
fn item_span(document: &[u8], item: &FoundItem) -> Result<FirstItem<Span>, Error>
    ensures span { (form : Form) (top t : Tree) → Decodes form document.now top
        → IsItemOf document.now form item.now t
        → IsOkAnd result (λ found. IsFirstItem (IsSpanOf form document.now) (is_computed item.now) found t) }
    ensures within { IfOk result (IsFirstWithin document.now) }
    ensures errors { IfErr result IsDecodingError }
{
    match item {
        FoundItem::At(spot) => Ok(FirstItem::At(span_of(document, *spot)?)),
        FoundItem::Number(_) | FoundItem::Document(_) => Ok(FirstItem::Computed),
    }
}
