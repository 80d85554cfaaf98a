//! The span of the first item that a JSON path selects.

ghost use Rattle.std.specs.Prelude.{◌≡◌, Bool, Option, Some, IsOkAnd, IfErr, IfOk, IfSome, ok_or};
ghost use Rattle.jsonb_doc.specs.Answer.{SameOption, IsDecodingError};
ghost use Rattle.jsonb_doc.specs.Format.{Decodes};
ghost use Rattle.jsonb_doc.specs.Payload.{Form};
ghost use Rattle.jsonb_doc.specs.Representation.Positions.{Locates};
ghost use Rattle.jsonb_doc.specs.Tree.{Tree};
ghost use Rattle.jsonb.specs.FirstItems.{IsFirstItem};
ghost use Rattle.jsonb.specs.PathGrammar.{json_path};
ghost use Rattle.jsonb.specs.PathViews.{path_view};
ghost use Rattle.jsonb.specs.SelectionErrors.{IsSelectionError};
ghost use Rattle.jsonb_c.specs.Answers.{ShowsNothing, With, WritesResult};
ghost use Rattle.jsonb_c.specs.Calls.{mode_of};
ghost use Rattle.jsonb_c.specs.Limits.{WithPath};
ghost use Rattle.jsonb_c.specs.FirstSpans.{FindsFirstSpan, ShowsFirst};
ghost use Rattle.jsonb_c.specs.Private.Views.{IsFirstWithin};
ghost use Rattle.jsonb_c.specs.Representation.Prepared.{json_limit, json_steps};
ghost use Rattle.jsonb_c.specs.Spans.{IsSpanOf, IsWithin};
ghost use Rattle.jsonb_c.specs.Status.{code};
ghost use Rattle.jsonb_c.specs.declared.status.Status.TheVariants.{Answered, NotJsonPath};

use super::{Span, span_of};
use crate::document::select::selector;
use crate::prepared::{PathHandle, PreparedPath};
use crate::status::Status;
use jsonb::{Error, FirstItem, JsonPath, Spot, parse_json_path};
use std::alloc::Global;

/// Stores the span of the first item that a JSON path selects.
#[unsafe(no_mangle)]
pub extern "C" fn jdoc_find_first(
    alloc: Global,
    document: &[u8],
    path: &[u8],
    strict: bool,
    span: &mut Span,
) -> u32
    ensures span { With (ok_or (json_path path.now) NotJsonPath)
        (λ steps. WritesResult (FindsFirstSpan (mode_of strict) document.now steps)
        (IsSelectionError (mode_of strict)) (ShowsFirst span.old span.new result))
        (ShowsNothing span.old span.new result) }
    ensures within { result ≡ code Answered → IsWithin document.now span.new }
{
    match parse_json_path(alloc, path) {
        Ok(steps) => {
            let found = first_by_path(alloc, document, &steps, strict);
            store_first(found, span)
        }
        Err(error) => Status::of_text(error).to_u32(),
    }
}

/// Stores the span of the first item that the path selects.
#[unsafe(no_mangle)]
pub extern "C" fn jdoc_path_find_first(
    alloc: Global,
    path: &mut PathHandle,
    document: &[u8],
    strict: bool,
    span: &mut Span,
) -> u32
    ensures kept { path.new.value ≡ path.old.value }
    ensures span { WithPath (json_limit path.old.value) (json_steps path.old.value) document.now
        (λ steps. WritesResult (FindsFirstSpan (mode_of strict) document.now steps)
        (IsSelectionError (mode_of strict)) (ShowsFirst span.old span.new result))
        (ShowsNothing span.old span.new result) }
    ensures within { result ≡ code Answered → IsWithin document.now span.new }
{
    let Some(kept) = path.take(alloc) else {
        return Status::NoPath.to_u32();
    };
    let status = store_first_of(alloc, &kept, document, strict, span);
    path.put(kept);
    status
}

/// Stores the span of the first item that a path selects, if it is a JSON path.
#[tactic(auto, using(crate::proofs::LimitLemmas::admitted))]
fn store_first_of(
    alloc: Global,
    path: &PreparedPath,
    document: &[u8],
    strict: bool,
    span: &mut Span,
) -> u32
    ensures span { WithPath (json_limit (Some path.now)) (json_steps (Some path.now)) document.now
        (λ steps. WritesResult (FindsFirstSpan (mode_of strict) document.now steps)
        (IsSelectionError (mode_of strict)) (ShowsFirst span.old span.new result))
        (ShowsNothing span.old span.new result) }
    ensures within { result ≡ code Answered → IsWithin document.now span.new }
{
    match path.admitted(alloc, document) {
        Ok(steps) => {
            let found = first_by_path(alloc, document, steps, strict);
            store_first(found, span)
        }
        Err(cause) => cause.to_u32(),
    }
}

/// Returns the span of the first item that a parsed path selects.
fn first_by_path<'a>(
    alloc: Global,
    document: &'a [u8],
    path: &'a JsonPath<'_>,
    strict: bool,
) -> Result<Option<FirstItem<Span>>, Error>
    ensures first { FindsFirstSpan (mode_of strict) document.now (path_view path.now) result }
    ensures within { IfOk result (λ found. IfSome found (IsFirstWithin document.now)) }
    ensures errors { IfErr result (IsSelectionError (mode_of strict)) }
{
    let found = selector(alloc, document, strict).find_first(path)?;
    first_span(document, found)
}

/// Returns the span of the item that was found, if it is in the document.
fn first_span(
    document: &[u8],
    found: Option<FirstItem<Spot>>,
) -> Result<Option<FirstItem<Span>>, Error>
    ensures span { (form : Form) (top : Tree) (computed : Bool) (wanted : Option Tree)
        → Decodes form document.now top
        → SameOption (IsFirstItem (Locates document.now) computed) found wanted
        → IsOkAnd result (λ spans. SameOption (IsFirstItem (IsSpanOf form document.now) computed) spans wanted) }
    ensures within { IfOk result (λ found. IfSome found (IsFirstWithin document.now)) }
    ensures errors { IfErr result IsDecodingError }
{
    match found {
        Some(item) => Ok(Some(item_span(document, item)?)),
        None => Ok(None),
    }
}

/// Returns an item with its span.
fn item_span(document: &[u8], item: FirstItem<Spot>) -> Result<FirstItem<Span>, Error>
    ensures span { (form : Form) (top t : Tree) (computed : Bool) → Decodes form document.now top
        → IsFirstItem (Locates document.now) computed item t
        → IsOkAnd result (λ span. IsFirstItem (IsSpanOf form document.now) computed span t) }
    ensures within { IfOk result (IsFirstWithin document.now) }
    ensures errors { IfErr result IsDecodingError }
{
    match item {
        FirstItem::At(spot) => Ok(FirstItem::At(span_of(document, spot)?)),
        FirstItem::Computed => Ok(FirstItem::Computed),
    }
}

/// Stores the span of an item, or returns the status if there is none, if it is computed or if the call failed.
pub(crate) fn store_first(answer: Result<Option<FirstItem<Span>>, Error>, span: &mut Span) -> u32
    ensures { ShowsFirst span.old span.new result answer }
{
    match answer {
        Ok(Some(FirstItem::At(found))) => {
            *span = found;
            Status::Answered.to_u32()
        }
        Ok(Some(FirstItem::Computed)) => Status::Computed.to_u32(),
        Ok(None) => Status::Absent.to_u32(),
        Err(error) => Status::Refused(error).to_u32(),
    }
}
