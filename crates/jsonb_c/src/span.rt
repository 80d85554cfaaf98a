//! Spans of values in a document.

ghost use Rattle.std.specs.Prelude.{◌≡◌, ◌⊎◌, Option, Some, None, IfErr, IfOk, IfSome, IsOkAnd, ok_or};
ghost use Rattle.jsonb_doc.specs.Answer.{SameOption, IsDecodingError, ◌or◌};
ghost use Rattle.jsonb_doc.specs.declared.error.Error.TheVariants.{InvalidKeyPath, OutOfMemory};
ghost use Rattle.jsonb_doc.specs.Format.{Decodes, IsContent};
ghost use Rattle.jsonb_doc.specs.Kinds.{kind_number};
ghost use Rattle.jsonb_doc.specs.Payload.{Form, number_reader};
ghost use Rattle.jsonb_doc.specs.Representation.Positions.{Locates};
ghost use Rattle.jsonb_doc.specs.Tree.{Tree};
ghost use Rattle.jsonb.specs.KeyPathGrammar.{key_path};
ghost use Rattle.jsonb.specs.KeyPathViews.{key_paths_view};
ghost use Rattle.jsonb_c.specs.Answers.{Shows, ShowsNothing, With, WithKept, WritesResult};
ghost use Rattle.jsonb_c.specs.Private.Boxes.{ByPath};
ghost use Rattle.jsonb_c.specs.Private.Numbers.{tree_kind};
ghost use Rattle.jsonb_c.specs.Spans.{FindsSpan, HasSpan, IsSpanOf, IsWithin};
ghost use Rattle.jsonb_c.specs.Representation.Prepared.{key_steps};
ghost use Rattle.jsonb_c.specs.Status.{code};
ghost use Rattle.jsonb_c.specs.declared.status.Status.TheVariants.{Answered, Refused};

pub(crate) mod child;
pub(crate) mod document;
pub(crate) mod first;

use crate::deliver::store_found;
use crate::document::kind::{Kind, item_kind};
use crate::prepared::{PathHandle, PreparedPath};
use crate::status::Status;
use jsonb::{Error, KeyPaths, RawJsonb, Spot, parse_key_paths};
use jsonb_doc::StoredEntry;
use jsonb_doc::layout::EntryKind;
use std::alloc::Global;

/// The span of a value in a document: `struct jdoc_span` of the header.
#[repr(C)]
#[derive(Clone, Copy)]
pub struct Span {
    pub(crate) at: usize,
    pub(crate) len: usize,
    pub(crate) kind: u8,
    pub(crate) entry: u8,
}

/// Stores the span of the value at a key path.
#[unsafe(no_mangle)]
pub extern "C" fn jdoc_find_by_keypath(
    alloc: Global,
    document: &[u8],
    path: &[u8],
    span: &mut Span,
) -> u32
    ensures span { With (ok_or (key_path path.now) (Refused InvalidKeyPath))
        (λ steps. WritesResult (FindsSpan steps document.now) (IsDecodingError or OutOfMemory)
        (Shows span.old span.new result)) (ShowsNothing span.old span.new result) }
    ensures within { result ≡ code Answered → IsWithin document.now span.new }
{
    store_found(find_by_keypath(alloc, document, path), span)
}

fn find_by_keypath(alloc: Global, document: &[u8], path: &[u8]) -> Result<Option<Span>, Error>
    ensures span { ByPath InvalidKeyPath (key_path path.now) (λ steps. FindsSpan steps document.now) result }
    ensures within { IfOk result (λ found. IfSome found (IsWithin document.now)) }
    ensures errors { IfErr result (λ e. (IsDecodingError or OutOfMemory) e
        ⊎ ((e ≡ InvalidKeyPath) × (key_path path.now ≡ None))) }
{
    let steps = parse_key_paths(alloc, path)?;
    let found = RawJsonb::new(document).spot_by_keypath(alloc, steps.paths.iter())?;
    found_span(document, found)
}

/// Stores the span of the value at the location of the path.
#[unsafe(no_mangle)]
pub extern "C" fn jdoc_keypath_find(
    alloc: Global,
    path: &mut PathHandle,
    document: &[u8],
    span: &mut Span,
) -> u32
    ensures kept { path.new.value ≡ path.old.value }
    ensures span { WithKept (key_steps path.old.value)
        (λ steps. WritesResult (FindsSpan steps document.now) (IsDecodingError or OutOfMemory)
        (Shows span.old span.new result)) (ShowsNothing span.old span.new result) }
    ensures within { result ≡ code Answered → IsWithin document.now span.new }
{
    let Some(kept) = path.take(alloc) else {
        return Status::NoPath.to_u32();
    };
    let status = store_span(alloc, &kept, document, span);
    path.put(kept);
    status
}

/// Stores the span of the value at the location of a path, if it is a key path.
fn store_span(alloc: Global, path: &PreparedPath, document: &[u8], span: &mut Span) -> u32
    ensures span { WithKept (key_steps (Some path.now))
        (λ steps. WritesResult (FindsSpan steps document.now) (IsDecodingError or OutOfMemory)
        (Shows span.old span.new result)) (ShowsNothing span.old span.new result) }
    ensures within { result ≡ code Answered → IsWithin document.now span.new }
{
    match path.keys() {
        Some(steps) => store_found(span_at(alloc, document, steps), span),
        None => Status::NoPath.to_u32(),
    }
}

/// Returns the span of the value at the location of the steps.
fn span_at<'a>(
    alloc: Global,
    document: &'a [u8],
    steps: &'a KeyPaths<'a>,
) -> Result<Option<Span>, Error>
    ensures span { FindsSpan (key_paths_view steps.now) document.now result }
    ensures within { IfOk result (λ found. IfSome found (IsWithin document.now)) }
    ensures errors { IfErr result (IsDecodingError or OutOfMemory) }
{
    let found = RawJsonb::new(document).spot_by_keypath(alloc, steps.paths.iter())?;
    found_span(document, found)
}

/// Returns the span of the value that was found.
pub(crate) fn found_span(document: &[u8], found: Option<Spot>) -> Result<Option<Span>, Error>
    ensures span { (form : Form) (top : Tree) (wanted : Option Tree) → Decodes form document.now top
        → SameOption (Locates document.now) found wanted
        → HasSpan document.now form wanted result }
    ensures within { IfOk result (λ found. IfSome found (IsWithin document.now)) }
    ensures errors { IfErr result IsDecodingError }
{
    let Some(spot) = found else {
        return Ok(None);
    };
    Ok(Some(span_of(document, spot)?))
}

/// Returns the span of the value at a spot.
pub(crate) fn span_of(document: &[u8], spot: Spot) -> Result<Span, Error>
    ensures span { (form : Form) (top t : Tree) → Decodes form document.now top → Locates document.now spot t
        → IsOkAnd result (λ span. IsSpanOf form document.now span t) }
    ensures within { IfOk result (IsWithin document.now) }
    ensures errors { IfErr result IsDecodingError }
{
    let range = spot.range();
    let Some(content) = document.get(range.start..range.end) else {
        return Err(Error::InvalidJsonb);
    };
    let entry = StoredEntry {
        kind: spot.entry_kind(),
        content,
    };
    Ok(Span {
        at: range.start,
        len: content.len(),
        kind: stored_kind(&entry)?.to_u8(),
        entry: entry_number(spot.entry_kind()),
    })
}

/// Returns the type of a stored item. A string is not validated.
fn stored_kind(entry: &StoredEntry<'_>) -> Result<Kind, Error>
    ensures kind { (form : Form) (t : Tree)
        → IsContent (number_reader form) t (kind_number entry.now.kind) entry.now.content.now
        → IsOkAnd result (λ kind. kind ≡ tree_kind t) }
    ensures errors { IfErr result IsDecodingError }
{
    if let EntryKind::Text = entry.kind {
        return Ok(Kind::String);
    }
    let item = entry.item()?;
    Ok(item_kind(&item))
}

/// Returns the number of an entry's type in entry words.
fn entry_number(kind: EntryKind) -> u8
    ensures { result ≡ kind_number kind }
{
    kind as u8
}
