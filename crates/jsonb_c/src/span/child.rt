//! Spans of the string of a document, and of its children.

ghost use Rattle.std.specs.Prelude.{◌≡◌, IfErr, IfOk, IfSome, option_map};
ghost use Rattle.std.specs.Str.{IsUtf8};
ghost use Rattle.jsonb_doc.specs.Answer.{IsDecodingError};
ghost use Rattle.jsonb_doc.specs.Tree.{text};
ghost use Rattle.jsonb_raw.specs.Children.{element_at, named_child};
ghost use Rattle.jsonb_raw.specs.Scalars.{text_in};
ghost use Rattle.jsonb_c.specs.Answers.{OfDocument, Shows, ShowsNothing, WritesResult};
ghost use Rattle.jsonb_c.specs.Spans.{HasSpan, IsWithin};
ghost use Rattle.jsonb_c.specs.Status.{code};
ghost use Rattle.jsonb_c.specs.declared.status.Status.TheVariants.{Answered, NotUtf8};

use super::{Span, found_span, span_of};
use crate::deliver::store_found;
use crate::status::Status;
use jsonb::{Error, Item, RawJsonb, root_spot, spot_item};

/// Stores the span of the string, if the root is one.
#[unsafe(no_mangle)]
pub extern "C" fn jdoc_find_str(document: &[u8], span: &mut Span) -> u32
    ensures span { WritesResult
        (OfDocument document.now (λ form t. HasSpan document.now form (option_map text (text_in t))))
        IsDecodingError (Shows span.old span.new result) }
    ensures within { result ≡ code Answered → IsWithin document.now span.new }
{
    store_found(find_str(document), span)
}

fn find_str(document: &[u8]) -> Result<Option<Span>, Error>
    ensures text { OfDocument document.now
        (λ form t. HasSpan document.now form (option_map text (text_in t))) result }
    ensures within { IfOk result (λ found. IfSome found (IsWithin document.now)) }
    ensures errors { IfErr result IsDecodingError }
{
    let root = root_spot(document)?;
    match spot_item(document, root)? {
        Item::String(_) => Ok(Some(span_of(document, root)?)),
        _ => Ok(None),
    }
}

/// Stores the span of the element at a zero-based index of an array.
#[unsafe(no_mangle)]
pub extern "C" fn jdoc_find_by_index(document: &[u8], index: usize, span: &mut Span) -> u32
    ensures span { WritesResult (OfDocument document.now (λ form t. HasSpan document.now form (element_at index t)))
        IsDecodingError (Shows span.old span.new result) }
    ensures within { result ≡ code Answered → IsWithin document.now span.new }
{
    store_found(find_by_index(document, index), span)
}

fn find_by_index(document: &[u8], index: usize) -> Result<Option<Span>, Error>
    ensures element { OfDocument document.now (λ form t. HasSpan document.now form (element_at index t)) result }
    ensures within { IfOk result (λ found. IfSome found (IsWithin document.now)) }
    ensures errors { IfErr result IsDecodingError }
{
    let found = RawJsonb::new(document).spot_by_index(index)?;
    found_span(document, found)
}

/// Stores the span of the value of a key. With `ignore_case`, if the key itself is missing, stores that of the first
/// key that equals it under ASCII case folding.
#[unsafe(no_mangle)]
pub extern "C" fn jdoc_find_by_name(
    document: &[u8],
    name: &[u8],
    ignore_case: bool,
    span: &mut Span,
) -> u32
    ensures named { IsUtf8 name.now → WritesResult
        (OfDocument document.now (λ form t. HasSpan document.now form (named_child name.now ignore_case t)))
        IsDecodingError (Shows span.old span.new result) }
    ensures within { result ≡ code Answered → IsWithin document.now span.new }
    ensures other { ¬ (IsUtf8 name.now) → ShowsNothing span.old span.new result NotUtf8 }
{
    let Ok(name) = str::from_utf8(name) else {
        return Status::NotUtf8.to_u32();
    };
    store_found(find_by_name(document, name, ignore_case), span)
}

fn find_by_name(document: &[u8], name: &str, ignore_case: bool) -> Result<Option<Span>, Error>
    ensures value { OfDocument document.now
        (λ form t. HasSpan document.now form (named_child name.now ignore_case t)) result }
    ensures within { IfOk result (λ found. IfSome found (IsWithin document.now)) }
    ensures errors { IfErr result IsDecodingError }
{
    let found = RawJsonb::new(document).spot_by_name(name, ignore_case)?;
    found_span(document, found)
}
