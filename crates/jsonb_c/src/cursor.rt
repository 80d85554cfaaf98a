//! The children of a document one by one.

ghost use Rattle.std.specs.Prelude.{◌≡◌, ◌⊎◌, IsOkAnd, IfErr, IfOk, IfNone, IfSome, MatchResult, Option, unwrap_or};
ghost use Rattle.jsonb_doc.specs.Answer.{SameOption, IsDecodingError};
ghost use Rattle.jsonb_doc.specs.ChildPositions.{OpensChildren};
ghost use Rattle.jsonb_doc.specs.Format.{Decodes};
ghost use Rattle.jsonb_doc.specs.Payload.{Form};
ghost use Rattle.jsonb_doc.specs.Representation.Positions.{Locates};
ghost use Rattle.jsonb_doc.specs.Tree.{Tree};
ghost use Rattle.jsonb_doc.specs.declared.child_positions.ChildPositions.{ChildPositions};
ghost use Rattle.jsonb_c.specs.Answers.{OfDocument, Shows, WritesResult, found_as};
ghost use Rattle.jsonb_c.specs.Cursors.{TakesSpans};
ghost use Rattle.jsonb_c.specs.Private.Views.{IsChildWithin};
ghost use Rattle.jsonb_c.specs.Spans.{IsSpanOf, IsWithin};
ghost use Rattle.jsonb_c.specs.Status.{code};
ghost use Rattle.jsonb_c.specs.declared.span.Span.{Span};
ghost use Rattle.jsonb_c.specs.declared.status.Status.TheVariants.{Answered};

use crate::deliver::store_found;
use crate::span::{Span, found_span, span_of};
use crate::status::Status;
use jsonb::{Child, ChildPositions, Error, Spot, open_children};

/// Stores a cursor before the first child of a document: `struct jdoc_cursor` of the header.
#[unsafe(no_mangle)]
pub extern "C" fn jdoc_cursor_open(document: &[u8], cursor: &mut ChildPositions) -> u32
    ensures { WritesResult
        (OfDocument document.now (λ form t answer. IsOkAnd answer (OpensChildren document.now t)))
        IsDecodingError (Shows cursor.old cursor.new result) }
{
    store_found(open(document), cursor)
}

fn open(document: &[u8]) -> Result<Option<ChildPositions>, Error>
    ensures children { OfDocument document.now
        (λ form t answer. IsOkAnd answer (OpensChildren document.now t)) result }
    ensures errors { IfErr result IsDecodingError }
{
    open_children(document)
}

/// Stores the span of the next child, and that of its key if it is a member, and moves the cursor past it.
#[unsafe(no_mangle)]
pub extern "C" fn jdoc_cursor_next(
    document: &[u8],
    cursor: &mut ChildPositions,
    key: &mut Span,
    value: &mut Span,
) -> u32
    ensures child { WritesResult (λ answer. TakesSpans document.now cursor.old answer cursor.new) IsDecodingError
        (λ answer. Shows {A = ChildPositions × Span × Span}
        (cursor.old, key.old, value.old) (cursor.new, key.new, value.new) result
        (found_as (λ child. (cursor.new, unwrap_or child.key key.old, child.value)) answer)) }
    ensures within { result ≡ code Answered → IsWithin document.now value.new
        × ((key.new ≡ key.old) ⊎ IsWithin document.now key.new) }
{
    match next_child(document, cursor) {
        Ok(Some(child)) => {
            *key = child.key.unwrap_or(*key);
            *value = child.value;
            Status::Answered.to_u32()
        }
        Ok(None) => Status::Absent.to_u32(),
        Err(error) => Status::Refused(error).to_u32(),
    }
}

/// Moves the cursor past the next child, and returns its spans. If the call fails, the cursor is unchanged.
fn next_child(document: &[u8], cursor: &mut ChildPositions) -> Result<Option<Child<Span>>, Error>
    ensures child { TakesSpans document.now cursor.old result cursor.new }
    ensures within { IfOk result (λ found. IfSome found (IsChildWithin document.now)) }
    ensures unchanged { MatchResult result (λ found. IfNone found (cursor.new ≡ cursor.old))
        (λ _. cursor.new ≡ cursor.old) }
    ensures errors { IfErr result IsDecodingError }
{
    let mut others = *cursor;
    let Some(child) = others.take(document)? else {
        return Ok(None);
    };
    let spans = child_spans(document, child)?;
    *cursor = others;
    Ok(Some(spans))
}

/// Returns the spans of a child.
fn child_spans(document: &[u8], child: Child<Spot>) -> Result<Child<Span>, Error>
    ensures spans { (form : Form) (top t : Tree) (name : Option Tree) → Decodes form document.now top
        → SameOption (Locates document.now) child.key name → Locates document.now child.value t
        → IsOkAnd result (λ spans. SameOption (IsSpanOf form document.now) spans.key name
        × IsSpanOf form document.now spans.value t) }
    ensures within { IfOk result (IsChildWithin document.now) }
    ensures errors { IfErr result IsDecodingError }
{
    let key = found_span(document, child.key)?;
    let value = span_of(document, child.value)?;
    Ok(Child { key, value })
}
