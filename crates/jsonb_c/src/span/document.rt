//! The value at a span as a document.

ghost use Rattle.std.specs.Prelude.{◌≡◌, ◌⊎◌, ◌++◌, ◌+◌, ◌^◌, ◌<◌, ◌≤◌, MatchOption, MatchResult, length, slice_range};
ghost use Rattle.jsonb_doc.specs.Format.{Decodes, IsContent, header, entry_word, scalar_header};
ghost use Rattle.jsonb_doc.specs.Kinds.{kind_number};
ghost use Rattle.jsonb_doc.specs.Payload.{Form, number_reader};
ghost use Rattle.jsonb_doc.specs.Tree.{Tree};
ghost use Rattle.jsonb_doc.specs.declared.error.Error.TheVariants.{InvalidJsonb, TooLarge};
ghost use Rattle.jsonb_c.specs.Answers.{DeliversBytes, DeliversNothing, DeliversValue, WritesResult};
ghost use Rattle.jsonb_c.specs.Spans.{IsWithin};
ghost use Rattle.jsonb_c.specs.declared.status.Status.TheVariants.{Refused};

use super::Span;
use crate::deliver::{deliver_bytes, deliver_nothing};
use crate::status::Status;
use jsonb::Error;
use jsonb_doc::StoredEntry;
use jsonb_doc::layout::{
    EntryKind, HeaderKind, MAX_CONTENT, WORD, encode_entry_word, encode_header,
};

/// Returns the value at a span as a document, as it is stored.
#[unsafe(no_mangle)]
pub extern "C" fn jdoc_span_document(
    document: &[u8],
    span: &Span,
    out: &mut [u8],
    out_len: &mut usize,
) -> u32
    ensures document { WritesResult
        (λ made. (form : Form) (t : Tree) → IsWithin document.now span.now
        → IsContent (number_reader form) t span.now.entry
        (slice_range document.now span.now.at (span.now.at + span.now.len))
        → MatchResult made (λ bytes. Decodes form bytes t) (λ e. (e ≡ TooLarge) × (2 ^ 28 ≤ span.now.len)))
        (λ e. (e ≡ InvalidJsonb) ⊎ (e ≡ TooLarge)) (DeliversValue out.old out.new out_len.new result) }
    ensures other { (IsWithin document.now span.now → span.now.entry < 7 → ⊥)
        → DeliversNothing out.old out.new out_len.new result (Refused InvalidJsonb) }
{
    match entry_at(document, span) {
        Some(entry) => deliver_entry(&entry, out, out_len),
        None => deliver_nothing(Status::Refused(Error::InvalidJsonb), out_len),
    }
}

/// Returns the entry of the value at a span, or `None` if it is not within the document or has no known type.
fn entry_at<'a>(document: &'a [u8], span: &Span) -> Option<StoredEntry<'a>>
    ensures { MatchOption result (IsWithin document.now span.now → span.now.entry < 7 → ⊥)
        (λ entry. IsWithin document.now span.now × (kind_number entry.kind ≡ span.now.entry) × (span.now.entry < 7)
        × (entry.content.now ≡ slice_range document.now span.now.at (span.now.at + span.now.len))) }
{
    let end = span.at.checked_add(span.len)?;
    let content = document.get(span.at..end)?;
    let kind = EntryKind::from_u32(u32::from(span.entry))?;
    if kind == EntryKind::Unknown {
        return None;
    }
    Some(StoredEntry { kind, content })
}

/// Stores the document of an entry. The content of a container is that document.
fn deliver_entry(entry: &StoredEntry<'_>, out: &mut [u8], out_len: &mut usize) -> u32
    ensures { WritesResult
        (λ made. (form : Form) (t : Tree)
        → IsContent (number_reader form) t (kind_number entry.now.kind) entry.now.content.now
        → MatchResult made (λ bytes. Decodes form bytes t)
        (λ e. (e ≡ TooLarge) × (2 ^ 28 ≤ length entry.now.content.now)))
        (λ e. e ≡ TooLarge) (DeliversValue out.old out.new out_len.new result) }
{
    if entry.kind == EntryKind::Container {
        return deliver_bytes(entry.content, out, out_len);
    }
    if entry.content.len() > MAX_CONTENT {
        return deliver_nothing(Status::Refused(Error::TooLarge), out_len);
    }
    deliver_scalar(entry.kind, entry.content, out, out_len)
}

/// Stores the document of a scalar: the words of a header and of its entry, and its content.
fn deliver_scalar(kind: EntryKind, content: &[u8], out: &mut [u8], out_len: &mut usize) -> u32
    requires { length content.now < 2 ^ 28 }
    ensures { DeliversBytes out.old out.new out_len.new result
        (header scalar_header 0 ++ (entry_word (kind_number kind) (length content.now) ++ content.now)) }
{
    let len = 2 * WORD + content.len();
    *out_len = len;
    if out.len() < len {
        return Status::BufferTooSmall.to_u32();
    }
    out[..WORD].copy_from_slice(&encode_header(HeaderKind::Scalar, 0));
    out[WORD..2 * WORD].copy_from_slice(&encode_entry_word(kind, content.len()));
    out[2 * WORD..len].copy_from_slice(content);
    Status::Answered.to_u32()
}
