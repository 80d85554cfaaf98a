//! Items as new documents, copied as they are stored.

ghost use Rattle.std.specs.Prelude.{◌≡◌, ◌++◌, ◌^◌, ◌<◌, length, take, IfOk, IfErr, MatchResult, ◌≤◌};
ghost use Rattle.jsonb_doc.specs.Tree.{Tree};
ghost use Rattle.jsonb_doc.specs.Payload.{Form, number_reader};
ghost use Rattle.jsonb_doc.specs.Format.{Decodes, IsContent, header, entry_word, scalar_header};
ghost use Rattle.jsonb_doc.specs.Kinds.{kind_number};
ghost use Rattle.jsonb_doc.specs.Answer.{IsDecodingError, ◌or◌};
ghost use Rattle.jsonb_doc.specs.Limits.{Builds};
ghost use Rattle.jsonb_doc.specs.Private.Errors.{IsOutOfMemoryOrTooLarge};
ghost use Rattle.jsonb_doc.specs.Representation.Positions.{Locates};
ghost use Rattle.jsonb_doc.specs.declared.error.Error.TheVariants.{OutOfMemory, TooLarge};

use super::Spot;
use crate::encoding::encode_item;
use crate::error::Error;
use crate::item::Item;
use crate::layout::{EntryKind, HeaderKind, MAX_CONTENT, WORD, encode_entry_word, encode_header};
use std::alloc::{AllocError, Global};

/// The greatest length of the content of a short document, in bytes.
const SHORT: usize = 16;

/// Returns the item at a spot of these bytes as a new document, copied as it is stored.
///
/// It is allocated with its exact size, or with 24 bytes if it is a shorter scalar, the least that the GNU C library's
/// allocator returns.
///
/// # Errors
///
/// `InvalidJsonb` or `UnsupportedNumber`, only if the bytes do not decode or the spot is of other bytes; `TooLarge`
/// only if the item exceeds the limits of a document; otherwise `OutOfMemory` if an allocation fails.
///
/// # Complexity
///
/// O(n) for an item of n bytes, which are copied. Allocates once.
///
/// # Examples
///
/// ```rust crates/jsonb_examples/src/parts.rt
/// match field_spot(document, root, key)? {
///     Some(value) => Ok(Some(spot_document(alloc, document, value)?)),
///     None => Ok(None),
/// }
/// ```
#[inline(always)]
pub fn spot_document(alloc: Global, bytes: &[u8], spot: Spot) -> Result<Vec<u8>, Error>
    ensures decodes { (form : Form) (top t : Tree) → Decodes form bytes.now top → Locates bytes.now spot t
        → Builds form t result (λ v. Decodes form v.items t) }
    ensures errors { IfErr result (IsDecodingError or OutOfMemory or TooLarge) }
{
    let content = spot.content(bytes)?;
    if spot.kind == EntryKind::Container {
        return Ok(Vec::from_slice(alloc, content)?);
    }
    if content.len() <= SHORT {
        if let Some(front) = bytes[spot.start..].first_chunk() {
            return Ok(short_document(alloc, spot.kind, content.len(), front)?);
        }
    }
    if content.len() <= MAX_CONTENT {
        return Ok(scalar_document(alloc, spot.kind, content)?);
    }
    let document = item_document(alloc, spot.kind, content)?;
    Ok(document)
}

/// Returns the document of an entry whose content is a prefix of these bytes. All of them are copied at once, and
/// those after the content are dropped.
#[inline(always)]
fn short_document(
    alloc: Global,
    kind: EntryKind,
    len: usize,
    bytes: &[u8; SHORT],
) -> Result<Vec<u8>, AllocError>
    requires { len ≤ 16 }
    ensures { IfOk result
        (λ v. v.items ≡ header scalar_header 0 ++ (entry_word (kind_number kind) len ++ take len bytes.now)) }
{
    let mut words = [0; 2 * WORD + SHORT];
    words[..WORD].copy_from_slice(&encode_header(HeaderKind::Scalar, 0));
    words[WORD..2 * WORD].copy_from_slice(&encode_entry_word(kind, len));
    words[2 * WORD..].copy_from_slice(bytes);
    let mut document = Vec::with_capacity(alloc, 2 * WORD + SHORT)?;
    document.extend_from_slice(&words)?;
    document.truncate(2 * WORD + len);
    Ok(document)
}

/// Returns the document of an item that is too long for `short_document`.
#[cold]
#[inline(never)]
fn item_document(alloc: Global, kind: EntryKind, content: &[u8]) -> Result<Vec<u8>, Error>
    ensures decodes { (form : Form) (t : Tree) → IsContent (number_reader form) t (kind_number kind) content.now
        → MatchResult result (λ v. Decodes form v.items t) (IsOutOfMemoryOrTooLarge form t) }
    ensures errors { IfErr result (IsDecodingError or OutOfMemory or TooLarge) }
{
    let item = Item::from_content(kind, content)?;
    encode_item(alloc, &item)
}

/// Returns the document of one scalar entry of this type, as it is stored.
///
/// # Errors
///
/// `AllocError`, only if an allocation fails.
///
/// # Complexity
///
/// O(n) for a content of n bytes, which is copied. Allocates once, with the document's exact size.
#[inline(always)]
pub fn scalar_document(
    alloc: Global,
    kind: EntryKind,
    content: &[u8],
) -> Result<Vec<u8>, AllocError>
    requires { length content.now < 2 ^ 28 }
    ensures { IfOk result
        (λ v. v.items ≡ header scalar_header 0 ++ (entry_word (kind_number kind) (length content.now) ++ content.now)) }
{
    let mut words = [0; 2 * WORD];
    words[..WORD].copy_from_slice(&encode_header(HeaderKind::Scalar, 0));
    words[WORD..].copy_from_slice(&encode_entry_word(kind, content.len()));
    let mut document = Vec::with_capacity(alloc, 2 * WORD + content.len())?;
    document.extend_from_slice(&words)?;
    document.extend_from_slice(content)?;
    Ok(document)
}
