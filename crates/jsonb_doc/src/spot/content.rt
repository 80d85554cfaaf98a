//! The content of a spot, by its type: no string is validated, and no container is opened for its type alone.

ghost use Rattle.std.specs.Prelude.{◌^◌, ◌<◌, IsOkAnd, IfOk, IfErr, IfSome};
ghost use Rattle.jsonb_doc.specs.Tree.{Tree, elements, values, trees_in, pairs_in};
ghost use Rattle.jsonb_doc.specs.Payload.{any, number_reader};
ghost use Rattle.jsonb_doc.specs.Format.{IsContent};
ghost use Rattle.jsonb_doc.specs.Answer.{SameOption, IsDecodingError};
ghost use Rattle.jsonb_doc.specs.Representation.Positions.{Locates, HasSpotsLeft};
ghost use Rattle.jsonb_doc.specs.AnyBytes.Spots.{spots_bound};
ghost use Rattle.jsonb_doc.specs.Private.StoredValue.{IsStoredAs};

use super::{Spot, spot_entry};
use crate::container::{Container, read_container};
use crate::error::Error;
use crate::layout::{EntryKind, HeaderKind, split_header};
use crate::number::Number;
use crate::spot_iter::SpotIter;

/// A value as it is stored. A string is its bytes, which are not validated; a container or an extension value is no
/// more than its type.
#[derive(Clone, Copy, Debug)]
pub enum StoredValue<'a> {
    /// The value null.
    Null,
    /// A Boolean.
    Boolean(bool),
    /// A number. A zero is `UInt64(0)`, whatever variant it is stored as.
    Number(Number),
    /// The bytes of a string: UTF-8 if the document decodes.
    String(&'a [u8]),
    /// A value that JSON itself lacks.
    Extension,
    /// An array.
    Array,
    /// An object.
    Object,
}

/// Returns the value at a spot of these bytes, as it is stored.
///
/// # Errors
///
/// `InvalidJsonb` or `UnsupportedNumber`, only if the bytes do not decode or the spot is of other bytes.
///
/// # Complexity
///
/// O(1). Does not allocate.
#[inline(always)]
pub fn spot_value<'a>(bytes: &'a [u8], spot: Spot) -> Result<StoredValue<'a>, Error>
    ensures value { (t : Tree) → Locates bytes.now spot t → IsOkAnd result (λ value. IsStoredAs value t) }
    ensures errors { IfErr result IsDecodingError }
{
    let entry = spot_entry(bytes, spot)?;
    match entry.kind {
        EntryKind::Null => Ok(StoredValue::Null),
        EntryKind::False => Ok(StoredValue::Boolean(false)),
        EntryKind::True => Ok(StoredValue::Boolean(true)),
        EntryKind::Text => Ok(StoredValue::String(entry.content)),
        EntryKind::Number => match Number::from_payload(entry.content) {
            Ok(number) => Ok(StoredValue::Number(number)),
            Err(error) => Err(error),
        },
        EntryKind::Extension => Ok(StoredValue::Extension),
        EntryKind::Container => container_value(entry.content),
        EntryKind::Unknown => Err(Error::InvalidJsonb),
    }
}

/// Returns the type of a container, by its header.
#[inline(always)]
fn container_value<'a>(content: &[u8]) -> Result<StoredValue<'a>, Error>
    ensures value { (t : Tree) → IsContent (number_reader any) t 5 content.now
        → IsOkAnd result (λ value. IsStoredAs value t) }
    ensures errors { IfErr result IsDecodingError }
{
    let Some((kind, _, _)) = split_header(content) else {
        return Err(Error::InvalidJsonb);
    };
    match kind {
        HeaderKind::Array => Ok(StoredValue::Array),
        HeaderKind::Object => Ok(StoredValue::Object),
        HeaderKind::Scalar => Err(Error::InvalidJsonb),
    }
}

/// Returns the spots of an array's elements, in stored order, or `None` for another item.
///
/// # Errors
///
/// `InvalidJsonb` or `UnsupportedNumber`, only if the bytes do not decode or the spot is of other bytes.
///
/// # Complexity
///
/// O(1). Does not allocate.
#[inline(always)]
pub fn element_spots<'a>(bytes: &'a [u8], spot: Spot) -> Result<Option<SpotIter<'a>>, Error>
    ensures spots { (t : Tree) → Locates bytes.now spot t
        → IsOkAnd result (λ found. SameOption (λ it ts. HasSpotsLeft bytes.now it (elements ts)) found (trees_in t)) }
    ensures short { IfOk result (λ found. IfSome found (λ it. spots_bound it < 2 ^ 30)) }
    ensures errors { IfErr result IsDecodingError }
{
    let content = spot.content(bytes)?;
    if spot.kind != EntryKind::Container {
        return Ok(None);
    }
    match read_container(content)? {
        Container::Scalar(_) => Err(Error::InvalidJsonb),
        Container::Array(parts) => {
            let start = spot.end - parts.contents.len();
            Ok(Some(SpotIter::new(parts.words, start, spot.end)))
        }
        Container::Object(_) => Ok(None),
    }
}

/// Returns the spots of an object's values, in the order of their keys, or `None` for another item.
///
/// # Errors
///
/// `InvalidJsonb` or `UnsupportedNumber`, only if the bytes do not decode or the spot is of other bytes.
///
/// # Complexity
///
/// O(k) for k members. Does not allocate.
#[inline(always)]
pub fn value_spots<'a>(bytes: &'a [u8], spot: Spot) -> Result<Option<SpotIter<'a>>, Error>
    ensures spots { (t : Tree) → Locates bytes.now spot t
        → IsOkAnd result (λ found.
        SameOption (λ it ps. HasSpotsLeft bytes.now it (elements (values ps))) found (pairs_in t)) }
    ensures short { IfOk result (λ found. IfSome found (λ it. spots_bound it < 2 ^ 30)) }
    ensures errors { IfErr result IsDecodingError }
{
    let content = spot.content(bytes)?;
    if spot.kind != EntryKind::Container {
        return Ok(None);
    }
    match read_container(content)? {
        Container::Scalar(_) => Err(Error::InvalidJsonb),
        Container::Array(_) => Ok(None),
        Container::Object(parts) => {
            let start = spot.end - parts.value_contents()?.len();
            Ok(Some(SpotIter::new(parts.value_words, start, spot.end)))
        }
    }
}

#[cfg(test)]
mod tests;
