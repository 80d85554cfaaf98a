//! The type of a document's root, and the value of a scalar that is not a string.

ghost use Rattle.std.specs.Prelude.{◌≡◌, ◌≢◌, IsOkAnd, IfOk, IfErr, OnOk};
ghost use Rattle.jsonb_doc.specs.Tree.{Tree};
ghost use Rattle.jsonb_doc.specs.Payload.{Form, number_reader};
ghost use Rattle.jsonb_doc.specs.Format.{Decodes, IsContent};
ghost use Rattle.jsonb_doc.specs.Kinds.{kind_number};
ghost use Rattle.jsonb_doc.specs.AnyBytes.Roots.{HasShape, IsNormalShape, IsRootShape};
ghost use Rattle.jsonb_doc.specs.Private.ShapeOf.{IsShapeOf};
ghost use Rattle.jsonb_doc.specs.declared.shape.Shape.{Shape};
ghost use Rattle.jsonb_doc.specs.Answer.{IsDecodingError};

use crate::container::{Container, read_container};
use crate::entry_iter::StoredEntry;
use crate::error::Error;
use crate::extension::ExtensionValue;
use crate::layout::EntryKind;
use crate::number::Number;

/// The root of a document: an item whose string or entries are not read.
#[derive(Debug, Clone, Copy)]
pub enum Shape<'a> {
    /// The value null.
    Null,
    /// A Boolean.
    Boolean(bool),
    /// A number. A zero is `UInt64(0)`, whatever variant it is stored as.
    Number(Number),
    /// A string. Its bytes may not be UTF-8.
    Text(&'a [u8]),
    /// A value that JSON itself lacks.
    Extension(ExtensionValue<'a>),
    /// An array.
    Array,
    /// An object.
    Object,
}

/// Returns the type of a document's root, and the value of a scalar that is not a string.
///
/// Inlined, so that a caller pays only for what it uses.
///
/// # Errors
///
/// `InvalidJsonb` or `UnsupportedNumber`, only if the bytes do not decode. Only the root is read.
///
/// # Complexity
///
/// O(1). Does not allocate.
#[inline(always)]
pub fn root_shape(bytes: &[u8]) -> Result<Shape<'_>, Error>
    ensures shape { (form : Form) (t : Tree) → Decodes form bytes.now t → IsOkAnd result (λ shape. HasShape shape t) }
    ensures readable { IfOk result (IsRootShape bytes.now) }
    ensures normal { IfOk result IsNormalShape }
    ensures errors { IfErr result IsDecodingError }
{
    match read_container(bytes)? {
        Container::Scalar(entry) => scalar_shape(entry),
        Container::Array(_) => Ok(Shape::Array),
        Container::Object(_) => Ok(Shape::Object),
    }
}

/// Returns the root of a document as the entry that would store it in a container.
///
/// Its value is not decoded again by `StoredEntry::item` if only its type and its bytes are needed.
///
/// # Errors
///
/// `InvalidJsonb` or `UnsupportedNumber`, only if the bytes do not decode. Only the root is read, and no string.
///
/// # Complexity
///
/// O(1). Does not allocate.
#[inline(always)]
pub fn root_entry(bytes: &[u8]) -> Result<StoredEntry<'_>, Error>
    ensures entry { (form : Form) (t : Tree) → Decodes form bytes.now t
        → IsOkAnd result (λ entry. IsContent (number_reader form) t (kind_number entry.kind) entry.content.now) }
    ensures readable { OnOk result ((shape : Shape) × IsRootShape bytes.now shape) }
    ensures errors { IfErr result IsDecodingError }
{
    match read_container(bytes)? {
        Container::Scalar(entry) => {
            scalar_shape(entry)?;
            Ok(entry)
        }
        _ => Ok(StoredEntry {
            kind: EntryKind::Container,
            content: bytes,
        }),
    }
}

/// Returns the shape of an entry that is not a container.
///
/// # Errors
///
/// `InvalidJsonb` or `UnsupportedNumber`, only if the bytes do not decode or the entry is a container. No string is
/// read.
///
/// # Complexity
///
/// O(1). Does not allocate.
#[tactic(auto, using(crate::proofs::Sets::scalar_contents))]
#[inline(always)]
pub fn scalar_shape<'a>(entry: StoredEntry<'a>) -> Result<Shape<'a>, Error>
    ensures shape { (form : Form) (t : Tree)
        → IsContent (number_reader form) t (kind_number entry.entry.kind) entry.entry.content.now
        → kind_number entry.entry.kind ≢ 5 → IsOkAnd result (λ shape. HasShape shape t) }
    ensures reads { IfOk result (IsShapeOf (kind_number entry.entry.kind) entry.entry.content.now) }
    ensures normal { IfOk result IsNormalShape }
    ensures errors { IfErr result IsDecodingError }
{
    match entry.kind {
        EntryKind::Null if entry.content.is_empty() => Ok(Shape::Null),
        EntryKind::False if entry.content.is_empty() => Ok(Shape::Boolean(false)),
        EntryKind::True if entry.content.is_empty() => Ok(Shape::Boolean(true)),
        EntryKind::Text => Ok(Shape::Text(entry.content)),
        EntryKind::Number => match Number::from_payload(entry.content) {
            Ok(number) => Ok(Shape::Number(number)),
            Err(error) => Err(error),
        },
        EntryKind::Extension => match ExtensionValue::from_payload(entry.content) {
            Ok(value) => Ok(Shape::Extension(value)),
            Err(error) => Err(error),
        },
        EntryKind::Null | EntryKind::False | EntryKind::True => Err(Error::InvalidJsonb),
        EntryKind::Container | EntryKind::Unknown => Err(Error::InvalidJsonb),
    }
}
