//! An event of a list, in the layout of C.

ghost use Rattle.std.specs.Prelude.{◌≡◌, IsSomeAnd};
ghost use Rattle.jsonb_doc.specs.EventList.{whole_of};
ghost use Rattle.jsonb_doc.specs.Tree.{Tree};
ghost use Rattle.jsonb_doc.specs.Private.EventParts.{IsPlain, IsPlainItem};

use crate::item::Item;
use crate::number::{Decimal64, Decimal128, Number};

/// An event of a list.
///
/// | `kind` | Event | `low` | `high` |
/// |---|---|---|---|
/// | 0, 1, 2 | null, false, true | | |
/// | 3 | a signed integer | | the integer |
/// | 4 | an unsigned integer | the integer | |
/// | 5 | a 64-bit decimal of a `scale` | | the digits |
/// | 6 | a 128-bit decimal of a `scale` | the lower half of the digits | the upper half |
/// | 7, 8 | a string, a key | its number of bytes | |
/// | 9, 10, 11 | an array begins, an object begins, a container ends | | |
///
/// # Examples
///
/// ```rust crates/jsonb_examples/src/events.rt
/// TextEvent {
///     kind,
///     low,
///     high: 0,
///     scale: 0,
/// }
/// ```
#[repr(C)]
#[derive(Clone, Copy, Debug)]
pub struct TextEvent {
    /// An unsigned integer, a number of bytes, or the lower half of digits.
    pub low: u64,
    /// A signed integer, digits, or their upper half.
    pub high: i64,
    /// The kind of event.
    pub kind: u8,
    /// The scale of a decimal.
    pub scale: u8,
}

const NULL_EVENT: u8 = 0;

const FALSE_EVENT: u8 = 1;

const TRUE_EVENT: u8 = 2;

const INT64_EVENT: u8 = 3;

const UINT64_EVENT: u8 = 4;

const DECIMAL64_EVENT: u8 = 5;

/// The kind of a 128-bit decimal. Scalars, except for strings, are up to it.
pub(crate) const DECIMAL128_EVENT: u8 = 6;

/// The kind of a string.
pub(crate) const STRING_EVENT: u8 = 7;

/// The kind of a key.
pub(crate) const KEY_EVENT: u8 = 8;

/// The kind of the begin of an array.
pub(crate) const ARRAY_EVENT: u8 = 9;

/// The kind of the begin of an object.
pub(crate) const OBJECT_EVENT: u8 = 10;

/// The kind of the end of a container.
pub(crate) const END_EVENT: u8 = 11;

/// The first number that is not a kind.
pub(crate) const NO_EVENT: u8 = 12;

/// Returns the integer of two halves.
///
/// # Complexity
///
/// O(1). Does not allocate.
pub fn whole_of(high: i64, low: u64) -> i128
    ensures { result ≡ whole_of high low }
{
    i128::from(high) * 18_446_744_073_709_551_616 + i128::from(low)
}

/// Returns the scalar of an event, except for a string, or `None` if it is another event.
#[inline(always)]
pub(crate) fn plain_item(event: &TextEvent) -> Option<Item<'static>>
    ensures { (t : Tree) → IsPlain event.now t → IsSomeAnd result (λ item. IsPlainItem item t) }
{
    match event.kind {
        NULL_EVENT => Some(Item::Null),
        FALSE_EVENT => Some(Item::Boolean(false)),
        TRUE_EVENT => Some(Item::Boolean(true)),
        INT64_EVENT => Some(Item::Number(Number::Int64(event.high))),
        UINT64_EVENT => Some(Item::Number(Number::UInt64(event.low))),
        DECIMAL64_EVENT => Some(Item::Number(Number::Decimal64(Decimal64 {
            scale: event.scale,
            value: event.high,
        }))),
        DECIMAL128_EVENT => Some(Item::Number(Number::Decimal128(Decimal128 {
            scale: event.scale,
            value: whole_of(event.high, event.low),
        }))),
        _ => None,
    }
}
