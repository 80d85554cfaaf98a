//! Numbers whose digits are stored in at most 64 bits, which are compared without the exact order.

ghost use Rattle.std.specs.Prelude.{◌≡◌, ◌∷◌, IfSome, Some};
ghost use Rattle.std.specs.Ordering.{eq_by_cmp};
ghost use Rattle.jsonb_doc.specs.Number.{number_cmp, number_from, decimal64};
ghost use Rattle.jsonb_doc.specs.Payload.{number_of};
ghost use Rattle.jsonb_doc.specs.Private.Short.{short_value, short_parts};
ghost use Rattle.jsonb_doc.specs.View.{number_parts, number_view};

use crate::layout::DECIMAL64_LEN;
use crate::number::{Decimal64, Number, signed_integer, unsigned_integer};
use crate::number_order::exact_cmp;
use byteorder::{BigEndian, ByteOrder};
use std::cmp::Ordering;

/// A number as it is stored, if its digits fit in 64 bits.
#[derive(Clone, Copy, Debug)]
pub enum ShortNumber {
    /// An unsigned integer.
    Unsigned(u64),
    /// A signed integer.
    Signed(i64),
    /// A decimal: its digits, and how many of them are after the point.
    Decimal(i64, u8),
}

/// Returns `true` if two decimals of this scale are equal by value.
#[inline(always)]
#[tactic(auto, using(crate::proofs::EqualValues::decimals_tied))]
fn decimals_equal(a: i64, b: i64, scale: u8) -> bool
    ensures { result ≡ eq_by_cmp number_cmp (number_from decimal64 a scale) (number_from decimal64 b scale) }
{
    a == b
}

impl ShortNumber {
    /// Returns the digits as an integer, to be divided by `10 ^ scale`.
    fn whole(self) -> i128
        ensures { result ≡ (short_parts self).whole }
    {
        match self {
            ShortNumber::Unsigned(value) => i128::from(value),
            ShortNumber::Signed(value) => i128::from(value),
            ShortNumber::Decimal(value, _) => i128::from(value),
        }
    }

    /// Returns the number of digits after the point.
    fn scale(self) -> u8
        ensures { result ≡ (short_parts self).scale }
    {
        match self {
            ShortNumber::Unsigned(_) | ShortNumber::Signed(_) => 0,
            ShortNumber::Decimal(_, scale) => scale,
        }
    }

    /// Returns the number. A zero of any stored variant is `UInt64(0)`.
    ///
    /// # Complexity
    ///
    /// O(1). Does not allocate.
    #[inline(always)]
    pub fn to_number(self) -> Number
        ensures parts { number_parts result ≡ short_value self }
        ensures view { number_view result ≡ short_value self }
    {
        match self {
            ShortNumber::Unsigned(value) => Number::UInt64(value),
            ShortNumber::Signed(0) | ShortNumber::Decimal(0, _) => Number::ZERO,
            ShortNumber::Signed(value) => Number::Int64(value),
            ShortNumber::Decimal(value, scale) => Number::Decimal64(Decimal64 { scale, value }),
        }
    }
}

/// Returns `true` if two numbers that are not stored alike are equal by value.
#[inline(never)]
fn parts_equal(number: ShortNumber, other: ShortNumber) -> bool
    ensures { result ≡ eq_by_cmp number_cmp (short_value number) (short_value other) }
{
    exact_cmp(number.whole(), number.scale(), other.whole(), other.scale()).is_eq()
}

/// Returns `true` if two numbers are equal by value. Compares the digits alone if both are stored in the same way.
///
/// # Complexity
///
/// O(1). Does not allocate.
#[inline(always)]
pub fn short_equal(number: ShortNumber, other: ShortNumber) -> bool
    ensures { result ≡ eq_by_cmp number_cmp (short_value number) (short_value other) }
{
    match (number, other) {
        (ShortNumber::Unsigned(a), ShortNumber::Unsigned(b)) => a == b,
        (ShortNumber::Signed(a), ShortNumber::Signed(b)) => a == b,
        (ShortNumber::Decimal(a, scale), ShortNumber::Decimal(b, other_scale)) => {
            if scale == other_scale {
                decimals_equal(a, b, scale)
            } else {
                parts_equal(number, other)
            }
        }
        _ => parts_equal(number, other),
    }
}

/// Returns the order of two numbers that are not stored alike.
#[inline(never)]
fn parts_cmp(number: ShortNumber, other: &Number) -> Ordering
    ensures { result ≡ number_cmp (short_value number) (number_view other.now) }
{
    exact_cmp(number.whole(), number.scale(), other.whole(), other.scale())
}

/// Returns the order of two numbers by value. Compares the digits alone if both are stored in the same way.
///
/// # Complexity
///
/// O(1). Does not allocate.
#[inline(always)]
pub fn short_cmp(number: ShortNumber, other: &Number) -> Ordering
    ensures { result ≡ number_cmp (short_value number) (number_view other.now) }
{
    match (number, other) {
        (ShortNumber::Unsigned(a), Number::UInt64(b)) => a.cmp(b),
        (ShortNumber::Signed(a), Number::Int64(b)) => a.cmp(b),
        (ShortNumber::Decimal(a, scale), Number::Decimal64(b)) => {
            if scale == b.scale {
                a.cmp(&b.value)
            } else {
                parts_cmp(number, other)
            }
        }
        _ => parts_cmp(number, other),
    }
}

/// Returns the number of a payload with these bytes after the tag of zero.
#[inline(always)]
#[tactic(auto, unfolding(crate::specs::Payload::number_of))]
pub(crate) fn read_zero(rest: &[u8]) -> Option<ShortNumber>
    ensures { IfSome result (λ n. number_of (0 ∷ rest.now) ≡ Some (short_value n)) }
{
    match rest {
        [] => Some(ShortNumber::Unsigned(0)),
        _ => None,
    }
}

/// Returns the number of a payload with these bytes after the tag of an unsigned integer.
#[inline(always)]
#[tactic(auto, unfolding(crate::specs::Payload::number_of))]
pub(crate) fn read_unsigned(rest: &[u8]) -> Option<ShortNumber>
    ensures { IfSome result (λ n. number_of (0x50 ∷ rest.now) ≡ Some (short_value n)) }
{
    match rest.len() {
        1 | 2 | 4 | 8 => Some(ShortNumber::Unsigned(unsigned_integer(rest))),
        _ => None,
    }
}

/// Returns the number of a payload with these bytes after the tag of a signed integer.
#[inline(always)]
#[tactic(auto, unfolding(crate::specs::Payload::number_of))]
pub(crate) fn read_signed(rest: &[u8]) -> Option<ShortNumber>
    ensures { IfSome result (λ n. number_of (0x40 ∷ rest.now) ≡ Some (short_value n)) }
{
    match rest.len() {
        1 | 2 | 4 | 8 => Some(ShortNumber::Signed(signed_integer(rest))),
        _ => None,
    }
}

/// Returns the number of a payload with these bytes after the tag of a decimal.
#[inline(always)]
#[tactic(auto, unfolding(crate::specs::Payload::number_of))]
pub(crate) fn read_decimal(rest: &[u8]) -> Option<ShortNumber>
    ensures { IfSome result (λ n. number_of (0x70 ∷ rest.now) ≡ Some (short_value n)) }
{
    if rest.len() != DECIMAL64_LEN {
        return None;
    }
    Some(ShortNumber::Decimal(BigEndian::read_i64(rest), rest[8]))
}
