//! Integers, signed and unsigned.

ghost use Rattle.std.specs.Prelude.{◌≡◌, ◌+◌, ◌^◌, ◌<◌, ◌≤◌, length, Some, option_map, nat_lt, IfSome, SomeIff, take_while, FitsSigned};
ghost use Rattle.std.specs.Int.{w64};
ghost use Rattle.std.specs.Char.{is_ascii_digit};
ghost use Rattle.std.specs.List.{prefix_len};
ghost use Rattle.jsonb_doc.specs.Rounding.{with_sign};
ghost use Rattle.jsonb_keypath.specs.Tokens.{past, natural_below, sign, integer_within};
ghost use Rattle.jsonb_keypath.specs.Views.{read_as, ConsumesInput};

use super::literal;

fn digit_count(input: &[u8]) -> usize
    ensures { result ≡ prefix_len is_ascii_digit input.now }
{
    input.iter().take_while(|b| b.is_ascii_digit()).count()
}

/// Returns `true` if the input begins with a digit.
#[inline(always)]
fn begins_with_digit(input: &[u8]) -> bool
    ensures { result ≡ nat_lt 0 (prefix_len is_ascii_digit input.now) }
{
    match input.first() {
        Some(first) => first.is_ascii_digit(),
        None => false,
    }
}

/// Returns the digits at the beginning, possibly none, and the bytes after them.
fn digits_at(input: &[u8]) -> (&str, &[u8])
    ensures digits { result.0.now ≡ take_while is_ascii_digit input.now }
    ensures rest { result.1.now ≡ past is_ascii_digit input.now }
    ensures shrinks { length result.0.now + length result.1.now ≡ length input.now }
{
    let (front, rest) = input.split_at(digit_count(input));
    match str::from_utf8(front) {
        Ok(digits) => (digits, rest),
        Err(_) => unreachable!(),
    }
}

/// Reads an unsigned 64-bit integer: the longest run of one or more digits, with leading zeros allowed. Returns
/// `None` if the input does not begin with a digit or the number exceeds 64 bits.
///
/// # Complexity
///
/// O(n) for n digits. Does not allocate.
#[inline(always)]
pub fn nat64(input: &[u8]) -> Option<(u64, &[u8])>
    ensures value { read_as (λ value. value) result ≡ natural_below (2 ^ 64) input.now }
    ensures shrinks { ConsumesInput input.now result }
{
    if !begins_with_digit(input) {
        return None;
    }
    digits64(input)
}

/// Returns the 64-bit integer of these digits, which may be none.
#[inline(never)]
fn digits64(input: &[u8]) -> Option<(u64, &[u8])>
    ensures value { read_as (λ value. value) result ≡ natural_below (2 ^ 64) input.now }
    ensures shrinks { ConsumesInput input.now result }
{
    let (digits, rest) = digits_at(input);
    match digits.parse::<u64>() {
        Ok(n) => Some((n, rest)),
        Err(_) => None,
    }
}

/// Reads an unsigned 8-bit integer: the longest run of one or more digits, with leading zeros allowed. Returns `None`
/// if the input does not begin with a digit or the number exceeds 8 bits.
///
/// # Complexity
///
/// O(n) for n digits. Does not allocate.
pub fn nat8(input: &[u8]) -> Option<(u8, &[u8])>
    ensures value { read_as (λ value. value) result ≡ natural_below (2 ^ 8) input.now }
    ensures shrinks { ConsumesInput input.now result }
{
    let (n, rest) = nat64(input)?;
    match u8::try_from(n) {
        Ok(value) => Some((value, rest)),
        Err(_) => None,
    }
}

/// Returns `true` if the input begins with a minus, and the bytes after the sign, if there is one.
#[tactic(auto, unfolding(crate::specs::Tokens::sign))]
#[inline(always)]
fn read_sign(input: &[u8]) -> (bool, &[u8])
    ensures value { sign input.now ≡ Some (result.0, result.1.now) }
    ensures shrinks { length result.1.now ≤ length input.now }
{
    if let Some(rest) = literal(b"-", input) {
        return (true, rest);
    }
    if let Some(rest) = literal(b"+", input) {
        return (false, rest);
    }
    (false, input)
}

fn signed(negative: bool, n: u64) -> Option<i64>
    ensures { SomeIff result (FitsSigned w64 (with_sign negative n)) (with_sign negative n) }
{
    if negative {
        0i64.checked_sub_unsigned(n)
    } else {
        0i64.checked_add_unsigned(n)
    }
}

/// Reads a 64-bit integer with a `+`, a `-` or no sign before its digits; leading zeros are allowed. Returns `None`
/// if there is no digit or the number exceeds 64 bits.
///
/// # Complexity
///
/// O(n) for n digits. Does not allocate.
#[inline(always)]
pub fn int64(input: &[u8]) -> Option<(i64, &[u8])>
    ensures value { read_as (λ value. value) result ≡ integer_within (2 ^ 63) input.now }
    ensures shrinks { ConsumesInput input.now result }
{
    let (negative, after) = read_sign(input);
    let (n, rest) = nat64(after)?;
    match signed(negative, n) {
        Some(value) => Some((value, rest)),
        None => None,
    }
}

/// Reads a 32-bit integer with a `+`, a `-` or no sign before its digits; leading zeros are allowed. Returns `None`
/// if there is no digit or the number exceeds 32 bits.
///
/// # Complexity
///
/// O(n) for n digits. Does not allocate.
#[inline(always)]
pub fn int32(input: &[u8]) -> Option<(i32, &[u8])>
    ensures value { read_as (λ value. value) result ≡ integer_within (2 ^ 31) input.now }
    ensures shrinks { ConsumesInput input.now result }
{
    let (wide, rest) = int64(input)?;
    match i32::try_from(wide) {
        Ok(value) => Some((value, rest)),
        Err(_) => None,
    }
}
