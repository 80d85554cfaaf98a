//! Escapes, as the characters that they stand for.

ghost use Rattle.std.specs.Prelude.{◌≡◌, ◌<◌, length, option_map, IfSome};
ghost use Rattle.jsonb_keypath.specs.Tokens.{byte_as, hex_digit, escaped, four_hex_digits, code_unit, unicode_escape, escape};
ghost use Rattle.jsonb_keypath.specs.Views.{read_as, ConsumesInput};

use super::literal;

fn hex_digit_at(input: &[u8]) -> Option<(u32, &[u8])>
    ensures value { read_as (λ value. value) result ≡ hex_digit input.now }
    ensures small { IfSome result (λ found. found.0 < 16) }
    ensures shrinks { ConsumesInput input.now result }
{
    let (first, rest) = input.split_first()?;
    let digit = char::from(*first).to_digit(16)?;
    Some((digit, rest))
}

#[tactic(auto, unfolding(crate::specs::Tokens::four_hex_digits))]
fn four_hex_digits_at(input: &[u8]) -> Option<(u32, &[u8])>
    ensures value { read_as (λ value. value) result ≡ four_hex_digits input.now }
    ensures small { IfSome result (λ found. found.0 < 65536) }
    ensures shrinks { ConsumesInput input.now result }
{
    let (a, rest) = hex_digit_at(input)?;
    let (b, rest) = hex_digit_at(rest)?;
    let (c, rest) = hex_digit_at(rest)?;
    let (d, rest) = hex_digit_at(rest)?;
    Some((((a * 16 + b) * 16 + c) * 16 + d, rest))
}

#[tactic(auto, unfolding(crate::specs::Tokens::code_unit))]
fn code_unit_at(input: &[u8]) -> Option<(u32, &[u8])>
    ensures value { read_as (λ value. value) result ≡ code_unit input.now }
    ensures small { IfSome result (λ found. found.0 < 65536) }
    ensures shrinks { ConsumesInput input.now result }
{
    let rest = literal(b"\\u", input)?;
    if let Some(inner) = literal(b"{", rest) {
        if let Some((n, after)) = four_hex_digits_at(inner) {
            if let Some(end) = literal(b"}", after) {
                return Some((n, end));
            }
        }
    }
    four_hex_digits_at(rest)
}

#[tactic(auto, unfolding(crate::specs::Tokens::unicode_escape))]
fn unicode_escape_at(input: &[u8]) -> Option<(char, &[u8])>
    ensures value { read_as (λ value. value) result ≡ unicode_escape input.now }
    ensures shrinks { ConsumesInput input.now result }
{
    let (n, rest) = code_unit_at(input)?;
    if 0xD800 <= n && n < 0xDC00 {
        let (low, rest) = code_unit_at(rest)?;
        if low < 0xDC00 || 0xE000 <= low {
            return None;
        }
        let c = char::from_u32(0x10000 + (n - 0xD800) * 0x400 + (low - 0xDC00))?;
        return Some((c, rest));
    }
    let c = char::from_u32(n)?;
    Some((c, rest))
}

fn escaped_at(input: &[u8]) -> Option<(char, &[u8])>
    ensures value { read_as (λ value. value) result ≡ byte_as escaped input.now }
    ensures shrinks { ConsumesInput input.now result }
{
    let (first, rest) = input.split_first()?;
    let c = match *first {
        b'"' => '"',
        b'\\' => '\\',
        b'/' => '/',
        b'b' => '\u{8}',
        b'f' => '\u{c}',
        b'n' => '\n',
        b'r' => '\r',
        b't' => '\t',
        _ => return None,
    };
    Some((c, rest))
}

#[tactic(auto, unfolding(crate::specs::Tokens::escape))]
pub(super) fn escape_at(input: &[u8]) -> Option<(char, &[u8])>
    ensures value { read_as (λ value. value) result ≡ escape input.now }
    ensures shrinks { ConsumesInput input.now result }
{
    if let Some(rest) = literal(b"\\", input) {
        if let Some(found) = escaped_at(rest) {
            return Some(found);
        }
    }
    unicode_escape_at(input)
}
