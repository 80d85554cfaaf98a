//! The order of bytes, by the first eight of them.

ghost use Rattle.std.specs.Prelude.{◌≡◌, ◌≤◌, length, take, IfSome};
ghost use Rattle.std.specs.Int.{w64, from_be_bytes};
ghost use Rattle.std.specs.Ordering.{nat_cmp};
ghost use Rattle.std.specs.Cmp.Lexicographic.{slice_cmp};

use std::cmp::Ordering;

/// Returns the order of two slices of bytes. Compares the first 8 bytes at once.
///
/// # Complexity
///
/// O(1) if the first 8 bytes differ, otherwise O(n) for n bytes. Does not allocate.
#[inline(always)]
pub fn bytes_cmp(bytes: &[u8], other: &[u8]) -> Ordering
    ensures { result ≡ slice_cmp nat_cmp bytes.now other.now }
{
    match first_words_cmp(bytes, other) {
        Some(order) => order,
        None => bytes.cmp(other),
    }
}

/// Compares bytes of which the first 8 differ.
#[inline(always)]
#[tactic(auto, using(crate::proofs::WordLemmas::order_of_words))]
fn first_words_cmp(bytes: &[u8], other: &[u8]) -> Option<Ordering>
    ensures { IfSome result (λ order. order ≡ slice_cmp nat_cmp bytes.now other.now) }
{
    let word = first_word(bytes)?;
    let other_word = first_word(other)?;
    if word == other_word {
        return None;
    }
    Some(word.cmp(&other_word))
}

/// Returns the first 8 bytes as a number.
#[inline(always)]
fn first_word(bytes: &[u8]) -> Option<u64>
    ensures { IfSome result (λ word. (8 ≤ length bytes.now) × (word ≡ from_be_bytes w64 (take 8 bytes.now))) }
{
    Some(u64::from_be_bytes(*bytes.first_chunk()?))
}
