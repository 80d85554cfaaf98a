//! Skipping contents by the lengths in their entry words.

ghost use Rattle.std.specs.Prelude.{◌≡◌, ℕ, ◌+◌, ◌*◌, ◌/◌, ◌^◌, ◌<◌, ◌≤◌, List, ◌++◌, MatchOption, IsSomeAnd, IfSome, length, map, sum, take, drop};
ghost use Rattle.jsonb_doc.specs.Format.{BeginWith};
ghost use Rattle.jsonb_doc.specs.Kinds.{kind_number};
ghost use Rattle.jsonb_doc.specs.Private.Lengths.{StandBefore, lengths_of};

use crate::layout::{Entry, WORD, entry_len, split_entry};

/// The number of bytes of the entry words whose lengths are added at once.
const GROUP: usize = 128;

/// Returns the total length of the contents of these entry words. The words are a slice, so that many are added at
/// once.
///
/// # Complexity
///
/// O(k) for k words. Does not allocate.
#[inline(never)]
#[tactic(auto, using(crate::proofs::Entries::told_lengths))]
pub fn contents_len(words: &[u8]) -> usize
    requires { length words.now < 2 ^ 32 }
    ensures contents { (parts : List (List ℕ)) (contents rest : List ℕ) → StandBefore parts words.now contents rest
        → result + length rest ≡ length contents }
    ensures bound { result ≤ 2 ^ 26 * length words.now }
{
    if words.len() < GROUP {
        return sum_words(words);
    }
    contents_len_of_many(words)
}

/// Returns what `contents_len` does. It is a call, so that a sum of few words saves no registers: 11 instructions less.
#[inline(never)]
fn contents_len_of_many(words: &[u8]) -> usize
    requires { length words.now < 2 ^ 32 }
    ensures contents { (parts : List (List ℕ)) (contents rest : List ℕ) → StandBefore parts words.now contents rest
        → result + length rest ≡ length contents }
    ensures bound { result ≤ 2 ^ 26 * length words.now }
{
    sum_lengths(words)
}

/// Returns the sum of the lengths in these entry words. Inlined, for callers that know how many there are.
#[inline(always)]
pub(crate) fn sum_lengths(words: &[u8]) -> usize
    requires { length words.now < 2 ^ 32 }
    ensures contents { (parts : List (List ℕ)) (contents rest : List ℕ) → StandBefore parts words.now contents rest
        → result + length rest ≡ length contents }
    ensures bound { result ≤ 2 ^ 26 * length words.now }
{
    if words.len() < GROUP {
        return sum_words(words);
    }
    let (groups, others) = words.as_chunks::<GROUP>();
    sum_groups(groups) + sum_words(others)
}

/// Returns the sum of the lengths in entry words, of which there are few.
#[inline(always)]
#[tactic(auto, using(std::proofs::lemmas::Grind::common_steps))]
fn sum_words(words: &[u8]) -> usize
    requires { length words.now < 2 ^ 32 }
    ensures sum { result ≡ lengths_of (length words.now / 4) words.now }
    ensures bound { result ≤ 2 ^ 26 * length words.now }
{
    let (chunks, _) = words.as_chunks::<WORD>();
    let mut len = 0;
    for word in chunks {
        len += entry_len(word);
    }
    len
}

/// Returns the sum of the lengths in groups of entry words. A call, so that the sum of few words saves no registers for
/// it.
#[inline(never)]
fn sum_groups(groups: &[[u8; GROUP]]) -> usize
    requires { length groups.now < 2 ^ 25 }
    ensures sum { result ≡ sum (map (lengths_of 32) groups.now) }
    ensures bound { result ≤ 2 ^ 33 * length groups.now }
{
    let mut len = 0;
    for group in groups {
        len += sum_group(group);
    }
    len
}

/// Returns the sum of the lengths in a group of entry words. Adds every fourth of them in 32 bits, which they fit.
#[inline(always)]
fn sum_group(words: &[u8; GROUP]) -> usize
    ensures sum { result ≡ lengths_of 32 words.now }
    ensures bound { result ≤ 2 ^ 33 }
{
    let (quads, _) = words.as_chunks::<16>();
    let mut first = 0;
    let mut second = 0;
    let mut third = 0;
    let mut fourth = 0;
    for quad in quads {
        let lens = four_lens(quad);
        first += lens.0;
        second += lens.1;
        third += lens.2;
        fourth += lens.3;
    }
    first as usize + second as usize + third as usize + fourth as usize
}

/// Returns the lengths in four entry words.
#[inline(always)]
fn four_lens(quad: &[u8; 16]) -> (u32, u32, u32, u32)
    ensures sum { result.0 + result.1 + result.2 + result.3 ≡ lengths_of 4 quad.now }
    ensures bound { (result.0 < 2 ^ 28) × (result.1 < 2 ^ 28) × (result.2 < 2 ^ 28) × (result.3 < 2 ^ 28) }
{
    let (words, _) = quad.as_chunks::<WORD>();
    (
        entry_len(&words[0]) as u32,
        entry_len(&words[1]) as u32,
        entry_len(&words[2]) as u32,
        entry_len(&words[3]) as u32,
    )
}

/// Returns the bytes after the contents of these entry words, or `None` if there are fewer bytes.
#[inline(always)]
#[tactic(auto, using(crate::proofs::Entries::nothing_before, crate::proofs::Sets::lengths_skip_contents))]
pub fn skip_contents<'a>(words: &[u8], contents: &'a [u8]) -> Option<&'a [u8]>
    requires { length words.now < 2 ^ 32 }
    ensures rest { (parts : List (List ℕ)) (rest : List ℕ) → StandBefore parts words.now contents.now rest
        → IsSomeAnd result (λ r. r.now ≡ rest) }
    ensures end { IfSome result (λ r. (front : List ℕ) × (contents.now ≡ front ++ r.now)) }
    ensures size { IfSome result (λ r. length r.now ≤ length contents.now) }
{
    if words.is_empty() {
        return Some(contents);
    }
    contents.get(contents_len(words)..)
}

/// Returns the first entry after this many bytes of entry words.
#[inline(always)]
pub fn entry_at_offset<'w, 'c>(
    words: &'w [u8],
    passed: usize,
    contents: &'c [u8],
) -> Option<Entry<'w, 'c>>
    requires within { passed ≤ length words.now }
    requires short { length words.now < 2 ^ 32 }
    ensures entry { (parts : List (List ℕ)) (left : List ℕ)
        → StandBefore parts (take passed words.now) contents.now left
        → MatchOption result
        ((kind : ℕ) (content ws cs : List ℕ) → BeginWith (drop passed words.now) left kind content ws cs → ⊥)
        (λ e. BeginWith (drop passed words.now) left (kind_number e.kind) e.content.now e.other_words.now
        e.other_contents.now) }
    ensures size { IfSome result (λ e. length e.content.now + length e.other_contents.now ≤ length contents.now) }
{
    let (before, others) = words.split_at(passed);
    let left = skip_contents(before, contents)?;
    split_entry(others, left)
}
