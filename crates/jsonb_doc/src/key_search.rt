//! The search for a key among the sorted keys of an object.

ghost use Rattle.std.specs.Prelude.{ℕ, ◌+◌, ◌*◌, ◌^◌, ◌<◌, ◌≤◌, List, length, drop, IsOkAnd, IfOk, IfErr, IfSome};
ghost use Rattle.jsonb_doc.specs.Answer.{IsDecodingError};
ghost use Rattle.jsonb_doc.specs.Private.Lengths.{HoldKeys, IsNoneOf, FindsKey, IsKeyPosition, IsBlockOf, SkipsBlock};

use crate::byte_order::bytes_cmp;
use crate::equal_bytes::bytes_equal;
use crate::error::Error;
use crate::layout::{WORD, entry_len, split_entry};
use crate::lengths::sum_lengths;
use std::cmp::Ordering;

/// The number of keys that are skipped at once.
const BLOCK: usize = 32;

/// The number of keys that are skipped at once before those, so that few keys are compared.
const LARGE_BLOCK: usize = 128;

/// The position of a name among sorted keys.
#[derive(Clone, Copy, Debug, PartialEq, Eq)]
pub enum KeyPosition {
    /// The key at this position is the name.
    Found(usize),
    /// No key is the name, which would be inserted at this position.
    Missing(usize),
}

/// Returns what follows the key that is this name, among the keys with these words and bytes.
///
/// Among fewer than 32 keys it compares those of the name's length. Without keys no register is saved for that loop.
#[inline(always)]
pub(crate) fn find_key<'w, 'k>(
    words: &'w [u8],
    bytes: &'k [u8],
    name: &[u8],
) -> Result<Option<(&'w [u8], &'k [u8])>, Error>
    requires { length words.now < 2 ^ 32 }
    ensures found { (ks : List (List ℕ)) (rest : List ℕ) → HoldKeys ks words.now bytes.now rest
        → IsOkAnd result (λ found. FindsKey name.now ks rest found) }
    ensures size { IfOk result
        (λ found. IfSome found (λ r. (length r.0.now + 4 ≤ length words.now) × (length r.1.now ≤ length bytes.now))) }
    ensures errors { IfErr result IsDecodingError }
{
    if words.is_empty() {
        return Ok(None);
    }
    if words.len() < WORD * BLOCK {
        return find_in_block(words, bytes, name);
    }
    find_in_blocks(words, bytes, name)
}

/// Returns what follows the key that is this name, among many keys.
///
/// Skips blocks of keys before the one that the name would be in, then compares the keys of that block. It is a call:
/// as part of the callers its loops add 45 instructions to each search among five keys.
#[inline(never)]
fn find_in_blocks<'w, 'k>(
    words: &'w [u8],
    bytes: &'k [u8],
    name: &[u8],
) -> Result<Option<(&'w [u8], &'k [u8])>, Error>
    requires { length words.now < 2 ^ 32 }
    ensures found { (ks : List (List ℕ)) (rest : List ℕ) → HoldKeys ks words.now bytes.now rest
        → IsOkAnd result (λ found. FindsKey name.now ks rest found) }
    ensures size { IfOk result
        (λ found. IfSome found (λ r. (length r.0.now + 4 ≤ length words.now) × (length r.1.now ≤ length bytes.now))) }
    ensures errors { IfErr result IsDecodingError }
{
    let (block_words, block_bytes) = skip_keys(words, bytes, name)?;
    find_in_block(block_words, block_bytes, name)
}

/// Returns the position of a name among the keys with these words and bytes.
pub(crate) fn key_position(words: &[u8], bytes: &[u8], name: &[u8]) -> Result<KeyPosition, Error>
    requires { length words.now < 2 ^ 32 }
    ensures position { (ks : List (List ℕ)) (rest : List ℕ) → HoldKeys ks words.now bytes.now rest
        → IsOkAnd result (IsKeyPosition name.now ks) }
    ensures errors { IfErr result IsDecodingError }
{
    let (block_words, block_bytes) = skip_keys(words, bytes, name)?;
    let mut left = block_words;
    let mut left_bytes = block_bytes;
    while let Some(key) = split_entry(left, left_bytes) {
        let position = (words.len() - left.len()) / WORD;
        match bytes_cmp(key.content, name) {
            Ordering::Less => {
                left = key.other_words;
                left_bytes = key.other_contents;
            }
            Ordering::Equal => return Ok(KeyPosition::Found(position)),
            Ordering::Greater => return Ok(KeyPosition::Missing(position)),
        }
    }
    Ok(KeyPosition::Missing((words.len() - left.len()) / WORD))
}

/// Returns the keys from the block on that the name would be in. Skips large blocks, then small ones.
#[inline(always)]
fn skip_keys<'w, 'k>(
    words: &'w [u8],
    bytes: &'k [u8],
    name: &[u8],
) -> Result<(&'w [u8], &'k [u8]), Error>
    requires { length words.now < 2 ^ 32 }
    ensures block { (ks : List (List ℕ)) (rest : List ℕ) → HoldKeys ks words.now bytes.now rest
        → IsOkAnd result (λ r. IsBlockOf 32 name.now ks rest r.0.now r.1.now) }
    ensures size { IfOk result (λ r. (length r.0.now ≤ length words.now) × (length r.1.now ≤ length bytes.now)) }
    ensures errors { IfErr result IsDecodingError }
{
    if words.len() < WORD * BLOCK {
        return Ok((words, bytes));
    }
    let (left, left_bytes) = skip_blocks(words, bytes, name, LARGE_BLOCK)?;
    skip_blocks(left, left_bytes, name, BLOCK)
}

/// Returns the keys from the block of `count` keys on that the name would be in.
#[inline(always)]
fn skip_blocks<'w, 'k>(
    words: &'w [u8],
    bytes: &'k [u8],
    name: &[u8],
    count: usize,
) -> Result<(&'w [u8], &'k [u8]), Error>
    requires short { length words.now < 2 ^ 32 }
    requires some { 0 < count }
    requires few { count < 2 ^ 28 }
    ensures block { (ks : List (List ℕ)) (rest : List ℕ) → HoldKeys ks words.now bytes.now rest
        → IsOkAnd result (λ r. IsBlockOf count name.now ks rest r.0.now r.1.now) }
    ensures size { IfOk result (λ r. (length r.0.now ≤ length words.now) × (length r.1.now ≤ length bytes.now)) }
    ensures errors { IfErr result IsDecodingError }
{
    let mut words = words;
    let mut bytes = bytes;
    loop {
        match skip_block(words, bytes, name, count)? {
            Some((other_words, other_bytes)) => {
                words = other_words;
                bytes = other_bytes;
            }
            None => return Ok((words, bytes)),
        }
    }
}

/// Returns the keys after the first `count`, or `None` if the name is not among those.
#[inline(always)]
fn skip_block<'w, 'k>(
    words: &'w [u8],
    bytes: &'k [u8],
    name: &[u8],
    count: usize,
) -> Result<Option<(&'w [u8], &'k [u8])>, Error>
    requires some { 0 < count }
    requires few { count < 2 ^ 28 }
    ensures skips { (ks : List (List ℕ)) (rest : List ℕ) → HoldKeys ks words.now bytes.now rest
        → IsOkAnd result (λ found. SkipsBlock count name.now ks rest found) }
    ensures size { IfOk result
        (λ found. IfSome found (λ r. (length r.0.now < length words.now) × (length r.1.now ≤ length bytes.now))) }
    ensures errors { IfErr result IsDecodingError }
{
    let Some((block, other_words)) = words.split_at_checked(WORD * count) else {
        return Ok(None);
    };
    let Some(other_bytes) = bytes.get(sum_lengths(block)..) else {
        return Err(Error::InvalidJsonb);
    };
    let Some(next) = split_entry(other_words, other_bytes) else {
        return Ok(None);
    };
    match bytes_cmp(name, next.content) {
        Ordering::Less => Ok(None),
        Ordering::Equal | Ordering::Greater => Ok(Some((other_words, other_bytes))),
    }
}

/// Returns what follows the key that is this name, if it is one of the first block of keys.
#[inline(always)]
#[tactic(auto, using(crate::proofs::Sets::key_search_find_in_block))]
fn find_in_block<'w, 'k>(
    words: &'w [u8],
    bytes: &'k [u8],
    name: &[u8],
) -> Result<Option<(&'w [u8], &'k [u8])>, Error>
    requires { length words.now < 2 ^ 32 }
    ensures found { (ks : List (List ℕ)) (rest : List ℕ) → HoldKeys ks words.now bytes.now rest
        → IsNoneOf name.now (drop 32 ks) → IsOkAnd result (λ found. FindsKey name.now ks rest found) }
    ensures size { IfOk result
        (λ found. IfSome found (λ r. (length r.0.now + 4 ≤ length words.now) × (length r.1.now ≤ length bytes.now))) }
    ensures errors { IfErr result IsDecodingError }
{
    let (key_words, _) = words.as_chunks::<WORD>();
    let block = &key_words[..key_words.len().min(BLOCK)];
    let mut end = 0;
    for (at, word) in block.iter().enumerate() {
        let start = end;
        let len = entry_len(word);
        end += len;
        if len == name.len() {
            let Some(key) = bytes.get(start..end) else {
                return Err(Error::InvalidJsonb);
            };
            if bytes_equal(key, name) {
                return Ok(Some((&words[WORD * (at + 1)..], &bytes[end..])));
            }
        }
    }
    Ok(None)
}
