//! Damaged bytes: each call returns on them, and if they decode, so does each document that a call returns.

use super::calls::{
    Answers, ask_array, ask_builders, ask_extensions_and_casts, ask_items, ask_object, ask_path,
    ask_places, ask_scalars, ask_spots, ask_whole,
};
use super::{bytes_of, expect};
use crate::documents::DOCUMENTS;
use jsonb::{Error, RawJsonb, SelectByPath, check, parse_json_path, root_item};
use std::alloc::Global;
use std::process::Abort;

static PATHS: [&str; 8] = [
    "",
    "$.**",
    "$[last, 0 to 1]",
    "$[*]?(@ == 1 || exists(@.k))",
    "$.b[*]?(@ == null)",
    "$.* starts with \"F\"",
    "-$[*]",
    "$ + 1",
];

/// Returns `true` if all calls return on these bytes, with documents that decode if the bytes do.
fn answers_decode(alloc: Global, bytes: &[u8]) -> Result<bool, Error> {
    let raw = RawJsonb::new(bytes);
    let mut answers = Answers { decode: true };
    ask_array(alloc, &raw, &mut answers);
    ask_object(alloc, &raw, &mut answers)?;
    ask_places(alloc, &raw, &mut answers)?;
    ask_whole(alloc, &raw, &mut answers);
    ask_scalars(alloc, &raw);
    ask_extensions_and_casts(alloc, &raw);
    ask_items(alloc, bytes, &mut answers);
    ask_spots(alloc, bytes, &mut answers);
    ask_builders(alloc, bytes, &mut answers);
    for path in &PATHS {
        ask_path(alloc, bytes, path, &mut answers)?;
    }
    Ok(answers.decode || check(bytes).is_err())
}

/// Replaces the bytes from a position on, and returns `true` if all calls return on the result.
fn answers_decode_with(
    alloc: Global,
    bytes: &[u8],
    at: usize,
    others: &[u8],
) -> Result<bool, Error> {
    let mut changed = Vec::from_slice(alloc, bytes)?;
    for (old, other) in changed.iter_mut().skip(at).zip(others.iter()) {
        *old = *other;
    }
    answers_decode(alloc, &changed)
}

/// Returns `true` if the bytes are not a document, and all calls return on them.
fn is_refused(alloc: Global, bytes: &[u8]) -> Result<bool, Error> {
    Ok(check(bytes) == Err(Error::InvalidJsonb) && answers_decode(alloc, bytes)?)
}

/// Fails with the position of a change of a document with which it is not as expected.
fn expect_none(rt: &impl Abort, wrong: Result<Option<usize>, Error>, value: &str) {
    assert!(*rt; matches!(wrong, Ok(None)), "{value}: {wrong:?}");
}

/// Returns `true` if all calls return on a document, and on its bytes followed by a zero, which are not a document.
fn is_refused_with_more(alloc: Global, digits: &str) -> Result<bool, Error> {
    let mut bytes = bytes_of(alloc, digits)?;
    let is_so = answers_decode(alloc, &bytes)?;
    bytes.push(0)?;
    Ok(is_so && is_refused(alloc, &bytes)?)
}

#[test]
fn a_byte_behind_a_document_is_refused(rt: HostRuntime) {
    for document in &DOCUMENTS {
        let is_so = is_refused_with_more(rt.alloc(), document.digits);
        expect(&rt, is_so, document.value);
    }
}

/// Returns a position at which a document can be cut and is still accepted.
fn cut_that_is_accepted(alloc: Global, digits: &str) -> Result<Option<usize>, Error> {
    let bytes = bytes_of(alloc, digits)?;
    for at in 0..bytes.len() {
        if !is_refused(alloc, bytes.get(..at).unwrap_or(b""))? {
            return Ok(Some(at));
        }
    }
    Ok(None)
}

#[test]
fn a_document_that_is_cut_is_refused(rt: HostRuntime) {
    for document in &DOCUMENTS {
        let found = cut_that_is_accepted(rt.alloc(), document.digits);
        expect_none(&rt, found, document.value);
    }
}

/// Returns `true` if results decode with other bytes in the place of one and the next one.
fn answers_decode_with_pairs(alloc: Global, bytes: &[u8], at: usize) -> Result<bool, Error> {
    let byte = bytes.get(at).copied().unwrap_or(0);
    let next = bytes.get(at.wrapping_add(1)).copied().unwrap_or(0);
    for pair in [
        [0, next],
        [0xff, next],
        [byte ^ 1, next],
        [0, 0],
        [0xff, 0xff],
        [next, byte],
    ] {
        if !answers_decode_with(alloc, bytes, at, &pair)? {
            return Ok(false);
        }
    }
    Ok(true)
}

/// Returns the position of a byte whose change makes a call return what does not decode.
fn wrong_byte(alloc: Global, digits: &str) -> Result<Option<usize>, Error> {
    let bytes = bytes_of(alloc, digits)?;
    for at in 0..bytes.len() {
        if !answers_decode_with_pairs(alloc, &bytes, at)? {
            return Ok(Some(at));
        }
    }
    Ok(None)
}

/// One byte is changed, or it and the next one.
#[test]
fn all_calls_return_where_bytes_are_changed(rt: HostRuntime) {
    for document in &DOCUMENTS {
        let found = wrong_byte(rt.alloc(), document.digits);
        expect_none(&rt, found, document.value);
    }
}

/// Other words in the place of one: of each kind with its length, and of its kind with the lengths 0, 1, one more, one
/// less and the largest. A step lies between two kinds.
fn other_words(word: u32, step: u32) -> [u32; 13] {
    let largest = step.wrapping_sub(1);
    let (kind, length) = (word & !largest, word & largest);
    [
        length,
        step | length,
        step.wrapping_mul(2) | length,
        step.wrapping_mul(3) | length,
        step.wrapping_mul(4) | length,
        step.wrapping_mul(5) | length,
        step.wrapping_mul(6) | length,
        step.wrapping_mul(7) | length,
        kind,
        kind | 1,
        kind | (length.wrapping_add(1) & largest),
        kind | (length.wrapping_sub(1) & largest),
        kind | largest,
    ]
}

/// Returns `true` if results decode with any other word at a position: one of another entry, or of another header,
/// whose length is a count.
fn answers_decode_with_words(alloc: Global, bytes: &[u8], at: usize) -> Result<bool, Error> {
    let Some(word) = bytes.get(at..).and_then(|rest| rest.first_chunk::<4>()) else {
        return Ok(true);
    };
    let word = u32::from_be_bytes(*word);
    for other in other_words(word, 0x1000_0000)
        .iter()
        .chain(&other_words(word, 0x2000_0000))
    {
        if !answers_decode_with(alloc, bytes, at, &other.to_be_bytes())? {
            return Ok(false);
        }
    }
    Ok(true)
}

/// Returns the position of a word whose change makes a call return what does not decode.
fn wrong_word(alloc: Global, digits: &str) -> Result<Option<usize>, Error> {
    let bytes = bytes_of(alloc, digits)?;
    let mut at = 0usize;
    for part in digits.split(' ') {
        if part.len() == 8 && !answers_decode_with_words(alloc, &bytes, at)? {
            return Ok(Some(at));
        }
        at = at.saturating_add(part.len() / 2);
    }
    Ok(None)
}

/// The words are the parts of eight digits; a content of four bytes is changed as a word too.
#[test]
fn all_calls_return_where_a_word_is_changed(rt: HostRuntime) {
    for document in &DOCUMENTS {
        let found = wrong_word(rt.alloc(), document.digits);
        expect_none(&rt, found, document.value);
    }
}

// a float
const FLOAT: &[u8] = b"\x20\0\0\0\x20\0\0\x09\x60\x3f\xf8\0\0\0\0\0\0";

/// A call that reads a number.
#[derive(Clone, Copy, Debug)]
enum Reading {
    Check,
    RootItem,
    TypeOf,
    AsNumber,
    IsI64,
    AsI64,
    ToI64,
    IsU64,
    AsU64,
    ToU64,
    ToStr,
    ConvertToComparable,
    SelectByPath,
}

impl Reading {
    /// Returns the error of the call on a float.
    fn refusal(self, alloc: Global) -> Result<Option<Error>, Error> {
        let raw = RawJsonb::new(FLOAT);
        Ok(match self {
            Reading::Check => check(FLOAT).err(),
            Reading::RootItem => root_item(FLOAT).err(),
            Reading::TypeOf => raw.type_of().err(),
            Reading::AsNumber => raw.as_number().err(),
            Reading::IsI64 => raw.is_i64().err(),
            Reading::AsI64 => raw.as_i64().err(),
            Reading::ToI64 => raw.to_i64().err(),
            Reading::IsU64 => raw.is_u64().err(),
            Reading::AsU64 => raw.as_u64().err(),
            Reading::ToU64 => raw.to_u64().err(),
            Reading::ToStr => raw.to_str(alloc).err(),
            Reading::ConvertToComparable => raw.convert_to_comparable(alloc).err(),
            Reading::SelectByPath => {
                let plus = parse_json_path(alloc, b"+$")?;
                raw.select_by_path(alloc, &plus).err()
            }
        })
    }
}

static READINGS: [Reading; 13] = [
    Reading::Check,
    Reading::RootItem,
    Reading::TypeOf,
    Reading::AsNumber,
    Reading::IsI64,
    Reading::AsI64,
    Reading::ToI64,
    Reading::IsU64,
    Reading::AsU64,
    Reading::ToU64,
    Reading::ToStr,
    Reading::ConvertToComparable,
    Reading::SelectByPath,
];

#[test]
fn a_float_is_refused_by_each_call_that_reads_it(rt: HostRuntime) {
    for reading in &READINGS {
        let found = reading.refusal(rt.alloc());
        let is_so = found == Ok(Some(Error::UnsupportedNumber));
        expect(&rt, Ok(is_so), *reading);
    }
}
