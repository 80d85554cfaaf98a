//! Which arrays are compared pair by pair, and which elements.

use super::*;
use crate::tests::expect;
use std::alloc::AllocError;

/// The word and the content of an element, how often it occurs, and whether all pairs are compared.
type Row = (&'static [u8; 4], &'static [u8], u8, bool);

static ARRAYS: [Row; 10] = [
    // strings and nulls
    (b"\x10\0\0\x01", b"a", 24, true),
    (b"\x10\0\0\x01", b"a", 25, false),
    (b"\0\0\0\0", b"", 24, true),
    (b"\0\0\0\0", b"", 25, false),
    // numbers and dates
    (b"\x20\0\0\x02", b"\x50\x01", 8, true),
    (b"\x20\0\0\x02", b"\x50\x01", 9, false),
    (b"\x60\0\0\x05", b"\x10\0\0\0\x01", 8, true),
    (b"\x60\0\0\x05", b"\x10\0\0\0\x01", 9, false),
    // containers
    (b"\x50\0\0\x04", b"\x80\0\0\0", 2, true),
    (b"\x50\0\0\x04", b"\x80\0\0\0", 3, false),
];

/// Appends a part this many times.
fn push_times(bytes: &mut Vec<u8>, part: &[u8], count: u8) -> Result<(), AllocError> {
    for _ in 0..count {
        bytes.extend_from_slice(part)?;
    }
    Ok(())
}

/// Returns the array of an element that occurs this many times.
fn array(alloc: Global, word: &[u8], content: &[u8], count: u8) -> Result<Vec<u8>, AllocError> {
    let mut bytes = Vec::from_slice(alloc, &[0x80, 0, 0, count])?;
    push_times(&mut bytes, word, count)?;
    push_times(&mut bytes, content, count)?;
    Ok(bytes)
}

/// Returns `true` if a row states whether all pairs are compared.
fn are_few(alloc: Global, row: &Row) -> Result<bool, Error> {
    let bytes = array(alloc, row.0.as_slice(), row.1, row.2)?;
    Ok(few_elements(&bytes, &bytes)?.is_some() == row.3)
}

#[test]
fn few_elements_are_compared_pair_by_pair(rt: HostRuntime) {
    for row in &ARRAYS {
        expect(&rt, are_few(rt.alloc(), row), (row.2, row.0));
    }
}

/// The entry of a string.
const WANTED: StoredEntry<'static> = StoredEntry {
    kind: EntryKind::Text,
    content: b"b",
};

#[test]
fn elements_before_one_that_the_others_lack_are_not_visited(rt: HostRuntime) {
    // It has no content, so that a visit fails.
    let before = Entries {
        words: b"\x10\0\0\x01",
        contents: b"",
    };
    let others = Entries {
        words: b"\x10\0\0\x01",
        contents: b"a",
    };
    assert!(rt; has_more_left(before, 1, others, &WANTED) == Ok(false));
}
