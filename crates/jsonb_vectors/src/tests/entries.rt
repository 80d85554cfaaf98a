//! Entries that cannot be read: an iterator fails on them, and neither ends there nor returns something else.

use super::{bytes_of, expect};
use jsonb::{Error, elements, keys, pairs, values};
use std::alloc::{AllocError, Global};

/// Whether an entry is returned or fails.
fn mark(is_given: bool) -> char {
    if is_given { '+' } else { '-' }
}

/// Appends a name and a mark for each entry in turn, where there is an iterator.
macro_rules! go_over {
    ($given:ident, $name:literal, $iterator:expr) => {
        if let Ok(Some(found)) = $iterator {
            $given.push_str($name)?;
            for entry in found {
                $given.push(mark(entry.is_ok()))?;
            }
        }
    };
}

/// What each iterator over a document gives.
fn gone_over(alloc: Global, bytes: &[u8]) -> Result<String, AllocError> {
    let mut given = String::new(alloc);
    go_over!(given, "elements ", elements(bytes));
    go_over!(given, "keys ", keys(bytes));
    go_over!(given, " values ", values(bytes));
    go_over!(given, " pairs ", pairs(bytes));
    Ok(given)
}

/// The digits of documents, and what the iterators give.
static REFUSING: [(&str, &str); 7] = [
    // [1, bytes that are not UTF-8, 2]
    (
        "80000003 20000002 10000001 20000002 5001 ff 5002",
        "elements +-+",
    ),
    // [1, an entry of the kind 7, 2]
    (
        "80000003 20000002 70000001 20000002 5001 00 5002",
        "elements +-+",
    ),
    // [a float, 1]
    (
        "80000002 20000009 20000002 603ff8000000000000 5001",
        "elements -+",
    ),
    // [1, 2 without its content]
    ("80000002 20000002 20000002 5001", "elements +-"),
    // {bytes that are not UTF-8: 1, "b": 2}
    (
        "40000002 10000001 10000001 20000002 20000002 ff 62 5001 5002",
        "keys -+ values ++ pairs -+",
    ),
    // {"a": an entry of the kind 7, "b": 2}
    (
        "40000002 10000001 10000001 70000001 20000002 61 62 00 5002",
        "keys ++ values -+ pairs -+",
    ),
    // {"a": 1, "b": 2 without its content}
    (
        "40000002 10000001 10000001 20000002 20000002 61 62 5001",
        "keys ++ values +- pairs +-",
    ),
];

/// Whether the iterators over a document give this.
fn gives(alloc: Global, digits: &str, wanted: &str) -> Result<bool, Error> {
    let bytes = bytes_of(alloc, digits)?;
    Ok(gone_over(alloc, &bytes)?.as_str() == wanted)
}

#[test]
fn entries_that_cannot_be_read_are_refused(rt: HostRuntime) {
    for (digits, wanted) in &REFUSING {
        expect(&rt, gives(rt.alloc(), digits, wanted), *digits);
    }
}
