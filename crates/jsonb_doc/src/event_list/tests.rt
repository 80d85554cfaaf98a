//! Lists of events, and their documents.

use super::document_from_events;
use crate::error::Error;
use crate::event_error::EventError;
use crate::reading::tests::expect;
use crate::text_event::TextEvent;
use std::alloc::Global;

/// The kind, the low and the high part, and the scale of an event.
type Parts = (u8, u64, i64, u8);

const NULL: Parts = (0, 0, 0, 0);

const FALSE: Parts = (1, 0, 0, 0);

const TRUE: Parts = (2, 0, 0, 0);

const TEN: Parts = (4, 10, 0, 0);

/// A string of one byte.
const STRING: Parts = (7, 1, 0, 0);

/// A key of one byte.
const KEY: Parts = (8, 1, 0, 0);

const ARRAY: Parts = (9, 0, 0, 0);

const OBJECT: Parts = (10, 0, 0, 0);

const END: Parts = (11, 0, 0, 0);

const OUT_OF_ORDER: Result<&[u8], EventError> = Err(EventError::OutOfOrder);

/// The bytes, the events, whether the last value of a duplicate key is kept, and the document or the error.
type Row = (
    &'static str,
    &'static [Parts],
    bool,
    Result<&'static [u8], EventError>,
);

static ROWS: [Row; 29] = rows! {
    "", &[NULL], false, Ok(b"\x20\0\0\0\0\0\0\0");
    "", &[(3, 0, -2, 0)], false, Ok(b"\x20\0\0\0\x20\0\0\x02\x40\xfe");
    "", &[(5, 0, 1234, 2)], false, Ok(b"\x20\0\0\0\x20\0\0\x0a\x70\0\0\0\0\0\0\x04\xd2\x02");
    "", &[(6, 3, 1, 7)], false,
        Ok(b"\x20\0\0\0\x20\0\0\x12\x70\0\0\0\0\0\0\0\x01\0\0\0\0\0\0\0\x03\x07");
    "", &[(6, 3, -1, 0)], false,
        Ok(b"\x20\0\0\0\x20\0\0\x12\x70\xff\xff\xff\xff\xff\xff\xff\xff\0\0\0\0\0\0\0\x03\0");
    "abc", &[(7, 3, 0, 0)], false, Ok(b"\x20\0\0\0\x10\0\0\x03abc");
    "abc", &[(7, 2, 0, 0)], false, Ok(b"\x20\0\0\0\x10\0\0\x02ab");
    "", &[ARRAY, END], false, Ok(b"\x80\0\0\0");
    "", &[OBJECT, END], true, Ok(b"\x40\0\0\0");
    // [false,true,10,"v"]
    "v", &[ARRAY, FALSE, TRUE, TEN, STRING, END], false,
        Ok(b"\x80\0\0\x04\x30\0\0\0\x40\0\0\0\x20\0\0\x02\x10\0\0\x01\x50\x0av");
    // [[[]],10]
    "", &[ARRAY, ARRAY, ARRAY, END, END, TEN, END], false,
        Ok(b"\x80\0\0\x02\x50\0\0\x0c\x20\0\0\x02\x80\0\0\x01\x50\0\0\x04\x80\0\0\0\x50\x0a");
    // {"a":{"b":null},"c":"v"}, the later key first
    "cvab", &[OBJECT, KEY, STRING, KEY, OBJECT, KEY, NULL, END, END], false,
        Ok(b"\x40\0\0\x02\x10\0\0\x01\x10\0\0\x01\x50\0\0\x0d\x10\0\0\x01ac\x40\0\0\x01\x10\0\0\x01\0\0\0\0bv");
    "aba", &[OBJECT, KEY, NULL, KEY, NULL, KEY, TRUE, END], false,
        Err(EventError::Failed(Error::ObjectDuplicateKey));
    "aba", &[OBJECT, KEY, NULL, KEY, FALSE, KEY, TRUE, END], true,
        Ok(b"\x40\0\0\x02\x10\0\0\x01\x10\0\0\x01\x40\0\0\0\x30\0\0\0ab");
    // the keys of an object are compared when it ends
    "aa", &[OBJECT, KEY, NULL, KEY, NULL, END, NULL], false, Err(EventError::Failed(Error::ObjectDuplicateKey));
    "aa", &[OBJECT, KEY, NULL, KEY, NULL, END, NULL], true, OUT_OF_ORDER;
    "aa", &[OBJECT, KEY, NULL, KEY, NULL, NULL, END], false, OUT_OF_ORDER;
    "aa", &[ARRAY, OBJECT, KEY, NULL, KEY, NULL, END], false, Err(EventError::Failed(Error::ObjectDuplicateKey));
    "", &[], false, OUT_OF_ORDER;
    "", &[(12, 0, 0, 0)], false, OUT_OF_ORDER;
    "", &[ARRAY], false, OUT_OF_ORDER;
    "", &[END], false, OUT_OF_ORDER;
    "", &[NULL, NULL], false, OUT_OF_ORDER;
    "", &[ARRAY, END, END], false, OUT_OF_ORDER;
    "a", &[ARRAY, KEY, NULL, END], false, OUT_OF_ORDER;
    "", &[OBJECT, NULL, END], false, OUT_OF_ORDER;
    "a", &[OBJECT, KEY, END], false, OUT_OF_ORDER;
    "a", &[(7, 2, 0, 0)], false, OUT_OF_ORDER;
    "\u{e4}", &[STRING], false, OUT_OF_ORDER;
};

fn document(
    alloc: Global,
    text: &str,
    events: &[Parts],
    keep_last: bool,
) -> Result<Vec<u8>, EventError> {
    let mut list = Vec::new(alloc);
    for (kind, low, high, scale) in events {
        list.push(TextEvent {
            low: *low,
            high: *high,
            kind: *kind,
            scale: *scale,
        })?;
    }
    document_from_events(alloc, text, &list, keep_last)
}

fn makes(alloc: Global, row: &Row) -> bool {
    let (text, events, keep_last, wanted) = row;
    match (document(alloc, text, events, *keep_last), wanted) {
        (Ok(made), Ok(bytes)) => made.as_slice() == *bytes,
        (Err(error), Err(expected)) => error == *expected,
        _ => false,
    }
}

#[test]
fn makes_documents_of_lists(rt: HostRuntime) {
    for row in &ROWS {
        expect(&rt, makes(rt.alloc(), row), row.1);
    }
}

/// Returns the length of the document of this many arrays, each within another.
fn nested_len(alloc: Global, depth: usize) -> Result<usize, EventError> {
    let mut events = Vec::new(alloc);
    for _ in 0..depth {
        events.push(ARRAY)?;
    }
    for _ in 0..depth {
        events.push(END)?;
    }
    Ok(document(alloc, "", &events, false)?.len())
}

#[test]
fn makes_deep_documents(rt: HostRuntime) {
    let len = nested_len(rt.alloc(), 10_000);
    assert!(rt; matches!(len, Ok(79_996)));
}
