//! Worked rows of documents from events, of a builder and of a list, and of items in place.

use super::{
    Answer, COMPUTED, INVALID_JSONB, MIXED, NO_PATH, NONE, NOT_UTF8, OBJECT_DUPLICATE_KEY, OK,
    UNTOUCHED, expect, parts,
};
use crate::builder::list::jdoc_from_events;
use crate::builder::{
    jdoc_builder_begin_array, jdoc_builder_begin_object, jdoc_builder_bool, jdoc_builder_decimal,
    jdoc_builder_document, jdoc_builder_end, jdoc_builder_finish, jdoc_builder_free,
    jdoc_builder_i64, jdoc_builder_key, jdoc_builder_null, jdoc_builder_str, jdoc_builder_u64,
};
use crate::items::span::jdoc_items_find_next;
use crate::items::{jdoc_items_free, jdoc_items_next, jdoc_path_items};
use crate::path::{jdoc_path_free, jdoc_path_read};
use crate::prepared::PathHandle;
use jsonb::TextEvent;
use std::alloc::{AllocError, Global};

const OUT_OF_ORDER: u32 = 7;

/// Passes an event: `[` and `{` begin a container, `.` ends it, `a` and `b` are keys, `y` is one that is not UTF-8, and
/// the others are values.
fn pass(alloc: Global, builder: &mut PathHandle, letter: u8) -> u32 {
    match letter {
        b'[' => jdoc_builder_begin_array(alloc, builder),
        b'{' => jdoc_builder_begin_object(alloc, builder),
        b'.' => jdoc_builder_end(alloc, builder),
        b'a' => jdoc_builder_key(alloc, builder, b"a"),
        b'b' => jdoc_builder_key(alloc, builder, b"b"),
        b'y' => jdoc_builder_key(alloc, builder, b"\xff"),
        b'n' => jdoc_builder_null(alloc, builder),
        b't' => jdoc_builder_bool(alloc, builder, true),
        b'i' => jdoc_builder_i64(alloc, builder, -100),
        b'u' => jdoc_builder_u64(alloc, builder, 2),
        b'm' => jdoc_builder_decimal(alloc, builder, 0, 1234, 2),
        b's' => jdoc_builder_str(alloc, builder, b"adf"),
        b'x' => jdoc_builder_str(alloc, builder, b"\xff"),
        b'd' => jdoc_builder_document(alloc, builder, b"\x80\0\0\x01\0\0\0\0"),
        _ => jdoc_builder_document(alloc, builder, b"?"),
    }
}

/// Passes events until one fails. Returns its status.
fn pass_all(alloc: Global, builder: &mut PathHandle, letters: &[u8]) -> u32 {
    for letter in letters {
        let status = pass(alloc, builder, *letter);
        if status != OK {
            return status;
        }
    }
    OK
}

/// Events, and their document.
static DOCUMENTS: [(&[u8], &[u8]); 12] = rows! {
    b"n", b"\x20\0\0\0\0\0\0\0";
    b"t", b"\x20\0\0\0\x40\0\0\0";
    b"i", b"\x20\0\0\0\x20\0\0\x02\x40\x9c";
    b"u", b"\x20\0\0\0\x20\0\0\x02\x50\x02";
    b"m", b"\x20\0\0\0\x20\0\0\x0a\x70\0\0\0\0\0\0\x04\xd2\x02";
    b"s", b"\x20\0\0\0\x10\0\0\x03adf";
    b"d", b"\x80\0\0\x01\0\0\0\0";
    b"[.", b"\x80\0\0\0";
    b"{.", b"\x40\0\0\0";
    b"[du.", b"\x80\0\0\x02\x50\0\0\x08\x20\0\0\x02\x80\0\0\x01\0\0\0\0\x50\x02";
    b"{b[n.an.", b"\x40\0\0\x02\x10\0\0\x01\x10\0\0\x01\0\0\0\0\x50\0\0\x08ab\x80\0\0\x01\0\0\0\0";
    b"{a{..", b"\x40\0\0\x01\x10\0\0\x01\x50\0\0\x04a\x40\0\0\0";
};

/// Returns whether the builder finishes with this status and document.
fn finishes(alloc: Global, builder: &mut PathHandle, wanted: u32, document: &[u8]) -> bool {
    let mut a = Answer::new();
    let status = jdoc_builder_finish(alloc, builder, &mut a.out, &mut a.len);
    status == wanted && a.is(document)
}

/// Returns whether a builder makes the document of these events.
fn builds(alloc: Global, letters: &[u8], document: &[u8]) -> bool {
    let mut builder = PathHandle::none();
    let passed = pass_all(alloc, &mut builder, letters);
    let is_so = finishes(alloc, &mut builder, OK, document);
    jdoc_builder_free(alloc, &mut builder);
    passed == OK && is_so
}

#[test]
fn documents_of_events(rt: HostRuntime) {
    for (letters, document) in &DOCUMENTS {
        expect(&rt, builds(rt.alloc(), letters, document), *letters);
    }
}

/// Events of which the last one fails, and its status.
static FAILURES: [(&[u8], u32); 12] = rows! {
    b".", OUT_OF_ORDER;
    b"nn", OUT_OF_ORDER;
    b"[..", OUT_OF_ORDER;
    b"a", OUT_OF_ORDER;
    b"[a", OUT_OF_ORDER;
    b"{n", OUT_OF_ORDER;
    b"{ab", OUT_OF_ORDER;
    b"{a.", OUT_OF_ORDER;
    b"{ana", OBJECT_DUPLICATE_KEY;
    b"{y", NOT_UTF8;
    b"[x", NOT_UTF8;
    b"[?", INVALID_JSONB;
};

#[test]
fn events_that_fail(rt: HostRuntime) {
    for (letters, wanted) in &FAILURES {
        let mut builder = PathHandle::none();
        let status = pass_all(rt.alloc(), &mut builder, letters);
        jdoc_builder_free(rt.alloc(), &mut builder);
        expect(&rt, status == *wanted, *letters);
    }
}

#[test]
fn a_builder_after_failures(rt: HostRuntime) {
    let mut builder = PathHandle::none();
    for letter in b".[axu?.n" {
        pass(rt.alloc(), &mut builder, *letter);
    }
    let document = b"\x80\0\0\x01\x20\0\0\x02\x50\x02";
    let is_built = finishes(rt.alloc(), &mut builder, OK, document);
    jdoc_builder_free(rt.alloc(), &mut builder);
    assert!(rt; is_built);
    assert!(rt; finishes(rt.alloc(), &mut builder, OUT_OF_ORDER, b""));
}

/// The event of a letter in a list: those of `pass`, of which strings and keys have one byte, `f`, and `w` for a decimal of
/// 128 bits.
fn listed(letter: u8) -> TextEvent {
    let (kind, low, high) = match letter {
        b'n' => (0, 0, 0),
        b'f' => (1, 0, 0),
        b't' => (2, 0, 0),
        b'i' => (3, 9, -100),
        b'u' => (4, 2, 9),
        b'm' => (5, 9, 1234),
        b'w' => (6, 5, 1),
        b's' => (7, 1, 0),
        b'k' => (8, 1, 0),
        b'[' => (9, 0, 0),
        b'{' => (10, 0, 0),
        b'.' => (11, 0, 0),
        _ => (12, 0, 0),
    };
    TextEvent {
        low,
        high,
        kind,
        scale: 2,
    }
}

fn list_of(alloc: Global, letters: &[u8]) -> Result<Vec<TextEvent>, AllocError> {
    let mut events = Vec::new(alloc);
    for letter in letters {
        events.push(listed(*letter))?;
    }
    Ok(events)
}

/// Events, the bytes of their keys and strings, the status, and the document if there is no error.
type List = (&'static [u8], &'static [u8], u32, &'static [u8]);

/// Returns whether the events of a list make what its row states, with the last of equal keys or with an error for them.
fn makes(alloc: Global, list: &List, keep_last: bool) -> Result<bool, AllocError> {
    let (letters, text, wanted, document) = *list;
    let events = list_of(alloc, letters)?;
    let mut a = Answer::new();
    let status = jdoc_from_events(alloc, text, &events, keep_last, &mut a.out, &mut a.len);
    Ok(status == wanted && a.is(document))
}

static LISTS: [List; 14] = rows! {
    b"n", b"", OK, b"\x20\0\0\0\0\0\0\0";
    b"f", b"", OK, b"\x20\0\0\0\x30\0\0\0";
    b"t", b"", OK, b"\x20\0\0\0\x40\0\0\0";
    b"i", b"", OK, b"\x20\0\0\0\x20\0\0\x02\x40\x9c";
    b"u", b"", OK, b"\x20\0\0\0\x20\0\0\x02\x50\x02";
    b"m", b"", OK, b"\x20\0\0\0\x20\0\0\x0a\x70\0\0\0\0\0\0\x04\xd2\x02";
    b"w", b"", OK, b"\x20\0\0\0\x20\0\0\x12\x70\0\0\0\0\0\0\0\x01\0\0\0\0\0\0\0\x05\x02";
    b"{kskn.", b"bxa", OK, b"\x40\0\0\x02\x10\0\0\x01\x10\0\0\x01\0\0\0\0\x10\0\0\x01abx";
    b"[{..", b"more", OK, b"\x80\0\0\x01\x50\0\0\x04\x40\0\0\0";
    b"{n.", b"", OUT_OF_ORDER, b"";
    b"?", b"", OUT_OF_ORDER, b"";
    b"s", b"", OUT_OF_ORDER, b"";
    b"s", b"\xc3\xa9", OUT_OF_ORDER, b"";
    b"s", b"\xff", NOT_UTF8, b"";
};

#[test]
fn documents_of_lists(rt: HostRuntime) {
    for list in &LISTS {
        let is_so = matches!(makes(rt.alloc(), list, false), Ok(true));
        expect(&rt, is_so, list.0);
        let is_so = matches!(makes(rt.alloc(), list, true), Ok(true));
        expect(&rt, is_so, list.0);
    }
}

/// Lists with a duplicate key, and whether the last of its members is kept. The keys of an object are compared when it ends.
static DUPLICATES: [(List, bool); 3] = [
    ((b"{kskn.", b"axa", OBJECT_DUPLICATE_KEY, b""), false),
    (
        (b"{kskn.", b"axa", OK, b"\x40\0\0\x01\x10\0\0\x01\0\0\0\0a"),
        true,
    ),
    ((b"{knknn.", b"aa", OUT_OF_ORDER, b""), false),
];

#[test]
fn a_list_with_a_duplicate_key(rt: HostRuntime) {
    for (list, keep_last) in &DUPLICATES {
        let is_so = matches!(makes(rt.alloc(), list, *keep_last), Ok(true));
        expect(&rt, is_so, (list.0, *keep_last));
    }
}

/// Paths, and what each call returns for the items of `MIXED`.
static ITEMS: [(&[u8], &[(u32, (usize, usize, u8, u8))]); 5] = rows! {
    b"$[*].k", &[(OK, (31, 1, 4, 1)), (NONE, (9, 9, 9, 9))];
    b"$[*]", &[(OK, (16, 0, 1, 3)), (OK, (16, 2, 2, 2)), (OK, (18, 14, 11, 5)), (NONE, (9, 9, 9, 9))];
    b"$[2].k", &[(OK, (31, 1, 4, 1)), (NONE, (9, 9, 9, 9))];
    b"$[9]", &[(NONE, (9, 9, 9, 9))];
    b"$[1] + 1", &[(COMPUTED, (9, 9, 9, 9)), (COMPUTED, (9, 9, 9, 9))];
};

/// Returns the items that a path selects of `MIXED`, and the status.
fn items_of(alloc: Global, text: &[u8]) -> (PathHandle, u32) {
    let mut path = PathHandle::none();
    let mut items = PathHandle::none();
    let mut status = jdoc_path_read(alloc, text, &mut path);
    if status == OK {
        status = jdoc_path_items(alloc, &mut path, MIXED, false, &mut items);
    }
    jdoc_path_free(alloc, &mut path);
    (items, status)
}

/// Returns whether each call in turn has this status and stores this span.
fn are_next(
    alloc: Global,
    items: &mut PathHandle,
    calls: &[(u32, (usize, usize, u8, u8))],
) -> bool {
    for wanted in calls {
        let mut span = UNTOUCHED;
        let status = jdoc_items_find_next(alloc, items, MIXED, &mut span);
        if (status, parts(span)) != *wanted {
            return false;
        }
    }
    true
}

/// Returns whether these calls are those for the items of a path, and none returns an item after they are freed.
fn has_items(alloc: Global, text: &[u8], calls: &[(u32, (usize, usize, u8, u8))]) -> bool {
    let (mut items, status) = items_of(alloc, text);
    let is_so = status == OK && are_next(alloc, &mut items, calls);
    jdoc_items_free(alloc, &mut items);
    is_so && are_next(alloc, &mut items, &[(NO_PATH, (9, 9, 9, 9))])
}

#[test]
fn spans_of_items(rt: HostRuntime) {
    for (text, calls) in &ITEMS {
        expect(&rt, has_items(rt.alloc(), text, calls), *text);
    }
}

#[test]
fn a_computed_item_is_copied(rt: HostRuntime) {
    let alloc = rt.alloc();
    let (mut items, status) = items_of(alloc, b"$[1] + 1");
    let is_computed = are_next(alloc, &mut items, &[(COMPUTED, (9, 9, 9, 9))]);
    let is_copied = copies(alloc, &mut items, OK, b"\x20\0\0\0\x20\0\0\x02\x50\x0b");
    jdoc_items_free(alloc, &mut items);
    assert!(rt; status == OK && is_computed && is_copied);
}

/// Returns whether a copy of the next item has this status and these bytes.
fn copies(alloc: Global, items: &mut PathHandle, wanted: u32, document: &[u8]) -> bool {
    let mut a = Answer::new();
    let status = jdoc_items_next(alloc, items, MIXED, &mut a.out, &mut a.len);
    status == wanted && a.is(document)
}

#[test]
fn items_are_copied_in_order(rt: HostRuntime) {
    let alloc = rt.alloc();
    let (mut items, _status) = items_of(alloc, b"$[*]");
    let first = copies(alloc, &mut items, OK, b"\x20\0\0\0\x30\0\0\0");
    let second = copies(alloc, &mut items, OK, b"\x20\0\0\0\x20\0\0\x02\x50\x0a");
    jdoc_items_free(alloc, &mut items);
    expect(&rt, (first, second) == (true, true), (first, second));
    expect(&rt, copies(alloc, &mut items, NO_PATH, b""), "freed");
}
