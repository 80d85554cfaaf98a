//! Worked rows of the calls that take a path, as text or prepared.

use super::Wanted::{Bytes, Number};
use super::{
    Answer, Call, INVALID_JSON_PATH, INVALID_JSONB, MIXED, NO_PATH, NULLS, OK, Row, STRICT_PATH,
    TENS, UNTOUCHED, Wanted, assert_each, expect, parts,
};
use crate::document::select::{
    jdoc_exists, jdoc_match, jdoc_select_array, jdoc_select_first, jdoc_select_value,
};
use crate::items::{jdoc_items_free, jdoc_path_items};
use crate::keypath::{
    jdoc_keypath_delete, jdoc_keypath_error_position, jdoc_keypath_free, jdoc_keypath_get,
    jdoc_keypath_read,
};
use crate::limit::{jdoc_path_limit, jdoc_path_most_items};
use crate::path::{
    jdoc_path_error_position, jdoc_path_exists, jdoc_path_free, jdoc_path_match, jdoc_path_read,
    jdoc_path_select_array, jdoc_path_select_first, jdoc_path_select_value,
};
use crate::prepared::{PathHandle, PreparedPath, parsing};
use crate::span::first::jdoc_path_find_first;
use crate::span::jdoc_keypath_find;
use jsonb::KeyPath;
use std::alloc::Global;
use std::process::Abort;

const LIMIT_EXCEEDED: u32 = 29;

const OVERFLOW: u32 = 48;

/// 10
const TEN: &[u8] = b"\x20\0\0\0\x20\0\0\x02\x50\x0a";

/// `"v"`
const V: &[u8] = b"\x20\0\0\0\x10\0\0\x01v";

/// `[18446744073709551615]`
const GREATEST: &[u8] = b"\x80\0\0\x01\x20\0\0\x09\x50\xff\xff\xff\xff\xff\xff\xff\xff";

/// What a call that stores nothing leaves.
const NOTHING: Wanted = Number(9);

/// A call on a document with the text of a path, in strict mode or not.
enum ByText {
    First(&'static [u8], &'static [u8], bool),
    Value(&'static [u8], &'static [u8], bool),
    Array(&'static [u8], &'static [u8], bool),
    Exists(&'static [u8], &'static [u8], bool),
    Match(&'static [u8], &'static [u8], bool),
}

impl Call for ByText {
    fn make(&self, alloc: Global, out: &mut [u8], len: &mut usize, truth: &mut u8) -> u32 {
        match *self {
            ByText::First(document, path, strict) => {
                jdoc_select_first(alloc, document, path, strict, out, len)
            }
            ByText::Value(document, path, strict) => {
                jdoc_select_value(alloc, document, path, strict, out, len)
            }
            ByText::Array(document, path, strict) => {
                jdoc_select_array(alloc, document, path, strict, out, len)
            }
            ByText::Exists(document, path, strict) => {
                jdoc_exists(alloc, document, path, strict, truth)
            }
            ByText::Match(document, path, strict) => {
                jdoc_match(alloc, document, path, strict, truth)
            }
        }
    }
}

static BY_TEXT: [Row<ByText>; 9] = calls! {
    ByText::First(TENS, b"$[*]", false), OK, Bytes(TEN);
    ByText::Value(MIXED, b"$[*].k", false), OK, Bytes(V);
    ByText::Value(TENS, b"$[*]", false), OK, Bytes(TENS);
    ByText::Value(GREATEST, b"-$[*]", false), OVERFLOW, Bytes(b"");
    ByText::Value(TENS, b"$[1,]", false), INVALID_JSON_PATH, Bytes(b"");
    ByText::Array(TENS, b"$[0]", false), OK, Bytes(b"\x80\0\0\x01\x20\0\0\x02\x50\x0a");
    ByText::Array(MIXED, b"$[*].k", true), STRICT_PATH, Bytes(b"");
    ByText::Exists(MIXED, b"$[*].k", false), OK, Number(1);
    ByText::Match(NULLS, b"exists($.c)", true), STRICT_PATH, NOTHING;
};

#[test]
fn items_of_paths(rt: HostRuntime) {
    assert_each(&rt, rt.alloc(), &BY_TEXT);
}

/// A call on a struct with a prepared path.
trait Step {
    /// Makes the call, which delivers bytes, stores a number or does neither, and returns its status.
    fn take(
        &self,
        alloc: Global,
        path: &mut PathHandle,
        out: &mut [u8],
        len: &mut usize,
        number: &mut u8,
    ) -> u32;
}

/// Makes the calls of the rows in order, and asserts the status of each and what it wrote.
fn assert_steps<S: Step>(rt: &impl Abort, alloc: Global, path: &mut PathHandle, rows: &[Row<S>]) {
    for (text, step, status, wanted) in rows {
        let mut a = Answer::new();
        let made = step.take(alloc, path, &mut a.out, &mut a.len, &mut a.number);
        expect(rt, made == *status && a.has(*wanted), *text);
    }
}

/// A call with a prepared JSON path, on a document and in strict mode or not.
enum OnPath {
    Read(&'static [u8]),
    Free,
    Limit(u64),
    First(&'static [u8], bool),
    Value(&'static [u8], bool),
    Array(&'static [u8], bool),
    Exists(&'static [u8], bool),
    Match(&'static [u8], bool),
    MostItems(&'static [u8]),
}

/// Stores the bound of a path as a byte.
fn most_items(alloc: Global, path: &mut PathHandle, document: &[u8], number: &mut u8) -> u32 {
    let mut bound = 9;
    let status = jdoc_path_most_items(alloc, path, document, &mut bound);
    *number = u8::try_from(bound).unwrap_or(u8::MAX);
    status
}

impl Step for OnPath {
    fn take(
        &self,
        alloc: Global,
        path: &mut PathHandle,
        out: &mut [u8],
        len: &mut usize,
        number: &mut u8,
    ) -> u32 {
        match *self {
            OnPath::Read(text) => jdoc_path_read(alloc, text, path),
            OnPath::Free => {
                jdoc_path_free(alloc, path);
                OK
            }
            OnPath::Limit(limit) => jdoc_path_limit(alloc, path, limit),
            OnPath::First(on, strict) => jdoc_path_select_first(alloc, path, on, strict, out, len),
            OnPath::Value(on, strict) => jdoc_path_select_value(alloc, path, on, strict, out, len),
            OnPath::Array(on, strict) => jdoc_path_select_array(alloc, path, on, strict, out, len),
            OnPath::Exists(on, strict) => jdoc_path_exists(alloc, path, on, strict, number),
            OnPath::Match(on, strict) => jdoc_path_match(alloc, path, on, strict, number),
            OnPath::MostItems(document) => most_items(alloc, path, document, number),
        }
    }
}

static PREPARED: [Row<OnPath>; 6] = calls! {
    OnPath::Read(b"$[*]"), OK, NOTHING;
    OnPath::First(TENS, false), OK, Bytes(TEN);
    OnPath::Value(TENS, false), OK, Bytes(TENS);
    OnPath::Array(TENS, false), OK, Bytes(TENS);
    OnPath::Free, OK, NOTHING;
    OnPath::Exists(TENS, false), NO_PATH, NOTHING;
};

#[test]
fn items_of_prepared_paths(rt: HostRuntime) {
    assert_steps(&rt, rt.alloc(), &mut PathHandle::none(), &PREPARED);
}

static MODES: [Row<OnPath>; 6] = calls! {
    OnPath::Read(b"$[*].k"), OK, NOTHING;
    OnPath::Value(MIXED, false), OK, Bytes(V);
    OnPath::Array(MIXED, true), STRICT_PATH, Bytes(b"");
    OnPath::Exists(MIXED, false), OK, Number(1);
    OnPath::Exists(MIXED, true), STRICT_PATH, NOTHING;
    OnPath::Free, OK, NOTHING;
};

#[test]
fn modes_of_prepared_paths(rt: HostRuntime) {
    assert_steps(&rt, rt.alloc(), &mut PathHandle::none(), &MODES);
}

static PREDICATES: [Row<OnPath>; 4] = calls! {
    OnPath::Read(b"$[*] > 25"), OK, NOTHING;
    OnPath::Match(TENS, false), OK, Number(1);
    OnPath::Read(b"$."), INVALID_JSON_PATH, NOTHING;
    OnPath::Match(TENS, false), NO_PATH, NOTHING;
};

#[test]
fn prepared_predicates(rt: HostRuntime) {
    assert_steps(&rt, rt.alloc(), &mut PathHandle::none(), &PREDICATES);
}

static LOW_LIMIT: [Row<OnPath>; 8] = calls! {
    OnPath::Limit(5), NO_PATH, NOTHING;
    OnPath::Read(b"$[*]"), OK, NOTHING;
    OnPath::MostItems(TENS), OK, Number(6);
    OnPath::Limit(5), OK, NOTHING;
    OnPath::First(TENS, false), LIMIT_EXCEEDED, Bytes(b"");
    OnPath::Value(TENS, false), LIMIT_EXCEEDED, Bytes(b"");
    OnPath::Array(TENS, false), LIMIT_EXCEEDED, Bytes(b"");
    OnPath::Exists(TENS, false), LIMIT_EXCEEDED, NOTHING;
};

static HIGHER_LIMITS: [Row<OnPath>; 7] = calls! {
    OnPath::Limit(6), OK, NOTHING;
    OnPath::Array(TENS, false), OK, Bytes(TENS);
    OnPath::Limit(0), OK, NOTHING;
    OnPath::Match(TENS, false), OK, Number(2);
    OnPath::Limit(u64::MAX), OK, NOTHING;
    OnPath::Exists(TENS, false), OK, Number(1);
    OnPath::Free, OK, NOTHING;
};

#[test]
fn limits_of_prepared_paths(rt: HostRuntime) {
    let mut path = PathHandle::none();
    assert_steps(&rt, rt.alloc(), &mut path, &LOW_LIMIT);
    let mut items = PathHandle::none();
    let mut span = UNTOUCHED;
    let found = jdoc_path_find_first(rt.alloc(), &mut path, TENS, false, &mut span);
    let listed = jdoc_path_items(rt.alloc(), &mut path, TENS, false, &mut items);
    jdoc_items_free(rt.alloc(), &mut items);
    expect(
        &rt,
        (found, listed) == (LIMIT_EXCEEDED, LIMIT_EXCEEDED),
        "items",
    );
    assert_steps(&rt, rt.alloc(), &mut path, &HIGHER_LIMITS);
}

static LIMITED_PREDICATE: [Row<OnPath>; 9] = calls! {
    OnPath::Read(b"$[0] == 10"), OK, NOTHING;
    OnPath::Limit(13), OK, NOTHING;
    OnPath::Match(TENS, false), LIMIT_EXCEEDED, NOTHING;
    OnPath::Match(b"?", false), INVALID_JSONB, NOTHING;
    OnPath::Limit(14), OK, NOTHING;
    OnPath::Match(TENS, false), OK, Number(1);
    OnPath::Limit(0), OK, NOTHING;
    OnPath::Match(TENS, false), LIMIT_EXCEEDED, NOTHING;
    OnPath::Free, OK, NOTHING;
};

static KEY_PATH: [Row<OnKeys>; 1] = calls! {
    OnKeys::Read(b"{a}"), OK, NOTHING;
};

static NO_LIMIT: [Row<OnPath>; 2] = calls! {
    OnPath::Limit(14), NO_PATH, NOTHING;
    OnPath::MostItems(TENS), NO_PATH, NOTHING;
};

#[test]
fn limits_of_predicates(rt: HostRuntime) {
    let mut path = PathHandle::none();
    assert_steps(&rt, rt.alloc(), &mut path, &LIMITED_PREDICATE);
    assert_steps(&rt, rt.alloc(), &mut path, &KEY_PATH);
    assert_steps(&rt, rt.alloc(), &mut path, &NO_LIMIT);
    jdoc_keypath_free(rt.alloc(), &mut path);
}

/// A call with a prepared key path, on a document.
enum OnKeys {
    Read(&'static [u8]),
    Free,
    Get(&'static [u8]),
    Delete(&'static [u8]),
}

impl Step for OnKeys {
    fn take(
        &self,
        alloc: Global,
        path: &mut PathHandle,
        out: &mut [u8],
        len: &mut usize,
        _: &mut u8,
    ) -> u32 {
        match *self {
            OnKeys::Read(text) => jdoc_keypath_read(alloc, text, path),
            OnKeys::Free => {
                jdoc_keypath_free(alloc, path);
                OK
            }
            OnKeys::Get(document) => jdoc_keypath_get(alloc, path, document, out, len),
            OnKeys::Delete(document) => jdoc_keypath_delete(alloc, path, document, out, len),
        }
    }
}

static KEY_PATHS: [Row<OnKeys>; 5] = calls! {
    OnKeys::Read(b"{2,k}"), OK, NOTHING;
    OnKeys::Get(MIXED), OK, Bytes(V);
    OnKeys::Delete(MIXED), OK, Bytes(b"\x80\0\0\x03\x30\0\0\0\x20\0\0\x02\x50\0\0\x04\x50\x0a\x40\0\0\0");
    OnKeys::Free, OK, NOTHING;
    OnKeys::Get(MIXED), NO_PATH, Bytes(b"");
};

#[test]
fn prepared_key_paths(rt: HostRuntime) {
    assert_steps(&rt, rt.alloc(), &mut PathHandle::none(), &KEY_PATHS);
}

#[test]
fn a_quoted_step_is_kept_quoted(rt: HostRuntime) {
    let is_quoted = match parsing::parse_keys(rt.alloc(), b"{\"a\"}") {
        Ok(path) => match &*path {
            PreparedPath::Keys(steps) => {
                matches!(steps.paths.first(), Some(KeyPath::QuotedName(_)))
            }
            _ => false,
        },
        Err(_) => false,
    };
    assert!(rt; is_quoted);
}

#[test]
fn spans_by_prepared_paths(rt: HostRuntime) {
    let alloc = rt.alloc();
    let mut path = PathHandle::none();
    let mut span = UNTOUCHED;
    assert!(rt; jdoc_keypath_read(alloc, b"{2,k}", &mut path) == OK);
    let status = jdoc_keypath_find(alloc, &mut path, MIXED, &mut span);
    assert!(rt; status == OK && parts(span) == (31, 1, 4, 1));
    assert!(rt; jdoc_path_read(alloc, b"$[*].k", &mut path) == OK);
    let mut first = UNTOUCHED;
    let status = jdoc_path_find_first(alloc, &mut path, MIXED, false, &mut first);
    assert!(rt; status == OK && parts(first) == (31, 1, 4, 1));
    jdoc_path_free(alloc, &mut path);
}

#[test]
fn positions_of_errors(rt: HostRuntime) {
    let alloc = rt.alloc();
    assert_stores!(rt; jdoc_path_error_position(alloc, b"$.a["), OK, 3);
    assert_stores!(rt; jdoc_keypath_error_position(alloc, b"{a b}"), OK, 3);
}
