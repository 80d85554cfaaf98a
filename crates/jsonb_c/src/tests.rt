//! Worked rows of the calls that make documents and read them apart.

use self::Wanted::Bytes;
use crate::build::object::jdoc_object_from_columns;
use crate::build::{
    jdoc_array_from_column, jdoc_from_bool, jdoc_from_decimal, jdoc_from_i64, jdoc_from_null,
    jdoc_from_str, jdoc_from_u64,
};
use crate::cursor::{jdoc_cursor_next, jdoc_cursor_open};
use crate::document::compare::jdoc_compare;
use crate::document::decimal::jdoc_as_decimal;
use crate::leaves::{LeafSizes, jdoc_leaves};
use crate::read::{jdoc_len, jdoc_pair};
use crate::span::child::{jdoc_find_by_index, jdoc_find_by_name, jdoc_find_str};
use crate::span::document::jdoc_span_document;
use crate::span::first::jdoc_find_first;
use crate::span::{Span, jdoc_find_by_keypath};
use crate::status::Status;
use crate::status_name::jdoc_status_name;
use crate::version::jdoc_version;
use jsonb::{ChildPositions, EntryPositions, Error};
use std::alloc::Global;
use std::fmt::Debug;
use std::process::Abort;

/// Makes a call that stores one value, and asserts its status and the value, which is 9 before the call.
macro_rules! assert_stores {
    ($rt:ident; $call:ident($($word:expr),*), $status:expr, $value:expr) => {{
        let mut value = 9;
        let status = $call($($word,)* &mut value);
        assert!($rt; (status, value) == ($status, $value));
    }};
}

mod documents;
mod handles;
mod paths;

const OK: u32 = 0;

const NONE: u32 = 1;

const BUFFER_TOO_SMALL: u32 = 2;

const BAD_OFFSETS: u32 = 3;

const NOT_UTF8: u32 = 4;

const NO_PATH: u32 = 5;

const COMPUTED: u32 = 6;

const INVALID_JSONB: u32 = 16;

const UNSUPPORTED_NUMBER: u32 = 17;

const INVALID_JSON_PATH: u32 = 18;

const INVALID_KEY_PATH: u32 = 19;

const OBJECT_DUPLICATE_KEY: u32 = 23;

const STRICT_PATH: u32 = 27;

/// Fails with the row of a table, unless it is as expected.
pub(crate) fn expect<T: Debug + Copy>(rt: &impl Abort, is_so: bool, row: T) {
    assert!(*rt; is_so, "{row:?}");
}

/// What a call writes.
#[derive(Clone, Copy)]
enum Wanted {
    Bytes(&'static [u8]),
    Number(u8),
}

/// A caller's buffer and its length, and a number.
#[derive(Clone, Copy)]
struct Answer {
    out: [u8; 32],
    len: usize,
    number: u8,
}

impl Answer {
    fn new() -> Answer {
        Answer {
            out: [9; 32],
            len: 99,
            number: 9,
        }
    }

    /// Returns whether these bytes were delivered, and what follows them is unchanged.
    fn is(&self, wanted: &[u8]) -> bool {
        self.out.starts_with(wanted)
            && self.len == wanted.len()
            && self.out.iter().skip(wanted.len()).all(|byte| *byte == 9)
    }

    /// Returns whether these bytes were delivered and no number, or this number and no bytes.
    fn has(&self, wanted: Wanted) -> bool {
        match wanted {
            Wanted::Bytes(bytes) => self.is(bytes) && self.number == 9,
            Wanted::Number(number) => {
                self.number == number && self.len == 99 && self.out == [9; 32]
            }
        }
    }
}

/// A call of a table, with its arguments.
trait Call {
    /// Makes the call, which delivers bytes or stores a number, and returns its status.
    fn make(&self, alloc: Global, out: &mut [u8], len: &mut usize, number: &mut u8) -> u32;
}

/// The text of a call, the call, its status, and what it writes.
type Row<C> = (&'static str, C, u32, Wanted);

/// Makes the call of each row, and asserts its status and what it wrote.
fn assert_each<C: Call>(rt: &impl Abort, alloc: Global, rows: &[Row<C>]) {
    for (text, call, status, wanted) in rows {
        let mut a = Answer::new();
        let made = call.make(alloc, &mut a.out, &mut a.len, &mut a.number);
        expect(rt, made == *status && a.has(*wanted), *text);
    }
}

/// A call that returns a new document, or the name of a status.
enum New {
    Null,
    Bool(bool),
    I64(i64),
    U64(u64),
    Decimal(i64, u64, u8),
    Str(&'static [u8]),
    /// The array of the elements that end there in `NULL_AND_ONE`.
    Array(&'static [u64]),
    /// The object of these names, where they end, and the values `ONE_AND_NULL`.
    Object(&'static [u8], &'static [u64]),
    StatusName(u32),
    /// The value in `MIXED` at this position, of this length and entry type.
    At(usize, usize, u8),
}

impl Call for New {
    fn make(&self, alloc: Global, out: &mut [u8], len: &mut usize, _: &mut u8) -> u32 {
        match *self {
            New::Null => jdoc_from_null(alloc, out, len),
            New::Bool(value) => jdoc_from_bool(alloc, value, out, len),
            New::I64(value) => jdoc_from_i64(alloc, value, out, len),
            New::U64(value) => jdoc_from_u64(alloc, value, out, len),
            New::Decimal(high, low, scale) => jdoc_from_decimal(alloc, high, low, scale, out, len),
            New::Str(text) => jdoc_from_str(alloc, text, out, len),
            New::Array(ends) => jdoc_array_from_column(alloc, NULL_AND_ONE, ends, out, len),
            New::Object(names, ends) => {
                jdoc_object_from_columns(alloc, names, ends, ONE_AND_NULL, &[0, 10, 18], out, len)
            }
            New::StatusName(status) => jdoc_status_name(status, out, len),
            New::At(at, length, entry) => {
                jdoc_span_document(MIXED, &span_of_type(at, length, entry), out, len)
            }
        }
    }
}

static VALUES: [Row<New>; 8] = calls! {
    New::Null, OK, Bytes(b"\x20\0\0\0\0\0\0\0");
    New::Bool(true), OK, Bytes(b"\x20\0\0\0\x40\0\0\0");
    New::I64(-100), OK, Bytes(b"\x20\0\0\0\x20\0\0\x02\x40\x9c");
    New::U64(1), OK, Bytes(b"\x20\0\0\0\x20\0\0\x02\x50\x01");
    New::Decimal(0, 1234, 2), OK, Bytes(b"\x20\0\0\0\x20\0\0\x0a\x70\0\0\0\0\0\0\x04\xd2\x02");
    New::Decimal(1, 0, 0), OK, Bytes(b"\x20\0\0\0\x20\0\0\x12\x70\0\0\0\0\0\0\0\x01\0\0\0\0\0\0\0\0\0");
    New::Str(b"adf"), OK, Bytes(b"\x20\0\0\0\x10\0\0\x03adf");
    New::Str(b"\xff"), NOT_UTF8, Bytes(b"");
};

#[test]
fn values(rt: HostRuntime) {
    assert_each(&rt, rt.alloc(), &VALUES);
}

#[test]
fn a_buffer_without_more_space(rt: HostRuntime) {
    let mut out = [9; 8];
    let mut len = 9;
    let status = jdoc_from_null(rt.alloc(), &mut out, &mut len);
    assert!(rt; (status, len) == (OK, 8) && out == *b"\x20\0\0\0\0\0\0\0");
}

static NAMES: [Row<New>; 1] = calls! {
    New::StatusName(48), OK, Bytes(b"JDOC_OVERFLOW");
};

#[test]
fn numbers_and_names_of_statuses(rt: HostRuntime) {
    assert!(rt; Status::Refused(Error::TooLarge).to_u32() == 24);
    assert_each(&rt, rt.alloc(), &NAMES);
    assert!(rt; jdoc_version() == 1_000);
}

/// null and 1
static NULL_AND_ONE: &[u8] = b"\x20\0\0\0\0\0\0\0\x20\0\0\0\x20\0\0\x02\x50\x01";

static ARRAYS: [Row<New>; 2] = calls! {
    New::Array(&[0, 8, 18]), OK, Bytes(b"\x80\0\0\x02\0\0\0\0\x20\0\0\x02\x50\x01");
    New::Array(&[0, 8, 19]), BAD_OFFSETS, Bytes(b"");
};

#[test]
fn arrays(rt: HostRuntime) {
    assert_each(&rt, rt.alloc(), &ARRAYS);
}

/// Documents, the status, and the high half of the whole value, the low half and the scale.
static DECIMALS: [(&[u8], u32, (i64, u64, u8)); 4] = rows! {
    b"\x20\0\0\0\x20\0\0\x0a\x70\0\0\0\0\0\0\x04\xd2\x02", OK, (0, 1234, 2);
    b"\x20\0\0\0\x20\0\0\x0a\x70\xff\xff\xff\xff\xff\xff\xff\xfb\x03", OK, (-1, 18_446_744_073_709_551_611, 3);
    b"\x20\0\0\0\x20\0\0\x02\x40\x9c", OK, (-1, 18_446_744_073_709_551_516, 0);
    b"\x20\0\0\0\x10\0\0\x017", NONE, (9, 9, 9);
};

#[test]
fn decimals(rt: HostRuntime) {
    for (document, wanted, parts) in &DECIMALS {
        let mut high = 9;
        let mut low = 9;
        let mut scale = 9;
        let status = jdoc_as_decimal(document, &mut high, &mut low, &mut scale);
        let is_so = status == *wanted && (high, low, scale) == *parts;
        expect(&rt, is_so, *document);
    }
}

/// Two documents, and their order: true and 1, 1 and 1.0, `"b"` and `"ab"`, `[[1,2],3]` and `[[1,2,0]]`, `{"a":1}` and
/// `{"a":1,"b":null}`, null and `{"a":1}`, and bytes that are not a document.
static ORDERS: [(&[u8], &[u8], u32, i32); 7] = rows! {
    b"\x20\0\0\0\x40\0\0\0", b"\x20\0\0\0\x20\0\0\x02\x50\x01", OK, -1;
    b"\x20\0\0\0\x20\0\0\x02\x50\x01", b"\x20\0\0\0\x20\0\0\x0a\x70\0\0\0\0\0\0\0\x0a\x01", OK, 0;
    b"\x20\0\0\0\x10\0\0\x01b", b"\x20\0\0\0\x10\0\0\x02ab", OK, 1;
    b"\x80\0\0\x02\x50\0\0\x10\x20\0\0\x02\x80\0\0\x02\x20\0\0\x02\x20\0\0\x02\x50\x01\x50\x02\x50\x03",
    b"\x80\0\0\x01\x50\0\0\x15\x80\0\0\x03\x20\0\0\x02\x20\0\0\x02\x20\0\0\x01\x50\x01\x50\x02\0", OK, -1;
    b"\x40\0\0\x01\x10\0\0\x01\x20\0\0\x02a\x50\x01",
    b"\x40\0\0\x02\x10\0\0\x01\x10\0\0\x01\x20\0\0\x02\0\0\0\0ab\x50\x01", OK, -1;
    b"\x20\0\0\0\0\0\0\0", b"\x40\0\0\x01\x10\0\0\x01\x20\0\0\x02a\x50\x01", OK, 1;
    b"\x20\0\0\0\0\0\0\0", b"", INVALID_JSONB, 9;
};

#[test]
fn orders(rt: HostRuntime) {
    for (document, other, wanted, order) in &ORDERS {
        let mut found = 9;
        let status = jdoc_compare(document, other, &mut found);
        expect(&rt, status == *wanted && found == *order, *document);
    }
}

/// `{"a":1,"b":null}`
static OBJECT: &[u8] = b"\x40\0\0\x02\x10\0\0\x01\x10\0\0\x01\x20\0\0\x02\0\0\0\0ab\x50\x01";

#[test]
fn counts(rt: HostRuntime) {
    let mut len = 9;
    assert!(rt; jdoc_len(OBJECT, &mut len) == OK && len == 2);
    assert!(rt; jdoc_len(b"\x20\0\0\0\0\0\0\0", &mut len) == NONE);
}

/// Places of pairs in the object, the status, the key and the value.
static PAIRS: [(usize, u32, &[u8], &[u8]); 3] = rows! {
    0, OK, b"a", b"\x20\0\0\0\x20\0\0\x02\x50\x01";
    1, OK, b"b", b"\x20\0\0\0\0\0\0\0";
    2, NONE, b"", b"";
};

#[test]
fn pairs(rt: HostRuntime) {
    for (index, wanted, name, document) in &PAIRS {
        let mut key = Answer::new();
        let mut value = Answer::new();
        let status = jdoc_pair(
            rt.alloc(),
            OBJECT,
            *index,
            &mut key.out,
            &mut key.len,
            &mut value.out,
            &mut value.len,
        );
        let is_so = status == *wanted && key.is(name) && value.is(document);
        expect(&rt, is_so, *index);
    }
}

#[test]
fn a_pair_without_room(rt: HostRuntime) {
    let mut key_len = 9;
    let mut value = Answer::new();
    let status = jdoc_pair(
        rt.alloc(),
        OBJECT,
        0,
        &mut [],
        &mut key_len,
        &mut value.out,
        &mut value.len,
    );
    assert!(rt; (status, key_len, value.len) == (BUFFER_TOO_SMALL, 1, 10));
}

/// 1 and null
static ONE_AND_NULL: &[u8] = b"\x20\0\0\0\x20\0\0\x02\x50\x01\x20\0\0\0\0\0\0\0";

static OBJECTS: [Row<New>; 5] = calls! {
    New::Object(b"ba", &[0, 1, 2]), OK,
        Bytes(b"\x40\0\0\x02\x10\0\0\x01\x10\0\0\x01\0\0\0\0\x20\0\0\x02ab\x50\x01");
    New::Object(b"aa", &[0, 1, 2]), OBJECT_DUPLICATE_KEY, Bytes(b"");
    New::Object(b"a\xff", &[0, 1, 2]), NOT_UTF8, Bytes(b"");
    New::Object(b"ab", &[0, 1, 3]), BAD_OFFSETS, Bytes(b"");
    New::Object(b"ab", &[0, 1]), BAD_OFFSETS, Bytes(b"");
};

#[test]
fn objects_of_columns(rt: HostRuntime) {
    assert_each(&rt, rt.alloc(), &OBJECTS);
}

/// `{"a b":[1]}`
static ONE_LEAF: &[u8] = b"\x40\0\0\x01\x10\0\0\x03\x50\0\0\x0aa b\x80\0\0\x01\x20\0\0\x02\x50\x01";

/// A caller's buffers for leaves, except for the documents' offsets.
#[derive(Clone, Copy)]
struct LeafBuffers {
    paths: Answer,
    path_positions: [u64; 3],
    documents: Answer,
    rows: usize,
}

/// Returns the leaf, and the status.
fn leaf(alloc: Global, positions: &mut [u64]) -> (LeafBuffers, u32) {
    let mut paths = Answer::new();
    let mut documents = Answer::new();
    let mut path_positions = [9; 3];
    let mut sizes = LeafSizes {
        rows: 9,
        path_bytes: 9,
        document_bytes: 9,
    };
    let status = jdoc_leaves(
        alloc,
        ONE_LEAF,
        &mut paths.out,
        &mut path_positions,
        &mut documents.out,
        positions,
        &mut sizes,
    );
    paths.len = sizes.path_bytes;
    documents.len = sizes.document_bytes;
    let leaves = LeafBuffers {
        paths,
        path_positions,
        documents,
        rows: sizes.rows,
    };
    (leaves, status)
}

#[test]
fn leaves(rt: HostRuntime) {
    let mut positions = [9; 2];
    let (found, status) = leaf(rt.alloc(), &mut positions);
    assert!(rt; (status, found.rows, positions) == (OK, 1, [0, 10]));
    assert!(rt; found.paths.is(b"{\"a b\",0}") && found.path_positions == [0, 9, 9]);
    assert!(rt; found.documents.is(b"\x20\0\0\0\x20\0\0\x02\x50\x01"));
    let mut untouched = [9; 1];
    let (found, status) = leaf(rt.alloc(), &mut untouched);
    assert!(rt; (status, found.rows, untouched) == (BUFFER_TOO_SMALL, 1, [9]));
}

/// `[false,10,{"k":"v"}]`
const MIXED: &[u8] =
    b"\x80\0\0\x03\x30\0\0\0\x20\0\0\x02\x50\0\0\x0e\x50\x0a\x40\0\0\x01\x10\0\0\x01\x10\0\0\x01kv";

/// `[10,20,30]`
const TENS: &[u8] = b"\x80\0\0\x03\x20\0\0\x02\x20\0\0\x02\x20\0\0\x02\x50\x0a\x50\x14\x50\x1e";

/// `{"a":null,"b":[null]}`
const NULLS: &[u8] =
    b"\x40\0\0\x02\x10\0\0\x01\x10\0\0\x01\0\0\0\0\x50\0\0\x08ab\x80\0\0\x01\0\0\0\0";

/// Key paths, the status, and the position, length, type and entry type of what they locate in `MIXED`.
static SPANS: [(&[u8], u32, (usize, usize, u8, u8)); 7] = rows! {
    b"{2,k}", OK, (31, 1, 4, 1);
    b"{1}", OK, (16, 2, 2, 2);
    b"{0}", OK, (16, 0, 1, 3);
    b"{-1}", OK, (18, 14, 11, 5);
    b"{}", OK, (0, 32, 10, 5);
    b"{3}", NONE, (9, 9, 9, 9);
    b"{", INVALID_KEY_PATH, (9, 9, 9, 9);
};

/// A span that no call stores.
const UNTOUCHED: Span = Span {
    at: 9,
    len: 9,
    kind: 9,
    entry: 9,
};

/// Returns the members of a span.
fn parts(span: Span) -> (usize, usize, u8, u8) {
    (span.at, span.len, span.kind, span.entry)
}

#[test]
fn spans(rt: HostRuntime) {
    for (path, wanted, found) in &SPANS {
        let mut span = UNTOUCHED;
        let status = jdoc_find_by_keypath(rt.alloc(), MIXED, path, &mut span);
        expect(&rt, (status, parts(span)) == (*wanted, *found), *path);
    }
}

static VALUES_AT: [Row<New>; 9] = calls! {
    New::At(31, 1, 1), OK, Bytes(b"\x20\0\0\0\x10\0\0\x01v");
    New::At(16, 2, 2), OK, Bytes(b"\x20\0\0\0\x20\0\0\x02\x50\x0a");
    New::At(16, 0, 3), OK, Bytes(b"\x20\0\0\0\x30\0\0\0");
    New::At(18, 14, 5), OK, Bytes(b"\x40\0\0\x01\x10\0\0\x01\x10\0\0\x01kv");
    New::At(32, 0, 0), OK, Bytes(b"\x20\0\0\0\0\0\0\0");
    New::At(31, 2, 1), INVALID_JSONB, Bytes(b"");
    New::At(18_446_744_073_709_551_615, 2, 1), INVALID_JSONB, Bytes(b"");
    New::At(31, 1, 7), INVALID_JSONB, Bytes(b"");
    New::At(31, 1, 8), INVALID_JSONB, Bytes(b"");
};

#[test]
fn values_at_spans(rt: HostRuntime) {
    assert_each(&rt, rt.alloc(), &VALUES_AT);
}

#[test]
fn a_value_without_room(rt: HostRuntime) {
    let mut out = [9; 8];
    let mut len = 99;
    let status = jdoc_span_document(MIXED, &span_of_type(31, 1, 1), &mut out, &mut len);
    assert!(rt; (status, len, out) == (BUFFER_TOO_SMALL, 9, [9; 8]));
}

/// Returns a span with an entry of this type.
fn span_of_type(at: usize, len: usize, entry: u8) -> Span {
    Span {
        at,
        len,
        kind: 9,
        entry,
    }
}

/// `{"asd":"adf"}`
const ASD: &[u8] = b"\x40\0\0\x01\x10\0\0\x03\x10\0\0\x03asdadf";

/// `"adf"`
const ADF: &[u8] = b"\x20\0\0\0\x10\0\0\x03adf";

/// A float
const FLOAT: &[u8] = b"\x20\0\0\0\x20\0\0\x01\x60";

/// Documents, the status, and the span of the string.
static STRINGS: [(&[u8], u32, (usize, usize, u8, u8)); 5] = rows! {
    ADF, OK, (8, 3, 4, 1);
    ASD, NONE, (9, 9, 9, 9);
    b"\x20\0\0\0\0\0\0\0", NONE, (9, 9, 9, 9);
    b"\x20\0\0\0\x10\0\0\x01\xff", INVALID_JSONB, (9, 9, 9, 9);
    FLOAT, UNSUPPORTED_NUMBER, (9, 9, 9, 9);
};

#[test]
fn spans_of_strings(rt: HostRuntime) {
    for (document, wanted, found) in &STRINGS {
        let mut span = UNTOUCHED;
        let status = jdoc_find_str(document, &mut span);
        expect(&rt, (status, parts(span)) == (*wanted, *found), *document);
    }
}

/// Documents, indexes, the status, and the span of the element.
static ELEMENTS: [(&[u8], usize, u32, (usize, usize, u8, u8)); 6] = rows! {
    MIXED, 0, OK, (16, 0, 1, 3);
    MIXED, 2, OK, (18, 14, 11, 5);
    MIXED, 3, NONE, (9, 9, 9, 9);
    MIXED, usize::MAX, NONE, (9, 9, 9, 9);
    ASD, 0, NONE, (9, 9, 9, 9);
    b"\x80\0\0\x01", 0, INVALID_JSONB, (9, 9, 9, 9);
};

#[test]
fn spans_of_elements(rt: HostRuntime) {
    for (document, index, wanted, found) in &ELEMENTS {
        let mut span = UNTOUCHED;
        let status = jdoc_find_by_index(document, *index, &mut span);
        let is_so = (status, parts(span)) == (*wanted, *found);
        expect(&rt, is_so, (*index, *document));
    }
}

/// Documents, names, whether case is ignored, the status, and the span of the value.
static NAMED: [(&[u8], &[u8], bool, u32, (usize, usize, u8, u8)); 6] = rows! {
    ASD, b"asd", false, OK, (15, 3, 4, 1);
    ASD, b"ASD", false, NONE, (9, 9, 9, 9);
    ASD, b"ASD", true, OK, (15, 3, 4, 1);
    ASD, b"as", true, NONE, (9, 9, 9, 9);
    MIXED, b"k", false, NONE, (9, 9, 9, 9);
    ASD, b"\xff", false, NOT_UTF8, (9, 9, 9, 9);
};

#[test]
fn spans_of_named_values(rt: HostRuntime) {
    for (document, name, ignore_case, wanted, found) in &NAMED {
        let mut span = UNTOUCHED;
        let status = jdoc_find_by_name(document, name, *ignore_case, &mut span);
        let is_so = (status, parts(span)) == (*wanted, *found);
        expect(&rt, is_so, (*name, *document));
    }
}

/// A cursor with the same number everywhere.
fn cursor_of(number: usize) -> ChildPositions {
    let entries = EntryPositions {
        word: number,
        content: number,
        end: number,
    };
    ChildPositions {
        left: number,
        keys: entries,
        values: entries,
    }
}

/// The spans of a key and of its value, or those that no call stores.
type KeyAndValue = ((usize, usize, u8, u8), (usize, usize, u8, u8));

/// Documents, and their children in order.
static CHILDREN: [(&[u8], &[KeyAndValue]); 4] = rows! {
    ASD, &[((12, 3, 4, 1), (15, 3, 4, 1))];
    MIXED, &[
        ((9, 9, 9, 9), (16, 0, 1, 3)), ((9, 9, 9, 9), (16, 2, 2, 2)), ((9, 9, 9, 9), (18, 14, 11, 5)),
    ];
    // {"a":null,"b":[null]}
    b"\x40\0\0\x02\x10\0\0\x01\x10\0\0\x01\0\0\0\0\x50\0\0\x08ab\x80\0\0\x01\0\0\0\0",
        &[((20, 1, 4, 1), (22, 0, 0, 0)), ((21, 1, 4, 1), (22, 8, 10, 5))];
    b"\x80\0\0\0", &[];
};

/// Returns whether the next call delivers this child.
fn delivers(document: &[u8], cursor: &mut ChildPositions, wanted: &KeyAndValue) -> bool {
    let mut key = UNTOUCHED;
    let mut value = UNTOUCHED;
    let status = jdoc_cursor_next(document, cursor, &mut key, &mut value);
    let (name, item) = *wanted;
    status == OK && parts(key) == name && parts(value) == item
}

/// Returns whether the next call has this status, and stores nothing.
fn delivers_nothing(document: &[u8], cursor: &mut ChildPositions, wanted: u32) -> bool {
    let mut key = UNTOUCHED;
    let mut value = UNTOUCHED;
    let left = cursor.left;
    let status = jdoc_cursor_next(document, cursor, &mut key, &mut value);
    status == wanted && cursor.left == left && parts(key) == parts(value) && value.at == 9
}

/// Returns whether the next calls deliver these children.
fn delivers_all(document: &[u8], cursor: &mut ChildPositions, children: &[KeyAndValue]) -> bool {
    for child in children {
        if !delivers(document, cursor, child) {
            return false;
        }
    }
    true
}

/// Returns whether a cursor opens and delivers these children, and no more.
fn has_children(document: &[u8], children: &[KeyAndValue]) -> bool {
    let mut cursor = cursor_of(7);
    jdoc_cursor_open(document, &mut cursor) == OK
        && delivers_all(document, &mut cursor, children)
        && delivers_nothing(document, &mut cursor, NONE)
}

#[test]
fn cursors(rt: HostRuntime) {
    for (document, children) in &CHILDREN {
        expect(&rt, has_children(document, children), *document);
    }
}

/// Documents that have no cursor, and the status.
static CLOSED: [(&[u8], u32); 3] = rows! {
    ADF, NONE;
    b"", INVALID_JSONB;
    b"\x40\0\0\x01\x10\0\0\x09\x10\0\0\x03asdadf", INVALID_JSONB;
};

#[test]
fn cursors_that_do_not_open(rt: HostRuntime) {
    for (document, wanted) in &CLOSED {
        let mut cursor = cursor_of(7);
        let status = jdoc_cursor_open(document, &mut cursor);
        let is_so = status == *wanted && cursor.left == 7 && cursor.values.end == 7;
        expect(&rt, is_so, *document);
    }
}

#[test]
fn cursors_of_any_numbers(rt: HostRuntime) {
    for number in [1, 16, 1 << 29, usize::MAX] {
        let is_so = delivers_nothing(MIXED, &mut cursor_of(number), INVALID_JSONB);
        expect(&rt, is_so, number);
    }
}

/// Paths, the status in lax and in strict mode, and the span of the first item of `MIXED` in lax mode.
static FIRST: [(&[u8], u32, u32, (usize, usize, u8, u8)); 5] = rows! {
    b"$[*].k", OK, STRICT_PATH, (31, 1, 4, 1);
    b"$[9]", NONE, NONE, (9, 9, 9, 9);
    b"$[1] + 1", COMPUTED, COMPUTED, (9, 9, 9, 9);
    b"$[1] == 1", COMPUTED, COMPUTED, (9, 9, 9, 9);
    b"$[", INVALID_JSON_PATH, INVALID_JSON_PATH, (9, 9, 9, 9);
};

#[test]
fn spans_of_first_items(rt: HostRuntime) {
    for (path, lax, strict, found) in &FIRST {
        let mut span = UNTOUCHED;
        let status = jdoc_find_first(rt.alloc(), MIXED, path, false, &mut span);
        expect(&rt, (status, parts(span)) == (*lax, *found), *path);
        let status = jdoc_find_first(rt.alloc(), MIXED, path, true, &mut span);
        expect(&rt, status == *strict, ("strict", *path));
    }
}
