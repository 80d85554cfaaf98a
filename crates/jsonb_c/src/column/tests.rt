//! Example rows of the functions on columns: documents, a damaged one, and a row whose offsets decrease.

use super::casts::{jdoc_column_to_i64, jdoc_column_to_str};
use super::check::jdoc_column_check;
use super::documents::{
    jdoc_column_delete_by_keypath, jdoc_column_get, jdoc_column_select_array,
    jdoc_column_select_first, jdoc_column_select_value,
};
use super::join::Progress;
use super::keys::{jdoc_column_equality_key, jdoc_column_key};
use super::truths::{jdoc_column_contains, jdoc_column_exists, jdoc_column_match};
use crate::tests::expect;
use std::alloc::Global;
use std::process::Abort;

const OK: u32 = 0;

const BUFFER_TOO_SMALL: u32 = 2;

const INVALID_JSON_PATH: u32 = 18;

/// `{"a":1}`, bytes that end within a header, `{"a":2}`, and after them a row whose offsets decrease.
const ROWS: &[u8] =
    b"\x40\0\0\x01\x10\0\0\x01\x20\0\0\x02a\x50\x01\x80\0\0\x40\0\0\x01\x10\0\0\x01\x20\0\0\x02a\x50\x02";

const OFFSETS: [u64; 5] = [0, 15, 18, 33, 32];

const A_ONE: &[u8] = b"\x40\0\0\x01\x10\0\0\x01\x20\0\0\x02a\x50\x01";

/// 1 and 2.
const ONE_AND_TWO: &[u8] = b"\x20\0\0\0\x20\0\0\x02\x50\x01\x20\0\0\0\x20\0\0\x02\x50\x02";

/// `[1]` and `[2]`.
const ONES_AND_TWOS: &[u8] = b"\x80\0\0\x01\x20\0\0\x02\x50\x01\x80\0\0\x01\x20\0\0\x02\x50\x02";

const STATUSES: [u8; 4] = [0, 16, 0, 3];

/// `{"a":1}`, `{"a":2}`, `{"a":1}`, and after them a row whose offsets decrease.
const DECODED: &[u8] =
    b"\x40\0\0\x01\x10\0\0\x01\x20\0\0\x02a\x50\x01\x40\0\0\x01\x10\0\0\x01\x20\0\0\x02a\x50\x02\x40\0\0\x01\x10\0\0\x01\x20\0\0\x02a\x50\x01";

const DECODED_OFFSETS: [u64; 5] = [0, 15, 30, 45, 44];

const DECODED_STATUSES: [u8; 4] = [0, 0, 0, 3];

/// null, `"7"` and 8.
const SCALARS: &[u8] = b"\x20\0\0\0\0\0\0\0\x20\0\0\0\x10\0\0\x017\x20\0\0\0\x20\0\0\x02\x50\x08";

static SCALAR_OFFSETS: [u64; 4] = [0, 8, 17, 27];

/// A column: its bytes, where rows begin and end, and the status of each of them.
type Column = (&'static [u8], &'static [u64; 5], [u8; 4]);

static DAMAGED: Column = (ROWS, &OFFSETS, STATUSES);

static WHOLE: Column = (DECODED, &DECODED_OFFSETS, DECODED_STATUSES);

/// A call that returns a Boolean per row, in lax mode.
#[derive(Drop)]
enum Truth {
    Match(&'static [u8]),
    Exists(&'static [u8]),
    Contains(&'static [u8]),
}

impl Truth {
    /// Makes the call, and returns its status.
    fn make(
        &self,
        alloc: Global,
        column: &Column,
        truths: &mut [u8],
        statuses: &mut [u8],
        done: &mut usize,
    ) -> u32 {
        let (rows, offsets, _) = *column;
        match *self {
            Truth::Match(path) => {
                jdoc_column_match(alloc, rows, offsets, path, false, truths, statuses, done)
            }
            Truth::Exists(path) => {
                jdoc_column_exists(alloc, rows, offsets, path, false, truths, statuses, done)
            }
            Truth::Contains(wanted) => {
                jdoc_column_contains(alloc, rows, offsets, wanted, truths, statuses, done)
            }
        }
    }

    /// Returns whether the call writes these results and the statuses of all four rows.
    fn tells(&self, alloc: Global, column: &Column, wanted: [u8; 4]) -> bool {
        let mut truths = [9; 4];
        let mut statuses = [9; 4];
        let mut done = 9;
        let status = self.make(alloc, column, &mut truths, &mut statuses, &mut done);
        (status, done) == (OK, 4) && truths == wanted && statuses == column.2
    }
}

/// The text of a call, the call, and its results.
type Told = (&'static str, Truth, [u8; 4]);

fn assert_tells(rt: &impl Abort, alloc: Global, column: &Column, calls: &[Told]) {
    for (text, call, wanted) in calls {
        expect(rt, call.tells(alloc, column, *wanted), *text);
    }
}

static TRUTHS: [Told; 3] = calls! {
    Truth::Match(b"$.a > 1"), [0, 2, 1, 2];
    Truth::Exists(b"$.a?(@ > 1)"), [0, 2, 1, 2];
    Truth::Contains(A_ONE), [1, 2, 0, 2];
};

#[test]
fn truths(rt: HostRuntime) {
    assert_tells(&rt, rt.alloc(), &DAMAGED, &TRUTHS);
}

static TRUTHS_OF_DOCUMENTS: [Told; 3] = calls! {
    Truth::Match(b"$.a > 1"), [0, 1, 0, 2];
    Truth::Exists(b"$.a?(@ > 1)"), [0, 1, 0, 2];
    Truth::Contains(b"\x40\0\0\0"), [1, 1, 1, 2];
};

#[test]
fn truths_of_documents(rt: HostRuntime) {
    assert_tells(&rt, rt.alloc(), &WHOLE, &TRUTHS_OF_DOCUMENTS);
}

#[test]
fn truths_of_the_first_document(rt: HostRuntime) {
    let mut truths = [9; 1];
    let mut statuses = [9; 2];
    let mut done = 9;
    let call = Truth::Match(b"$.a > 1");
    let status = call.make(rt.alloc(), &WHOLE, &mut truths, &mut statuses, &mut done);
    assert!(rt; (status, done) == (BUFFER_TOO_SMALL, 1) && truths == [0] && statuses == [0, 9]);
}

#[test]
fn checks(rt: HostRuntime) {
    let mut statuses = [9; 4];
    let mut done = 9;
    let status = jdoc_column_check(rt.alloc(), ROWS, &OFFSETS, &mut statuses, &mut done);
    assert!(rt; (status, done) == (OK, 4) && statuses == STATUSES);
}

/// Paths, the status of a call with space for two results, and the number of rows that are done.
static OF_FEWER_ROWS: [(&[u8], u32, usize); 2] = rows! {
    b"$.a > 1", BUFFER_TOO_SMALL, 2;
    b"$.", INVALID_JSON_PATH, 0;
};

#[test]
fn truths_of_fewer_rows(rt: HostRuntime) {
    let mut truths = [9; 2];
    let mut statuses = [9; 4];
    let mut done = 9;
    for (path, status, rows) in &OF_FEWER_ROWS {
        let call = Truth::Match(*path);
        let ended = call.make(rt.alloc(), &DAMAGED, &mut truths, &mut statuses, &mut done);
        let is_so = (ended, done) == (*status, *rows);
        expect(
            &rt,
            is_so && truths == [0, 2] && statuses == [0, 16, 9, 9],
            *path,
        );
    }
}

/// A caller's buffers of a call that returns bytes for each row.
#[derive(Clone, Copy)]
struct Answer {
    out: [u8; 48],
    positions: [u64; 5],
    statuses: [u8; 4],
    progress: Progress,
}

impl Answer {
    fn new() -> Answer {
        Answer {
            out: [9; 48],
            positions: [9; 5],
            statuses: [9; 4],
            progress: Progress {
                rows: 9,
                bytes: 9,
                next: 9,
            },
        }
    }

    /// Returns whether these bytes were written for these rows, and what follows them is unchanged.
    fn is(&self, bytes: &[u8], positions: [u64; 5], statuses: [u8; 4]) -> bool {
        self.out.starts_with(bytes)
            && self.out.iter().skip(bytes.len()).all(|byte| *byte == 9)
            && self.positions == positions
            && self.statuses == statuses
            && self.progress.bytes == bytes.len()
            && self.progress.next == 0
    }
}

/// A call that returns bytes for each row.
enum Join {
    Get(&'static [u8]),
    Delete(&'static [u8]),
    First(&'static [u8], bool),
    Value(&'static [u8], bool),
    Array(&'static [u8], bool),
    ToStr,
    Key(bool),
    EqualityKey,
}

impl Join {
    /// Makes the call on a column, and returns its status.
    fn make(
        &self,
        alloc: Global,
        rows: &[u8],
        offsets: &[u64],
        out: &mut [u8],
        positions: &mut [u64],
        statuses: &mut [u8],
        progress: &mut Progress,
    ) -> u32 {
        match *self {
            Join::Get(path) => {
                jdoc_column_get(
                    alloc, rows, offsets, path, out, positions, statuses, progress,
                )
            }
            Join::Delete(path) => jdoc_column_delete_by_keypath(
                alloc, rows, offsets, path, out, positions, statuses, progress,
            ),
            Join::First(path, strict) => jdoc_column_select_first(
                alloc, rows, offsets, path, strict, out, positions, statuses, progress,
            ),
            Join::Value(path, strict) => jdoc_column_select_value(
                alloc, rows, offsets, path, strict, out, positions, statuses, progress,
            ),
            Join::Array(path, strict) => jdoc_column_select_array(
                alloc, rows, offsets, path, strict, out, positions, statuses, progress,
            ),
            _ => self.make_of_scalars(alloc, rows, offsets, out, positions, statuses, progress),
        }
    }

    fn make_of_scalars(
        &self,
        alloc: Global,
        rows: &[u8],
        offsets: &[u64],
        out: &mut [u8],
        positions: &mut [u64],
        statuses: &mut [u8],
        progress: &mut Progress,
    ) -> u32 {
        match *self {
            Join::ToStr => {
                jdoc_column_to_str(alloc, rows, offsets, out, positions, statuses, progress)
            }
            Join::Key(wide) => {
                jdoc_column_key(
                    alloc, rows, offsets, wide, out, positions, statuses, progress,
                )
            }
            Join::EqualityKey => {
                jdoc_column_equality_key(alloc, rows, offsets, out, positions, statuses, progress)
            }
            _ => BUFFER_TOO_SMALL,
        }
    }

    /// Makes the call, and returns what it wrote, and its status.
    fn answer(&self, alloc: Global, rows: &[u8], offsets: &[u64]) -> (Answer, u32) {
        let mut a = Answer::new();
        let status = self.make(
            alloc,
            rows,
            offsets,
            &mut a.out,
            &mut a.positions,
            &mut a.statuses,
            &mut a.progress,
        );
        (a, status)
    }
}

/// The text of a call, the call, and what it writes for a column: the bytes, the end of each row, and the statuses.
type Joined = (&'static str, Join, &'static [u8], [u64; 5], [u8; 4]);

fn assert_joins(rt: &impl Abort, alloc: Global, rows: &[u8], offsets: &[u64], calls: &[Joined]) {
    for (text, call, bytes, positions, statuses) in calls {
        let (a, status) = call.answer(alloc, rows, offsets);
        let is_so = status == OK && a.is(bytes, *positions, *statuses);
        expect(rt, is_so, *text);
    }
}

/// Ends of the results for the rows that have a document of ten bytes each.
const ENDS: [u64; 5] = [0, 10, 10, 20, 20];

static JOINED: [Joined; 5] = calls! {
    Join::Get(b"{a}"), ONE_AND_TWO, ENDS, STATUSES;
    Join::Delete(b"{a}"), b"\x40\0\0\0\x40\0\0\0", [0, 4, 4, 8, 8], STATUSES;
    Join::First(b"$.a", true), ONE_AND_TWO, ENDS, STATUSES;
    Join::Value(b"$.a", false), ONE_AND_TWO, ENDS, STATUSES;
    Join::Array(b"$.a", false), ONES_AND_TWOS, ENDS, STATUSES;
};

#[test]
fn documents(rt: HostRuntime) {
    assert_joins(&rt, rt.alloc(), ROWS, &OFFSETS, &JOINED);
}

/// 1, 2 and 1.
const ONE_TWO_ONE: &[u8] =
    b"\x20\0\0\0\x20\0\0\x02\x50\x01\x20\0\0\0\x20\0\0\x02\x50\x02\x20\0\0\0\x20\0\0\x02\x50\x01";

/// `[1]`, `[2]` and `[1]`.
const LISTS: &[u8] =
    b"\x80\0\0\x01\x20\0\0\x02\x50\x01\x80\0\0\x01\x20\0\0\x02\x50\x02\x80\0\0\x01\x20\0\0\x02\x50\x01";

/// `[10,20,30]`
const TENS: &[u8] = b"\x80\0\0\x03\x20\0\0\x02\x20\0\0\x02\x20\0\0\x02\x50\x0a\x50\x14\x50\x1e";

/// 10.
const TEN: &[u8] = b"\x20\0\0\0\x20\0\0\x02\x50\x0a";

/// Ends of the results for three rows that have a document of ten bytes each.
const ENDS_OF_ALL: [u64; 5] = [0, 10, 20, 30, 30];

static JOINED_OF_DOCUMENTS: [Joined; 5] = calls! {
    Join::Get(b"{a}"), ONE_TWO_ONE, ENDS_OF_ALL, DECODED_STATUSES;
    Join::Get(b"{}"), DECODED, [0, 15, 30, 45, 45], DECODED_STATUSES;
    Join::Delete(b"{a}"), b"\x40\0\0\0\x40\0\0\0\x40\0\0\0", [0, 4, 8, 12, 12], DECODED_STATUSES;
    Join::Value(b"$.a", false), ONE_TWO_ONE, ENDS_OF_ALL, DECODED_STATUSES;
    Join::Array(b"$.a", false), LISTS, ENDS_OF_ALL, DECODED_STATUSES;
};

static JOINED_OF_TENS: [Joined; 1] = calls! {
    Join::First(b"$[*]", false), TEN, [0, 10, 9, 9, 9], [0, 9, 9, 9];
};

#[test]
fn documents_of_documents(rt: HostRuntime) {
    assert_joins(
        &rt,
        rt.alloc(),
        DECODED,
        &DECODED_OFFSETS,
        &JOINED_OF_DOCUMENTS,
    );
    assert_joins(&rt, rt.alloc(), TENS, &[0, 22], &JOINED_OF_TENS);
}

/// Returns the members `a` of rows that end there, in a buffer of 15 bytes, and the status.
fn get_a(alloc: Global, offsets: &[u64], out: &mut [u8; 15]) -> (Answer, u32) {
    let mut a = Answer::new();
    let status = jdoc_column_get(
        alloc,
        ROWS,
        offsets,
        b"{a}",
        out,
        &mut a.positions,
        &mut a.statuses,
        &mut a.progress,
    );
    (a, status)
}

#[test]
fn goes_on_behind_a_full_buffer(rt: HostRuntime) {
    let mut out = [9; 15];
    let (a, status) = get_a(rt.alloc(), &OFFSETS, &mut out);
    assert!(rt; status == BUFFER_TOO_SMALL);
    assert!(rt; out == *b"\x20\0\0\0\x20\0\0\x02\x50\x01\x09\x09\x09\x09\x09");
    assert!(rt; a.positions == [0, 10, 10, 9, 9] && a.statuses == [0, 16, 9, 9]);
    assert!(rt; (a.progress.rows, a.progress.bytes, a.progress.next) == (2, 10, 10));
    let (a, status) = get_a(rt.alloc(), &OFFSETS[2..], &mut out);
    assert!(rt; status == OK && out.starts_with(b"\x20\0\0\0\x20\0\0\x02\x50\x02"));
    assert!(rt; (a.progress.rows, a.progress.bytes, a.progress.next) == (2, 10, 0));
}

#[test]
fn casts(rt: HostRuntime) {
    let alloc = rt.alloc();
    let mut numbers = [9; 3];
    let mut statuses = [9; 3];
    let mut done = 9;
    let status = jdoc_column_to_i64(
        alloc,
        SCALARS,
        &SCALAR_OFFSETS,
        &mut numbers,
        &mut statuses,
        &mut done,
    );
    assert!(rt; status == OK && numbers == [0, 7, 8] && statuses == [20, 0, 0]);
    assert_joins(&rt, rt.alloc(), SCALARS, &SCALAR_OFFSETS, &TEXTS);
}

static TEXTS: [Joined; 1] = calls! {
    Join::ToStr, b"78", [0, 0, 1, 2, 9], [20, 0, 0, 9];
};

static KEYS_OF_NULL: [Joined; 3] = calls! {
    Join::Key(false), b"\x00\x08", [0, 2, 9, 9, 9], [0, 9, 9, 9];
    Join::Key(true), b"\x00\x00\x08", [0, 3, 9, 9, 9], [0, 9, 9, 9];
    Join::EqualityKey, b"\x08", [0, 1, 9, 9, 9], [0, 9, 9, 9];
};

#[test]
fn keys_of_a_null(rt: HostRuntime) {
    assert_joins(
        &rt,
        rt.alloc(),
        SCALARS,
        &SCALAR_OFFSETS[..2],
        &KEYS_OF_NULL,
    );
}
