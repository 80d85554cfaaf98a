//! Documents nested so deeply that a walk with a call a level would overflow the machine's stack.

use crate::OwnedJsonb;
use crate::raw::RawJsonb;
use crate::tests::documents::{
    ALONE, ChildCursor, EMPTY_ARRAY, EMPTY_OBJECT, MEMBER, NULL_IN_ARRAY, nested,
};
use crate::tests::expect;
use jsonb_doc::{Error, Value};
use jsonb_keypath::{KeyPath, KeyPaths};
use std::alloc::{AllocError, Global};
use std::borrow::CowStr;

/// `["x"]`
const X_IN_ARRAY: &[u8] = b"\x80\0\0\x01\x10\0\0\x01x";

/// `{"a":"x"}`
const X_IN_OBJECT: &[u8] = b"\x40\0\0\x01\x10\0\0\x01\x10\0\0\x01ax";

/// `[true]`
const TRUE_IN_ARRAY: &[u8] = b"\x80\0\0\x01\x40\0\0\0";

/// `[child,null]`
const FIRST: ChildCursor = (b"\x80\0\0\x02", b"\0\0\0\0");

/// `[null,child]`
const LAST: ChildCursor = (b"\x80\0\0\x02\0\0\0\0", b"");

/// Returns this many steps into levels that have only the child: by its index, or by its key.
fn steps_into(
    alloc: Global,
    level: ChildCursor,
    count: u32,
) -> Result<Vec<KeyPath<'static>>, AllocError> {
    let mut steps = Vec::new(alloc);
    for _ in 0..count {
        steps.push(if level.1.is_empty() {
            KeyPath::Index(0)
        } else {
            KeyPath::Name(CowStr::Borrowed("a"))
        })?;
    }
    Ok(steps)
}

/// A number of levels of a kind, the container within, and the number of steps to what is deleted; then the levels
/// that remain, and the container within.
type TakenOut = (ChildCursor, u32, &'static [u8], u32, u32, &'static [u8]);

static TAKEN_OUT: [TakenOut; 4] = [
    (ALONE, 199_999, X_IN_ARRAY, 200_000, 199_999, EMPTY_ARRAY),
    (MEMBER, 199_999, X_IN_OBJECT, 200_000, 199_999, EMPTY_OBJECT),
    (ALONE, 299, EMPTY_ARRAY, 299, 298, EMPTY_ARRAY),
    (ALONE, 299, EMPTY_ARRAY, 300, 299, EMPTY_ARRAY),
];

/// Returns what remains of a document.
fn left_of(
    alloc: Global,
    level: ChildCursor,
    levels: u32,
    core: &[u8],
    steps: u32,
) -> Result<OwnedJsonb, Error> {
    let document = nested(alloc, &[level], levels, core)?;
    let steps = steps_into(alloc, level, steps)?;
    RawJsonb::new(&document).delete_by_keypath(alloc, steps.iter())
}

/// Returns whether the rest is the expected one.
fn is_taken_out(alloc: Global, row: &TakenOut) -> Result<bool, Error> {
    let (level, levels, core, steps, levels_left, core_left) = *row;
    let wanted = nested(alloc, &[level], levels_left, core_left)?;
    let found = left_of(alloc, level, levels, core, steps)?;
    Ok(found.as_raw().as_bytes() == wanted.as_slice())
}

#[test]
fn parts_taken_out_of_deep_documents(rt: HostRuntime) {
    for row in &TAKEN_OUT {
        expect(&rt, is_taken_out(rt.alloc(), row), row.4);
    }
}

/// Returns `true` if the equality key of the document has this length and ends with the string `x`.
fn has_equality_key(alloc: Global, document: RawJsonb<'_>, len: usize) -> Result<bool, Error> {
    let key = document.equality_key(alloc)?;
    Ok(key.len() == len && key.ends_with(b"\x05x\0"))
}

/// Returns `true` if nothing is stripped of the document.
fn keeps_all(alloc: Global, document: RawJsonb<'_>) -> Result<bool, Error> {
    let stripped = document.strip_nulls(alloc)?;
    Ok(stripped.as_raw().as_bytes() == document.as_bytes())
}

/// Returns `true` if a step selects the child of a level that has only the child.
fn leads_into(level: ChildCursor, step: &KeyPath<'_>) -> bool {
    match step {
        KeyPath::Index(index) => level.1.is_empty() && *index == 0,
        KeyPath::Name(name) => !level.1.is_empty() && name.as_str() == "a",
        KeyPath::QuotedName(_) => false,
    }
}

/// Returns `true` if a leaf is the string `x`, 200,000 steps into levels of this type.
fn is_deep_leaf(leaf: &(KeyPaths<'_>, Value<'_>), level: ChildCursor) -> bool {
    let Value::String(text) = &leaf.1 else {
        return false;
    };
    let mut is_so = text.as_str() == "x" && leaf.0.paths.len() == 200_000;
    for step in &leaf.0.paths {
        is_so = is_so && leads_into(level, step);
    }
    is_so
}

/// Returns `true` if the only leaf of the document is such a leaf.
fn has_deep_leaf(alloc: Global, document: RawJsonb<'_>, level: ChildCursor) -> Result<bool, Error> {
    let found = document.extract_scalar_key_values(alloc, false)?;
    Ok(match found.as_slice() {
        [leaf] => is_deep_leaf(leaf, level),
        _ => false,
    })
}

/// Returns `true` if the document has 200,000 levels.
fn is_deep(document: RawJsonb<'_>) -> bool {
    document.depth() == Ok(200_000)
        && document.check_depth(199_999) == Err(Error::TooDeep)
        && document.check_depth(200_000) == Ok(())
}

/// Returns whether the walks over a document of 200,000 levels of this kind return what its only string `x` lets
/// them.
fn is_walked(
    alloc: Global,
    level: ChildCursor,
    core: &[u8],
    key_len: usize,
) -> Result<bool, Error> {
    let bytes = nested(alloc, &[level], 199_999, core)?;
    let document = RawJsonb::new(&bytes);
    let has_y = document.traverse_check_string(|text| text == b"y".as_slice())?;
    let is_so = is_deep(document) && !has_y && has_equality_key(alloc, document, key_len)?;
    Ok(is_so && keeps_all(alloc, document)? && has_deep_leaf(alloc, document, level)?)
}

/// Levels, the containers within, and the lengths of equality keys: these have a type and a count for each level, and
/// in an object the key `a` too; and the type, the bytes and the end of the string.
static WALKED: [(ChildCursor, &[u8], usize); 2] = [
    (ALONE, X_IN_ARRAY, 1_000_003),
    (MEMBER, X_IN_OBJECT, 1_600_003),
];

#[test]
fn deep_documents_are_walked(rt: HostRuntime) {
    for (level, core, key_len) in &WALKED {
        let is_so = is_walked(rt.alloc(), *level, core, *key_len);
        expect(&rt, is_so, *key_len);
    }
}

/// Returns `true` if nothing is stripped of a container in 300 arrays.
fn keeps_arrays(alloc: Global, core: &[u8]) -> Result<bool, Error> {
    let document = nested(alloc, &[ALONE], 300, core)?;
    keeps_all(alloc, RawJsonb::new(&document))
}

#[test]
fn nothing_is_stripped_of_300_arrays(rt: HostRuntime) {
    assert!(rt; keeps_arrays(rt.alloc(), EMPTY_OBJECT) == Ok(true));
}

/// Returns whether the distinct elements of a document have this many bytes, and are what it shares with itself;
/// nothing else remains.
fn has_sets(alloc: Global, level: ChildCursor, core: &[u8], len: usize) -> Result<bool, Error> {
    let bytes = nested(alloc, &[level], 29_999, core)?;
    let document = RawJsonb::new(&bytes);
    Ok(are_sets(alloc, document, len)? && has_nothing_alone(alloc, document)?)
}

/// Returns whether the distinct elements of a document have this many bytes, and are what it shares with itself.
fn are_sets(alloc: Global, document: RawJsonb<'_>, len: usize) -> Result<bool, Error> {
    let distinct = document.array_distinct(alloc)?;
    let shared = document.array_intersection(alloc, &document)?;
    let is_shared = shared.as_raw().as_bytes() == distinct.as_raw().as_bytes();
    Ok(is_shared && distinct.as_raw().as_bytes().len() == len)
}

/// Returns `true` if a document has nothing that it does not share with itself.
fn has_nothing_alone(alloc: Global, document: RawJsonb<'_>) -> Result<bool, Error> {
    let unshared = document.array_except(alloc, &document)?;
    Ok(unshared.as_raw().as_bytes() == EMPTY_ARRAY)
}

/// Levels, the containers within, and the lengths of the distinct elements.
static SETS: [(ChildCursor, &[u8], usize); 2] = [
    (ALONE, X_IN_ARRAY, 240_001),
    (MEMBER, X_IN_OBJECT, 390_009),
];

#[test]
fn sets_of_deep_documents(rt: HostRuntime) {
    for (level, core, len) in &SETS {
        expect(&rt, has_sets(rt.alloc(), *level, core, *len), *len);
    }
}

/// Returns the number of bytes of the wide key of such a document.
fn wide_key_len(
    alloc: Global,
    level: ChildCursor,
    levels: u32,
    core: &[u8],
) -> Result<usize, Error> {
    let document = nested(alloc, &[level], levels, core)?;
    let key = RawJsonb::new(&document).convert_to_comparable_wide(alloc)?;
    Ok(key.len())
}

/// The number of levels of a type, the container within, and the length of the key: a depth in two bytes and a type for
/// each of 65,536 values, and the string's byte and end marker.
static WIDE_KEYS: [(ChildCursor, u32, &[u8], Result<usize, Error>); 5] = [
    (ALONE, 65_534, X_IN_ARRAY, Ok(196_610)),
    (ALONE, 65_535, X_IN_ARRAY, Err(Error::TooDeep)),
    (ALONE, 199_999, X_IN_ARRAY, Err(Error::TooDeep)),
    (MEMBER, 65_535, X_IN_OBJECT, Err(Error::TooDeep)),
    (MEMBER, 199_999, X_IN_OBJECT, Err(Error::TooDeep)),
];

#[test]
fn wide_keys_of_deep_documents(rt: HostRuntime) {
    for (level, levels, core, wanted) in &WIDE_KEYS {
        let is_so = wide_key_len(rt.alloc(), *level, *levels, core) == *wanted;
        expect(&rt, Ok(is_so), *levels);
    }
}

/// Returns `true` if a document of these levels contains itself.
fn contains_itself(alloc: Global, levels: &[ChildCursor]) -> Result<bool, Error> {
    let document = nested(alloc, levels, 100_000, NULL_IN_ARRAY)?;
    let raw = RawJsonb::new(&document);
    raw.contains(&raw)
}

/// Returns `true` if two documents of these levels overlap that differ in the innermost value.
fn overlap(alloc: Global, levels: &[ChildCursor]) -> Result<bool, Error> {
    let one = nested(alloc, levels, 100_000, NULL_IN_ARRAY)?;
    let other = nested(alloc, levels, 100_000, TRUE_IN_ARRAY)?;
    RawJsonb::new(&one).array_overlap(&RawJsonb::new(&other))
}

static CONTAINED: [[ChildCursor; 2]; 2] = [[FIRST, LAST], [MEMBER, ALONE]];

static COMPARED: [[ChildCursor; 2]; 2] = [[ALONE, ALONE], [ALONE, MEMBER]];

#[test]
fn deep_documents_are_compared(rt: HostRuntime) {
    for levels in &CONTAINED {
        expect(&rt, contains_itself(rt.alloc(), levels), *levels);
    }
    for levels in &COMPARED {
        let is_so = overlap(rt.alloc(), levels) == Ok(false);
        expect(&rt, Ok(is_so), *levels);
    }
}
