//! Keys of deep documents, keys into a vector that is used again, and composite keys.

use crate::functions::operator::{
    composite_key, composite_key_wide, push_column_key, push_column_key_wide,
};
use crate::raw::RawJsonb;
use crate::tests::documents::{
    ALONE, DATE, EMPTY_ARRAY, EMPTY_OBJECT, FLOAT, NULL, NULLS, ONE_ELEMENT, nested,
};
use crate::tests::expect;
use jsonb_doc::Error;
use std::alloc::{AllocError, Global};

/// `[[1],2]`
const ONE_THEN_TWO: &[u8] =
    b"\x80\0\0\x02\x50\0\0\x0a\x20\0\0\x02\x80\0\0\x01\x20\0\0\x02\x50\x01\x50\x02";
/// `[[1,2]]`
const ONE_AND_TWO: &[u8] =
    b"\x80\0\0\x01\x50\0\0\x10\x80\0\0\x02\x20\0\0\x02\x20\0\0\x02\x50\x01\x50\x02";
/// `{"k":null}`
const NULL_PAIR: &[u8] = b"\x40\0\0\x01\x10\0\0\x01\0\0\0\0k";

/// Returns why a container in this many arrays has no sortable key, if it has none.
fn refusal(alloc: Global, innermost: &[u8], arrays: u32) -> Result<Option<Error>, AllocError> {
    let document = nested(alloc, &[ALONE], arrays, innermost)?;
    Ok(RawJsonb::new(&document).convert_to_comparable(alloc).err())
}

/// Containers, the number of arrays around each, and the error.
static REFUSALS: [(&[u8], u32, Option<Error>); 4] = [
    (EMPTY_ARRAY, 255, None),
    (EMPTY_ARRAY, 256, Some(Error::TooDeep)),
    (EMPTY_OBJECT, 255, None),
    (NULL_PAIR, 255, Some(Error::TooDeep)),
];

#[test]
fn keys_by_depth(rt: HostRuntime) {
    for (innermost, arrays, wanted) in &REFUSALS {
        let is_so = refusal(rt.alloc(), innermost, *arrays) == Ok(*wanted);
        expect(&rt, Ok(is_so), (*innermost, *arrays));
    }
}

/// Returns `true` if the wide key of an empty array in this many has this length and this end.
fn has_wide_key(alloc: Global, arrays: u32, len: usize, end: &[u8]) -> Result<bool, Error> {
    let document = nested(alloc, &[ALONE], arrays, EMPTY_ARRAY)?;
    let key = RawJsonb::new(&document).convert_to_comparable_wide(alloc)?;
    Ok(key.len() == len && key.ends_with(end))
}

#[test]
fn a_wide_key_goes_deeper(rt: HostRuntime) {
    assert!(rt; has_wide_key(rt.alloc(), 256, 771, b"\x01\0\x07") == Ok(true));
}

/// Returns `true` if each key that is written to a vector is the one that the function without it returns.
fn has_same_keys(alloc: Global, document: RawJsonb<'_>, key: &mut Vec<u8>) -> Result<bool, Error> {
    document.convert_to_comparable_into(alloc, key)?;
    let sortable = *key == document.convert_to_comparable(alloc)?;
    document.convert_to_comparable_wide_into(alloc, key)?;
    let wide = *key == document.convert_to_comparable_wide(alloc)?;
    document.equality_key_into(alloc, key)?;
    Ok(sortable && wide && *key == document.equality_key(alloc)?)
}

#[test]
fn keys_in_a_vector_that_is_used_again(rt: HostRuntime) {
    let mut key = Vec::new(rt.alloc());
    for document in [ONE_ELEMENT, NULL, NULLS, DATE] {
        let is_same = has_same_keys(rt.alloc(), RawJsonb::new(document), &mut key);
        expect(&rt, is_same, document);
    }
    let float = RawJsonb::new(FLOAT).convert_to_comparable_into(rt.alloc(), &mut key);
    assert!(rt; float == Err(Error::UnsupportedNumber));
    assert!(rt; key.is_empty());
}

/// Two columns, and their composite key, narrow and wide.
static COLUMNS: [(&[Option<&[u8]>], &[u8], &[u8]); 4] = [
    (&[Some(NULL), None], b"\0\x08\0\0", b"\0\0\x08\0\0\0"),
    (&[None, Some(NULL)], b"\0\0\0\x08", b"\0\0\0\0\0\x08"),
    (&[None, None], b"\0\0\0\0", b"\0\0\0\0\0\0"),
    (
        &[Some(NULL), Some(NULL)],
        b"\0\x08\0\x08",
        b"\0\0\x08\0\0\x08",
    ),
];

/// Returns `true` if these are the narrow and the wide composite key of the columns.
fn has_column_keys(
    alloc: Global,
    columns: &[Option<&[u8]>],
    narrow: &[u8],
    wide: &[u8],
) -> Result<bool, Error> {
    let mut key = Vec::new(alloc);
    let mut wide_key = Vec::new(alloc);
    let mut values = Vec::new(alloc);
    for column in columns {
        let value = column.map(|bytes| RawJsonb::new(bytes));
        push_column_key(alloc, &mut key, value)?;
        push_column_key_wide(alloc, &mut wide_key, value)?;
        values.push(value)?;
    }
    let whole = composite_key(alloc, &values)?;
    let wide_whole = composite_key_wide(alloc, &values)?;
    let is_narrow = key.as_slice() == narrow && whole.as_slice() == narrow;
    Ok(is_narrow && wide_key.as_slice() == wide && wide_whole.as_slice() == wide)
}

#[test]
fn composite_keys(rt: HostRuntime) {
    for (columns, narrow, wide) in &COLUMNS {
        let is_so = has_column_keys(rt.alloc(), columns, narrow, wide);
        expect(&rt, is_so, *columns);
    }
    let mut key = Vec::new(rt.alloc());
    let float = composite_key(rt.alloc(), &[None, Some(RawJsonb::new(FLOAT))]);
    assert!(rt; float.err() == Some(Error::UnsupportedNumber));
    let float = push_column_key(rt.alloc(), &mut key, Some(RawJsonb::new(FLOAT)));
    assert!(rt; float == Err(Error::UnsupportedNumber));
    assert!(rt; key.is_empty());
}

/// Returns `true` if the sortable key of one document is below that of the other.
fn is_below(alloc: Global, one: &[u8], other: &[u8]) -> Result<bool, Error> {
    let low = RawJsonb::new(one).convert_to_comparable(alloc)?;
    let high = RawJsonb::new(other).convert_to_comparable(alloc)?;
    Ok(low.as_slice() < high.as_slice())
}

#[test]
fn a_shorter_array_is_below(rt: HostRuntime) {
    assert!(rt; is_below(rt.alloc(), ONE_THEN_TWO, ONE_AND_TWO) == Ok(true));
}
