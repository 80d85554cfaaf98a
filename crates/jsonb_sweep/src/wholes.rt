//! The calls on whole documents: concatenation, stripping, keys and strings, and the values of key paths.

use crate::answer::{Answer, Wanted, both, is_document, is_text};
use crate::call::{Call, Case, Key, ask_each, asked};
use crate::documents::*;
use crate::mark::tell;
use jsonb::{Error, OwnedJsonb, RawJsonb, Value, parse_key_paths};
use std::alloc::Global;
use std::borrow::CowStr;

/// `NESTED` without its null.
const NESTED_STRIPPED: &[u8] =
    b"\x80\x00\x00\x02P\x00\x00\x3bP\x00\x00\x1b\x80\x00\x00\x02 \x00\x00\x02P\x00\x00\x2dP\x01\x80\x00\x00\x02 \x00\x00\x02P\x00\x00\x1fP\x02\x40\x00\x00\x01\x10\x00\x00\x01P\x00\x00\x12a\x80\x00\x00\x02 \x00\x00\x02\x10\x00\x00\x04P\x03four\x40\x00\x00\x01\x10\x00\x00\x01P\x00\x00\x0eb\x40\x00\x00\x01\x10\x00\x00\x01\x10\x00\x00\x01de";

/// `{"a":null,"b":[null]}`
const NULLS: &[u8] =
    b"\x40\x00\x00\x02\x10\x00\x00\x01\x10\x00\x00\x01\x00\x00\x00\x00P\x00\x00\x08ab\x80\x00\x00\x01\x00\x00\x00\x00";

/// `{"b":[null]}`
const STRIPPED: &[u8] =
    b"\x40\x00\x00\x01\x10\x00\x00\x01P\x00\x00\x08b\x80\x00\x00\x01\x00\x00\x00\x00";

/// `[false,10,{}]`
const WITHOUT_K: &[u8] =
    b"\x80\x00\x00\x030\x00\x00\x00 \x00\x00\x02P\x00\x00\x04P\x0a\x40\x00\x00\x00";

/// `[1.0]`
const DECIMAL_ONE: &[u8] = b"\x80\x00\x00\x01 \x00\x00\x0ap\x00\x00\x00\x00\x00\x00\x00\x0a\x01";

/// The key of `[1]`.
const KEY_OF_ARRAY: &[u8] = b"\x00\x07\x01\x04\x81\x03\xe9\x02\x00";

/// Its wide key.
const WIDE_KEY_OF_ARRAY: &[u8] = b"\x00\x00\x07\x00\x01\x04\x81\x03\xe9\x02\x00";

/// The composite key of `[1]` and a missing value.
const COMPOSITE_KEY: &[u8] = b"\x00\x07\x01\x04\x81\x03\xe9\x02\x00\x00\x00";

/// Its wide form.
const WIDE_COMPOSITE_KEY: &[u8] = b"\x00\x00\x07\x00\x01\x04\x81\x03\xe9\x02\x00\x00\x00\x00";

static CASES: [Case; 19] = rows! {
    "concat of arrays", Call::Concat(ONE_ELEMENT), TENS, Wanted::Bytes(TENS_AND_ONE);
    "concat of objects", Call::Concat(ONLY_A), LETTERS, Wanted::Bytes(LETTERS);
    "strip_nulls", Call::StripNulls, NULLS, Wanted::Bytes(STRIPPED);
    "strip_nulls of a nested document", Call::StripNulls, NESTED, Wanted::Bytes(NESTED_STRIPPED);
    "convert_to_comparable", Call::Make(Key::Comparable), ONE, Wanted::Bytes(b"\x00\x04\x81\x03\xe9\x02\x00");
    "convert_to_comparable of an array", Call::Make(Key::Comparable), ONE_ELEMENT, Wanted::Bytes(KEY_OF_ARRAY);
    "convert_to_comparable_wide", Call::Make(Key::ComparableWide), ONE, Wanted::Bytes(b"\x00\x00\x04\x81\x03\xe9\x02\x00");
    "convert_to_comparable_wide of an array", Call::Make(Key::ComparableWide), ONE_ELEMENT, Wanted::Bytes(WIDE_KEY_OF_ARRAY);
    "convert_to_comparable_into", Call::Push(Key::Comparable), ONE_ELEMENT, Wanted::Bytes(KEY_OF_ARRAY);
    "convert_to_comparable_wide_into", Call::Push(Key::ComparableWide), ONE_ELEMENT, Wanted::Bytes(WIDE_KEY_OF_ARRAY);
    "equality_key_into", Call::Push(Key::Equality), ONE_ELEMENT, Wanted::Bytes(b"\x07\x00\x00\x00\x01\x04\x81\x03\xe9\x02\x00");
    "push_column_key", Call::Composite, ONE_ELEMENT, Wanted::Bytes(COMPOSITE_KEY);
    "push_column_key_wide", Call::CompositeWide, ONE_ELEMENT, Wanted::Bytes(WIDE_COMPOSITE_KEY);
    "composite_key", Call::Row, ONE_ELEMENT, Wanted::Bytes(COMPOSITE_KEY);
    "composite_key_wide", Call::RowWide, ONE_ELEMENT, Wanted::Bytes(WIDE_COMPOSITE_KEY);
    "to_str of a text", Call::ToStr, V, Wanted::Bytes(b"v");
    "to_str of a decimal", Call::ToStr, PRICE, Wanted::Bytes(b"12.34");
    "as_binary", Call::AsBinary, BYTES, Wanted::Bytes(b"abc");
    "as_binary of a number", Call::AsBinary, ONE, Wanted::Nothing;
};

/// Runs each case, and reports its result.
pub fn cases(rt: &HostRuntime) {
    ask_each(rt, &CASES);
    tell(rt, "equality_key", equality_key(rt));
    tell(rt, "get_by_keypath", finds(rt, MIXED, b"{2,k}", V));
    tell(rt, "delete_by_keypath", delete_by_keypath(rt));
    tell(rt, "extract_scalar_key_values", leaves(rt));
    tell(rt, "leaf_documents", leaf_documents(rt));
    tell(rt, "OwnedJsonb::clone", clone(rt, MIXED));
}

/// The key of an array equals that of one with the same numbers in another form.
fn equality_key(rt: &HostRuntime) -> Result<bool, Error> {
    let wanted = RawJsonb::new(DECIMAL_ONE).equality_key(rt.alloc())?;
    asked(
        rt,
        &Call::Make(Key::Equality),
        ONE_ELEMENT,
        Wanted::Bytes(&wanted),
    )
}

/// Whether this part is found at a key path.
fn finds(rt: &HostRuntime, document: &[u8], path: &[u8], part: &[u8]) -> Result<bool, Error> {
    let alloc = rt.alloc();
    let steps = parse_key_paths(alloc, path)?;
    let document = RawJsonb::new(document);
    let answer = marked!(rt, document.get_by_keypath(alloc, steps.paths.iter()));
    Ok(Answer::found(answer?).is(Wanted::Bytes(part)))
}

/// The document without the part at a key path.
fn deleted(rt: &HostRuntime, document: &[u8], path: &[u8]) -> Result<OwnedJsonb, Error> {
    let alloc = rt.alloc();
    let steps = parse_key_paths(alloc, path)?;
    let document = RawJsonb::new(document);
    marked!(rt, document.delete_by_keypath(alloc, steps.paths.iter()))
}

fn delete_by_keypath(rt: &HostRuntime) -> Result<bool, Error> {
    is_document(deleted(rt, MIXED, b"{2,k}"), WITHOUT_K)
}

/// Whether the member of element 20 is found, a document of the number 20.
pub fn number_is_found(rt: &HostRuntime, elements: &[u8]) -> Result<bool, Error> {
    finds(rt, elements, b"{20,number}", TWENTY)
}

/// Whether the member of element 20 is deleted, and all else is kept.
pub fn number_is_deleted(rt: &HostRuntime, elements: &[u8]) -> Result<bool, Error> {
    let edited = deleted(rt, elements, b"{20,number}")?;
    let is_empty = is_empty_at_20(rt.alloc(), edited.as_raw());
    both(
        is_empty,
        are_as_long(edited.as_raw(), RawJsonb::new(elements)),
    )
}

fn is_empty_at_20(alloc: Global, array: RawJsonb<'_>) -> Result<bool, Error> {
    let element = array.get_by_index(alloc, 20)?;
    Ok(Answer::found(element).is(Wanted::Bytes(EMPTY_OBJECT)))
}

fn are_as_long(array: RawJsonb<'_>, other: RawJsonb<'_>) -> Result<bool, Error> {
    Ok(array.array_length()? == other.array_length()?)
}

fn leaves(rt: &HostRuntime) -> Result<bool, Error> {
    let alloc = rt.alloc();
    let mixed = RawJsonb::new(MIXED);
    let answer = marked!(rt, mixed.extract_scalar_key_values(alloc, false));
    match answer?.as_slice() {
        [_, _, (path, value)] => {
            let is_v = *value == Value::String(CowStr::Borrowed("v"));
            both(is_text(path.to_string(alloc), "{2,k}"), Ok(is_v))
        }
        _ => Ok(false),
    }
}

fn leaf_documents(rt: &HostRuntime) -> Result<bool, Error> {
    let alloc = rt.alloc();
    let answer = marked!(rt, RawJsonb::new(MIXED).leaf_documents(alloc, false));
    match answer?.as_slice() {
        [_, _, (path, document)] => {
            let is_v = document.as_raw().as_bytes() == V;
            both(is_text(path.to_string(alloc), "{2,k}"), Ok(is_v))
        }
        _ => Ok(false),
    }
}

pub fn clone(rt: &HostRuntime, document: &[u8]) -> Result<bool, Error> {
    let alloc = rt.alloc();
    let owned = OwnedJsonb::new(Vec::from_slice(alloc, document)?);
    let answer = marked!(rt, owned.clone(alloc));
    let is_kept = owned.as_raw().as_bytes() == document;
    both(is_document(answer, document), Ok(is_kept))
}
