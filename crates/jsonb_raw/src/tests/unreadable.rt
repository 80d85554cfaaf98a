//! Calls on roots that cannot be read, and on containers of a float.

use crate::owned::OwnedJsonb;
use crate::raw::RawJsonb;
use crate::tests::documents::{DATE, EMPTY_OBJECT, FLOAT};
use crate::{composite_key, composite_key_wide, push_column_key, push_column_key_wide};
use jsonb_doc::Error;
use jsonb_keypath::{KeyPaths, parse_key_paths};
use std::alloc::Global;
use std::collections::BTreeSet;
use std::process::Abort;

/// Returns the first of these names whose condition holds, if there is one.
macro_rules! first {
    ($($name:literal, $is_so:expr;)+) => { $(if $is_so { Some($name) } else)+ { None } };
}

/// A float, no bytes, and an array whose entry word is missing.
static UNREADABLE: [&[u8]; 3] = [FLOAT, b"", b"\x80\0\0\x01"];

/// Returns a test of the type that does not fail.
fn types(raw: &RawJsonb<'_>) -> Option<&'static str> {
    first! {
        "type_of", raw.type_of().is_ok();
        "is_null", raw.is_null().is_ok();
        "is_boolean", raw.is_boolean().is_ok();
        "is_number", raw.is_number().is_ok();
        "is_string", raw.is_string().is_ok();
        "is_array", raw.is_array().is_ok();
        "is_object", raw.is_object().is_ok();
        "is_i64", raw.is_i64().is_ok();
        "is_u64", raw.is_u64().is_ok();
        "is_extension_value", raw.is_extension_value().is_ok();
        "is_binary", raw.is_binary().is_ok();
        "is_date", raw.is_date().is_ok();
        "is_timestamp", raw.is_timestamp().is_ok();
        "is_timestamp_tz", raw.is_timestamp_tz().is_ok();
        "is_interval", raw.is_interval().is_ok();
    }
}

/// Returns a call that returns the root as a value and does not fail.
fn values(alloc: Global, raw: &RawJsonb<'_>) -> Option<&'static str> {
    first! {
        "as_null", raw.as_null().is_ok();
        "as_bool", raw.as_bool().is_ok();
        "as_number", raw.as_number().is_ok();
        "as_str", raw.as_str().is_ok();
        "as_i64", raw.as_i64().is_ok();
        "as_u64", raw.as_u64().is_ok();
        "as_extension_value", raw.as_extension_value().is_ok();
        "as_date", raw.as_date().is_ok();
        "as_timestamp", raw.as_timestamp().is_ok();
        "as_timestamp_tz", raw.as_timestamp_tz().is_ok();
        "as_interval", raw.as_interval().is_ok();
        "as_binary", raw.as_binary(alloc).is_ok();
        "to_bool", raw.to_bool().is_ok();
        "to_i64", raw.to_i64().is_ok();
        "to_u64", raw.to_u64().is_ok();
        "to_str", raw.to_str(alloc).is_ok();
    }
}

/// Returns a call that returns a key and does not fail.
fn keys(alloc: Global, raw: RawJsonb<'_>) -> Option<&'static str> {
    let columns = [None, Some(raw)];
    first! {
        "convert_to_comparable", raw.convert_to_comparable(alloc).is_ok();
        "convert_to_comparable_wide", raw.convert_to_comparable_wide(alloc).is_ok();
        "equality_key", raw.equality_key(alloc).is_ok();
        "composite_key", composite_key(alloc, &columns).is_ok();
        "composite_key_wide", composite_key_wide(alloc, &columns).is_ok();
    }
}

/// Returns a call that writes a key to a vector and does not fail.
fn written_keys(alloc: Global, key: &mut Vec<u8>, raw: RawJsonb<'_>) -> Option<&'static str> {
    first! {
        "convert_to_comparable_into", raw.convert_to_comparable_into(alloc, key).is_ok();
        "convert_to_comparable_wide_into", raw.convert_to_comparable_wide_into(alloc, key).is_ok();
        "equality_key_into", raw.equality_key_into(alloc, key).is_ok();
        "push_column_key", push_column_key(alloc, key, Some(raw)).is_ok();
        "push_column_key_wide", push_column_key_wide(alloc, key, Some(raw)).is_ok();
    }
}

/// Returns a call on two documents that does not fail.
fn pairs(alloc: Global, raw: RawJsonb<'_>, other: RawJsonb<'_>) -> Option<&'static str> {
    first! {
        "array_intersection", raw.array_intersection(alloc, &other).is_ok();
        "array_except", raw.array_except(alloc, &other).is_ok();
        "array_overlap", raw.array_overlap(&other).is_ok();
        "array_overlap_in", raw.array_overlap_in(alloc, &other).is_ok();
        "array_insert", raw.array_insert(alloc, 0, &other).is_ok();
        "object_insert", raw.object_insert(alloc, "a", &other, true).is_ok();
        "compare", raw.compare(&other).is_ok();
        "concat", raw.concat(alloc, &other).is_ok();
        "contains", raw.contains(&other).is_ok();
    }
}

/// Returns a call that returns a document, or looks into one, and does not fail.
fn parts(alloc: Global, raw: &RawJsonb<'_>) -> Option<&'static str> {
    let each = ["a"];
    first! {
        "array_distinct", raw.array_distinct(alloc).is_ok();
        "get_by_index", raw.get_by_index(alloc, 0).is_ok();
        "delete_by_index", raw.delete_by_index(alloc, 0).is_ok();
        "delete_by_name", raw.delete_by_name(alloc, "a").is_ok();
        "exists_all_keys", raw.exists_all_keys(each.iter().copied()).is_ok();
        "exists_all_keys_in", raw.exists_all_keys_in(alloc, each.iter().copied()).is_ok();
        "exists_any_keys", raw.exists_any_keys(each.iter().copied()).is_ok();
        "exists_any_keys_in", raw.exists_any_keys_in(alloc, each.iter().copied()).is_ok();
        "extract_scalar_key_values", raw.extract_scalar_key_values(alloc, false).is_ok();
        "leaf_documents", raw.leaf_documents(alloc, false).is_ok();
        "strip_nulls", raw.strip_nulls(alloc).is_ok();
        "traverse_check_string", raw.traverse_check_string(|_| false).is_ok();
    }
}

/// Returns a call that takes names or steps and does not fail.
fn places(
    alloc: Global,
    raw: &RawJsonb<'_>,
    names: &BTreeSet<&str>,
    steps: &KeyPaths<'_>,
) -> Option<&'static str> {
    first! {
        "object_pick", raw.object_pick(alloc, names).is_ok();
        "object_delete", raw.object_delete(alloc, names).is_ok();
        "delete_by_keypath", raw.delete_by_keypath(alloc, steps.paths.iter()).is_ok();
    }
}

/// Fails with a call, if there is one.
fn expect_none(rt: &impl Abort, call: Option<&'static str>) {
    assert!(*rt; call.is_none(), "{call:?}");
}

/// Fails with a call on one document, or on two, that does not fail.
fn expect_failures(rt: &impl Abort, alloc: Global, raw: RawJsonb<'_>) {
    expect_none(rt, types(&raw));
    expect_none(rt, values(alloc, &raw));
    expect_none(rt, keys(alloc, raw));
    expect_none(rt, written_keys(alloc, &mut Vec::new(alloc), raw));
    expect_none(rt, parts(alloc, &raw));
    expect_none(rt, pairs(alloc, raw, RawJsonb::new(EMPTY_OBJECT)));
    expect_none(rt, pairs(alloc, raw, RawJsonb::new(DATE)));
    expect_none(rt, pairs(alloc, RawJsonb::new(EMPTY_OBJECT), raw));
}

#[test]
fn calls_fail_on_roots_that_cannot_be_read(rt: HostRuntime) -> Result<(), Error> {
    let alloc = rt.alloc();
    let mut names = BTreeSet::new(alloc);
    names.insert("a")?;
    let steps = parse_key_paths(alloc, b"{0}")?;
    for bytes in &UNREADABLE {
        let raw = RawJsonb::new(bytes);
        expect_failures(&rt, alloc, raw);
        expect_none(&rt, places(alloc, &raw, &names, &steps));
    }
    Ok(())
}

/// `[float]`
const FLOAT_IN_ARRAY: &[u8] = b"\x80\0\0\x01\x20\0\0\x09\x60\x3f\xf8\0\0\0\0\0\0";

/// An array of a container whose bytes are those of the float.
const FLOAT_FOR_CONTAINER: &[u8] =
    b"\x80\0\0\x01\x50\0\0\x11\x20\0\0\0\x20\0\0\x09\x60\x3f\xf8\0\0\0\0\0\0";

/// `{"a":float}`
const FLOAT_IN_OBJECT: &[u8] = b"\x40\0\0\x01\x10\0\0\x01\x20\0\0\x09a\x60\x3f\xf8\0\0\0\0\0\0";

/// Returns `true` if a document is the float, or the last bytes of it, such as its payload.
fn is_float(found: Result<Option<OwnedJsonb>, Error>) -> bool {
    match found {
        Ok(Some(document)) => FLOAT.ends_with(document.as_raw().as_bytes()),
        _ => false,
    }
}

/// Returns `true` if the only document of a list is the float.
fn has_float(found: Result<Option<Vec<OwnedJsonb>>, Error>) -> bool {
    match found {
        Ok(Some(mut documents)) => is_float(Ok(documents.pop())),
        _ => false,
    }
}

/// Returns `true` if the only document of a list of pairs is the float.
fn pairs_have_float<T: Drop>(found: Result<Option<Vec<(T, OwnedJsonb)>>, Error>) -> bool {
    match found {
        Ok(Some(mut pairs)) => match pairs.pop() {
            Some((_, document)) => is_float(Ok(Some(document))),
            None => false,
        },
        _ => false,
    }
}

/// Returns a call that returns the float of an array or of an object.
fn floats(
    alloc: Global,
    array: &RawJsonb<'_>,
    object: &RawJsonb<'_>,
    steps: &KeyPaths<'_>,
) -> Option<&'static str> {
    first! {
        "get_by_index", is_float(array.get_by_index(alloc, 0));
        "get_by_name", is_float(object.get_by_name(alloc, "a", false));
        "get_by_name in any case", is_float(object.get_by_name(alloc, "A", true));
        "get_by_keypath", is_float(array.get_by_keypath(alloc, steps.paths.iter()));
        "array_values", has_float(array.array_values(alloc));
        "object_each", pairs_have_float(object.object_each(alloc));
        "leaf_documents", pairs_have_float(array.leaf_documents(alloc, false).map(Some));
    }
}

#[test]
fn no_float_is_returned(rt: HostRuntime) -> Result<(), Error> {
    let object = RawJsonb::new(FLOAT_IN_OBJECT);
    let steps = parse_key_paths(rt.alloc(), b"{0}")?;
    for bytes in [FLOAT_IN_ARRAY, FLOAT_FOR_CONTAINER] {
        let array = RawJsonb::new(bytes);
        expect_none(&rt, floats(rt.alloc(), &array, &object, &steps));
    }
    Ok(())
}
