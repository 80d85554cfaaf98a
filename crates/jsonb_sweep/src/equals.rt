//! Calls on existing paths, builders and documents: comparisons, hashes, views, and queries of builders.

use crate::documents::*;
use crate::mark::{begin, end, tell};
use jsonb::{
    ArrayBuilder, Error, KeyPath, ObjectBuilder, OwnedJsonb, OwnedKeyPath, PathValue, RawJsonb,
    RecursiveLevel, Selector, parse_json_path, parse_key_paths, root_item, to_value,
};
use std::hash::{DefaultHasher, Hash, Hasher};

/// Runs each case of a comparison or a hash, and reports its result.
pub fn comparisons(rt: &HostRuntime) {
    tell(rt, "Value::eq", values(rt));
    tell(rt, "KeyPaths::eq, hash", key_paths(rt));
    tell(rt, "OwnedKeyPaths::eq, hash", owned_key_paths(rt));
    tell(rt, "JsonPath::eq", json_paths(rt));
    tell(rt, "PathValue::eq, partial_cmp", literals(rt));
}

/// Compares two values between the marks. Returns `true` if they are equal.
fn are_equal<T: PartialEq + Drop>(
    rt: &HostRuntime,
    value: Result<T, Error>,
    other: Result<T, Error>,
) -> Result<bool, Error> {
    let (value, other) = (value?, other?);
    Ok(marked!(rt, value == other))
}

/// Compares two values and their hashes between the marks. Returns `true` if both are equal.
fn are_alike<T: PartialEq + Hash + Drop>(
    rt: &HostRuntime,
    value: Result<T, Error>,
    other: Result<T, Error>,
) -> Result<bool, Error> {
    let (value, other) = (value?, other?);
    Ok(marked!(rt, value == other && hash_of(&value) == hash_of(&other)))
}

fn values(rt: &HostRuntime) -> Result<bool, Error> {
    let alloc = rt.alloc();
    let item = root_item(NESTED)?;
    are_equal(rt, to_value(alloc, &item), to_value(alloc, &item))
}

/// The hash of a value.
fn hash_of<T: Hash>(value: &T) -> u64 {
    let mut state = DefaultHasher::new();
    value.hash(&mut state);
    state.finish()
}

fn key_paths(rt: &HostRuntime) -> Result<bool, Error> {
    let alloc = rt.alloc();
    let paths = parse_key_paths(alloc, b"{1,a,\"b c\"}");
    let other = parse_key_paths(alloc, b" { 1 , \\u0061 , \"b c\" } ");
    are_alike(rt, paths, other)
}

fn owned_key_paths(rt: &HostRuntime) -> Result<bool, Error> {
    let alloc = rt.alloc();
    let paths = parse_key_paths(alloc, b"{1,a,\"b c\"}")?;
    are_alike(rt, paths.to_owned(alloc), paths.to_owned(alloc))
}

fn json_paths(rt: &HostRuntime) -> Result<bool, Error> {
    let alloc = rt.alloc();
    let path = parse_json_path(alloc, b"$.a[*]?(@.\\u0062 == \"c\")");
    let other = parse_json_path(alloc, b"$.a[*]?(@.b == \"c\")");
    are_equal(rt, path, other)
}

fn literals(rt: &HostRuntime) -> Result<bool, Error> {
    let (document, truth) = (PathValue::Raw(RawJsonb::new(ONE)), PathValue::Boolean(true));
    Ok(marked!(rt, document != truth && truth.partial_cmp(&truth).is_some()))
}

/// Runs each case of a view, and of what is built without allocating, and reports its result.
pub fn views(rt: &HostRuntime) {
    tell(rt, "OwnedKeyPath::as_key_path", as_key_path(rt));
    tell(rt, "JsonPath::is_predicate", is_predicate(rt));
    tell(rt, "RecursiveLevel::check_recursive_level", level(rt));
    tell(rt, "OwnedJsonb::new, as_raw, to_vec", owned(rt));
    tell(rt, "Selector::new, new_strict", selectors(rt));
    tell(rt, "ArrayBuilder::new, len", array_builder(rt));
    tell(
        rt,
        "ObjectBuilder::new, len, contains_key",
        object_builder(rt),
    );
}

fn as_key_path(rt: &HostRuntime) -> Result<bool, Error> {
    let step = OwnedKeyPath::Name(String::from_str(rt.alloc(), "abc")?);
    Ok(marked!(
        rt,
        match step.as_key_path() {
            KeyPath::Name(name) => name.as_str() == "abc",
            _ => false,
        }
    ))
}

fn is_predicate(rt: &HostRuntime) -> Result<bool, Error> {
    let path = parse_json_path(rt.alloc(), b"$.a == 1")?;
    Ok(marked!(rt, path.is_predicate()))
}

fn level(rt: &HostRuntime) -> Result<bool, Error> {
    let second = RecursiveLevel {
        start: 2,
        end: None,
    };
    let answer = marked!(rt, second.check_recursive_level(1));
    Ok(answer == (false, true))
}

fn owned(rt: &HostRuntime) -> Result<bool, Error> {
    let bytes = Vec::from_slice(rt.alloc(), TENS)?;
    begin(rt);
    let document = OwnedJsonb::new(bytes);
    let is_kept = document.as_raw().as_bytes() == TENS;
    let bytes = document.to_vec();
    end(rt);
    Ok(is_kept && bytes.as_slice() == TENS)
}

fn selectors(rt: &HostRuntime) -> Result<bool, Error> {
    let alloc = rt.alloc();
    begin(rt);
    let lax = Selector::new(alloc, RawJsonb::new(TENS));
    let strict = Selector::new_strict(alloc, RawJsonb::new(TENS));
    drop(lax);
    drop(strict);
    end(rt);
    Ok(true)
}

fn array_builder(rt: &HostRuntime) -> Result<bool, Error> {
    begin(rt);
    let builder = ArrayBuilder::new(rt.alloc());
    let is_empty = builder.len() == 0;
    end(rt);
    Ok(is_empty)
}

fn object_builder(rt: &HostRuntime) -> Result<bool, Error> {
    begin(rt);
    let builder = ObjectBuilder::new(rt.alloc());
    let is_empty = builder.len() == 0 && !builder.contains_key("a");
    end(rt);
    Ok(is_empty)
}
