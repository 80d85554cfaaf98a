//! Calls with a limit: the bound of a path, and what fails at it.

use super::repeats::within_arrays;
use super::*;
use crate::{LimitError, LimitedSelector};

/// After the arrow, the bound on `[10,20,30]`, which has 22 bytes and 2 levels.
const BOUNDS: &str = r#"
[10,20,30] $ => 1
[10,20,30] 1 => 1
[10,20,30] $[*] => 6
[10,20,30] $.* => 6
[10,20,30] $.a.a => 3
[10,20,30] $.**.** => 16
[10,20,30] $.**{1}.a => 11
[10,20,30] $[0,1] => 3
[10,20,30] $[0 to last, 0] => 11
[10,20,30] $[*]?(@ > 10) => 31
[10,20,30] $[*]?(10 < @) => 31
[10,20,30] $[*]?(@ == $[0]) => 81
[10,20,30] $[*]?(@ > 1 && @ > 2) => 51
[10,20,30] $[*]?(exists(@[*])) => 21
[10,20,30] $[0] == 10 => 14
[10,20,30] -$[*] => 12
[10,20,30] exists($[0,0][0,0]) => 8"#;

/// Returns the items of a selector with a limit, or its error.
fn items(answer: Result<Vec<OwnedJsonb>, LimitError>) -> Result<Vec<OwnedJsonb>, Error> {
    match answer {
        Ok(documents) => Ok(documents),
        Err(LimitError::Failed(error)) => Err(error),
        Err(LimitError::LimitExceeded) => Err(Error::TooLarge),
    }
}

/// Returns `true` if a selector with a limit and one without select the same.
fn select_same(
    alloc: Global,
    within: &mut LimitedSelector<'_>,
    free: &mut Selector<'_>,
    path: &JsonPath<'_>,
) -> Result<bool, AllocError> {
    let list = shown(alloc, items(within.select_values(path)))?;
    Ok(list == shown(alloc, free.select_values(path))?)
}

/// Returns `true` if both agree whether there is an item, and on the result as a predicate.
fn are_as_true(
    within: &mut LimitedSelector<'_>,
    free: &mut Selector<'_>,
    path: &JsonPath<'_>,
) -> bool {
    within.exists(path).ok() == free.exists(path).ok()
        && within.predicate_match(path).ok() == free.predicate_match(path).ok()
}

/// Returns `true` if the call failed by the limit.
fn exceeds<T: Drop>(answer: Result<T, LimitError>) -> bool {
    matches!(answer, Err(LimitError::LimitExceeded))
}

/// Returns `true` if all calls fail by their limit. Only a predicate has a result as a predicate.
fn all_exceed(below: &mut LimitedSelector<'_>, path: &JsonPath<'_>) -> bool {
    exceeds(below.select_values(path))
        && exceeds(below.select_array(path))
        && exceeds(below.select_first(path))
        && exceeds(below.select_value(path))
        && exceeds(below.exists(path))
        && below.predicate_match(path).err()
            == path.is_predicate().then_some(LimitError::LimitExceeded)
}

/// Returns `true` if the path has this bound, at which all calls are as without a limit.
fn is_enough(
    alloc: Global,
    root: RawJsonb<'_>,
    path: &JsonPath<'_>,
    bound: u64,
) -> Result<bool, Error> {
    let mut within = LimitedSelector::new(alloc, root, bound)?;
    let mut free = Selector::new(alloc, root);
    Ok(
        within.most_items(path)? == bound
            && select_same(alloc, &mut within, &mut free, path)?
            && are_as_true(&mut within, &mut free, path),
    )
}

/// Returns `true` if all calls fail below this bound.
fn is_least(
    alloc: Global,
    root: RawJsonb<'_>,
    path: &JsonPath<'_>,
    bound: u64,
) -> Result<bool, Error> {
    let mut below = LimitedSelector::new_strict(alloc, root, bound.saturating_sub(1))?;
    Ok(all_exceed(&mut below, path))
}

/// Returns `true` if the path has this bound, and all calls fail below it alone.
fn has_bound(
    alloc: Global,
    root: RawJsonb<'_>,
    path: &JsonPath<'_>,
    bound: u64,
) -> Result<bool, Error> {
    Ok(is_enough(alloc, root, path, bound)? && is_least(alloc, root, path, bound)?)
}

/// Returns `true` if a row states the bound of its path.
fn is_bound(alloc: Global, row: &str) -> Result<bool, Error> {
    let Some((document, path, bound)) = cut(row) else {
        return Ok(false);
    };
    let bound = bound.parse::<u64>().unwrap_or(0);
    let document = bytes_of(alloc, document)?;
    let path = parse_json_path(alloc, path.as_bytes())?;
    has_bound(alloc, RawJsonb::new(&document), &path, bound)
}

#[test]
fn calls_fail_above_the_bound_alone(rt: HostRuntime) {
    for row in BOUNDS.trim_start().lines() {
        expect(&rt, is_bound(rt.alloc(), row), row);
    }
}

/// Paths whose evaluation takes seconds or hundreds of megabytes.
const EXPLODING: [&str; 3] = [
    "exists($[0,0][0,0][0,0][0,0][0,0][0,0][0,0][0,0][0,0][0,0][0,0][0,0][0,0][0,0][0,0][0,0][0,0][0,0][0,0][0,0][0,0][0,0][0,0][0,0]?(@ == 7))",
    "$.**.**.**.**.**",
    "$.**?(exists(@.**.**?(@ == $.**.**)))",
];

/// Returns `true` if `exists` has this error.
fn is_refused(
    alloc: Global,
    selector: &mut LimitedSelector<'_>,
    path: &str,
    error: LimitError,
) -> Result<bool, Error> {
    let path = parse_json_path(alloc, path.as_bytes())?;
    Ok(selector.exists(&path).err() == Some(error))
}

#[test]
fn exploding_paths_are_refused(rt: HostRuntime) -> Result<(), Error> {
    let document = within_arrays(rt.alloc(), b"\x80\0\0\0", 60)?;
    let mut selector = LimitedSelector::new(rt.alloc(), RawJsonb::new(&document), 1_000_000)?;
    for text in &EXPLODING {
        let is_so = is_refused(rt.alloc(), &mut selector, text, LimitError::LimitExceeded);
        expect(&rt, is_so, *text);
    }
    Ok(())
}

#[test]
fn strict_selectors_fail_at_a_missing_key(rt: HostRuntime) -> Result<(), Error> {
    let root = RawJsonb::new(b"\x40\0\0\0");
    let mut strict = LimitedSelector::new_strict(rt.alloc(), root, 100)?;
    let missing = LimitError::Failed(Error::StrictPath);
    expect(
        &rt,
        is_refused(rt.alloc(), &mut strict, "$.a", missing),
        "$.a",
    );
    Ok(())
}

#[test]
fn only_documents_have_a_size(rt: HostRuntime) {
    let damaged = LimitedSelector::new(rt.alloc(), RawJsonb::new(b"\x80\0\0"), 1);
    assert!(rt; damaged.err() == Some(Error::InvalidJsonb));
}

#[test]
fn errors_print_as_their_names(rt: HostRuntime) -> Result<(), Error> {
    for (error, wanted) in [
        (LimitError::LimitExceeded, "LimitExceeded"),
        (LimitError::from(Error::StrictPath), "StrictPath"),
    ] {
        let text = error.to_string(rt.alloc())?;
        expect(&rt, Ok(text.as_str() == wanted), wanted);
    }
    Ok(())
}
