//! The functions on documents: example rows, deep documents, and what is borrowed or unchanged.

ghost use Rattle.jsonb_doc.specs.Tree.{Tree};
ghost use Rattle.jsonb_doc.specs.Payload.{Form};
ghost use Rattle.jsonb_doc.specs.Format.{Decodes};
ghost use Rattle.jsonb_keypath.specs.KeyPathViews.{key_paths_view};
ghost use Rattle.jsonb_raw.specs.Documents.{raw_bytes, MakesOption};
ghost use Rattle.jsonb_raw.specs.Places.{tree_at_steps};

mod calls;
mod deep;
pub(crate) mod documents;
mod leaves;
mod tables;
mod unreadable;

use super::*;
use crate::tests::documents::MIXED_ARRAY;
use jsonb_doc::{Error, Spot};
use jsonb_keypath::{KeyPaths, parse_key_paths};
use std::alloc::Global;
use std::fmt::Debug;
use std::process::Abort;

/// Fails with the row of a table, unless it is as expected.
pub(crate) fn expect<T: Debug + Copy>(rt: &impl Abort, is_so: Result<bool, Error>, row: T) {
    assert!(*rt; matches!(is_so, Ok(true)), "{row:?}: {is_so:?}");
}

/// `{"number":3720453,"type":"home"}`
const HOME: &[u8] =
    b"\x40\0\0\x02\x10\0\0\x06\x10\0\0\x04\x20\0\0\x05\x10\0\0\x04numbertype\x50\0\x38\xc5\x05home";

/// Returns the value at a key path: a caller, with what it knows of the result.
fn part_at(
    alloc: Global,
    document: &RawJsonb<'_>,
    path: &KeyPaths<'_>,
) -> Result<Option<OwnedJsonb>, Error>
    ensures { (form : Form) (t : Tree) → Decodes form (raw_bytes document.now) t
        → MakesOption form (tree_at_steps (key_paths_view path.now) t) result }
{
    document.get_by_keypath(alloc, path.paths.iter())
}

/// Returns `true` if a part is this document, or missing if there is none.
fn is_part(found: Result<Option<OwnedJsonb>, Error>, wanted: Option<&[u8]>) -> bool {
    match (found, wanted) {
        (Ok(Some(part)), Some(bytes)) => part.as_raw().as_bytes() == bytes,
        (Ok(None), None) => true,
        _ => false,
    }
}

#[test]
fn steps_come_from_any_iterator(rt: HostRuntime) -> Result<(), Error> {
    let steps = parse_key_paths(rt.alloc(), b"{-1,k,0}")?;
    let document = RawJsonb::new(MIXED_ARRAY);
    let part = document.get_by_keypath(rt.alloc(), steps.paths.iter().take(2));
    assert!(rt; is_part(part, Some(b"\x20\0\0\0\x10\0\0\x01v")));
    let part = document.get_by_keypath(rt.alloc(), steps.paths.iter());
    assert!(rt; is_part(part, None));
    Ok(())
}

/// Returns `true` if a document, its copy and its bytes are these.
fn keeps_bytes(alloc: Global, bytes: &[u8]) -> Result<bool, Error> {
    let owned = OwnedJsonb::new(Vec::from_slice(alloc, bytes)?);
    let is_same = owned.as_raw().as_bytes() == bytes;
    let is_copied = owned.clone(alloc)?.to_vec().as_slice() == bytes;
    Ok(is_same && is_copied && owned.to_vec().as_slice() == bytes)
}

#[test]
fn documents_keep_their_bytes(rt: HostRuntime) {
    expect(&rt, keeps_bytes(rt.alloc(), HOME), HOME);
    let raw = RawJsonb::new(MIXED_ARRAY);
    let again = raw;
    assert!(rt; raw.as_bytes() == again.as_bytes());
}

#[test]
fn a_limit_is_the_greatest_depth(rt: HostRuntime) {
    let document = RawJsonb::new(MIXED_ARRAY);
    assert!(rt; document.depth() == Ok(2));
    assert!(rt; document.check_depth(2) == Ok(()));
    assert!(rt; document.check_depth(1) == Err(Error::TooDeep));
}

/// Where a value begins and ends, if there is one.
type Range = Option<(usize, usize)>;

/// Returns the range of a spot.
fn range_of(found: Option<Spot>) -> Range {
    match found {
        Some(spot) => Some((spot.range().start, spot.range().end)),
        None => None,
    }
}

/// Returns `true` if the value at a key path of `[false, 10, {"k":"v"}]` has this range.
fn is_at_path(alloc: Global, path: &[u8], wanted: Range) -> Result<bool, Error> {
    let path = parse_key_paths(alloc, path)?;
    let found = RawJsonb::new(MIXED_ARRAY).spot_by_keypath(alloc, path.paths.iter())?;
    Ok(range_of(found) == wanted)
}

#[test]
fn spots_are_at_key_paths(rt: HostRuntime) {
    assert!(rt; is_at_path(rt.alloc(), b"{-1,k}", Some((31, 32))) == Ok(true));
    assert!(rt; is_at_path(rt.alloc(), b"{3}", None) == Ok(true));
}

/// Indexes, and the ranges of the elements of `[false, 10, {"k":"v"}]`.
static INDEXES: [(usize, Range); 2] = [(1, Some((16, 18))), (3, None)];

/// Documents, keys, whether case is ignored, and the ranges of the values.
static NAMED: [(&[u8], &str, bool, Range); 4] = [
    (HOME, "type", false, Some((35, 39))),
    (HOME, "TYPE", false, None),
    (HOME, "TYPE", true, Some((35, 39))),
    (MIXED_ARRAY, "k", true, None),
];

#[test]
fn spots_are_at_indexes_and_keys(rt: HostRuntime) -> Result<(), Error> {
    for (index, wanted) in &INDEXES {
        let found = RawJsonb::new(MIXED_ARRAY).spot_by_index(*index)?;
        expect(&rt, Ok(range_of(found) == *wanted), *index);
    }
    for (document, name, ignore_case, wanted) in &NAMED {
        let found = RawJsonb::new(document).spot_by_name(name, *ignore_case)?;
        expect(&rt, Ok(range_of(found) == *wanted), *name);
    }
    assert!(rt; RawJsonb::new(HOME).spot_by_index(0)?.is_none());
    Ok(())
}
