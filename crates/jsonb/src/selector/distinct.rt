//! Lists of items without those that are selected again: an expression needs each item once.
//!
//! Without this, `exists($[0,0][0,0]..?(@ == 7))` would evaluate its filter 2^n times for n steps.

ghost use Rattle.std.specs.List.{AllZip};
ghost use Rattle.std.specs.Prelude.{◌≡◌, ◌⊎◌, ◌++◌, ◌∷◌, [], ℕ, List, true, Contains, Ok, OnOk, IfErr};
ghost use Rattle.jsonb_doc.specs.Answer.{Refines, IsOutOfMemory};
ghost use Rattle.jsonb_doc.specs.Representation.Positions.{Locates};
ghost use Rattle.jsonb_doc.specs.Tree.{Tree};
ghost use Rattle.jsonb.specs.Private.Alike.{HasSame};
ghost use Rattle.jsonb.specs.Private.Selection.{node_spots};
ghost use Rattle.jsonb.specs.declared.selector.document.Repeats.TheVariants.{AreDropped};

use super::document::Repeats;
use super::node_list::{ListResult, NodeList};
use crate::path::Path;
use jsonb_doc::{Error, Spot};
use std::alloc::Global;
use std::collections::BTreeMap;

/// The length up to which a list keeps its repeats: looking for them would take longer than they do.
const SHORT: usize = 16;

/// Returns `true` if a step may select an item again that it has selected before: several subscripts, and a recursive
/// step of many items.
#[inline(always)]
pub(crate) fn can_repeat(step: &Path<'_>, many: bool) -> bool {
    match step {
        Path::ArrayIndices(entries) => entries.len() > 1,
        Path::RecursiveDotWildcard(_) => many,
        _ => false,
    }
}

/// Returns the items of a list, without repeats if these are to be dropped and the last step may select an item again.
#[inline(always)]
pub(crate) fn distinct(
    alloc: Global,
    repeats: Repeats,
    selects_again: bool,
    items: NodeList,
) -> ListResult
    ensures meant { (bytes : List ℕ) (ts : List Tree) → AllZip (Locates bytes) (node_spots items) ts
        → Refines (λ found us. HasSame repeats bytes (node_spots found) us) IsOutOfMemory result (Ok ts) }
    ensures errors { IfErr result IsOutOfMemory }
{
    match repeats {
        Repeats::AreDropped if selects_again => without_repeats(alloc, items),
        _ => Ok(items),
    }
}

/// Returns the items of a list without repeats. A short list, and one in the order of the document, keeps those that it
/// has.
#[inline(never)]
fn without_repeats(alloc: Global, items: NodeList) -> ListResult
    ensures meant { (bytes : List ℕ) (ts : List Tree) → AllZip (Locates bytes) (node_spots items) ts
        → Refines (λ found us. HasSame AreDropped bytes (node_spots found) us) IsOutOfMemory result (Ok ts) }
    ensures errors { IfErr result IsOutOfMemory }
{
    if items.as_slice().len() <= SHORT || are_ascending(items.as_slice()) {
        return Ok(items);
    }
    let spots = first_of_equals(alloc, items.as_slice())?;
    Ok(NodeList::Many(spots))
}

/// Returns `true` if the items are in the order of the document. None with content is repeated then.
fn are_ascending(items: &[Spot]) -> bool {
    let (mut start, mut end) = (0, 0);
    for item in items {
        let range = item.range();
        let is_empty_too = range.end == range.start && range.end == end;
        let is_after = range.start > start
            || (range.start == start && (range.end > end || is_empty_too));
        if !is_after {
            return false;
        }
        start = range.start;
        end = range.end;
    }
    true
}

/// Returns the items of a list without those that it contains before.
///
/// The index of a first item is found by the range of its content. Another item has the same range only if both are
/// empty: these may remain.
fn first_of_equals(alloc: Global, items: &[Spot]) -> Result<Vec<Spot>, Error>
    ensures meant { (bytes : List ℕ) (ts : List Tree) → AllZip (Locates bytes) items.now ts
        → Refines (λ nodes us. HasSame AreDropped bytes nodes.items us) IsOutOfMemory result (Ok ts) }
    ensures errors { IfErr result IsOutOfMemory }
{
    let mut places = BTreeMap::new(alloc);
    let mut nodes = Vec::new(alloc);
    for item in items {
        push_first(&mut places, &mut nodes, *item)?;
    }
    Ok(nodes)
}

/// Appends an item, unless the list contains it.
fn push_first(
    places: &mut BTreeMap<(usize, usize), usize>,
    nodes: &mut Vec<Spot>,
    item: Spot,
) -> Result<(), Error>
    ensures pushed { OnOk result ((nodes.new.items ≡ nodes.old.items ++ item ∷ [])
        ⊎ ((nodes.new.items ≡ nodes.old.items) × Contains nodes.old.items item)) }
    ensures errors { IfErr result IsOutOfMemory }
{
    let range = item.range();
    let place = (range.start, range.end);
    if let Some(at) = places.get(&place) {
        if is_at(nodes, *at, item) {
            return Ok(());
        }
    }
    places.insert(place, nodes.len())?;
    nodes.push(item)?;
    Ok(())
}

/// Returns `true` if the list has the item at an index.
fn is_at(nodes: &[Spot], at: usize, item: Spot) -> bool
    ensures { result ≡ true → Contains nodes.now item }
{
    match nodes.get(at) {
        Some(spot) => are_equal(*spot, item),
        None => false,
    }
}

/// Returns `true` if two positions in the same bytes are the same.
#[inline(always)]
fn are_equal(left: Spot, right: Spot) -> bool
    ensures { result ≡ true → left ≡ right }
{
    let (at, other) = (left.range(), right.range());
    left.entry_kind() == right.entry_kind() && at.start == other.start && at.end == other.end
}
