//! Lists of items, one for each of some items.

ghost use Rattle.std.specs.Fn.{FnReturns};
ghost use Rattle.std.specs.List.{AllZip};
ghost use Rattle.std.specs.Prelude.{◌≡◌, ◌∷◌, [], ℕ, List, IfOk, IfErr, OnOk};
ghost use Rattle.jsonb_doc.specs.Answer.{Outcome, Refines, and_then, try_flat_map, IsOutOfMemory};
ghost use Rattle.jsonb_doc.specs.Representation.Positions.{Locates};
ghost use Rattle.jsonb_doc.specs.Tree.{Tree};
ghost use Rattle.jsonb.specs.Meaning.{step_meaning, truth};
ghost use Rattle.jsonb.specs.PathTree.{Expression, filter};
ghost use Rattle.jsonb.specs.SelectionErrors.{IsSelectionError};
ghost use Rattle.jsonb.specs.Private.Columns.{AreFrom, AreLists, AreMapped, AreTruths, AreSound, IsList, IsTruth, flat, results};
ghost use Rattle.jsonb.specs.Private.Selection.{node_spots};
ghost use Rattle.jsonb.specs.declared.selector.document.Mode.{Mode};

use super::column::{Column, Truths, settled};
use super::evaluate::is_true;
use super::node_list::{ListResult, NodeList};
use jsonb_doc::{Error, Spot};
use std::alloc::Global;
use std::mem::replace;

/// The items that steps have selected for each item.
pub(crate) type Lists = Column<ListResult>;

/// Replaces each list by what a function makes of it.
#[inline(always)]
pub(crate) fn update<F: Fn(ListResult) -> ListResult>(lists: &mut Lists, f: F) -> Result<(), Error>
    requires { F.IsAlwaysCallable f }
    ensures made { OnOk result (AreMapped (λ before after. FnReturns F.Fn f (before, tt) after) lists.old lists.new) }
    ensures errors { IfErr result IsOutOfMemory }
{
    match lists {
        Column::Same(list) => {
            let before = replace(list, Err(Error::InvalidJsonPath));
            *list = settled(f(before))?;
            Ok(())
        }
        Column::Each(lists) => {
            for list in lists.iter_mut() {
                let before = replace(list, Err(Error::InvalidJsonPath));
                *list = settled(f(before))?;
            }
            Ok(())
        }
    }
}

/// Returns the items of all lists, one list after the other.
pub(crate) fn items_of(alloc: Global, lists: &Lists) -> Result<NodeList, Error>
    ensures items { IfOk result (λ items. node_spots items ≡ flat (results lists.now)) }
    ensures errors { IfErr result IsOutOfMemory }
{
    let mut items = Vec::new(alloc);
    match lists {
        Column::Same(Ok(NodeList::One(item))) => return Ok(NodeList::One(*item)),
        Column::Same(list) => items.extend_from_slice(items_in(list))?,
        Column::Each(lists) => {
            for list in lists {
                items.extend_from_slice(items_in(list))?;
            }
        }
    }
    Ok(NodeList::Many(items))
}

/// Returns the items of lists for which a filter is true, by its results for all items.
pub(crate) fn filtered(alloc: Global, lists: Lists, truths: &Truths) -> Result<Lists, Error>
    ensures meant { (bytes : List ℕ) (mode : Mode) (e : Expression) (top : Tree) (g : Tree → Outcome (List Tree))
        (us ts : List Tree) → AreLists bytes g us lists → AllZip (Locates bytes) (flat (results lists)) ts
        → AreTruths (truth mode e top) ts truths.now
        → IfOk result (AreLists bytes (λ u. and_then (g u) (try_flat_map (step_meaning mode (filter e) top))) us) }
    ensures sound { (mode : Mode) → AreSound mode lists → AreSound mode truths.now → IfOk result (AreSound mode) }
    ensures errors { IfErr result IsOutOfMemory }
{
    match lists {
        Column::Same(list) => Ok(Column::Same(settled(kept_of(alloc, &list, truths, 0))?)),
        Column::Each(lists) => {
            let mut lists = lists;
            let mut start = 0usize;
            for list in lists.iter_mut() {
                let kept = settled(kept_of(alloc, list, truths, start))?;
                start = start.saturating_add(items_in(list).len());
                *list = kept;
            }
            Ok(Column::Each(lists))
        }
    }
}

/// Returns the items of a list.
#[inline(always)]
fn items_in(list: &ListResult) -> &[Spot]
    ensures { result.now ≡ flat (list.now ∷ []) }
{
    match list {
        Ok(items) => items.as_slice(),
        Err(_) => &[],
    }
}

/// Returns the items of a list for which a filter is true, by its results from an index on.
fn kept_of(alloc: Global, list: &ListResult, truths: &Truths, start: usize) -> ListResult
    ensures meant { (bytes : List ℕ) (mode : Mode) (e : Expression) (top : Tree) (o : Outcome (List Tree))
        (ts : List Tree) → IsList bytes list.now o → AllZip (Locates bytes) (flat (list.now ∷ [])) ts
        → AreFrom (λ said t. IsTruth said (truth mode e top t)) truths.now start ts
        → IsList bytes result (and_then o (try_flat_map (step_meaning mode (filter e) top))) }
    ensures sound { (mode : Mode) → IfErr list.now (IsSelectionError mode) → AreSound mode truths.now
        → IfErr result (IsSelectionError mode) }
{
    match list {
        Ok(items) => kept(alloc, items.as_slice(), truths, start),
        Err(error) => Err(*error),
    }
}

/// Returns the items for which a filter is true, by its results from an index on.
pub(crate) fn kept(alloc: Global, items: &[Spot], truths: &Truths, start: usize) -> ListResult
    ensures meant { (bytes : List ℕ) (mode : Mode) (e : Expression) (top : Tree) (ts : List Tree)
        → AllZip (Locates bytes) items.now ts
        → AreFrom (λ said t. IsTruth said (truth mode e top t)) truths.now start ts
        → Refines (λ found us. AllZip (Locates bytes) (node_spots found) us) IsOutOfMemory result
        (try_flat_map (step_meaning mode (filter e) top) ts) }
    ensures sound { (mode : Mode) → AreSound mode truths.now → IfErr result (IsSelectionError mode) }
{
    let mut nodes = NodeList::Many(Vec::new(alloc));
    let mut index = start;
    for item in items {
        let Some(truth) = truths.at(index) else {
            return Err(Error::InvalidJsonPath);
        };
        if is_true((*truth)?) {
            nodes.push(alloc, *item)?;
        }
        index = index.saturating_add(1);
    }
    Ok(nodes)
}
