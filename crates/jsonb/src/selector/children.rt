//! The positions of an item's children, and of what a step without an expression selects.

ghost use Rattle.std.specs.List.{AllZip};
ghost use Rattle.std.specs.Prelude.{Option, ◌≡◌, ℕ, ◌<◌, ◌^◌, ◌++◌, ◌∷◌, [], List, Ok, None, false, IfOk, IfSome, IfErr, OnOk, IsOkAnd, if◌then◌else◌, ⊤, MatchOption, filter_map, slice_get};
ghost use Rattle.jsonb_doc.specs.Answer.{Refines, SameOption, IsOutOfMemory, ◌or◌, IsDecodingError};
ghost use Rattle.jsonb_doc.specs.AnyBytes.Spots.{spots_bound};
ghost use Rattle.jsonb_doc.specs.Representation.Positions.{Locates, HasSpotsLeft};
ghost use Rattle.jsonb_doc.specs.Tree.{Tree};
ghost use Rattle.jsonb_doc.specs.declared.error.Error.TheVariants.{OutOfMemory};
ghost use Rattle.jsonb_raw.specs.Arrays.{array_values};
ghost use Rattle.jsonb.specs.ItemSteps.{values_of, list_or, picked_by, picked};
ghost use Rattle.jsonb.specs.Meaning.{step_meaning};
ghost use Rattle.jsonb.specs.PathViews.{step_view};
ghost use Rattle.jsonb.specs.SelectionErrors.{IsSelectionError};
ghost use Rattle.jsonb.specs.Private.ItemSteps.{AreAppended, indices_step, AreGiven, GivesItems};
ghost use Rattle.jsonb.specs.Private.Selection.{is_filter, option_spots};

use super::document::Mode;
use super::levels::push_levels;
use super::members::member_of;
use crate::path::{ArrayIndex, Path, RecursiveLevel};
use jsonb_doc::{Error, Spot, SpotIter, element_spots, spot_by_parts, value_spots};
use std::alloc::Global;

/// Returns the elements of an array, or `None` for another item.
#[inline(always)]
pub(crate) fn elements<'a>(bytes: &'a [u8], item: Spot) -> Result<Option<SpotIter<'a>>, Error>
    ensures meant { (t : Tree) → Locates bytes.now item t
        → IsOkAnd result (λ found. SameOption (HasSpotsLeft bytes.now) found (array_values t)) }
    ensures short { IfOk result (λ found. IfSome found (λ it. spots_bound it < 2 ^ 30)) }
    ensures errors { IfErr result IsDecodingError }
{
    element_spots(bytes, item)
}

/// Returns the values of an object, in the order of their keys, or `None` for another item.
#[inline(always)]
pub(crate) fn values<'a>(bytes: &'a [u8], item: Spot) -> Result<Option<SpotIter<'a>>, Error>
    ensures meant { (t : Tree) → Locates bytes.now item t
        → IsOkAnd result (λ found. SameOption (HasSpotsLeft bytes.now) found (values_of t)) }
    ensures short { IfOk result (λ found. IfSome found (λ it. spots_bound it < 2 ^ 30)) }
    ensures errors { IfErr result IsDecodingError }
{
    value_spots(bytes, item)
}

/// Appends a position.
#[inline(always)]
pub(crate) fn push_spot(nodes: &mut Vec<Spot>, spot: Spot) -> Result<(), Error>
    ensures ok { OnOk result (nodes.new.items ≡ nodes.old.items ++ spot ∷ []) }
    ensures err { IfErr result IsOutOfMemory }
{
    nodes.push(spot_by_parts(spot))?;
    Ok(())
}

/// Appends a position if the condition holds.
#[inline(always)]
pub(crate) fn push_if(condition: bool, spot: Spot, nodes: &mut Vec<Spot>) -> Result<(), Error>
    ensures meant { (bytes : List ℕ) (t : Tree) (before : List Tree) → Locates bytes spot t
        → AreAppended bytes nodes.old.items nodes.new.items before result (Ok (if condition then t ∷ [] else [])) }
    ensures errors { IfErr result IsOutOfMemory }
{
    if condition {
        push_spot(nodes, spot)
    } else {
        Ok(())
    }
}

/// Appends the remaining positions of an iterator.
#[inline(always)]
pub(crate) fn push_spots(spots: SpotIter<'_>, nodes: &mut Vec<Spot>) -> Result<(), Error>
    ensures meant { (bytes : List ℕ) (ts before : List Tree) → HasSpotsLeft bytes spots.entry ts
        → AreAppended bytes nodes.old.items nodes.new.items before result (Ok ts) }
    ensures errors { IfErr result (IsDecodingError or OutOfMemory) }
{
    nodes.reserve(spots.len())?;
    for spot in spots {
        push_spot(nodes, spot?)?;
    }
    Ok(())
}

/// What a step without an expression selects of an item.
#[derive(Clone, Copy)]
pub(crate) enum StepItems<'t> {
    AtMostOne(Option<Spot>),
    Children(SpotIter<'t>),
    /// The elements at the positions of the subscripts.
    Picked(&'t [ArrayIndex], SpotIter<'t>),
    /// The items from this one down.
    Levels(Option<RecursiveLevel>, Spot),
}

impl<'t> StepItems<'t> {
    /// Returns the number of children, for which a list needs room, and 0 for other items.
    #[inline(always)]
    pub(crate) fn least_len(&self) -> usize {
        match self {
            StepItems::Children(children) => children.len(),
            _ => 0,
        }
    }

    /// Appends the items.
    #[inline(always)]
    pub(crate) fn push(
        self,
        alloc: Global,
        bytes: &[u8],
        nodes: &mut Vec<Spot>,
    ) -> Result<(), Error>
        ensures meant { (ts before : List Tree) → AreGiven bytes.now self.entry ts
            → AreAppended bytes.now nodes.old.items nodes.new.items before result (Ok ts) }
        ensures errors { IfErr result (IsDecodingError or OutOfMemory) }
    {
        match self {
            StepItems::AtMostOne(Some(item)) => push_spot(nodes, item),
            StepItems::AtMostOne(None) => Ok(()),
            StepItems::Children(children) => push_spots(children, nodes),
            StepItems::Picked(entries, elements) => push_picked(alloc, elements, entries, nodes),
            StepItems::Levels(levels, item) => push_levels(alloc, bytes, levels, 0, item, nodes),
        }
    }
}

/// Returns what a step without an expression selects of an item.
#[inline(always)]
pub(crate) fn plain_items<'t>(
    mode: Mode,
    step: &'t Path<'_>,
    bytes: &'t [u8],
    item: Spot,
) -> Result<StepItems<'t>, Error>
    ensures meant { (top t : Tree) → is_filter (step_view step.now) ≡ false → Locates bytes.now item t
        → Refines (AreGiven bytes.now) IsOutOfMemory result (step_meaning mode (step_view step.now) top t) }
    ensures errors { IfErr result (IsSelectionError mode) }
{
    match step {
        Path::DotWildcard => items_or(mode, values(bytes, item), None),
        Path::BracketWildcard => items_or(mode, elements(bytes, item), Some(item)),
        Path::ArrayIndices(entries) => picked_items(mode, entries, bytes, item),
        Path::RecursiveDotWildcard(levels) => Ok(StepItems::Levels(*levels, item)),
        Path::Root
        | Path::Current
        | Path::DotField(_)
        | Path::ColonField(_)
        | Path::ObjectField(_) => {
            let found = member_of(mode, step, bytes, item)?;
            Ok(StepItems::AtMostOne(found))
        }
        Path::FilterExpr(_) | Path::Expr(_) => Err(Error::InvalidJsonPath),
    }
}

/// Returns children as items. Without children, nothing is left to visit.
#[inline(always)]
fn child_items<'t>(children: SpotIter<'t>) -> StepItems<'t>
    ensures { (bytes : List ℕ) (ts : List Tree) → HasSpotsLeft bytes children.entry ts → AreGiven bytes result ts }
{
    if children.len() == 0 {
        return StepItems::AtMostOne(None);
    }
    StepItems::Children(children)
}

/// Returns the children of an item, if it has any. Otherwise the step does not apply to it: in strict mode it fails.
#[inline(always)]
fn items_or<'t>(
    mode: Mode,
    found: Result<Option<SpotIter<'t>>, Error>,
    otherwise: Option<Spot>,
) -> Result<StepItems<'t>, Error>
    ensures meant { (bytes : List ℕ) (ts : Option (List Tree)) (us : List Tree)
        → IsOkAnd found.entry (λ children. SameOption (HasSpotsLeft bytes) children ts)
        → AllZip (Locates bytes) (option_spots otherwise) us
        → Refines (AreGiven bytes) IsOutOfMemory result (list_or mode us ts) }
    ensures errors { IfErr found.entry IsDecodingError → IfErr result (IsSelectionError mode) }
{
    match found? {
        Some(children) => Ok(child_items(children)),
        None => match mode {
            Mode::Lax => Ok(StepItems::AtMostOne(otherwise)),
            Mode::Strict => Err(Error::StrictPath),
        },
    }
}

/// Returns the elements of an array at the positions of the subscripts.
#[inline(always)]
fn picked_items<'t>(
    mode: Mode,
    entries: &'t [ArrayIndex],
    bytes: &'t [u8],
    item: Spot,
) -> Result<StepItems<'t>, Error>
    ensures meant { GivesItems bytes.now item result (indices_step mode entries.now) }
    ensures errors { IfErr result (IsSelectionError mode) }
{
    match elements(bytes, item)? {
        Some(elements) => picked_elements(entries, elements),
        None => items_or(mode, Ok(None), None),
    }
}

/// Returns the elements at the positions of the subscripts. For a single position the array is visited up to it.
#[inline(always)]
fn picked_elements<'t>(
    entries: &'t [ArrayIndex],
    elements: SpotIter<'t>,
) -> Result<StepItems<'t>, Error>
    ensures meant { (bytes : List ℕ) (ts : List Tree) → HasSpotsLeft bytes elements.entry ts
        → Refines (AreGiven bytes) IsOutOfMemory result (Ok (picked entries.now ts)) }
    ensures errors { IfErr result IsDecodingError }
{
    let Some(entry) = only_entry(entries) else {
        return Ok(StepItems::Picked(entries, elements));
    };
    let (start, end) = entry.bounds(elements.len());
    if start == end {
        return Ok(StepItems::AtMostOne(None));
    }
    if end - start > 1 {
        return Ok(StepItems::Picked(entries, elements));
    }
    let found = nth(elements, start)?;
    Ok(StepItems::AtMostOne(found))
}

/// Returns the subscript if there is one alone.
#[inline(always)]
fn only_entry(entries: &[ArrayIndex]) -> Option<&ArrayIndex>
    ensures { MatchOption result ⊤ (λ entry. entries.now ≡ entry.now ∷ []) }
{
    match entries {
        [entry] => Some(entry),
        _ => None,
    }
}

/// Appends the elements at the positions of the subscripts. All elements are visited once.
fn push_picked(
    alloc: Global,
    elements: SpotIter<'_>,
    entries: &[ArrayIndex],
    nodes: &mut Vec<Spot>,
) -> Result<(), Error>
    ensures meant { (bytes : List ℕ) (ts before : List Tree) → HasSpotsLeft bytes elements.entry ts
        → AreAppended bytes nodes.old.items nodes.new.items before result (Ok (picked entries.now ts)) }
    ensures errors { IfErr result (IsDecodingError or OutOfMemory) }
{
    let mut spots = Vec::new(alloc);
    push_spots(elements, &mut spots)?;
    push_entries(entries, &spots, nodes)
}

/// Returns the element at a position.
#[inline(always)]
fn nth(elements: SpotIter<'_>, position: usize) -> Result<Option<Spot>, Error>
    ensures meant { (bytes : List ℕ) (ts : List Tree) → HasSpotsLeft bytes elements.entry ts
        → Refines (λ found us. AllZip (Locates bytes) (option_spots found) us) IsOutOfMemory result
        (Ok (filter_map (slice_get ts) (position ∷ []))) }
    ensures errors { IfErr result IsDecodingError }
{
    let mut before = position;
    for element in elements {
        let element = element?;
        if before == 0 {
            return Ok(Some(element));
        }
        before -= 1;
    }
    Ok(None)
}

/// Appends the elements at the positions of each subscript, one subscript after the other.
#[tactic(auto, using(crate::proofs::RefinesLemmas::failed_as, crate::proofs::RefinesLemmas::only_memory))]
fn push_entries(
    entries: &[ArrayIndex],
    elements: &[Spot],
    nodes: &mut Vec<Spot>,
) -> Result<(), Error>
    ensures meant { (bytes : List ℕ) (ts before : List Tree) → AllZip (Locates bytes) elements.now ts
        → AreAppended bytes nodes.old.items nodes.new.items before result (Ok (picked entries.now ts)) }
    ensures errors { IfErr result (IsDecodingError or OutOfMemory) }
{
    for entry in entries {
        push_entry(entry, elements, nodes)?;
    }
    Ok(())
}

/// Appends the elements at the positions of one subscript, ascending.
fn push_entry(entry: &ArrayIndex, elements: &[Spot], nodes: &mut Vec<Spot>) -> Result<(), Error>
    ensures meant { (bytes : List ℕ) (ts before : List Tree) → AllZip (Locates bytes) elements.now ts
        → AllZip (Locates bytes) nodes.old.items before
        → Refines (λ _ us. AllZip (Locates bytes) nodes.new.items (before ++ us)) IsOutOfMemory result
        (Ok (picked_by entry.now ts)) }
    ensures errors { IfErr result IsOutOfMemory }
{
    let (start, end) = entry.bounds(elements.len());
    nodes.extend_from_slice(&elements[start..end])?;
    Ok(())
}
