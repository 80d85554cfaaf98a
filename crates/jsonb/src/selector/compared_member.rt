//! Comparisons of an item with values, by its type and its bytes. The elements of an array are not collected in a list,
//! and strings are not validated.

ghost use Rattle.std.specs.Prelude.{◌≡◌, ◌∷◌, [], Ok, List, map, flat_map, true, IfErr};
ghost use Rattle.jsonb_doc.specs.Answer.{Refines, and_then, IsOutOfMemory, IsDecodingError, ◌or◌};
ghost use Rattle.jsonb_doc.specs.declared.error.Error.TheVariants.{OutOfMemory};
ghost use Rattle.jsonb_doc.specs.Representation.Positions.{Locates, HasSpotsLeft};
ghost use Rattle.jsonb_doc.specs.Tree.{Tree};
ghost use Rattle.jsonb.specs.PathTree.{Expression, steps_of};
ghost use Rattle.jsonb.specs.PathViews.{literal_view, steps_view};
ghost use Rattle.jsonb.specs.Compare.{compare};
ghost use Rattle.jsonb.specs.Values.{literal_value, values_of_item, value_of_item};
ghost use Rattle.jsonb.specs.Meaning.{steps_meaning, truth};
ghost use Rattle.jsonb.specs.Private.Compared.{AreChildrenCompared, IsMemberCompared};
ghost use Rattle.jsonb.specs.Private.ItemSteps.{values_step};
ghost use Rattle.jsonb.specs.Private.Members.{are_members};
ghost use Rattle.std.specs.List.{AllZip};
ghost use Rattle.jsonb.specs.Private.Selection.{option_spots, taken_step, value_view};
ghost use Rattle.jsonb.specs.declared.selector.document.Expressions.TheVariants.{AreRefused};
ghost use Rattle.jsonb.specs.declared.selector.document.Mode.{Mode};
ghost use Rattle.jsonb.specs.SelectionErrors.{IsSelectionError};

use super::children::{elements, values};
use super::document::{Mode, TruthResult};
use super::members::{member, named_member};
use super::node_list::NodeList;
use super::operand_value::{
    OperandValue, compare_one, compare_short, numbers_truth, value_of_item, value_of_literal,
};
use super::plan::MemberCompared;
use super::values::found_values;
use crate::path::{BinaryOperator, PathValue};
use jsonb_doc::layout::EntryKind;
use jsonb_doc::{Error, Spot, SpotIter, spot_by_parts, spot_number, spot_value};
use std::alloc::Global;
use std::slice;

/// Returns the member that a comparison is of.
#[inline(always)]
pub(crate) fn compared_member(
    mode: Mode,
    comparison: &MemberCompared<'_, '_>,
    bytes: &[u8],
    item: Spot,
) -> Result<Option<Spot>, Error>
    ensures meant { (top t : Tree) → are_members (steps_view comparison.now.names.now) ≡ true
        → Locates bytes.now item t
        → Refines (λ found us. AllZip (Locates bytes.now) (option_spots found) us) IsOutOfMemory result
        (steps_meaning mode (steps_of (map (taken_step AreRefused) (steps_view comparison.now.names.now)))
        top (t ∷ [])) }
    ensures errors { IfErr result (IsSelectionError mode) }
{
    named_member(mode, comparison.names, bytes, item)
}

/// Returns how the member that was looked up compares with the literal.
#[inline(always)]
pub(crate) fn literal_truth(
    comparison: &MemberCompared<'_, '_>,
    bytes: &[u8],
    found: Result<Option<Spot>, Error>,
) -> TruthResult
    ensures meant { (e : Expression) (mode : Mode) (top t : Tree) → IsMemberCompared comparison.now e
        → Refines (λ spot us. AllZip (Locates bytes.now) (option_spots spot) us) IsOutOfMemory found
        (steps_meaning mode (steps_of (map (taken_step AreRefused) (steps_view comparison.now.names.now)))
        top (t ∷ []))
        → Refines (λ b c. b ≡ c) IsOutOfMemory result (truth mode e top t) }
    ensures errors { (mode : Mode) → IfErr found (IsSelectionError mode) → IfErr result (IsSelectionError mode) }
{
    let member = found?;
    let rights = slice::from_ref(&comparison.literal);
    found_truth(comparison.op, bytes, member, rights)
}

/// Returns how a member of an item compares with the literal.
///
/// It is too large to be inlined. A loop that evaluates many items makes the two calls itself.
pub(crate) fn item_truth(
    mode: Mode,
    comparison: &MemberCompared<'_, '_>,
    bytes: &[u8],
    item: Spot,
) -> TruthResult
    ensures meant { (e : Expression) (top t : Tree) → IsMemberCompared comparison.now e
        → Locates bytes.now item t
        → Refines (λ b c. b ≡ c) IsOutOfMemory result (truth mode e top t) }
    ensures errors { IfErr result (IsSelectionError mode) }
{
    let found = compared_member(mode, comparison, bytes, item);
    literal_truth(comparison, bytes, found)
}

/// Returns how the children of a member compare with the literal. They are not collected in a list.
#[inline(never)]
pub(crate) fn children_truth(
    mode: Mode,
    comparison: &MemberCompared<'_, '_>,
    bytes: &[u8],
    item: Spot,
) -> TruthResult
    ensures meant { (e : Expression) (top t : Tree) → AreChildrenCompared comparison.now e
        → Locates bytes.now item t
        → Refines (λ b c. b ≡ c) IsOutOfMemory result (truth mode e top t) }
    ensures errors { IfErr result (IsSelectionError mode) }
{
    if comparison.names.is_empty() {
        return values_truth(mode, comparison, bytes, item);
    }
    match member(mode, comparison.names, bytes, item)? {
        Some(parent) => values_truth(mode, comparison, bytes, parent),
        None => Ok(Some(false)),
    }
}

/// Returns how the children of an item compare with the literal.
#[inline(always)]
fn values_truth(
    mode: Mode,
    comparison: &MemberCompared<'_, '_>,
    bytes: &[u8],
    item: Spot,
) -> TruthResult
    ensures meant { (t : Tree) → Locates bytes.now item t
        → Refines (λ b c. b ≡ c) IsOutOfMemory result
        (and_then (values_step mode t) (λ ts. Ok (compare comparison.now.op (flat_map values_of_item ts)
        (value_view comparison.now.literal ∷ [])))) }
    ensures errors { IfErr result (IsSelectionError mode) }
{
    match values(bytes, item)? {
        Some(values) => {
            let rights = slice::from_ref(&comparison.literal);
            each_truth(comparison.op, bytes, values, rights)
        }
        None => match mode {
            Mode::Lax => Ok(Some(false)),
            Mode::Strict => Err(Error::StrictPath),
        },
    }
}

/// Returns how the values of items compare with others: the first result that is true or unknown decides.
#[inline(always)]
fn each_truth(
    op: BinaryOperator,
    bytes: &[u8],
    items: SpotIter<'_>,
    rights: &[OperandValue<'_>],
) -> TruthResult
    ensures meant { (ts : List Tree) → HasSpotsLeft bytes.now items.entry ts
        → Refines (λ b c. b ≡ c) IsOutOfMemory result
        (Ok (compare op (flat_map values_of_item ts) (map value_view rights.now))) }
    ensures errors { IfErr result IsDecodingError }
{
    for item in items {
        let said = compared_truth(op, bytes, item?, rights)?;
        if said != Some(false) {
            return Ok(said);
        }
    }
    Ok(Some(false))
}

/// Returns how the values of a member compare with others, if there is one.
#[inline(always)]
pub(crate) fn found_truth(
    op: BinaryOperator,
    bytes: &[u8],
    member: Option<Spot>,
    rights: &[OperandValue<'_>],
) -> TruthResult
    ensures meant { (ts : List Tree) → AllZip (Locates bytes.now) (option_spots member) ts
        → Refines (λ b c. b ≡ c) IsOutOfMemory result
        (Ok (compare op (flat_map values_of_item ts) (map value_view rights.now))) }
    ensures errors { IfErr result IsDecodingError }
{
    match member {
        Some(found) => compared_truth(op, bytes, found, rights),
        None => Ok(Some(false)),
    }
}

/// Returns how the values of an item compare with others. A short number is compared by its digits.
#[inline(always)]
pub(crate) fn compared_truth(
    op: BinaryOperator,
    bytes: &[u8],
    item: Spot,
    rights: &[OperandValue<'_>],
) -> TruthResult
    ensures meant { (t : Tree) → Locates bytes.now item t
        → Refines (λ b c. b ≡ c) IsOutOfMemory result
        (Ok (compare op (values_of_item t) (map value_view rights.now))) }
    ensures errors { IfErr result IsDecodingError }
{
    match spot_number(bytes, item)? {
        Some(number) => Ok(compare_short(op, number, rights)),
        None => text_truth(op, bytes, item, rights),
    }
}

/// Returns how the values of two members compare, if there are both.
#[inline(always)]
pub(crate) fn members_compared(
    alloc: Global,
    op: BinaryOperator,
    bytes: &[u8],
    left: Option<Spot>,
    right: Option<Spot>,
) -> TruthResult
    ensures meant { (ts us : List Tree) → AllZip (Locates bytes.now) (option_spots left) ts
        → AllZip (Locates bytes.now) (option_spots right) us
        → Refines (λ b c. b ≡ c) IsOutOfMemory result
        (Ok (compare op (flat_map values_of_item ts) (flat_map values_of_item us))) }
    ensures errors { IfErr result (IsDecodingError or OutOfMemory) }
{
    match (left, right) {
        (Some(left), Some(right)) => items_compared(alloc, op, bytes, left, right),
        (Some(_), None) | (None, _) => Ok(Some(false)),
    }
}

/// Returns how the values of two items compare. Two short numbers are compared without a list of values.
#[inline(always)]
fn items_compared(
    alloc: Global,
    op: BinaryOperator,
    bytes: &[u8],
    left: Spot,
    right: Spot,
) -> TruthResult
    ensures meant { (t u : Tree) → Locates bytes.now left t → Locates bytes.now right u
        → Refines (λ b c. b ≡ c) IsOutOfMemory result (Ok (compare op (values_of_item t) (values_of_item u))) }
    ensures errors { IfErr result (IsDecodingError or OutOfMemory) }
{
    let l = spot_number(bytes, left)?;
    let r = spot_number(bytes, right)?;
    if let (Some(l), Some(r)) = (l, r) {
        return Ok(numbers_truth(op, l, &r.to_number()));
    }
    let rights = found_values(alloc, bytes, &NodeList::One(spot_by_parts(right)))?;
    compared_truth(op, bytes, left, rights.as_slice())
}

/// Returns how the values of an item compare with a literal, which is not copied if both are short numbers.
#[inline(always)]
pub(crate) fn compared_with(
    op: BinaryOperator,
    bytes: &[u8],
    item: Spot,
    literal: &PathValue<'_>,
) -> TruthResult
    ensures meant { (t : Tree) → Locates bytes.now item t
        → Refines (λ b c. b ≡ c) IsOutOfMemory result
        (Ok (compare op (values_of_item t) (literal_value (literal_view literal.now) ∷ []))) }
    ensures errors { IfErr result IsDecodingError }
{
    if let PathValue::Number(right) = literal {
        if let Some(left) = spot_number(bytes, item)? {
            return Ok(numbers_truth(op, left, right));
        }
    }
    other_with(op, bytes, spot_by_parts(item), literal)
}

/// Returns how the values of an item compare with a literal.
#[inline(never)]
fn other_with(op: BinaryOperator, bytes: &[u8], item: Spot, literal: &PathValue<'_>) -> TruthResult
    ensures meant { (t : Tree) → Locates bytes.now item t
        → Refines (λ b c. b ≡ c) IsOutOfMemory result
        (Ok (compare op (values_of_item t) (literal_value (literal_view literal.now) ∷ []))) }
    ensures errors { IfErr result IsDecodingError }
{
    let right = value_of_literal(literal);
    text_truth(op, bytes, item, slice::from_ref(&right))
}

/// Returns how the values of an item that is not a short number compare with others. A string is compared before other
/// types are examined, and without a call: each string of a list takes 43 fewer instructions. The result of the call for
/// the other types is moved, so that the result for a string stays in registers.
#[inline(always)]
fn text_truth(
    op: BinaryOperator,
    bytes: &[u8],
    item: Spot,
    rights: &[OperandValue<'_>],
) -> TruthResult
    ensures meant { (t : Tree) → Locates bytes.now item t
        → Refines (λ b c. b ≡ c) IsOutOfMemory result
        (Ok (compare op (values_of_item t) (map value_view rights.now))) }
    ensures errors { IfErr result IsDecodingError }
{
    match item.entry_kind() {
        EntryKind::Text => element_truth(op, bytes, item, rights),
        _ => {
            let truth = other_truth(op, bytes, spot_by_parts(item), rights)?;
            Ok(truth)
        }
    }
}

/// Returns how the values of an item that is neither a short number nor a string compare with others.
#[inline(never)]
fn other_truth(
    op: BinaryOperator,
    bytes: &[u8],
    item: Spot,
    rights: &[OperandValue<'_>],
) -> TruthResult
    ensures meant { (t : Tree) → Locates bytes.now item t
        → Refines (λ b c. b ≡ c) IsOutOfMemory result
        (Ok (compare op (values_of_item t) (map value_view rights.now))) }
    ensures errors { IfErr result IsDecodingError }
{
    match elements(bytes, item)? {
        Some(elements) => elements_truth(op, bytes, elements, rights),
        None => element_truth(op, bytes, item, rights),
    }
}

/// Returns how elements compare with others: the first result that is true or unknown decides.
fn elements_truth(
    op: BinaryOperator,
    bytes: &[u8],
    elements: SpotIter<'_>,
    rights: &[OperandValue<'_>],
) -> TruthResult
    ensures meant { (ts : List Tree) → HasSpotsLeft bytes.now elements.entry ts
        → Refines (λ b c. b ≡ c) IsOutOfMemory result
        (Ok (compare op (flat_map value_of_item ts) (map value_view rights.now))) }
    ensures errors { IfErr result IsDecodingError }
{
    for element in elements {
        let truth = element_truth(op, bytes, element?, rights)?;
        if truth != Some(false) {
            return Ok(truth);
        }
    }
    Ok(Some(false))
}

/// Returns how the value of an element, or of an item that is not an array, compares with others.
#[inline(always)]
fn element_truth(
    op: BinaryOperator,
    bytes: &[u8],
    item: Spot,
    rights: &[OperandValue<'_>],
) -> TruthResult
    ensures meant { (t : Tree) → Locates bytes.now item t
        → Refines (λ b c. b ≡ c) IsOutOfMemory result
        (Ok (compare op (value_of_item t) (map value_view rights.now))) }
    ensures errors { IfErr result IsDecodingError }
{
    let stored = spot_value(bytes, item)?;
    match value_of_item(stored) {
        Some(value) => Ok(compare_one(op, &value, rights)),
        None => Ok(Some(false)),
    }
}
