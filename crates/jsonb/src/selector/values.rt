//! The values of items.

ghost use Rattle.std.specs.List.{AllZip};
ghost use Rattle.std.specs.Prelude.{◌≡◌, List, Ok, IfErr, flat_map};
ghost use Rattle.jsonb_doc.specs.Answer.{Refines, IsOutOfMemory, IsDecodingError, ◌or◌};
ghost use Rattle.jsonb_doc.specs.Private.StoredValue.{IsStoredAs};
ghost use Rattle.jsonb_doc.specs.Representation.Positions.{Locates, HasSpotsLeft};
ghost use Rattle.jsonb_doc.specs.Tree.{Tree};
ghost use Rattle.jsonb_doc.specs.declared.error.Error.TheVariants.{OutOfMemory};
ghost use Rattle.jsonb.specs.Values.{values_of_item, value_of_item};
ghost use Rattle.jsonb.specs.Private.Appends.{Appends};
ghost use Rattle.jsonb.specs.Private.Selection.{node_spots, value_view, values_view};

use super::children::elements;
use super::node_list::NodeList;
use super::operand_value::{OperandValue, OperandValues, ValuesResult, value_of_item};
use jsonb_doc::{Error, Spot, SpotIter, StoredValue, spot_value};
use std::alloc::Global;

/// Returns the values of items.
#[inline(never)]
pub(crate) fn found_values<'a>(alloc: Global, bytes: &'a [u8], items: &NodeList) -> ValuesResult<'a>
    ensures meant { (ts : List Tree) → AllZip (Locates bytes.now) (node_spots items.now) ts
        → Refines (λ values vs. values_view values ≡ vs) IsOutOfMemory result (Ok (flat_map values_of_item ts)) }
    ensures errors { IfErr result (IsDecodingError or OutOfMemory) }
{
    match items {
        NodeList::One(item) => item_values(alloc, bytes, *item),
        NodeList::Many(items) => many_values(alloc, bytes, items),
    }
}

/// Returns the values of many items.
fn many_values<'a>(alloc: Global, bytes: &'a [u8], items: &[Spot]) -> ValuesResult<'a>
    ensures meant { (ts : List Tree) → AllZip (Locates bytes.now) items.now ts
        → Refines (λ values vs. values_view values ≡ vs) IsOutOfMemory result (Ok (flat_map values_of_item ts)) }
    ensures errors { IfErr result (IsDecodingError or OutOfMemory) }
{
    let mut values = Vec::with_capacity(alloc, items.len())?;
    for item in items {
        push_values(bytes, *item, &mut values)?;
    }
    Ok(OperandValues::Many(values))
}

/// Returns the values of one item. Does not allocate for a single value.
#[inline(always)]
fn item_values<'a>(alloc: Global, bytes: &'a [u8], item: Spot) -> ValuesResult<'a>
    ensures meant { (t : Tree) → Locates bytes.now item t
        → Refines (λ values vs. values_view values ≡ vs) IsOutOfMemory result (Ok (values_of_item t)) }
    ensures errors { IfErr result (IsDecodingError or OutOfMemory) }
{
    match elements(bytes, item)? {
        Some(elements) => {
            let mut values = Vec::new(alloc);
            push_each(bytes, elements, &mut values)?;
            Ok(OperandValues::Many(values))
        }
        None => {
            let stored = spot_value(bytes, item)?;
            let value = value_of_item(stored);
            Ok(OperandValues::at_most_one(alloc, value))
        }
    }
}

/// Appends the values of an item: of an array those of its elements.
#[inline(always)]
fn push_values<'a>(
    bytes: &'a [u8],
    item: Spot,
    values: &mut Vec<OperandValue<'a>>,
) -> Result<(), Error>
    ensures meant { (t : Tree) → Locates bytes.now item t
        → Appends value_view values.old.items values.new.items result (Ok (values_of_item t)) }
    ensures errors { IfErr result (IsDecodingError or OutOfMemory) }
{
    match elements(bytes, item)? {
        Some(elements) => push_each(bytes, elements, values),
        None => push_item(spot_value(bytes, item)?, values),
    }
}

/// Appends the value of each element.
fn push_each<'a>(
    bytes: &'a [u8],
    elements: SpotIter<'_>,
    values: &mut Vec<OperandValue<'a>>,
) -> Result<(), Error>
    ensures meant { (ts : List Tree) → HasSpotsLeft bytes.now elements.entry ts
        → Appends value_view values.old.items values.new.items result (Ok (flat_map value_of_item ts)) }
    ensures errors { IfErr result (IsDecodingError or OutOfMemory) }
{
    for element in elements {
        push_item(spot_value(bytes, element?)?, values)?;
    }
    Ok(())
}

/// Appends the value of an item that is not an array, or of an element.
#[inline(always)]
fn push_item<'a>(stored: StoredValue<'a>, values: &mut Vec<OperandValue<'a>>) -> Result<(), Error>
    ensures meant { (t : Tree) → IsStoredAs stored.entry t
        → Appends value_view values.old.items values.new.items result (Ok (value_of_item t)) }
    ensures errors { IfErr result (IsDecodingError or OutOfMemory) }
{
    match value_of_item(stored) {
        Some(value) => {
            values.push(value)?;
            Ok(())
        }
        None => Ok(()),
    }
}
