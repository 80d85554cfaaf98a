//! Documents of what a path selects.

ghost use Rattle.std.specs.List.{AllZip, Any};
ghost use Rattle.std.specs.Prelude.{◌≡◌, ◌∷◌, [], List, Option, Ok, IfErr, MatchResult};
ghost use Rattle.jsonb_doc.specs.Answer.{IsOutOfMemory, ◌or◌, ◌or◌when◌, Refines, SameOption, IsDecodingError};
ghost use Rattle.jsonb_doc.specs.Format.{Decodes};
ghost use Rattle.jsonb_doc.specs.Item.{StandsFor};
ghost use Rattle.jsonb_doc.specs.Limits.{IsTooLarge};
ghost use Rattle.jsonb_doc.specs.Payload.{Form};
ghost use Rattle.jsonb_doc.specs.Private.Errors.{IsOutOfMemoryOrTooLarge};
ghost use Rattle.jsonb_doc.specs.Representation.Positions.{Locates};
ghost use Rattle.jsonb_doc.specs.Tree.{Tree};
ghost use Rattle.jsonb_doc.specs.declared.error.Error.TheVariants.{OutOfMemory, TooLarge};
ghost use Rattle.jsonb_raw.specs.Documents.{Makes, MakesOption};
ghost use Rattle.jsonb.specs.Meaning.{first_item};
ghost use Rattle.jsonb.specs.SelectorAnswers.{single_or_array};
ghost use Rattle.jsonb.specs.Private.Selected.{selected_len, array_of};
ghost use Rattle.jsonb.specs.Private.Selection.{IsMadeItem, IsNumberItem, OfSelected};

use super::document::Document;
use super::selected::{MadeItem, Selected};
use jsonb_doc::layout::{HeaderKind, WORD};
use jsonb_doc::rewriting::Writer;
use jsonb_doc::{ArrayBuilder, Error, Item, Number, Spot, encode_item, spot_document, spot_entry};
use jsonb_raw::OwnedJsonb;
use std::alloc::Global;

/// Returns the number of items that are selected.
pub(crate) fn selected_len(selected: &Selected<'_>) -> usize
    ensures { result ≡ selected_len selected.now }
{
    match selected {
        Selected::Nodes(spots) => spots.as_slice().len(),
        Selected::Numbers(numbers) => numbers.len(),
        Selected::Made(_) => 1,
    }
}

/// Returns the array of one item, as a document.
fn array_of_one(alloc: Global, item: &Item<'_>) -> Result<Vec<u8>, Error>
    ensures document { (form : Form) (t : Tree) → StandsFor form item.now t
        → MatchResult result (λ v. Decodes form v.items (array_of (t ∷ [])))
        (IsOutOfMemoryOrTooLarge form (array_of (t ∷ []))) }
    ensures errors { IfErr result (IsOutOfMemory or TooLarge) }
{
    let mut builder = ArrayBuilder::new(alloc);
    builder.push_item(item)?;
    builder.build()
}

/// Returns a number as a document.
#[inline(always)]
pub(crate) fn number_document(alloc: Global, number: Number) -> Result<OwnedJsonb, Error>
    ensures document { (form : Form) (t : Tree) → IsNumberItem number t → Makes form t result }
    ensures errors { IfErr result (IsOutOfMemory or TooLarge) }
{
    Ok(OwnedJsonb::new(encode_item(alloc, &Item::Number(number))?))
}

/// Returns the result of an expression as a document.
pub(crate) fn made_document(alloc: Global, part: &MadeItem<'_>) -> Result<OwnedJsonb, Error>
    ensures document { (form : Form) (t : Tree) → IsMadeItem form part.now t → Makes form t result }
    ensures errors { IfErr result (IsOutOfMemory or TooLarge) }
{
    match part {
        MadeItem::Item(item) => Ok(OwnedJsonb::new(encode_item(alloc, item)?)),
        MadeItem::ArrayOf(item) => Ok(OwnedJsonb::new(array_of_one(alloc, item)?)),
    }
}

/// Returns an item of the document as a document, copied as it is stored, or `None` if there is none.
#[inline(always)]
pub(crate) fn found_document(
    alloc: Global,
    bytes: &[u8],
    found: Option<Spot>,
) -> Result<Option<OwnedJsonb>, Error>
    ensures document { (form : Form) (top : Tree) (t : Option Tree) → Decodes form bytes.now top
        → SameOption (Locates bytes.now) found t → MakesOption form t result }
    ensures errors { IfErr result (IsDecodingError or OutOfMemory or TooLarge) }
{
    match found {
        Some(spot) => Ok(Some(OwnedJsonb::new(spot_document(alloc, bytes, spot)?))),
        None => Ok(None),
    }
}

/// Returns each item of the document as a document, copied as it is stored.
fn spot_documents(alloc: Global, bytes: &[u8], spots: &[Spot]) -> Result<Vec<OwnedJsonb>, Error>
    ensures documents { (form : Form) (top : Tree) (ts : List Tree) → Decodes form bytes.now top
        → AllZip (Locates bytes.now) spots.now ts → Refines (λ v us. AllZip (Decodes form) v.items us)
        (IsOutOfMemory or TooLarge when Any (IsTooLarge form) ts) result (Ok ts) }
    ensures errors { IfErr result (IsDecodingError or OutOfMemory or TooLarge) }
{
    let len = spots.len();
    let mut documents = Vec::with_capacity(alloc, len)?;
    for position in 0..len {
        let document = spot_document(alloc, bytes, spots[position])?;
        documents.push_reserved(OwnedJsonb::new(document));
    }
    Ok(documents)
}

/// Returns each number as a document.
fn number_documents(alloc: Global, numbers: &[Number]) -> Result<Vec<OwnedJsonb>, Error>
    ensures documents { (form : Form) (ts : List Tree) → AllZip IsNumberItem numbers.now ts
        → Refines (λ v us. AllZip (Decodes form) v.items us)
        (IsOutOfMemory or TooLarge when Any (IsTooLarge form) ts) result (Ok ts) }
    ensures errors { IfErr result (IsOutOfMemory or TooLarge) }
{
    let len = numbers.len();
    let mut documents = Vec::with_capacity(alloc, len)?;
    for position in 0..len {
        documents.push_reserved(number_document(alloc, numbers[position])?);
    }
    Ok(documents)
}

/// Returns each selected item as a document, in order. Fails with `TooLarge` if an item exceeds the limits of a
/// document.
pub(crate) fn documents(
    alloc: Global,
    document: Document<'_>,
    selected: &Selected<'_>,
) -> Result<Vec<OwnedJsonb>, Error>
    ensures documents { OfSelected document.entry selected.now (λ form ts.
        Refines (λ v us. AllZip (Decodes form) v.items us) (IsOutOfMemory or TooLarge when Any (IsTooLarge form) ts)
        result (Ok ts)) }
    ensures errors { IfErr result (IsDecodingError or OutOfMemory or TooLarge) }
{
    match selected {
        Selected::Nodes(spots) => spot_documents(alloc, document.bytes, spots.as_slice()),
        Selected::Numbers(numbers) => number_documents(alloc, numbers),
        Selected::Made(part) => {
            let made = made_document(alloc, part)?;
            Ok(vec![in alloc; made]?)
        }
    }
}

/// Returns the number of bytes of an array of these items, or `usize::MAX` if it overflows.
#[inline(always)]
fn array_len(spots: &[Spot]) -> usize {
    let mut len = WORD;
    for spot in spots {
        let range = spot.range();
        len = len
            .saturating_add(WORD)
            .saturating_add(range.end.saturating_sub(range.start));
    }
    len
}

/// Returns the array of items of the document, each copied as it is stored.
fn spots_array(alloc: Global, bytes: &[u8], spots: &[Spot]) -> Result<Vec<u8>, Error>
    ensures document { (form : Form) (top : Tree) (ts : List Tree) → Decodes form bytes.now top
        → AllZip (Locates bytes.now) spots.now ts
        → MatchResult result (λ v. Decodes form v.items (array_of ts)) (IsOutOfMemoryOrTooLarge form (array_of ts)) }
    ensures errors { IfErr result (IsDecodingError or OutOfMemory or TooLarge) }
{
    let mut writer = Writer::new(alloc, HeaderKind::Array, spots.len(), array_len(spots))?;
    for spot in spots {
        let entry = spot_entry(bytes, *spot)?;
        writer.put(entry)?;
    }
    writer.finish()
}

/// Returns the array of numbers.
fn number_array(alloc: Global, numbers: &[Number]) -> Result<Vec<u8>, Error>
    ensures document { (form : Form) (ts : List Tree) → AllZip IsNumberItem numbers.now ts
        → MatchResult result (λ v. Decodes form v.items (array_of ts)) (IsOutOfMemoryOrTooLarge form (array_of ts)) }
    ensures errors { IfErr result (IsOutOfMemory or TooLarge) }
{
    let mut builder = ArrayBuilder::new(alloc);
    for position in 0..numbers.len() {
        builder.push_item(&Item::Number(numbers[position]))?;
    }
    builder.build()
}

/// Returns the array of the result of an expression.
fn part_array(alloc: Global, part: &MadeItem<'_>) -> Result<Vec<u8>, Error>
    ensures document { (form : Form) (t : Tree) → IsMadeItem form part.now t
        → MatchResult result (λ v. Decodes form v.items (array_of (t ∷ [])))
        (IsOutOfMemoryOrTooLarge form (array_of (t ∷ []))) }
    ensures errors { IfErr result (IsOutOfMemory or TooLarge) }
{
    match part {
        MadeItem::Item(item) => array_of_one(alloc, item),
        MadeItem::ArrayOf(item) => {
            let array = array_of_one(alloc, item)?;
            array_of_one(alloc, &Item::Array(array.as_slice()))
        }
    }
}

/// Returns an array of the selected items. Fails with `TooLarge` if it exceeds the limits.
pub(crate) fn array_document(
    alloc: Global,
    document: Document<'_>,
    selected: &Selected<'_>,
) -> Result<OwnedJsonb, Error>
    ensures document { OfSelected document.entry selected.now (λ form ts. Makes form (array_of ts) result) }
    ensures errors { IfErr result (IsDecodingError or OutOfMemory or TooLarge) }
{
    let array = match selected {
        Selected::Nodes(spots) => spots_array(alloc, document.bytes, spots.as_slice())?,
        Selected::Numbers(numbers) => number_array(alloc, numbers)?,
        Selected::Made(part) => part_array(alloc, part)?,
    };
    Ok(OwnedJsonb::new(array))
}

/// Returns the first selected item as a document, or `None`. Fails with `TooLarge` if it exceeds the limits of a
/// document.
#[inline(always)]
pub(crate) fn first_document(
    alloc: Global,
    document: Document<'_>,
    selected: &Selected<'_>,
) -> Result<Option<OwnedJsonb>, Error>
    ensures document { OfSelected document.entry selected.now (λ form ts. MakesOption form (first_item ts) result) }
    ensures errors { IfErr result (IsDecodingError or OutOfMemory or TooLarge) }
{
    match selected {
        Selected::Nodes(spots) => {
            let first = spots.as_slice().first().copied();
            found_document(alloc, document.bytes, first)
        }
        Selected::Numbers(numbers) => match numbers.first() {
            Some(first) => Ok(Some(number_document(alloc, *first)?)),
            None => Ok(None),
        },
        Selected::Made(part) => Ok(Some(made_document(alloc, part)?)),
    }
}

/// Returns the selected item as a document if it is the only one, an array if there are several, or `None`. Fails with
/// `TooLarge` if the item or the array exceeds the limits.
pub(crate) fn value_document(
    alloc: Global,
    document: Document<'_>,
    selected: &Selected<'_>,
) -> Result<Option<OwnedJsonb>, Error>
    ensures document { OfSelected document.entry selected.now
        (λ form ts. MakesOption form (single_or_array ts) result) }
    ensures errors { IfErr result (IsDecodingError or OutOfMemory or TooLarge) }
{
    if selected_len(selected) > 1 {
        return Ok(Some(array_document(alloc, document, selected)?));
    }
    first_document(alloc, document, selected)
}
