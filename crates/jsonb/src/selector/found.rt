//! What a path selects, found in place: positions of the document, and computed values.

ghost use Rattle.std.specs.List.{HoldsAt, AllZip, Any};
ghost use Rattle.std.specs.Prelude.{◌<◌, List, Ok, IfErr, MatchResult};
ghost use Rattle.jsonb_doc.specs.Answer.{IsOutOfMemory, ◌or◌, ◌or◌when◌, Refines, IsDecodingError};
ghost use Rattle.jsonb_doc.specs.Format.{Decodes};
ghost use Rattle.jsonb_doc.specs.Limits.{IsTooLarge};
ghost use Rattle.jsonb_doc.specs.Payload.{Form};
ghost use Rattle.jsonb_doc.specs.Private.Errors.{IsOutOfMemoryOrTooLarge};
ghost use Rattle.jsonb_doc.specs.Tree.{Tree};
ghost use Rattle.jsonb_doc.specs.declared.error.Error.TheVariants.{OutOfMemory, TooLarge};
ghost use Rattle.jsonb_raw.specs.Documents.{raw_bytes, Makes};
ghost use Rattle.jsonb.specs.FoundItems.{IsItemOf};
ghost use Rattle.jsonb.specs.Private.Selected.{selected_len};
ghost use Rattle.jsonb.specs.Private.Selection.{AreSelected, OfSelected};
ghost use Rattle.jsonb.specs.declared.selector.document.Document.{Document};

use super::document::Document;
use super::documents::{made_document, number_document, selected_len};
use super::selected::Selected;
use jsonb_doc::{Error, Number, Spot, spot_document};
use jsonb_raw::{OwnedJsonb, RawJsonb};
use std::alloc::Global;

/// An item that a path selects, found in place.
#[derive(Debug, Drop)]
pub enum FoundItem {
    /// An item of the document, at this position.
    At(Spot),
    /// A number that a sign or arithmetic computed.
    Number(Number),
    /// The result of another expression, as a document.
    Document(OwnedJsonb),
}

impl FoundItem {
    /// Returns the item as a document. `document` must be the one in which it was found; otherwise the result is
    /// unspecified.
    ///
    /// # Errors
    ///
    /// `TooLarge` only if the item exceeds the limits of a document, `OutOfMemory` if an allocation fails,
    /// `InvalidJsonb` and `UnsupportedNumber` only if the document does not decode or is another one.
    ///
    /// # Complexity
    ///
    /// O(n) for an item of n bytes, which are copied. Allocates.
    ///
    /// # Examples
    ///
    /// ```rust crates/jsonb_examples/src/evaluation.rt
    /// for item in found.iter().skip(from).take(size) {
    ///     page.push(item.to_document(alloc, &document)?)?;
    /// }
    /// ```
    pub fn to_document(&self, alloc: Global, document: &RawJsonb<'_>) -> Result<OwnedJsonb, Error>
        ensures document { (form : Form) (top t : Tree) → Decodes form (raw_bytes document.now) top
            → IsItemOf (raw_bytes document.now) form self.now t → Makes form t result }
        ensures errors { IfErr result (IsDecodingError or OutOfMemory or TooLarge) }
    {
        match self {
            FoundItem::At(spot) => {
                let item = spot_document(alloc, document.as_bytes(), *spot)?;
                Ok(OwnedJsonb::new(item))
            }
            FoundItem::Number(number) => number_document(alloc, *number),
            FoundItem::Document(item) => Ok(item.clone(alloc)?),
        }
    }
}

/// Returns the item at a position of the selection.
#[inline(always)]
#[tactic(auto, using(crate::proofs::Sets::found_found_at))]
fn found_at(alloc: Global, selected: &Selected<'_>, position: usize) -> Result<FoundItem, Error>
    requires { position < selected_len selected.now }
    ensures item { (form : Form) (document : Document) (ts : List Tree) → AreSelected form document selected.now ts
        → HoldsAt (λ t. MatchResult result (λ item. IsItemOf document.bytes.now form item t)
        (IsOutOfMemoryOrTooLarge form t)) ts position }
    ensures errors { IfErr result (IsOutOfMemory or TooLarge) }
{
    match selected {
        Selected::Nodes(spots) => Ok(FoundItem::At(spots.as_slice()[position])),
        Selected::Numbers(numbers) => Ok(FoundItem::Number(numbers[position])),
        Selected::Made(part) => Ok(FoundItem::Document(made_document(alloc, part)?)),
    }
}

/// Returns each selected item, in order. Fails with `TooLarge` if a computed item exceeds the limits of a document.
pub(crate) fn found_items(
    alloc: Global,
    document: Document<'_>,
    selected: &Selected<'_>,
) -> Result<Vec<FoundItem>, Error>
    ensures items { OfSelected document.entry selected.now (λ form ts.
        Refines (λ v us. AllZip (IsItemOf document.entry.bytes.now form) v.items us)
        (IsOutOfMemory or TooLarge when Any (IsTooLarge form) ts) result (Ok ts)) }
    ensures errors { IfErr result (IsDecodingError or OutOfMemory or TooLarge) }
{
    let len = selected_len(selected);
    let mut found = Vec::with_capacity(alloc, len)?;
    for position in 0..len {
        found.push_reserved(found_at(alloc, selected, position)?);
    }
    Ok(found)
}
