//! The functions on arrays.
//!
//! On bytes that do not decode each function returns; its result is not specified.

ghost use Rattle.std.specs.Prelude.{◌≡◌, List, [], ◌∷◌, Ok, None, IfOk, IfErr, IfSome, IsSomeAnd, MatchOption, MatchResult, OnOk};
ghost use Rattle.std.specs.List.{insert, All, Any, AllZip};
ghost use Rattle.jsonb_doc.specs.Tree.{Tree, array, trees_of};
ghost use Rattle.jsonb_doc.specs.Payload.{Form};
ghost use Rattle.jsonb_doc.specs.Format.{Decodes};
ghost use Rattle.jsonb_raw.specs.AnyBytes.Roots.{HasRootShape, IsWhole};
ghost use Rattle.jsonb_raw.specs.Computes.{Computes};
ghost use Rattle.jsonb_raw.specs.Documents.{raw_bytes, Makes};
ghost use Rattle.jsonb_doc.specs.Limits.{IsTooLarge};
ghost use Rattle.jsonb_doc.specs.Answer.{◌or◌, ◌or◌when◌, IsOutOfMemory, IsDecodingError};
ghost use Rattle.jsonb_doc.specs.declared.error.Error.TheVariants.{OutOfMemory, TooLarge};
ghost use Rattle.jsonb_raw.specs.Private.Entries.{HoldTrees};
ghost use Rattle.jsonb_raw.specs.Arrays.{array_length, array_values, array_insert, insert_place};

mod counts;
pub(crate) mod hashes;
pub(crate) mod key_table;
mod overlap;
pub(crate) mod overlap_in;
mod seen;
mod sets;

use crate::functions::entries::{element_entries, entry_count, entry_document};
use crate::functions::joined::array_of;
use crate::functions::parts::{Elements, Entries, EntryWithWord};
use crate::owned::OwnedJsonb;
use crate::raw::RawJsonb;
use jsonb_doc::{Error, elements};
use std::alloc::Global;

impl RawJsonb<'_> {
    /// Returns the number of elements, or `None` if the root is not an array.
    ///
    /// Like PostgreSQL's `jsonb_array_length`.
    ///
    /// # Errors
    ///
    /// Decoding errors.
    ///
    /// # Complexity
    ///
    /// O(1). Does not allocate.
    ///
    /// # Examples
    ///
    /// <!-- rows: calls: array_length -->
    /// | Document | Result |
    /// |---|---|
    /// | `[false,10,{"k":"v"}]` | `3` |
    /// | `{"asd":"adf"}` | none |
    #[tactic(auto, using(crate::proofs::ObjectLemmas::array_of, crate::proofs::Sets::rawjsonb_array_length))]
    pub fn array_length(&self) -> Result<Option<usize>, Error>
        ensures length { Computes array_length (raw_bytes self.now) result }
        ensures errors { IfErr result IsDecodingError }
    {
        let Some(elements) = elements(self.as_bytes())? else {
            return Ok(None);
        };
        Ok(Some(elements.len()))
    }

    /// Returns the elements, each as a new document, or `None` if the root is not an array.
    ///
    /// Like PostgreSQL's `jsonb_array_elements`.
    ///
    /// # Errors
    ///
    /// Construction errors.
    ///
    /// # Complexity
    ///
    /// O(n). Allocates; each element is copied.
    ///
    /// # Examples
    ///
    /// <!-- rows: calls: array_values -->
    /// | Document | Result |
    /// |---|---|
    /// | `[false,10,{"k":"v"}]` | `false`, `10`, `{"k":"v"}` |
    pub fn array_values(&self, alloc: Global) -> Result<Option<Vec<OwnedJsonb>>, Error>
        ensures values { (form : Form) (t : Tree) → Decodes form (raw_bytes self.now) t
            → MatchOption (array_values t) (result ≡ Ok None) (λ ts. MatchResult result
            (λ found. IsSomeAnd found (λ made. AllZip (Decodes form) made.items ts))
            (IsOutOfMemory or TooLarge when Any (IsTooLarge form) ts)) }
        ensures whole { IfOk result (λ found. IfSome found (λ made. All IsWhole made.items)) }
        ensures errors { IfErr result (IsDecodingError or OutOfMemory or TooLarge) }
    {
        let Some(entries) = element_entries(self.as_bytes())? else {
            return Ok(None);
        };
        Ok(Some(entry_documents(alloc, entries)?))
    }

    /// Returns the array with the root of the other document as one more element, at position `pos`.
    ///
    /// A negative position counts from the end; a position before the start is 0, and one past the end the length. A
    /// root that is not an array counts as an array of one element. Like PostgreSQL's `jsonb_insert`.
    ///
    /// # Errors
    ///
    /// Construction errors.
    ///
    /// # Complexity
    ///
    /// O(n) of both. Allocates; each byte is copied once.
    ///
    /// # Examples
    ///
    /// ```rust crates/jsonb_examples/src/calls.rt
    /// let longer = queue.array_insert(alloc, i32::MAX, entry)?;
    /// Ok(Some(longer))
    /// ```
    ///
    /// <!-- rows: calls: array_insert -->
    /// | Document | Arguments | Result |
    /// |---|---|---|
    /// | `[1]` | `2147483647`, `9` | `[1,9]` |
    /// | `1` | `0`, `9` | `[9,1]` |
    /// | `[10,20,30]` | `1`, `9` | `[10,9,20,30]` |
    /// | `[10,20,30]` | `-1`, `9` | `[10,20,9,30]` |
    pub fn array_insert(
        &self,
        alloc: Global,
        pos: i32,
        new_val: &RawJsonb<'_>,
    ) -> Result<OwnedJsonb, Error>
        ensures inserted { (form : Form) (t value : Tree) → Decodes form (raw_bytes self.now) t
            → Decodes form (raw_bytes new_val.now) value → Makes form (array_insert pos value t) result }
        ensures errors { IfErr result (IsDecodingError or OutOfMemory or TooLarge) }
        ensures reads { OnOk result (HasRootShape (raw_bytes self.now) × HasRootShape (raw_bytes new_val.now)) }
    {
        array_with_element(alloc, self.as_bytes(), pos, new_val.as_bytes())
    }
}

/// Returns each of these entries as a new document.
#[tactic(auto, using(crate::proofs::AnswerLemmas::all_made, crate::proofs::RunLemmas::no_entry_left))]
fn entry_documents(alloc: Global, entries: Entries<'_>) -> Result<Vec<OwnedJsonb>, Error>
    ensures documents { (form : Form) (ts : List Tree) → HoldTrees form entries.entry ts
        → MatchResult result (λ made. AllZip (Decodes form) made.items ts)
        (IsOutOfMemory or TooLarge when Any (IsTooLarge form) ts) }
    ensures whole { IfOk result (λ made. All IsWhole made.items) }
    ensures errors { IfErr result (IsDecodingError or OutOfMemory or TooLarge) }
{
    let mut documents = Vec::with_capacity(alloc, entry_count(entries))?;
    let mut left = entries;
    while let Some((entry, others)) = left.first()? {
        documents.push(entry_document(alloc, entry.kind, entry.content)?)?;
        left = others;
    }
    Ok(documents)
}

/// Returns the position to insert at in a list of this length: counted from the end if negative, and clamped to the
/// range from 0 to the length.
fn insert_place(len: usize, pos: i32) -> usize
    ensures { result ≡ insert_place len pos }
{
    let distance = pos.unsigned_abs() as usize;
    let is_from_end = pos < 0;
    if is_from_end {
        len.saturating_sub(distance)
    } else {
        distance.min(len)
    }
}

/// Returns the elements of a document with the root of another one inserted at a position.
fn array_with_element<'a>(
    alloc: Global,
    bytes: &'a [u8],
    pos: i32,
    value: &'a [u8],
) -> Result<OwnedJsonb, Error>
    ensures inserted { (form : Form) (t u : Tree) → Decodes form bytes.now t → Decodes form value.now u
        → Makes form (array_insert pos u t) result }
    ensures reads { OnOk result (HasRootShape bytes.now × HasRootShape value.now) }
    ensures errors { IfErr result (IsDecodingError or OutOfMemory or TooLarge) }
{
    let elements = Elements::of_document(bytes)?;
    let element = EntryWithWord::of_root(value)?;
    let entries = elements.as_entries();
    let place = insert_place(entry_count(entries), pos);
    array_with_entry(alloc, entries, place, element.as_entries())
}

/// Returns the array of these entries with another one inserted at a position.
fn array_with_entry<'a>(
    alloc: Global,
    entries: Entries<'a>,
    place: usize,
    element: Entries<'a>,
) -> Result<OwnedJsonb, Error>
    ensures inserted { (form : Form) (ts : List Tree) (t : Tree) → HoldTrees form entries.entry ts
        → HoldTrees form element.entry (t ∷ [])
        → Makes form (array (trees_of (insert ts place t))) result }
    ensures errors { IfErr result (IsDecodingError or OutOfMemory or TooLarge) }
{
    let (front, back) = entries.split(place)?;
    array_of(alloc, &[front, element, back])
}
