//! Functions on documents of any type.

ghost use Rattle.std.specs.Prelude.{◌≡◌, [], length, IsOk, IfErr, IfOk, MatchResult, OnOk, vec_capacity};
ghost use Rattle.std.specs.Int.{w8, w16};
ghost use Rattle.jsonb_doc.specs.Tree.{Tree};
ghost use Rattle.jsonb_doc.specs.Payload.{Form};
ghost use Rattle.jsonb_doc.specs.Format.{Decodes};
ghost use Rattle.jsonb_doc.specs.Answer.{IsOutOfMemory, IsDecodingError, ◌or◌};
ghost use Rattle.jsonb_doc.specs.declared.error.Error.TheVariants.{OutOfMemory, TooDeep};
ghost use Rattle.jsonb_raw.specs.AnyBytes.Roots.{HasRoot};
ghost use Rattle.jsonb_raw.specs.Documents.{raw_bytes};
ghost use Rattle.jsonb_raw.specs.KeyAnswer.{GivesKey, RanksAsTree};
ghost use Rattle.jsonb_raw.specs.KeyRoom.{HasKeyRoom};
ghost use Rattle.jsonb_raw.specs.SortableKey.{sortable_key};
ghost use Rattle.jsonb_doc.specs.Depth.{deepest};
ghost use Rattle.jsonb_raw.specs.EqualityKey.{equality_key};

mod column_key;
mod compare;
mod concat;
mod contains;
mod contains_in;
mod starts;
mod step;
mod strip;
mod stripping;
#[cfg(test)]
mod tests;
mod traverse;

pub use self::column_key::{
    composite_key, composite_key_wide, push_column_key, push_column_key_wide,
};
use crate::equality_key::{item_key, push_equality_key};
use crate::raw::RawJsonb;
use crate::sortable_key::{DepthWidth, push_sortable_key, sortable_key};
use jsonb_doc::{Error, root_item};
use std::alloc::Global;

impl RawJsonb<'_> {
    /// Returns the sortable key: bytes that compare as the documents do. docs/FORMAT.md has its layout and the order.
    ///
    /// Two documents without extensions have one key if and only if they are equal by value. With extensions the
    /// order is not specified, and different documents may share a key. Keys of `convert_to_comparable_wide` are not
    /// comparable with these.
    ///
    /// # Errors
    ///
    /// `TooDeep` if and only if an item is deeper than 255 (0 for the root; an object's keys are as deep as its
    /// values), and allocation errors.
    ///
    /// # Complexity
    ///
    /// O(n). Allocates.
    ///
    /// # Examples
    ///
    /// ```rust crates/jsonb_examples/src/first.rt
    /// let key = edited.as_raw().convert_to_comparable(alloc)?; // sorts as the document does
    /// assert!(rt; key > fred.convert_to_comparable(alloc)?);
    /// ```
    ///
    /// <!-- rows: calls: convert_to_comparable -->
    /// | Document | Result |
    /// |---|---|
    /// | `0` | `00 04 80` |
    pub fn convert_to_comparable(&self, alloc: Global) -> Result<Vec<u8>, Error>
        ensures key { (form : Form) (tree : Tree) → Decodes form (raw_bytes self.now) tree
            → GivesKey w8 (deepest tree) result (λ key. key.items ≡ sortable_key w8 tree 0) }
        ensures order { (form : Form) (tree : Tree) → Decodes form (raw_bytes self.now) tree
            → RanksAsTree w8 tree result }
        ensures errors { IfErr result (IsDecodingError or OutOfMemory or TooDeep) }
        ensures reads { OnOk result (HasRoot (raw_bytes self.now)) }
    {
        sortable_key(alloc, self.as_bytes(), DepthWidth::OneByte)
    }

    /// Returns the wide sortable key: like `convert_to_comparable`, with each depth in two bytes.
    ///
    /// It is not comparable with keys of that function.
    ///
    /// # Errors
    ///
    /// `TooDeep` if and only if an item is deeper than 65,535, and allocation errors.
    ///
    /// # Complexity
    ///
    /// O(n). Allocates.
    ///
    /// # Examples
    ///
    /// <!-- rows: calls: convert_to_comparable_wide -->
    /// | Document | Result |
    /// |---|---|
    /// | `1` | `0000 04 81 03e9 02 00` |
    pub fn convert_to_comparable_wide(&self, alloc: Global) -> Result<Vec<u8>, Error>
        ensures key { (form : Form) (tree : Tree) → Decodes form (raw_bytes self.now) tree
            → GivesKey w16 (deepest tree) result (λ key. key.items ≡ sortable_key w16 tree 0) }
        ensures order { (form : Form) (tree : Tree) → Decodes form (raw_bytes self.now) tree
            → RanksAsTree w16 tree result }
        ensures errors { IfErr result (IsDecodingError or OutOfMemory or TooDeep) }
        ensures reads { OnOk result (HasRoot (raw_bytes self.now)) }
    {
        sortable_key(alloc, self.as_bytes(), DepthWidth::TwoBytes)
    }

    /// Returns the equality key: bytes that two documents share if and only if they are equal by value, at every depth
    /// and with extensions.
    ///
    /// Their order has no meaning. docs/FORMAT.md has its layout.
    ///
    /// # Errors
    ///
    /// Allocation errors.
    ///
    /// # Complexity
    ///
    /// O(n). Allocates.
    ///
    /// # Examples
    ///
    /// <!-- rows: calls: equality_key -->
    /// | Document | Result |
    /// |---|---|
    /// | `1` | `04 81 03e9 02 00` |
    pub fn equality_key(&self, alloc: Global) -> Result<Vec<u8>, Error>
        ensures key { (form : Form) (tree : Tree) → Decodes form (raw_bytes self.now) tree
            → MatchResult result (λ v. v.items ≡ equality_key tree) IsOutOfMemory }
        ensures errors { IfErr result (IsDecodingError or OutOfMemory) }
        ensures reads { OnOk result (HasRoot (raw_bytes self.now)) }
    {
        item_key(alloc, &root_item(self.as_bytes())?)
    }

    /// Writes the result of `convert_to_comparable` to a vector that is reused: its contents are replaced, and its
    /// capacity is kept.
    ///
    /// # Errors
    ///
    /// Those of `convert_to_comparable`. The vector is then empty. `OutOfMemory` for a scalar only if the vector's
    /// capacity is less than n + 2 s + 64, with s the number of bytes of a string or an extension value.
    ///
    /// # Complexity
    ///
    /// O(n). Allocates if the vector has to grow, and for the levels of a deep document.
    ///
    /// # Examples
    ///
    /// ```rust crates/jsonb_examples/src/calls.rt
    /// let mut key = Vec::new(alloc);
    /// let mut last = Vec::new(alloc);
    /// for document in documents {
    ///     document.convert_to_comparable_into(alloc, &mut key)?;
    ///     if key < last {
    ///         return Ok(false);
    ///     }
    ///     swap(&mut key, &mut last);
    /// }
    /// ```
    pub fn convert_to_comparable_into(&self, alloc: Global, key: &mut Vec<u8>) -> Result<(), Error>
        ensures key { (form : Form) (tree : Tree) → Decodes form (raw_bytes self.now) tree
            → GivesKey w8 (deepest tree) result (λ _. key.new.items ≡ sortable_key w8 tree 0) }
        ensures empty { IfErr result (λ _. key.new.items ≡ []) }
        ensures errors { IfErr result (IsDecodingError or OutOfMemory or TooDeep) }
        ensures reads { OnOk result (HasRoot (raw_bytes self.now)) }
        ensures room { (form : Form) (tree : Tree) → Decodes form (raw_bytes self.now) tree
            → HasKeyRoom tree (length (raw_bytes self.now)) (vec_capacity key.old) → IsOk result }
    {
        key.clear();
        let written = push_sortable_key(alloc, key, self.as_bytes(), DepthWidth::OneByte);
        kept_where_written(key, written)
    }

    /// Writes the result of `convert_to_comparable_wide` to a vector that is reused.
    ///
    /// # Errors
    ///
    /// Those of `convert_to_comparable_wide`. The vector is then empty. `OutOfMemory` only as by
    /// `convert_to_comparable_into`.
    ///
    /// # Complexity
    ///
    /// That of `convert_to_comparable_into`.
    ///
    /// # Examples
    ///
    /// ```rust crates/jsonb_examples/src/calls.rt
    /// first.convert_to_comparable_wide_into(alloc, &mut key)?;
    /// second.convert_to_comparable_wide_into(alloc, &mut other)?;
    /// Ok(key < other)
    /// ```
    pub fn convert_to_comparable_wide_into(
        &self,
        alloc: Global,
        key: &mut Vec<u8>,
    ) -> Result<(), Error>
        ensures key { (form : Form) (tree : Tree) → Decodes form (raw_bytes self.now) tree
            → GivesKey w16 (deepest tree) result (λ _. key.new.items ≡ sortable_key w16 tree 0) }
        ensures empty { IfErr result (λ _. key.new.items ≡ []) }
        ensures errors { IfErr result (IsDecodingError or OutOfMemory or TooDeep) }
        ensures reads { OnOk result (HasRoot (raw_bytes self.now)) }
        ensures room { (form : Form) (tree : Tree) → Decodes form (raw_bytes self.now) tree
            → HasKeyRoom tree (length (raw_bytes self.now)) (vec_capacity key.old) → IsOk result }
    {
        key.clear();
        let written = push_sortable_key(alloc, key, self.as_bytes(), DepthWidth::TwoBytes);
        kept_where_written(key, written)
    }

    /// Writes the result of `equality_key` to a vector that is reused.
    ///
    /// # Errors
    ///
    /// Those of `equality_key`. The vector is then empty. `OutOfMemory` only as by `convert_to_comparable_into`.
    ///
    /// # Complexity
    ///
    /// That of `convert_to_comparable_into`.
    ///
    /// # Examples
    ///
    /// ```rust crates/jsonb_examples/src/calls.rt
    /// document.equality_key_into(alloc, &mut key)?;
    /// if !keys.contains(&key) {
    ///     keys.insert(key.clone()?)?;
    /// }
    /// ```
    pub fn equality_key_into(&self, alloc: Global, key: &mut Vec<u8>) -> Result<(), Error>
        ensures key { (form : Form) (tree : Tree) → Decodes form (raw_bytes self.now) tree
            → MatchResult result (λ _. key.new.items ≡ equality_key tree) IsOutOfMemory }
        ensures empty { IfErr result (λ _. key.new.items ≡ []) }
        ensures errors { IfErr result (IsDecodingError or OutOfMemory) }
        ensures reads { OnOk result (HasRoot (raw_bytes self.now)) }
        ensures room { (form : Form) (tree : Tree) → Decodes form (raw_bytes self.now) tree
            → HasKeyRoom tree (length (raw_bytes self.now)) (vec_capacity key.old) → IsOk result }
    {
        key.clear();
        let written = push_equality_key(alloc, key, self.as_bytes());
        kept_where_written(key, written)
    }
}

/// Returns the result, and clears the vector if it is an error.
fn kept_where_written(key: &mut Vec<u8>, written: Result<(), Error>) -> Result<(), Error>
    ensures same { result ≡ written }
    ensures kept { IfOk result (λ _. key.new.items ≡ key.old.items) }
    ensures empty { IfErr result (λ _. key.new.items ≡ []) }
{
    if written.is_err() {
        key.clear();
    }
    written
}
