//! The functions on the locations of a document.

ghost use Rattle.std.specs.Prelude.{ℕ, List, map, length, slice_get, option_and_then, IsOkAnd, IfOk, IfErr, IfSome, OnOk, MatchResult};
ghost use Rattle.std.specs.Iterator.{IsFinite};
ghost use Rattle.std.specs.Fmt.{signed_decimal};
ghost use Rattle.jsonb_doc.specs.Tree.{Tree, field_of};
ghost use Rattle.jsonb_doc.specs.Payload.{Form};
ghost use Rattle.jsonb_doc.specs.Format.{Decodes};
ghost use Rattle.jsonb_doc.specs.Answer.{SameOption, IsOutOfMemory, ◌or◌, IsDecodingError};
ghost use Rattle.jsonb_doc.specs.declared.error.Error.TheVariants.{OutOfMemory, TooLarge};
ghost use Rattle.jsonb_doc.specs.AnyBytes.Roots.{HasReadableRoot};
ghost use Rattle.jsonb_doc.specs.Representation.Positions.{Locates, HasSpotsLeft};
ghost use Rattle.jsonb_keypath.specs.declared.key_path.KeyPath.{KeyPath};
ghost use Rattle.jsonb_keypath.specs.KeyPathGrammar.{index as index_step};
ghost use Rattle.jsonb_keypath.specs.KeyPathViews.{key_view};
ghost use Rattle.jsonb_raw.specs.AnyBytes.Roots.{IsWhole};
ghost use Rattle.jsonb_raw.specs.Documents.{raw_bytes, MakesOption};
ghost use Rattle.jsonb_raw.specs.Places.{children, index_position, tree_at_steps};
ghost use Rattle.jsonb_raw.specs.Private.Steps.{child_met};
ghost use Rattle.jsonb_raw.specs.Iterators.{YieldsItemsLeft};

mod child;
mod cut;
mod delete;
mod exists;
mod exists_blocks;
mod exists_in;
mod leaves;
mod name_block;
mod parent_entries;
mod spots;

use crate::owned::OwnedJsonb;
use crate::raw::RawJsonb;
use child::index_position;
use jsonb_doc::{
    Error, Spot, SpotIter, child_spots, element_spots, field_spot, root_spot, spot_by_parts,
};
use jsonb_keypath::KeyPath;
use std::alloc::Global;

/// Returns the spot that this many others precede.
#[inline(always)]
fn nth_spot(spots: SpotIter<'_>, position: usize) -> Result<Option<Spot>, Error>
    ensures spot { (bytes : List ℕ) (ts : List Tree) → HasSpotsLeft bytes spots.entry ts
        → IsOkAnd result (λ found. SameOption (Locates bytes) found (slice_get ts position)) }
    ensures errors { IfErr result IsDecodingError }
{
    let Some(mut left) = spots.behind(position) else {
        return Ok(None);
    };
    let Some(spot) = left.next() else {
        return Ok(None);
    };
    Ok(Some(spot_by_parts(spot?)))
}

/// Returns the child at a position.
#[tactic(auto, using(crate::proofs::ChildLemmas::all_left))]
fn nth_child(bytes: &[u8], spot: Spot, position: usize) -> Result<Option<Spot>, Error>
    ensures child { (t : Tree) → Locates bytes.now spot t
        → IsOkAnd result (λ found. SameOption (Locates bytes.now) found (slice_get (children t) position)) }
    ensures errors { IfErr result IsDecodingError }
{
    let Some(found) = child_spots(bytes, spot)? else {
        return Ok(None);
    };
    nth_spot(found, position)
}

/// Returns the spot of the element at an index, from the end if negative.
#[inline(always)]
fn spot_at(spots: SpotIter<'_>, index: i32) -> Result<Option<Spot>, Error>
    ensures spot { (bytes : List ℕ) (ts : List Tree) → HasSpotsLeft bytes spots.entry ts
        → IsOkAnd result (λ found. SameOption (Locates bytes) found
        (option_and_then (λ n. slice_get ts n) (index_position (length ts) index))) }
    ensures errors { IfErr result IsDecodingError }
{
    let Some(position) = index_position(spots.len(), index) else {
        return Ok(None);
    };
    nth_spot(spots, position)
}

/// Returns the value of the key that is an index in decimal, if it is an object.
#[inline(never)]
fn keyed_child(alloc: Global, bytes: &[u8], spot: Spot, index: i32) -> Result<Option<Spot>, Error>
    ensures child { (t : Tree) → Locates bytes.now spot t
        → MatchResult result (λ found. SameOption (Locates bytes.now) found
        (field_of (signed_decimal index) t)) IsOutOfMemory }
    ensures errors { IfErr result (IsDecodingError or OutOfMemory) }
{
    if !spot.is_container() {
        return Ok(None);
    }
    let key = format!(in alloc; "{index}")?;
    field_spot(bytes, spot, key.as_str())
}

/// Returns the child that an index selects: an element, or the value of the key that is the index in decimal.
#[inline(always)]
fn indexed_child(alloc: Global, bytes: &[u8], spot: Spot, index: i32) -> Result<Option<Spot>, Error>
    ensures child { (t : Tree) → Locates bytes.now spot t
        → MatchResult result (λ found. SameOption (Locates bytes.now) found
        (child_met (index_step index) t)) IsOutOfMemory }
    ensures errors { IfErr result (IsDecodingError or OutOfMemory) }
{
    match element_spots(bytes, spot)? {
        Some(elements) => spot_at(elements, index),
        None => keyed_child(alloc, bytes, spot, index),
    }
}

/// Returns the child that a step selects.
///
/// Inlined with `indexed_child`: as calls, `get_by_keypath` on a column takes 60 instructions more per row, and of an
/// array 20 more.
#[inline(always)]
fn child_at_step(
    alloc: Global,
    bytes: &[u8],
    spot: Spot,
    step: &KeyPath<'_>,
) -> Result<Option<Spot>, Error>
    ensures child { (t : Tree) → Locates bytes.now spot t
        → MatchResult result (λ found. SameOption (Locates bytes.now) found
        (child_met (key_view step.now) t)) IsOutOfMemory }
    ensures errors { IfErr result (IsDecodingError or OutOfMemory) }
{
    match step {
        KeyPath::Index(index) => indexed_child(alloc, bytes, spot_by_parts(spot), *index),
        KeyPath::QuotedName(name) | KeyPath::Name(name) => field_spot(bytes, spot, name.as_str()),
    }
}

impl RawJsonb<'_> {
    /// Returns the value at the location of the steps, as a new document.
    ///
    /// On an array only an index selects an element, counted from the end if negative. On an object a name selects the
    /// value of that key, and an index that of its decimal text. Returns `None` if a step selects nothing. Without
    /// steps it is the whole document. The iterator must end. Like PostgreSQL's `#>`.
    ///
    /// # Errors
    ///
    /// Construction errors.
    ///
    /// # Complexity
    ///
    /// O(k) for each container on the way. Allocates; the value is copied.
    ///
    /// # Examples
    ///
    /// ```rust crates/jsonb_examples/src/configuration.rt
    /// let steps = parse_key_paths(alloc, path.as_bytes())?;
    /// configuration.get_by_keypath(alloc, steps.paths.iter())
    /// ```
    ///
    /// <!-- rows: calls: get_by_keypath -->
    /// | Document | Arguments | Result |
    /// |---|---|---|
    /// | `[false,10,{"k":"v"}]` | `{2,k}` | `"v"` |
    /// | `[false,10,{"k":"v"}]` | `{-1,k}` | `"v"` |
    /// | `[false,10,{"k":"v"}]` | `{-4}` | none |
    /// | `{"-1":false,"0":true}` | `{0}` | `true` |
    pub fn get_by_keypath<'k, I: Iterator<Item = &'k KeyPath<'k>> + Drop>(
        &self,
        alloc: Global,
        steps: I,
    ) -> Result<Option<OwnedJsonb>, Error>
        requires can { I.can_next steps }
        requires ends { IsFinite (I.remaining steps) }
        ensures place { (left : I → List KeyPath) → YieldsItemsLeft I.next_gives left
            → (form : Form) (t : Tree) → Decodes form (raw_bytes self.now) t
            → MakesOption form (tree_at_steps (map key_view (left steps)) t) result }
        ensures whole { IfOk result (λ found. IfSome found IsWhole) }
        ensures errors { IfErr result (IsDecodingError or OutOfMemory or TooLarge) }
        ensures readable { OnOk result (HasReadableRoot (raw_bytes self.now)) }
    {
        let Some(spot) = self.spot_by_keypath(alloc, steps)? else {
            return Ok(None);
        };
        Ok(Some(OwnedJsonb::from_spot(alloc, self.as_bytes(), spot)?))
    }

    /// Returns the spot of the value at the location of the steps, which `get_by_keypath` copies.
    ///
    /// # Errors
    ///
    /// Decoding errors, and `OutOfMemory` if an allocation fails.
    ///
    /// # Complexity
    ///
    /// O(k) for each container on the way. Allocates only for an index that is a key of an object.
    ///
    /// # Examples
    ///
    /// ```rust crates/jsonb_c/src/span.rt
    /// let found = RawJsonb::new(document).spot_by_keypath(alloc, steps.paths.iter())?;
    /// found_span(document, found)
    /// ```
    #[inline(always)]
    pub fn spot_by_keypath<'k, I: Iterator<Item = &'k KeyPath<'k>> + Drop>(
        &self,
        alloc: Global,
        steps: I,
    ) -> Result<Option<Spot>, Error>
        requires can { I.can_next steps }
        requires ends { IsFinite (I.remaining steps) }
        ensures place { (left : I → List KeyPath) → YieldsItemsLeft I.next_gives left
            → (form : Form) (t : Tree) → Decodes form (raw_bytes self.now) t
            → MatchResult result (λ found. SameOption (Locates (raw_bytes self.now)) found
            (tree_at_steps (map key_view (left steps)) t)) IsOutOfMemory }
        ensures errors { IfErr result (IsDecodingError or OutOfMemory) }
        ensures readable { OnOk result (HasReadableRoot (raw_bytes self.now)) }
    {
        let bytes = self.as_bytes();
        let mut spot = root_spot(bytes)?;
        for step in steps {
            let Some(child) = child_at_step(alloc, bytes, spot, step)? else {
                return Ok(None);
            };
            spot = spot_by_parts(child);
        }
        Ok(Some(spot))
    }
}
