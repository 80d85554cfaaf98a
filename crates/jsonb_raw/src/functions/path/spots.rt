//! The positions of a document's children.

ghost use Rattle.std.specs.Prelude.{true, IsOkAnd, IfErr};
ghost use Rattle.jsonb_doc.specs.Tree.{Tree};
ghost use Rattle.jsonb_doc.specs.Payload.{Form};
ghost use Rattle.jsonb_doc.specs.Format.{Decodes};
ghost use Rattle.jsonb_doc.specs.Answer.{SameOption, IsDecodingError};
ghost use Rattle.jsonb_doc.specs.Representation.Positions.{Locates};
ghost use Rattle.jsonb_raw.specs.Documents.{raw_bytes};
ghost use Rattle.jsonb_raw.specs.Children.{element_at, named_child};

use super::child::position_ignoring_case;
use super::{nth_child, nth_spot};
use crate::functions::runs::pair_entries;
use crate::raw::RawJsonb;
use jsonb_doc::{Error, Spot, element_spots, field_spot, root_spot};

impl RawJsonb<'_> {
    /// Returns the spot of the element at a zero-based index, which `get_by_index` copies.
    ///
    /// Returns `None` if there is no such element or the root is not an array.
    ///
    /// # Errors
    ///
    /// Decoding errors.
    ///
    /// # Complexity
    ///
    /// O(index). Does not allocate.
    ///
    /// # Examples
    ///
    /// ```rust crates/jsonb_c/src/span/child.rt
    /// let found = RawJsonb::new(document).spot_by_index(index)?;
    /// ```
    pub fn spot_by_index(&self, index: usize) -> Result<Option<Spot>, Error>
        ensures element { (form : Form) (t : Tree) → Decodes form (raw_bytes self.now) t
            → IsOkAnd result (λ found. SameOption (Locates (raw_bytes self.now)) found (element_at index t)) }
        ensures errors { IfErr result IsDecodingError }
    {
        let bytes = self.as_bytes();
        let root = root_spot(bytes)?;
        let Some(elements) = element_spots(bytes, root)? else {
            return Ok(None);
        };
        nth_spot(elements, index)
    }

    /// Returns the spot of the value of a key, which `get_by_name` copies.
    ///
    /// Returns `None` if there is no such key or the root is not an object.
    ///
    /// # Errors
    ///
    /// Decoding errors.
    ///
    /// # Complexity
    ///
    /// O(k), and with `ignore_case` the bytes of the keys. Does not allocate.
    ///
    /// # Examples
    ///
    /// ```rust crates/jsonb_c/src/span/child.rt
    /// let found = RawJsonb::new(document).spot_by_name(name, ignore_case)?;
    /// ```
    pub fn spot_by_name(&self, name: &str, ignore_case: bool) -> Result<Option<Spot>, Error>
        ensures value { (form : Form) (t : Tree) → Decodes form (raw_bytes self.now) t
            → IsOkAnd result (λ found.
            SameOption (Locates (raw_bytes self.now)) found (named_child name.now ignore_case t)) }
        ensures errors { IfErr result IsDecodingError }
    {
        let bytes = self.as_bytes();
        let root = root_spot(bytes)?;
        if ignore_case {
            return spot_ignoring_case(bytes, root, name);
        }
        field_spot(bytes, root, name)
    }
}

/// Returns the spot of the value of the key, otherwise that of the first key that equals it under ASCII case folding.
#[tactic(auto, using(crate::proofs::PartedRuns::pairs_there, crate::proofs::PositionLemmas::named_at_none))]
fn spot_ignoring_case(bytes: &[u8], root: Spot, name: &str) -> Result<Option<Spot>, Error>
    ensures value { (form : Form) (t : Tree) → Decodes form bytes.now t → Locates bytes.now root t
        → IsOkAnd result (λ found. SameOption (Locates bytes.now) found (named_child name.now true t)) }
    ensures errors { IfErr result IsDecodingError }
{
    let Some(pairs) = pair_entries(bytes)? else {
        return Ok(None);
    };
    let Some(position) = position_ignoring_case(pairs.keys, name.as_bytes())? else {
        return Ok(None);
    };
    nth_child(bytes, root, position)
}
