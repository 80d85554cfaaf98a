//! A document that owns its bytes.

ghost use Rattle.std.specs.Prelude.{◌≡◌, IfOk, IfErr, MatchResult};
ghost use Rattle.jsonb_doc.specs.Tree.{Tree};
ghost use Rattle.jsonb_doc.specs.Payload.{Form};
ghost use Rattle.jsonb_doc.specs.Format.{Decodes};
ghost use Rattle.jsonb_doc.specs.Answer.{IsOutOfMemory, IsDecodingError, ◌or◌};
ghost use Rattle.jsonb_doc.specs.declared.error.Error.TheVariants.{OutOfMemory, TooLarge};
ghost use Rattle.jsonb_doc.specs.Representation.Positions.{Locates};
ghost use Rattle.jsonb_raw.specs.AnyBytes.Roots.{IsWhole};
ghost use Rattle.jsonb_raw.specs.Documents.{raw_bytes, Makes};

use crate::functions::entries::entry_document;
use crate::raw::RawJsonb;
use jsonb_doc::{Error, Spot, spot_entry};
use std::alloc::Global;
use std::marker::Model;

/// The bytes of a document, owned. `as_raw` borrows it for the functions of `RawJsonb`.
#[derive(Debug, Drop)]
pub struct OwnedJsonb {
    bytes: Vec<u8>,
}

impl Model for OwnedJsonb {
    ghost use Rattle.std.specs.Prelude.{List, ℕ};

    ghost Value = { List ℕ };

    ghost view = { λ owned. owned.bytes.items };
}

impl OwnedJsonb {
    /// Creates a document of these bytes, unchanged.
    ///
    /// They need not decode.
    ///
    /// # Complexity
    ///
    /// O(1). Does not allocate.
    ///
    /// # Examples
    ///
    /// ```rust crates/jsonb_examples/src/invoice.rt
    /// Ok(OwnedJsonb::new(builder.build()?))
    /// ```
    pub fn new(bytes: Vec<u8>) -> OwnedJsonb
        ensures { result ≡ bytes.items }
    {
        Self { bytes }
    }

    /// Returns the item at a position of these bytes as a new document. Fails with `TooLarge` if the item exceeds the
    /// limits of a document, and with `InvalidJsonb` or `UnsupportedNumber` only if the bytes do not decode.
    pub(crate) fn from_spot(alloc: Global, bytes: &[u8], spot: Spot) -> Result<OwnedJsonb, Error>
        ensures document { (form : Form) (whole t : Tree) → Decodes form bytes.now whole → Locates bytes.now spot t
            → Makes form t result }
        ensures whole { IfOk result IsWhole }
        ensures errors { IfErr result (IsDecodingError or OutOfMemory or TooLarge) }
    {
        let entry = spot_entry(bytes, spot)?;
        entry_document(alloc, entry.kind, entry.content)
    }

    /// Returns the document, borrowed.
    ///
    /// # Complexity
    ///
    /// O(1). Does not allocate.
    ///
    /// # Examples
    ///
    /// ```rust crates/jsonb_examples/src/calls.rt
    /// let merged = defaults.concat(alloc, user)?;
    /// let settings = merged.as_raw().strip_nulls(alloc)?;
    /// ```
    pub fn as_raw(&self) -> RawJsonb<'_>
        ensures { raw_bytes result ≡ self.now }
    {
        RawJsonb::new(self.bytes.as_slice())
    }

    /// Returns the bytes, and consumes the document.
    ///
    /// # Complexity
    ///
    /// O(1). Does not allocate.
    ///
    /// # Examples
    ///
    /// ```rust crates/jsonb_examples/src/calls.rt
    /// let settings = merged.as_raw().strip_nulls(alloc)?;
    /// Ok(settings.to_vec())
    /// ```
    pub fn to_vec(self) -> Vec<u8>
        ensures { result.items ≡ self }
    {
        let OwnedJsonb { bytes } = self;
        bytes
    }

    /// Returns a copy of the document.
    ///
    /// # Errors
    ///
    /// `OutOfMemory` if an allocation fails.
    ///
    /// # Complexity
    ///
    /// O(n). Allocates once.
    ///
    /// # Examples
    ///
    /// ```rust crates/jsonb_examples/src/calls.rt
    /// versions.push(document.clone(alloc)?)?;
    /// ```
    pub fn clone(&self, alloc: Global) -> Result<OwnedJsonb, Error>
        ensures { MatchResult result (λ copy. copy ≡ self.now) IsOutOfMemory }
    {
        let bytes = Vec::from_slice(alloc, self.bytes.as_slice())?;
        Ok(OwnedJsonb::new(bytes))
    }
}
