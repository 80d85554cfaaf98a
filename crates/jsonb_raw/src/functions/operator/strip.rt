//! Documents without the null members of their objects.

ghost use Rattle.std.specs.Prelude.{IfErr, OnOk};
ghost use Rattle.jsonb_doc.specs.Tree.{Tree};
ghost use Rattle.jsonb_doc.specs.Payload.{Form};
ghost use Rattle.jsonb_doc.specs.Format.{Decodes};
ghost use Rattle.jsonb_doc.specs.Answer.{IsDecodingError, ◌or◌};
ghost use Rattle.jsonb_doc.specs.declared.error.Error.TheVariants.{OutOfMemory, TooLarge};
ghost use Rattle.jsonb_raw.specs.AnyBytes.Roots.{HasRootShape};
ghost use Rattle.jsonb_raw.specs.Documents.{raw_bytes, Makes};
ghost use Rattle.jsonb_raw.specs.Strip.{strip};

use super::stripping::strip_container;
use crate::functions::runs::container_entries;
use crate::owned::OwnedJsonb;
use crate::raw::RawJsonb;
use jsonb_doc::{Error, root_entry};
use std::alloc::Global;

impl RawJsonb<'_> {
    /// Returns the document without members whose value is null, at every depth.
    ///
    /// Null elements of arrays remain, and so does a null root. Like PostgreSQL's `jsonb_strip_nulls`.
    ///
    /// # Errors
    ///
    /// Construction errors.
    ///
    /// # Complexity
    ///
    /// O(n). Allocates; each byte is copied once.
    ///
    /// # Examples
    ///
    /// ```rust crates/jsonb_examples/src/calls.rt
    /// let merged = defaults.concat(alloc, user)?;
    /// let settings = merged.as_raw().strip_nulls(alloc)?;
    /// ```
    ///
    /// <!-- rows: calls: strip_nulls -->
    /// | Document | Result |
    /// |---|---|
    /// | `{"a":null,"b":[null]}` | `{"b":[null]}` |
    /// | `{"a":{"b":null}}` | `{"a":{}}` |
    #[tactic(auto, using(crate::proofs::AnswerLemmas::failed))]
    pub fn strip_nulls(&self, alloc: Global) -> Result<OwnedJsonb, Error>
        ensures document { (form : Form) (tree : Tree) → Decodes form (raw_bytes self.now) tree
            → Makes form (strip tree) result }
        ensures errors { IfErr result (IsDecodingError or OutOfMemory or TooLarge) }
        ensures reads { OnOk result (HasRootShape (raw_bytes self.now)) }
    {
        let bytes = self.as_bytes();
        let Some(container) = container_entries(bytes)? else {
            return scalar_copy(alloc, bytes);
        };
        let stripped = strip_container(alloc, &container, bytes.len())?;
        Ok(OwnedJsonb::new(stripped))
    }
}

/// Returns a copy of a document whose root is a scalar.
fn scalar_copy(alloc: Global, bytes: &[u8]) -> Result<OwnedJsonb, Error>
    ensures copy { (form : Form) (t : Tree) → Decodes form bytes.now t
        → Makes form t result }
    ensures reads { OnOk result (HasRootShape bytes.now) }
    ensures errors { IfErr result (IsDecodingError or OutOfMemory) }
{
    root_entry(bytes)?;
    Ok(OwnedJsonb::new(Vec::from_slice(alloc, bytes)?))
}
