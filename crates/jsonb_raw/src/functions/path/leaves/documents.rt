//! The leaves of a document as new documents, with their key paths.

ghost use Rattle.std.specs.Prelude.{IfOk, IfErr, MatchResult, OnOk};
ghost use Rattle.jsonb_keypath.specs.KeyPathViews.{key_paths_view};
ghost use Rattle.std.specs.List.{All, Any, AllZip};
ghost use Rattle.jsonb_doc.specs.Tree.{Tree};
ghost use Rattle.jsonb_doc.specs.Payload.{Form};
ghost use Rattle.jsonb_doc.specs.Format.{Decodes};
ghost use Rattle.jsonb_doc.specs.Limits.{IsTooLarge};
ghost use Rattle.jsonb_doc.specs.Answer.{◌or◌, ◌or◌when◌, IsDecodingError, IsOutOfMemory};
ghost use Rattle.jsonb_doc.specs.declared.error.Error.TheVariants.{OutOfMemory, TooLarge};
ghost use Rattle.jsonb_raw.specs.AnyBytes.Roots.{HasRoot, IsWholePair};
ghost use Rattle.jsonb_raw.specs.Documents.{raw_bytes};
ghost use Rattle.jsonb_raw.specs.Leaves.{leaves};
ghost use Rattle.jsonb_raw.specs.Making.{IsPairOf};

use super::{LeafOutput, leaves_within, push_part};
use crate::functions::entries::entry_document;
use crate::owned::OwnedJsonb;
use crate::raw::RawJsonb;
use jsonb_doc::{Error, StoredEntry, root_item};
use jsonb_keypath::KeyPaths;
use std::alloc::Global;

impl<'a> LeafOutput<'a> for OwnedJsonb {
    ghost use Rattle.jsonb_doc.specs.Answer.{◌or◌, ◌or◌when◌, IsDecodingError, IsOutOfMemory};
    ghost use Rattle.jsonb_doc.specs.Private.Errors.{IsOutOfMemoryOrTooLarge};
    ghost use Rattle.jsonb_doc.specs.Format.{Decodes};
    ghost use Rattle.jsonb_doc.specs.Limits.{IsTooLarge};
    ghost use Rattle.jsonb_doc.specs.declared.error.Error.TheVariants.{OutOfMemory, TooLarge};
    ghost use Rattle.jsonb_raw.specs.AnyBytes.Roots.{IsWhole};

    ghost IsOf = { λ form t document. Decodes form document t };

    ghost IsRefusalOf = { λ form t e. IsOutOfMemoryOrTooLarge form t e };

    ghost Refusals = { IsDecodingError or OutOfMemory or TooLarge };

    ghost IsReadable = { IsWhole };

    #[inline(always)]
    fn push_leaf(
        alloc: Global,
        entry: &StoredEntry<'a>,
        path: KeyPaths<'a>,
        found: &mut Vec<(KeyPaths<'a>, OwnedJsonb)>,
    ) -> Result<(), Error> {
        let document = entry_document(alloc, entry.kind, entry.content)?;
        push_part(path, document, found)
    }
}

impl<'a> RawJsonb<'a> {
    /// Returns the leaves that `extract_scalar_key_values` finds, each with its key path and as a new document, copied
    /// as it is stored.
    ///
    /// Names are borrowed from the document.
    ///
    /// # Errors
    ///
    /// Construction errors. If arrays are entered, no leaf is too large.
    ///
    /// # Complexity
    ///
    /// O(n), and the length of its key path for each leaf. Allocates; each leaf is copied.
    ///
    /// # Examples
    ///
    /// <!-- rows: calls: leaves leaves_ignoring_arrays -->
    /// | Function | Document | Result |
    /// |---|---|---|
    /// | `leaves` | `[false,10,{"k":"v"}]` | `{0}`: `false`, `{1}`: `10`, `{2,k}`: `"v"` |
    /// | `leaves_ignoring_arrays` | `{"a":null,"b":[null]}` | `{a}`: `null`, `{b}`: `[null]` |
    /// | `leaves` | `[[],{}]` | `{0}`: `[]`, `{1}`: `{}` |
    /// | `leaves` | `"v"` | nothing |
    #[tactic(auto, using(std::proofs::Common::arith))]
    pub fn leaf_documents(
        &self,
        alloc: Global,
        ignore_array: bool,
    ) -> Result<Vec<(KeyPaths<'a>, OwnedJsonb)>, Error>
        ensures leaves { (form : Form) (t : Tree) → Decodes form (raw_bytes self.now) t
            → MatchResult result (λ made. AllZip (IsPairOf key_paths_view form) made.items (leaves ignore_array t))
            (IsOutOfMemory or TooLarge when Any (λ leaf. IsTooLarge form leaf.1) (leaves ignore_array t)) }
        ensures whole { IfOk result (λ made. All IsWholePair made.items) }
        ensures errors { IfErr result (IsDecodingError or OutOfMemory or TooLarge) }
        ensures reads { OnOk result (HasRoot (raw_bytes self.now)) }
    {
        leaves_within(alloc, &root_item(self.as_bytes())?, ignore_array)
    }
}
