//! The order of two documents.

ghost use Rattle.std.specs.Prelude.{◌≡◌, IsOkAnd, IfErr, OnOk};
ghost use Rattle.jsonb_doc.specs.Tree.{Tree};
ghost use Rattle.jsonb_doc.specs.Order.{tree_cmp};
ghost use Rattle.jsonb_doc.specs.Payload.{Form};
ghost use Rattle.jsonb_doc.specs.Format.{Decodes};
ghost use Rattle.jsonb_doc.specs.Answer.{IsDecodingError};
ghost use Rattle.jsonb_raw.specs.AnyBytes.Roots.{HasRootShape};
ghost use Rattle.jsonb_raw.specs.Documents.{raw_bytes};

use crate::order::documents_order;
use crate::raw::RawJsonb;
use jsonb_doc::Error;
use std::cmp::Ordering;

impl RawJsonb<'_> {
    /// Returns the order of two documents, by value.
    ///
    /// Types are in the order extension value, false, true, number, string, object, array, null. Numbers are ordered by
    /// exact value, strings by their bytes, arrays by their elements and objects by their keys and values alternately,
    /// lexicographically, and extension values by the bytes of their payloads.
    ///
    /// Without extension values this is the order of the sortable keys of either width. It has no limit of depth. With
    /// extension values the order of the keys is not specified.
    ///
    /// # Errors
    ///
    /// Decoding errors.
    ///
    /// # Complexity
    ///
    /// O(n) of both. Does not allocate.
    ///
    /// # Examples
    ///
    /// ```rust crates/jsonb_examples/src/calls.rt
    /// for document in others {
    ///     if document.compare(&largest)? == Ordering::Greater {
    ///         largest = *document;
    ///     }
    /// }
    /// ```
    ///
    /// <!-- rows: calls: compare -->
    /// | Document | Arguments | Result |
    /// |---|---|---|
    /// | `1` | `1.0` | `Equal` |
    /// | `[1,2]` | `[1,10]` | `Less` |
    /// | `"b"` | `"ab"` | `Greater` |
    /// | `{"a":1}` | `{"a":1,"b":0}` | `Less` |
    /// | `null` | `{"a":1}` | `Greater` |
    pub fn compare(&self, other: &RawJsonb<'_>) -> Result<Ordering, Error>
        ensures order { (form other_form : Form) (t u : Tree)
            → Decodes form (raw_bytes self.now) t → Decodes other_form (raw_bytes other.now) u
            → IsOkAnd result (λ o. o ≡ tree_cmp t u) }
        ensures errors { IfErr result IsDecodingError }
        ensures reads { OnOk result (HasRootShape (raw_bytes self.now) × HasRootShape (raw_bytes other.now)) }
    {
        documents_order(self.as_bytes(), other.as_bytes())
    }
}
