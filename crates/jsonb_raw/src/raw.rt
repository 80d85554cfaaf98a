//! A document that is borrowed.

ghost use Rattle.std.specs.Prelude.{◌≡◌, ◌↔◌, ◌≤◌, ◌<◌, IsOk, IsErrOf, Ok};
ghost use Rattle.jsonb_doc.specs.Tree.{Tree};
ghost use Rattle.jsonb_doc.specs.Payload.{Form, any};
ghost use Rattle.jsonb_doc.specs.Format.{Decodes};
ghost use Rattle.jsonb_doc.specs.AnyBytes.Unsupported.{IsUnsupportedDocument, IsNoDocument};
ghost use Rattle.jsonb_doc.specs.Depth.{deepest};
ghost use Rattle.jsonb_raw.specs.Documents.{raw_bytes};

use jsonb_doc::Error;

/// The bytes of a document, borrowed, and the functions on it.
///
/// Every function returns, whatever the bytes are. On bytes that do not decode many functions still return a value,
/// possibly a document that does not decode: call `check` first on untrusted bytes.
///
/// # Errors
///
/// Each function names its own errors, and these groups:
///
/// - **decoding errors**, `InvalidJsonb` and `UnsupportedNumber`: only if the bytes do not decode, or those of the
///   other document that the function takes;
/// - **allocation errors**: decoding errors, and `OutOfMemory` if an allocation fails;
/// - **construction errors**: allocation errors, and `TooLarge` only if a result exceeds the limits of the format,
///   2^29 - 1 elements or members of a container and 2^28 - 1 bytes of a key or a content.
///
/// # Complexity
///
/// A function without `alloc` does not allocate. All use little stack at any depth; docs/STACK.md lists exceptions.
/// In what follows, n is the number of bytes, and k that of the root's elements or members.
#[derive(Clone, Copy, Debug)]
pub struct RawJsonb<'a> {
    bytes: &'a [u8],
}

impl<'a> RawJsonb<'a> {
    /// Creates a document of these bytes, which need not decode.
    ///
    /// # Complexity
    ///
    /// O(1). Does not allocate.
    ///
    /// # Examples
    ///
    /// ```rust crates/jsonb_examples/src/calls.rt
    /// let document = RawJsonb::new(bytes);
    /// document.check()?;
    /// ```
    pub fn new(bytes: &'a [u8]) -> RawJsonb<'a>
        ensures { raw_bytes result ≡ bytes.now }
    {
        RawJsonb { bytes }
    }

    /// Returns the bytes.
    ///
    /// # Complexity
    ///
    /// O(1). Does not allocate.
    ///
    /// # Examples
    ///
    /// ```rust crates/jsonb_examples/src/calls.rt
    /// let copy = Vec::from_slice(alloc, document.as_bytes())?;
    /// Ok(OwnedJsonb::new(copy))
    /// ```
    pub fn as_bytes(&self) -> &'a [u8]
        ensures { result.now ≡ raw_bytes self.now }
    {
        self.bytes
    }

    /// Returns `Ok` if and only if the bytes decode.
    ///
    /// # Errors
    ///
    /// `UnsupportedNumber` if and only if the bytes do not decode, but would if each float and each 256-bit decimal
    /// were a number. Otherwise `InvalidJsonb`.
    ///
    /// # Complexity
    ///
    /// O(n). Does not allocate.
    ///
    /// # Examples
    ///
    /// ```rust crates/jsonb_examples/src/first.rt
    /// let fred = RawJsonb::new(FRED);
    /// fred.check()?; // bytes from outside: checked once
    /// ```
    ///
    /// <!-- rows: calls: check -->
    /// | Document | Result |
    /// |---|---|
    /// | no bytes | refused: `InvalidJsonb` |
    /// | a float | refused: `UnsupportedNumber` |
    pub fn check(&self) -> Result<(), Error>
        ensures ok { IsOk result ↔ ((t : Tree) × Decodes any (raw_bytes self.now) t) }
        ensures unsupported { IsErrOf result Error.UnsupportedNumber ↔ IsUnsupportedDocument (raw_bytes self.now) }
        ensures invalid { IsErrOf result Error.InvalidJsonb ↔ IsNoDocument (raw_bytes self.now) }
    {
        jsonb_doc::check(self.bytes)
    }

    /// Returns the depth of the deepest item.
    ///
    /// The root has depth 0, and the children of a container one more than it: 0 for a scalar and an empty container, 1
    /// for `[1]`.
    ///
    /// # Errors
    ///
    /// Those of `check`, if and only if the bytes do not decode.
    ///
    /// # Complexity
    ///
    /// O(n). Does not allocate.
    ///
    /// # Examples
    ///
    /// ```rust crates/jsonb_examples/src/calls.rt
    /// pub fn is_sortable(document: &RawJsonb<'_>) -> Result<bool, Error> {
    ///     Ok(document.depth()? <= 255)
    /// }
    /// ```
    pub fn depth(&self) -> Result<usize, Error>
        ensures depth { (form : Form) (t : Tree) → Decodes form (raw_bytes self.now) t → result ≡ Ok (deepest t) }
        ensures ok { IsOk result ↔ ((t : Tree) × Decodes any (raw_bytes self.now) t) }
        ensures unsupported { IsErrOf result Error.UnsupportedNumber ↔ IsUnsupportedDocument (raw_bytes self.now) }
        ensures invalid { IsErrOf result Error.InvalidJsonb ↔ IsNoDocument (raw_bytes self.now) }
    {
        jsonb_doc::depth(self.bytes)
    }

    /// Returns `Ok` if and only if the bytes decode and no item is deeper than the limit, in terms of `depth`.
    ///
    /// # Errors
    ///
    /// Those of `check`, if and only if the bytes do not decode; otherwise `TooDeep` if and only if an item is deeper.
    ///
    /// # Complexity
    ///
    /// O(n). Does not allocate.
    ///
    /// # Examples
    ///
    /// ```rust crates/jsonb_examples/src/untrusted.rt
    /// let document = RawJsonb::new(bytes);
    /// document.check_depth(DEEPEST_ITEM)?;
    /// ```
    pub fn check_depth(&self, limit: usize) -> Result<(), Error>
        ensures ok { IsOk result ↔ ((t : Tree) × Decodes any (raw_bytes self.now) t × (deepest t ≤ limit)) }
        ensures too_deep { IsErrOf result Error.TooDeep
            ↔ ((t : Tree) × Decodes any (raw_bytes self.now) t × (limit < deepest t)) }
        ensures unsupported { IsErrOf result Error.UnsupportedNumber ↔ IsUnsupportedDocument (raw_bytes self.now) }
        ensures invalid { IsErrOf result Error.InvalidJsonb ↔ IsNoDocument (raw_bytes self.now) }
    {
        jsonb_doc::check_depth(self.bytes, limit)
    }
}
