//! Evaluation of paths with a limit of items, for paths from untrusted sources.

ghost use Rattle.std.specs.Prelude.{◌≡◌, Some, Result, ◌↔◌, ◌<◌, ◌≤◌, Ok, None, true, false, IfOk, IfErr, OnOk, IsOkAnd, IsErrOf};
ghost use Rattle.jsonb_doc.specs.Answer.{IsOutOfMemory, ◌or◌};
ghost use Rattle.jsonb_doc.specs.AnyBytes.Roots.{HasReadableRoot};
ghost use Rattle.jsonb_doc.specs.AnyBytes.Unsupported.{IsUnsupportedDocument, IsNoDocument};
ghost use Rattle.jsonb_doc.specs.Format.{Decodes};
ghost use Rattle.jsonb_doc.specs.Payload.{Form};
ghost use Rattle.jsonb_doc.specs.Tree.{Tree};
ghost use Rattle.jsonb_doc.specs.declared.error.Error.{Error};
ghost use Rattle.jsonb_doc.specs.declared.error.Error.TheVariants.{TooLarge};
ghost use Rattle.jsonb_raw.specs.Documents.{raw_bytes};
ghost use Rattle.jsonb.specs.LimitedAnswers.{limit_error_text, UnlessExceeded, IsLimited};
ghost use Rattle.jsonb.specs.Meaning.{first_item};
ghost use Rattle.jsonb.specs.MostItems.{most_items, document_size};
ghost use Rattle.jsonb.specs.PathTree.{is_predicate};
ghost use Rattle.jsonb.specs.PathViews.{path_view};
ghost use Rattle.jsonb.specs.SelectionErrors.{IsSelectionError};
ghost use Rattle.jsonb.specs.SelectorAnswers.{single_or_array, ByMeanings, AreAll, IsArrayOf, IsPicked, IsFound, IsTruthOf};
ghost use Rattle.jsonb.specs.Private.Limited.{lifted, IsRefusal};
ghost use Rattle.jsonb.specs.declared.selector.document.Mode.TheVariants.{Lax, Strict};
ghost use Rattle.jsonb.specs.declared.selector.limited.LimitError.TheVariants.{Failed, LimitExceeded};
ghost use Rattle.jsonb_doc.specs.declared.error.Error.TheVariants as error;

use super::Selector;
use super::most_items::{DocumentSize, most_items};
use crate::path::JsonPath;
use jsonb_doc::Error;
use jsonb_raw::{OwnedJsonb, RawJsonb};
use std::alloc::Global;
use std::fmt;

/// Why a call of a `LimitedSelector` failed. It prints as the name of the error.
#[derive(Clone, Copy, Debug, PartialEq, Eq)]
pub enum LimitError {
    /// The bound of the path on this document is above the limit.
    LimitExceeded,
    /// The error of the same call of a `Selector`.
    Failed(Error),
}

impl fmt::Display for LimitError {
    ghost output = { λ e. Some (limit_error_text e) };

    fn fmt<W: fmt::Write>(&self, f: &mut fmt::Formatter<W>) -> fmt::Result {
        match self {
            LimitError::LimitExceeded => f.write_str("LimitExceeded"),
            LimitError::Failed(error) => write!(f, "{error}"),
        }
    }
}

impl std::error::Error for LimitError {}

impl From<Error> for LimitError {
    ghost from_gives = { λ error e. e ≡ Failed error };

    fn from(error: Error) -> LimitError {
        LimitError::Failed(error)
    }
}

/// Evaluates paths on a document, as a `Selector` does, with a limit of items: for paths from untrusted sources.
///
/// A short path can select more items than memory holds, such as `$.**.**.**.**.**`, or run for hours. So each call
/// first computes a bound from the path, the length of the document and its depth: at most how many items the steps
/// list and how many values its filters compare. If the bound is above the limit, the call fails with `LimitExceeded`;
/// otherwise it is the call of a `Selector`. `most_items` says how the bound is computed.
///
/// # Errors
///
/// `LimitExceeded` if and only if the bound is above the limit, unless an allocation fails; otherwise `Failed` with the
/// error of the `Selector`.
///
/// # Complexity
///
/// Each call adds time in proportion to the path, and a list of its filters.
#[derive(Drop)]
pub struct LimitedSelector<'a> {
    selector: Selector<'a>,
    size: DocumentSize,
    limit: u64,
}

impl<'a> LimitedSelector<'a> {
    /// Creates a selector in lax mode with a limit. Checks the document.
    ///
    /// # Errors
    ///
    /// `InvalidJsonb` or `UnsupportedNumber` if and only if the bytes do not decode.
    ///
    /// # Complexity
    ///
    /// O(n): that of `depth`. Does not allocate.
    ///
    /// # Examples
    ///
    /// ```rust crates/jsonb_examples/src/untrusted.rt
    /// let mut selector = LimitedSelector::new(alloc, document, MOST_ITEMS)?;
    /// selector.select_values(&path)
    /// ```
    pub fn new(alloc: Global, root: RawJsonb<'a>, limit: u64) -> Result<LimitedSelector<'a>, Error>
        ensures made { (form : Form) (top : Tree) → Decodes form (raw_bytes root.entry) top
            → IsOkAnd result (λ s. s.size ≡ document_size (raw_bytes root.entry) top) }
        ensures ok { IfOk result (λ s. (raw_bytes s.selector.root ≡ raw_bytes root.entry) × (s.selector.mode ≡ Lax)
            × (s.limit ≡ limit)) }
        ensures unsupported { IsErrOf result error.UnsupportedNumber ↔ IsUnsupportedDocument (raw_bytes root.entry) }
        ensures invalid { IsErrOf result error.InvalidJsonb ↔ IsNoDocument (raw_bytes root.entry) }
    {
        let size = DocumentSize::of(root)?;
        let selector = Selector::new(alloc, root);
        Ok(LimitedSelector {
            selector,
            size,
            limit,
        })
    }

    /// Creates a selector in strict mode with a limit. Checks the document.
    ///
    /// # Errors
    ///
    /// `InvalidJsonb` or `UnsupportedNumber` if and only if the bytes do not decode.
    ///
    /// # Complexity
    ///
    /// O(n): that of `depth`. Does not allocate.
    ///
    /// # Examples
    ///
    /// ```rust crates/jsonb_examples/src/untrusted.rt
    /// let mut selector = LimitedSelector::new_strict(alloc, document, limit)?;
    /// let first = selector.select_first(path)?;
    /// ```
    pub fn new_strict(
        alloc: Global,
        root: RawJsonb<'a>,
        limit: u64,
    ) -> Result<LimitedSelector<'a>, Error>
        ensures made { (form : Form) (top : Tree) → Decodes form (raw_bytes root.entry) top
            → IsOkAnd result (λ s. s.size ≡ document_size (raw_bytes root.entry) top) }
        ensures ok { IfOk result (λ s. (raw_bytes s.selector.root ≡ raw_bytes root.entry) × (s.selector.mode ≡ Strict)
            × (s.limit ≡ limit)) }
        ensures unsupported { IsErrOf result error.UnsupportedNumber ↔ IsUnsupportedDocument (raw_bytes root.entry) }
        ensures invalid { IsErrOf result error.InvalidJsonb ↔ IsNoDocument (raw_bytes root.entry) }
    {
        let size = DocumentSize::of(root)?;
        let selector = Selector::new_strict(alloc, root);
        Ok(LimitedSelector {
            selector,
            size,
            limit,
        })
    }

    /// Returns the bound of a path: at most how many items its steps list, and how many values its filters compare.
    /// Returns 2^64 - 1 for a larger one.
    ///
    /// It is computed from n, a quarter of the document's bytes, since each item has an entry of four bytes, and h, its
    /// depth and 1. A list has c items, and w items at and below them; of the root c is 1, and w is n.
    ///
    /// - Names, `$`, `@` and filters leave both. After `[*]` and `.*`, c is w. After `.**`, c is w, and w is h times as
    ///   large. k subscripts multiply c and w by k; if one of them is a range, c is w then.
    /// - Each step adds the c of its list, and a filter also what its operands add. Those that begin with `@` start
    ///   with the filter's list, others with its c and with c times n.
    /// - A comparison, a sign and arithmetic add the values of their operands: for a path the w of its last list, for a
    ///   literal c. An operator with two sides also adds the values of one side times those that the other has for a
    ///   single item, the smaller of both products.
    ///
    /// # Errors
    ///
    /// `OutOfMemory` if an allocation fails.
    ///
    /// # Complexity
    ///
    /// O(m) for m steps, subscripts and operators, however deep they are nested. Allocates a list of expressions.
    ///
    /// # Examples
    ///
    /// ```rust crates/jsonb_examples/src/untrusted.rt
    /// Ok(selector.most_items(path)? <= limit)
    /// ```
    pub fn most_items(&self, path: &JsonPath<'_>) -> Result<u64, Error>
        ensures bound { IfOk result (λ n. n ≡ most_items self.now.size (path_view path.now)) }
        ensures errors { IfErr result IsOutOfMemory }
    {
        most_items(self.selector.alloc, self.size, &path.paths)
    }

    /// Fails if the bound of a path is above the limit.
    fn admit(&self, path: &JsonPath<'_>) -> Result<(), LimitError>
        ensures exceeded { IsErrOf result LimitExceeded
            → self.now.limit < most_items self.now.size (path_view path.now) }
        ensures within { OnOk result (most_items self.now.size (path_view path.now) ≤ self.now.limit) }
        ensures errors { IfErr result IsRefusal }
    {
        match self.most_items(path) {
            Ok(bound) => {
                if bound > self.limit {
                    Err(LimitError::LimitExceeded)
                } else {
                    Ok(())
                }
            }
            Err(error) => Err(LimitError::Failed(error)),
        }
    }

    /// Returns each item that the path selects as a document, in order, with repeats.
    ///
    /// # Errors
    ///
    /// `LimitExceeded`, and those of `Selector::select_values`.
    ///
    /// # Complexity
    ///
    /// That of `Selector::select_values`, and of `most_items`.
    ///
    /// # Examples
    ///
    /// ```rust crates/jsonb_examples/src/untrusted.rt
    /// selector.select_values(&path)
    /// ```
    pub fn select_values(&mut self, path: &JsonPath<'_>) -> Result<Vec<OwnedJsonb>, LimitError>
        ensures limited { IsLimited self.old self.new (path_view path.now) result }
        ensures values { UnlessExceeded (ByMeanings self.old.selector.mode (raw_bytes self.old.selector.root)
            (path_view path.now) (AreAll Decodes)) result }
        ensures errors { UnlessExceeded (λ answer. IfErr answer
            (IsSelectionError self.old.selector.mode or TooLarge)) result }
        ensures readable { OnOk result (HasReadableRoot (raw_bytes self.old.selector.root)) }
    {
        self.admit(path)?;
        lifted(self.selector.select_values(path))
    }

    /// Returns an array of the items that the path selects.
    ///
    /// # Errors
    ///
    /// `LimitExceeded`, and those of `Selector::select_array`.
    ///
    /// # Complexity
    ///
    /// That of `Selector::select_array`, and of `most_items`.
    ///
    /// # Examples
    ///
    /// ```rust crates/jsonb_examples/src/untrusted.rt
    /// let array = selector.select_array(path)?;
    /// ```
    pub fn select_array(&mut self, path: &JsonPath<'_>) -> Result<OwnedJsonb, LimitError>
        ensures limited { IsLimited self.old self.new (path_view path.now) result }
        ensures array { UnlessExceeded (ByMeanings self.old.selector.mode (raw_bytes self.old.selector.root)
            (path_view path.now) IsArrayOf) result }
        ensures errors { UnlessExceeded (λ answer. IfErr answer
            (IsSelectionError self.old.selector.mode or TooLarge)) result }
        ensures readable { OnOk result (HasReadableRoot (raw_bytes self.old.selector.root)) }
    {
        self.admit(path)?;
        lifted(self.selector.select_array(path))
    }

    /// Returns the first item that the path selects, or `None`.
    ///
    /// # Errors
    ///
    /// `LimitExceeded`, and those of `Selector::select_first`.
    ///
    /// # Complexity
    ///
    /// That of `Selector::select_first`, and of `most_items`.
    ///
    /// # Examples
    ///
    /// ```rust crates/jsonb_examples/src/untrusted.rt
    /// let first = selector.select_first(path)?;
    /// ```
    pub fn select_first(&mut self, path: &JsonPath<'_>) -> Result<Option<OwnedJsonb>, LimitError>
        ensures limited { IsLimited self.old self.new (path_view path.now) result }
        ensures first { UnlessExceeded (ByMeanings self.old.selector.mode (raw_bytes self.old.selector.root)
            (path_view path.now) (IsPicked first_item)) result }
        ensures errors { UnlessExceeded (λ answer. IfErr answer
            (IsSelectionError self.old.selector.mode or TooLarge)) result }
        ensures readable { OnOk result (HasReadableRoot (raw_bytes self.old.selector.root)) }
    {
        self.admit(path)?;
        lifted(self.selector.select_first(path))
    }

    /// Returns the item that the path selects if it is the only one, an array if there are several, or `None`.
    ///
    /// # Errors
    ///
    /// `LimitExceeded`, and those of `Selector::select_value`.
    ///
    /// # Complexity
    ///
    /// That of `Selector::select_value`, and of `most_items`.
    ///
    /// # Examples
    ///
    /// ```rust crates/jsonb_examples/src/untrusted.rt
    /// let value = selector.select_value(path)?;
    /// ```
    pub fn select_value(&mut self, path: &JsonPath<'_>) -> Result<Option<OwnedJsonb>, LimitError>
        ensures limited { IsLimited self.old self.new (path_view path.now) result }
        ensures value { UnlessExceeded (ByMeanings self.old.selector.mode (raw_bytes self.old.selector.root)
            (path_view path.now) (IsPicked single_or_array)) result }
        ensures errors { UnlessExceeded (λ answer. IfErr answer
            (IsSelectionError self.old.selector.mode or TooLarge)) result }
        ensures readable { OnOk result (HasReadableRoot (raw_bytes self.old.selector.root)) }
    {
        self.admit(path)?;
        lifted(self.selector.select_value(path))
    }

    /// Returns `true` if the path selects an item.
    ///
    /// # Errors
    ///
    /// `LimitExceeded`, and those of `Selector::exists`.
    ///
    /// # Complexity
    ///
    /// That of `Selector::exists`, and of `most_items`.
    ///
    /// # Examples
    ///
    /// ```rust crates/jsonb_examples/src/untrusted.rt
    /// let is_found = selector.exists(path)?;
    /// ```
    pub fn exists(&mut self, path: &JsonPath<'_>) -> Result<bool, LimitError>
        ensures limited { IsLimited self.old self.new (path_view path.now) result }
        ensures exists { UnlessExceeded (ByMeanings self.old.selector.mode (raw_bytes self.old.selector.root)
            (path_view path.now) IsFound) result }
        ensures errors { UnlessExceeded (λ answer. IfErr answer (IsSelectionError self.old.selector.mode)) result }
        ensures readable { OnOk result (HasReadableRoot (raw_bytes self.old.selector.root)) }
    {
        self.admit(path)?;
        lifted(self.selector.exists(path))
    }

    /// Returns the result of a path that is a comparison, `&&`, `||` or `exists`, or `None` if it is unknown.
    ///
    /// For a path that is not a single expression, returns `None` whatever its bound is.
    ///
    /// # Errors
    ///
    /// `LimitExceeded`, and those of `Selector::predicate_match`. None for a path that is not a single expression.
    ///
    /// # Complexity
    ///
    /// That of `Selector::predicate_match`, and of `most_items` for a single expression.
    ///
    /// # Examples
    ///
    /// ```rust crates/jsonb_examples/src/untrusted.rt
    /// let truth = selector.predicate_match(path)?;
    /// ```
    pub fn predicate_match(&mut self, path: &JsonPath<'_>) -> Result<Option<bool>, LimitError>
        ensures limited { is_predicate (path_view path.now) ≡ true
            → IsLimited self.old self.new (path_view path.now) result }
        ensures other { is_predicate (path_view path.now) ≡ false → (result ≡ Ok None) × (self.new ≡ self.old) }
        ensures truth { UnlessExceeded
            (IsTruthOf self.old.selector.mode (path_view path.now) (raw_bytes self.old.selector.root)) result }
        ensures errors { UnlessExceeded (λ answer. IfErr answer (IsSelectionError self.old.selector.mode)) result }
        ensures readable { is_predicate (path_view path.now) ≡ true
            → OnOk result (HasReadableRoot (raw_bytes self.old.selector.root)) }
    {
        if path.is_predicate() {
            self.admit(path)?;
        }
        lifted(self.selector.predicate_match(path))
    }
}

/// Returns a result of the selector as one of a call with a limit.
fn lifted<T>(answer: Result<T, Error>) -> Result<T, LimitError>
    ensures { result ≡ lifted answer }
{
    match answer {
        Ok(value) => Ok(value),
        Err(error) => Err(LimitError::Failed(error)),
    }
}
