//! Evaluation of JSON paths: the items of a document that a path selects.
//!
//! A selection is a list of positions in the bytes. Each step maps it to the next list. No item is copied before it is
//! returned.

ghost use Rattle.std.specs.Prelude.{IfOk, ◌≡◌, List, IsOkAnd, IfErr, OnOk};
ghost use Rattle.jsonb_doc.specs.Answer.{IsDecodingError, Outcome, ◌or◌};
ghost use Rattle.jsonb_doc.specs.AnyBytes.Roots.{HasReadableRoot};
ghost use Rattle.jsonb_doc.specs.Format.{Decodes};
ghost use Rattle.jsonb_doc.specs.Payload.{Form};
ghost use Rattle.jsonb_doc.specs.Tree.{Tree};
ghost use Rattle.jsonb_doc.specs.declared.error.Error.TheVariants.{TooLarge};
ghost use Rattle.jsonb_raw.specs.Documents.{raw_bytes};
ghost use Rattle.jsonb.specs.Meaning.{first_item, Means};
ghost use Rattle.jsonb.specs.PathViews.{path_view, steps_view};
ghost use Rattle.jsonb.specs.SelectionErrors.{IsSelectionError};
ghost use Rattle.jsonb.specs.SelectorAnswers.{ByMeanings, IsPicked};
ghost use Rattle.jsonb.specs.Private.Selection.{AreSelected, IsSelectionOf, HasTree};
ghost use Rattle.jsonb.specs.declared.selector.document.Document.{Document};
ghost use Rattle.std.specs.Prelude.{is_some as has_value};

mod by_path;
mod calculate;
mod children;
mod column;
mod compared_lists;
mod compared_member;
mod compile;
mod distinct;
mod document;
mod documents;
mod evaluate;
mod expressions;
mod first_item;
mod found;
mod levels;
mod limited;
mod lists;
mod members;
mod most_items;
mod node_list;
mod operand_value;
mod pair;
mod plan;
mod search;
mod selected;
mod steps;
mod values;
mod whole_path;

pub use self::by_path::SelectByPath;
use self::compared_lists::{root_compared, root_compared_truth};
use self::document::{Context, Document, Mode};
use self::documents::{array_document, documents, first_document, found_document, value_document};
pub use self::first_item::FirstItem;
use self::first_item::first_of;
pub use self::found::FoundItem;
use self::found::found_items;
pub use self::limited::{LimitError, LimitedSelector};
use self::selected::Selected;
use self::whole_path::{
    expression_truth, first_selection, listed_selection, only_expression, root_member, searched,
    selection, selects_any,
};
use crate::path::{JsonPath, Path};
use jsonb_doc::{Error, Spot, root_spot};
use jsonb_raw::{OwnedJsonb, RawJsonb};
use std::alloc::Global;

/// Evaluates paths on a document. docs/PATHS.md defines what a path selects in lax and in strict mode, and how that
/// differs from SQL/JSON.
///
/// An error anywhere in the path fails the call, even after a first item. Only `predicate_match` does not evaluate a
/// path that is not a single expression. Results depend only on the root, the mode and the path, so a selector can be
/// used again after an error.
///
/// Every call returns, whatever the bytes are. On bytes that do not decode it may return a value, possibly a document
/// that does not decode: call `check` first on untrusted bytes.
///
/// # Errors
///
/// Each method names its own errors, and these **selection errors**:
///
/// - `InvalidJsonPath` if the path cannot be evaluated on the document, `Arithmetic` if an operation has no result, and
///   `StrictPath`, only in strict mode, if a step does not apply to an item. If the document decodes, the error is the
///   first of the evaluation;
/// - `InvalidJsonb` and `UnsupportedNumber` only if the root or a document in the path does not decode. If the root
///   cannot be read, the call fails;
/// - `OutOfMemory` if an allocation fails.
///
/// # Complexity
///
/// The sum of the items that each step visits; `.**` visits all items within an item. A comparison examines pairs of
/// the values of both sides, at most their product. Allocates lists of positions, and the results, which are copied
/// once. docs/STACK.md lists the stack that filters and conditions need.
#[derive(Drop)]
pub struct Selector<'a> {
    alloc: Global,
    root: RawJsonb<'a>,
    mode: Mode,
}

impl<'a> Selector<'a> {
    ghost use Rattle.std.specs.Prelude.{◌≡◌, Ok, None, true, false, IfErr, OnOk};
    ghost use Rattle.jsonb_raw.specs.Documents.{raw_bytes};
    ghost use Rattle.jsonb_doc.specs.Answer.{◌or◌};
    ghost use Rattle.jsonb_doc.specs.declared.error.Error.TheVariants.{TooLarge};
    ghost use Rattle.jsonb_doc.specs.Format.{Decodes};
    ghost use Rattle.jsonb.specs.FoundItems.{IsItemOf};
    ghost use Rattle.jsonb.specs.PathTree.{is_predicate};
    ghost use Rattle.jsonb.specs.PathViews.{path_view};
    ghost use Rattle.jsonb.specs.SelectionErrors.{IsSelectionError};
    ghost use Rattle.jsonb_doc.specs.AnyBytes.Roots.{HasReadableRoot};
    ghost use Rattle.jsonb.specs.FirstItems.{FindsFirst};
    ghost use Rattle.jsonb.specs.SelectorAnswers.{first_item, single_or_array, ByMeanings, AreAll, IsArrayOf, IsPicked, IsFound, IsTruthOf};
    ghost use Rattle.jsonb.specs.declared.selector.document.Mode.TheVariants.{Lax, Strict};

    /// Creates a selector in lax mode: a step that does not apply to an item selects nothing of it, and `[*]` selects
    /// the item itself.
    ///
    /// # Complexity
    ///
    /// O(1). Does not allocate.
    ///
    /// # Examples
    ///
    /// ```rust crates/jsonb_examples/src/evaluation.rt
    /// let mut selector = Selector::new(alloc, store);
    /// let titles = selector.select_values(&title)?;
    /// let prices = selector.select_array(&price)?;
    /// let first = selector.select_first(&title)?;
    /// let is_cheap = selector.predicate_match(&cheap)?;
    /// ```
    pub fn new(alloc: Global, root: RawJsonb<'a>) -> Selector<'a>
        ensures root { raw_bytes result.root ≡ raw_bytes root.entry }
        ensures mode { result.mode ≡ Lax }
    {
        Selector {
            alloc,
            root,
            mode: Mode::Lax,
        }
    }

    /// Creates a selector in strict mode: a step that does not apply to an item fails with `StrictPath`.
    ///
    /// These do not apply, in filters, operands and `exists` too: a key on an item that is not an object or lacks it,
    /// `.*` on an item that is not an object, `[*]` and subscripts on an item that is not an array. A position past the
    /// end of an array selects nothing, and `.**` is as in lax mode.
    ///
    /// # Complexity
    ///
    /// O(1). Does not allocate.
    ///
    /// # Examples
    ///
    /// ```rust crates/jsonb_examples/src/evaluation.rt
    /// let mut selector = Selector::new_strict(alloc, document);
    /// selector.select_array(&path)
    /// ```
    pub fn new_strict(alloc: Global, root: RawJsonb<'a>) -> Selector<'a>
        ensures root { raw_bytes result.root ≡ raw_bytes root.entry }
        ensures mode { result.mode ≡ Strict }
    {
        Selector {
            alloc,
            root,
            mode: Mode::Strict,
        }
    }

    /// Returns each item that the path selects as a document, in order, with repeats.
    ///
    /// Like PostgreSQL's `jsonb_path_query`.
    ///
    /// # Errors
    ///
    /// Selection errors, and `TooLarge` only if an item exceeds the limits of a document.
    ///
    /// # Complexity
    ///
    /// That of the evaluation. Allocates; each item is copied once.
    ///
    /// # Examples
    ///
    /// ```rust crates/jsonb_examples/src/evaluation.rt
    /// let mut selector = Selector::new(alloc, store);
    /// let titles = selector.select_values(&title)?;
    /// ```
    pub fn select_values(&mut self, path: &JsonPath<'_>) -> Result<Vec<OwnedJsonb>, Error>
        ensures kept { self.new ≡ self.old }
        ensures values { ByMeanings self.old.mode (raw_bytes self.old.root) (path_view path.now)
            (AreAll Decodes) result }
        ensures errors { IfErr result (IsSelectionError self.old.mode or TooLarge) }
        ensures readable { OnOk result (HasReadableRoot (raw_bytes self.old.root)) }
    {
        let (document, selected) = selected_at(self.alloc, self.mode, self.root, path)?;
        documents(self.alloc, document, &selected)
    }

    /// Returns each item that the path selects, found in place: what `select_values` returns, without a copy.
    ///
    /// # Errors
    ///
    /// Selection errors, and `TooLarge` only if a computed item exceeds the limits of a document.
    ///
    /// # Complexity
    ///
    /// That of the evaluation. Allocates a list of the items.
    ///
    /// # Examples
    ///
    /// ```rust crates/jsonb_examples/src/evaluation.rt
    /// let found = Selector::new(alloc, document).find_values(path)?;
    /// ```
    pub fn find_values(&mut self, path: &JsonPath<'_>) -> Result<Vec<FoundItem>, Error>
        ensures kept { self.new ≡ self.old }
        ensures items { ByMeanings self.old.mode (raw_bytes self.old.root) (path_view path.now)
            (AreAll (IsItemOf (raw_bytes self.old.root))) result }
        ensures errors { IfErr result (IsSelectionError self.old.mode or TooLarge) }
        ensures readable { OnOk result (HasReadableRoot (raw_bytes self.old.root)) }
    {
        let (document, selected) = selected_at(self.alloc, self.mode, self.root, path)?;
        found_items(self.alloc, document, &selected)
    }

    /// Returns an array of the items that the path selects.
    ///
    /// Like PostgreSQL's `jsonb_path_query_array`.
    ///
    /// # Errors
    ///
    /// Selection errors, and `TooLarge` only if the array exceeds the limits of a document.
    ///
    /// # Complexity
    ///
    /// That of the evaluation. Allocates; each item is copied once.
    ///
    /// # Examples
    ///
    /// ```rust crates/jsonb_examples/src/evaluation.rt
    /// let prices = selector.select_array(&price)?;
    /// ```
    pub fn select_array(&mut self, path: &JsonPath<'_>) -> Result<OwnedJsonb, Error>
        ensures kept { self.new ≡ self.old }
        ensures array { ByMeanings self.old.mode (raw_bytes self.old.root) (path_view path.now) IsArrayOf result }
        ensures errors { IfErr result (IsSelectionError self.old.mode or TooLarge) }
        ensures readable { OnOk result (HasReadableRoot (raw_bytes self.old.root)) }
    {
        let (document, selected) = selected_at(self.alloc, self.mode, self.root, path)?;
        array_document(self.alloc, document, &selected)
    }

    /// Returns the first item that the path selects, or `None`.
    ///
    /// An error after the first item fails the call. Like PostgreSQL's `jsonb_path_query_first`.
    ///
    /// # Errors
    ///
    /// Selection errors, and `TooLarge` only if the first item exceeds the limits of a document.
    ///
    /// # Complexity
    ///
    /// That of the evaluation. Allocates; the item is copied. In lax mode the evaluation stops at the first item if all
    /// filters are like `?(@.a == 1 && (@.b > @.c || exists(@.d)))`; subscripts and `.**` list all their items.
    ///
    /// # Examples
    ///
    /// ```rust crates/jsonb_examples/src/evaluation.rt
    /// let first = selector.select_first(&title)?;
    /// ```
    pub fn select_first(&mut self, path: &JsonPath<'_>) -> Result<Option<OwnedJsonb>, Error>
        ensures kept { self.new ≡ self.old }
        ensures first { ByMeanings self.old.mode (raw_bytes self.old.root) (path_view path.now)
            (IsPicked first_item) result }
        ensures errors { IfErr result (IsSelectionError self.old.mode or TooLarge) }
        ensures readable { OnOk result (HasReadableRoot (raw_bytes self.old.root)) }
    {
        let context = context_of(self.alloc, self.mode, self.root)?;
        match searched(&context, &path.paths)? {
            Some(found) => found_document(self.alloc, context.document.bytes, found),
            None => listed_first(&context, &path.paths),
        }
    }

    /// Returns the spot of the first item that the path selects, which `select_first` copies, or `None`.
    ///
    /// Returns `Computed` if the path selects an item and is an expression, whose result is not in the document.
    ///
    /// # Errors
    ///
    /// Selection errors.
    ///
    /// # Complexity
    ///
    /// That of `select_first`, without a copy.
    ///
    /// # Examples
    ///
    /// ```rust crates/jsonb_c/src/span/first.rt
    /// let found = selector(alloc, document, strict).find_first(path)?;
    /// ```
    pub fn find_first(&mut self, path: &JsonPath<'_>) -> Result<Option<FirstItem<Spot>>, Error>
        ensures kept { self.new ≡ self.old }
        ensures first { ByMeanings self.old.mode (raw_bytes self.old.root) (path_view path.now)
            (FindsFirst (raw_bytes self.old.root) (path_view path.now)) result }
        ensures errors { IfErr result (IsSelectionError self.old.mode) }
        ensures readable { OnOk result (HasReadableRoot (raw_bytes self.old.root)) }
    {
        let context = context_of(self.alloc, self.mode, self.root)?;
        let selected = first_selection(&context, &path.paths)?;
        let computed = only_expression(&path.paths).is_some();
        Ok(first_of(computed, &selected))
    }

    /// Returns the item that the path selects if it is the only one, an array if there are several, or `None`.
    ///
    /// # Errors
    ///
    /// Selection errors, and `TooLarge` only if the item or the array exceeds the limits of a document.
    ///
    /// # Complexity
    ///
    /// That of the evaluation. Allocates; each item is copied once.
    ///
    /// # Examples
    ///
    /// ```rust crates/jsonb_examples/src/evaluation.rt
    /// if selector.exists(path)? {
    ///     return selector.select_value(path);
    /// }
    /// ```
    pub fn select_value(&mut self, path: &JsonPath<'_>) -> Result<Option<OwnedJsonb>, Error>
        ensures kept { self.new ≡ self.old }
        ensures value { ByMeanings self.old.mode (raw_bytes self.old.root) (path_view path.now)
            (IsPicked single_or_array) result }
        ensures errors { IfErr result (IsSelectionError self.old.mode or TooLarge) }
        ensures readable { OnOk result (HasReadableRoot (raw_bytes self.old.root)) }
    {
        let (document, selected) = selected_at(self.alloc, self.mode, self.root, path)?;
        value_document(self.alloc, document, &selected)
    }

    /// Returns `true` if the path selects an item.
    ///
    /// A predicate selects its result, so this is `true` of every predicate that does not fail. Like PostgreSQL's `@?`
    /// and `jsonb_path_exists`.
    ///
    /// # Errors
    ///
    /// Selection errors.
    ///
    /// # Complexity
    ///
    /// That of `select_first`, without a copy.
    ///
    /// # Examples
    ///
    /// ```rust crates/jsonb_examples/src/evaluation.rt
    /// if selector.exists(path)? {
    ///     return selector.select_value(path);
    /// }
    /// ```
    pub fn exists(&mut self, path: &JsonPath<'_>) -> Result<bool, Error>
        ensures kept { self.new ≡ self.old }
        ensures exists { ByMeanings self.old.mode (raw_bytes self.old.root) (path_view path.now) IsFound result }
        ensures errors { IfErr result (IsSelectionError self.old.mode) }
        ensures readable { OnOk result (HasReadableRoot (raw_bytes self.old.root)) }
    {
        if let Some(found) = root_member(self.mode, self.root.as_bytes(), &path.paths)? {
            return Ok(found.is_some());
        }
        let context = context_of(self.alloc, self.mode, self.root)?;
        selects_any(&context, &path.paths)
    }

    /// Returns the result of a path that is a comparison, `&&`, `||` or `exists`, or `None` if it is unknown.
    ///
    /// For a sign or arithmetic, returns `None` unless its evaluation fails. For a path that is not a single
    /// expression, returns `None` without evaluating it. Like PostgreSQL's `@@` and `jsonb_path_match`.
    ///
    /// # Errors
    ///
    /// Selection errors. None for a path that is not a single expression.
    ///
    /// # Complexity
    ///
    /// That of the evaluation, without a copy. For a path that is not a single expression O(1), without allocating.
    ///
    /// # Examples
    ///
    /// ```rust crates/jsonb_examples/src/evaluation.rt
    /// let is_cheap = selector.predicate_match(&cheap)?;
    /// ```
    pub fn predicate_match(&mut self, path: &JsonPath<'_>) -> Result<Option<bool>, Error>
        ensures kept { self.new ≡ self.old }
        ensures other { is_predicate (path_view path.now) ≡ false → result ≡ Ok None }
        ensures truth { IsTruthOf self.old.mode (path_view path.now) (raw_bytes self.old.root) result }
        ensures errors { IfErr result (IsSelectionError self.old.mode) }
        ensures readable { is_predicate (path_view path.now) ≡ true
            → OnOk result (HasReadableRoot (raw_bytes self.old.root)) }
    {
        match only_expression(&path.paths) {
            Some(e) => {
                if let Some(compared) = root_compared(e) {
                    return root_compared_truth(self.mode, compared, self.root.as_bytes());
                }
                let context = context_of(self.alloc, self.mode, self.root)?;
                expression_truth(&context, e)
            }
            None => Ok(None),
        }
    }
}

/// Returns the context in which a path is evaluated on a document. Fails if the root cannot be read.
#[inline(always)]
fn context_of(alloc: Global, mode: Mode, root: RawJsonb<'_>) -> Result<Context<'_>, Error>
    ensures meant { (form : Form) (top : Tree) → Decodes form (raw_bytes root.entry) top → IsOkAnd result
        (λ c. (c.document.bytes.now ≡ raw_bytes root.entry) × HasTree c.document top) }
    ensures mode { IfOk result (λ c. c.mode ≡ mode) }
    ensures errors { IfErr result IsDecodingError }
    ensures readable { OnOk result (HasReadableRoot (raw_bytes root.entry)) }
{
    let bytes = root.as_bytes();
    let spot = root_spot(bytes)?;
    let document = Document { bytes, root: spot };
    Ok(Context {
        alloc,
        mode,
        document,
    })
}

/// Returns the document with its root, and what the path selects.
#[inline(always)]
fn selected_at<'s>(
    alloc: Global,
    mode: Mode,
    root: RawJsonb<'s>,
    path: &'s JsonPath<'_>,
) -> Result<(Document<'s>, Selected<'s>), Error>
    ensures meant { ByMeanings mode (raw_bytes root.entry) (path_view path.now)
        (IsSelectionOf (raw_bytes root.entry)) result }
    ensures errors { IfErr result (IsSelectionError mode) }
    ensures readable { OnOk result (HasReadableRoot (raw_bytes root.entry)) }
{
    let context = context_of(alloc, mode, root)?;
    let selected = selection(&context, &path.paths)?;
    Ok((context.document, selected))
}

/// Returns the first item that a path selects as a document, if a search has not found it.
#[inline(never)]
fn listed_first<'a>(
    context: &Context<'a>,
    steps: &'a [Path<'_>],
) -> Result<Option<OwnedJsonb>, Error>
    ensures first { (form : Form) (top : Tree) (outcome : Outcome (List Tree))
        → Decodes form context.now.document.bytes.now top → HasTree context.now.document top
        → Means form context.now.mode (steps_view steps.now) top outcome
        → IsPicked first_item form outcome result }
    ensures errors { IfErr result (IsSelectionError context.now.mode or TooLarge) }
{
    let selected = listed_selection(context, steps)?;
    first_document(context.alloc, context.document, &selected)
}

/// Returns `true` if anything is selected.
#[tactic(auto, using(crate::proofs::RefinesLemmas::some_related))]
fn is_some(selected: &Selected<'_>) -> bool
    ensures { (form : Form) (document : Document) (ts : List Tree) → AreSelected form document selected.now ts
        → result ≡ has_value (first_item ts) }
{
    match selected {
        Selected::Nodes(spots) => !spots.as_slice().is_empty(),
        Selected::Numbers(numbers) => !numbers.is_empty(),
        Selected::Made(_) => true,
    }
}
