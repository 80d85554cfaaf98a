//! Arrays as sets. Elements are compared by their equality keys. They are compared by value if both documents are
//! scalars, and in functions that do not allocate.

ghost use Rattle.std.specs.Prelude.{◌≡◌, ◌<◌, ◌^◌, List, [], ◌∷◌, ◌++◌, length, cond, IsOkAnd, IfOk, IfSome, OnOk, IfErr, MatchResult};
ghost use Rattle.std.specs.List.{AllByRecursion, list_any};
ghost use Rattle.jsonb_doc.specs.Tree.{Tree, Trees, array, trees_of, elements as elements_of};
ghost use Rattle.jsonb_doc.specs.Equal.{is_equal};
ghost use Rattle.jsonb_doc.specs.Limits.{Fits, IsTooLarge};
ghost use Rattle.jsonb_doc.specs.Payload.{Form};
ghost use Rattle.jsonb_doc.specs.Format.{Decodes};
ghost use Rattle.jsonb_doc.specs.Item.{StandsFor};
ghost use Rattle.jsonb_doc.specs.Representation.Iterators.{HasElementsLeft};
ghost use Rattle.jsonb_doc.specs.ArrayBuilder.{HoldsElements};
ghost use Rattle.jsonb_doc.specs.Answer.{IsOutOfMemory, ◌or◌, ◌or◌when◌, IsDecodingError};
ghost use Rattle.jsonb_doc.specs.declared.error.Error.TheVariants.{OutOfMemory, TooLarge};
ghost use Rattle.jsonb_raw.specs.AnyBytes.Roots.{HasRoot};
ghost use Rattle.jsonb_raw.specs.Documents.{raw_bytes, Makes};
ghost use Rattle.jsonb_raw.specs.EqualityKey.{equality_key};
ghost use Rattle.jsonb_raw.specs.Arrays.{as_elements};
ghost use Rattle.jsonb_raw.specs.Sets.{select_occurrences, distinct, intersection_of, difference_of, overlap};
ghost use Rattle.jsonb_raw.specs.Private.Entries.{HoldTrees};
ghost use Rattle.jsonb_raw.specs.Private.SetCounts.{CountsKeys, CountsAfter, HaveSeen, keeps, kept_one};

use super::counts::KeyCounts;
use super::overlap::entries_overlap;
use super::overlap_in::count_entries;
use super::seen::{ElementsPassed, KeysCounted, Seen, few_elements};
use crate::equal_items::items_equal;
use crate::equality_key::item_key;
use crate::functions::entries::element_entries;
use crate::functions::joined::{array_of, array_of_run};
use crate::functions::parts::{Entries, EntryWithWord};
use crate::functions::runs::push_run;
use crate::owned::OwnedJsonb;
use crate::raw::RawJsonb;
use jsonb_doc::{ArrayBuilder, ElementIter, Error, Item, array_elements, array_entries, root_item};
use std::alloc::Global;

/// Which occurrences of elements of an array are kept, and what the counts mean.
#[derive(Clone, Copy)]
pub(super) enum SetOperation {
    /// The first of each group of equal elements. The counts are those of the elements visited so far.
    First,
    /// Those that another array has too, as often as it does. The counts are those of its elements that remain.
    Shared,
    /// Those that the intersection drops.
    Unshared,
}

/// Returns `true` if an element with this key is kept, and updates the counts for the elements after it.
pub(super) fn keep_element(
    alloc: Global,
    kind: SetOperation,
    counts: &mut KeyCounts,
    key: &Vec<u8>,
) -> Result<bool, Error>
    ensures kept { (other before : List Tree) (t : Tree) → CountsAfter kind counts.old other before
        → Fits t → key.now.items ≡ equality_key t → length before < 2 ^ 63
        → MatchResult result (λ b. b ≡ keeps kind other (before, t)) IsOutOfMemory }
    ensures behind { (other before : List Tree) (t : Tree) → CountsAfter kind counts.old other before
        → Fits t → key.now.items ≡ equality_key t → length before < 2 ^ 63
        → MatchResult result (λ b. CountsAfter kind counts.new other (t ∷ before)) IsOutOfMemory }
    ensures errors { IfErr result IsOutOfMemory }
{
    match kind {
        SetOperation::First => Ok(counts.add(alloc, key)? == 0),
        SetOperation::Shared => Ok(counts.decrement(key)),
        SetOperation::Unshared => Ok(!counts.decrement(key)),
    }
}

/// Returns the array of the elements that are kept, copied in runs. Inlined, since callers know the variant of `Seen`.
#[inline(always)]
#[tactic(auto, using(crate::proofs::Sets::sets_kept_elements))]
fn kept_elements(
    alloc: Global,
    kind: SetOperation,
    mut seen: Seen<'_>,
    entries: Entries<'_>,
) -> Result<OwnedJsonb, Error>
    ensures made { (form : Form) (other ts : List Tree) → HoldTrees form entries.entry ts
        → HaveSeen form kind seen.entry other [] ts
        → Makes form (array (trees_of (select_occurrences (keeps kind other) ts))) result }
    ensures errors { IfErr result (IsDecodingError or OutOfMemory or TooLarge) }
{
    let mut runs = Vec::new(alloc);
    let mut run = entries;
    let mut left = entries;
    while let Some((entry, others)) = left.first()? {
        if !seen.keep_next(alloc, kind, &entry)? {
            push_run(&mut runs, run, left)?;
            run = others;
        }
        left = others;
    }
    push_run(&mut runs, run, left)?;
    array_of(alloc, runs.as_slice())
}

/// Appends the item to the builder if it is kept, and updates the counts for the elements after it.
fn push_kept(
    alloc: Global,
    kind: SetOperation,
    counts: &mut KeyCounts,
    builder: &mut ArrayBuilder,
    item: &Item<'_>,
) -> Result<(), Error>
    ensures pushed { (form : Form) (other before held : List Tree) (t : Tree) → StandsFor form item.now t → Fits t
        → CountsAfter kind counts.old other before → length before < 2 ^ 63
        → HoldsElements form builder.old held
        → MatchResult result
        (λ _. HoldsElements form builder.new (held ++ kept_one kind other (before, t)))
        (IsOutOfMemory or TooLarge when IsTooLarge form (array (trees_of (held ++ kept_one kind other (before, t))))) }
    ensures behind { (form : Form) (other before : List Tree) (t : Tree) → StandsFor form item.now t → Fits t
        → CountsAfter kind counts.old other before → length before < 2 ^ 63
        → OnOk result (CountsAfter kind counts.new other (t ∷ before)) }
    ensures errors { IfErr result (IsDecodingError or OutOfMemory or TooLarge) }
{
    let key = item_key(alloc, item)?;
    if !keep_element(alloc, kind, counts, &key)? {
        return Ok(());
    }
    builder.push_item(item)
}

/// Returns the array of the item if it is kept, as an array of one element, and otherwise an empty array.
fn kept_item(
    alloc: Global,
    kind: SetOperation,
    mut counts: KeyCounts,
    item: &Item<'_>,
) -> Result<OwnedJsonb, Error>
    ensures made { (form : Form) (other : List Tree) (t : Tree) → StandsFor form item.now t → Fits t
        → CountsAfter kind counts other []
        → Makes form (array (trees_of (select_occurrences (keeps kind other) (t ∷ [])))) result }
    ensures errors { IfErr result (IsDecodingError or OutOfMemory or TooLarge) }
{
    let mut builder = ArrayBuilder::new(alloc);
    push_kept(alloc, kind, &mut counts, &mut builder, item)?;
    Ok(OwnedJsonb::new(builder.build()?))
}

/// Returns the array of the elements of a document that are kept. A root that is not an array counts as one element.
#[tactic(auto, using(crate::proofs::Sets::sets_kept_of_document))]
fn kept_of_document(
    alloc: Global,
    kind: SetOperation,
    counts: KeyCounts,
    bytes: &[u8],
) -> Result<OwnedJsonb, Error>
    ensures made { (form : Form) (other : List Tree) (t : Tree) → Decodes form bytes.now t
        → CountsAfter kind counts other []
        → Makes form (array (trees_of (select_occurrences (keeps kind other) (as_elements t)))) result }
    ensures reads { OnOk result (HasRoot bytes.now) }
    ensures errors { IfErr result (IsDecodingError or OutOfMemory or TooLarge) }
{
    match element_entries(bytes)? {
        Some(entries) => {
            let key = Vec::new(alloc);
            let seen = Seen::Keys(KeysCounted { counts, key });
            kept_elements(alloc, kind, seen, entries)
        }
        None => kept_item(alloc, kind, counts, &root_item(bytes)?),
    }
}

/// Counts the key of an item.
fn count_item(alloc: Global, item: &Item<'_>) -> Result<KeyCounts, Error>
    ensures counts { (form : Form) (t : Tree) → StandsFor form item.now t
        → MatchResult result (λ m. CountsKeys m (t ∷ [])) IsOutOfMemory }
    ensures errors { IfErr result (IsDecodingError or OutOfMemory) }
{
    let mut counts = KeyCounts::new(alloc);
    counts.add(alloc, &item_key(alloc, item)?)?;
    Ok(counts)
}

/// Counts the keys of a document's elements. A root that is not an array counts as one element.
fn count_document(alloc: Global, bytes: &[u8]) -> Result<KeyCounts, Error>
    ensures counts { (form : Form) (t : Tree) → Decodes form bytes.now t
        → MatchResult result (λ m. CountsKeys m (as_elements t)) IsOutOfMemory }
    ensures fit { (form : Form) (t : Tree) → Decodes form bytes.now t → AllByRecursion Fits (as_elements t) }
    ensures errors { IfErr result (IsDecodingError or OutOfMemory) }
{
    match root_item(bytes)? {
        Item::Array(array) => count_entries(alloc, array_entries(array)?),
        item => count_item(alloc, &item),
    }
}

/// Returns the counts before the first element: those of the other document's elements, if the operation needs them.
#[tactic(auto, using(crate::proofs::ElementsSeen::counted_begun))]
fn counts_before(alloc: Global, kind: SetOperation, others: &[u8]) -> Result<KeyCounts, Error>
    ensures counts { (form : Form) (t : Tree) → Decodes form others.now t
        → MatchResult result (λ m. CountsAfter kind m (as_elements t) []) IsOutOfMemory }
    ensures errors { IfErr result (IsDecodingError or OutOfMemory) }
{
    match kind {
        SetOperation::First => Ok(KeyCounts::new(alloc)),
        _ => count_document(alloc, others),
    }
}

/// Returns the array of the elements of a document that are kept, compared with those of another one. A root that is
/// not an array counts as one element.
fn kept_beside(
    alloc: Global,
    kind: SetOperation,
    bytes: &[u8],
    others: &[u8],
) -> Result<OwnedJsonb, Error>
    ensures made { (form other_form : Form) (t u : Tree) → Decodes form bytes.now t
        → Decodes other_form others.now u
        → Makes form (array (trees_of (select_occurrences (keeps kind (as_elements u)) (as_elements t)))) result }
    ensures reads { OnOk result (HasRoot bytes.now) }
    ensures errors { IfErr result (IsDecodingError or OutOfMemory or TooLarge) }
{
    if let Some((entries, few)) = few_elements(bytes, others)? {
        let seen = Seen::Elements(ElementsPassed {
            all: entries,
            passed: 0,
            others: few,
        });
        return kept_elements(alloc, kind, seen, entries);
    }
    let counts = counts_before(alloc, kind, others)?;
    kept_of_document(alloc, kind, counts, bytes)
}

/// Returns the root of a document if it is not an array.
#[inline(always)]
fn lone_root(bytes: &[u8]) -> Result<Option<Item<'_>>, Error>
    ensures item { (form : Form) (t : Tree) → Decodes form bytes.now t
        → IsOkAnd result (λ found. IfSome found (λ item. StandsFor form item t × (as_elements t ≡ t ∷ []))) }
    ensures reads { OnOk result (HasRoot bytes.now) }
    ensures errors { IfErr result IsDecodingError }
{
    let item = root_item(bytes)?;
    match item {
        Item::Array(_) => Ok(None),
        _ => Ok(Some(item)),
    }
}

/// Returns whether two roots are equal by value, or `None` if one of them is an array.
///
/// Two roots that are not arrays are compared without keys and counts, whose allocations take most of the instructions
/// of the set functions on them.
fn lone_roots_equal(bytes: &[u8], other: &[u8]) -> Result<Option<bool>, Error>
    ensures equal { (form other_form : Form) (t u : Tree) → Decodes form bytes.now t
        → Decodes other_form other.now u
        → IsOkAnd result (λ found. IfSome found (λ b. (as_elements t ≡ t ∷ []) × (as_elements u ≡ u ∷ [])
        × (b ≡ is_equal u t))) }
    ensures reads { OnOk result (HasRoot other.now) }
    ensures reads_both { IfOk result (λ found. IfSome found (λ _. HasRoot bytes.now)) }
    ensures errors { IfErr result IsDecodingError }
{
    let Some(wanted) = lone_root(other)? else {
        return Ok(None);
    };
    let Some(item) = lone_root(bytes)? else {
        return Ok(None);
    };
    Ok(Some(items_equal(&wanted, &item)?))
}

/// Returns the array of the document as its one element if it is kept, otherwise the empty array.
fn array_of_root(alloc: Global, bytes: &[u8], is_kept: bool) -> Result<OwnedJsonb, Error>
    ensures made { (form : Form) (t : Tree) → Decodes form bytes.now t
        → Makes form (array (trees_of (cond is_kept (t ∷ []) []))) result }
    ensures errors { IfErr result (IsDecodingError or OutOfMemory or TooLarge) }
{
    if !is_kept {
        return array_of(alloc, &[]);
    }
    let root = EntryWithWord::of_root(bytes)?;
    array_of_run(alloc, root.as_entries())
}

/// Returns `true` if an element equals the item by value.
fn has_element(found: ElementIter<'_>, item: &Item<'_>) -> Result<bool, Error>
    ensures has { (form other_form : Form) (ts : Trees) (t : Tree) → HasElementsLeft form found.entry ts
        → StandsFor other_form item.now t → IsOkAnd result (λ b. b ≡ list_any (is_equal t) (elements_of ts)) }
    ensures errors { IfErr result IsDecodingError }
{
    for element in found {
        if items_equal(item, &element?)? {
            return Ok(true);
        }
    }
    Ok(false)
}

/// Returns `true` if an element of the array equals the root of the other document by value. It is a separate function,
/// so that two arrays are compared without space for items.
#[inline(never)]
fn array_has_root(bytes: &[u8], root: &[u8]) -> Result<bool, Error>
    ensures has { (form other_form : Form) (ts : Trees) (t : Tree) → Decodes form bytes.now (array ts)
        → Decodes other_form root.now t → IsOkAnd result (λ b. b ≡ list_any (is_equal t) (elements_of ts)) }
    ensures reads { OnOk result (HasRoot root.now) }
    ensures errors { IfErr result IsDecodingError }
{
    has_element(array_elements(bytes)?, &root_item(root)?)
}

/// Returns `true` if two roots are equal by value. It is a separate function, as `array_has_root` is.
#[inline(never)]
fn roots_equal(bytes: &[u8], other: &[u8]) -> Result<bool, Error>
    ensures equal { (form other_form : Form) (t u : Tree) → Decodes form bytes.now t
        → Decodes other_form other.now u → IsOkAnd result (λ b. b ≡ is_equal t u) }
    ensures reads { OnOk result (HasRoot bytes.now × HasRoot other.now) }
    ensures errors { IfErr result IsDecodingError }
{
    items_equal(&root_item(bytes)?, &root_item(other)?)
}

/// Returns `true` if an element of one document equals one of the other. A root that is not an array counts as one
/// element. Allocates only if there is an allocator.
fn documents_overlap(alloc: Option<Global>, bytes: &[u8], other: &[u8]) -> Result<bool, Error>
    ensures overlap { (form other_form : Form) (t u : Tree) → Decodes form bytes.now t
        → Decodes other_form other.now u → IsOkAnd result (λ b. b ≡ overlap (as_elements t) (as_elements u)) }
    ensures reads { OnOk result (HasRoot bytes.now × HasRoot other.now) }
    ensures errors { IfErr result IsDecodingError }
{
    match (element_entries(bytes)?, element_entries(other)?) {
        (Some(found), Some(others)) => entries_overlap(alloc, found, others),
        (Some(_), None) => array_has_root(bytes, other),
        (None, Some(_)) => array_has_root(other, bytes),
        (None, None) => roots_equal(bytes, other),
    }
}

impl RawJsonb<'_> {
    /// Returns the array of the elements without repetitions: of elements that are equal by value the first, in order.
    ///
    /// A root that is not an array counts as one element.
    ///
    /// # Errors
    ///
    /// Construction errors.
    ///
    /// # Complexity
    ///
    /// O(n), and O(k log k) comparisons of equality keys. Allocates.
    ///
    /// # Examples
    ///
    /// ```rust crates/jsonb_examples/src/tags.rt
    /// let joined = tags.concat(alloc, others)?;
    /// joined.as_raw().array_distinct(alloc)
    /// ```
    ///
    /// <!-- rows: calls: array_distinct -->
    /// | Document | Result |
    /// |---|---|
    /// | `[1,1,2,1.0]` | `[1,2]` |
    pub fn array_distinct(&self, alloc: Global) -> Result<OwnedJsonb, Error>
        ensures distinct { (form : Form) (t : Tree) → Decodes form (raw_bytes self.now) t
            → Makes form (array (trees_of (distinct (as_elements t)))) result }
        ensures errors { IfErr result (IsDecodingError or OutOfMemory or TooLarge) }
        ensures reads { OnOk result (HasRoot (raw_bytes self.now)) }
    {
        let bytes = self.as_bytes();
        match lone_root(bytes)? {
            Some(_) => array_of_root(alloc, bytes, true),
            None => kept_beside(alloc, SetOperation::First, bytes, bytes),
        }
    }

    /// Returns the array of the elements that the other document has too, in order.
    ///
    /// Repetitions count: of elements that are equal by value as many are kept as the other document has, the first
    /// ones. A root that is not an array counts as one element.
    ///
    /// # Errors
    ///
    /// Construction errors.
    ///
    /// # Complexity
    ///
    /// O(n) of both, and O((k + m) log m) comparisons of equality keys for m elements of the other document. Allocates.
    ///
    /// # Examples
    ///
    /// ```rust crates/jsonb_examples/src/calls.rt
    /// if !tags.array_overlap(others)? {
    ///     return Ok(None);
    /// }
    /// let shared = tags.array_intersection(alloc, others)?;
    /// ```
    ///
    /// <!-- rows: calls: array_intersection -->
    /// | Document | Arguments | Result |
    /// |---|---|---|
    /// | `[1,1,2,1.0]` | `[1,1]` | `[1,1]` |
    pub fn array_intersection(
        &self,
        alloc: Global,
        other: &RawJsonb<'_>,
    ) -> Result<OwnedJsonb, Error>
        ensures shared { (form other_form : Form) (t u : Tree) → Decodes form (raw_bytes self.now) t
            → Decodes other_form (raw_bytes other.now) u
            → Makes form (array (trees_of (intersection_of (as_elements t) (as_elements u)))) result }
        ensures errors { IfErr result (IsDecodingError or OutOfMemory or TooLarge) }
        ensures reads { OnOk result (HasRoot (raw_bytes other.now)) }
        ensures reads_self { OnOk result (HasRoot (raw_bytes self.now)) }
    {
        let (bytes, others) = (self.as_bytes(), other.as_bytes());
        if let Some(is_shared) = lone_roots_equal(bytes, others)? {
            return array_of_root(alloc, bytes, is_shared);
        }
        kept_beside(alloc, SetOperation::Shared, bytes, others)
    }

    /// Returns the array of the elements that `array_intersection` drops, in order.
    ///
    /// # Errors
    ///
    /// Construction errors.
    ///
    /// # Complexity
    ///
    /// That of `array_intersection`. Allocates.
    ///
    /// # Examples
    ///
    /// ```rust crates/jsonb_examples/src/tags.rt
    /// let added = new.array_except(alloc, old)?;
    /// let removed = old.array_except(alloc, new)?;
    /// ```
    ///
    /// <!-- rows: calls: array_except -->
    /// | Document | Arguments | Result |
    /// |---|---|---|
    /// | `[1,1,2,1.0]` | `[1]` | `[1,2,1.0]` |
    pub fn array_except(&self, alloc: Global, other: &RawJsonb<'_>) -> Result<OwnedJsonb, Error>
        ensures unshared { (form other_form : Form) (t u : Tree) → Decodes form (raw_bytes self.now) t
            → Decodes other_form (raw_bytes other.now) u
            → Makes form (array (trees_of (difference_of (as_elements t) (as_elements u)))) result }
        ensures errors { IfErr result (IsDecodingError or OutOfMemory or TooLarge) }
        ensures reads { OnOk result (HasRoot (raw_bytes other.now)) }
        ensures reads_self { OnOk result (HasRoot (raw_bytes self.now)) }
    {
        let (bytes, others) = (self.as_bytes(), other.as_bytes());
        if let Some(is_shared) = lone_roots_equal(bytes, others)? {
            return array_of_root(alloc, bytes, !is_shared);
        }
        kept_beside(alloc, SetOperation::Unshared, bytes, others)
    }

    /// Returns `true` if an element equals one of the other document by value.
    ///
    /// A root that is not an array counts as one element. Like PostgreSQL's `&&` of arrays.
    ///
    /// # Errors
    ///
    /// Decoding errors.
    ///
    /// # Complexity
    ///
    /// At most k m comparisons of elements for m elements of the other document. Does not allocate. Needs 33 KB of stack
    /// if the other document has more than 576 elements.
    ///
    /// # Examples
    ///
    /// ```rust crates/jsonb_examples/src/calls.rt
    /// if !tags.array_overlap(others)? {
    ///     return Ok(None);
    /// }
    /// ```
    ///
    /// <!-- rows: calls: array_overlap -->
    /// | Document | Arguments | Result |
    /// |---|---|---|
    /// | `[1]` | `[1.0]` | true |
    /// | `[10,20,30]` | `[1]` | false |
    pub fn array_overlap(&self, other: &RawJsonb<'_>) -> Result<bool, Error>
        ensures overlap { (form other_form : Form) (t u : Tree) → Decodes form (raw_bytes self.now) t
            → Decodes other_form (raw_bytes other.now) u
            → IsOkAnd result (λ b. b ≡ overlap (as_elements t) (as_elements u)) }
        ensures errors { IfErr result IsDecodingError }
        ensures reads { OnOk result (HasRoot (raw_bytes self.now) × HasRoot (raw_bytes other.now)) }
    {
        documents_overlap(None, self.as_bytes(), other.as_bytes())
    }

    /// Returns `true` if an element equals one of the other document by value, as `array_overlap` does.
    ///
    /// If an allocation fails, goes on as `array_overlap` does, which does not allocate.
    ///
    /// # Errors
    ///
    /// Decoding errors.
    ///
    /// # Complexity
    ///
    /// O(n) of both, and O((k + m) log(k + m)) comparisons of equality keys for m elements of the other document.
    /// Allocates if hashes exclude too few elements. If an allocation fails, that of `array_overlap`.
    ///
    /// # Examples
    ///
    /// <!-- rows: calls: array_overlap -->
    /// | Document | Arguments | Result |
    /// |---|---|---|
    /// | `[1]` | `[1.0]` | true |
    /// | `[10,20,30]` | `[1]` | false |
    pub fn array_overlap_in(&self, alloc: Global, other: &RawJsonb<'_>) -> Result<bool, Error>
        ensures overlap { (form other_form : Form) (t u : Tree) → Decodes form (raw_bytes self.now) t
            → Decodes other_form (raw_bytes other.now) u
            → IsOkAnd result (λ b. b ≡ overlap (as_elements t) (as_elements u)) }
        ensures errors { IfErr result IsDecodingError }
        ensures reads { OnOk result (HasRoot (raw_bytes self.now) × HasRoot (raw_bytes other.now)) }
    {
        documents_overlap(Some(alloc), self.as_bytes(), other.as_bytes())
    }
}
