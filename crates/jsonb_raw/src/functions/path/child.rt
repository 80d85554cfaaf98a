//! The functions on the children of a document: the elements of an array and the values of an object.
//!
//! On bytes that do not decode each function returns; its result is not specified.

ghost use Rattle.std.specs.Prelude.{◌≡◌, ◌↔◌, ℕ, List, not, true, false, None, Ok, filter, map, length, slice_get, ◌^◌, ◌<◌, IsTrue, IfOk, IfErr, IfSome, IsOkAnd, MatchResult, MatchOption, Err, OnOk};
ghost use Rattle.std.specs.List.{remove};
ghost use Rattle.std.specs.Map.{keys_of};
ghost use Rattle.std.specs.Str.{bytes_eq};
ghost use Rattle.std.specs.Char.{to_ascii_lowercase};
ghost use Rattle.jsonb_doc.specs.Tree.{Tree, Trees, Pairs, array, object, text, elements as element_list, members, value_under, trees_of, pairs_of};
ghost use Rattle.jsonb_doc.specs.Payload.{Form, number_reader};
ghost use Rattle.jsonb_doc.specs.Private.Containers.{HasPairParts};
ghost use Rattle.jsonb_doc.specs.Format.{Decodes, AreKeys, IsContent};
ghost use Rattle.jsonb_doc.specs.Kinds.{kind_number};
ghost use Rattle.jsonb_doc.specs.Item.{StandsFor};
ghost use Rattle.jsonb_doc.specs.Answer.{IsOutOfMemory, IsDecodingError, ◌or◌};
ghost use Rattle.jsonb_doc.specs.declared.error.Error.TheVariants.{OutOfMemory, TooLarge, InvalidJsonType};
ghost use Rattle.jsonb_raw.specs.AnyBytes.Roots.{HasRoot, HasRootShape, IsWhole};
ghost use Rattle.jsonb_raw.specs.Private.Entries.{HoldTrees, HoldPairs};
ghost use Rattle.jsonb_raw.specs.Documents.{raw_bytes, Makes, MakesOption};
ghost use Rattle.jsonb_raw.specs.Places.{index_position};
ghost use Rattle.jsonb_raw.specs.Children.{element_at, named_child, without_index, without_name};
ghost use Rattle.jsonb_raw.specs.Private.Found.{Finds};
ghost use Rattle.jsonb_raw.specs.Private.NamePositions.{position_in_some_case};
ghost use Rattle.jsonb_raw.specs.Exists.{is_text};

use crate::functions::entries::{around_entries, element_entries, entry_count, entry_document};
use crate::functions::joined::{array_of_two, object_of};
use crate::functions::parts::{Entries, PairEntries};
use crate::functions::runs::{name_position, pair_entries};
use crate::owned::OwnedJsonb;
use crate::raw::RawJsonb;
use jsonb_doc::layout::EntryKind;
use jsonb_doc::{
    ArrayBuilder, Container, Error, Item, ObjectParts, Shape, array_elements, read_container,
    root_item, root_shape,
};
use std::alloc::Global;

impl RawJsonb<'_> {
    /// Returns the element at a zero-based index, as a new document.
    ///
    /// Returns `None` if there is no such element or the root is not an array. Like PostgreSQL's `->` with an integer.
    ///
    /// # Errors
    ///
    /// Construction errors.
    ///
    /// # Complexity
    ///
    /// O(index). Allocates; the element is copied.
    ///
    /// # Examples
    ///
    /// ```rust crates/jsonb_examples/src/calls.rt
    /// let Some(first) = queue.get_by_index(alloc, 0)? else {
    ///     return Ok(None);
    /// };
    /// ```
    ///
    /// <!-- rows: calls: get_by_index -->
    /// | Document | Arguments | Result |
    /// |---|---|---|
    /// | `[10,20,30]` | `1` | `20` |
    /// | `[10,20,30]` | `3` | none |
    #[tactic(auto, using(crate::proofs::Sets::rawjsonb_get_by_index))]
    pub fn get_by_index(&self, alloc: Global, index: usize) -> Result<Option<OwnedJsonb>, Error>
        ensures element { (form : Form) (t : Tree) → Decodes form (raw_bytes self.now) t
            → MakesOption form (element_at index t) result }
        ensures whole { IfOk result (λ found. IfSome found IsWhole) }
        ensures none { (form : Form) (t : Tree) → Decodes form (raw_bytes self.now) t → element_at index t ≡ None
            → result ≡ Ok None }
        ensures errors { IfErr result (IsDecodingError or OutOfMemory or TooLarge) }
        ensures reads { OnOk result (HasRootShape (raw_bytes self.now)) }
    {
        let bytes = self.as_bytes();
        let Shape::Array = root_shape(bytes)? else {
            return Ok(None);
        };
        let Some(entries) = element_entries(bytes)? else {
            return Ok(None);
        };
        if index >= entries.len() {
            return Ok(None);
        }
        element_document(alloc, entries, index)
    }

    /// Returns the value of a key, as a new document.
    ///
    /// With `ignore_case`, if the key itself is missing, returns the value of the first key, in sorted order, that
    /// equals it under ASCII case folding. Returns `None` if there is no such key or the root is not an object. Like
    /// PostgreSQL's `->` with a `text`.
    ///
    /// # Errors
    ///
    /// Construction errors.
    ///
    /// # Complexity
    ///
    /// O(k), and with `ignore_case` the bytes of the keys. Allocates; the value is copied.
    ///
    /// # Examples
    ///
    /// ```rust crates/jsonb_examples/src/configuration.rt
    /// let Some(old) = configuration.get_by_name(alloc, section, false)? else {
    ///     return Err(Error::InvalidObject);
    /// };
    /// ```
    ///
    /// <!-- rows: calls: get_by_name get_by_name_ignore_case -->
    /// | Function | Document | Arguments | Result |
    /// |---|---|---|---|
    /// | `get_by_name_ignore_case` | `{"asd":"adf"}` | `ASD` | `"adf"` |
    /// | `get_by_name` | `{"asd":"adf"}` | `ASD` | none |
    /// | `get_by_name` | `{"asd":"adf"}` | `asd` | `"adf"` |
    /// | `get_by_name` | `{"a":` a float `}` | `a` | refused: `UnsupportedNumber` |
    // Inlined: as a call, a root without members takes 75 instructions, since the search saves registers.
    #[inline(always)]
    #[tactic(auto, using(crate::proofs::Sets::rawjsonb_get_by_name))]
    pub fn get_by_name(
        &self,
        alloc: Global,
        name: &str,
        ignore_case: bool,
    ) -> Result<Option<OwnedJsonb>, Error>
        ensures value { (form : Form) (t : Tree) → Decodes form (raw_bytes self.now) t
            → MakesOption form (named_child name.now ignore_case t) result }
        ensures whole { IfOk result (λ found. IfSome found IsWhole) }
        ensures none { (form : Form) (t : Tree) → Decodes form (raw_bytes self.now) t
            → named_child name.now ignore_case t ≡ None → result ≡ Ok None }
        ensures errors { IfErr result (IsDecodingError or OutOfMemory or TooLarge) }
    {
        let bytes = self.as_bytes();
        if ignore_case {
            return value_ignoring_case(alloc, bytes, name);
        }
        match read_container(bytes)? {
            Container::Object(parts) => value_of_key(alloc, parts, name),
            _ => Ok(None),
        }
    }

    /// Returns the array without the element at an index, which counts from the end if negative.
    ///
    /// Returns the same bytes if there is no such element. Like PostgreSQL's `-` with an integer.
    ///
    /// # Errors
    ///
    /// `InvalidJsonType` if and only if the root is not an array, and construction errors.
    ///
    /// # Complexity
    ///
    /// O(n). Allocates; each byte is copied once.
    ///
    /// # Examples
    ///
    /// ```rust crates/jsonb_examples/src/calls.rt
    /// let rest = queue.delete_by_index(alloc, 0)?;
    /// Ok(Some((first, rest)))
    /// ```
    ///
    /// <!-- rows: calls: delete_by_index -->
    /// | Document | Arguments | Result |
    /// |---|---|---|
    /// | `[10,20,30]` | `-1` | `[10,20]` |
    /// | `[10,20,30]` | `3` | `[10,20,30]` |
    /// | `{"asd":"adf"}` | `0` | refused: `InvalidJsonType` |
    #[tactic(auto, using(crate::proofs::Sets::rawjsonb_delete_by_index))]
    pub fn delete_by_index(&self, alloc: Global, index: i32) -> Result<OwnedJsonb, Error>
        ensures deleted { (form : Form) (t : Tree) → Decodes form (raw_bytes self.now) t
            → MatchOption (without_index index t) (result ≡ Err InvalidJsonType) (λ wanted. Makes form wanted result) }
        ensures unchanged { (form : Form) (ts : Trees) → Decodes form (raw_bytes self.now) (array ts)
            → index_position (length (element_list ts)) index ≡ None
            → MatchResult result (λ made. made ≡ raw_bytes self.now) IsOutOfMemory }
        ensures errors { IfErr result (IsDecodingError or OutOfMemory or TooLarge or InvalidJsonType) }
        ensures reads { OnOk result (HasRootShape (raw_bytes self.now)) }
    {
        let bytes = self.as_bytes();
        let Some(entries) = element_entries(bytes)? else {
            return Err(Error::InvalidJsonType);
        };
        match index_position(entry_count(entries), index) {
            Some(position) => array_without_element(alloc, entries, position),
            None => Ok(OwnedJsonb::new(Vec::from_slice(alloc, bytes)?)),
        }
    }

    /// Returns the object without a key, or the array without the strings that equal the name.
    ///
    /// Like PostgreSQL's `-` with a `text`.
    ///
    /// # Errors
    ///
    /// `InvalidJsonType` if and only if the root is neither an object nor an array, and construction errors.
    ///
    /// # Complexity
    ///
    /// O(n). Allocates.
    ///
    /// # Examples
    ///
    /// <!-- rows: calls: delete_by_name -->
    /// | Document | Arguments | Result |
    /// |---|---|---|
    /// | `["a",1,"a","b",["a"]]` | `a` | `[1,"b",["a"]]` |
    /// | `{"a":null,"b":[null]}` | `a` | `{"b":[null]}` |
    /// | `5` | `a` | refused: `InvalidJsonType` |
    pub fn delete_by_name(&self, alloc: Global, name: &str) -> Result<OwnedJsonb, Error>
        ensures deleted { (form : Form) (t : Tree) → Decodes form (raw_bytes self.now) t
            → MatchOption (without_name name.now t) (result ≡ Err InvalidJsonType)
            (λ wanted. Makes form wanted result) }
        ensures errors { IfErr result (IsDecodingError or OutOfMemory or TooLarge or InvalidJsonType) }
        ensures reads { OnOk result (HasRoot (raw_bytes self.now)) }
    {
        match root_item(self.as_bytes())? {
            Item::Array(bytes) => array_without_text(alloc, bytes, name),
            Item::Object(bytes) => object_without_key(alloc, bytes, name),
            _ => Err(Error::InvalidJsonType),
        }
    }
}

/// Returns `true` if the lengths are equal, and the last bytes under ASCII case folding. Sorted keys share prefixes, so
/// neighbors differ at their ends more often than at their beginnings.
#[inline(always)]
fn same_len_and_last_byte(key: &[u8], name: &[u8]) -> bool
    ensures { map to_ascii_lowercase key.now ≡ map to_ascii_lowercase name.now → IsTrue result }
{
    if key.len() != name.len() {
        return false;
    }
    match key.len().checked_sub(1) {
        Some(end) => key[end].eq_ignore_ascii_case(&name[end]),
        None => true,
    }
}

/// Returns `true` if a key equals the name under ASCII case folding.
#[inline(always)]
fn eq_ignore_ascii_case(key: &[u8], name: &[u8]) -> bool
    ensures test { IsTrue result ↔ (map to_ascii_lowercase key.now ≡ map to_ascii_lowercase name.now) }
{
    same_len_and_last_byte(key, name) && key.eq_ignore_ascii_case(name)
}

/// Returns the entry as a new document, as `entry_document` does. Out of line: its vector is then in registers, in 50
/// to 100 instructions fewer than within a search.
#[inline(never)]
fn found_document(alloc: Global, kind: EntryKind, content: &[u8]) -> Result<OwnedJsonb, Error>
    ensures document { (form : Form) (t : Tree) → IsContent (number_reader form) t (kind_number kind) content.now
        → Makes form t result }
    ensures whole { IfOk result IsWhole }
    ensures errors { IfErr result (IsDecodingError or OutOfMemory or TooLarge) }
{
    entry_document(alloc, kind, content)
}

/// Returns one of the entries as a new document. Inlined: as a call it takes 40 instructions more.
#[inline(always)]
#[tactic(auto, using(crate::proofs::Sets::child_element_document))]
fn element_document(
    alloc: Global,
    entries: Entries<'_>,
    index: usize,
) -> Result<Option<OwnedJsonb>, Error>
    ensures found { (form : Form) (ts : List Tree) → HoldTrees form entries.entry ts
        → Finds form (slice_get ts index) result }
    ensures whole { IfOk result (λ found. IfSome found IsWhole) }
    ensures errors { IfErr result (IsDecodingError or OutOfMemory or TooLarge) }
{
    let (_, back) = entries.split(index)?;
    let Some((entry, _)) = back.first()? else {
        return Ok(None);
    };
    Ok(Some(found_document(alloc, entry.kind, entry.content)?))
}

/// Returns the value of the key. Inlined: as a call, an empty object takes 119 instructions.
#[inline(always)]
fn value_of_key(
    alloc: Global,
    object: ObjectParts<'_>,
    name: &str,
) -> Result<Option<OwnedJsonb>, Error>
    requires short { length object.key_words.now < 2 ^ 32 }
    requires paired { length object.value_words.now ≡ length object.key_words.now }
    ensures found { (form : Form) (ps : Pairs) → HasPairParts (number_reader form) ps object.entry
        → Finds form (value_under name.now ps) result }
    ensures whole { IfOk result (λ found. IfSome found IsWhole) }
    ensures errors { IfErr result (IsDecodingError or OutOfMemory or TooLarge) }
{
    match object.value_of(name.as_bytes())? {
        Some(value) => Ok(Some(found_document(alloc, value.kind, value.content)?)),
        None => Ok(None),
    }
}

/// Returns the position of the first of the entries, which are strings, that is this name, otherwise of the first that
/// equals it under ASCII case folding.
#[tactic(auto, using(crate::proofs::RunLemmas::no_text_left))]
pub(super) fn position_ignoring_case(
    entries: Entries<'_>,
    name: &[u8],
) -> Result<Option<usize>, Error>
    ensures position { (form : Form) (ks : List (List ℕ)) → HoldTrees form entries.entry (map text ks)
        → IsOkAnd result (λ found. found ≡ position_in_some_case name.now ks) }
    ensures errors { IfErr result IsDecodingError }
{
    let mut passed = 0;
    let mut in_other_case = None;
    let mut left = entries;
    while let Some((key, others)) = left.first()? {
        if eq_ignore_ascii_case(key.content, name) {
            if key.content == name {
                return Ok(Some(passed));
            }
            in_other_case = in_other_case.or(Some(passed));
        }
        passed += 1;
        left = others;
    }
    Ok(in_other_case)
}

/// Returns the value of the key, otherwise that of the first key that equals it under ASCII case folding.
#[tactic(auto, using(crate::proofs::Sets::child_value_ignoring_case))]
fn value_ignoring_case(alloc: Global, bytes: &[u8], name: &str) -> Result<Option<OwnedJsonb>, Error>
    ensures found { (form : Form) (t : Tree) → Decodes form bytes.now t
        → Finds form (named_child name.now true t) result }
    ensures whole { IfOk result (λ found. IfSome found IsWhole) }
    ensures errors { IfErr result (IsDecodingError or OutOfMemory or TooLarge) }
{
    let Some(pairs) = pair_entries(bytes)? else {
        return Ok(None);
    };
    let Some(position) = position_ignoring_case(pairs.keys, name.as_bytes())? else {
        return Ok(None);
    };
    element_document(alloc, pairs.values, position)
}

/// Returns the position that an index denotes in an array of this length, from the end if negative.
pub fn index_position(len: usize, index: i32) -> Option<usize>
    ensures { result ≡ index_position len index }
{
    let distance = index.unsigned_abs() as usize;
    let is_from_end = index < 0;
    if is_from_end {
        len.checked_sub(distance)
    } else if distance < len {
        Some(distance)
    } else {
        None
    }
}

/// Returns the array of these entries without the one at a position.
#[tactic(auto, using(crate::proofs::ChildLemmas::drop_one_more))]
fn array_without_element(
    alloc: Global,
    entries: Entries<'_>,
    position: usize,
) -> Result<OwnedJsonb, Error>
    ensures deleted { (form : Form) (ts : List Tree) → HoldTrees form entries.entry ts
        → Makes form (array (trees_of (remove ts position))) result }
    ensures errors { IfErr result (IsDecodingError or OutOfMemory or TooLarge) }
{
    let (front, back) = around_entries(entries, position, 1)?;
    array_of_two(alloc, front, back)
}

/// Returns `true` if the item is this string.
fn is_text(item: &Item<'_>, name: &str) -> bool
    ensures { (form : Form) (t : Tree) → StandsFor form item.now t → result ≡ is_text name.now t }
{
    match item {
        Item::String(text) => *text == name,
        _ => false,
    }
}

/// Returns the array without the strings that equal the name.
#[tactic(auto, using(crate::proofs::IteratorItems::elements_begun))]
fn array_without_text(alloc: Global, bytes: &[u8], name: &str) -> Result<OwnedJsonb, Error>
    ensures deleted { (form : Form) (ts : Trees) → Decodes form bytes.now (array ts)
        → Makes form (array (trees_of (filter (λ t. not (is_text name.now t)) (element_list ts)))) result }
    ensures errors { IfErr result (IsDecodingError or OutOfMemory or TooLarge) }
{
    let elements = array_elements(bytes)?;
    let mut builder = ArrayBuilder::new(alloc);
    for element in elements {
        let element = element?;
        if !is_text(&element, name) {
            builder.push_item(&element)?;
        }
    }
    Ok(OwnedJsonb::new(builder.build()?))
}

/// Returns the object without the key.
fn object_without_key(alloc: Global, bytes: &[u8], name: &str) -> Result<OwnedJsonb, Error>
    ensures deleted { (form : Form) (ps : Pairs) → Decodes form bytes.now (object ps)
        → Makes form (object (pairs_of (filter (λ p. not (bytes_eq p.0 name.now)) (members ps)))) result }
    ensures errors { IfErr result (IsDecodingError or OutOfMemory or TooLarge) }
{
    let Some(pairs) = pair_entries(bytes)? else {
        return Err(Error::InvalidJsonb);
    };
    let Some(position) = name_position(pairs.keys, name.as_bytes())? else {
        return Ok(OwnedJsonb::new(Vec::from_slice(alloc, bytes)?));
    };
    object_without_pair(alloc, pairs, position)
}

/// Returns the object of these members without the one at a position.
fn object_without_pair(
    alloc: Global,
    pairs: PairEntries<'_>,
    position: usize,
) -> Result<OwnedJsonb, Error>
    ensures deleted { (form : Form) (ps : List (List ℕ × Tree)) → HoldPairs form pairs.entry ps
        → AreKeys (keys_of (remove ps position)) → Makes form (object (pairs_of (remove ps position))) result }
    ensures errors { IfErr result (IsDecodingError or OutOfMemory or TooLarge) }
{
    let (keys, other_keys) = around_entries(pairs.keys, position, 1)?;
    let (values, other_values) = around_entries(pairs.values, position, 1)?;
    object_of(alloc, &[keys, other_keys], &[values, other_values])
}
