//! Documents as decoded values.

ghost use Rattle.std.specs.Prelude.{◌≡◌, ◌⊎◌, ◌<◌, ◌++◌, ℕ, IfOk, IfErr, IsOkAnd, IsTrue, IsUtf8, MatchResult, None, false, length, reverse, string_bytes};
ghost use Rattle.jsonb_doc.specs.Number as spec;
ghost use Rattle.jsonb_doc.specs.Tree.{Tree, Trees, Pairs, number, text, extension, array, object, elements, members as pair_members, keys, trees_of, pairs_of};
ghost use Rattle.jsonb_doc.specs.Payload.{Form, number_reader};
ghost use Rattle.jsonb_doc.specs.Format.{AreKeys, IsContent};
ghost use Rattle.jsonb_doc.specs.Kinds.{kind_number};
ghost use Rattle.jsonb_doc.specs.Private.EntryKinds.{container_entry, text_entry};
ghost use Rattle.jsonb_doc.specs.Item.{StandsFor, IsNormal};
ghost use Rattle.jsonb_doc.specs.Private.Stored.{Stores, HasEntriesLeft, HasPairEntriesLeft, entries_room};
ghost use Rattle.jsonb_doc.specs.Private.Short.{short_value};
ghost use Rattle.jsonb_doc.specs.Private.Filling.{IsWhole, IsShorter, FillsTo, MakesWhole, LeadsTo};
ghost use Rattle.jsonb_doc.specs.View.{extension_view};
ghost use Rattle.jsonb_doc.specs.Answer.{IsOutOfMemory, ◌or◌, IsDecodingError};
ghost use Rattle.jsonb_doc.specs.declared.error.Error.TheVariants.{OutOfMemory};
ghost use Rattle.jsonb_doc.specs.Value.{value_tree, value_parts, tree_seen};
ghost use Rattle.jsonb_doc.specs.Private.Values.{trees_seen, members_seen, KeepsNormal, SeesItem};
ghost use Rattle.jsonb_doc.specs.declared.number.Number.{Number};

use crate::container::{Container, read_container};
use crate::cursor::{Entries, PairEntries};
use crate::entry_iter::StoredEntry;
use crate::error::Error;
use crate::extension::ExtensionValue;
use crate::item::Item;
use crate::layout::EntryKind;
use crate::short_number::ShortNumber;
use crate::value::Value;
use std::alloc::Global;
use std::borrow::CowStr;
use std::collections::BTreeMap;

/// Returns the value of an item, decoded at every depth.
///
/// Its strings and binaries are slices of the item's bytes, its keys are copies.
///
/// # Errors
///
/// `OutOfMemory` if an allocation fails; `InvalidJsonb` or `UnsupportedNumber`, only if the item's bytes do not
/// decode.
///
/// # Complexity
///
/// O(n) for an item of n bytes, and O(k log k) comparisons of keys for each object of k members. Allocates. The
/// recursion depth is O(log n).
///
/// # Examples
///
/// ```rust crates/jsonb_sweep/src/values.rt
/// let item = root_item(document)?;
/// let value = to_value(rt.alloc(), &item)?;
/// ```
pub fn to_value<'a>(alloc: Global, item: &Item<'a>) -> Result<Value<'a>, Error>
    ensures decodes { (form : Form) (t : Tree) → StandsFor form item.now t
        → MatchResult result (λ v. value_tree v ≡ t) IsOutOfMemory }

    // Of an item that was read, the numbers keep their variants and scales.
    ensures parts { (form : Form) (t : Tree) → StandsFor form item.now t → IsNormal item.now
        → IfOk result (λ v. value_parts v ≡ t) }
    ensures errors { IfErr result (IsDecodingError or OutOfMemory) }
{
    item_value(alloc, item)
}

impl<'a> StoredEntry<'a> {
    /// Returns the value of the entry, decoded at every depth, as `to_value` does of an item.
    ///
    /// # Errors
    ///
    /// `OutOfMemory` if an allocation fails; `InvalidJsonb` or `UnsupportedNumber`, only if the entry's bytes do not
    /// decode.
    ///
    /// # Complexity
    ///
    /// That of `to_value`.
    #[inline(always)]
    pub fn to_value(&self, alloc: Global) -> Result<Value<'a>, Error>
        ensures decodes { (form : Form) (t : Tree)
            → IsContent (number_reader form) t (kind_number self.now.kind) self.now.content.now
            → MatchResult result (λ v. value_tree v ≡ t) IsOutOfMemory }
        ensures parts { (form : Form) (t : Tree)
            → IsContent (number_reader form) t (kind_number self.now.kind) self.now.content.now
            → IfOk result (λ v. value_parts v ≡ t) }
        ensures errors { IfErr result (IsDecodingError or OutOfMemory) }
    {
        entry_value(alloc, self)
    }
}

/// Returns the value of an item, under every view of its numbers.
#[cycle(decode)]
#[inline(always)]
fn item_value<'a>(alloc: Global, item: &Item<'a>) -> Result<Value<'a>, Error>
    ensures decodes { (seen : Number → spec.Number) → KeepsNormal seen → SeesItem seen item.now
        → (form : Form) (t : Tree) → StandsFor form item.now t
        → MatchResult result (λ v. tree_seen seen v ≡ t) IsOutOfMemory }
    ensures errors { IfErr result (IsDecodingError or OutOfMemory) }
{
    match item {
        Item::Null => Ok(Value::Null),
        Item::Boolean(b) => Ok(Value::Bool(*b)),
        Item::Number(number) => Ok(Value::Number(*number)),
        Item::String(text) => Ok(Value::String(CowStr::Borrowed(text))),
        Item::Extension(value) => Ok(extension_value(*value)),
        Item::Array(bytes) | Item::Object(bytes) => container_value(alloc, bytes),
    }
}

/// Returns the value of an extension value.
fn extension_value(value: ExtensionValue<'_>) -> Value<'_>
    ensures { (seen : Number → spec.Number) → tree_seen seen result ≡ extension (extension_view value.entry) }
{
    match value {
        ExtensionValue::Binary(bytes) => Value::Binary(bytes),
        ExtensionValue::Date(date) => Value::Date(date),
        ExtensionValue::Timestamp(timestamp) => Value::Timestamp(timestamp),
        ExtensionValue::TimestampTz(timestamp) => Value::TimestampTz(timestamp),
        ExtensionValue::Interval(interval) => Value::Interval(interval),
    }
}

/// Returns the value of a number.
#[inline(always)]
fn number_value<'a>(short: ShortNumber) -> Value<'a>
    ensures { (seen : Number → spec.Number) → KeepsNormal seen → tree_seen seen result ≡ number (short_value short) }
{
    Value::Number(short.to_number())
}

/// Returns a string as a value.
#[inline(always)]
fn text_value(characters: &str) -> Value<'_>
    ensures { (seen : Number → spec.Number) → tree_seen seen result ≡ text characters.now }
{
    Value::String(CowStr::Borrowed(characters))
}

/// Returns the value of a string with these bytes.
#[inline(always)]
fn read_text(bytes: &[u8]) -> Result<Value<'_>, Error>
    ensures text { (seen : Number → spec.Number) → (form : Form) (t : Tree)
        → IsContent (number_reader form) t text_entry bytes.now
        → MatchResult result (λ v. tree_seen seen v ≡ t) IsOutOfMemory }
    ensures errors { IfErr result IsDecodingError }
{
    match str::from_utf8(bytes) {
        Ok(characters) => Ok(text_value(characters)),
        Err(_) => Err(Error::InvalidJsonb),
    }
}

/// Returns the value of an entry, under every view of its numbers. Strings and 64-bit numbers are not read as items.
#[cycle(decode)]
#[inline(always)]
fn entry_value<'a>(alloc: Global, entry: &StoredEntry<'a>) -> Result<Value<'a>, Error>
    ensures decodes { (seen : Number → spec.Number) → KeepsNormal seen → (form : Form) (t : Tree)
        → Stores form entry.now t
        → MatchResult result (λ v. tree_seen seen v ≡ t) IsOutOfMemory }
    ensures errors { IfErr result (IsDecodingError or OutOfMemory) }
{
    match entry.kind {
        EntryKind::Text => read_text(entry.content),
        EntryKind::Container => container_value(alloc, entry.content),
        _ => match entry.short_number() {
            Some(short) => Ok(number_value(short)),
            None => read_value(alloc, entry),
        },
    }
}

/// Returns the value of an entry that is read as an item. It is a call, so that other entries do not pay for its frame.
#[cycle(decode)]
#[inline(never)]
fn read_value<'a>(alloc: Global, entry: &StoredEntry<'a>) -> Result<Value<'a>, Error>
    ensures decodes { (seen : Number → spec.Number) → KeepsNormal seen → (form : Form) (t : Tree)
        → Stores form entry.now t
        → MatchResult result (λ v. tree_seen seen v ≡ t) IsOutOfMemory }
    ensures errors { IfErr result (IsDecodingError or OutOfMemory) }
{
    item_value(alloc, &entry.item()?)
}

/// A container of which a child is being decoded: the children before it, and those that remain.
#[derive(Drop)]
enum Open<'a> {
    Array(Vec<Value<'a>>, Entries<'a>),
    /// The key is that of the member that is being decoded.
    Object(BTreeMap<String, Value<'a>>, String, PairEntries<'a>),
}

/// How far a container is decoded.
#[derive(Drop)]
enum Filled<'a> {
    /// All of it.
    Whole(Value<'a>),
    /// The bytes of a long child, and what precedes and follows it.
    Within(Open<'a>, &'a [u8]),
}

/// Returns the value of a container.
#[cycle(decode)]
fn container_value<'a>(alloc: Global, bytes: &'a [u8]) -> Result<Value<'a>, Error>
    ensures decodes { (seen : Number → spec.Number) → KeepsNormal seen → (form : Form) (t : Tree)
        → IsContent (number_reader form) t container_entry bytes.now
        → MatchResult result (λ v. tree_seen seen v ≡ t) IsOutOfMemory }
    ensures errors { IfErr result (IsDecodingError or OutOfMemory) }
{
    match opened(alloc, bytes)? {
        Filled::Whole(value) => Ok(value),
        Filled::Within(outer, part) => value_around(alloc, outer, part),
    }
}

/// Returns the value of a container with a child of these bytes, which is longer than half of it.
///
/// The loop decodes such children, and the containers around them are kept. Calls decode the others. So the recursion
/// depth is logarithmic in the length.
#[cycle(decode)]
#[inline(never)]
fn value_around<'a>(alloc: Global, outer: Open<'a>, part: &'a [u8]) -> Result<Value<'a>, Error>
    ensures decodes { (seen : Number → spec.Number) → KeepsNormal seen → (form : Form) (t whole : Tree)
        → IsContent (number_reader form) t container_entry part.now → MakesWhole seen form outer.entry t whole
        → MatchResult result (λ v. tree_seen seen v ≡ whole) IsOutOfMemory }
    ensures errors { IfErr result (IsDecodingError or OutOfMemory) }
{
    let mut around = Vec::new(alloc);
    around.push(outer)?;
    let mut within = part;
    loop {
        match opened(alloc, within)? {
            Filled::Whole(value) => return closed_all(alloc, around, value),
            Filled::Within(next, inner) => {
                around.push(next)?;
                within = inner;
            }
        }
    }
}

/// Returns the container's value, or the part of it before a child that is longer than half of it.
#[cycle(decode)]
#[inline(always)]
fn opened<'a>(alloc: Global, bytes: &'a [u8]) -> Result<Filled<'a>, Error>
    ensures decodes { (seen : Number → spec.Number) → KeepsNormal seen → (form : Form) (t : Tree)
        → IsContent (number_reader form) t container_entry bytes.now
        → MatchResult result (FillsTo seen form t) IsOutOfMemory }
    ensures size { IfOk result (IsShorter (length bytes.now)) }
    ensures errors { IfErr result (IsDecodingError or OutOfMemory) }
{
    let longest = Some(bytes.len() / 2);
    match read_container(bytes)? {
        Container::Array(parts) => {
            let left = Entries {
                words: parts.words,
                contents: parts.contents,
            };
            let values = Vec::with_capacity(alloc, left.len())?;
            fill_array(alloc, values, left, longest)
        }
        Container::Object(parts) => {
            let left = parts.entries()?;
            fill_object(alloc, BTreeMap::new(alloc), left, longest)
        }
        Container::Scalar(_) => Err(Error::InvalidJsonb),
    }
}

/// Returns the array of these values and the remaining elements, up to one that is longer than this many bytes.
#[cycle(decode)]
fn fill_array<'a>(
    alloc: Global,
    mut values: Vec<Value<'a>>,
    mut left: Entries<'a>,
    longest: Option<usize>,
) -> Result<Filled<'a>, Error>
    ensures decodes { (seen : Number → spec.Number) → KeepsNormal seen
        → (form : Form) (ts : Trees) → HasEntriesLeft form left.entry ts
        → MatchResult result (FillsTo seen form (array (trees_of (trees_seen seen values.entry.items ++ elements ts))))
        IsOutOfMemory }
    ensures whole { longest ≡ None → IfOk result IsWhole }
    ensures size { (n : ℕ) → entries_room left.entry < n → IfOk result (IsShorter n) }
    ensures errors { IfErr result (IsDecodingError or OutOfMemory) }
{
    while let Some(entry) = left.next() {
        let entry = entry?;
        if is_longer(&entry, longest) {
            return Ok(Filled::Within(Open::Array(values, left), entry.content));
        }
        values.reserve(1)?;
        values.push_reserved(entry_value(alloc, &entry)?);
    }
    Ok(Filled::Whole(Value::Array(values)))
}

/// Returns a key as a string of its own. Fails with `InvalidJsonb` if it is not UTF-8.
#[inline(always)]
fn own_key(alloc: Global, key: &[u8]) -> Result<String, Error>
    ensures key { IsUtf8 key.now → MatchResult result (λ name. string_bytes name ≡ key.now) IsOutOfMemory }
    ensures errors { IfErr result (IsDecodingError or OutOfMemory) }
{
    match str::from_utf8(key) {
        Ok(name) => Ok(String::from_str(alloc, name)?),
        Err(_) => Err(Error::InvalidJsonb),
    }
}

/// Returns the object of these members and the remaining ones, up to one with a value that is longer than this many
/// bytes.
#[cycle(decode)]
fn fill_object<'a>(
    alloc: Global,
    mut members: BTreeMap<String, Value<'a>>,
    mut left: PairEntries<'a>,
    longest: Option<usize>,
) -> Result<Filled<'a>, Error>
    ensures decodes { (seen : Number → spec.Number) → KeepsNormal seen
        → (form : Form) (ps : Pairs) → HasPairEntriesLeft form left.entry ps
        → let whole = members_seen seen members.entry.entries ++ pair_members ps in
        AreKeys (keys (pairs_of whole))
        → MatchResult result (FillsTo seen form (object (pairs_of whole))) IsOutOfMemory }
    ensures whole { longest ≡ None → IfOk result IsWhole }
    ensures size { (n : ℕ) → entries_room left.entry.values < n → IfOk result (IsShorter n) }
    ensures errors { IfErr result (IsDecodingError or OutOfMemory) }
{
    while let Some(pair) = left.next() {
        let (key, entry) = pair?;
        let name = own_key(alloc, key)?;
        if is_longer(&entry, longest) {
            return Ok(Filled::Within(Open::Object(members, name, left), entry.content));
        }
        let value = entry_value(alloc, &entry)?;
        drop(members.insert(name, value)?);
    }
    Ok(Filled::Whole(Value::Object(members)))
}

/// Returns `true` if the entry is a container that is longer than this many bytes.
#[inline(always)]
fn is_longer(entry: &StoredEntry<'_>, longest: Option<usize>) -> bool
    ensures limit { longest ≡ None → result ≡ false }
    ensures kind { IsTrue result → kind_number entry.now.kind ≡ container_entry }
{
    match longest {
        Some(longest) => entry.is_container() && entry.content.len() > longest,
        None => false,
    }
}

/// Returns the value with all containers around it, the last of which is the innermost.
#[cycle(decode)]
#[inline(always)]
fn closed_all<'a>(
    alloc: Global,
    mut around: Vec<Open<'a>>,
    mut value: Value<'a>,
) -> Result<Value<'a>, Error>
    ensures decodes { (seen : Number → spec.Number) → KeepsNormal seen → (form : Form) (t : Tree)
        → LeadsTo seen form (reverse around.entry.items) (tree_seen seen value.entry) t
        → MatchResult result (λ v. tree_seen seen v ≡ t) IsOutOfMemory }
    ensures errors { IfErr result (IsDecodingError or OutOfMemory) }
{
    while let Some(outer) = around.pop() {
        value = closed(alloc, outer, value)?;
    }
    Ok(value)
}

/// Returns the container with this value as the missing child, and all that remains after it.
#[cycle(decode)]
fn closed<'a>(alloc: Global, outer: Open<'a>, value: Value<'a>) -> Result<Value<'a>, Error>
    ensures decodes { (seen : Number → spec.Number) → KeepsNormal seen → (form : Form) (t : Tree)
        → MakesWhole seen form outer.entry (tree_seen seen value.entry) t
        → MatchResult result (λ v. tree_seen seen v ≡ t) IsOutOfMemory }
    ensures errors { IfErr result (IsDecodingError or OutOfMemory) }
{
    match outer {
        Open::Array(mut values, left) => {
            values.push(value)?;
            whole(fill_array(alloc, values, left, None)?)
        }
        Open::Object(mut members, name, left) => {
            drop(members.insert(name, value)?);
            whole(fill_object(alloc, members, left, None)?)
        }
    }
}

/// Returns the value of a container that is filled.
#[inline(always)]
fn whole(filled: Filled<'_>) -> Result<Value<'_>, Error>
    ensures whole { IsWhole filled.entry → IsOkAnd result (λ v. filled.entry ≡ Filled.Whole v) }
    ensures errors { IfErr result (λ e. e ≡ Error.InvalidJsonb) }
{
    match filled {
        Filled::Whole(value) => Ok(value),
        Filled::Within(_, _) => Err(Error::InvalidJsonb),
    }
}

#[cfg(test)]
mod tests;
