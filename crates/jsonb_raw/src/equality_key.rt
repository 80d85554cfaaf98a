//! The equality key of a document: the types, counts and contents of its items.

ghost use Rattle.std.specs.Prelude.{◌≡◌, ◌≤◌, ◌+◌, ◌*◌, ◌++◌, ◌∷◌, ℕ, List, Some, None, length, take, drop, IsOk, IsOkAnd, IfOk, IfErr, MatchResult, OnOk, vec_len, vec_capacity};
ghost use Rattle.std.specs.Int.{w32, w64, to_be_bytes};
ghost use Rattle.jsonb_doc.specs.Tree.{Tree};
ghost use Rattle.jsonb_doc.specs.View.{number_view, extension_view};
ghost use Rattle.jsonb_raw.specs.AnyBytes.Roots.{HasRoot};
ghost use Rattle.jsonb_raw.specs.EqualityKey.{equality_key};
ghost use Rattle.jsonb_raw.specs.KeyRoom.{HasKeyRoom};
ghost use Rattle.jsonb_raw.specs.Private.EqualityParts.{equality_start, equality_part_start, AppendsEqualityStart};
ghost use Rattle.jsonb_raw.specs.Private.Levels.{EntryPrefix, IsKeyOf, IsLevelOf, IsLevelWithin};
ghost use Rattle.jsonb_raw.specs.SortableKey.{text_bytes};
ghost use Rattle.jsonb_doc.specs.Payload.{Form, number_reader, extension_payload};
ghost use Rattle.jsonb_doc.specs.Format.{Decodes, IsContent};
ghost use Rattle.jsonb_doc.specs.Private.EntryKinds.{container_entry};
ghost use Rattle.jsonb_doc.specs.Item.{StandsFor};
ghost use Rattle.jsonb_doc.specs.AnyBytes.Items.{item_size};
ghost use Rattle.jsonb_doc.specs.Private.Stored.{Stores};
ghost use Rattle.jsonb_doc.specs.Answer.{IsOutOfMemory, IsDecodingError, ◌or◌};
ghost use Rattle.jsonb_doc.specs.declared.error.Error.TheVariants.{OutOfMemory};

use crate::key_bytes::{push_number, push_short_number, push_text};
use crate::key_kind;
use crate::level::ChildCursor;
use crate::packed::ROOM;
use jsonb_doc::{
    Error, ExtensionValue, Item, Number, StoredEntry, push_extension_payload, root_item,
};
use std::alloc::Global;

/// Appends a type and a count in four bytes, the highest first.
#[tactic(auto, using(crate::proofs::Sets::equality_key_push_count))]
fn push_count(out: &mut Vec<u8>, kind: u8, count: usize) -> Result<(), Error>
    ensures { MatchResult result (λ _. out.new.items ≡ out.old.items ++ kind ∷ to_be_bytes w32 count) IsOutOfMemory }
{
    out.push(kind)?;
    let count = (count % 0x1_0000_0000) as u32;
    out.extend_from_slice(&count.to_be_bytes())?;
    Ok(())
}

/// Writes a length over the eight bytes at a position.
fn set_len(out: &mut Vec<u8>, at: usize, len: u64)
    requires { at + 8 ≤ length out.old.items }
    ensures { out.new.items ≡ take at out.old.items ++ (to_be_bytes w64 len ++ drop (at + 8) out.old.items) }
{
    out[at..at + 8].copy_from_slice(&len.to_be_bytes());
}

/// Appends the type, the length in eight bytes and the payload of an extension. The length is written over zeros, once
/// the payload follows them.
fn push_extension(out: &mut Vec<u8>, value: &ExtensionValue<'_>) -> Result<(), Error>
    ensures key { MatchResult result
        (λ _. out.new.items ≡ out.old.items ++ equality_key (Tree.extension (extension_view value.now))) IsOutOfMemory }
    ensures room { vec_len out.old + (length (extension_payload (extension_view value.now)) + 9) ≤ vec_capacity out.old
        → IsOk result }
{
    out.push(key_kind::EXTENSION)?;
    let at = out.len();
    out.extend_from_slice(&[0; 8])?;
    let start = out.len();
    push_extension_payload(out, value)?;
    let len = (out.len() - start) as u64;
    set_len(out, at, len);
    Ok(())
}

/// Appends the key of a string, also of an object's key.
#[inline(always)]
fn push_string(out: &mut Vec<u8>, text: &[u8]) -> Result<(), Error>
    ensures key { MatchResult result (λ _. out.new.items ≡ out.old.items ++ 5 ∷ text_bytes text.now) IsOutOfMemory }
    ensures room { vec_len out.old + (2 * length text.now + 17) ≤ vec_capacity out.old → IsOk result }
{
    out.push(key_kind::STRING)?;
    push_text(out, text)?;
    Ok(())
}

/// Appends the key of a number.
fn push_number_key(out: &mut Vec<u8>, number: &Number) -> Result<(), Error>
    ensures key { MatchResult result
        (λ _. out.new.items ≡ out.old.items ++ equality_key (Tree.number (number_view number.now))) IsOutOfMemory }
    ensures room { vec_len out.old + 64 ≤ vec_capacity out.old → IsOk result }
{
    out.push(key_kind::NUMBER)?;
    push_number(out, *number)?;
    Ok(())
}

/// Appends what precedes the children of a container, and returns them.
#[inline(always)]
fn push_container<'a>(out: &mut Vec<u8>, bytes: &'a [u8]) -> Result<Option<ChildCursor<'a>>, Error>
    ensures key { (form : Form) (tree : Tree) → IsContent (number_reader form) tree container_entry bytes.now
        → AppendsEqualityStart form (equality_start tree) tree out.old.items result out.new.items }
    ensures within { IfOk result (IsLevelWithin (length bytes.now)) }
    ensures errors { IfErr result (IsDecodingError or OutOfMemory) }
{
    let level = ChildCursor::of_container(bytes)?;
    push_count(out, key_kind::of_level(&level), level.len())?;
    Ok(Some(level))
}

/// Appends the key of an item without children, or what precedes the children of a container, which it returns.
#[inline(always)]
fn push_start<'a>(out: &mut Vec<u8>, item: &Item<'a>) -> Result<Option<ChildCursor<'a>>, Error>
    ensures key { (form : Form) (tree : Tree) → StandsFor form item.now tree
        → AppendsEqualityStart form (equality_start tree) tree out.old.items result out.new.items }
    ensures within { IfOk result (IsLevelWithin (item_size item.now)) }
    ensures room { (form : Form) (tree : Tree) → StandsFor form item.now tree
        → HasKeyRoom tree (vec_len out.old) (vec_capacity out.old) → IsOkAnd result (λ found. found ≡ None) }
    ensures errors { IfErr result (IsDecodingError or OutOfMemory) }
{
    match item {
        Item::Null => out.push(key_kind::NULL)?,
        Item::Boolean(false) => out.push(key_kind::FALSE)?,
        Item::Boolean(true) => out.push(key_kind::TRUE)?,
        Item::Number(number) => push_number_key(out, number)?,
        Item::String(text) => push_string(out, text.as_bytes())?,
        Item::Extension(value) => push_extension(out, value)?,
        Item::Array(bytes) | Item::Object(bytes) => return push_container(out, bytes),
    }
    Ok(None)
}

/// Appends the key of an entry, or what precedes its children. Only an extension value and a long decimal are read as
/// items.
#[inline(always)]
fn push_entry<'a>(
    out: &mut Vec<u8>,
    entry: &StoredEntry<'a>,
) -> Result<Option<ChildCursor<'a>>, Error>
    ensures key { (form : Form) (tree : Tree) → Stores form entry.now tree
        → AppendsEqualityStart form (equality_start tree) tree out.old.items result out.new.items }
    ensures within { IfOk result (IsLevelWithin (length entry.now.content.now)) }
    ensures errors { IfErr result (IsDecodingError or OutOfMemory) }
{
    if entry.is_text() {
        push_string(out, entry.content)?;
        return Ok(None);
    }
    if let Some(number) = entry.short_number() {
        out.push(key_kind::NUMBER)?;
        push_short_number(out, number)?;
        return Ok(None);
    }
    if entry.is_container() {
        return push_container(out, entry.content);
    }
    if let Some(kind) = key_kind::of_literal(entry) {
        out.push(kind)?;
        return Ok(None);
    }
    push_start(out, &entry.item()?)
}

/// Appends the start of a child, after its key if it has one, and returns its own children.
#[inline(always)]
fn push_part<'a>(
    out: &mut Vec<u8>,
    key: Option<&[u8]>,
    entry: &StoredEntry<'a>,
) -> Result<Option<ChildCursor<'a>>, Error>
    ensures key { (form : Form) (part : EntryPrefix) → IsKeyOf key.entry part.0 → Stores form entry.now part.1
        → AppendsEqualityStart form (equality_part_start part) part.1 out.old.items result out.new.items }
    ensures within { IfOk result (IsLevelWithin (length entry.now.content.now)) }
    ensures errors { IfErr result (IsDecodingError or OutOfMemory) }
{
    if let Some(key) = key {
        push_string(out, key)?;
    }
    push_entry(out, entry)
}

/// Appends the keys of a tree's children, after what precedes them. What remains of the enclosing containers is in a
/// `Vec`.
fn push_parts(alloc: Global, out: &mut Vec<u8>, found: ChildCursor<'_>) -> Result<(), Error>
    ensures key { (form : Form) (tree : Tree) (front : List ℕ) → IsLevelOf form tree (Some found.entry)
        → out.old.items ≡ front ++ equality_start tree
        → MatchResult result (λ _. out.new.items ≡ front ++ equality_key tree) IsOutOfMemory }
    ensures errors { IfErr result (IsDecodingError or OutOfMemory) }
{
    let mut level = found;
    let mut around = Vec::new(alloc);
    'walk: loop {
        match level.take()? {
            Some((key, part)) => {
                if let Some(inner) = push_part(out, key, &part)? {
                    around.push(level)?;
                    level = inner;
                }
            }
            None => match around.pop() {
                Some(outer) => level = outer,
                None => return Ok(()),
            },
        }
    }
}

/// Appends the equality key of an item.
#[tactic(auto, using(crate::proofs::EqualityWalk::only_start))]
fn push_item(alloc: Global, out: &mut Vec<u8>, item: &Item<'_>) -> Result<(), Error>
    ensures key { (form : Form) (tree : Tree) → StandsFor form item.now tree
        → MatchResult result (λ _. out.new.items ≡ out.old.items ++ equality_key tree) IsOutOfMemory }
    ensures room { (form : Form) (tree : Tree) → StandsFor form item.now tree
        → HasKeyRoom tree (vec_len out.old) (vec_capacity out.old) → IsOk result }
    ensures errors { IfErr result (IsDecodingError or OutOfMemory) }
{
    match push_start(out, item)? {
        Some(found) => push_parts(alloc, out, found),
        None => Ok(()),
    }
}

/// Returns the initial capacity of a key, so that it seldom grows. It includes both words of a `PackedBytes`, which are
/// written first.
fn first_capacity(item: &Item<'_>) -> usize {
    match item {
        Item::String(text) => text.len().saturating_add(ROOM + 1),
        Item::Array(bytes) | Item::Object(bytes) => bytes.len().saturating_add(ROOM),
        _ => 32,
    }
}

/// Returns the equality key of an item.
pub fn item_key(alloc: Global, item: &Item<'_>) -> Result<Vec<u8>, Error>
    ensures key { (form : Form) (tree : Tree) → StandsFor form item.now tree
        → MatchResult result (λ v. v.items ≡ equality_key tree) IsOutOfMemory }
    ensures errors { IfErr result (IsDecodingError or OutOfMemory) }
{
    let mut out = Vec::with_capacity(alloc, first_capacity(item))?;
    push_item(alloc, &mut out, item)?;
    Ok(out)
}

/// The greatest length of the key of a 64-bit number, and of a Boolean.
const SHORT_KEY: usize = 25;

/// Appends the equality key of an entry. Out of line, so that the key of a string does not clear the memory of a walk:
/// 23 instructions.
#[inline(never)]
#[tactic(auto, using(crate::proofs::EqualityWalk::only_start))]
fn push_entry_key(alloc: Global, out: &mut Vec<u8>, entry: &StoredEntry<'_>) -> Result<(), Error>
    ensures key { (form : Form) (tree : Tree) → Stores form entry.now tree
        → MatchResult result (λ _. out.new.items ≡ out.old.items ++ equality_key tree) IsOutOfMemory }
    ensures errors { IfErr result (IsDecodingError or OutOfMemory) }
{
    match push_entry(out, entry)? {
        Some(found) => push_parts(alloc, out, found),
        None => Ok(()),
    }
}

/// Replaces the contents of a vector by the equality key of an entry.
pub fn write_entry_key(
    alloc: Global,
    out: &mut Vec<u8>,
    entry: &StoredEntry<'_>,
) -> Result<(), Error>
    ensures key { (form : Form) (tree : Tree) → Stores form entry.now tree
        → MatchResult result (λ _. out.new.items ≡ equality_key tree) IsOutOfMemory }
    ensures errors { IfErr result (IsDecodingError or OutOfMemory) }
{
    out.clear();
    out.reserve(entry.content.len().saturating_add(SHORT_KEY))?;
    if entry.is_text() {
        return push_string(out, entry.content);
    }
    push_entry_key(alloc, out, entry)
}

/// Appends the equality key of a document.
pub fn push_equality_key(alloc: Global, out: &mut Vec<u8>, bytes: &[u8]) -> Result<(), Error>
    ensures key { (form : Form) (tree : Tree) → Decodes form bytes.now tree
        → MatchResult result (λ _. out.new.items ≡ out.old.items ++ equality_key tree) IsOutOfMemory }
    ensures room { (form : Form) (tree : Tree) → Decodes form bytes.now tree
        → HasKeyRoom tree (vec_len out.old + length bytes.now) (vec_capacity out.old) → IsOk result }
    ensures errors { IfErr result (IsDecodingError or OutOfMemory) }
    ensures reads { OnOk result (HasRoot bytes.now) }
{
    let root = root_item(bytes)?;
    out.reserve(bytes.len().saturating_add(ROOM))?;
    push_item(alloc, out, &root)
}
