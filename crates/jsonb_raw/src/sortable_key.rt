//! The sortable key of a document: each item after its depth and its type.

ghost use Rattle.std.specs.Prelude.{◌≡◌, ◌≤◌, ◌<◌, ◌+◌, ◌*◌, ◌++◌, ◌∷◌, ℕ, [], IsUtf8, length, List, Option, IsOk, IfOk, IfErr, IfSome, MatchResult, OnOk, vec_len, vec_capacity};
ghost use Rattle.std.specs.Int.{to_be_bytes};
ghost use Rattle.jsonb_doc.specs.Tree.{Tree};
ghost use Rattle.jsonb_doc.specs.Payload.{Form, number_reader};
ghost use Rattle.jsonb_doc.specs.Format.{Decodes, IsContent};
ghost use Rattle.jsonb_doc.specs.Private.EntryKinds.{container_entry, number_entry};
ghost use Rattle.jsonb_doc.specs.AnyBytes.Roots.{HasShape};
ghost use Rattle.jsonb_doc.specs.Kinds.{kind_number};
ghost use Rattle.jsonb_doc.specs.Private.Stored.{Stores};
ghost use Rattle.jsonb_raw.specs.AnyBytes.Roots.{HasRoot};
ghost use Rattle.jsonb_raw.specs.SortableKey.{text_bytes, number_bytes, sortable_key, depths};
ghost use Rattle.jsonb_doc.specs.Depth.{deepest};
ghost use Rattle.jsonb_raw.specs.Private.PackedBytes.{packed_bytes};
ghost use Rattle.jsonb_doc.specs.Private.Short.{short_value};
ghost use Rattle.jsonb_doc.specs.View.{number_view, extension_view};
ghost use Rattle.jsonb_doc.specs.Payload.{extension_payload};
ghost use Rattle.jsonb_raw.specs.Private.Levels.{IsKeyOf, IsLevelWithin};
ghost use Rattle.jsonb_raw.specs.Private.KeyParts.{name_start, AppendsItem, AppendsScalar, AppendsStart, AppendsKey};
ghost use Rattle.jsonb_raw.specs.Private.KeyWidth.{width_of};
ghost use Rattle.jsonb_raw.specs.KeyAnswer.{GivesKey, RanksAsTree};
ghost use Rattle.jsonb_raw.specs.KeyRoom.{HasKeyRoom};
ghost use Rattle.jsonb_raw.specs.Private.KeyErrors.{IsOutOfMemoryOrTooDeep};
ghost use Rattle.jsonb_doc.specs.Answer.{IsDecodingError, ◌or◌};
ghost use Rattle.jsonb_doc.specs.declared.error.Error.TheVariants.{OutOfMemory, TooDeep};

use crate::key_bytes::{
    is_long_plain_ascii, pack_number, pack_text, push_number, push_plain_text,
    push_unpacked_number, push_unpacked_text,
};
use crate::key_kind;
use crate::level::ChildCursor;
use crate::packed::{PackedBytes, ROOM};
use jsonb_doc::layout::EntryKind;
use jsonb_doc::{
    Error, ExtensionValue, Number, Shape, ShortNumber, StoredEntry, is_utf8,
    push_extension_payload, root_shape, scalar_shape,
};
use std::alloc::Global;

/// The number of bytes that a key has for each depth.
#[derive(Clone, Copy)]
pub enum DepthWidth {
    /// Depths up to 255.
    OneByte,
    /// Depths up to 65,535, the high byte first.
    TwoBytes,
}

/// The depth of an item, and the number of bytes that a key has for it.
#[derive(Clone, Copy)]
struct Depth {
    value: usize,
    width: DepthWidth,
}

/// Returns the item after the bytes of its depth. Fails with `TooDeep` if the width has no bytes for it.
#[inline(always)]
fn behind_depth(item: PackedBytes, depth: Depth) -> Result<PackedBytes, Error>
    requires { item.len ≤ 14 }
    ensures placed { MatchResult result
        (λ p. (packed_bytes p ≡ to_be_bytes (width_of depth.width) depth.value ++ packed_bytes item)
        × (depth.value < depths (width_of depth.width)))
        (IsOutOfMemoryOrTooDeep depth.value (depths (width_of depth.width))) }
    ensures few { IfOk result (λ p. p.len ≤ item.len + 2) }
    ensures near { depth.value < 256 → IsOk result }
{
    match depth.width {
        DepthWidth::OneByte => {
            if depth.value > 255 {
                return Err(Error::TooDeep);
            }
            Ok(item.prepend(depth.value as u8))
        }
        DepthWidth::TwoBytes => {
            if depth.value > 65535 {
                return Err(Error::TooDeep);
            }
            let [high, low] = (depth.value as u16).to_be_bytes();
            Ok(item.prepend(low).prepend(high))
        }
    }
}

/// Appends an item after its depth and its type.
#[inline(always)]
fn push_packed(out: &mut Vec<u8>, depth: Depth, kind: u8, content: PackedBytes) -> Result<(), Error>
    requires { content.len ≤ 13 }
    ensures item { AppendsItem depth kind (packed_bytes content) out.old.items result out.new.items }
    ensures room { depth.value < 256 → vec_len out.old + 16 ≤ vec_capacity out.old → IsOk result }
{
    let item = behind_depth(content.prepend(kind), depth)?;
    item.push(out)?;
    Ok(())
}

/// Appends the depth and the type of an item.
#[inline(always)]
fn push_front(out: &mut Vec<u8>, depth: Depth, kind: u8) -> Result<(), Error>
    ensures item { AppendsItem depth kind [] out.old.items result out.new.items }
    ensures len { OnOk result (vec_len out.new ≤ vec_len out.old + 3) }
    ensures capacity { vec_capacity out.old ≤ vec_capacity out.new }
    ensures room { depth.value < 256 → vec_len out.old + 16 ≤ vec_capacity out.old → IsOk result }
{
    let item = behind_depth(PackedBytes::one(kind), depth)?;
    item.push(out)?;
    Ok(())
}

/// Appends the key of a string, also of an object's key.
#[inline(always)]
fn push_string(out: &mut Vec<u8>, text: &[u8], depth: Depth) -> Result<(), Error>
    ensures item { AppendsItem depth 5 (text_bytes text.now) out.old.items result out.new.items }
    ensures room { depth.value < 256 → vec_len out.old + (2 * length text.now + 19) ≤ vec_capacity out.old
        → IsOk result }
{
    if let Some(packed) = pack_text(text) {
        return push_packed(out, depth, key_kind::STRING, packed);
    }
    push_front(out, depth, key_kind::STRING)?;
    push_unpacked_text(out, text)?;
    Ok(())
}

/// Appends the key of a number whose digits are stored in at most 64 bits.
#[inline(always)]
fn push_short(out: &mut Vec<u8>, number: ShortNumber, depth: Depth) -> Result<(), Error>
    ensures item { AppendsItem depth 4 (number_bytes (short_value number).whole (short_value number).scale)
        out.old.items result out.new.items }
    ensures room { depth.value < 256 → vec_len out.old + 64 ≤ vec_capacity out.old → IsOk result }
{
    if let Some(packed) = pack_number(number) {
        return push_packed(out, depth, key_kind::NUMBER, packed);
    }
    push_front(out, depth, key_kind::NUMBER)?;
    push_unpacked_number(out, number)?;
    Ok(())
}

/// Returns the number as it is stored, if its digits fit in 64 bits.
#[inline(always)]
fn short_of(number: Number) -> Option<ShortNumber>
    ensures { IfSome result (λ short. short_value short ≡ number_view number) }
{
    match number {
        Number::Int64(value) => Some(ShortNumber::Signed(value)),
        Number::UInt64(value) => Some(ShortNumber::Unsigned(value)),
        Number::Decimal64(decimal) => Some(ShortNumber::Decimal(decimal.value, decimal.scale)),
        Number::Decimal128(_) => None,
    }
}

/// Appends the key of a number. It is a separate function so that a packed number takes no space in those of other
/// items.
#[inline(never)]
fn push_read_number(out: &mut Vec<u8>, number: Number, depth: Depth) -> Result<(), Error>
    ensures item { AppendsItem depth 4 (number_bytes (number_view number).whole (number_view number).scale)
        out.old.items result out.new.items }
    ensures room { depth.value < 256 → vec_len out.old + 64 ≤ vec_capacity out.old → IsOk result }
{
    match short_of(number) {
        Some(short) => push_short(out, short, depth),
        None => {
            push_front(out, depth, key_kind::NUMBER)?;
            push_number(out, number)?;
            Ok(())
        }
    }
}

/// Appends what precedes the children of a container, and returns them.
#[inline(always)]
fn push_container<'a>(
    out: &mut Vec<u8>,
    bytes: &'a [u8],
    depth: Depth,
) -> Result<ChildCursor<'a>, Error>
    ensures key { (form : Form) (tree : Tree) → IsContent (number_reader form) tree container_entry bytes.now
        → AppendsStart form depth tree out.old.items result out.new.items }
    ensures within { IfOk result (λ level. IsLevelWithin (length bytes.now) (Some level)) }
    ensures errors { IfErr result (IsDecodingError or OutOfMemory or TooDeep) }
{
    let level = ChildCursor::of_container(bytes)?;
    push_front(out, depth, key_kind::of_level(&level))?;
    Ok(level)
}

/// Appends the key of an extension value.
#[inline(always)]
fn push_extension(out: &mut Vec<u8>, value: &ExtensionValue<'_>, depth: Depth) -> Result<(), Error>
    ensures item { AppendsItem depth 1 (extension_payload (extension_view value.now) ++ 0 ∷ [])
        out.old.items result out.new.items }
    ensures room { depth.value < 256
        → vec_len out.old + (length (extension_payload (extension_view value.now)) + 64) ≤ vec_capacity out.old
        → IsOk result }
{
    push_front(out, depth, key_kind::EXTENSION)?;
    let own = *value; // so that only this type of item is in memory
    push_extension_payload(out, &own)?;
    out.push(0)?;
    Ok(())
}

/// Appends the key of a scalar whose shape was read.
#[inline(always)]
fn push_shape(out: &mut Vec<u8>, shape: Shape<'_>, depth: Depth) -> Result<(), Error>
    ensures key { (tree : Tree) → HasShape shape.entry tree
        → AppendsScalar depth tree out.old.items result out.new.items }
    ensures room { (tree : Tree) → HasShape shape.entry tree → depth.value < 256
        → HasKeyRoom tree (vec_len out.old) (vec_capacity out.old) → IsOk result }
    ensures errors { IfErr result (IsDecodingError or OutOfMemory or TooDeep) }
{
    match shape {
        Shape::Null => push_front(out, depth, key_kind::NULL),
        Shape::Boolean(false) => push_front(out, depth, key_kind::FALSE),
        Shape::Boolean(true) => push_front(out, depth, key_kind::TRUE),
        Shape::Number(number) => push_read_number(out, number, depth),
        Shape::Text(text) => push_string(out, text, depth),
        Shape::Extension(value) => push_extension(out, &value, depth),
        Shape::Array | Shape::Object => Err(Error::InvalidJsonb),
    }
}

/// Appends the key of a scalar entry of this type, by its shape. It is a separate function so that traversing the most
/// common entries needs no space for shapes. It takes the entry's parts, so that the caller keeps no entry in memory.
#[inline(never)]
fn push_stored_shape(
    out: &mut Vec<u8>,
    kind: EntryKind,
    content: &[u8],
    depth: Depth,
) -> Result<(), Error>
    ensures key { (form : Form) (tree : Tree) → IsContent (number_reader form) tree (kind_number kind) content.now
        → AppendsScalar depth tree out.old.items result out.new.items }
    ensures errors { IfErr result (IsDecodingError or OutOfMemory or TooDeep) }
{
    push_shape(out, scalar_shape(StoredEntry { kind, content })?, depth)
}

/// Appends the key of a number, as it is stored. It is a separate function so that a packed number takes no space while
/// strings are traversed.
#[inline(never)]
fn push_stored_number(out: &mut Vec<u8>, content: &[u8], depth: Depth) -> Result<(), Error>
    ensures key { (form : Form) (tree : Tree) → IsContent (number_reader form) tree number_entry content.now
        → AppendsScalar depth tree out.old.items result out.new.items }
    ensures errors { IfErr result (IsDecodingError or OutOfMemory or TooDeep) }
{
    let kind = EntryKind::Number;
    match (StoredEntry { kind, content }).short_number() {
        Some(number) => push_short(out, number, depth),
        None => push_stored_shape(out, kind, content, depth),
    }
}

/// Appends the key of a scalar entry. Only an extension value and a long decimal are read as shapes.
#[inline(always)]
fn push_scalar(out: &mut Vec<u8>, entry: &StoredEntry<'_>, depth: Depth) -> Result<(), Error>
    ensures key { (form : Form) (tree : Tree) → Stores form entry.now tree
        → AppendsScalar depth tree out.old.items result out.new.items }
    ensures errors { IfErr result (IsDecodingError or OutOfMemory or TooDeep) }
{
    if entry.is_text() {
        return push_string(out, entry.content, depth);
    }
    if entry.kind == EntryKind::Number {
        return push_stored_number(out, entry.content, depth);
    }
    match key_kind::of_literal(entry) {
        Some(kind) => push_front(out, depth, kind),
        None => push_stored_shape(out, entry.kind, entry.content, depth),
    }
}

/// Appends the key of a child, if it has one, as it precedes the child.
#[inline(always)]
fn push_name(out: &mut Vec<u8>, name: Option<&[u8]>, depth: Depth) -> Result<(), Error>
    ensures key { (k : Option (List ℕ)) → IsKeyOf name.entry k → MatchResult result
        (λ _. out.new.items ≡ out.old.items ++ name_start (width_of depth.width) k depth.value)
        (IsOutOfMemoryOrTooDeep depth.value (depths (width_of depth.width))) }
    ensures errors { IfErr result (IsDecodingError or OutOfMemory or TooDeep) }
{
    match name {
        Some(name) => push_string(out, name, depth),
        None => Ok(()),
    }
}

/// Appends the key of a container. What remains of the enclosing containers is in a `Vec`.
fn push_parts(
    alloc: Global,
    out: &mut Vec<u8>,
    bytes: &[u8],
    width: DepthWidth,
) -> Result<(), Error>
    ensures key { (form : Form) (tree : Tree) → IsContent (number_reader form) tree container_entry bytes.now
        → AppendsKey (width_of width) tree out.old.items result out.new.items }
    ensures errors { IfErr result (IsDecodingError or OutOfMemory or TooDeep) }
{
    let mut level = push_container(out, bytes, Depth { value: 0, width })?;
    let mut around = Vec::new(alloc);
    'walk: loop {
        match level.take()? {
            Some((name, part)) => {
                let value = around.len() + 1;
                let depth = Depth { value, width };
                push_name(out, name, depth)?;
                if part.is_container() {
                    let inner = push_container(out, part.content, depth)?;
                    around.push(level)?;
                    level = inner;
                } else {
                    push_scalar(out, &part, depth)?;
                }
            }
            None => match around.pop() {
                Some(outer) => level = outer,
                None => return Ok(()),
            },
        }
    }
}

/// Appends the key of a root that is a string. Fails with `InvalidJsonb` if it is not UTF-8. No `str` is made of it, so
/// a long one in ASCII is read once, for what must be escaped: 300 bytes take 538 instructions instead of 750.
#[inline(always)]
fn push_root_text(out: &mut Vec<u8>, text: &[u8], depth: Depth) -> Result<(), Error>
    ensures item { IsUtf8 text.now
        → AppendsItem depth 5 (text_bytes text.now) out.old.items result out.new.items }
    ensures utf8 { OnOk result (IsUtf8 text.now) }
    ensures room { IsUtf8 text.now → depth.value < 256
        → vec_len out.old + (2 * length text.now + 19) ≤ vec_capacity out.old → IsOk result }
    ensures errors { IfErr result (IsDecodingError or OutOfMemory or TooDeep) }
{
    if is_long_plain_ascii(text) {
        push_front(out, depth, key_kind::STRING)?;
        push_plain_text(out, text)?;
        return Ok(());
    }
    if !is_utf8(text) {
        return Err(Error::InvalidJsonb);
    }
    push_string(out, text, depth)
}

/// Appends the sortable key of a document.
#[inline(always)]
pub fn push_sortable_key(
    alloc: Global,
    out: &mut Vec<u8>,
    bytes: &[u8],
    width: DepthWidth,
) -> Result<(), Error>
    ensures key { (form : Form) (tree : Tree) → Decodes form bytes.now tree
        → AppendsKey (width_of width) tree out.old.items result out.new.items }
    ensures room { (form : Form) (tree : Tree) → Decodes form bytes.now tree
        → HasKeyRoom tree (vec_len out.old + length bytes.now) (vec_capacity out.old) → IsOk result }
    ensures errors { IfErr result (IsDecodingError or OutOfMemory or TooDeep) }
    ensures reads { OnOk result (HasRoot bytes.now) }
{
    let root = root_shape(bytes)?;
    out.reserve(bytes.len().saturating_add(ROOM))?;
    let depth = Depth { value: 0, width };
    match root {
        Shape::Array | Shape::Object => push_parts(alloc, out, bytes, width),
        Shape::Text(text) => push_root_text(out, text, depth),
        scalar => push_shape(out, scalar, depth),
    }
}

/// Returns the sortable key of a document.
#[inline(always)]
#[tactic(auto, using(crate::proofs::AnswerLemmas::failed))]
pub fn sortable_key(alloc: Global, bytes: &[u8], width: DepthWidth) -> Result<Vec<u8>, Error>
    ensures key { (form : Form) (tree : Tree) → Decodes form bytes.now tree
        → GivesKey (width_of width) (deepest tree) result (λ key. key.items ≡ sortable_key (width_of width) tree 0) }
    ensures order { (form : Form) (tree : Tree) → Decodes form bytes.now tree
        → RanksAsTree (width_of width) tree result }
    ensures errors { IfErr result (IsDecodingError or OutOfMemory or TooDeep) }
    ensures reads { OnOk result (HasRoot bytes.now) }
{
    let mut out = Vec::with_capacity(alloc, bytes.len().saturating_add(ROOM))?;
    push_sortable_key(alloc, &mut out, bytes, width)?;
    Ok(out)
}
