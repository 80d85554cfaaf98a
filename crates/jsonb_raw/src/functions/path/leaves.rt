//! The leaves of a document, with their key paths.

ghost use Rattle.std.specs.Prelude.{◌≡◌, ◌⊎◌, ◌+◌, ◌<◌, ◌&&◌, ◌++◌, [], ◌∷◌, ℕ, List, Option, length, vec_len, vec_capacity, IsOkAnd, IfOk, IfErr, map, MatchResult, OnOk};
ghost use Rattle.std.specs.List.{All, Any, AllZip};
ghost use Rattle.jsonb_doc.specs.Tree.{Tree, text, number};
ghost use Rattle.jsonb_doc.specs.Payload.{Form, number_reader};
ghost use Rattle.jsonb_doc.specs.Format.{Decodes, IsContent};
ghost use Rattle.jsonb_doc.specs.Private.EntryKinds.{container_entry, text_entry};
ghost use Rattle.jsonb_doc.specs.Item.{StandsFor, IsNormal};
ghost use Rattle.jsonb_doc.specs.Kinds.{kind_number};
ghost use Rattle.jsonb_doc.specs.Private.Stored.{Stores};
ghost use Rattle.jsonb_doc.specs.Private.Short.{short_value};
ghost use Rattle.jsonb_doc.specs.Answer.{IsOutOfMemory, ◌or◌, IsDecodingError};
ghost use Rattle.jsonb_doc.specs.declared.error.Error.TheVariants.{OutOfMemory};
ghost use Rattle.jsonb_doc.specs.Value.{value_tree, value_parts};
ghost use Rattle.jsonb_keypath.specs.KeyPathGrammar.{unquoted_name};
ghost use Rattle.jsonb_keypath.specs.KeyPathViews.{key_view, key_paths_view};
ghost use Rattle.jsonb_keypath.specs.Private.KeysView.{keys_view};
ghost use Rattle.jsonb_raw.specs.AnyBytes.Roots.{HasRoot};
ghost use Rattle.jsonb_raw.specs.Documents.{raw_bytes};
ghost use Rattle.jsonb_raw.specs.Scalars.{is_array};
ghost use Rattle.jsonb_raw.specs.Leaves.{leaves};
ghost use Rattle.jsonb_raw.specs.Private.LeafSteps.{IsEntered, IsKept, AppendsLeaf, IsValueOf, step_key, step_keys, steps_within};
ghost use Rattle.jsonb_raw.specs.Private.Levels.{IsKeyOf, IsLevelWithin};

mod documents;

use crate::level::{ChildCursor, is_array};
use crate::raw::RawJsonb;
use jsonb_doc::layout::EntryKind;
use jsonb_doc::{Error, Item, ShortNumber, StoredEntry, Value, root_item};
use jsonb_keypath::{KeyPath, KeyPaths};
use std::alloc::Global;
use std::borrow::CowStr;

/// The number of leaves for which there is room at least.
const FIRST_ROOM: usize = 8;

/// The step to a child of a container.
#[derive(Clone, Copy)]
struct Step<'a> {
    /// The key of the child, if it is a value of an object.
    key: Option<&'a str>,
    /// The number of children before it, as an index counts them.
    index: u32,
}

/// An enclosing container.
#[derive(Clone, Copy)]
struct Enclosing<'a> {
    /// Its remaining children.
    level: ChildCursor<'a>,
    /// The step to the child that was entered.
    step: Step<'a>,
}

/// Returns the step to a key. It takes the key as an argument, so that a step is written directly to its destination.
#[inline(always)]
fn name_step(key: &str) -> KeyPath<'_>
    ensures { key_view result ≡ unquoted_name key.now }
{
    KeyPath::Name(CowStr::Borrowed(key))
}

/// Appends a step: its key, if it has one, and otherwise its index.
#[inline(always)]
fn push_step<'a>(steps: &mut Vec<KeyPath<'a>>, step: &Step<'a>)
    requires room { vec_len steps.old < vec_capacity steps.old }
    ensures steps { keys_view steps.new.items ≡ keys_view steps.old.items ++ step_key step.now ∷ [] }
    ensures len { vec_len steps.new ≡ vec_len steps.old + 1 }
    ensures capacity { vec_capacity steps.new ≡ vec_capacity steps.old }
{
    match step.key {
        Some(key) => steps.push_reserved(name_step(key)),
        None => steps.push_reserved(KeyPath::Index(step.index.cast_signed())),
    }
}

/// Appends an enclosing container. It makes room first, so that the container is written directly to its destination.
#[inline(always)]
fn push_enclosing<'a>(
    around: &mut Vec<Enclosing<'a>>,
    level: ChildCursor<'a>,
    step: Step<'a>,
) -> Result<(), Error>
    ensures { MatchResult result
        (λ _. around.new.items ≡ around.old.items ++ record { level = level.entry; step = step.entry } ∷ [])
        IsOutOfMemory }
{
    around.reserve(1)?;
    around.push_reserved(Enclosing { level, step });
    Ok(())
}

/// Returns the path of the steps within these containers and one more.
#[inline(always)]
fn path_to<'a>(
    alloc: Global,
    around: &[Enclosing<'a>],
    last: Step<'a>,
) -> Result<KeyPaths<'a>, Error>
    ensures { MatchResult result
        (λ path. key_paths_view path ≡ step_keys (steps_within around.now) ++ step_key last.entry ∷ []) IsOutOfMemory }
{
    let mut paths = Vec::with_capacity(alloc, around.len() + 1)?;
    for outer in around {
        push_step(&mut paths, &outer.step);
    }
    push_step(&mut paths, &last);
    Ok(KeyPaths { paths })
}

/// Returns `true` if a container is an array and arrays are ignored.
#[inline(always)]
fn is_ignored_array(bytes: &[u8], ignore_array: bool) -> bool
    ensures { (form : Form) (t : Tree) → IsContent (number_reader form) t container_entry bytes.now
        → result ≡ (ignore_array && is_array t) }
{
    ignore_array && is_array(bytes)
}

/// Returns the children of a container that is entered, or `None` for a leaf.
#[inline(always)]
fn descend_into_container(
    bytes: &[u8],
    ignore_array: bool,
) -> Result<Option<ChildCursor<'_>>, Error>
    ensures leaf { (form : Form) (t : Tree) → IsContent (number_reader form) t container_entry bytes.now
        → IsOkAnd result (IsEntered form ignore_array t) }
    ensures within { IfOk result (IsLevelWithin (length bytes.now)) }
    ensures errors { IfErr result IsDecodingError }
{
    if is_ignored_array(bytes, ignore_array) {
        return Ok(None);
    }
    let level = ChildCursor::of_container(bytes)?;
    if level.len() == 0 {
        return Ok(None);
    }
    Ok(Some(level))
}

/// Returns the children of an item that is entered, or `None` for a leaf.
#[inline(always)]
fn parts_entered<'a>(item: &Item<'a>, ignore_array: bool) -> Result<Option<ChildCursor<'a>>, Error>
    ensures leaf { (form : Form) (t : Tree) → StandsFor form item.now t
        → IsOkAnd result (IsEntered form ignore_array t) }
    ensures errors { IfErr result IsDecodingError }
{
    match item {
        Item::Array(bytes) | Item::Object(bytes) => descend_into_container(bytes, ignore_array),
        _ => Ok(None),
    }
}

/// Returns the children of an entry that is entered, or `None` for a leaf.
#[inline(always)]
#[tactic(auto, using(crate::proofs::LevelLemmas::stored_container, crate::proofs::Sets::leaves_entry_entered))]
fn entry_entered<'a>(
    entry: &StoredEntry<'a>,
    ignore_array: bool,
) -> Result<Option<ChildCursor<'a>>, Error>
    ensures leaf { (form : Form) (t : Tree) → Stores form entry.now t
        → IsOkAnd result (IsEntered form ignore_array t) }
    ensures within { IfOk result (IsLevelWithin (length entry.now.content.now)) }
    ensures errors { IfErr result IsDecodingError }
{
    if !entry.is_container() {
        return Ok(None);
    }
    descend_into_container(entry.content, ignore_array)
}

/// Returns the key of a child as a name. Fails with `InvalidJsonb` if it is not UTF-8.
#[inline(always)]
fn name_of(key: Option<&[u8]>) -> Result<Option<&str>, Error>
    ensures name { (k : Option (List ℕ)) → IsKeyOf key.entry k → IsOkAnd result (λ name. IsKeyOf name k) }
    ensures errors { IfErr result IsDecodingError }
{
    let Some(bytes) = key else {
        return Ok(None);
    };
    match str::from_utf8(bytes) {
        Ok(name) => Ok(Some(name)),
        Err(_) => Err(Error::InvalidJsonb),
    }
}

/// A type that is collected for each leaf.
trait LeafOutput<'a>: Drop {
    ghost use Rattle.jsonb_doc.specs.Tree.{Tree};
    ghost use Rattle.jsonb_doc.specs.Payload.{Form};
    ghost use Rattle.jsonb_doc.specs.declared.error.Error.{Error};
    ghost use Rattle.std.specs.Prelude.{OnOk};
    ghost use Rattle.std.specs.List.{All};

    ghost IsOf: { Form → Tree → Self → Type 0 };

    ghost IsRefusalOf: { Form → Tree → Error → Type 0 };

    ghost Refusals: { Error → Type 0 };

    ghost IsReadable: { Self → Type 0 };

    /// Appends the leaf that an entry stores.
    fn push_leaf(
        alloc: Global,
        entry: &StoredEntry<'a>,
        path: KeyPaths<'a>,
        found: &mut Vec<(KeyPaths<'a>, Self)>,
    ) -> Result<(), Error>
        ensures leaf { (form : Form) (t : Tree) → Stores form entry.now t
            → MatchResult result (λ _. AppendsLeaf (IsOf form t) path.entry found.old.items found.new.items)
            (IsRefusalOf form t) }
        ensures whole { All (λ leaf. IsReadable leaf.1) found.old.items
            → OnOk result (All (λ leaf. IsReadable leaf.1) found.new.items) }
        ensures errors { IfErr result Refusals };
}

/// Appends a leaf.
#[inline(always)]
fn push_part<'a, P: Drop>(
    path: KeyPaths<'a>,
    part: P,
    found: &mut Vec<(KeyPaths<'a>, P)>,
) -> Result<(), Error>
    ensures { MatchResult result (λ _. found.new.items ≡ found.old.items ++ (path.entry, part) ∷ []) IsOutOfMemory }
{
    found.reserve(1)?;
    found.push_reserved((path, part));
    Ok(())
}

/// Returns a string as a value. It takes the string as an argument, so that the value is written directly to its
/// destination.
#[inline(always)]
fn text_value(characters: &str) -> Value<'_>
    ensures tree { value_tree result ≡ text characters.now }
    ensures parts { value_parts result ≡ text characters.now }
{
    Value::String(CowStr::Borrowed(characters))
}

/// Appends the leaf of a string with these bytes.
#[inline(always)]
#[tactic(auto, using(jsonb_doc::proofs::ScalarLemmas::text_content))]
fn push_text<'a>(
    bytes: &'a [u8],
    path: KeyPaths<'a>,
    found: &mut Vec<(KeyPaths<'a>, Value<'a>)>,
) -> Result<(), Error>
    ensures leaf { (form : Form) (t : Tree) → IsContent (number_reader form) t text_entry bytes.now
        → MatchResult result (λ _. AppendsLeaf (IsValueOf t) path.entry found.old.items found.new.items) IsOutOfMemory }
    ensures errors { IfErr result (IsDecodingError or OutOfMemory) }
{
    match str::from_utf8(bytes) {
        Ok(text) => push_part(path, text_value(text), found),
        Err(_) => Err(Error::InvalidJsonb),
    }
}

/// Returns a number as a value.
#[inline(always)]
fn number_value<'a>(short: ShortNumber) -> Value<'a>
    ensures tree { value_tree result ≡ number (short_value short) }
    ensures parts { value_parts result ≡ number (short_value short) }
{
    Value::Number(short.to_number())
}

/// Appends the leaf of a value of another type. It takes the entry's parts, so that the walk keeps no entry in
/// memory. A 64-bit number is not read as an item.
#[inline(never)]
#[tactic(auto, using(crate::proofs::Sets::leaves_push_value))]
fn push_value<'a>(
    alloc: Global,
    kind: EntryKind,
    content: &'a [u8],
    path: KeyPaths<'a>,
    found: &mut Vec<(KeyPaths<'a>, Value<'a>)>,
) -> Result<(), Error>
    ensures leaf { (form : Form) (t : Tree) → IsContent (number_reader form) t (kind_number kind) content.now
        → MatchResult result (λ _. AppendsLeaf (IsValueOf t) path.entry found.old.items found.new.items) IsOutOfMemory }
    ensures errors { IfErr result (IsDecodingError or OutOfMemory) }
{
    match (StoredEntry { kind, content }).short_number() {
        Some(short) => push_part(path, number_value(short), found),
        None => push_item(alloc, kind, content, path, found),
    }
}

/// Appends the leaf of a value of any type. It is apart, so that a number does not pay for its frame.
#[inline(never)]
#[tactic(auto, using(crate::proofs::Sets::leaves_push_value))]
fn push_item<'a>(
    alloc: Global,
    kind: EntryKind,
    content: &'a [u8],
    path: KeyPaths<'a>,
    found: &mut Vec<(KeyPaths<'a>, Value<'a>)>,
) -> Result<(), Error>
    ensures leaf { (form : Form) (t : Tree) → IsContent (number_reader form) t (kind_number kind) content.now
        → MatchResult result (λ _. AppendsLeaf (IsValueOf t) path.entry found.old.items found.new.items) IsOutOfMemory }
    ensures errors { IfErr result (IsDecodingError or OutOfMemory) }
{
    let value = (StoredEntry { kind, content }).to_value(alloc)?;
    push_part(path, value, found)
}

impl<'a> LeafOutput<'a> for Value<'a> {
    ghost use Rattle.std.specs.Prelude.{⊤};
    ghost use Rattle.jsonb_doc.specs.Answer.{IsOutOfMemory, ◌or◌, IsDecodingError};
    ghost use Rattle.jsonb_doc.specs.declared.error.Error.TheVariants.{OutOfMemory};
    ghost use Rattle.jsonb_raw.specs.Private.LeafSteps.{IsValueOf};

    ghost IsOf = { λ form t value. IsValueOf t value };

    ghost IsRefusalOf = { λ form t e. IsOutOfMemory e };

    ghost Refusals = { IsDecodingError or OutOfMemory };

    ghost IsReadable = { λ value. ⊤ };

    // Strings, null and containers are known by their types.
    #[inline(always)]
    fn push_leaf(
        alloc: Global,
        entry: &StoredEntry<'a>,
        path: KeyPaths<'a>,
        found: &mut Vec<(KeyPaths<'a>, Value<'a>)>,
    ) -> Result<(), Error> {
        match entry.kind {
            EntryKind::Text => push_text(entry.content, path, found),
            EntryKind::Null if entry.content.is_empty() => push_part(path, Value::Null, found),
            EntryKind::Container => push_item(alloc, entry.kind, entry.content, path, found),
            _ => push_value(alloc, entry.kind, entry.content, path, found),
        }
    }
}

/// Returns the leaves of an item. The enclosing containers are in a `Vec`, with the steps within them, which are copied
/// for each leaf.
fn leaves_within<'a, P: LeafOutput<'a>>(
    alloc: Global,
    item: &Item<'a>,
    ignore_array: bool,
) -> Result<Vec<(KeyPaths<'a>, P)>, Error>
    ensures leaves { (form : Form) (t : Tree) → StandsFor form item.now t
        → MatchResult result (λ found. AllZip (IsKept (P.IsOf form)) found.items (leaves ignore_array t))
        (λ e. IsOutOfMemory e ⊎ Any (λ leaf. P.IsRefusalOf form leaf.1 e) (leaves ignore_array t)) }
    ensures whole { IfOk result (λ found. All (λ leaf. P.IsReadable leaf.1) found.items) }
    ensures errors { IfErr result (λ e. (IsDecodingError or OutOfMemory) e ⊎ P.Refusals e) }
{
    let Some(first) = parts_entered(item, ignore_array)? else {
        return Ok(Vec::new(alloc));
    };
    // Each child is a leaf or contains one.
    let mut found = Vec::with_capacity(alloc, first.len().max(FIRST_ROOM))?;
    let mut level = first;
    // An array that decodes has fewer elements than an index can count.
    let mut index = 0u32;
    let mut around = Vec::new(alloc);
    'walk: loop {
        match level.take()? {
            Some((name, part)) => {
                let key = name_of(name)?;
                let step = Step { key, index };
                match entry_entered(&part, ignore_array)? {
                    Some(inner) => {
                        push_enclosing(&mut around, level, step)?;
                        level = inner;
                        index = 0;
                    }
                    None => {
                        let path = path_to(alloc, &around, step)?;
                        P::push_leaf(alloc, &part, path, &mut found)?;
                        index = index.wrapping_add(1);
                    }
                }
            }
            None => match around.pop() {
                Some(outer) => {
                    level = outer.level;
                    index = outer.step.index.wrapping_add(1);
                }
                None => return Ok(found),
            },
        }
    }
}

impl<'a> RawJsonb<'a> {
    /// Returns the leaves of the document in stored order, each with its key path: an index for an element, a name for
    /// a key.
    ///
    /// A leaf is a scalar or an empty container, and with `ignore_array` every array; the other containers are entered.
    /// The root itself is never a leaf, and with `ignore_array` an array root has no leaves. Names and strings are
    /// borrowed from the document.
    ///
    /// # Errors
    ///
    /// Allocation errors.
    ///
    /// # Complexity
    ///
    /// O(n), and the length of its key path for each leaf. Allocates.
    ///
    /// # Examples
    ///
    /// ```rust crates/jsonb_examples/src/calls.rt
    /// for (path, leaf) in document.extract_scalar_key_values(alloc, false)? {
    ///     if leaf == *value {
    ///         paths.push(path)?;
    ///     }
    /// }
    /// ```
    pub fn extract_scalar_key_values(
        &self,
        alloc: Global,
        ignore_array: bool,
    ) -> Result<Vec<(KeyPaths<'a>, Value<'a>)>, Error>
        ensures leaves { (form : Form) (t : Tree) → Decodes form (raw_bytes self.now) t
            → MatchResult result (λ found. map (λ leaf. (key_paths_view leaf.0, value_tree leaf.1)) found.items
            ≡ leaves ignore_array t) IsOutOfMemory }

        // The numbers of the values keep their variants and scales.
        ensures parts { (form : Form) (t : Tree) → Decodes form (raw_bytes self.now) t
            → IfOk result (λ found. map (λ leaf. (key_paths_view leaf.0, value_parts leaf.1)) found.items
            ≡ leaves ignore_array t) }
        ensures errors { IfErr result (IsDecodingError or OutOfMemory) }
        ensures reads { OnOk result (HasRoot (raw_bytes self.now)) }
    {
        leaves_within(alloc, &root_item(self.as_bytes())?, ignore_array)
    }
}
