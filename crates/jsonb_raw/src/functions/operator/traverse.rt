//! Calling a closure on the strings of a document.

ghost use Rattle.std.specs.Prelude.{◌≡◌, length, None, IsOkAnd, IfErr, OnOk};
ghost use Rattle.jsonb_doc.specs.Tree.{Tree, Trees, Pairs, array, object};
ghost use Rattle.jsonb_doc.specs.Payload.{Form};
ghost use Rattle.jsonb_doc.specs.Format.{Decodes};
ghost use Rattle.jsonb_doc.specs.Item.{StandsFor};
ghost use Rattle.jsonb_doc.specs.AnyBytes.Items.{item_size};
ghost use Rattle.jsonb_doc.specs.Private.Stored.{Stores};
ghost use Rattle.jsonb_doc.specs.Answer.{IsDecodingError};
ghost use Rattle.jsonb_raw.specs.AnyBytes.Roots.{HasRoot};
ghost use Rattle.jsonb_raw.specs.Documents.{raw_bytes};
ghost use Rattle.jsonb_raw.specs.Texts.{texts, Tells};
ghost use Rattle.jsonb_raw.specs.Private.LargeTexts.{LeavesTexts, ConsumesInput, TellsBut};

use crate::compared::is_container_longer_than;
use crate::raw::RawJsonb;
use jsonb_doc::{Error, Item, StoredEntry, array_entries, object_entries, root_item};

impl RawJsonb<'_> {
    /// Returns `true` if `func` returns `true` for a string of the document or a key of its objects, at any depth.
    ///
    /// `func` must be callable on any bytes, and return.
    ///
    /// Returns `true` only if a call returned `true`, `false` only if a call on each of them returned `false`. The
    /// order and number of the calls are not specified.
    ///
    /// # Errors
    ///
    /// Decoding errors.
    ///
    /// # Complexity
    ///
    /// O(n), and the calls of `func`. Does not allocate itself.
    ///
    /// # Examples
    ///
    /// <!-- rows: calls: traverse_check_string -->
    /// | Document | Arguments | Result |
    /// |---|---|---|
    /// | `{"a":null,"b":[null]}` | `b` | true |
    pub fn traverse_check_string<F: Fn(&[u8]) -> bool + Drop>(&self, func: F) -> Result<bool, Error>
        requires { F.IsAlwaysCallable func }
        ensures told { (form : Form) (tree : Tree) → Decodes form (raw_bytes self.now) tree
            → IsOkAnd result (λ answer. Tells F.Fn func (texts tree) answer) }
        ensures errors { IfErr result IsDecodingError }
        ensures reads { OnOk result (HasRoot (raw_bytes self.now)) }
    {
        any_text_in_item(&root_item(self.as_bytes())?, &func)
    }
}

/// The result of the calls of a closure on the strings of a container.
#[derive(Clone, Copy)]
struct TextSearch<'a> {
    /// One of them returned `true`.
    answer: bool,
    /// The container that was not searched, because it is longer than half of all.
    large: Option<Item<'a>>,
}

impl<'a> TextSearch<'a> {
    /// Returns a result after which no container remains to be searched.
    #[inline(always)]
    fn of(answer: bool) -> TextSearch<'a>
        ensures answer { result.answer ≡ answer }
        ensures all { result.large ≡ None }
    {
        TextSearch {
            answer,
            large: None,
        }
    }
}

/// Returns whether `func` returns `true` for a string of the item.
///
/// This loop enters a child that is longer than half of all, and calls enter the others. So the recursion depth is
/// logarithmic in the length.
#[cycle(texts)]
fn any_text_in_item<F: Fn(&[u8]) -> bool>(item: &Item<'_>, func: &F) -> Result<bool, Error>
    requires { F.IsAlwaysCallable func.now }
    ensures told { (form : Form) (tree : Tree) → StandsFor form item.now tree
        → IsOkAnd result (λ answer. Tells F.Fn func.now (texts tree) answer) }
    ensures errors { IfErr result IsDecodingError }
{
    let mut left = *item;
    loop {
        let told = search_item_but_largest(&left, func)?;
        if told.answer {
            return Ok(true);
        }
        let Some(large) = told.large else {
            return Ok(false);
        };
        left = large;
    }
}

/// Searches an item, except for one container in it.
#[cycle(texts)]
fn search_item_but_largest<'a, F: Fn(&[u8]) -> bool>(
    item: &Item<'a>,
    func: &F,
) -> Result<TextSearch<'a>, Error>
    requires { F.IsAlwaysCallable func.now }
    ensures told { (form : Form) (tree : Tree) → StandsFor form item.now tree
        → IsOkAnd result (λ told. LeavesTexts F.Fn func.now form (texts tree) told.answer told.large) }
    ensures less { ConsumesInput (item_size item.now) result }
{
    match item {
        Item::String(text) => Ok(TextSearch::of(func(text.as_bytes()))),
        Item::Array(bytes) => array_tells(bytes, func),
        Item::Object(bytes) => object_tells(bytes, func),
        _ => Ok(TextSearch::of(false)),
    }
}

/// Searches an entry. A string is not read as an item.
#[cycle(texts)]
#[inline(always)]
fn any_text_in_entry<F: Fn(&[u8]) -> bool>(entry: &StoredEntry<'_>, func: &F) -> Result<bool, Error>
    requires { F.IsAlwaysCallable func.now }
    ensures told { (form : Form) (tree : Tree) → Stores form entry.now tree
        → IsOkAnd result (λ answer. Tells F.Fn func.now (texts tree) answer) }
    ensures errors { IfErr result IsDecodingError }
{
    if entry.is_text() {
        return Ok(func(entry.content));
    }
    if !entry.is_container() {
        return Ok(false);
    }
    any_text_in_item(&entry.item()?, func)
}

/// Searches the elements of an array, except for one container among them.
#[cycle(texts)]
fn array_tells<'a, F: Fn(&[u8]) -> bool>(bytes: &'a [u8], func: &F) -> Result<TextSearch<'a>, Error>
    requires { F.IsAlwaysCallable func.now }
    ensures told { (form : Form) (ts : Trees) → TellsBut F.Fn func.now form (array ts) bytes.now result }
    ensures less { ConsumesInput (length bytes.now) result }
{
    let mut large = None;
    for entry in array_entries(bytes)? {
        let entry = entry?;
        if large.is_none() && is_container_longer_than(&entry, bytes.len() / 2) {
            large = Some(entry.item()?);
        } else if any_text_in_entry(&entry, func)? {
            return Ok(TextSearch::of(true));
        }
    }
    Ok(TextSearch {
        answer: false,
        large,
    })
}

/// Searches the keys and the values of an object.
#[cycle(texts)]
fn object_tells<'a, F: Fn(&[u8]) -> bool>(
    bytes: &'a [u8],
    func: &F,
) -> Result<TextSearch<'a>, Error>
    requires { F.IsAlwaysCallable func.now }
    ensures told { (form : Form) (ps : Pairs) → TellsBut F.Fn func.now form (object ps) bytes.now result }
    ensures less { ConsumesInput (length bytes.now) result }
{
    let mut large = None;
    for pair in object_entries(bytes)? {
        let (key, value) = pair?;
        if func(key) {
            return Ok(TextSearch::of(true));
        }
        if large.is_none() && is_container_longer_than(&value, bytes.len() / 2) {
            large = Some(value.item()?);
        } else if any_text_in_entry(&value, func)? {
            return Ok(TextSearch::of(true));
        }
    }
    Ok(TextSearch {
        answer: false,
        large,
    })
}
