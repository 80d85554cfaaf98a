//! Existence of names: keys of an object, strings in an array, or the string that is the root.

ghost use Rattle.std.specs.Prelude.{◌≡◌, ◌++◌, ◌∷◌, ℕ, List, true, false, IsTrue, IsOkAnd, IfOk, IfErr, IfSome, OnOk};
ghost use Rattle.std.specs.List.{list_any};
ghost use Rattle.std.specs.Iterator.{IsFinite};
ghost use Rattle.std.specs.Str.{bytes_eq};
ghost use Rattle.jsonb_doc.specs.Tree.{Tree, Trees, Pairs, array, object, keys as key_list};
ghost use Rattle.jsonb_doc.specs.Payload.{Form};
ghost use Rattle.jsonb_doc.specs.Format.{Decodes, AreKeys};
ghost use Rattle.jsonb_doc.specs.Private.Stored.{HasEntriesLeft, key_trees};
ghost use Rattle.jsonb_doc.specs.Answer.{IsDecodingError};
ghost use Rattle.jsonb_raw.specs.AnyBytes.Roots.{HasRoot};
ghost use Rattle.jsonb_raw.specs.Computes.{Computes};
ghost use Rattle.jsonb_raw.specs.Documents.{raw_bytes};
ghost use Rattle.jsonb_raw.specs.Exists.{has_all, has_any};
ghost use Rattle.jsonb_raw.specs.Private.Cursors.{IsCursorOf, IsWithinAll, IsTableOf, IsPassed, HoldsRoot, HoldsTexts, has_by, is_root};
ghost use Rattle.jsonb_raw.specs.Private.NameBlocks.{AreStrings};
ghost use Rattle.jsonb_raw.specs.Iterators.{YieldsItemsLeft};

use super::exists_blocks::blocks_decide;
use super::exists_in::Strings;
use super::name_block::entries_have;
use crate::entry_start::EntryStart;
use crate::raw::RawJsonb;
use jsonb_doc::cursor::Entries;
use jsonb_doc::{Error, Shape, array_entries, bytes_cmp, is_utf8, object_entries, root_shape};
use std::alloc::Global;
use std::cmp::Ordering;

/// A position among the keys of an object: all of them, and those that remain after the last one visited.
///
/// Entry words hold lengths and no offsets, so a key is reached only along those before it. A name greater than the
/// key visited last is searched from there.
#[derive(Clone, Copy)]
pub(crate) struct KeyCursor<'a> {
    all: Entries<'a>,
    left: Entries<'a>,
    last_key: Option<&'a [u8]>,
}

impl<'a> KeyCursor<'a> {
    fn new(keys: Entries<'a>) -> KeyCursor<'a>
        ensures cursor { (form : Form) (ks : List (List ℕ)) → AreKeys ks
            → HasEntriesLeft form keys.entry (key_trees ks) → IsCursorOf form result ks }
        ensures passed { (name : List ℕ) → IsPassed result.last_key name }
        ensures all { result.all ≡ keys.entry }
        ensures left { result.left ≡ keys.entry }
    {
        KeyCursor {
            all: keys,
            left: keys,
            last_key: None,
        }
    }

    /// Returns `true` if the key visited last, if there is one, is less than the name.
    fn is_below(&self, name: &[u8]) -> bool
        ensures { IsTrue result → IsPassed self.now.last_key name.now }
    {
        let Some(last_key) = self.last_key else {
            return true;
        };
        if let Ordering::Less = bytes_cmp(last_key, name) {
            return true;
        }
        false
    }

    /// Moves before the first key.
    fn rewind_to_front(&mut self)
        ensures cursor { (form : Form) (ks : List (List ℕ)) → IsCursorOf form self.old ks
            → IsCursorOf form self.new ks }
        ensures passed { (name : List ℕ) → IsPassed self.new.last_key name }
    {
        self.left = self.all;
        self.last_key = None;
    }

    /// Moves before the first key, unless the key visited last is less than the name. Returns `true` if it moved.
    fn rewind(&mut self, name: &[u8]) -> bool
        ensures cursor { (form : Form) (ks : List (List ℕ)) → IsCursorOf form self.old ks
            → IsCursorOf form self.new ks }
        ensures passed { IsPassed self.new.last_key name.now }
    {
        if !self.is_below(name) {
            self.rewind_to_front();
            return true;
        }
        false
    }

    /// Returns whether a key equals the name, which is greater than the key visited last.
    fn search(&mut self, name: &[u8]) -> Result<bool, Error>
        requires { IsPassed self.old.last_key name.now }
        ensures has { (form : Form) (ks : List (List ℕ)) → IsCursorOf form self.old ks
            → IsOkAnd result (λ b. b ≡ list_any (λ key. bytes_eq key name.now) ks) }
        ensures cursor { (form : Form) (ks : List (List ℕ)) → IsCursorOf form self.old ks
            → IfOk result (λ _. IsCursorOf form self.new ks) }
        ensures errors { IfErr result IsDecodingError }
    {
        let mut ahead = self.left;
        while let Some(entry) = ahead.next() {
            let key = entry?.content;
            match bytes_cmp(key, name) {
                Ordering::Less => {}
                Ordering::Equal => return Ok(true),
                Ordering::Greater => return Ok(false),
            }
            self.left = ahead;
            self.last_key = Some(key);
        }
        Ok(false)
    }

    /// Moves past this many keys. Returns `false` if fewer remain.
    fn skip(&mut self, count: usize) -> bool
        ensures cursor { (form : Form) (ks : List (List ℕ)) → IsCursorOf form self.old ks
            → IsCursorOf form self.new ks }
        ensures within { IsWithinAll self.old → IsWithinAll self.new }
        ensures all { self.new.all ≡ self.old.all }
    {
        let mut ahead = self.left;
        'keys: for _ in 0..count {
            let Some(Ok(entry)) = ahead.next() else {
                return false;
            };
            self.left = ahead;
            self.last_key = Some(entry.content);
        }
        true
    }
}

/// The number of blocks in a table.
const BLOCKS: usize = 512;

/// A search for many names in any order among the keys of an object. The keys are divided into blocks, at most as many
/// as the table has places. Where each begins is stored once a name is not greater than the key visited last. From then
/// on a name is searched in its block only.
#[derive(Clone, Copy)]
pub(crate) struct KeyTable<'a> {
    all: Entries<'a>,
    /// The cursor at which the last search ended.
    near: KeyCursor<'a>,
    /// Where the blocks begin. Those that are not stored begin at the first key.
    starts: [EntryStart; BLOCKS],
    /// The number of starts that are stored.
    known: usize,
}

impl<'a> KeyTable<'a> {
    fn new(keys: Entries<'a>) -> KeyTable<'a>
        ensures { (form : Form) (ks : List (List ℕ)) → AreKeys ks → HasEntriesLeft form keys.entry (key_trees ks)
            → IsTableOf form result ks }
    {
        KeyTable {
            all: keys,
            near: KeyCursor::new(keys),
            starts: [EntryStart::FRONT; BLOCKS],
            known: 0,
        }
    }

    /// Stores where each block begins.
    fn fill(&mut self)
        ensures { (form : Form) (ks : List (List ℕ)) → IsTableOf form self.old ks → IsTableOf form self.new ks }
    {
        let stride = self.all.len() / BLOCKS + 1;
        let mut cursor = KeyCursor::new(self.all);
        for block in 0..BLOCKS {
            let Some(start) = EntryStart::of(&cursor.all, &cursor.left) else {
                return;
            };
            self.starts[block] = start;
            self.known = block + 1;
            if !cursor.skip(stride) {
                return;
            }
        }
    }

    /// Returns the cursor after the first key of a block, or `None` if it cannot be read.
    #[inline(always)]
    fn block_cursor(&self, block: usize) -> Option<KeyCursor<'a>>
        ensures { (form : Form) (ks : List (List ℕ)) → IsTableOf form self.now ks
            → IfSome result (λ cursor. IsCursorOf form cursor ks) }
    {
        let start = self.starts.get(block)?;
        let mut left = start.entries(&self.all)?;
        let Some(Ok(entry)) = left.next() else {
            return None;
        };
        Some(KeyCursor {
            all: self.all,
            left,
            last_key: Some(entry.content),
        })
    }

    /// Returns the number of blocks whose first keys are less than the name.
    fn blocks_below(&self, name: &[u8]) -> usize {
        let mut low = 0;
        let mut high = self.known.min(BLOCKS);
        while low < high {
            let middle = low + (high - low) / 2;
            match self.block_cursor(middle) {
                Some(cursor) if cursor.is_below(name) => low = middle + 1,
                _ => high = middle,
            }
        }
        low
    }

    /// Returns the cursor after the first key of the last block whose first key is less than the name, or that before
    /// the first key.
    fn nearest(&self, name: &[u8]) -> KeyCursor<'a>
        ensures cursor { (form : Form) (ks : List (List ℕ)) → IsTableOf form self.now ks
            → IsCursorOf form result ks }
        ensures passed { IsPassed result.last_key name.now }
    {
        if let Some(block) = self.blocks_below(name).checked_sub(1) {
            if let Some(cursor) = self.block_cursor(block) {
                if cursor.is_below(name) {
                    return cursor;
                }
            }
        }
        KeyCursor::new(self.all)
    }

    /// Moves to where the search for the name begins.
    fn seek(&mut self, name: &[u8])
        ensures table { (form : Form) (ks : List (List ℕ)) → IsTableOf form self.old ks
            → IsTableOf form self.new ks }
        ensures passed { IsPassed self.new.near.last_key name.now }
    {
        if self.known == 0 {
            if self.near.is_below(name) {
                return;
            }
            self.fill();
        }
        self.near = self.nearest(name);
    }

    /// Returns the number of keys after the cursor at which the last search ended.
    fn left(&self) -> usize {
        self.near.left.len()
    }

    /// Returns whether a key equals the name.
    fn has(&mut self, name: &[u8]) -> Result<bool, Error>
        ensures has { (form : Form) (ks : List (List ℕ)) → IsTableOf form self.old ks
            → IsOkAnd result (λ b. b ≡ list_any (λ key. bytes_eq key name.now) ks) }
        ensures table { (form : Form) (ks : List (List ℕ)) → IsTableOf form self.old ks
            → IfOk result (λ _. IsTableOf form self.new ks) }
        ensures errors { IfErr result IsDecodingError }
    {
        self.seek(name);
        self.near.search(name)
    }
}

/// Returns whether a key equals the name. Counts the names from the first that is not sorted: the cursors find sorted
/// names in one traversal.
fn key_exists<'a>(
    strings: &mut Strings<'a>,
    table: &mut KeyTable<'a>,
    name: &[u8],
) -> Result<bool, Error>
    ensures has { (form : Form) (ks : List (List ℕ)) → AreStrings form strings.old ks → IsTableOf form table.old ks
        → IsOkAnd result (λ b. b ≡ list_any (λ key. bytes_eq key name.now) ks) }
    ensures table { (form : Form) (ks : List (List ℕ)) → IsTableOf form table.old ks
        → IfOk result (λ _. IsTableOf form table.new ks) }
    ensures strings { (form : Form) (ks : List (List ℕ)) → AreStrings form strings.old ks
        → IfOk result (λ _. AreStrings form strings.new ks) }
    ensures errors { IfErr result IsDecodingError }
{
    if let Some(has) = strings.has(name) {
        return Ok(has);
    }
    let before = table.left();
    let has = table.has(name)?;
    if strings.is_counting() || table.left() > before {
        strings.count_name();
    }
    Ok(has)
}

/// Returns whether the keys of an object include any (`found`) or all of the names, the first one and those after it,
/// by a table of the keys.
#[inline(never)]
fn unsorted_decide<'k, I: Iterator<Item = &'k str> + Drop>(
    alloc: Option<Global>,
    keys: Entries<'_>,
    first: &str,
    names: I,
    found: bool,
) -> Result<bool, Error>
    requires can { I.can_next names }
    requires ends { IsFinite (I.remaining names) }
    ensures has { (left : I → List (List ℕ)) → YieldsItemsLeft I.next_gives left
        → (form : Form) (ps : Pairs) → AreKeys (key_list ps) → HasEntriesLeft form keys.entry (key_trees (key_list ps))
        → IsOkAnd result (λ b. b ≡ has_by found (first.now ∷ left names) (object ps)) }
    ensures errors { IfErr result IsDecodingError }
{
    let mut strings = Strings::new(alloc, keys);
    let mut table = KeyTable::new(keys);
    table.fill();
    let has_first = key_exists(&mut strings, &mut table, first.as_bytes())?;
    if has_first == found {
        return Ok(found);
    }
    for name in names {
        let has = key_exists(&mut strings, &mut table, name.as_bytes())?;
        if has == found {
            return Ok(found);
        }
    }
    Ok(!found)
}

/// The number of keys up to which no table is made. A table has 4 KB, more than a search among so few keys reads.
const FEW_KEYS: usize = 32;

/// Returns whether the keys of an object include any (`found`) or all of the names, as `short_circuit` does. If the
/// keys are many, the first name that is not sorted and those after it are searched by a table.
#[inline(never)]
fn keys_decide<'k, I: Iterator<Item = &'k str> + Drop>(
    alloc: Option<Global>,
    keys: Entries<'_>,
    names: I,
    found: bool,
) -> Result<bool, Error>
    requires can { I.can_next names }
    requires ends { IsFinite (I.remaining names) }
    ensures has { (left : I → List (List ℕ)) → YieldsItemsLeft I.next_gives left
        → (form : Form) (ps : Pairs) → AreKeys (key_list ps) → HasEntriesLeft form keys.entry (key_trees (key_list ps))
        → IsOkAnd result (λ b. b ≡ has_by found (left names) (object ps)) }
    ensures errors { IfErr result IsDecodingError }
{
    let mut cursor = KeyCursor::new(keys);
    let mut rest = names;
    while let Some(name) = rest.next() {
        let went_back = cursor.rewind(name.as_bytes());
        if went_back && keys.len() > FEW_KEYS {
            return unsorted_decide(alloc, keys, name, rest, found);
        }
        let has = cursor.search(name.as_bytes())?;
        if has == found {
            return Ok(found);
        }
    }
    Ok(!found)
}

/// The number of elements up to which the names are not gathered in blocks.
const FEW_ELEMENTS: usize = 8;

/// Returns whether the strings of an array include any (`found`) or all of the names, as `short_circuit` does.
#[inline(never)]
fn elements_decide<'k, I: Iterator<Item = &'k str> + Drop>(
    alloc: Option<Global>,
    entries: Entries<'_>,
    names: I,
    found: bool,
) -> Result<bool, Error>
    requires can { I.can_next names }
    requires ends { IsFinite (I.remaining names) }
    ensures has { (left : I → List (List ℕ)) → YieldsItemsLeft I.next_gives left
        → (form : Form) (ts : Trees) → HasEntriesLeft form entries.entry ts
        → IsOkAnd result (λ b. b ≡ has_by found (left names) (array ts)) }
    ensures errors { IfErr result IsDecodingError }
{
    if entries.len() > FEW_ELEMENTS {
        return blocks_decide(alloc, entries, names, found);
    }
    for name in names {
        let has = entries_have(entries, name.as_bytes())?;
        if has == found {
            return Ok(found);
        }
    }
    Ok(!found)
}

/// The strings of a document.
#[derive(Clone, Copy)]
pub(crate) enum Texts<'a> {
    /// The keys of an object.
    Keys(Entries<'a>),
    /// The strings among the elements of an array.
    Elements(Entries<'a>),
    /// The root, if it is a string.
    Root(Option<&'a [u8]>),
}

/// Returns the strings of a document.
fn document_texts(bytes: &[u8]) -> Result<Texts<'_>, Error>
    ensures texts { (form : Form) (t : Tree) → Decodes form bytes.now t
        → IsOkAnd result (λ texts. HoldsTexts form texts t) }
    ensures errors { IfErr result IsDecodingError }
    ensures reads { OnOk result (HasRoot bytes.now) }
{
    match root_shape(bytes)? {
        Shape::Object => Ok(Texts::Keys(object_entries(bytes)?.keys)),
        Shape::Array => Ok(Texts::Elements(array_entries(bytes)?)),
        Shape::Text(text) if is_utf8(text) => Ok(Texts::Root(Some(text))),
        Shape::Text(_) => Err(Error::InvalidJsonb),
        _ => Ok(Texts::Root(None)),
    }
}

/// Returns whether the root, if it is a string, is the name.
fn is_root(root: Option<&[u8]>, name: &[u8]) -> bool
    ensures { result ≡ is_root root.entry name.now }
{
    match root {
        Some(text) => text == name,
        None => false,
    }
}

/// Returns whether the root, if it is a string, is any (`found`) or all of the names.
fn root_decides<'k, I: Iterator<Item = &'k str> + Drop>(
    root: Option<&[u8]>,
    names: I,
    found: bool,
) -> bool
    requires can { I.can_next names }
    requires ends { IsFinite (I.remaining names) }
    ensures { (left : I → List (List ℕ)) → YieldsItemsLeft I.next_gives left
        → (t : Tree) → HoldsRoot root.entry t → result ≡ has_by found (left names) t }
{
    for name in names {
        let has = is_root(root, name.as_bytes());
        if has == found {
            return found;
        }
    }
    !found
}

/// Returns whether one of the names exists, if finding one decides, or otherwise each of them does: the first that
/// decides ends the walk. Allocates only if there is an allocator.
fn short_circuit<'k, I: Iterator<Item = &'k str> + Drop>(
    alloc: Option<Global>,
    bytes: &[u8],
    names: I,
    found: bool,
) -> Result<bool, Error>
    requires can { I.can_next names }
    requires ends { IsFinite (I.remaining names) }
    ensures has { (left : I → List (List ℕ)) → YieldsItemsLeft I.next_gives left
        → Computes (has_by found (left names)) bytes.now result }
    ensures errors { IfErr result IsDecodingError }
    ensures reads { OnOk result (HasRoot bytes.now) }
{
    match document_texts(bytes)? {
        Texts::Keys(keys) => keys_decide(alloc, keys, names, found),
        Texts::Elements(entries) => elements_decide(alloc, entries, names, found),
        Texts::Root(text) => Ok(root_decides(text, names, found)),
    }
}

impl RawJsonb<'_> {
    /// Returns `true` if the document has all of these names: as keys of an object, as strings in an array, or as a
    /// string that is the root.
    ///
    /// Without names it is true. The iterator must end. Like PostgreSQL's `?&`.
    ///
    /// # Errors
    ///
    /// Decoding errors.
    ///
    /// # Complexity
    ///
    /// Objects: O(k) if the names are sorted, otherwise O(log k + k / 512) per name after O(k), and O(k) per name up to
    /// 32 keys. Arrays: O(n) for each 1,408 names (64 up to 256 elements), and O(n) per name up to 8 elements. Does not
    /// allocate. Many names take a stack of 33 KB.
    ///
    /// # Examples
    ///
    /// <!-- rows: calls: exists_all_keys -->
    /// | Document | Arguments | Result |
    /// |---|---|---|
    /// | `"a"` | no names | true |
    /// | `{"a":null,"b":[null]}` | `b`, `a`, `b` | true |
    /// | `[1,"a"]` | `a` | true |
    /// | `[1,"a"]` | `1` | false |
    pub fn exists_all_keys<'k, I: Iterator<Item = &'k str> + Drop>(
        &self,
        names: I,
    ) -> Result<bool, Error>
        requires can { I.can_next names }
        requires ends { IsFinite (I.remaining names) }
        ensures all { (left : I → List (List ℕ)) → YieldsItemsLeft I.next_gives left
            → Computes (has_all (left names)) (raw_bytes self.now) result }
        ensures errors { IfErr result IsDecodingError }
        ensures reads { OnOk result (HasRoot (raw_bytes self.now)) }
    {
        short_circuit(None, self.as_bytes(), names, false)
    }

    /// Returns `true` if the document has all of these names, as `exists_all_keys` does.
    ///
    /// If an allocation fails, goes on as `exists_all_keys` does, which does not allocate.
    ///
    /// # Errors
    ///
    /// Decoding errors.
    ///
    /// # Complexity
    ///
    /// O(n) and O(log n) per name for an object of n keys or an array of n elements. Allocates if the names are many,
    /// for an object only if they are not sorted. If an allocation fails, that of `exists_all_keys`.
    ///
    /// # Examples
    ///
    /// <!-- rows: calls: exists_all_keys -->
    /// | Document | Arguments | Result |
    /// |---|---|---|
    /// | `"a"` | no names | true |
    /// | `{"a":null,"b":[null]}` | `b`, `a`, `b` | true |
    /// | `[1,"a"]` | `a` | true |
    /// | `[1,"a"]` | `1` | false |
    pub fn exists_all_keys_in<'k, I: Iterator<Item = &'k str> + Drop>(
        &self,
        alloc: Global,
        names: I,
    ) -> Result<bool, Error>
        requires can { I.can_next names }
        requires ends { IsFinite (I.remaining names) }
        ensures all { (left : I → List (List ℕ)) → YieldsItemsLeft I.next_gives left
            → Computes (has_all (left names)) (raw_bytes self.now) result }
        ensures errors { IfErr result IsDecodingError }
        ensures reads { OnOk result (HasRoot (raw_bytes self.now)) }
    {
        short_circuit(Some(alloc), self.as_bytes(), names, false)
    }

    /// Returns `true` if the document has one of these names: as a key of an object, as a string in an array, or as a
    /// string that is the root.
    ///
    /// Without names it is false. The iterator must end. Like PostgreSQL's `?|`, and `?` for one.
    ///
    /// # Errors
    ///
    /// Decoding errors.
    ///
    /// # Complexity
    ///
    /// That of `exists_all_keys`.
    ///
    /// # Examples
    ///
    /// <!-- rows: calls: exists_any_keys -->
    /// | Document | Arguments | Result |
    /// |---|---|---|
    /// | `{"asd":"adf"}` | `asd` | true |
    /// | `"a"` | `a` | true |
    pub fn exists_any_keys<'k, I: Iterator<Item = &'k str> + Drop>(
        &self,
        names: I,
    ) -> Result<bool, Error>
        requires can { I.can_next names }
        requires ends { IsFinite (I.remaining names) }
        ensures any { (left : I → List (List ℕ)) → YieldsItemsLeft I.next_gives left
            → Computes (has_any (left names)) (raw_bytes self.now) result }
        ensures errors { IfErr result IsDecodingError }
        ensures reads { OnOk result (HasRoot (raw_bytes self.now)) }
    {
        short_circuit(None, self.as_bytes(), names, true)
    }

    /// Returns `true` if the document has one of these names, as `exists_any_keys` does.
    ///
    /// If an allocation fails, goes on as `exists_any_keys` does, which does not allocate.
    ///
    /// # Errors
    ///
    /// Decoding errors.
    ///
    /// # Complexity
    ///
    /// That of `exists_all_keys_in`.
    ///
    /// # Examples
    ///
    /// <!-- rows: calls: exists_any_keys -->
    /// | Document | Arguments | Result |
    /// |---|---|---|
    /// | `{"asd":"adf"}` | `asd` | true |
    /// | `"a"` | `a` | true |
    pub fn exists_any_keys_in<'k, I: Iterator<Item = &'k str> + Drop>(
        &self,
        alloc: Global,
        names: I,
    ) -> Result<bool, Error>
        requires can { I.can_next names }
        requires ends { IsFinite (I.remaining names) }
        ensures any { (left : I → List (List ℕ)) → YieldsItemsLeft I.next_gives left
            → Computes (has_any (left names)) (raw_bytes self.now) result }
        ensures errors { IfErr result IsDecodingError }
        ensures reads { OnOk result (HasRoot (raw_bytes self.now)) }
    {
        short_circuit(Some(alloc), self.as_bytes(), names, true)
    }
}

#[cfg(test)]
mod tests;
