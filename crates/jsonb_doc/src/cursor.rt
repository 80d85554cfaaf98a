//! The entries of a container as they are stored, read one by one or split into two runs, and the members of an object.

ghost use Rattle.std.specs.Prelude.{◌≡◌, ◌^◌, ◌<◌, ◌≤◌, ◌-◌, length};

use crate::entry_iter::StoredEntry;
use crate::error::Error;
use crate::key_search::{KeyPosition, find_key, key_position};
use crate::layout::{WORD, split_entry};
use crate::lengths::skip_contents;

/// A run of entries, their words and their contents, and an iterator over them, in stored order.
///
/// Yields each entry and then `None`. It ends after an entry whose end is not known, which is `InvalidJsonb`.
///
/// # Complexity
///
/// A step is O(1). Does not allocate.
#[derive(Clone, Copy)]
pub struct Entries<'a> {
    /// The entry words.
    pub words: &'a [u8],
    /// The contents, one after the other.
    pub contents: &'a [u8],
    ghost short: { length words.now < 2 ^ 32 },
}

impl<'a> Entries<'a> {
    ghost use Rattle.std.specs.Prelude.{◌≡◌, ℕ, List, map, take, drop, length, IsOkAnd, IfOk, IfSome, IfErr, ◌+◌, ◌*◌, ◌^◌, ◌<◌, ◌≤◌};
    ghost use Rattle.jsonb_doc.specs.Tree.{Tree, text, Trees, count};
    ghost use Rattle.jsonb_doc.specs.Payload.{Form};
    ghost use Rattle.jsonb_doc.specs.Format.{AreKeys};
    ghost use Rattle.jsonb_doc.specs.Private.Lengths.{IsFoundAt, IsKeyPosition};
    ghost use Rattle.jsonb_doc.specs.Answer.{IsDecodingError};
    ghost use Rattle.jsonb_doc.specs.Private.Cursor.{HoldTrees, TakesFirst};
    ghost use Rattle.jsonb_doc.specs.Private.Stored.{HasEntriesLeft};

    /// Returns the number of entries.
    ///
    /// # Complexity
    ///
    /// O(1). Does not allocate.
    #[inline(always)]
    #[tactic(auto, using(crate::proofs::Sets::entries_len))]
    pub fn len(&self) -> usize
        ensures count { (form : Form) (ts : List Tree) → HoldTrees form self.now ts → result ≡ length ts }
        ensures left { (form : Form) (ts : Trees) → HasEntriesLeft form self.now ts → result ≡ count ts }
        ensures bound { 4 * result ≤ length self.now.words.now }
    {
        self.words.len() / WORD
    }

    /// Returns the first entry and those after it, or `None` if there is none.
    ///
    /// # Errors
    ///
    /// `InvalidJsonb` only if the words do not begin with an entry word, or there are fewer bytes than it says.
    ///
    /// # Complexity
    ///
    /// O(1). Does not allocate.
    #[inline(always)]
    #[tactic(auto, using(crate::proofs::Sets::entries_first))]
    pub fn first(&self) -> Result<Option<(StoredEntry<'a>, Entries<'a>)>, Error>
        ensures first { (form : Form) (ts : List Tree) → HoldTrees form self.now ts
            → IsOkAnd result (TakesFirst form self.now ts) }
        ensures fewer { IfOk result (λ found. IfSome found
            (λ f. length f.1.words.now + 4 ≤ length self.now.words.now)) }
        ensures room { IfOk result (λ found. IfSome found
            (λ f. length f.0.content.now + length f.1.contents.now ≤ length self.now.contents.now)) }
        ensures short { IfOk result (λ found. IfSome found (λ f. length f.0.content.now < 2 ^ 28)) }
        ensures errors { IfErr result IsDecodingError }
    {
        let mut others = *self;
        match others.next() {
            Some(Ok(entry)) => Ok(Some((entry, others))),
            Some(Err(error)) => Err(error),
            None => Ok(None),
        }
    }

    /// Returns the first `count` entries, or all if there are fewer, and those after them.
    ///
    /// # Errors
    ///
    /// `InvalidJsonb` only if there are fewer bytes than the words of the first entries say.
    ///
    /// # Complexity
    ///
    /// O(`count`), or O(1) if there are no others. Does not allocate.
    #[inline(always)]
    pub fn split(&self, count: usize) -> Result<(Entries<'a>, Entries<'a>), Error>
        ensures split { (form : Form) (ts : List Tree) → HoldTrees form self.now ts
            → IsOkAnd result (λ parts. HoldTrees form parts.0 (take count ts)
            × HoldTrees form parts.1 (drop count ts)) }
        ensures room { IfOk result (λ parts.
            (length parts.0.words.now + length parts.1.words.now ≡ length self.now.words.now)
            × (length parts.0.contents.now + length parts.1.contents.now ≡ length self.now.contents.now)) }
        ensures errors { IfErr result IsDecodingError }
    {
        let len = self.len();
        if count >= len {
            let none = Entries {
                words: &[],
                contents: &[],
            };
            return Ok((*self, none));
        }
        let (words, other_words) = self.words.split_at(WORD * count);
        let Some(other_contents) = skip_contents(words, self.contents) else {
            return Err(Error::InvalidJsonb);
        };
        let (contents, _) = self
            .contents
            .split_at(self.contents.len() - other_contents.len());
        let front = Entries { words, contents };
        let back = Entries {
            words: other_words,
            contents: other_contents,
        };
        Ok((front, back))
    }

    /// Returns the position of the key that is this name among the entries, which are sorted keys, or `None` if there
    /// is no such key.
    ///
    /// # Errors
    ///
    /// `InvalidJsonb` only if there are fewer bytes than the words say, or the entries are not sorted keys.
    ///
    /// # Complexity
    ///
    /// O(k) for k keys, of which few are compared. Does not allocate.
    pub fn find_key(&self, name: &[u8]) -> Result<Option<usize>, Error>
        ensures position { (form : Form) (ks : List (List ℕ)) → HoldTrees form self.now (map text ks) → AreKeys ks
            → IsOkAnd result (IsFoundAt name.now ks) }
        ensures errors { IfErr result IsDecodingError }
    {
        match find_key(self.words, self.contents, name)? {
            Some((others, _)) => Ok(Some((self.words.len() - others.len()) / WORD - 1)),
            None => Ok(None),
        }
    }

    /// Returns the position of a name among the entries, which are sorted keys, or that at which it would be inserted.
    ///
    /// # Errors
    ///
    /// `InvalidJsonb` only if there are fewer bytes than the words say, or the entries are not sorted keys.
    ///
    /// # Complexity
    ///
    /// O(k) for k keys, of which few are compared. Does not allocate.
    #[tactic(auto, using(crate::proofs::PairsLemmas::keys_held))]
    pub fn key_position(&self, name: &[u8]) -> Result<KeyPosition, Error>
        ensures position { (form : Form) (ks : List (List ℕ)) → HoldTrees form self.now (map text ks) → AreKeys ks
            → IsOkAnd result (IsKeyPosition name.now ks) }
        ensures errors { IfErr result IsDecodingError }
    {
        key_position(self.words, self.contents, name)
    }
}

impl<'a> Iterator for Entries<'a> {
    ghost use Rattle.std.specs.Iterator.{at_most};
    ghost use Rattle.jsonb_doc.specs.Private.Stored.{GivesEntry, entries_bound};

    type Item = Result<StoredEntry<'a>, Error>;

    ghost next_gives = { GivesEntry };

    ghost remaining = { λ it. at_most (entries_bound it) };

    #[inline(always)]
    fn next(&mut self) -> Option<Result<StoredEntry<'a>, Error>> {
        let Some(entry) = split_entry(self.words, self.contents) else {
            if self.words.is_empty() {
                return None;
            }
            self.words = &[];
            return Some(Err(Error::InvalidJsonb));
        };
        self.words = entry.other_words;
        self.contents = entry.other_contents;
        Some(Ok(StoredEntry {
            kind: entry.kind,
            content: entry.content,
        }))
    }
}

/// Members of an object, the entries of their keys and those of their values, and an iterator over them, in stored
/// order: the bytes of each key, and the entry of its value.
///
/// Yields each member and then `None`. It ends after a member whose end is not known, which is `InvalidJsonb`.
///
/// # Complexity
///
/// A step is O(1). Does not allocate.
#[derive(Clone, Copy)]
pub struct PairEntries<'a> {
    /// The entries of the keys, which are strings.
    pub keys: Entries<'a>,
    /// The entries of the values.
    pub values: Entries<'a>,
}

impl<'a> Iterator for PairEntries<'a> {
    ghost use Rattle.std.specs.Iterator.{at_most};
    ghost use Rattle.jsonb_doc.specs.Private.Stored.{GivesPairEntry, entries_bound};

    type Item = Result<(&'a [u8], StoredEntry<'a>), Error>;

    ghost next_gives = { GivesPairEntry };

    ghost remaining = { λ it. at_most (entries_bound it.keys) };

    #[inline(always)]
    fn next(&mut self) -> Option<Result<(&'a [u8], StoredEntry<'a>), Error>> {
        match self.keys.next() {
            None => None,
            Some(Err(error)) => Some(Err(error)),
            Some(Ok(key)) => match self.values.next() {
                None => Some(Err(Error::InvalidJsonb)),
                Some(Err(error)) => Some(Err(error)),
                Some(Ok(value)) => Some(Ok((key.content, value))),
            },
        }
    }
}
