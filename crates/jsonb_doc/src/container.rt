//! Documents and containers, cut by their headers into entry words and contents.

ghost use Rattle.std.specs.Prelude.{◌≡◌, ◌≤◌, ℕ, ◌*◌, ◌+◌, List, length, IfOk, MatchOption, MatchResult};
ghost use Rattle.jsonb_doc.specs.Tree.{Tree};
ghost use Rattle.jsonb_doc.specs.Payload.{NumberReader};
ghost use Rattle.jsonb_doc.specs.Format.{HeadedBy, IsDocument, scalar_header};
ghost use Rattle.jsonb_doc.specs.Kinds.{kind_number};
ghost use Rattle.jsonb_doc.specs.Private.Containers.{container_words, container_room, IsLoneEntry, IsCut};

use crate::cursor::{Entries, PairEntries};
use crate::entry_iter::StoredEntry;
use crate::error::Error;
use crate::key_search::find_key;
use crate::layout::{Entry, EntryKind, HeaderKind, WORD, split_header, split_scalar};
use crate::lengths::{entry_at_offset, skip_contents};

/// The entry words of an array, and their contents.
#[derive(Clone, Copy)]
pub struct ArrayParts<'a> {
    /// The entry words of the elements.
    pub words: &'a [u8],
    /// The contents of the elements, one after the other.
    pub contents: &'a [u8],
}

/// The entry words of an object's keys and of its values, and their contents, the keys before the values.
#[derive(Clone, Copy)]
pub struct ObjectParts<'a> {
    /// The entry words of the keys.
    pub key_words: &'a [u8],
    /// The entry words of the values.
    pub value_words: &'a [u8],
    /// The keys, one after the other, and then the contents of the values.
    pub contents: &'a [u8],
}

impl<'a> ObjectParts<'a> {
    ghost use Rattle.std.specs.Prelude.{◌≡◌, ◌+◌, ◌^◌, ◌<◌, ◌≤◌, List, ◌++◌, ℕ, length, IfErr, IfOk, IfSome, IsOkAnd};
    ghost use Rattle.jsonb_doc.specs.Tree.{Pairs};
    ghost use Rattle.jsonb_doc.specs.Payload.{NumberReader, Form, number_reader};
    ghost use Rattle.jsonb_doc.specs.Private.Containers.{HasPairParts};
    ghost use Rattle.jsonb_doc.specs.Private.Fields.{FindsValue};
    ghost use Rattle.jsonb_doc.specs.Private.Lengths.{StandBefore};
    ghost use Rattle.jsonb_doc.specs.Private.Stored.{HasPairEntriesLeft};
    ghost use Rattle.jsonb_doc.specs.Answer.{IsDecodingError};

    /// Returns the contents of the values, which follow those of the keys.
    ///
    /// # Errors
    ///
    /// `InvalidJsonb` or `UnsupportedNumber`, only if the keys are longer than the bytes.
    ///
    /// # Complexity
    ///
    /// O(k) for k keys. Does not allocate.
    pub fn value_contents(&self) -> Result<&'a [u8], Error>
        requires { length self.now.key_words.now < 2 ^ 32 }
        ensures contents { (parts : List (List ℕ)) (rest : List ℕ)
            → StandBefore parts self.now.key_words.now self.now.contents.now rest → IsOkAnd result (λ r. r.now ≡ rest) }
        ensures end { IfOk result (λ r. (front : List ℕ) × (self.now.contents.now ≡ front ++ r.now)) }
        ensures size { IfOk result (λ r. length r.now ≤ length self.now.contents.now) }
        ensures errors { IfErr result IsDecodingError }
    {
        match skip_contents(self.key_words, self.contents) {
            Some(contents) => Ok(contents),
            None => Err(Error::InvalidJsonb),
        }
    }

    /// Returns the entries of the members.
    ///
    /// # Errors
    ///
    /// `InvalidJsonb` or `UnsupportedNumber`, only if the keys are longer than the bytes.
    ///
    /// # Complexity
    ///
    /// O(k) for k keys. Does not allocate.
    #[inline(always)]
    pub fn entries(&self) -> Result<PairEntries<'a>, Error>
        requires keys { length self.now.key_words.now < 2 ^ 32 }
        requires values { length self.now.value_words.now < 2 ^ 32 }
        ensures entries { (form : Form) (ps : Pairs) → HasPairParts (number_reader form) ps self.now
            → IsOkAnd result (λ pairs. HasPairEntriesLeft form pairs ps) }
        ensures words { IfOk result (λ pairs. pairs.values.words.now ≡ self.now.value_words.now) }
        ensures size { IfOk result (λ pairs. length pairs.keys.contents.now + length pairs.values.contents.now
            ≤ length self.now.contents.now) }
        ensures errors { IfErr result IsDecodingError }
    {
        let values = self.value_contents()?;
        let (keys, _) = self.contents.split_at(self.contents.len() - values.len());
        Ok(PairEntries {
            keys: Entries {
                words: self.key_words,
                contents: keys,
            },
            values: Entries {
                words: self.value_words,
                contents: values,
            },
        })
    }

    /// Returns the entry of the value of a key, and the entries after it, or `None` if there is no such key.
    ///
    /// # Errors
    ///
    /// `InvalidJsonb`, only if the keys or the values are longer than the bytes, or the keys are not sorted.
    ///
    /// # Complexity
    ///
    /// O(k) for k keys. Does not allocate.
    #[inline(always)]
    pub fn value_of(&self, name: &[u8]) -> Result<Option<Entry<'a, 'a>>, Error>
        requires short { length self.now.key_words.now < 2 ^ 32 }
        requires paired { length self.now.value_words.now ≡ length self.now.key_words.now }
        ensures value { (number_at : NumberReader) (ps : Pairs) → HasPairParts number_at ps self.now
            → IsOkAnd result (FindsValue number_at name.now ps self.now) }
        ensures size { IfOk result (λ found. IfSome found
            (λ e. length e.content.now + length e.other_contents.now ≤ length self.now.contents.now)) }
        ensures errors { IfErr result IsDecodingError }
    {
        let found = find_key(self.key_words, self.contents, name)?;
        let Some((words_behind, bytes_behind)) = found else {
            return Ok(None);
        };
        let passed = self.key_words.len() - words_behind.len() - WORD;
        let Some(values) = skip_contents(words_behind, bytes_behind) else {
            return Err(Error::InvalidJsonb);
        };
        match entry_at_offset(self.value_words, passed, values) {
            Some(value) => Ok(Some(value)),
            None => Err(Error::InvalidJsonb),
        }
    }
}

/// A document or a container, cut by its header.
#[derive(Clone, Copy)]
pub enum Container<'a> {
    /// The one entry of a scalar root.
    Scalar(StoredEntry<'a>),
    /// An array.
    Array(ArrayParts<'a>),
    /// An object.
    Object(ObjectParts<'a>),
}

/// Splits a document or a container into its parts.
///
/// # Errors
///
/// `InvalidJsonb` for bytes that do not begin with a header and its entry words.
///
/// # Complexity
///
/// O(1). Does not allocate.
#[inline(always)]
#[tactic(auto, using(crate::proofs::Sets::one_header))]
pub fn read_container(bytes: &[u8]) -> Result<Container<'_>, Error>
    ensures cut { MatchResult result (IsCut bytes.now)
        (λ e. (e ≡ Error.InvalidJsonb)
        × ((number_at : NumberReader) (t : Tree) → IsDocument number_at t bytes.now → ⊥)) }
    ensures bound { (kind entries : ℕ) (rest : List ℕ) → HeadedBy bytes.now kind entries rest
        → IfOk result (λ found. container_words found ≡ 4 * entries) }
    ensures room { IfOk result (λ found. 4 + container_room found ≤ length bytes.now) }
{
    if let Some(entry) = lone_entry(bytes) {
        return Ok(Container::Scalar(entry));
    }
    let Some((kind, entries, rest)) = split_header(bytes) else {
        return Err(Error::InvalidJsonb);
    };
    let len = WORD * entries;
    match kind {
        HeaderKind::Array if len <= rest.len() => {
            let (words, contents) = rest.split_at(len);
            Ok(Container::Array(ArrayParts { words, contents }))
        }
        HeaderKind::Object if 2 * len <= rest.len() => {
            let (words, contents) = rest.split_at(2 * len);
            let (key_words, value_words) = words.split_at(len);
            Ok(Container::Object(ObjectParts {
                key_words,
                value_words,
                contents,
            }))
        }
        _ => Err(Error::InvalidJsonb),
    }
}

/// Returns the entry of a scalar root, or `None` if the bytes are not a scalar root.
#[inline(always)]
fn lone_entry(bytes: &[u8]) -> Option<StoredEntry<'_>>
    ensures { MatchOption result
        ((kind : ℕ) (words content : List ℕ) → HeadedBy bytes.now scalar_header 0 words
        → IsLoneEntry words kind content → ⊥)
        (λ e. (words : List ℕ) × HeadedBy bytes.now scalar_header 0 words
        × IsLoneEntry words (kind_number e.kind) e.content.now) }
{
    match split_scalar(bytes)? {
        (EntryKind::Container, _) => None,
        (kind, content) => Some(StoredEntry { kind, content }),
    }
}
