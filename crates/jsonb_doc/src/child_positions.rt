//! The remaining children of a container, as positions in the bytes.

ghost use Rattle.std.specs.Prelude.{◌≡◌, ℕ, ◌+◌, ◌-◌, ◌*◌, ◌^◌, ◌<◌, ◌≤◌, List, ◌∷◌, length, slice_range, IsOkAnd, IfOk, IfErr, MatchOption};
ghost use Rattle.jsonb_doc.specs.Tree.{Tree};
ghost use Rattle.jsonb_doc.specs.Payload.{any};
ghost use Rattle.jsonb_doc.specs.Format.{Decodes};
ghost use Rattle.jsonb_doc.specs.Answer.{IsDecodingError};
ghost use Rattle.jsonb_doc.specs.Representation.Positions.{Locates, AreAt, HasChildrenLeft};
ghost use Rattle.jsonb_doc.specs.ChildPositions.{OpensChildren, TakesChild};
ghost use Rattle.jsonb_doc.specs.Private.Containers.{IsCut};
ghost use Rattle.jsonb_doc.specs.declared.container.Container.TheVariants.{Array, Object};

use crate::container::{ArrayParts, Container, ObjectParts, read_container};
use crate::error::Error;
use crate::layout::{MAX_ENTRIES, WORD};
use crate::spot::Spot;
use crate::spot_iter::SpotIter;

/// The positions of some entries of a container.
#[repr(C)]
#[derive(Clone, Copy, Debug)]
pub struct EntryPositions {
    /// The position of the first entry word.
    pub word: usize,
    /// The position of the first content.
    pub content: usize,
    /// The end of the contents.
    pub end: usize,
}

/// The positions of the remaining children of a container, as `open_children` returns them: numbers, which can be
/// stored anywhere.
///
/// They are valid for the bytes they came from. With other bytes a call returns any result, or fails as for bytes that
/// do not decode.
#[repr(C)]
#[derive(Clone, Copy, Debug)]
pub struct ChildPositions {
    /// How many children remain.
    pub left: usize,
    /// The keys of an object. The `word` of an array is 0.
    pub keys: EntryPositions,
    /// The elements or the values.
    pub values: EntryPositions,
}

/// A child of a container, by its spots or by what they are mapped to.
#[derive(Clone, Copy, Debug)]
pub struct Child<S> {
    /// Its key, if it is the value of a member.
    pub key: Option<S>,
    /// The element or the value.
    pub value: S,
}

impl ChildPositions {
    /// Removes and returns the first child, or returns `None` if none remain.
    ///
    /// If the call fails, the positions are unchanged.
    ///
    /// # Errors
    ///
    /// `InvalidJsonb` or `UnsupportedNumber`, only if the bytes do not decode or the positions are of other bytes.
    ///
    /// # Complexity
    ///
    /// O(1). Does not allocate.
    ///
    /// # Examples
    ///
    /// ```rust crates/jsonb_c/src/cursor.rt
    /// let Some(child) = others.take(document)? else {
    ///     return Ok(None);
    /// };
    /// ```
    pub fn take(&mut self, bytes: &[u8]) -> Result<Option<Child<Spot>>, Error>
        ensures child { (t : Tree) → HasChildrenLeft bytes.now self.old t
            → IsOkAnd result (λ found. TakesChild (Locates bytes.now) bytes.now t found self.new) }
        ensures unchanged { IfErr result (λ _. self.new ≡ self.old) }
        ensures errors { IfErr result IsDecodingError }
    {
        if self.left == 0 {
            return Ok(None);
        }
        let left = self.left;
        let (value, values) = first_entry(bytes, left, self.values)?;
        if self.keys.word == 0 {
            self.left = left - 1;
            self.values = values;
            return Ok(Some(Child { key: None, value }));
        }
        let (key, keys) = first_entry(bytes, left, self.keys)?;
        self.left = left - 1;
        self.keys = keys;
        self.values = values;
        let key = Some(key);
        Ok(Some(Child { key, value }))
    }
}

/// Returns the positions of the children of a document's root, or `None` for a scalar.
///
/// # Errors
///
/// `InvalidJsonb` or `UnsupportedNumber`, only for bytes that do not decode.
///
/// # Complexity
///
/// O(1) for an array, O(k) for an object of k members. Does not allocate.
///
/// # Examples
///
/// ```rust crates/jsonb_doc/src/child_positions/tests.rt
/// let Some(mut at) = open_children(bytes)? else {
///     return Ok(false);
/// };
/// ```
pub fn open_children(bytes: &[u8]) -> Result<Option<ChildPositions>, Error>
    ensures children { (t : Tree) → Decodes any bytes.now t → IsOkAnd result (OpensChildren bytes.now t) }
    ensures errors { IfErr result IsDecodingError }
{
    match read_container(bytes)? {
        Container::Scalar(_) => Ok(None),
        Container::Array(parts) => Ok(Some(element_positions(bytes, parts))),
        Container::Object(parts) => Ok(Some(member_positions(bytes, parts)?)),
    }
}

/// Returns the positions of the elements of an array with these parts.
#[tactic(auto, using(crate::proofs::SpotsLemmas::array_opened))]
fn element_positions(bytes: &[u8], parts: ArrayParts<'_>) -> ChildPositions
    requires { IsCut bytes.now (Array parts) }
    ensures { (t : Tree) → Decodes any bytes.now t → HasChildrenLeft bytes.now result t }
{
    let end = bytes.len();
    ChildPositions {
        left: parts.words.len() / WORD,
        keys: EntryPositions {
            word: 0,
            content: 0,
            end: 0,
        },
        values: EntryPositions {
            word: WORD,
            content: end - parts.contents.len(),
            end,
        },
    }
}

/// Returns the positions of the members of an object with these parts.
fn member_positions(bytes: &[u8], parts: ObjectParts<'_>) -> Result<ChildPositions, Error>
    requires { IsCut bytes.now (Object parts) }
    ensures members { (t : Tree) → Decodes any bytes.now t
        → IsOkAnd result (λ positions. HasChildrenLeft bytes.now positions t) }
    ensures errors { IfErr result IsDecodingError }
{
    let end = bytes.len();
    let values = end - parts.value_contents()?.len();
    Ok(ChildPositions {
        left: parts.key_words.len() / WORD,
        keys: EntryPositions {
            word: WORD,
            content: end - parts.contents.len(),
            end: values,
        },
        values: EntryPositions {
            word: WORD + parts.key_words.len(),
            content: values,
            end,
        },
    })
}

/// Returns the spot of the first of some entries, and the positions of the others.
fn first_entry(
    bytes: &[u8],
    left: usize,
    at: EntryPositions,
) -> Result<(Spot, EntryPositions), Error>
    requires { 0 < left }
    ensures first { (t : Tree) (ts : List Tree) → AreAt bytes.now left at (t ∷ ts)
        → IsOkAnd result (λ found. Locates bytes.now found.0 t × AreAt bytes.now (left - 1) found.1 ts) }
    ensures later { IfOk result (λ found. at.word < found.1.word) }
    ensures errors { IfErr result IsDecodingError }
{
    let Some(words) = entry_words(bytes, at.word, left) else {
        return Err(Error::InvalidJsonb);
    };
    let mut entries = SpotIter::new(words, at.content, at.end);
    let Some(first) = entries.next() else {
        return Err(Error::InvalidJsonb);
    };
    let spot = first?;
    let others = EntryPositions {
        word: at.word + WORD,
        content: spot.end,
        end: at.end,
    };
    Ok((spot, others))
}

/// Returns this many entry words from a position on, or `None` if they exceed the bytes.
fn entry_words(bytes: &[u8], word: usize, left: usize) -> Option<&[u8]>
    ensures { MatchOption result (left < 2 ^ 29 → word + 4 * left ≤ length bytes.now → ⊥)
        (λ words. (word + 4 * left ≤ length bytes.now)
        × (words.now ≡ slice_range bytes.now word (word + 4 * left))) }
{
    if left > MAX_ENTRIES {
        return None;
    }
    let end = word.checked_add(WORD * left)?;
    bytes.get(word..end)
}

#[cfg(test)]
mod tests;
