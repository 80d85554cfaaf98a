//! The remaining children of a container during a traversal. Levels are kept in a `Vec`, so that stack use does not
//! depend on the depth.

ghost use Rattle.std.specs.Prelude.{◌≡◌, IsOkAnd, IfOk, IfSome, IfErr, List, length};
ghost use Rattle.jsonb_doc.specs.Tree.{Tree};
ghost use Rattle.jsonb_doc.specs.Payload.{Form, number_reader};
ghost use Rattle.jsonb_doc.specs.Format.{IsContent};
ghost use Rattle.jsonb_doc.specs.Private.EntryKinds.{container_entry};
ghost use Rattle.jsonb_doc.specs.Answer.{IsDecodingError};
ghost use Rattle.jsonb_raw.specs.Scalars.{is_array};
ghost use Rattle.jsonb_raw.specs.Private.Levels.{EntryPrefix, HasPartsLeft, HasAllLeft, IsLevelWithin, TakesPart, IsSmaller};

use jsonb_doc::cursor::{Entries, PairEntries};
use jsonb_doc::layout::{HeaderKind, split_header};
use jsonb_doc::{Error, StoredEntry, array_entries, object_entries};

/// The remaining elements or members of a container, as they are stored.
#[derive(Clone, Copy)]
pub enum ChildCursor<'a> {
    Elements(Entries<'a>),
    Pairs(PairEntries<'a>),
}

/// Returns `true` if a container is an array, by its header.
#[inline(always)]
#[tactic(auto, using(crate::proofs::LevelLemmas::array_told, crate::proofs::LevelLemmas::headed))]
pub fn is_array(bytes: &[u8]) -> bool
    ensures { (form : Form) (t : Tree) → IsContent (number_reader form) t container_entry bytes.now
        → result ≡ is_array t }
{
    match split_header(bytes) {
        Some((kind, _, _)) => kind == HeaderKind::Array,
        None => false,
    }
}

impl<'a> ChildCursor<'a> {
    /// Returns all children of an array or an object, by its header. Fails with `InvalidJsonb` for other bytes.
    #[inline(always)]
    #[tactic(auto, using(crate::proofs::LevelLemmas::no_array, crate::proofs::LevelLemmas::no_object))]
    pub fn of_container(bytes: &'a [u8]) -> Result<ChildCursor<'a>, Error>
        ensures level { (form : Form) (t : Tree) → IsContent (number_reader form) t container_entry bytes.now
            → IsOkAnd result (HasAllLeft form t) }
        ensures within { IfOk result (λ level. IsLevelWithin (length bytes.now) (Some level)) }
        ensures errors { IfErr result IsDecodingError }
    {
        let Some((kind, _, _)) = split_header(bytes) else {
            return Err(Error::InvalidJsonb);
        };
        match kind {
            HeaderKind::Array => Ok(ChildCursor::Elements(array_entries(bytes)?)),
            HeaderKind::Object => Ok(ChildCursor::Pairs(object_entries(bytes)?)),
            HeaderKind::Scalar => Err(Error::InvalidJsonb),
        }
    }

    /// Returns the number of remaining children.
    #[tactic(auto, using(crate::proofs::Sets::child_cursor_len))]
    pub fn len(&self) -> usize
        ensures { (form : Form) (ps : List EntryPrefix) → HasPartsLeft form self.now ps → result ≡ length ps }
    {
        match self {
            ChildCursor::Elements(left) => left.len(),
            ChildCursor::Pairs(left) => left.keys.len(),
        }
    }

    /// Removes and returns the first child: the bytes of its key, if it is a value of an object, and its entry.
    #[inline(always)]
    #[tactic(auto, using(crate::proofs::LevelLemmas::part_is, crate::proofs::LevelLemmas::no_pair_error))]
    pub fn take(&mut self) -> Result<Option<(Option<&'a [u8]>, StoredEntry<'a>)>, Error>
        ensures takes { (form : Form) (ps : List EntryPrefix) → HasPartsLeft form self.old ps
            → TakesPart form ps result self.new }
        ensures smaller { IfOk result (λ found. IfSome found (λ given. IsSmaller self.old given.1 self.new)) }
        ensures errors { IfErr result IsDecodingError }
    {
        match self {
            ChildCursor::Elements(left) => {
                let Some(entry) = left.next() else {
                    return Ok(None);
                };
                Ok(Some((None, entry?)))
            }
            ChildCursor::Pairs(left) => {
                let Some(pair) = left.next() else {
                    return Ok(None);
                };
                let (key, value) = pair?;
                Ok(Some((Some(key), value)))
            }
        }
    }
}
