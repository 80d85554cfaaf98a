//! The root, and the open containers around the next event.

ghost use Rattle.std.specs.Prelude.{◌≡◌, ℕ, ◌<◌, List, length, IsTrue, None, IfErr, OnErr, MatchResult};
ghost use Rattle.std.specs.Prelude.{string_cmp, Some};
ghost use Rattle.std.specs.BTreeMap.{insert_entry};
ghost use Rattle.std.specs.declared.alloc.Global.{Global};
ghost use Rattle.std.specs.declared.string.String as string;
ghost use Rattle.jsonb_doc.specs.Tree.{Tree};
ghost use Rattle.jsonb_doc.specs.Payload.{Form};
ghost use Rattle.jsonb_doc.specs.Format.{Decodes};
ghost use Rattle.jsonb_doc.specs.Kinds.{kind_number};
ghost use Rattle.jsonb_doc.specs.Representation.Pieces.{bytes_at};
ghost use Rattle.jsonb_doc.specs.Events.{Level, root, takes_value, filled};
ghost use Rattle.jsonb_doc.specs.DocumentBuilder.{IsFailureAt};
ghost use Rattle.jsonb_doc.specs.Representation.DocumentBuilder.{IsPieceOf, HoldsLevel};
ghost use Rattle.jsonb_doc.specs.declared.pieces.Piece.{Piece};
ghost use Rattle.jsonb_doc.specs.Answer.{IsOutOfMemory, ◌or◌};
ghost use Rattle.jsonb_doc.specs.AnyBytes.Events.{IsEventError};
ghost use Rattle.jsonb_doc.specs.declared.error.Error.TheVariants.{OutOfMemory, TooLarge};
ghost use Rattle.jsonb_doc.specs.declared.event_error.EventError.TheVariants.{Failed};

use crate::event_error::EventError;
use crate::layout::EntryKind;
use crate::piece_entry::PieceEntry;
use std::alloc::AllocFailed;
use std::collections::BTreeMap;

/// The members of an open object, in the byte order of their keys.
pub type Members = BTreeMap<String, PieceEntry>;

/// What is around the next event.
#[derive(Drop)]
pub enum Frame {
    /// The root: the index of the document's piece, once it is complete.
    Root(Option<usize>),
    /// An array, with its elements so far.
    Array(Vec<PieceEntry>),
    /// An object, with its members so far, and the key whose value comes next.
    Object(Members, Option<String>),
}

impl Frame {
    /// Returns `true` if a value may come next.
    #[tactic(auto, using(crate::proofs::BuilderLemmas::is_none_from))]
    pub fn takes_value(&self) -> bool
        ensures { (form : Form) (ps : List Piece) (level : Level) → HoldsLevel form ps self.now level
            → result ≡ takes_value level }
    {
        match self {
            Frame::Root(piece) => piece.is_none(),
            Frame::Array(_) => true,
            Frame::Object(_, key) => key.is_some(),
        }
    }

    /// Adds a value: the piece of its content, of this type and length. At the root, the piece is the document.
    #[tactic(auto, using(crate::proofs::Sets::frame_fill))]
    pub fn fill(&mut self, kind: EntryKind, piece: usize, len: usize) -> Result<(), EventError>
        ensures filled { (form : Form) (ps : List Piece) (level : Level) (t : Tree)
            → HoldsLevel form ps self.old level → IsTrue (takes_value level)
            → IsPieceOf form ps (kind_number kind) piece len t
            → (level ≡ root None → Decodes form (bytes_at ps piece) t)
            → MatchResult result (λ _. HoldsLevel form ps self.new (filled t level))
            (λ e. HoldsLevel form ps self.new level × IsFailureAt form (filled t level) e) }
        ensures kept { (form : Form) (ps : List Piece) (level : Level) → HoldsLevel form ps self.old level
            → OnErr result (HoldsLevel form ps self.new level) }
        ensures errors { IfErr result (IsEventError (IsOutOfMemory or TooLarge)) }
    {
        match self {
            Frame::Root(root) => {
                *root = Some(piece);
                Ok(())
            }
            Frame::Array(entries) => {
                entries.push(PieceEntry::new(kind, piece, len)?)?;
                Ok(())
            }
            Frame::Object(members, key) => {
                push_member(members, key, PieceEntry::new(kind, piece, len)?)
            }
        }
    }
}

/// Adds a member with the key that waits for its value.
fn push_member(
    members: &mut Members,
    key: &mut Option<String>,
    entry: PieceEntry,
) -> Result<(), EventError>
    ensures pushed { (name : string.String Global) → key.old ≡ Some name
        → MatchResult result
        (λ _. (members.new.entries ≡ insert_entry string_cmp members.old.entries name entry) × (key.new ≡ None))
        (λ e. e ≡ Failed OutOfMemory) }
    ensures kept { OnErr result ((members.new.entries ≡ members.old.entries) × (key.new ≡ key.old)) }
    ensures errors { IfErr result (IsEventError IsOutOfMemory) }
{
    let Some(name) = key.take() else {
        return Err(EventError::OutOfOrder);
    };
    match members.insert(name, entry) {
        Ok(_) => Ok(()),
        Err(failed) => {
            let (name, entry) = failed.value;
            *key = Some(name);
            Err(EventError::from(AllocFailed { value: entry }))
        }
    }
}
