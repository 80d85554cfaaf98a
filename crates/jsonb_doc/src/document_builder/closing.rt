//! Containers that are closed: each becomes a piece.

ghost use Rattle.std.specs.Prelude.{◌≡◌, ◌⊎◌, ◌<◌, ◌≤◌, ◌^◌, List, ◌++◌, length, map, reverse, OnOk, IfOk, MatchResult};
ghost use Rattle.jsonb_doc.specs.Payload.{Form};
ghost use Rattle.jsonb_doc.specs.Format.{key_words, key_bytes};
ghost use Rattle.jsonb_doc.specs.Limits.{AreShortKeys};
ghost use Rattle.jsonb_doc.specs.Answer.{IsOutOfMemory, ◌or◌when◌};
ghost use Rattle.jsonb_doc.specs.Events.{Level, container};
ghost use Rattle.jsonb_doc.specs.Representation.DocumentBuilder.{HoldsLevel};
ghost use Rattle.jsonb_doc.specs.Private.Closing.{IsClosed, HasShortHead, Closes, entry_words, total_len, array_head, object_head, member_keys, member_entries};
ghost use Rattle.jsonb_doc.specs.declared.error.Error.TheVariants.{TooLarge};
ghost use Rattle.jsonb_doc.specs.declared.pieces.Piece as pieces;

use crate::document_builder::frame::{Frame, Members};
use crate::encoding::push_word;
use crate::error::Error;
use crate::event_error::EventError;
use crate::layout::{
    EntryKind, HeaderKind, MAX_CONTENT, MAX_ENTRIES, WORD, encode_entry_word, encode_header,
};
use crate::piece_entry::PieceEntry;
use crate::pieces::Piece;
use std::alloc::{AllocError, Global};

/// A closed container: its piece, and the number of its bytes.
#[derive(Drop)]
pub struct Closed {
    pub piece: Piece,
    pub len: usize,
}

/// Returns the piece of an open container. Fails with `OutOfOrder` if it cannot end here.
#[tactic(auto, using(crate::proofs::BuilderLemmas::array_closes, crate::proofs::BuilderLemmas::object_closes))]
pub fn close(alloc: Global, frame: &Frame) -> Result<Closed, EventError>
    ensures { (form : Form) (ps : List pieces.Piece) (level : Level) → HoldsLevel form ps frame.now level
        → Closes form ps (container level) result }
{
    match frame {
        Frame::Array(entries) => Ok(close_array(alloc, entries)?),
        Frame::Object(members, key) if key.is_none() => Ok(close_object(alloc, members)?),
        Frame::Object(..) | Frame::Root(_) => Err(EventError::OutOfOrder),
    }
}

fn close_array(alloc: Global, entries: &[PieceEntry]) -> Result<Closed, Error>
    ensures { MatchResult result
        (λ c. (length entries.now < 2 ^ 29) × IsClosed (array_head entries.now) entries.now c)
        (IsOutOfMemory or TooLarge when 2 ^ 29 ≤ length entries.now) }
{
    if entries.len() > MAX_ENTRIES {
        return Err(Error::TooLarge);
    }
    let mut head = Vec::with_capacity(alloc, WORD + WORD * entries.len())?;
    push_word(&mut head, encode_header(HeaderKind::Array, entries.len()))?;
    push_entry_words(&mut head, entries)?;
    Ok(close_entries(alloc, head, entries)?)
}

fn close_object(alloc: Global, members: &Members) -> Result<Closed, Error>
    ensures { MatchResult result
        (λ c. HasShortHead members.now.entries
        × IsClosed (object_head members.now.entries) (member_entries members.now.entries) c)
        (IsOutOfMemory or TooLarge when (HasShortHead members.now.entries → ⊥)) }
{
    if members.len() > MAX_ENTRIES {
        return Err(Error::TooLarge);
    }
    let entries = entries_of(alloc, members)?;
    let mut head = Vec::new(alloc);
    push_word(&mut head, encode_header(HeaderKind::Object, members.len()))?;
    push_key_words(&mut head, members)?;
    push_entry_words(&mut head, &entries)?;
    push_key_bytes(&mut head, members)?;
    Ok(close_entries(alloc, head, &entries)?)
}

/// Returns the piece of a container with this head and these entries.
fn close_entries(alloc: Global, head: Vec<u8>, entries: &[PieceEntry]) -> Result<Closed, AllocError>
    requires { length entries.now < 2 ^ 29 }
    ensures { IfOk result (IsClosed head.items entries.now) }
{
    let len = head.len() + contents_len(entries);
    let rest = pieces_of(alloc, entries)?;
    let piece = Piece { head, rest };
    Ok(Closed { piece, len })
}

/// Returns the number of bytes of all contents.
fn contents_len(entries: &[PieceEntry]) -> usize
    requires { length entries.now < 2 ^ 29 }
    ensures total { result ≡ total_len entries.now }
    ensures bound { result < 2 ^ 60 }
{
    let mut len = 0;
    for entry in entries {
        len += entry.len;
    }
    len
}

/// Returns the pieces of the entries, the last one first.
fn pieces_of(alloc: Global, entries: &[PieceEntry]) -> Result<Vec<usize>, AllocError>
    ensures { IfOk result (λ v. v.items ≡ reverse (map (λ e. e.piece) entries.now)) }
{
    let mut pieces = Vec::with_capacity(alloc, entries.len())?;
    for entry in entries {
        pieces.push(entry.piece)?;
    }
    pieces.reverse();
    Ok(pieces)
}

/// Returns the values of the members.
fn entries_of(alloc: Global, members: &Members) -> Result<Vec<PieceEntry>, AllocError>
    ensures { IfOk result (λ v. v.items ≡ member_entries members.now.entries) }
{
    let mut entries = Vec::with_capacity(alloc, members.len())?;
    for (_, entry) in members {
        entries.push(*entry)?;
    }
    Ok(entries)
}

fn push_entry_words(head: &mut Vec<u8>, entries: &[PieceEntry]) -> Result<(), AllocError>
    ensures { OnOk result (head.new.items ≡ head.old.items ++ entry_words entries.now) }
{
    for entry in entries {
        push_word(head, encode_entry_word(entry.kind, entry.len))?;
    }
    Ok(())
}

fn push_key_words(head: &mut Vec<u8>, members: &Members) -> Result<(), Error>
    ensures { MatchResult result
        (λ _. (head.new.items ≡ head.old.items ++ key_words (member_keys members.now.entries))
        × AreShortKeys (member_keys members.now.entries))
        (IsOutOfMemory or TooLarge when (AreShortKeys (member_keys members.now.entries) → ⊥)) }
{
    for (key, _) in members {
        if key.len() > MAX_CONTENT {
            return Err(Error::TooLarge);
        }
        push_word(head, encode_entry_word(EntryKind::Text, key.len()))?;
    }
    Ok(())
}

fn push_key_bytes(head: &mut Vec<u8>, members: &Members) -> Result<(), AllocError>
    ensures { OnOk result
        (head.new.items ≡ head.old.items ++ key_bytes (member_keys members.now.entries)) }
{
    for (key, _) in members {
        head.extend_from_slice(key.as_bytes())?;
    }
    Ok(())
}
