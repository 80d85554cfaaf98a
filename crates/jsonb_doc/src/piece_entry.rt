//! An entry of an open container, whose content is a piece.

ghost use Rattle.std.specs.Prelude.{◌≡◌, ◌<◌, ◌≤◌, ◌^◌, MatchResult};
ghost use Rattle.jsonb_doc.specs.declared.error.Error.TheVariants.{TooLarge};

use crate::error::Error;
use crate::layout::{EntryKind, MAX_CONTENT};

/// An entry of an open container: its type, and the index and the length of the piece that is its content.
#[derive(Clone, Copy)]
pub struct PieceEntry {
    pub kind: EntryKind,
    pub piece: usize,
    pub len: usize,
    ghost short: { len < 2 ^ 28 },
}

impl PieceEntry {
    /// Creates an entry. Fails with `TooLarge` if the content is too long for one.
    pub fn new(kind: EntryKind, piece: usize, len: usize) -> Result<PieceEntry, Error>
        ensures { MatchResult result (λ e. (e.kind ≡ kind) × (e.piece ≡ piece) × (e.len ≡ len))
            (λ e. (e ≡ TooLarge) × (2 ^ 28 ≤ len)) }
    {
        if len > MAX_CONTENT {
            return Err(Error::TooLarge);
        }
        Ok(PieceEntry { kind, piece, len })
    }
}
