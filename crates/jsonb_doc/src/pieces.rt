//! Bytes in pieces that refer to earlier ones, so that bytes are put before others without moving them.

ghost use Rattle.std.specs.Prelude.{◌≡◌, ◌++◌, OnOk, IfOk};
ghost use Rattle.jsonb_doc.specs.Representation.Pieces.{bytes_at};
ghost use Rattle.jsonb_doc.specs.Private.Earlier.{earlier};

use std::alloc::{AllocError, Global};

/// Some bytes, and after them those of earlier pieces.
#[derive(Drop)]
pub struct Piece {
    /// Its own bytes.
    pub head: Vec<u8>,
    /// The indices of the pieces after the head, the last one first. Each is below the piece's own index.
    pub rest: Vec<usize>,
}

/// Returns the bytes of the piece at an index. Each piece is copied once for each piece that refers to it.
#[tactic(auto, using(crate::proofs::Sets::pieces_joined_pieces))]
pub fn joined_pieces(alloc: Global, pieces: &[Piece], root: usize) -> Result<Vec<u8>, AllocError>
    ensures { IfOk result (λ v. v.items ≡ bytes_at pieces.now root) }
{
    let mut joined = Vec::new(alloc);
    let mut stack = Vec::new(alloc);
    push_earlier(&mut stack, &[root], pieces.len())?;
    while let Some(index) = stack.pop() {
        let piece = &pieces[index];
        joined.extend_from_slice(&piece.head)?;
        push_earlier(&mut stack, &piece.rest, index)?;
    }
    Ok(joined)
}

/// Pushes those of the indices that are below `end`.
fn push_earlier(stack: &mut Vec<usize>, indices: &[usize], end: usize) -> Result<(), AllocError>
    ensures { OnOk result (stack.new.items ≡ stack.old.items ++ earlier end indices.now) }
{
    for index in indices {
        if *index < end {
            stack.push(*index)?;
        }
    }
    Ok(())
}
