//! A call on each row, and its result.

ghost use Rattle.std.specs.Prelude.{◌≡◌, ℕ, List, length, option_copied};
ghost use Rattle.jsonb_c.specs.Columns.{IsRow};
ghost use Rattle.jsonb_c.specs.Private.Buffers.{EndsAs, Places, ShowsCell, cell_bytes, cell_status, cell_value, written_cell};

use crate::deliver::{write_at, write_both_at};
use crate::status::Status;
use jsonb::Error;
use jsonb_doc::layout::WORD;
use std::alloc::Global;

/// A type that is called on each row and returns a value.
pub(crate) trait RowCall<A> {
    ghost use Rattle.std.specs.Prelude.{ℕ, List};
    ghost use Rattle.jsonb_c.specs.Answers.{Shows};

    ghost Writes: { Self → List ℕ → A → A → ℕ → Type 0 };

    /// Returns the result of the call for a row's document.
    fn answer(&self, alloc: Global, document: &[u8]) -> Result<Option<A>, Error>
        ensures { (old new : A) (status : ℕ)
            → Shows old new status result → Writes self.now document.now old new status };
}

/// Returns the result of a row, or `None` if its offsets are wrong.
pub(crate) type Cell<A> = Option<Result<Option<A>, Error>>;

/// Calls on a row.
pub(crate) fn ask<A, C: RowCall<A>>(alloc: Global, call: &C, row: Option<&[u8]>) -> Cell<A>
    ensures { (old new : A) (status : ℕ)
        → ShowsCell result old new status → IsRow (C.Writes call.now) old (option_copied row.entry) (new, status) }
{
    let document = row?;
    Some(call.answer(alloc, document))
}

/// Returns the status of a row.
pub(crate) fn cell_status<A>(cell: &Cell<A>) -> u8
    ensures { result ≡ cell_status cell.now }
{
    let status = match cell {
        Some(Ok(Some(_))) => Status::Answered,
        Some(Ok(None)) => Status::Absent,
        Some(Err(error)) => Status::Refused(*error),
        None => Status::BadOffsets,
    };
    status.to_u8()
}

/// Returns the value of a row, or another one if it has none.
pub(crate) fn cell_value<A: Copy>(cell: &Cell<A>, other: A) -> A
    ensures { result ≡ cell_value other cell.now }
{
    match cell {
        Some(Ok(Some(value))) => *value,
        _ => other,
    }
}

/// The bytes of a row's result.
#[derive(Clone, Copy)]
pub(crate) enum RowBytes<'d> {
    /// Those in the buffer.
    Buffered,
    /// The document of a scalar: the words of its header and of its entry, and its content in the row's document.
    Scalar([u8; 2 * WORD], &'d [u8]),
}

/// A type that is called on each row and returns bytes.
pub(crate) trait RowWriter {
    ghost use Rattle.std.specs.Prelude.{ℕ, List};
    ghost use Rattle.jsonb_c.specs.Answers.{Shows};
    ghost use Rattle.jsonb_c.specs.Private.Buffers.{written_answer};

    ghost Writes: { Self → List ℕ → List ℕ → List ℕ → ℕ → Type 0 };

    /// Returns the result of the call for a row's document. The buffer's contents may be replaced by it.
    fn write<'d>(
        &self,
        alloc: Global,
        document: &'d [u8],
        out: &mut Vec<u8>,
    ) -> Result<Option<RowBytes<'d>>, Error>
        ensures { (old new : List ℕ) (status : ℕ) → Shows old new status (written_answer result out.new.items)
            → Writes self.now document.now old new status };
}

/// The result of a row that has bytes, or `None` if its offsets are wrong.
pub(crate) type Written<'d> = Option<Result<Option<RowBytes<'d>>, Error>>;

/// Calls on a row for its bytes.
pub(crate) fn ask_for_bytes<'d, C: RowWriter>(
    alloc: Global,
    call: &C,
    row: Option<&'d [u8]>,
    out: &mut Vec<u8>,
) -> Written<'d>
    ensures { (old new : List ℕ) (status : ℕ) → ShowsCell (written_cell result out.new.items) old new status
        → IsRow (C.Writes call.now) old (option_copied row.entry) (new, status) }
{
    let document = row?;
    Some(call.write(alloc, document, out))
}

/// Returns the status of a row.
pub(crate) fn written_status(cell: Written<'_>) -> u8
    ensures { (bytes : List ℕ) → result ≡ cell_status (written_cell cell.entry bytes) }
{
    let status = match cell {
        Some(Ok(Some(_))) => Status::Answered,
        Some(Ok(None)) => Status::Absent,
        Some(Err(error)) => Status::Refused(error),
        None => Status::BadOffsets,
    };
    status.to_u8()
}

/// Returns the number of bytes of a row, 0 if it has no result.
pub(crate) fn written_len(cell: Written<'_>, buffer: &[u8]) -> usize
    ensures { result ≡ length (cell_bytes (written_cell cell.entry buffer.now)) }
{
    match cell {
        Some(Ok(Some(RowBytes::Scalar(words, content)))) => words.len() + content.len(),
        Some(Ok(Some(RowBytes::Buffered))) => buffer.len(),
        _ => 0,
    }
}

/// Writes the bytes of a row at an offset if they fit, none if it has no result. Returns whether they fit.
pub(crate) fn write_row(cell: Written<'_>, buffer: &[u8], out: &mut [u8], at: usize) -> bool
    ensures { Places (cell_bytes (written_cell cell.entry buffer.now)) at out.old out.new result }
{
    match cell {
        Some(Ok(Some(RowBytes::Scalar(words, content)))) => write_both_at(&words, content, out, at),
        Some(Ok(Some(RowBytes::Buffered))) => write_at(buffer, out, at),
        _ => write_at(&[], out, at),
    }
}

/// Returns the status of a call that completed this many rows of all.
pub(crate) fn end_of(done: usize, all: usize) -> u32
    ensures { EndsAs done all result }
{
    let status = if done < all {
        Status::BufferTooSmall
    } else {
        Status::Answered
    };
    status.to_u32()
}
