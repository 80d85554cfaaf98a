//! Results of bytes, in one buffer with offsets.

ghost use Rattle.std.specs.Prelude.{◌≡◌};
ghost use Rattle.jsonb_c.specs.Columns.{JoinsRows};
ghost use Rattle.jsonb_c.specs.Status.{code};

use super::Column;
use super::call::{RowWriter, ask_for_bytes, end_of, write_row, written_len, written_status};
use crate::status::Status;
use std::alloc::Global;

/// The progress of a call on a column: the rows and bytes that are done, and the length of the row that did not fit.
#[repr(C)]
#[derive(Clone, Copy)]
pub struct Progress {
    pub rows: usize,
    pub bytes: usize,
    pub next: usize,
}

impl Column<'_> {
    /// Writes the bytes of the results, the offsets between them, and a status per row.
    pub(crate) fn join<C: RowWriter>(
        &self,
        alloc: Global,
        call: &C,
        out: &mut [u8],
        positions: &mut [u64],
        statuses: &mut [u8],
        progress: &mut Progress,
    ) -> u32
        ensures { JoinsRows (C.Writes call.now) self.now
            (out.old, positions.old, statuses.old) (out.new, positions.new, statuses.new) progress.new result }
    {
        if positions.is_empty() {
            return fail_join(Status::BufferTooSmall, progress);
        }
        let rows = self.len();
        let room = rows.min(positions.len() - 1).min(statuses.len());
        positions[0] = 0;
        let mut at = 0;
        let mut buffer = Vec::new(alloc);
        for index in 0..room {
            let cell = ask_for_bytes(alloc, call, self.row(index), &mut buffer);
            let len = written_len(cell, &buffer);
            if !write_row(cell, &buffer, out, at) {
                *progress = Progress {
                    rows: index,
                    bytes: at,
                    next: len,
                };
                return Status::BufferTooSmall.to_u32();
            }
            at += len;
            positions[index + 1] = at as u64;
            statuses[index] = written_status(cell);
        }
        *progress = Progress {
            rows: room,
            bytes: at,
            next: 0,
        };
        end_of(room, rows)
    }
}

/// Returns the status of a call that processed no row, and its empty progress.
pub(crate) fn fail_join(cause: Status, progress: &mut Progress) -> u32
    ensures rows { progress.new.rows ≡ 0 }
    ensures bytes { progress.new.bytes ≡ 0 }
    ensures next { progress.new.next ≡ 0 }
    ensures status { result ≡ code cause }
{
    *progress = Progress {
        rows: 0,
        bytes: 0,
        next: 0,
    };
    cause.to_u32()
}
