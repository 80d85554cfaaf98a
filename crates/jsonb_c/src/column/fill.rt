//! Results of one value per row, and of none.

ghost use Rattle.std.specs.Prelude.{◌≡◌};
ghost use Rattle.jsonb_c.specs.Columns.{FillsRows};
ghost use Rattle.jsonb_c.specs.Private.Buffers.{ChecksRows};
ghost use Rattle.jsonb_c.specs.Status.{code};

use super::Column;
use super::call::{RowCall, ask, cell_status, cell_value, end_of};
use crate::status::Status;
use std::alloc::Global;

impl Column<'_> {
    /// Writes a status per row.
    pub(crate) fn check<A: Drop, C: RowCall<A>>(
        &self,
        alloc: Global,
        call: &C,
        statuses: &mut [u8],
        done: &mut usize,
    ) -> u32
        ensures { (other : A) → ChecksRows (C.Writes call.now) other self.now
            statuses.old statuses.new done.new result }
    {
        let rows = self.len();
        let room = rows.min(statuses.len());
        for index in 0..room {
            let cell = ask(alloc, call, self.row(index));
            statuses[index] = cell_status(&cell);
        }
        *done = room;
        end_of(room, rows)
    }

    /// Writes a value and a status per row: `other` if a row has no value.
    pub(crate) fn fill<A: Copy, C: RowCall<A>>(
        &self,
        alloc: Global,
        call: &C,
        other: A,
        values: &mut [A],
        statuses: &mut [u8],
        done: &mut usize,
    ) -> u32
        ensures { FillsRows (C.Writes call.now) other self.now
            (values.old, statuses.old) (values.new, statuses.new) done.new result }
    {
        let rows = self.len();
        let room = rows.min(values.len()).min(statuses.len());
        for index in 0..room {
            let cell = ask(alloc, call, self.row(index));
            values[index] = cell_value(&cell, other);
            statuses[index] = cell_status(&cell);
        }
        *done = room;
        end_of(room, rows)
    }
}

/// Returns the status of a call that processed no row.
pub(crate) fn fail_column(cause: Status, done: &mut usize) -> u32
    ensures done { done.new ≡ 0 }
    ensures status { result ≡ code cause }
{
    *done = 0;
    cause.to_u32()
}
