//! A key per row.

ghost use Rattle.jsonb_c.specs.Answers.{Shows, ShowsValue, always};
ghost use Rattle.jsonb_c.specs.Calls.{WritesEqualityKey, WritesKey, width_of};
ghost use Rattle.jsonb_c.specs.Columns.{JoinsRows, rows};

use super::Column;
use super::call::{RowBytes, RowWriter};
use super::join::Progress;
use crate::document::keys::{write_equality_key, write_sort_key};
use jsonb::Error;
use std::alloc::Global;

/// The sortable key of a document.
#[derive(Clone, Copy)]
struct SortKeys {
    wide: bool,
}

impl RowWriter for SortKeys {
    ghost use Rattle.jsonb_c.specs.Answers.{Shows, always};
    ghost use Rattle.jsonb_c.specs.Calls.{WritesKey, width_of};

    ghost Writes = { λ call document old new status.
        WritesKey (width_of call.wide) document (ShowsValue old new status) };

    fn write<'d>(
        &self,
        alloc: Global,
        document: &'d [u8],
        out: &mut Vec<u8>,
    ) -> Result<Option<RowBytes<'d>>, Error> {
        write_sort_key(alloc, document, self.wide, out).and(Ok(Some(RowBytes::Buffered)))
    }
}

/// The equality key of a document.
#[derive(Clone, Copy)]
struct EqualityKeys;

impl RowWriter for EqualityKeys {
    ghost use Rattle.jsonb_c.specs.Answers.{Shows, always};
    ghost use Rattle.jsonb_c.specs.Calls.{WritesEqualityKey};

    ghost Writes = { λ call document old new status.
        WritesEqualityKey document (ShowsValue old new status) };

    fn write<'d>(
        &self,
        alloc: Global,
        document: &'d [u8],
        out: &mut Vec<u8>,
    ) -> Result<Option<RowBytes<'d>>, Error> {
        write_equality_key(alloc, document, out).and(Ok(Some(RowBytes::Buffered)))
    }
}

/// Returns the sortable key of each document, with one-byte depths, or two-byte depths if it is wide.
#[unsafe(no_mangle)]
pub extern "C" fn jdoc_column_key(
    alloc: Global,
    bytes: &[u8],
    offsets: &[u64],
    wide: bool,
    out: &mut [u8],
    positions: &mut [u64],
    statuses: &mut [u8],
    progress: &mut Progress,
) -> u32
    ensures { JoinsRows
        (λ document old new status. WritesKey (width_of wide) document (ShowsValue old new status))
        (rows bytes.now offsets.now)
        (out.old, positions.old, statuses.old) (out.new, positions.new, statuses.new) progress.new result }
{
    let keys = SortKeys { wide };
    Column::new(bytes, offsets).join(alloc, &keys, out, positions, statuses, progress)
}

/// Returns the equality key of each document.
#[unsafe(no_mangle)]
pub extern "C" fn jdoc_column_equality_key(
    alloc: Global,
    bytes: &[u8],
    offsets: &[u64],
    out: &mut [u8],
    positions: &mut [u64],
    statuses: &mut [u8],
    progress: &mut Progress,
) -> u32
    ensures { JoinsRows
        (λ document old new status. WritesEqualityKey document (ShowsValue old new status))
        (rows bytes.now offsets.now)
        (out.old, positions.old, statuses.old) (out.new, positions.new, statuses.new) progress.new result }
{
    Column::new(bytes, offsets).join(alloc, &EqualityKeys, out, positions, statuses, progress)
}
