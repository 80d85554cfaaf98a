//! Columns on which a path is evaluated.

ghost use Rattle.std.specs.Prelude.{◌≡◌};
ghost use Rattle.jsonb_c.specs.Columns.{rows};

use super::Column;
use std::alloc::Global;

/// Rows, and the text of the path that is evaluated on each.
#[derive(Drop)]
pub(crate) struct PathColumn<'a> {
    pub(crate) alloc: Global,
    pub(crate) column: Column<'a>,
    pub(crate) path: &'a [u8],
}

impl<'a> PathColumn<'a> {
    /// Returns the rows between the offsets, and the path.
    pub(crate) fn new(
        alloc: Global,
        bytes: &'a [u8],
        offsets: &'a [u64],
        path: &'a [u8],
    ) -> PathColumn<'a>
        ensures column { result.column ≡ rows bytes.entry.now offsets.entry.now }
        ensures path { result.path.now ≡ path.entry.now }
    {
        let column = Column::new(bytes, offsets);
        PathColumn {
            alloc,
            column,
            path,
        }
    }
}
