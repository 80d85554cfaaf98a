//! Functions on columns: rows of documents in one buffer, processed row by row.

ghost use Rattle.jsonb_c.specs.Columns.{row};
ghost use Rattle.std.specs.Prelude.{◌≡◌, ◌<◌, Some, length, option_copied, slice_get};

mod asked;
mod call;
mod casts;
mod check;
pub(crate) mod documents;
mod fill;
mod join;
mod keys;
#[cfg(test)]
mod tests;
mod truths;

use std::marker::Model;

/// Rows in one buffer: the bytes between each offset and the next.
#[derive(Drop)]
pub(crate) struct Column<'a> {
    bytes: &'a [u8],
    offsets: &'a [u64],
}

impl<'a> Model for Column<'a> {
    ghost use Rattle.std.specs.Prelude.{ℕ, List, Option};
    ghost use Rattle.jsonb_c.specs.Columns.{rows};

    ghost Value = { List (Option (List ℕ)) };

    ghost view = { λ column. rows column.bytes.now column.offsets.now };
}

impl<'a> Column<'a> {
    ghost use Rattle.jsonb_c.specs.Columns.{rows};
    ghost use Rattle.jsonb_c.specs.Making.{is_placed};

    /// Returns the rows between the offsets.
    pub(crate) fn new(bytes: &'a [u8], offsets: &'a [u64]) -> Column<'a>
        ensures { result ≡ rows bytes.entry.now offsets.entry.now }
    {
        Column { bytes, offsets }
    }

    /// Returns the number of rows.
    pub(crate) fn len(&self) -> usize
        ensures { result ≡ length self.now }
    {
        self.offsets.len().saturating_sub(1)
    }

    /// Returns `true` if no offset decreases or exceeds the data.
    pub(crate) fn is_placed(&self) -> bool
        ensures { result ≡ is_placed self.now }
    {
        for index in 0..self.len() {
            match self.row(index) {
                Some(_) => {}
                None => return false,
            }
        }
        true
    }

    /// Returns the bytes of a row, or `None` if its offsets decrease or exceed the data.
    pub(crate) fn row(&self, index: usize) -> Option<&'a [u8]>
        requires { index < length self.now }
        ensures { slice_get self.now index ≡ Some (option_copied result) }
    {
        between(self.bytes, self.offsets[index], self.offsets[index + 1])
    }
}

/// Returns the bytes between two offsets, which must be in order and within them.
fn between(bytes: &[u8], from: u64, to: u64) -> Option<&[u8]>
    ensures { option_copied result ≡ row bytes.now from to }
{
    let from = from as usize;
    let to = to as usize;
    if from <= to && to <= bytes.len() {
        Some(&bytes[from..to])
    } else {
        None
    }
}
