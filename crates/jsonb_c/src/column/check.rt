//! Whether each row is a document.

ghost use Rattle.std.specs.Prelude.{length, map};
ghost use Rattle.jsonb_c.specs.Answers.{IsWritten};
ghost use Rattle.jsonb_c.specs.Calls.{IsCheckOf};
ghost use Rattle.jsonb_c.specs.Columns.{DoneRows, Ends, rows};

use super::Column;
use super::call::RowCall;
use jsonb::Error;
use std::alloc::Global;

/// Whether bytes are a document.
#[derive(Clone, Copy)]
struct Checks;

impl RowCall<()> for Checks {
    ghost use Rattle.jsonb_c.specs.Calls.{IsCheckOf};

    ghost Writes = { λ call document old new status. IsCheckOf document status };

    fn answer(&self, _alloc: Global, document: &[u8]) -> Result<Option<()>, Error> {
        jsonb::check(document)?;
        Ok(Some(()))
    }
}

/// Checks whether each row is a document: the statuses are the result.
#[unsafe(no_mangle)]
pub extern "C" fn jdoc_column_check(
    alloc: Global,
    bytes: &[u8],
    offsets: &[u64],
    statuses: &mut [u8],
    done: &mut usize,
) -> u32
    ensures { DoneRows (λ document old new status. IsCheckOf document status) (tt {0}) (rows bytes.now offsets.now)
        done.new (λ made. IsWritten (map (λ m. m.1) made) statuses.old statuses.new)
        × Ends (length (rows bytes.now offsets.now)) (length statuses.old) done.new result }
{
    Column::new(bytes, offsets).check(alloc, &Checks, statuses, done)
}
