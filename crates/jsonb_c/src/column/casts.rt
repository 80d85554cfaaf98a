//! Each row as an integer or as a string.

ghost use Rattle.std.specs.Prelude.{FitsSigned, IfErr, pos, string_bytes};
ghost use Rattle.std.specs.Int.{w64};
ghost use Rattle.jsonb_doc.specs.Answer.{IsDecodingError, ◌or◌};
ghost use Rattle.jsonb_doc.specs.declared.error.Error.TheVariants.{InvalidCast, OutOfMemory};
ghost use Rattle.jsonb_raw.specs.Casts.{Casts, IsSignedOf, CastsToText, text_of};
ghost use Rattle.jsonb_c.specs.Answers.{OfDocument, Shows, ShowsAs, ShowsValue, always, found_as};
ghost use Rattle.jsonb_c.specs.Calls.{WritesI64, WritesText};
ghost use Rattle.jsonb_c.specs.Columns.{FillsRows, JoinsRows, rows};

use super::Column;
use super::call::{RowBytes, RowCall, RowWriter};
use super::join::Progress;
use jsonb::{Error, RawJsonb};
use std::alloc::Global;

/// A document as an integer.
#[derive(Clone, Copy)]
struct ToI64;

impl RowCall<i64> for ToI64 {
    ghost use Rattle.jsonb_c.specs.Answers.{Shows, always, found_as};
    ghost use Rattle.jsonb_c.specs.Calls.{WritesI64};

    ghost Writes = { λ call document old new status.
        WritesI64 document (ShowsValue old new status) };

    fn answer(&self, _alloc: Global, document: &[u8]) -> Result<Option<i64>, Error> {
        let number = i64_of(document)?;
        Ok(Some(number))
    }
}

fn i64_of(document: &[u8]) -> Result<i64, Error>
    ensures value { OfDocument document.now (λ form t. Casts (λ z. IsSignedOf t z × FitsSigned w64 z)) result }
    ensures errors { IfErr result (IsDecodingError or InvalidCast) }
{
    RawJsonb::new(document).to_i64()
}

/// A document as a string.
#[derive(Clone, Copy)]
struct ToText;

impl RowWriter for ToText {
    ghost use Rattle.std.specs.Prelude.{string_bytes};
    ghost use Rattle.jsonb_c.specs.Answers.{Shows, always, found_as};
    ghost use Rattle.jsonb_c.specs.Calls.{WritesText};

    ghost Writes = { λ call document old new status.
        WritesText document (ShowsAs string_bytes old new status) };

    fn write<'d>(
        &self,
        alloc: Global,
        document: &'d [u8],
        out: &mut Vec<u8>,
    ) -> Result<Option<RowBytes<'d>>, Error> {
        let text = text_of(alloc, document)?;
        *out = text.into_bytes();
        Ok(Some(RowBytes::Buffered))
    }
}

fn text_of(alloc: Global, document: &[u8]) -> Result<String, Error>
    ensures value { OfDocument document.now (λ form t. CastsToText (text_of t)) result }
    ensures errors { IfErr result (IsDecodingError or OutOfMemory or InvalidCast) }
{
    RawJsonb::new(document).to_str(alloc)
}

/// Casts each document to an `i64`, as `jdoc_to_i64` does; 0 if that fails.
#[unsafe(no_mangle)]
pub extern "C" fn jdoc_column_to_i64(
    alloc: Global,
    bytes: &[u8],
    offsets: &[u64],
    numbers: &mut [i64],
    statuses: &mut [u8],
    done: &mut usize,
) -> u32
    ensures { FillsRows
        (λ document old new status. WritesI64 document (ShowsValue old new status))
        (pos 0) (rows bytes.now offsets.now)
        (numbers.old, statuses.old) (numbers.new, statuses.new) done.new result }
{
    Column::new(bytes, offsets).fill(alloc, &ToI64, 0, numbers, statuses, done)
}

/// Casts each document to a string, as `jdoc_to_str` does.
#[unsafe(no_mangle)]
pub extern "C" fn jdoc_column_to_str(
    alloc: Global,
    bytes: &[u8],
    offsets: &[u64],
    out: &mut [u8],
    positions: &mut [u64],
    statuses: &mut [u8],
    progress: &mut Progress,
) -> u32
    ensures { JoinsRows (λ document old new status. WritesText document
        (ShowsAs string_bytes old new status)) (rows bytes.now offsets.now)
        (out.old, positions.old, statuses.old) (out.new, positions.new, statuses.new) progress.new result }
{
    Column::new(bytes, offsets).join(alloc, &ToText, out, positions, statuses, progress)
}
