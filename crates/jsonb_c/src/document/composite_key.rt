//! The composite key of the columns of one row.

ghost use Rattle.std.specs.Prelude.{◌≡◌, Option, Some, IfErr, true, false};
ghost use Rattle.jsonb_doc.specs.Answer.{SameOption, IsDecodingError, ◌or◌};
ghost use Rattle.jsonb_doc.specs.Format.{Decodes};
ghost use Rattle.jsonb_doc.specs.declared.error.Error.TheVariants.{OutOfMemory, TooDeep};
ghost use Rattle.jsonb_doc.specs.Payload.{Form};
ghost use Rattle.jsonb_doc.specs.Tree.{Tree};
ghost use Rattle.jsonb_raw.specs.CompositeKeys.{AppendsColumn};
ghost use Rattle.jsonb_raw.specs.Documents.{raw_bytes};
ghost use Rattle.jsonb_c.specs.Answers.{DeliversNothing, DeliversValue, WritesResult};
ghost use Rattle.jsonb_c.specs.Calls.{width_of};
ghost use Rattle.jsonb_c.specs.Columns.{rows};
ghost use Rattle.jsonb_c.specs.Making.{IsValueOf, MakesCompositeKey, is_placed};
ghost use Rattle.jsonb_c.specs.declared.status.Status.TheVariants.{BadOffsets};
ghost use Rattle.jsonb_c.specs.Private.Views.{vec_answer};

use crate::column::Column;
use crate::deliver::{deliver_nothing, deliver_vec};
use crate::status::Status;
use jsonb::{Error, RawJsonb, push_column_key, push_column_key_wide};
use std::alloc::Global;

/// Returns the composite key of documents, of which those without bytes are missing values, with one-byte depths, or
/// two-byte depths if it is wide.
#[unsafe(no_mangle)]
pub extern "C" fn jdoc_composite_key(
    alloc: Global,
    bytes: &[u8],
    offsets: &[u64],
    wide: bool,
    out: &mut [u8],
    out_len: &mut usize,
) -> u32
    ensures key { is_placed (rows bytes.now offsets.now) ≡ true
        → WritesResult (MakesCompositeKey (width_of wide) (rows bytes.now offsets.now))
        (IsDecodingError or OutOfMemory or TooDeep) (DeliversValue out.old out.new out_len.new result) }
    ensures other { is_placed (rows bytes.now offsets.now) ≡ false
        → DeliversNothing out.old out.new out_len.new result BadOffsets }
{
    let column = Column::new(bytes, offsets);
    if column.is_placed() {
        deliver_vec(composite_key(alloc, &column, wide), out, out_len)
    } else {
        deliver_nothing(Status::BadOffsets, out_len)
    }
}

/// Returns the composite key of the rows, whose offsets must be right.
fn composite_key(alloc: Global, column: &Column<'_>, wide: bool) -> Result<Vec<u8>, Error>
    ensures key { MakesCompositeKey (width_of wide) column.now (vec_answer result) }
    ensures errors { IfErr result (IsDecodingError or OutOfMemory or TooDeep) }
{
    let mut key = Vec::new(alloc);
    for index in 0..column.len() {
        match column.row(index) {
            Some(document) => push_row(alloc, &mut key, document, wide)?,
            None => return Err(Error::InvalidJsonb),
        }
    }
    Ok(key)
}

/// Appends the key of a row.
fn push_row(alloc: Global, key: &mut Vec<u8>, row: &[u8], wide: bool) -> Result<(), Error>
    ensures key { (form : Form) (value : Option Tree) → IsValueOf form (Some row.now) value
        → AppendsColumn (width_of wide) value key.old.items result key.new.items }
    ensures errors { IfErr result (IsDecodingError or OutOfMemory or TooDeep) }
{
    let value = value_of(row);
    if wide {
        push_column_key_wide(alloc, key, value)
    } else {
        push_column_key(alloc, key, value)
    }
}

/// Returns the document of a row, or `None` if it has no bytes.
fn value_of(row: &[u8]) -> Option<RawJsonb<'_>>
    ensures { (form : Form) (value : Option Tree) → IsValueOf form (Some row.now) value
        → SameOption (λ raw t. Decodes form (raw_bytes raw) t) result value }
{
    if row.is_empty() {
        return None;
    }
    Some(RawJsonb::new(row))
}
