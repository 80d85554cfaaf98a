//! Documents built from values, and from columns.

ghost use Rattle.std.specs.Prelude.{◌≡◌, IfErr, IsUtf8, MatchResult, true, false, length, pos};
ghost use Rattle.jsonb_doc.specs.Answer.{IsDecodingError, IsOutOfMemory, ◌or◌};
ghost use Rattle.jsonb_doc.specs.Private.Errors.{IsOutOfMemoryOrTooLarge};
ghost use Rattle.jsonb_doc.specs.declared.error.Error.TheVariants.{OutOfMemory, TooLarge};
ghost use Rattle.jsonb_doc.specs.EventList.{whole_of};
ghost use Rattle.jsonb_doc.specs.Format.{Decodes};
ghost use Rattle.jsonb_doc.specs.Item.{StandsFor};
ghost use Rattle.jsonb_doc.specs.Number.{int64, uint64, number_from};
ghost use Rattle.jsonb_doc.specs.Payload.{Form};
ghost use Rattle.jsonb_doc.specs.Tree as spec;
ghost use Rattle.jsonb_doc.specs.Tree.{Tree, array, trees_of};
ghost use Rattle.jsonb_doc.specs.View.{number_view};
ghost use Rattle.jsonb_c.specs.Answers.{DeliversNothing, DeliversValue, WritesResult};
ghost use Rattle.jsonb_c.specs.Columns.{rows};
ghost use Rattle.jsonb_c.specs.Making.{Encodes, IsDecimalOf, MakesArray, is_placed};
ghost use Rattle.jsonb_c.specs.declared.status.Status.TheVariants.{BadOffsets, NotUtf8};
ghost use Rattle.jsonb_c.specs.Private.Views.{vec_answer};

pub(crate) mod object;

use crate::column::Column;
use crate::deliver::{deliver_nothing, deliver_vec};
use crate::status::Status;
use jsonb::{ArrayBuilder, Decimal64, Decimal128, Error, Item, Number, encode_item};
use jsonb_doc::whole_of;
use std::alloc::Global;

/// Returns null as a document.
#[unsafe(no_mangle)]
pub extern "C" fn jdoc_from_null(alloc: Global, out: &mut [u8], out_len: &mut usize) -> u32
    ensures { WritesResult (Encodes spec.null) (IsOutOfMemory or TooLarge)
        (DeliversValue out.old out.new out_len.new result) }
{
    deliver_item(alloc, &Item::Null, out, out_len)
}

/// Returns a Boolean as a document.
#[unsafe(no_mangle)]
pub extern "C" fn jdoc_from_bool(
    alloc: Global,
    value: bool,
    out: &mut [u8],
    out_len: &mut usize,
) -> u32
    ensures { WritesResult (Encodes (spec.boolean value)) (IsOutOfMemory or TooLarge)
        (DeliversValue out.old out.new out_len.new result) }
{
    deliver_item(alloc, &Item::Boolean(value), out, out_len)
}

/// Returns a signed integer as a document.
#[unsafe(no_mangle)]
pub extern "C" fn jdoc_from_i64(
    alloc: Global,
    value: i64,
    out: &mut [u8],
    out_len: &mut usize,
) -> u32
    ensures { WritesResult (Encodes (spec.number (number_from int64 value 0))) (IsOutOfMemory or TooLarge)
        (DeliversValue out.old out.new out_len.new result) }
{
    deliver_item(alloc, &Item::Number(Number::Int64(value)), out, out_len)
}

/// Returns an unsigned integer as a document.
#[unsafe(no_mangle)]
pub extern "C" fn jdoc_from_u64(
    alloc: Global,
    value: u64,
    out: &mut [u8],
    out_len: &mut usize,
) -> u32
    ensures { WritesResult (Encodes (spec.number (number_from uint64 (pos value) 0))) (IsOutOfMemory or TooLarge)
        (DeliversValue out.old out.new out_len.new result) }
{
    deliver_item(alloc, &Item::Number(Number::UInt64(value)), out, out_len)
}

/// Returns a decimal as a document: an integer of two halves, `high * 2^64 + low`, over ten to the power of the scale.
#[unsafe(no_mangle)]
pub extern "C" fn jdoc_from_decimal(
    alloc: Global,
    high: i64,
    low: u64,
    scale: u8,
    out: &mut [u8],
    out_len: &mut usize,
) -> u32
    ensures { (t : Tree) → IsDecimalOf (whole_of high low) scale t
        → WritesResult (Encodes t) (IsOutOfMemory or TooLarge) (DeliversValue out.old out.new out_len.new result) }
{
    let number = decimal(whole_of(high, low), scale);
    deliver_item(alloc, &Item::Number(number), out, out_len)
}

/// Returns the 64-bit decimal if the value fits, otherwise the 128-bit decimal.
pub(crate) fn decimal(value: i128, scale: u8) -> Number
    ensures { (t : Tree) → IsDecimalOf value scale t → t ≡ spec.number (number_view result) }
{
    match i64::try_from(value) {
        Ok(value) => Number::Decimal64(Decimal64 { scale, value }),
        Err(_) => Number::Decimal128(Decimal128 { scale, value }),
    }
}

/// Returns a string as a document. It must be UTF-8.
#[unsafe(no_mangle)]
pub extern "C" fn jdoc_from_str(
    alloc: Global,
    text: &[u8],
    out: &mut [u8],
    out_len: &mut usize,
) -> u32
    ensures text { IsUtf8 text.now
        → WritesResult (Encodes (spec.text text.now)) (IsOutOfMemory or TooLarge)
        (DeliversValue out.old out.new out_len.new result) }
    ensures other { ¬ (IsUtf8 text.now) → DeliversNothing out.old out.new out_len.new result NotUtf8 }
{
    let Ok(text) = str::from_utf8(text) else {
        return deliver_nothing(Status::NotUtf8, out_len);
    };
    deliver_item(alloc, &Item::String(text), out, out_len)
}

/// Writes the document of an item to the caller's buffer.
fn deliver_item(alloc: Global, item: &Item<'_>, out: &mut [u8], out_len: &mut usize) -> u32
    ensures { (t : Tree) → ((form : Form) → StandsFor form item.now t)
        → WritesResult (Encodes t) (IsOutOfMemory or TooLarge) (DeliversValue out.old out.new out_len.new result) }
{
    deliver_vec(encode_item(alloc, item), out, out_len)
}

/// Returns an array of the documents of a column.
#[unsafe(no_mangle)]
pub extern "C" fn jdoc_array_from_column(
    alloc: Global,
    bytes: &[u8],
    offsets: &[u64],
    out: &mut [u8],
    out_len: &mut usize,
) -> u32
    ensures array { is_placed (rows bytes.now offsets.now) ≡ true
        → WritesResult (MakesArray (rows bytes.now offsets.now)) (IsDecodingError or OutOfMemory or TooLarge)
        (DeliversValue out.old out.new out_len.new result) }
    ensures other { is_placed (rows bytes.now offsets.now) ≡ false
        → DeliversNothing out.old out.new out_len.new result BadOffsets }
{
    let column = Column::new(bytes, offsets);
    if column.is_placed() {
        deliver_vec(array_of(alloc, &column), out, out_len)
    } else {
        deliver_nothing(Status::BadOffsets, out_len)
    }
}

/// Returns an array of the rows, whose offsets must be right.
fn array_of(alloc: Global, column: &Column<'_>) -> Result<Vec<u8>, Error>
    ensures array { MakesArray column.now (vec_answer result) }
    ensures errors { IfErr result (IsDecodingError or OutOfMemory or TooLarge) }
{
    let mut builder = ArrayBuilder::new(alloc);
    for index in 0..column.len() {
        match column.row(index) {
            Some(document) => builder.push_document(document)?,
            None => return Err(Error::InvalidJsonb),
        }
    }
    builder.build()
}
