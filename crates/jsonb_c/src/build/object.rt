//! Objects built from a column of keys and a column of documents.

ghost use Rattle.std.specs.Prelude.{◌≡◌, IfErr, false, length, map, true};
ghost use Rattle.jsonb_doc.specs.Answer.{IsDecodingError, ◌or◌};
ghost use Rattle.jsonb_doc.specs.declared.error.Error.TheVariants.{ObjectDuplicateKey, OutOfMemory, TooLarge};
ghost use Rattle.jsonb_c.specs.Answers.{DeliversNothing, DeliversValue, With, WritesResult};
ghost use Rattle.jsonb_c.specs.Columns.{rows};
ghost use Rattle.jsonb_c.specs.Making.{MakesObject, is_placed};
ghost use Rattle.jsonb_c.specs.Names.{names_of};
ghost use Rattle.jsonb_c.specs.declared.status.Status.TheVariants.{BadOffsets};
ghost use Rattle.jsonb_c.specs.Private.Views.{vec_answer};

use crate::column::Column;
use crate::deliver::{deliver_nothing, deliver_vec};
use crate::document::names::read_names;
use crate::status::Status;
use jsonb::{Error, ObjectBuilder};
use std::alloc::Global;

/// Returns an object of keys and documents, row by row.
#[unsafe(no_mangle)]
pub extern "C" fn jdoc_object_from_columns(
    alloc: Global,
    names: &[u8],
    name_offsets: &[u64],
    bytes: &[u8],
    offsets: &[u64],
    out: &mut [u8],
    out_len: &mut usize,
) -> u32
    ensures object { length (rows names.now name_offsets.now) ≡ length (rows bytes.now offsets.now)
        → is_placed (rows bytes.now offsets.now) ≡ true
        → With (names_of (rows names.now name_offsets.now))
        (λ read. WritesResult (MakesObject read (rows bytes.now offsets.now))
        (IsDecodingError or OutOfMemory or TooLarge or ObjectDuplicateKey)
        (DeliversValue out.old out.new out_len.new result))
        (DeliversNothing out.old out.new out_len.new result) }
    ensures count { ¬ (length (rows names.now name_offsets.now) ≡ length (rows bytes.now offsets.now))
        → DeliversNothing out.old out.new out_len.new result BadOffsets }
    ensures other { is_placed (rows bytes.now offsets.now) ≡ false
        → DeliversNothing out.old out.new out_len.new result BadOffsets }
{
    let names = Column::new(names, name_offsets);
    let documents = Column::new(bytes, offsets);
    if names.len() != documents.len() || !documents.is_placed() {
        return deliver_nothing(Status::BadOffsets, out_len);
    }
    match read_names(alloc, &names) {
        Ok(names) => deliver_vec(object_of(alloc, &names, &documents), out, out_len),
        Err(cause) => deliver_nothing(cause, out_len),
    }
}

/// Returns an object of the keys, each with the document in its row.
fn object_of(alloc: Global, names: &[&str], documents: &Column<'_>) -> Result<Vec<u8>, Error>
    requires { length names.now ≡ length documents.now }
    ensures object { MakesObject (map (λ name. name.now) names.now) documents.now (vec_answer result) }
    ensures errors { IfErr result (IsDecodingError or OutOfMemory or TooLarge or ObjectDuplicateKey) }
{
    let mut builder = ObjectBuilder::new(alloc);
    for (index, name) in names.iter().enumerate() {
        match documents.row(index) {
            Some(document) => builder.push_document(name, document)?,
            None => return Err(Error::InvalidJsonb),
        }
    }
    builder.build()
}
