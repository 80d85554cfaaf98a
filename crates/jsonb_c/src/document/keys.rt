//! Keys of a document.

ghost use Rattle.std.specs.Prelude.{IfErr};
ghost use Rattle.jsonb_doc.specs.Answer.{IsDecodingError, ◌or◌};
ghost use Rattle.jsonb_doc.specs.declared.error.Error.TheVariants.{OutOfMemory, TooDeep};
ghost use Rattle.jsonb_c.specs.Answers.{DeliversValue};
ghost use Rattle.jsonb_c.specs.Calls.{WritesEqualityKey, WritesKey, width_of};
ghost use Rattle.jsonb_c.specs.Private.Views.{IsEqualityKeyOf, IsSortableKeyOf, vec_answer};
ghost use Rattle.jsonb_c.specs.Private.Buffers.{written_key};

use crate::deliver::deliver_vec;
use jsonb::{Error, RawJsonb};
use std::alloc::Global;

/// Returns the sortable key, with one-byte depths, or two-byte depths if it is wide.
#[unsafe(no_mangle)]
pub extern "C" fn jdoc_sort_key(
    alloc: Global,
    document: &[u8],
    wide: bool,
    out: &mut [u8],
    out_len: &mut usize,
) -> u32
    ensures { WritesKey (width_of wide) document.now (DeliversValue out.old out.new out_len.new result) }
{
    deliver_vec(sort_key(alloc, document, wide), out, out_len)
}

/// Returns the sortable key of a document.
pub(crate) fn sort_key(alloc: Global, document: &[u8], wide: bool) -> Result<Vec<u8>, Error>
    ensures key { IsSortableKeyOf (width_of wide) document.now (vec_answer result) }
    ensures errors { IfErr result (IsDecodingError or OutOfMemory or TooDeep) }
{
    let document = RawJsonb::new(document);
    if wide {
        document.convert_to_comparable_wide(alloc)
    } else {
        document.convert_to_comparable(alloc)
    }
}

/// Replaces the contents of a vector by the sortable key of a document.
pub(crate) fn write_sort_key(
    alloc: Global,
    document: &[u8],
    wide: bool,
    key: &mut Vec<u8>,
) -> Result<(), Error>
    ensures key { IsSortableKeyOf (width_of wide) document.now (written_key result key.new.items) }
    ensures errors { IfErr result (IsDecodingError or OutOfMemory or TooDeep) }
{
    let document = RawJsonb::new(document);
    if wide {
        document.convert_to_comparable_wide_into(alloc, key)
    } else {
        document.convert_to_comparable_into(alloc, key)
    }
}

/// Returns the equality key.
#[unsafe(no_mangle)]
pub extern "C" fn jdoc_equality_key(
    alloc: Global,
    document: &[u8],
    out: &mut [u8],
    out_len: &mut usize,
) -> u32
    ensures { WritesEqualityKey document.now (DeliversValue out.old out.new out_len.new result) }
{
    deliver_vec(equality_key(alloc, document), out, out_len)
}

/// Returns the equality key of a document.
pub(crate) fn equality_key(alloc: Global, document: &[u8]) -> Result<Vec<u8>, Error>
    ensures key { IsEqualityKeyOf document.now (vec_answer result) }
    ensures errors { IfErr result (IsDecodingError or OutOfMemory) }
{
    RawJsonb::new(document).equality_key(alloc)
}

/// Replaces the contents of a vector by the equality key of a document.
pub(crate) fn write_equality_key(
    alloc: Global,
    document: &[u8],
    key: &mut Vec<u8>,
) -> Result<(), Error>
    ensures key { IsEqualityKeyOf document.now (written_key result key.new.items) }
    ensures errors { IfErr result (IsDecodingError or OutOfMemory) }
{
    RawJsonb::new(document).equality_key_into(alloc, key)
}
