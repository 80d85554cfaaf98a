//! Reading containers by position.

ghost use Rattle.std.specs.Prelude.{◌≡◌, ◌∷◌, [], Option, Result, IfErr, IsOkAnd, length, option_map};
ghost use Rattle.jsonb_doc.specs.Answer.{IsDecodingError, ◌or◌};
ghost use Rattle.jsonb_doc.specs.declared.error.Error.{Error};
ghost use Rattle.jsonb_doc.specs.declared.error.Error.TheVariants.{OutOfMemory, TooLarge};
ghost use Rattle.jsonb_c.specs.Answers.{OfDocument, Shows, WritesResult};
ghost use Rattle.jsonb_c.specs.Making.{DeliversPair, FindsPair};
ghost use Rattle.jsonb_doc.specs.Tree.{children_of};
ghost use Rattle.jsonb_c.specs.Private.Views.{pair_answer};

use crate::deliver::{store_found, write_at};
use crate::status::Status;
use jsonb::{Error, Item, encode_item, pairs, root_item};
use jsonb_doc::{array_elements, object_pairs};
use std::alloc::Global;

/// Returns the number of elements of an array, or of members of an object.
#[unsafe(no_mangle)]
pub extern "C" fn jdoc_len(document: &[u8], len: &mut usize) -> u32
    ensures { WritesResult
        (OfDocument document.now (λ form t answer. IsOkAnd answer (λ found. found ≡ option_map length (children_of t))))
        IsDecodingError (Shows len.old len.new result) }
{
    store_found(children_count(document), len)
}

fn children_count(document: &[u8]) -> Result<Option<usize>, Error>
    ensures count { OfDocument document.now
        (λ form t answer. IsOkAnd answer (λ found. found ≡ option_map length (children_of t))) result }
    ensures errors { IfErr result IsDecodingError }
{
    match root_item(document)? {
        Item::Array(bytes) => Ok(Some(array_elements(bytes)?.len())),
        Item::Object(bytes) => Ok(Some(object_pairs(bytes)?.len())),
        _ => Ok(None),
    }
}

/// Returns a member of an object by its position, in the order of the keys: its key in one buffer, its value as a
/// document in the other. Writes nothing if either is too small.
#[unsafe(no_mangle)]
pub extern "C" fn jdoc_pair(
    alloc: Global,
    document: &[u8],
    index: usize,
    key: &mut [u8],
    key_len: &mut usize,
    value: &mut [u8],
    value_len: &mut usize,
) -> u32
    ensures { WritesResult (OfDocument document.now (λ form t. FindsPair form index t))
        (IsDecodingError or OutOfMemory or TooLarge)
        (DeliversPair (key.old ∷ value.old ∷ []) (key.new ∷ value.new ∷ [])
        (key_len.new, value_len.new) result) }
{
    deliver_pair(
        pair_at(alloc, document, index),
        key,
        key_len,
        value,
        value_len,
    )
}

/// A key, and its value as a document.
#[derive(Drop)]
struct KeyValue<'a> {
    key: &'a str,
    value: Vec<u8>,
}

fn pair_at(alloc: Global, document: &[u8], index: usize) -> Result<Option<KeyValue<'_>>, Error>
    ensures pair { OfDocument document.now (λ form t. FindsPair form index t) (pair_answer result) }
    ensures errors { IfErr result (IsDecodingError or OutOfMemory or TooLarge) }
{
    let Some(pairs) = pairs(document)? else {
        return Ok(None);
    };
    let mut before = index;
    for pair in pairs {
        let (key, item) = pair?;
        if before == 0 {
            let value = encode_item(alloc, &item)?;
            return Ok(Some(KeyValue { key, value }));
        }
        before -= 1;
    }
    Ok(None)
}

fn deliver_pair(
    answer: Result<Option<KeyValue<'_>>, Error>,
    key: &mut [u8],
    key_len: &mut usize,
    value: &mut [u8],
    value_len: &mut usize,
) -> u32
    ensures { DeliversPair (key.old ∷ value.old ∷ []) (key.new ∷ value.new ∷ [])
        (key_len.new, value_len.new) result (pair_answer answer.entry) }
{
    *key_len = 0;
    *value_len = 0;
    match answer {
        Ok(Some(found)) => {
            let name = found.key.as_bytes();
            *key_len = name.len();
            *value_len = found.value.len();
            if key.len() < name.len() || !write_at(&found.value, value, 0) {
                return Status::BufferTooSmall.to_u32();
            }
            key[..name.len()].copy_from_slice(name);
            Status::Answered.to_u32()
        }
        Ok(None) => Status::Absent.to_u32(),
        Err(error) => Status::Refused(error).to_u32(),
    }
}
