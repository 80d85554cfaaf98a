//! Documents derived from others.

ghost use Rattle.std.specs.Prelude.{◌≡◌, ◌⊎◌, IfErr, None, ok_or};
ghost use Rattle.std.specs.Str.{IsUtf8};
ghost use Rattle.jsonb_doc.specs.Answer.{IsDecodingError, ◌or◌};
ghost use Rattle.jsonb_doc.specs.declared.error.Error.TheVariants.{InvalidJsonType, InvalidKeyPath, InvalidObject, ObjectDuplicateKey, OutOfMemory, TooLarge};
ghost use Rattle.jsonb_doc.specs.Format.{Decodes};
ghost use Rattle.jsonb_doc.specs.Payload.{Form};
ghost use Rattle.jsonb_doc.specs.Tree.{Tree};
ghost use Rattle.jsonb_raw.specs.Arrays.{array_insert};
ghost use Rattle.jsonb_raw.specs.Children.{without_name};
ghost use Rattle.jsonb_raw.specs.Concat.{concat};
ghost use Rattle.jsonb_raw.specs.Documents.{Makes};
ghost use Rattle.jsonb_raw.specs.Strip.{strip};
ghost use Rattle.jsonb.specs.KeyPathGrammar.{key_path};
ghost use Rattle.jsonb_c.specs.Answers.{DeliversBy, DeliversNothing, DeliversValue, OfDocument, With, WritesResult, always};
ghost use Rattle.jsonb_c.specs.Calls.{DeletesIndex, DeletesPart, DeletesPlace, InsertsPair, MakesOr};
ghost use Rattle.jsonb_c.specs.Private.Boxes.{ByPath};
ghost use Rattle.jsonb_c.specs.declared.status.Status.TheVariants.{NotUtf8, Refused};

use crate::deliver::{deliver_made, deliver_nothing};
use crate::status::Status;
use jsonb::{Error, OwnedJsonb, RawJsonb, parse_key_paths};
use std::alloc::Global;

/// Returns the document without the value at a key path.
#[unsafe(no_mangle)]
pub extern "C" fn jdoc_delete_by_keypath(
    alloc: Global,
    document: &[u8],
    path: &[u8],
    out: &mut [u8],
    out_len: &mut usize,
) -> u32
    ensures { DeliversBy (With (ok_or (key_path path.now) (Refused InvalidKeyPath)))
        (λ steps IsShown. DeletesPart steps document.now (λ answer. IsShown (always answer)))
        out.old out.new out_len.new result }
{
    deliver_made(delete_by_keypath(alloc, document, path), out, out_len)
}

fn delete_by_keypath(alloc: Global, document: &[u8], path: &[u8]) -> Result<OwnedJsonb, Error>
    ensures deleted { ByPath InvalidKeyPath (key_path path.now) (λ steps. DeletesPlace steps document.now) result }
    ensures errors { IfErr result (λ e. (IsDecodingError or OutOfMemory or InvalidJsonType) e
        ⊎ ((e ≡ InvalidKeyPath) × (key_path path.now ≡ None))) }
{
    let steps = parse_key_paths(alloc, path)?;
    RawJsonb::new(document).delete_by_keypath(alloc, steps.paths.iter())
}

/// Returns the object without the key, or the array without the strings equal to the name.
#[unsafe(no_mangle)]
pub extern "C" fn jdoc_delete_by_name(
    alloc: Global,
    document: &[u8],
    name: &[u8],
    out: &mut [u8],
    out_len: &mut usize,
) -> u32
    ensures named { IsUtf8 name.now
        → WritesResult (OfDocument document.now (λ form t. MakesOr InvalidJsonType form (without_name name.now t)))
        (IsDecodingError or OutOfMemory or TooLarge or InvalidJsonType)
        (DeliversValue out.old out.new out_len.new result) }
    ensures other { ¬ (IsUtf8 name.now) → DeliversNothing out.old out.new out_len.new result NotUtf8 }
{
    let Ok(name) = str::from_utf8(name) else {
        return deliver_nothing(Status::NotUtf8, out_len);
    };
    let document = RawJsonb::new(document);
    deliver_made(document.delete_by_name(alloc, name), out, out_len)
}

/// Returns the array without the element at an index, counted from the end if negative.
#[unsafe(no_mangle)]
pub extern "C" fn jdoc_delete_by_index(
    alloc: Global,
    document: &[u8],
    index: i32,
    out: &mut [u8],
    out_len: &mut usize,
) -> u32
    ensures { WritesResult (DeletesIndex index document.now)
        (IsDecodingError or OutOfMemory or TooLarge or InvalidJsonType)
        (DeliversValue out.old out.new out_len.new result) }
{
    let document = RawJsonb::new(document);
    deliver_made(document.delete_by_index(alloc, index), out, out_len)
}

/// Returns the members of two objects as one object, or the elements of two documents as one array.
#[unsafe(no_mangle)]
pub extern "C" fn jdoc_concat(
    alloc: Global,
    document: &[u8],
    other: &[u8],
    out: &mut [u8],
    out_len: &mut usize,
) -> u32
    ensures { WritesResult (λ answer. (form : Form) (t u : Tree)
        → Decodes form document.now t → Decodes form other.now u → Makes form (concat t u) answer)
        (IsDecodingError or OutOfMemory or TooLarge) (DeliversValue out.old out.new out_len.new result) }
{
    let document = RawJsonb::new(document);
    deliver_made(document.concat(alloc, &RawJsonb::new(other)), out, out_len)
}

/// Returns the array with the root of another document as one more element, at a position that counts from the end if
/// negative.
#[unsafe(no_mangle)]
pub extern "C" fn jdoc_array_insert(
    alloc: Global,
    document: &[u8],
    value: &[u8],
    position: i32,
    out: &mut [u8],
    out_len: &mut usize,
) -> u32
    ensures { WritesResult (λ answer. (form : Form) (t v : Tree)
        → Decodes form document.now t → Decodes form value.now v → Makes form (array_insert position v t) answer)
        (IsDecodingError or OutOfMemory or TooLarge) (DeliversValue out.old out.new out_len.new result) }
{
    let made = RawJsonb::new(document).array_insert(alloc, position, &RawJsonb::new(value));
    deliver_made(made, out, out_len)
}

/// Returns the object with one more member, or with another value for the key if it is to be updated.
#[unsafe(no_mangle)]
pub extern "C" fn jdoc_object_insert(
    alloc: Global,
    document: &[u8],
    value: &[u8],
    name: &[u8],
    update: bool,
    out: &mut [u8],
    out_len: &mut usize,
) -> u32
    ensures named { IsUtf8 name.now
        → WritesResult (InsertsPair document.now value.now name.now update)
        (IsDecodingError or OutOfMemory or TooLarge or InvalidObject or ObjectDuplicateKey)
        (DeliversValue out.old out.new out_len.new result) }
    ensures other { ¬ (IsUtf8 name.now) → DeliversNothing out.old out.new out_len.new result NotUtf8 }
{
    let Ok(name) = str::from_utf8(name) else {
        return deliver_nothing(Status::NotUtf8, out_len);
    };
    let made = RawJsonb::new(document).object_insert(alloc, name, &RawJsonb::new(value), update);
    deliver_made(made, out, out_len)
}

/// Returns the document without the members whose value is null, at every depth.
#[unsafe(no_mangle)]
pub extern "C" fn jdoc_strip_nulls(
    alloc: Global,
    document: &[u8],
    out: &mut [u8],
    out_len: &mut usize,
) -> u32
    ensures { WritesResult (OfDocument document.now (λ form t. Makes form (strip t)))
        (IsDecodingError or OutOfMemory or TooLarge) (DeliversValue out.old out.new out_len.new result) }
{
    deliver_made(RawJsonb::new(document).strip_nulls(alloc), out, out_len)
}
