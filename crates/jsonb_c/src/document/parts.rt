//! Values in a document.

ghost use Rattle.std.specs.Prelude.{◌≡◌, ◌⊎◌, IfErr, None, ok_or};
ghost use Rattle.std.specs.Str.{IsUtf8};
ghost use Rattle.jsonb_doc.specs.Answer.{IsDecodingError, ◌or◌};
ghost use Rattle.jsonb_doc.specs.declared.error.Error.TheVariants.{InvalidKeyPath, OutOfMemory, TooLarge};
ghost use Rattle.jsonb_raw.specs.Children.{element_at, named_child};
ghost use Rattle.jsonb_raw.specs.Documents.{MakesOption};
ghost use Rattle.jsonb_raw.specs.Places.{tree_at_steps};
ghost use Rattle.jsonb.specs.KeyPathGrammar.{key_path};
ghost use Rattle.jsonb_c.specs.Answers.{Delivers, DeliversBy, DeliversNothing, OfDocument, With, WritesResult};
ghost use Rattle.jsonb_c.specs.Calls.{Finds, FindsPart};
ghost use Rattle.jsonb_c.specs.Private.Boxes.{ByPath};
ghost use Rattle.jsonb_c.specs.declared.status.Status.TheVariants.{NotUtf8, Refused};

use crate::deliver::{deliver, deliver_nothing};
use crate::status::Status;
use jsonb::{Error, OwnedJsonb, RawJsonb, parse_key_paths};
use std::alloc::Global;

/// Returns the element at a zero-based index of an array.
#[unsafe(no_mangle)]
pub extern "C" fn jdoc_get_by_index(
    alloc: Global,
    document: &[u8],
    index: usize,
    out: &mut [u8],
    out_len: &mut usize,
) -> u32
    ensures { WritesResult (OfDocument document.now (λ form t. Finds form (element_at index t)))
        (IsDecodingError or OutOfMemory or TooLarge) (Delivers out.old out.new out_len.new result) }
{
    let document = RawJsonb::new(document);
    deliver(document.get_by_index(alloc, index), out, out_len)
}

/// Returns the value of a key. With `ignore_case`, if the key itself is missing, returns the value of the first key
/// that equals it under ASCII case folding.
#[unsafe(no_mangle)]
pub extern "C" fn jdoc_get_by_name(
    alloc: Global,
    document: &[u8],
    name: &[u8],
    ignore_case: bool,
    out: &mut [u8],
    out_len: &mut usize,
) -> u32
    ensures named { IsUtf8 name.now
        → WritesResult (OfDocument document.now (λ form t. Finds form (named_child name.now ignore_case t)))
        (IsDecodingError or OutOfMemory or TooLarge) (Delivers out.old out.new out_len.new result) }
    ensures other { ¬ (IsUtf8 name.now) → DeliversNothing out.old out.new out_len.new result NotUtf8 }
{
    let Ok(name) = str::from_utf8(name) else {
        return deliver_nothing(Status::NotUtf8, out_len);
    };
    let document = RawJsonb::new(document);
    deliver(document.get_by_name(alloc, name, ignore_case), out, out_len)
}

/// Returns the value at a key path.
#[unsafe(no_mangle)]
pub extern "C" fn jdoc_get_by_keypath(
    alloc: Global,
    document: &[u8],
    path: &[u8],
    out: &mut [u8],
    out_len: &mut usize,
) -> u32
    ensures { DeliversBy (With (ok_or (key_path path.now) (Refused InvalidKeyPath)))
        (λ steps. FindsPart steps document.now) out.old out.new out_len.new result }
{
    deliver(get_by_keypath(alloc, document, path), out, out_len)
}

fn get_by_keypath(alloc: Global, document: &[u8], path: &[u8]) -> Result<Option<OwnedJsonb>, Error>
    ensures part { ByPath InvalidKeyPath (key_path path.now)
        (λ steps. OfDocument document.now (λ form t. MakesOption form (tree_at_steps steps t))) result }
    ensures errors { IfErr result (λ e. (IsDecodingError or OutOfMemory or TooLarge) e
        ⊎ ((e ≡ InvalidKeyPath) × (key_path path.now ≡ None))) }
{
    let steps = parse_key_paths(alloc, path)?;
    RawJsonb::new(document).get_by_keypath(alloc, steps.paths.iter())
}
