//! Functions on a prepared key path and one document.

ghost use Rattle.std.specs.Prelude.{◌≡◌, MatchResult, Some, None, ok_or};
ghost use Rattle.jsonb_doc.specs.Answer.{IsOutOfMemory};
ghost use Rattle.jsonb_doc.specs.declared.error.Error.TheVariants.{InvalidKeyPath};
ghost use Rattle.jsonb.specs.ErrorPosition.{key_path_error_position as spec_key_path_error_position};
ghost use Rattle.jsonb.specs.KeyPathGrammar.{key_path};
ghost use Rattle.jsonb_c.specs.Answers.{DeliversBy, Shows, With, WithKept, WritesResult, always};
ghost use Rattle.jsonb_c.specs.Calls.{DeletesPart, FindsPart};
ghost use Rattle.jsonb_c.specs.Status.{code};
ghost use Rattle.jsonb_c.specs.Representation.Prepared.{key_steps};
ghost use Rattle.jsonb_c.specs.declared.status.Status.TheVariants.{Answered, NoPath, Refused};

use crate::column::documents::{part_at, without_part};
use crate::deliver::{deliver, deliver_made, deliver_nothing, store_found};
use crate::prepared::{PathHandle, PreparedPath, parsing};
use crate::status::Status;
use jsonb::key_path_error_position;
use std::alloc::Global;

/// Parses a key path and keeps it in the handle, in place of the path that it keeps.
#[unsafe(no_mangle)]
pub extern "C" fn jdoc_keypath_read(alloc: Global, text: &[u8], path: &mut PathHandle) -> u32
    ensures { With (ok_or (key_path text.now) (Refused InvalidKeyPath))
        (λ steps. (result ≡ code Answered) × (key_steps path.new.value ≡ Some steps))
        (λ cause. (result ≡ code cause) × (path.new.value ≡ None)) }
{
    path.keep(alloc, parsing::parse_keys(alloc, text))
}

/// Returns the position of the error in text that is not a key path.
#[unsafe(no_mangle)]
pub extern "C" fn jdoc_keypath_error_position(
    alloc: Global,
    text: &[u8],
    position: &mut usize,
) -> u32
    ensures { WritesResult (λ answer. MatchResult answer (λ found. found ≡ spec_key_path_error_position text.now)
        IsOutOfMemory) IsOutOfMemory (Shows position.old position.new result) }
{
    store_found(key_path_error_position(alloc, text), position)
}

/// Drops the path that the handle keeps, if there is one.
#[unsafe(no_mangle)]
pub extern "C" fn jdoc_keypath_free(alloc: Global, path: &mut PathHandle)
    ensures { path.new.value ≡ None }
{
    path.clear(alloc);
}

/// Returns the value at the location of the path.
#[unsafe(no_mangle)]
pub extern "C" fn jdoc_keypath_get(
    alloc: Global,
    path: &mut PathHandle,
    document: &[u8],
    out: &mut [u8],
    out_len: &mut usize,
) -> u32
    ensures kept { path.new.value ≡ path.old.value }
    ensures part { DeliversBy (WithKept (key_steps path.old.value))
        (λ steps. FindsPart steps document.now) out.old out.new out_len.new result }
{
    let Some(kept) = path.take(alloc) else {
        return deliver_nothing(Status::NoPath, out_len);
    };
    let status = deliver_part(alloc, &kept, document, out, out_len);
    path.put(kept);
    status
}

/// Stores the value at the location of a path, if it is a key path.
fn deliver_part(
    alloc: Global,
    path: &PreparedPath,
    document: &[u8],
    out: &mut [u8],
    out_len: &mut usize,
) -> u32
    ensures { DeliversBy (WithKept (key_steps (Some path.now)))
        (λ steps. FindsPart steps document.now) out.old out.new out_len.new result }
{
    match path.keys() {
        Some(steps) => {
            let part = part_at(alloc, document, steps);
            deliver(part, out, out_len)
        }
        None => deliver_nothing(Status::NoPath, out_len),
    }
}

/// Returns the document without the value at the location of the path.
#[unsafe(no_mangle)]
pub extern "C" fn jdoc_keypath_delete(
    alloc: Global,
    path: &mut PathHandle,
    document: &[u8],
    out: &mut [u8],
    out_len: &mut usize,
) -> u32
    ensures kept { path.new.value ≡ path.old.value }
    ensures rest { DeliversBy (WithKept (key_steps path.old.value))
        (λ steps IsShown. DeletesPart steps document.now (λ answer. IsShown (always answer)))
        out.old out.new out_len.new result }
{
    let Some(kept) = path.take(alloc) else {
        return deliver_nothing(Status::NoPath, out_len);
    };
    let status = deliver_rest(alloc, &kept, document, out, out_len);
    path.put(kept);
    status
}

/// Stores the document without the value at the location of a path, if it is a key path.
fn deliver_rest(
    alloc: Global,
    path: &PreparedPath,
    document: &[u8],
    out: &mut [u8],
    out_len: &mut usize,
) -> u32
    ensures { DeliversBy (WithKept (key_steps (Some path.now)))
        (λ steps IsShown. DeletesPart steps document.now (λ answer. IsShown (always answer)))
        out.old out.new out_len.new result }
{
    match path.keys() {
        Some(steps) => {
            let rest = without_part(alloc, document, steps);
            deliver_made(rest, out, out_len)
        }
        None => deliver_nothing(Status::NoPath, out_len),
    }
}
