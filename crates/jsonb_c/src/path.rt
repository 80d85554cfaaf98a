//! Functions on a prepared JSON path and one document.

ghost use Rattle.std.specs.Prelude.{◌≡◌, MatchResult, Some, None, ok_or};
ghost use Rattle.jsonb_doc.specs.Answer.{IsOutOfMemory};
ghost use Rattle.jsonb.specs.PathErrorPosition.{json_path_error_position as spec_json_path_error_position};
ghost use Rattle.jsonb.specs.PathGrammar.{json_path};
ghost use Rattle.jsonb.specs.SelectorAnswers.{first_item, single_or_array};
ghost use Rattle.jsonb_c.specs.Answers.{DeliversBy, Shows, ShowsAs, ShowsNothing, With, WritesResult, truth_byte};
ghost use Rattle.jsonb_c.specs.Calls.{SelectsItem, TellsExistence, TellsTruth, mode_of, one_array};
ghost use Rattle.jsonb_c.specs.Limits.{WithPath};
ghost use Rattle.jsonb_c.specs.Status.{code};
ghost use Rattle.std.specs.Int.{from_bool};
ghost use Rattle.jsonb_c.specs.Representation.Prepared.{json_limit, json_steps, predicate_limit};
ghost use Rattle.jsonb_c.specs.Private.Views.{pick_of};
ghost use Rattle.jsonb_c.specs.declared.status.Status.TheVariants.{Answered, NotJsonPath};

use crate::deliver::{deliver, deliver_nothing, store_bool, store_found, store_truth};
use crate::document::select::{Pick, exists_by_path, match_by_path, pick_by_path};
use crate::prepared::{PathHandle, PreparedPath, parsing};
use crate::status::Status;
use jsonb::json_path_error_position;
use std::alloc::Global;

/// Parses a JSON path and keeps it in the handle, without a limit, in place of the path that it keeps.
#[unsafe(no_mangle)]
pub extern "C" fn jdoc_path_read(alloc: Global, text: &[u8], path: &mut PathHandle) -> u32
    ensures path { With (ok_or (json_path text.now) NotJsonPath)
        (λ steps. (result ≡ code Answered) × (json_steps path.new.value ≡ Some steps))
        (λ cause. (result ≡ code cause) × (path.new.value ≡ None)) }
    ensures limit { json_limit path.new.value ≡ None }
{
    path.keep(alloc, parsing::parse_json(alloc, text))
}

/// Returns the position of the error in text that is not a JSON path.
#[unsafe(no_mangle)]
pub extern "C" fn jdoc_path_error_position(alloc: Global, text: &[u8], position: &mut usize) -> u32
    ensures { WritesResult (λ answer. MatchResult answer (λ found. found ≡ spec_json_path_error_position text.now)
        IsOutOfMemory) IsOutOfMemory (Shows position.old position.new result) }
{
    store_found(json_path_error_position(alloc, text), position)
}

/// Drops the path that the handle keeps, if there is one.
#[unsafe(no_mangle)]
pub extern "C" fn jdoc_path_free(alloc: Global, path: &mut PathHandle)
    ensures { path.new.value ≡ None }
{
    path.clear(alloc);
}

/// Returns the first item that the path selects.
#[unsafe(no_mangle)]
pub extern "C" fn jdoc_path_select_first(
    alloc: Global,
    path: &mut PathHandle,
    document: &[u8],
    strict: bool,
    out: &mut [u8],
    out_len: &mut usize,
) -> u32
    ensures kept { path.new.value ≡ path.old.value }
    ensures item { DeliversBy (WithPath (json_limit path.old.value) (json_steps path.old.value) document.now)
        (λ steps. SelectsItem (mode_of strict) first_item steps document.now) out.old out.new out_len.new result }
{
    select(alloc, path, document, strict, Pick::First, out, out_len)
}

/// Returns the item that the path selects if it is the only one, or an array if there are several.
#[unsafe(no_mangle)]
pub extern "C" fn jdoc_path_select_value(
    alloc: Global,
    path: &mut PathHandle,
    document: &[u8],
    strict: bool,
    out: &mut [u8],
    out_len: &mut usize,
) -> u32
    ensures kept { path.new.value ≡ path.old.value }
    ensures item { DeliversBy (WithPath (json_limit path.old.value) (json_steps path.old.value) document.now)
        (λ steps. SelectsItem (mode_of strict) single_or_array steps document.now) out.old out.new out_len.new result }
{
    select(alloc, path, document, strict, Pick::Value, out, out_len)
}

/// Returns an array of the items that the path selects.
#[unsafe(no_mangle)]
pub extern "C" fn jdoc_path_select_array(
    alloc: Global,
    path: &mut PathHandle,
    document: &[u8],
    strict: bool,
    out: &mut [u8],
    out_len: &mut usize,
) -> u32
    ensures kept { path.new.value ≡ path.old.value }
    ensures array { DeliversBy (WithPath (json_limit path.old.value) (json_steps path.old.value) document.now)
        (λ steps. SelectsItem (mode_of strict) one_array steps document.now) out.old out.new out_len.new result }
{
    select(alloc, path, document, strict, Pick::Array, out, out_len)
}

/// Stores one document of what the path selects.
fn select(
    alloc: Global,
    path: &mut PathHandle,
    document: &[u8],
    strict: bool,
    pick: Pick,
    out: &mut [u8],
    out_len: &mut usize,
) -> u32
    ensures kept { path.new.value ≡ path.old.value }
    ensures item { DeliversBy (WithPath (json_limit path.old.value) (json_steps path.old.value) document.now)
        (λ steps. SelectsItem (mode_of strict) (pick_of pick) steps document.now) out.old out.new out_len.new result }
{
    let Some(kept) = path.take(alloc) else {
        return deliver_nothing(Status::NoPath, out_len);
    };
    let status = deliver_item(alloc, &kept, document, strict, pick, out, out_len);
    path.put(kept);
    status
}

/// Stores one document of what a path selects, if it is a JSON path.
#[tactic(auto, using(crate::proofs::LimitLemmas::admitted))]
fn deliver_item(
    alloc: Global,
    path: &PreparedPath,
    document: &[u8],
    strict: bool,
    pick: Pick,
    out: &mut [u8],
    out_len: &mut usize,
) -> u32
    ensures { DeliversBy (WithPath (json_limit (Some path.now)) (json_steps (Some path.now)) document.now)
        (λ steps. SelectsItem (mode_of strict) (pick_of pick) steps document.now) out.old out.new out_len.new result }
{
    match path.admitted(alloc, document) {
        Ok(steps) => {
            let item = pick_by_path(alloc, document, steps, strict, pick);
            deliver(item, out, out_len)
        }
        Err(cause) => deliver_nothing(cause, out_len),
    }
}

/// Returns whether the path selects an item.
#[unsafe(no_mangle)]
pub extern "C" fn jdoc_path_exists(
    alloc: Global,
    path: &mut PathHandle,
    document: &[u8],
    strict: bool,
    truth: &mut u8,
) -> u32
    ensures kept { path.new.value ≡ path.old.value }
    ensures exists { WithPath (json_limit path.old.value) (json_steps path.old.value) document.now
        (λ steps. TellsExistence (mode_of strict) steps document.now (ShowsAs from_bool truth.old truth.new result))
        (ShowsNothing truth.old truth.new result) }
{
    let Some(kept) = path.take(alloc) else {
        return Status::NoPath.to_u32();
    };
    let status = store_exists(alloc, &kept, document, strict, truth);
    path.put(kept);
    status
}

/// Stores whether a path selects an item, if it is a JSON path.
#[tactic(auto, using(crate::proofs::LimitLemmas::admitted))]
fn store_exists(
    alloc: Global,
    path: &PreparedPath,
    document: &[u8],
    strict: bool,
    truth: &mut u8,
) -> u32
    ensures { WithPath (json_limit (Some path.now)) (json_steps (Some path.now)) document.now
        (λ steps. TellsExistence (mode_of strict) steps document.now (ShowsAs from_bool truth.old truth.new result))
        (ShowsNothing truth.old truth.new result) }
{
    match path.admitted(alloc, document) {
        Ok(steps) => {
            let exists = exists_by_path(alloc, document, steps, strict);
            store_bool(exists, truth)
        }
        Err(cause) => cause.to_u32(),
    }
}

/// Returns the result of the path as a predicate: 0 for false, 1 for true, 2 for unknown.
#[unsafe(no_mangle)]
pub extern "C" fn jdoc_path_match(
    alloc: Global,
    path: &mut PathHandle,
    document: &[u8],
    strict: bool,
    truth: &mut u8,
) -> u32
    ensures kept { path.new.value ≡ path.old.value }
    ensures truth { WithPath (predicate_limit path.old.value) (json_steps path.old.value) document.now
        (λ steps. TellsTruth (mode_of strict) steps document.now (ShowsAs truth_byte truth.old truth.new result))
        (ShowsNothing truth.old truth.new result) }
{
    let Some(kept) = path.take(alloc) else {
        return Status::NoPath.to_u32();
    };
    let status = store_match(alloc, &kept, document, strict, truth);
    path.put(kept);
    status
}

/// Stores the result of a path as a predicate, if it is a JSON path.
#[tactic(auto, using(crate::proofs::LimitLemmas::admitted))]
fn store_match(
    alloc: Global,
    path: &PreparedPath,
    document: &[u8],
    strict: bool,
    truth: &mut u8,
) -> u32
    ensures { WithPath (predicate_limit (Some path.now)) (json_steps (Some path.now)) document.now
        (λ steps. TellsTruth (mode_of strict) steps document.now (ShowsAs truth_byte truth.old truth.new result))
        (ShowsNothing truth.old truth.new result) }
{
    match path.admitted_predicate(alloc, document) {
        Ok(steps) => {
            let said = match_by_path(alloc, document, steps, strict);
            store_truth(said, truth)
        }
        Err(cause) => cause.to_u32(),
    }
}
