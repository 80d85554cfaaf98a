//! The items that a JSON path selects of a document, and its result as a predicate.

ghost use Rattle.std.specs.Prelude.{◌≡◌, IfErr, ok_or};
ghost use Rattle.jsonb_doc.specs.Answer.{◌or◌};
ghost use Rattle.jsonb_doc.specs.declared.error.Error.TheVariants.{TooLarge};
ghost use Rattle.jsonb.specs.PathGrammar.{json_path};
ghost use Rattle.jsonb.specs.PathViews.{path_view};
ghost use Rattle.jsonb.specs.SelectionErrors.{IsSelectionError};
ghost use Rattle.jsonb_raw.specs.Documents.{raw_bytes};
ghost use Rattle.jsonb.specs.SelectorAnswers.{first_item, single_or_array, IsArrayOf, IsFound, IsPicked, IsTruthOf, ByMeanings};
ghost use Rattle.jsonb_c.specs.Answers.{DeliversBy, ShowsAs, ShowsNothing, With, truth_byte};
ghost use Rattle.jsonb_c.specs.Private.Views.{pick_of};
ghost use Rattle.jsonb_c.specs.Calls.{SelectsItem, TellsExistence, TellsTruth, mode_of, one_array};
ghost use Rattle.std.specs.Int.{from_bool};
ghost use Rattle.jsonb_c.specs.declared.status.Status.TheVariants.{NotJsonPath};

use crate::deliver::{deliver, deliver_nothing, store_bool, store_truth};
use crate::status::Status;
use jsonb::{Error, JsonPath, OwnedJsonb, RawJsonb, Selector, parse_json_path};
use std::alloc::Global;

/// Returns the item that a JSON path selects if it is the only one, or an array if there are several.
#[unsafe(no_mangle)]
pub extern "C" fn jdoc_select_value(
    alloc: Global,
    document: &[u8],
    path: &[u8],
    strict: bool,
    out: &mut [u8],
    out_len: &mut usize,
) -> u32
    ensures { DeliversBy (With (ok_or (json_path path.now) NotJsonPath))
        (λ steps. SelectsItem (mode_of strict) single_or_array steps document.now) out.old out.new out_len.new result }
{
    select(alloc, document, path, strict, Pick::Value, out, out_len)
}

/// Returns the first item that a JSON path selects.
#[unsafe(no_mangle)]
pub extern "C" fn jdoc_select_first(
    alloc: Global,
    document: &[u8],
    path: &[u8],
    strict: bool,
    out: &mut [u8],
    out_len: &mut usize,
) -> u32
    ensures { DeliversBy (With (ok_or (json_path path.now) NotJsonPath))
        (λ steps. SelectsItem (mode_of strict) first_item steps document.now) out.old out.new out_len.new result }
{
    select(alloc, document, path, strict, Pick::First, out, out_len)
}

/// Returns an array of the items that a JSON path selects.
#[unsafe(no_mangle)]
pub extern "C" fn jdoc_select_array(
    alloc: Global,
    document: &[u8],
    path: &[u8],
    strict: bool,
    out: &mut [u8],
    out_len: &mut usize,
) -> u32
    ensures { DeliversBy (With (ok_or (json_path path.now) NotJsonPath))
        (λ steps. SelectsItem (mode_of strict) one_array steps document.now) out.old out.new out_len.new result }
{
    select(alloc, document, path, strict, Pick::Array, out, out_len)
}

/// The document that is made of the items that a path selects.
#[derive(Clone, Copy)]
pub(crate) enum Pick {
    /// The first.
    First,
    /// The only item, or an array of several.
    Value,
    /// An array.
    Array,
}

/// Parses a JSON path, and stores one document of what it selects.
fn select(
    alloc: Global,
    document: &[u8],
    path: &[u8],
    strict: bool,
    pick: Pick,
    out: &mut [u8],
    out_len: &mut usize,
) -> u32
    ensures { DeliversBy (With (ok_or (json_path path.now) NotJsonPath))
        (λ steps. SelectsItem (mode_of strict) (pick_of pick) steps document.now) out.old out.new out_len.new result }
{
    match parse_json_path(alloc, path) {
        Ok(steps) => {
            let item = pick_by_path(alloc, document, &steps, strict, pick);
            deliver(item, out, out_len)
        }
        Err(error) => deliver_nothing(Status::of_text(error), out_len),
    }
}

/// Returns the result of a JSON path as a predicate: 0 for false, 1 for true, 2 for unknown.
#[unsafe(no_mangle)]
pub extern "C" fn jdoc_match(
    alloc: Global,
    document: &[u8],
    path: &[u8],
    strict: bool,
    truth: &mut u8,
) -> u32
    ensures { With (ok_or (json_path path.now) NotJsonPath)
        (λ steps. TellsTruth (mode_of strict) steps document.now (ShowsAs truth_byte truth.old truth.new result))
        (ShowsNothing truth.old truth.new result) }
{
    match parse_json_path(alloc, path) {
        Ok(steps) => {
            let said = match_by_path(alloc, document, &steps, strict);
            store_truth(said, truth)
        }
        Err(error) => Status::of_text(error).to_u32(),
    }
}

/// Returns whether a JSON path selects an item.
#[unsafe(no_mangle)]
pub extern "C" fn jdoc_exists(
    alloc: Global,
    document: &[u8],
    path: &[u8],
    strict: bool,
    truth: &mut u8,
) -> u32
    ensures { With (ok_or (json_path path.now) NotJsonPath)
        (λ steps. TellsExistence (mode_of strict) steps document.now (ShowsAs from_bool truth.old truth.new result))
        (ShowsNothing truth.old truth.new result) }
{
    match parse_json_path(alloc, path) {
        Ok(steps) => {
            let exists = exists_by_path(alloc, document, &steps, strict);
            store_bool(exists, truth)
        }
        Err(error) => Status::of_text(error).to_u32(),
    }
}

/// Creates a selector in this mode.
pub(crate) fn selector(alloc: Global, document: &[u8], strict: bool) -> Selector<'_>
    ensures root { raw_bytes result.root ≡ document.now }
    ensures mode { result.mode ≡ mode_of strict }
{
    let document = RawJsonb::new(document);
    if strict {
        Selector::new_strict(alloc, document)
    } else {
        Selector::new(alloc, document)
    }
}

/// Returns the document of the items that a parsed path selects.
pub(crate) fn pick_by_path<'a>(
    alloc: Global,
    document: &'a [u8],
    path: &'a JsonPath<'_>,
    strict: bool,
    pick: Pick,
) -> Result<Option<OwnedJsonb>, Error>
    ensures picked { ByMeanings (mode_of strict) document.now (path_view path.now)
        (IsPicked (pick_of pick)) result }
    ensures errors { IfErr result (IsSelectionError (mode_of strict) or TooLarge) }
{
    match pick {
        Pick::First => selector(alloc, document, strict).select_first(path),
        Pick::Value => selector(alloc, document, strict).select_value(path),
        Pick::Array => match array_by_path(alloc, document, path, strict) {
            Ok(array) => Ok(Some(array)),
            Err(error) => Err(error),
        },
    }
}

/// Returns an array of the items that a parsed path selects.
fn array_by_path(
    alloc: Global,
    document: &[u8],
    path: &JsonPath<'_>,
    strict: bool,
) -> Result<OwnedJsonb, Error>
    ensures array { ByMeanings (mode_of strict) document.now (path_view path.now) IsArrayOf result }
    ensures errors { IfErr result (IsSelectionError (mode_of strict) or TooLarge) }
{
    selector(alloc, document, strict).select_array(path)
}

/// Returns the result of a parsed path as a predicate.
pub(crate) fn match_by_path<'a>(
    alloc: Global,
    document: &'a [u8],
    path: &'a JsonPath<'_>,
    strict: bool,
) -> Result<Option<bool>, Error>
    ensures truth { IsTruthOf (mode_of strict) (path_view path.now) document.now result }
    ensures errors { IfErr result (IsSelectionError (mode_of strict)) }
{
    selector(alloc, document, strict).predicate_match(path)
}

/// Returns whether a parsed path selects an item.
pub(crate) fn exists_by_path<'a>(
    alloc: Global,
    document: &'a [u8],
    path: &'a JsonPath<'_>,
    strict: bool,
) -> Result<bool, Error>
    ensures exists { ByMeanings (mode_of strict) document.now (path_view path.now) IsFound result }
    ensures errors { IfErr result (IsSelectionError (mode_of strict)) }
{
    selector(alloc, document, strict).exists(path)
}
