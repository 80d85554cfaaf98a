//! A document per row: what a path selects, the value at a location, and the document without it.

ghost use Rattle.std.specs.Prelude.{◌≡◌, ◌++◌, ◌^◌, ◌<◌, length, IfErr, OnOk, Ok, ok_or};
ghost use Rattle.jsonb_doc.specs.Answer.{IsDecodingError, ◌or◌};
ghost use Rattle.jsonb_doc.specs.declared.error.Error.TheVariants.{InvalidJsonType, InvalidKeyPath, OutOfMemory, TooLarge};
ghost use Rattle.jsonb_doc.specs.Format.{Decodes, IsContent, header, entry_word, scalar_header};
ghost use Rattle.jsonb_doc.specs.Kinds.{kind_number};
ghost use Rattle.jsonb_doc.specs.Limits.{Builds};
ghost use Rattle.jsonb_doc.specs.Payload.{Form, number_reader};
ghost use Rattle.jsonb_doc.specs.Tree.{Tree};
ghost use Rattle.jsonb_raw.specs.Documents.{MakesOption};
ghost use Rattle.jsonb_raw.specs.Places.{tree_at_steps};
ghost use Rattle.jsonb.specs.KeyPathGrammar.{key_path};
ghost use Rattle.jsonb.specs.KeyPathViews.{key_paths_view};
ghost use Rattle.jsonb.specs.PathGrammar.{json_path};
ghost use Rattle.jsonb.specs.PathViews.{path_view};
ghost use Rattle.jsonb.specs.SelectorAnswers.{first_item, single_or_array};
ghost use Rattle.jsonb_c.specs.Answers.{OfDocument, Shows, ShowsValue};
ghost use Rattle.jsonb_c.specs.Calls.{DeletesPart, DeletesPlace, FindsPart, SelectsItem, mode_of, one_array};
ghost use Rattle.jsonb_c.specs.Columns.{JoinsBy, rows};
ghost use Rattle.jsonb_c.specs.Private.Buffers.{row_bytes, written_answer};
ghost use Rattle.jsonb_c.specs.Private.Views.{place_of};
ghost use Rattle.jsonb_c.specs.declared.status.Status.TheVariants.{NotJsonPath, Refused};
ghost use Rattle.jsonb_c.specs.Private.Views.{pick_of};

use super::asked::PathColumn;
use super::call::{RowBytes, RowWriter};
use super::join::{Progress, fail_join};
use crate::document::select::{Pick, pick_by_path};
use crate::status::Status;
use jsonb::{Error, JsonPath, KeyPaths, OwnedJsonb, RawJsonb, parse_json_path, parse_key_paths};
use jsonb_doc::layout::{
    EntryKind, HeaderKind, MAX_CONTENT, WORD, encode_entry_word, encode_header,
};
use jsonb_doc::{StoredEntry, spot_entry, spot_value};
use std::alloc::Global;

/// What a path selects.
#[derive(Drop)]
struct Selects<'p> {
    path: JsonPath<'p>,
    strict: bool,
    pick: Pick,
}

impl RowWriter for Selects<'_> {
    ghost use Rattle.jsonb.specs.PathViews.{path_view};
    ghost use Rattle.jsonb_c.specs.Answers.{Shows};
    ghost use Rattle.jsonb_c.specs.Calls.{SelectsItem, mode_of};
    ghost use Rattle.jsonb_c.specs.Private.Views.{pick_of};

    ghost Writes = { λ call document old new status.
        SelectsItem (mode_of call.strict) (pick_of call.pick) (path_view call.path) document (Shows old new status) };

    fn write<'d>(
        &self,
        alloc: Global,
        document: &'d [u8],
        out: &mut Vec<u8>,
    ) -> Result<Option<RowBytes<'d>>, Error> {
        let picked = pick_by_path(alloc, document, &self.path, self.strict, self.pick)?;
        Ok(write_found(picked, out))
    }
}

/// Writes a document that was found.
fn write_found<'d>(document: Option<OwnedJsonb>, out: &mut Vec<u8>) -> Option<RowBytes<'d>>
    ensures { written_answer (Ok result) out.new.items ≡ Ok document }
{
    match document {
        Some(document) => {
            *out = document.to_vec();
            Some(RowBytes::Buffered)
        }
        None => None,
    }
}

/// The operation at a location.
#[derive(Clone, Copy)]
enum Operation {
    /// Returns the value there.
    Part,
    /// Returns the document without it.
    Rest,
}

/// The value at a location, or the document without it.
#[derive(Drop)]
struct AtPlace<'p> {
    steps: KeyPaths<'p>,
    wanted: Operation,
}

impl RowWriter for AtPlace<'_> {
    ghost use Rattle.jsonb.specs.KeyPathViews.{key_paths_view};
    ghost use Rattle.jsonb_c.specs.Private.Views.{place_of};

    ghost Writes = { λ call. place_of call.wanted (key_paths_view call.steps) };

    fn write<'d>(
        &self,
        alloc: Global,
        document: &'d [u8],
        out: &mut Vec<u8>,
    ) -> Result<Option<RowBytes<'d>>, Error> {
        match self.wanted {
            Operation::Part => part_bytes(alloc, document, &self.steps, out),
            Operation::Rest => {
                let left = without_part(alloc, document, &self.steps)?;
                *out = left.to_vec();
                Ok(Some(RowBytes::Buffered))
            }
        }
    }
}

/// Returns the value at the location of the steps. Fails for a number or an extension value that cannot be read.
///
/// A scalar is not copied to the buffer, and a number is read by `spot_value`, which is inlined: a row of 200 bytes takes
/// 50 instructions more with a copy, and 70 more with `item` for numbers.
fn part_bytes<'d, 'k>(
    alloc: Global,
    document: &'d [u8],
    steps: &'k KeyPaths<'k>,
    out: &mut Vec<u8>,
) -> Result<Option<RowBytes<'d>>, Error>
    ensures part { OfDocument document.now
        (λ form t. MakesOption form (tree_at_steps (key_paths_view steps.now) t))
        (written_answer result out.new.items) }
    ensures errors { IfErr result (IsDecodingError or OutOfMemory or TooLarge) }
{
    let found = RawJsonb::new(document).spot_by_keypath(alloc, steps.paths.iter())?;
    let Some(spot) = found else {
        return Ok(None);
    };
    let entry = spot_entry(document, spot)?;
    if entry.kind == EntryKind::Number {
        spot_value(document, spot)?;
    }
    let bytes = entry_bytes(entry, out)?;
    Ok(Some(bytes))
}

/// Returns the document of an entry, as it is stored. Fails for an extension value that cannot be read, but reads no
/// number.
fn entry_bytes<'d>(entry: StoredEntry<'d>, out: &mut Vec<u8>) -> Result<RowBytes<'d>, Error>
    ensures document { (form : Form) (t : Tree)
        → IsContent (number_reader form) t (kind_number entry.entry.kind) entry.entry.content.now
        → Builds form t result (λ made. Decodes form (row_bytes made out.new.items) t) }
    ensures errors { IfErr result (IsDecodingError or OutOfMemory or TooLarge) }
{
    if entry.kind == EntryKind::Container {
        out.clear();
        out.extend_from_slice(entry.content)?;
        return Ok(RowBytes::Buffered);
    }
    if !matches!(entry.kind, EntryKind::Text | EntryKind::Number) {
        entry.item()?;
    }
    if entry.content.len() > MAX_CONTENT {
        return Err(Error::TooLarge);
    }
    let words = scalar_words(entry.kind, entry.content.len());
    Ok(RowBytes::Scalar(words, entry.content))
}

/// Returns the words of the document of a scalar: that of its header, and that of its entry.
fn scalar_words(kind: EntryKind, len: usize) -> [u8; 2 * WORD]
    requires { len < 2 ^ 28 }
    ensures { result ≡ header scalar_header 0 ++ entry_word (kind_number kind) len }
{
    let mut words = [0; 2 * WORD];
    words[..WORD].copy_from_slice(&encode_header(HeaderKind::Scalar, 0));
    words[WORD..].copy_from_slice(&encode_entry_word(kind, len));
    words
}

pub(crate) fn part_at<'a>(
    alloc: Global,
    document: &'a [u8],
    steps: &'a KeyPaths<'a>,
) -> Result<Option<OwnedJsonb>, Error>
    ensures part { OfDocument document.now
        (λ form t. MakesOption form (tree_at_steps (key_paths_view steps.now) t)) result }
    ensures errors { IfErr result (IsDecodingError or OutOfMemory or TooLarge) }
{
    RawJsonb::new(document).get_by_keypath(alloc, steps.paths.iter())
}

pub(crate) fn without_part<'a>(
    alloc: Global,
    document: &'a [u8],
    steps: &'a KeyPaths<'a>,
) -> Result<OwnedJsonb, Error>
    ensures deleted { DeletesPlace (key_paths_view steps.now) document.now result }
    ensures errors { IfErr result (IsDecodingError or OutOfMemory or InvalidJsonType) }
{
    RawJsonb::new(document).delete_by_keypath(alloc, steps.paths.iter())
}

/// Returns the value of each document at a key path.
#[unsafe(no_mangle)]
pub extern "C" fn jdoc_column_get(
    alloc: Global,
    bytes: &[u8],
    offsets: &[u64],
    path: &[u8],
    out: &mut [u8],
    positions: &mut [u64],
    statuses: &mut [u8],
    progress: &mut Progress,
) -> u32
    ensures { JoinsBy (ok_or (key_path path.now) (Refused InvalidKeyPath))
        (λ steps document old new status. FindsPart steps document (Shows old new status))
        (rows bytes.now offsets.now)
        (out.old, positions.old, statuses.old) (out.new, positions.new, statuses.new) progress.new result }
{
    let asked = PathColumn::new(alloc, bytes, offsets, path);
    asked.place(Operation::Part, out, positions, statuses, progress)
}

/// Returns each document without the value at a key path.
#[unsafe(no_mangle)]
pub extern "C" fn jdoc_column_delete_by_keypath(
    alloc: Global,
    bytes: &[u8],
    offsets: &[u64],
    path: &[u8],
    out: &mut [u8],
    positions: &mut [u64],
    statuses: &mut [u8],
    progress: &mut Progress,
) -> u32
    ensures { JoinsBy (ok_or (key_path path.now) (Refused InvalidKeyPath))
        (λ steps document old new status. DeletesPart steps document (ShowsValue old new status))
        (rows bytes.now offsets.now)
        (out.old, positions.old, statuses.old) (out.new, positions.new, statuses.new) progress.new result }
{
    let asked = PathColumn::new(alloc, bytes, offsets, path);
    asked.place(Operation::Rest, out, positions, statuses, progress)
}

/// Returns the first item that a JSON path selects of each document.
#[unsafe(no_mangle)]
pub extern "C" fn jdoc_column_select_first(
    alloc: Global,
    bytes: &[u8],
    offsets: &[u64],
    path: &[u8],
    strict: bool,
    out: &mut [u8],
    positions: &mut [u64],
    statuses: &mut [u8],
    progress: &mut Progress,
) -> u32
    ensures { JoinsBy (ok_or (json_path path.now) NotJsonPath)
        (λ steps document old new status. SelectsItem (mode_of strict) first_item steps document
        (Shows old new status)) (rows bytes.now offsets.now)
        (out.old, positions.old, statuses.old) (out.new, positions.new, statuses.new) progress.new result }
{
    let asked = PathColumn::new(alloc, bytes, offsets, path);
    asked.select(strict, Pick::First, out, positions, statuses, progress)
}

/// Returns the item that a JSON path selects of each document if it is the only one, or an array if there are several.
#[unsafe(no_mangle)]
pub extern "C" fn jdoc_column_select_value(
    alloc: Global,
    bytes: &[u8],
    offsets: &[u64],
    path: &[u8],
    strict: bool,
    out: &mut [u8],
    positions: &mut [u64],
    statuses: &mut [u8],
    progress: &mut Progress,
) -> u32
    ensures { JoinsBy (ok_or (json_path path.now) NotJsonPath)
        (λ steps document old new status. SelectsItem (mode_of strict) single_or_array steps document
        (Shows old new status)) (rows bytes.now offsets.now)
        (out.old, positions.old, statuses.old) (out.new, positions.new, statuses.new) progress.new result }
{
    let asked = PathColumn::new(alloc, bytes, offsets, path);
    asked.select(strict, Pick::Value, out, positions, statuses, progress)
}

/// Returns an array of the items that a JSON path selects of each document.
#[unsafe(no_mangle)]
pub extern "C" fn jdoc_column_select_array(
    alloc: Global,
    bytes: &[u8],
    offsets: &[u64],
    path: &[u8],
    strict: bool,
    out: &mut [u8],
    positions: &mut [u64],
    statuses: &mut [u8],
    progress: &mut Progress,
) -> u32
    ensures { JoinsBy (ok_or (json_path path.now) NotJsonPath)
        (λ steps document old new status. SelectsItem (mode_of strict) one_array steps document
        (Shows old new status)) (rows bytes.now offsets.now)
        (out.old, positions.old, statuses.old) (out.new, positions.new, statuses.new) progress.new result }
{
    let asked = PathColumn::new(alloc, bytes, offsets, path);
    asked.select(strict, Pick::Array, out, positions, statuses, progress)
}

impl PathColumn<'_> {
    /// Applies the operation at the key path to each row.
    fn place(
        &self,
        wanted: Operation,
        out: &mut [u8],
        positions: &mut [u64],
        statuses: &mut [u8],
        progress: &mut Progress,
    ) -> u32
        ensures { JoinsBy (ok_or (key_path self.now.path.now) (Refused InvalidKeyPath))
            (place_of wanted) self.now.column
            (out.old, positions.old, statuses.old) (out.new, positions.new, statuses.new) progress.new result }
    {
        match parse_key_paths(self.alloc, self.path) {
            Ok(steps) => {
                let call = AtPlace { steps, wanted };
                self.column
                    .join(self.alloc, &call, out, positions, statuses, progress)
            }
            Err(error) => fail_join(Status::of_text(error), progress),
        }
    }

    /// Writes the document of the items that the path, a JSON path, selects of each row.
    fn select(
        &self,
        strict: bool,
        pick: Pick,
        out: &mut [u8],
        positions: &mut [u64],
        statuses: &mut [u8],
        progress: &mut Progress,
    ) -> u32
        ensures { JoinsBy (ok_or (json_path self.now.path.now) NotJsonPath)
            (λ steps document old new status. SelectsItem (mode_of strict) (pick_of pick) steps document
            (Shows old new status)) self.now.column
            (out.old, positions.old, statuses.old) (out.new, positions.new, statuses.new) progress.new result }
    {
        match parse_json_path(self.alloc, self.path) {
            Ok(path) => {
                let call = Selects { path, strict, pick };
                self.column
                    .join(self.alloc, &call, out, positions, statuses, progress)
            }
            Err(error) => fail_join(Status::of_text(error), progress),
        }
    }
}
