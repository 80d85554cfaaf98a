//! Functions that return a Boolean per row: 0 for false, 1 for true, 2 if it is unknown or the row fails.

ghost use Rattle.std.specs.Prelude.{◌≡◌, IfErr, IsOkAnd, ok_or};
ghost use Rattle.jsonb_doc.specs.Answer.{IsDecodingError};
ghost use Rattle.jsonb_doc.specs.Format.{Decodes};
ghost use Rattle.jsonb_doc.specs.Payload.{Form};
ghost use Rattle.jsonb_doc.specs.Tree.{Tree};
ghost use Rattle.std.specs.Int.{from_bool};
ghost use Rattle.jsonb_raw.specs.Contains.{contains};
ghost use Rattle.jsonb.specs.PathGrammar.{json_path};
ghost use Rattle.jsonb_c.specs.Answers.{Shows, ShowsAs, With, always, found_as, truth_byte};
ghost use Rattle.jsonb_c.specs.Calls.{TellsContainment, TellsExistence, TellsTruth, mode_of};
ghost use Rattle.jsonb_c.specs.Columns.{FillsRows, rows};
ghost use Rattle.jsonb_c.specs.Private.Views.{told};
ghost use Rattle.jsonb_c.specs.Status.{code};
ghost use Rattle.jsonb_c.specs.declared.status.Status.TheVariants.{NotJsonPath};

use super::Column;
use super::asked::PathColumn;
use super::call::RowCall;
use super::fill::fail_column;
use crate::deliver::{bool_byte, truth_byte};
use crate::document::select::{exists_by_path, match_by_path};
use crate::status::Status;
use jsonb::{Error, JsonPath, RawJsonb, parse_json_path};
use std::alloc::Global;

/// The byte of a row without a result.
const UNKNOWN: u8 = 2;

/// The property of a path that is evaluated for each row.
#[derive(Clone, Copy)]
enum Question {
    /// Whether the path selects an item.
    Existence,
    /// The result of the path as a predicate.
    Truth,
}

/// The result of a path for a document.
#[derive(Drop)]
struct PathQuery<'p> {
    path: JsonPath<'p>,
    strict: bool,
    question: Question,
}

impl RowCall<u8> for PathQuery<'_> {
    ghost use Rattle.jsonb.specs.PathViews.{path_view};
    ghost use Rattle.jsonb_c.specs.Calls.{mode_of};
    ghost use Rattle.jsonb_c.specs.Private.Views.{told};

    ghost Writes = { λ call. told call.question (mode_of call.strict) (path_view call.path) };

    fn answer(&self, alloc: Global, document: &[u8]) -> Result<Option<u8>, Error> {
        match self.question {
            Question::Existence => {
                let exists = exists_by_path(alloc, document, &self.path, self.strict)?;
                Ok(Some(bool_byte(exists)))
            }
            Question::Truth => {
                let truth = match_by_path(alloc, document, &self.path, self.strict)?;
                Ok(Some(truth_byte(truth)))
            }
        }
    }
}

/// Whether a document contains another.
#[derive(Clone, Copy)]
struct Holds<'a> {
    wanted: &'a [u8],
}

impl RowCall<u8> for Holds<'_> {
    ghost use Rattle.std.specs.Int.{from_bool};
    ghost use Rattle.jsonb_c.specs.Answers.{Shows, always, found_as};
    ghost use Rattle.jsonb_c.specs.Calls.{TellsContainment};

    ghost Writes = { λ call document old new status.
        TellsContainment call.wanted.now document (ShowsAs from_bool old new status) };

    fn answer(&self, alloc: Global, document: &[u8]) -> Result<Option<u8>, Error> {
        let contains = contains(alloc, document, self.wanted)?;
        Ok(Some(bool_byte(contains)))
    }
}

fn contains(alloc: Global, document: &[u8], wanted: &[u8]) -> Result<bool, Error>
    ensures contains { (form other_form : Form) (t u : Tree) → Decodes form document.now t
        → Decodes other_form wanted.now u → IsOkAnd result (λ b. b ≡ contains t u) }
    ensures errors { IfErr result IsDecodingError }
{
    RawJsonb::new(document).contains_in(alloc, &RawJsonb::new(wanted))
}

/// Returns whether a JSON path selects an item of each document.
#[unsafe(no_mangle)]
pub extern "C" fn jdoc_column_exists(
    alloc: Global,
    bytes: &[u8],
    offsets: &[u64],
    path: &[u8],
    strict: bool,
    truths: &mut [u8],
    statuses: &mut [u8],
    done: &mut usize,
) -> u32
    ensures { With (ok_or (json_path path.now) NotJsonPath)
        (λ steps. FillsRows (λ document old new status. TellsExistence (mode_of strict) steps document
        (ShowsAs from_bool old new status)) 2 (rows bytes.now offsets.now)
        (truths.old, statuses.old) (truths.new, statuses.new) done.new result)
        (λ cause. (result ≡ code cause) × (done.new ≡ 0) × (truths.new ≡ truths.old)
        × (statuses.new ≡ statuses.old)) }
{
    let asked = PathColumn::new(alloc, bytes, offsets, path);
    asked.tell(strict, Question::Existence, truths, statuses, done)
}

/// Returns the result of a JSON path as a predicate for each document.
#[unsafe(no_mangle)]
pub extern "C" fn jdoc_column_match(
    alloc: Global,
    bytes: &[u8],
    offsets: &[u64],
    path: &[u8],
    strict: bool,
    truths: &mut [u8],
    statuses: &mut [u8],
    done: &mut usize,
) -> u32
    ensures { With (ok_or (json_path path.now) NotJsonPath)
        (λ steps. FillsRows (λ document old new status. TellsTruth (mode_of strict) steps document
        (ShowsAs truth_byte old new status)) 2 (rows bytes.now offsets.now)
        (truths.old, statuses.old) (truths.new, statuses.new) done.new result)
        (λ cause. (result ≡ code cause) × (done.new ≡ 0) × (truths.new ≡ truths.old)
        × (statuses.new ≡ statuses.old)) }
{
    let asked = PathColumn::new(alloc, bytes, offsets, path);
    asked.tell(strict, Question::Truth, truths, statuses, done)
}

impl PathColumn<'_> {
    /// Evaluates the JSON path on each row.
    fn tell(
        &self,
        strict: bool,
        question: Question,
        truths: &mut [u8],
        statuses: &mut [u8],
        done: &mut usize,
    ) -> u32
        ensures { With (ok_or (json_path self.now.path.now) NotJsonPath)
            (λ steps. FillsRows (told question (mode_of strict) steps) 2 self.now.column
            (truths.old, statuses.old) (truths.new, statuses.new) done.new result)
            (λ cause. (result ≡ code cause) × (done.new ≡ 0) × (truths.new ≡ truths.old)
            × (statuses.new ≡ statuses.old)) }
    {
        match parse_json_path(self.alloc, self.path) {
            Ok(path) => {
                let call = PathQuery {
                    path,
                    strict,
                    question,
                };
                self.column
                    .fill(self.alloc, &call, UNKNOWN, truths, statuses, done)
            }
            Err(error) => fail_column(Status::of_text(error), done),
        }
    }
}

/// Returns whether each document contains the other one.
#[unsafe(no_mangle)]
pub extern "C" fn jdoc_column_contains(
    alloc: Global,
    bytes: &[u8],
    offsets: &[u64],
    wanted: &[u8],
    truths: &mut [u8],
    statuses: &mut [u8],
    done: &mut usize,
) -> u32
    ensures { FillsRows (λ document old new status. TellsContainment wanted.now document
        (ShowsAs from_bool old new status)) 2 (rows bytes.now offsets.now)
        (truths.old, statuses.old) (truths.new, statuses.new) done.new result }
{
    Column::new(bytes, offsets).fill(alloc, &Holds { wanted }, UNKNOWN, truths, statuses, done)
}
