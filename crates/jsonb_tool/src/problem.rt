//! Why arguments have no result, for standard error.

ghost use Rattle.std.specs.Prelude.{◌≡◌, map, MatchResult, string_bytes};
ghost use Rattle.jsonb.specs.Answer.{IsOutOfMemory};
ghost use Rattle.jsonb_tool.specs.Problems.{IsProblemOf, IsUsage, path_problem as spec_path_problem};
ghost use Rattle.jsonb_tool.specs.Private.Lines.{request};

use crate::command::{Command, decode};
use crate::output::output;
use hex::FromHexError;
use jsonb::{Error, json_path_error_position, key_path_error_position};
use std::alloc::Global;
use std::fmt;

/// Why arguments have no result. It prints as what the user reads.
#[derive(Clone, Copy, Debug, PartialEq, Eq)]
pub enum Problem {
    /// They are another command, too few or too many.
    Command,
    /// The document is not hexadecimal.
    Digits(FromHexError),
    /// The text is not a key path.
    KeyPath { at: usize },
    /// The text is not a JSON path.
    JsonPath { at: usize },
    /// The command failed on the document.
    Refused(Error),
}

/// The commands.
const COMMANDS: &str = "\
usage: jsonb_tool COMMAND ARGUMENT..
  get KEYPATH HEX   the value at the key path, as a document, or none
  leaves HEX        a line for each leaf: its document and its key path, or none
  select PATH HEX   a line for each document that the JSON path selects, or none
  match PATH HEX    true, false or unknown, of a path that is a predicate
  key HEX           the document's sortable key
HEX is a document in hexadecimal.";

impl fmt::Display for Problem {
    fn fmt<W: fmt::Write>(&self, f: &mut fmt::Formatter<W>) -> fmt::Result {
        match self {
            Problem::Command => f.write_str(COMMANDS),
            Problem::Digits(error) => write!(f, "jsonb_tool: HEX is not hexadecimal: {error}"),
            Problem::KeyPath { at } => write!(f, "jsonb_tool: not a key path: error at byte {at}"),
            Problem::JsonPath { at } => write!(
                f,
                "jsonb_tool: not a JSON path: error at byte {at}"
            ),
            Problem::Refused(error) => {
                let meaning = meaning(*error);
                write!(f, "jsonb_tool: {meaning}")
            }
        }
    }
}

/// What an error of a command means.
fn meaning(error: Error) -> &'static str {
    match error {
        Error::InvalidJsonb => "HEX is not a document",
        Error::UnsupportedNumber => "the document has a float or a 256-bit decimal",
        Error::InvalidJsonPath => "the JSON path cannot be evaluated on this document",
        Error::Arithmetic(_) => "arithmetic of the JSON path fails on this document",
        Error::TooLarge => "an item is too large for a document",
        Error::TooDeep => "an item is nested too deeply for a sortable key",
        _ => "an allocation failed",
    }
}

/// Returns why arguments have no result, or `None` if they have one. Runs the command again.
///
/// # Errors
///
/// `OutOfMemory` if an allocation fails.
///
/// # Complexity
///
/// That of `run`.
pub fn explain(alloc: Global, words: &[String]) -> Result<Option<Problem>, Error>
    ensures { MatchResult result (IsProblemOf (map string_bytes words.now)) IsOutOfMemory }
{
    let Some(command) = Command::read(alloc, words)? else {
        return Ok(Some(usage_problem(alloc, words)?));
    };
    if let Some(problem) = path_problem(alloc, &command)? {
        return Ok(Some(problem));
    }
    match output(alloc, &command) {
        Ok(_) => Ok(None),
        Err(error) => Ok(Some(Problem::Refused(error))),
    }
}

/// Returns why arguments are not a command.
fn usage_problem(alloc: Global, words: &[String]) -> Result<Problem, Error>
    ensures { MatchResult result IsUsage IsOutOfMemory }
{
    let Some(digits) = document_of(words) else {
        return Ok(Problem::Command);
    };
    match decode(alloc, digits)? {
        Ok(_) => Ok(Problem::Command),
        Err(error) => Ok(Problem::Digits(error)),
    }
}

/// Returns the argument that is the document of a command.
fn document_of(words: &[String]) -> Option<&str> {
    match words {
        [name, _, digits] if ["get", "select", "match"].contains(&name.as_str()) => Some(
            digits.as_str(),
        ),
        [name, digits] if ["key", "leaves"].contains(&name.as_str()) => Some(digits.as_str()),
        _ => None,
    }
}

/// Returns the position of the error in the text of a command's path, or `None` if it is a path.
fn path_problem(alloc: Global, command: &Command<'_>) -> Result<Option<Problem>, Error>
    ensures { MatchResult result (λ found. found ≡ spec_path_problem (request command.now)) IsOutOfMemory }
{
    match command {
        Command::Get { path, .. } => {
            let position = key_path_error_position(alloc, path.as_bytes())?;
            Ok(position.map(|at| Problem::KeyPath { at }))
        }
        Command::Select { path, .. } | Command::Match { path, .. } => {
            let position = json_path_error_position(alloc, path.as_bytes())?;
            Ok(position.map(|at| Problem::JsonPath { at }))
        }
        Command::Key { .. } | Command::Leaves { .. } => Ok(None),
    }
}
