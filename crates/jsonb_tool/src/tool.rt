//! The engine: from the words of a command line to lines and an exit status.

ghost use Rattle.std.specs.Prelude.{ℕ, List, map, IfOk, string_bytes};
ghost use Rattle.std.specs.Cow.{cow_str_bytes};
ghost use Rattle.std.specs.Io.KnownBytes.{Appends};
ghost use Rattle.jsonb_tool.specs.Answers.{IsAnswer};

use crate::command::Command;
use crate::output::output;
use jsonb::Error;
use std::alloc::Global;
use std::borrow::CowStr;
use std::io::Write;

/// Why a run gave no exit status.
#[derive(Clone, Copy, Debug, PartialEq, Eq)]
pub enum ToolFault {
    /// A write failed.
    Write,
}

/// The exit status after the lines of a command.
pub const SUCCESS: u8 = 0;

/// The exit status after an error.
const REFUSED: u8 = 1;

/// The exit status after `usage`.
const USAGE: u8 = 2;

/// What the program writes, and its exit status.
#[derive(Drop)]
struct Answer {
    lines: CowStr<'static, Global>,
    status: u8,
}

/// Writes the output of a command, and returns the exit status. `words` are the arguments without the program's name.
/// docs/PROGRAM.md lists the output.
///
/// The status is 0 after the lines of a command, 1 after `refused: ` with the error's text, and 2 after `usage`, for
/// arguments that are not a command. A failed allocation prints `refused: OutOfMemory`.
///
/// # Errors
///
/// `ToolFault::Write` if a write fails; how much was written before is not specified.
///
/// # Complexity
///
/// That of the call that the command makes, and of its lines: all are in memory before the first byte is written.
pub fn run<W: Write>(alloc: Global, words: &[String], out: &mut W) -> Result<u8, ToolFault>
    ensures { IfOk result (λ status. (lines : List ℕ)
        × Appends (W.contents out.old) (W.contents out.new) lines
        × IsAnswer (map string_bytes words.now) lines status) }
{
    let answer = answer_to(alloc, words);
    match out.write_all(answer.lines.as_str().as_bytes()) {
        Ok(()) => Ok(answer.status),
        Err(_) => Err(ToolFault::Write),
    }
}

/// Returns the output of a command. If an allocation fails it is the line that says so, which is not allocated.
fn answer_to(alloc: Global, words: &[String]) -> Answer
    ensures { IsAnswer (map string_bytes words.now) (cow_str_bytes result.lines) result.status }
{
    match made_answer(alloc, words) {
        Ok(answer) => answer,
        Err(_) => Answer {
            lines: CowStr::Borrowed("refused: OutOfMemory\n"),
            status: REFUSED,
        },
    }
}

/// Returns the output of a command; fails if an allocation fails.
fn made_answer(alloc: Global, words: &[String]) -> Result<Answer, Error>
    ensures { IfOk result (λ answer.
        IsAnswer (map string_bytes words.now) (cow_str_bytes answer.lines) answer.status) }
{
    let Some(command) = Command::read(alloc, words)? else {
        return Ok(Answer {
            lines: CowStr::Borrowed("usage\n"),
            status: USAGE,
        });
    };
    match output(alloc, &command) {
        Ok(lines) => Ok(Answer {
            lines: CowStr::Owned(lines),
            status: SUCCESS,
        }),
        Err(error) => Ok(Answer {
            lines: CowStr::Owned(format!(in alloc; "refused: {error}\n")?),
            status: REFUSED,
        }),
    }
}

#[cfg(test)]
mod tests;
