//! The result of a command on a document: the lines of `jsonb_tool`.

use crate::problem::Problem;
use crate::question::Question;
use jsonb::{Error, OwnedJsonb, RawJsonb, SelectByPath};
use std::alloc::Global;

/// Returns the lines of a command on a document in hexadecimal, each with its line feed.
pub fn answer(alloc: Global, question: &Question<'_>, digits: &str) -> Result<String, Problem> {
    let mut bytes = vec![in alloc; 0u8; digits.len() / 2].map_err(Error::from)?;
    hex::decode_to_slice(digits, bytes.as_mut_slice())?;
    Ok(document_answer(alloc, question, bytes.as_slice())?)
}

fn document_answer(alloc: Global, question: &Question<'_>, bytes: &[u8]) -> Result<String, Error> {
    let document = RawJsonb::new(bytes);
    document.check()?;
    match question {
        Question::Get(steps) => {
            let part = document.get_by_keypath(alloc, steps.paths.iter())?;
            part_line(alloc, part)
        }
        Question::Select(path) => {
            let found = document.select_by_path(alloc, path)?;
            document_lines(alloc, found.as_slice())
        }
        Question::Match(path) => truth_line(alloc, document.path_match(alloc, path)?),
        Question::Key => {
            let key = document.convert_to_comparable(alloc)?;
            digits_line(alloc, key.as_slice())
        }
    }
}

/// A line of hexadecimal.
fn digits_line(alloc: Global, bytes: &[u8]) -> Result<String, Error> {
    let mut line = hex::encode(alloc, bytes)?;
    line.push('\n')?;
    Ok(line)
}

fn part_line(alloc: Global, part: Option<OwnedJsonb>) -> Result<String, Error> {
    match part {
        Some(document) => digits_line(alloc, document.as_raw().as_bytes()),
        None => Ok(String::from_str(alloc, "none\n")?),
    }
}

fn document_lines(alloc: Global, documents: &[OwnedJsonb]) -> Result<String, Error> {
    if documents.is_empty() {
        return Ok(String::from_str(alloc, "none\n")?);
    }
    let mut lines = String::new(alloc);
    for document in documents {
        let line = digits_line(alloc, document.as_raw().as_bytes())?;
        lines.push_str(line.as_str())?;
    }
    Ok(lines)
}

fn truth_line(alloc: Global, truth: Option<bool>) -> Result<String, Error> {
    let line = match truth {
        Some(true) => "true\n",
        Some(false) => "false\n",
        None => "unknown\n",
    };
    Ok(String::from_str(alloc, line)?)
}
