//! The rows of docs/rows/paths.tsv, and of the tables of keys in docs/FORMAT.md.

mod rows;

use self::rows::ROWS;
use jsonb::{
    Error, OwnedJsonb, RawJsonb, SelectByPath, Selector, json_path_error_position,
    key_path_error_position, parse_json_path, parse_key_paths,
};
use std::alloc::Global;

/// Returns documents in hexadecimal with spaces between, or `none`.
fn documents_text(alloc: Global, found: &[OwnedJsonb]) -> Result<String, Error> {
    let mut text = String::new(alloc);
    for document in found {
        if !text.is_empty() {
            text.push(' ')?;
        }
        let digits = hex::encode(alloc, document.as_raw().as_bytes())?;
        text.push_str(digits.as_str())?;
    }
    if text.is_empty() {
        text.push_str("none")?;
    }
    Ok(text)
}

/// Returns the result of a selector for the text of a path.
fn selected(alloc: Global, mut selector: Selector<'_>, text: &str) -> Result<String, Error> {
    let path = parse_json_path(alloc, text.as_bytes())?;
    let found = selector.select_values(&path)?;
    documents_text(alloc, found.as_slice())
}

/// Returns `true`, `false` or `unknown`.
fn truth(alloc: Global, whole: &RawJsonb<'_>, text: &str) -> Result<String, Error> {
    let path = parse_json_path(alloc, text.as_bytes())?;
    let word = match whole.path_match(alloc, &path)? {
        Some(true) => "true",
        Some(false) => "false",
        None => "unknown",
    };
    Ok(String::from_str(alloc, word)?)
}

/// Returns the document at the location of a key path, or `none`.
fn part_at(alloc: Global, whole: &RawJsonb<'_>, text: &str) -> Result<String, Error> {
    let steps = parse_key_paths(alloc, text.as_bytes())?;
    Ok(match whole.get_by_keypath(alloc, steps.paths.iter())? {
        Some(part) => hex::encode(alloc, part.to_vec())?,
        None => String::from_str(alloc, "none")?,
    })
}

/// Returns the printed form of a path, or `refused`.
fn printed(alloc: Global, text: &str) -> Result<String, Error> {
    Ok(match parse_json_path(alloc, text.as_bytes()) {
        Ok(path) => format!(in alloc; "{path}")?,
        Err(_) => String::from_str(alloc, "refused")?,
    })
}

/// Returns the printed form of a key path, or `refused`.
fn printed_key_path(alloc: Global, text: &str) -> Result<String, Error> {
    Ok(match parse_key_paths(alloc, text.as_bytes()) {
        Ok(path) => format!(in alloc; "{path}")?,
        Err(_) => String::from_str(alloc, "refused")?,
    })
}

/// Returns the position of an error, or `none`.
fn position_text(alloc: Global, position: Result<Option<usize>, Error>) -> Result<String, Error> {
    Ok(match position? {
        Some(at) => format!(in alloc; "{at}")?,
        None => String::from_str(alloc, "none")?,
    })
}

/// Returns a key in hexadecimal.
fn key_text(alloc: Global, key: Result<Vec<u8>, Error>) -> Result<String, Error> {
    Ok(hex::encode(alloc, key?)?)
}

/// Returns the result for a row.
fn answer(alloc: Global, asked: &str, text: &str, whole: &RawJsonb<'_>) -> Result<String, Error> {
    match asked {
        "lax" => selected(alloc, Selector::new(alloc, *whole), text),
        "strict" => selected(alloc, Selector::new_strict(alloc, *whole), text),
        "truth" => truth(alloc, whole, text),
        "place" => part_at(alloc, whole, text),
        "path" => printed(alloc, text),
        "key path" => printed_key_path(alloc, text),
        "error" => position_text(alloc, json_path_error_position(alloc, text.as_bytes())),
        "key path error" => position_text(alloc, key_path_error_position(alloc, text.as_bytes())),
        "sortable key" => key_text(alloc, whole.convert_to_comparable(alloc)),
        _ => key_text(alloc, whole.equality_key(alloc)),
    }
}

/// Returns what is asked, the text of a path, the digits of a document, and the result.
fn parts(row: &str) -> Option<(&str, &str, &str, &str)> {
    let (asked, rest) = row.split_once('\t')?;
    let (text, rest) = rest.split_once('\t')?;
    let (digits, wanted) = rest.split_once('\t')?;
    Some((asked, text, digits, wanted))
}

/// Returns `true` if the row states the result.
fn holds(alloc: Global, row: &str) -> Result<bool, Error> {
    let Some((asked, text, digits, wanted)) = parts(row) else {
        return Ok(false);
    };
    let bytes = hex::decode(alloc, digits).or(Err(Error::InvalidJsonb))?;
    let found = answer_text(alloc, asked, text, &RawJsonb::new(bytes.as_slice()))?;
    Ok(found.as_str() == wanted)
}

/// Returns the result for a row, or `refused` and its error.
fn answer_text(
    alloc: Global,
    asked: &str,
    text: &str,
    whole: &RawJsonb<'_>,
) -> Result<String, Error> {
    match answer(alloc, asked, text, whole) {
        Ok(found) => Ok(found),
        Err(error) => Ok(format!(in alloc; "refused: {error}")?),
    }
}

#[test]
fn answers_are_as_the_tables_say(rt: HostRuntime) -> Result<(), Error> {
    for row in ROWS.lines().skip(1) {
        assert!(rt; holds(rt.alloc(), row)?, "{row}");
    }
    Ok(())
}
