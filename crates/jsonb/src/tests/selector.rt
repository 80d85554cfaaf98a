//! What paths select. Rows name documents by their JSON text.

mod by_hand;
mod calls;
mod documents;
mod lax;
mod limited;
mod repeats;
mod strict;

use self::documents::{bytes_of, name_of};
use super::expect;
use crate::{Error, JsonPath, OwnedJsonb, RawJsonb, Selector, parse_json_path};
use std::alloc::{AllocError, Global};

/// Returns the parts of a row: a document, a path and, after an arrow, the result.
fn cut(row: &str) -> Option<(&str, &str, &str)> {
    let (document, rest) = row.split_once(' ')?;
    let (path, answer) = rest.split_once(" =>")?;
    Some((document, path, answer.trim_start()))
}

/// Appends the name of a document.
fn push_name(alloc: Global, text: &mut String, document: &OwnedJsonb) -> Result<(), AllocError> {
    text.push_str(name_of(alloc, document.as_raw().as_bytes())?.as_str())
}

/// Appends the names of the documents, with a space between two.
fn push_names(
    alloc: Global,
    text: &mut String,
    documents: &[OwnedJsonb],
) -> Result<(), AllocError> {
    for document in documents {
        if !text.is_empty() {
            text.push(' ')?;
        }
        push_name(alloc, text, document)?;
    }
    Ok(())
}

/// Returns the names of the documents.
fn names(alloc: Global, documents: &[OwnedJsonb]) -> Result<String, AllocError> {
    let mut text = String::new(alloc);
    push_names(alloc, &mut text, documents)?;
    Ok(text)
}

/// Returns the names of the documents, or the error's name.
fn shown(alloc: Global, answer: Result<Vec<OwnedJsonb>, Error>) -> Result<String, AllocError> {
    match answer {
        Ok(documents) => names(alloc, &documents),
        Err(error) => error.to_string(alloc),
    }
}

/// Returns what the path selects by a selector, which may have been used before.
fn next_answer(alloc: Global, selector: &mut Selector<'_>, path: &str) -> Result<String, Error> {
    let path = parse_json_path(alloc, path.as_bytes())?;
    Ok(shown(alloc, selector.select_values(&path))?)
}

/// Returns a selector in strict or in lax mode.
fn selector(alloc: Global, document: &[u8], is_strict: bool) -> Selector<'_> {
    let root = RawJsonb::new(document);
    if is_strict {
        Selector::new_strict(alloc, root)
    } else {
        Selector::new(alloc, root)
    }
}

/// Returns what the path selects of the document in strict or in lax mode.
fn selected(alloc: Global, path: &str, document: &str, is_strict: bool) -> Result<String, Error> {
    let document = bytes_of(alloc, document)?;
    next_answer(alloc, &mut selector(alloc, &document, is_strict), path)
}

/// Returns `true` if the path selects this of the document in lax mode.
fn selects(alloc: Global, path: &str, document: &str, wanted: &str) -> Result<bool, Error> {
    Ok(selected(alloc, path, document, false)?.as_str() == wanted)
}

/// Appends a part this many times.
fn push_times(text: &mut String, part: &str, count: usize) -> Result<(), AllocError> {
    for _ in 0..count {
        text.push_str(part)?;
    }
    Ok(())
}

/// How a filter is nested: the start, what begins each level, what is innermost, and what ends each level; and what it
/// selects of `[1]`.
type Nested = (
    &'static str,
    &'static str,
    &'static str,
    &'static str,
    &'static str,
);

static NESTED: [Nested; 5] = [
    ("$", "[*]?(exists(@", "", "))", "1"),
    ("$", "?(exists(@", "", ".b))", ""),
    ("$", "?(exists(@", "", "?(1 == 1)))", "[1]"),
    ("$", "?(1 == 1 && exists(@", "", "))", "[1]"),
    ("$", "?(exists(@.*) || exists(@[*]", "", "))", "[1]"),
];

/// Returns a filter of 5,000 levels.
fn nested(alloc: Global, row: &Nested) -> Result<String, AllocError> {
    let mut text = String::from_str(alloc, row.0)?;
    push_times(&mut text, row.1, 5_000)?;
    text.push_str(row.2)?;
    push_times(&mut text, row.3, 5_000)?;
    Ok(text)
}

/// Returns `true` if the filter selects what its row states.
fn is_evaluated(alloc: Global, row: &Nested) -> Result<bool, Error> {
    let path = nested(alloc, row)?;
    selects(alloc, path.as_str(), "[1]", row.4)
}

#[test]
fn nested_filters_use_no_stack(rt: HostRuntime) {
    for row in &NESTED {
        expect(&rt, is_evaluated(rt.alloc(), row), row.1);
    }
}
