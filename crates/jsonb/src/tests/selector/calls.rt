//! The calls other than `select_values`, and a selector that is used again.

use super::*;
use crate::{FirstItem, SelectByPath};

/// Returns a document's name, or `none`, or the error's name.
fn shown_option(
    alloc: Global,
    answer: Result<Option<OwnedJsonb>, Error>,
) -> Result<String, AllocError> {
    match answer {
        Ok(Some(document)) => name_of(alloc, document.as_raw().as_bytes()),
        Ok(None) => String::from_str(alloc, "none"),
        Err(error) => error.to_string(alloc),
    }
}

/// Appends a semicolon and a document's name, `none` or the error's name.
fn push_option(
    alloc: Global,
    text: &mut String,
    answer: Result<Option<OwnedJsonb>, Error>,
) -> Result<(), AllocError> {
    text.push(';')?;
    text.push_str(shown_option(alloc, answer)?.as_str())
}

/// Appends whether there is an item, and the result as a predicate, each after a semicolon.
fn push_truths(
    alloc: Global,
    text: &mut String,
    exists: Result<bool, Error>,
    truth: Result<Option<bool>, Error>,
) -> Result<(), AllocError> {
    text.push_str(format!(in alloc; ";{exists:?};{truth:?}")?.as_str())
}

/// Returns a document as one that might be missing.
fn some(answer: Result<OwnedJsonb, Error>) -> Result<Option<OwnedJsonb>, Error> {
    Ok(Some(answer?))
}

/// Appends the results of the other calls for a path.
fn push_answers(
    alloc: Global,
    text: &mut String,
    selector: &mut Selector<'_>,
    path: &JsonPath<'_>,
) -> Result<(), AllocError> {
    push_option(alloc, text, some(selector.select_array(path)))?;
    push_option(alloc, text, selector.select_first(path))?;
    push_option(alloc, text, selector.select_value(path))?;
    let exists = selector.exists(path);
    push_truths(alloc, text, exists, selector.predicate_match(path))
}

/// Returns the results of the six calls for a path.
fn answers_in(alloc: Global, document: &[u8], path: &JsonPath<'_>) -> Result<String, AllocError> {
    let mut selector = Selector::new(alloc, RawJsonb::new(document));
    let mut text = shown(alloc, selector.select_values(path))?;
    push_answers(alloc, &mut text, &mut selector, path)?;
    Ok(text)
}

/// Appends the results of the other calls on the document itself.
fn push_answers_by_path(
    alloc: Global,
    text: &mut String,
    document: RawJsonb<'_>,
    path: &JsonPath<'_>,
) -> Result<(), AllocError> {
    push_option(
        alloc,
        text,
        some(document.select_array_by_path(alloc, path)),
    )?;
    push_option(alloc, text, document.select_first_by_path(alloc, path))?;
    push_option(alloc, text, document.select_value_by_path(alloc, path))?;
    let exists = document.path_exists(alloc, path);
    push_truths(alloc, text, exists, document.path_match(alloc, path))
}

/// Returns the results of the six calls on the document itself.
fn answers_by_path(
    alloc: Global,
    document: &[u8],
    path: &JsonPath<'_>,
) -> Result<String, AllocError> {
    let document = RawJsonb::new(document);
    let mut text = shown(alloc, document.select_by_path(alloc, path))?;
    push_answers_by_path(alloc, &mut text, document, path)?;
    Ok(text)
}

/// Calls for a path, whose results a row states.
#[derive(Clone, Copy)]
enum Calls {
    /// The six calls of a selector.
    All,
    /// Those on the document itself.
    ByPath,
    /// `find_values`
    Found,
    /// `select_first` and `exists`
    First,
    /// `find_first`
    Place,
}

/// Returns the results of these calls.
fn answers(
    alloc: Global,
    calls: Calls,
    document: &[u8],
    path: &JsonPath<'_>,
) -> Result<String, AllocError> {
    match calls {
        Calls::All => answers_in(alloc, document, path),
        Calls::ByPath => answers_by_path(alloc, document, path),
        Calls::Found => shown(alloc, found_documents(alloc, document, path)),
        Calls::First => first_in(alloc, &mut selector(alloc, document, false), path),
        Calls::Place => place_in(alloc, document, path),
    }
}

/// Returns `true` if the calls have the results of a row.
fn are_answered(alloc: Global, calls: Calls, row: &str) -> Result<bool, Error> {
    let Some((document, path, wanted)) = cut(row) else {
        return Ok(false);
    };
    let document = bytes_of(alloc, document)?;
    let path = parse_json_path(alloc, path.as_bytes())?;
    Ok(answers(alloc, calls, &document, &path)?.as_str() == wanted)
}

/// After the arrow, the list, its array, its first item, its value, whether it has an item, and the result as a
/// predicate.
const ANSWERS: &str = r#"
[10,20,30] $[last, 0] => 30 10;[30,10];30;[30,10];Ok(true);Ok(None)
[1] $[*] => 1;[1];1;1;Ok(true);Ok(None)
[10,20,30] $[*] => 10 20 30;[10,20,30];10;[10,20,30];Ok(true);Ok(None)
[] $[*] => ;[];none;none;Ok(false);Ok(None)
[10,20,30] $[*]?(@ == 10 && @ == 20 || 5 < @) => 10 20 30;[10,20,30];10;[10,20,30];Ok(true);Ok(None)
[1] 1 == -1 => false;[false];false;false;Ok(true);Ok(Some(false))
[1,-2] -$[*] => -1 2;[-1,2];-1;[-1,2];Ok(true);Ok(None)
[10,20,30] $[*] > 25 => true;[true];true;true;Ok(true);Ok(Some(true))
[1,"a"] $[0] == 1 || $[1] == 1 => null;[null];null;null;Ok(true);Ok(None)
[1] $.a => ;[];none;none;Ok(false);Ok(None)
{"a":null,"b":[null]} $.a => null;[null];null;null;Ok(true);Ok(None)
{"a":null,"b":[null]} $:a => null;[null];null;null;Ok(true);Ok(None)
{"a":null,"b":[null]} $["a"] => null;[null];null;null;Ok(true);Ok(None)
{"a":null,"b":[null]} $.c => ;[];none;none;Ok(false);Ok(None)
{"a":null,"b":[null]} $.b == null => true;[true];true;true;Ok(true);Ok(Some(true))
{"k":"v"} $.k == 5 => null;[null];null;null;Ok(true);Ok(None)
[1] $.k == 5 => false;[false];false;false;Ok(true);Ok(Some(false))
{"number":3720453,"type":"home"} $.number > 3 => true;[true];true;true;Ok(true);Ok(Some(true))
{"number":3720453,"type":"home"} $.number < 3 => false;[false];false;false;Ok(true);Ok(Some(false))
{"number":3720453,"type":"home"} $.number starts with "3" => null;[null];null;null;Ok(true);Ok(None)"#;

#[test]
fn each_call_answers_by_the_same_list(rt: HostRuntime) {
    for row in ANSWERS.trim_start().lines() {
        expect(&rt, are_answered(rt.alloc(), Calls::All, row), row);
        expect(&rt, are_answered(rt.alloc(), Calls::ByPath, row), row);
    }
}

/// Returns documents of the items that a path finds in place.
fn found_documents(
    alloc: Global,
    document: &[u8],
    path: &JsonPath<'_>,
) -> Result<Vec<OwnedJsonb>, Error> {
    let root = RawJsonb::new(document);
    let mut documents = Vec::new(alloc);
    for item in &Selector::new(alloc, root).find_values(path)? {
        documents.push(item.to_document(alloc, &root)?)?;
    }
    Ok(documents)
}

/// After the arrow, the items: of the document, numbers, and the results of other expressions.
const FOUND: &str = r#"
[10,20,30] $[last, 0] => 30 10
{"a":{"b":[{"c":1}]}} $.**.c => 1
[1] $.a =>
[1,-2] -$[*] => -1 2
0 $ - 1 => -1
[1] 1 == -1 => false
[1] +1 => 1
[10,20,30] $[*] + 1 => InvalidJsonPath"#;

#[test]
fn items_are_found_in_place(rt: HostRuntime) {
    for row in FOUND.trim_start().lines() {
        expect(&rt, are_answered(rt.alloc(), Calls::Found, row), row);
    }
}

/// Returns the results of `select_first` and `exists`.
fn first_in(
    alloc: Global,
    selector: &mut Selector<'_>,
    path: &JsonPath<'_>,
) -> Result<String, AllocError> {
    let first = shown_option(alloc, selector.select_first(path))?;
    let exists = selector.exists(path);
    format!(in alloc; "{first};{exists:?}")
}

/// After the arrow, the first item at any position, and whether there is one. An error after it is the result.
const FIRST: &str = r#"
[5,{"b":2},{"a":1},{"a":[1]}] $[*].a => 1;Ok(true)
[{"a":1},5] $[*].a => 1;Ok(true)
[5,{"b":2},{"a":1},{"a":[1]}] $[*]?(@.a == 1).a => 1;Ok(true)
[5,{"b":2},{"a":1},{"a":[1]}] $[*]?(exists(@.a)).a?(@ == 1) => 1;Ok(true)
[{"a":1},{"b":2}] $[*]?(exists(@.b)).b?(@ > 1)?(@ < 3) => 2;Ok(true)
[{"a":[]},{"a":[[],1]}] $[*].a[*][*] => 1;Ok(true)
{"a":{"b":[{"c":1}]}} $.**.c => 1;Ok(true)
{"a":{"b":[{"c":1}]}} $.*.*[0].c => 1;Ok(true)
[{"a":1},{"b":2}] $[last, 0].a => 1;Ok(true)
[5,{"b":2},{"a":1},{"a":[1]}] $[*]?(exists(@.a[*][*]))[*].a => 1;Ok(true)
[] $[*][*] => none;Ok(false)
[5,{"b":2},{"a":1},{"a":[1]}] $[*].a.b => none;Ok(false)
[5,{"b":2},{"a":1},{"a":[1]}] $[*]?(@.a == 3) => none;Ok(false)
[{"a":[]},{"a":[[],1]}] $[2, 5 to 7].* => none;Ok(false)
[1,18446744073709551615] -$[*] => Arithmetic(Overflow);Err(Arithmetic(Overflow))
[{"a":1},{"b":2}] $[*]?(@.a == 1 || exists(@.b?(-@))) => InvalidJsonPath;Err(InvalidJsonPath)"#;

#[test]
fn the_first_is_found_wherever_it_stands(rt: HostRuntime) {
    for row in FIRST.trim_start().lines() {
        expect(&rt, are_answered(rt.alloc(), Calls::First, row), row);
    }
}

#[test]
fn a_strict_refusal_behind_the_first_is_the_answer(rt: HostRuntime) -> Result<(), Error> {
    let document = bytes_of(rt.alloc(), "[{\"a\":1},5]")?;
    let path = parse_json_path(rt.alloc(), b"$[*].a")?;
    let found = first_in(
        rt.alloc(),
        &mut selector(rt.alloc(), &document, true),
        &path,
    )?;
    assert!(rt; found.as_str() == "StrictPath;Err(StrictPath)");
    Ok(())
}

#[test]
fn a_predicate_is_strict_too(rt: HostRuntime) -> Result<(), Error> {
    let document = bytes_of(rt.alloc(), "[1]")?;
    let path = parse_json_path(rt.alloc(), b"exists($.a)")?;
    let mut selector = Selector::new_strict(rt.alloc(), RawJsonb::new(&document));
    assert!(rt; matches!(selector.predicate_match(&path), Err(Error::StrictPath)));
    Ok(())
}

#[test]
fn nothing_exists_in_no_bytes(rt: HostRuntime) -> Result<(), Error> {
    let path = parse_json_path(rt.alloc(), b"$")?;
    let mut selector = Selector::new(rt.alloc(), RawJsonb::new(b""));
    assert!(rt; matches!(selector.exists(&path), Err(Error::InvalidJsonb)));
    Ok(())
}

/// Paths, one after the other, and what each selects.
static CALLS: [(&str, &str); 4] = rows! {
    "$[*] + 1", "InvalidJsonPath";
    "$[last, 0]", "30 10";
    "$[*] + 1", "InvalidJsonPath";
    "$[last, 0]", "30 10";
};

/// Returns `true` if the path selects this by a selector that was used before.
fn is_next(
    alloc: Global,
    selector: &mut Selector<'_>,
    path: &str,
    wanted: &str,
) -> Result<bool, Error> {
    Ok(next_answer(alloc, selector, path)?.as_str() == wanted)
}

#[test]
fn a_refused_call_leaves_nothing_behind(rt: HostRuntime) -> Result<(), Error> {
    let document = bytes_of(rt.alloc(), "[10,20,30]")?;
    let mut selector = Selector::new(rt.alloc(), RawJsonb::new(&document));
    for (path, wanted) in &CALLS {
        let is_so = is_next(rt.alloc(), &mut selector, path, wanted);
        expect(&rt, is_so, *path);
    }
    Ok(())
}

/// After the arrow, the position of the first item in the document, `computed`, or the error.
const PLACES: &str = r#"
[10,20,30] $[1] => 18 to 20
[10,20,30] $[last, 0] => 20 to 22
[10,20,30] $[*]?(exists(@?(@ > 5))) => 16 to 18
[] $[*] => none
[1] $.a => none
[10,20,30] $[*] > 25 => computed
[10,20,30] $[1] + 1 => computed
[1] -$[5] => none
[1] -$[0] => computed
[1,18446744073709551615] -$[*] => Arithmetic(Overflow)
[{"a":1},{"b":2}] $[*]?(@.a == 1 || exists(@.b?(-@))) => InvalidJsonPath"#;

/// Returns the position of the first item.
fn place_in(alloc: Global, document: &[u8], path: &JsonPath<'_>) -> Result<String, AllocError> {
    match Selector::new(alloc, RawJsonb::new(document)).find_first(path) {
        Ok(Some(FirstItem::At(spot))) => {
            let range = spot.range();
            format!(in alloc; "{} to {}", range.start, range.end)
        }
        Ok(Some(FirstItem::Computed)) => String::from_str(alloc, "computed"),
        Ok(None) => String::from_str(alloc, "none"),
        Err(error) => error.to_string(alloc),
    }
}

#[test]
fn the_first_is_found_in_place(rt: HostRuntime) {
    for row in PLACES.trim_start().lines() {
        expect(&rt, are_answered(rt.alloc(), Calls::Place, row), row);
    }
}
