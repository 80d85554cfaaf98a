//! Inputs, and what they print or that they do not parse.

use super::{are_equal, expect, is_same};
use crate::{Expr, JsonPath, Path, PathValue, parse_json_path};
use jsonb_doc::{Error, Number};
use std::alloc::Global;
use std::borrow::CowStr;

fn is_refused(alloc: Global, text: &[u8]) -> bool {
    matches!(parse_json_path(alloc, text), Err(Error::InvalidJsonPath))
}

// Whether the text prints so.
fn prints_text(alloc: Global, text: &[u8], wanted: &str) -> Result<bool, Error> {
    let found = parse_json_path(alloc, text)?;
    let printed = format!(in alloc; "{found}")?;
    Ok(printed.as_str() == wanted)
}

// Whether a copy of the path equals it.
fn equals_its_copy(alloc: Global, text: &[u8]) -> Result<bool, Error> {
    let found = parse_json_path(alloc, text)?;
    is_same(found.clone(alloc), &found)
}

// Whether the text prints so, what it prints does too, and a copy equals the path.
fn prints_as(alloc: Global, text: &[u8], wanted: &str) -> Result<bool, Error> {
    let is_printed = prints_text(alloc, text, wanted)?;
    let reads_back = prints_text(alloc, wanted.as_bytes(), wanted)?;
    Ok(is_printed && reads_back && equals_its_copy(alloc, text)?)
}

/// An input that does not parse on each line.
const REFUSED: &str = r#"
$["a
$[""]
$[0, 1, 2 4]
@ > 10
$.prop..
$?(@ == 10.5)
-1 == 1
$.**{300}
$[1,]
a<>1
-7 % 3
$."a
$.a\
$.a\u12
$.\ud83d
"a"
$.a&&$.b == 1
1 == nan
1 == -.5
1 == 18446744073709551616"#;

#[test]
fn refuses(rt: HostRuntime) {
    for text in REFUSED.trim_start().lines() {
        expect(&rt, Ok(is_refused(rt.alloc(), text.as_bytes())), text);
    }
    assert!(rt; is_refused(rt.alloc(), b"$.\xff"));
}

/// A line for each input: the input, an arrow between spaces, and what is printed. Then inputs of names, and those
/// that the grammar might have rejected: names with `&`, numbers with leading zeros, and a word alone as a name.
const PRINTED: &str = r#"
k1.k2:k3 => .k1.k2:k3
$.store.book[0,1, last - 2].price => $.store.book[0, 1, last-2].price
$[*].book.price ? (@ == 10) => $[*].book.price?(@ == 10)
($.a == 1 || $.b == 2) && $.c == 3 => ($.a == 1 || $.b == 2) && $.c == 3
$.a <> 1 => $.a != 1
true => .true
exists(@.a) => exists(@.a)
1 == -1 => 1 == -1
$.**{2 to LAST} => $.**{2 to last}
$[last - -2147483648] => $[last+2147483647]
$?(@.a == 1&&(exists(@?(@ > 1))||@.c == -2)).e => $?(@.a == 1 && (exists(@?(@ > 1)) || @.c == -2)).e
$?((exists(@.f?(@.a == 1).b)&&2 < @)||(@.d == 1&&exists($?(@ == -1)))) => $?((exists(@.f?(@.a == 1).b) && 2 < @) || (@.d == 1 && exists($?(@ == -1))))
$."a b" => $."a b"
$.1a => $."1a"
$.\u0041b => $.Ab
$:"é" => $:"é"
$["x\"y"] => $["x\"y"]
$.k == "a\\b" => $.k == "a\\b"
$[last + -2147483648] => $[last+-2147483648]
$[last + -5] => $[last-5]
$.\ud83d\ude00 => $."😀"
$.a == 1&&$.b == 1 => $.a == 1 && $.b == 1
$[007, -0] => $[7, 0]
$.**{007} => $.**{7}
1 => ."1"
null => .null
-5 => -5
+ +5 => +5
(1 + 1) => 1 + 1
(-$) => -$"#;

/// Inputs that no such line holds.
static PRINTED_WITH_ESCAPES: [(&str, &str); 3] = rows! {
    "", "";
    "$.a\n", "$.\"a\n\"";
    "$.a\t== 1", "$.\"a\t\" == 1";
};

/// Whether a row states what its input prints.
fn is_printed(alloc: Global, row: &str) -> Result<bool, Error> {
    let Some((text, wanted)) = row.split_once(" => ") else {
        return Ok(false);
    };
    prints_as(alloc, text.as_bytes(), wanted)
}

#[test]
fn prints(rt: HostRuntime) {
    for row in PRINTED.trim_start().lines() {
        expect(&rt, is_printed(rt.alloc(), row), row);
    }
    for (text, wanted) in &PRINTED_WITH_ESCAPES {
        expect(&rt, prints_as(rt.alloc(), text.as_bytes(), wanted), *text);
    }
}

#[test]
fn surrogates_are_one_character(rt: HostRuntime) {
    let pair = parse_json_path(rt.alloc(), b"$.\\ud83d\\ude00");
    let in_braces = parse_json_path(rt.alloc(), b"$.\\u{d83d}\\u{de00}");
    assert!(rt; are_equal(pair, in_braces) == Ok(true));
}

#[test]
fn parentheses_leave_nothing_behind(rt: HostRuntime) -> Result<(), Error> {
    let mut text = "(".repeat(rt.alloc(), 300)?;
    text.push_str("$ == 1")?;
    assert!(rt; is_refused(rt.alloc(), text.as_bytes()));
    text.push_str(")".repeat(rt.alloc(), 300)?.as_str())?;
    assert!(rt; prints_as(rt.alloc(), text.as_bytes(), "$ == 1") == Ok(true));
    Ok(())
}

/// Inputs, and whether the last name of the path of each is borrowed.
static BORROWED: [(&str, bool); 6] = rows! {
    "$.a", true;
    "a", true;
    "$:\"a b\"", true;
    "$[\"a b\"]", true;
    "$.\\u0041b", false;
    "$[\"x\\\"y\"]", false;
};

fn is_borrowed(name: &CowStr<'_>) -> bool {
    matches!(name, CowStr::Borrowed(_))
}

fn last_name_borrows(path: &JsonPath<'_>) -> bool {
    match path.paths.last() {
        Some(Path::DotField(name) | Path::ColonField(name) | Path::ObjectField(name)) =>
            is_borrowed(name),
        _ => false,
    }
}

// Whether a row states if the last name of its path borrows.
fn borrows_as(alloc: Global, text: &str, wanted: bool) -> Result<bool, Error> {
    let path = parse_json_path(alloc, text.as_bytes())?;
    Ok(last_name_borrows(&path) == wanted)
}

#[test]
fn names_without_escapes_borrow(rt: HostRuntime) {
    for (text, wanted) in &BORROWED {
        expect(&rt, borrows_as(rt.alloc(), text, *wanted), *text);
    }
}

// Whether a path is a sign before a 5 of the variant for signed numbers.
fn is_signed_five(path: &JsonPath<'_>) -> bool {
    let Some(Path::Expr(expression)) = path.paths.first() else {
        return false;
    };
    let Expr::UnaryOp { operand, .. } = &**expression else {
        return false;
    };
    match &**operand {
        Expr::Value(literal) => matches!(**literal, PathValue::Number(Number::Int64(5))),
        _ => false,
    }
}

// A literal that is not negative has the variant `UInt64`, but with a sign `Int64`.
#[test]
fn a_sign_makes_another_variant(rt: HostRuntime) -> Result<(), Error> {
    let found = parse_json_path(rt.alloc(), b"+ +5")?;
    assert!(rt; is_signed_five(&found));
    Ok(())
}
