//! Paths built by hand: positions, levels, literals and copies.

use super::{expect, is_same};
use crate::{
    ArrayIndex, Error, Index, Path, PathValue, RawJsonb, RecursiveLevel, RecursiveLevelEnd,
    parse_json_path,
};
use jsonb_doc::{Decimal64, Number};
use std::alloc::Global;
use std::borrow::CowStr;
use std::cmp::Ordering;
use std::collections::HashSet;

const ALL: ArrayIndex = ArrayIndex::Slice((Index::Index(i32::MIN), Index::Index(i32::MAX)));

/// An entry, the length of an array, and the positions that the entry means there.
static POSITIONS: [(ArrayIndex, usize, &[usize]); 8] = rows! {
    ArrayIndex::Slice((Index::Index(-5), Index::Index(1))), 3, &[0, 1];
    ArrayIndex::Slice((Index::Index(2), Index::Index(0))), 3, &[];
    ArrayIndex::Slice((Index::LastIndex(0), Index::Index(9))), 3, &[2];
    ArrayIndex::Index(Index::LastIndex(-1)), 3, &[1];
    ArrayIndex::Index(Index::Index(-1)), 3, &[];
    ALL, 3, &[0, 1, 2];
    ArrayIndex::Index(Index::LastIndex(i32::MAX)), 3, &[];
    ALL, 0, &[];
};

fn holds_all(found: &HashSet<usize>, positions: &[usize]) -> bool {
    for position in positions {
        if !found.contains(position) {
            return false;
        }
    }
    true
}

// Whether the entry means just these positions of an array of that length.
fn means(
    alloc: Global,
    entry: ArrayIndex,
    length: usize,
    positions: &[usize],
) -> Result<bool, Error> {
    let found = entry.to_indices(alloc, length)?;
    Ok(found.len() == positions.len() && holds_all(&found, positions))
}

#[test]
fn positions(rt: HostRuntime) {
    for (entry, length, positions) in &POSITIONS {
        let is_so = means(rt.alloc(), *entry, *length, positions);
        expect(&rt, is_so, (*entry, *length));
    }
}

/// The start and end of a range of levels, a level, whether its item is selected, and whether its children are
/// visited.
static LEVELS: [(u8, RecursiveLevelEnd, u8, (bool, bool)); 5] = rows! {
    3, RecursiveLevelEnd::Index(2), 1, (false, false);
    3, RecursiveLevelEnd::Index(2), 3, (false, false);
    2, RecursiveLevelEnd::Last, 1, (false, true);
    2, RecursiveLevelEnd::Last, 2, (true, true);
    2, RecursiveLevelEnd::Last, 255, (true, true);
};

#[test]
fn levels(rt: HostRuntime) {
    for (start, end, level, wanted) in &LEVELS {
        let levels = RecursiveLevel {
            start: *start,
            end: Some(*end),
        };
        let answer = levels.check_recursive_level(*level);
        expect(&rt, Ok(answer == *wanted), (levels, *level));
    }
}

/// What a literal is made of.
#[derive(Clone, Copy, Debug)]
enum Literal {
    Null,
    Boolean(bool),
    Number(Number),
    String(&'static str),
}

impl Literal {
    fn value(self) -> PathValue<'static> {
        match self {
            Literal::Null => PathValue::Null,
            Literal::Boolean(truth) => PathValue::Boolean(truth),
            Literal::Number(number) => PathValue::Number(number),
            Literal::String(text) => PathValue::String(CowStr::Borrowed(text)),
        }
    }
}

/// Whether two literals are equal, how they compare, and whether the first is less.
type Comparison = (bool, Option<Ordering>, bool);

fn compared(left: Literal, right: Literal) -> Comparison {
    let (left, right) = (left.value(), right.value());
    (left == right, left.partial_cmp(&right), left < right)
}

const ONE: Number = Number::UInt64(1);

const ONE_POINT_ZERO: Number = Number::Decimal64(Decimal64 {
    scale: 1,
    value: 10,
});

const EQUAL: Comparison = (true, Some(Ordering::Equal), false);

const LESS: Comparison = (false, Some(Ordering::Less), true);

static COMPARED: [(Literal, Literal, Comparison); 5] = rows! {
    Literal::Number(ONE), Literal::Number(ONE_POINT_ZERO), EQUAL;
    Literal::Boolean(false), Literal::Boolean(true), LESS;
    Literal::Null, Literal::Null, EQUAL;
    Literal::String("a"), Literal::String("b"), LESS;
    Literal::Null, Literal::Boolean(false), (false, None, false);
};

#[test]
fn literals_compare(rt: HostRuntime) {
    for (left, right, wanted) in &COMPARED {
        let found = compared(*left, *right);
        expect(&rt, Ok(found == *wanted), (*left, *right));
    }
}

static DOCUMENT: &[u8] = b"\x80\0\0\x01\x20\0\0\x02\x50\x01";

// Whether a document and a copy of it print so.
fn prints_twice(alloc: Global, document: &PathValue<'_>, wanted: &str) -> Result<bool, Error> {
    let copy = document.clone(alloc)?;
    Ok(format!(in alloc; "{document} {copy}")?.as_str() == wanted)
}

#[test]
fn a_document_prints_in_hexadecimal_and_equals_none(rt: HostRuntime) {
    let document = PathValue::Raw(RawJsonb::new(DOCUMENT));
    let wanted = "raw(80000001200000025001) raw(80000001200000025001)";
    assert!(rt; prints_twice(rt.alloc(), &document, wanted) == Ok(true));
    assert!(rt; document != PathValue::Raw(RawJsonb::new(DOCUMENT)));
}

/// Returns `true` if both copies of a literal equal it.
fn equals_its_copies(alloc: Global, literal: &PathValue<'_>) -> Result<bool, Error> {
    Ok(literal.clone(alloc)? == *literal && literal.to_owned(alloc)? == *literal)
}

#[test]
fn literals_are_copied(rt: HostRuntime) {
    assert!(rt; equals_its_copies(rt.alloc(), &PathValue::Boolean(true)) == Ok(true));
    let document = PathValue::Raw(RawJsonb::new(DOCUMENT));
    assert!(rt; document.to_owned(rt.alloc()).err() == Some(Error::InvalidJsonPath));
}

/// Returns `true` if the paths of two inputs are equal.
fn are_equal(alloc: Global, one: &[u8], other: &[u8]) -> Result<bool, Error> {
    let path = parse_json_path(alloc, one)?;
    Ok(path == parse_json_path(alloc, other)?)
}

#[test]
fn paths_of_other_names_differ(rt: HostRuntime) {
    assert!(rt; are_equal(rt.alloc(), b"$.a", b"$.b") == Ok(false));
}

// Whether a copy of the step equals it, and so does one of its expression.
fn is_copied(alloc: Global, step: &Path<'_>) -> Result<bool, Error> {
    Ok(is_same(step.clone(alloc), step)? && is_filter_copied(alloc, step)?)
}

// Whether a copy of the filter's expression equals it, if the step is a filter.
fn is_filter_copied(alloc: Global, step: &Path<'_>) -> Result<bool, Error> {
    let Path::FilterExpr(expression) = step else {
        return Ok(true);
    };
    is_same((**expression).clone(alloc), expression)
}

#[test]
fn parts_are_copied(rt: HostRuntime) -> Result<(), Error> {
    let found = parse_json_path(
        rt.alloc(),
        b"$.**{1}[0]?(exists(@:b) && @.c < \"\\n\" || -@)",
    )?;
    for (index, step) in found.paths.iter().enumerate() {
        expect(&rt, is_copied(rt.alloc(), step), index);
    }
    Ok(())
}

/// Inputs, and whether the path of each is a single expression.
static PREDICATES: [(&str, bool); 4] = [
    ("1 == -1", true),
    ("-5", true),
    ("$.a", false),
    ("", false),
];

fn is_predicate(alloc: Global, text: &str) -> Result<bool, Error> {
    Ok(parse_json_path(alloc, text.as_bytes())?.is_predicate())
}

#[test]
fn predicates(rt: HostRuntime) {
    for (text, wanted) in &PREDICATES {
        let found = is_predicate(rt.alloc(), text);
        expect(&rt, Ok(found == Ok(*wanted)), *text);
    }
}
