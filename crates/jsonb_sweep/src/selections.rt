//! The calls that select by a JSON path: of a lax selector, of a strict one, and of `SelectByPath`.

use crate::answer::{Answer, Wanted, both, is_answer};
use crate::documents::*;
use crate::mark::tell;
use jsonb::{Error, JsonPath, OwnedJsonb, RawJsonb, SelectByPath, Selector, parse_json_path};
use std::alloc::Global;

/// The call of a selection.
#[derive(Clone, Copy)]
pub enum Selection {
    Values,
    /// The items found in place, each then made a document.
    Found,
    Array,
    First,
    Value,
    Exists,
    Truth,
}

impl Selection {
    /// Asks a selector of a document.
    fn of(
        self,
        alloc: Global,
        document: &RawJsonb<'_>,
        selector: &mut Selector<'_>,
        path: &JsonPath<'_>,
    ) -> Result<Answer, Error> {
        match self {
            Selection::Values => selector.select_values(path).map(Answer::Documents),
            Selection::Found => found(alloc, document, selector, path).map(Answer::Documents),
            Selection::Array => selector.select_array(path).map(Answer::document),
            Selection::First => selector.select_first(path).map(Answer::found),
            Selection::Value => selector.select_value(path).map(Answer::found),
            Selection::Exists => selector.exists(path).map(Answer::Truth),
            Selection::Truth => selector.predicate_match(path).map(Answer::found_truth),
        }
    }

    /// Asks through `SelectByPath`.
    fn by_path(
        self,
        alloc: Global,
        document: RawJsonb<'_>,
        path: &JsonPath<'_>,
    ) -> Result<Answer, Error> {
        Ok(match self {
            Selection::Values | Selection::Found => {
                Answer::Documents(document.select_by_path(alloc, path)?)
            }
            Selection::Array => Answer::document(document.select_array_by_path(alloc, path)?),
            Selection::First => Answer::found(document.select_first_by_path(alloc, path)?),
            Selection::Value => Answer::found(document.select_value_by_path(alloc, path)?),
            Selection::Exists => Answer::Truth(document.path_exists(alloc, path)?),
            Selection::Truth => Answer::found_truth(document.path_match(alloc, path)?),
        })
    }
}

/// Returns documents of the items that a selector finds in place.
fn found(
    alloc: Global,
    document: &RawJsonb<'_>,
    selector: &mut Selector<'_>,
    path: &JsonPath<'_>,
) -> Result<Vec<OwnedJsonb>, Error> {
    let mut documents = Vec::new(alloc);
    for item in &selector.find_values(path)? {
        documents.push(item.to_document(alloc, document)?)?;
    }
    Ok(documents)
}

/// The way in which a selection is called.
#[derive(Clone, Copy)]
pub enum Way {
    Lax,
    Strict,
    ByPath,
}

/// The call, its path, its document, and the expected result.
pub type Asked<'a> = (Selection, &'static [u8], &'a [u8], Wanted<'a>);

/// Asks between the marks.
pub fn ask(rt: &HostRuntime, asked: &Asked<'_>, way: Way) -> Result<bool, Error> {
    let path = parse_json_path(rt.alloc(), asked.1)?;
    ask_path(rt, asked, &path, way)
}

fn ask_path(
    rt: &HostRuntime,
    asked: &Asked<'_>,
    path: &JsonPath<'_>,
    way: Way,
) -> Result<bool, Error> {
    let (alloc, (selection, _, document, wanted)) = (rt.alloc(), *asked);
    let document = RawJsonb::new(document);
    match way {
        Way::Lax => is_given_twice(rt, asked, path, Selector::new(alloc, document)),
        Way::Strict => is_given_twice(rt, asked, path, Selector::new_strict(alloc, document)),
        Way::ByPath => {
            let answer = marked!(rt, selection.by_path(alloc, document, path));
            is_answer(answer, wanted)
        }
    }
}

/// Calls a selector between the marks, and again after them: it returns what a new one does.
fn is_given_twice(
    rt: &HostRuntime,
    asked: &Asked<'_>,
    path: &JsonPath<'_>,
    new: Selector<'_>,
) -> Result<bool, Error> {
    let (alloc, (selection, _, document, wanted)) = (rt.alloc(), *asked);
    let document = RawJsonb::new(document);
    let mut selector = new;
    let answer = marked!(rt, selection.of(alloc, &document, &mut selector, path));
    let is_right = is_answer(answer, wanted);
    let again = selection.of(alloc, &document, &mut selector, path);
    both(is_right, is_answer(again, wanted))
}

/// `{"number":3720453,"type":"home"}`
const HOME: &[u8] =
    b"\x40\x00\x00\x02\x10\x00\x00\x06\x10\x00\x00\x04 \x00\x00\x05\x10\x00\x00\x04numbertypeP\x008\xc5\x05home";

/// `{"number":5062051,"type":"work"}`
const WORK: &[u8] =
    b"\x40\x00\x00\x02\x10\x00\x00\x06\x10\x00\x00\x04 \x00\x00\x05\x10\x00\x00\x04numbertypeP\x00M\x3d\xa3work";

/// The phones, each of which passes a filter within a filter.
const BOTH: &[u8] = b"$.phones[*]?(@.number > 1 && exists(@.type?(@ != \"fax\")))";

/// The six calls, each with the name of its method on a selector and in `SelectByPath`.
pub static CALLS: [(&str, &str, Asked<'static>); 6] = rows! {
    "select_values", "select_by_path", (Selection::Values, BOTH, PHONES, Wanted::Documents(&[HOME, WORK]));
    "select_array", "select_array_by_path", (Selection::Array, BOTH, PHONES, Wanted::Bytes(BOTH_PHONES));
    "select_first", "select_first_by_path", (Selection::First, BOTH, PHONES, Wanted::Bytes(HOME));
    "select_value", "select_value_by_path", (Selection::Value, BOTH, PHONES, Wanted::Bytes(BOTH_PHONES));
    "exists", "path_exists", (Selection::Exists, BOTH, PHONES, Wanted::Truth(true));
    "predicate_match", "path_match",
        (Selection::Truth, b"$.phones[*].number > 5000000 && exists($.name)", PHONES, Wanted::Truth(true));
};

/// Makes the six calls, and reports each result.
pub fn calls(rt: &HostRuntime) {
    for (of_selector, of_trait, asked) in &CALLS {
        let is_right = ask(rt, asked, Way::Lax);
        tell(rt, format_args!("{of_selector}, lax"), is_right);
        let is_right = ask(rt, asked, Way::Strict);
        tell(rt, format_args!("{of_selector}, strict"), is_right);
        tell(rt, *of_trait, ask(rt, asked, Way::ByPath));
    }
}

/// `[-10,-20,-30]`
const MINUS_TEN_TO_MINUS_THIRTY: &[u8] =
    b"\x80\x00\x00\x03 \x00\x00\x02 \x00\x00\x02 \x00\x00\x02\x40\xf6\x40\xec\x40\xe2";

/// `-1`
const MINUS_ONE: &[u8] = b" \x00\x00\x00 \x00\x00\x02\x40\xff";

/// `{"a":{"b":1}}`
const A_OF_B: &[u8] =
    b"\x40\x00\x00\x01\x10\x00\x00\x01P\x00\x00\x0fa\x40\x00\x00\x01\x10\x00\x00\x01 \x00\x00\x02bP\x01";

/// Selections of other kinds.
static OTHERS: [(&str, Asked<'static>); 12] = rows! {
    "find_values of a filter", (Selection::Found, BOTH, PHONES, Wanted::Documents(&[HOME, WORK]));
    "find_values of a sign", (Selection::Found, b"-$.a.b", A_OF_B, Wanted::Documents(&[MINUS_ONE]));
    "find_values of a comparison", (Selection::Found, b"1 == 1", A_OF_B, Wanted::Documents(&[TRUE]));
    "select_array of an arithmetic list",
        (Selection::Array, b"-$[*]", TENS, Wanted::Bytes(MINUS_TEN_TO_MINUS_THIRTY));
    "select_values of index entries", (Selection::Values, b"$[last, 0]", TENS, Wanted::Documents(&[THIRTY, TEN]));
    "select_values of each level", (Selection::Values, b"$.**", ONE_ELEMENT, Wanted::Documents(&[ONE_ELEMENT, ONE]));
    "select_first of a member of a member", (Selection::First, b"$.a.b", A_OF_B, Wanted::Bytes(ONE));
    "select_first of an element", (Selection::First, b"$.phones[0]", PHONES, Wanted::Bytes(HOME));
    "exists of a member", (Selection::Exists, b"$.name", PHONES, Wanted::Truth(true));
    "exists of a member of a member", (Selection::Exists, b"$.a.b", A_OF_B, Wanted::Truth(true));
    "predicate_match of no predicate", (Selection::Truth, b"$.a", LETTERS, Wanted::Nothing);
    "select_first of none", (Selection::First, b"$.phones[2]", PHONES, Wanted::Nothing);
};

/// Makes the other selections, and reports each result.
pub fn others(rt: &HostRuntime) {
    for (name, asked) in &OTHERS {
        tell(rt, *name, ask(rt, asked, Way::Lax));
    }
}
