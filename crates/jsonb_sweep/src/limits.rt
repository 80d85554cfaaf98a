//! The calls of a selector with a limit of items, within it and above it.

use crate::answer::{Answer, Wanted};
use crate::mark::tell;
use crate::selections::{Asked, CALLS, Selection};
use jsonb::{Error, JsonPath, LimitError, LimitedSelector, RawJsonb, parse_json_path};

/// A limit that no bound of a case exceeds.
const ENOUGH: u64 = 1_000_000;

impl Selection {
    /// Asks a selector with a limit.
    fn limited(
        self,
        selector: &mut LimitedSelector<'_>,
        path: &JsonPath<'_>,
    ) -> Result<Answer, LimitError> {
        match self {
            Selection::Values | Selection::Found => {
                selector.select_values(path).map(Answer::Documents)
            }
            Selection::Array => selector.select_array(path).map(Answer::document),
            Selection::First => selector.select_first(path).map(Answer::found),
            Selection::Value => selector.select_value(path).map(Answer::found),
            Selection::Exists => selector.exists(path).map(Answer::Truth),
            Selection::Truth => selector.predicate_match(path).map(Answer::found_truth),
        }
    }
}

/// Asks between the marks. Returns `true` if the result is the expected one, or above the limit `LimitExceeded`.
fn ask(rt: &HostRuntime, asked: &Asked<'_>, limit: u64) -> Result<bool, Error> {
    let alloc = rt.alloc();
    let (selection, path, document, wanted) = *asked;
    let path = parse_json_path(alloc, path)?;
    let mut selector = LimitedSelector::new(alloc, RawJsonb::new(document), limit)?;
    let answer = marked!(rt, selection.limited(&mut selector, &path));
    is_limited(answer, wanted, limit)
}

fn is_limited(
    answer: Result<Answer, LimitError>,
    wanted: Wanted<'_>,
    limit: u64,
) -> Result<bool, Error> {
    match answer {
        Ok(answer) => Ok(limit == ENOUGH && answer.is(wanted)),
        Err(LimitError::LimitExceeded) => Ok(limit != ENOUGH),
        Err(LimitError::Failed(error)) => Err(error),
    }
}

/// Computes the bound of a path between the marks. Returns `true` if it is above 1.
fn has_bound(rt: &HostRuntime, asked: &Asked<'_>) -> Result<bool, Error> {
    let alloc = rt.alloc();
    let (_, path, document, _) = *asked;
    let path = parse_json_path(alloc, path)?;
    let selector = LimitedSelector::new_strict(alloc, RawJsonb::new(document), 0)?;
    let bound = marked!(rt, selector.most_items(&path));
    Ok(bound? > 1)
}

/// Makes the calls, and reports each result.
pub fn calls(rt: &HostRuntime) {
    for (name, _, asked) in &CALLS {
        let is_right = ask(rt, asked, ENOUGH);
        tell(rt, format_args!("{name}, within a limit"), is_right);
        let is_right = ask(rt, asked, 1);
        tell(rt, format_args!("{name}, above a limit"), is_right);
        tell(
            rt,
            format_args!("most_items of {name}"),
            has_bound(rt, asked),
        );
    }
}
