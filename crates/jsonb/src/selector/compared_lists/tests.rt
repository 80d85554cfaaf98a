//! Counts the steps of comparisons whose items are listed.

use super::*;
use crate::parser::parse_json_path;
use crate::tests::expect;
use jsonb_doc::Error;

/// Comparisons, and the number of steps before the names at the end.
static COMPARISONS: [(&str, usize); 5] = [
    ("$ == 1", 0),
    ("$.a.b == 1", 0),
    ("$[*] == 1", 2),
    ("$[*].a.b == 1", 2),
    ("$.a[*].b == 1", 3),
];

/// Returns the number of steps of a comparison whose items are listed.
fn listed_steps(alloc: Global, text: &str) -> Result<Option<usize>, Error> {
    let path = parse_json_path(alloc, text.as_bytes())?;
    let [step] = path.paths.as_slice() else {
        return Ok(None);
    };
    let Path::Expr(e) = step else {
        return Ok(None);
    };
    Ok(match list_compared(e) {
        Some(list) => Some(list.front.len()),
        None => None,
    })
}

#[test]
fn items_are_listed_before_the_names(rt: HostRuntime) {
    for (text, wanted) in &COMPARISONS {
        let found = listed_steps(rt.alloc(), text);
        expect(&rt, Ok(found == Ok(Some(*wanted))), *text);
    }
}
