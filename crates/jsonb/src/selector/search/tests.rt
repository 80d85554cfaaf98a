//! Tests which paths are searched, by their filters.

use super::*;
use crate::parser::parse_json_path;
use crate::tests::expect;

/// Paths, and whether a search may evaluate them.
static PATHS: [(&str, bool); 10] = [
    ("$[*].a", true),
    ("$[*]?(@.a == 1)", true),
    ("$[*]?(1 == @.a || @ == 2)", true),
    ("$[*]?(@.a == 1 && exists(@.b))", true),
    ("$[*]?(@[*] == 1)", false),
    ("$[*]?(1 == @[*])", false),
    ("$[*]?(exists(@[*]))", false),
    ("$[*]?(@.a == $.b)", false),
    ("$[*]?(@.a == 1 && @[*] == 1)", false),
    ("$[*]?(@[*] == 1 && @.a == 1)", false),
];

#[test]
fn filters_by_expressions_are_not_searched(rt: HostRuntime) -> Result<(), Error> {
    for (text, wanted) in &PATHS {
        let path = parse_json_path(rt.alloc(), text.as_bytes())?;
        let found = has_filter(Expressions::AreRefused, path.paths.as_slice());
        expect(&rt, Ok(found.is_some() == *wanted), *text);
    }
    Ok(())
}
