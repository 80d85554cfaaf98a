//! The position of the error in text that is not a JSON path.

use super::expect;
use crate::{json_path_error_position, key_path_error_position};

/// Inputs, and the position of the error in each.
static POSITIONS: [(&[u8], Option<usize>); 34] = [
    (b"", None),
    (b"$.a?(@.b == 1)", None),
    (b"$.", Some(1)),
    (b"$.a $", Some(4)),
    (b"$.a[1,", Some(3)),
    (b"$.a..b", Some(3)),
    (b"$.**{300}", Some(4)),
    (b"  $[\"\"]", Some(3)),
    (b"$.\xff", Some(1)),
    (b"a.b c", Some(4)),
    (b"\"a\"", Some(3)),
    (b"@ > 10", Some(0)),
    (b"-1 == 1", Some(3)),
    (b"- a", Some(2)),
    (b"$.a == ", Some(7)),
    (b"$.a == b", Some(7)),
    (b"$.a & $.b", Some(4)),
    (b"1 == 1 && ", Some(10)),
    (b"1 == 1 || $.b <", Some(15)),
    (b"1 == 1 && 2 == 2 3", Some(17)),
    (b"(1 == 1", Some(7)),
    (b"(", Some(1)),
    (b"exists", None),
    (b"exists (", Some(8)),
    (b"exists($.a", Some(10)),
    (b"exists(a)", Some(7)),
    (b"$.a?", Some(3)),
    (b"$.a?(", Some(5)),
    (b"$.a?(@.b)", Some(8)),
    (b"$.a?(@.b = 1)", Some(9)),
    (b"$.a?(@.b == 1", Some(13)),
    (b"$ ?(@ > 1 && )", Some(13)),
    (b"$ ?(@ > 1)?(@ < 5 || (@ == 7 3))", Some(29)),
    (b"$?(exists(@.a?(@ = 1)))", Some(13)),
];

#[test]
fn errors_have_positions(rt: HostRuntime) {
    for (text, wanted) in &POSITIONS {
        let found = json_path_error_position(rt.alloc(), text);
        expect(&rt, Ok(found == Ok(*wanted)), *text);
    }
}

#[test]
fn key_paths_have_positions_too(rt: HostRuntime) {
    let found = key_path_error_position(rt.alloc(), b"{1a}");
    assert!(rt; found == Ok(Some(2)));
    let found = json_path_error_position(rt.alloc(), b"$[1a]");
    assert!(rt; found == Ok(Some(1)));
}
