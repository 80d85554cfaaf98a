//! Paths in a lax selector.

use super::*;
use std::process::Abort;

/// Entries of arrays: they keep their order and repeats, and may lie outside.
const INDICES: &str = r#"
[10,20,30] $[last, 0] => 30 10
[10,20,30] $[0, 0 to 1] => 10 10 20
[] $[0 to 1] =>
[10,20,30] $[-1] =>
[10,20,30] $[last] => 30
[10,20,30] $[last - 1 to 1] => 20
[10,20,30] $[1 to 2] => 20 30
[10,20,30] $[2 to 1] =>
[10,20,30] $[last + 2147483647] =>
[10,20,30] $[-2147483648 to 2147483647] => 10 20 30
[10,20,30] $[last - 2147483647 to last] => 10 20 30"#;

/// The steps other than subscripts.
const STEPS: &str = r#"
[1]  => [1]
{"a":null,"b":[null]} $.* => null [null]
[[1]] $.** => [[1]] [1] 1
[[1]] $.**{1} => [1]
[{"k":"v"},10] $.** => [{"k":"v"},10] {"k":"v"} "v" 10
[{"k":"v"},10] $.**{2} => "v"
[{"k":"v"},10] $.**{1} => {"k":"v"} 10
[false,10,{"k":"v"}] $.**{2} => "v"
[] $.**{1 to last} =>"#;

/// Filters keep items.
const FILTERS: &str = r#"
[1,"a"] $[*]?(@ starts with "a") => "a"
[false,10,{"k":"v"}] $[*]?(exists(@.k)) => {"k":"v"}
{"a":null,"b":[null]} $.b[*]?(@ == null) => null
{"a":null,"b":[null]} $.b?(@[*] == null) => [null]
[1,"a"] $?(@ == 1) => [1,"a"]
["a",1] $?(@ == 1) =>
[10,20,30] $[*]?(20 <= @) => 20 30
[10,20,30] $[*]?(15 < @ && @ < 25 || @ == 30) => 20 30
[10,20,30] $[*]?(@ == 10 && (@ == 20 || @ == 10)) => 10
[10,20,30] $[*]?(@ == 10 || @ + 1) =>
[1,"a"] $[*]?("a" starts with @) => "a"
[false,10,{"k":"v"}] $[*]?(exists(@.k) && @.k == "v" || @ == 10) => 10
[{"a":1},{"b":2}] $[*]?(exists(@.b) && 1 < @.b || @.a >= 1).* => 1 2
FRED $.phones[*]?(@.number == @.number && "home" == @.type) => {"number":3720453,"type":"home"}
FRED $.phones[*]?(@.number == @.type) =>
FRED $.phones[*]?(@.code == @.type || 4000000 > @.number) => {"number":3720453,"type":"home"}
FRED $.phones[*]?(@.type == "home" || exists(@.code) || @.type > 5) =>
[] $[*]?(-@.a) =>
[1] $[*]?(-@.a) => InvalidJsonPath
DATE $?(@ == 2 || 1 == 1) => DATE
FRED $.phones[*]?(@.number == 3720453) => {"number":3720453,"type":"home"}
FRED $.phones[*]?(@.* == 3720453) => {"number":3720453,"type":"home"}
FRED $.phones[*]?(@.* == "home") =>
FRED $?(@.phones.* == "home") =>
[5,{"b":2},{"a":1},{"a":[1]}] $[*]?(@.* == 1).a => 1 [1]
{"a":{"b":[{"c":1}]}} $.a.b[*]?(@.* == 1).c => 1
{"a":{"b":[{"c":1}]}} $?(@.a.* == 1) =>"#;

/// Strings are compared by their bytes.
const STRINGS: &str = r#"
["я","яя",5] $[*]?(@ == "я") => "я"
["я","ю","яя"] $[*]?(@ != "я") => "ю" "яя"
["я","яя","ю"] $[*]?(@ starts with "я") => "я" "яя"
["b","я","abc"] $[*]?(@ > "abd") => "b" "я"
["яя","я"] $[*]?(@ <= "я") => "я"
["я"] $ == "я" => true
["ю","яя"] $ == "я" => false
[[],"я"] $[*] == "я" => true
[{},"я"] $[*] == "я" => null
[["ю","я"]] $[*] starts with "я" => true
[["ю",5]] $[*] starts with "я" => null"#;

/// An expression alone makes its truth.
const TRUTHS: &str = r#"
[1] 1 == -1 => false
[1,"a"] $[0] == 1 || $[1] == 1 => null
5 $ != null => true
FRED $.phones[*].number > 4000000 => true
FRED $.phones[*].number > 9000000 => false
FRED $.phones[*].code == 1 => false
FRED $.phones[*].type > 5 => null
FRED $.phones[*] == 1 => null
["a",1] $[*] == "a" => true
[1,"a"] $[*] == "a" => null
[[1]] $[*] == 1 => true
[] $[*].k == "v" => false"#;

/// Arithmetic alone makes numbers.
const NUMBERS: &str = r#"
[1,-2] -$[*] => -1 2
-7 $ % 3 => -1
0 $ - 1 => -1
[1] 7 - 10 => -3
4294967296 $ * 4294967295 => 18446744069414584320
-9223372036854775808 -$ => 9223372036854775808
12.34 +$ => 12.34"#;

/// Arithmetic that fails.
const REFUSED: &str = r#"
[18446744073709551615] -$[*] => Arithmetic(Overflow)
4294967296 $ * $ => Arithmetic(Overflow)
5 $ / 2 => Arithmetic(Inexact)
5 $ / 0 => Arithmetic(ZeroDivisor)
12.34 $ % 0 => Arithmetic(DecimalOperand)
[10,20,30] $[*] + 1 => InvalidJsonPath
1.5 +$ => UnsupportedNumber"#;

/// Returns `true` if the path of a row selects the items in the row.
fn is_selected(alloc: Global, row: &str) -> Result<bool, Error> {
    let Some((document, path, wanted)) = cut(row) else {
        return Ok(false);
    };
    selects(alloc, path, document, wanted)
}

/// Asserts that each path of the rows selects the items in its row.
fn assert_selected(rt: &impl Abort, alloc: Global, rows: &str) {
    for row in rows.trim_start().lines() {
        expect(rt, is_selected(alloc, row), row);
    }
}

#[test]
fn steps_and_filters_select_items(rt: HostRuntime) {
    assert_selected(&rt, rt.alloc(), INDICES);
    assert_selected(&rt, rt.alloc(), STEPS);
    assert_selected(&rt, rt.alloc(), FILTERS);
    assert_selected(&rt, rt.alloc(), STRINGS);
}

#[test]
fn an_expression_alone_makes_its_value(rt: HostRuntime) {
    assert_selected(&rt, rt.alloc(), TRUTHS);
    assert_selected(&rt, rt.alloc(), NUMBERS);
    assert_selected(&rt, rt.alloc(), REFUSED);
}

/// Documents, and what a name with a line end selects.
static LINE_ENDS: [(&str, &str); 2] = rows! {
    "{\"a\\n\":1}", "1";
    "{\"a\":null,\"b\":[null]}", "";
};

/// Returns `true` if a name with a line end selects this.
fn is_named(alloc: Global, document: &str, wanted: &str) -> Result<bool, Error> {
    selects(alloc, "$.a\n", document, wanted)
}

#[test]
fn a_name_takes_a_line_end(rt: HostRuntime) {
    for (document, wanted) in &LINE_ENDS {
        expect(&rt, is_named(rt.alloc(), document, wanted), *document);
    }
}

/// Returns that many arrays, each in the one before, and the last one empty.
fn nested_arrays(alloc: Global, depth: u32) -> Result<Vec<u8>, Error> {
    let mut bytes = Vec::new(alloc);
    for left in (1..depth.min(100_000)).rev() {
        bytes.extend_from_slice(&0x8000_0001_u32.to_be_bytes())?;
        bytes.extend_from_slice(&(0x5000_0000 + 8 * left - 4).to_be_bytes())?;
    }
    bytes.extend_from_slice(&0x8000_0000_u32.to_be_bytes())?;
    Ok(bytes)
}

/// Returns the number of items that the path selects of the document.
fn count(alloc: Global, document: &[u8], path: &str) -> Result<usize, Error> {
    let path = parse_json_path(alloc, path.as_bytes())?;
    let found = Selector::new(alloc, RawJsonb::new(document)).select_values(&path)?;
    Ok(found.len())
}

#[test]
fn levels_are_counted_past_255(rt: HostRuntime) -> Result<(), Error> {
    let bytes = nested_arrays(rt.alloc(), 300)?;
    assert!(rt; RawJsonb::new(&bytes).check() == Ok(()));
    assert!(rt; count(rt.alloc(), &bytes, "$.**{0 to last}") == Ok(300));
    assert!(rt; count(rt.alloc(), &bytes, "$.**{255}") == Ok(1));
    Ok(())
}

/// Returns `true` if the path selects an item of the document.
pub(super) fn is_there(alloc: Global, document: &[u8], path: &str) -> Result<bool, Error> {
    let path = parse_json_path(alloc, path.as_bytes())?;
    Selector::new(alloc, RawJsonb::new(document)).exists(&path)
}

/// Paths, and whether they select something of a deep array.
static RECURSIVE: [(&str, bool); 3] = rows! {
    "$.**", true;
    "$.**{0 to 254}.k", false;
    "$.**{255 to last}.k", false;
};

#[test]
fn a_recursive_step_goes_down_any_depth(rt: HostRuntime) -> Result<(), Error> {
    let bytes = nested_arrays(rt.alloc(), 60_000)?;
    for (path, wanted) in &RECURSIVE {
        let found = is_there(rt.alloc(), &bytes, path);
        expect(&rt, Ok(found == Ok(*wanted)), *path);
    }
    Ok(())
}
