//! Paths in a strict selector, each compared with a lax one.

use super::*;

/// After the arrow, the result of a strict selector, a semicolon, and that of a lax one.
const ROWS: &str = r#"
{"a":null,"b":[null]} $.a => null;null
{"a":null,"b":[null]} $.c => StrictPath;
5 $[*] => StrictPath;5
[10,20,30] $[5] => ;
[false,10,{"k":"v"}] $[*].k => StrictPath;"v"
[false,10,{"k":"v"}] $[*]?(@.k == "v") => StrictPath;{"k":"v"}
{"a":null,"b":[null]} $.a == 1 || $.c == 1 => StrictPath;null
{"a":null,"b":[null]} exists($.c) => StrictPath;false
[{"k":"v"},10] $[*].k == "v" => StrictPath;true
[10,20,30] $[*] >= 10 => true;true
{"a":null,"b":[null]} -$.c => StrictPath;
[[1]] $.** => [[1]] [1] 1;[[1]] [1] 1
[10,20,30] $[*]?(@ == $[1 to last]) => 20 30;20 30
[10,20,30] $[*]?($[1 to last] == @) => 20 30;20 30
[10,20,30] $[*]?($[0] == 10 && @ > $[0]) => 20 30;20 30
[10,20,30] $[*]?(@ == 10 || exists($[3])) => 10;10
[10,20,30] $[*]?(exists($[*]?(@ > $[1])) && @ < $[1]) => 10;10
[[1]] $[*]?(exists(@[0]?(@ == $[0][0]))) => [1];[1]
[false,10,{"k":"v"}] $[*]?(exists(@.k?(exists(@?(exists($[2].k)))))) => StrictPath;{"k":"v"}
[false,10,{"k":"v"}] $[*]?(exists(@?(exists($[0]?(exists(@.k)))))) => StrictPath;
[10,20,30] $[*]?(@ == $.a) => StrictPath;
FRED $.phones[*]?(@.type == "home" && @.number > 5) => {"number":3720453,"type":"home"};{"number":3720453,"type":"home"}
FRED $.phones[*]?(@.number < 4000000 || @.type == "fax") => {"number":3720453,"type":"home"};{"number":3720453,"type":"home"}
FRED $.phones[*]?(@.type == "fax" && @.code == 1) => StrictPath;
FRED $.phones[*]?(@.code == 1 || @.type == "home") => StrictPath;{"number":3720453,"type":"home"}
FRED $.phones[*]?(@.number > 5 || @ == 1) => ;
FRED $.phones[*]?("fax" == @.type && exists(@.code)) => StrictPath;
FRED $.phones[*]?(@.number == @.code || 4000000 > @.number) => StrictPath;{"number":3720453,"type":"home"}
FRED $.phones[*]?(@.type == "work" && @.number < 5 || @.number == 3720453) => {"number":3720453,"type":"home"};{"number":3720453,"type":"home"}
[false,10,{"k":"v"}] $[*]?(@.k == 1 && exists($?(-@.a))) => StrictPath;InvalidJsonPath
[false,10,{"k":"v"}] $[*]?(exists($?(-@.a)) && @.k == 1) => InvalidJsonPath;InvalidJsonPath
[10,20,30] $[*] + $.c => StrictPath;InvalidJsonPath
[10,20,30] $[*]?(@.a + 1) => ;
[1] $[*]?(-@.a) => InvalidJsonPath;InvalidJsonPath
[5,{"b":2},{"a":1},{"a":[1]}] $[*]?(@.* == 1).a => StrictPath;1 [1]
[{"a":1},{"b":2}] $[*]?(@.* == 1).a => 1;1"#;

/// Returns `true` if the path selects this of the document in strict mode.
fn selects_strictly(
    alloc: Global,
    path: &str,
    document: &str,
    wanted: &str,
) -> Result<bool, Error> {
    Ok(selected(alloc, path, document, true)?.as_str() == wanted)
}

/// Returns `true` if a row states the results of both selectors.
fn is_answered(alloc: Global, row: &str) -> Result<bool, Error> {
    let Some((document, path, wanted)) = cut(row) else {
        return Ok(false);
    };
    let Some((strict, lax)) = wanted.split_once(';') else {
        return Ok(false);
    };
    Ok(selects_strictly(alloc, path, document, strict)? && selects(alloc, path, document, lax)?)
}

#[test]
fn a_step_that_does_not_fit_is_refused(rt: HostRuntime) {
    for row in ROWS.trim_start().lines() {
        expect(&rt, is_answered(rt.alloc(), row), row);
    }
}
