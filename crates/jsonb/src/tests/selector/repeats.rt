//! Items that are selected again: selections, signs and arithmetic keep them, and expressions need them once.

use super::lax::is_there;
use super::*;
use crate::ArrayBuilder;

/// In a path, `#` stands for many subscripts of the first element.
const ROWS: &str = r#"
[10,20,30] $[#] + 1 => InvalidJsonPath
[10,20,30] exists($[#]?(@ == 10)) => true
[10,20,30] $[#,1] == 20 => true
[10,20,30] $[1,#] < $[#,2] => true
[10,20,30] $[#] > $[#] => false
[10,20,30] $[*]?(@ > $[#,1]) => 20 30
[null,true] exists($[#,1]?(@ == true)) => true
[null,true] exists($[1,#]?(@ == null)) => true
[null,true] exists($[#,1]?(@ == $[1])) => true
[1,"a"] $[#,1] == 1 => true
[1,"a"] $[1,#] == 1 => null"#;

/// Returns a path with 20 subscripts of the first element and another one for each `#`.
fn with_subscripts(alloc: Global, path: &str) -> Result<String, AllocError> {
    let mut whole = String::new(alloc);
    for sign in path.chars() {
        if sign == '#' {
            push_times(&mut whole, "0,", 20)?;
            whole.push('0')?;
        } else {
            whole.push(sign)?;
        }
    }
    Ok(whole)
}

/// Returns a document in this many arrays.
pub(super) fn within_arrays(alloc: Global, inner: &[u8], depth: usize) -> Result<Vec<u8>, Error> {
    let mut document = Vec::from_slice(alloc, inner)?;
    for _ in 0..depth {
        let mut outer = ArrayBuilder::new(alloc);
        outer.push_document(&document)?;
        document = outer.build()?;
    }
    Ok(document)
}

/// Returns `true` if the path of a row finds what it states.
fn is_found(alloc: Global, row: &str) -> Result<bool, Error> {
    let Some((document, path, wanted)) = cut(row) else {
        return Ok(false);
    };
    selects(
        alloc,
        with_subscripts(alloc, path)?.as_str(),
        document,
        wanted,
    )
}

#[test]
fn expressions_find_the_same_without_repeats(rt: HostRuntime) {
    for row in ROWS.trim_start().lines() {
        expect(&rt, is_found(rt.alloc(), row), row);
    }
}

/// Returns parts: the first one, the second one this many times, and the last one.
fn with_repeats(
    alloc: Global,
    first: &str,
    part: &str,
    count: usize,
    last: &str,
) -> Result<String, AllocError> {
    let mut whole = String::from_str(alloc, first)?;
    push_times(&mut whole, part, count)?;
    whole.push_str(last)?;
    Ok(whole)
}

/// Returns `true` if a selection of the first element 20 times, and of another one, has all of them.
fn keeps_repeats(alloc: Global, start: &str) -> Result<bool, Error> {
    let path = with_repeats(alloc, start, "0,", 20, "1]")?;
    let wanted = with_repeats(alloc, "", "10 ", 20, "20")?;
    selects(alloc, path.as_str(), "[10,20,30]", wanted.as_str())
}

#[test]
fn selections_and_signs_keep_repeats(rt: HostRuntime) {
    for start in &["$[", "+$["] {
        expect(&rt, keeps_repeats(rt.alloc(), start), *start);
    }
}

/// Returns an array of arrays in arrays, in the second of which there is a 7 below 24 subscripts.
fn seven_at_last(alloc: Global) -> Result<Vec<u8>, Error> {
    let mut both = ArrayBuilder::new(alloc);
    both.push_document(&within_arrays(alloc, b"\x80\0\0\0", 40)?)?;
    let seven = b"\x20\0\0\0\x20\0\0\x02\x50\x07";
    both.push_document(&within_arrays(alloc, seven, 23)?)?;
    Ok(both.build()?)
}

/// Paths, and whether they select something: the start, the steps, how often they are repeated, and what follows.
type Doubled = (&'static str, &'static str, usize, &'static str, bool);

static DOUBLED: [Doubled; 6] = rows! {
    "$[0,0,1]", "[0,0]", 23, "?(@ == 7)", true;
    "$[0,0,1]", "[0,0]", 23, "?(@ == 8)", false;
    "$?(exists(@[0,1]", "[0,0]", 23, "?(@ == 7)))", true;
    "$?(@[0,1]", "[0,0]", 23, " == 8)", false;
    "$?(@", ".**", 6, "[0] == 8)", false;
    "$", ".**", 6, "?(@ == 7)", true;
};

/// Returns `true` if a row states whether its path selects something of the document.
fn is_doubled(alloc: Global, document: &[u8], row: &Doubled) -> Result<bool, Error> {
    let path = with_repeats(alloc, row.0, row.1, row.2, row.3)?;
    Ok(is_there(alloc, document, path.as_str())? == row.4)
}

#[test]
fn steps_that_double_their_items_are_evaluated_for_each_once(rt: HostRuntime) -> Result<(), Error> {
    let document = seven_at_last(rt.alloc())?;
    for row in &DOUBLED {
        expect(&rt, is_doubled(rt.alloc(), &document, row), *row);
    }
    Ok(())
}
