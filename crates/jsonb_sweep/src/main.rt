//! Makes each call between two marks, and reports its result.
#![tactic(auto)]

/// Makes a call between the marks.
macro_rules! marked {
    ($rt:expr, $call:expr) => {{
        $crate::mark::begin($rt);
        let answer = $call;
        $crate::mark::end($rt);
        answer
    }};
}

/// Copies a value between the marks. Returns `true` if the copy equals it.
macro_rules! clones {
    ($rt:expr, $value:expr) => {{
        let value = $value;
        let answer = marked!($rt, value.clone($rt.alloc()));
        $crate::answer::is_same(answer, &value)
    }};
}

/// Makes a value own its strings between the marks. Returns `true` if the result equals it.
macro_rules! owns {
    ($rt:expr, $value:expr) => {{
        let value = $value;
        let answer = marked!($rt, value.to_owned($rt.alloc()));
        $crate::answer::is_same(answer, &value)
    }};
}

/// Makes calls that do not allocate, each between its own marks, and reports their results.
macro_rules! tell_free {
    ($rt:expr; $($name:literal: $are_right:expr;)+) => {{
        $($crate::mark::begin($rt);
        let is_right = $are_right;
        $crate::mark::end_free($rt, $name, is_right);)+
    }};
}

/// A table: each row is a line, and a tuple.
macro_rules! rows {
    ($($($part:expr),+;)+) => { [$(($($part),+)),+] };
}

mod answer;
mod arrays;
mod builders;
mod call;
mod deep;
mod documents;
mod equals;
mod events;
mod limits;
mod long;
mod made;
mod many;
mod mark;
mod numbers;
mod objects;
mod parts;
mod paths;
mod prints;
mod reads;
mod scalars;
mod selections;
mod tables;
mod values;
mod wholes;

use deep::Input;
use std::{env, io};

/// The number of parts of documents and text that are long enough for late allocations.
const MANY: u64 = 40;

/// The number of keys and elements of documents for which calls make tables.
const MORE: u64 = 200;

/// How often names have each of these keys: a table is made after 2,048 names.
const TIMES: u64 = 11;

fn main(rt: HostRuntime) -> io::Result<()> {
    // (In a statement of its own, so that the arguments are freed before the calls are counted.)
    let word = env::args(&rt)?.nth(1);
    match word {
        Some(word) if word.as_str() == "document" => deep::calls(&rt, Input::Document)?,
        Some(word) if word.as_str() == "path" => deep::calls(&rt, Input::Path)?,
        word => each_call(&rt, word.is_some()),
    }
    Ok(())
}

/// Makes each call, with `is_large` also on large documents.
fn each_call(rt: &HostRuntime, is_large: bool) {
    small(rt);
    without_memory(rt);
    many_parts(rt, MANY);
    long::depths(rt, 40);
    tables::cases(rt, MORE, TIMES);
    if is_large {
        many_parts(rt, 100_000);
        long::texts(rt, 1_000_000);
        long::depths(rt, 255);
        tables::cases(rt, 100_000, 1);
    }
}

/// The calls on the documents and text of their rows.
fn small(rt: &HostRuntime) {
    values::cases(rt);
    builders::arrays(rt);
    builders::objects(rt);
    events::events(rt);
    paths::key_paths(rt);
    parts::of_key_paths(rt);
    parts::tokens(rt);
    arrays::cases(rt);
    objects::cases(rt);
    wholes::cases(rt);
    paths::json_paths(rt);
    parts::of_json_paths(rt);
    selections::calls(rt);
    selections::others(rt);
    limits::calls(rt);
}

/// The calls that do not allocate.
fn without_memory(rt: &HostRuntime) {
    reads::cases(rt);
    scalars::cases(rt);
    numbers::cases(rt);
    equals::comparisons(rt);
    equals::views(rt);
    prints::cases(rt);
}

/// The calls on documents and text of that many parts.
fn many_parts(rt: &HostRuntime, count: u64) {
    many::elements(rt, count);
    many::pairs(rt, count);
    many::selections(rt, count);
    long::paths(rt, count);
    long::texts(rt, count);
}
