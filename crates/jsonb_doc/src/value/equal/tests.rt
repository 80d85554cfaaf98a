//! Which pairs of children are compared again.

use super::*;
use crate::error::Error;
use crate::reading::root_item;
use crate::value::to_value;
use std::alloc::Global;

/// Calls that remain, and whether a pair of containers without containers is left open at first.
static CALLS: [(u32, bool); 4] = [(48, false), (25, false), (24, true), (1, true)];

/// Returns whether a pair of children is left open at first.
fn leaves_open<'v, 'a, 'w, 'b>(value: &'v Value<'a>, other: &'w Value<'b>, calls: u32) -> bool {
    let mut joined: Joined<'v, 'a, 'w, 'b> = Joined::none(calls);
    joined.goes_on(value, other, calls);
    is_open(joined.left)
}

/// Returns whether a value with one child is left open.
fn is_left_open(alloc: Global, calls: u32) -> Result<bool, Error> {
    let value = to_value(alloc, &root_item(b"\x80\0\0\x01\0\0\0\0")?)?;
    Ok(leaves_open(&value, &value, calls))
}

#[test]
fn shallow_children_are_compared_once(rt: HostRuntime) {
    for (calls, wanted) in &CALLS {
        assert!(rt; is_left_open(rt.alloc(), *calls) == Ok(*wanted), "{calls}");
    }
}
