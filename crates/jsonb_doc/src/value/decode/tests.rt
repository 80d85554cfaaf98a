//! Which child of a container the loop decodes.

use super::*;
use crate::reading::tests::expect;

/// Containers, and whether the loop decodes a child: one longer than half of them.
static CONTAINERS: [(&[u8], bool); 4] = [
    // [[1]]
    (
        b"\x80\0\0\x01\x50\0\0\x0a\x80\0\0\x01\x20\0\0\x02\x50\x01",
        true,
    ),
    // {"k":[1,2]}
    (
        b"\x40\0\0\x01\x10\0\0\x01\x50\0\0\x10k\x80\0\0\x02\x20\0\0\x02\x20\0\0\x02\x50\x01\x50\x02",
        true,
    ),
    // [[],[]]
    (
        b"\x80\0\0\x02\x50\0\0\x04\x50\0\0\x04\x80\0\0\0\x80\0\0\0",
        false,
    ),
    // ["a long string"]
    (b"\x80\0\0\x01\x10\0\0\x0da long string", false),
];

/// Returns `true` if a container is decoded except for one child.
fn is_left_open(alloc: Global, bytes: &[u8]) -> Result<bool, Error> {
    let left = opened(alloc, bytes)?;
    Ok(matches!(left, Filled::Within(_, _)))
}

#[test]
fn the_loop_decodes_a_long_container(rt: HostRuntime) {
    for (bytes, wanted) in &CONTAINERS {
        expect(&rt, is_left_open(rt.alloc(), bytes) == Ok(*wanted), *bytes);
    }
}
