//! Children one by one, of documents and of damaged bytes.

use super::{ChildPositions, open_children};
use crate::error::Error;
use crate::reading::tests::{DATE, FRED, MIXED, NULLS, PAIR, expect, expect_ok};
use crate::spot::Spot;

/// The positions at which the content of a spot begins and ends.
type Range = (usize, usize);

/// Documents, and the ranges of the keys and the values of their children.
static CHILDREN: [(&[u8], &[(Option<Range>, Range)]); 5] = rows! {
    b"\x80\0\0\x01\x20\0\0\x02\x50\x0a", &[(None, (8, 10))];
    MIXED, &[(None, (16, 16)), (None, (16, 18)), (None, (18, 32))];
    PAIR, &[(Some((12, 13)), (13, 14))];
    NULLS, &[(Some((20, 21)), (22, 22)), (Some((21, 22)), (22, 30))];
    b"\x80\0\0\0", &[];
};

fn range_of(spot: Spot) -> Range {
    (spot.range().start, spot.range().end)
}

/// Returns whether the first child has these ranges.
fn takes(
    bytes: &[u8],
    at: &mut ChildPositions,
    wanted: &(Option<Range>, Range),
) -> Result<bool, Error> {
    let Some(child) = at.take(bytes)? else {
        return Ok(false);
    };
    Ok((child.key.map(range_of), range_of(child.value)) == *wanted)
}

/// Returns whether the children of a container have these ranges, and no child follows.
fn takes_all(bytes: &[u8], children: &[(Option<Range>, Range)]) -> Result<bool, Error> {
    let Some(mut at) = open_children(bytes)? else {
        return Ok(false);
    };
    let mut is_so = true;
    for child in children {
        is_so = takes(bytes, &mut at, child)? && is_so;
    }
    Ok(is_so && at.take(bytes)?.is_none())
}

#[test]
fn takes_children_in_order(rt: HostRuntime) {
    for (bytes, children) in &CHILDREN {
        expect_ok(&rt, takes_all(bytes, children), *bytes);
    }
}

#[test]
fn scalars_have_no_children(rt: HostRuntime) -> Result<(), Error> {
    let found = open_children(DATE)?;
    assert!(rt; found.is_none());
    Ok(())
}

/// Containers whose words or keys exceed the bytes.
static DAMAGED: [&[u8]; 4] = [
    b"",
    b"\x80\0\0\x01",
    b"\x40\0\0\x01\x10\0\0\x01",
    b"\x40\0\0\x01\x10\0\0\x02\0\0\0\0k",
];

#[test]
fn refuses_damaged_containers(rt: HostRuntime) {
    for bytes in DAMAGED {
        let refused = open_children(bytes).err();
        expect(&rt, refused == Some(Error::InvalidJsonb), bytes);
    }
}

#[test]
fn positions_of_other_bytes_are_unchanged(rt: HostRuntime) -> Result<(), Error> {
    let Some(mut at) = open_children(FRED)? else {
        panic!(rt; "no children");
    };
    let left = at.left;
    let refused = at.take(PAIR).err();
    assert!(rt; refused == Some(Error::InvalidJsonb) && at.left == left);
    Ok(())
}
