//! Spots of documents that decode and of bytes that do not.

use crate::error::Error;
use crate::extension::{Date, ExtensionValue};
use crate::item::Item;
use crate::layout::EntryKind;
use crate::number::Number;
use crate::reading::tests::{DATE, FRED, MIXED, PAIR, are_alike, expect, expect_ok};
use crate::spot::{Spot, child_spots, field_spot, root_spot, spot_document, spot_item};
use std::alloc::Global;

/// `[1]`
const ONE: &[u8] = b"\x80\0\0\x01\x20\0\0\x02\x50\x01";

/// `[{"number":3720453,"type":"home"},{"number":5062051,"type":"work"}]`
const PHONES: &[u8] = b"\x80\0\0\x02\x50\0\0\x27\x50\0\0\x27\
      \x40\0\0\x02\x10\0\0\x06\x10\0\0\x04\x20\0\0\x05\x10\0\0\x04numbertype\x50\0\x38\xc5\x05home\
      \x40\0\0\x02\x10\0\0\x06\x10\0\0\x04\x20\0\0\x05\x10\0\0\x04numbertype\x50\0\x4d\x3d\xa3work";

/// `{"A":null, .., "a":null}`, with 33 keys of one letter. Keys are searched in blocks of 32.
const LETTERS: &[u8] = b"\x40\0\0\x21\
      \x10\0\0\x01\x10\0\0\x01\x10\0\0\x01\x10\0\0\x01\x10\0\0\x01\x10\0\0\x01\x10\0\0\x01\x10\0\0\x01\
      \x10\0\0\x01\x10\0\0\x01\x10\0\0\x01\x10\0\0\x01\x10\0\0\x01\x10\0\0\x01\x10\0\0\x01\x10\0\0\x01\
      \x10\0\0\x01\x10\0\0\x01\x10\0\0\x01\x10\0\0\x01\x10\0\0\x01\x10\0\0\x01\x10\0\0\x01\x10\0\0\x01\
      \x10\0\0\x01\x10\0\0\x01\x10\0\0\x01\x10\0\0\x01\x10\0\0\x01\x10\0\0\x01\x10\0\0\x01\x10\0\0\x01\
      \x10\0\0\x01\
      \0\0\0\0\0\0\0\0\0\0\0\0\0\0\0\0\0\0\0\0\0\0\0\0\0\0\0\0\0\0\0\0\0\0\0\0\0\0\0\0\0\0\0\0\
      \0\0\0\0\0\0\0\0\0\0\0\0\0\0\0\0\0\0\0\0\0\0\0\0\0\0\0\0\0\0\0\0\0\0\0\0\0\0\0\0\0\0\0\0\
      \0\0\0\0\0\0\0\0\0\0\0\0\0\0\0\0\0\0\0\0\0\0\0\0\0\0\0\0\0\0\0\0\0\0\0\0\0\0\0\0\0\0\0\0\
      ABCDEFGHIJKLMNOPQRSTUVWXYZ[\\]^_`a";

/// A step from a spot to one below it.
#[derive(Clone, Copy, Debug)]
enum Step {
    Child(usize),
    Member(&'static str),
}

/// Documents, the steps from the root to a part of it, and the item and the document of the part, if it is there.
static PARTS: [(&[u8], &[Step], Option<(Item<'static>, &[u8])>); 22] = rows! {
    FRED, &[Step::Member("phones"), Step::Child(0), Step::Member("number")],
        Some((Item::Number(Number::UInt64(3720453)), b"\x20\0\0\0\x20\0\0\x05\x50\0\x38\xc5\x05"));
    FRED, &[Step::Member("phones"), Step::Child(1), Step::Member("number")],
        Some((Item::Number(Number::UInt64(5062051)), b"\x20\0\0\0\x20\0\0\x05\x50\0\x4d\x3d\xa3"));
    FRED, &[Step::Member("phones"), Step::Child(2)], None;
    MIXED, &[Step::Child(2), Step::Member("k")], Some((Item::String("v"), b"\x20\0\0\0\x10\0\0\x01v"));
    MIXED, &[Step::Child(0)], Some((Item::Boolean(false), b"\x20\0\0\0\x30\0\0\0"));
    MIXED, &[Step::Child(1)], Some((Item::Number(Number::UInt64(10)), b"\x20\0\0\0\x20\0\0\x02\x50\x0a"));
    MIXED, &[Step::Child(2)], Some((Item::Object(PAIR), PAIR));
    FRED, &[Step::Child(0)], Some((Item::String("Fred"), b"\x20\0\0\0\x10\0\0\x04Fred"));
    DATE, &[], Some((Item::Extension(ExtensionValue::Date(Date { value: 1 })), DATE));
    FRED, &[Step::Member("phones")], Some((Item::Array(PHONES), PHONES));
    FRED, &[Step::Member("phone")], None;
    FRED, &[Step::Member("phoness")], None;
    // as long as a key
    FRED, &[Step::Member("nave")], None;
    FRED, &[Step::Member("")], None;
    LETTERS, &[Step::Member("A")], Some((Item::Null, b"\x20\0\0\0\0\0\0\0"));
    LETTERS, &[Step::Member("`")], Some((Item::Null, b"\x20\0\0\0\0\0\0\0"));
    LETTERS, &[Step::Member("a")], Some((Item::Null, b"\x20\0\0\0\0\0\0\0"));
    LETTERS, &[Step::Member("b")], None;
    // of an array and of a scalar
    MIXED, &[Step::Member("k")], None;
    DATE, &[Step::Member("")], None;
    DATE, &[Step::Child(0)], None;
    b"\x20\0\0\0\0\0\0\0", &[Step::Child(0)], None;
};

fn child_at(bytes: &[u8], spot: Spot, place: usize) -> Result<Option<Spot>, Error> {
    let Some(children) = child_spots(bytes, spot)? else {
        return Ok(None);
    };
    let mut left = place;
    for child in children {
        let child = child?;
        if left == 0 {
            return Ok(Some(child));
        }
        left -= 1;
    }
    Ok(None)
}

fn spot_at(bytes: &[u8], steps: &[Step]) -> Result<Option<Spot>, Error> {
    let mut spot = root_spot(bytes)?;
    for step in steps {
        let next = match step {
            Step::Child(place) => child_at(bytes, spot, *place)?,
            Step::Member(name) => field_spot(bytes, spot, name)?,
        };
        let Some(next) = next else {
            return Ok(None);
        };
        spot = next;
    }
    Ok(Some(spot))
}

/// Returns `true` if the child at these steps has this item and this document, or there is none.
fn has_part<'a>(
    alloc: Global,
    bytes: &'a [u8],
    steps: &[Step],
    wanted: Option<(Item<'a>, &[u8])>,
) -> Result<bool, Error> {
    let Some(spot) = spot_at(bytes, steps)? else {
        return Ok(wanted.is_none());
    };
    let Some((item, document)) = wanted else {
        return Ok(false);
    };
    let is_item = are_alike(alloc, spot_item(bytes, spot)?, item)?;
    let copy = spot_document(alloc, bytes, spot)?;
    Ok(is_item && copy.as_slice() == document)
}

#[test]
fn finds_and_copies_parts(rt: HostRuntime) {
    for (bytes, steps, wanted) in &PARTS {
        let is_so = has_part(rt.alloc(), bytes, steps, *wanted);
        expect_ok(&rt, is_so, (*steps, *bytes));
    }
}

/// Documents, how many children each has, if it is a container, and whether the last of them is one.
static COUNTED: [(&[u8], Option<(usize, bool)>); 5] = rows! {
    MIXED, Some((3, true));
    FRED, Some((2, true));
    ONE, Some((1, false));
    b"\x80\0\0\0", Some((0, false));
    DATE, None;
};

fn counted(bytes: &[u8], root: Spot) -> Result<Option<(usize, bool)>, Error> {
    let Some(children) = child_spots(bytes, root)? else {
        return Ok(None);
    };
    let mut is_container = false;
    for child in children {
        is_container = child?.is_container();
    }
    Ok(Some((children.len(), is_container)))
}

#[test]
fn counts_children(rt: HostRuntime) -> Result<(), Error> {
    for (bytes, wanted) in &COUNTED {
        let root = root_spot(bytes)?;
        let is_so = root.is_container() == wanted.is_some() && counted(bytes, root)? == *wanted;
        expect(&rt, is_so, *bytes);
    }
    Ok(())
}

/// What is asked of a spot, or of the bytes alone.
#[derive(Clone, Copy)]
enum Asked {
    Root,
    Item,
    Children,
    FirstChild,
    Name,
    Copy,
}

/// `[1]` with an element that is longer than the bytes.
const LONG: &[u8] = b"\x80\0\0\x01\x20\0\0\x09\x50\x01";

/// `[1]` with a word of no kind.
const UNKNOWN: &[u8] = b"\x80\0\0\x01\x80\0\0\x02\x50\x01";

/// What is asked, the bytes that it is asked of, and those whose root is the spot.
static REFUSED: [(&str, Asked, &[u8], &[u8]); 10] = rows! {
    "an item past the end", Asked::Item, ONE, FRED;
    "children past the end", Asked::Children, ONE, FRED;
    "a member past the end", Asked::Name, ONE, FRED;
    "a copy past the end", Asked::Copy, ONE, FRED;
    // ten bytes, too few for the words that the object counts
    "children that are cut off", Asked::Children, FRED, ONE;
    "a member that is cut off", Asked::Name, FRED, ONE;
    "no bytes", Asked::Root, b"", ONE;
    "no entry", Asked::Root, b"\x20\0\0\0", ONE;
    "an element that is cut off", Asked::FirstChild, LONG, LONG;
    "a word of no kind", Asked::FirstChild, UNKNOWN, UNKNOWN;
};

fn refusal(alloc: Global, asked: Asked, bytes: &[u8], spot: Spot) -> Option<Error> {
    match asked {
        Asked::Root => root_spot(bytes).err(),
        Asked::Item => spot_item(bytes, spot).err(),
        Asked::Children => child_spots(bytes, spot).err(),
        Asked::FirstChild => child_at(bytes, spot, 0).err(),
        Asked::Name => field_spot(bytes, spot, "name").err(),
        Asked::Copy => spot_document(alloc, bytes, spot).err(),
    }
}

#[test]
fn refuses_spots_of_other_bytes_and_damage(rt: HostRuntime) -> Result<(), Error> {
    for (row, asked, bytes, other) in &REFUSED {
        let refused = refusal(rt.alloc(), *asked, bytes, root_spot(other)?);
        expect(&rt, refused == Some(Error::InvalidJsonb), *row);
    }
    let is_object = matches!(spot_item(FRED, root_spot(ONE)?), Ok(Item::Object(_)));
    assert!(rt; is_object);
    Ok(())
}

#[test]
fn a_word_of_no_kind_has_no_spot(rt: HostRuntime) -> Result<(), Error> {
    if let Some(mut children) = child_spots(UNKNOWN, root_spot(UNKNOWN)?)? {
        assert!(rt; matches!(children.next(), Some(Err(_))));
    }
    Ok(())
}

#[test]
fn spots_have_ranges(rt: HostRuntime) -> Result<(), Error> {
    let Some(spot) = child_at(MIXED, root_spot(MIXED)?, 1)? else {
        panic!(rt; "no element");
    };
    let parts = (spot.entry_kind(), spot.range().start, spot.range().end);
    assert!(rt; parts == (EntryKind::Number, 16, 18));
    Ok(())
}
