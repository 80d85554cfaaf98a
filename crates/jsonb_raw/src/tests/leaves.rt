//! Leaves as values. Leaves as documents are rows of docs/rows/calls.tsv.

use super::expect;
use crate::RawJsonb;
use crate::tests::documents::{
    DATE, EMPTY_ARRAY, EMPTY_OBJECT, FLOAT, MIXED_ARRAY, NULL, NULL_IN_ARRAY, NULLS,
};
use jsonb_doc::{Error, Value, root_item, to_value};
use jsonb_keypath::{KeyPath, KeyPaths};
use std::alloc::Global;
use std::borrow::CowStr;

/// `{"name":"Fred","phones":[{"number":3720453,"type":"home"},{"number":5062051,"type":"work"}]}`
const PHONES: &[u8] =
    b"\x40\0\0\x02\x10\0\0\x04\x10\0\0\x06\x10\0\0\x04\x50\0\0\x5anamephonesFred\x80\0\0\x02\x50\0\0\x27\x50\0\0\x27\x40\0\0\x02\x10\0\0\x06\x10\0\0\x04\x20\0\0\x05\x10\0\0\x04numbertype\x50\0\x38\xc5\x05home\x40\0\0\x02\x10\0\0\x06\x10\0\0\x04\x20\0\0\x05\x10\0\0\x04numbertype\x50\0\x4d\x3d\xa3work";

/// Its phones.
const BOTH_PHONES: &[u8] =
    b"\x80\0\0\x02\x50\0\0\x27\x50\0\0\x27\x40\0\0\x02\x10\0\0\x06\x10\0\0\x04\x20\0\0\x05\x10\0\0\x04numbertype\x50\0\x38\xc5\x05home\x40\0\0\x02\x10\0\0\x06\x10\0\0\x04\x20\0\0\x05\x10\0\0\x04numbertype\x50\0\x4d\x3d\xa3work";

/// `"Fred"`
const FRED: &[u8] = b"\x20\0\0\0\x10\0\0\x04Fred";

/// `10`
const TEN: &[u8] = b"\x20\0\0\0\x20\0\0\x02\x50\x0a";

/// `"v"`
const V: &[u8] = b"\x20\0\0\0\x10\0\0\x01v";

/// `true`
const TRUE: &[u8] = b"\x20\0\0\0\x40\0\0\0";

/// A printed key path, and a document of the value.
type Leaf = (&'static str, &'static [u8]);

/// Documents, their leaves, and those with arrays ignored.
static LEAVES: [(&[u8], &[Leaf], &[Leaf]); 17] = [
    // [false,10,{"k":"v"}]
    (
        MIXED_ARRAY,
        &[("{0}", b"\x20\0\0\0\x30\0\0\0"), ("{1}", TEN), ("{2,k}", V)],
        &[],
    ),
    (
        PHONES,
        &[
            ("{name}", FRED),
            (
                "{phones,0,number}",
                b"\x20\0\0\0\x20\0\0\x05\x50\0\x38\xc5\x05",
            ),
            ("{phones,0,type}", b"\x20\0\0\0\x10\0\0\x04home"),
            (
                "{phones,1,number}",
                b"\x20\0\0\0\x20\0\0\x05\x50\0\x4d\x3d\xa3",
            ),
            ("{phones,1,type}", b"\x20\0\0\0\x10\0\0\x04work"),
        ],
        &[("{name}", FRED), ("{phones}", BOTH_PHONES)],
    ),
    // {"a":null,"b":[null]}
    (
        NULLS,
        &[("{a}", NULL), ("{b,0}", NULL)],
        &[("{a}", NULL), ("{b}", NULL_IN_ARRAY)],
    ),
    // [[1]]
    (
        b"\x80\0\0\x01\x50\0\0\x0a\x80\0\0\x01\x20\0\0\x02\x50\x01",
        &[("{0,0}", b"\x20\0\0\0\x20\0\0\x02\x50\x01")],
        &[],
    ),
    // [[],{}], {"a":[]} and {"a":{}}
    (
        b"\x80\0\0\x02\x50\0\0\x04\x50\0\0\x04\x80\0\0\0\x40\0\0\0",
        &[("{0}", EMPTY_ARRAY), ("{1}", EMPTY_OBJECT)],
        &[],
    ),
    (
        b"\x40\0\0\x01\x10\0\0\x01\x50\0\0\x04a\x80\0\0\0",
        &[("{a}", EMPTY_ARRAY)],
        &[("{a}", EMPTY_ARRAY)],
    ),
    (
        b"\x40\0\0\x01\x10\0\0\x01\x50\0\0\x04a\x40\0\0\0",
        &[("{a}", EMPTY_OBJECT)],
        &[("{a}", EMPTY_OBJECT)],
    ),
    // {"":null}, {"0":null} and {"a b":null}
    (
        b"\x40\0\0\x01\x10\0\0\0\0\0\0\0",
        &[("{\"\"}", NULL)],
        &[("{\"\"}", NULL)],
    ),
    (
        b"\x40\0\0\x01\x10\0\0\x01\0\0\0\00",
        &[("{\"0\"}", NULL)],
        &[("{\"0\"}", NULL)],
    ),
    (
        b"\x40\0\0\x01\x10\0\0\x03\0\0\0\0a b",
        &[("{\"a b\"}", NULL)],
        &[("{\"a b\"}", NULL)],
    ),
    // the root is not a leaf
    (EMPTY_ARRAY, &[], &[]),
    (EMPTY_OBJECT, &[], &[]),
    (NULL, &[], &[]),
    (TRUE, &[], &[]),
    (TEN, &[], &[]),
    (V, &[], &[]),
    (DATE, &[], &[]),
];

/// Returns `true` if the path of a leaf prints this text, and its value is that of the document.
fn is_leaf(
    alloc: Global,
    leaf: &(KeyPaths<'static>, Value<'static>),
    path: &str,
    document: &'static [u8],
) -> Result<bool, Error> {
    let printed = leaf.0.to_string(alloc)?;
    Ok(printed.as_str() == path && leaf.1 == to_value(alloc, &root_item(document)?)?)
}

/// Returns `true` if a document has these leaves.
fn has_leaves(
    alloc: Global,
    document: &'static [u8],
    ignore_array: bool,
    wanted: &[Leaf],
) -> Result<bool, Error> {
    let found = RawJsonb::new(document).extract_scalar_key_values(alloc, ignore_array)?;
    let mut is_so = found.len() == wanted.len();
    for (leaf, (path, document)) in found.iter().zip(wanted) {
        is_so = is_so && is_leaf(alloc, leaf, path, document)?;
    }
    Ok(is_so)
}

#[test]
fn leaves_come_in_stored_order(rt: HostRuntime) {
    for (document, leaves, ignoring_arrays) in &LEAVES {
        let is_so = has_leaves(rt.alloc(), document, false, leaves);
        expect(&rt, is_so, *document);
        let is_so = has_leaves(rt.alloc(), document, true, ignoring_arrays);
        expect(&rt, is_so, *document);
    }
}

/// Returns whether a leaf has the names and strings that it borrows: the last one of `[false, 10, {"k":"v"}]`.
fn is_borrowed(leaf: &(KeyPaths<'_>, Value<'_>)) -> bool {
    let is_path_borrowed = matches!(
        leaf.0.paths.as_slice(),
        [KeyPath::Index(2), KeyPath::Name(CowStr::Borrowed("k"))]
    );
    is_path_borrowed && matches!(&leaf.1, Value::String(CowStr::Borrowed("v")))
}

/// Returns `true` if the last leaf borrows its names and strings.
fn has_borrowed_leaf(alloc: Global, document: &[u8]) -> Result<bool, Error> {
    let found = RawJsonb::new(document).extract_scalar_key_values(alloc, false)?;
    Ok(match found.last() {
        Some(leaf) => is_borrowed(leaf),
        None => false,
    })
}

#[test]
fn names_are_borrowed(rt: HostRuntime) {
    assert!(rt; has_borrowed_leaf(rt.alloc(), MIXED_ARRAY) == Ok(true));
}

#[test]
fn damage_has_no_leaves(rt: HostRuntime) {
    for (document, refusal) in [
        (b"\x80\0\0".as_slice(), Error::InvalidJsonb),
        (FLOAT, Error::UnsupportedNumber),
    ] {
        let found = RawJsonb::new(document).extract_scalar_key_values(rt.alloc(), false);
        assert!(rt; found.err() == Some(refusal));
    }
}
