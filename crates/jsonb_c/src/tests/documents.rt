//! Worked rows of the calls on one document, or on two.

use super::Wanted::{Bytes, Number};
use super::{ASD, Call, MIXED, NONE, NULLS, OBJECT_DUPLICATE_KEY, OK, Row, TENS, assert_each};
use crate::document::casts::{
    jdoc_as_bool, jdoc_as_i64, jdoc_as_str, jdoc_as_u64, jdoc_to_bool, jdoc_to_i64, jdoc_to_str,
    jdoc_to_u64,
};
use crate::document::check::jdoc_check;
use crate::document::compare::jdoc_contains;
use crate::document::composite_key::jdoc_composite_key;
use crate::document::edit::{
    jdoc_array_insert, jdoc_concat, jdoc_delete_by_index, jdoc_delete_by_keypath,
    jdoc_delete_by_name, jdoc_object_insert, jdoc_strip_nulls,
};
use crate::document::keys::{jdoc_equality_key, jdoc_sort_key};
use crate::document::kind::jdoc_type;
use crate::document::names::{
    jdoc_exists_all_keys, jdoc_exists_any_keys, jdoc_object_delete, jdoc_object_pick,
};
use crate::document::parts::{jdoc_get_by_index, jdoc_get_by_keypath, jdoc_get_by_name};
use crate::document::sets::{
    jdoc_array_distinct, jdoc_array_except, jdoc_array_intersection, jdoc_array_overlap,
};
use std::alloc::Global;

/// 1
const ONE: &[u8] = b"\x20\0\0\0\x20\0\0\x02\x50\x01";

/// 9
const NINE: &[u8] = b"\x20\0\0\0\x20\0\0\x02\x50\x09";

/// 2
const TWO: &[u8] = b"\x20\0\0\0\x20\0\0\x02\x50\x02";

/// `[1]`
const ONES: &[u8] = b"\x80\0\0\x01\x20\0\0\x02\x50\x01";

/// `[1,2]`
const ONE_AND_TWO: &[u8] = b"\x80\0\0\x02\x20\0\0\x02\x20\0\0\x02\x50\x01\x50\x02";

/// `[1,1,2,1.0]`
const REPEATED: &[u8] =
    b"\x80\0\0\x04\x20\0\0\x02\x20\0\0\x02\x20\0\0\x02\x20\0\0\x0a\x50\x01\x50\x01\x50\x02\x70\0\0\0\0\0\0\0\x0a\x01";

/// `{"b":[null]}`
const NULLS_OF_B: &[u8] = b"\x40\0\0\x01\x10\0\0\x01\x50\0\0\x08b\x80\0\0\x01\0\0\0\0";

/// `[1,9]`
const ONE_AND_NINE: &[u8] = b"\x80\0\0\x02\x20\0\0\x02\x20\0\0\x02\x50\x01\x50\x09";

/// -0.005
const DECIMAL: &[u8] = b"\x20\0\0\0\x20\0\0\x0a\x70\xff\xff\xff\xff\xff\xff\xff\xfb\x03";

/// 1.0 and null
const DECIMAL_AND_NULL: &[u8] =
    b"\x20\0\0\0\x20\0\0\x0a\x70\0\0\0\0\0\0\0\x0a\x01\x20\0\0\0\0\0\0\0";

/// A call that returns a value in a document.
enum Part {
    ByKeypath(&'static [u8], &'static [u8]),
    At(&'static [u8], usize),
    Named(&'static [u8], &'static [u8], bool),
    AsStr(&'static [u8]),
    ToStr(&'static [u8]),
}

impl Call for Part {
    fn make(&self, alloc: Global, out: &mut [u8], len: &mut usize, _: &mut u8) -> u32 {
        match *self {
            Part::ByKeypath(document, path) => jdoc_get_by_keypath(alloc, document, path, out, len),
            Part::At(document, index) => jdoc_get_by_index(alloc, document, index, out, len),
            Part::Named(document, name, ignore_case) => {
                jdoc_get_by_name(alloc, document, name, ignore_case, out, len)
            }
            Part::AsStr(document) => jdoc_as_str(document, out, len),
            Part::ToStr(document) => jdoc_to_str(alloc, document, out, len),
        }
    }
}

static PARTS: [Row<Part>; 5] = calls! {
    Part::ByKeypath(MIXED, b"{2,k}"), OK, Bytes(b"\x20\0\0\0\x10\0\0\x01v");
    Part::At(MIXED, 1), OK, Bytes(b"\x20\0\0\0\x20\0\0\x02\x50\x0a");
    Part::Named(ASD, b"ASD", false), NONE, Bytes(b"");
    Part::AsStr(b"\x20\0\0\0\x10\0\0\x03abc"), OK, Bytes(b"abc");
    Part::ToStr(DECIMAL), OK, Bytes(b"-0.005");
};

#[test]
fn values_in_documents(rt: HostRuntime) {
    assert_each(&rt, rt.alloc(), &PARTS);
}

/// A call that changes a document.
enum Edit {
    DeletePath(&'static [u8], &'static [u8]),
    DeleteName(&'static [u8], &'static [u8]),
    DeleteAt(&'static [u8], i32),
    StripNulls(&'static [u8]),
    Concat(&'static [u8], &'static [u8]),
    InsertAt(&'static [u8], &'static [u8], i32),
    InsertPair(&'static [u8], &'static [u8], &'static [u8], bool),
}

impl Call for Edit {
    fn make(&self, alloc: Global, out: &mut [u8], len: &mut usize, _: &mut u8) -> u32 {
        match *self {
            Edit::DeletePath(document, path) => {
                jdoc_delete_by_keypath(alloc, document, path, out, len)
            }
            Edit::DeleteName(document, name) => {
                jdoc_delete_by_name(alloc, document, name, out, len)
            }
            Edit::DeleteAt(document, index) => {
                jdoc_delete_by_index(alloc, document, index, out, len)
            }
            Edit::StripNulls(document) => jdoc_strip_nulls(alloc, document, out, len),
            Edit::Concat(document, other) => jdoc_concat(alloc, document, other, out, len),
            Edit::InsertAt(document, value, position) => {
                jdoc_array_insert(alloc, document, value, position, out, len)
            }
            Edit::InsertPair(document, value, name, update) => {
                jdoc_object_insert(alloc, document, value, name, update, out, len)
            }
        }
    }
}

static SHORTER: [Row<Edit>; 4] = calls! {
    Edit::DeletePath(MIXED, b"{2,k}"), OK,
        Bytes(b"\x80\0\0\x03\x30\0\0\0\x20\0\0\x02\x50\0\0\x04\x50\x0a\x40\0\0\0");
    Edit::DeleteName(ASD, b"asd"), OK, Bytes(b"\x40\0\0\0");
    Edit::DeleteAt(TENS, -1), OK, Bytes(b"\x80\0\0\x02\x20\0\0\x02\x20\0\0\x02\x50\x0a\x50\x14");
    Edit::StripNulls(NULLS), OK, Bytes(NULLS_OF_B);
};

#[test]
fn documents_without_values(rt: HostRuntime) {
    assert_each(&rt, rt.alloc(), &SHORTER);
}

static LONGER: [Row<Edit>; 4] = calls! {
    Edit::Concat(ONE, TWO), OK, Bytes(ONE_AND_TWO);
    Edit::InsertAt(ONES, NINE, i32::MAX), OK, Bytes(ONE_AND_NINE);
    Edit::InsertPair(ASD, ONE, b"asd", false), OBJECT_DUPLICATE_KEY, Bytes(b"");
    Edit::InsertPair(ASD, ONE, b"asd", true), OK, Bytes(b"\x40\0\0\x01\x10\0\0\x03\x20\0\0\x02asd\x50\x01");
};

#[test]
fn documents_with_more_values(rt: HostRuntime) {
    assert_each(&rt, rt.alloc(), &LONGER);
}

/// A call on the elements of two arrays, or of one.
enum Set {
    Distinct(&'static [u8]),
    Intersection(&'static [u8], &'static [u8]),
    Except(&'static [u8], &'static [u8]),
    Overlap(&'static [u8], &'static [u8]),
    Contains(&'static [u8], &'static [u8]),
}

impl Call for Set {
    fn make(&self, alloc: Global, out: &mut [u8], len: &mut usize, truth: &mut u8) -> u32 {
        match *self {
            Set::Distinct(document) => jdoc_array_distinct(alloc, document, out, len),
            Set::Intersection(document, other) => {
                jdoc_array_intersection(alloc, document, other, out, len)
            }
            Set::Except(document, other) => jdoc_array_except(alloc, document, other, out, len),
            Set::Overlap(document, other) => jdoc_array_overlap(alloc, document, other, truth),
            Set::Contains(document, other) => jdoc_contains(alloc, document, other, truth),
        }
    }
}

static SETS: [Row<Set>; 6] = calls! {
    Set::Distinct(REPEATED), OK, Bytes(ONE_AND_TWO);
    Set::Intersection(REPEATED, ONES), OK, Bytes(ONES);
    Set::Except(REPEATED, ONES), OK,
        Bytes(b"\x80\0\0\x03\x20\0\0\x02\x20\0\0\x02\x20\0\0\x0a\x50\x01\x50\x02\x70\0\0\0\0\0\0\0\x0a\x01");
    Set::Overlap(REPEATED, TWO), OK, Number(1);
    Set::Overlap(REPEATED, NULLS), OK, Number(0);
    Set::Contains(ONES, ONE), OK, Number(1);
};

#[test]
fn sets_of_elements(rt: HostRuntime) {
    assert_each(&rt, rt.alloc(), &SETS);
}

/// A call on the members of these names: the document, the names and where they end.
enum Named {
    All(&'static [u8], &'static [u8], &'static [u64]),
    Any(&'static [u8], &'static [u8], &'static [u64]),
    Pick(&'static [u8], &'static [u8], &'static [u64]),
    Delete(&'static [u8], &'static [u8], &'static [u64]),
}

impl Call for Named {
    fn make(&self, alloc: Global, out: &mut [u8], len: &mut usize, truth: &mut u8) -> u32 {
        match *self {
            Named::All(document, names, ends) => {
                jdoc_exists_all_keys(alloc, document, names, ends, truth)
            }
            Named::Any(document, names, ends) => {
                jdoc_exists_any_keys(alloc, document, names, ends, truth)
            }
            Named::Pick(document, names, ends) => {
                jdoc_object_pick(alloc, document, names, ends, out, len)
            }
            Named::Delete(document, names, ends) => {
                jdoc_object_delete(alloc, document, names, ends, out, len)
            }
        }
    }
}

static NAMED: [Row<Named>; 4] = calls! {
    Named::All(NULLS, b"ca", &[0, 1, 2]), OK, Number(0);
    Named::Any(NULLS, b"ca", &[0, 1, 2]), OK, Number(1);
    Named::Pick(NULLS, b"a", &[0, 1]), OK, Bytes(b"\x40\0\0\x01\x10\0\0\x01\0\0\0\0a");
    Named::Delete(NULLS, b"a", &[0, 1]), OK, Bytes(NULLS_OF_B);
};

#[test]
fn names_of_members(rt: HostRuntime) {
    assert_each(&rt, rt.alloc(), &NAMED);
}

/// A call that returns a key.
enum Key {
    Sort(&'static [u8], bool),
    Equality(&'static [u8]),
    Composite(&'static [u8], &'static [u64], bool),
}

impl Call for Key {
    fn make(&self, alloc: Global, out: &mut [u8], len: &mut usize, _: &mut u8) -> u32 {
        match *self {
            Key::Sort(document, wide) => jdoc_sort_key(alloc, document, wide, out, len),
            Key::Equality(document) => jdoc_equality_key(alloc, document, out, len),
            Key::Composite(bytes, offsets, wide) => {
                jdoc_composite_key(alloc, bytes, offsets, wide, out, len)
            }
        }
    }
}

static KEYS: [Row<Key>; 4] = calls! {
    Key::Sort(ONE, true), OK, Bytes(b"\0\0\x04\x81\x03\xe9\x02\0");
    Key::Equality(ONE), OK, Bytes(b"\x04\x81\x03\xe9\x02\0");
    Key::Composite(ONE, &[0, 10, 10], false), OK, Bytes(b"\0\x04\x81\x03\xe9\x02\0\0\0");
    Key::Composite(DECIMAL_AND_NULL, &[0, 18, 26], true), OK,
        Bytes(b"\0\0\x04\x81\x03\xe9\x02\0\0\0\x08");
};

#[test]
fn keys_of_documents(rt: HostRuntime) {
    assert_each(&rt, rt.alloc(), &KEYS);
}

/// A call that returns a number of a scalar.
enum Scalar {
    AsBool(&'static [u8]),
    ToBool(&'static [u8]),
    Type(&'static [u8]),
    Check(&'static [u8]),
}

impl Call for Scalar {
    fn make(&self, _: Global, _: &mut [u8], _: &mut usize, number: &mut u8) -> u32 {
        match *self {
            Scalar::AsBool(document) => jdoc_as_bool(document, number),
            Scalar::ToBool(document) => jdoc_to_bool(document, number),
            Scalar::Type(document) => jdoc_type(document, number),
            Scalar::Check(document) => jdoc_check(document),
        }
    }
}

static TRUTHS: [Row<Scalar>; 2] = calls! {
    Scalar::AsBool(b"\x20\0\0\0\x40\0\0\0"), OK, Number(1);
    Scalar::ToBool(b"\x20\0\0\0\x10\0\0\x03YES"), OK, Number(1);
};

#[test]
fn scalars(rt: HostRuntime) {
    assert_each(&rt, rt.alloc(), &TRUTHS);
    assert_stores!(rt; jdoc_as_i64(b"\x20\0\0\0\x20\0\0\x02\x40\xfb"), OK, -5);
    assert_stores!(rt; jdoc_as_u64(b"\x20\0\0\0\x20\0\0\x09\x50\xff\xff\xff\xff\xff\xff\xff\xff"), OK, u64::MAX);
    assert_stores!(rt; jdoc_to_i64(b"\x20\0\0\0\x10\0\0\x02+5"), OK, 5);
    assert_stores!(rt; jdoc_to_u64(b"\x20\0\0\0\x20\0\0\x0a\x70\xff\xff\xff\xff\xff\xff\xff\xfc\x01"), OK, 0);
}

static TYPES: [Row<Scalar>; 3] = calls! {
    Scalar::Type(b"\x20\0\0\0\0\0\0\0"), OK, Number(0);
    Scalar::Type(b"\x20\0\0\0\x60\0\0\x05\x10\0\0\0\x01"), OK, Number(6);
    Scalar::Check(MIXED), OK, Number(9);
};

#[test]
fn types_of_documents(rt: HostRuntime) {
    assert_each(&rt, rt.alloc(), &TYPES);
}
