//! Items of documents that decode and of bytes that do not.

use super::{array_elements, elements, keys, object_pairs, pairs, root_item, values};
use crate::array_builder::ArrayBuilder;
use crate::entry_iter::{array_entries, object_entries};
use crate::error::Error;
use crate::extension::{Date, ExtensionValue, Interval};
use crate::item::Item;
use crate::layout::EntryKind;
use crate::number::{Decimal64, Number};
use crate::object_builder::ObjectBuilder;
use crate::shape::root_entry;
use std::alloc::{AllocError, Global};
use std::fmt::Debug;
use std::process::Abort;

/// `[false, 10, {"k":"v"}]`
pub(crate) const MIXED: &[u8] =
    b"\x80\0\0\x03\x30\0\0\0\x20\0\0\x02\x50\0\0\x0e\x50\x0a\x40\0\0\x01\x10\0\0\x01\x10\0\0\x01kv";

/// `{"k":"v"}`
pub(crate) const PAIR: &[u8] = b"\x40\0\0\x01\x10\0\0\x01\x10\0\0\x01kv";

/// `{"a":null,"b":[null]}`
pub(crate) const NULLS: &[u8] =
    b"\x40\0\0\x02\x10\0\0\x01\x10\0\0\x01\0\0\0\0\x50\0\0\x08ab\x80\0\0\x01\0\0\0\0";

/// `{"name":"Fred","phones":[{"number":3720453,"type":"home"},{"number":5062051,"type":"work"}]}`
pub(crate) const FRED: &[u8] =
    b"\x40\0\0\x02\x10\0\0\x04\x10\0\0\x06\x10\0\0\x04\x50\0\0\x5anamephonesFred\
      \x80\0\0\x02\x50\0\0\x27\x50\0\0\x27\
      \x40\0\0\x02\x10\0\0\x06\x10\0\0\x04\x20\0\0\x05\x10\0\0\x04numbertype\x50\0\x38\xc5\x05home\
      \x40\0\0\x02\x10\0\0\x06\x10\0\0\x04\x20\0\0\x05\x10\0\0\x04numbertype\x50\0\x4d\x3d\xa3work";

/// `[null]`
const NULL_ALONE: &[u8] = b"\x80\0\0\x01\0\0\0\0";

/// `10`
const TEN: &[u8] = b"\x20\0\0\0\x20\0\0\x02\x50\x0a";

/// The date 1.
pub(crate) const DATE: &[u8] = b"\x20\0\0\0\x60\0\0\x05\x10\0\0\0\x01";

/// `[float]`
const FLOAT_IN_ARRAY: &[u8] = b"\x80\0\0\x01\x20\0\0\x01\x60";

/// `{"a":float}`
const FLOAT_IN_OBJECT: &[u8] = b"\x40\0\0\x01\x10\0\0\x01\x20\0\0\x01a\x60";

/// An object whose key is not UTF-8.
const NO_TEXT_AS_KEY: &[u8] = b"\x40\0\0\x01\x10\0\0\x01\0\0\0\0\xff";

/// The decimal 12.34.
const PRICE: Number = Number::Decimal64(Decimal64 {
    scale: 2,
    value: 1234,
});

/// A month, two days and three microseconds.
const SPAN: ExtensionValue<'static> = ExtensionValue::Interval(Interval {
    months: 1,
    days: 2,
    micros: 3,
});

/// Documents of one value or of children, and their item or error.
static ROOTS: [(&[u8], Result<Item<'static>, Error>); 14] = rows! {
    b"\x20\0\0\0\x20\0\0\x02\x40\x9c", Ok(Item::Number(Number::Int64(-100)));
    b"\x20\0\0\0\x20\0\0\x0a\x70\0\0\0\0\0\0\x04\xd2\x02", Ok(Item::Number(PRICE));
    b"\x20\0\0\0\x20\0\0\x01\0", Ok(Item::Number(Number::UInt64(0)));
    b"\x20\0\0\0\x20\0\0\x0a\x70\0\0\0\0\0\0\0\0\x02", Ok(Item::Number(Number::UInt64(0)));
    b"\x20\0\0\0\x20\0\0\x09\x60\x3f\xf8\0\0\0\0\0\0", Err(Error::UnsupportedNumber);
    b"\x20\0\0\0\x20\0\0\x22\x70\0\0\0\0\0\0\0\0\0\0\0\0\0\0\0\0\0\0\0\0\0\0\0\0\0\0\0\0\0\0\0\0\0",
        Err(Error::UnsupportedNumber);
    b"\x20\0\0\0\0\0\0\0", Ok(Item::Null);
    b"\x20\0\0\0\x30\0\0\0", Ok(Item::Boolean(false));
    b"\x20\0\0\0\x40\0\0\0", Ok(Item::Boolean(true));
    DATE, Ok(Item::Extension(ExtensionValue::Date(Date { value: 1 })));
    b"\x20\0\0\0\x60\0\0\x11\x40\0\0\0\x01\0\0\0\x02\0\0\0\0\0\0\0\x03", Ok(Item::Extension(SPAN));
    b"\x20\0\0\0\x10\0\0\x01v", Ok(Item::String("v"));
    MIXED, Ok(Item::Array(MIXED));
    NULLS, Ok(Item::Object(NULLS));
};

/// What a call reads of a container, if it has such parts.
type Parts<T> = Option<&'static [Result<T, Error>]>;

/// A call, and what it reads.
#[derive(Clone, Copy)]
enum Read {
    Elements(Parts<Item<'static>>),
    Values(Parts<Item<'static>>),
    Keys(Parts<&'static str>),
    Pairs(Parts<(&'static str, Item<'static>)>),
}

/// Containers and others, and what is read of them.
static CONTAINERS: [(&[u8], Read); 15] = rows! {
    MIXED, Read::Elements(Some(&[
        Ok(Item::Boolean(false)), Ok(Item::Number(Number::UInt64(10))), Ok(Item::Object(PAIR))
    ]));
    NULL_ALONE, Read::Elements(Some(&[Ok(Item::Null)]));
    FLOAT_IN_ARRAY, Read::Elements(Some(&[Err(Error::UnsupportedNumber)]));
    NULLS, Read::Elements(None);
    TEN, Read::Elements(None);
    NULLS, Read::Values(Some(&[Ok(Item::Null), Ok(Item::Array(NULL_ALONE))]));
    FLOAT_IN_OBJECT, Read::Values(Some(&[Err(Error::UnsupportedNumber)]));
    MIXED, Read::Values(None);
    NULLS, Read::Keys(Some(&[Ok("a"), Ok("b")]));
    MIXED, Read::Keys(None);
    NO_TEXT_AS_KEY, Read::Keys(Some(&[Err(Error::InvalidJsonb)]));
    NULLS, Read::Pairs(Some(&[Ok(("a", Item::Null)), Ok(("b", Item::Array(NULL_ALONE)))]));
    FLOAT_IN_OBJECT, Read::Pairs(Some(&[Err(Error::UnsupportedNumber)]));
    NO_TEXT_AS_KEY, Read::Pairs(Some(&[Err(Error::InvalidJsonb)]));
    TEN, Read::Pairs(None);
};

/// Returns `true` if both print the same text. The text shows a number's variant, while `==` compares values.
pub(crate) fn are_alike<T: Debug + Copy>(
    alloc: Global,
    found: T,
    wanted: T,
) -> Result<bool, AllocError> {
    let found = format!(in alloc; "{found:?}")?;
    let wanted = format!(in alloc; "{wanted:?}")?;
    Ok(found == wanted)
}

/// Fails with the row of a table, unless it is as expected.
pub(crate) fn expect<T: Debug + Copy>(rt: &impl Abort, is_so: bool, row: T) {
    assert!(*rt; is_so, "{row:?}");
}

/// Fails with the row of a table, unless it is as expected, or with the error of a call.
pub(crate) fn expect_ok<T: Debug + Copy, E: Debug + Drop>(
    rt: &impl Abort,
    is_so: Result<bool, E>,
    row: T,
) {
    match is_so {
        Ok(is_so) => expect(rt, is_so, row),
        Err(error) => panic!(*rt; "error: {error:?}"),
    }
}

#[test]
fn reads_roots_and_refuses_floats(rt: HostRuntime) {
    for (bytes, wanted) in &ROOTS {
        let is_so = are_alike(rt.alloc(), root_item(bytes), *wanted);
        expect_ok(&rt, is_so, *bytes);
    }
}

/// Returns `true` if `next` yields these children and then twice `None`, or there are no such children.
macro_rules! are_parts {
    ($alloc:ident, $parts:expr, $wanted:ident) => {{
        let Some(mut parts) = $parts else {
            return Ok($wanted.is_none());
        };
        let Some(wanted) = $wanted else {
            return Ok(false);
        };
        for part in wanted {
            if !are_alike($alloc, parts.next(), Some(*part))? {
                return Ok(false);
            }
        }
        Ok(parts.next().is_none() && parts.next().is_none())
    }};
}

fn are_elements(
    alloc: Global,
    bytes: &'static [u8],
    wanted: Parts<Item<'static>>,
) -> Result<bool, Error> {
    are_parts!(alloc, elements(bytes)?, wanted)
}

fn are_values(
    alloc: Global,
    bytes: &'static [u8],
    wanted: Parts<Item<'static>>,
) -> Result<bool, Error> {
    are_parts!(alloc, values(bytes)?, wanted)
}

fn are_keys(
    alloc: Global,
    bytes: &'static [u8],
    wanted: Parts<&'static str>,
) -> Result<bool, Error> {
    are_parts!(alloc, keys(bytes)?, wanted)
}

fn are_pairs(
    alloc: Global,
    bytes: &'static [u8],
    wanted: Parts<(&'static str, Item<'static>)>,
) -> Result<bool, Error> {
    are_parts!(alloc, pairs(bytes)?, wanted)
}

fn is_read(alloc: Global, bytes: &'static [u8], read: Read) -> Result<bool, Error> {
    match read {
        Read::Elements(wanted) => are_elements(alloc, bytes, wanted),
        Read::Values(wanted) => are_values(alloc, bytes, wanted),
        Read::Keys(wanted) => are_keys(alloc, bytes, wanted),
        Read::Pairs(wanted) => are_pairs(alloc, bytes, wanted),
    }
}

#[test]
fn reads_parts_of_containers(rt: HostRuntime) {
    for (bytes, read) in &CONTAINERS {
        expect_ok(&rt, is_read(rt.alloc(), bytes, *read), *bytes);
    }
}

#[test]
fn other_containers_are_refused(rt: HostRuntime) {
    let refused = Some(Error::InvalidJsonb);
    expect(&rt, array_elements(NULLS).err() == refused, "elements");
    expect(&rt, object_pairs(MIXED).err() == refused, "pairs");
    expect(&rt, array_entries(NULLS).err() == refused, "entries");
    expect(
        &rt,
        object_entries(MIXED).err() == refused,
        "entries of pairs",
    );
}

/// An array whose element exceeds the bytes.
const CUT: &[u8] = b"\x80\0\0\x01\x20\0\0\x02\x50";

/// Returns `true` if there is a child that cannot be read.
fn is_error<T>(child: &Option<Result<T, Error>>) -> bool {
    matches!(child, Some(Err(_)))
}

/// Which error it is depends on the order in which the bytes are read.
#[test]
fn entries_that_cannot_be_read_are_errors(rt: HostRuntime) -> Result<(), Error> {
    expect(&rt, is_error(&array_entries(CUT)?.next()), "an entry");
    expect(&rt, is_error(&array_elements(CUT)?.next()), "an element");
    let value = object_pairs(FLOAT_IN_OBJECT)?.next();
    expect(&rt, is_error(&value), "a value");
    let pair = object_pairs(NO_TEXT_AS_KEY)?.next();
    expect(&rt, is_error(&pair), "a key of a pair");
    if let Some(mut keys) = keys(NO_TEXT_AS_KEY)? {
        expect(&rt, is_error(&keys.next()), "a key");
    }
    Ok(())
}

/// A float, which is not supported.
const FLOAT: &[u8] = b"\x20\0\0\0\x20\0\0\x01\x60";

/// Returns `true` if pushing a float as an element fails.
fn element_fails(alloc: Global) -> bool {
    let mut array = ArrayBuilder::new(alloc);
    array.push_document(FLOAT).is_err()
}

/// Returns `true` if pushing a float as a value fails, and pushing no bytes, after the key was inserted.
fn values_fail(alloc: Global) -> Result<bool, Error> {
    let mut object = ObjectBuilder::new(alloc);
    let float = object.push_document("k", FLOAT);
    object.push_document("k", TEN)?;
    let empty = object.push_document("k", b"");
    Ok(float.is_err() && empty == Err(Error::InvalidJsonb))
}

#[test]
fn roots_that_cannot_be_read_are_errors(rt: HostRuntime) {
    expect(&rt, root_item(FLOAT).is_err(), "a root");
    expect(&rt, root_item(b"").is_err(), "no root");
    expect(&rt, element_fails(rt.alloc()), "an element");
    expect_ok(&rt, values_fail(rt.alloc()), "values");
}

#[test]
fn containers_are_stored_as_containers(rt: HostRuntime) -> Result<(), Error> {
    assert!(rt; root_entry(MIXED)?.kind == EntryKind::Container);
    Ok(())
}
