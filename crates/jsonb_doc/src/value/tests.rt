//! Values of documents, copied and compared.

use super::*;
use crate::extension::ExtensionValue;
use crate::item::Item;
use crate::number::Decimal64;
use crate::reading::root_item;
use crate::reading::tests::{DATE, FRED, MIXED, NULLS, expect, expect_ok};
use std::alloc::AllocError;

/// A month, two days and three microseconds.
const SPAN: Interval = Interval {
    months: 1,
    days: 2,
    micros: 3,
};

/// What a value holds itself.
#[derive(Clone, Copy)]
enum Held {
    Null,
    Bool(bool),
    Borrowed(&'static str),
    Owned(&'static str),
    UInt64(u64),
    /// The scale and the digits.
    Decimal64(u8, i64),
    Binary(&'static [u8]),
    Date(i32),
    Interval(Interval),
    /// An array of this many elements.
    Array(usize),
    /// Members under these keys.
    Object(&'static [&'static str]),
}

impl Held {
    fn is_in(self, value: &Value<'_>) -> bool {
        match (value, self) {
            (Value::Null, Held::Null) => true,
            (Value::Bool(found), Held::Bool(wanted)) => *found == wanted,
            (Value::String(CowStr::Borrowed(found)), Held::Borrowed(wanted)) => *found == wanted,
            (Value::String(CowStr::Owned(found)), Held::Owned(wanted)) => found.as_str() == wanted,
            (Value::Number(Number::UInt64(found)), Held::UInt64(wanted)) => *found == wanted,
            (Value::Number(Number::Decimal64(found)), Held::Decimal64(scale, digits)) => {
                found.scale == scale && found.value == digits
            }
            (Value::Binary(found), Held::Binary(wanted)) => *found == wanted,
            (Value::Date(found), Held::Date(wanted)) => found.value == wanted,
            (Value::Interval(found), Held::Interval(wanted)) => *found == wanted,
            (Value::Array(values), Held::Array(count)) => values.len() == count,
            (Value::Object(members), Held::Object(keys)) => has_keys(members, keys),
            _ => false,
        }
    }
}

/// Returns `true` if these are the keys of the members.
fn has_keys(members: &BTreeMap<String, Value<'_>>, keys: &[&str]) -> bool {
    let mut is_so = members.len() == keys.len();
    for key in keys {
        is_so = is_so && members.contains_key(*key);
    }
    is_so
}

/// Appends the children of a container.
fn push_parts<'v, 'a>(
    parts: &mut Vec<&'v Value<'a>>,
    value: &'v Value<'a>,
) -> Result<(), AllocError> {
    match value {
        Value::Array(values) => parts.extend(values),
        Value::Object(members) => parts.extend(members.values()),
        _ => Ok(()),
    }
}

/// Returns `true` if the value and its descendants, level by level, are these.
fn holds(alloc: Global, value: &Value<'_>, wanted: &[Held]) -> Result<bool, AllocError> {
    let mut parts = Vec::new(alloc);
    parts.push(value)?;
    for (place, held) in wanted.iter().enumerate() {
        if place >= parts.len() || !held.is_in(parts[place]) {
            return Ok(false);
        }
        let part = parts[place];
        push_parts(&mut parts, part)?;
    }
    Ok(parts.len() == wanted.len())
}

fn decoded(alloc: Global, bytes: &[u8]) -> Result<Value<'_>, Error> {
    to_value(alloc, &root_item(bytes)?)
}

/// Documents, and what their values hold, level by level.
static DECODED: [(&[u8], &[Held]); 7] = rows! {
    MIXED, &[Held::Array(3), Held::Bool(false), Held::UInt64(10), Held::Object(&["k"]), Held::Borrowed("v")];
    NULLS, &[Held::Object(&["a", "b"]), Held::Null, Held::Array(1), Held::Null];
    FRED, &[
        Held::Object(&["name", "phones"]), Held::Borrowed("Fred"), Held::Array(2),
        Held::Object(&["number", "type"]), Held::Object(&["number", "type"]),
        Held::UInt64(3_720_453), Held::Borrowed("home"), Held::UInt64(5_062_051), Held::Borrowed("work")
    ];
    // {"asd":"adf"}
    b"\x40\0\0\x01\x10\0\0\x03\x10\0\0\x03asdadf", &[Held::Object(&["asd"]), Held::Borrowed("adf")];
    DATE, &[Held::Date(1)];
    b"\x20\0\0\0\x60\0\0\x11\x40\0\0\0\x01\0\0\0\x02\0\0\0\0\0\0\0\x03", &[Held::Interval(SPAN)];
    b"\x20\0\0\0\x60\0\0\x03\0\xff\0", &[Held::Binary(b"\xff\0")];
};

fn decodes_as(alloc: Global, bytes: &[u8], wanted: &[Held]) -> Result<bool, Error> {
    let value = decoded(alloc, bytes)?;
    Ok(holds(alloc, &value, wanted)?)
}

/// Bytes that do not decode.
static REFUSED: [(&[u8], Error); 2] = rows! {
    // an entry word without its content
    b"\x80\0\0\x01\x20\0\0\x02", Error::InvalidJsonb;
    // a float in an array
    b"\x80\0\0\x01\x20\0\0\x09\x60\x3f\xf8\0\0\0\0\0\0", Error::UnsupportedNumber;
};

#[test]
fn decodes_documents_and_refuses_damaged_bytes(rt: HostRuntime) {
    for (bytes, wanted) in &DECODED {
        expect_ok(&rt, decodes_as(rt.alloc(), bytes, wanted), *bytes);
    }
    for (bytes, refusal) in &REFUSED {
        expect(
            &rt,
            decoded(rt.alloc(), bytes).err() == Some(*refusal),
            *bytes,
        );
    }
}

/// Documents, and what their values print.
static PRINTED: [(&[u8], &str); 7] = rows! {
    b"\x20\0\0\0\0\0\0\0", "Null";
    b"\x20\0\0\0\x40\0\0\0", "Bool(true)";
    b"\x20\0\0\0\x10\0\0\x02a\n", "String(\"a\\n\")";
    // the decimal of scale 1 and -15
    b"\x20\0\0\0\x20\0\0\x0a\x70\xff\xff\xff\xff\xff\xff\xff\xf1\x01", "Number(-1.5)";
    DATE, "Date { value: 1 }";
    // [1,2]
    b"\x80\0\0\x02\x20\0\0\x02\x20\0\0\x02\x50\x01\x50\x02", "Array of 2";
    // {"k":null}
    b"\x40\0\0\x01\x10\0\0\x01\0\0\0\0k", "Object of 1";
};

fn prints(alloc: Global, bytes: &[u8], wanted: &str) -> Result<bool, Error> {
    let value = decoded(alloc, bytes)?;
    Ok(format!(in alloc; "{value:?}")?.as_str() == wanted)
}

#[test]
fn prints_kinds(rt: HostRuntime) {
    for (bytes, wanted) in &PRINTED {
        expect_ok(&rt, prints(rt.alloc(), bytes, wanted), *wanted);
    }
}

/// `[1,"a"]`
const ONE_AND_A: &[u8] = b"\x80\0\0\x02\x20\0\0\x02\x10\0\0\x01\x50\x01a";

/// `[1.0,"a"]`
const TENTHS_AND_A: &[u8] = b"\x80\0\0\x02\x20\0\0\x0a\x10\0\0\x01\x70\0\0\0\0\0\0\0\x0a\x01a";

/// `[1.0,"b"]`
const TENTHS_AND_B: &[u8] = b"\x80\0\0\x02\x20\0\0\x0a\x10\0\0\x01\x70\0\0\0\0\0\0\0\x0a\x01b";

/// `[1]`
const ONE_ALONE: &[u8] = b"\x80\0\0\x01\x20\0\0\x02\x50\x01";

/// `{"a":null,"b":[true]}`
const NULL_AND_TRUE: &[u8] =
    b"\x40\0\0\x02\x10\0\0\x01\x10\0\0\x01\0\0\0\0\x50\0\0\x08ab\x80\0\0\x01\x40\0\0\0";

const ONE: Item<'static> = Item::Number(Number::UInt64(1));

const MINUS_ONE: Item<'static> = Item::Number(Number::Int64(-1));

const DAY: Item<'static> = Item::Extension(ExtensionValue::Date(Date { value: 1 }));

const TIME: Item<'static> = Item::Extension(ExtensionValue::Timestamp(Timestamp { value: 1 }));

/// `{"name":"Fred","phones":null}`
const FRED_WITHOUT_PHONES: &[u8] =
    b"\x40\0\0\x02\x10\0\0\x04\x10\0\0\x06\x10\0\0\x04\0\0\0\0namephonesFred";

/// Items, and whether their values are equal.
static COMPARED: [(Item<'static>, Item<'static>, bool); 15] = rows! {
    ONE, Item::Number(Number::Decimal64(Decimal64 { scale: 1, value: 10 })), true;
    ONE, Item::Number(Number::Decimal64(Decimal64 { scale: 1, value: 11 })), false;
    MINUS_ONE, Item::Number(Number::Decimal64(Decimal64 { scale: 1, value: -10 })), true;
    // [1,"a"] and [1.0,"a"], [1.0,"b"], [1]
    Item::Array(ONE_AND_A), Item::Array(TENTHS_AND_A), true;
    Item::Array(ONE_AND_A), Item::Array(TENTHS_AND_B), false;
    Item::Array(ONE_ALONE), Item::Array(ONE_AND_A), false;
    DAY, DAY, true;
    DAY, TIME, false;
    DAY, ONE, false;
    Item::Array(MIXED), Item::Array(MIXED), true;
    Item::Object(NULLS), Item::Object(NULLS), true;
    Item::Object(NULLS), Item::Object(NULL_AND_TRUE), false;
    Item::Object(FRED), Item::Object(FRED), true;
    Item::Object(FRED), Item::Object(NULLS), false;
    Item::Object(FRED), Item::Object(FRED_WITHOUT_PHONES), false;
};

/// Returns `true` if the values of two items are equal or not, as expected.
fn compare<'a>(
    alloc: Global,
    one: &Item<'a>,
    other: &Item<'a>,
    wanted: bool,
) -> Result<bool, Error> {
    Ok((to_value(alloc, one)? == to_value(alloc, other)?) == wanted)
}

#[test]
fn compares_by_value(rt: HostRuntime) {
    for (one, other, wanted) in &COMPARED {
        let is_so = compare(rt.alloc(), one, other, *wanted);
        expect_ok(&rt, is_so, (*one, *other));
    }
}

fn insert<'a>(
    alloc: Global,
    members: &mut BTreeMap<String, Value<'a>>,
    key: &str,
    value: Value<'a>,
) -> Result<(), AllocError> {
    drop(members.insert(String::from_str(alloc, key)?, value)?);
    Ok(())
}

/// Returns a decimal of scale 1.
fn tenths(value: i64) -> Value<'static> {
    Value::Number(Number::Decimal64(Decimal64 { scale: 1, value }))
}

fn text(text: &str) -> Value<'_> {
    Value::String(CowStr::Borrowed(text))
}

/// Returns `{"values":[1.0,"Fred"]}`, with an owned string.
fn with_own_text(alloc: Global) -> Result<Value<'static>, AllocError> {
    let owned = Value::String(CowStr::Owned(String::from_str(alloc, "Fred")?));
    let values = vec![in alloc; tenths(10), owned]?;
    let mut members = BTreeMap::new(alloc);
    insert(alloc, &mut members, "values", Value::Array(values))?;
    Ok(Value::Object(members))
}

/// Returns `true` if a clone of a value is equal and holds this, level by level.
fn is_cloned(
    alloc: Global,
    value: Result<Value<'_>, AllocError>,
    wanted: &[Held],
) -> Result<bool, Error> {
    let value = value?;
    let copy = value.clone(alloc)?;
    Ok(copy == value && holds(alloc, &copy, wanted)?)
}

/// What the value with an owned string holds.
static WITH_OWN_TEXT: [Held; 4] = [
    Held::Object(&["values"]),
    Held::Array(2),
    Held::Decimal64(1, 10),
    Held::Owned("Fred"),
];

#[test]
fn clones_hold_the_same(rt: HostRuntime) {
    let alloc = rt.alloc();
    let is_so = is_cloned(alloc, with_own_text(alloc), &WITH_OWN_TEXT);
    expect_ok(&rt, is_so, "an owned string");
    let is_so = is_cloned(alloc, Ok(tenths(10)), &[Held::Decimal64(1, 10)]);
    expect_ok(&rt, is_so, "a number");
    let is_so = is_cloned(alloc, Ok(text("a")), &[Held::Borrowed("a")]);
    expect_ok(&rt, is_so, "a borrowed string");
}

/// Inserts a null under this key, if there is one.
fn insert_null(
    alloc: Global,
    members: &mut BTreeMap<String, Value<'_>>,
    key: Option<&str>,
) -> Result<(), AllocError> {
    match key {
        Some(key) => insert(alloc, members, key, Value::Null),
        None => Ok(()),
    }
}

/// Returns an object of this value, with a null before or after it or both.
fn object_around<'a>(
    alloc: Global,
    value: Value<'a>,
    (before, behind): (bool, bool),
) -> Result<Value<'a>, AllocError> {
    let mut members = BTreeMap::new(alloc);
    insert(alloc, &mut members, "b", value)?;
    insert_null(alloc, &mut members, before.then_some("a"))?;
    insert_null(alloc, &mut members, behind.then_some("c"))?;
    Ok(Value::Object(members))
}

/// Appends an empty array, or nothing.
fn push_empty(alloc: Global, values: &mut Vec<Value<'_>>, is_so: bool) -> Result<(), AllocError> {
    if is_so {
        values.push(Value::Array(Vec::new(alloc)))?;
    }
    Ok(())
}

/// Returns an array of this value, with an empty one before or after it or both.
fn array_around<'a>(
    alloc: Global,
    value: Value<'a>,
    (before, behind): (bool, bool),
) -> Result<Value<'a>, AllocError> {
    let mut values = Vec::new(alloc);
    push_empty(alloc, &mut values, before)?;
    values.push(value)?;
    push_empty(alloc, &mut values, behind)?;
    Ok(Value::Array(values))
}

/// Returns a container of this value alone, or with something before or after it.
fn around<'a>(
    alloc: Global,
    value: Value<'a>,
    neighbours: (bool, bool),
    object: bool,
) -> Result<Value<'a>, AllocError> {
    if object {
        object_around(alloc, value, neighbours)
    } else {
        array_around(alloc, value, neighbours)
    }
}

/// The position of a nested container among the children of its parent.
#[derive(Clone, Copy, Debug)]
enum Place {
    Only,
    First,
    Middle,
    Last,
    /// Alternately.
    Any,
}

impl Place {
    /// Returns whether something precedes and follows the child at this many levels above the innermost.
    fn neighbours(self, level: u32) -> (bool, bool) {
        match self {
            Place::Only => (false, false),
            Place::First => (false, true),
            Place::Middle => (true, true),
            Place::Last => (true, false),
            Place::Any => (level % 3 > 0, level % 2 > 0),
        }
    }
}

/// How many levels, and whether of objects.
type Size = (u32, bool);

/// Returns a string in nested containers, with something else next to it in each.
fn nested<'a>(
    alloc: Global,
    innermost: &'a str,
    place: Place,
    (levels, object): Size,
) -> Result<Value<'a>, AllocError> {
    let mut value = text(innermost);
    for level in 0..levels {
        value = around(alloc, value, place.neighbours(level), object)?;
    }
    Ok(value)
}

static PLACES: [Place; 5] = [
    Place::Only,
    Place::First,
    Place::Middle,
    Place::Last,
    Place::Any,
];

static SIZES: [Size; 4] = [(100, false), (100, true), (10_000, false), (2_000, true)];

/// Returns `true` if a clone is equal, and a value with one more level or another innermost string is not. Drops them
/// all.
fn is_told_apart(alloc: Global, place: Place, size: Size) -> Result<bool, Error> {
    let value = nested(alloc, "x", place, size)?;
    let copy = value.clone(alloc)?;
    let is_same = copy == value;
    let deeper = around(alloc, copy, place.neighbours(size.0), size.1)?;
    let other = nested(alloc, "y", place, size)?;
    Ok(is_same && deeper != value && other != value)
}

#[test]
fn deep_values(rt: HostRuntime) {
    for place in &PLACES {
        for size in &SIZES {
            let is_so = is_told_apart(rt.alloc(), *place, *size);
            expect_ok(&rt, is_so, (*place, *size));
        }
    }
}

static LARGE_SIZES: [Size; 2] = [(100_000, false), (20_000, true)];

/// Returns `true` if a clone is equal.
fn equals_its_clone(alloc: Global, place: Place, size: Size) -> Result<bool, Error> {
    let value = nested(alloc, "x", place, size)?;
    Ok(value.clone(alloc)? == value)
}

#[test]
fn much_deeper_values(rt: HostRuntime) {
    for place in &PLACES[..4] {
        for size in &LARGE_SIZES {
            let is_so = equals_its_clone(rt.alloc(), *place, *size);
            expect_ok(&rt, is_so, (*place, *size));
        }
    }
}
