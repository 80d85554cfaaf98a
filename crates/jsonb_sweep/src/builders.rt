//! The builders: pushes, after which a builder holds one more or is as before, and `build`.

use crate::answer::{both, is_bytes};
use crate::documents::*;
use crate::mark::tell;
use jsonb::{ArrayBuilder, Error, Item, Number, ObjectBuilder, elements, pairs, root_spot};
use std::alloc::Global;

/// `[10,20]`
const TEN_AND_TWENTY: &[u8] = b"\x80\x00\x00\x02 \x00\x00\x02 \x00\x00\x02P\x0aP\x14";

/// A push of 30 to the builder of an array.
#[derive(Clone, Copy)]
enum Push {
    Item,
    Document,
    Spot,
}

impl Push {
    fn on(self, builder: &mut ArrayBuilder) -> Result<(), Error> {
        match self {
            Push::Item => builder.push_item(&Item::Number(Number::UInt64(30))),
            Push::Document => builder.push_document(THIRTY),
            Push::Spot => builder.push_spot(THIRTY, root_spot(THIRTY)?),
        }
    }
}

static PUSHES: [(&str, Push); 3] = rows! {
    "ArrayBuilder::push_item", Push::Item;
    "ArrayBuilder::push_document", Push::Document;
    "ArrayBuilder::push_spot", Push::Spot;
};

/// Runs each case of an array's builder, and reports its result.
pub fn arrays(rt: &HostRuntime) {
    for (name, push) in &PUSHES {
        tell(rt, *name, array_push(rt, *push));
    }
    tell(rt, "ArrayBuilder::build", array_build(rt));
}

/// A builder of `[10,20]`.
fn ten_and_twenty(alloc: Global) -> Result<ArrayBuilder, Error> {
    let mut builder = ArrayBuilder::new(alloc);
    push_ten_and_twenty(&mut builder)?;
    Ok(builder)
}

fn push_ten_and_twenty(builder: &mut ArrayBuilder) -> Result<(), Error> {
    builder.push_document(TEN)?;
    builder.push_document(TWENTY)
}

/// Whether the builder holds that many elements, and builds this array.
fn holds(builder: &ArrayBuilder, count: usize, array: &[u8]) -> Result<bool, Error> {
    both(is_bytes(builder.build(), array), Ok(builder.len() == count))
}

/// Returns `true` if the push of a second element succeeded, or it failed and the builder holds the first alone.
pub fn has_second(
    builder: &ArrayBuilder,
    pushed: Result<(), Error>,
    first: &[u8],
) -> Result<bool, Error> {
    if pushed.is_err() && holds(builder, 1, first)? {
        pushed?;
    }
    Ok(builder.len() == 2)
}

/// Returns `true` if a push of 30 was right, or failed and left the builder unchanged.
fn has_thirty(builder: &ArrayBuilder, pushed: Result<(), Error>) -> Result<bool, Error> {
    if pushed.is_ok() {
        return holds(builder, 3, TENS);
    }
    if holds(builder, 2, TEN_AND_TWENTY)? {
        pushed?;
    }
    Ok(false)
}

fn array_push(rt: &HostRuntime, push: Push) -> Result<bool, Error> {
    let mut builder = ten_and_twenty(rt.alloc())?;
    let pushed = marked!(rt, push.on(&mut builder));
    has_thirty(&builder, pushed)
}

fn array_build(rt: &HostRuntime) -> Result<bool, Error> {
    let builder = ten_and_twenty(rt.alloc())?;
    let is_right = is_bytes(marked!(rt, builder.build()), TEN_AND_TWENTY);
    both(is_right, holds(&builder, 2, TEN_AND_TWENTY))
}

/// Runs each case of an object's builder, and reports its result.
pub fn objects(rt: &HostRuntime) {
    tell(rt, "ObjectBuilder::push_item", object_push_item(rt));
    tell(rt, "ObjectBuilder::push_document", object_push_document(rt));
    tell(
        rt,
        "ObjectBuilder::push_document of a key that is there",
        object_push_again(rt),
    );
    tell(rt, "ObjectBuilder::build", object_build(rt));
}

/// A builder of `{"a":1,"c":3}`.
fn letters(alloc: Global) -> Result<ObjectBuilder, Error> {
    let mut builder = ObjectBuilder::new(alloc);
    push_letters(&mut builder)?;
    Ok(builder)
}

fn push_letters(builder: &mut ObjectBuilder) -> Result<(), Error> {
    builder.push_document("a", ONE)?;
    builder.push_document("c", THREE)
}

/// Whether the builder holds the pairs of this object, with or without a `b`.
fn holds_letters(builder: &ObjectBuilder, has_b: bool, object: &[u8]) -> Result<bool, Error> {
    let count = if has_b { 3 } else { 2 };
    let has_keys = builder.contains_key("b") == has_b && builder.contains_key("a");
    let is_right = has_keys && builder.len() == count;
    both(is_bytes(builder.build(), object), Ok(is_right))
}

/// Returns `true` if the push of `b` succeeded, or it failed and the builder holds the pair of another key alone.
pub fn has_only_b(
    builder: &ObjectBuilder,
    pushed: Result<(), Error>,
    first: &[u8],
) -> Result<bool, Error> {
    if pushed.is_err() && builder.len() == 1 && is_bytes(builder.build(), first)? {
        pushed?;
    }
    Ok(builder.len() == 2 && builder.contains_key("b"))
}

/// Returns `true` if a push of 9 with the key `b` was right, or failed and left the builder unchanged.
fn has_b(builder: &ObjectBuilder, pushed: Result<(), Error>) -> Result<bool, Error> {
    if pushed.is_ok() {
        return holds_letters(builder, true, MORE_LETTERS);
    }
    if holds_letters(builder, false, LETTERS)? {
        pushed?;
    }
    Ok(false)
}

fn object_push_item(rt: &HostRuntime) -> Result<bool, Error> {
    let mut builder = letters(rt.alloc())?;
    let nine = Item::Number(Number::UInt64(9));
    let pushed = marked!(rt, builder.push_item("b", &nine));
    has_b(&builder, pushed)
}

fn object_push_document(rt: &HostRuntime) -> Result<bool, Error> {
    let mut builder = letters(rt.alloc())?;
    let pushed = marked!(rt, builder.push_document("b", NINE));
    has_b(&builder, pushed)
}

/// The key is found before anything is copied.
fn object_push_again(rt: &HostRuntime) -> Result<bool, Error> {
    let mut builder = letters(rt.alloc())?;
    let pushed = marked!(rt, builder.push_document("a", NINE));
    let is_refused = pushed == Err(Error::ObjectDuplicateKey);
    both(holds_letters(&builder, false, LETTERS), Ok(is_refused))
}

fn object_build(rt: &HostRuntime) -> Result<bool, Error> {
    let builder = letters(rt.alloc())?;
    let is_right = is_bytes(marked!(rt, builder.build()), LETTERS);
    both(is_right, holds_letters(&builder, false, LETTERS))
}

/// Returns `true` if a push succeeded and the builder has what was pushed, or failed and it has not.
fn is_taken(pushed: Result<(), Error>, is_there: bool) -> Result<bool, Error> {
    if is_there {
        return Ok(pushed.is_ok());
    }
    pushed?;
    Ok(false)
}

/// Whether a builder takes an item, and holds it alone.
pub fn array_takes(rt: &HostRuntime, item: &Item<'_>) -> Result<bool, Error> {
    let mut builder = ArrayBuilder::new(rt.alloc());
    let pushed = marked!(rt, builder.push_item(item));
    is_taken(pushed, builder.len() == 1)
}

/// Whether a builder takes a pair, and holds it alone.
pub fn object_takes(rt: &HostRuntime, key: &str, item: &Item<'_>) -> Result<bool, Error> {
    let mut builder = ObjectBuilder::new(rt.alloc());
    let pushed = marked!(rt, builder.push_item(key, item));
    let has_one = builder.len() == 1;
    let is_same = builder.contains_key(key) == has_one;
    both(is_taken(pushed, has_one), Ok(is_same))
}

/// Whether a builder of the array's elements builds the array again.
pub fn array_builds(rt: &HostRuntime, array: &[u8]) -> Result<bool, Error> {
    let mut builder = ArrayBuilder::new(rt.alloc());
    push_elements(&mut builder, array)?;
    is_bytes(marked!(rt, builder.build()), array)
}

fn push_elements(builder: &mut ArrayBuilder, array: &[u8]) -> Result<(), Error> {
    if let Some(items) = elements(array)? {
        for item in items {
            builder.push_item(&item?)?;
        }
    }
    Ok(())
}

/// Whether a builder of the object's pairs builds the object again.
pub fn object_builds(rt: &HostRuntime, object: &[u8]) -> Result<bool, Error> {
    let mut builder = ObjectBuilder::new(rt.alloc());
    push_pairs(&mut builder, object)?;
    is_bytes(marked!(rt, builder.build()), object)
}

fn push_pairs(builder: &mut ObjectBuilder, object: &[u8]) -> Result<(), Error> {
    if let Some(found) = pairs(object)? {
        for pair in found {
            let (key, item) = pair?;
            builder.push_item(key, &item)?;
        }
    }
    Ok(())
}
