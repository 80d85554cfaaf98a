//! Documents and text of any size, built by the builders and by repeating a part.

use jsonb::{ArrayBuilder, Error, Item, Number, ObjectBuilder};
use std::alloc::Global;

/// An array of that many objects of one member, with numbers from 0.
pub fn elements(alloc: Global, count: u64) -> Result<Vec<u8>, Error> {
    let mut array = ArrayBuilder::new(alloc);
    push_elements(alloc, &mut array, count)?;
    array.build()
}

fn push_elements(alloc: Global, array: &mut ArrayBuilder, count: u64) -> Result<(), Error> {
    for number in 0..count {
        array.push_document(&element(alloc, number)?)?;
    }
    Ok(())
}

fn element(alloc: Global, number: u64) -> Result<Vec<u8>, Error> {
    let mut object = ObjectBuilder::new(alloc);
    object.push_item("number", &Item::Number(Number::UInt64(number)))?;
    object.build()
}

/// An object of that many members, with numbers from 0.
pub fn pairs(alloc: Global, count: u64) -> Result<Vec<u8>, Error> {
    let mut object = ObjectBuilder::new(alloc);
    push_pairs(alloc, &mut object, count)?;
    object.build()
}

fn push_pairs(alloc: Global, object: &mut ObjectBuilder, count: u64) -> Result<(), Error> {
    for number in 0..count {
        let key = format!(in alloc; "key {number:06}")?;
        object.push_item(key.as_str(), &Item::Number(Number::UInt64(number)))?;
    }
    Ok(())
}

/// An empty array within that many arrays.
pub fn nested(alloc: Global, depth: u8) -> Result<Vec<u8>, Error> {
    let mut document = ArrayBuilder::new(alloc).build()?;
    for _ in 0..depth {
        document = array_of(alloc, &document)?;
    }
    Ok(document)
}

fn array_of(alloc: Global, document: &[u8]) -> Result<Vec<u8>, Error> {
    let mut array = ArrayBuilder::new(alloc);
    array.push_document(document)?;
    array.build()
}

/// Text of three parts, the middle one that many times.
pub fn repeated(alloc: Global, parts: [&str; 3], count: u64) -> Result<String, Error> {
    let [front, part, end] = parts;
    let mut text = String::from_str(alloc, front)?;
    push_repeated(&mut text, part, count)?;
    text.push_str(end)?;
    Ok(text)
}

fn push_repeated(text: &mut String, part: &str, count: u64) -> Result<(), Error> {
    for _ in 0..count {
        text.push_str(part)?;
    }
    Ok(())
}
