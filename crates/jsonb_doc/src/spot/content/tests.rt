//! The types of roots, the children of each type, and arrays of spots.

use crate::array_builder::ArrayBuilder;
use crate::error::Error;
use crate::reading::tests::{DATE, FRED, MIXED, expect, expect_ok};
use crate::spot::{Spot, StoredValue, element_spots, root_spot, spot_value, value_spots};
use crate::spot_iter::SpotIter;
use std::alloc::Global;

/// Documents, and the type of the root of each; of a string its bytes.
static TYPES: [(&[u8], &str, &[u8]); 8] = rows! {
    b"\x20\0\0\0\0\0\0\0", "null", b"";
    b"\x20\0\0\0\x30\0\0\0", "false", b"";
    b"\x20\0\0\0\x40\0\0\0", "true", b"";
    b"\x20\0\0\0\x20\0\0\x02\x50\x01", "number", b"";
    b"\x20\0\0\0\x10\0\0\x02\xc3\xa9", "string", b"\xc3\xa9";
    DATE, "extension value", b"";
    MIXED, "array", b"";
    FRED, "object", b"";
};

fn type_of(value: StoredValue<'_>) -> (&str, &[u8]) {
    match value {
        StoredValue::Null => ("null", b""),
        StoredValue::Boolean(false) => ("false", b""),
        StoredValue::Boolean(true) => ("true", b""),
        StoredValue::Number(_) => ("number", b""),
        StoredValue::String(bytes) => ("string", bytes),
        StoredValue::Extension => ("extension value", b""),
        StoredValue::Array => ("array", b""),
        StoredValue::Object => ("object", b""),
    }
}

/// Returns `true` if the root of a document has this type and this content.
fn has_type(document: &[u8], name: &str, content: &[u8]) -> Result<bool, Error> {
    let (found, bytes) = type_of(spot_value(document, root_spot(document)?)?);
    Ok(found == name && bytes == content)
}

#[test]
fn tells_types(rt: HostRuntime) {
    for (document, name, content) in &TYPES {
        expect_ok(&rt, has_type(document, name, content), *name);
    }
}

#[test]
fn a_string_is_not_validated(rt: HostRuntime) {
    let is_so = has_type(b"\x20\0\0\0\x10\0\0\x01\xc3", "string", b"\xc3");
    expect_ok(&rt, is_so, "a byte of no string");
}

/// Documents, and how many elements and how many values each has, if it is an array or an object.
static CHILDREN: [(&[u8], Option<usize>, Option<usize>); 3] = rows! {
    MIXED, Some(3), None;
    FRED, None, Some(2);
    DATE, None, None;
};

fn counted(spots: Option<SpotIter<'_>>) -> Option<usize> {
    Some(spots?.len())
}

/// Returns how many elements and how many values the root of a document has.
fn children_of(document: &[u8]) -> Result<(Option<usize>, Option<usize>), Error> {
    let root = root_spot(document)?;
    let elements = counted(element_spots(document, root)?);
    Ok((elements, counted(value_spots(document, root)?)))
}

#[test]
fn opens_containers_by_type(rt: HostRuntime) {
    for (document, elements, values) in &CHILDREN {
        let is_so = children_of(document) == Ok((*elements, *values));
        expect(&rt, is_so, *document);
    }
}

/// Arrays: empty, of scalars and an object, and of a number that is not in its shortest form.
static ARRAYS: [&[u8]; 3] = [b"\x80\0\0\0", MIXED, b"\x80\0\0\x01\x20\0\0\x03\x50\0\x05"];

/// Appends the spots of an array's elements.
fn push_elements(builder: &mut ArrayBuilder, array: &[u8]) -> Result<(), Error> {
    let Some(elements) = element_spots(array, root_spot(array)?)? else {
        return Ok(());
    };
    for element in elements {
        builder.push_spot(array, element?)?;
    }
    Ok(())
}

/// Returns `true` if an array equals that of the spots of its elements.
fn is_copied(alloc: Global, array: &[u8]) -> Result<bool, Error> {
    let mut builder = ArrayBuilder::new(alloc);
    push_elements(&mut builder, array)?;
    Ok(builder.build()?.as_slice() == array)
}

#[test]
fn copies_elements_as_they_are_stored(rt: HostRuntime) {
    for array in &ARRAYS {
        expect_ok(&rt, is_copied(rt.alloc(), array), *array);
    }
}

/// `[]` as an element whose header is not a container's.
const NO_CONTAINER: &[u8] = b"\x80\0\0\x01\x50\0\0\x04\x20\0\0\0";

/// Returns the first element of an array, or its root if it has none.
fn first_element(array: &[u8]) -> Result<Spot, Error> {
    let root = root_spot(array)?;
    match element_spots(array, root)? {
        Some(mut elements) => elements.next().unwrap_or(Ok(root)),
        None => Ok(root),
    }
}

#[test]
fn refuses_what_is_no_container(rt: HostRuntime) -> Result<(), Error> {
    let element = first_element(NO_CONTAINER)?;
    assert!(rt; spot_value(NO_CONTAINER, element).err() == Some(Error::InvalidJsonb));
    assert!(rt; element_spots(NO_CONTAINER, element).err() == Some(Error::InvalidJsonb));
    assert!(rt; value_spots(NO_CONTAINER, element).err() == Some(Error::InvalidJsonb));
    Ok(())
}
