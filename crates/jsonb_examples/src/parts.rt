//! Documents in parts: items and spots that are read, containers that are built, numbers that are calculated.

use jsonb::{
    ArrayBuilder, Error, Item, Number, ObjectBuilder, Value, check, check_depth, child_spots,
    depth, elements, encode_item, field_spot, pairs, root_item, root_spot, spot_document, to_value,
    values,
};
use std::alloc::Global;

/// Returns what a log says about bytes from outside.
pub fn report(bytes: &[u8]) -> &'static str {
    match check(bytes) {
        Ok(()) => "a document",
        Err(Error::UnsupportedNumber) => "a document with a float",
        Err(_) => "damaged",
    }
}

/// Returns `true` if no child of the root has children.
pub fn is_flat(document: &[u8]) -> Result<bool, Error> {
    Ok(depth(document)? <= 1)
}

/// Returns the value of untrusted bytes. Fails with `TooDeep` if an item is deeper than the limit.
pub fn decoded(alloc: Global, bytes: &[u8], limit: usize) -> Result<Value<'_>, Error> {
    check_depth(bytes, limit)?;
    let root = root_item(bytes)?;
    to_value(alloc, &root)
}

/// Returns a copy of the value of a key, or of the default if there is no such key.
pub fn member_or<'a>(
    alloc: Global,
    object: &Value<'a>,
    key: &str,
    default: &Value<'a>,
) -> Result<Value<'a>, Error> {
    if let Value::Object(members) = object {
        if let Some(found) = members.get(key) {
            return found.clone(alloc);
        }
    }
    default.clone(alloc)
}

/// Returns the values of an object as documents.
pub fn value_documents(alloc: Global, object: &[u8]) -> Result<Vec<Vec<u8>>, Error> {
    let mut documents = Vec::new(alloc);
    let Some(items) = values(object)? else {
        return Err(Error::InvalidObject);
    };
    for item in items {
        documents.push(encode_item(alloc, &item?)?)?;
    }
    Ok(documents)
}

/// Returns the value of a key as a document, or `None` if there is no such key.
pub fn field(alloc: Global, document: &[u8], key: &str) -> Result<Option<Vec<u8>>, Error> {
    let root = root_spot(document)?;
    match field_spot(document, root, key)? {
        Some(value) => Ok(Some(spot_document(alloc, document, value)?)),
        None => Ok(None),
    }
}

/// Returns the number of elements or members of the root, or `None` if it is a scalar.
pub fn child_count(document: &[u8]) -> Result<Option<usize>, Error> {
    if let Some(items) = elements(document)? {
        return Ok(Some(items.len()));
    }
    if let Some(members) = pairs(document)? {
        return Ok(Some(members.len()));
    }
    Ok(None)
}

/// Returns the elements of a list from a position on, as a new array.
pub fn page(alloc: Global, list: &[u8], first: usize) -> Result<Vec<u8>, Error> {
    let root = root_spot(list)?;
    let Some(children) = child_spots(list, root)? else {
        return Err(Error::InvalidJsonType);
    };
    let mut page = ArrayBuilder::new(alloc);
    if let Some(rest) = children.behind(first) {
        for child in rest {
            page.push_spot(list, child?)?;
        }
    }
    page.build()
}

/// Returns the scalars among the children of the root as a new array, or `None` if all children are scalars.
pub fn scalars(alloc: Global, document: &[u8]) -> Result<Option<Vec<u8>>, Error> {
    let root = root_spot(document)?;
    let Some(children) = child_spots(document, root)? else {
        return Err(Error::InvalidJsonType);
    };
    let mut scalars = ArrayBuilder::new(alloc);
    for child in children {
        let child = child?;
        if !child.is_container() {
            scalars.push_spot(document, child)?;
        }
    }
    if scalars.len() == children.len() {
        return Ok(None);
    }
    Ok(Some(scalars.build()?))
}

/// Returns the array of these documents and their number.
pub fn counted(alloc: Global, documents: &[&[u8]]) -> Result<Vec<u8>, Error> {
    let mut builder = ArrayBuilder::new(alloc);
    for document in documents {
        builder.push_document(document)?;
    }
    let count = Number::UInt64(builder.len() as u64);
    builder.push_item(&Item::Number(count))?;
    builder.build()
}

/// Returns the settings, with the default of each that is missing.
///
/// Fails with `TooLarge` if there are more than the limit.
pub fn with_defaults(
    alloc: Global,
    settings: &[u8],
    defaults: &[u8],
    limit: usize,
) -> Result<Vec<u8>, Error> {
    let mut builder = ObjectBuilder::new(alloc);
    push_missing(&mut builder, settings)?;
    push_missing(&mut builder, defaults)?;
    if builder.len() > limit {
        return Err(Error::TooLarge);
    }
    builder.build()
}

/// Adds the members of an object whose keys the builder lacks.
fn push_missing(builder: &mut ObjectBuilder, object: &[u8]) -> Result<(), Error> {
    let Some(members) = pairs(object)? else {
        return Err(Error::InvalidObject);
    };
    for member in members {
        let (key, value) = member?;
        if !builder.contains_key(key) {
            builder.push_item(key, &value)?;
        }
    }
    Ok(())
}

/// Returns what remains of a balance after `count` payments of this amount.
pub fn remaining(balance: Number, amount: Number, count: Number) -> Result<Number, Error> {
    let paid = amount.mul(count)?;
    balance.sub(paid)
}

/// Returns the number of full boxes of this size, and the number of remaining items.
pub fn packed(items: Number, size: Number) -> Result<(Number, Number), Error> {
    let left = items.rem(size)?;
    let boxes = items.sub(left)?.div(size)?;
    Ok((boxes, left))
}

#[cfg(test)]
mod tests {
    use super::*;
    use crate::documents::{
        AMOUNTS, ANN, CONFIGURATION, EMPTY_ARRAY, FRED, INVOICE, LATER_AMOUNTS, NAME_ANN,
        ONLY_PORT_80, SERVER, SERVER_WITH_PORT_80, SEVENTY, SIXTY_TWO, THIRTY, TOTAL_ALONE,
        TWO_COUNTED, expect,
    };
    use jsonb::{ArithmeticFault, Decimal64};

    #[test]
    fn bytes_are_checked(rt: HostRuntime) -> Result<(), Error> {
        let alloc = rt.alloc();
        let fraction = b"\x20\0\0\0\x20\0\0\x09\x60\x3f\xf8\0\0\0\0\0\0".as_slice();
        expect(&rt, report(ANN), "a document");
        expect(&rt, report(fraction), "a document with a float");
        expect(&rt, report(b"\x80\0\0"), "damaged");
        assert!(rt; is_flat(ANN)?);
        assert!(rt; !is_flat(CONFIGURATION)?);
        assert!(rt; decoded(alloc, FRED, 3).is_ok());
        expect(&rt, decoded(alloc, FRED, 2).err(), Some(Error::TooDeep));
        Ok(())
    }

    #[test]
    fn values_are_copied(rt: HostRuntime) -> Result<(), Error> {
        let alloc = rt.alloc();
        let ann = decoded(alloc, ANN, 1)?;
        let age = member_or(alloc, &ann, "age", &Value::Null)?;
        assert!(rt; age == Value::Number(Number::UInt64(62)));
        let shoe = member_or(alloc, &ann, "shoe", &Value::Null)?;
        assert!(rt; shoe == Value::Null);
        Ok(())
    }

    #[test]
    fn values_are_documents(rt: HostRuntime) -> Result<(), Error> {
        let found = value_documents(rt.alloc(), ANN)?;
        assert_eq!(rt; found.len(), 2);
        expect(&rt, found[0].as_slice(), SIXTY_TWO);
        expect(&rt, found[1].as_slice(), NAME_ANN);
        Ok(())
    }

    #[test]
    fn children_are_found(rt: HostRuntime) -> Result<(), Error> {
        let alloc = rt.alloc();
        let amounts = field(alloc, INVOICE, "amounts")?;
        expect(&rt, amounts.as_deref(), Some(AMOUNTS));
        assert!(rt; field(alloc, INVOICE, "tax")?.is_none());
        expect(&rt, child_count(AMOUNTS)?, Some(3));
        expect(&rt, child_count(ANN)?, Some(2));
        expect(&rt, child_count(THIRTY)?, None);
        Ok(())
    }

    #[test]
    fn children_are_copied(rt: HostRuntime) -> Result<(), Error> {
        let alloc = rt.alloc();
        expect(&rt, page(alloc, AMOUNTS, 1)?.as_slice(), LATER_AMOUNTS);
        expect(&rt, page(alloc, AMOUNTS, 3)?.as_slice(), EMPTY_ARRAY);
        expect(&rt, page(alloc, AMOUNTS, 4)?.as_slice(), EMPTY_ARRAY);
        expect(&rt, scalars(alloc, INVOICE)?.as_deref(), Some(TOTAL_ALONE));
        assert!(rt; scalars(alloc, AMOUNTS)?.is_none());
        Ok(())
    }

    #[test]
    fn containers_are_built(rt: HostRuntime) -> Result<(), Error> {
        let alloc = rt.alloc();
        let array = counted(alloc, &[THIRTY, SEVENTY])?;
        expect(&rt, array.as_slice(), TWO_COUNTED);
        let server = with_defaults(alloc, ONLY_PORT_80, SERVER, 2)?;
        expect(&rt, server.as_slice(), SERVER_WITH_PORT_80);
        let refused = with_defaults(alloc, ONLY_PORT_80, SERVER, 1);
        expect(&rt, refused.err(), Some(Error::TooLarge));
        Ok(())
    }

    const OVERFLOW: Error = Error::Arithmetic(ArithmeticFault::Overflow);

    const ZERO_DIVISOR: Error = Error::Arithmetic(ArithmeticFault::ZeroDivisor);

    #[test]
    fn numbers_are_calculated(rt: HostRuntime) {
        let [two, five, thirty] = [2, 5, 30].map(Number::UInt64);
        expect(&rt, remaining(thirty, five, two), Ok(Number::UInt64(20)));
        expect(&rt, remaining(two, five, five), Ok(Number::Int64(-23)));
        expect(
            &rt,
            remaining(two, five, Number::UInt64(u64::MAX)),
            Err(OVERFLOW),
        );
        expect(
            &rt,
            packed(Number::UInt64(17), five),
            Ok((Number::UInt64(3), two)),
        );
        expect(&rt, packed(five, Number::ZERO), Err(ZERO_DIVISOR));
    }

    #[test]
    fn numbers_are_negated_and_rounded(rt: HostRuntime) {
        let five = Number::UInt64(5);
        assert_eq!(rt; five.neg(), Ok(Number::Int64(-5)));
        assert_eq!(rt; Number::UInt64(u64::MAX).neg(), Err(OVERFLOW));
        let half = Number::Decimal64(Decimal64 { scale: 1, value: 5 });
        assert_eq!(rt; half.as_u64(), None);
        assert_eq!(rt; half.to_u64(), Some(1));
    }
}
