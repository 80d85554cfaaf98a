//! An invoice: amounts read item by item, added exactly, and a document built of them.

use jsonb::{Error, Item, Number, ObjectBuilder, OwnedJsonb, RawJsonb, elements};
use std::alloc::Global;

/// Returns the sum of an array of integers.
///
/// Fails with `InvalidJsonType` if the root is not an array or an element is not a number, and with `Arithmetic` if
/// the sum has no result.
pub fn total(amounts: &RawJsonb<'_>) -> Result<Number, Error> {
    let Some(items) = elements(amounts.as_bytes())? else {
        return Err(Error::InvalidJsonType);
    };
    let mut sum = Number::UInt64(0);
    for item in items {
        let Item::Number(amount) = item? else {
            return Err(Error::InvalidJsonType);
        };
        sum = sum.add(amount)?;
    }
    Ok(sum)
}

/// Returns the object of the amounts and their sum.
pub fn invoice(alloc: Global, amounts: &RawJsonb<'_>) -> Result<OwnedJsonb, Error> {
    let mut builder = ObjectBuilder::new(alloc);
    builder.push_document("amounts", amounts.as_bytes())?;
    builder.push_item("total", &Item::Number(total(amounts)?))?;
    Ok(OwnedJsonb::new(builder.build()?))
}

#[cfg(test)]
mod tests {
    use super::*;
    use crate::documents::{AMOUNTS, INVOICE, OLD_TAGS, expect};

    #[test]
    fn amounts_and_their_sum(rt: HostRuntime) -> Result<(), Error> {
        let made = invoice(rt.alloc(), &RawJsonb::new(AMOUNTS))?;
        expect(&rt, made.as_raw().as_bytes(), INVOICE);
        let texts = RawJsonb::new(OLD_TAGS);
        expect(&rt, total(&texts), Err(Error::InvalidJsonType));
        Ok(())
    }
}
