//! The calls on numbers.

use jsonb::{ArithmeticFault, Decimal64, Decimal128, Error, Number};
use std::alloc::AllocError;
use std::cmp::Ordering;

/// Makes the calls, and reports the results of each type.
pub fn cases(rt: &HostRuntime) {
    tell_free! { rt;
        "Number::add, sub, mul, div, rem, neg": arithmetic(Number::UInt64(20), Number::Int64(-5));
        "Number::div, add that are refused": refusals(Number::UInt64(20), Number::UInt64(3));
        "Number::as_i64, as_u64, to_i64, to_u64": rounding(Number::Decimal64(PRICE));
        "Number::eq, cmp, clone": order(Number::UInt64(1), Number::Decimal64(PRICE));
        "Decimal64::cmp, Decimal128::cmp": order_of_decimals(PRICE, WIDE_PRICE);
    }
}

/// `12.34`
const PRICE: Decimal64 = Decimal64 {
    scale: 2,
    value: 1234,
};

/// `12.345`
const WIDE_PRICE: Decimal128 = Decimal128 {
    scale: 3,
    value: 12345,
};

/// On 20 and -5.
fn arithmetic(twenty: Number, minus_five: Number) -> bool {
    [
        twenty.add(minus_five),
        twenty.sub(minus_five),
        twenty.mul(minus_five),
        twenty.div(minus_five),
        twenty.rem(minus_five),
        twenty.neg(),
    ] == [
        Ok(Number::Int64(15)),
        Ok(Number::Int64(25)),
        Ok(Number::Int64(-100)),
        Ok(Number::Int64(-4)),
        Ok(Number::ZERO),
        Ok(Number::Int64(-20)),
    ]
}

/// On 20 and 3.
fn refusals(twenty: Number, three: Number) -> bool {
    [
        twenty.div(three),
        twenty.div(Number::ZERO),
        Number::UInt64(u64::MAX).add(three),
    ] == [
        Err(Error::Arithmetic(ArithmeticFault::Inexact)),
        Err(Error::Arithmetic(ArithmeticFault::ZeroDivisor)),
        Err(Error::Arithmetic(ArithmeticFault::Overflow)),
    ]
}

/// On 12.34.
fn rounding(price: Number) -> bool {
    [price.as_i64(), price.to_i64()] == [None, Some(12)]
        && [price.as_u64(), price.to_u64()] == [None, Some(12)]
}

/// On 1 and 12.34.
fn order(one: Number, price: Number) -> bool {
    let copy: Result<Number, AllocError> = one.clone();
    copy == Ok(one) && one.cmp(&price) == Ordering::Less
}

/// On 12.34 and 12.345.
fn order_of_decimals(price: Decimal64, wide: Decimal128) -> bool {
    price.cmp(&price) == Ordering::Equal && wide.cmp(&wide) == Ordering::Equal
}
