//! Payloads of numbers, their order and their arithmetic.

use super::{Decimal64, Decimal128, Number};
use crate::error::Error;
use crate::reading::tests::{are_alike, expect_ok};
use crate::short_number::{ShortNumber, short_cmp, short_equal};
use std::cmp::Ordering;

const PRICE: Number = Number::Decimal64(Decimal64 {
    scale: 2,
    value: 1234,
});

const SMALL: Number = Number::Decimal64(Decimal64 {
    scale: 255,
    value: -5,
});

const LEAST: Number = Number::Decimal128(Decimal128 {
    scale: 0,
    value: i128::MIN,
});

/// Payloads, and the number or the error of each.
static PAYLOADS: [(&[u8], Result<Number, Error>); 32] = rows! {
    b"\0", Ok(Number::UInt64(0));
    b"\x40\x9c", Ok(Number::Int64(-100));
    b"\x40\xff\x9c", Ok(Number::Int64(-100));
    b"\x40\xff\xff\xff\x9c", Ok(Number::Int64(-100));
    b"\x40\xff\xff\xff\xff\xff\xff\xff\x9c", Ok(Number::Int64(-100));
    b"\x40\x80\0\0\0\0\0\0\0", Ok(Number::Int64(i64::MIN));
    b"\x40\x05", Ok(Number::Int64(5));
    b"\x40\0\0", Ok(Number::UInt64(0));
    b"\x50\xff", Ok(Number::UInt64(255));
    b"\x50\xff\0", Ok(Number::UInt64(65280));
    b"\x50\0\0\0\x05", Ok(Number::UInt64(5));
    b"\x50\xff\xff\xff\xff\xff\xff\xff\xff", Ok(Number::UInt64(u64::MAX));
    b"\x50\0", Ok(Number::UInt64(0));
    b"\x70\0\0\0\0\0\0\x04\xd2\x02", Ok(PRICE);
    b"\x70\xff\xff\xff\xff\xff\xff\xff\xfb\xff", Ok(SMALL);
    b"\x70\x80\0\0\0\0\0\0\0\0\0\0\0\0\0\0\0\0", Ok(LEAST);
    b"\x70\0\0\0\0\0\0\0\0\x02", Ok(Number::ZERO);
    b"", Err(Error::InvalidJsonb);
    b"\0\0", Err(Error::InvalidJsonb);
    b"\x40", Err(Error::InvalidJsonb);
    b"\x40\0\0\0", Err(Error::InvalidJsonb);
    b"\x50\0\0\0\0\0", Err(Error::InvalidJsonb);
    b"\x50\0\0\0\0\0\0\0\0\0", Err(Error::InvalidJsonb);
    b"\x70\0\0\0\0\0\0\0\0", Err(Error::InvalidJsonb);
    b"\x70\0\0\0\0\0\0\0\0\0\0", Err(Error::InvalidJsonb);
    b"\x70\0\0\0\0\0\0\0\0\0\0\0\0\0\0\0\0\0\0\0\0\0\0\0\0\0\0\0\0\0\0\0\0", Err(Error::InvalidJsonb);
    b"\x80\0", Err(Error::InvalidJsonb);
    b"\x10", Err(Error::UnsupportedNumber);
    b"\x20\0\0\0\0", Err(Error::UnsupportedNumber);
    b"\x30\0", Err(Error::UnsupportedNumber);
    b"\x60\x3f\xf8\0\0\0\0\0\0", Err(Error::UnsupportedNumber);
    b"\x70\0\0\0\0\0\0\0\0\0\0\0\0\0\0\0\0\0\0\0\0\0\0\0\0\0\0\0\0\0\0\0\0\0", Err(Error::UnsupportedNumber);
};

#[test]
fn reads_payloads_and_refuses_others(rt: HostRuntime) {
    for (payload, wanted) in &PAYLOADS {
        let found = Number::from_payload(payload);
        expect_ok(&rt, are_alike(rt.alloc(), found, *wanted), *payload);
    }
}

#[test]
fn short_numbers_of_other_scales_differ(rt: HostRuntime) {
    let hundredths = Number::Decimal64(Decimal64 {
        scale: 2,
        value: 16,
    });
    assert!(rt; short_cmp(ShortNumber::Decimal(15, 1), &hundredths) == Ordering::Greater);
    assert!(rt; !short_equal(ShortNumber::Decimal(15, 1), ShortNumber::Decimal(15, 2)));
    assert!(rt; matches!(ShortNumber::Decimal(0, 2).to_number(), Number::UInt64(0)));
}
