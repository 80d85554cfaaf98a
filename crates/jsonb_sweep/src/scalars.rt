//! The tests and the casts of scalars.

use crate::documents::*;
use jsonb::{
    Date, Decimal64, Error, ExtensionValue, Interval, Number, RawJsonb, Timestamp, TimestampTz,
};

/// null
const NULL: &[u8] = b" \x00\x00\x00\x00\x00\x00\x00";

/// The date 1.
const DATE: &[u8] = b" \x00\x00\x00\x60\x00\x00\x05\x10\x00\x00\x00\x01";

/// The timestamp 1.
const TIMESTAMP: &[u8] = b" \x00\x00\x00\x60\x00\x00\x09 \x00\x00\x00\x00\x00\x00\x00\x01";

/// The timestamp 2 with the offset 1.
const TIMESTAMP_TZ: &[u8] =
    b" \x00\x00\x00\x60\x00\x00\x0d0\x00\x00\x00\x01\x00\x00\x00\x00\x00\x00\x00\x02";

/// The interval of 1 month, 2 days and 3 microseconds.
const INTERVAL: &[u8] =
    b" \x00\x00\x00\x60\x00\x00\x11\x40\x00\x00\x00\x01\x00\x00\x00\x02\x00\x00\x00\x00\x00\x00\x00\x03";

/// Makes the tests and the casts of each scalar, and reports their results.
pub fn cases(rt: &HostRuntime) {
    tell_free! { rt;
        "tests and casts of null": of_null(RawJsonb::new(NULL));
        "tests and casts of a truth value": of_truth(RawJsonb::new(TRUE));
        "tests and casts of a number": of_number(RawJsonb::new(TEN));
        "tests and casts of a decimal": of_decimal(RawJsonb::new(PRICE));
        "tests and casts of a text": of_text(RawJsonb::new(V));
        "tests and casts of bytes": of_binary(RawJsonb::new(BYTES));
        "tests and casts of a date": of_date(RawJsonb::new(DATE));
        "tests and casts of a timestamp": of_timestamp(RawJsonb::new(TIMESTAMP));
        "tests and casts of a timestamp with a zone": of_timestamp_tz(RawJsonb::new(TIMESTAMP_TZ));
        "tests and casts of an interval": of_interval(RawJsonb::new(INTERVAL));
    }
}

/// The results of the tests of a scalar, by the names of the calls after `is_`: null, boolean, number, string, array,
/// object, extension_value, binary, date, timestamp, timestamp_tz, interval, i64, u64.
fn tests(scalar: RawJsonb<'_>) -> [Result<bool, Error>; 14] {
    [
        scalar.is_null(),
        scalar.is_boolean(),
        scalar.is_number(),
        scalar.is_string(),
        scalar.is_array(),
        scalar.is_object(),
        scalar.is_extension_value(),
        scalar.is_binary(),
        scalar.is_date(),
        scalar.is_timestamp(),
        scalar.is_timestamp_tz(),
        scalar.is_interval(),
        scalar.is_i64(),
        scalar.is_u64(),
    ]
}

/// Returns `true` if the tests at these positions, and no others, return `true`.
fn only(scalar: RawJsonb<'_>, positions: &[usize]) -> bool {
    tests(scalar).iter().enumerate().all(|(position, answer)| *answer
        == Ok(positions.contains(&position)))
}

fn of_null(null: RawJsonb<'_>) -> bool {
    only(null, &[0]) && [null.as_null() == Ok(Some(())), null.as_bool() == Ok(None)] == [true; 2]
}

fn of_truth(truth: RawJsonb<'_>) -> bool {
    only(truth, &[1])
        && [
            truth.as_bool() == Ok(Some(true)),
            truth.to_bool() == Ok(true),
            truth.to_i64() == Ok(1),
            truth.to_u64() == Ok(1),
            truth.as_null() == Ok(None),
        ] == [true; 5]
}

fn of_number(number: RawJsonb<'_>) -> bool {
    only(number, &[2, 12, 13])
        && [
            number.as_number() == Ok(Some(Number::UInt64(10))),
            number.as_i64() == Ok(Some(10)),
            number.as_u64() == Ok(Some(10)),
            number.to_i64() == Ok(10),
            number.to_u64() == Ok(10),
            number.to_bool() == Err(Error::InvalidCast),
        ] == [true; 6]
}

fn of_decimal(decimal: RawJsonb<'_>) -> bool {
    let price = Number::Decimal64(Decimal64 {
        scale: 2,
        value: 1234,
    });
    only(decimal, &[2])
        && [
            decimal.as_number() == Ok(Some(price)),
            decimal.as_i64() == Ok(None),
            decimal.as_u64() == Ok(None),
            decimal.to_i64() == Ok(12),
            decimal.to_u64() == Ok(12),
        ] == [true; 5]
}

fn of_text(text: RawJsonb<'_>) -> bool {
    let is_v = match text.as_str() {
        Ok(Some(found)) => found.as_str() == "v",
        _ => false,
    };
    only(text, &[3]) && is_v && text.to_i64() == Err(Error::InvalidCast)
}

fn of_binary(binary: RawJsonb<'_>) -> bool {
    only(binary, &[6, 7]) && binary.as_extension_value() == Ok(Some(ExtensionValue::Binary(b"abc")))
}

fn of_date(date: RawJsonb<'_>) -> bool {
    let wanted = Date { value: 1 };
    only(date, &[6, 8])
        && date.as_extension_value() == Ok(Some(ExtensionValue::Date(wanted)))
        && date.as_date() == Ok(Some(wanted))
}

fn of_timestamp(timestamp: RawJsonb<'_>) -> bool {
    only(timestamp, &[6, 9])
        && timestamp.as_timestamp() == Ok(Some(Timestamp { value: 1 }))
        && timestamp.as_date() == Ok(None)
}

fn of_timestamp_tz(timestamp: RawJsonb<'_>) -> bool {
    let wanted = TimestampTz {
        offset: 1,
        value: 2,
    };
    only(timestamp, &[6, 10]) && timestamp.as_timestamp_tz() == Ok(Some(wanted))
}

fn of_interval(interval: RawJsonb<'_>) -> bool {
    let wanted = Interval {
        months: 1,
        days: 2,
        micros: 3,
    };
    only(interval, &[6, 11]) && interval.as_interval() == Ok(Some(wanted))
}
