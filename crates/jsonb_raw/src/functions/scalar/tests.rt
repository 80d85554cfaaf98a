//! Extensions are read as what they are.

use crate::raw::RawJsonb;
use crate::tests::documents::DATE;
use crate::tests::expect;
use jsonb_doc::{Date, Error, ExtensionValue, Interval, Timestamp, TimestampTz};
use std::alloc::Global;

const YES: Result<bool, Error> = Ok(true);

const NO: Result<bool, Error> = Ok(false);

/// Documents of one extension, its value, and what `kinds` says of it.
static EXTENSIONS: [(&[u8], ExtensionValue<'static>, [Result<bool, Error>; 6]); 5] = [
    (
        b"\x20\0\0\0\x60\0\0\x03\0\0\xff",
        ExtensionValue::Binary(b"\0\xff"),
        [YES, NO, NO, NO, NO, YES],
    ),
    (
        DATE,
        ExtensionValue::Date(Date { value: 1 }),
        [NO, YES, NO, NO, NO, YES],
    ),
    (
        b"\x20\0\0\0\x60\0\0\x09\x20\xff\xff\xff\xff\xff\xff\xff\xf9",
        ExtensionValue::Timestamp(Timestamp { value: -7 }),
        [NO, NO, YES, NO, NO, YES],
    ),
    (
        b"\x20\0\0\0\x60\0\0\x0d\x30\0\0\0\x08\0\0\0\0\0\0\0\x09",
        ExtensionValue::TimestampTz(TimestampTz {
            offset: 8,
            value: 9,
        }),
        [NO, NO, NO, YES, NO, YES],
    ),
    (
        b"\x20\0\0\0\x60\0\0\x11\x40\0\0\0\x01\0\0\0\x02\0\0\0\0\0\0\0\x03",
        ExtensionValue::Interval(Interval {
            months: 1,
            days: 2,
            micros: 3,
        }),
        [NO, NO, NO, NO, YES, YES],
    ),
];

/// Returns whether a document is binary, a date, a timestamp, one with an offset, an interval, and any of these.
fn kinds(document: &RawJsonb<'_>) -> [Result<bool, Error>; 6] {
    [
        document.is_binary(),
        document.is_date(),
        document.is_timestamp(),
        document.is_timestamp_tz(),
        document.is_interval(),
        document.is_extension_value(),
    ]
}

/// Returns `true` if the function of its type returns this value.
fn is_read(
    alloc: Global,
    document: &RawJsonb<'_>,
    value: ExtensionValue<'_>,
) -> Result<bool, Error> {
    Ok(match value {
        ExtensionValue::Binary(bytes) => match document.as_binary(alloc)? {
            Some(found) => found.as_slice() == bytes,
            None => false,
        },
        ExtensionValue::Date(date) => document.as_date()? == Some(date),
        ExtensionValue::Timestamp(time) => document.as_timestamp()? == Some(time),
        ExtensionValue::TimestampTz(time) => document.as_timestamp_tz()? == Some(time),
        ExtensionValue::Interval(span) => document.as_interval()? == Some(span),
    })
}

#[test]
fn an_extension_is_read_as_what_it_is(rt: HostRuntime) {
    for (bytes, value, wanted) in &EXTENSIONS {
        let document = RawJsonb::new(bytes);
        expect(&rt, Ok(kinds(&document) == *wanted), *bytes);
        let found = document.as_extension_value();
        expect(&rt, Ok(found == Ok(Some(*value))), *bytes);
        expect(&rt, is_read(rt.alloc(), &document, *value), *bytes);
    }
    let date = RawJsonb::new(DATE);
    assert!(rt; date.as_timestamp() == Ok(None));
    assert!(rt; date.as_binary(rt.alloc()) == Ok(None));
}
