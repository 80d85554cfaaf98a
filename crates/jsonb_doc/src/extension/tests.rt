//! Payloads of extension values.

use super::{Date, ExtensionValue, Interval, Timestamp, TimestampTz};
use crate::error::Error;
use crate::reading::tests::expect;

/// Payloads, and the value or the error of each.
static PAYLOADS: [(&[u8], Result<ExtensionValue<'static>, Error>); 13] = rows! {
    b"\0", Ok(ExtensionValue::Binary(b""));
    b"\0\xff\x7f", Ok(ExtensionValue::Binary(b"\xff\x7f"));
    b"\x10\0\0\0\x01", Ok(ExtensionValue::Date(Date { value: 1 }));
    b"\x10\xff\xff\xff\xff", Ok(ExtensionValue::Date(Date { value: -1 }));
    b"\x20\0\0\0\0\0\0\0\x0a", Ok(ExtensionValue::Timestamp(Timestamp { value: 10 }));
    b"\x30\xff\xff\xff\xfe\0\0\0\0\0\0\0\x0a", Ok(ExtensionValue::TimestampTz(TimestampTz { offset: -2, value: 10 }));
    b"\x40\0\0\0\x01\0\0\0\x02\0\0\0\0\0\0\0\x03",
        Ok(ExtensionValue::Interval(Interval { months: 1, days: 2, micros: 3 }));
    b"", Err(Error::InvalidJsonb);
    b"\x10\0\0\x01", Err(Error::InvalidJsonb);
    b"\x20\0\0\0\x01", Err(Error::InvalidJsonb);
    b"\x30\xff\xff\xff\xfe\0\0\0\0\0\0\0\x0a\0", Err(Error::InvalidJsonb);
    b"\x40\0\0\0\x01\0\0\0\x02\0\0\0\x03", Err(Error::InvalidJsonb);
    b"\x50", Err(Error::InvalidJsonb);
};

#[test]
fn reads_payloads_and_refuses_others(rt: HostRuntime) {
    for (payload, wanted) in &PAYLOADS {
        expect(
            &rt,
            ExtensionValue::from_payload(payload) == *wanted,
            *payload,
        );
    }
}
