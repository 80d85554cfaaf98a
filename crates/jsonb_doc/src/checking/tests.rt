//! Bytes that do not decode, and their errors.

use super::check;
use crate::error::Error;

const DOCUMENTS: [&[u8]; 10] = [
    // [false, 10, {"k":"v"}]
    b"\x80\0\0\x03\x30\0\0\0\x20\0\0\x02\x50\0\0\x0e\x50\x0a\x40\0\0\x01\x10\0\0\x01\x10\0\0\x01kv",
    // {"asd":"adf"}
    b"\x40\0\0\x01\x10\0\0\x03\x10\0\0\x03asdadf",
    // []
    b"\x80\0\0\0",
    // {}
    b"\x40\0\0\0",
    // {"":null}
    b"\x40\0\0\x01\x10\0\0\0\0\0\0\0",
    // null
    b"\x20\0\0\0\0\0\0\0",
    // the empty text
    b"\x20\0\0\0\x10\0\0\0",
    // 5 in eight bytes
    b"\x20\0\0\0\x20\0\0\x09\x50\0\0\0\0\0\0\0\x05",
    // 0 as a decimal of 128 bits
    b"\x20\0\0\0\x20\0\0\x12\x70\0\0\0\0\0\0\0\0\0\0\0\0\0\0\0\0\xff",
    // the date 1
    b"\x20\0\0\0\x60\0\0\x05\x10\0\0\0\x01",
];

const INVALID: [&[u8]; 31] = [
    b"",
    b"\x80\0\0",
    // headers of other kinds
    b"\0\0\0\0",
    b"\x60\0\0\0",
    // a scalar header that counts
    b"\x20\0\0\x01\0\0\0\0",
    // a scalar header without an entry
    b"\x20\0\0\0",
    // a container after a scalar header
    b"\x20\0\0\0\x50\0\0\x04\x80\0\0\0",
    // a count without entries
    b"\x80\0\0\x01",
    // more bytes after the document
    b"\x80\0\0\0\0",
    b"\x20\0\0\0\0\0\0\0\0",
    // a content that is cut off
    b"\x80\0\0\x01\x10\0\0\x02a",
    // a nested container, with more bytes after it
    b"\x80\0\0\x01\x50\0\0\x05\x80\0\0\0\0",
    // the top bit is set
    b"\x80\0\0\x01\x80\0\0\0",
    // the kind 7
    b"\x80\0\0\x01\x70\0\0\0",
    // null, false and true with a content
    b"\x80\0\0\x01\0\0\0\x01a",
    b"\x80\0\0\x01\x30\0\0\x01a",
    b"\x80\0\0\x01\x40\0\0\x01a",
    // a string that is not UTF-8
    b"\x80\0\0\x01\x10\0\0\x01\xff",
    // a number without a payload
    b"\x80\0\0\x01\x20\0\0\0",
    // an integer of three bytes
    b"\x80\0\0\x01\x20\0\0\x04\x50\0\0\0",
    // an extension of no kind, and a date of three bytes
    b"\x80\0\0\x01\x60\0\0\x01\x50",
    b"\x80\0\0\x01\x60\0\0\x04\x10\0\0\x01",
    // a scalar document within
    b"\x80\0\0\x01\x50\0\0\x08\x20\0\0\0\0\0\0\0",
    // {"a":null,"a":null}
    b"\x40\0\0\x02\x10\0\0\x01\x10\0\0\x01\0\0\0\0\0\0\0\0aa",
    // {"b":null,"a":null}
    b"\x40\0\0\x02\x10\0\0\x01\x10\0\0\x01\0\0\0\0\0\0\0\0ba",
    // {"ab":null,"a":null}
    b"\x40\0\0\x02\x10\0\0\x02\x10\0\0\x01\0\0\0\0\0\0\0\0aba",
    // a key that is not a string
    b"\x40\0\0\x01\0\0\0\0\0\0\0\0",
    // a key that is not UTF-8
    b"\x40\0\0\x01\x10\0\0\x01\0\0\0\0\xff",
    // [float, a content of the kind 7]
    b"\x80\0\0\x02\x20\0\0\x01\x70\0\0\0\x60",
    // [float] and one more byte
    b"\x80\0\0\x01\x20\0\0\x01\x60\0",
    // {"a":float,"a":float}
    b"\x40\0\0\x02\x10\0\0\x01\x10\0\0\x01\x20\0\0\x01\x20\0\0\x01aa\x60\x60",
];

const UNSUPPORTED: [&[u8]; 5] = [
    // 1.5 as a float
    b"\x20\0\0\0\x20\0\0\x09\x60\x3f\xf8\0\0\0\0\0\0",
    // a payload that begins as another float, whatever follows
    b"\x20\0\0\0\x20\0\0\x01\x10",
    // a decimal of 256 bits
    b"\x20\0\0\0\x20\0\0\x22\x70\0\0\0\0\0\0\0\0\0\0\0\0\0\0\0\0\0\0\0\0\0\0\0\0\0\0\0\0\0\0\0\0\0",
    // [float, 1]
    b"\x80\0\0\x02\x20\0\0\x01\x20\0\0\x02\x20\x50\x01",
    // {"a":[float]}
    b"\x40\0\0\x01\x10\0\0\x01\x50\0\0\x09a\x80\0\0\x01\x20\0\0\x01\x30",
];

/// Bytes, and the result of checking each of them.
static CHECKED: [(&[&[u8]], Result<(), Error>); 3] = [
    (&DOCUMENTS, Ok(())),
    (&INVALID, Err(Error::InvalidJsonb)),
    (&UNSUPPORTED, Err(Error::UnsupportedNumber)),
];

/// Returns the first of the rows with another result.
fn first_other<'a>(rows: &[&'a [u8]], wanted: Result<(), Error>) -> Option<&'a [u8]> {
    for bytes in rows {
        if check(bytes) != wanted {
            return Some(bytes);
        }
    }
    None
}

#[test]
fn accepts_documents_and_refuses_other_bytes(rt: HostRuntime) {
    for (rows, wanted) in &CHECKED {
        assert_eq!(rt; first_other(rows, *wanted), None);
    }
}
