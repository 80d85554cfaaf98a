//! Items as documents, and documents as values.

use crate::answer::{both, is_bytes, is_same};
use crate::documents::*;
use crate::mark::tell;
use jsonb::{Error, ExtensionValue, Value, encode_item, root_item, to_value};
use jsonb_doc::{push_extension_payload, root_spot, spot_document};
use std::borrow::CowStr;

/// Documents, each with its kind.
static DOCUMENTS: [(&str, &[u8]); 6] = [
    ("a number", TEN),
    ("a decimal", PRICE),
    ("a text", V),
    ("an extension", BYTES),
    ("an array", TENS),
    ("a nested document", NESTED),
];

/// Runs each case, and reports its result.
pub fn cases(rt: &HostRuntime) {
    for (kind, document) in &DOCUMENTS {
        let is_right = encode(rt, document);
        tell(rt, format_args!("encode_item of {kind}"), is_right);
        let is_right = copy(rt, document);
        tell(rt, format_args!("spot_document of {kind}"), is_right);
        let is_right = decode(rt, document);
        tell(rt, format_args!("to_value of {kind}"), is_right);
        let is_right = clone(rt, document);
        tell(rt, format_args!("Value::clone of {kind}"), is_right);
    }
    tell(
        rt,
        "Value::clone of a text of its own",
        clone_own_text(rt, "v"),
    );
    tell(rt, "push_extension_payload", push_payload(rt, b"abc"));
}

/// The root of a document is that document again.
pub fn encode(rt: &HostRuntime, document: &[u8]) -> Result<bool, Error> {
    let item = root_item(document)?;
    is_bytes(marked!(rt, encode_item(rt.alloc(), &item)), document)
}

/// The item at the root's spot is, as a document, that document again.
pub fn copy(rt: &HostRuntime, document: &[u8]) -> Result<bool, Error> {
    let root = root_spot(document)?;
    is_bytes(
        marked!(rt, spot_document(rt.alloc(), document, root)),
        document,
    )
}

pub fn decode(rt: &HostRuntime, document: &[u8]) -> Result<bool, Error> {
    let alloc = rt.alloc();
    let item = root_item(document)?;
    let wanted = to_value(alloc, &item)?;
    is_same(marked!(rt, to_value(alloc, &item)), &wanted)
}

pub fn clone(rt: &HostRuntime, document: &[u8]) -> Result<bool, Error> {
    let item = root_item(document)?;
    let value = to_value(rt.alloc(), &item)?;
    let answer = marked!(rt, value.clone(rt.alloc()));
    let is_right = is_same(answer, &value);
    both(is_right, is_same(to_value(rt.alloc(), &item), &value))
}

pub fn clone_own_text(rt: &HostRuntime, text: &str) -> Result<bool, Error> {
    let text = String::from_str(rt.alloc(), text)?;
    clones!(rt, Value::String(CowStr::Owned(text)))
}

/// The payload of bytes is a byte of 0 and the bytes. After an error the buffer is unchanged.
pub fn push_payload(rt: &HostRuntime, bytes: &[u8]) -> Result<bool, Error> {
    let mut payload = Vec::from_slice(rt.alloc(), b"front")?;
    let binary = ExtensionValue::Binary(bytes);
    let pushed = marked!(rt, push_extension_payload(&mut payload, &binary));
    let is_kept = payload.starts_with(b"front");
    if is_kept {
        pushed?;
    }
    Ok(is_kept && payload.len() == bytes.len() + 6 && payload.ends_with(bytes))
}
