//! Printing into text of fixed size.

use crate::documents::*;
use crate::mark::tell;
use arrayvec::ArrayString;
use jsonb::{
    ArithmeticFault, Decimal64, Error, Number, PathValue, RawJsonb, parse_json_path,
    parse_key_paths,
};
use std::fmt::{Display, Write};

/// Runs each case, and reports its result.
pub fn cases(rt: &HostRuntime) {
    let fault = Error::Arithmetic(ArithmeticFault::ZeroDivisor);
    tell(
        rt,
        "Display of Error",
        Ok(prints(rt, &fault, "Arithmetic(ZeroDivisor)")),
    );
    let price = Number::Decimal64(Decimal64 {
        scale: 2,
        value: 1234,
    });
    tell(rt, "Display of Number", Ok(prints(rt, &price, "12.34")));
    let document = PathValue::Raw(RawJsonb::new(ONE));
    let is_right = prints(rt, &document, "raw(20000000200000025001)");
    tell(rt, "Display of PathValue", Ok(is_right));
    tell(rt, "Display of KeyPaths", key_paths(rt));
    tell(rt, "Display of OwnedKeyPaths", owned_key_paths(rt));
    tell(rt, "Display of JsonPath", json_paths(rt));
}

/// Prints a value between the marks. Returns `true` if that is this text.
fn prints<T: Display>(rt: &HostRuntime, value: &T, text: &str) -> bool {
    let mut printed = ArrayString::<128>::new();
    let written = marked!(rt, write!(printed, "{value}"));
    written.is_ok() && printed.as_str() == text
}

const KEY_PATH: &str = "{1,a,\"b \\\"c\"}";

fn key_paths(rt: &HostRuntime) -> Result<bool, Error> {
    let paths = parse_key_paths(rt.alloc(), KEY_PATH.as_bytes())?;
    Ok(prints(rt, &paths, KEY_PATH))
}

fn owned_key_paths(rt: &HostRuntime) -> Result<bool, Error> {
    let alloc = rt.alloc();
    let paths = parse_key_paths(alloc, KEY_PATH.as_bytes())?.to_owned(alloc)?;
    Ok(prints(rt, &paths, KEY_PATH))
}

const JSON_PATH: &str =
    "$.a.**{1 to last}[0, last-1 to last].*?(@.\"b c\" starts with \"d\" && exists(@.e[*])):f";

fn json_paths(rt: &HostRuntime) -> Result<bool, Error> {
    let path = parse_json_path(rt.alloc(), JSON_PATH.as_bytes())?;
    Ok(prints(rt, &path, JSON_PATH))
}
