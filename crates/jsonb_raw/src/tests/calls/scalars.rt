//! The rows of calls that look at the root alone.

use crate::RawJsonb;
use jsonb_doc::Error;
use std::alloc::Global;
use std::fmt;

/// Returns `true` if a row states this result.
pub fn says(wanted: &str, is_so: bool) -> bool {
    wanted == if is_so { "true" } else { "false" }
}

/// Returns whether the value prints so, or is missing if `none` is expected.
fn prints<T: fmt::Display + Drop>(
    alloc: Global,
    value: Result<Option<T>, Error>,
    wanted: &str,
) -> Result<bool, Error> {
    match value? {
        Some(value) => Ok(format!(in alloc; "{value}")?.as_str() == wanted),
        None => Ok(wanted == "none"),
    }
}

/// Runs functions that return the value of a root, unchanged or cast.
pub fn scalar_holds(
    alloc: Global,
    call: &str,
    document: &RawJsonb<'_>,
    wanted: &str,
) -> Result<bool, Error> {
    match call {
        "array_length" => prints(alloc, document.array_length(), wanted),
        "type_of" => prints(alloc, document.type_of().map(Some), wanted),
        "to_i64" => prints(alloc, document.to_i64().map(Some), wanted),
        "to_u64" => prints(alloc, document.to_u64().map(Some), wanted),
        "to_str" => prints(alloc, document.to_str(alloc).map(Some), wanted),
        "as_bool" => prints(alloc, document.as_bool(), wanted),
        "as_number" => prints(alloc, document.as_number(), wanted),
        "as_i64" => prints(alloc, document.as_i64(), wanted),
        "as_u64" => prints(alloc, document.as_u64(), wanted),
        "as_str" => prints(alloc, document.as_str(), wanted),
        "as_null" => Ok(
            wanted
                == if document.as_null()?.is_some() {
                    "null"
                } else {
                    "none"
                },
        ),
        _ => kind_holds(call, document, wanted),
    }
}

/// Runs functions that return the type of a root, and its Boolean.
fn kind_holds(call: &str, document: &RawJsonb<'_>, wanted: &str) -> Result<bool, Error> {
    let is_so = match call {
        "to_bool" => document.to_bool(),
        "is_null" => document.is_null(),
        "is_boolean" => document.is_boolean(),
        "is_number" => document.is_number(),
        "is_string" => document.is_string(),
        "is_array" => document.is_array(),
        "is_object" => document.is_object(),
        "is_i64" => document.is_i64(),
        "is_u64" => document.is_u64(),
        _ => return Ok(false),
    };
    Ok(says(wanted, is_so?))
}
