//! What no clause says: rows worked by hand, and that names borrow.

/// A table: each row is a line, and a tuple.
macro_rules! rows {
    ($($($part:expr),+;)+) => { [$(($($part),+)),+] };
}

mod deep;
mod error_position;
mod grammar;
mod natural;
mod path;
mod selector;

use jsonb_doc::Error;
use std::fmt::Debug;
use std::process::Abort;

/// Fails with the row of a table, unless it is as expected.
pub(crate) fn expect<T: Debug + Copy>(rt: &impl Abort, is_so: Result<bool, Error>, row: T) {
    assert!(*rt; matches!(is_so, Ok(true)), "{row:?}: {is_so:?}");
}

/// Returns `true` if two calls returned equal values.
pub(crate) fn are_equal<T: PartialEq + Drop>(
    one: Result<T, Error>,
    other: Result<T, Error>,
) -> Result<bool, Error> {
    Ok(one? == other?)
}

/// Returns `true` if a call returned this value.
pub(crate) fn is_same<T: PartialEq + Drop>(
    found: Result<T, Error>,
    wanted: &T,
) -> Result<bool, Error> {
    Ok(found? == *wanted)
}
