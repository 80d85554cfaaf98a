//! The library for C: documents one by one, and in columns.
//!
//! Bytes are passed as a pointer and a length, results are written to the caller's buffers, and each call returns a
//! status, which `bindings/c/jdoc.h` names.
#![tactic(auto)]

/// A table of a test: each row is a line, and a tuple.
#[cfg(test)]
macro_rules! rows {
    ($($($part:expr),+;)+) => { [$(($($part),+)),+] };
}

/// A table of calls: each row is a line, and a tuple that begins with the call's text.
#[cfg(test)]
macro_rules! calls {
    ($($call:expr, $($part:expr),+;)+) => { [$((stringify!($call), $call, $($part),+)),+] };
}

mod build;
mod builder;
mod column;
mod cursor;
mod deliver;
mod document;
mod items;
mod keypath;
mod laws;
mod leaves;
mod limit;
mod path;
mod prepared;
mod read;
mod span;
mod status;
mod status_name;
#[cfg(test)]
mod tests;
mod version;
