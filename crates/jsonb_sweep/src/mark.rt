//! The marks around a call, and the line that reports its result.
//!
//! What is not written shows in the counts.

use jsonb::Error;
use std::fmt::Display;

/// Marks the beginning of a call: from here on allocations are counted, and fail.
pub fn begin(rt: &HostRuntime) {
    let _ = print!(rt; "[");
}

/// Marks where the call has returned.
pub fn end(rt: &HostRuntime) {
    let _ = print!(rt; "]");
}

/// Reports whether a case was right, or an allocation of its call failed. The case has freed its memory by then.
pub fn tell<N: Display + Drop>(rt: &HostRuntime, name: N, is_right: Result<bool, Error>) {
    let word = match is_right {
        Ok(true) => "right",
        Err(Error::OutOfMemory) => "refused",
        _ => "wrong",
    };
    let _ = println!(rt; " {word} {name}");
}

/// Marks where a call has returned that does not allocate, and reports whether it was right.
pub fn end_free(rt: &HostRuntime, name: &str, is_right: bool) {
    end(rt);
    tell(rt, name, Ok(is_right));
}
