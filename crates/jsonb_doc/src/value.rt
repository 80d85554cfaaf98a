//! Decoded values.

use crate::error::Error;
use crate::extension::{Date, Interval, Timestamp, TimestampTz};
use crate::number::Number;
use copy::copy;
use std::alloc::Global;
use std::borrow::CowStr;
use std::collections::BTreeMap;

mod copy;
mod debug;
mod decode;
mod equal;
mod release;
#[cfg(test)]
mod tests;

pub use decode::to_value;

/// A decoded value.
///
/// Two values are equal if they have the same shape, numbers by exact value (`1` equals `1.0`) and extension values
/// by their fields.
///
/// Comparing and dropping values does not allocate; docs/STACK.md gives their use of the stack.
pub enum Value<'a> {
    /// The value null.
    Null,
    /// A Boolean.
    Bool(bool),
    /// A string, borrowed from the document or owned.
    String(CowStr<'a, Global>),
    /// A number.
    Number(Number),
    /// Bytes, a value that JSON itself lacks.
    Binary(&'a [u8]),
    /// A day.
    Date(Date),
    /// A point in time.
    Timestamp(Timestamp),
    /// A point in time with a time zone.
    TimestampTz(TimestampTz),
    /// A length of time.
    Interval(Interval),
    /// The elements.
    Array(Vec<Value<'a>>),
    /// The members, in the byte order of their keys.
    Object(BTreeMap<String, Value<'a>>),
}

impl<'a> Value<'a> {
    ghost use Rattle.std.specs.Prelude.{◌≡◌, IfOk, MatchResult};
    ghost use Rattle.jsonb_doc.specs.Answer.{IsOutOfMemory};
    ghost use Rattle.jsonb_doc.specs.Value.{value_tree, value_parts};

    /// Returns a copy of the value, with copies of the strings, lists and maps that it owns. Borrowed strings and
    /// binaries remain borrowed.
    ///
    /// # Errors
    ///
    /// `OutOfMemory` if an allocation fails.
    ///
    /// # Complexity
    ///
    /// O(n) for n values and bytes of owned strings. Allocates. docs/STACK.md gives its use of the stack.
    ///
    /// # Examples
    ///
    /// ```rust crates/jsonb_examples/src/parts.rt
    /// if let Some(found) = members.get(key) {
    ///     return found.clone(alloc);
    /// }
    /// ```
    pub fn clone(&self, alloc: Global) -> Result<Value<'a>, Error>
        ensures tree { MatchResult result (λ copy. value_tree copy ≡ value_tree self.now) IsOutOfMemory }
        ensures parts { IfOk result (λ copy. value_parts copy ≡ value_parts self.now) }
    {
        Ok(copy(alloc, self)?)
    }
}

/// Drops containers in a loop, since a document may be as deep as it is long.
impl Drop for Value<'_> {
    #[inline(always)]
    fn drop(self) {
        if let Some(container) = self.container() {
            container.release();
        }
    }
}
