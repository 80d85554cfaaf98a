//! Values as failed assertions print them.

use super::Value;
use std::fmt;

/// Prints the type and the value of a scalar, and the type and the number of children of a container, so that a deep
/// value needs no more stack than a flat one.
impl fmt::Debug for Value<'_> {
    fn fmt<W: fmt::Write>(&self, f: &mut fmt::Formatter<W>) -> fmt::Result {
        match self {
            Value::Null => f.write_str("Null"),
            Value::Bool(truth) => write!(f, "Bool({truth})"),
            Value::String(text) => write_text(text.as_str(), f),
            Value::Number(number) => write!(f, "Number({number})"),
            Value::Binary(bytes) => write!(f, "Binary({bytes:?})"),
            Value::Date(date) => write!(f, "{date:?}"),
            Value::Timestamp(timestamp) => write!(f, "{timestamp:?}"),
            Value::TimestampTz(timestamp) => write!(f, "{timestamp:?}"),
            Value::Interval(interval) => write!(f, "{interval:?}"),
            Value::Array(values) => write_count("Array", values.len(), f),
            Value::Object(members) => write_count("Object", members.len(), f),
        }
    }
}

fn write_text<W: fmt::Write>(text: &str, f: &mut fmt::Formatter<W>) -> fmt::Result {
    write!(f, "String({text:?})")
}

fn write_count<W: fmt::Write>(kind: &str, count: usize, f: &mut fmt::Formatter<W>) -> fmt::Result {
    write!(f, "{kind} of {count}")
}
