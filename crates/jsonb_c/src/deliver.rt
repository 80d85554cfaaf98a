//! Results written to the caller's memory.

ghost use Rattle.std.specs.Prelude.{◌≡◌, ◌≤◌, ◌+◌, ◌++◌, take, drop, length, string_bytes};
ghost use Rattle.std.specs.Int.{from_bool};
ghost use Rattle.jsonb_c.specs.Status.{code};
ghost use Rattle.jsonb_c.specs.Answers.{Delivers, DeliversBytes, Shows, always, found_as, truth_byte};
ghost use Rattle.jsonb_c.specs.Private.Buffers.{Places};
ghost use Rattle.jsonb_c.specs.Private.Views.{found_text, vec_answer};

use crate::status::Status;
use jsonb::{Error, OwnedJsonb};

/// Writes the bytes at an offset of the buffer if they fit; returns whether they do.
pub(crate) fn write_at(bytes: &[u8], out: &mut [u8], at: usize) -> bool
    ensures { Places bytes.now at out.old out.new result }
{
    let Some(room) = out.len().checked_sub(at) else {
        return false;
    };
    if room < bytes.len() {
        return false;
    }
    out[at..at + bytes.len()].copy_from_slice(bytes);
    true
}

/// Writes two runs of bytes, one after the other, at an offset of the buffer if both fit; returns whether they do.
pub(crate) fn write_both_at(bytes: &[u8], others: &[u8], out: &mut [u8], at: usize) -> bool
    ensures { Places (bytes.now ++ others.now) at out.old out.new result }
{
    if out.len() < at || out.len() - at < bytes.len() + others.len() {
        return false;
    }
    let between = at + bytes.len();
    out[at..between].copy_from_slice(bytes);
    out[between..between + others.len()].copy_from_slice(others);
    true
}

/// Stores the document of a value, or returns the status if there is none or the call failed.
pub(crate) fn deliver(
    answer: Result<Option<OwnedJsonb>, Error>,
    out: &mut [u8],
    out_len: &mut usize,
) -> u32
    ensures { Delivers out.old out.new out_len.new result answer }
{
    match answer {
        Ok(Some(document)) => deliver_bytes(document.as_raw().as_bytes(), out, out_len),
        Ok(None) => deliver_nothing(Status::Absent, out_len),
        Err(error) => deliver_nothing(Status::Refused(error), out_len),
    }
}

/// Stores a document, or returns the status of the error.
pub(crate) fn deliver_made(
    answer: Result<OwnedJsonb, Error>,
    out: &mut [u8],
    out_len: &mut usize,
) -> u32
    ensures { Delivers out.old out.new out_len.new result (always answer) }
{
    match answer {
        Ok(document) => deliver_bytes(document.as_raw().as_bytes(), out, out_len),
        Err(error) => deliver_nothing(Status::Refused(error), out_len),
    }
}

/// Stores bytes, or returns the status of the error.
pub(crate) fn deliver_vec(
    answer: Result<Vec<u8>, Error>,
    out: &mut [u8],
    out_len: &mut usize,
) -> u32
    ensures { Delivers out.old out.new out_len.new result (always (vec_answer answer)) }
{
    match answer {
        Ok(made) => deliver_bytes(&made, out, out_len),
        Err(error) => deliver_nothing(Status::Refused(error), out_len),
    }
}

/// Stores bytes in the caller's buffer, and returns the status.
pub(crate) fn deliver_bytes(bytes: &[u8], out: &mut [u8], out_len: &mut usize) -> u32
    ensures { DeliversBytes out.old out.new out_len.new result bytes.now }
{
    *out_len = bytes.len();
    if write_at(bytes, out, 0) {
        Status::Answered.to_u32()
    } else {
        Status::BufferTooSmall.to_u32()
    }
}

/// Stores nothing, and returns the status.
pub(crate) fn deliver_nothing(cause: Status, out_len: &mut usize) -> u32
    ensures len { out_len.new ≡ 0 }
    ensures status { result ≡ code cause }
{
    *out_len = 0;
    cause.to_u32()
}

/// Returns a Boolean as a byte.
pub(crate) fn truth_byte(truth: Option<bool>) -> u8
    ensures { result ≡ truth_byte truth }
{
    match truth {
        Some(value) => bool_byte(value),
        None => 2,
    }
}

pub(crate) fn bool_byte(value: bool) -> u8
    ensures { result ≡ from_bool value }
{
    u8::from(value)
}

/// Stores a three-valued result, or returns the status of the error.
pub(crate) fn store_truth(answer: Result<Option<bool>, Error>, truth: &mut u8) -> u32
    ensures { Shows truth.old truth.new result (found_as truth_byte (always answer)) }
{
    match answer {
        Ok(value) => {
            *truth = truth_byte(value);
            Status::Answered.to_u32()
        }
        Err(error) => Status::Refused(error).to_u32(),
    }
}

/// Stores a Boolean, or returns the status of the error.
pub(crate) fn store_bool(answer: Result<bool, Error>, truth: &mut u8) -> u32
    ensures { Shows truth.old truth.new result (found_as from_bool (always answer)) }
{
    match answer {
        Ok(value) => {
            *truth = bool_byte(value);
            Status::Answered.to_u32()
        }
        Err(error) => Status::Refused(error).to_u32(),
    }
}

/// Stores a Boolean, or returns the status if there is none or the call failed.
pub(crate) fn store_found_bool(answer: Result<Option<bool>, Error>, truth: &mut u8) -> u32
    ensures { Shows truth.old truth.new result (found_as from_bool answer) }
{
    match answer {
        Ok(Some(value)) => {
            *truth = bool_byte(value);
            Status::Answered.to_u32()
        }
        Ok(None) => Status::Absent.to_u32(),
        Err(error) => Status::Refused(error).to_u32(),
    }
}

/// Stores a value, or returns the status of the error.
pub(crate) fn store<T: Copy>(answer: Result<T, Error>, out: &mut T) -> u32
    ensures { Shows out.old out.new result (always answer) }
{
    match answer {
        Ok(value) => {
            *out = value;
            Status::Answered.to_u32()
        }
        Err(error) => Status::Refused(error).to_u32(),
    }
}

/// Stores a value, or returns the status if there is none or the call failed.
pub(crate) fn store_found<T: Copy>(answer: Result<Option<T>, Error>, out: &mut T) -> u32
    ensures { Shows out.old out.new result answer }
{
    match answer {
        Ok(Some(value)) => {
            *out = value;
            Status::Answered.to_u32()
        }
        Ok(None) => Status::Absent.to_u32(),
        Err(error) => Status::Refused(error).to_u32(),
    }
}

/// Stores the bytes of a string, or returns the status of the error.
pub(crate) fn deliver_text(
    answer: Result<String, Error>,
    out: &mut [u8],
    out_len: &mut usize,
) -> u32
    ensures { Delivers out.old out.new out_len.new result (found_as string_bytes (always answer)) }
{
    match answer {
        Ok(text) => deliver_bytes(text.as_bytes(), out, out_len),
        Err(error) => deliver_nothing(Status::Refused(error), out_len),
    }
}

/// Stores the bytes of a string, or returns the status if there is none or the call failed.
pub(crate) fn deliver_found_text(
    answer: Result<Option<&str>, Error>,
    out: &mut [u8],
    out_len: &mut usize,
) -> u32
    ensures { Delivers out.old out.new out_len.new result (found_text answer.entry) }
{
    match answer {
        Ok(Some(text)) => deliver_bytes(text.as_bytes(), out, out_len),
        Ok(None) => deliver_nothing(Status::Absent, out_len),
        Err(error) => deliver_nothing(Status::Refused(error), out_len),
    }
}
