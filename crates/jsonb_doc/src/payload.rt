//! How numbers and extension values are written.

ghost use Rattle.std.specs.Prelude.{◌≡◌, ◌≤◌, ◌+◌, ◌++◌, [], ◌∷◌, length, IsOk, OnOk, OnErr, vec_len, vec_capacity};
ghost use Rattle.std.specs.Int.{w32, w64};
ghost use Rattle.byteorder.specs.Endian.{big_bytes};
ghost use Rattle.jsonb_doc.specs.Number.{FitsNumber};
ghost use Rattle.jsonb_doc.specs.Extension.{binary, date, timestamp, timestamp_tz, interval, FitsExtension};
ghost use Rattle.jsonb_doc.specs.Payload.{fixed_bytes, unsigned_width, signed_size, signed_bytes, number_payload, extension_payload};
ghost use Rattle.jsonb_doc.specs.Private.Writing.{StaysInFront};
ghost use Rattle.jsonb_doc.specs.View.{number_view, extension_view};

use crate::extension::ExtensionValue;
use crate::layout::{
    BINARY, DATE, DATE_LEN, DECIMAL, DECIMAL64_LEN, DECIMAL128_LEN, INT64, INTERVAL, INTERVAL_LEN,
    TIMESTAMP, TIMESTAMP_LEN, TIMESTAMP_TZ, TIMESTAMP_TZ_LEN, UINT64, ZERO,
};
use crate::number::Number;
use std::alloc::AllocError;

/// Returns the number of bytes in which an unsigned number is stored.
#[inline(always)]
pub fn unsigned_width_of(n: u64) -> usize
    ensures { result ≡ unsigned_width n }
{
    if n < 0x100 {
        1
    } else if n < 0x1_0000 {
        2
    } else if n < 0x1_0000_0000 {
        4
    } else {
        8
    }
}

/// Returns an unsigned number that needs as many bytes as this signed one does.
#[inline(always)]
fn signed_size_of(value: i64) -> u64
    ensures { result ≡ signed_size value }
{
    if value < 0 {
        2 * (-(value + 1)) as u64
    } else {
        2 * value as u64
    }
}

/// Returns the number of bytes in which a signed number is stored.
#[inline(always)]
pub fn signed_width_of(value: i64) -> usize
    ensures { result ≡ unsigned_width (signed_size value) }
{
    unsigned_width_of(signed_size_of(value))
}

/// Returns the length of the payload of a number, in bytes.
#[inline(always)]
pub fn number_len(number: Number) -> usize
    ensures { result ≡ length (number_payload (number_view number)) }
{
    if number.whole() == 0 {
        return 1;
    }
    match number {
        Number::Int64(value) => 1 + signed_width_of(value),
        Number::UInt64(value) => 1 + unsigned_width_of(value),
        Number::Decimal64(_) => 1 + DECIMAL64_LEN,
        Number::Decimal128(_) => 1 + DECIMAL128_LEN,
    }
}

/// Appends the lowest bytes of the number, big-endian.
fn push_low_bytes(out: &mut Vec<u8>, n: u64, width: usize) -> Result<(), AllocError>
    requires { width ≤ 8 }
    ensures pushed { OnOk result (out.new.items ≡ out.old.items ++ big_bytes width n) }
    ensures unchanged { OnErr result (out.new.items ≡ out.old.items) }
{
    out.extend_from_slice(&n.to_be_bytes()[8 - width..])
}

/// Appends the bytes of the number, big-endian.
fn push_i32(out: &mut Vec<u8>, value: i32) -> Result<(), AllocError>
    ensures pushed { OnOk result (out.new.items ≡ out.old.items ++ fixed_bytes w32 value) }
    ensures unchanged { OnErr result (out.new.items ≡ out.old.items) }
    ensures len { OnOk result (vec_len out.new ≡ vec_len out.old + 4) }
    ensures capacity { vec_capacity out.old ≤ vec_capacity out.new }
    ensures room { vec_len out.old + 4 ≤ vec_capacity out.old → IsOk result }
{
    out.extend_from_slice(&value.to_be_bytes())
}

fn push_i64(out: &mut Vec<u8>, value: i64) -> Result<(), AllocError>
    ensures pushed { OnOk result (out.new.items ≡ out.old.items ++ fixed_bytes w64 value) }
    ensures unchanged { OnErr result (out.new.items ≡ out.old.items) }
    ensures capacity { vec_capacity out.old ≤ vec_capacity out.new }
    ensures room { vec_len out.old + 8 ≤ vec_capacity out.old → IsOk result }
{
    out.extend_from_slice(&value.to_be_bytes())
}

fn push_int64(out: &mut Vec<u8>, value: i64) -> Result<(), AllocError>
    ensures pushed { OnOk result (out.new.items ≡ out.old.items ++ 0x40 ∷ signed_bytes value) }
    ensures kept { OnErr result (StaysInFront out.old.items out.new.items) }
{
    out.push(INT64)?;
    push_low_bytes(out, value.cast_unsigned(), signed_width_of(value))
}

fn push_uint64(out: &mut Vec<u8>, value: u64) -> Result<(), AllocError>
    ensures pushed { OnOk result (out.new.items ≡ out.old.items ++ 0x50 ∷ big_bytes (unsigned_width value) value) }
    ensures kept { OnErr result (StaysInFront out.old.items out.new.items) }
{
    out.push(UINT64)?;
    push_low_bytes(out, value, unsigned_width_of(value))
}

/// Appends a decimal: the bytes of its value, and its scale.
fn push_decimal(out: &mut Vec<u8>, value: &[u8], scale: u8) -> Result<(), AllocError>
    ensures pushed { OnOk result (out.new.items ≡ out.old.items ++ (0x70 ∷ value.now ++ scale ∷ [])) }
    ensures kept { OnErr result (StaysInFront out.old.items out.new.items) }
{
    out.push(DECIMAL)?;
    out.extend_from_slice(value)?;
    out.push(scale)?;
    Ok(())
}

/// Appends the payload of a number, each zero as one byte.
pub fn push_number_payload(out: &mut Vec<u8>, number: Number) -> Result<(), AllocError>
    ensures pushed { OnOk result (out.new.items ≡ out.old.items ++ number_payload (number_view number)) }
    ensures kept { OnErr result (StaysInFront out.old.items out.new.items) }
    ensures fits { FitsNumber (number_view number) }
{
    if number.whole() == 0 {
        out.push(ZERO)?;
        return Ok(());
    }
    match number {
        Number::Int64(value) => push_int64(out, value),
        Number::UInt64(value) => push_uint64(out, value),
        Number::Decimal64(decimal) => {
            push_decimal(out, &decimal.value.to_be_bytes(), decimal.scale)
        }
        Number::Decimal128(decimal) => {
            push_decimal(out, &decimal.value.to_be_bytes(), decimal.scale)
        }
    }
}

/// Returns the length of the payload of an extension value, in bytes.
pub fn extension_len(value: &ExtensionValue<'_>) -> usize
    ensures { result ≡ length (extension_payload (extension_view value.now)) }
{
    match value {
        ExtensionValue::Binary(bytes) => 1 + bytes.len(),
        ExtensionValue::Date(_) => 1 + DATE_LEN,
        ExtensionValue::Timestamp(_) => 1 + TIMESTAMP_LEN,
        ExtensionValue::TimestampTz(_) => 1 + TIMESTAMP_TZ_LEN,
        ExtensionValue::Interval(_) => 1 + INTERVAL_LEN,
    }
}

fn push_binary(out: &mut Vec<u8>, bytes: &[u8]) -> Result<(), AllocError>
    ensures pushed { OnOk result (out.new.items ≡ out.old.items ++ extension_payload (binary bytes.now)) }
    ensures kept { OnErr result (StaysInFront out.old.items out.new.items) }
    ensures fits { FitsExtension (binary bytes.now) }
    ensures capacity { vec_capacity out.old ≤ vec_capacity out.new }
    ensures room { vec_len out.old + (length bytes.now + 1) ≤ vec_capacity out.old → IsOk result }
{
    out.push(BINARY)?;
    out.extend_from_slice(bytes)
}

fn push_date(out: &mut Vec<u8>, value: i32) -> Result<(), AllocError>
    ensures pushed { OnOk result (out.new.items ≡ out.old.items ++ extension_payload (date value)) }
    ensures kept { OnErr result (StaysInFront out.old.items out.new.items) }
    ensures fits { FitsExtension (date value) }
    ensures capacity { vec_capacity out.old ≤ vec_capacity out.new }
    ensures room { vec_len out.old + 5 ≤ vec_capacity out.old → IsOk result }
{
    out.push(DATE)?;
    push_i32(out, value)
}

fn push_timestamp(out: &mut Vec<u8>, value: i64) -> Result<(), AllocError>
    ensures pushed { OnOk result (out.new.items ≡ out.old.items ++ extension_payload (timestamp value)) }
    ensures kept { OnErr result (StaysInFront out.old.items out.new.items) }
    ensures fits { FitsExtension (timestamp value) }
    ensures capacity { vec_capacity out.old ≤ vec_capacity out.new }
    ensures room { vec_len out.old + 9 ≤ vec_capacity out.old → IsOk result }
{
    out.push(TIMESTAMP)?;
    push_i64(out, value)
}

fn push_timestamp_tz(out: &mut Vec<u8>, offset: i32, value: i64) -> Result<(), AllocError>
    ensures pushed { OnOk result (out.new.items ≡ out.old.items ++ extension_payload (timestamp_tz offset value)) }
    ensures kept { OnErr result (StaysInFront out.old.items out.new.items) }
    ensures fits { FitsExtension (timestamp_tz offset value) }
    ensures capacity { vec_capacity out.old ≤ vec_capacity out.new }
    ensures room { vec_len out.old + 13 ≤ vec_capacity out.old → IsOk result }
{
    out.push(TIMESTAMP_TZ)?;
    push_i32(out, offset)?;
    push_i64(out, value)
}

#[tactic(auto, using(crate::proofs::Sets::payload_push_interval))]
fn push_interval(out: &mut Vec<u8>, months: i32, days: i32, micros: i64) -> Result<(), AllocError>
    ensures pushed { OnOk result (out.new.items ≡ out.old.items ++ extension_payload (interval months days micros)) }
    ensures kept { OnErr result (StaysInFront out.old.items out.new.items) }
    ensures fits { FitsExtension (interval months days micros) }
    ensures capacity { vec_capacity out.old ≤ vec_capacity out.new }
    ensures room { vec_len out.old + 17 ≤ vec_capacity out.old → IsOk result }
{
    out.push(INTERVAL)?;
    push_i32(out, months)?;
    push_i32(out, days)?;
    push_i64(out, micros)
}

/// Appends the payload of an extension value, in the layout of docs/FORMAT.md.
///
/// # Errors
///
/// `AllocError`, only if the capacity of `out` is too small for the payload. Then `out` may end with part of it.
///
/// # Complexity
///
/// Amortized O(n) for a payload of n bytes. Allocates if `out` has to grow.
pub fn push_extension_payload(
    out: &mut Vec<u8>,
    value: &ExtensionValue<'_>,
) -> Result<(), AllocError>
    ensures pushed { OnOk result (out.new.items ≡ out.old.items ++ extension_payload (extension_view value.now)) }
    ensures kept { OnErr result (StaysInFront out.old.items out.new.items) }
    ensures fits { FitsExtension (extension_view value.now) }
    ensures capacity { vec_capacity out.old ≤ vec_capacity out.new }
    ensures room { vec_len out.old + length (extension_payload (extension_view value.now)) ≤ vec_capacity out.old
        → IsOk result }
{
    match value {
        ExtensionValue::Binary(bytes) => push_binary(out, bytes),
        ExtensionValue::Date(date) => push_date(out, date.value),
        ExtensionValue::Timestamp(timestamp) => push_timestamp(out, timestamp.value),
        ExtensionValue::TimestampTz(timestamp) => {
            push_timestamp_tz(out, timestamp.offset, timestamp.value)
        }
        ExtensionValue::Interval(interval) => {
            push_interval(out, interval.months, interval.days, interval.micros)
        }
    }
}
