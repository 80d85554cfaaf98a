//! A number as an integer and a scale.

ghost use Rattle.std.specs.Prelude.{◌≡◌, IfErr, IsOkAnd};
ghost use Rattle.jsonb_doc.specs.Answer.{IsDecodingError, SameOption};
ghost use Rattle.jsonb_doc.specs.View.{number_parts};
ghost use Rattle.jsonb_doc.specs.declared.number.Number.TheVariants as code;
ghost use Rattle.jsonb_raw.specs.Scalars.{number_in};
ghost use Rattle.jsonb_c.specs.Answers.{OfDocument, Shows, WritesResult};
ghost use Rattle.jsonb_c.specs.Making.{ArePartsOf};

use crate::status::Status;
use jsonb::{Decimal128, Error, Number, RawJsonb};
use std::marker::Model;

/// The value of one in the upper half of an integer.
const UPPER_UNIT: i128 = 18_446_744_073_709_551_616;

/// Returns the number of a document, as `jdoc_from_decimal` takes it: an integer of two halves, `high * 2^64 + low`,
/// over ten to the power of the scale, which is 0 for an integer.
#[unsafe(no_mangle)]
pub extern "C" fn jdoc_as_decimal(
    document: &[u8],
    high: &mut i64,
    low: &mut u64,
    scale: &mut u8,
) -> u32
    ensures { WritesResult
        (OfDocument document.now (λ form t answer. IsOkAnd answer (λ found. SameOption ArePartsOf found (number_in t))))
        IsDecodingError (Shows (high.old, low.old, scale.old) (high.new, low.new, scale.new) result) }
{
    match as_parts(document) {
        Ok(Some(parts)) => {
            *high = parts.high;
            *low = parts.low;
            *scale = parts.scale;
            Status::Answered.to_u32()
        }
        Ok(None) => Status::Absent.to_u32(),
        Err(error) => Status::Refused(error).to_u32(),
    }
}

/// A number over ten to the power of its scale, with its integer in two halves.
#[derive(Drop)]
struct Parts {
    high: i64,
    low: u64,
    scale: u8,
}

impl Model for Parts {
    ghost use Rattle.std.specs.Prelude.{ℕ, ℤ};

    ghost Value = { ℤ × ℕ × ℕ };

    ghost view = { λ parts. (parts.high, parts.low, parts.scale) };
}

fn as_parts(document: &[u8]) -> Result<Option<Parts>, Error>
    ensures parts { OfDocument document.now
        (λ form t answer. IsOkAnd answer (λ found. SameOption ArePartsOf found (number_in t))) result }
    ensures errors { IfErr result IsDecodingError }
{
    match RawJsonb::new(document).as_number()? {
        Some(number) => Ok(Some(parts_of(decimal_of(number)))),
        None => Ok(None),
    }
}

/// Returns the number as a decimal.
fn decimal_of(number: Number) -> Decimal128
    ensures whole { result.value ≡ (number_parts number).whole }
    ensures scale { result.scale ≡ (number_parts number).scale }
{
    match number {
        Number::Int64(value) => Decimal128 {
            scale: 0,
            value: i128::from(value),
        },
        Number::UInt64(value) => Decimal128 {
            scale: 0,
            value: i128::from(value),
        },
        Number::Decimal64(decimal) => Decimal128 {
            scale: decimal.scale,
            value: i128::from(decimal.value),
        },
        Number::Decimal128(decimal) => decimal,
    }
}

/// Returns the halves of the integer, and the scale.
fn parts_of(decimal: Decimal128) -> Parts
    ensures { ArePartsOf result (number_parts (code.Decimal128 decimal)) }
{
    Parts {
        high: decimal.value.div_euclid(UPPER_UNIT) as i64,
        low: decimal.value.rem_euclid(UPPER_UNIT) as u64,
        scale: decimal.scale,
    }
}
