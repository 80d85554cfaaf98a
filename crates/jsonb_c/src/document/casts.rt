//! Documents as Booleans, integers and strings.

ghost use Rattle.std.specs.Prelude.{◌≡◌, ◌<◌, ◌^◌, FitsSigned, IfErr, IsOkAnd, pos, string_bytes};
ghost use Rattle.std.specs.Int.{w64, from_bool};
ghost use Rattle.jsonb_doc.specs.Answer.{IsDecodingError, ◌or◌};
ghost use Rattle.jsonb_doc.specs.declared.error.Error.TheVariants.{InvalidCast, OutOfMemory};
ghost use Rattle.jsonb_raw.specs.Casts.{Casts, IsBoolOf, IsUnsignedOf, CastsToText, text_of};
ghost use Rattle.jsonb_raw.specs.Scalars.{boolean_in, text_in};
ghost use Rattle.jsonb_c.specs.Answers.{Delivers, OfDocument, Shows, ShowsAs, ShowsValue, WritesResult, always, found_as};
ghost use Rattle.jsonb_c.specs.Calls.{FindsWhole, WritesI64, WritesText};
ghost use Rattle.jsonb_c.specs.Private.Views.{found_text};

use crate::deliver::{
    deliver_found_text, deliver_text, store, store_bool, store_found, store_found_bool,
};
use jsonb::{Error, Item, RawJsonb, root_item};
use std::alloc::Global;

/// Returns the Boolean, if the root is one.
#[unsafe(no_mangle)]
pub extern "C" fn jdoc_as_bool(document: &[u8], truth: &mut u8) -> u32
    ensures { WritesResult (OfDocument document.now (λ form t answer. IsOkAnd answer (λ found. found ≡ boolean_in t)))
        IsDecodingError (λ answer. Shows truth.old truth.new result (found_as from_bool answer)) }
{
    store_found_bool(RawJsonb::new(document).as_bool(), truth)
}

/// Returns the number as an `i64`, if the root is an integer that fits.
#[unsafe(no_mangle)]
pub extern "C" fn jdoc_as_i64(document: &[u8], number: &mut i64) -> u32
    ensures { WritesResult
        (OfDocument document.now (λ form t answer. IsOkAnd answer (FindsWhole (λ z. z) (FitsSigned w64) t)))
        IsDecodingError (Shows number.old number.new result) }
{
    store_found(RawJsonb::new(document).as_i64(), number)
}

/// Returns the number as a `u64`, if the root is an integer that fits.
#[unsafe(no_mangle)]
pub extern "C" fn jdoc_as_u64(document: &[u8], number: &mut u64) -> u32
    ensures { WritesResult
        (OfDocument document.now (λ form t answer. IsOkAnd answer (FindsWhole pos (λ n. n < 2 ^ 64) t)))
        IsDecodingError (Shows number.old number.new result) }
{
    store_found(RawJsonb::new(document).as_u64(), number)
}

/// Returns the bytes of the string, if the root is one.
#[unsafe(no_mangle)]
pub extern "C" fn jdoc_as_str(document: &[u8], out: &mut [u8], out_len: &mut usize) -> u32
    ensures { WritesResult (OfDocument document.now (λ form t answer. IsOkAnd answer (λ found. found ≡ text_in t)))
        IsDecodingError (Delivers out.old out.new out_len.new result) }
{
    deliver_found_text(as_str(document), out, out_len)
}

fn as_str(document: &[u8]) -> Result<Option<&str>, Error>
    ensures text { OfDocument document.now
        (λ form t answer. IsOkAnd answer (λ found. found ≡ text_in t)) (found_text result) }
    ensures errors { IfErr result IsDecodingError }
{
    match root_item(document)? {
        Item::String(text) => Ok(Some(text)),
        _ => Ok(None),
    }
}

/// Returns the Boolean, which is also cast from strings.
#[unsafe(no_mangle)]
pub extern "C" fn jdoc_to_bool(document: &[u8], truth: &mut u8) -> u32
    ensures { WritesResult (OfDocument document.now (λ form t. Casts (IsBoolOf t))) (IsDecodingError or InvalidCast)
        (ShowsAs from_bool truth.old truth.new result) }
{
    store_bool(RawJsonb::new(document).to_bool(), truth)
}

/// Casts the document to an `i64`: a Boolean to 1 or 0, a number rounded, a string parsed.
#[unsafe(no_mangle)]
pub extern "C" fn jdoc_to_i64(document: &[u8], number: &mut i64) -> u32
    ensures { WritesI64 document.now (ShowsValue number.old number.new result) }
{
    store(RawJsonb::new(document).to_i64(), number)
}

/// Casts the document to a `u64`: a Boolean to 1 or 0, a number rounded, a string parsed.
#[unsafe(no_mangle)]
pub extern "C" fn jdoc_to_u64(document: &[u8], number: &mut u64) -> u32
    ensures { WritesResult (OfDocument document.now (λ form t. Casts (λ n. IsUnsignedOf t n × (n < 2 ^ 64))))
        (IsDecodingError or InvalidCast) (ShowsValue number.old number.new result) }
{
    store(RawJsonb::new(document).to_u64(), number)
}

/// Casts the document to a string: a Boolean, a number in decimal, a string unchanged.
#[unsafe(no_mangle)]
pub extern "C" fn jdoc_to_str(
    alloc: Global,
    document: &[u8],
    out: &mut [u8],
    out_len: &mut usize,
) -> u32
    ensures { WritesText document.now
        (λ answer. Delivers out.old out.new out_len.new result (found_as string_bytes (always answer))) }
{
    deliver_text(to_str(alloc, document), out, out_len)
}

fn to_str(alloc: Global, document: &[u8]) -> Result<String, Error>
    ensures text { OfDocument document.now (λ form t. CastsToText (text_of t)) result }
    ensures errors { IfErr result (IsDecodingError or OutOfMemory or InvalidCast) }
{
    RawJsonb::new(document).to_str(alloc)
}
