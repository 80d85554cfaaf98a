//! Casts of documents to Booleans, integers and strings.
//!
//! On bytes that do not decode each function returns; its result is not specified. Only the root is read.

ghost use Rattle.std.specs.Prelude.{◌≡◌, ◌<◌, ◌^◌, Some, FitsSigned, IfErr, OnOk};
ghost use Rattle.std.specs.Int.{w64};
ghost use Rattle.jsonb_doc.specs.Tree as spec;
ghost use Rattle.jsonb_doc.specs.Tree.{Tree};
ghost use Rattle.jsonb_doc.specs.Payload.{Form};
ghost use Rattle.jsonb_doc.specs.Format.{Decodes};
ghost use Rattle.jsonb_doc.specs.View.{number_parts};
ghost use Rattle.jsonb_raw.specs.AnyBytes.Roots.{HasRoot};
ghost use Rattle.jsonb_raw.specs.Documents.{raw_bytes};
ghost use Rattle.jsonb_raw.specs.Casts.{Casts, IsBoolOf, IsSignedOf, IsUnsignedOf, CastsToText, text_of};
ghost use Rattle.jsonb_doc.specs.Answer.{IsDecodingError, ◌or◌};
ghost use Rattle.jsonb_doc.specs.declared.error.Error.TheVariants.{OutOfMemory, InvalidCast};

use crate::raw::RawJsonb;
use jsonb_doc::{Error, Item, Number, Shape, root_item, root_shape};
use std::alloc::Global;

impl RawJsonb<'_> {
    /// Returns the Boolean; the strings true, yes, false and no in any ASCII case are cast.
    ///
    /// # Errors
    ///
    /// `InvalidCast` if and only if the document is anything else, and decoding errors.
    ///
    /// # Complexity
    ///
    /// O(1), or O(n) for a string. Does not allocate.
    ///
    /// # Examples
    ///
    /// <!-- rows: calls: to_bool -->
    /// | Document | Result |
    /// |---|---|
    /// | `"YES"` | true |
    /// | `"1"` | refused: `InvalidCast` |
    #[inline(always)]
    pub fn to_bool(&self) -> Result<bool, Error>
        ensures value { (form : Form) (tree : Tree) → Decodes form (raw_bytes self.now) tree
            → Casts (IsBoolOf tree) result }
        ensures errors { IfErr result (IsDecodingError or InvalidCast) }
        ensures reads { OnOk result (HasRoot (raw_bytes self.now)) }
    {
        match root_shape(self.as_bytes())? {
            Shape::Boolean(value) => Ok(value),
            Shape::Text(text) => bool_from_text(text),
            _ => Err(Error::InvalidCast),
        }
    }

    /// Returns the document as an `i64`: a Boolean as 1 or 0, a number rounded half away from zero (this project's
    /// profile), and a string as Rust's `parse` reads it, an optional `+` or `-` and one or more ASCII digits.
    ///
    /// # Errors
    ///
    /// `InvalidCast` for every other document and if the value does not fit, and decoding errors.
    ///
    /// # Complexity
    ///
    /// O(1), or O(n) for a string. Does not allocate.
    ///
    /// # Examples
    ///
    /// <!-- rows: calls: to_i64 -->
    /// | Document | Result |
    /// |---|---|
    /// | `true` | `1` |
    /// | `2.5` | `3` |
    /// | `"-5"` | `-5` |
    /// | `"2.5"` | refused: `InvalidCast` |
    #[tactic(auto, using(std::proofs::Common::arith))]
    pub fn to_i64(&self) -> Result<i64, Error>
        ensures value { (form : Form) (tree : Tree) → Decodes form (raw_bytes self.now) tree
            → Casts (λ z. IsSignedOf tree z × FitsSigned w64 z) result }
        ensures errors { IfErr result (IsDecodingError or InvalidCast) }
        ensures reads { OnOk result (HasRoot (raw_bytes self.now)) }
    {
        match root_item(self.as_bytes())? {
            Item::Boolean(value) => Ok(i64::from(value)),
            Item::Number(number) => number.to_i64().ok_or(Error::InvalidCast),
            Item::String(text) => text.parse().or(Err(Error::InvalidCast)),
            _ => Err(Error::InvalidCast),
        }
    }

    /// Returns the document as a `u64`: a Boolean as 1 or 0, a number rounded half away from zero (this project's
    /// profile), and a string as Rust's `parse` reads it, an optional `+` and one or more ASCII digits.
    ///
    /// # Errors
    ///
    /// `InvalidCast` for every other document and if the value does not fit, and decoding errors.
    ///
    /// # Complexity
    ///
    /// O(1), or O(n) for a string. Does not allocate.
    ///
    /// # Examples
    ///
    /// <!-- rows: calls: to_u64 -->
    /// | Document | Result |
    /// |---|---|
    /// | `-0.5` | refused: `InvalidCast` |
    pub fn to_u64(&self) -> Result<u64, Error>
        ensures value { (form : Form) (tree : Tree) → Decodes form (raw_bytes self.now) tree
            → Casts (λ n. IsUnsignedOf tree n × (n < 2 ^ 64)) result }
        ensures errors { IfErr result (IsDecodingError or InvalidCast) }
        ensures reads { OnOk result (HasRoot (raw_bytes self.now)) }
    {
        match root_item(self.as_bytes())? {
            Item::Boolean(value) => Ok(u64::from(value)),
            Item::Number(number) => number.to_u64().ok_or(Error::InvalidCast),
            Item::String(text) => text.parse().or(Err(Error::InvalidCast)),
            _ => Err(Error::InvalidCast),
        }
    }

    /// Returns the document as a string: a Boolean as `true` or `false`, a number in decimal, as it prints, and a
    /// string unchanged.
    ///
    /// # Errors
    ///
    /// `InvalidCast` for every other document, and allocation errors.
    ///
    /// # Complexity
    ///
    /// O(n). Allocates; the string is copied.
    ///
    /// # Examples
    ///
    /// <!-- rows: calls: to_str -->
    /// | Document | Result |
    /// |---|---|
    /// | `-0.005` | `-0.005` |
    /// | `null` | refused: `InvalidCast` |
    #[tactic(auto, using(crate::proofs::AnswerLemmas::no_text))]
    pub fn to_str(&self, alloc: Global) -> Result<String, Error>
        ensures value { (form : Form) (tree : Tree) → Decodes form (raw_bytes self.now) tree
            → CastsToText (text_of tree) result }
        ensures errors { IfErr result (IsDecodingError or OutOfMemory or InvalidCast) }
        ensures reads { OnOk result (HasRoot (raw_bytes self.now)) }
    {
        match root_item(self.as_bytes())? {
            Item::Boolean(value) => Ok(String::from_str(alloc, bool_text(value))?),
            Item::Number(number) => text_from_number(alloc, &number),
            Item::String(text) => Ok(String::from_str(alloc, text)?),
            _ => Err(Error::InvalidCast),
        }
    }
}

/// Returns the Boolean that a string names. Its bytes are compared, and not validated first.
fn bool_from_text(text: &[u8]) -> Result<bool, Error>
    ensures { Casts (IsBoolOf (spec.text text.now)) result }
{
    if text.eq_ignore_ascii_case(b"true") || text.eq_ignore_ascii_case(b"yes") {
        Ok(true)
    } else if text.eq_ignore_ascii_case(b"false") || text.eq_ignore_ascii_case(b"no") {
        Ok(false)
    } else {
        Err(Error::InvalidCast)
    }
}

fn bool_text(value: bool) -> &'static str
    ensures { text_of (spec.boolean value) ≡ Some result.now }
{
    if value { "true" } else { "false" }
}

fn text_from_number(alloc: Global, number: &Number) -> Result<String, Error>
    ensures { CastsToText (text_of (spec.number (number_parts number.now))) result }
{
    Ok(format!(in alloc; "{number}")?)
}
