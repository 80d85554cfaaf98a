//! The type of a document, and the value of a scalar.
//!
//! On bytes that do not decode each function returns; its result is not specified. Only the root is read.

ghost use Rattle.std.specs.Prelude.{◌≡◌, ◌↔◌, ◌^◌, ◌<◌, ℕ, ℤ, pos, FitsSigned, IfErr, IsOkAnd, IsTrue, MatchOption, OnOk, is_some};
ghost use Rattle.std.specs.Int.{w64};
ghost use Rattle.jsonb_doc.specs.Tree as spec;
ghost use Rattle.jsonb_doc.specs.Tree.{Tree, extension};
ghost use Rattle.jsonb_doc.specs.Payload.{Form};
ghost use Rattle.jsonb_doc.specs.Format.{Decodes};
ghost use Rattle.jsonb_doc.specs.Answer.{SameOption, IsDecodingError};
ghost use Rattle.jsonb_doc.specs.View.{number_parts, extension_view};
ghost use Rattle.jsonb_raw.specs.Computes.{Computes};
ghost use Rattle.jsonb_raw.specs.Documents.{raw_bytes};
ghost use Rattle.jsonb_raw.specs.AnyBytes.Roots.{HasRoot, HasRootShape};
ghost use Rattle.jsonb_raw.specs.Scalars.{boolean_in, number_in, text_in, is_null, is_array, is_object, type_name, IsWholeNumber, BorrowsText};

mod extension;
#[cfg(test)]
mod tests;

use crate::raw::RawJsonb;
use jsonb_doc::{Error, ExtensionValue, Item, Number, Shape, root_item, root_shape};
use std::alloc::Global;
use std::borrow::CowStr;

impl<'a> RawJsonb<'a> {
    /// Returns the type of the root: `NULL_VALUE`, `BOOLEAN`, `INTEGER`, `DECIMAL`, `STRING`, `BINARY`, `DATE`,
    /// `TIMESTAMP`, `TIMESTAMP_TZ`, `INTERVAL`, `ARRAY` or `OBJECT` (this project's profile).
    ///
    /// A zero is an `INTEGER`, in any variant. Like PostgreSQL's `jsonb_typeof`, with other names.
    ///
    /// # Errors
    ///
    /// Decoding errors.
    ///
    /// # Complexity
    ///
    /// O(1). Does not allocate.
    ///
    /// # Examples
    ///
    /// <!-- rows: calls: type_of -->
    /// | Document | Result |
    /// |---|---|
    /// | 0 as a decimal | `INTEGER` |
    /// | the date 1 | `DATE` |
    /// | `null` | `NULL_VALUE` |
    /// | `12.34` | `DECIMAL` |
    pub fn type_of(&self) -> Result<&'static str, Error>
        ensures name { (form : Form) (tree : Tree) → Decodes form (raw_bytes self.now) tree
            → IsOkAnd result (λ name. name.now ≡ type_name tree) }
        ensures errors { IfErr result IsDecodingError }
        ensures reads { OnOk result (HasRootShape (raw_bytes self.now)) }
    {
        match root_shape(self.as_bytes())? {
            Shape::Null => Ok("NULL_VALUE"),
            Shape::Boolean(_) => Ok("BOOLEAN"),
            Shape::Number(number) => Ok(number_type(&number)),
            Shape::Text(_) => Ok("STRING"),
            Shape::Extension(value) => Ok(extension_type(&value)),
            Shape::Array => Ok("ARRAY"),
            Shape::Object => Ok("OBJECT"),
        }
    }

    /// Returns `true` if the root is null.
    ///
    /// # Errors
    ///
    /// Decoding errors.
    ///
    /// # Complexity
    ///
    /// O(1). Does not allocate.
    ///
    /// # Examples
    ///
    /// <!-- rows: calls: is_null -->
    /// | Document | Result |
    /// |---|---|
    /// | `null` | true |
    #[inline(always)]
    pub fn is_null(&self) -> Result<bool, Error>
        ensures kind { Computes is_null (raw_bytes self.now) result }
        ensures errors { IfErr result IsDecodingError }
        ensures reads { OnOk result (HasRootShape (raw_bytes self.now)) }
    {
        Ok(matches!(root_shape(self.as_bytes())?, Shape::Null))
    }

    /// Returns `true` if the root is a Boolean.
    ///
    /// # Errors
    ///
    /// Decoding errors.
    ///
    /// # Complexity
    ///
    /// O(1). Does not allocate.
    ///
    /// # Examples
    ///
    /// <!-- rows: calls: is_boolean -->
    /// | Document | Result |
    /// |---|---|
    /// | `false` | true |
    #[inline(always)]
    pub fn is_boolean(&self) -> Result<bool, Error>
        ensures kind { Computes (λ tree. is_some (boolean_in tree)) (raw_bytes self.now) result }
        ensures errors { IfErr result IsDecodingError }
        ensures reads { OnOk result (HasRootShape (raw_bytes self.now)) }
    {
        Ok(matches!(root_shape(self.as_bytes())?, Shape::Boolean(_)))
    }

    /// Returns `true` if the root is a number.
    ///
    /// # Errors
    ///
    /// Decoding errors.
    ///
    /// # Complexity
    ///
    /// O(1). Does not allocate.
    ///
    /// # Examples
    ///
    /// <!-- rows: calls: is_number -->
    /// | Document | Result |
    /// |---|---|
    /// | `1.0` | true |
    #[inline(always)]
    pub fn is_number(&self) -> Result<bool, Error>
        ensures kind { Computes (λ tree. is_some (number_in tree)) (raw_bytes self.now) result }
        ensures errors { IfErr result IsDecodingError }
        ensures reads { OnOk result (HasRootShape (raw_bytes self.now)) }
    {
        Ok(matches!(root_shape(self.as_bytes())?, Shape::Number(_)))
    }

    /// Returns `true` if the root is a string.
    ///
    /// # Errors
    ///
    /// Decoding errors.
    ///
    /// # Complexity
    ///
    /// O(1). Does not allocate.
    ///
    /// # Examples
    ///
    /// <!-- rows: calls: is_string -->
    /// | Document | Result |
    /// |---|---|
    /// | `"ab"` | true |
    #[inline(always)]
    pub fn is_string(&self) -> Result<bool, Error>
        ensures kind { Computes (λ tree. is_some (text_in tree)) (raw_bytes self.now) result }
        ensures errors { IfErr result IsDecodingError }
        ensures reads { OnOk result (HasRootShape (raw_bytes self.now)) }
    {
        Ok(matches!(root_shape(self.as_bytes())?, Shape::Text(_)))
    }

    /// Returns `true` if the root is an array.
    ///
    /// # Errors
    ///
    /// Decoding errors.
    ///
    /// # Complexity
    ///
    /// O(1). Does not allocate.
    ///
    /// # Examples
    ///
    /// <!-- rows: calls: is_array -->
    /// | Document | Result |
    /// |---|---|
    /// | `[]` | true |
    #[inline(always)]
    pub fn is_array(&self) -> Result<bool, Error>
        ensures kind { Computes is_array (raw_bytes self.now) result }
        ensures errors { IfErr result IsDecodingError }
        ensures reads { OnOk result (HasRootShape (raw_bytes self.now)) }
    {
        Ok(matches!(root_shape(self.as_bytes())?, Shape::Array))
    }

    /// Returns `true` if the root is an object.
    ///
    /// # Errors
    ///
    /// Decoding errors.
    ///
    /// # Complexity
    ///
    /// O(1). Does not allocate.
    ///
    /// # Examples
    ///
    /// <!-- rows: calls: is_object -->
    /// | Document | Result |
    /// |---|---|
    /// | `{}` | true |
    #[inline(always)]
    pub fn is_object(&self) -> Result<bool, Error>
        ensures kind { Computes is_object (raw_bytes self.now) result }
        ensures errors { IfErr result IsDecodingError }
        ensures reads { OnOk result (HasRootShape (raw_bytes self.now)) }
    {
        Ok(matches!(root_shape(self.as_bytes())?, Shape::Object))
    }

    /// Returns `true` if the root is an integer that fits `i64`.
    ///
    /// The decimal 1.0 is an integer.
    ///
    /// # Errors
    ///
    /// Decoding errors.
    ///
    /// # Complexity
    ///
    /// O(1). Does not allocate.
    ///
    /// # Examples
    ///
    /// <!-- rows: calls: is_i64 -->
    /// | Document | Result |
    /// |---|---|
    /// | `1.0` | true |
    /// | `1.5` | false |
    #[inline(always)]
    pub fn is_i64(&self) -> Result<bool, Error>
        ensures kind { (form : Form) (tree : Tree) → Decodes form (raw_bytes self.now) tree
            → IsOkAnd result (λ b. IsTrue b ↔ ((z : ℤ) × IsWholeNumber tree z × FitsSigned w64 z)) }
        ensures errors { IfErr result IsDecodingError }
        ensures reads { OnOk result (HasRootShape (raw_bytes self.now)) }
    {
        Ok(self.as_i64()?.is_some())
    }

    /// Returns `true` if the root is an integer that fits `u64`.
    ///
    /// The decimal 1.0 is an integer.
    ///
    /// # Errors
    ///
    /// Decoding errors.
    ///
    /// # Complexity
    ///
    /// O(1). Does not allocate.
    ///
    /// # Examples
    ///
    /// <!-- rows: calls: is_u64 -->
    /// | Document | Result |
    /// |---|---|
    /// | `1.0` | true |
    #[inline(always)]
    pub fn is_u64(&self) -> Result<bool, Error>
        ensures kind { (form : Form) (tree : Tree) → Decodes form (raw_bytes self.now) tree
            → IsOkAnd result (λ b. IsTrue b ↔ ((n : ℕ) × IsWholeNumber tree (pos n) × (n < 2 ^ 64))) }
        ensures errors { IfErr result IsDecodingError }
        ensures reads { OnOk result (HasRootShape (raw_bytes self.now)) }
    {
        Ok(self.as_u64()?.is_some())
    }

    /// Returns `Some(())` if the root is null, and otherwise `None`.
    ///
    /// # Errors
    ///
    /// Decoding errors.
    ///
    /// # Complexity
    ///
    /// O(1). Does not allocate.
    ///
    /// # Examples
    ///
    /// <!-- rows: calls: as_null -->
    /// | Document | Result |
    /// |---|---|
    /// | `false` | none |
    pub fn as_null(&self) -> Result<Option<()>, Error>
        ensures value { (form : Form) (tree : Tree) → Decodes form (raw_bytes self.now) tree
            → IsOkAnd result (λ found. is_some found ≡ is_null tree) }
        ensures errors { IfErr result IsDecodingError }
        ensures reads { OnOk result (HasRootShape (raw_bytes self.now)) }
    {
        match root_shape(self.as_bytes())? {
            Shape::Null => Ok(Some(())),
            _ => Ok(None),
        }
    }

    /// Returns the Boolean, or `None` if the root is of another type.
    ///
    /// # Errors
    ///
    /// Decoding errors.
    ///
    /// # Complexity
    ///
    /// O(1). Does not allocate.
    ///
    /// # Examples
    ///
    /// <!-- rows: calls: as_bool -->
    /// | Document | Result |
    /// |---|---|
    /// | `false` | `false` |
    pub fn as_bool(&self) -> Result<Option<bool>, Error>
        ensures value { Computes boolean_in (raw_bytes self.now) result }
        ensures errors { IfErr result IsDecodingError }
        ensures reads { OnOk result (HasRootShape (raw_bytes self.now)) }
    {
        match root_shape(self.as_bytes())? {
            Shape::Boolean(value) => Ok(Some(value)),
            _ => Ok(None),
        }
    }

    /// Returns the number, or `None` if the root is of another type.
    ///
    /// A zero is `UInt64(0)`, in any stored variant.
    ///
    /// # Errors
    ///
    /// Decoding errors.
    ///
    /// # Complexity
    ///
    /// O(1). Does not allocate.
    ///
    /// # Examples
    ///
    /// <!-- rows: calls: as_number -->
    /// | Document | Result |
    /// |---|---|
    /// | `1.0` | `1.0` |
    #[inline(always)]
    pub fn as_number(&self) -> Result<Option<Number>, Error>
        ensures value { (form : Form) (tree : Tree) → Decodes form (raw_bytes self.now) tree
            → IsOkAnd result (λ found. SameOption (λ n m. number_parts n ≡ m) found (number_in tree)) }
        ensures errors { IfErr result IsDecodingError }
        ensures reads { OnOk result (HasRootShape (raw_bytes self.now)) }
    {
        match root_shape(self.as_bytes())? {
            Shape::Number(number) => Ok(Some(number)),
            _ => Ok(None),
        }
    }

    /// Returns the string, borrowed, or `None` if the root is of another type.
    ///
    /// # Errors
    ///
    /// Decoding errors.
    ///
    /// # Complexity
    ///
    /// O(1), or O(n) for a string. Does not allocate.
    ///
    /// # Examples
    ///
    /// <!-- rows: calls: as_str -->
    /// | Document | Result |
    /// |---|---|
    /// | `"ab"` | `ab` |
    pub fn as_str(&self) -> Result<Option<CowStr<'a, Global>>, Error>
        ensures value { (form : Form) (tree : Tree) → Decodes form (raw_bytes self.now) tree
            → IsOkAnd result (λ found. SameOption BorrowsText found (text_in tree)) }
        ensures errors { IfErr result IsDecodingError }
        ensures reads { OnOk result (HasRoot (raw_bytes self.now)) }
    {
        match root_item(self.as_bytes())? {
            Item::String(text) => Ok(Some(CowStr::Borrowed(text))),
            _ => Ok(None),
        }
    }

    /// Returns the number as an `i64`, or `None` if the root is not an integer that fits.
    ///
    /// The decimal 1.0 is an integer.
    ///
    /// # Errors
    ///
    /// Decoding errors.
    ///
    /// # Complexity
    ///
    /// O(1). Does not allocate.
    ///
    /// # Examples
    ///
    /// <!-- rows: calls: as_i64 -->
    /// | Document | Result |
    /// |---|---|
    /// | `1.0` | `1` |
    /// | `1.5` | none |
    #[inline(always)]
    pub fn as_i64(&self) -> Result<Option<i64>, Error>
        ensures value { (form : Form) (tree : Tree) → Decodes form (raw_bytes self.now) tree
            → IsOkAnd result (λ found. MatchOption found
            ((z : ℤ) → IsWholeNumber tree z → FitsSigned w64 z → ⊥)
            (λ z. IsWholeNumber tree z)) }
        ensures errors { IfErr result IsDecodingError }
        ensures reads { OnOk result (HasRootShape (raw_bytes self.now)) }
    {
        match root_shape(self.as_bytes())? {
            Shape::Number(number) => Ok(number.as_i64()),
            _ => Ok(None),
        }
    }

    /// Returns the number as a `u64`, or `None` if the root is not an integer that fits.
    ///
    /// The decimal 1.0 is an integer.
    ///
    /// # Errors
    ///
    /// Decoding errors.
    ///
    /// # Complexity
    ///
    /// O(1). Does not allocate.
    ///
    /// # Examples
    ///
    /// <!-- rows: calls: as_u64 -->
    /// | Document | Result |
    /// |---|---|
    /// | `1.0` | `1` |
    #[inline(always)]
    #[tactic(auto, using(crate::proofs::AnswerLemmas::no_whole))]
    pub fn as_u64(&self) -> Result<Option<u64>, Error>
        ensures value { (form : Form) (tree : Tree) → Decodes form (raw_bytes self.now) tree
            → IsOkAnd result (λ found. MatchOption found
            ((n : ℕ) → IsWholeNumber tree (pos n) → n < 2 ^ 64 → ⊥)
            (λ n. IsWholeNumber tree (pos n))) }
        ensures errors { IfErr result IsDecodingError }
        ensures reads { OnOk result (HasRootShape (raw_bytes self.now)) }
    {
        match root_shape(self.as_bytes())? {
            Shape::Number(number) => Ok(number.as_u64()),
            _ => Ok(None),
        }
    }
}

fn number_type(number: &Number) -> &'static str
    ensures { result.now ≡ type_name (spec.number (number_parts number.now)) }
{
    match number {
        Number::Int64(_) | Number::UInt64(_) => "INTEGER",
        Number::Decimal64(_) | Number::Decimal128(_) => "DECIMAL",
    }
}

fn extension_type(value: &ExtensionValue<'_>) -> &'static str
    ensures { result.now ≡ type_name (extension (extension_view value.now)) }
{
    match value {
        ExtensionValue::Binary(_) => "BINARY",
        ExtensionValue::Date(_) => "DATE",
        ExtensionValue::Timestamp(_) => "TIMESTAMP",
        ExtensionValue::TimestampTz(_) => "TIMESTAMP_TZ",
        ExtensionValue::Interval(_) => "INTERVAL",
    }
}
