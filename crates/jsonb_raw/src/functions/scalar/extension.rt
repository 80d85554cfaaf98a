//! The values that JSON itself lacks, as the root of a document: their types and their values.
//!
//! On bytes that do not decode each function returns; its result is not specified. Only the root is read.

ghost use Rattle.std.specs.Prelude.{◌≡◌, ◌↔◌, ℕ, ℤ, List, IsTrue, IfErr, IsOkAnd, MatchResult, OnOk, option_map};
ghost use Rattle.jsonb_doc.specs.Extension.{binary, date, timestamp, timestamp_tz, interval};
ghost use Rattle.jsonb_doc.specs.Tree.{Tree, extension};
ghost use Rattle.jsonb_doc.specs.Payload.{Form};
ghost use Rattle.jsonb_doc.specs.Format.{Decodes};
ghost use Rattle.jsonb_doc.specs.Answer.{◌or◌, IsDecodingError, IsOutOfMemory};
ghost use Rattle.jsonb_doc.specs.View.{extension_view};
ghost use Rattle.jsonb_raw.specs.Computes.{Computes};
ghost use Rattle.jsonb_raw.specs.Documents.{raw_bytes};
ghost use Rattle.jsonb_raw.specs.AnyBytes.Roots.{HasRootShape};
ghost use Rattle.jsonb_doc.specs.declared.error.Error.TheVariants.{OutOfMemory};
ghost use Rattle.jsonb_raw.specs.Scalars.{FindsAny, is_extension_value};

use crate::raw::RawJsonb;
use jsonb_doc::{Date, Error, ExtensionValue, Interval, Shape, Timestamp, TimestampTz, root_shape};
use std::alloc::Global;

impl<'a> RawJsonb<'a> {
    /// Returns `true` if the root is an extension value: binary, a date, a timestamp or an interval.
    ///
    /// # Errors
    ///
    /// Decoding errors.
    ///
    /// # Complexity
    ///
    /// O(1). Does not allocate.
    ///
    /// # Examples
    ///
    /// ```rust crates/jsonb_examples/src/calls.rt
    /// if !value.is_extension_value()? {
    ///     return Ok("JSONB");
    /// }
    /// ```
    pub fn is_extension_value(&self) -> Result<bool, Error>
        ensures kind { Computes is_extension_value (raw_bytes self.now) result }
        ensures errors { IfErr result IsDecodingError }
        ensures reads { OnOk result (HasRootShape (raw_bytes self.now)) }
    {
        Ok(matches!(root_shape(self.as_bytes())?, Shape::Extension(_)))
    }

    /// Returns `true` if the root is binary.
    ///
    /// # Errors
    ///
    /// Decoding errors.
    ///
    /// # Complexity
    ///
    /// O(1). Does not allocate.
    ///
    /// # Examples
    ///
    /// ```rust crates/jsonb_examples/src/calls.rt
    /// if value.is_binary()? {
    ///     return Ok("BYTEA");
    /// }
    /// ```
    pub fn is_binary(&self) -> Result<bool, Error>
        ensures kind { (form : Form) (tree : Tree) → Decodes form (raw_bytes self.now) tree
            → IsOkAnd result (λ b. IsTrue b ↔ ((bytes : List ℕ) × (tree ≡ extension (binary bytes)))) }
        ensures errors { IfErr result IsDecodingError }
        ensures reads { OnOk result (HasRootShape (raw_bytes self.now)) }
    {
        Ok(matches!(
            root_shape(self.as_bytes())?,
            Shape::Extension(ExtensionValue::Binary(_))
        ))
    }

    /// Returns `true` if the root is a date.
    ///
    /// # Errors
    ///
    /// Decoding errors.
    ///
    /// # Complexity
    ///
    /// O(1). Does not allocate.
    ///
    /// # Examples
    ///
    /// ```rust crates/jsonb_examples/src/calls.rt
    /// if value.is_date()? {
    ///     return Ok("DATE");
    /// }
    /// ```
    pub fn is_date(&self) -> Result<bool, Error>
        ensures kind { (form : Form) (tree : Tree) → Decodes form (raw_bytes self.now) tree
            → IsOkAnd result (λ b. IsTrue b ↔ ((value : ℤ) × (tree ≡ extension (date value)))) }
        ensures errors { IfErr result IsDecodingError }
        ensures reads { OnOk result (HasRootShape (raw_bytes self.now)) }
    {
        Ok(matches!(
            root_shape(self.as_bytes())?,
            Shape::Extension(ExtensionValue::Date(_))
        ))
    }

    /// Returns `true` if the root is a timestamp without a time zone.
    ///
    /// # Errors
    ///
    /// Decoding errors.
    ///
    /// # Complexity
    ///
    /// O(1). Does not allocate.
    ///
    /// # Examples
    ///
    /// ```rust crates/jsonb_examples/src/calls.rt
    /// if value.is_timestamp()? {
    ///     return Ok("TIMESTAMP");
    /// }
    /// ```
    pub fn is_timestamp(&self) -> Result<bool, Error>
        ensures kind { (form : Form) (tree : Tree) → Decodes form (raw_bytes self.now) tree
            → IsOkAnd result (λ b. IsTrue b ↔ ((value : ℤ) × (tree ≡ extension (timestamp value)))) }
        ensures errors { IfErr result IsDecodingError }
        ensures reads { OnOk result (HasRootShape (raw_bytes self.now)) }
    {
        Ok(matches!(
            root_shape(self.as_bytes())?,
            Shape::Extension(ExtensionValue::Timestamp(_))
        ))
    }

    /// Returns `true` if the root is a timestamp with a time zone.
    ///
    /// # Errors
    ///
    /// Decoding errors.
    ///
    /// # Complexity
    ///
    /// O(1). Does not allocate.
    ///
    /// # Examples
    ///
    /// ```rust crates/jsonb_examples/src/calls.rt
    /// if value.is_timestamp_tz()? {
    ///     return Ok("TIMESTAMP WITH TIME ZONE");
    /// }
    /// ```
    pub fn is_timestamp_tz(&self) -> Result<bool, Error>
        ensures kind { (form : Form) (tree : Tree) → Decodes form (raw_bytes self.now) tree
            → IsOkAnd result (λ b. IsTrue b ↔ ((offset value : ℤ) × (tree ≡ extension (timestamp_tz offset value)))) }
        ensures errors { IfErr result IsDecodingError }
        ensures reads { OnOk result (HasRootShape (raw_bytes self.now)) }
    {
        Ok(matches!(
            root_shape(self.as_bytes())?,
            Shape::Extension(ExtensionValue::TimestampTz(_))
        ))
    }

    /// Returns `true` if the root is an interval.
    ///
    /// # Errors
    ///
    /// Decoding errors.
    ///
    /// # Complexity
    ///
    /// O(1). Does not allocate.
    ///
    /// # Examples
    ///
    /// ```rust crates/jsonb_examples/src/calls.rt
    /// if value.is_interval()? {
    ///     return Ok("INTERVAL");
    /// }
    /// ```
    pub fn is_interval(&self) -> Result<bool, Error>
        ensures kind { (form : Form) (tree : Tree) → Decodes form (raw_bytes self.now) tree
            → IsOkAnd result (λ b. IsTrue b
            ↔ ((months days micros : ℤ) × (tree ≡ extension (interval months days micros)))) }
        ensures errors { IfErr result IsDecodingError }
        ensures reads { OnOk result (HasRootShape (raw_bytes self.now)) }
    {
        Ok(matches!(
            root_shape(self.as_bytes())?,
            Shape::Extension(ExtensionValue::Interval(_))
        ))
    }

    /// Returns the extension value, or `None` if the root is of another type.
    ///
    /// # Errors
    ///
    /// Decoding errors.
    ///
    /// # Complexity
    ///
    /// O(1). Does not allocate.
    ///
    /// # Examples
    ///
    /// ```rust crates/jsonb_examples/src/calls.rt
    /// let Some(extension) = value.as_extension_value()? else {
    ///     return Ok(None);
    /// };
    /// let text = match extension {
    ///     ExtensionValue::Binary(bytes) => format!(in alloc; "{} bytes", bytes.len())?,
    ///     ExtensionValue::Date(date) => format!(in alloc; "day {}", date.value)?,
    /// ```
    pub fn as_extension_value(&self) -> Result<Option<ExtensionValue<'a>>, Error>
        ensures value { (form : Form) (tree : Tree) → Decodes form (raw_bytes self.now) tree
            → IsOkAnd result (λ found. FindsAny (λ x. tree ≡ extension x) (option_map extension_view found)) }
        ensures errors { IfErr result IsDecodingError }
        ensures reads { OnOk result (HasRootShape (raw_bytes self.now)) }
    {
        match root_shape(self.as_bytes())? {
            Shape::Extension(value) => Ok(Some(value)),
            _ => Ok(None),
        }
    }

    /// Returns the date, or `None` if the root is of another type.
    ///
    /// # Errors
    ///
    /// Decoding errors.
    ///
    /// # Complexity
    ///
    /// O(1). Does not allocate.
    ///
    /// # Examples
    ///
    /// ```rust crates/jsonb_examples/src/calls.rt
    /// let date = value.as_date()?;
    /// Ok(date.map(|it| it.value))
    /// ```
    pub fn as_date(&self) -> Result<Option<Date>, Error>
        ensures value { (form : Form) (tree : Tree) → Decodes form (raw_bytes self.now) tree
            → IsOkAnd result (FindsAny (λ day. tree ≡ extension (date day.value))) }
        ensures errors { IfErr result IsDecodingError }
        ensures reads { OnOk result (HasRootShape (raw_bytes self.now)) }
    {
        match root_shape(self.as_bytes())? {
            Shape::Extension(ExtensionValue::Date(date)) => Ok(Some(date)),
            _ => Ok(None),
        }
    }

    /// Returns the timestamp without a time zone, or `None` if the root is of another type.
    ///
    /// # Errors
    ///
    /// Decoding errors.
    ///
    /// # Complexity
    ///
    /// O(1). Does not allocate.
    ///
    /// # Examples
    ///
    /// ```rust crates/jsonb_examples/src/calls.rt
    /// if let Some(time) = value.as_timestamp()? {
    ///     return Ok(Some(time.value));
    /// }
    /// ```
    pub fn as_timestamp(&self) -> Result<Option<Timestamp>, Error>
        ensures value { (form : Form) (tree : Tree) → Decodes form (raw_bytes self.now) tree
            → IsOkAnd result (FindsAny (λ time. tree ≡ extension (timestamp time.value))) }
        ensures errors { IfErr result IsDecodingError }
        ensures reads { OnOk result (HasRootShape (raw_bytes self.now)) }
    {
        match root_shape(self.as_bytes())? {
            Shape::Extension(ExtensionValue::Timestamp(timestamp)) => Ok(Some(timestamp)),
            _ => Ok(None),
        }
    }

    /// Returns the timestamp with a time zone, or `None` if the root is of another type.
    ///
    /// # Errors
    ///
    /// Decoding errors.
    ///
    /// # Complexity
    ///
    /// O(1). Does not allocate.
    ///
    /// # Examples
    ///
    /// ```rust crates/jsonb_examples/src/calls.rt
    /// match value.as_timestamp_tz()? {
    ///     Some(time) => Ok(Some(time.value)),
    ///     None => Ok(None),
    /// }
    /// ```
    pub fn as_timestamp_tz(&self) -> Result<Option<TimestampTz>, Error>
        ensures value { (form : Form) (tree : Tree) → Decodes form (raw_bytes self.now) tree
            → IsOkAnd result (FindsAny (λ time. tree ≡ extension (timestamp_tz time.offset time.value))) }
        ensures errors { IfErr result IsDecodingError }
        ensures reads { OnOk result (HasRootShape (raw_bytes self.now)) }
    {
        match root_shape(self.as_bytes())? {
            Shape::Extension(ExtensionValue::TimestampTz(timestamp)) => Ok(Some(timestamp)),
            _ => Ok(None),
        }
    }

    /// Returns the interval, or `None` if the root is of another type.
    ///
    /// # Errors
    ///
    /// Decoding errors.
    ///
    /// # Complexity
    ///
    /// O(1). Does not allocate.
    ///
    /// # Examples
    ///
    /// ```rust crates/jsonb_examples/src/calls.rt
    /// match value.as_interval()? {
    ///     Some(period) => Ok(Some((period.months, period.days))),
    ///     None => Ok(None),
    /// }
    /// ```
    pub fn as_interval(&self) -> Result<Option<Interval>, Error>
        ensures value { (form : Form) (tree : Tree) → Decodes form (raw_bytes self.now) tree
            → IsOkAnd result (FindsAny (λ time. tree ≡ extension (interval time.months time.days time.micros))) }
        ensures errors { IfErr result IsDecodingError }
        ensures reads { OnOk result (HasRootShape (raw_bytes self.now)) }
    {
        match root_shape(self.as_bytes())? {
            Shape::Extension(ExtensionValue::Interval(interval)) => Ok(Some(interval)),
            _ => Ok(None),
        }
    }

    /// Returns a copy of the bytes of a binary value, or `None` if the root is of another type.
    ///
    /// # Errors
    ///
    /// Allocation errors.
    ///
    /// # Complexity
    ///
    /// O(n). Allocates; the bytes are copied.
    ///
    /// # Examples
    ///
    /// ```rust crates/jsonb_examples/src/calls.rt
    /// match value.as_binary(alloc)? {
    ///     Some(bytes) => Ok(bytes),
    ///     None => Ok(Vec::new(alloc)),
    /// }
    /// ```
    pub fn as_binary(&self, alloc: Global) -> Result<Option<Vec<u8>>, Error>
        ensures value { (form : Form) (tree : Tree) → Decodes form (raw_bytes self.now) tree
            → MatchResult result
            (λ found. FindsAny (λ bytes. tree ≡ extension (binary bytes)) (option_map (λ copy. copy.items) found))
            (λ e. IsOutOfMemory e × ((bytes : List ℕ) × (tree ≡ extension (binary bytes)))) }
        ensures errors { IfErr result (IsDecodingError or OutOfMemory) }
        ensures reads { OnOk result (HasRootShape (raw_bytes self.now)) }
    {
        match root_shape(self.as_bytes())? {
            Shape::Extension(ExtensionValue::Binary(bytes)) => {
                Ok(Some(Vec::from_slice(alloc, bytes)?))
            }
            _ => Ok(None),
        }
    }
}
