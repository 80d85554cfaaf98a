//! The type of a document.

ghost use Rattle.std.specs.Prelude.{◌≡◌, IfErr, IsOkAnd};
ghost use Rattle.jsonb_doc.specs.Answer.{IsDecodingError};
ghost use Rattle.jsonb_doc.specs.Item.{IsNormal, StandsFor};
ghost use Rattle.jsonb_doc.specs.Payload.{Form};
ghost use Rattle.jsonb_doc.specs.Tree.{Tree};
ghost use Rattle.jsonb_doc.specs.View.{extension_view, number_parts};
ghost use Rattle.jsonb_c.specs.Answers.{OfDocument, ShowsValue, WritesResult};
ghost use Rattle.jsonb_c.specs.Kinds.{IsTypeOf};
ghost use Rattle.jsonb_c.specs.Private.Numbers.{extension_kind, kind_number, number_kind, tree_kind};

use crate::deliver::store;
use jsonb::{Error, ExtensionValue, Item, Number, root_item};

/// The types of documents, by the names of `type_of`.
#[derive(Clone, Copy, Debug, PartialEq, Eq)]
pub(crate) enum Kind {
    /// The value null.
    Null,
    /// A Boolean.
    Boolean,
    /// An integer.
    Integer,
    /// A decimal.
    Decimal,
    /// A string.
    String,
    /// A binary value.
    Binary,
    /// A date.
    Date,
    /// A timestamp without a time zone.
    Timestamp,
    /// A timestamp with a time zone.
    TimestampTz,
    /// An interval.
    Interval,
    /// An array.
    Array,
    /// An object.
    Object,
}

impl Kind {
    pub(crate) fn to_u8(self) -> u8
        ensures { result ≡ kind_number self }
    {
        match self {
            Kind::Null => 0,
            Kind::Boolean => 1,
            Kind::Integer => 2,
            Kind::Decimal => 3,
            Kind::String => 4,
            Kind::Binary => 5,
            Kind::Date => 6,
            Kind::Timestamp => 7,
            Kind::TimestampTz => 8,
            Kind::Interval => 9,
            Kind::Array => 10,
            Kind::Object => 11,
        }
    }
}

/// Returns the type of a document.
#[unsafe(no_mangle)]
pub extern "C" fn jdoc_type(document: &[u8], kind: &mut u8) -> u32
    ensures { WritesResult
        (OfDocument document.now (λ form t answer. IsOkAnd answer (IsTypeOf t)))
        IsDecodingError (ShowsValue kind.old kind.new result) }
{
    store(kind_of(document), kind)
}

fn kind_of(document: &[u8]) -> Result<u8, Error>
    ensures kind { OfDocument document.now
        (λ form t answer. IsOkAnd answer (IsTypeOf t)) result }
    ensures errors { IfErr result IsDecodingError }
{
    let item = root_item(document)?;
    Ok(item_kind(&item).to_u8())
}

/// Returns the type of an item.
pub(crate) fn item_kind(item: &Item<'_>) -> Kind
    ensures { (form : Form) (t : Tree) → IsNormal item.now → StandsFor form item.now t → result ≡ tree_kind t }
{
    match item {
        Item::Null => Kind::Null,
        Item::Boolean(_) => Kind::Boolean,
        Item::Number(number) => number_kind(number),
        Item::String(_) => Kind::String,
        Item::Extension(value) => extension_kind(value),
        Item::Array(_) => Kind::Array,
        Item::Object(_) => Kind::Object,
    }
}

fn number_kind(number: &Number) -> Kind
    ensures { result ≡ number_kind (number_parts number.now).variant }
{
    match number {
        Number::Int64(_) | Number::UInt64(_) => Kind::Integer,
        Number::Decimal64(_) | Number::Decimal128(_) => Kind::Decimal,
    }
}

fn extension_kind(value: &ExtensionValue<'_>) -> Kind
    ensures { result ≡ extension_kind (extension_view value.now) }
{
    match value {
        ExtensionValue::Binary(_) => Kind::Binary,
        ExtensionValue::Date(_) => Kind::Date,
        ExtensionValue::Timestamp(_) => Kind::Timestamp,
        ExtensionValue::TimestampTz(_) => Kind::TimestampTz,
        ExtensionValue::Interval(_) => Kind::Interval,
    }
}
