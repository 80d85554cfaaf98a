//! JSON paths: parsed from text, printed, built by hand, and evaluated on documents.
//!
//! The types of paths are in `path`, `parse_json_path` in `parser`, and their evaluation in `selector`; all are also
//! here. What callers need of the crates below is re-exported: documents, numbers and key paths here, key paths also in
//! `keypath`.
#![tactic(auto)]

pub mod laws;
pub mod parser;
pub mod path;
pub mod selector;

pub use self::parser::{json_path_error_position, parse_json_path};
pub use self::path::{
    ArrayIndex, BinaryOperator, Expr, Index, JsonPath, Path, PathValue, RecursiveLevel,
    RecursiveLevelEnd, UnaryOperator,
};
pub use self::selector::{
    FirstItem, FoundItem, LimitError, LimitedSelector, SelectByPath, Selector,
};
pub use jsonb_doc::{
    ArithmeticFault, ArrayBuilder, Child, ChildPositions, Date, Decimal64, Decimal128,
    DocumentBuilder, ElementIter, EntryPositions, Error, EventError, ExtensionValue, Interval,
    Item, KeyIter, Number, ObjectBuilder, PairIter, Spot, SpotIter, TextEvent, Timestamp,
    TimestampTz, Value, ValueIter, check, check_depth, child_spots, depth, document_from_events,
    elements, encode_item, field_spot, keys, open_children, pairs, root_item, root_spot,
    spot_document, spot_item, to_value, values,
};
pub use jsonb_keypath as keypath;
pub use jsonb_keypath::{
    KeyPath, KeyPaths, OwnedKeyPath, OwnedKeyPaths, key_path_error_position, parse_key_paths,
    read_name, read_quoted,
};
pub use jsonb_raw::{
    OwnedJsonb, RawJsonb, composite_key, composite_key_wide, push_column_key, push_column_key_wide,
};

#[cfg(test)]
mod tests;
