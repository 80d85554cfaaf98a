//! The functions on documents.

mod array;
mod cast;
pub(crate) mod entries;
mod joined;
mod object;
mod operator;
mod parts;
mod path;
mod runs;
mod scalar;

pub use self::operator::{
    composite_key, composite_key_wide, push_column_key, push_column_key_wide,
};
