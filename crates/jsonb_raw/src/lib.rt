//! Documents as bytes, borrowed or owned, and what is asked of them without decoding them whole.
#![tactic(auto)]

mod compared;
mod entry_start;
mod equal_items;
mod equality_key;
mod functions;
mod key_bytes;
mod key_kind;
pub mod laws;
mod level;
mod order;
mod owned;
mod packed;
mod raw;
mod sortable_key;
#[cfg(test)]
mod tests;

pub use functions::{composite_key, composite_key_wide, push_column_key, push_column_key_wide};
pub use owned::OwnedJsonb;
pub use raw::RawJsonb;
