//! Fifteen documents, made by hand from the format, and tests that go over all of them, whole
//! and damaged.
#![tactic(auto)]

mod documents;
#[cfg(test)]
mod tests;

pub use self::documents::{DOCUMENTS, Document};
