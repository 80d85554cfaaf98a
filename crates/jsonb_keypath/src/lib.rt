//! Key paths: text such as `{a,1,"b c"}` that locates a value in a document.
#![tactic(auto)]

mod display;
mod error_position;
mod key_path;
pub mod laws;
mod owned;
mod parser;
pub mod token;

pub use self::error_position::key_path_error_position;
pub use self::key_path::{KeyPath, KeyPaths};
pub use self::owned::{OwnedKeyPath, OwnedKeyPaths};
pub use self::parser::parse_key_paths;
pub use self::token::{read_name, read_quoted};

#[cfg(test)]
mod tests;
