//! Why a path or a line has no result, for standard error.

use hex::FromHexError;
use jsonb::{Error, json_path_error_position, key_path_error_position};
use std::alloc::Global;
use std::fmt;

/// Why a path or a line has no result. It prints as what the user reads.
#[derive(Clone, Copy, Debug, PartialEq, Eq)]
pub enum Problem {
    /// The line is not hexadecimal.
    Digits(FromHexError),
    /// The text is not a key path.
    KeyPath { at: usize },
    /// The text is not a JSON path.
    JsonPath { at: usize },
    /// The command failed on the document, or an allocation failed.
    Refused(Error),
}

impl Problem {
    /// Returns why text is not a key path, if parsing it failed with this error.
    pub fn of_key_path(alloc: Global, text: &[u8], error: Error) -> Problem {
        match key_path_error_position(alloc, text) {
            Ok(Some(at)) => Problem::KeyPath { at },
            Ok(None) | Err(_) => Problem::Refused(error),
        }
    }

    /// Returns why text is not a JSON path, if parsing it failed with this error.
    pub fn of_json_path(alloc: Global, text: &[u8], error: Error) -> Problem {
        match json_path_error_position(alloc, text) {
            Ok(Some(at)) => Problem::JsonPath { at },
            Ok(None) | Err(_) => Problem::Refused(error),
        }
    }

    /// Returns the error that standard output names, or `None` for `usage`.
    pub fn error(&self) -> Option<Error> {
        match *self {
            Problem::Digits(_) => None,
            Problem::KeyPath { .. } => Some(Error::InvalidKeyPath),
            Problem::JsonPath { .. } => Some(Error::InvalidJsonPath),
            Problem::Refused(error) => Some(error),
        }
    }
}

impl From<Error> for Problem {
    fn from(error: Error) -> Problem {
        Problem::Refused(error)
    }
}

impl From<FromHexError> for Problem {
    fn from(error: FromHexError) -> Problem {
        Problem::Digits(error)
    }
}

impl fmt::Display for Problem {
    fn fmt<W: fmt::Write>(&self, f: &mut fmt::Formatter<W>) -> fmt::Result {
        match self {
            Problem::Digits(error) => write!(f, "not hexadecimal: {error}"),
            Problem::KeyPath { at } => write!(f, "not a key path: error at byte {at}"),
            Problem::JsonPath { at } => write!(f, "not a JSON path: error at byte {at}"),
            Problem::Refused(error) => f.write_str(meaning(*error)),
        }
    }
}

/// What an error of a command means.
fn meaning(error: Error) -> &'static str {
    match error {
        Error::InvalidJsonb => "not a document",
        Error::UnsupportedNumber => "the document has a float or a 256-bit decimal",
        Error::InvalidJsonPath => "the JSON path cannot be evaluated on this document",
        Error::Arithmetic(_) => "arithmetic of the JSON path fails on this document",
        Error::TooLarge => "an item is too large for a document",
        Error::TooDeep => "an item is nested too deeply for a sortable key",
        _ => "an allocation failed",
    }
}
