//! What is asked of each document, read from the words of a command line.

use crate::problem::Problem;
use jsonb::{JsonPath, KeyPaths, parse_json_path, parse_key_paths};
use std::alloc::Global;

/// A question, with its path read once for all documents.
#[derive(Drop)]
pub enum Question<'w> {
    /// The document at the place of a key path.
    Get(KeyPaths<'w>),
    /// What a JSON path selects.
    Select(JsonPath<'w>),
    /// What a JSON path says as a predicate.
    Match(JsonPath<'w>),
    /// The sortable key.
    Key,
}

impl<'w> Question<'w> {
    /// Returns the command of the arguments, or `None`. Fails if its path does not parse.
    pub fn read(alloc: Global, words: &'w [String]) -> Result<Option<Question<'w>>, Problem> {
        match words {
            [name, path] if name.as_str() == "get" => {
                Ok(Some(Question::Get(key_paths(alloc, path.as_str().as_bytes())?)))
            }
            [name, path] if name.as_str() == "select" => {
                Ok(Some(Question::Select(json_path(alloc, path.as_str().as_bytes())?)))
            }
            [name, path] if name.as_str() == "match" => {
                Ok(Some(Question::Match(json_path(alloc, path.as_str().as_bytes())?)))
            }
            [name] if name.as_str() == "key" => Ok(Some(Question::Key)),
            _ => Ok(None),
        }
    }
}

fn key_paths(alloc: Global, text: &[u8]) -> Result<KeyPaths<'_>, Problem> {
    match parse_key_paths(alloc, text) {
        Ok(steps) => Ok(steps),
        Err(error) => Err(Problem::of_key_path(alloc, text, error)),
    }
}

fn json_path(alloc: Global, text: &[u8]) -> Result<JsonPath<'_>, Problem> {
    match parse_json_path(alloc, text) {
        Ok(path) => Ok(path),
        Err(error) => Err(Problem::of_json_path(alloc, text, error)),
    }
}
