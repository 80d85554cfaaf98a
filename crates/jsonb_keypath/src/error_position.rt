//! The position of the error in text that is not a key path.

ghost use Rattle.std.specs.Prelude.{◌≡◌, ◌≤◌, length, Some, option_map, IfOk, MatchResult};
ghost use Rattle.jsonb_doc.specs.Answer.{IsOutOfMemory};
ghost use Rattle.jsonb_keypath.specs.ErrorPosition.{key_front, closing_brace, after_keys, inside_front, key_path_front, key_path_error_position as spec_key_path_error_position};

use crate::parser::{keys_at, parse_key_paths};
use crate::token::{Ending, literal, skip_space, text_front_at};
use jsonb_doc::Error;
use std::alloc::{AllocError, Global};

/// Returns the position of the error in text that is not a key path, in bytes, or `None` if the text is a key path.
///
/// The position is the end of the longest list of steps that the text begins with, and of what follows it as far as
/// it is allowed there: a brace or a comma with white space, and in a quoted name or a name the bytes up to a
/// malformed escape or a missing quote. It is the length of the text if more text could complete it.
///
/// # Errors
///
/// `OutOfMemory` if an allocation fails.
///
/// # Complexity
///
/// O(n) for text of n bytes. Allocates; parses the text again.
///
/// # Examples
///
/// ```rust crates/jsonb_examples/src/configuration.rt
/// Ok(match key_path_error_position(alloc, path.as_bytes())? {
///     Some(at) => Some(format!(in alloc; "not a key path: see byte {at} of {path}")?),
///     None => None,
/// })
/// ```
pub fn key_path_error_position(alloc: Global, text: &[u8]) -> Result<Option<usize>, Error>
    ensures { MatchResult result
        (λ position. position ≡ spec_key_path_error_position text.now) IsOutOfMemory }
{
    match parse_key_paths(alloc, text) {
        Ok(_) => Ok(None),
        Err(Error::InvalidKeyPath) => {
            let rest = key_path_front_at(alloc, text)?;
            let position = text.len() - rest.len();
            Ok(Some(position))
        }
        Err(error) => Err(error),
    }
}

/// Reads as much of the text as a key path begins with.
#[tactic(auto, unfolding(crate::specs::ErrorPosition::key_path_front))]
fn key_path_front_at(alloc: Global, text: &[u8]) -> Result<&[u8], AllocError>
    ensures { IfOk result (λ rest. key_path_front text.now ≡ Some (tt, rest.now)) }
{
    let before = skip_space(text);
    match literal(b"{", before) {
        Some(inside) => inside_front_at(alloc, inside),
        None => Ok(before),
    }
}

#[tactic(auto, unfolding(crate::specs::ErrorPosition::inside_front))]
fn inside_front_at(alloc: Global, input: &[u8]) -> Result<&[u8], AllocError>
    ensures { IfOk result (λ rest. inside_front input.now ≡ Some (tt, rest.now)) }
{
    if let Some((_, rest)) = keys_at(alloc, input)? {
        return after_keys_at(alloc, rest);
    }
    let rest = skip_space(input);
    match closing_brace_at(rest) {
        Some(end) => Ok(end),
        None => key_front_at(alloc, rest),
    }
}

#[tactic(auto, unfolding(crate::specs::ErrorPosition::after_keys))]
fn after_keys_at(alloc: Global, input: &[u8]) -> Result<&[u8], AllocError>
    ensures { IfOk result (λ rest. after_keys input.now ≡ Some (tt, rest.now)) }
{
    if let Some(end) = closing_brace_at(input) {
        return Ok(end);
    }
    match literal(b",", input) {
        Some(after) => key_front_at(alloc, skip_space(after)),
        None => Ok(input),
    }
}

#[tactic(auto, unfolding(crate::specs::ErrorPosition::closing_brace))]
fn closing_brace_at(input: &[u8]) -> Option<&[u8]>
    ensures { option_map (λ rest. (tt, rest.now)) result ≡ closing_brace input.now }
{
    let end = literal(b"}", input)?;
    Some(skip_space(end))
}

/// Reads the beginning of a step that is not one.
#[tactic(auto, unfolding(crate::specs::ErrorPosition::key_front))]
fn key_front_at(alloc: Global, input: &[u8]) -> Result<&[u8], AllocError>
    ensures { IfOk result (λ rest. key_front input.now ≡ Some (tt, rest.now)) }
{
    match literal(b"\"", input) {
        Some(inside) => text_front_at(alloc, Ending::Quote, inside),
        None => text_front_at(alloc, Ending::Stop, input),
    }
}
