//! The parser of key paths.
//!
//! There is a function for each rule of the grammar: a step, a step with white space around it, a list of steps
//! separated by commas, and the braces around the list.

ghost use Rattle.std.specs.Prelude.{◌≡◌, [], ◌⊎◌, Option, None, Some, option_map, IfOk, MatchResult};
ghost use Rattle.jsonb_doc.specs.declared.error.Error.TheVariants.{OutOfMemory, InvalidKeyPath};
ghost use Rattle.jsonb_keypath.specs.KeyPathGrammar.{key, spaced_key, key_list, some_keys, no_keys, key_path};
ghost use Rattle.jsonb_keypath.specs.Private.LaterKeys.{another_key};
ghost use Rattle.jsonb_keypath.specs.KeyPathViews.{key_view, key_paths_view};
ghost use Rattle.jsonb_keypath.specs.Private.KeysView.{keys_view};
ghost use Rattle.jsonb_keypath.specs.Views.{read_as, ConsumesInput};
ghost use Rattle.jsonb_doc.specs.Answer.{IsOutOfMemory, ◌or◌when◌};

use crate::key_path::{KeyPath, KeyPaths};
use crate::token::{int32, literal, name_at, quoted_at, skip_space};
use jsonb_doc::Error;
use std::alloc::{AllocError, Global};

/// Parses a key path: steps in braces, separated by commas, with white space around each, such as
/// ` { 1, a, "b c" } `. The input may be any bytes. docs/PATHS.md has the grammar.
///
/// A step is a 32-bit index, otherwise a quoted name, otherwise a name, so `99999999999` is a name. `{}` has no
/// steps. A string without escapes is borrowed from the input.
///
/// # Errors
///
/// `InvalidKeyPath` if and only if the grammar does not accept the whole input, unless an allocation fails; then
/// `OutOfMemory`.
///
/// # Complexity
///
/// O(n) for an input of n bytes. Allocates the list of steps, and strings with escapes.
///
/// # Examples
///
/// ```rust crates/jsonb_examples/src/configuration.rt
/// let steps = parse_key_paths(alloc, path.as_bytes())?;
/// configuration.get_by_keypath(alloc, steps.paths.iter())
/// ```
#[tactic(auto, unfolding(crate::specs::KeyPathGrammar::key_path))]
pub fn parse_key_paths(alloc: Global, input: &[u8]) -> Result<KeyPaths<'_>, Error>
    ensures { MatchResult result
        (λ found. key_path input.now ≡ Some (key_paths_view found))
        (IsOutOfMemory or InvalidKeyPath when (key_path input.now ≡ None)) }
{
    if let Some((paths, rest)) = some_keys_at(alloc, input)? {
        if !rest.is_empty() {
            return Err(Error::InvalidKeyPath);
        }
        return Ok(KeyPaths { paths });
    }
    match no_keys_at(input) {
        Some([]) => Ok(KeyPaths {
            paths: Vec::new(alloc),
        }),
        _ => Err(Error::InvalidKeyPath),
    }
}

/// Reads a step. Returns it and the bytes after it.
#[tactic(auto, unfolding(crate::specs::KeyPathGrammar::key))]
#[inline(always)]
fn key_at(alloc: Global, input: &[u8]) -> Result<Option<(KeyPath<'_>, &[u8])>, AllocError>
    ensures value { IfOk result (λ found. read_as key_view found ≡ key input.now) }
    ensures shrinks { IfOk result (ConsumesInput input.now) }
{
    if let Some((index, rest)) = int32(input) {
        return Ok(Some((KeyPath::Index(index), rest)));
    }
    if let Some((text, rest)) = quoted_at(alloc, input)? {
        return Ok(Some((KeyPath::QuotedName(text), rest)));
    }
    match name_at(alloc, input)? {
        Some((text, rest)) => Ok(Some((KeyPath::Name(text), rest))),
        None => Ok(None),
    }
}

/// Reads a step with white space around it.
#[tactic(auto, unfolding(crate::specs::KeyPathGrammar::spaced_key))]
#[inline(always)]
fn spaced_key_at(alloc: Global, input: &[u8]) -> Result<Option<(KeyPath<'_>, &[u8])>, AllocError>
    ensures value { IfOk result (λ found. read_as key_view found ≡ spaced_key input.now) }
    ensures shrinks { IfOk result (ConsumesInput input.now) }
{
    match key_at(alloc, skip_space(input))? {
        Some((key, rest)) => Ok(Some((key, skip_space(rest)))),
        None => Ok(None),
    }
}

/// Reads a comma and the step after it.
#[inline(always)]
fn another_key_at(alloc: Global, input: &[u8]) -> Result<Option<(KeyPath<'_>, &[u8])>, AllocError>
    ensures value { IfOk result (λ found. read_as key_view found ≡ another_key input.now) }
    ensures shrinks { IfOk result (ConsumesInput input.now) }
{
    match literal(b",", input) {
        Some(rest) => spaced_key_at(alloc, rest),
        None => Ok(None),
    }
}

/// Reads one or more steps, separated by commas. If no step follows a comma, they end before it.
#[inline(never)]
pub(crate) fn keys_at(
    alloc: Global,
    input: &[u8],
) -> Result<Option<(Vec<KeyPath<'_>>, &[u8])>, AllocError>
    ensures { IfOk result (λ found.
        read_as (λ keys. keys_view keys.items) found ≡ key_list input.now) }
{
    let Some((first, mut rest)) = spaced_key_at(alloc, input)? else {
        return Ok(None);
    };
    let mut keys = Vec::new(alloc);
    keys.push(first)?;
    while let Some((next, after)) = another_key_at(alloc, rest)? {
        keys.push(next)?;
        rest = after;
    }
    Ok(Some((keys, rest)))
}

/// Reads one or more steps in braces, with white space around the braces.
#[tactic(auto, unfolding(crate::specs::KeyPathGrammar::some_keys))]
fn some_keys_at(
    alloc: Global,
    input: &[u8],
) -> Result<Option<(Vec<KeyPath<'_>>, &[u8])>, AllocError>
    ensures { IfOk result (λ found.
        read_as (λ keys. keys_view keys.items) found ≡ some_keys input.now) }
{
    let Some(inside) = literal(b"{", skip_space(input)) else {
        return Ok(None);
    };
    let Some((keys, rest)) = keys_at(alloc, inside)? else {
        return Ok(None);
    };
    match literal(b"}", rest) {
        Some(end) => Ok(Some((keys, skip_space(end)))),
        None => Ok(None),
    }
}

/// Returns the bytes after a pair of empty braces.
#[tactic(auto, unfolding(crate::specs::KeyPathGrammar::no_keys))]
fn no_keys_at(input: &[u8]) -> Option<&[u8]>
    ensures { option_map (λ rest. ([], rest.now)) result ≡ no_keys input.now }
{
    let inside = literal(b"{", skip_space(input))?;
    let end = literal(b"}", skip_space(inside))?;
    Some(skip_space(end))
}
