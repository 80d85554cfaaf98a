//! Parsing of paths that are kept. Their strings are copied, so that the text may be freed.

ghost use Rattle.std.specs.Prelude.{◌≡◌, IfOk, IsSomeAnd, MatchResult, Some, None};
ghost use Rattle.jsonb_doc.specs.Answer.{IsOutOfMemory, ◌or◌when◌};
ghost use Rattle.jsonb_doc.specs.declared.error.Error.TheVariants.{InvalidJsonPath, InvalidKeyPath};
ghost use Rattle.jsonb.specs.KeyPathGrammar.{key_path};
ghost use Rattle.jsonb.specs.KeyPathViews.{key_view, key_paths_view};
ghost use Rattle.jsonb.specs.PathGrammar.{json_path};
ghost use Rattle.jsonb_c.specs.Representation.Prepared.{json_limit, json_steps, key_steps};
ghost use Rattle.jsonb_c.specs.Private.Boxes.{IsTextRefusal};
ghost use Rattle.jsonb_c.specs.declared.status.Status.TheVariants.{NotJsonPath, Refused};

use super::path::{LimitedPath, PreparedPath};
use crate::status::Status;
use jsonb::{Error, KeyPath, KeyPaths, OwnedKeyPath, parse_json_path, parse_key_paths};
use std::alloc::Global;
use std::borrow::CowStr;

/// Parses a JSON path, which has no limit. Fails with the status of the text.
pub(crate) fn parse_json(alloc: Global, text: &[u8]) -> Result<Box<PreparedPath>, Status>
    ensures path { MatchResult result
        (λ made. IsSomeAnd (json_steps (Some made.value)) (λ steps. json_path text.now ≡ Some steps))
        (IsTextRefusal NotJsonPath (json_path text.now)) }
    ensures limit { IfOk result (λ made. json_limit (Some made.value) ≡ None) }
{
    match boxed_json(alloc, text) {
        Ok(path) => Ok(path),
        Err(error) => Err(Status::of_text(error)),
    }
}

fn boxed_json(alloc: Global, text: &[u8]) -> Result<Box<PreparedPath>, Error>
    ensures path { MatchResult result
        (λ made. IsSomeAnd (json_steps (Some made.value)) (λ steps. json_path text.now ≡ Some steps))
        (IsOutOfMemory or InvalidJsonPath when (json_path text.now ≡ None)) }
    ensures limit { IfOk result (λ made. json_limit (Some made.value) ≡ None) }
{
    let path = parse_json_path(alloc, text)?;
    let copy = path.to_owned(alloc)?;
    let kept = LimitedPath {
        path: copy,
        limit: None,
    };
    Ok(Box::new(alloc, PreparedPath::Json(kept))?)
}

/// Parses a key path. Fails with the status of the text.
pub(crate) fn parse_keys(alloc: Global, text: &[u8]) -> Result<Box<PreparedPath>, Status>
    ensures { MatchResult result
        (λ made. IsSomeAnd (key_steps (Some made.value)) (λ steps. key_path text.now ≡ Some steps))
        (IsTextRefusal (Refused InvalidKeyPath) (key_path text.now)) }
{
    match boxed_keys(alloc, text) {
        Ok(path) => Ok(path),
        Err(error) => Err(Status::of_text(error)),
    }
}

fn boxed_keys(alloc: Global, text: &[u8]) -> Result<Box<PreparedPath>, Error>
    ensures { MatchResult result
        (λ made. IsSomeAnd (key_steps (Some made.value)) (λ steps. key_path text.now ≡ Some steps))
        (IsOutOfMemory or InvalidKeyPath when (key_path text.now ≡ None)) }
{
    let steps = parse_key_paths(alloc, text)?;
    let copy = owned_steps(alloc, &steps)?;
    Ok(Box::new(alloc, PreparedPath::Keys(copy))?)
}

/// Copies steps, with owned strings.
fn owned_steps(alloc: Global, steps: &KeyPaths<'_>) -> Result<KeyPaths<'static>, Error>
    ensures { MatchResult result (λ copy. key_paths_view copy ≡ key_paths_view steps.now) IsOutOfMemory }
{
    let mut paths = Vec::with_capacity(alloc, steps.paths.len())?;
    for step in &steps.paths {
        paths.push(owned_step(alloc, step)?)?;
    }
    Ok(KeyPaths { paths })
}

/// Copies a step, with an owned string.
fn owned_step(alloc: Global, step: &KeyPath<'_>) -> Result<KeyPath<'static>, Error>
    ensures { MatchResult result (λ copy. key_view copy ≡ key_view step.now) IsOutOfMemory }
{
    match step.to_owned(alloc)? {
        OwnedKeyPath::Index(index) => Ok(KeyPath::Index(index)),
        OwnedKeyPath::QuotedName(name) => Ok(KeyPath::QuotedName(CowStr::Owned(name))),
        OwnedKeyPath::Name(name) => Ok(KeyPath::Name(CowStr::Owned(name))),
    }
}
