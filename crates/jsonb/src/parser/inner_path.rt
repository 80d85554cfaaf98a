//! Steps without an expression.

ghost use Rattle.std.specs.Prelude.{◌≡◌, ◌≤◌, ◌++◌, length, Some, None, IfOk};
ghost use Rattle.jsonb_keypath.specs.Rules.{parsed_map, repeat};
ghost use Rattle.jsonb.specs.PathGrammar.{level_end, levels, wildcard, named_field, bracket_field, inner, spaced_inner, path_step};
ghost use Rattle.jsonb_keypath.specs.Views.{read_as, ConsumesInput};
ghost use Rattle.jsonb.specs.PathViews.{step_view, steps_view};

use super::Reading;
use super::index::entries_at;
use super::token::{field_at, keyword_at, quoted_at};
use crate::path::{Path, RecursiveLevel, RecursiveLevelEnd};
use jsonb_keypath::token::{literal, nat8, skip_space};
use std::alloc::{AllocError, Global};

#[tactic(auto, unfolding(crate::specs::PathGrammar::levels))]
fn levels_at(input: &[u8]) -> Option<(RecursiveLevel, &[u8])>
    ensures value { read_as (λ x. x) result ≡ levels input.now }
    ensures shrinks { ConsumesInput input.now result }
{
    let inside = literal(b"{", input)?;
    let (start, behind) = nat8(skip_space(inside))?;
    let (end, rest) = match level_end_at(behind) {
        Some((end, rest)) => (Some(end), rest),
        None => (None, behind),
    };
    let closed = literal(b"}", skip_space(rest))?;
    Some((RecursiveLevel { start, end }, closed))
}

fn level_end_at(input: &[u8]) -> Option<(RecursiveLevelEnd, &[u8])>
    ensures value { read_as (λ x. x) result ≡ level_end input.now }
    ensures shrinks { ConsumesInput input.now result }
{
    let after = skip_space(keyword_at(b"to", skip_space(input))?);
    if let Some((level, rest)) = nat8(after) {
        return Some((RecursiveLevelEnd::Index(level), rest));
    }
    let rest = keyword_at(b"last", after)?;
    Some((RecursiveLevelEnd::Last, rest))
}

#[tactic(auto, unfolding(crate::specs::PathGrammar::wildcard))]
fn wildcard_at(input: &[u8]) -> Option<(Path<'_>, &[u8])>
    ensures value { read_as step_view result ≡ wildcard input.now }
    ensures shrinks { ConsumesInput input.now result }
{
    if let Some(rest) = literal(b".**", input) {
        return match levels_at(rest) {
            Some((found, after)) => Some((Path::RecursiveDotWildcard(Some(found)), after)),
            None => Some((Path::RecursiveDotWildcard(None), rest)),
        };
    }
    if let Some(rest) = literal(b".*", input) {
        return Some((Path::DotWildcard, rest));
    }
    let inside = literal(b"[", input)?;
    let star = literal(b"*", skip_space(inside))?;
    let end = literal(b"]", skip_space(star))?;
    Some((Path::BracketWildcard, end))
}

#[tactic(auto, unfolding(crate::specs::PathGrammar::named_field))]
fn named_field_at(alloc: Global, input: &[u8]) -> Reading<'_, Path<'_>>
    ensures value { IfOk result (λ found. read_as step_view found ≡ named_field input.now) }
    ensures shrinks { IfOk result (ConsumesInput input.now) }
{
    if let Some(rest) = literal(b":", input) {
        if let Some((text, end)) = field_at(alloc, rest)? {
            return Ok(Some((Path::ColonField(text), end)));
        }
    }
    if let Some(rest) = literal(b".", input) {
        if let Some((text, end)) = field_at(alloc, rest)? {
            return Ok(Some((Path::DotField(text), end)));
        }
    }
    Ok(None)
}

#[tactic(auto, unfolding(crate::specs::PathGrammar::bracket_field))]
fn bracket_field_at(alloc: Global, input: &[u8]) -> Reading<'_, Path<'_>>
    ensures value { IfOk result (λ found. read_as step_view found ≡ bracket_field input.now) }
    ensures shrinks { IfOk result (ConsumesInput input.now) }
{
    let Some(inside) = literal(b"[", input) else {
        return Ok(None);
    };
    let Some((text, rest)) = quoted_at(alloc, skip_space(inside))? else {
        return Ok(None);
    };
    match literal(b"]", skip_space(rest)) {
        Some(end) => Ok(Some((Path::ObjectField(text), end))),
        None => Ok(None),
    }
}

#[tactic(auto, unfolding(crate::specs::PathGrammar::inner))]
fn inner_at(alloc: Global, input: &[u8]) -> Reading<'_, Path<'_>>
    ensures value { IfOk result (λ found. read_as step_view found ≡ inner input.now) }
    ensures shrinks { IfOk result (ConsumesInput input.now) }
{
    if let Some((path, rest)) = wildcard_at(input) {
        return Ok(Some((path, rest)));
    }
    if let Some((path, rest)) = named_field_at(alloc, input)? {
        return Ok(Some((path, rest)));
    }
    if let Some((found, rest)) = entries_at(alloc, input)? {
        return Ok(Some((Path::ArrayIndices(found), rest)));
    }
    bracket_field_at(alloc, input)
}

#[tactic(auto, unfolding(crate::specs::PathGrammar::spaced_inner))]
pub(super) fn spaced_inner_at(alloc: Global, input: &[u8]) -> Reading<'_, Path<'_>>
    ensures value { IfOk result (λ found. read_as step_view found ≡ spaced_inner input.now) }
    ensures shrinks { IfOk result (ConsumesInput input.now) }
{
    match inner_at(alloc, skip_space(input))? {
        Some((path, rest)) => Ok(Some((path, skip_space(rest)))),
        None => Ok(None),
    }
}

/// Reads the remaining steps, after these.
pub(super) fn inner_steps_at<'a>(
    alloc: Global,
    mut steps: Vec<Path<'a>>,
    input: &'a [u8],
) -> Result<(Vec<Path<'a>>, &'a [u8]), AllocError>
    ensures value { IfOk result (λ p. Some (steps_view p.0.items, p.1.now) ≡
        parsed_map (λ others. steps_view steps.entry.items ++ others) (repeat spaced_inner input.now)) }
    ensures no_more { IfOk result (λ p. spaced_inner p.1.now ≡ None) }
    ensures behind { IfOk result (λ p.
        parsed_map (λ others. steps_view p.0.items ++ others) (repeat path_step p.1.now) ≡
        parsed_map (λ others. steps_view steps.entry.items ++ others) (repeat path_step input.now)) }
    ensures shrinks { IfOk result (λ p. length p.1.now ≤ length input.now) }
{
    let mut rest = input;
    while let Some((next, after)) = spaced_inner_at(alloc, rest)? {
        steps.push(next)?;
        rest = after;
    }
    Ok((steps, rest))
}
