//! Tokens at the beginning of the input.

ghost use Rattle.std.specs.Prelude.{◌≡◌, ◌+◌, ◌≤◌, length, option_map, Ok, IsErr, IfSome, IfOk, MatchResult};
ghost use Rattle.std.specs.Cow.{cow_str_bytes};
ghost use Rattle.jsonb_keypath.specs.Rules.{bytes};
ghost use Rattle.jsonb_keypath.specs.Tokens.{name, quoted};
ghost use Rattle.jsonb_keypath.specs.Views.{read_as, ConsumesInput};
ghost use Rattle.jsonb.specs.PathGrammar.{field, spaced};
ghost use Rattle.jsonb.specs.Private.Fronts.{in_any_case};

use super::Reading;
use jsonb_doc::Error;
use jsonb_keypath::token::{literal, read_name, read_quoted, skip_space};
use std::alloc::{AllocError, Global};
use std::borrow::CowStr;

/// Reads a name; fails only if an allocation fails.
pub(super) fn name_at(alloc: Global, input: &[u8]) -> Reading<'_, CowStr<'_, Global>>
    ensures value { IfOk result (λ found. read_as cow_str_bytes found ≡ name input.now) }
    ensures shrinks { IfOk result (ConsumesInput input.now) }
{
    only_alloc_error(read_name(alloc, input))
}

/// Reads a quoted string; fails only if an allocation fails.
pub(super) fn quoted_at(alloc: Global, input: &[u8]) -> Reading<'_, CowStr<'_, Global>>
    ensures value { IfOk result (λ found. read_as cow_str_bytes found ≡ quoted input.now) }
    ensures shrinks { IfOk result (ConsumesInput input.now) }
{
    only_alloc_error(read_quoted(alloc, input))
}

/// Returns the result of a call that fails only if an allocation fails.
fn only_alloc_error<T: Drop>(read: Result<T, Error>) -> Result<T, AllocError>
    ensures { MatchResult read (λ found. result ≡ Ok found) (λ _. IsErr result) }
{
    match read {
        Ok(found) => Ok(found),
        Err(_) => Err(AllocError),
    }
}

/// Reads a name or a quoted string.
#[tactic(auto, unfolding(crate::specs::PathGrammar::field))]
pub(super) fn field_at(alloc: Global, input: &[u8]) -> Reading<'_, CowStr<'_, Global>>
    ensures value { IfOk result (λ found. read_as cow_str_bytes found ≡ field input.now) }
    ensures shrinks { IfOk result (ConsumesInput input.now) }
{
    match quoted_at(alloc, input)? {
        Some(found) => Ok(Some(found)),
        None => name_at(alloc, input),
    }
}

/// Returns the input after a keyword in any case.
pub(super) fn keyword_at<'a>(text: &[u8], input: &'a [u8]) -> Option<&'a [u8]>
    ensures value { option_map (λ rest. (tt, rest.now)) result ≡ in_any_case text.now input.now }
    ensures shrinks { IfSome result (λ rest. length rest.now + length text.now ≡ length input.now) }
{
    if input.len() < text.len() {
        return None;
    }
    let (front, rest) = input.split_at(text.len());
    if front.eq_ignore_ascii_case(text) {
        return Some(rest);
    }
    None
}

/// Reads these bytes with white space around them.
pub(super) fn separator_at<'a>(text: &[u8], input: &'a [u8]) -> Option<&'a [u8]>
    ensures value { option_map (λ rest. (tt, rest.now)) result ≡ spaced (bytes text.now) input.now }
    ensures shrinks { IfSome result (λ rest. length rest.now + length text.now ≤ length input.now) }
{
    let rest = literal(text, skip_space(input))?;
    Some(skip_space(rest))
}
