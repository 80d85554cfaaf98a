//! The position of the error in text that is not a JSON path.

ghost use Rattle.std.specs.Prelude.{◌≡◌, ◌<◌, ◌≤◌, length, true, Some, option_map, IfOk, IfSome, MatchResult};
ghost use Rattle.jsonb_doc.specs.Answer.{IsOutOfMemory};
ghost use Rattle.jsonb_keypath.specs.ErrorPosition.{perhaps};
ghost use Rattle.jsonb.specs.PathErrorPosition.{condition_front, conditions_front, steps_front, json_path_front, json_path_error_position as spec_json_path_error_position};
ghost use Rattle.jsonb.specs.Private.Fronts.{operation_front, group_front, exists_front, logical_operator, opened_filter};

use super::expression::expression_at;
use super::opening::filter_inside;
use super::operand::{operand_steps_at, operator_at, spaced_operand_at, unary_operator_at};
use super::{parse_json_path, plain_path_at};
use jsonb_doc::Error;
use jsonb_keypath::token::{literal, skip_space};
use std::alloc::{AllocError, Global};

/// Returns the position of the error in text that is not a JSON path, in bytes, or `None` if the text is a JSON path.
///
/// The position is the end of what the grammar reads of the text, as an expression or as steps, whichever is longer:
/// the beginning of the first step, condition, operand or operator that cannot be read. In parentheses that are not
/// complete, and are inside others, it is their beginning. It is the length of the text if more text is expected.
///
/// # Errors
///
/// `OutOfMemory` if an allocation fails.
///
/// # Complexity
///
/// O(n) for text of n bytes. Allocates; parses the text again.
///
/// # Examples
///
/// ```rust crates/jsonb_examples/src/untrusted.rt
/// Ok(match json_path_error_position(alloc, path)? {
///     Some(at) => Some(format!(in alloc; "not a JSON path: see byte {at}")?),
///     None => None,
/// })
/// ```
pub fn json_path_error_position(alloc: Global, text: &[u8]) -> Result<Option<usize>, Error>
    ensures { MatchResult result
        (λ position. position ≡ spec_json_path_error_position text.now) IsOutOfMemory }
{
    match parse_json_path(alloc, text) {
        Ok(_) => Ok(None),
        Err(Error::InvalidJsonPath) => {
            let rest = json_path_front_at(alloc, text)?;
            let position = text.len() - rest.len();
            Ok(Some(position))
        }
        Err(error) => Err(error),
    }
}

/// The input after the beginning of a path, which is never longer. An error only if an allocation fails.
type Front<'a> = Result<&'a [u8], AllocError>;

/// Reads as much of the text as a path begins with.
#[tactic(auto, unfolding(crate::specs::PathErrorPosition::json_path_front))]
fn json_path_front_at(alloc: Global, text: &[u8]) -> Front<'_>
    ensures value { IfOk result (λ rest. json_path_front text.now ≡ Some (tt, rest.now)) }
    ensures shrinks { IfOk result (λ rest. length rest.now ≤ length text.now) }
{
    let start = skip_space(text);
    let expression = conditions_front_at(alloc, false, start)?;
    let steps = steps_front_at(alloc, start)?;
    if steps.len() < expression.len() {
        Ok(steps)
    } else {
        Ok(expression)
    }
}

/// Reads steps, and the beginning of a filter.
#[tactic(auto, using(crate::proofs::PlainPathLemmas::plain_path_shrinks), unfolding(crate::specs::PathErrorPosition::steps_front))]
fn steps_front_at(alloc: Global, input: &[u8]) -> Front<'_>
    ensures value { IfOk result (λ rest. steps_front input.now ≡ Some (tt, rest.now)) }
    ensures shrinks { IfOk result (λ rest. length rest.now ≤ length input.now) }
{
    let (_, rest) = plain_path_at(alloc, input)?;
    let rest = skip_space(rest);
    match opened_filter_at(rest) {
        Some(inside) => conditions_front_at(alloc, true, inside),
        None => Ok(rest),
    }
}

#[tactic(auto, unfolding(crate::specs::Private::Frames::filter_front))]
fn opened_filter_at(input: &[u8]) -> Option<&[u8]>
    ensures value { option_map (λ rest. (tt, rest.now)) result ≡ opened_filter input.now }
    ensures shrinks { IfSome result (λ rest. length rest.now < length input.now) }
{
    filter_inside(input)
}

/// Reads conditions, and the beginning of another one.
#[tactic(auto, unfolding(crate::specs::PathErrorPosition::conditions_front))]
fn conditions_front_at(alloc: Global, is_in_filter: bool, input: &[u8]) -> Front<'_>
    ensures value { IfOk result (λ rest. conditions_front is_in_filter input.now ≡ Some (tt, rest.now)) }
    ensures shrinks { IfOk result (λ rest. length rest.now ≤ length input.now) }
{
    let Some((_, rest)) = expression_at(alloc, is_in_filter, input)? else {
        return condition_front_at(alloc, is_in_filter, input);
    };
    let rest = skip_space(rest);
    match logical_operator_at(rest) {
        Some(after) => condition_front_at(alloc, is_in_filter, after),
        None => Ok(rest),
    }
}

fn logical_operator_at(input: &[u8]) -> Option<&[u8]>
    ensures value { option_map (λ rest. (tt, rest.now)) result ≡ logical_operator input.now }
    ensures shrinks { IfSome result (λ rest. length rest.now ≤ length input.now) }
{
    if let Some(rest) = literal(b"&&", input) {
        return Some(skip_space(rest));
    }
    let rest = literal(b"||", input)?;
    Some(skip_space(rest))
}

/// Reads the beginning of a condition that is not one.
#[tactic(auto, unfolding(crate::specs::PathErrorPosition::condition_front))]
fn condition_front_at(alloc: Global, is_in_filter: bool, input: &[u8]) -> Front<'_>
    ensures value { IfOk result (λ rest. condition_front is_in_filter input.now ≡ Some (tt, rest.now)) }
    ensures shrinks { IfOk result (λ rest. length rest.now ≤ length input.now) }
{
    if let Some((_, rest)) = unary_operator_at(input) {
        return Ok(skip_space(rest));
    }
    if let Some(rest) = operation_front_at(alloc, is_in_filter, input)? {
        return Ok(rest);
    }
    match group_front_at(alloc, is_in_filter, input)? {
        Some(rest) => Ok(rest),
        None => exists_front_at(alloc, input),
    }
}

fn operation_front_at(
    alloc: Global,
    is_in_filter: bool,
    input: &[u8],
) -> Result<Option<&[u8]>, AllocError>
    ensures value { IfOk result (λ found.
        option_map (λ rest. (tt, rest.now)) found ≡ operation_front is_in_filter input.now) }
    ensures shrinks { IfOk result (λ found. IfSome found (λ rest. length rest.now ≤ length input.now)) }
{
    let Some((_, rest)) = spaced_operand_at(alloc, is_in_filter, input)? else {
        return Ok(None);
    };
    match operator_at(rest) {
        Some((_, after)) => Ok(Some(skip_space(after))),
        None => Ok(Some(rest)),
    }
}

fn group_front_at(
    alloc: Global,
    is_in_filter: bool,
    input: &[u8],
) -> Result<Option<&[u8]>, AllocError>
    ensures value { IfOk result (λ found.
        option_map (λ rest. (tt, rest.now)) found ≡ group_front is_in_filter input.now) }
    ensures shrinks { IfOk result (λ found. IfSome found (λ rest. length rest.now ≤ length input.now)) }
{
    let Some(inside) = literal(b"(", input) else {
        return Ok(None);
    };
    let inside = skip_space(inside);
    match expression_at(alloc, is_in_filter, inside)? {
        Some((_, rest)) => Ok(Some(skip_space(rest))),
        None => Ok(Some(inside)),
    }
}

fn exists_front_at(alloc: Global, input: &[u8]) -> Front<'_>
    ensures value { IfOk result (λ rest. perhaps exists_front input.now ≡ Some (tt, rest.now)) }
    ensures shrinks { IfOk result (λ rest. length rest.now ≤ length input.now) }
{
    let Some(word) = literal(b"exists", input) else {
        return Ok(input);
    };
    let rest = skip_space(word);
    let Some(inside) = literal(b"(", rest) else {
        return Ok(rest);
    };
    let inside = skip_space(inside);
    match operand_steps_at(alloc, true, inside)? {
        Some((_, rest)) => Ok(rest),
        None => Ok(inside),
    }
}
