//! Operands, and the operations on them.

ghost use Rattle.std.specs.Prelude.{◌≡◌, ◌++◌, false, IfOk, IfSome};
ghost use Rattle.jsonb_keypath.specs.Rules.{parsed_map, repeat};
ghost use Rattle.jsonb.specs.PathTree.{binary};
ghost use Rattle.jsonb.specs.PathGrammar.{path_root, literal_value, operand, spaced_operand, operator, arithmetic_operator, unary_operator, unary_atom, binary_atom, path_step, plain_path};
ghost use Rattle.jsonb.specs.Private.Fronts.{operand_steps};
ghost use Rattle.jsonb.specs.Private.Frames.{operation};
ghost use Rattle.jsonb_keypath.specs.Views.{read_as, ConsumesInput};
ghost use Rattle.jsonb.specs.PathViews.{literal_view, step_view, steps_view, expression_view};

use super::Reading;
use super::inner_path::inner_steps_at;
use super::token::quoted_at;
use crate::path::{BinaryOperator, Expr, Path, PathValue, UnaryOperator};
use jsonb_doc::Number;
use jsonb_keypath::token::{int64, literal, nat64, skip_space};
use std::alloc::{AllocError, Global};

/// Returns the value of the first of these words with which the input begins, and the rest.
macro_rules! return_first_of {
    ($input:expr, $($text:literal => $value:expr,)+) => {
        $(if let Some(rest) = literal($text, $input) {
            return Some(($value, rest));
        })+
    };
}

#[tactic(auto, unfolding(crate::specs::PathGrammar::operator))]
pub(super) fn operator_at(input: &[u8]) -> Option<(BinaryOperator, &[u8])>
    ensures value { read_as (λ x. x) result ≡ operator input.now }
    ensures shrinks { ConsumesInput input.now result }
{
    return_first_of! {
        input,
        b"==" => BinaryOperator::Eq, b"!=" => BinaryOperator::NotEq, b"<>" => BinaryOperator::NotEq,
        b"<=" => BinaryOperator::Lte, b"<" => BinaryOperator::Lt,
        b">=" => BinaryOperator::Gte, b">" => BinaryOperator::Gt,
        b"starts with" => BinaryOperator::StartsWith,
    }
    arithmetic_operator_at(input)
}

#[tactic(auto, unfolding(crate::specs::PathGrammar::arithmetic_operator))]
fn arithmetic_operator_at(input: &[u8]) -> Option<(BinaryOperator, &[u8])>
    ensures value { read_as (λ x. x) result ≡ arithmetic_operator input.now }
    ensures shrinks { ConsumesInput input.now result }
{
    return_first_of! {
        input,
        b"+" => BinaryOperator::Add, b"-" => BinaryOperator::Subtract,
        b"*" => BinaryOperator::Multiply, b"/" => BinaryOperator::Divide, b"%" => BinaryOperator::Modulo,
    }
    None
}

#[tactic(auto, unfolding(crate::specs::PathGrammar::unary_operator))]
pub(super) fn unary_operator_at(input: &[u8]) -> Option<(UnaryOperator, &[u8])>
    ensures value { read_as (λ x. x) result ≡ unary_operator input.now }
    ensures shrinks { ConsumesInput input.now result }
{
    return_first_of! {
        input,
        b"+" => UnaryOperator::Add,
        b"-" => UnaryOperator::Subtract,
    }
    None
}

#[tactic(auto, unfolding(crate::specs::PathGrammar::literal_value))]
fn literal_value_at(alloc: Global, input: &[u8]) -> Reading<'_, PathValue<'_>>
    ensures value { IfOk result (λ found. read_as literal_view found ≡ literal_value input.now) }
    ensures shrinks { IfOk result (ConsumesInput input.now) }
{
    if let Some(rest) = literal(b"null", input) {
        return Ok(Some((PathValue::Null, rest)));
    }
    if let Some(rest) = literal(b"true", input) {
        return Ok(Some((PathValue::Boolean(true), rest)));
    }
    if let Some(rest) = literal(b"false", input) {
        return Ok(Some((PathValue::Boolean(false), rest)));
    }
    if let Some((n, rest)) = nat64(input) {
        return Ok(Some((PathValue::Number(Number::UInt64(n)), rest)));
    }
    if let Some((z, rest)) = int64(input) {
        return Ok(Some((PathValue::Number(Number::Int64(z)), rest)));
    }
    match quoted_at(alloc, input)? {
        Some((text, rest)) => Ok(Some((PathValue::String(text), rest))),
        None => Ok(None),
    }
}

/// Reads the beginning of a path: `$`, and in a filter also `@`.
#[tactic(auto, unfolding(crate::specs::PathGrammar::path_root))]
pub(super) fn path_root_at(is_in_filter: bool, input: &[u8]) -> Option<(Path<'_>, &[u8])>
    ensures value { read_as step_view result ≡ path_root is_in_filter input.now }
    ensures shrinks { ConsumesInput input.now result }
{
    if let Some(rest) = literal(b"$", input) {
        return Some((Path::Root, rest));
    }
    if is_in_filter {
        if let Some(rest) = literal(b"@", input) {
            return Some((Path::Current, rest));
        }
    }
    None
}

/// Reads the first step and the steps after it.
pub(super) fn operand_steps_at(
    alloc: Global,
    is_in_filter: bool,
    input: &[u8],
) -> Reading<'_, Vec<Path<'_>>>
    ensures value { IfOk result (λ found.
        read_as (λ steps. steps_view steps.items) found ≡ operand_steps is_in_filter input.now) }
    ensures goes_on { IfOk result (λ found. is_in_filter ≡ false → IfSome found (λ p.
        parsed_map (λ others. steps_view p.0.items ++ others) (repeat path_step p.1.now) ≡ plain_path input.now)) }
    ensures shrinks { IfOk result (ConsumesInput input.now) }
{
    let Some((first, rest)) = path_root_at(is_in_filter, input) else {
        return Ok(None);
    };
    let mut steps = Vec::new(alloc);
    steps.push(first)?;
    let (steps, rest) = inner_steps_at(alloc, steps, rest)?;
    Ok(Some((steps, rest)))
}

#[tactic(auto, unfolding(crate::specs::PathGrammar::operand))]
fn operand_at(alloc: Global, is_in_filter: bool, input: &[u8]) -> Reading<'_, Expr<'_>>
    ensures value { IfOk result (λ found. read_as expression_view found ≡ operand is_in_filter input.now) }
    ensures shrinks { IfOk result (ConsumesInput input.now) }
{
    if let Some((steps, rest)) = operand_steps_at(alloc, is_in_filter, input)? {
        return Ok(Some((Expr::Paths(steps), rest)));
    }
    match literal_value_at(alloc, input)? {
        Some((found, rest)) => Ok(Some((Expr::Value(Box::new(alloc, found)?), rest))),
        None => Ok(None),
    }
}

#[tactic(auto, unfolding(crate::specs::PathGrammar::spaced_operand))]
pub(super) fn spaced_operand_at(
    alloc: Global,
    is_in_filter: bool,
    input: &[u8],
) -> Reading<'_, Expr<'_>>
    ensures value { IfOk result (λ found. read_as expression_view found ≡ spaced_operand is_in_filter input.now) }
    ensures shrinks { IfOk result (ConsumesInput input.now) }
{
    match operand_at(alloc, is_in_filter, skip_space(input))? {
        Some((found, rest)) => Ok(Some((found, skip_space(rest)))),
        None => Ok(None),
    }
}

#[tactic(auto, unfolding(crate::specs::PathGrammar::unary_atom))]
pub(super) fn unary_atom_at(
    alloc: Global,
    is_in_filter: bool,
    input: &[u8],
) -> Reading<'_, Expr<'_>>
    ensures value { IfOk result (λ found. read_as expression_view found ≡ unary_atom is_in_filter input.now) }
    ensures shrinks { IfOk result (ConsumesInput input.now) }
{
    let Some((op, rest)) = unary_operator_at(input) else {
        return Ok(None);
    };
    let Some((found, rest)) = spaced_operand_at(alloc, is_in_filter, rest)? else {
        return Ok(None);
    };
    let operand = Box::new(alloc, found)?;
    Ok(Some((Expr::UnaryOp { op, operand }, rest)))
}

#[tactic(auto, unfolding(crate::specs::PathGrammar::binary_atom, crate::specs::Private::Frames::operation))]
pub(super) fn binary_atom_at(
    alloc: Global,
    is_in_filter: bool,
    input: &[u8],
) -> Reading<'_, Expr<'_>>
    ensures value { IfOk result (λ found. read_as expression_view found ≡ binary_atom is_in_filter input.now) }
    ensures shrinks { IfOk result (ConsumesInput input.now) }
{
    let Some((first, rest)) = spaced_operand_at(alloc, is_in_filter, input)? else {
        return Ok(None);
    };
    match operation_at(alloc, is_in_filter, rest)? {
        Some(((op, second), rest)) => Ok(Some((binary_of(alloc, op, first, second)?, rest))),
        None => Ok(None),
    }
}

/// Returns an operation on two operands.
pub(super) fn binary_of<'a>(
    alloc: Global,
    op: BinaryOperator,
    first: Expr<'a>,
    second: Expr<'a>,
) -> Result<Expr<'a>, AllocError>
    ensures { IfOk result (λ found. expression_view found ≡
        binary op (expression_view first.entry) (expression_view second.entry)) }
{
    let left = Box::new(alloc, first)?;
    let right = Box::new(alloc, second)?;
    Ok(Expr::BinaryOp { op, left, right })
}

/// Reads an operator, and the operand after it.
#[tactic(auto, unfolding(crate::specs::Private::Frames::operation))]
pub(super) fn operation_at(
    alloc: Global,
    is_in_filter: bool,
    input: &[u8],
) -> Reading<'_, (BinaryOperator, Expr<'_>)>
    ensures value { IfOk result (λ found.
        read_as (λ p. (p.0, expression_view p.1)) found ≡ operation is_in_filter input.now) }
    ensures shrinks { IfOk result (ConsumesInput input.now) }
{
    let Some((op, rest)) = operator_at(input) else {
        return Ok(None);
    };
    match spaced_operand_at(alloc, is_in_filter, rest)? {
        Some((second, rest)) => Ok(Some(((op, second), rest))),
        None => Ok(None),
    }
}
