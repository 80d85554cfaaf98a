//! Arithmetic of an expression that is the whole path.

ghost use Rattle.std.specs.List.{AllZip};
ghost use Rattle.std.specs.Prelude.{◌≡◌, ◌∷◌, [], Some, option_map, map, is_some, IfErr};
ghost use Rattle.jsonb_doc.specs.Answer.{Refines, try_flat_map, IsOutOfMemory};
ghost use Rattle.jsonb_doc.specs.Arithmetic.{Operation, calculated, IsResultOf};
ghost use Rattle.jsonb_doc.specs.View.{number_view};
ghost use Rattle.jsonb.specs.PathArithmetic.{operation, two_numbers, all_numbers, signed_number, each_signed};
ghost use Rattle.jsonb.specs.SelectionErrors.{IsPathError, IsSelectionError};
ghost use Rattle.jsonb.specs.Private.Selection.{value_view, only_number, IsNumberTree, IsNumberItem};
ghost use Rattle.jsonb.specs.declared.selector.document.Mode.{Mode};

use super::operand_value::OperandValue;
use crate::path::{BinaryOperator, UnaryOperator};
use jsonb_doc::{Error, Number};
use std::alloc::Global;

/// Returns `true` if the operator is arithmetic.
pub(crate) fn is_arithmetic(op: BinaryOperator) -> bool
    ensures { result ≡ is_some (operation op) }
{
    matches!(
        op,
        BinaryOperator::Add
            | BinaryOperator::Subtract
            | BinaryOperator::Multiply
            | BinaryOperator::Divide
            | BinaryOperator::Modulo
    )
}

/// Applies an operator to two numbers. Fails if it is not arithmetic.
fn calculate(op: BinaryOperator, left: Number, right: Number) -> Result<Number, Error>
    ensures meant { (o : Operation) → operation op ≡ Some o
        → IsResultOf (calculated o (number_view left) (number_view right)) result }
    ensures errors { (mode : Mode) → IfErr result (IsPathError mode) }
{
    match op {
        BinaryOperator::Add => left.add(right),
        BinaryOperator::Subtract => left.sub(right),
        BinaryOperator::Multiply => left.mul(right),
        BinaryOperator::Divide => left.div(right),
        BinaryOperator::Modulo => left.rem(right),
        _ => Err(Error::InvalidJsonPath),
    }
}

/// Returns the only value, if it is a number.
fn only_number(values: &[OperandValue<'_>]) -> Option<Number>
    ensures { option_map number_view result ≡ only_number (map value_view values.now) }
{
    match values {
        [OperandValue::Number(number)] => Some(*number),
        _ => None,
    }
}

/// Applies an operator to two operands, each of which must be one number. Fails with `InvalidJsonPath` for another
/// operand, otherwise with `Arithmetic` if the numbers have no result.
pub(crate) fn binary_number(
    op: BinaryOperator,
    left: &[OperandValue<'_>],
    right: &[OperandValue<'_>],
) -> Result<Number, Error>
    ensures meant { (o : Operation) → operation op ≡ Some o
        → Refines IsNumberTree (λ _. ⊥) result (two_numbers o (map value_view left.now) (map value_view right.now)) }
    ensures errors { (mode : Mode) → IfErr result (IsPathError mode) }
{
    match (only_number(left), only_number(right)) {
        (Some(m), Some(n)) => calculate(op, m, n),
        _ => Err(Error::InvalidJsonPath),
    }
}

/// Applies a sign to a number.
#[inline(always)]
fn signed(op: UnaryOperator, number: Number) -> Result<Number, Error>
    ensures meant { Refines IsNumberTree (λ _. ⊥) result (signed_number op (number_view number)) }
    ensures errors { (mode : Mode) → IfErr result (IsPathError mode) }
{
    match op {
        UnaryOperator::Add => Ok(number),
        UnaryOperator::Subtract => number.neg(),
    }
}

/// Applies a sign to each number in place, from left to right.
pub(crate) fn sign_each(op: UnaryOperator, numbers: &mut [Number]) -> Result<(), Error>
    ensures meant { Refines (λ _ ts. AllZip IsNumberItem numbers.new ts) IsOutOfMemory result
        (try_flat_map (signed_number op) (map number_view numbers.old)) }
    ensures errors { (mode : Mode) → IfErr result (IsSelectionError mode) }
{
    for number in numbers.iter_mut() {
        *number = signed(op, *number)?;
    }
    Ok(())
}

/// Returns the number that a value is. Fails with `InvalidJsonPath` for another value.
#[inline(always)]
fn number_of(value: &OperandValue<'_>) -> Result<Number, Error>
    ensures meant { Refines (λ n ns. number_view n ∷ [] ≡ ns) (λ _. ⊥) result
        (all_numbers (value_view value.now ∷ [])) }
    ensures errors { (mode : Mode) → IfErr result (IsPathError mode) }
{
    match value {
        OperandValue::Number(number) => Ok(*number),
        _ => Err(Error::InvalidJsonPath),
    }
}

/// Returns the numbers that values are. Fails with `InvalidJsonPath` for another value.
fn value_numbers(alloc: Global, values: &[OperandValue<'_>]) -> Result<Vec<Number>, Error>
    ensures meant { Refines (λ v ns. map number_view v.items ≡ ns) IsOutOfMemory result
        (all_numbers (map value_view values.now)) }
    ensures errors { (mode : Mode) → IfErr result (IsSelectionError mode) }
{
    let mut numbers = Vec::new(alloc);
    for value in values {
        numbers.push(number_of(value)?)?;
    }
    Ok(numbers)
}

/// Applies a sign to each value. First all have to be numbers: fails with `InvalidJsonPath` for another value,
/// otherwise with `Arithmetic` for the first number without a result.
#[tactic(auto, using(crate::proofs::Sets::calculate_unary_numbers))]
pub(crate) fn unary_numbers(
    alloc: Global,
    op: UnaryOperator,
    values: &[OperandValue<'_>],
) -> Result<Vec<Number>, Error>
    ensures meant { Refines (λ v ts. AllZip IsNumberItem v.items ts) IsOutOfMemory result
        (each_signed op (map value_view values.now)) }
    ensures errors { (mode : Mode) → IfErr result (IsSelectionError mode) }
{
    let mut numbers = value_numbers(alloc, values)?;
    sign_each(op, &mut numbers)?;
    Ok(numbers)
}
