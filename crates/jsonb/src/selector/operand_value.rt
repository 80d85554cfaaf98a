//! The values of operands, and how they compare.

ghost use Rattle.std.specs.Prelude.{◌≡◌, ◌∷◌, [], map, Some};
ghost use Rattle.jsonb_doc.specs.Private.Short.{short_value};
ghost use Rattle.jsonb_doc.specs.Private.StoredValue.{IsStoredAs};
ghost use Rattle.jsonb_doc.specs.Tree.{Tree};
ghost use Rattle.jsonb_doc.specs.View.{number_view};
ghost use Rattle.jsonb.specs.Compare.{compare, pair_truth, value_order, holds_for, truth_of_order, is_container};
ghost use Rattle.jsonb.specs.PathViews.{literal_view};
ghost use Rattle.jsonb.specs.Values.{number, value_of_item, literal_value};
ghost use Rattle.jsonb.specs.Private.Calculation.{starts_with_truth};
ghost use Rattle.jsonb.specs.Private.Selection.{value_view, values_view, option_values};

use crate::path::{BinaryOperator, PathValue};
use jsonb_doc::{Error, Number, ShortNumber, StoredValue, short_cmp};
use std::alloc::Global;
use std::cmp::Ordering;
use std::slice;

/// A value of an operand: a scalar, or a container, which is not compared. A string is its bytes, not validated.
#[derive(Clone, Copy)]
pub(crate) enum OperandValue<'a> {
    Null,
    Boolean(bool),
    Number(Number),
    String(&'a [u8]),
    Container,
}

/// The values of an operand. A single value is not allocated.
#[derive(Drop)]
pub(crate) enum OperandValues<'a> {
    One(OperandValue<'a>),
    Many(Vec<OperandValue<'a>>),
}

/// The values of an operand.
pub(crate) type ValuesResult<'a> = Result<OperandValues<'a>, Error>;

/// Whether a comparison is true, or `None` if it is unknown.
pub(crate) type Truth = Option<bool>;

impl<'a> OperandValues<'a> {
    #[inline(always)]
    pub(crate) fn at_most_one(alloc: Global, value: Option<OperandValue<'a>>) -> OperandValues<'a>
        ensures { values_view result ≡ option_values value.entry }
    {
        match value {
            Some(value) => OperandValues::One(value),
            None => OperandValues::Many(Vec::new(alloc)),
        }
    }

    #[inline(always)]
    pub(crate) fn as_slice(&self) -> &[OperandValue<'a>]
        ensures { map value_view result.now ≡ values_view self.now }
    {
        match self {
            OperandValues::One(value) => slice::from_ref(value),
            OperandValues::Many(values) => values.as_slice(),
        }
    }
}

/// Returns the value of an item that is not an array, or of an element. An extension value has none.
#[inline(always)]
pub(crate) fn value_of_item<'a>(stored: StoredValue<'a>) -> Option<OperandValue<'a>>
    ensures { (t : Tree) → IsStoredAs stored.entry t → option_values result ≡ value_of_item t }
{
    match stored {
        StoredValue::Null => Some(OperandValue::Null),
        StoredValue::Boolean(b) => Some(OperandValue::Boolean(b)),
        StoredValue::Number(n) => Some(OperandValue::Number(n)),
        StoredValue::String(bytes) => Some(OperandValue::String(bytes)),
        StoredValue::Extension => None,
        StoredValue::Array | StoredValue::Object => Some(OperandValue::Container),
    }
}

/// The value of a literal.
#[inline(always)]
pub(crate) fn value_of_literal<'a>(literal: &'a PathValue<'_>) -> OperandValue<'a>
    ensures { option_values (Some result) ≡ literal_value (literal_view literal.now) ∷ [] }
{
    match literal {
        PathValue::Null => OperandValue::Null,
        PathValue::Boolean(b) => OperandValue::Boolean(*b),
        PathValue::Number(n) => OperandValue::Number(*n),
        PathValue::String(s) => OperandValue::String(s.as_str().as_bytes()),
        PathValue::Raw(_) => OperandValue::Container,
    }
}

/// Compares all pairs, for each left value all right values: the first result that is true or unknown decides.
pub(crate) fn compare(op: BinaryOperator, ls: &[OperandValue<'_>], rs: &[OperandValue<'_>]) -> Truth
    ensures { result ≡ compare op (map value_view ls.now) (map value_view rs.now) }
{
    for l in ls {
        for r in rs {
            let truth = pair_truth(op, l, r);
            if truth != Some(false) {
                return truth;
            }
        }
    }
    Some(false)
}

/// Compares one left value with all right values.
#[inline(always)]
pub(crate) fn compare_one(
    op: BinaryOperator,
    l: &OperandValue<'_>,
    rs: &[OperandValue<'_>],
) -> Truth
    ensures { result ≡ compare op (value_view l.now ∷ []) (map value_view rs.now) }
{
    match rs {
        [r] => pair_truth(op, l, r),
        _ => compare(op, slice::from_ref(l), rs),
    }
}

/// Compares one number that is stored in at most 64 bits with all right values.
#[inline(always)]
pub(crate) fn compare_short(op: BinaryOperator, l: ShortNumber, rs: &[OperandValue<'_>]) -> Truth
    ensures { result ≡ compare op (number (short_value l) ∷ []) (map value_view rs.now) }
{
    match rs {
        [OperandValue::Number(r)] => numbers_truth(op, l, r),
        _ => {
            let left = OperandValue::Number(l.to_number());
            compare(op, slice::from_ref(&left), rs)
        }
    }
}

/// Compares a number that is stored in at most 64 bits with another one.
#[inline(always)]
pub(crate) fn numbers_truth(op: BinaryOperator, l: ShortNumber, r: &Number) -> Truth
    ensures { result ≡ pair_truth op (number (short_value l)) (number (number_view r.now)) }
{
    match op {
        BinaryOperator::StartsWith => None,
        _ => truth_of_order(op, Some(short_cmp(l, r))),
    }
}

/// Compares one pair: with a container the result is unknown. Equal strings are of one length, so lengths are compared
/// first.
#[inline(always)]
fn pair_truth(op: BinaryOperator, l: &OperandValue<'_>, r: &OperandValue<'_>) -> Truth
    ensures { result ≡ pair_truth op (value_view l.now) (value_view r.now) }
{
    if op == BinaryOperator::StartsWith {
        return starts_with_truth(l, r);
    }
    if is_container(l) || is_container(r) {
        return None;
    }
    match (op, l, r) {
        (BinaryOperator::Eq, OperandValue::String(l), OperandValue::String(r)) => Some(l == r),
        (BinaryOperator::NotEq, OperandValue::String(l), OperandValue::String(r)) => Some(l != r),
        _ => truth_of_order(op, value_order(l, r)),
    }
}

/// Returns whether the left string begins with the right one.
fn starts_with_truth(l: &OperandValue<'_>, r: &OperandValue<'_>) -> Truth
    ensures { result ≡ starts_with_truth (value_view l.now) (value_view r.now) }
{
    match (l, r) {
        (OperandValue::String(l), OperandValue::String(r)) => Some(l.starts_with(r)),
        _ => None,
    }
}

#[inline(always)]
fn is_container(value: &OperandValue<'_>) -> bool
    ensures { result ≡ is_container (value_view value.now) }
{
    matches!(value, OperandValue::Container)
}

/// Returns the order of two values of one type.
#[inline(always)]
#[tactic(auto, using(crate::proofs::Sets::operand_value_value_order))]
fn value_order(l: &OperandValue<'_>, r: &OperandValue<'_>) -> Option<Ordering>
    ensures { result ≡ value_order (value_view l.now) (value_view r.now) }
{
    match (l, r) {
        (OperandValue::Null, OperandValue::Null) => Some(Ordering::Equal),
        (OperandValue::Boolean(l), OperandValue::Boolean(r)) => Some(l.cmp(r)),
        (OperandValue::Number(l), OperandValue::Number(r)) => Some(l.cmp(r)),
        (OperandValue::String(l), OperandValue::String(r)) => Some(l.cmp(r)),
        _ => None,
    }
}

/// Returns the result for two values in this order. Values of two types have none: they are unequal, and any other
/// comparison is unknown.
#[inline(always)]
fn truth_of_order(op: BinaryOperator, order: Option<Ordering>) -> Truth
    ensures { result ≡ truth_of_order op order }
{
    match order {
        Some(order) => Some(holds_for(op, order)),
        None if op == BinaryOperator::NotEq => Some(true),
        None => None,
    }
}

/// Returns `true` if the operator holds for two values in this order.
#[inline(always)]
fn holds_for(op: BinaryOperator, order: Ordering) -> bool
    ensures { result ≡ holds_for op order }
{
    match op {
        BinaryOperator::Eq => order == Ordering::Equal,
        BinaryOperator::NotEq => order != Ordering::Equal,
        BinaryOperator::Lt => order == Ordering::Less,
        BinaryOperator::Lte => order != Ordering::Greater,
        BinaryOperator::Gt => order == Ordering::Greater,
        BinaryOperator::Gte => order != Ordering::Less,
        BinaryOperator::And
        | BinaryOperator::Or
        | BinaryOperator::StartsWith
        | BinaryOperator::Add
        | BinaryOperator::Subtract
        | BinaryOperator::Multiply
        | BinaryOperator::Divide
        | BinaryOperator::Modulo => false,
    }
}
