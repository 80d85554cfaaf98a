//! Equality and order of steps, expressions and literals.

ghost use Rattle.std.specs.Prelude.{◌≡◌};
ghost use Rattle.std.specs.Cmp.{on_per, on_po};
ghost use Rattle.jsonb.specs.PathEquality.{literal_order};
ghost use Rattle.jsonb.specs.PathTree.{steps_of};
ghost use Rattle.jsonb.specs.Private.Last.{is_same_opening, are_same_before, is_same_before};
ghost use Rattle.jsonb.specs.PathViews.{step_view, steps_view, expression_view, literal_view};
ghost use Rattle.jsonb.specs.Proofs.PathOrder.{literal_order_laws, is_same_literal_laws};
ghost use Rattle.jsonb.specs.Proofs.SamePath.{is_same_step_laws, is_same_expression_laws};
ghost use Rattle.jsonb.specs.Private.SamePath.{is_same_step, are_same_steps, is_same_expression, is_same_literal, path_value_order};

use super::last::{is_filter, last_of};
use super::{Expr, Path, PathValue};
use std::cmp::Ordering;

/// Equal node by node, with literals that are equal by value.
impl PartialEq for Path<'_> {
    ghost eq = { λ s t. is_same_step (step_view s) (step_view t) };

    ghost laws = { on_per step_view is_same_step_laws };

    fn eq(&self, other: &Self) -> bool {
        same_step(self, other)
    }
}

/// Equal node by node, with literals that are equal by value.
impl PartialEq for Expr<'_> {
    ghost eq = { λ e f. is_same_expression (expression_view e) (expression_view f) };

    ghost laws = { on_per expression_view is_same_expression_laws };

    fn eq(&self, other: &Self) -> bool {
        same_expression(self, other)
    }
}

#[cycle(same)]
fn same_step(step: &Path<'_>, other: &Path<'_>) -> bool
    ensures { result ≡ is_same_step (step_view step.now) (step_view other.now) }
{
    match (step, other) {
        (Path::Root, Path::Root) => true,
        (Path::Current, Path::Current) => true,
        (Path::DotWildcard, Path::DotWildcard) => true,
        (Path::BracketWildcard, Path::BracketWildcard) => true,
        (Path::RecursiveDotWildcard(k), Path::RecursiveDotWildcard(l)) => k == l,
        (Path::DotField(n), Path::DotField(o)) => n == o,
        (Path::ColonField(n), Path::ColonField(o)) => n == o,
        (Path::ObjectField(n), Path::ObjectField(o)) => n == o,
        (Path::ArrayIndices(k), Path::ArrayIndices(l)) => k == l,
        (Path::FilterExpr(e), Path::FilterExpr(f)) => same_expression(e, f),
        (Path::Expr(e), Path::Expr(f)) => same_expression(e, f),
        _ => false,
    }
}

#[cycle(same)]
fn same_steps(steps: &[Path<'_>], others: &[Path<'_>]) -> bool
    ensures { result ≡ are_same_steps (steps_of (steps_view steps.now)) (steps_of (steps_view others.now)) }
{
    let mut rest = others.iter();
    for step in steps {
        let Some(other) = rest.next() else {
            return false;
        };
        if !same_step(step, other) {
            return false;
        }
    }
    rest.next().is_none()
}

/// Returns `true` if two expressions are the same. Continues with the last expressions of both, so that no call has to
/// return from there.
#[cycle(same)]
fn same_expression(expression: &Expr<'_>, other: &Expr<'_>) -> bool
    ensures { result ≡ is_same_expression (expression_view expression.now) (expression_view other.now) }
{
    let mut next = Some((expression, other));
    while let Some((inner, other_inner)) = next {
        if !same_before(inner, other_inner) {
            return false;
        }
        next = last_of(inner).zip(last_of(other_inner));
    }
    true
}

/// Returns `true` if two expressions are the same except for their last expressions.
#[cycle(same)]
fn same_before(expression: &Expr<'_>, other: &Expr<'_>) -> bool
    ensures { result ≡ is_same_before (expression_view expression.now) (expression_view other.now) }
{
    match (expression, other) {
        (
            Expr::BinaryOp { op, left, .. },
            Expr::BinaryOp {
                op: other_op,
                left: other_left,
                ..
            },
        ) => op == other_op && same_chain(left, other_left),
        (Expr::UnaryOp { op, .. }, Expr::UnaryOp { op: other_op, .. }) => op == other_op,
        (Expr::Paths(steps), Expr::Paths(others)) => same_before_last(steps, others),
        (Expr::Value(literal), Expr::Value(wanted)) => **literal == **wanted,
        (Expr::ExistsFunc(steps), Expr::ExistsFunc(others)) => same_before_last(steps, others),
        _ => false,
    }
}

/// Returns `true` if the steps are the same except for the expression in the last ones.
#[cycle(same)]
fn same_before_last(steps: &Vec<Path<'_>>, others: &Vec<Path<'_>>) -> bool
    ensures { result ≡ are_same_before
        (steps_of (steps_view steps.now.items)) (steps_of (steps_view others.now.items)) }
{
    match (steps.split_last(), others.split_last()) {
        (Some((last, first_ones)), Some((other_last, other_first_ones))) => {
            same_steps(first_ones, other_first_ones) && same_opening(last, other_last)
        }
        (None, None) => true,
        _ => false,
    }
}

/// Returns `true` if two steps hold expressions in the same way, or are the same.
#[cycle(same)]
fn same_opening(step: &Path<'_>, other: &Path<'_>) -> bool
    ensures { result ≡ is_same_opening (step_view step.now) (step_view other.now) }
{
    (is_filter(step) && is_filter(other))
        || (step.is_expression() && other.is_expression())
        || same_step(step, other)
}

/// Returns `true` if two expressions are the same, visiting their left sides, and the right ones on the way.
#[cycle(same)]
fn same_chain(expression: &Expr<'_>, other: &Expr<'_>) -> bool
    ensures { result ≡ is_same_expression (expression_view expression.now) (expression_view other.now) }
{
    let mut inner = expression;
    let mut other_inner = other;
    while let (
        Expr::BinaryOp { op, left, right },
        Expr::BinaryOp {
            op: other_op,
            left: other_left,
            right: other_right,
        },
    ) = (inner, other_inner)
    {
        if op != other_op || !same_expression(right, other_right) {
            return false;
        }
        inner = left;
        other_inner = other_left;
    }
    same_expression(inner, other_inner)
}

/// Equal if and only if `partial_cmp` returns `Equal`. A document equals nothing, not even itself, so there is no
/// `Eq`.
impl PartialEq for PathValue<'_> {
    ghost eq = { λ l m. is_same_literal (literal_view l) (literal_view m) };

    ghost laws = { on_per literal_view is_same_literal_laws };

    fn eq(&self, other: &Self) -> bool {
        match order(self, other) {
            Some(found) => found.is_eq(),
            None => false,
        }
    }
}

/// Null equals null, false is less than true, numbers compare by exact value, and strings by their bytes. Two
/// literals of different types are not ordered, and a document is not ordered with anything.
impl PartialOrd for PathValue<'_> {
    ghost partial_cmp = { λ l m. literal_order (literal_view l) (literal_view m) };

    ghost laws = { on_po literal_view literal_order_laws };

    fn partial_cmp(&self, other: &Self) -> Option<Ordering> {
        order(self, other)
    }
}

fn order(left: &PathValue<'_>, right: &PathValue<'_>) -> Option<Ordering>
    ensures { result ≡ path_value_order left.now right.now }
{
    match (left, right) {
        (PathValue::Null, PathValue::Null) => Some(Ordering::Equal),
        (PathValue::Boolean(b), PathValue::Boolean(c)) => Some(b.cmp(c)),
        (PathValue::Number(m), PathValue::Number(n)) => Some(m.cmp(n)),
        (PathValue::String(s), PathValue::String(t)) => Some(s.as_str().cmp(t.as_str())),
        _ => None,
    }
}
