//! The last expression of an expression: the right side of a pair, the operand of a sign, or that of the last step.

ghost use Rattle.std.specs.Prelude.{◌≡◌, option_map};
ghost use Rattle.jsonb.specs.PathTree.{steps_of};
ghost use Rattle.jsonb.specs.PathViews.{step_view, steps_view, expression_view};
ghost use Rattle.jsonb.specs.Private.Last.{last_step, is_filter, ends_in_filter, held_by, held_by_last, last_of};

use super::{Expr, Path};

/// Returns the last expression of another one.
pub(super) fn last_of<'e, 'a>(expression: &'e Expr<'a>) -> Option<&'e Expr<'a>>
    ensures { option_map (λ last. expression_view last.now) result ≡ last_of (expression_view expression.now) }
{
    match expression {
        Expr::BinaryOp { right, .. } => Some(right),
        Expr::UnaryOp { operand, .. } => Some(operand),
        Expr::Paths(steps) | Expr::ExistsFunc(steps) => held_by_last(steps),
        Expr::Value(_) => None,
    }
}

/// Returns the expression that the last step holds.
#[tactic(auto, using(crate::proofs::Sets::last_step))]
fn held_by_last<'e, 'a>(steps: &'e Vec<Path<'a>>) -> Option<&'e Expr<'a>>
    ensures { option_map (λ held. expression_view held.now) result
        ≡ held_by_last (last_step (steps_of (steps_view steps.now.items))) }
{
    match steps.split_last() {
        Some((last, _)) => held_by(last),
        None => None,
    }
}

/// Returns the expression that a step holds.
fn held_by<'e, 'a>(step: &'e Path<'a>) -> Option<&'e Expr<'a>>
    ensures { option_map (λ held. expression_view held.now) result ≡ held_by (step_view step.now) }
{
    match step {
        Path::FilterExpr(inner) => Some(inner),
        Path::Expr(inner) => Some(inner),
        _ => None,
    }
}

/// Returns `true` if the last step is a filter.
#[tactic(auto, using(crate::proofs::Sets::last_step))]
pub(super) fn ends_in_filter(steps: &Vec<Path<'_>>) -> bool
    ensures { result ≡ ends_in_filter (last_step (steps_of (steps_view steps.now.items))) }
{
    match steps.split_last() {
        Some((last, _)) => is_filter(last),
        None => false,
    }
}

pub(super) fn is_filter(step: &Path<'_>) -> bool
    ensures { result ≡ is_filter (step_view step.now) }
{
    match step {
        Path::FilterExpr(_) => true,
        Path::DotField(_)
        | Path::ColonField(_)
        | Path::ObjectField(_)
        | Path::ArrayIndices(_)
        | Path::RecursiveDotWildcard(_)
        | Path::Expr(_)
        | Path::Root
        | Path::Current
        | Path::DotWildcard
        | Path::BracketWildcard => false,
    }
}
