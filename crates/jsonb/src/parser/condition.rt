//! Conditions joined by `&&`, and these joined by `||`.

ghost use Rattle.std.specs.Prelude.{◌≡◌, ◌<◌, ◌≤◌, length, None, Some, IfOk};
ghost use Rattle.jsonb_keypath.specs.Views.{read_as};
ghost use Rattle.jsonb.specs.PathViews.{expression_view};
ghost use Rattle.jsonb.specs.Private.Frames.{joined_view, partial_outcome, after_condition_outcome, after_condition_rest, IsPartial, IsAfterCondition};

use super::token::separator_at;
use crate::path::{BinaryOperator, Expr};
use std::alloc::{AllocError, Global};

/// Conditions that are joined so far, and the position before the separator after them: if the next condition fails,
/// the list ends there.
#[derive(Drop)]
pub(super) struct Joined<'a> {
    left: Box<Expr<'a>>,
    before: &'a [u8],
}

/// A partly read expression: its conditions up to the next one.
#[derive(Drop)]
pub(super) struct PartialExpr<'a> {
    pub is_in_filter: bool,
    all: Option<Joined<'a>>,
    any: Option<Joined<'a>>,
}

/// What follows a condition: another one of the same expression, or the end of its list.
pub(super) enum AfterCondition<'a> {
    Next(PartialExpr<'a>, &'a [u8]),
    Whole(Expr<'a>, &'a [u8]),
}

impl<'a> PartialExpr<'a> {
    /// Creates an expression before its first condition.
    pub(super) fn new(is_in_filter: bool) -> PartialExpr<'a>
        ensures { result ≡ record { is_in_filter = is_in_filter; all = None; any = None } }
    {
        PartialExpr {
            is_in_filter,
            all: None,
            any: None,
        }
    }

    /// Returns the expression read so far, if no condition follows.
    #[tactic(auto, unfolding(crate::specs::Private::Frames::partial_outcome))]
    pub(super) fn ended(self) -> Option<(Expr<'a>, &'a [u8])>
        requires { IsPartial self }
        ensures { read_as expression_view result ≡ partial_outcome self.entry None }
    {
        let PartialExpr { all, any, .. } = self;
        match all {
            Some(last) => match any {
                Some(first) => {
                    let (left, right) = (first.left, last.left);
                    let op = BinaryOperator::Or;
                    Some((Expr::BinaryOp { op, left, right }, last.before))
                }
                None => Some((Box::into_inner(last.left), last.before)),
            },
            None => match any {
                Some(only) => Some((Box::into_inner(only.left), only.before)),
                None => None,
            },
        }
    }
}

/// Adds a condition to the expression.
#[tactic(auto, using(crate::proofs::Sets::condition_behind_condition), unfolding(crate::specs::Private::Frames::after_condition_outcome))]
pub(super) fn behind_condition<'a>(
    alloc: Global,
    partial: PartialExpr<'a>,
    found: Expr<'a>,
    rest: &'a [u8],
) -> Result<AfterCondition<'a>, AllocError>
    requires { IsPartial partial }
    ensures value { IfOk result (λ found_next. after_condition_outcome found_next ≡
        partial_outcome partial.entry (Some (expression_view found.entry, rest.now))) }
    ensures is_partial { IfOk result IsAfterCondition }
    ensures shrinks { IfOk result (λ found_next. length (after_condition_rest found_next) ≤ length rest.now) }
{
    let PartialExpr {
        is_in_filter,
        all,
        any,
    } = partial;
    let found = join(alloc, BinaryOperator::And, all, found)?;
    if let Some(after) = separator_at(b"&&", rest) {
        let left = Box::new(alloc, found)?;
        let all = Some(Joined { left, before: rest });
        return Ok(AfterCondition::Next(
            PartialExpr {
                is_in_filter,
                all,
                any,
            },
            after,
        ));
    }
    let found = join(alloc, BinaryOperator::Or, any, found)?;
    if let Some(after) = separator_at(b"||", rest) {
        let left = Box::new(alloc, found)?;
        let any = Some(Joined { left, before: rest });
        return Ok(AfterCondition::Next(
            PartialExpr {
                is_in_filter,
                all: None,
                any,
            },
            after,
        ));
    }
    Ok(AfterCondition::Whole(found, rest))
}

fn join<'a>(
    alloc: Global,
    op: BinaryOperator,
    before: Option<Joined<'a>>,
    next: Expr<'a>,
) -> Result<Expr<'a>, AllocError>
    ensures { IfOk result (λ found. expression_view found ≡
        joined_view op before.entry (expression_view next.entry)) }
{
    match before {
        None => Ok(next),
        Some(Joined { left, before: _ }) => Ok(Expr::BinaryOp {
            op,
            left,
            right: Box::new(alloc, next)?,
        }),
    }
}
