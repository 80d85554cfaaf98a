//! Dropping an expression in a loop over its nodes, without allocating.
//!
//! A node that waits is stored in the boxes that the nodes before it have left.

ghost use Rattle.std.specs.Prelude.{◌≡◌, ℕ, ◌+◌, ◌<◌, IfSome, vec_len, vec_capacity};
ghost use Rattle.jsonb.specs.PathTree.{steps_of};
ghost use Rattle.jsonb.specs.PathViews.{step_view, steps_view};
ghost use Rattle.jsonb_doc.specs.Private.Parts.{to_release};
ghost use Rattle.jsonb.specs.Private.Parts.{step_parts, steps_parts, parts, waiting_parts, remaining};

use super::{BinaryOperator, Expr, Path};

/// An expression to be dropped next, and one that waits after it.
struct Remaining<'a> {
    next: Expr<'a>,
    waiting: Option<Box<Expr<'a>>>,
}

impl<'a> Expr<'a> {
    /// Drops all nodes.
    #[tactic(auto, using(crate::proofs::PartLemmas::less_still))]
    pub(super) fn release(self) {
        let mut remaining = Some(Remaining {
            next: self,
            waiting: None,
        });
        while let Some(Remaining { next, waiting }) = remaining {
            remaining = next.release_step(waiting);
        }
    }

    /// Drops one node; returns what remains of the expression and of what waits.
    fn release_step(self, waiting: Option<Box<Expr<'a>>>) -> Option<Remaining<'a>>
        ensures { IfSome result (λ left. remaining left < to_release (parts self.entry) (waiting_parts waiting.entry)) }
    {
        match self {
            Expr::BinaryOp { op, left, right } => Some(without_pair(op, left, right, waiting)),
            Expr::UnaryOp { op: _, operand } => Some(Remaining {
                next: Box::into_inner(operand),
                waiting,
            }),
            Expr::Paths(steps) | Expr::ExistsFunc(steps) => without_last(steps, waiting),
            Expr::Value(_) => without_next(waiting),
        }
    }
}

/// Returns what waits as the next to be dropped.
#[tactic(auto, using(jsonb_doc::proofs::PartLemmas::fewer_parts))]
fn without_next(waiting: Option<Box<Expr<'_>>>) -> Option<Remaining<'_>>
    ensures { IfSome result (λ left. (n : ℕ) → 0 < n → remaining left < to_release n (waiting_parts waiting.entry)) }
{
    match waiting {
        None => None,
        Some(behind) => Some(Remaining {
            next: Box::into_inner(behind),
            waiting: None,
        }),
    }
}

/// Returns the left side as the next to be dropped. The right one waits, before what already waits, which takes the box
/// of the left one.
#[tactic(auto, using(crate::proofs::Sets::release_without_pair))]
fn without_pair<'a>(
    op: BinaryOperator,
    mut left: Box<Expr<'a>>,
    right: Box<Expr<'a>>,
    waiting: Option<Box<Expr<'a>>>,
) -> Remaining<'a>
    ensures { remaining result <
        to_release (1 + parts left.entry.value + parts right.entry.value) (waiting_parts waiting.entry) }
{
    match waiting {
        None => Remaining {
            next: Box::into_inner(left),
            waiting: Some(right),
        },
        Some(behind) => {
            let both = Expr::BinaryOp {
                op,
                left: right,
                right: behind,
            };
            let next = Box::replace(&mut left, both);
            Remaining {
                next,
                waiting: Some(left),
            }
        }
    }
}

/// Returns the steps without their last one, or the expression that it holds.
#[tactic(auto, using(crate::proofs::Sets::release_without_last))]
fn without_last<'a>(
    mut steps: Vec<Path<'a>>,
    waiting: Option<Box<Expr<'a>>>,
) -> Option<Remaining<'a>>
    ensures { IfSome result (λ left. remaining left <
        to_release (1 + steps_parts (steps_of (steps_view steps.entry.items))) (waiting_parts waiting.entry)) }
{
    let Some(last) = steps.pop() else {
        steps.destroy_empty();
        return without_next(waiting);
    };
    match held(last) {
        Some(inner) => Some(without_inner(steps, inner, waiting)),
        None => Some(Remaining {
            next: Expr::Paths(steps),
            waiting,
        }),
    }
}

/// Returns the expression that a step holds, if it holds one.
fn held(step: Path<'_>) -> Option<Box<Expr<'_>>>
    ensures { IfSome result (λ inner. step_parts (step_view step.entry) ≡ 1 + parts inner.value) }
{
    match step {
        Path::FilterExpr(inner) => Some(inner),
        Path::Expr(inner) => Some(inner),
        _ => None,
    }
}

/// Returns the steps and the expression that followed them. If something already waits, it is stored in the place of
/// that expression's step, and the steps take its box.
#[tactic(auto, using(crate::proofs::Sets::release_without_inner))]
fn without_inner<'a>(
    mut steps: Vec<Path<'a>>,
    mut inner: Box<Expr<'a>>,
    waiting: Option<Box<Expr<'a>>>,
) -> Remaining<'a>
    requires { vec_len steps < vec_capacity steps }
    ensures { remaining result < to_release
        (2 + steps_parts (steps_of (steps_view steps.entry.items)) + parts inner.entry.value)
        (waiting_parts waiting.entry) }
{
    match waiting {
        None => Remaining {
            next: Expr::Paths(steps),
            waiting: Some(inner),
        },
        Some(behind) => {
            steps.push_reserved(Path::Expr(behind));
            let next = Box::replace(&mut inner, Expr::Paths(steps));
            Remaining {
                next,
                waiting: Some(inner),
            }
        }
    }
}
