//! Expressions that `&&` or `||` joins.

ghost use Rattle.std.specs.Prelude.{◌≡◌, false, MatchOption};
ghost use Rattle.jsonb.specs.PathViews.{expression_view};
ghost use Rattle.jsonb.specs.Private.Pairs.{join_of, is_joined, IsPairOf};

use crate::path::{BinaryOperator, Expr};

/// An operator that joins two results.
#[derive(Clone, Copy)]
pub(crate) enum Join {
    And,
    Or,
}

/// Two expressions, and the operator that joins them.
#[derive(Clone, Copy)]
pub(crate) struct Pair<'s, 'p> {
    pub(crate) join: Join,
    pub(crate) left: &'s Expr<'p>,
    pub(crate) right: &'s Expr<'p>,
}

/// Returns the operator as one that joins results.
fn join_of(op: BinaryOperator) -> Option<Join>
    ensures { result ≡ join_of op }
{
    match op {
        BinaryOperator::And => Some(Join::And),
        BinaryOperator::Or => Some(Join::Or),
        _ => None,
    }
}

/// Returns `true` if `&&` or `||` joins two expressions in this one.
#[inline(always)]
pub(crate) fn is_joined(e: &Expr<'_>) -> bool
    ensures { result ≡ is_joined (expression_view e.now) }
{
    match e {
        Expr::BinaryOp { op, .. } => join_of(*op).is_some(),
        Expr::Paths(_) | Expr::Value(_) | Expr::UnaryOp { .. } | Expr::ExistsFunc(_) => false,
    }
}

/// Returns the two expressions that an operator joins in this one.
pub(crate) fn pair_of<'s, 'p>(e: &'s Expr<'p>) -> Option<Pair<'s, 'p>>
    ensures { MatchOption result (is_joined (expression_view e.now) ≡ false) (IsPairOf e.now) }
{
    match e {
        Expr::BinaryOp { op, left, right } => {
            let join = join_of(*op)?;
            Some(Pair { join, left, right })
        }
        Expr::Paths(_) | Expr::Value(_) | Expr::UnaryOp { .. } | Expr::ExistsFunc(_) => None,
    }
}
