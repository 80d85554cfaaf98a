//! Chains of expressions: pairs whose left side is again a pair, such as `a && b && c`.

ghost use Rattle.std.specs.Prelude.{◌≡◌, ◌<◌, true};
ghost use Rattle.jsonb.specs.PathViews.{expression_view};
ghost use Rattle.jsonb.specs.Private.Chain.{is_pair, left_of, below};

use super::Expr;

/// Returns the number of nested left sides, saturating.
pub(super) fn links_of(expression: &Expr<'_>) -> usize
    ensures { is_pair (expression_view expression.now) ≡ true → 0 < result }
{
    let mut inner = expression;
    let mut links = 0_usize;
    while let Expr::BinaryOp { left, .. } = inner {
        links = links.saturating_add(1);
        inner = left;
    }
    links
}

/// Returns the expression that many left sides below.
#[tactic(auto, using(crate::proofs::ChainText::left_more))]
pub(super) fn below<'e, 'a>(expression: &'e Expr<'a>, links: usize) -> &'e Expr<'a>
    ensures { expression_view result.now ≡ below links (expression_view expression.now) }
{
    let mut inner = expression;
    for _ in 0..links {
        inner = left_of(inner);
    }
    inner
}

/// Returns the left side of a pair, and any other expression itself.
pub(super) fn left_of<'e, 'a>(expression: &'e Expr<'a>) -> &'e Expr<'a>
    ensures { expression_view result.now ≡ left_of (expression_view expression.now) }
{
    match expression {
        Expr::BinaryOp { left, .. } => left,
        _ => expression,
    }
}
