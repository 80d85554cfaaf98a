//! Expressions, which contain each other: in parentheses, in filters and in `exists`.
//!
//! Open expressions are in a list of frames, so that parsing deep text uses no more stack than flat text.

ghost use Rattle.std.specs.Prelude.{◌≡◌, ◌<◌, IfOk};
ghost use Rattle.jsonb.specs.PathGrammar.{expression};
ghost use Rattle.jsonb_keypath.specs.Views.{read_as, ConsumesInput};
ghost use Rattle.jsonb.specs.PathViews.{expression_view};
ghost use Rattle.jsonb.specs.Private.Frames.{partial_outcome, opening_outcome, resumed, IsPartial, IsOpening, AreFrames};

use super::Reading;
use super::condition::{AfterCondition, PartialExpr, behind_condition};
use super::opening::{Opened, Opening, closed_at, opening_at};
use crate::path::Expr;
use std::alloc::Global;

/// An expression that waits for the content of an open parenthesis.
#[derive(Drop)]
struct Frame<'a> {
    partial: PartialExpr<'a>,
    opened: Opened<'a>,
}

/// Reads a whole expression.
pub(super) fn expression_at(
    alloc: Global,
    is_in_filter: bool,
    input: &[u8],
) -> Reading<'_, Expr<'_>>
    ensures value { IfOk result (λ found. read_as expression_view found ≡ expression is_in_filter input.now) }
    ensures shrinks { IfOk result (ConsumesInput input.now) }
{
    let first = opening_at(alloc, is_in_filter, input)?;
    expression_from(alloc, is_in_filter, first)
}

/// Reads a whole expression whose beginning was read or opened.
pub(super) fn expression_from<'a>(
    alloc: Global,
    is_in_filter: bool,
    first: Opening<'a>,
) -> Reading<'a, Expr<'a>>
    requires { IsOpening first }
    ensures { IfOk result (λ found. read_as expression_view found ≡ partial_outcome
        (record { is_in_filter = is_in_filter; all = None; any = None }) (opening_outcome is_in_filter first.entry)) }
{
    let mut frames = Vec::new(alloc);
    let mut partial = PartialExpr::new(is_in_filter);
    let mut opening = first;
    loop {
        match opening {
            Opening::Nothing => return Ok(failed(frames, partial)),
            Opening::Inside(opened, inside) => {
                let is_in_filter = opened.is_in_filter(partial.is_in_filter);
                frames.push(Frame { partial, opened })?;
                partial = PartialExpr::new(is_in_filter);
                opening = opening_at(alloc, is_in_filter, inside)?;
            }
            Opening::Atom(found, rest) => match behind_condition(alloc, partial, found, rest)? {
                AfterCondition::Next(next, after) => {
                    opening = opening_at(alloc, next.is_in_filter, after)?;
                    partial = next;
                }
                AfterCondition::Whole(whole, end) => match frames.pop() {
                    None => return Ok(Some((whole, end))),
                    Some(
                        Frame {
                            partial: outer,
                            opened,
                        },
                    ) => {
                        partial = outer;
                        opening = closed_at(alloc, opened, whole, end)?;
                    }
                },
            },
        }
    }
}

/// Returns the outermost expression, unless it ends after a separator or an open parenthesis.
fn failed<'a>(mut frames: Vec<Frame<'a>>, partial: PartialExpr<'a>) -> Option<(Expr<'a>, &'a [u8])>
    requires { AreFrames frames.items × IsPartial partial }
    ensures { read_as expression_view result ≡ resumed frames.entry.items (partial_outcome partial.entry None) }
{
    let mut outer = partial;
    while let Some(frame) = frames.pop() {
        outer = frame.partial;
    }
    outer.ended()
}
