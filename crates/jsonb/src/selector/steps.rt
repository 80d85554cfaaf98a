//! Evaluation of the steps of a path, one after the other, and of the filters in them.

ghost use Rattle.std.specs.List.{AllZip};
ghost use Rattle.std.specs.Prelude.{◌≡◌, List, Ok, false, IfErr, MatchOption};
ghost use Rattle.jsonb_doc.specs.Answer.{Refines, try_flat_map, IsOutOfMemory};
ghost use Rattle.jsonb_doc.specs.Tree.{Tree};
ghost use Rattle.jsonb.specs.ItemSteps.{field_step};
ghost use Rattle.jsonb.specs.Meaning.{step_meaning, operand_values};
ghost use Rattle.jsonb.specs.PathTree.{filter};
ghost use Rattle.jsonb.specs.PathViews.{step_view, expression_view};
ghost use Rattle.jsonb.specs.SelectionErrors.{IsSelectionError};
ghost use Rattle.jsonb.specs.Private.Alike.{AreSame, HasSame};
ghost use Rattle.jsonb.specs.Private.Selection.{IsAt, HasTree, node_spots, values_view, taken_step, is_filter, IsPlain};
ghost use Rattle.jsonb.specs.Private.Steps.{AreFound, RefinesTruth, SelectsSteps};
ghost use Rattle.jsonb.specs.declared.selector.document.Context.{Context};

use super::children::{StepItems, plain_items};
use super::compile::member_condition;
use super::distinct::{can_repeat, distinct};
use super::document::{Context, Current, Expressions, Repeats, TruthResult};
use super::evaluate::tested_items;
use super::expressions::Evaluation;
use super::lists::kept;
use super::members::{are_members, behind_start, field, member, member_name, start_spot};
use super::node_list::{ListResult, NodeList};
use super::operand_value::{OperandValues, ValuesResult, value_of_literal};
use super::values::found_values;
use crate::path::{Expr, Path};
use jsonb_doc::{Error, Spot};

/// Evaluates a step that is not a filter for one item. Does not allocate for at most one item.
#[inline(never)]
fn plain_step<'t>(context: &Context<'t>, step: &'t Path<'_>, item: Spot) -> ListResult
    ensures meant { (top t : Tree) → is_filter (step_view step.now) ≡ false → IsAt context.now.document item t
        → AreFound context.now.document result (step_meaning context.now.mode (step_view step.now) top t) }
    ensures errors { IfErr result (IsSelectionError context.now.mode) }
{
    let bytes = context.document.bytes;
    let given = plain_items(context.mode, step, bytes, item)?;
    if let StepItems::AtMostOne(found) = given {
        return Ok(NodeList::at_most_one(context.alloc, found));
    }
    let mut nodes = Vec::with_capacity(context.alloc, given.least_len())?;
    given.push(context.alloc, bytes, &mut nodes)?;
    Ok(NodeList::Many(nodes))
}

/// Evaluates a step that is not a filter for each of many items, in order.
#[inline(never)]
fn plain_steps<'t>(context: &Context<'t>, step: &'t Path<'_>, items: &[Spot]) -> ListResult
    ensures meant { (top : Tree) (ts : List Tree) → is_filter (step_view step.now) ≡ false
        → AllZip (IsAt context.now.document) items.now ts → AreFound context.now.document result
        (try_flat_map (step_meaning context.now.mode (step_view step.now) top) ts) }
    ensures errors { IfErr result (IsSelectionError context.now.mode) }
{
    if let Some(name) = member_name(step) {
        return named_values(context, name, items);
    }
    let bytes = context.document.bytes;
    let mut nodes = Vec::with_capacity(context.alloc, items.len())?;
    for item in items {
        let given = plain_items(context.mode, step, bytes, *item)?;
        given.push(context.alloc, bytes, &mut nodes)?;
    }
    Ok(NodeList::Many(nodes))
}

/// Returns the values of a key of each of many items, in order. `plain_items` is too large to be inlined: as a call, it
/// costs an item 91 instructions more.
#[inline(always)]
fn named_values(context: &Context<'_>, name: &str, items: &[Spot]) -> ListResult
    ensures meant { (ts : List Tree) → AllZip (IsAt context.now.document) items.now ts
        → AreFound context.now.document result (try_flat_map (field_step context.now.mode name.now) ts) }
    ensures errors { IfErr result (IsSelectionError context.now.mode) }
{
    let bytes = context.document.bytes;
    let mut nodes = Vec::with_capacity(context.alloc, items.len())?;
    for item in items {
        let found = field(bytes, context.mode, name, *item)?;
        StepItems::AtMostOne(found).push(context.alloc, bytes, &mut nodes)?;
    }
    Ok(NodeList::Many(nodes))
}

/// Returns the expression of a step that is a filter.
#[inline(always)]
pub(crate) fn filter_of<'s, 'a>(
    expressions: Expressions,
    step: &'s Path<'a>,
) -> Option<&'s Expr<'a>>
    ensures { MatchOption result (IsPlain expressions (step_view step.now))
        (λ e. taken_step expressions (step_view step.now) ≡ filter (expression_view e.now)) }
{
    match (step, expressions) {
        (Path::FilterExpr(e), _) => Some(e),
        (Path::Expr(e), Expressions::AreFilters) => Some(e),
        _ => None,
    }
}

/// Evaluates a step that is not a filter for each item of a list, in order.
#[inline(always)]
pub(crate) fn plain_list(
    context: &Context<'_>,
    repeats: Repeats,
    step: &Path<'_>,
    items: NodeList,
) -> ListResult
    ensures meant { (top : Tree) (ts : List Tree) → is_filter (step_view step.now) ≡ false
        → AllZip (IsAt context.now.document) (node_spots items) ts
        → Refines (λ found us. HasSame repeats context.now.document.bytes.now (node_spots found) us) IsOutOfMemory
        result (try_flat_map (step_meaning context.now.mode (step_view step.now) top) ts) }
    ensures errors { IfErr result (IsSelectionError context.now.mode) }
{
    let selects_again = can_repeat(step, items.as_slice().len() > 1);
    let found = plain_found(context, step, items)?;
    distinct(context.alloc, repeats, selects_again, found)
}

/// Returns what a step that is not a filter selects of each item of a list, in order, also what it selects again. `$`
/// and `@` leave the list unchanged.
#[inline(always)]
fn plain_found(context: &Context<'_>, step: &Path<'_>, items: NodeList) -> ListResult
    ensures meant { (top : Tree) (ts : List Tree) → is_filter (step_view step.now) ≡ false
        → AllZip (IsAt context.now.document) (node_spots items) ts → AreFound context.now.document result
        (try_flat_map (step_meaning context.now.mode (step_view step.now) top) ts) }
    ensures errors { IfErr result (IsSelectionError context.now.mode) }
{
    match step {
        Path::Root | Path::Current => Ok(items),
        _ => match items {
            NodeList::One(item) => plain_step(context, step, item),
            NodeList::Many(items) => plain_steps(context, step, &items),
        },
    }
}

/// Evaluates several steps, one after the other, from one item. Names alone are looked up without a list.
#[inline(always)]
pub(crate) fn select_steps<'a>(
    context: &Context<'a>,
    expressions: Expressions,
    repeats: Repeats,
    steps: &'a [Path<'_>],
    first: Spot,
) -> ListResult
    ensures meant { SelectsSteps context.now expressions repeats steps.now first result }
    ensures errors { IfErr result (IsSelectionError context.now.mode) }
{
    let behind = behind_start(steps);
    if !are_members(behind) {
        return listed_steps(context, expressions, repeats, behind, first);
    }
    let found = member(context.mode, behind, context.document.bytes, first)?;
    Ok(NodeList::at_most_one(context.alloc, found))
}

/// Evaluates several steps, one after the other, from one item, as lists of items.
#[inline(never)]
pub(crate) fn listed_steps<'a>(
    context: &Context<'a>,
    expressions: Expressions,
    repeats: Repeats,
    steps: &'a [Path<'_>],
    first: Spot,
) -> ListResult
    ensures meant { SelectsSteps context.now expressions repeats steps.now first result }
    ensures errors { IfErr result (IsSelectionError context.now.mode) }
{
    let mut items = NodeList::One(first);
    for step in steps {
        items = match filter_of(expressions, step) {
            Some(e) => filtered(context, e, items)?,
            None => plain_list(context, repeats, step, items)?,
        };
    }
    Ok(items)
}

/// Evaluates a filter of a list of items.
#[inline(never)]
fn filtered<'a>(context: &Context<'a>, e: &'a Expr<'_>, items: NodeList) -> ListResult
    ensures meant { (top : Tree) (ts : List Tree) → HasTree context.now.document top
        → AllZip (IsAt context.now.document) (node_spots items) ts → AreFound context.now.document result
        (try_flat_map (step_meaning context.now.mode (filter (expression_view e.now)) top) ts) }
    ensures errors { IfErr result (IsSelectionError context.now.mode) }
{
    let bytes = context.document.bytes;
    if let Some(condition) = member_condition(context.alloc, e)? {
        let tests = condition.as_slice();
        return tested_items(context.alloc, context.mode, tests, bytes, items.as_slice());
    }
    let mut evaluation = Evaluation::new(context, items);
    let truths = evaluation.truths(e)?;
    kept(context.alloc, evaluation.items.as_slice(), &truths, 0)
}

/// Returns whether an expression is true of an item.
#[inline(never)]
pub(crate) fn truth<'a>(current: Current<'_, 'a>, e: &'a Expr<'_>) -> TruthResult
    ensures meant { RefinesTruth current.entry (expression_view e.now) result }
    ensures errors { IfErr result (IsSelectionError current.entry.context.now.mode) }
{
    let Current { context, item } = current;
    let mut evaluation = Evaluation::new(context, NodeList::One(item));
    let truths = evaluation.truths(e)?;
    match truths.at(0) {
        Some(truth) => *truth,
        None => Err(Error::InvalidJsonPath),
    }
}

/// Returns the values of an operand.
#[inline(never)]
pub(crate) fn operand_values<'a>(
    current: Current<'_, 'a>,
    repeats: Repeats,
    e: &'a Expr<'_>,
) -> ValuesResult<'a>
    ensures meant { (top t : Tree) → HasTree current.entry.context.now.document top
        → IsAt current.entry.context.now.document current.entry.item t
        → Refines (λ values vs. AreSame repeats (values_view values) vs) IsOutOfMemory result
        (operand_values current.entry.context.now.mode (expression_view e.now) top t) }
    ensures errors { IfErr result (IsSelectionError current.entry.context.now.mode) }
{
    let Current { context, item } = current;
    match e {
        Expr::Paths(steps) => {
            let first = start_spot(steps, context.document, item);
            let found = select_steps(context, Expressions::AreRefused, repeats, steps, first)?;
            found_values(context.alloc, context.document.bytes, &found)
        }
        Expr::Value(literal) => Ok(OperandValues::One(value_of_literal(literal))),
        Expr::BinaryOp { .. } | Expr::UnaryOp { .. } | Expr::ExistsFunc(_) => Err(
            Error::InvalidJsonPath,
        ),
    }
}
