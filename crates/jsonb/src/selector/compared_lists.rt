//! Comparisons of members of items with a literal, such as `$[*].age > 1000`. The members are not collected in a list.

ghost use Rattle.std.specs.List.{AllZip};
ghost use Rattle.std.specs.Prelude.{◌≡◌, ◌≤◌, drop, length, List, true, MatchOption, ⊤, IfErr, OnOk};
ghost use Rattle.jsonb_doc.specs.AnyBytes.Roots.{HasReadableRoot};
ghost use Rattle.jsonb_doc.specs.Format.{Decodes};
ghost use Rattle.jsonb_doc.specs.Payload.{Form};
ghost use Rattle.jsonb_doc.specs.Representation.Positions.{Locates};
ghost use Rattle.jsonb_doc.specs.Tree.{Tree};
ghost use Rattle.jsonb.specs.Meaning.{truth};
ghost use Rattle.jsonb.specs.PathTree.{Expression, steps_of, paths};
ghost use Rattle.jsonb.specs.PathViews.{steps_view, expression_view};
ghost use Rattle.jsonb.specs.SelectionErrors.{IsSelectionError};
ghost use Rattle.jsonb.specs.Private.Calculation.{expression_predicate};
ghost use Rattle.jsonb.specs.Private.Columns.{IsTruth};
ghost use Rattle.jsonb.specs.Private.Compared.{IsMemberCompared, IsListCompared, IsRootCompared, items_truth};
ghost use Rattle.jsonb.specs.Private.Members.{are_members};
ghost use Rattle.jsonb.specs.Private.Selection.{HasTree};
ghost use Rattle.jsonb.specs.declared.selector.document.Mode.TheVariants.{Lax};

use super::compared_member::{compared_member, compared_with, item_truth, literal_truth};
use super::compile::{is_comparison, literal_of, operand_literal};
use super::document::{Context, Current, Document, Expressions, Mode, Repeats, TruthResult};
use super::members::{is_member, root_field, root_name};
use super::plan::MemberCompared;
use super::search::search;
use super::steps::{listed_steps, truth};
use crate::path::{BinaryOperator, Expr, Path, PathValue};
use jsonb_doc::Spot;
use std::alloc::Global;

/// The steps to items, and the comparison of a member of each.
#[derive(Clone, Copy)]
pub(crate) struct ListCompared<'s, 'a> {
    front: &'s [Path<'a>],
    comparison: MemberCompared<'s, 'a>,
}

/// A comparison of a member of the root with a literal, such as `$.age > 1000`.
#[derive(Clone, Copy)]
pub(crate) struct RootCompared<'s, 'a> {
    op: BinaryOperator,
    name: &'s str,
    literal: &'s PathValue<'a>,
}

/// Returns the comparison of a member of the root with a literal that an expression is, if it is one.
#[inline(always)]
pub(crate) fn root_compared<'s, 'a>(e: &'s Expr<'a>) -> Option<RootCompared<'s, 'a>>
    ensures { MatchOption result ⊤ (λ compared. IsRootCompared compared (expression_view e.now)) }
{
    match e {
        Expr::BinaryOp { op, left, right } => {
            let steps = operand_steps(left)?;
            let name = root_name(steps)?;
            let literal = operand_literal(right)?;
            if !is_comparison(*op) {
                return None;
            }
            Some(RootCompared {
                op: *op,
                name,
                literal,
            })
        }
        Expr::Paths(_) | Expr::Value(_) | Expr::UnaryOp { .. } | Expr::ExistsFunc(_) => None,
    }
}

/// Returns the result of a comparison of a member of the root.
#[inline(always)]
pub(crate) fn root_compared_truth(
    mode: Mode,
    compared: RootCompared<'_, '_>,
    bytes: &[u8],
) -> TruthResult
    ensures meant { (form : Form) (e : Expression) (top : Tree) → IsRootCompared compared.entry e
        → Decodes form bytes.now top → IsTruth result (expression_predicate mode e top) }
    ensures errors { IfErr result (IsSelectionError mode) }
    ensures readable { OnOk result (HasReadableRoot bytes.now) }
{
    let RootCompared { op, name, literal } = compared;
    match root_field(mode, bytes, name)? {
        Some(found) => compared_with(op, bytes, found, literal),
        None => Ok(Some(false)),
    }
}

/// Returns whether an expression is true of the root, or `None` if it is unknown.
pub(crate) fn root_truth<'a>(context: &Context<'a>, e: &'a Expr<'_>) -> TruthResult
    ensures meant { (top : Tree) → HasTree context.now.document top
        → IsTruth result (truth context.now.mode (expression_view e.now) top top) }
    ensures errors { IfErr result (IsSelectionError context.now.mode) }
{
    let document = &context.document;
    let item = document.root;
    if let Expr::ExistsFunc(steps) = e {
        if let Some(found) = search(context, Expressions::AreRefused, steps, item)? {
            return Ok(Some(found.is_some()));
        }
    }
    match (context.mode, list_compared(e)) {
        (Mode::Lax, Some(list)) => list_compared_truth(context.alloc, &list, document),
        _ => truth(Current { context, item }, e),
    }
}

/// Returns the comparison of members of items that an expression is, if it is one.
fn list_compared<'s, 'a>(e: &'s Expr<'a>) -> Option<ListCompared<'s, 'a>>
    ensures { MatchOption result ⊤ (λ list. IsListCompared list (expression_view e.now)) }
{
    match e {
        Expr::BinaryOp { op, left, right } => {
            let steps = operand_steps(left)?;
            let literal = literal_of(right)?;
            if !is_comparison(*op) {
                return None;
            }
            let (front, names) = steps.split_at(members_behind(steps));
            let comparison = MemberCompared {
                op: *op,
                names,
                literal,
            };
            Some(ListCompared { front, comparison })
        }
        Expr::Paths(_) | Expr::Value(_) | Expr::UnaryOp { .. } | Expr::ExistsFunc(_) => None,
    }
}

/// Returns the steps that an operand is.
fn operand_steps<'s, 'a>(operand: &'s Expr<'a>) -> Option<&'s [Path<'a>]>
    ensures { MatchOption result ⊤
        (λ steps. expression_view operand.now ≡ paths (steps_of (steps_view steps.now))) }
{
    match operand {
        Expr::Paths(steps) => Some(steps),
        Expr::Value(_) | Expr::BinaryOp { .. } | Expr::UnaryOp { .. } | Expr::ExistsFunc(_) => None,
    }
}

/// Returns the index from which on all steps are `$`, `@` or names.
fn members_behind(steps: &[Path<'_>]) -> usize
    ensures within { result ≤ length steps.now }
    ensures members { are_members (steps_view (drop result steps.now)) ≡ true }
{
    let mut start = steps.len();
    while start > 0 && is_member(&steps[start - 1]) {
        start -= 1;
    }
    start
}

/// Returns the result of a comparison of members of items. Without steps before the names, the root is the item.
fn list_compared_truth<'a>(
    alloc: Global,
    list: &ListCompared<'a, '_>,
    document: &Document<'a>,
) -> TruthResult
    ensures meant { (e : Expression) (top : Tree) → IsListCompared list.now e → HasTree document.now top
        → IsTruth result (truth Lax e top top) }
    ensures errors { IfErr result (IsSelectionError Lax) }
{
    if list.front.is_empty() {
        return item_truth(Mode::Lax, &list.comparison, document.bytes, document.root);
    }
    let context = Context {
        alloc,
        mode: Mode::Lax,
        document: *document,
    };
    let all = Expressions::AreRefused;
    let found = listed_steps(
        &context,
        all,
        Repeats::AreDropped,
        list.front,
        document.root,
    )?;
    items_truth(&list.comparison, document.bytes, found.as_slice())
}

/// Returns the first result of an item that is true or unknown, and otherwise false. No item after that one is visited:
/// in lax mode none fails.
fn items_truth(comparison: &MemberCompared<'_, '_>, bytes: &[u8], items: &[Spot]) -> TruthResult
    ensures meant { (e : Expression) (top : Tree) (ts : List Tree) → IsMemberCompared comparison.now e
        → AllZip (Locates bytes.now) items.now ts → IsTruth result (items_truth comparison.now top ts) }
    ensures errors { IfErr result (IsSelectionError Lax) }
{
    for item in items {
        let found = compared_member(Mode::Lax, comparison, bytes, *item);
        let truth = literal_truth(comparison, bytes, found)?;
        if truth != Some(false) {
            return Ok(truth);
        }
    }
    Ok(Some(false))
}

#[cfg(test)]
mod tests;
