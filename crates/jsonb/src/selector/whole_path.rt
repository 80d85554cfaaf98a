//! A path as a whole: its top steps, or one expression.

ghost use Rattle.std.specs.List.{AllZip};
ghost use Rattle.std.specs.Prelude.{◌≡◌, ◌∷◌, [], List, Ok, Err, None, Some, false, true, MatchOption, IfOk, IfSome, IfErr, ⊤};
ghost use Rattle.jsonb_doc.specs.Answer.{Refines, SameOption, Outcome, and_then, IsOutOfMemory, ◌or◌};
ghost use Rattle.jsonb_doc.specs.AnyBytes.Roots.{HasReadableRoot};
ghost use Rattle.jsonb_doc.specs.Arithmetic.{Operation};
ghost use Rattle.jsonb_doc.specs.Format.{Decodes};
ghost use Rattle.jsonb_doc.specs.Payload.{Form};
ghost use Rattle.jsonb_doc.specs.Representation.Positions.{Locates};
ghost use Rattle.jsonb_doc.specs.Tree.{Tree};
ghost use Rattle.jsonb.specs.Meaning.{operand_values, truth, Means, truth_item, first_item};
ghost use Rattle.jsonb.specs.PathArithmetic.{operation, each_signed};
ghost use Rattle.jsonb.specs.PathTree.{root, filter, whole_expression, value};
ghost use Rattle.jsonb.specs.PathViews.{steps_view, expression_view, literal_view};
ghost use Rattle.jsonb.specs.SelectionErrors.{IsSelectionError};
ghost use Rattle.jsonb.specs.SelectorAnswers.{IsFound};
ghost use Rattle.jsonb.specs.Private.Calculation.{calculation, truth_list, expression_predicate};
ghost use Rattle.jsonb.specs.Private.Columns.{IsTruth};
ghost use Rattle.jsonb.specs.Private.Compared.{RefinesIfAny};
ghost use Rattle.jsonb.specs.Private.Search.{BeginsAs};
ghost use Rattle.jsonb.specs.Private.Selected.{is_computed};
ghost use Rattle.jsonb.specs.Private.Selection.{IsAt, HasTree, GivesMeant, IsMadeItem, IsNumberItem, IsNumberTree, AreSelected, only_expression, is_relative};
ghost use Rattle.jsonb.specs.declared.selector.document.Document.{Document};
ghost use Rattle.jsonb.specs.declared.selector.document.Mode.{Mode};
ghost use Rattle.jsonb.specs.declared.selector.selected.MadeItem.TheVariants as made_item;

use super::calculate::{binary_number, is_arithmetic, unary_numbers};
use super::compared_lists::root_truth;
use super::document::{Context, Current, Document, Expressions, Mode, Repeats, TruthResult};
use super::evaluate::is_true;
use super::is_some;
use super::members::{is_relative, root_field, root_name};
use super::node_list::NodeList;
use super::search::{FirstResult, search};
use super::selected::{MadeItem, Selected, Selection};
use super::steps::{listed_steps, operand_values, select_steps};
use crate::path::{BinaryOperator, Expr, Path, PathValue, UnaryOperator};
use jsonb_doc::{Error, Item, Number, Spot, root_item};

/// Returns what a path selects.
pub(crate) fn selection<'a>(context: &Context<'a>, steps: &'a [Path<'_>]) -> Selection<'a>
    ensures meant { GivesMeant AreSelected context.now.document context.now.mode (steps_view steps.now) result }
    ensures nodes { only_expression (steps_view steps.now) ≡ None → IfOk result (λ found. is_computed found ≡ false) }
    ensures errors { IfErr result (IsSelectionError context.now.mode) }
{
    if let Some(e) = only_expression(steps) {
        return expression_selection(context, e);
    }
    if is_relative(steps) {
        return Err(Error::InvalidJsonPath);
    }
    let all = Expressions::AreFilters;
    let root = context.document.root;
    if let Some(e) = root_filter(steps) {
        let keeps = is_true(root_truth(context, e)?);
        let found = NodeList::at_most_one(context.alloc, keeps.then_some(root));
        return Ok(Selected::Nodes(found));
    }
    let spots = select_steps(context, all, Repeats::AreKept, steps, root)?;
    Ok(Selected::Nodes(spots))
}

/// Returns the member that a path of `$` and a name selects. The outer `None` means that it is another path. It needs
/// no context: `exists` of `$.age` for a row takes 206 instructions instead of 345.
#[inline(always)]
pub(crate) fn root_member(mode: Mode, bytes: &[u8], steps: &[Path<'_>]) -> FirstResult
    ensures meant { (form : Form) (top : Tree) (outcome : Outcome (List Tree)) → Decodes form bytes.now top
        → Means form mode (steps_view steps.now) top outcome
        → RefinesIfAny (λ spot ts. SameOption (Locates bytes.now) spot (first_item ts)) result outcome }
    ensures errors { IfErr result (IsSelectionError mode) }
    ensures readable { IfOk result (λ found. IfSome found (λ _. HasReadableRoot bytes.now)) }
{
    let Some(name) = root_name(steps) else {
        return Ok(None);
    };
    let found = root_field(mode, bytes, name)?;
    Ok(Some(found))
}

/// Returns whether a path selects an item.
pub(crate) fn selects_any<'a>(context: &Context<'a>, steps: &'a [Path<'_>]) -> Result<bool, Error>
    ensures meant { (form : Form) (top : Tree) (outcome : Outcome (List Tree)) → HasTree context.now.document top
        → Means form context.now.mode (steps_view steps.now) top outcome → IsFound form outcome result }
    ensures errors { IfErr result (IsSelectionError context.now.mode) }
{
    match searched(context, steps)? {
        Some(first) => Ok(first.is_some()),
        None => any_listed(context, steps),
    }
}

/// Returns whether a path selects an item, if a search does not find the first. It is a separate function so that a
/// search needs no frame for the list: `exists` of `$.age` takes 345 instructions instead of 471.
#[inline(never)]
fn any_listed<'a>(context: &Context<'a>, steps: &'a [Path<'_>]) -> Result<bool, Error>
    ensures meant { (form : Form) (top : Tree) (outcome : Outcome (List Tree)) → HasTree context.now.document top
        → Means form context.now.mode (steps_view steps.now) top outcome → IsFound form outcome result }
    ensures errors { IfErr result (IsSelectionError context.now.mode) }
{
    let selected = listed_selection(context, steps)?;
    Ok(is_some(&selected))
}

/// Returns what a path selects, for a caller that needs only the first item: others may be left out.
pub(crate) fn first_selection<'a>(context: &Context<'a>, steps: &'a [Path<'_>]) -> Selection<'a>
    ensures meant { GivesMeant BeginsAs context.now.document context.now.mode (steps_view steps.now) result }
    ensures nodes { only_expression (steps_view steps.now) ≡ None → IfOk result (λ found. is_computed found ≡ false) }
    ensures errors { IfErr result (IsSelectionError context.now.mode) }
{
    match searched(context, steps)? {
        Some(first) => Ok(Selected::Nodes(NodeList::at_most_one(context.alloc, first))),
        None => listed_selection(context, steps),
    }
}

/// Returns the first item that a path selects. The outer `None` means that it was not found by a search.
#[inline(always)]
pub(crate) fn searched<'a>(context: &Context<'a>, steps: &'a [Path<'_>]) -> FirstResult
    ensures meant { (form : Form) (top : Tree) (outcome : Outcome (List Tree)) → HasTree context.now.document top
        → Means form context.now.mode (steps_view steps.now) top outcome
        → RefinesIfAny (λ spot ts. SameOption (IsAt context.now.document) spot (first_item ts)) result outcome }
    ensures errors { IfErr result (IsSelectionError context.now.mode) }
{
    if !is_walked(steps) {
        return Ok(None);
    }
    let all = Expressions::AreFilters;
    search(context, all, steps, context.document.root)
}

/// Returns what a path selects, for a caller that needs only the first item, which a search has not found.
#[inline(never)]
pub(crate) fn listed_selection<'a>(context: &Context<'a>, steps: &'a [Path<'_>]) -> Selection<'a>
    ensures meant { GivesMeant BeginsAs context.now.document context.now.mode (steps_view steps.now) result }
    ensures nodes { only_expression (steps_view steps.now) ≡ None → IfOk result (λ found. is_computed found ≡ false) }
    ensures errors { IfErr result (IsSelectionError context.now.mode) }
{
    if !is_walked(steps) {
        return selection(context, steps);
    }
    let all = Expressions::AreFilters;
    let root = context.document.root;
    let firsts = listed_steps(context, all, Repeats::AreDropped, steps, root)?;
    Ok(Selected::Nodes(firsts))
}

/// Returns `true` if a path is evaluated step by step: not an expression, nor a filter of the root, nor one that begins
/// with `@`, which fails.
#[inline(always)]
fn is_walked(steps: &[Path<'_>]) -> bool
    ensures { result ≡ true → (only_expression (steps_view steps.now) ≡ None)
        × (is_relative (steps_view steps.now) ≡ false) }
{
    if only_expression(steps).is_some() || is_relative(steps) {
        return false;
    }
    root_filter(steps).is_none()
}

/// Returns the expression of a filter of the root, if the path is one.
fn root_filter<'s, 'a>(steps: &'s [Path<'a>]) -> Option<&'s Expr<'a>>
    ensures { MatchOption result ⊤
        (λ e. steps_view steps.now ≡ root ∷ filter (expression_view e.now) ∷ []) }
{
    match steps {
        [Path::Root, step] => match step {
            Path::FilterExpr(e) => Some(e),
            _ => None,
        },
        _ => None,
    }
}

/// Returns the expression that is the whole path.
pub(crate) fn only_expression<'s, 'a>(steps: &'s [Path<'a>]) -> Option<&'s Expr<'a>>
    ensures { MatchOption result (only_expression (steps_view steps.now) ≡ None)
        (λ e. only_expression (steps_view steps.now) ≡ Some (expression_view e.now)) }
{
    match steps {
        [step] => match step {
            Path::Expr(e) => Some(e),
            _ => None,
        },
        _ => None,
    }
}

/// Returns the result of an expression that is the whole path.
#[inline(never)]
fn expression_selection<'a>(context: &Context<'a>, e: &'a Expr<'_>) -> Selection<'a>
    ensures meant { GivesMeant AreSelected context.now.document context.now.mode
        (whole_expression (expression_view e.now) ∷ []) result }
    ensures errors { IfErr result (IsSelectionError context.now.mode) }
{
    match e {
        Expr::Paths(_) => Err(Error::InvalidJsonPath),
        Expr::Value(value) => literal_selection(value),
        Expr::UnaryOp { op, operand } => {
            let numbers = whole_unary(context, *op, operand)?;
            Ok(Selected::Numbers(numbers))
        }
        Expr::BinaryOp { op, left, right } => {
            if is_arithmetic(*op) {
                let number = whole_binary(context, *op, left, right)?;
                Ok(Selected::Made(MadeItem::Item(Item::Number(number))))
            } else {
                whole_truth(context, e)
            }
        }
        Expr::ExistsFunc(_) => whole_truth(context, e),
    }
}

/// Returns the result of a literal that is the whole path: an array of it, and of a document the document.
#[tactic(auto, using(crate::proofs::RefinesLemmas::same_outcome, crate::proofs::RefinesLemmas::one_given))]
fn literal_selection<'a>(literal: &'a PathValue<'_>) -> Selection<'a>
    ensures meant { (form : Form) (document : Document) (mode : Mode) (top : Tree) (outcome : Outcome (List Tree))
        → Means form mode (whole_expression (value (literal_view literal.now)) ∷ []) top outcome
        → Refines (AreSelected form document) IsOutOfMemory result outcome }
    ensures errors { (mode : Mode) → IfErr result (IsSelectionError mode) }
{
    match literal {
        PathValue::Null => Ok(Selected::Made(MadeItem::ArrayOf(Item::Null))),
        PathValue::Boolean(b) => Ok(Selected::Made(MadeItem::ArrayOf(Item::Boolean(*b)))),
        PathValue::Number(n) => Ok(Selected::Made(MadeItem::ArrayOf(Item::Number(*n)))),
        PathValue::String(s) => Ok(Selected::Made(MadeItem::ArrayOf(Item::String(s.as_str())))),
        PathValue::Raw(raw) => {
            let item = root_item(raw.as_bytes())?;
            Ok(Selected::Made(MadeItem::Item(item)))
        }
    }
}

/// Returns the signed numbers of an operand.
fn whole_unary<'a>(
    context: &Context<'a>,
    op: UnaryOperator,
    operand: &'a Expr<'_>,
) -> Result<Vec<Number>, Error>
    ensures meant { (top : Tree) → HasTree context.now.document top
        → Refines (λ v ts. AllZip IsNumberItem v.items ts) IsOutOfMemory result
        (and_then (operand_values context.now.mode (expression_view operand.now) top top)
        (each_signed op)) }
    ensures errors { IfErr result (IsSelectionError context.now.mode) }
{
    let item = context.document.root;
    let values = operand_values(Current { context, item }, Repeats::AreKept, operand)?;
    unary_numbers(context.alloc, op, values.as_slice())
}

/// Returns the number of two operands. The values of both are taken first.
fn whole_binary<'a>(
    context: &Context<'a>,
    op: BinaryOperator,
    left: &'a Expr<'_>,
    right: &'a Expr<'_>,
) -> Result<Number, Error>
    ensures meant { (top : Tree) (o : Operation) → HasTree context.now.document top
        → operation op ≡ Some o → Refines IsNumberTree IsOutOfMemory result
        (calculation o (operand_values context.now.mode (expression_view left.now) top top)
        (operand_values context.now.mode (expression_view right.now) top top)) }
    ensures errors { IfErr result (IsSelectionError context.now.mode) }
{
    let item = context.document.root;
    let lefts = operand_values(Current { context, item }, Repeats::AreKept, left)?;
    let rights = operand_values(Current { context, item }, Repeats::AreKept, right)?;
    binary_number(op, lefts.as_slice(), rights.as_slice())
}

/// Returns the Boolean of a comparison, `&&`, `||` or `exists`, or null if it is unknown.
fn whole_truth<'a>(context: &Context<'a>, e: &'a Expr<'_>) -> Selection<'a>
    ensures meant { (form : Form) (top : Tree) → HasTree context.now.document top
        → Refines (AreSelected form context.now.document) IsOutOfMemory result
        (truth_list (truth context.now.mode (expression_view e.now) top top)) }
    ensures errors { IfErr result (IsSelectionError context.now.mode) }
{
    let truth = root_truth(context, e)?;
    Ok(Selected::Made(MadeItem::Item(truth_item(truth))))
}

/// Returns a three-valued result as an item: unknown is null.
fn truth_item<'a>(truth: Option<bool>) -> Item<'a>
    ensures { (form : Form) → IsMadeItem form (made_item.Item result) (truth_item truth) }
{
    match truth {
        Some(b) => Item::Boolean(b),
        None => Item::Null,
    }
}

/// Returns the result of an expression as a predicate.
pub(crate) fn expression_truth<'a>(context: &Context<'a>, e: &'a Expr<'_>) -> TruthResult
    ensures meant { (top : Tree) → HasTree context.now.document top → IsTruth result (expression_predicate
        context.now.mode (expression_view e.now) top) }
    ensures errors { IfErr result (IsSelectionError context.now.mode) }
{
    match e {
        Expr::Paths(_) => Err(Error::InvalidJsonPath),
        Expr::Value(_) => Ok(None),
        Expr::UnaryOp { op, operand } => {
            let _numbers = whole_unary(context, *op, operand)?;
            Ok(None)
        }
        Expr::BinaryOp { op, left, right } => {
            if is_arithmetic(*op) {
                let _number = whole_binary(context, *op, left, right)?;
                Ok(None)
            } else {
                root_truth(context, e)
            }
        }
        Expr::ExistsFunc(_) => root_truth(context, e),
    }
}
