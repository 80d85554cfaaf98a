//! Evaluation of an expression for all items of a list at once.
//!
//! Each part of it is evaluated once, for all items. What waits for a filter within a path is in a `Vec`, so filters within
//! filters are not recursive calls.

ghost use Rattle.std.specs.List.{AllZip};
ghost use Rattle.std.specs.Prelude.{◌≡◌, ◌+◌, ◌<◌, ◌≤◌, [], ℕ, List, Ok, Err, true, false, IfOk, IfErr, IfSome, OnOk, map, flat_map, ◌∷◌};
ghost use Rattle.jsonb_doc.specs.Answer.{Outcome, and_then, try_flat_map, IsOutOfMemory, IsDecodingError};
ghost use Rattle.jsonb_doc.specs.Representation.Positions.{Locates};
ghost use Rattle.jsonb_doc.specs.Tree.{Tree};
ghost use Rattle.jsonb.specs.Compare.{Truth, compare};
ghost use Rattle.jsonb.specs.Meaning.{step_meaning, steps_meaning, operand_values, truth, start};
ghost use Rattle.jsonb.specs.PathTree.{Expression, exists, filter};
ghost use Rattle.jsonb.specs.PathViews.{step_view, steps_view, expression_view};
ghost use Rattle.jsonb.specs.SelectionErrors.{IsSelectionError};
ghost use Rattle.jsonb.specs.Values.{Value, values_of_item};
ghost use Rattle.jsonb.specs.Private.Columns.{AreLists, AreSound, AreTruths, AreValues, AreValuesOf, HasSome, IsList, IsTruth};
ghost use Rattle.jsonb.specs.Private.Members.{are_members};
ghost use Rattle.jsonb.specs.Private.Onward.{AreLefts, AreSoundWaits, Continues, IsForItems, IsOperand, IsSoundFrame, IsSoundOperand, IsSoundTurn, IsSoundWalked, IsStepped, IsWalked, LeadsOn, StaysSound, TruthsLead, WaitsFor, WalkLeads, TurnLeads, Aim, are_sound_lefts, both_truths, compared_values, exists_of, frame_weight, frames_weight, operand_weight, path_steps, starts_of, turn_weight, values_found, waits_weight, walk_weight, walked_weight, weight, steps_weight};
ghost use Rattle.jsonb.specs.Private.Selection.{IsAt, HasTree, is_filter, value_view};
ghost use Rattle.jsonb.specs.Private.Tests.{IsQuestionOf, AreTestsOf};
ghost use Rattle.jsonb.specs.declared.selector.document.Mode.{Mode};
ghost use Rattle.jsonb.specs.declared.selector.expressions.Frame.{Frame};

use super::column::{Column, Truths, column_of, settled};
use super::compared_member::compared_truth;
use super::compile::{member_condition, plain_question};
use super::document::{Context, Expressions, Repeats, TruthResult};
use super::evaluate::{question_truth, tested_items};
use super::lists::{Lists, filtered, items_of, update};
use super::members::{are_members, is_relative, member};
use super::node_list::{ListResult, NodeList};
use super::operand_value::{
    OperandValue, OperandValues, ValuesResult, compare_one, value_of_literal,
};
use super::pair::{Join, pair_of};
use super::plan::{Question, Test};
use super::search::search;
use super::steps::{filter_of, plain_list};
use super::values::found_values;
use crate::path::{BinaryOperator, Expr, Path, PathValue};
use jsonb_doc::{Error, Spot};
use std::alloc::Global;
use std::mem::replace;
use std::slice;

/// A path that is an operand.
#[derive(Clone, Copy)]
pub(crate) struct PathOperand<'a, 'p> {
    pub(crate) steps: &'a [Path<'p>],
}

/// An operand: a literal, or what it selects for each item, or the path that selects this.
#[derive(Drop)]
pub(crate) enum Operand<'a, 'p> {
    Literal(&'a PathValue<'p>),
    Lists(Lists),
    Path(PathOperand<'a, 'p>),
}

/// The left operand of a comparison: a literal, or what it selects for each item.
#[derive(Drop)]
pub(crate) enum Lefts<'a, 'p> {
    Literal(&'a PathValue<'p>),
    Lists(Lists),
}

/// Steps of a path that are left, and what those before them have selected for each item.
#[derive(Drop)]
pub(crate) struct Walk<'a, 'p> {
    pub(crate) steps: &'a [Path<'p>],
    pub(crate) lists: Lists,
}

/// How far the steps of a path have come.
#[derive(Drop)]
pub(crate) enum Walked<'a, 'p> {
    /// To the end.
    End(Lists),
    /// To a filter with other tests than questions of members, and the steps after it.
    Filter(&'a Expr<'p>, Walk<'a, 'p>),
}

/// What waits for a path.
#[derive(Drop)]
pub(crate) enum Waits<'a, 'p> {
    /// The `exists` of the path.
    Exists,
    /// A comparison with the path on the left. The other operand is the right one.
    Left(BinaryOperator, &'a Expr<'p>),
    /// A comparison with the path on the right, and its left operand.
    Right(BinaryOperator, Lefts<'a, 'p>),
}

/// What is evaluated next, or the truth of what was.
#[derive(Drop)]
pub(crate) enum Turn<'a, 'p> {
    Ask(&'a Expr<'p>),
    Walk(Waits<'a, 'p>, Walk<'a, 'p>),
    Truths(Truths),
}

/// The next turn.
pub(crate) type Next<'a, 'p> = Result<Turn<'a, 'p>, Error>;

/// What waits for the truth of an expression.
#[derive(Drop)]
pub(crate) enum Frame<'a, 'p> {
    /// Two joined expressions, of which it is the left one. The other is the right one.
    Left(Join, &'a Expr<'p>),
    /// Two joined expressions, of which it is the right one, with the truth of the left one.
    Right(Join, Truths),
    /// A filter within a path, with what waits for the path, and the items that this is evaluated for.
    Filter(Waits<'a, 'p>, NodeList, Walk<'a, 'p>),
}

/// The evaluation of an expression for some items.
#[derive(Drop)]
pub(crate) struct Evaluation<'a, 'p> {
    pub(crate) context: Context<'a>,
    pub(crate) items: NodeList,
    /// What waits, the innermost last.
    frames: Vec<Frame<'a, 'p>>,
}

impl<'a, 'p> Evaluation<'a, 'p> {
    pub(crate) fn new(context: &Context<'a>, items: NodeList) -> Evaluation<'a, 'p>
        ensures context { result.context ≡ context.now }
        ensures items { result.items ≡ items }
        ensures frames { result.frames.items ≡ [] }
    {
        Evaluation {
            context: *context,
            items,
            frames: Vec::new(context.alloc),
        }
    }

    /// Returns whether an expression is true of each item.
    pub(crate) fn truths(&mut self, e: &'a Expr<'p>) -> Result<Truths, Error>
        ensures same { self.new.context ≡ self.old.context }
        ensures meant { (top : Tree) (ts : List Tree) → HasTree self.old.context.document top → IsForItems self.old ts
            → self.old.frames.items ≡ [] → IfOk result (λ truths. IsForItems self.new ts
            × AreTruths (truth self.old.context.mode (expression_view e.now) top) ts truths) }
        ensures sound { self.old.frames.items ≡ [] → IfOk result (AreSound self.old.context.mode) }
        ensures errors { IfErr result IsOutOfMemory }
    {
        let mut turn = Turn::Ask(e);
        loop {
            turn = match turn {
                Turn::Ask(e) => self.ask(e)?,
                Turn::Walk(waits, walk) => self.walk(waits, walk)?,
                Turn::Truths(truths) => match self.frames.pop() {
                    Some(frame) => self.take(frame, truths)?,
                    None => return Ok(truths),
                },
            };
        }
    }

    /// Begins an expression.
    fn ask(&mut self, e: &'a Expr<'p>) -> Next<'a, 'p>
        ensures same { self.new.context ≡ self.old.context }
        ensures meant { Continues self.old self.new result (λ aim top ts frames.
            TruthsLead aim self.old.context top ts (truth self.old.context.mode (expression_view e.now) top) frames) }
        ensures sound { StaysSound self.old self.new result }
        ensures fewer { IfOk result (λ next. turn_weight next + frames_weight self.new
            < 2 + weight (expression_view e.now) + frames_weight self.old) }
        ensures errors { IfErr result IsOutOfMemory }
    {
        if self.items.as_slice().is_empty() {
            return Ok(Turn::Truths(Column::Each(Vec::new(self.context.alloc))));
        }
        if let Some(pair) = pair_of(e) {
            self.frames.push(Frame::Left(pair.join, pair.right))?;
            return Ok(Turn::Ask(pair.left));
        }
        if let Some(question) = plain_question(e) {
            return Ok(Turn::Truths(self.questions(&question)?));
        }
        match e {
            Expr::BinaryOp { op, left, right } => self.left(*op, left, right),
            Expr::ExistsFunc(steps) => self.exists(steps),
            Expr::Paths(_) | Expr::Value(_) | Expr::UnaryOp { .. } => {
                Ok(Turn::Truths(Column::Same(Err(Error::InvalidJsonPath))))
            }
        }
    }

    /// Evaluates a question of members for each item.
    fn questions(&self, question: &Question<'_, '_>) -> Result<Truths, Error>
        ensures meant { (e : Expression) (top : Tree) (ts : List Tree) → IsQuestionOf question.now e
            → IsForItems self.now ts → IfOk result (AreTruths (truth self.now.context.mode e top) ts) }
        ensures sound { IfOk result (AreSound self.now.context.mode) }
        ensures errors { IfErr result IsOutOfMemory }
    {
        let context = self.context;
        let bytes = context.document.bytes;
        column_of(context.alloc, self.items.as_slice(), |item| {
            question_truth(context.alloc, context.mode, question, bytes, *item)
        })
    }

    /// Begins an `exists`.
    fn exists(&self, steps: &'a [Path<'p>]) -> Next<'a, 'p>
        ensures meant { LeadsOn self.now result (truth self.now.context.mode (exists (path_steps steps.now))) }
        ensures sound { IfOk result (IsSoundTurn self.now.context.mode) }
        ensures fewer { IfOk result (λ next. turn_weight next ≤ 1 + steps_weight (path_steps steps.now)) }
        ensures errors { IfErr result IsOutOfMemory }
    {
        match self.searched(steps)? {
            Some(truths) => Ok(Turn::Truths(truths)),
            None => {
                let walk = self.begin(steps)?;
                Ok(Turn::Walk(Waits::Exists, walk))
            }
        }
    }

    /// Returns the items that steps begin at: the root, or those that the expression is evaluated for.
    #[inline(always)]
    fn starts(&self, steps: &[Path<'_>]) -> &[Spot]
        ensures { result.now ≡ starts_of self.now (steps_view steps.now) }
    {
        if is_relative(steps) {
            self.items.as_slice()
        } else {
            slice::from_ref(&self.context.document.root)
        }
    }

    /// Returns for each item whether steps select an item, or `None` if this cannot be found by a search.
    fn searched(&self, steps: &[Path<'_>]) -> Result<Option<Truths>, Error>
        ensures meant { (top : Tree) (ts : List Tree) → HasTree self.now.context.document top → IsForItems self.now ts
            → HasSome ts → IfOk result (λ found. IfSome found
            (AreTruths (truth self.now.context.mode (exists (path_steps steps.now)) top) ts)) }
        ensures sound { IfOk result (λ found. IfSome found (AreSound self.now.context.mode)) }
        ensures errors { IfErr result IsOutOfMemory }
    {
        let items = self.starts(steps);
        if items.len() == 1 {
            let found = found_truth(&self.context, steps, items[0])?;
            return Ok(found.map(Column::Same));
        }
        let mut truths = Vec::with_capacity(self.context.alloc, items.len())?;
        for item in items {
            let Some(truth) = found_truth(&self.context, steps, *item)? else {
                return Ok(None);
            };
            truths.push(truth)?;
        }
        Ok(Some(Column::Each(truths)))
    }

    /// Begins the steps of a path within the expression.
    fn begin(&self, steps: &'a [Path<'p>]) -> Result<Walk<'a, 'p>, Error>
        ensures steps { IfOk result (λ w. w.steps.now ≡ steps.now) }
        ensures meant { (top : Tree) (ts : List Tree) → HasTree self.now.context.document top → IsForItems self.now ts
            → HasSome ts → IfOk result (λ w. AreLists self.now.context.document.bytes.now
            (λ t. Ok (start (path_steps steps.now) top t ∷ [])) ts w.lists) }
        ensures sound { IfOk result (λ w. AreSound self.now.context.mode w.lists) }
        ensures errors { IfErr result IsOutOfMemory }
    {
        let items = self.starts(steps);
        let lists = column_of(self.context.alloc, items, |item| Ok(NodeList::One(*item)))?;
        Ok(Walk { steps, lists })
    }

    /// Begins a comparison.
    fn left(&self, op: BinaryOperator, left: &'a Expr<'p>, right: &'a Expr<'p>) -> Next<'a, 'p>
        ensures meant { LeadsOn self.now result (λ top t. compared_values op
            (operand_values self.now.context.mode (expression_view left.now) top t)
            (operand_values self.now.context.mode (expression_view right.now) top t)) }
        ensures sound { IfOk result (IsSoundTurn self.now.context.mode) }
        ensures fewer { IfOk result (λ next. turn_weight next
            ≤ 1 + weight (expression_view left.now) + weight (expression_view right.now)) }
        ensures errors { IfErr result IsOutOfMemory }
    {
        match self.operand(left)? {
            Operand::Literal(literal) => self.right(op, Lefts::Literal(literal), right),
            Operand::Lists(lists) => self.right(op, Lefts::Lists(lists), right),
            Operand::Path(path) => {
                let walk = self.begin(path.steps)?;
                Ok(Turn::Walk(Waits::Left(op, right), walk))
            }
        }
    }

    /// Continues a comparison with its right operand.
    fn right(&self, op: BinaryOperator, lefts: Lefts<'a, 'p>, right: &'a Expr<'p>) -> Next<'a, 'p>
        ensures meant { (h : Tree → Outcome (List Value)) (aim : Aim) (top : Tree) (ts : List Tree)
            (frames : List Frame) → HasTree self.now.context.document top → IsForItems self.now ts → HasSome ts
            → AreLefts self.now.context h ts lefts.entry
            → TruthsLead aim self.now.context top ts (λ t. compared_values op (h t)
            (operand_values self.now.context.mode (expression_view right.now) top t)) frames
            → IfOk result (TurnLeads aim self.now.context top ts frames) }
        ensures sound { are_sound_lefts self.now.context.mode lefts.entry
            → IfOk result (IsSoundTurn self.now.context.mode) }
        ensures fewer { IfOk result (λ next. turn_weight next ≤ 1 + weight (expression_view right.now)) }
        ensures errors { IfErr result IsOutOfMemory }
    {
        match self.operand(right)? {
            Operand::Literal(literal) => {
                let value = OperandValues::One(value_of_literal(literal));
                let rights = Column::Same(Ok(value));
                Ok(Turn::Truths(self.compared(op, &lefts, &rights)?))
            }
            Operand::Lists(lists) => { Ok(Turn::Truths(self.compared_lists(op, &lefts, &lists)?)) }
            Operand::Path(path) => {
                let walk = self.begin(path.steps)?;
                Ok(Turn::Walk(Waits::Right(op, lefts), walk))
            }
        }
    }

    /// Returns the truth of a comparison with what the right operand selects.
    fn compared_lists(
        &self,
        op: BinaryOperator,
        lefts: &Lefts<'a, 'p>,
        lists: &Lists,
    ) -> Result<Truths, Error>
        ensures meant { (h : Tree → Outcome (List Value)) (g : Tree → Outcome (List Tree)) (ts : List Tree)
            → AreLefts self.now.context h ts lefts.now → AreLists self.now.context.document.bytes.now g ts lists.now
            → IfOk result (AreTruths (λ t. compared_values op (h t) (values_found (g t))) ts) }
        ensures sound { are_sound_lefts self.now.context.mode lefts.now → AreSound self.now.context.mode lists.now
            → IfOk result (AreSound self.now.context.mode) }
        ensures errors { IfErr result IsOutOfMemory }
    {
        let alloc = self.context.alloc;
        let bytes = self.context.document.bytes;
        let rights = lists.map(alloc, |list| values_of(alloc, bytes, list))?;
        self.compared(op, lefts, &rights)
    }

    /// Returns the truth of a comparison with the values of the right operand.
    fn compared(
        &self,
        op: BinaryOperator,
        lefts: &Lefts<'a, 'p>,
        rights: &Column<ValuesResult<'a>>,
    ) -> Result<Truths, Error>
        ensures meant { (h k : Tree → Outcome (List Value)) (ts : List Tree)
            → AreLefts self.now.context h ts lefts.now → AreValuesOf k ts rights.now
            → IfOk result (AreTruths (λ t. compared_values op (h t) (k t)) ts) }
        ensures sound { are_sound_lefts self.now.context.mode lefts.now → AreSound self.now.context.mode rights.now
            → IfOk result (AreSound self.now.context.mode) }
        ensures errors { IfErr result IsOutOfMemory }
    {
        let alloc = self.context.alloc;
        let bytes = self.context.document.bytes;
        match lefts {
            Lefts::Literal(literal) => {
                let left = value_of_literal(literal);
                rights.map(alloc, |values| literal_compared(op, &left, values))
            }
            Lefts::Lists(lists) => {
                lists.both(alloc, rights, |list, values| {
                    list_compared(op, bytes, list, values)
                })
            }
        }
    }

    /// Returns an operand, or its path if this is not a member.
    fn operand(&self, e: &'a Expr<'p>) -> Result<Operand<'a, 'p>, Error>
        ensures meant { (top : Tree) (ts : List Tree) → HasTree self.now.context.document top → IsForItems self.now ts
            → HasSome ts → IfOk result (IsOperand self.now.context top
            (operand_values self.now.context.mode (expression_view e.now) top) ts) }
        ensures sound { IfOk result (IsSoundOperand self.now.context.mode) }
        ensures fewer { IfOk result (λ operand. operand_weight operand ≤ weight (expression_view e.now)) }
        ensures errors { IfErr result IsOutOfMemory }
    {
        match e {
            Expr::Paths(steps) if are_members(steps) => Ok(Operand::Lists(self.members(steps)?)),
            Expr::Paths(steps) => Ok(Operand::Path(PathOperand { steps })),
            Expr::Value(literal) => Ok(Operand::Literal(literal)),
            Expr::BinaryOp { .. } | Expr::UnaryOp { .. } | Expr::ExistsFunc(_) => {
                Ok(Operand::Lists(Column::Same(Err(Error::InvalidJsonPath))))
            }
        }
    }

    /// Returns the member that these steps name.
    fn members(&self, steps: &[Path<'_>]) -> Result<Lists, Error>
        ensures meant { (top : Tree) (ts : List Tree) → are_members (steps_view steps.now) ≡ true
            → HasTree self.now.context.document top → IsForItems self.now ts → HasSome ts
            → IfOk result (AreLists self.now.context.document.bytes.now (λ t. steps_meaning self.now.context.mode
            (path_steps steps.now) top (start (path_steps steps.now) top t ∷ [])) ts) }
        ensures sound { IfOk result (AreSound self.now.context.mode) }
        ensures errors { IfErr result IsOutOfMemory }
    {
        let context = &self.context;
        column_of(
            context.alloc,
            self.starts(steps),
            |item| member_list(context, steps, *item),
        )
    }

    /// Evaluates steps that are left, up to a filter by an expression.
    fn walk(&mut self, waits: Waits<'a, 'p>, walk: Walk<'a, 'p>) -> Next<'a, 'p>
        ensures same { self.new.context ≡ self.old.context }
        ensures meant { Continues self.old self.new result (λ aim top ts frames.
            WalkLeads aim self.old.context top ts waits.entry walk.entry frames) }
        ensures sound { AreSoundWaits self.old.context.mode waits.entry
            → AreSound self.old.context.mode walk.entry.lists → StaysSound self.old self.new result }
        ensures fewer { IfOk result (λ next. turn_weight next + frames_weight self.new
            < waits_weight waits.entry + walk_weight walk.entry + frames_weight self.old) }
        ensures errors { IfErr result IsOutOfMemory }
    {
        match advance(&self.context, walk)? {
            Walked::End(lists) => self.finish(waits, lists),
            Walked::Filter(e, walk) => {
                let items = items_of(self.context.alloc, &walk.lists)?;
                let outer = replace(&mut self.items, items);
                self.frames.push(Frame::Filter(waits, outer, walk))?;
                Ok(Turn::Ask(e))
            }
        }
    }

    /// Continues with what a path has selected.
    fn finish(&self, waits: Waits<'a, 'p>, lists: Lists) -> Next<'a, 'p>
        ensures meant { (g : Tree → Outcome (List Tree)) (f : Tree → Outcome Truth) (aim : Aim) (top : Tree)
            (ts : List Tree) (frames : List Frame) → HasTree self.now.context.document top → IsForItems self.now ts
            → AreLists self.now.context.document.bytes.now g ts lists
            → WaitsFor self.now.context top ts g waits.entry f → TruthsLead aim self.now.context top ts f frames
            → IfOk result (TurnLeads aim self.now.context top ts frames) }
        ensures sound { AreSoundWaits self.now.context.mode waits.entry → AreSound self.now.context.mode lists
            → IfOk result (IsSoundTurn self.now.context.mode) }
        ensures fewer { IfOk result (λ next. turn_weight next ≤ waits_weight waits.entry) }
        ensures errors { IfErr result IsOutOfMemory }
    {
        match waits {
            Waits::Exists => Ok(Turn::Truths(lists.map(self.context.alloc, exists)?)),
            Waits::Left(op, right) => self.right(op, Lefts::Lists(lists), right),
            Waits::Right(op, lefts) => {
                Ok(Turn::Truths(self.compared_lists(op, &lefts, &lists)?))
            }
        }
    }

    /// Continues with the truth of an expression.
    fn take(&mut self, frame: Frame<'a, 'p>, truths: Truths) -> Next<'a, 'p>
        ensures same { self.new.context ≡ self.old.context }
        ensures meant { (f : Tree → Outcome Truth) → Continues self.old self.new result (λ aim top ts frames.
            AreTruths f ts truths × TruthsLead aim self.old.context top ts f (frame.entry ∷ frames)) }
        ensures sound { IsSoundFrame self.old.context.mode frame.entry → AreSound self.old.context.mode truths
            → StaysSound self.old self.new result }
        ensures fewer { IfOk result (λ next. turn_weight next + frames_weight self.new
            < 1 + frame_weight frame.entry + frames_weight self.old) }
        ensures errors { IfErr result IsOutOfMemory }
    {
        match frame {
            Frame::Left(join, right) => {
                self.frames.push(Frame::Right(join, truths))?;
                Ok(Turn::Ask(right))
            }
            Frame::Right(join, lefts) => {
                let truths = lefts.both(self.context.alloc, &truths, |left, right| {
                    joined(join, *left, *right)
                })?;
                Ok(Turn::Truths(truths))
            }
            Frame::Filter(waits, outer, walk) => {
                self.items = outer;
                let Walk { steps, lists } = walk;
                let lists = filtered(self.context.alloc, lists, &truths)?;
                Ok(Turn::Walk(waits, Walk { steps, lists }))
            }
        }
    }
}

/// Returns whether steps select an item from one, if a search finds it.
fn found_truth(
    context: &Context<'_>,
    steps: &[Path<'_>],
    item: Spot,
) -> Result<Option<TruthResult>, Error>
    ensures meant { (top t : Tree) → HasTree context.now.document top → IsAt context.now.document item t
        → IfOk result (λ found. IfSome found (λ said. IsTruth said
        (exists_of (steps_meaning context.now.mode (path_steps steps.now) top (t ∷ []))))) }
    ensures sound { IfOk result (λ found. IfSome found (λ said. IfErr said (IsSelectionError context.now.mode))) }
    ensures errors { IfErr result IsOutOfMemory }
{
    match settled(search(context, Expressions::AreRefused, steps, item))? {
        Ok(Some(found)) => Ok(Some(Ok(Some(found.is_some())))),
        Ok(None) => Ok(None),
        Err(error) => Ok(Some(Err(error))),
    }
}

/// Returns the member that these steps name, starting at an item.
#[inline(always)]
fn member_list(context: &Context<'_>, steps: &[Path<'_>], first: Spot) -> ListResult
    ensures meant { (top t : Tree) → are_members (steps_view steps.now) ≡ true → IsAt context.now.document first t
        → IsList context.now.document.bytes.now result
        (steps_meaning context.now.mode (path_steps steps.now) top (t ∷ [])) }
    ensures sound { IfErr result (IsSelectionError context.now.mode) }
{
    let found = member(context.mode, steps, context.document.bytes, first)?;
    Ok(NodeList::at_most_one(context.alloc, found))
}

/// Evaluates steps within an expression, up to a filter with other tests than questions of members.
fn advance<'a, 'p>(context: &Context<'a>, walk: Walk<'a, 'p>) -> Result<Walked<'a, 'p>, Error>
    ensures meant { (top : Tree) (g : Tree → Outcome (List Tree)) (ts : List Tree)
        → AreLists context.now.document.bytes.now g ts walk.entry.lists
        → IfOk result (IsWalked context.now top (λ t. and_then (g t)
        (steps_meaning context.now.mode (path_steps walk.entry.steps.now) top)) ts) }
    ensures sound { AreSound context.now.mode walk.entry.lists → IfOk result (IsSoundWalked context.now.mode) }
    ensures fewer { IfOk result (λ next. walked_weight next ≤ walk_weight walk.entry) }
    ensures errors { IfErr result IsOutOfMemory }
{
    let Walk { steps, lists } = walk;
    let mut lists = lists;
    let mut next = 0;
    while next < steps.len() {
        let step = &steps[next];
        next += 1;
        if let Some(e) = step_lists(context, step, &mut lists)? {
            let steps = &steps[next..];
            return Ok(Walked::Filter(e, Walk { steps, lists }));
        }
    }
    Ok(Walked::End(lists))
}

/// Evaluates a step within an expression, unless it is a filter with other tests than questions of members. Returns the
/// expression of such a filter.
#[inline(always)]
fn step_lists<'a, 'p>(
    context: &Context<'a>,
    step: &'a Path<'p>,
    lists: &mut Lists,
) -> Result<Option<&'a Expr<'p>>, Error>
    ensures meant { (top : Tree) (g : Tree → Outcome (List Tree)) (ts : List Tree)
        → AreLists context.now.document.bytes.now g ts lists.old
        → IfOk result (IsStepped context.now top g ts (step_view step.now) lists.new) }
    ensures sound { AreSound context.now.mode lists.old → OnOk result (AreSound context.now.mode lists.new) }
    ensures fewer { IfOk result (λ found. IfSome found (λ e. step_view step.now ≡ filter (expression_view e.now))) }
    ensures errors { IfErr result IsOutOfMemory }
{
    let Some(e) = filter_of(Expressions::AreRefused, step) else {
        update(lists, |list| step_list(context, step, list))?;
        return Ok(None);
    };
    let Some(condition) = member_condition(context.alloc, e)? else {
        return Ok(Some(e));
    };
    let tests = condition.as_slice();
    update(lists, |list| test_list(context, tests, list))?;
    Ok(None)
}

/// Evaluates a step that is not a filter for a list.
#[inline(always)]
fn step_list(context: &Context<'_>, step: &Path<'_>, list: ListResult) -> ListResult
    ensures meant { (top : Tree) (o : Outcome (List Tree)) → is_filter (step_view step.now) ≡ false
        → IsList context.now.document.bytes.now list o → IsList context.now.document.bytes.now result
        (and_then o (try_flat_map (step_meaning context.now.mode (step_view step.now) top))) }
    ensures sound { IfErr list (IsSelectionError context.now.mode) → IfErr result (IsSelectionError context.now.mode) }
{
    plain_list(context, Repeats::AreDropped, step, list?)
}

/// Evaluates a filter by members for a list.
#[inline(always)]
fn test_list(context: &Context<'_>, tests: &[Test<'_, '_>], list: ListResult) -> ListResult
    ensures meant { (e : Expression) (top : Tree) (o : Outcome (List Tree)) → AreTestsOf tests.now e
        → IsList context.now.document.bytes.now list o → IsList context.now.document.bytes.now result
        (and_then o (try_flat_map (step_meaning context.now.mode (filter e) top))) }
    ensures sound { IfErr list (IsSelectionError context.now.mode) → IfErr result (IsSelectionError context.now.mode) }
{
    let bytes = context.document.bytes;
    tested_items(context.alloc, context.mode, tests, bytes, list?.as_slice())
}

/// Returns whether a list has an item.
#[inline(always)]
fn exists(list: &ListResult) -> TruthResult
    ensures meant { (bytes : List ℕ) (o : Outcome (List Tree)) → IsList bytes list.now o
        → IsTruth result (exists_of o) }
    ensures sound { (mode : Mode) → IfErr list.now (IsSelectionError mode) → IfErr result (IsSelectionError mode) }
{
    match list {
        Ok(items) => Ok(Some(!items.as_slice().is_empty())),
        Err(error) => Err(*error),
    }
}

/// Returns the values of a list.
#[inline(always)]
fn values_of<'a>(alloc: Global, bytes: &'a [u8], list: &ListResult) -> ValuesResult<'a>
    ensures meant { (o : Outcome (List Tree)) → IsList bytes.now list.now o → AreValues result (values_found o) }
    ensures sound { (mode : Mode) → IfErr list.now (IsSelectionError mode) → IfErr result (IsSelectionError mode) }
{
    match list {
        Ok(items) => found_values(alloc, bytes, items),
        Err(error) => Err(*error),
    }
}

/// Returns how a literal compares with values.
#[inline(always)]
fn literal_compared(
    op: BinaryOperator,
    left: &OperandValue<'_>,
    rights: &ValuesResult<'_>,
) -> TruthResult
    ensures meant { (r : Outcome (List Value)) → AreValues rights.now r
        → IsTruth result (compared_values op (Ok (value_view left.now ∷ [])) r) }
    ensures sound { (mode : Mode) → IfErr rights.now (IsSelectionError mode) → IfErr result (IsSelectionError mode) }
{
    match rights {
        Ok(rights) => Ok(compare_one(op, left, rights.as_slice())),
        Err(error) => Err(*error),
    }
}

/// Returns how the values of a list compare with others.
#[inline(always)]
fn list_compared(
    op: BinaryOperator,
    bytes: &[u8],
    lefts: &ListResult,
    rights: &ValuesResult<'_>,
) -> TruthResult
    ensures meant { (l : Outcome (List Tree)) (r : Outcome (List Value)) → IsList bytes.now lefts.now l
        → AreValues rights.now r → IsTruth result (compared_values op (values_found l) r) }
    ensures sound { (mode : Mode) → IfErr lefts.now (IsSelectionError mode) → IfErr rights.now (IsSelectionError mode)
        → IfErr result (IsSelectionError mode) }
{
    match (lefts, rights) {
        (Ok(lefts), Ok(rights)) => spots_truth(op, bytes, lefts.as_slice(), rights.as_slice()),
        (Err(error), _) => Err(*error),
        (_, Err(error)) => Err(*error),
    }
}

/// Returns how the values of items compare with others: the first result that is true or unknown decides.
fn spots_truth(
    op: BinaryOperator,
    bytes: &[u8],
    items: &[Spot],
    rights: &[OperandValue<'_>],
) -> TruthResult
    ensures meant { (ts : List Tree) → AllZip (Locates bytes.now) items.now ts → IsTruth result (Ok (compare op
        (flat_map values_of_item ts) (map value_view rights.now))) }
    ensures errors { IfErr result IsDecodingError }
{
    for item in items {
        let truth = compared_truth(op, bytes, *item, rights)?;
        if truth != Some(false) {
            return Ok(truth);
        }
    }
    Ok(Some(false))
}

/// Returns the truth of two joined expressions.
#[inline(always)]
fn joined(join: Join, left: TruthResult, right: TruthResult) -> TruthResult
    ensures meant { (l r : Outcome Truth) → IsTruth left l → IsTruth right r → IsTruth result (both_truths join l r) }
    ensures sound { (mode : Mode) → IfErr left (IsSelectionError mode) → IfErr right (IsSelectionError mode)
        → IfErr result (IsSelectionError mode) }
{
    let left = left?;
    let right = right?;
    match (left, right) {
        (Some(left), Some(right)) => match join {
            Join::And => Ok(Some(left && right)),
            Join::Or => Ok(Some(left || right)),
        },
        _ => Ok(None),
    }
}
