//! Copying an expression in a loop. What remains to be done around a node is in frames.

ghost use Rattle.std.specs.Prelude.{◌≡◌, ◌+◌, ◌≤◌, false, IfOk, IfErr};
ghost use Rattle.jsonb_doc.specs.Answer.{IsOutOfMemory};
ghost use Rattle.jsonb.specs.Private.Documents.{expression_has_document};
ghost use Rattle.jsonb.specs.PathTree.{steps_of};
ghost use Rattle.jsonb.specs.PathViews.{step_view, steps_view, expression_view};
ghost use Rattle.jsonb.specs.Private.Copying.{listed, held, held_view, so_far_view, so_far_parts, so_far_has_document, leaf_view, leaf_parts, leaf_has_document, framed, waiting, have_document, next_view, next_parts, next_has_document, copied_view, copied_parts, copied_has_document, progress_view, progress_parts, progress_has_document};
ghost use Rattle.jsonb.specs.Private.Parts.{steps_parts, parts};

use super::{BinaryOperator, Expr, Path, PathValue, UnaryOperator};
use jsonb_doc::Error;
use std::alloc::Global;
use std::slice;

/// What the steps of an expression are.
#[derive(Clone, Copy)]
pub(super) enum StepsKind {
    /// A path.
    Paths,
    /// A test whether a path selects an item.
    Exists,
}

/// What a step does with the expression that it holds.
#[derive(Clone, Copy)]
pub(super) enum Holder {
    Filter,
    Whole,
}

/// The steps of an expression, the first ones copied.
#[derive(Drop)]
pub(super) struct StepsSoFar<'e, 'a, 'b> {
    pub kind: StepsKind,
    pub copies: Vec<Path<'b>>,
    pub rest: slice::Iter<'e, Path<'a>>,
}

/// What surrounds a node that is being copied.
#[derive(Drop)]
pub(super) enum Frame<'e, 'a, 'b> {
    /// The part is a left side, and this is the right one.
    Right {
        op: BinaryOperator,
        right: &'e Expr<'a>,
    },
    /// The part is a right side, and this is a copy of the left one.
    Left {
        op: BinaryOperator,
        left: Box<Expr<'b>>,
    },
    /// The part has a sign.
    Sign(UnaryOperator),
    /// A step holds the part, between the copies and the rest of these.
    Held {
        holder: Holder,
        steps: StepsSoFar<'e, 'a, 'b>,
    },
}

/// An expression that is neither a pair nor signed.
#[derive(Drop)]
pub(super) enum Leaf<'e, 'a, 'b> {
    Value(&'e PathValue<'a>),
    Steps(StepsSoFar<'e, 'a, 'b>),
}

/// The progress of copying a leaf.
#[derive(Drop)]
pub(super) enum Copied<'e, 'a, 'b> {
    /// To its end.
    Whole(Expr<'b>),
    /// Up to an inner expression, which this frame surrounds.
    Within {
        inner: &'e Expr<'a>,
        frame: Frame<'e, 'a, 'b>,
    },
}

/// What is done next within the frames.
#[derive(Drop)]
pub(super) enum Next<'e, 'a, 'b> {
    /// This right side is to be copied.
    Right(&'e Expr<'a>),
    /// The rest of these steps is to be copied.
    Steps(StepsSoFar<'e, 'a, 'b>),
    /// Nothing: this is the whole copy.
    Whole(Expr<'b>),
}

/// The progress of copying a step.
#[derive(Drop)]
pub(super) enum StepCopy<'e, 'a, 'b> {
    /// To its end.
    Whole(Path<'b>),
    /// Not at all, since it holds this expression.
    Holding(Holder, &'e Expr<'a>),
}

/// A leaf, and what surrounds it.
#[derive(Drop)]
pub(super) struct ReachedLeaf<'e, 'a, 'b> {
    pub leaf: Leaf<'e, 'a, 'b>,
    pub frames: Vec<Frame<'e, 'a, 'b>>,
}

/// The progress of copying the whole expression.
#[derive(Drop)]
pub(super) enum Progress<'e, 'a, 'b> {
    /// Up to this leaf.
    Leaf(ReachedLeaf<'e, 'a, 'b>),
    /// To its end.
    Whole(Expr<'b>),
}

/// Returns the expression of these steps.
pub(super) fn listed(kind: StepsKind, steps: Vec<Path<'_>>) -> Expr<'_>
    ensures { expression_view result ≡ listed kind (steps_of (steps_view steps.entry.items)) }
{
    match kind {
        StepsKind::Paths => Expr::Paths(steps),
        StepsKind::Exists => Expr::ExistsFunc(steps),
    }
}

/// Returns the first leaf of an expression that these frames surround.
pub(super) fn first_leaf<'e, 'a, 'b>(
    alloc: Global,
    expression: &'e Expr<'a>,
    mut frames: Vec<Frame<'e, 'a, 'b>>,
) -> Result<ReachedLeaf<'e, 'a, 'b>, Error>
    ensures whole { IfOk result (λ reached. framed reached.frames.items (leaf_view reached.leaf)
        ≡ framed frames.entry.items (expression_view expression.now)) }
    ensures fewer { IfOk result (λ reached. waiting reached.frames.items + leaf_parts reached.leaf
        ≤ waiting frames.entry.items + parts expression.now) }
    ensures documents { IfOk result (λ reached.
        have_document reached.frames.items ≡ have_document frames.entry.items) }
    ensures clean { IfOk result (λ reached. leaf_has_document reached.leaf ≡ false) }
    ensures errors { IfErr result IsOutOfMemory }
{
    let mut inner = expression;
    loop {
        match inner {
            Expr::BinaryOp { op, left, right } => {
                frames.push(Frame::Right { op: *op, right })?;
                inner = left;
            }
            Expr::UnaryOp { op, operand } => {
                frames.push(Frame::Sign(*op))?;
                inner = operand;
            }
            Expr::Value(literal) => {
                let leaf = Leaf::Value(literal);
                return Ok(ReachedLeaf { leaf, frames });
            }
            Expr::Paths(steps) => {
                let leaf = Leaf::Steps(none_copied(alloc, StepsKind::Paths, steps)?);
                return Ok(ReachedLeaf { leaf, frames });
            }
            Expr::ExistsFunc(steps) => {
                let leaf = Leaf::Steps(none_copied(alloc, StepsKind::Exists, steps)?);
                return Ok(ReachedLeaf { leaf, frames });
            }
        }
    }
}

/// Returns steps of which none is copied yet.
fn none_copied<'e, 'a, 'b>(
    alloc: Global,
    kind: StepsKind,
    steps: &'e Vec<Path<'a>>,
) -> Result<StepsSoFar<'e, 'a, 'b>, Error>
    ensures whole { IfOk result (λ found. so_far_view found ≡ listed kind (steps_of (steps_view steps.now.items))) }
    ensures fewer { IfOk result (λ found. so_far_parts found
        ≡ 1 + steps_parts (steps_of (steps_view steps.now.items))) }
    ensures clean { IfOk result (λ found. so_far_has_document found ≡ false) }
    ensures errors { IfErr result IsOutOfMemory }
{
    let copies = Vec::with_capacity(alloc, steps.len())?;
    Ok(StepsSoFar {
        kind,
        copies,
        rest: steps.iter(),
    })
}

/// Returns the next leaf after this copy within the frames, if there is one.
#[tactic(auto, using(crate::proofs::Sets::copying_resume_copy))]
pub(super) fn resume_copy<'e, 'a, 'b>(
    alloc: Global,
    copied: Copied<'e, 'a, 'b>,
    mut frames: Vec<Frame<'e, 'a, 'b>>,
) -> Result<Progress<'e, 'a, 'b>, Error>
    ensures whole { IfOk result (λ progress. progress_view progress
        ≡ framed frames.entry.items (copied_view copied.entry)) }
    ensures fewer { IfOk result (λ progress. progress_parts progress
        ≤ waiting frames.entry.items + copied_parts copied.entry) }
    ensures documents { have_document frames.entry.items ≡ false → copied_has_document copied.entry ≡ false
        → IfOk result (λ progress. progress_has_document progress ≡ false) }
    ensures errors { IfErr result IsOutOfMemory }
{
    match copied {
        Copied::Within { inner, frame } => {
            frames.push(frame)?;
            Ok(Progress::Leaf(first_leaf(alloc, inner, frames)?))
        }
        Copied::Whole(copy) => match put_in(alloc, copy, &mut frames)? {
            Next::Whole(whole) => Ok(Progress::Whole(whole)),
            Next::Right(right) => Ok(Progress::Leaf(first_leaf(alloc, right, frames)?)),
            Next::Steps(steps) => {
                let leaf = Leaf::Steps(steps);
                Ok(Progress::Leaf(ReachedLeaf { leaf, frames }))
            }
        },
    }
}

/// Stores a copy in the frames, up to the first one in which something remains to be copied.
pub(super) fn put_in<'e, 'a, 'b>(
    alloc: Global,
    copy: Expr<'b>,
    frames: &mut Vec<Frame<'e, 'a, 'b>>,
) -> Result<Next<'e, 'a, 'b>, Error>
    ensures whole { IfOk result (λ next. next_view frames.new.items next
        ≡ framed frames.old.items (expression_view copy.entry)) }
    ensures fewer { IfOk result (λ next. waiting frames.new.items + next_parts next ≤ waiting frames.old.items) }
    ensures documents { have_document frames.old.items ≡ false
        → expression_has_document (expression_view copy.entry) ≡ false
        → IfOk result (λ next. next_has_document frames.new.items next ≡ false) }
    ensures errors { IfErr result IsOutOfMemory }
{
    let mut copy = copy;
    while let Some(frame) = frames.pop() {
        match frame {
            Frame::Right { op, right } => {
                let left = Box::new(alloc, copy)?;
                frames.push(Frame::Left { op, left })?;
                return Ok(Next::Right(right));
            }
            Frame::Held { holder, steps } => {
                return Ok(Next::Steps(with_held(alloc, holder, copy, steps)?));
            }
            Frame::Left { op, left } => {
                let right = Box::new(alloc, copy)?;
                copy = Expr::BinaryOp { op, left, right };
            }
            Frame::Sign(op) => {
                let operand = Box::new(alloc, copy)?;
                copy = Expr::UnaryOp { op, operand };
            }
        }
    }
    Ok(Next::Whole(copy))
}

/// Returns the steps with a copy of the expression that the next one holds.
#[tactic(auto, using(crate::proofs::Sets::copying_with_held))]
fn with_held<'e, 'a, 'b>(
    alloc: Global,
    holder: Holder,
    inner: Expr<'b>,
    steps: StepsSoFar<'e, 'a, 'b>,
) -> Result<StepsSoFar<'e, 'a, 'b>, Error>
    ensures whole { IfOk result (λ more. so_far_view more
        ≡ held_view holder steps.entry (expression_view inner.entry)) }
    ensures fewer { IfOk result (λ more. so_far_parts more ≡ so_far_parts steps.entry) }
    ensures documents { so_far_has_document steps.entry ≡ false
        → expression_has_document (expression_view inner.entry) ≡ false
        → IfOk result (λ more. so_far_has_document more ≡ false) }
    ensures errors { IfErr result IsOutOfMemory }
{
    let StepsSoFar {
        kind,
        mut copies,
        rest,
    } = steps;
    let held = Box::new(alloc, inner)?;
    copies.push(holding(holder, held))?;
    Ok(StepsSoFar { kind, copies, rest })
}

/// Returns a step that holds an expression.
pub(super) fn holding(holder: Holder, inner: Box<Expr<'_>>) -> Path<'_>
    ensures { step_view result ≡ held holder (expression_view inner.entry.value) }
{
    match holder {
        Holder::Filter => Path::FilterExpr(inner),
        Holder::Whole => Path::Expr(inner),
    }
}
