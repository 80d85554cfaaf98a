//! `clone` of paths and their nodes.

ghost use Rattle.std.specs.Prelude.{◌≡◌, ◌<◌, IfOk, MatchResult};
ghost use Rattle.jsonb_doc.specs.Answer.{IsOutOfMemory};
ghost use Rattle.jsonb.specs.PathViews.{literal_view, step_view, steps_view, expression_view, path_view};
ghost use Rattle.jsonb.specs.Private.Copying.{leaf_view, leaf_parts, so_far_view, so_far_parts, copied_view, copied_parts, step_copy_view};

use super::copying::{
    Copied, Frame, Holder, Leaf, Progress, ReachedLeaf, StepCopy, StepsSoFar, first_leaf, holding,
    listed, resume_copy,
};
use super::{Expr, JsonPath, Path, PathValue};
use jsonb_doc::Error;
use std::alloc::Global;

impl<'a> JsonPath<'a> {
    /// Returns a copy of the path.
    ///
    /// Borrowed names remain borrowed.
    ///
    /// # Errors
    ///
    /// `OutOfMemory` if an allocation fails.
    ///
    /// # Complexity
    ///
    /// O(length of the path). Allocates.
    ///
    /// # Examples
    ///
    /// ```rust crates/jsonb_examples/src/evaluation.rt
    /// let mut longer = path.clone(alloc)?;
    /// longer.paths.push(Path::DotField(CowStr::Borrowed(key)))?;
    /// Ok(longer)
    /// ```
    pub fn clone(&self, alloc: Global) -> Result<JsonPath<'a>, Error>
        ensures { MatchResult result (λ copy. path_view copy ≡ path_view self.now) IsOutOfMemory }
    {
        let paths = copy_steps(&self.paths, alloc)?;
        Ok(JsonPath { paths })
    }
}

impl<'a> Path<'a> {
    /// Returns a copy of the step.
    ///
    /// Borrowed names remain borrowed.
    ///
    /// # Errors
    ///
    /// `OutOfMemory` if an allocation fails.
    ///
    /// # Complexity
    ///
    /// O(length of the step). Allocates only for a list, an expression, or an owned name.
    ///
    /// # Examples
    ///
    /// ```rust crates/jsonb_examples/src/evaluation.rt
    /// for step in front {
    ///     paths.push(step.clone(alloc)?)?;
    /// }
    /// ```
    pub fn clone(&self, alloc: Global) -> Result<Path<'a>, Error>
        ensures { MatchResult result (λ copy. step_view copy ≡ step_view self.now) IsOutOfMemory }
    {
        match copied_step(self, alloc)? {
            StepCopy::Whole(copy) => Ok(copy),
            StepCopy::Holding(holder, inner) => {
                let copy = inner.clone(alloc)?;
                Ok(holding(holder, Box::new(alloc, copy)?))
            }
        }
    }
}

impl<'a> Expr<'a> {
    /// Returns a copy of the expression.
    ///
    /// Borrowed strings remain borrowed.
    ///
    /// # Errors
    ///
    /// `OutOfMemory` if an allocation fails.
    ///
    /// # Complexity
    ///
    /// O(length of the expression). Allocates.
    ///
    /// # Examples
    ///
    /// ```rust crates/jsonb_examples/src/evaluation.rt
    /// match path.paths.as_slice().last() {
    ///     Some(Path::FilterExpr(condition)) => Ok(Some((**condition).clone(alloc)?)),
    ///     _ => Ok(None),
    /// }
    /// ```
    pub fn clone(&self, alloc: Global) -> Result<Expr<'a>, Error>
        ensures { MatchResult result (λ copy. expression_view copy ≡ expression_view self.now) IsOutOfMemory }
    {
        let mut reached = first_leaf(alloc, self, Vec::new(alloc))?;
        loop {
            let ReachedLeaf { leaf, frames } = reached;
            let copied = copied_leaf(leaf, alloc)?;
            match resume_copy(alloc, copied, frames)? {
                Progress::Whole(whole) => return Ok(whole),
                Progress::Leaf(next) => reached = next,
            }
        }
    }
}

impl<'a> PathValue<'a> {
    /// Returns a copy of the literal.
    ///
    /// A borrowed string remains borrowed.
    ///
    /// # Errors
    ///
    /// `OutOfMemory` if an allocation fails.
    ///
    /// # Complexity
    ///
    /// O(1). Allocates only for an owned string, which is copied.
    ///
    /// # Examples
    ///
    /// ```rust crates/jsonb_examples/src/evaluation.rt
    /// match &**right {
    ///     Expr::Value(literal) => Ok(Some((**literal).clone(alloc)?)),
    ///     _ => Ok(None),
    /// }
    /// ```
    pub fn clone(&self, _alloc: Global) -> Result<PathValue<'a>, Error>
        ensures { MatchResult result (λ copy. literal_view copy ≡ literal_view self.now) IsOutOfMemory }
    {
        match self {
            PathValue::Null => Ok(PathValue::Null),
            PathValue::Boolean(b) => Ok(PathValue::Boolean(*b)),
            PathValue::Number(n) => Ok(PathValue::Number(*n)),
            PathValue::String(text) => Ok(PathValue::String(text.clone()?)),
            PathValue::Raw(document) => Ok(PathValue::Raw(*document)),
        }
    }
}

fn copied_leaf<'e, 'a>(leaf: Leaf<'e, 'a, 'a>, alloc: Global) -> Result<Copied<'e, 'a, 'a>, Error>
    ensures whole { MatchResult result (λ copied. copied_view copied ≡ leaf_view leaf.entry) IsOutOfMemory }
    ensures fewer { IfOk result (λ copied. copied_parts copied < leaf_parts leaf.entry) }
{
    match leaf {
        Leaf::Value(literal) => {
            let copy = literal.clone(alloc)?;
            Ok(Copied::Whole(Expr::Value(Box::new(alloc, copy)?)))
        }
        Leaf::Steps(steps) => copied_steps(steps, alloc),
    }
}

/// Copies the remaining steps, up to one that holds an expression.
#[tactic(auto, using(crate::proofs::Sets::copy_copied_steps))]
fn copied_steps<'e, 'a>(
    mut steps: StepsSoFar<'e, 'a, 'a>,
    alloc: Global,
) -> Result<Copied<'e, 'a, 'a>, Error>
    ensures whole { MatchResult result (λ copied. copied_view copied ≡ so_far_view steps.entry) IsOutOfMemory }
    ensures fewer { IfOk result (λ copied. copied_parts copied < so_far_parts steps.entry) }
{
    while let Some(step) = steps.rest.next() {
        match copied_step(step, alloc)? {
            StepCopy::Whole(copy) => steps.copies.push(copy)?,
            StepCopy::Holding(holder, inner) => {
                let frame = Frame::Held { holder, steps };
                return Ok(Copied::Within { inner, frame });
            }
        }
    }
    Ok(Copied::Whole(listed(steps.kind, steps.copies)))
}

/// Returns a copy of a step without the expression in it.
fn copied_step<'e, 'a>(step: &'e Path<'a>, alloc: Global) -> Result<StepCopy<'e, 'a, 'a>, Error>
    ensures { MatchResult result (λ copy. step_copy_view copy ≡ step_view step.now) IsOutOfMemory }
{
    let copy = match step {
        Path::Root => Path::Root,
        Path::Current => Path::Current,
        Path::DotWildcard => Path::DotWildcard,
        Path::RecursiveDotWildcard(level) => Path::RecursiveDotWildcard(*level),
        Path::BracketWildcard => Path::BracketWildcard,
        Path::DotField(name) => Path::DotField(name.clone()?),
        Path::ColonField(name) => Path::ColonField(name.clone()?),
        Path::ObjectField(name) => Path::ObjectField(name.clone()?),
        Path::ArrayIndices(indices) => Path::ArrayIndices(indices.to_vec(alloc)?),
        Path::FilterExpr(inner) => return Ok(StepCopy::Holding(Holder::Filter, inner)),
        Path::Expr(inner) => return Ok(StepCopy::Holding(Holder::Whole, inner)),
    };
    Ok(StepCopy::Whole(copy))
}

/// Copies the steps, one after the other.
fn copy_steps<'a>(steps: &Vec<Path<'a>>, alloc: Global) -> Result<Vec<Path<'a>>, Error>
    ensures { MatchResult result (λ copies. steps_view copies.items ≡ steps_view steps.now.items) IsOutOfMemory }
{
    let mut copies = Vec::with_capacity(alloc, steps.len())?;
    for step in steps {
        copies.push(step.clone(alloc)?)?;
    }
    Ok(copies)
}
