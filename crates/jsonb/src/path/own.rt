//! `to_owned`: paths and their nodes with owned strings, which outlive the text that was parsed.

ghost use Rattle.std.specs.Prelude.{◌≡◌, ◌<◌, [], ◌∷◌, true, false, IfOk, IfErr, OnOk};
ghost use Rattle.std.specs.Cow.{cow_str_bytes};
ghost use Rattle.jsonb_doc.specs.Answer.{IsOutOfMemory, ◌or◌when◌};
ghost use Rattle.jsonb_doc.specs.declared.error.Error.TheVariants.{InvalidJsonPath};
ghost use Rattle.jsonb.specs.PathDocuments.{is_document, HasNoDocument};
ghost use Rattle.jsonb.specs.Private.Documents.{expression_has_document, has_document};
ghost use Rattle.jsonb.specs.Private.Copying.{IsOwningError, leaf_view, leaf_parts, leaf_has_document, so_far_view, so_far_parts, so_far_has_document, copied_view, copied_parts, copied_has_document, step_copy_view, step_copy_has_document};
ghost use Rattle.jsonb.specs.PathTree.{whole_expression};
ghost use Rattle.jsonb.specs.PathViews.{literal_view, step_view, steps_view, expression_view, path_view};

use super::copying::{
    Copied, Frame, Holder, Leaf, Progress, ReachedLeaf, StepCopy, StepsSoFar, first_leaf, holding,
    listed, resume_copy,
};
use super::{Expr, JsonPath, Path, PathValue};
use jsonb_doc::Error;
use std::alloc::Global;
use std::borrow::CowStr;

impl JsonPath<'_> {
    /// Returns a copy of the path that owns its strings.
    ///
    /// # Errors
    ///
    /// `InvalidJsonPath` if a literal is a document, which borrows its bytes (no parsed path has one), and
    /// `OutOfMemory` if an allocation fails.
    ///
    /// # Complexity
    ///
    /// O(length of the path). Allocates.
    ///
    /// # Examples
    ///
    /// ```rust crates/jsonb_examples/src/evaluation.rt
    /// let path = parse_json_path(alloc, text.as_bytes())?;
    /// path.to_owned(alloc)
    /// ```
    pub fn to_owned(&self, alloc: Global) -> Result<JsonPath<'static>, Error>
        ensures copy { IfOk result (λ copy. path_view copy ≡ path_view self.now) }
        ensures whole { OnOk result (HasNoDocument (path_view self.now)) }
        ensures errors { IfErr result
            (IsOutOfMemory or InvalidJsonPath when (¬ HasNoDocument (path_view self.now))) }
    {
        let paths = owned_steps(&self.paths, alloc)?;
        Ok(JsonPath { paths })
    }
}

impl Path<'_> {
    /// Returns a copy of the step that owns its strings.
    ///
    /// # Errors
    ///
    /// `InvalidJsonPath` if a literal is a document, and `OutOfMemory` if an allocation fails.
    ///
    /// # Complexity
    ///
    /// O(length of the step). Allocates for names, lists and expressions.
    ///
    /// # Examples
    ///
    /// ```rust crates/jsonb_examples/src/evaluation.rt
    /// match path.paths.as_slice().last() {
    ///     Some(step) => Ok(Some(step.to_owned(alloc)?)),
    ///     None => Ok(None),
    /// }
    /// ```
    #[tactic(auto, using(crate::proofs::DocumentLemmas::alone_without))]
    pub fn to_owned(&self, alloc: Global) -> Result<Path<'static>, Error>
        ensures copy { IfOk result (λ copy. step_view copy ≡ step_view self.now) }
        ensures whole { OnOk result (HasNoDocument (step_view self.now ∷ [])) }
        ensures errors { IfErr result
            (IsOutOfMemory or InvalidJsonPath when (¬ HasNoDocument (step_view self.now ∷ []))) }
    {
        match owned_step(self, alloc)? {
            StepCopy::Whole(copy) => Ok(copy),
            StepCopy::Holding(holder, inner) => {
                let copy = inner.to_owned(alloc)?;
                Ok(holding(holder, Box::new(alloc, copy)?))
            }
        }
    }
}

impl Expr<'_> {
    /// Returns a copy of the expression that owns its strings.
    ///
    /// # Errors
    ///
    /// `InvalidJsonPath` if a literal is a document, and `OutOfMemory` if an allocation fails.
    ///
    /// # Complexity
    ///
    /// O(length of the expression). Allocates.
    ///
    /// # Examples
    ///
    /// ```rust crates/jsonb_examples/src/evaluation.rt
    /// let condition = condition.to_owned(alloc)?;
    /// Ok(Path::FilterExpr(Box::new(alloc, condition)?))
    /// ```
    pub fn to_owned(&self, alloc: Global) -> Result<Expr<'static>, Error>
        ensures copy { IfOk result (λ copy. expression_view copy ≡ expression_view self.now) }
        ensures whole { OnOk result (HasNoDocument (whole_expression (expression_view self.now) ∷ [])) }
        ensures errors { IfErr result (IsOutOfMemory or InvalidJsonPath
            when (¬ HasNoDocument (whole_expression (expression_view self.now) ∷ []))) }
    {
        let mut reached = first_leaf(alloc, self, Vec::new(alloc))?;
        loop {
            let ReachedLeaf { leaf, frames } = reached;
            let copied = owned_leaf(leaf, alloc)?;
            match resume_copy(alloc, copied, frames)? {
                Progress::Whole(whole) => return Ok(whole),
                Progress::Leaf(next) => reached = next,
            }
        }
    }
}

impl PathValue<'_> {
    /// Returns a copy of the literal that owns its string.
    ///
    /// # Errors
    ///
    /// `InvalidJsonPath` for a document, and `OutOfMemory` if an allocation fails.
    ///
    /// # Complexity
    ///
    /// O(length of the string). Allocates only for a string.
    ///
    /// # Examples
    ///
    /// ```rust crates/jsonb_examples/src/evaluation.rt
    /// let literal = literal.to_owned(alloc)?;
    /// Ok(Expr::Value(Box::new(alloc, literal)?))
    /// ```
    pub fn to_owned(&self, alloc: Global) -> Result<PathValue<'static>, Error>
        ensures copy { IfOk result (λ copy. literal_view copy ≡ literal_view self.now) }
        ensures whole { OnOk result (is_document (literal_view self.now) ≡ false) }
        ensures errors { IfErr result
            (IsOutOfMemory or InvalidJsonPath when (is_document (literal_view self.now) ≡ true)) }
    {
        match self {
            PathValue::Null => Ok(PathValue::Null),
            PathValue::Boolean(b) => Ok(PathValue::Boolean(*b)),
            PathValue::Number(n) => Ok(PathValue::Number(*n)),
            PathValue::String(text) => Ok(PathValue::String(owned_text(text, alloc)?)),
            PathValue::Raw(_) => Err(Error::InvalidJsonPath),
        }
    }
}

fn owned_leaf<'e, 'a>(
    leaf: Leaf<'e, 'a, 'static>,
    alloc: Global,
) -> Result<Copied<'e, 'a, 'static>, Error>
    ensures copy { IfOk result (λ copied. copied_view copied ≡ leaf_view leaf.entry) }
    ensures fewer { IfOk result (λ copied. copied_parts copied < leaf_parts leaf.entry) }
    ensures whole { leaf_has_document leaf.entry ≡ false → IfOk result (λ copied. copied_has_document copied ≡ false) }
    ensures errors { IfErr result (IsOwningError (expression_has_document (leaf_view leaf.entry))) }
{
    match leaf {
        Leaf::Value(literal) => {
            let copy = literal.to_owned(alloc)?;
            Ok(Copied::Whole(Expr::Value(Box::new(alloc, copy)?)))
        }
        Leaf::Steps(steps) => Ok(owned_rest(steps, alloc)?),
    }
}

/// Returns a copy of a step that owns its strings, without the expression in it.
fn owned_step<'e, 'a>(step: &'e Path<'a>, alloc: Global) -> Result<StepCopy<'e, 'a, 'static>, Error>
    ensures copy { IfOk result (λ copy. step_copy_view copy ≡ step_view step.now) }
    ensures whole { IfOk result (λ copy. step_copy_has_document copy ≡ false) }
    ensures errors { IfErr result IsOutOfMemory }
{
    let copy = match step {
        Path::Root => Path::Root,
        Path::Current => Path::Current,
        Path::DotWildcard => Path::DotWildcard,
        Path::RecursiveDotWildcard(level) => Path::RecursiveDotWildcard(*level),
        Path::BracketWildcard => Path::BracketWildcard,
        Path::DotField(name) => Path::DotField(owned_text(name, alloc)?),
        Path::ColonField(name) => Path::ColonField(owned_text(name, alloc)?),
        Path::ObjectField(name) => Path::ObjectField(owned_text(name, alloc)?),
        Path::ArrayIndices(indices) => Path::ArrayIndices(indices.to_vec(alloc)?),
        Path::FilterExpr(inner) => return Ok(StepCopy::Holding(Holder::Filter, inner)),
        Path::Expr(inner) => return Ok(StepCopy::Holding(Holder::Whole, inner)),
    };
    Ok(StepCopy::Whole(copy))
}

/// Copies the remaining steps, up to one that holds an expression.
#[tactic(auto, using(crate::proofs::Sets::own_owned_rest))]
fn owned_rest<'e, 'a>(
    mut steps: StepsSoFar<'e, 'a, 'static>,
    alloc: Global,
) -> Result<Copied<'e, 'a, 'static>, Error>
    ensures copy { IfOk result (λ copied. copied_view copied ≡ so_far_view steps.entry) }
    ensures fewer { IfOk result (λ copied. copied_parts copied < so_far_parts steps.entry) }
    ensures whole { so_far_has_document steps.entry ≡ false
        → IfOk result (λ copied. copied_has_document copied ≡ false) }
    ensures errors { IfErr result IsOutOfMemory }
{
    while let Some(step) = steps.rest.next() {
        match owned_step(step, alloc)? {
            StepCopy::Whole(copy) => steps.copies.push(copy)?,
            StepCopy::Holding(holder, inner) => {
                let frame = Frame::Held { holder, steps };
                return Ok(Copied::Within { inner, frame });
            }
        }
    }
    Ok(Copied::Whole(listed(steps.kind, steps.copies)))
}

/// Copies the steps, one after the other, with owned strings.
fn owned_steps(steps: &Vec<Path<'_>>, alloc: Global) -> Result<Vec<Path<'static>>, Error>
    ensures copy { IfOk result (λ copies. steps_view copies.items ≡ steps_view steps.now.items) }
    ensures whole { OnOk result (has_document (steps_view steps.now.items) ≡ false) }
    ensures errors { IfErr result (IsOwningError (has_document (steps_view steps.now.items))) }
{
    let mut copies = Vec::with_capacity(alloc, steps.len())?;
    for step in steps {
        copies.push(step.to_owned(alloc)?)?;
    }
    Ok(copies)
}

fn owned_text(text: &CowStr<'_, Global>, alloc: Global) -> Result<CowStr<'static, Global>, Error>
    ensures copy { IfOk result (λ copy. cow_str_bytes copy ≡ cow_str_bytes text.now) }
    ensures errors { IfErr result IsOutOfMemory }
{
    Ok(CowStr::Owned(String::from_str(alloc, text.as_str())?))
}
