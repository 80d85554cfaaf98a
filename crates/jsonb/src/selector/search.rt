//! The first item that steps select, in lax mode: a traversal down to it that visits nothing after it.

ghost use Rattle.std.specs.Prelude.{◌≡◌, ◌<◌, ◌++◌, ◌∷◌, [], ℕ, List, map, length, Some, true, false, MatchResult, IfOk, OnOk, IfSome, IfErr};
ghost use Rattle.jsonb_doc.specs.Answer.{Refines, SameOption, IsOutOfMemory, IsDecodingError, ◌or◌};
ghost use Rattle.jsonb_doc.specs.Representation.Positions.{Locates};
ghost use Rattle.jsonb_doc.specs.Tree.{Tree};
ghost use Rattle.jsonb_doc.specs.declared.error.Error.TheVariants.{OutOfMemory};
ghost use Rattle.jsonb.specs.Meaning.{step_meaning, steps_meaning, first_item};
ghost use Rattle.jsonb.specs.PathTree.{Step, Expression, steps_of, filter};
ghost use Rattle.jsonb.specs.PathViews.{step_view, steps_view};
ghost use Rattle.jsonb.specs.SelectionErrors.{IsSelectionError};
ghost use Rattle.jsonb.specs.Private.Compared.{RefinesIfAny};
ghost use Rattle.jsonb.specs.Private.ItemSteps.{AreGiven};
ghost use Rattle.jsonb.specs.Private.Search.{has_condition, IsAhead, AreAhead, AddsStep, conditions_in, TakesStep, HasItems, GivesLeft, TakesItem, IsReached};
ghost use Rattle.jsonb.specs.Private.Selection.{taken_step};
ghost use Rattle.jsonb.specs.Private.Tests.{tests_in, AreTestsOf};
ghost use Rattle.jsonb.specs.declared.selector.document.Mode.TheVariants.{Lax};
ghost use Rattle.jsonb.specs.Private.Search.{FindsFirst};

use super::children::{StepItems, plain_items};
use super::compile::{compiled, may_be_plain};
use super::document::{Context, Expressions, Mode};
use super::evaluate::{is_true, tested_truth};
use super::members::{are_members, behind_start, member};
use super::plan::Condition;
use super::steps::filter_of;
use crate::path::Path;
use jsonb_doc::{Error, Spot, SpotIter, spot_by_parts};
use std::alloc::Global;
use std::mem::replace;
use std::slice;

/// The steps that an item has before it, and the conditions of the filters among them, in order.
#[derive(Clone, Copy)]
pub(crate) struct Ahead<'t, 's, 'p> {
    steps: &'t [Path<'p>],
    conditions: &'t [Condition<'s, 'p>],
}

/// The conditions of the filters among some steps, in order. A single one is not allocated, which saves 100 of 1,340
/// instructions on a document of 200 bytes.
#[derive(Drop)]
pub(crate) enum Conditions<'s, 'p> {
    One(Condition<'s, 'p>),
    Many(Vec<Condition<'s, 'p>>),
}

/// The remaining items, in order.
#[derive(Drop)]
pub(crate) enum Items<'t> {
    Children(SpotIter<'t>),
    /// Positions of a list, the first one last.
    Listed(Vec<Spot>),
}

/// The remaining items, and the steps that each of them has before it.
#[derive(Drop)]
pub(crate) struct Waiting<'t, 's, 'p> {
    items: Items<'t>,
    ahead: Ahead<'t, 's, 'p>,
}

/// What steps reach from an item: at most one item, or many with steps before them.
#[derive(Drop)]
pub(crate) enum Reached<'t, 's, 'p> {
    AtMostOne(Option<Spot>),
    Many(Waiting<'t, 's, 'p>),
}

/// The first item, if there is one. The outer `None` means that it is not known.
pub(crate) type FirstResult = Result<Option<Option<Spot>>, Error>;

impl<'t, 's, 'p> Ahead<'t, 's, 'p> {
    /// Returns what the first of the steps selects of an item, and the steps after it. Returns `None` if there is none.
    #[inline(always)]
    fn take(
        self,
        alloc: Global,
        bytes: &'t [u8],
        item: Spot,
    ) -> Result<Option<(StepItems<'t>, Ahead<'t, 's, 'p>)>, Error>
        ensures takes { (top t : Tree) (ss : List Step) → IsAhead self.entry ss → Locates bytes.now item t
            → MatchResult result (TakesStep bytes.now top t ss) IsOutOfMemory }
        ensures fewer { IfOk result (λ found. IfSome found
            (λ taken. length taken.1.steps.now < length self.entry.steps.now)) }
        ensures errors { IfErr result (IsSelectionError Lax) }
    {
        let Some((step, steps)) = self.steps.split_first() else {
            return Ok(None);
        };
        if !has_condition(step) {
            let conditions = self.conditions;
            let selected = plain_items(Mode::Lax, step, bytes, item)?;
            return Ok(Some((selected, Ahead { steps, conditions })));
        }
        let Some((condition, conditions)) = self.conditions.split_first() else {
            return Ok(None);
        };
        let kept = tested_item(alloc, condition, bytes, item)?;
        Ok(Some((kept, Ahead { steps, conditions })))
    }
}

impl<'t> Items<'t> {
    /// Returns what a step selects, as the remaining items.
    #[inline(always)]
    fn of_step(alloc: Global, bytes: &[u8], given: StepItems<'t>) -> Result<Items<'t>, Error>
        ensures meant { GivesLeft bytes.now given.entry result }
        ensures errors { IfErr result (IsDecodingError or OutOfMemory) }
    {
        match given {
            StepItems::Children(children) => Ok(Items::Children(children)),
            given => Items::listed(alloc, bytes, given),
        }
    }

    /// Returns what a step selects, as a list.
    #[inline(never)]
    fn listed(alloc: Global, bytes: &[u8], given: StepItems<'t>) -> Result<Items<'t>, Error>
        ensures meant { GivesLeft bytes.now given.entry result }
        ensures errors { IfErr result (IsDecodingError or OutOfMemory) }
    {
        let mut spots = Vec::new(alloc);
        given.push(alloc, bytes, &mut spots)?;
        spots.reverse();
        Ok(Items::Listed(spots))
    }

    /// Returns the first of the remaining items.
    #[inline(always)]
    fn next(&mut self) -> Option<Result<Spot, Error>>
        ensures takes { (bytes : List ℕ) (ts : List Tree) → HasItems bytes self.old ts
            → TakesItem bytes ts result self.new }
        ensures errors { IfSome result (λ found. IfErr found IsDecodingError) }
    {
        match self {
            Items::Children(children) => children.next(),
            Items::Listed(spots) => match spots.pop() {
                Some(spot) => Some(Ok(spot)),
                None => None,
            },
        }
    }
}

/// Returns the first item that steps select from one item, if each step can be evaluated item by item.
///
/// The outer `None` means that it was not found by a search: in strict mode, in which a later item may fail, for other
/// filters, and if the search ended before.
#[inline(always)]
pub(crate) fn search<'s>(
    context: &Context<'_>,
    expressions: Expressions,
    steps: &'s [Path<'_>],
    first: Spot,
) -> FirstResult
    ensures meant { FindsFirst context.now.document context.now.mode expressions steps.now first result }
    ensures errors { IfErr result (IsSelectionError context.now.mode) }
{
    let behind = behind_start(steps);
    if are_members(behind) {
        let found = member(context.mode, behind, context.document.bytes, first)?;
        return Ok(Some(found));
    }
    match context.mode {
        Mode::Strict => Ok(None),
        Mode::Lax => lax_search(context, expressions, behind, first),
    }
}

/// Returns the first item that steps select in lax mode. It is a separate function so that names alone need no frame
/// for it.
#[inline(never)]
fn lax_search<'s>(
    context: &Context<'_>,
    expressions: Expressions,
    steps: &'s [Path<'_>],
    first: Spot,
) -> FirstResult
    ensures meant { FindsFirst context.now.document Lax expressions steps.now first result }
    ensures errors { IfErr result (IsSelectionError Lax) }
{
    match has_filter(expressions, steps) {
        Some(false) => {}
        Some(true) => return filtered_search(context, expressions, steps, first),
        None => return Ok(None),
    }
    let ahead = Ahead {
        steps,
        conditions: &[],
    };
    first_found(context.alloc, ahead, context.document.bytes, first)
}

/// Returns the first item that steps with a filter select in lax mode. It is a separate function so that other steps
/// need no frame for the conditions.
#[inline(never)]
fn filtered_search<'s>(
    context: &Context<'_>,
    expressions: Expressions,
    steps: &'s [Path<'_>],
    first: Spot,
) -> FirstResult
    ensures meant { FindsFirst context.now.document Lax expressions steps.now first result }
    ensures errors { IfErr result (IsSelectionError Lax) }
{
    let alloc = context.alloc;
    let mut conditions = Conditions::Many(Vec::new(alloc));
    if !conditions.add_all(alloc, expressions, steps)? {
        return Ok(None);
    }
    let ahead = Ahead {
        steps,
        conditions: conditions.as_slice(),
    };
    first_found(alloc, ahead, context.document.bytes, first)
}

/// Returns whether steps have a filter, or `None` if one of them cannot be one of a search. A filter by an expression is
/// rejected before it is compiled: on a path with one filter, 110 instructions instead of 300.
fn has_filter(expressions: Expressions, steps: &[Path<'_>]) -> Option<bool>
    ensures { result ≡ Some false → AreAhead steps.now (map (taken_step expressions) (steps_view steps.now)) [] }
{
    let mut has_filter = false;
    for step in steps {
        match filter_of(expressions, step) {
            Some(e) if may_be_plain(e) => has_filter = true,
            Some(_) => return None,
            None if has_condition(step) => return None,
            None => {}
        }
    }
    Some(has_filter)
}

impl<'s, 'p> Conditions<'s, 'p> {
    #[inline(always)]
    fn as_slice(&self) -> &[Condition<'s, 'p>]
        ensures { result.now ≡ conditions_in self.now }
    {
        match self {
            Conditions::One(condition) => slice::from_ref(condition),
            Conditions::Many(conditions) => conditions.as_slice(),
        }
    }

    /// Appends a condition. The first one is not allocated.
    #[inline(always)]
    fn push(&mut self, alloc: Global, condition: Condition<'s, 'p>) -> Result<(), Error>
        ensures ok { OnOk result (conditions_in self.new ≡ conditions_in self.old ++ condition.entry ∷ []) }
        ensures err { IfErr result IsOutOfMemory }
    {
        if !self.as_slice().is_empty() {
            return self.push_next(alloc, condition);
        }
        *self = Conditions::One(condition);
        Ok(())
    }

    /// Appends a condition to at least one.
    #[inline(never)]
    fn push_next(&mut self, alloc: Global, condition: Condition<'s, 'p>) -> Result<(), Error>
        ensures ok { OnOk result (conditions_in self.new ≡ conditions_in self.old ++ condition.entry ∷ []) }
        ensures err { IfErr result IsOutOfMemory }
    {
        match replace(self, Conditions::Many(Vec::new(alloc))) {
            Conditions::One(first) => {
                let both = vec![in alloc; first, condition]?;
                *self = Conditions::Many(both);
                Ok(())
            }
            Conditions::Many(before) => {
                let mut conditions = before;
                conditions.push(condition)?;
                *self = Conditions::Many(conditions);
                Ok(())
            }
        }
    }

    /// Adds the conditions of steps to an empty list. Returns `false` if a step cannot be one of a search.
    fn add_all(
        &mut self,
        alloc: Global,
        expressions: Expressions,
        steps: &'s [Path<'p>],
    ) -> Result<bool, Error>
        ensures added { conditions_in self.old ≡ [] → IfOk result (λ fits. fits ≡ true → AreAhead steps.now
            (map (taken_step expressions) (steps_view steps.now)) (conditions_in self.new)) }
        ensures errors { IfErr result IsOutOfMemory }
    {
        for step in steps {
            let fits = self.add(alloc, expressions, step)?;
            if !fits {
                return Ok(false);
            }
        }
        Ok(true)
    }

    /// Adds a step, with its condition if it is a filter. Returns `false` if it cannot be one of a search.
    #[inline(always)]
    #[tactic(auto, using(crate::proofs::SearchLemmas::plain_last, crate::proofs::SearchLemmas::tested_last))]
    fn add(
        &mut self,
        alloc: Global,
        expressions: Expressions,
        step: &'s Path<'p>,
    ) -> Result<bool, Error>
        ensures added { AddsStep expressions step.now (conditions_in self.old) result (conditions_in self.new) }
        ensures errors { IfErr result IsOutOfMemory }
    {
        let Some(e) = filter_of(expressions, step) else {
            return Ok(!has_condition(step));
        };
        match compiled(alloc, e)? {
            Some(condition) => {
                self.push(alloc, condition)?;
                Ok(true)
            }
            None => Ok(false),
        }
    }
}

/// Returns `true` if a step is a filter, or an expression that may be one.
#[inline(always)]
fn has_condition(step: &Path<'_>) -> bool
    ensures { result ≡ has_condition (step_view step.now) }
{
    match step {
        Path::FilterExpr(_) | Path::Expr(_) => true,
        _ => false,
    }
}

/// Returns the first item that the steps select from one item, or the outer `None` if the search ends before: it visits
/// at most as many items as there are bytes, since steps that select items again could double them. What remains of the
/// enclosing items is in a `Vec`. Inlined: as a call it takes 41 of 650 instructions more.
#[inline(always)]
fn first_found(alloc: Global, ahead: Ahead<'_, '_, '_>, bytes: &[u8], first: Spot) -> FirstResult
    ensures meant { (top t : Tree) (ss : List Step) → IsAhead ahead.entry ss → Locates bytes.now first t
        → RefinesIfAny (λ found us. SameOption (Locates bytes.now) found (first_item us)) result
        (steps_meaning Lax (steps_of ss) top (t ∷ [])) }
    ensures errors { IfErr result (IsSelectionError Lax) }
{
    let mut within = match reach(alloc, ahead, bytes, first)? {
        Reached::AtMostOne(found) => return Ok(Some(found)),
        Reached::Many(inner) => inner,
    };
    let mut around = Vec::new(alloc);
    'walk: for _ in 0..bytes.len() {
        match within.items.next() {
            Some(item) => match reach(alloc, within.ahead, bytes, item?)? {
                Reached::AtMostOne(Some(found)) => return Ok(Some(Some(found))),
                Reached::AtMostOne(None) => {}
                Reached::Many(inner) => {
                    around.push(within)?;
                    within = inner;
                }
            },
            None => match around.pop() {
                Some(outer) => within = outer,
                None => return Ok(Some(None)),
            },
        }
    }
    let not_known = None;
    Ok(not_known)
}

/// Returns what the steps reach from an item: each step that selects at most one item is evaluated, up to one that
/// selects many.
#[inline(always)]
fn reach<'t, 's, 'p>(
    alloc: Global,
    ahead: Ahead<'t, 's, 'p>,
    bytes: &'t [u8],
    first: Spot,
) -> Result<Reached<'t, 's, 'p>, Error>
    ensures meant { (top t : Tree) (ss : List Step) → IsAhead ahead.entry ss → Locates bytes.now first t
        → MatchResult result (IsReached bytes.now top t ss) IsOutOfMemory }
    ensures errors { IfErr result (IsSelectionError Lax) }
{
    let mut item = first;
    let mut ahead = ahead;
    while let Some((given, others)) = ahead.take(alloc, bytes, item)? {
        ahead = others;
        match given {
            StepItems::AtMostOne(Some(next)) => item = spot_by_parts(next),
            StepItems::AtMostOne(None) => return Ok(Reached::AtMostOne(None)),
            _ => {
                let items = Items::of_step(alloc, bytes, given)?;
                return Ok(Reached::Many(Waiting { items, ahead }));
            }
        }
    }
    Ok(Reached::AtMostOne(Some(item)))
}

/// Returns the item if a condition of its members is true.
#[inline(always)]
fn tested_item<'t>(
    alloc: Global,
    condition: &Condition<'_, '_>,
    bytes: &[u8],
    item: Spot,
) -> Result<StepItems<'t>, Error>
    ensures meant { (e : Expression) (top t : Tree) → AreTestsOf (tests_in condition.now) e
        → Locates bytes.now item t
        → Refines (AreGiven bytes.now) IsOutOfMemory result (step_meaning Lax (filter e) top t) }
    ensures errors { IfErr result (IsSelectionError Lax) }
{
    let Some((first, others)) = condition.as_slice().split_last() else {
        return Ok(StepItems::AtMostOne(None));
    };
    let truth = tested_truth(alloc, Mode::Lax, first, others, bytes, item)?;
    Ok(StepItems::AtMostOne(is_true(truth).then_some(spot_by_parts(item))))
}

#[cfg(test)]
mod tests;
