//! Atoms without an expression, and the beginnings of atoms with one.

ghost use Rattle.std.specs.Prelude.{◌≡◌, ◌++◌, ◌<◌, ◌≤◌, Bool, length, None, Some, IfOk, IfSome, option_map};
ghost use Rattle.jsonb_keypath.specs.Rules.{parsed_map, repeat};
ghost use Rattle.jsonb.specs.PathTree.{filter};
ghost use Rattle.jsonb.specs.PathGrammar.{path_with, exists_with, atom_with, expression};
ghost use Rattle.jsonb.specs.PathViews.{step_view, steps_view, expression_view};
ghost use Rattle.jsonb.specs.Private.Frames.{exists_closed, opened_outcome, goes_in_filter, opening_outcome, opening_size, IsOpened, IsOpening, filter_front};

use super::inner_path::inner_steps_at;
use super::operand::{binary_atom_at, path_root_at, unary_atom_at};
use crate::path::{Expr, Path};
use jsonb_keypath::token::{literal, skip_space};
use std::alloc::{AllocError, Global};

/// What encloses the expression: `(`, or in `exists` the steps before `?(` and their end.
#[derive(Drop)]
pub(super) enum Opened<'a> {
    Group,
    Filter(Vec<Path<'a>>, &'a [u8]),
}

/// The beginning of an atom.
pub(super) enum Opening<'a> {
    /// No atom.
    Nothing,
    /// A whole atom.
    Atom(Expr<'a>, &'a [u8]),
    /// The beginning of an atom, up to the expression inside.
    Inside(Opened<'a>, &'a [u8]),
}

impl Opened<'_> {
    /// Returns `true` if the content is part of a filter, given whether this is.
    pub(super) fn is_in_filter(&self, outer: bool) -> bool
        ensures { result ≡ goes_in_filter self.now outer }
    {
        match self {
            Opened::Group => outer,
            Opened::Filter(_, _) => true,
        }
    }
}

/// Reads an atom, or the beginning of one.
#[tactic(auto, unfolding(crate::specs::PathGrammar::atom_with, crate::specs::PathGrammar::group_with, crate::specs::PathGrammar::exists_with, crate::specs::Private::Frames::opening_outcome, crate::specs::Private::Frames::opened_outcome))]
pub(super) fn opening_at(
    alloc: Global,
    is_in_filter: bool,
    input: &[u8],
) -> Result<Opening<'_>, AllocError>
    ensures value { IfOk result (λ found.
        opening_outcome is_in_filter found ≡ atom_with expression is_in_filter input.now) }
    ensures is_opening { IfOk result IsOpening }
    ensures shrinks { IfOk result (λ found. opening_size found ≤ length input.now) }
{
    if let Some((found, rest)) = unary_atom_at(alloc, is_in_filter, input)? {
        return Ok(Opening::Atom(found, rest));
    }
    if let Some((found, rest)) = binary_atom_at(alloc, is_in_filter, input)? {
        return Ok(Opening::Atom(found, rest));
    }
    match literal(b"(", input) {
        Some(inside) => Ok(Opening::Inside(Opened::Group, skip_space(inside))),
        None => exists_at(alloc, input),
    }
}

#[tactic(auto, unfolding(crate::specs::PathGrammar::exists_with, crate::specs::Private::Frames::opening_outcome))]
fn exists_at(alloc: Global, input: &[u8]) -> Result<Opening<'_>, AllocError>
    ensures value { IfOk result (λ found. (f : Bool) → opening_outcome f found ≡ exists_with expression input.now) }
    ensures is_opening { IfOk result IsOpening }
    ensures shrinks { IfOk result (λ found. opening_size found ≤ length input.now) }
{
    let Some(word) = literal(b"exists", input) else {
        return Ok(Opening::Nothing);
    };
    let Some(inside) = literal(b"(", skip_space(word)) else {
        return Ok(Opening::Nothing);
    };
    let Some((first, rest)) = path_root_at(true, skip_space(inside)) else {
        return Ok(Opening::Nothing);
    };
    let mut steps = Vec::new(alloc);
    steps.push(first)?;
    exists_from(alloc, steps, rest)
}

/// Reads the rest of an `exists`, after these steps.
fn exists_from<'a>(
    alloc: Global,
    steps: Vec<Path<'a>>,
    input: &'a [u8],
) -> Result<Opening<'a>, AllocError>
    ensures value { IfOk result (λ found. (f : Bool) → opening_outcome f found ≡ exists_closed (parsed_map
        (λ others. steps_view steps.entry.items ++ others) (repeat (path_with expression) input.now))) }
    ensures is_opening { IfOk result IsOpening }
    ensures shrinks { IfOk result (λ found. opening_size found ≤ length input.now) }
{
    let (steps, rest) = inner_steps_at(alloc, steps, input)?;
    if let Some(inside) = filter_inside(rest) {
        return Ok(Opening::Inside(Opened::Filter(steps, rest), inside));
    }
    Ok(exists_end(steps, rest))
}

/// Reads the end of an `exists`, after its steps.
#[tactic(auto, unfolding(crate::specs::Private::Frames::opening_outcome))]
fn exists_end<'a>(steps: Vec<Path<'a>>, input: &'a [u8]) -> Opening<'a>
    ensures value { (f : Bool) →
        opening_outcome f result ≡ exists_closed (Some (steps_view steps.entry.items, input.now)) }
    ensures is_opening { IsOpening result }
    ensures shrinks { opening_size result ≤ length input.now }
{
    match literal(b")", skip_space(input)) {
        Some(end) => Opening::Atom(Expr::ExistsFunc(steps), end),
        None => Opening::Nothing,
    }
}

/// Returns the input after `?(`.
#[tactic(auto, unfolding(crate::specs::Private::Frames::filter_front))]
pub(super) fn filter_inside(input: &[u8]) -> Option<&[u8]>
    ensures value { option_map (λ rest. (tt, rest.now)) result ≡ filter_front input.now }
    ensures shrinks { IfSome result (λ rest. length rest.now < length input.now) }
{
    let mark = literal(b"?", skip_space(input))?;
    let inside = literal(b"(", skip_space(mark))?;
    Some(skip_space(inside))
}

/// Returns a filter as a step.
pub(super) fn filter_of<'a>(alloc: Global, found: Expr<'a>) -> Result<Path<'a>, AllocError>
    ensures { IfOk result (λ step. step_view step ≡ filter (expression_view found.entry)) }
{
    Ok(Path::FilterExpr(Box::new(alloc, found)?))
}

/// Returns what was opened, with the expression inside, and what follows it.
#[tactic(auto, using(crate::proofs::Sets::opening_closed_at), unfolding(crate::specs::Private::Frames::opening_outcome, crate::specs::Private::Frames::opened_outcome))]
pub(super) fn closed_at<'a>(
    alloc: Global,
    opened: Opened<'a>,
    found: Expr<'a>,
    rest: &'a [u8],
) -> Result<Opening<'a>, AllocError>
    requires { IsOpened opened }
    ensures value { IfOk result (λ closed. (f : Bool) → opening_outcome f closed ≡
        opened_outcome opened.entry (Some (expression_view found.entry, rest.now))) }
    ensures is_opening { IfOk result IsOpening }
    ensures shrinks { IfOk result (λ closed. opening_size closed ≤ length rest.now) }
{
    let Some(end) = literal(b")", skip_space(rest)) else {
        return Ok(Opening::Nothing);
    };
    match opened {
        Opened::Group => Ok(Opening::Atom(found, end)),
        Opened::Filter(mut steps, _) => {
            steps.push(filter_of(alloc, found)?)?;
            exists_from(alloc, steps, skip_space(end))
        }
    }
}
