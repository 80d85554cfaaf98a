//! The parser of JSON paths.
//!
//! The grammar is one of ordered choices: the first form that can be read at a position is taken, and no other is
//! tried if the text then continues differently. So `-1 == 1` is rejected: `-1` parses as a sign with its operand,
//! after which only `&&`, `||` or the end may follow.
//!
//! - The text is one expression, otherwise a list of steps; the empty text is a path with no steps.
//! - A list of steps may begin with `$` or with a name, which is short for `.name`. A step is one of `.name`,
//!   `."a name"`, `:name`, `:"a name"`, `["a name"]`, `.*`, `.**`, `.**{1 to last}`, `[*]`,
//!   `[0, last - 1, 2 to last]`, and `?(..)` with an expression inside.
//! - An expression is one or more conditions joined by `&&`, and these joined by `||`. A condition is a sign with an
//!   operand, two operands with an operator between them, an expression in parentheses, or `exists(..)` with a path
//!   inside.
//! - An operand is a path of `$` and steps other than filters, or a literal. In a filter, and in parentheses inside
//!   it, it may also begin with `@`; in `exists` the path always may.
//! - `to` and `last` are read in any case. White space is allowed between the parts of a step in brackets, and around
//!   steps, operands and operators, but not after `.` and `:`.

ghost use Rattle.std.specs.Prelude.{◌≡◌, true, ◌++◌, [], ◌∷◌, Some, None, IfOk, MatchResult};
ghost use Rattle.jsonb_doc.specs.declared.error.Error.TheVariants.{InvalidJsonPath};
ghost use Rattle.jsonb.specs.PathTree.{binary, paths, steps_of, whole_expression};
ghost use Rattle.jsonb.specs.PathGrammar.{root_expression, first_step, front_steps, path_step, plain_path, json_path, expression};
ghost use Rattle.jsonb.specs.Private.Frames.{filter_step, IsFront};
ghost use Rattle.jsonb_keypath.specs.Rules.{◌</>◌, parsed_map, repeat};
ghost use Rattle.jsonb_keypath.specs.Views.{read_as, ConsumesInput};
ghost use Rattle.jsonb.specs.PathViews.{step_view, steps_view, expression_view, path_view};
ghost use Rattle.jsonb_doc.specs.Answer.{IsOutOfMemory, ◌or◌when◌};

pub use self::error_position::json_path_error_position;
use self::expression::{expression_at, expression_from};
use self::inner_path::spaced_inner_at;
use self::opening::{Opening, filter_inside, filter_of, opening_at};
use self::operand::{binary_of, operand_steps_at, operation_at};
use self::token::name_at;
use crate::path::{BinaryOperator, Expr, JsonPath, Path};
use jsonb_doc::Error;
use jsonb_keypath::token::{literal, skip_space};
use std::alloc::{AllocError, Global};

mod condition;
mod error_position;
mod expression;
mod index;
mod inner_path;
mod opening;
mod operand;
mod token;

/// The value that a rule reads at the beginning of the input, with the rest after it, or `None` if the rule fails. An
/// error only if an allocation fails.
type Reading<'a, T> = Result<Option<(T, &'a [u8])>, AllocError>;

/// Parses a JSON path.
///
/// The input may be any bytes. docs/PATHS.md has the grammar, and how it differs from those of SQL/JSON, PostgreSQL and
/// RFC 9535. A name without escapes borrows from the input.
///
/// # Errors
///
/// `InvalidJsonPath` if and only if the grammar does not accept the whole input, unless an allocation fails
/// (`OutOfMemory`).
///
/// # Complexity
///
/// O(length of the input). Allocates, also for open expressions, so that deep text uses no more stack than flat text.
///
/// # Examples
///
/// ```rust crates/jsonb_examples/src/first.rt
/// let home = parse_json_path(alloc, b"$.phones[*]?(@.type == \"home\").number")?;
/// let numbers = fred.select_by_path(alloc, &home)?; // one document for each match
/// ```
#[tactic(auto, unfolding(crate::specs::PathGrammar::json_path))]
pub fn parse_json_path(alloc: Global, input: &[u8]) -> Result<JsonPath<'_>, Error>
    ensures { MatchResult result
        (λ found. json_path input.now ≡ Some (path_view found))
        (IsOutOfMemory or InvalidJsonPath when (json_path input.now ≡ None)) }
{
    let (paths, rest) = steps_at(alloc, skip_space(input))?;
    if !skip_space(rest).is_empty() {
        return Err(Error::InvalidJsonPath);
    }
    Ok(JsonPath { paths })
}

/// The beginning of a path: the first atom of an expression, or steps that no operator follows.
enum PathStart<'a> {
    Atom(Opening<'a>),
    Steps(Vec<Path<'a>>, &'a [u8]),
}

/// Reads an expression, otherwise a list of steps. Steps at the beginning are read once, whichever they begin.
fn steps_at(alloc: Global, input: &[u8]) -> Result<(Vec<Path<'_>>, &[u8]), AllocError>
    ensures { IfOk result (λ p. Some (steps_view p.0.items, p.1.now) ≡ (root_expression </> plain_path) input.now) }
{
    match front_at(alloc, input)? {
        PathStart::Steps(steps, rest) => more_steps_at(alloc, steps, rest),
        PathStart::Atom(first) => match expression_from(alloc, false, first)? {
            Some((found, rest)) => Ok((one_step(alloc, found)?, skip_space(rest))),
            None => plain_path_at(alloc, input),
        },
    }
}

fn front_at(alloc: Global, input: &[u8]) -> Result<PathStart<'_>, AllocError>
    ensures { IfOk result (IsFront input.now) }
{
    let Some((steps, rest)) = operand_steps_at(alloc, false, input)? else {
        let first = opening_at(alloc, false, skip_space(input))?;
        return Ok(PathStart::Atom(first));
    };
    let Some((operation, after)) = operation_at(alloc, false, skip_space(rest))? else {
        return Ok(PathStart::Steps(steps, rest));
    };
    let found = operation_of(alloc, steps, operation)?;
    Ok(PathStart::Atom(Opening::Atom(found, after)))
}

fn operation_of<'a>(
    alloc: Global,
    steps: Vec<Path<'a>>,
    operation: (BinaryOperator, Expr<'a>),
) -> Result<Expr<'a>, AllocError>
    ensures { IfOk result (λ found. expression_view found ≡ binary operation.entry.0
        (paths (steps_of (steps_view steps.entry.items))) (expression_view operation.entry.1)) }
{
    let (op, second) = operation;
    binary_of(alloc, op, Expr::Paths(steps), second)
}

/// Returns a path that is one expression.
fn one_step(alloc: Global, found: Expr<'_>) -> Result<Vec<Path<'_>>, AllocError>
    ensures { IfOk result (λ steps. steps_view steps.items ≡ whole_expression (expression_view found.entry) ∷ []) }
{
    let mut steps = Vec::new(alloc);
    let whole = Box::new(alloc, found)?;
    steps.push(Path::Expr(whole))?;
    Ok(steps)
}

fn plain_path_at(alloc: Global, input: &[u8]) -> Result<(Vec<Path<'_>>, &[u8]), AllocError>
    ensures { IfOk result (λ p. Some (steps_view p.0.items, p.1.now) ≡ plain_path input.now) }
{
    let (steps, rest) = front_steps_at(alloc, input)?;
    more_steps_at(alloc, steps, rest)
}

/// Reads the remaining steps, after these.
fn more_steps_at<'a>(
    alloc: Global,
    mut steps: Vec<Path<'a>>,
    input: &'a [u8],
) -> Result<(Vec<Path<'a>>, &'a [u8]), AllocError>
    ensures { IfOk result (λ p. Some (steps_view p.0.items, p.1.now) ≡
        parsed_map (λ others. steps_view steps.entry.items ++ others) (repeat path_step input.now)) }
{
    let mut rest = input;
    while let Some((next, after)) = path_step_at(alloc, rest)? {
        steps.push(next)?;
        rest = after;
    }
    Ok((steps, rest))
}

#[tactic(auto, unfolding(crate::specs::PathGrammar::front_steps))]
fn front_steps_at(alloc: Global, input: &[u8]) -> Result<(Vec<Path<'_>>, &[u8]), AllocError>
    ensures { IfOk result (λ p. Some (steps_view p.0.items, p.1.now) ≡ front_steps input.now) }
{
    let mut steps = Vec::new(alloc);
    match first_step_at(alloc, input)? {
        Some((first, rest)) => {
            steps.push(first)?;
            Ok((steps, rest))
        }
        None => Ok((steps, input)),
    }
}

#[tactic(auto, unfolding(crate::specs::PathGrammar::first_step))]
fn first_step_at(alloc: Global, input: &[u8]) -> Reading<'_, Path<'_>>
    ensures { IfOk result (λ found. read_as step_view found ≡ first_step input.now) }
{
    if let Some(rest) = literal(b"$", input) {
        return Ok(Some((Path::Root, rest)));
    }
    match name_at(alloc, skip_space(input))? {
        Some((text, rest)) => Ok(Some((Path::DotField(text), skip_space(rest)))),
        None => Ok(None),
    }
}

/// Reads one step: a plain one, or a filter.
#[tactic(auto, using(crate::proofs::Sets::parser_path_step_at))]
fn path_step_at(alloc: Global, input: &[u8]) -> Reading<'_, Path<'_>>
    ensures value { IfOk result (λ found. read_as step_view found ≡ path_step input.now) }
    ensures shrinks { IfOk result (ConsumesInput input.now) }
{
    match spaced_inner_at(alloc, input)? {
        Some(found) => Ok(Some(found)),
        None => match filter_inside(input) {
            Some(inside) => filter_at(alloc, inside),
            None => Ok(None),
        },
    }
}

/// Reads a filter as a step, after its beginning.
fn filter_at(alloc: Global, inside: &[u8]) -> Reading<'_, Path<'_>>
    ensures value { IfOk result (λ found. read_as step_view found ≡ filter_step (expression true inside.now)) }
    ensures shrinks { IfOk result (ConsumesInput inside.now) }
{
    let Some((found, rest)) = expression_at(alloc, true, inside)? else {
        return Ok(None);
    };
    match literal(b")", skip_space(rest)) {
        Some(end) => Ok(Some((filter_of(alloc, found)?, skip_space(end)))),
        None => Ok(None),
    }
}
