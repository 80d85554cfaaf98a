//! Compiles an expression to the tests of a condition.

ghost use Rattle.std.specs.Prelude.{◌≡◌, ◌<◌, ◌+◌, ◌++◌, ◌∷◌, [], List, Ok, Some, true, false, reverse, MatchOption, ⊤, IfOk, IfErr, IfSome};
ghost use Rattle.jsonb_doc.specs.Answer.{IsOutOfMemory};
ghost use Rattle.jsonb_doc.specs.Tree.{Tree};
ghost use Rattle.jsonb.specs.PathTree.{steps_of, step, current, dot_wildcard, paths, binary};
ghost use Rattle.jsonb.specs.PathViews.{expression_view, literal_view, steps_view};
ghost use Rattle.jsonb.specs.Values.{literal_value};
ghost use Rattle.jsonb.specs.Meaning.{operand_values};
ghost use Rattle.jsonb.specs.Private.Compared.{mirrored};
ghost use Rattle.jsonb.specs.Private.Jumps.{Branch};
ghost use Rattle.jsonb.specs.Private.Conditions.{is_comparison, is_condition};
ghost use Rattle.jsonb.specs.Private.Members.{are_members};
ghost use Rattle.jsonb.specs.Private.Parts.{parts};
ghost use Rattle.jsonb.specs.Private.Selection.{value_view};
ghost use Rattle.jsonb.specs.Private.Pairs.{is_joined};
ghost use Rattle.jsonb.specs.Private.Tests.{IsQuestionOf, AreBranches, jump_to, left_of, right_of, pending, waiting_left, parts_waiting, parts_to_compile, AreTestsOf, tests_in};
ghost use Rattle.jsonb.specs.declared.selector.document.Mode.{Mode};

use super::members::{are_members, is_relative};
use super::operand_value::{OperandValue, value_of_literal};
use super::pair::{Join, Pair, is_joined, pair_of};
use super::plan::{Condition, MemberCompared, MemberFound, MembersCompared, Question, Test};
use crate::path::{BinaryOperator, Expr, Path, PathValue};
use jsonb_doc::Error;
use std::alloc::Global;

/// The place at which a part of a condition continues.
#[derive(Clone, Copy)]
pub(crate) enum Target {
    /// At the test after the part.
    Next,
    /// At the test from which as many are left.
    At(usize),
}

/// A part of a condition that is compiled after the parts that follow it.
#[derive(Clone, Copy)]
pub(crate) struct Waiting<'s, 'p> {
    pub(crate) e: &'s Expr<'p>,
    pub(crate) on_true: Target,
    pub(crate) on_false: Target,
}

/// Returns the tests of an expression if each is one of members of the item.
pub(crate) fn compiled<'s, 'p>(
    alloc: Global,
    e: &'s Expr<'p>,
) -> Result<Option<Condition<'s, 'p>>, Error>
    ensures tests { IfOk result (λ made. IfSome made (λ condition.
        AreTestsOf (tests_in condition) (expression_view e.now))) }
    ensures errors { IfErr result IsOutOfMemory }
{
    if is_joined(e) {
        return joined_condition(alloc, e);
    }
    Ok(single_condition(e))
}

/// Returns the tests of an expression if each is one of members of the item. Most other expressions are rejected before
/// they are compiled.
#[inline(always)]
pub(crate) fn member_condition<'s, 'p>(
    alloc: Global,
    e: &'s Expr<'p>,
) -> Result<Option<Condition<'s, 'p>>, Error>
    ensures tests { IfOk result (λ made. IfSome made (λ condition.
        AreTestsOf (tests_in condition) (expression_view e.now))) }
    ensures errors { IfErr result IsOutOfMemory }
{
    if !may_be_plain(e) {
        return Ok(None);
    }
    compiled(alloc, e)
}

/// Returns the test of an expression that joins no others.
#[inline(always)]
#[tactic(auto, using(crate::proofs::TestLemmas::one_branch))]
fn single_condition<'s, 'p>(e: &'s Expr<'p>) -> Option<Condition<'s, 'p>>
    ensures { is_joined (expression_view e.now) ≡ false
        → IfSome result (λ condition. AreTestsOf (tests_in condition) (expression_view e.now)) }
{
    let question = plain_question(e)?;
    Some(Condition::One(Test {
        question,
        on_true: 0,
        on_false: 0,
    }))
}

/// Returns the tests of an expression that joins others.
///
/// They are found from the last to the first, so that the number of tests after each is known.
#[inline(never)]
fn joined_condition<'s, 'p>(
    alloc: Global,
    e: &'s Expr<'p>,
) -> Result<Option<Condition<'s, 'p>>, Error>
    ensures tests { IfOk result (λ made. IfSome made (λ condition.
        AreTestsOf (tests_in condition) (expression_view e.now))) }
    ensures errors { IfErr result IsOutOfMemory }
{
    let mut tests = Vec::new(alloc);
    let mut waiting = Vec::new(alloc);
    let mut next = Some(Waiting {
        e,
        on_true: Target::At(0),
        on_false: Target::At(0),
    });
    while let Some(part) = next {
        let Some(after) = compile_part(part, &mut tests, &mut waiting)? else {
            return Ok(None);
        };
        next = after;
    }
    Ok(Some(Condition::Many(tests)))
}

/// Compiles the last test of a part of a condition, which the tests so far follow. Returns the part that comes next. The
/// outer `None` means that the test is not one of members of the item.
#[inline(always)]
fn compile_part<'s, 'p>(
    part: Waiting<'s, 'p>,
    tests: &mut Vec<Test<'s, 'p>>,
    waiting: &mut Vec<Waiting<'s, 'p>>,
) -> Result<Option<Option<Waiting<'s, 'p>>>, Error>
    ensures tests { IfOk result (λ found. IfSome found (λ next. (done : List Branch)
        → AreBranches (reverse tests.old.items) done
        → (more : List Branch) × AreBranches (reverse tests.new.items) more
        × (pending (waiting_left next waiting.new.items) more
        ≡ pending (part.entry ∷ reverse waiting.old.items) done))) }
    ensures fewer { IfOk result (λ found. IfSome found (λ next. parts_to_compile next waiting.new.items
        < parts part.entry.e.now + parts_waiting waiting.old.items)) }
    ensures errors { IfErr result IsOutOfMemory }
{
    let on_true = jump_to(part.on_true, tests.len());
    let on_false = jump_to(part.on_false, tests.len());
    let Some(pair) = pair_of(part.e) else {
        let fits = push_test(part.e, on_true, on_false, tests)?;
        if !fits {
            return Ok(None);
        }
        return Ok(Some(waiting.pop()));
    };
    let left = left_of(pair, on_true, on_false);
    if is_joined(pair.right) {
        waiting.push(left)?;
        return Ok(Some(Some(right_of(pair, on_true, on_false))));
    }
    let fits = push_test(pair.right, on_true, on_false, tests)?;
    if !fits {
        return Ok(None);
    }
    Ok(Some(Some(left)))
}

/// Appends the test of an expression that joins no others. Returns `false` if it is not one of members of the item.
fn push_test<'s, 'p>(
    e: &'s Expr<'p>,
    on_true: usize,
    on_false: usize,
    tests: &mut Vec<Test<'s, 'p>>,
) -> Result<bool, Error>
    ensures tests { IfOk result (λ fits. fits ≡ true → is_joined (expression_view e.now) ≡ false
        → (done : List Branch) → AreBranches (reverse tests.old.items) done → AreBranches (reverse tests.new.items)
        (record { condition = expression_view e.now; on_true = on_true; on_false = on_false } ∷ done)) }
    ensures errors { IfErr result IsOutOfMemory }
{
    let Some(question) = plain_question(e) else {
        return Ok(false);
    };
    tests.push(Test {
        question,
        on_true,
        on_false,
    })?;
    Ok(true)
}

/// Returns the left part of a pair, which the right part follows.
#[inline(always)]
fn left_of<'s, 'p>(pair: Pair<'s, 'p>, on_true: usize, on_false: usize) -> Waiting<'s, 'p>
    ensures { result ≡ left_of pair.entry on_true on_false }
{
    match pair.join {
        Join::And => Waiting {
            e: pair.left,
            on_true: Target::Next,
            on_false: Target::At(on_false),
        },
        Join::Or => Waiting {
            e: pair.left,
            on_true: Target::At(on_true),
            on_false: Target::Next,
        },
    }
}

/// Returns the right part of a pair, whose result is that of the pair if it is evaluated.
#[inline(always)]
fn right_of<'s, 'p>(pair: Pair<'s, 'p>, on_true: usize, on_false: usize) -> Waiting<'s, 'p>
    ensures { result ≡ right_of pair.entry on_true on_false }
{
    Waiting {
        e: pair.right,
        on_true: Target::At(on_true),
        on_false: Target::At(on_false),
    }
}

/// Returns the number of tests that are left at a target, if `left` tests follow the part.
#[inline(always)]
fn jump_to(target: Target, left: usize) -> usize
    ensures { result ≡ jump_to target left }
{
    match target {
        Target::Next => left,
        Target::At(at) => at,
    }
}

/// Returns `false` only if a part of a condition is a path that is not a member of the item, or has such an operand. It
/// costs less than compiling the condition. All left sides are examined, and of each right side the outermost operator.
///
/// It has no contract, since no result depends on it: a condition that it rejects is evaluated without tests, for more
/// instructions.
pub(crate) fn may_be_plain(e: &Expr<'_>) -> bool {
    let mut rest = e;
    while let Expr::BinaryOp { left, right, .. } = rest {
        if !may_be_of_members(right) {
            return false;
        }
        rest = left;
    }
    may_be_of_members(rest)
}

/// Returns `false` only if a part is a path that is not a member of the item, or has such an operand.
#[inline(always)]
fn may_be_of_members(part: &Expr<'_>) -> bool {
    match part {
        Expr::BinaryOp { left, right, .. } => may_be_member(left) && may_be_member(right),
        _ => may_be_member(part),
    }
}

/// Returns `false` if an operand or an `exists` is of a path that is not a member of the item.
#[inline(always)]
fn may_be_member(operand: &Expr<'_>) -> bool {
    match operand {
        Expr::Paths(_) => names_of(operand).is_some() || children_names(operand).is_some(),
        Expr::ExistsFunc(steps) => is_relative(steps) && are_members(steps),
        Expr::Value(_) | Expr::BinaryOp { .. } | Expr::UnaryOp { .. } => true,
    }
}

/// Returns the question of members that an expression is, if it is one.
pub(crate) fn plain_question<'s, 'p>(e: &'s Expr<'p>) -> Option<Question<'s, 'p>>
    ensures { is_joined (expression_view e.now) ≡ false
        → MatchOption result (is_condition (expression_view e.now) ≡ true)
        (λ question. IsQuestionOf question (expression_view e.now)) }
{
    match e {
        Expr::BinaryOp { op, left, right } => {
            if is_comparison(*op) {
                comparison_of(*op, left, right)
            } else {
                Some(Question::Unknown)
            }
        }
        Expr::ExistsFunc(steps) => {
            let names = names_in(steps)?;
            Some(Question::MemberFound(MemberFound { names }))
        }
        Expr::Paths(_) | Expr::Value(_) | Expr::UnaryOp { .. } => None,
    }
}

/// Returns the question that a comparison of two operands is, if one is a member of the item, and the other a member
/// or a literal. A literal on the left is compared from the right, except by `starts with`. The left one may also be
/// the children of a member.
#[inline(always)]
fn comparison_of<'s, 'p>(
    op: BinaryOperator,
    left: &'s Expr<'p>,
    right: &'s Expr<'p>,
) -> Option<Question<'s, 'p>>
    ensures { is_comparison op ≡ true → MatchOption result ⊤ (λ question. IsQuestionOf question
        (binary op (expression_view left.now) (expression_view right.now))) }
{
    match (names_of(left), names_of(right)) {
        (Some(names), None) => {
            let literal = literal_of(right)?;
            Some(Question::Compared(MemberCompared { op, names, literal }))
        }
        (None, Some(names)) => {
            let literal = literal_of(left)?;
            let turned = mirrored(op)?;
            Some(Question::Compared(MemberCompared {
                op: turned,
                names,
                literal,
            }))
        }
        (Some(left), Some(right)) => {
            Some(Question::MembersCompared(MembersCompared { op, left, right }))
        }
        (None, None) => {
            let names = children_names(left)?;
            let literal = literal_of(right)?;
            Some(Question::ChildrenCompared(MemberCompared { op, names, literal }))
        }
    }
}

/// Returns the operator that compares two values as `op` does with its sides exchanged.
fn mirrored(op: BinaryOperator) -> Option<BinaryOperator>
    ensures { result ≡ mirrored op }
{
    match op {
        BinaryOperator::Eq => Some(BinaryOperator::Eq),
        BinaryOperator::NotEq => Some(BinaryOperator::NotEq),
        BinaryOperator::Lt => Some(BinaryOperator::Gt),
        BinaryOperator::Lte => Some(BinaryOperator::Gte),
        BinaryOperator::Gt => Some(BinaryOperator::Lt),
        BinaryOperator::Gte => Some(BinaryOperator::Lte),
        _ => None,
    }
}

/// Returns the steps after `@` of an operand that is a member of the item.
fn names_of<'s, 'p>(operand: &'s Expr<'p>) -> Option<&'s [Path<'p>]>
    ensures { MatchOption result ⊤ (λ names. (are_members (steps_view names.now) ≡ true)
        × (expression_view operand.now ≡ paths (step current (steps_of (steps_view names.now))))) }
{
    match operand {
        Expr::Paths(steps) => names_in(steps),
        _ => None,
    }
}

/// Returns the steps between `@` and `.*` of an operand that is the children of a member of the item.
#[tactic(auto, using(crate::proofs::PathNodes::children_are))]
fn children_names<'s, 'p>(operand: &'s Expr<'p>) -> Option<&'s [Path<'p>]>
    ensures { MatchOption result ⊤ (λ names. (are_members (steps_view names.now) ≡ true)
        × (expression_view operand.now
        ≡ paths (step current (steps_of (steps_view names.now ++ dot_wildcard ∷ []))))) }
{
    let Expr::Paths(steps) = operand else {
        return None;
    };
    let (last, front) = steps.as_slice().split_last()?;
    let names = names_in(front)?;
    match last {
        Path::DotWildcard => Some(names),
        _ => None,
    }
}

/// Returns the steps after `@` of steps that name a member of the item.
fn names_in<'s, 'p>(steps: &'s [Path<'p>]) -> Option<&'s [Path<'p>]>
    ensures { MatchOption result ⊤ (λ names. (are_members (steps_view names.now) ≡ true)
        × (steps_view steps.now ≡ current ∷ steps_view names.now)) }
{
    match steps {
        [Path::Current, names @ ..] if are_members(names) => Some(names),
        _ => None,
    }
}

/// The value of an operand that is a literal.
#[inline(always)]
pub(crate) fn literal_of<'s>(operand: &'s Expr<'_>) -> Option<OperandValue<'s>>
    ensures { MatchOption result ⊤ (λ literal. (mode : Mode) (top t : Tree)
        → operand_values mode (expression_view operand.now) top t ≡ Ok (value_view literal ∷ [])) }
{
    let literal = operand_literal(operand)?;
    Some(value_of_literal(literal))
}

/// Returns the literal that an operand is, if it is one.
#[inline(always)]
pub(crate) fn operand_literal<'s, 'p>(operand: &'s Expr<'p>) -> Option<&'s PathValue<'p>>
    ensures { MatchOption result ⊤ (λ literal. (mode : Mode) (top t : Tree)
        → operand_values mode (expression_view operand.now) top t
        ≡ Ok (literal_value (literal_view literal.now) ∷ [])) }
{
    match operand {
        Expr::Value(literal) => Some(literal),
        Expr::Paths(_) | Expr::BinaryOp { .. } | Expr::UnaryOp { .. } | Expr::ExistsFunc(_) => None,
    }
}

/// Returns `true` if the operator compares values.
#[inline(always)]
pub(crate) fn is_comparison(op: BinaryOperator) -> bool
    ensures { result ≡ is_comparison op }
{
    match op {
        BinaryOperator::Eq
        | BinaryOperator::NotEq
        | BinaryOperator::Lt
        | BinaryOperator::Lte
        | BinaryOperator::Gt
        | BinaryOperator::Gte
        | BinaryOperator::StartsWith => true,
        BinaryOperator::And
        | BinaryOperator::Or
        | BinaryOperator::Add
        | BinaryOperator::Subtract
        | BinaryOperator::Multiply
        | BinaryOperator::Divide
        | BinaryOperator::Modulo => false,
    }
}
