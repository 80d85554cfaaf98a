//! A condition as a list of tests, each with the places at which the condition continues after it.

ghost use Rattle.std.specs.Prelude.{◌≡◌};
ghost use Rattle.jsonb.specs.Private.Tests.{tests_in};

use super::operand_value::OperandValue;
use crate::path::{BinaryOperator, Path};
use std::slice;

/// A comparison of a member of the item with a literal.
#[derive(Clone, Copy)]
pub(crate) struct MemberCompared<'s, 'p> {
    pub(crate) op: BinaryOperator,
    /// The steps after `@`.
    pub(crate) names: &'s [Path<'p>],
    pub(crate) literal: OperandValue<'s>,
}

/// A comparison of two members of the item.
#[derive(Clone, Copy)]
pub(crate) struct MembersCompared<'s, 'p> {
    pub(crate) op: BinaryOperator,
    /// The steps after `@` on each side.
    pub(crate) left: &'s [Path<'p>],
    pub(crate) right: &'s [Path<'p>],
}

/// A member of the item whose existence is tested.
#[derive(Clone, Copy)]
pub(crate) struct MemberFound<'s, 'p> {
    /// The steps after `@`.
    pub(crate) names: &'s [Path<'p>],
}

/// What a test determines of an item.
#[derive(Clone, Copy)]
pub(crate) enum Question<'s, 'p> {
    /// Whether a comparison of a member with a literal is true.
    Compared(MemberCompared<'s, 'p>),
    /// Whether a comparison of the children of a member with a literal is true.
    ChildrenCompared(MemberCompared<'s, 'p>),
    /// Whether a comparison of two members is true.
    MembersCompared(MembersCompared<'s, 'p>),
    /// Whether there is a member.
    MemberFound(MemberFound<'s, 'p>),
    /// Arithmetic, which is unknown.
    Unknown,
}

/// A question, and where the condition continues after its result: at the test from which as many tests are left. If
/// none are, the result is that of the condition. The tests that a jump passes over are evaluated too, since an unknown
/// one makes the whole condition unknown.
#[derive(Clone, Copy)]
pub(crate) struct Test<'s, 'p> {
    pub(crate) question: Question<'s, 'p>,
    pub(crate) on_true: usize,
    pub(crate) on_false: usize,
}

/// The place at which a condition continues, and the result of the test before it.
#[derive(Clone, Copy)]
pub(crate) struct Jump {
    pub(crate) left: usize,
    pub(crate) truth: bool,
}

/// The tests of a condition, the last one first. A single one is not allocated.
#[derive(Drop)]
pub(crate) enum Condition<'s, 'p> {
    One(Test<'s, 'p>),
    Many(Vec<Test<'s, 'p>>),
}

impl<'s, 'p> Condition<'s, 'p> {
    #[inline(always)]
    pub(crate) fn as_slice(&self) -> &[Test<'s, 'p>]
        ensures { result.now ≡ tests_in self.now }
    {
        match self {
            Condition::One(test) => slice::from_ref(test),
            Condition::Many(tests) => tests.as_slice(),
        }
    }
}
