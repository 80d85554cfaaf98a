//! Dropping a value in a loop over its children, without allocating.
//!
//! A value that waits is stored in the space that an earlier child has left in its container.

ghost use Rattle.std.specs.Prelude.{◌≡◌, ℕ, ◌+◌, ◌<◌, IfSome, vec_len, vec_capacity};
ghost use Rattle.jsonb_doc.specs.Private.Parts.{IsHeldBy, parts, values_parts, entries_parts, waiting_parts, to_release, remaining};

use crate::value::Value;
use std::collections::BTreeMap;
use std::mem::replace;

/// A value to be dropped next, and one that waits after it.
struct Remaining<'a> {
    next: Value<'a>,
    waiting: Option<Value<'a>>,
}

/// The children of a value.
enum Held<'a> {
    /// Those of an array.
    Values(Vec<Value<'a>>),
    /// Those of an object.
    Members(BTreeMap<String, Value<'a>>),
    /// A scalar has none.
    Nothing,
}

impl<'a> Value<'a> {
    /// Drops all children. It is a call, so that dropping a scalar has no frame.
    #[tactic(auto, using(std::proofs::Common::arith))]
    #[inline(never)]
    pub(super) fn release(self) {
        let mut remaining = Some(Remaining {
            next: self,
            waiting: None,
        });
        while let Some(Remaining { next, waiting }) = remaining {
            remaining = next.release_step(waiting);
        }
    }

    /// Drops one value. Returns the rest of it and the value that waits.
    fn release_step(self, waiting: Option<Value<'a>>) -> Option<Remaining<'a>>
        ensures { IfSome result (λ left. remaining left < to_release (parts self.entry) (waiting_parts waiting.entry)) }
    {
        match self.held() {
            Held::Values(values) => without_value(values, waiting),
            Held::Members(members) => without_member(members, waiting),
            Held::Nothing => without_next(waiting),
        }
    }

    /// Returns the value if it is a container.
    #[inline(always)]
    pub(super) fn container(self) -> Option<Value<'a>>
        ensures { IfSome result (λ inner. inner ≡ self.entry) }
    {
        match self.held() {
            Held::Values(values) => Some(Value::Array(values)),
            Held::Members(members) => Some(Value::Object(members)),
            Held::Nothing => None,
        }
    }

    /// Returns the children of this value.
    #[inline(always)]
    fn held(self) -> Held<'a>
        ensures { IsHeldBy result self.entry }
    {
        match self {
            Value::Array(values) => Held::Values(values),
            Value::Object(members) => Held::Members(members),
            Value::Null
            | Value::Bool(_)
            | Value::String(_)
            | Value::Number(_)
            | Value::Binary(_)
            | Value::Date(_)
            | Value::Timestamp(_)
            | Value::TimestampTz(_)
            | Value::Interval(_) => Held::Nothing,
        }
    }
}

/// Returns the value that waits as the next one.
#[tactic(auto, using(crate::proofs::PartLemmas::fewer_parts))]
fn without_next(waiting: Option<Value<'_>>) -> Option<Remaining<'_>>
    ensures { IfSome result (λ left. (n : ℕ) → 0 < n → remaining left < to_release n (waiting_parts waiting.entry)) }
{
    match waiting {
        None => None,
        Some(behind) => Some(Remaining {
            next: behind,
            waiting: None,
        }),
    }
}

/// Returns the values before the last container among them.
#[tactic(auto, using(crate::proofs::Sets::release_without_value))]
fn without_value<'a>(
    mut values: Vec<Value<'a>>,
    waiting: Option<Value<'a>>,
) -> Option<Remaining<'a>>
    ensures { IfSome result (λ left.
        remaining left < to_release (1 + values_parts values.entry.items) (waiting_parts waiting.entry)) }
{
    while let Some(last) = values.pop() {
        if let Some(inner) = last.container() {
            return Some(without_inner(values, inner, waiting));
        }
    }
    values.destroy_empty();
    without_next(waiting)
}

/// Returns the values, and the container after them. If something already waits, it is stored in the place of that
/// container.
#[tactic(auto, using(crate::proofs::Sets::release_without_inner))]
fn without_inner<'a>(
    mut values: Vec<Value<'a>>,
    inner: Value<'a>,
    waiting: Option<Value<'a>>,
) -> Remaining<'a>
    requires { vec_len values < vec_capacity values }
    ensures { remaining result < to_release
        (1 + values_parts values.entry.items + parts inner.entry) (waiting_parts waiting.entry) }
{
    match waiting {
        None => Remaining {
            next: Value::Array(values),
            waiting: Some(inner),
        },
        Some(behind) => {
            values.push_reserved(behind);
            Remaining {
                next: inner,
                waiting: Some(Value::Array(values)),
            }
        }
    }
}

/// Returns the members without the last one. If something already waits, it is stored in the place of its value.
#[tactic(auto, using(crate::proofs::Sets::release_without_member))]
fn without_member<'a>(
    mut members: BTreeMap<String, Value<'a>>,
    waiting: Option<Value<'a>>,
) -> Option<Remaining<'a>>
    ensures { IfSome result (λ left.
        remaining left < to_release (1 + entries_parts members.entry.entries) (waiting_parts waiting.entry)) }
{
    match waiting {
        None => {
            let Some((_, last)) = members.pop_last() else {
                members.destroy_empty();
                return None;
            };
            Some(Remaining {
                next: Value::Object(members),
                waiting: last.container(),
            })
        }
        Some(behind) => Some(with_behind(members, behind)),
    }
}

/// Returns the value of the last member, and the other members with the waiting value in its place. Without members,
/// returns the waiting value.
#[tactic(auto, using(crate::proofs::Sets::release_with_behind))]
fn with_behind<'a>(mut members: BTreeMap<String, Value<'a>>, behind: Value<'a>) -> Remaining<'a>
    ensures { remaining result < to_release (1 + entries_parts members.entry.entries) (parts behind.entry) }
{
    match members.last_entry() {
        None => {
            members.destroy_empty();
            Remaining {
                next: behind,
                waiting: None,
            }
        }
        Some(last) => {
            let next = replace(last.into_mut(), behind);
            Remaining {
                next,
                waiting: Some(Value::Object(members)),
            }
        }
    }
}
