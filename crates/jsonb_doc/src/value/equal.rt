//! Equality of decoded values, without allocating.
//!
//! The recursion depth is at most 48 for up to 10^10 values: a loop compares the values that a call leaves open.

ghost use Rattle.std.specs.Prelude.{◌≡◌, ◌+◌, ◌<◌, ◌≤◌, ◌&&◌, true, IfSome, MatchOption};
ghost use Rattle.std.specs.Cmp.{on_equiv, partial_equiv_from_equiv};
ghost use Rattle.std.specs.Ordering.{eq_by_cmp};
ghost use Rattle.std.specs.Slice.Iter.{iter_rest};
ghost use Rattle.jsonb_doc.specs.Number.{number_cmp};
ghost use Rattle.jsonb_doc.specs.Equal.{is_equal};
ghost use Rattle.jsonb_doc.specs.Proofs.Equality.{is_equal_equiv};
ghost use Rattle.jsonb_doc.specs.View.{number_view};
ghost use Rattle.jsonb_doc.specs.Value.{value_tree};
ghost use Rattle.jsonb_doc.specs.Private.Parts.{parts, values_parts, entries_parts};
ghost use Rattle.jsonb_doc.specs.Private.Comparing.{values_same, entries_same, told, told_parts, IsDecided};
ghost use Rattle.jsonb_doc.specs.declared.value.equal.Compared.TheVariants.{Told};

use crate::number::Number;
use crate::value::Value;
use std::collections::btree_map;
use std::slice;

/// The greatest recursion depth for children within children. A value that is open with 48 calls left has two open
/// children with 47 left, those have four with 46 and so on to 2^24 with 24 left, each of hundreds of children: more
/// than memory holds.
const MOST_CALLS: u32 = 48;

/// With more calls left than this, each child gets one fewer, which suits shallow values. Otherwise a child gets none
/// at first, and more only if two are open, so that a deep child is tried in vain at little cost.
const FEW_CALLS: u32 = 24;

impl PartialEq for Value<'_> {
    ghost eq = { λ a b. is_equal (value_tree a) (value_tree b) };

    ghost laws = { partial_equiv_from_equiv (on_equiv value_tree is_equal_equiv) };

    fn eq(&self, other: &Self) -> bool {
        equal(self, other)
    }
}

impl Eq for Value<'_> {
    ghost laws = { on_equiv value_tree is_equal_equiv };
}

/// The result of comparing two values.
#[derive(Clone, Copy)]
enum Compared<'v, 'a, 'w, 'b> {
    Told(bool),
    /// The values are equal if these are, which are within them.
    As(&'v Value<'a>, &'w Value<'b>),
}

/// Returns `true` if two values are equal.
#[cycle(equal)]
fn equal(value: &Value<'_>, other: &Value<'_>) -> bool
    ensures { result ≡ is_equal (value_tree value.now) (value_tree other.now) }
{
    match reduced(value, other, MOST_CALLS) {
        Compared::Told(answer) => answer,
        // Only nested calls leave values open.
        Compared::As(_, _) => false,
    }
}

/// Compares two values as far as the remaining calls allow. With none left, a container remains open.
#[cycle(equal)]
fn reduced<'v, 'a, 'w, 'b>(
    value: &'v Value<'a>,
    other: &'w Value<'b>,
    calls: u32,
) -> Compared<'v, 'a, 'w, 'b>
    ensures same { told result ≡ is_equal (value_tree value.now) (value_tree other.now) }
    ensures fewer { told_parts result ≤ parts value.now }
    ensures told { 48 ≤ calls → IsDecided result }
{
    if calls == 0 && matches!(value, Value::Array(_) | Value::Object(_)) {
        return Compared::As(value, other);
    }
    let mut left = Compared::As(value, other);
    loop {
        left = match left {
            Compared::Told(answer) => return Compared::Told(answer),
            Compared::As(value, other) => match parts_compared(value, other, calls) {
                Some(next) => next,
                None => return Compared::As(value, other),
            },
        };
    }
}

/// Compares two values of which at most one pair of children is open.
#[cycle(equal)]
fn parts_compared<'v, 'a, 'w, 'b>(
    value: &'v Value<'a>,
    other: &'w Value<'b>,
    calls: u32,
) -> Option<Compared<'v, 'a, 'w, 'b>>
    ensures same { MatchOption result (calls < 48)
        (λ left. told left ≡ is_equal (value_tree value.now) (value_tree other.now)) }
    ensures fewer { IfSome result (λ left. told_parts left < parts value.now) }
{
    Some(Compared::Told(match (value, other) {
        (Value::Null, Value::Null) => true,
        (Value::Bool(a), Value::Bool(b)) => a == b,
        (Value::String(a), Value::String(b)) => a == b,
        (Value::Number(a), Value::Number(b)) => numbers_equal(a, b),
        (Value::Binary(a), Value::Binary(b)) => a == b,
        (Value::Date(a), Value::Date(b)) => a == b,
        (Value::Timestamp(a), Value::Timestamp(b)) => a == b,
        (Value::TimestampTz(a), Value::TimestampTz(b)) => a == b,
        (Value::Interval(a), Value::Interval(b)) => a == b,
        (Value::Array(a), Value::Array(b)) => return values_compared(a.iter(), b.iter(), calls),
        (Value::Object(a), Value::Object(b)) => {
            return members_compared(a.iter(), b.iter(), calls);
        }
        _ => false,
    }))
}

/// Returns `true` if two numbers have the same exact value.
#[tactic(auto, using(crate::proofs::EqualValues::equal_in_trees))]
fn numbers_equal(number: &Number, other: &Number) -> bool
    ensures { result ≡ eq_by_cmp number_cmp (number_view number.now) (number_view other.now) }
{
    number == other
}

/// Compares the remaining values, one by one.
#[cycle(equal)]
fn values_compared<'v, 'a, 'w, 'b>(
    mut values: slice::Iter<'v, Value<'a>>,
    mut others: slice::Iter<'w, Value<'b>>,
    calls: u32,
) -> Option<Compared<'v, 'a, 'w, 'b>>
    ensures same { MatchOption result (calls < 48)
        (λ left. told left ≡ values_same (iter_rest values.entry) (iter_rest others.entry)) }
    ensures fewer { IfSome result (λ left. told_parts left ≤ values_parts (iter_rest values.entry)) }
{
    let mut joined = Joined::none(calls);
    while let Some(value) = values.next() {
        let Some(other) = others.next() else {
            return Some(Compared::Told(false));
        };
        if !joined.goes_on(value, other, calls)? {
            return Some(Compared::Told(false));
        }
    }
    Some(joined.ended(others.next().is_none()))
}

/// Compares the remaining members, one by one.
#[cycle(equal)]
fn members_compared<'v, 'a, 'w, 'b>(
    mut members: btree_map::Iter<'v, String, Value<'a>>,
    mut others: btree_map::Iter<'w, String, Value<'b>>,
    calls: u32,
) -> Option<Compared<'v, 'a, 'w, 'b>>
    ensures same { MatchOption result (calls < 48)
        (λ left. told left ≡ entries_same members.entry others.entry) }
    ensures fewer { IfSome result (λ left. told_parts left ≤ entries_parts members.entry) }
{
    let mut joined = Joined::none(calls);
    while let Some((key, value)) = members.next() {
        let Some((name, other)) = others.next() else {
            return Some(Compared::Told(false));
        };
        if key != name {
            return Some(Compared::Told(false));
        }
        if !joined.goes_on(value, other, calls)? {
            return Some(Compared::Told(false));
        }
    }
    Some(joined.ended(others.next().is_none()))
}

/// The result for some pairs of children, at most one of which is open, and the number of calls that the next pair
/// gets.
#[derive(Clone, Copy)]
struct Joined<'v, 'a, 'w, 'b> {
    left: Compared<'v, 'a, 'w, 'b>,
    within: u32,
}

impl<'v, 'a, 'w, 'b> Joined<'v, 'a, 'w, 'b> {
    /// Returns the result for no children: equal.
    fn none(calls: u32) -> Joined<'v, 'a, 'w, 'b>
        ensures { result.left ≡ Told true }
    {
        Joined {
            left: Compared::Told(true),
            within: if calls > FEW_CALLS { calls - 1 } else { 0 },
        }
    }

    /// Returns `true` if another pair of children may be equal, and adds the values that it leaves open.
    #[cycle(equal)]
    #[inline(always)]
    fn goes_on(&mut self, value: &'v Value<'a>, other: &'w Value<'b>, calls: u32) -> Option<bool>
        ensures same { MatchOption result (calls < 48) (λ may. (may && told self.new.left)
            ≡ (told self.old.left && is_equal (value_tree value.now) (value_tree other.now))) }
        ensures fewer { IfSome result (λ _. told_parts self.new.left ≤ told_parts self.old.left + parts value.now) }
    {
        match reduced(value, other, self.within) {
            Compared::Told(answer) => Some(answer),
            open => {
                *self = with_open(*self, open, calls)?;
                Some(true)
            }
        }
    }

    /// Returns the result if no children follow, or only children of one side.
    fn ended(self, no_more: bool) -> Compared<'v, 'a, 'w, 'b>
        ensures same { told result ≡ (told self.entry.left && no_more) }
        ensures fewer { told_parts result ≤ told_parts self.entry.left }
    {
        if no_more {
            self.left
        } else {
            Compared::Told(false)
        }
    }
}

/// Adds a pair of children to a result. If two are open, each is tried with more calls until one is decided.
#[cycle(equal)]
fn with_open<'v, 'a, 'w, 'b>(
    joined: Joined<'v, 'a, 'w, 'b>,
    part: Compared<'v, 'a, 'w, 'b>,
    calls: u32,
) -> Option<Joined<'v, 'a, 'w, 'b>>
    ensures same { MatchOption result (calls < 48)
        (λ more. told more.left ≡ (told joined.entry.left && told part.entry)) }
    ensures fewer { IfSome result
        (λ more. told_parts more.left ≤ told_parts joined.entry.left + told_parts part.entry) }
{
    let most = calls.saturating_sub(1);
    let mut first = joined.left;
    let mut second = part;
    let mut within = joined.within;
    while within < most && is_open(first) && is_open(second) {
        within = within.saturating_mul(4).saturating_add(3).min(most);
        second = compared_again(second, within);
        if is_open(second) {
            first = compared_again(first, within);
        }
    }
    let left = both(first, second, calls)?;
    Some(Joined { left, within })
}

fn is_open(compared: Compared<'_, '_, '_, '_>) -> bool {
    matches!(compared, Compared::As(_, _))
}

/// Compares an open pair with this many nested calls.
#[cycle(equal)]
fn compared_again<'v, 'a, 'w, 'b>(
    left: Compared<'v, 'a, 'w, 'b>,
    calls: u32,
) -> Compared<'v, 'a, 'w, 'b>
    ensures same { told result ≡ told left.entry }
    ensures fewer { told_parts result ≤ told_parts left.entry }
{
    match left {
        Compared::Told(answer) => Compared::Told(answer),
        Compared::As(value, other) => reduced(value, other, calls),
    }
}

/// Combines the results of two pairs, not both of which may remain open. Two open ones are left to the caller, which
/// may nest more calls; if it cannot, one is compared again.
#[cycle(equal)]
fn both<'v, 'a, 'w, 'b>(
    first: Compared<'v, 'a, 'w, 'b>,
    second: Compared<'v, 'a, 'w, 'b>,
    calls: u32,
) -> Option<Compared<'v, 'a, 'w, 'b>>
    ensures same { MatchOption result (calls < 48) (λ both. told both ≡ (told first.entry && told second.entry)) }
    ensures fewer { IfSome result (λ both. told_parts both ≤ told_parts first.entry + told_parts second.entry) }
{
    let Compared::As(value, other) = second else {
        return Some(match second {
            Compared::Told(true) => first,
            _ => Compared::Told(false),
        });
    };
    match first {
        Compared::Told(true) => Some(second),
        Compared::Told(false) => Some(Compared::Told(false)),
        Compared::As(_, _) => {
            if calls < MOST_CALLS {
                return None;
            }
            if equal(value, other) {
                Some(first)
            } else {
                Some(Compared::Told(false))
            }
        }
    }
}

#[cfg(test)]
mod tests;
