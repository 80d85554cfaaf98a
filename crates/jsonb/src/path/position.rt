//! The positions of an array that a subscript denotes.

ghost use Rattle.std.specs.Prelude.{◌≡◌, ◌<◌, ◌≤◌, ◌↔◌, ℕ, pos, ◌≤ℤ◌, ◌<ℤ◌, IsTrue, nat_eq, MatchResult};
ghost use Rattle.std.specs.HashSet.{contains};
ghost use Rattle.jsonb_doc.specs.Answer.{IsOutOfMemory};
ghost use Rattle.jsonb.specs.Positions.{position, IsPosition};
ghost use Rattle.jsonb.specs.Private.Positions.{IsBetween};

use super::{ArrayIndex, Index};
use jsonb_doc::Error;
use std::alloc::Global;
use std::collections::HashSet;

impl ArrayIndex {
    /// Returns the positions of an array of `length` elements that the subscript denotes: for a slice all from its
    /// first end to its second, both included.
    ///
    /// Positions outside the array are left out. The set's seed is fixed.
    ///
    /// # Errors
    ///
    /// `OutOfMemory` if an allocation fails.
    ///
    /// # Complexity
    ///
    /// O(number of positions). Allocates for all of them first.
    ///
    /// # Examples
    ///
    /// ```rust crates/jsonb_examples/src/evaluation.rt
    /// let positions = subscript.to_indices(alloc, length)?;
    /// Ok(positions.contains(&position))
    /// ```
    #[tactic(auto, using(crate::proofs::PositionLemmas::position_within))]
    pub fn to_indices(&self, alloc: Global, length: usize) -> Result<HashSet<usize>, Error>
        ensures { MatchResult result (λ found. (k : ℕ) →
            IsTrue (contains nat_eq found k) ↔ IsPosition self.now length k) IsOutOfMemory }
    {
        let (start, end) = self.bounds(length);
        let mut found = HashSet::with_capacity(alloc, end - start)?;
        for position in start..end {
            found.insert(position)?;
        }
        Ok(found)
    }

    /// Returns the positions that the subscript denotes in an array of `length` elements: those from the first number
    /// up to, and without, the second.
    pub(crate) fn bounds(&self, length: usize) -> (usize, usize)
        ensures within { (result.0 ≤ result.1) × (result.1 ≤ length) }
        ensures meant { (k : ℕ) → k < length
            → ((result.0 ≤ k) × (k < result.1)) ↔ IsPosition self.now length k }
    {
        match self {
            ArrayIndex::Index(index) => {
                let at = index.position(length);
                bounds_between(at, at, length)
            }
            ArrayIndex::Slice((first, last)) => bounds_between(
                first.position(length),
                last.position(length),
                length,
            ),
        }
    }
}

impl Index {
    /// Returns the number of the position in an array of this length.
    fn position(&self, length: usize) -> i128
        ensures { result ≡ position length self.now }
    {
        match self {
            Index::Index(i) => i128::from(*i),
            Index::LastIndex(n) => length as i128 + i128::from(*n) - 1,
        }
    }
}

/// Returns the positions from the first number to the last, both included, as a start and an end that is not included.
fn bounds_between(first: i128, last: i128, length: usize) -> (usize, usize)
    ensures within { (result.0 ≤ result.1) × (result.1 ≤ length) }
    ensures meant { (k : ℕ) → k < length → ((result.0 ≤ k) × (k < result.1)) ↔ IsBetween first last length k }
{
    let start = first_not_below(first, length);
    (start, first_above(last, length).max(start))
}

/// Returns the first position that is not below the number, or the length.
fn first_not_below(at: i128, length: usize) -> usize
    ensures within { result ≤ length }
    ensures splits { (k : ℕ) → k < length → (result ≤ k) ↔ (at ≤ℤ pos k) }
{
    if at <= 0 {
        return 0;
    }
    if at >= length as i128 {
        return length;
    }
    at as usize
}

/// Returns the first position above the number, or the length.
fn first_above(at: i128, length: usize) -> usize
    ensures within { result ≤ length }
    ensures splits { (k : ℕ) → k < length → (result ≤ k) ↔ (at <ℤ pos k) }
{
    if at < 0 {
        return 0;
    }
    if at >= length as i128 {
        return length;
    }
    at as usize + 1
}
