//! The iterator over the positions of a container's children.

use crate::error::Error;
use crate::layout::{MAX_ENTRIES, WORD, split_entry_word};
use crate::lengths::contents_len;
use crate::spot::Spot;

/// An iterator over the spots of a container's remaining children, in stored order, as `child_spots` returns it.
///
/// Yields the spot of each child and then `None`. It ends after a child whose end is not known, which is
/// `InvalidJsonb`.
///
/// # Complexity
///
/// A step is O(1). Does not allocate.
#[derive(Clone, Copy)]
pub struct SpotIter<'a> {
    words: &'a [u8],
    start: usize,
    end: usize,
}

impl<'a> SpotIter<'a> {
    ghost use Rattle.std.specs.Prelude.{◌≡◌, ◌<◌, ℕ, List, length, drop, MatchOption};
    ghost use Rattle.jsonb_doc.specs.Tree.{Tree};
    ghost use Rattle.jsonb_doc.specs.Representation.Positions.{HasSpotsLeft};

    pub(crate) fn new(words: &'a [u8], start: usize, end: usize) -> SpotIter<'a>
        ensures words { result.words.now ≡ words.now }
        ensures start { result.start ≡ start }
        ensures end { result.end ≡ end }
    {
        SpotIter { words, start, end }
    }

    /// Returns the number of remaining spots.
    ///
    /// # Complexity
    ///
    /// O(1). Does not allocate.
    ///
    /// # Examples
    ///
    /// ```rust crates/jsonb_examples/src/parts.rt
    /// if scalars.len() == children.len() {
    ///     return Ok(None);
    /// }
    /// ```
    #[inline(always)]
    pub fn len(&self) -> usize
        ensures { (bytes : List ℕ) (ts : List Tree) → HasSpotsLeft bytes self.now ts → result ≡ length ts }
    {
        self.words.len() / WORD
    }

    /// Returns the iterator without its first `count` spots, or `None` if fewer remain.
    ///
    /// # Complexity
    ///
    /// O(`count`). Does not allocate.
    ///
    /// # Examples
    ///
    /// ```rust crates/jsonb_examples/src/parts.rt
    /// if let Some(rest) = children.behind(first) {
    ///     for child in rest {
    ///         page.push_spot(list, child?)?;
    ///     }
    /// }
    /// ```
    pub fn behind(&self, count: usize) -> Option<SpotIter<'a>>
        ensures left { (bytes : List ℕ) (ts : List Tree) → HasSpotsLeft bytes self.now ts
            → MatchOption result (length ts < count) (λ rest. HasSpotsLeft bytes rest (drop count ts)) }
    {
        if count > MAX_ENTRIES {
            return None;
        }
        if count > self.words.len() / WORD {
            return None;
        }
        let (passed, words) = self.words.split_at(WORD * count);
        let start = self.start.wrapping_add(contents_len(passed));
        Some(SpotIter {
            words,
            start,
            end: self.end,
        })
    }
}

impl<'a> Iterator for SpotIter<'a> {
    ghost use Rattle.std.specs.Iterator.{at_most};
    ghost use Rattle.jsonb_doc.specs.Spots.{GivesSpot};
    ghost use Rattle.jsonb_doc.specs.AnyBytes.Spots.{spots_bound};

    type Item = Result<Spot, Error>;

    ghost next_gives = { GivesSpot };

    ghost remaining = { λ it. at_most (spots_bound it) };

    #[inline(always)]
    #[tactic(auto, using(crate::proofs::Sets::spot_iter_iterator_next))]
    fn next(&mut self) -> Option<Result<Spot, Error>> {
        if self.words.is_empty() {
            return None;
        }
        let Some((kind, len, others)) = split_entry_word(self.words) else {
            self.words = &[];
            return Some(Err(Error::InvalidJsonb));
        };
        let start = self.start;
        match start.checked_add(len) {
            Some(end) if end <= self.end => {
                self.words = others;
                self.start = end;
                Some(Ok(Spot { kind, start, end }))
            }
            _ => {
                self.words = &[];
                Some(Err(Error::InvalidJsonb))
            }
        }
    }
}
