//! Concatenation of two documents.

ghost use Rattle.std.specs.Prelude.{ℕ, ◌++◌, List, IfErr, OnOk};
ghost use Rattle.std.specs.Map.{keys_of};
ghost use Rattle.jsonb_doc.specs.Tree.{Tree, array, object, trees_of, pairs_of};
ghost use Rattle.jsonb_doc.specs.Payload.{Form};
ghost use Rattle.jsonb_doc.specs.Format.{Decodes, AreKeys};
ghost use Rattle.jsonb_doc.specs.Answer.{IsDecodingError, ◌or◌};
ghost use Rattle.jsonb_doc.specs.declared.error.Error.TheVariants.{OutOfMemory, TooLarge};
ghost use Rattle.jsonb_raw.specs.AnyBytes.Roots.{HasRootShape};
ghost use Rattle.jsonb_raw.specs.Documents.{raw_bytes, Makes};
ghost use Rattle.jsonb_raw.specs.Arrays.{as_elements};
ghost use Rattle.jsonb_raw.specs.Concat.{concat};
ghost use Rattle.jsonb_raw.specs.Private.Merging.{merged};
ghost use Rattle.jsonb_raw.specs.Private.Entries.{HoldPairs};

use crate::functions::joined::array_of_two;
use crate::functions::parts::{Elements, PairEntries, PairRuns};
use crate::functions::runs::{first_pair, pair_entries};
use crate::owned::OwnedJsonb;
use crate::raw::RawJsonb;
use jsonb_doc::Error;
use std::alloc::Global;
use std::cmp::Ordering;

impl RawJsonb<'_> {
    /// Returns the object of the members of both objects, with the value of the other document for a key that both
    /// have.
    ///
    /// If one of them is not an object, returns the array of the elements of both; a root that is not an array counts
    /// as one element. Like PostgreSQL's `||`.
    ///
    /// # Errors
    ///
    /// Construction errors.
    ///
    /// # Complexity
    ///
    /// O(n) of both. Allocates; each byte is copied once.
    ///
    /// # Examples
    ///
    /// ```rust crates/jsonb_examples/src/calls.rt
    /// let merged = defaults.concat(alloc, user)?;
    /// let settings = merged.as_raw().strip_nulls(alloc)?;
    /// ```
    ///
    /// <!-- rows: calls: concat -->
    /// | Document | Arguments | Result |
    /// |---|---|---|
    /// | `[1]` | `[[1]]` | `[1,[1]]` |
    /// | `1` | `2` | `[1,2]` |
    /// | `{"a":1,"b":2}` | `{"b":3,"c":4}` | `{"a":1,"b":3,"c":4}` |
    /// | `{"k":"v"}` | `[1]` | `[{"k":"v"},1]` |
    pub fn concat(&self, alloc: Global, other: &RawJsonb<'_>) -> Result<OwnedJsonb, Error>
        ensures document { (form : Form) (tree other_tree : Tree)
            → Decodes form (raw_bytes self.now) tree → Decodes form (raw_bytes other.now) other_tree
            → Makes form (concat tree other_tree) result }
        ensures errors { IfErr result (IsDecodingError or OutOfMemory or TooLarge) }
        ensures reads { OnOk result (HasRootShape (raw_bytes self.now) × HasRootShape (raw_bytes other.now)) }
    {
        let bytes = self.as_bytes();
        let others = other.as_bytes();
        let Some(first) = pair_entries(bytes)? else {
            return joined_arrays(alloc, bytes, others);
        };
        let Some(second) = pair_entries(others)? else {
            return joined_arrays(alloc, bytes, others);
        };
        merged_pairs(alloc, first, second)
    }
}

/// Returns the object of the members of both, sorted by key. Both are visited in step, and consecutive members of one
/// are copied as one run. If both have a key, the member of the first is left out.
#[tactic(auto, using(crate::proofs::InsertLemmas::merging_begun, jsonb_doc::proofs::BuilderSteps::keys_rise))]
fn merged_pairs<'a>(
    alloc: Global,
    first: PairEntries<'a>,
    second: PairEntries<'a>,
) -> Result<OwnedJsonb, Error>
    ensures merged { (form : Form) (ps qs : List (List ℕ × Tree)) → HoldPairs form first.entry ps
        → HoldPairs form second.entry qs → AreKeys (keys_of ps) → AreKeys (keys_of qs)
        → Makes form (object (pairs_of (merged ps qs))) result }
    ensures errors { IfErr result (IsDecodingError or OutOfMemory or TooLarge) }
{
    let mut runs = PairRuns::new(alloc);
    let mut run = first;
    let mut left = first;
    let mut other = second;
    let mut is_second = false;
    while let (Some(pair), Some(next)) = (first_pair(left)?, first_pair(other)?) {
        match pair.key.cmp(next.key) {
            Ordering::Less => left = pair.others,
            Ordering::Equal if is_second => {
                left = pair.others;
                other = next.others;
            }
            Ordering::Equal => {
                runs.push_run(run, left)?;
                run = other;
                left = next.others;
                other = pair.others;
                is_second = true;
            }
            Ordering::Greater => {
                runs.push_run(run, left)?;
                run = other;
                other = left;
                left = next.others;
                is_second = !is_second;
            }
        }
    }
    runs.push_run(run, left)?;
    runs.push(left)?;
    runs.push(other)?;
    runs.object(alloc)
}

/// Returns the array of the elements of two documents. A root that is not an array counts as one element.
#[tactic(auto, using(crate::proofs::AnswerLemmas::failed, crate::proofs::RunLemmas::refused_front))]
fn joined_arrays<'a>(alloc: Global, bytes: &'a [u8], others: &'a [u8]) -> Result<OwnedJsonb, Error>
    ensures document { (form : Form) (t u : Tree) → Decodes form bytes.now t → Decodes form others.now u
        → Makes form (array (trees_of (as_elements t ++ as_elements u))) result }
    ensures reads { OnOk result (HasRootShape bytes.now × HasRootShape others.now) }
    ensures errors { IfErr result (IsDecodingError or OutOfMemory or TooLarge) }
{
    let first = Elements::of_document(bytes)?;
    let second = Elements::of_document(others)?;
    array_of_two(alloc, first.as_entries(), second.as_entries())
}
