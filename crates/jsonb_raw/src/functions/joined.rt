//! Containers of runs of entries. Each byte is copied once, as it is stored.

ghost use Rattle.std.specs.Prelude.{◌≡◌, ◌^◌, ◌≤◌, ◌++◌, ℕ, List, [], map, length, IfErr, MatchOption};
ghost use Rattle.std.specs.Map.{keys_of, values_of};
ghost use Rattle.jsonb_doc.specs.Tree.{Tree, text, array, object, trees_of, pairs_of};
ghost use Rattle.jsonb_doc.specs.Payload.{Form};
ghost use Rattle.jsonb_doc.specs.Private.Writer.{Make, AreSortedKeys};
ghost use Rattle.jsonb_doc.specs.Answer.{IsOutOfMemory, ◌or◌};
ghost use Rattle.jsonb_doc.specs.declared.error.Error.TheVariants.{TooLarge};
ghost use Rattle.jsonb_raw.specs.Documents.{Makes};
ghost use Rattle.jsonb_raw.specs.Private.Entries.{HoldTrees, RunsHold};

use crate::functions::parts::Entries;
use crate::owned::OwnedJsonb;
use jsonb_doc::Error;
use jsonb_doc::layout::{HeaderKind, MAX_ENTRIES, encode_header};
use jsonb_doc::rewriting::container_of_runs;
use std::alloc::Global;

/// Returns the number of entries of all runs, or `None` if a container cannot have as many.
#[tactic(auto, using(crate::proofs::Sets::joined_count_entries))]
fn count_entries(runs: &[Entries<'_>]) -> Option<usize>
    ensures { (form : Form) (ts : List Tree) → RunsHold form runs.now ts
        → MatchOption result (2 ^ 29 ≤ length ts) (λ n. n ≡ length ts) }
{
    let mut count = 0;
    for run in runs {
        count += run.len();
        if count > MAX_ENTRIES {
            return None;
        }
    }
    Some(count)
}

/// Returns the container of these elements or pairs, whose entries are some runs and then others.
fn container_of(
    alloc: Global,
    kind: HeaderKind,
    count: usize,
    front: &[Entries<'_>],
    back: &[Entries<'_>],
) -> Result<OwnedJsonb, Error>
    ensures container { (form : Form) (xs ys : List Tree) (t : Tree) → RunsHold form front.now xs
        → RunsHold form back.now ys → Make kind count (xs ++ ys) t → Makes form t result }
    ensures errors { IfErr result (IsOutOfMemory or TooLarge) }
{
    let document = container_of_runs(alloc, kind, count, front, back)?;
    Ok(OwnedJsonb::new(document))
}

/// Returns the array of the entries of all runs.
#[tactic(auto, using(crate::proofs::RunLemmas::no_entries))]
pub fn array_of(alloc: Global, runs: &[Entries<'_>]) -> Result<OwnedJsonb, Error>
    ensures array { (form : Form) (ts : List Tree) → RunsHold form runs.now ts
        → Makes form (array (trees_of ts)) result }
    ensures errors { IfErr result (IsOutOfMemory or TooLarge) }
{
    let Some(count) = count_entries(runs) else {
        return Err(Error::TooLarge);
    };
    if count == 0 {
        return empty_array(alloc);
    }
    container_of(alloc, HeaderKind::Array, count, runs, &[])
}

/// Returns the empty array: a header alone, for which no runs are visited.
#[inline(always)]
#[tactic(auto, using(crate::proofs::Sets::joined_empty_array))]
fn empty_array(alloc: Global) -> Result<OwnedJsonb, Error>
    ensures array { (form : Form) → Makes form (array (trees_of [])) result }
    ensures errors { IfErr result IsOutOfMemory }
{
    let header = encode_header(HeaderKind::Array, 0);
    Ok(OwnedJsonb::new(Vec::from_slice(alloc, &header)?))
}

/// Returns the object whose keys are the entries of some runs, and whose values are those of others.
pub fn object_of(
    alloc: Global,
    keys: &[Entries<'_>],
    values: &[Entries<'_>],
) -> Result<OwnedJsonb, Error>
    ensures object { (form : Form) (ps : List (List ℕ × Tree)) → AreSortedKeys (keys_of ps)
        → RunsHold form keys.now (map text (keys_of ps)) → RunsHold form values.now (values_of ps)
        → Makes form (object (pairs_of ps)) result }
    ensures errors { IfErr result (IsOutOfMemory or TooLarge) }
{
    let Some(count) = count_entries(keys) else {
        return Err(Error::TooLarge);
    };
    container_of(alloc, HeaderKind::Object, count, keys, values)
}

/// Returns the array of one run of entries.
///
/// # Complexity
///
/// O(n) for n bytes. Allocates once.
#[tactic(auto, using(crate::proofs::RunLemmas::one_run))]
pub fn array_of_run<'a>(alloc: Global, run: Entries<'a>) -> Result<OwnedJsonb, Error>
    ensures array { (form : Form) (ts : List Tree) → HoldTrees form run.entry ts
        → Makes form (array (trees_of ts)) result }
    ensures errors { IfErr result (IsOutOfMemory or TooLarge) }
{
    array_of(alloc, &[run])
}

/// Returns the array of the entries of two runs.
#[tactic(auto, using(crate::proofs::RunLemmas::two_runs))]
pub fn array_of_two<'a>(
    alloc: Global,
    front: Entries<'a>,
    back: Entries<'a>,
) -> Result<OwnedJsonb, Error>
    ensures array { (form : Form) (xs ys : List Tree) → HoldTrees form front.entry xs → HoldTrees form back.entry ys
        → Makes form (array (trees_of (xs ++ ys))) result }
    ensures errors { IfErr result (IsOutOfMemory or TooLarge) }
{
    array_of(alloc, &[front, back])
}
