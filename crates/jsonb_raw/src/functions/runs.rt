//! Entries of objects one by one, and runs of entries that are kept.

ghost use Rattle.std.specs.Prelude.{◌≡◌, ◌+◌, ◌^◌, ◌<◌, ◌≤◌, ◌++◌, [], ℕ, List, map, length, position as first_position, IfOk, IfSome, IsSomeAnd, IsOkAnd, IfErr, MatchResult};
ghost use Rattle.std.specs.Str.{bytes_eq};
ghost use Rattle.jsonb_doc.specs.Tree.{Tree, Pairs, text, object, members};
ghost use Rattle.jsonb_doc.specs.Payload.{Form, number_reader};
ghost use Rattle.jsonb_doc.specs.Format.{Decodes, AreKeys};
ghost use Rattle.jsonb_doc.specs.Answer.{IsDecodingError, IsOutOfMemory, ◌or◌};
ghost use Rattle.jsonb_doc.specs.declared.error.Error.TheVariants.{OutOfMemory};
ghost use Rattle.jsonb_doc.specs.Private.Writer.{Around, IsWriting};
ghost use Rattle.jsonb_raw.specs.AnyBytes.Roots.{HasRootShape};
ghost use Rattle.jsonb_raw.specs.Private.Entries.{HoldTrees, HoldPairs, ArePairsOf, AreContainerEntries, AreWithin, TakesFirstPair, RunsHold, Holding};

use crate::functions::joined::object_of;
use crate::functions::parts::{ContainerEntries, Entries, FirstPair, PairEntries, PairRuns};
use crate::owned::OwnedJsonb;
use jsonb_doc::layout::HeaderKind;
use jsonb_doc::rewriting::Writer;
use jsonb_doc::{Container, Error, read_container};
use std::alloc::Global;

/// Returns the entries of an object's pairs, or `None` if the root is not an object.
pub fn pair_entries(bytes: &[u8]) -> Result<Option<PairEntries<'_>>, Error>
    ensures entries { (form : Form) (t : Tree) → Decodes form bytes.now t → IsOkAnd result (ArePairsOf form t) }
    ensures reads { IfOk result (λ found. IfSome found (λ _. HasRootShape bytes.now)) }
    ensures errors { IfErr result IsDecodingError }
{
    let Container::Object(parts) = read_container(bytes)? else {
        return Ok(None);
    };
    Ok(Some(parts.entries()?))
}

/// Returns the entries of a container, or `None` if the root is not one.
#[tactic(auto, using(crate::proofs::Sets::runs_container_entries))]
pub fn container_entries(bytes: &[u8]) -> Result<Option<ContainerEntries<'_>>, Error>
    ensures entries { (form : Form) (t : Tree) → Decodes form bytes.now t
        → IsOkAnd result (AreContainerEntries form t) }
    ensures room { IfOk result (λ found. IfSome found (λ e.
        length e.values.words.now + length e.values.contents.now + 4 ≤ length bytes.now)) }
    ensures size { IfOk result (λ found. IfSome found (AreWithin (length bytes.now))) }
    ensures reads { IfOk result (λ found. IfSome found (λ _. HasRootShape bytes.now)) }
    ensures errors { IfErr result IsDecodingError }
{
    match read_container(bytes)? {
        Container::Scalar(_) => Ok(None),
        Container::Array(parts) => Ok(Some(ContainerEntries {
            kind: HeaderKind::Array,
            keys: Entries {
                words: &[],
                contents: &[],
            },
            values: Entries {
                words: parts.words,
                contents: parts.contents,
            },
        })),
        Container::Object(parts) => {
            let PairEntries { keys, values } = parts.entries()?;
            Ok(Some(ContainerEntries {
                kind: HeaderKind::Object,
                keys,
                values,
            }))
        }
    }
}

/// Returns the first member, or `None` if there is none. Fails with `InvalidJsonb` if its end is not known.
#[inline(always)]
#[tactic(auto, using(crate::proofs::RunLemmas::value_there))]
pub fn first_pair(pairs: PairEntries<'_>) -> Result<Option<FirstPair<'_>>, Error>
    ensures first { (form : Form) (ps : List (List ℕ × Tree)) → HoldPairs form pairs.entry ps
        → IsOkAnd result (TakesFirstPair form pairs.entry ps) }
    ensures fewer { IfOk result
        (λ found. IfSome found (λ first. length first.others.keys.words.now < length pairs.entry.keys.words.now)) }
    ensures errors { IfErr result IsDecodingError }
{
    let Some((key, other_keys)) = pairs.keys.first()? else {
        return Ok(None);
    };
    let Some((value, other_values)) = pairs.values.first()? else {
        return Err(Error::InvalidJsonb);
    };
    Ok(Some(FirstPair {
        key: key.content,
        kind: value.kind,
        content: value.content,
        others: PairEntries {
            keys: other_keys,
            values: other_values,
        },
    }))
}

/// Returns the position of a name among the entries, which are sorted keys.
pub fn name_position(entries: Entries<'_>, name: &[u8]) -> Result<Option<usize>, Error>
    ensures position { (form : Form) (ks : List (List ℕ)) → HoldTrees form entries.entry (map text ks) → AreKeys ks
        → IsOkAnd result (λ found. found ≡ first_position (λ key. bytes_eq key name.now) ks) }
    ensures errors { IfErr result IsDecodingError }
{
    entries.find_key(name)
}

/// Returns the entries of a run before the remaining ones, or `None` if more remain than the run has.
#[inline(always)]
fn entries_before<'a>(run: Entries<'a>, left: Entries<'a>) -> Option<Entries<'a>>
    ensures { (words contents : List ℕ) → run.entry.words.now ≡ words ++ left.entry.words.now
        → run.entry.contents.now ≡ contents ++ left.entry.contents.now
        → IsSomeAnd result (λ piece. (piece.words.now ≡ words) × (piece.contents.now ≡ contents)) }
{
    let words_len = run.words.len().wrapping_sub(left.words.len());
    let contents_len = run.contents.len().wrapping_sub(left.contents.len());
    let words = run.words.get(..words_len)?;
    let contents = run.contents.get(..contents_len)?;
    Some(Entries { words, contents })
}

/// Appends the entries of a run before the remaining ones to the runs, if there are any.
#[tactic(auto, using(crate::proofs::RunLemmas::run_after))]
pub fn push_run<'a>(
    runs: &mut Vec<Entries<'a>>,
    run: Entries<'a>,
    left: Entries<'a>,
) -> Result<(), Error>
    ensures pushed { (form : Form) (xs ys : List Tree) → Holding form runs.old.items run.entry left.entry xs ys
        → MatchResult result (λ _. RunsHold form runs.new.items xs) IsOutOfMemory }
    ensures errors { IfErr result (IsDecodingError or OutOfMemory) }
{
    let Some(piece) = entries_before(run, left) else {
        return Err(Error::InvalidJsonb);
    };
    if piece.words.is_empty() {
        return Ok(());
    }
    runs.push(piece)?;
    Ok(())
}

/// Appends the entries of a run before the remaining ones to a container.
#[inline(always)]
pub fn copy_run(writer: &mut Writer, run: Entries<'_>, left: Entries<'_>) -> Result<(), Error>
    ensures copied { (form : Form) (xs ys coming : List Tree) (around : Around) (whole : Tree)
        → Holding form [] run.entry left.entry xs ys → IsWriting form writer.old (xs ++ coming) around whole
        → MatchResult result (λ _. IsWriting form writer.new coming around whole) IsOutOfMemory }
    ensures errors { IfErr result (IsDecodingError or OutOfMemory) }
{
    let Some(piece) = entries_before(run, left) else {
        return Err(Error::InvalidJsonb);
    };
    if piece.words.is_empty() {
        return Ok(());
    }
    writer.copy(piece)?;
    Ok(())
}

impl<'a> PairRuns<'a> {
    ghost use Rattle.std.specs.Prelude.{◌≡◌, ◌++◌, [], ℕ, List, IfErr, MatchResult};
    ghost use Rattle.std.specs.Map.{keys_of};
    ghost use Rattle.jsonb_doc.specs.Tree.{Tree, object, pairs_of};
    ghost use Rattle.jsonb_doc.specs.Payload.{Form};
    ghost use Rattle.jsonb_doc.specs.Private.Writer.{AreSortedKeys};
    ghost use Rattle.jsonb_doc.specs.Answer.{IsDecodingError, IsOutOfMemory, ◌or◌};
    ghost use Rattle.jsonb_doc.specs.declared.error.Error.TheVariants.{OutOfMemory, TooLarge};
    ghost use Rattle.jsonb_raw.specs.Documents.{Makes};
    ghost use Rattle.jsonb_raw.specs.Private.Entries.{HoldPairs, PairsHeld, PairsOpen};

    /// Creates an empty list of runs. Does not allocate.
    pub fn new(alloc: Global) -> PairRuns<'a>
        ensures keys { result.keys.items ≡ [] }
        ensures values { result.values.items ≡ [] }
    {
        PairRuns {
            keys: Vec::new(alloc),
            values: Vec::new(alloc),
        }
    }

    /// Appends the members of a run before the remaining ones.
    pub fn push_run(&mut self, run: PairEntries<'a>, left: PairEntries<'a>) -> Result<(), Error>
        ensures pushed { (form : Form) (xs ys : List (List ℕ × Tree))
            → PairsOpen form self.old run.entry left.entry xs ys
            → MatchResult result (λ _. PairsHeld form self.new xs) IsOutOfMemory }
        ensures errors { IfErr result (IsDecodingError or OutOfMemory) }
    {
        push_run(&mut self.keys, run.keys, left.keys)?;
        push_run(&mut self.values, run.values, left.values)?;
        Ok(())
    }

    /// Appends members, if there are any.
    #[tactic(auto, using(crate::proofs::Sets::pair_runs_push))]
    pub fn push(&mut self, pairs: PairEntries<'a>) -> Result<(), Error>
        ensures pushed { (form : Form) (xs ys : List (List ℕ × Tree)) → PairsHeld form self.old xs
            → HoldPairs form pairs.entry ys
            → MatchResult result (λ _. PairsHeld form self.new (xs ++ ys)) IsOutOfMemory }
        ensures errors { IfErr result (IsDecodingError or OutOfMemory) }
    {
        if pairs.keys.words.is_empty() {
            return Ok(());
        }
        self.keys.push(pairs.keys)?;
        self.values.push(pairs.values)?;
        Ok(())
    }

    /// Returns the object of all members.
    pub fn object(&self, alloc: Global) -> Result<OwnedJsonb, Error>
        ensures object { (form : Form) (ps : List (List ℕ × Tree)) → PairsHeld form self.now ps
            → AreSortedKeys (keys_of ps)
            → Makes form (object (pairs_of ps)) result }
        ensures errors { IfErr result (IsDecodingError or OutOfMemory or TooLarge) }
    {
        object_of(alloc, self.keys.as_slice(), self.values.as_slice())
    }
}
