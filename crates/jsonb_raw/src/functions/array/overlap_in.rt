//! Whether two lists of entries share a value, by a table of equality keys.

ghost use Rattle.std.specs.Prelude.{◌≡◌, ◌<◌, ◌^◌, ℕ, List, length, IfSome, IfErr, MatchResult};
ghost use Rattle.std.specs.List.{AllByRecursion};
ghost use Rattle.jsonb_doc.specs.Tree.{Tree, Trees, elements as elements_of};
ghost use Rattle.jsonb_doc.specs.Limits.{Fits};
ghost use Rattle.jsonb_doc.specs.Payload.{Form};
ghost use Rattle.jsonb_doc.specs.Private.Stored.{HasEntriesLeft};
ghost use Rattle.jsonb_doc.specs.Answer.{IsOutOfMemory, IsDecodingError, ◌or◌};
ghost use Rattle.jsonb_doc.specs.declared.error.Error.TheVariants.{OutOfMemory};
ghost use Rattle.jsonb_raw.specs.Sets.{overlap};
ghost use Rattle.jsonb_raw.specs.Private.SetCounts.{CountsKeys};

use super::counts::KeyCounts;
use super::overlap::fewer_first;
use crate::equality_key::write_entry_key;
use jsonb_doc::Error;
use jsonb_doc::cursor::Entries;
use std::alloc::Global;

/// When equality keys take less than other searches: once these have taken about as long.
#[derive(Drop)]
pub(crate) struct Budget {
    alloc: Option<Global>,
    left: usize,
}

impl Budget {
    /// Creates a budget of `count` entries. A table for this many entries takes about as long as that many that the
    /// hashes do not exclude.
    pub(crate) fn new(alloc: Option<Global>, count: usize) -> Budget {
        Budget { alloc, left: count }
    }

    /// Counts entries that the hashes did not exclude.
    pub(crate) fn spend(&mut self, count: usize) {
        self.left = self.left.saturating_sub(count);
    }

    /// Returns `true` if at least this many entries are left.
    pub(super) fn has(&self, count: usize) -> bool {
        self.left >= count
    }

    /// Returns this number, or 0 if nothing is left and there is an allocator.
    pub(crate) fn limited(&self, count: usize) -> usize {
        if self.left == 0 && self.alloc.is_some() {
            0
        } else {
            count
        }
    }

    /// Returns the allocator once nothing is left, only once.
    pub(crate) fn take_allocator(&mut self) -> Option<Global> {
        if self.left > 0 {
            return None;
        }
        self.alloc.take()
    }
}

/// Counts the keys of these entries.
#[tactic(auto, using(crate::proofs::Sets::overlap_in_count_entries))]
pub(super) fn count_entries(alloc: Global, entries: Entries<'_>) -> Result<KeyCounts, Error>
    ensures counts { (form : Form) (ts : Trees) → HasEntriesLeft form entries.entry ts
        → length (elements_of ts) < 2 ^ 63 → MatchResult result (λ m. CountsKeys m (elements_of ts)) IsOutOfMemory }
    ensures errors { IfErr result (IsDecodingError or OutOfMemory) }
{
    let mut counts = KeyCounts::new(alloc);
    let mut key = Vec::new(alloc);
    for entry in entries {
        write_entry_key(alloc, &mut key, &entry?)?;
        counts.add(alloc, &key)?;
    }
    Ok(counts)
}

/// Returns `true` if the key of an entry is counted.
fn has_counted(alloc: Global, counts: &KeyCounts, entries: Entries<'_>) -> Result<bool, Error>
    ensures overlap { (form : Form) (ts : Trees) (us : List Tree) → HasEntriesLeft form entries.entry ts
        → CountsKeys counts.now us → AllByRecursion Fits (elements_of ts) → AllByRecursion Fits us
        → MatchResult result (λ b. b ≡ overlap (elements_of ts) us) IsOutOfMemory }
    ensures errors { IfErr result (IsDecodingError or OutOfMemory) }
{
    let mut key = Vec::new(alloc);
    for entry in entries {
        write_entry_key(alloc, &mut key, &entry?)?;
        if counts.has(&key) {
            return Ok(true);
        }
    }
    Ok(false)
}

/// Returns `true` if an entry equals one of the others. The keys of the fewer of both are in the table.
fn keys_overlap(alloc: Global, found: Entries<'_>, others: Entries<'_>) -> Result<bool, Error>
    ensures overlap { (form other_form : Form) (ts us : Trees) → HasEntriesLeft form found.entry ts
        → HasEntriesLeft other_form others.entry us → AllByRecursion Fits (elements_of ts)
        → AllByRecursion Fits (elements_of us) → length (elements_of ts) < 2 ^ 63 → length (elements_of us) < 2 ^ 63
        → MatchResult result (λ b. b ≡ overlap (elements_of ts) (elements_of us)) IsOutOfMemory }
    ensures errors { IfErr result (IsDecodingError or OutOfMemory) }
{
    let (few, many) = fewer_first(found, others);
    let counts = count_entries(alloc, few)?;
    has_counted(alloc, &counts, many)
}

/// Returns `true` if an entry equals one of the others, or `None` if there is no allocator, an allocation fails, or an
/// entry cannot be read.
pub(super) fn overlap_by_keys(
    alloc: Option<Global>,
    found: Entries<'_>,
    others: Entries<'_>,
) -> Option<bool>
    ensures { (form other_form : Form) (ts us : Trees) → HasEntriesLeft form found.entry ts
        → HasEntriesLeft other_form others.entry us → AllByRecursion Fits (elements_of ts)
        → AllByRecursion Fits (elements_of us) → length (elements_of ts) < 2 ^ 63 → length (elements_of us) < 2 ^ 63
        → IfSome result (λ b. b ≡ overlap (elements_of ts) (elements_of us)) }
{
    let alloc = alloc?;
    match keys_overlap(alloc, found, others) {
        Ok(shared) => Some(shared),
        Err(_) => None,
    }
}
