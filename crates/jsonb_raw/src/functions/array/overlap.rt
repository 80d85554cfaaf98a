//! Whether two lists of entries share a value. The hashes of some entries of one list exclude most entries of the
//! other.

ghost use Rattle.std.specs.Prelude.{◌≡◌, ◌⊎◌, ◌<◌, ◌≤◌, true, false, None, [], length, take, drop, IsOkAnd, IfOk, IfErr};
ghost use Rattle.std.specs.List.{list_any};
ghost use Rattle.jsonb_doc.specs.Tree.{Tree, Trees, array, elements as elements_of};
ghost use Rattle.jsonb_doc.specs.Equal.{is_equal};
ghost use Rattle.jsonb_doc.specs.Limits.{Fits};
ghost use Rattle.jsonb_doc.specs.Payload.{Form};
ghost use Rattle.jsonb_doc.specs.Private.Stored.{HasEntriesLeft, Stores, entries_bound};
ghost use Rattle.jsonb_doc.specs.Answer.{IsDecodingError};
ghost use Rattle.jsonb_raw.specs.Sets.{overlap};
ghost use Rattle.jsonb_raw.specs.Private.Hashes.{IsIn};
ghost use Rattle.jsonb_raw.specs.Private.HashBlocks.{TellsOverlap, IsFewerLeft};

use super::hashes::{add_hash, may_have_hash};
use super::overlap_in::{Budget, overlap_by_keys};
use crate::equal_items::{find_equal, find_equal_among};
use jsonb_doc::cursor::Entries;
use jsonb_doc::{Error, StoredEntry};
use std::alloc::Global;

/// The number of entries of the first block, and of one with an entry that has no hash, so that no other is excluded.
/// The set of a small block or one of medium size has a word for each entry.
const SMALL: usize = 64;

/// The most entries of the second block.
const MEDIUM: usize = 512;

/// The number of words of the set of a later block.
const LARGE_WORDS: usize = 4096;

/// The most entries of later blocks: so few for each word that its bits exclude most other entries.
const LARGE: usize = 7168;

/// The number of entries whose hashes are looked up in about the time that a table takes for one entry.
const LOOKUPS: usize = 32;

/// The number of entries on both sides up to which all pairs are compared without a set of hashes.
const FEW: usize = 8;

/// Some entries whose hashes are in a set.
#[derive(Clone, Copy)]
struct Block {
    count: usize,
    /// Whether no others remain.
    is_last: bool,
    /// Whether one has no hash, so that it may equal any other.
    is_open: bool,
}

impl Block {
    /// Returns `true` unless the set of these words excludes that an entry equals one of the block.
    fn may_have(self, words: &[u64], entry: &StoredEntry<'_>) -> bool
        requires { 0 < length words.now }
        ensures { (form : Form) (t : Tree) → Stores form entry.now t → (self.is_open ≡ false → IsIn words.now t)
            → result ≡ true }
    {
        self.is_open || may_have_hash(words, entry)
    }
}

/// Adds the hashes of the next entries, at most this many, and advances past them. Stops before an entry without a
/// hash if there are many before it.
fn take_hashes(words: &mut [u64], rest: &mut Entries<'_>, most: usize) -> Result<Block, Error>
    requires most { 0 < most }
    requires words { 0 < length words.old }
    ensures passed { (form : Form) (us : Trees) → HasEntriesLeft form rest.old us
        → IsOkAnd result (λ block. (ws : Trees) × HasEntriesLeft form rest.new ws
        × (elements_of ws ≡ drop block.count (elements_of us))) }
    ensures ended { (form : Form) (us : Trees) → HasEntriesLeft form rest.old us
        → IfOk result (λ block. block.is_last ≡ true → drop block.count (elements_of us) ≡ []) }
    ensures marked { (form : Form) (us : Trees) (t : Tree) → HasEntriesLeft form rest.old us
        → IfOk result (λ block. list_any (is_equal t) (take block.count (elements_of us)) ≡ true
        → block.is_open ≡ false → IsIn words.new t) }
    ensures fewer { IfOk result (λ block. block.is_last ≡ false → entries_bound rest.new < entries_bound rest.old) }
    ensures words { length words.new ≡ length words.old }
    ensures errors { IfErr result IsDecodingError }
{
    let mut left = *rest;
    let mut limit = most;
    let mut block = Block {
        count: 0,
        is_last: false,
        is_open: false,
    };
    while block.count < limit {
        let before = left;
        let Some(entry) = left.next() else {
            *rest = left;
            block.is_last = true;
            return Ok(block);
        };
        if add_hash(words, &entry?) {
            block.count += 1;
            continue;
        }
        if block.count >= SMALL {
            *rest = before;
            return Ok(block);
        }
        block.is_open = true;
        limit = limit.min(SMALL);
        block.count += 1;
    }
    *rest = left;
    Ok(block)
}

/// Returns `true` if an entry equals one of a block, whose hashes are in the set of these words. Spends one for each
/// `SMALL` of these with which an entry was compared in vain.
fn block_overlaps(
    found: Entries<'_>,
    words: &[u64],
    others: Entries<'_>,
    block: Block,
    budget: &mut Budget,
) -> Result<bool, Error>
    requires { 0 < length words.now }
    ensures overlap { (form other_form : Form) (ts us : Trees) → HasEntriesLeft form found.entry ts
        → HasEntriesLeft other_form others.entry us
        → ((t : Tree) → list_any (is_equal t) (take block.count (elements_of us)) ≡ true → block.is_open ≡ false
        → IsIn words.now t)
        → IsOkAnd result (λ b. b ≡ overlap (elements_of ts) (take block.count (elements_of us))) }
    ensures errors { IfErr result IsDecodingError }
{
    for entry in found {
        let entry = entry?;
        if !block.may_have(words, &entry) {
            continue;
        }
        if find_equal_among(others, &entry, block.count)? {
            return Ok(true);
        }
        budget.spend(block.count / SMALL);
    }
    Ok(false)
}

/// Returns whether an entry equals one of the next of the others, at most this many, and advances past them. Returns
/// `None` if none does and others remain. The words are those of an empty set.
fn block_by(
    words: &mut [u64],
    found: Entries<'_>,
    rest: &mut Entries<'_>,
    most: usize,
    budget: &mut Budget,
) -> Result<Option<bool>, Error>
    requires most { 0 < most }
    requires words { 0 < length words.old }
    ensures overlap { TellsOverlap found.entry rest.old rest.new result }
    ensures fewer { IsFewerLeft rest.old rest.new result }
    ensures errors { IfErr result IsDecodingError }
{
    let others = *rest;
    let block = take_hashes(words, rest, most)?;
    if block_overlaps(found, words, others, block, budget)? {
        return Ok(Some(true));
    }
    if block.is_last {
        return Ok(Some(false));
    }
    Ok(None)
}

/// Returns the result for a block, by a set of this many words, which the callers do not hold.
#[inline(never)]
fn block_with<const WORDS: usize>(
    found: Entries<'_>,
    rest: &mut Entries<'_>,
    most: usize,
    budget: &mut Budget,
) -> Result<Option<bool>, Error>
    requires most { 0 < most }
    requires words { 0 < WORDS }
    requires few { WORDS ≤ 4096 }
    ensures overlap { TellsOverlap found.entry rest.old rest.new result }
    ensures fewer { IsFewerLeft rest.old rest.new result }
    ensures errors { IfErr result IsDecodingError }
{
    let mut words = [0; WORDS];
    block_by(&mut words, found, rest, most, budget)
}

/// Returns `true` if an entry equals one of the others. Allocates only if there is an allocator.
pub(super) fn entries_overlap(
    alloc: Option<Global>,
    found: Entries<'_>,
    others: Entries<'_>,
) -> Result<bool, Error>
    ensures overlap { (form other_form : Form) (ts us : Trees) → HasEntriesLeft form found.entry ts
        → HasEntriesLeft other_form others.entry us → Fits (array ts) → Fits (array us)
        → IsOkAnd result (λ b. b ≡ overlap (elements_of ts) (elements_of us)) }
    ensures errors { IfErr result IsDecodingError }
{
    let (few, many) = fewer_first(found, others);
    if few.len() <= 1 || many.len() <= FEW {
        return pairs_overlap(few, many);
    }
    blocks_overlap(alloc, found, others)
}

/// Returns both iterators, first the one with fewer entries.
#[inline(always)]
pub(super) fn fewer_first<'a>(found: Entries<'a>, others: Entries<'a>) -> (Entries<'a>, Entries<'a>)
    ensures { ((result.0 ≡ found.entry) × (result.1 ≡ others.entry))
        ⊎ ((result.0 ≡ others.entry) × (result.1 ≡ found.entry)) }
{
    if found.len() <= others.len() {
        (found, others)
    } else {
        (others, found)
    }
}

/// Returns `true` if an entry equals one of the others. Compares all pairs, fastest if there are more others.
fn pairs_overlap(found: Entries<'_>, others: Entries<'_>) -> Result<bool, Error>
    ensures overlap { (form other_form : Form) (ts us : Trees) → HasEntriesLeft form found.entry ts
        → HasEntriesLeft other_form others.entry us
        → IsOkAnd result (λ b. b ≡ overlap (elements_of ts) (elements_of us)) }
    ensures errors { IfErr result IsDecodingError }
{
    for entry in found {
        let entry = entry?;
        let mut rest = others;
        if find_equal(&mut rest, &entry)? {
            return Ok(true);
        }
    }
    Ok(false)
}

/// Returns whether an entry equals one of the next block of the others, and advances past it. Returns `None` if none
/// does and others remain. Blocks grow with their number, so that a value that is found early costs few hashes.
fn next_block(
    found: Entries<'_>,
    rest: &mut Entries<'_>,
    number: usize,
    budget: &mut Budget,
) -> Result<Option<bool>, Error>
    ensures overlap { TellsOverlap found.entry rest.old rest.new result }
    ensures fewer { IsFewerLeft rest.old rest.new result }
    ensures errors { IfErr result IsDecodingError }
{
    match number {
        0 => block_with::<SMALL>(found, rest, SMALL, budget),
        1 => block_with::<MEDIUM>(found, rest, MEDIUM, budget),
        _ => block_with::<LARGE_WORDS>(found, rest, LARGE, budget),
    }
}

/// Returns the number of the next block. Blocks do not grow if hashes exclude few entries.
fn next_number(number: usize, count: usize, budget: &Budget) -> usize {
    if budget.has(count) {
        number.saturating_add(1)
    } else {
        number
    }
}

/// Returns `true` if an entry equals one of the others. Compares with a block of the others at once, until equality
/// keys take less.
fn blocks_overlap(
    alloc: Option<Global>,
    found: Entries<'_>,
    others: Entries<'_>,
) -> Result<bool, Error>
    ensures overlap { (form other_form : Form) (ts us : Trees) → HasEntriesLeft form found.entry ts
        → HasEntriesLeft other_form others.entry us → Fits (array ts) → Fits (array us)
        → IsOkAnd result (λ b. b ≡ overlap (elements_of ts) (elements_of us)) }
    ensures errors { IfErr result IsDecodingError }
{
    let mut budget = Budget::new(alloc, found.len().saturating_add(others.len()));
    let mut rest = others;
    let mut number = 0;
    loop {
        if let Some(shared) = overlap_by_keys(budget.take_allocator(), found, rest) {
            return Ok(shared);
        }
        if let Some(shared) = next_block(found, &mut rest, number, &mut budget)? {
            return Ok(shared);
        }
        budget.spend(found.len() / LOOKUPS);
        number = next_number(number, found.len(), &budget);
    }
}

#[cfg(test)]
mod tests;
