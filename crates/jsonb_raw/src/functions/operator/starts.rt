//! Whether each of some entries equals one of a list: the positions at which searches in the list begin.

ghost use Rattle.std.specs.Prelude.{◌≡◌, ◌<◌, ◌≤◌, None, length, true, IsOkAnd, IfOk, IfErr, IfSome};
ghost use Rattle.std.specs.List.{AllByRecursion, list_any};
ghost use Rattle.jsonb_doc.specs.Tree.{Tree, Trees, array, elements};
ghost use Rattle.jsonb_doc.specs.Equal.{is_equal};
ghost use Rattle.jsonb_doc.specs.Limits.{Fits};
ghost use Rattle.jsonb_doc.specs.Payload.{Form};
ghost use Rattle.jsonb_doc.specs.Private.Stored.{HasEntriesLeft, Stores};
ghost use Rattle.jsonb_doc.specs.Answer.{IsDecodingError};
ghost use Rattle.jsonb_raw.specs.Private.Compared.{PassesOver};
ghost use Rattle.jsonb_raw.specs.Private.EntryStarts.{AreLast};
ghost use Rattle.jsonb_raw.specs.Private.StartHints.{AreHints, TellsMatched, scalars_matched};
ghost use Rattle.jsonb_raw.specs.Private.HashBlocks.{IsFewerLeft};

use crate::entry_start::EntryStart;
use crate::equal_items::{find_equal, next_equals};
use crate::functions::array::hashes::stored_hash;
use crate::functions::array::overlap_in::Budget;
use crate::functions::operator::contains_in::scalars_by_keys;
use jsonb_doc::cursor::Entries;
use jsonb_doc::{Error, StoredEntry};
use std::alloc::Global;

/// The number of entries of the first block. So a value that is missing early costs few hashes.
const SMALL: usize = 32;

/// The number of slots of the table of a small block.
const SMALL_SLOTS: usize = 64;

/// The number of entries of the second block.
const MEDIUM: usize = 416;

/// The number of slots of the table of a block of medium size.
const MEDIUM_SLOTS: usize = 640;

/// The number of entries of later blocks. The whole list is visited once for each.
const LARGE: usize = 2400;

/// The number of slots of the table of a large block.
const LARGE_SLOTS: usize = 2944;

/// The number of entries up to which no start is looked up.
const FEW: usize = 16;

/// The number of entries that searches visit for each entry of both lists before a table of keys is made.
const STEPS: usize = 7;

/// The number of entries looked up that count as one visited. So lookups end once they took about as long as a table.
const LOOKUPS: usize = 8;

/// A slot of the table of a block, by hashes. A hash is in the first slot that is free when it is put, from the one
/// that it chooses.
#[derive(Clone, Copy)]
struct StartSlot {
    /// The position of the last entry of the list that has the hash, or the first position.
    start: EntryStart,
    /// 16 bits of the hash, or 1 if they are 0. It is 0 if the slot is free.
    mark: u16,
    /// Two bits of each hash that chooses this slot. They exclude most others.
    bits: u16,
}

impl StartSlot {
    /// A slot that no hash has or chooses.
    const FREE: StartSlot = StartSlot {
        start: EntryStart::FRONT,
        mark: 0,
        bits: 0,
    };

    /// Returns `true` unless the bits exclude that the hash chose this slot when it was put.
    #[inline(always)]
    fn may_have(&self, hash: u64) -> bool {
        self.bits & first_bit(hash) != 0 && self.bits & second_bit(hash) != 0
    }
}

/// Returns the mark of a hash.
fn hash_mark(hash: u64) -> u16 {
    ((hash % 65536) as u16).max(1)
}

/// Returns the bit of a hash that excludes most others.
fn first_bit(hash: u64) -> u16 {
    1 << (hash >> 16) % 16
}

/// Returns the other bit of a hash.
fn second_bit(hash: u64) -> u16 {
    1 << (hash >> 20) % 16
}

/// Returns the slot that a hash chooses.
#[inline(always)]
fn chosen_slot(slots: &[StartSlot], hash: u64) -> usize
    requires { 0 < length slots.now }
    ensures { result < length slots.now }
{
    ((hash as u128 * slots.len() as u128) >> 64) as usize
}

/// Returns the slot that has a mark, or else the one to put it in, from the given slot on.
#[inline(always)]
fn marked_slot(slots: &[StartSlot], chosen: usize, mark: u16) -> usize
    requires { chosen < length slots.now }
    ensures { result < length slots.now }
{
    let mut slot = chosen;
    for _ in 0..slots.len() {
        let other = slots[slot].mark;
        if other == mark || other == 0 {
            return slot;
        }
        slot += 1;
        if slot == slots.len() {
            slot = 0;
        }
    }
    slot
}

/// Returns the slot of a hash, if it has one.
#[inline(always)]
fn find_slot(slots: &[StartSlot], hash: u64) -> Option<usize>
    requires { 0 < length slots.now }
    ensures { IfSome result (λ slot. slot < length slots.now) }
{
    let chosen = chosen_slot(slots, hash);
    if !slots[chosen].may_have(hash) {
        return None;
    }
    let mark = hash_mark(hash);
    let slot = marked_slot(slots, chosen, mark);
    if slots[slot].mark == mark {
        Some(slot)
    } else {
        None
    }
}

/// Puts a hash in a slot.
fn put_hash(slots: &mut [StartSlot], hash: u64)
    requires { 0 < length slots.old }
    ensures hints { (all : Entries) → AreHints all slots.old → AreHints all slots.new }
    ensures length { length slots.new ≡ length slots.old }
{
    let chosen = chosen_slot(slots, hash);
    let mark = hash_mark(hash);
    let slot = marked_slot(slots, chosen, mark);
    slots[slot].mark = mark;
    slots[chosen].bits = slots[chosen].bits | first_bit(hash) | second_bit(hash);
}

/// Puts the hashes of the first of these entries that are scalars, at most this many.
fn put_hashes(slots: &mut [StartSlot], entries: Entries<'_>, most: usize)
    requires { 0 < length slots.old }
    ensures hints { (all : Entries) → AreHints all slots.old → AreHints all slots.new }
    ensures length { length slots.new ≡ length slots.old }
{
    let mut more = most;
    for entry in entries {
        let Ok(entry) = entry else {
            return;
        };
        if more == 0 {
            return;
        }
        if !entry.is_container() {
            put_hash(slots, stored_hash(&entry));
            more -= 1;
        }
    }
}

/// Stores the position of an entry, the first of these, if its hash has a slot.
#[tactic(auto, using(crate::proofs::PartedRuns::hint_kept, crate::proofs::PartedRuns::hint_stored))]
#[inline(always)]
fn store(slots: &mut [StartSlot], all: &Entries<'_>, here: &Entries<'_>, entry: &StoredEntry<'_>)
    requires slots { 0 < length slots.old }
    requires hints { AreHints all.now slots.old }
    requires passes { PassesOver all.now here.now }
    requires last { AreLast all.now here.now }
    ensures hints { AreHints all.now slots.new }
    ensures length { length slots.new ≡ length slots.old }
{
    if entry.is_container() {
        return;
    }
    let Some(slot) = find_slot(slots, stored_hash(entry)) else {
        return;
    };
    if let Some(start) = EntryStart::of(all, here) {
        slots[slot].start = start;
    }
}

/// Stores the positions of all entries whose hashes have a slot.
#[tactic(auto, using(crate::proofs::Sets::starts_store_all))]
fn store_all(slots: &mut [StartSlot], all: Entries<'_>)
    requires slots { 0 < length slots.old }
    requires hints { AreHints all slots.old }
    ensures hints { AreHints all.entry slots.new }
    ensures length { length slots.new ≡ length slots.old }
{
    let mut rest = all;
    'walk: loop {
        let here = rest;
        let Some(Ok(entry)) = rest.next() else {
            return;
        };
        store(slots, &all, &here, &entry);
    }
}

/// Returns the entries from the position on that the table has for an entry, unless they are all entries.
#[tactic(auto, using(crate::proofs::PartedRuns::hint_at))]
fn hint<'a>(slots: &[StartSlot], all: &Entries<'a>, wanted: &StoredEntry<'_>) -> Option<Entries<'a>>
    requires slots { 0 < length slots.now }
    requires hints { AreHints all.now slots.now }
    ensures { IfSome result (PassesOver all.now) }
{
    let slot = find_slot(slots, stored_hash(wanted))?;
    let left = slots[slot].start.entries(all)?;
    if left.len() == all.len() {
        return None;
    }
    Some(left)
}

/// Searches in a list.
#[derive(Drop)]
struct Searches<'a> {
    /// The entries after the one found last.
    left: Entries<'a>,
    /// The number of entries that they may still visit without a table of keys.
    budget: Budget,
}

impl<'a> Searches<'a> {
    /// Returns `true` if one of all entries equals the given one. The search begins at a position from which it may be
    /// found, and then visits all.
    fn find(
        &mut self,
        slots: &[StartSlot],
        all: Entries<'a>,
        wanted: &StoredEntry<'_>,
    ) -> Result<bool, Error>
        requires slots { 0 < length slots.now }
        requires hints { AreHints all slots.now }
        ensures found { (form other_form : Form) (xs : Trees) (y : Tree) → HasEntriesLeft form all.entry xs
            → Stores other_form wanted.now y → IsOkAnd result (λ b. b ≡ list_any (λ x. is_equal x y) (elements xs)) }
        ensures passes { IfOk result (λ _. PassesOver all.entry self.new.left) }
        ensures errors { IfErr result IsDecodingError }
    {
        if let Some(mut left) = hint(slots, &all, wanted) {
            let start = left.len();
            if find_equal(&mut left, wanted)? {
                self.budget.spend(start.saturating_sub(left.len()));
                self.left = left;
                return Ok(true);
            }
            self.budget.spend(start);
        }
        let mut left = all;
        let found = find_equal(&mut left, wanted)?;
        self.budget.spend(all.len().saturating_sub(left.len()));
        self.left = left;
        Ok(found)
    }
}

/// Returns whether each of the next scalar entries equals one of the list, and advances past them: past this many or
/// until the budget is spent, and then up to one that is not the next of the list. Returns `None` if each does and
/// others remain. The table has this many slots, which the callers do not hold.
#[inline(never)]
#[tactic(auto, using(crate::proofs::Sets::starts_block_by))]
fn block_by<'a, const SLOTS: usize>(
    searches: &mut Searches<'a>,
    all: Entries<'a>,
    rest: &mut Entries<'_>,
    most: usize,
) -> Result<Option<bool>, Error>
    requires most { 0 < most }
    requires slots { 0 < SLOTS }
    requires few { SLOTS ≤ 2944 }
    requires passes { PassesOver all searches.old.left }
    ensures matched { TellsMatched all.entry rest.old rest.new result }
    ensures passes { IfOk result (λ told. told ≡ None → PassesOver all.entry searches.new.left) }
    ensures fewer { IsFewerLeft rest.old rest.new result }
    ensures errors { IfErr result IsDecodingError }
{
    let mut slots = [StartSlot::FREE; SLOTS];
    put_hashes(&mut slots, *rest, most);
    store_all(&mut slots, all);
    searches.budget.spend(all.len() / LOOKUPS);
    let mut left = *rest;
    let mut more = most;
    'walk: loop {
        let here = left;
        let Some(entry) = left.next() else {
            return Ok(Some(true));
        };
        let entry = entry?;
        if entry.is_container() {
            continue;
        }
        if next_equals(&mut searches.left, &entry)? {
            more = more.saturating_sub(1);
            continue;
        }
        if more == 0 {
            *rest = here;
            return Ok(None);
        }
        if !searches.find(&slots, all, &entry)? {
            return Ok(Some(false));
        }
        more = searches.budget.limited(more - 1);
    }
}

/// Returns the result for the next block. Blocks grow with their number.
fn next_block<'a>(
    searches: &mut Searches<'a>,
    all: Entries<'a>,
    rest: &mut Entries<'_>,
    number: usize,
) -> Result<Option<bool>, Error>
    requires { PassesOver all searches.old.left }
    ensures matched { TellsMatched all.entry rest.old rest.new result }
    ensures passes { IfOk result (λ told. told ≡ None → PassesOver all.entry searches.new.left) }
    ensures fewer { IsFewerLeft rest.old rest.new result }
    ensures errors { IfErr result IsDecodingError }
{
    match number {
        0 => block_by::<SMALL_SLOTS>(searches, all, rest, SMALL),
        1 => block_by::<MEDIUM_SLOTS>(searches, all, rest, MEDIUM),
        _ => block_by::<LARGE_SLOTS>(searches, all, rest, LARGE),
    }
}

/// Returns `true` if each of the scalar entries equals one of the list, the first of those that remain if they are in
/// the same order. A table is made once searches have taken about as long, if there is an allocator. It is a separate
/// function so that recursive calls hold none of its variables.
#[inline(never)]
fn scattered_matched<'a>(
    alloc: Option<Global>,
    all: Entries<'a>,
    left: Entries<'a>,
    wanted: Entries<'_>,
) -> Result<bool, Error>
    requires { PassesOver all left }
    ensures matched { (form other_form : Form) (xs ys : Trees) → HasEntriesLeft form all.entry xs
        → HasEntriesLeft other_form wanted.entry ys → Fits (array xs) → AllByRecursion Fits (elements ys)
        → IsOkAnd result (λ b. b ≡ scalars_matched ys (elements xs)) }
    ensures errors { IfErr result IsDecodingError }
{
    let count = all.len().saturating_add(wanted.len());
    let budget = Budget::new(alloc, count.saturating_mul(STEPS));
    let mut searches = Searches { left, budget };
    let mut rest = wanted;
    let mut number: usize = 0;
    loop {
        if let Some(alloc) = searches.budget.take_allocator() {
            if let Some(matched) = scalars_by_keys(alloc, all, rest) {
                return Ok(matched);
            }
        }
        if let Some(matched) = next_block(&mut searches, all, &mut rest, number)? {
            return Ok(matched);
        }
        number = number.saturating_add(1);
    }
}

/// Returns `true` if each of the scalar entries equals one of the list. No start is looked up while the next of the
/// list is the entry, or if the list is short. Out of line, so that recursive calls hold none of its variables.
#[inline(never)]
#[tactic(auto, using(crate::proofs::Sets::starts_block_by))]
pub(super) fn scalars_matched(
    alloc: Option<Global>,
    all: Entries<'_>,
    wanted: Entries<'_>,
) -> Result<bool, Error>
    ensures matched { (form other_form : Form) (xs ys : Trees) → HasEntriesLeft form all.entry xs
        → HasEntriesLeft other_form wanted.entry ys → Fits (array xs) → AllByRecursion Fits (elements ys)
        → IsOkAnd result (λ b. b ≡ scalars_matched ys (elements xs)) }
    ensures errors { IfErr result IsDecodingError }
{
    let mut left = all;
    let mut rest = wanted;
    'walk: loop {
        let here = rest;
        let Some(entry) = rest.next() else {
            return Ok(true);
        };
        let entry = entry?;
        if entry.is_container() {
            continue;
        }
        let is_next = next_equals(&mut left, &entry)?;
        if is_next {
            continue;
        }
        let is_long = all.len() > FEW;
        if is_long {
            return scattered_matched(alloc, all, left, here);
        }
        left = all;
        let found = find_equal(&mut left, &entry)?;
        if !found {
            return Ok(false);
        }
    }
}

#[cfg(test)]
mod tests;
