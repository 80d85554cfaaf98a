//! Existence of names among the strings of an array, by blocks of names. Each block is one traversal, so blocks grow.

ghost use Rattle.std.specs.Prelude.{◌≡◌, ◌<◌, ◌≤◌, ◌++◌, ℕ, List, [], length, take, None, IsOkAnd, IfErr};
ghost use Rattle.std.specs.Iterator.{IsFinite, IsNearerEnd};
ghost use Rattle.jsonb_doc.specs.Payload.{Form};
ghost use Rattle.jsonb_doc.specs.Answer.{IsDecodingError};
ghost use Rattle.jsonb_raw.specs.Private.NameBlocks.{HasTextsLeft, decided_by, contents_of, TellsNames, LeavesFewerNames};
ghost use Rattle.jsonb_raw.specs.Iterators.{YieldsItemsLeft};

use super::exists_in::{Budget, FEW_STRINGS, set_decides};
use super::name_block::{LARGE, MEDIUM, SMALL, names_decide};
use jsonb_doc::Error;
use jsonb_doc::cursor::Entries;
use std::alloc::Global;

/// Stores the next names, as many as there is room for, and advances past them. Returns how many they are.
fn take_names<'k, I: Iterator<Item = &'k str> + Drop>(names: &mut [&'k [u8]], rest: &mut I) -> usize
    requires can { I.can_next rest.old }
    requires ends { IsFinite (I.remaining rest.old) }
    requires room { 0 < length names.old }
    ensures names { (left : I → List (List ℕ)) → YieldsItemsLeft I.next_gives left
        → contents_of (take result names.new) ++ left rest.new ≡ left rest.old }
    ensures last { result < length names.old → (left : I → List (List ℕ)) → YieldsItemsLeft I.next_gives left
        → left rest.new ≡ [] }
    ensures fewer { result ≡ length names.old → IsNearerEnd I.can_next I.remaining rest.old rest.new }
    ensures within { result ≤ length names.old }
    ensures length { length names.new ≡ length names.old }
{
    for at in 0..names.len() {
        let Some(name) = rest.next() else {
            return at;
        };
        names[at] = name.as_bytes();
    }
    names.len()
}

/// Returns whether the next names, as many as there is room for, decide, and advances past them. Returns `None` if they
/// do not and others may remain.
fn block_by<'k, I: Iterator<Item = &'k str> + Drop>(
    names: &mut [&'k [u8]],
    entries: Entries<'_>,
    rest: &mut I,
    found: bool,
    budget: &mut Budget,
) -> Result<Option<bool>, Error>
    requires can { I.can_next rest.old }
    requires ends { IsFinite (I.remaining rest.old) }
    requires room { 0 < length names.old }
    requires few { length names.old ≤ 1408 }
    ensures has { (left : I → List (List ℕ)) → YieldsItemsLeft I.next_gives left
        → TellsNames found entries.entry (left rest.old) (left rest.new) result }
    ensures fewer { LeavesFewerNames I.can_next I.remaining rest.old rest.new result }
    ensures errors { IfErr result IsDecodingError }
{
    let count = take_names(names, rest);
    let decided = names_decide(&names[..count], entries, found, budget)?;
    if decided == found || count < names.len() {
        return Ok(Some(decided));
    }
    Ok(None)
}

/// Returns the result for a small block.
#[inline(never)]
fn small_block<'k, I: Iterator<Item = &'k str> + Drop>(
    entries: Entries<'_>,
    rest: &mut I,
    found: bool,
    budget: &mut Budget,
) -> Result<Option<bool>, Error>
    requires can { I.can_next rest.old }
    requires ends { IsFinite (I.remaining rest.old) }
    ensures has { (left : I → List (List ℕ)) → YieldsItemsLeft I.next_gives left
        → TellsNames found entries.entry (left rest.old) (left rest.new) result }
    ensures fewer { LeavesFewerNames I.can_next I.remaining rest.old rest.new result }
    ensures errors { IfErr result IsDecodingError }
{
    let mut names: [&[u8]; SMALL] = [&[]; SMALL];
    block_by(&mut names, entries, rest, found, budget)
}

/// Returns the result for a block of medium size.
#[inline(never)]
fn medium_block<'k, I: Iterator<Item = &'k str> + Drop>(
    entries: Entries<'_>,
    rest: &mut I,
    found: bool,
    budget: &mut Budget,
) -> Result<Option<bool>, Error>
    requires can { I.can_next rest.old }
    requires ends { IsFinite (I.remaining rest.old) }
    ensures has { (left : I → List (List ℕ)) → YieldsItemsLeft I.next_gives left
        → TellsNames found entries.entry (left rest.old) (left rest.new) result }
    ensures fewer { LeavesFewerNames I.can_next I.remaining rest.old rest.new result }
    ensures errors { IfErr result IsDecodingError }
{
    let mut names: [&[u8]; MEDIUM] = [&[]; MEDIUM];
    block_by(&mut names, entries, rest, found, budget)
}

/// Returns the result for a large block.
#[inline(never)]
fn large_block<'k, I: Iterator<Item = &'k str> + Drop>(
    entries: Entries<'_>,
    rest: &mut I,
    found: bool,
    budget: &mut Budget,
) -> Result<Option<bool>, Error>
    requires can { I.can_next rest.old }
    requires ends { IsFinite (I.remaining rest.old) }
    ensures has { (left : I → List (List ℕ)) → YieldsItemsLeft I.next_gives left
        → TellsNames found entries.entry (left rest.old) (left rest.new) result }
    ensures fewer { LeavesFewerNames I.can_next I.remaining rest.old rest.new result }
    ensures errors { IfErr result IsDecodingError }
{
    let mut names: [&[u8]; LARGE] = [&[]; LARGE];
    block_by(&mut names, entries, rest, found, budget)
}

/// Returns the result for the next block. Blocks grow with their number if the elements are many.
fn next_block<'k, I: Iterator<Item = &'k str> + Drop>(
    entries: Entries<'_>,
    rest: &mut I,
    found: bool,
    number: usize,
    budget: &mut Budget,
) -> Result<Option<bool>, Error>
    requires can { I.can_next rest.old }
    requires ends { IsFinite (I.remaining rest.old) }
    ensures has { (left : I → List (List ℕ)) → YieldsItemsLeft I.next_gives left
        → TellsNames found entries.entry (left rest.old) (left rest.new) result }
    ensures fewer { LeavesFewerNames I.can_next I.remaining rest.old rest.new result }
    ensures errors { IfErr result IsDecodingError }
{
    if number == 0 || entries.len() <= FEW_STRINGS {
        return small_block(entries, rest, found, budget);
    }
    if number == 1 {
        return medium_block(entries, rest, found, budget);
    }
    large_block(entries, rest, found, budget)
}

/// Returns whether the strings of an array include any (`found`) or all of the names, as `short_circuit` does, by
/// blocks of names.
#[inline(never)]
pub(super) fn blocks_decide<'k, I: Iterator<Item = &'k str> + Drop>(
    alloc: Option<Global>,
    entries: Entries<'_>,
    names: I,
    found: bool,
) -> Result<bool, Error>
    requires can { I.can_next names }
    requires ends { IsFinite (I.remaining names) }
    ensures has { (left : I → List (List ℕ)) → YieldsItemsLeft I.next_gives left
        → (form : Form) (ss : List (List ℕ)) → HasTextsLeft form entries.entry ss
        → IsOkAnd result (λ b. b ≡ decided_by found ss (left names)) }
    ensures errors { IfErr result IsDecodingError }
{
    let mut budget = Budget::new(alloc);
    let mut rest = names;
    let mut number = 0;
    loop {
        if let Some(set) = budget.take_set(entries) {
            return Ok(set_decides(&set, rest, found));
        }
        if let Some(decided) = next_block(entries, &mut rest, found, number, &mut budget)? {
            return Ok(decided);
        }
        number = number.saturating_add(1);
    }
}
