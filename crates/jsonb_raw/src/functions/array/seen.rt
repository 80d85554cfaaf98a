//! What decides whether the next element of an array is kept in a set operation: counts of equality keys, or the
//! elements themselves if they are few.

ghost use Rattle.std.specs.Prelude.{◌≡◌, List, nat_lt, take, IsOkAnd, IfOk, IfSome, IfErr, ⊤};
ghost use Rattle.jsonb_doc.specs.Tree.{Tree};
ghost use Rattle.jsonb_doc.specs.Payload.{Form, number_reader};
ghost use Rattle.jsonb_doc.specs.Format.{Decodes, IsContent};
ghost use Rattle.jsonb_doc.specs.Kinds.{kind_number};
ghost use Rattle.jsonb_doc.specs.Private.Stored.{Stores};
ghost use Rattle.jsonb_doc.specs.Answer.{IsDecodingError};
ghost use Rattle.jsonb_raw.specs.AnyBytes.Roots.{HasRoot};
ghost use Rattle.jsonb_raw.specs.Arrays.{as_elements};
ghost use Rattle.jsonb_raw.specs.Sets.{count_of};
ghost use Rattle.jsonb_raw.specs.Private.Entries.{HoldTrees};
ghost use Rattle.jsonb_raw.specs.Private.SetCounts.{keeps};

use super::counts::KeyCounts;
use super::sets::{SetOperation, keep_element};
use crate::equal_items::{container_item, stored_equal};
use crate::equality_key::write_entry_key;
use crate::functions::entries::element_entries;
use crate::functions::parts::Entries;
use jsonb_doc::layout::{EntryKind, WORD, read_entry_word};
use jsonb_doc::{Error, StoredEntry};
use std::alloc::Global;

/// The number of elements of both arrays up to which all pairs are compared, if none is a container. Each element needs
/// an allocation for its key otherwise: two strings take twice the instructions, ten integers 15 percent fewer.
const FEW: usize = 8;

/// The number of elements up to which all pairs are compared even if some are containers: two objects and two others
/// take 8,700 instructions by their keys and 6,100 pair by pair, eight objects four times those of their keys.
const FEW_CONTAINERS: usize = 2;

/// The number of elements up to which all pairs are compared if each is a string, null or a Boolean: two of them are
/// equal if their bytes are. 20 strings take 20 to 30 percent fewer instructions than by their keys.
const FEW_LITERALS: usize = 24;

/// How often the key of each element is still counted, and a vector for the next key.
#[derive(Drop)]
pub(super) struct KeysCounted {
    pub(super) counts: KeyCounts,
    pub(super) key: Vec<u8>,
}

/// All elements of an array, how many of them are passed, and the elements of another array.
#[derive(Clone, Copy)]
pub(super) struct ElementsPassed<'a> {
    pub(super) all: Entries<'a>,
    pub(super) passed: usize,
    pub(super) others: Entries<'a>,
}

/// What is known of the elements of an array before the next one, and of another array.
#[derive(Drop)]
pub(super) enum Seen<'a> {
    Keys(KeysCounted),
    Elements(ElementsPassed<'a>),
}

impl KeysCounted {
    ghost use Rattle.std.specs.Prelude.{◌≡◌, ◌∷◌, List, IfErr, MatchResult};
    ghost use Rattle.jsonb_doc.specs.Tree.{Tree};
    ghost use Rattle.jsonb_doc.specs.Payload.{Form};
    ghost use Rattle.jsonb_doc.specs.Private.Stored.{Stores};
    ghost use Rattle.jsonb_doc.specs.Answer.{IsDecodingError, IsOutOfMemory, ◌or◌};
    ghost use Rattle.jsonb_doc.specs.declared.error.Error.TheVariants.{OutOfMemory};
    ghost use Rattle.jsonb_raw.specs.Private.SetCounts.{AreCounted, keeps};

    /// Returns `true` if the next element, which this entry stores, is kept, and counts it.
    #[tactic(auto, using(crate::proofs::AnswerLemmas::failed))]
    fn keep_by_key(
        &mut self,
        alloc: Global,
        kind: SetOperation,
        entry: &StoredEntry<'_>,
    ) -> Result<bool, Error>
        ensures passed { (form : Form) (other before rest : List Tree) (t : Tree)
            → AreCounted kind self.old.counts other before (t ∷ rest) → Stores form entry.now t
            → MatchResult result (λ b. (b ≡ keeps kind other (before, t))
            × AreCounted kind self.new.counts other (t ∷ before) rest) IsOutOfMemory }
        ensures errors { IfErr result (IsDecodingError or OutOfMemory) }
    {
        write_entry_key(alloc, &mut self.key, entry)?;
        keep_element(alloc, kind, &mut self.counts, &self.key)
    }
}

impl<'a> ElementsPassed<'a> {
    ghost use Rattle.std.specs.Prelude.{◌≡◌, ◌∷◌, List, IfErr, IsOkAnd};
    ghost use Rattle.jsonb_doc.specs.Tree.{Tree};
    ghost use Rattle.jsonb_doc.specs.Payload.{Form};
    ghost use Rattle.jsonb_doc.specs.Private.Stored.{Stores};
    ghost use Rattle.jsonb_doc.specs.Answer.{IsDecodingError};
    ghost use Rattle.jsonb_raw.specs.Private.SetCounts.{ArePassed, keeps};

    /// Returns `true` if the next element, which this entry stores, is kept, and passes it.
    fn keep_by_value(&mut self, kind: SetOperation, entry: &StoredEntry<'_>) -> Result<bool, Error>
        ensures passed { (form : Form) (other before rest : List Tree) (t : Tree)
            → ArePassed form self.old other before (t ∷ rest) → Stores form entry.now t
            → IsOkAnd result (λ b. (b ≡ keeps kind other (before, t))
            × ArePassed form self.new other (t ∷ before) rest) }
        ensures errors { IfErr result IsDecodingError }
    {
        read_entry(entry)?;
        let is_kept = keeps_among(kind, self.all, self.passed, self.others, entry)?;
        self.passed = self.passed.saturating_add(1);
        Ok(is_kept)
    }
}

impl<'a> Seen<'a> {
    ghost use Rattle.std.specs.Prelude.{◌≡◌, ◌∷◌, List, IfErr, MatchResult};
    ghost use Rattle.jsonb_doc.specs.Tree.{Tree};
    ghost use Rattle.jsonb_doc.specs.Payload.{Form};
    ghost use Rattle.jsonb_doc.specs.Private.Stored.{Stores};
    ghost use Rattle.jsonb_doc.specs.Answer.{IsDecodingError, IsOutOfMemory, ◌or◌};
    ghost use Rattle.jsonb_doc.specs.declared.error.Error.TheVariants.{OutOfMemory};
    ghost use Rattle.jsonb_raw.specs.Private.SetCounts.{HaveSeen, keeps};

    /// Returns `true` if the next element, which this entry stores, is kept, and passes it.
    #[tactic(auto, using(crate::proofs::AnswerLemmas::answered))]
    pub(super) fn keep_next(
        &mut self,
        alloc: Global,
        kind: SetOperation,
        entry: &StoredEntry<'_>,
    ) -> Result<bool, Error>
        ensures passed { (form : Form) (other before rest : List Tree) (t : Tree)
            → HaveSeen form kind self.old other before (t ∷ rest) → Stores form entry.now t
            → MatchResult result (λ b. (b ≡ keeps kind other (before, t))
            × HaveSeen form kind self.new other (t ∷ before) rest) IsOutOfMemory }
        ensures errors { IfErr result (IsDecodingError or OutOfMemory) }
    {
        match self {
            Seen::Keys(keys) => keys.keep_by_key(alloc, kind, entry),
            Seen::Elements(elements) => elements.keep_by_value(kind, entry),
        }
    }
}

/// Returns the elements of two arrays if both have few.
#[tactic(auto, using(crate::proofs::RunLemmas::array_of_entries))]
pub(super) fn few_elements<'a>(
    bytes: &'a [u8],
    others: &'a [u8],
) -> Result<Option<(Entries<'a>, Entries<'a>)>, Error>
    ensures few { (form other_form : Form) (t u : Tree) → Decodes form bytes.now t → Decodes other_form others.now u
        → IsOkAnd result (λ found. IfSome found (λ both. HoldTrees form both.0 (as_elements t)
        × HoldTrees other_form both.1 (as_elements u))) }
    ensures reads { IfOk result (λ found. IfSome found (λ _. HasRoot bytes.now)) }
    ensures errors { IfErr result IsDecodingError }
{
    let Some(entries) = element_entries(bytes)? else {
        return Ok(None);
    };
    let Some(few) = element_entries(others)? else {
        return Ok(None);
    };
    if !are_few(entries) || !are_few(few) {
        return Ok(None);
    }
    Ok(Some((entries, few)))
}

/// Returns `true` if there are few entries for their types.
fn are_few(entries: Entries<'_>) -> bool {
    let count = entries.len();
    count <= FEW_CONTAINERS || count <= FEW_LITERALS && count <= most_pairwise(entries)
}

/// Returns the number of entries up to which all pairs are compared, by their types.
fn most_pairwise(entries: Entries<'_>) -> usize {
    let (words, _) = entries.words.as_chunks::<WORD>();
    let mut most = FEW_LITERALS;
    for word in words {
        match read_entry_word(word).0 {
            EntryKind::Container => return FEW_CONTAINERS,
            EntryKind::Number | EntryKind::Extension => most = FEW,
            _ => {}
        }
    }
    most
}

/// Fails for a number or an extension value that cannot be read: nothing else reads an element that is compared with no
/// other.
#[inline(always)]
fn read_entry(entry: &StoredEntry<'_>) -> Result<(), Error>
    ensures read { (form : Form) (t : Tree)
        → IsContent (number_reader form) t (kind_number entry.now.kind) entry.now.content.now
        → IsOkAnd result (λ _. ⊤) }
    ensures errors { IfErr result IsDecodingError }
{
    if entry.kind != EntryKind::Text
        && entry.short_number().is_none()
        && container_item(entry).is_none()
    {
        entry.item()?;
    }
    Ok(())
}

/// Returns whether an element is kept that follows this many of all elements.
fn keeps_among(
    kind: SetOperation,
    all: Entries<'_>,
    passed: usize,
    others: Entries<'_>,
    entry: &StoredEntry<'_>,
) -> Result<bool, Error>
    ensures kept { (form other_form : Form) (ts other before : List Tree) (t : Tree) → HoldTrees form all.entry ts
        → HoldTrees other_form others.entry other → Stores form entry.now t
        → count_of t (take passed ts) ≡ count_of t before → IsOkAnd result (λ b. b ≡ keeps kind other (before, t)) }
    ensures errors { IfErr result IsDecodingError }
{
    match kind {
        SetOperation::First => Ok(count_equal(all, passed, entry)? == 0),
        SetOperation::Shared => has_more_left(all, passed, others, entry),
        SetOperation::Unshared => Ok(!has_more_left(all, passed, others, entry)?),
    }
}

/// Returns whether more of the others equal an entry by value than of the elements before it, which are visited only if
/// one of the others does.
#[tactic(auto, using(crate::proofs::ElementsSeen::none_left, std::proofs::lemmas::Bool::Decides::nat_tests))]
fn has_more_left(
    all: Entries<'_>,
    passed: usize,
    others: Entries<'_>,
    entry: &StoredEntry<'_>,
) -> Result<bool, Error>
    ensures more { (form other_form : Form) (ts other : List Tree) (t : Tree) → HoldTrees form all.entry ts
        → HoldTrees other_form others.entry other → Stores form entry.now t
        → IsOkAnd result (λ b. b ≡ nat_lt (count_of t (take passed ts)) (count_of t other)) }
    ensures errors { IfErr result IsDecodingError }
{
    let is_found = has_more_than(others, 0, entry)?;
    if !is_found {
        return Ok(false);
    }
    let before = count_equal(all, passed, entry)?;
    if before == 0 {
        return Ok(true);
    }
    has_more_than(others, before, entry)
}

/// Returns whether more than `count` of the entries equal an entry by value.
#[tactic(auto, using(crate::proofs::RunLemmas::entry_taken, crate::proofs::RunLemmas::no_entry_left))]
fn has_more_than(
    entries: Entries<'_>,
    count: usize,
    wanted: &StoredEntry<'_>,
) -> Result<bool, Error>
    ensures more { (form other_form : Form) (ts : List Tree) (u : Tree) → HoldTrees form entries.entry ts
        → Stores other_form wanted.now u → IsOkAnd result (λ b. b ≡ nat_lt count (count_of u ts)) }
    ensures errors { IfErr result IsDecodingError }
{
    let short = wanted.short_number();
    let mut left = entries;
    let mut more = count;
    while let Some((entry, others)) = left.first()? {
        let mut equal = 0;
        if stored_equal(&entry, wanted, short)? {
            equal = 1;
        }
        if more < equal {
            return Ok(true);
        }
        more -= equal;
        left = others;
    }
    Ok(false)
}

/// Returns how many of the first `count` entries equal an entry by value.
#[tactic(auto, using(crate::proofs::RunLemmas::no_entry_left, crate::proofs::EntriesLeft::take_no))]
fn count_equal(entries: Entries<'_>, count: usize, wanted: &StoredEntry<'_>) -> Result<usize, Error>
    ensures count { (form other_form : Form) (ts : List Tree) (u : Tree) → HoldTrees form entries.entry ts
        → Stores other_form wanted.now u → IsOkAnd result (λ n. n ≡ count_of u (take count ts)) }
    ensures errors { IfErr result IsDecodingError }
{
    let short = wanted.short_number();
    let mut left = entries;
    let mut more = count;
    let mut equal = 0;
    while more > 0 {
        let Some((entry, others)) = left.first()? else {
            return Ok(equal);
        };
        if stored_equal(&entry, wanted, short)? {
            equal += 1;
        }
        more -= 1;
        left = others;
    }
    Ok(equal)
}

#[cfg(test)]
mod tests;
