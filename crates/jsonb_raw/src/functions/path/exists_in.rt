//! Existence of many names among many strings, by a table of the strings.

ghost use Rattle.std.specs.Prelude.{◌≡◌, ℕ, List, IfSome, IfErr, MatchResult};
ghost use Rattle.std.specs.Iterator.{IsFinite};
ghost use Rattle.jsonb_doc.specs.Payload.{Form};
ghost use Rattle.jsonb_doc.specs.Answer.{IsOutOfMemory, IsDecodingError, ◌or◌};
ghost use Rattle.jsonb_doc.specs.declared.error.Error.TheVariants.{OutOfMemory};
ghost use Rattle.jsonb_raw.specs.Private.NameBlocks.{HasTextsLeft, HasTexts, AreStrings, is_one_of, decided_by};
ghost use Rattle.jsonb_raw.specs.Iterators.{YieldsItemsLeft};

use super::name_block::next_text;
use jsonb_doc::Error;
use jsonb_doc::cursor::Entries;
use std::alloc::Global;
use std::collections::BTreeSet;

/// The least number of names that are looked up without a table.
const MANY_NAMES: usize = 2_048;

/// The most names that are looked up without a table.
const MOST_NAMES: usize = 16_384;

/// The number of names that are looked up in an object without a table in about the time that it takes for a key.
const NAMES_EACH: usize = 4;

/// Returns the number of names that are looked up among these strings without a table.
fn many_names(strings: usize) -> usize {
    strings
        .saturating_mul(NAMES_EACH)
        .max(MANY_NAMES)
        .min(MOST_NAMES)
}

/// The strings among some entries, and a table of them once many names were looked up.
#[derive(Drop)]
pub(crate) struct Strings<'a> {
    alloc: Option<Global>,
    entries: Entries<'a>,
    /// The number of names that were looked up without the table.
    names: usize,
    table: Option<BTreeSet<&'a [u8]>>,
}

impl<'a> Strings<'a> {
    pub(super) fn new(alloc: Option<Global>, entries: Entries<'a>) -> Strings<'a>
        ensures { (form : Form) (ss : List (List ℕ)) → HasTextsLeft form entries.entry ss
            → AreStrings form result ss }
    {
        Strings {
            alloc,
            entries,
            names: 0,
            table: None,
        }
    }

    /// Returns whether the name is one of the strings, or `None` if there is no table.
    pub(super) fn has(&self, name: &[u8]) -> Option<bool>
        ensures { (form : Form) (ss : List (List ℕ)) → AreStrings form self.now ss
            → IfSome result (λ b. b ≡ is_one_of ss name.now) }
    {
        match &self.table {
            Some(table) => Some(table.contains(name)),
            None => None,
        }
    }

    /// Returns `true` if a name was counted.
    pub(super) fn is_counting(&self) -> bool {
        self.names > 0
    }

    /// Counts a name that was looked up without the table. Makes it if these are many and there is an allocator, unless
    /// an allocation fails.
    pub(super) fn count_name(&mut self)
        ensures { (form : Form) (ss : List (List ℕ)) → AreStrings form self.old ss → AreStrings form self.new ss }
    {
        self.names = self.names.saturating_add(1);
        let many = many_names(self.entries.len());
        if self.names >= many {
            let table = set_if_allocated(self.alloc.take(), self.entries);
            self.table = table;
        }
    }
}

/// The number of strings up to which blocks of names do not grow.
pub(super) const FEW_STRINGS: usize = 256;

/// The number of traversals that take about as long as making a set.
const TRAVERSALS: usize = 32;

/// The number of entries that are traversed for a name in about the time of a lookup in a set.
const LOOKUP: usize = 20;

/// When a set of the strings takes less than blocks of names: once these have taken about as long as making it, if a
/// name takes more than a lookup.
#[derive(Drop)]
pub(crate) struct Budget {
    alloc: Option<Global>,
    traversals: usize,
    names: usize,
}

impl Budget {
    pub(super) fn new(alloc: Option<Global>) -> Budget {
        Budget {
            alloc,
            traversals: 0,
            names: 0,
        }
    }

    /// Counts names that were looked up, and traversals for them.
    pub(super) fn spend(&mut self, names: usize, traversals: usize) {
        self.names = self.names.saturating_add(names);
        self.traversals = self.traversals.saturating_add(traversals);
    }

    /// Returns `true` if a set takes less.
    fn is_spent(&self, entries: Entries<'_>) -> bool {
        let strings = entries.len();
        self.traversals >= TRAVERSALS
            && (strings <= FEW_STRINGS
                || self.traversals.saturating_mul(strings) >= self.names.saturating_mul(LOOKUP))
    }

    /// Returns the strings among the entries if a set takes less, only once. Returns `None` as `set_if_allocated` does.
    pub(super) fn take_set<'a>(&mut self, entries: Entries<'a>) -> Option<BTreeSet<&'a [u8]>>
        ensures { (form : Form) (ss : List (List ℕ)) → HasTextsLeft form entries.entry ss
            → IfSome result (λ table. HasTexts table ss) }
    {
        if !self.is_spent(entries) {
            return None;
        }
        set_if_allocated(self.alloc.take(), entries)
    }
}

/// Returns whether a set of strings has one of the names (`found`) or each of them.
pub(super) fn set_decides<'k, I: Iterator<Item = &'k str> + Drop>(
    set: &BTreeSet<&[u8]>,
    names: I,
    found: bool,
) -> bool
    requires can { I.can_next names }
    requires ends { IsFinite (I.remaining names) }
    ensures { (left : I → List (List ℕ)) → YieldsItemsLeft I.next_gives left → (ss : List (List ℕ))
        → HasTexts set.now ss → result ≡ decided_by found ss (left names) }
{
    for name in names {
        let has = set.contains(name.as_bytes());
        if has == found {
            return found;
        }
    }
    !found
}

/// Returns the strings among the entries, or `None` if there is no allocator, an allocation fails, or an entry cannot
/// be read.
fn set_if_allocated<'a>(alloc: Option<Global>, entries: Entries<'a>) -> Option<BTreeSet<&'a [u8]>>
    ensures { (form : Form) (ss : List (List ℕ)) → HasTextsLeft form entries.entry ss
        → IfSome result (λ table. HasTexts table ss) }
{
    let alloc = alloc?;
    match text_set(alloc, entries) {
        Ok(table) => Some(table),
        Err(_) => None,
    }
}

/// Returns the strings among the entries.
fn text_set<'a>(alloc: Global, entries: Entries<'a>) -> Result<BTreeSet<&'a [u8]>, Error>
    ensures texts { (form : Form) (ss : List (List ℕ)) → HasTextsLeft form entries.entry ss
        → MatchResult result (λ table. HasTexts table ss) IsOutOfMemory }
    ensures errors { IfErr result (IsDecodingError or OutOfMemory) }
{
    let mut table = BTreeSet::new(alloc);
    let mut rest = entries;
    while let Some(text) = next_text(&mut rest)? {
        table.insert(text)?;
    }
    Ok(table)
}

#[cfg(test)]
mod tests;
