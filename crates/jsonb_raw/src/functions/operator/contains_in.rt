//! Containment by tables of equality keys, which are made once searches have visited many entries.

ghost use Rattle.std.specs.Prelude.{◌≡◌, true, List, None, IfOk, IfSome, IfErr};
ghost use Rattle.std.specs.List.{AllByRecursion, list_any};
ghost use Rattle.jsonb_doc.specs.Tree.{Tree, Trees, array, elements};
ghost use Rattle.jsonb_doc.specs.Limits.{Fits};
ghost use Rattle.jsonb_doc.specs.Payload.{Form};
ghost use Rattle.jsonb_doc.specs.Private.Stored.{HasEntriesLeft, Stores};
ghost use Rattle.jsonb_doc.specs.Answer.{IsDecodingError, ◌or◌};
ghost use Rattle.jsonb_doc.specs.declared.error.Error.TheVariants.{OutOfMemory};
ghost use Rattle.jsonb_raw.specs.Contains.{is_part_of};
ghost use Rattle.jsonb_raw.specs.Private.KeyTables.{HasKeysOf, HasTableOf};
ghost use Rattle.jsonb_raw.specs.Private.StartHints.{scalars_matched};

use crate::functions::array::key_table::KeyTable;
use crate::functions::array::overlap_in::Budget;
use jsonb_doc::cursor::Entries;
use jsonb_doc::{Error, StoredEntry};
use std::alloc::Global;

/// Returns `true` if the table has the key of each of the scalar entries.
#[tactic(auto, using(crate::proofs::ContainLemmas::after_container))]
fn scalars_in_table(table: &mut KeyTable, wanted: Entries<'_>) -> Result<bool, Error>
    ensures matched { (form : Form) (xs : List Tree) (ys : Trees) → HasKeysOf table.old xs
        → HasEntriesLeft form wanted.entry ys → AllByRecursion Fits (elements ys)
        → IfOk result (λ b. b ≡ scalars_matched ys xs) }
    ensures errors { IfErr result (IsDecodingError or OutOfMemory) }
{
    for entry in wanted {
        let entry = entry?;
        if entry.is_container() {
            continue;
        }
        if !table.has(&entry)? {
            return Ok(false);
        }
    }
    Ok(true)
}

/// Returns `true` if each of the scalar entries equals one of the list, by a table of its scalars.
fn scalars_found(alloc: Global, all: Entries<'_>, wanted: Entries<'_>) -> Result<bool, Error>
    ensures matched { (form other_form : Form) (xs ys : Trees) → HasEntriesLeft form all.entry xs
        → HasEntriesLeft other_form wanted.entry ys → Fits (array xs) → AllByRecursion Fits (elements ys)
        → IfOk result (λ b. b ≡ scalars_matched ys (elements xs)) }
    ensures errors { IfErr result (IsDecodingError or OutOfMemory) }
{
    let mut table = KeyTable::new(alloc, all, 0)?;
    scalars_in_table(&mut table, wanted)
}

/// Returns `true` if each of the scalar entries equals one of the list, or `None` if an allocation fails, or an entry
/// cannot be read. Out of line, so that loops hold none of its variables.
#[inline(never)]
pub(super) fn scalars_by_keys(alloc: Global, all: Entries<'_>, wanted: Entries<'_>) -> Option<bool>
    ensures { (form other_form : Form) (xs ys : Trees) → HasEntriesLeft form all.entry xs
        → HasEntriesLeft other_form wanted.entry ys → Fits (array xs) → AllByRecursion Fits (elements ys)
        → IfSome result (λ b. b ≡ scalars_matched ys (elements xs)) }
{
    match scalars_found(alloc, all, wanted) {
        Ok(matched) => Some(matched),
        Err(_) => None,
    }
}

/// The number of bytes of both arrays for which searches visit an entry before a table is made.
const BYTES: usize = 8;

/// A table of the elements of an array up to a length, which is made once searches have visited many entries.
#[derive(Drop)]
pub(super) struct LateTable {
    budget: Budget,
    longest: usize,
    table: Option<KeyTable>,
}

impl LateTable {
    /// Creates a table, not made yet, of the elements of the one array up to half the length of the shorter one. So
    /// the tables of arrays within arrays have each byte only a logarithmic number of times.
    pub(super) fn between(alloc: Option<Global>, bytes: &[u8], others: &[u8]) -> LateTable
        ensures { result.table ≡ None }
    {
        let count = bytes.len().saturating_add(others.len()) / BYTES;
        LateTable {
            budget: Budget::new(alloc, count),
            longest: bytes.len().min(others.len()) / 2,
            table: None,
        }
    }

    /// Makes the table of these entries, if there is an allocator and nothing is left of the budget.
    #[tactic(auto, using(crate::proofs::SetKept::elements_fit, crate::proofs::SetKept::elements_few))]
    fn make(&mut self, all: Entries<'_>)
        requires { HasTableOf all self.old.table }
        ensures { HasTableOf all.entry self.new.table }
    {
        let Some(alloc) = self.budget.take_allocator() else {
            return;
        };
        if let Ok(table) = KeyTable::new(alloc, all, self.longest) {
            self.table = Some(table);
        }
    }

    /// Returns `true` only if one of all entries equals the given one, as the table says. It is made once searches
    /// have visited many entries, with these.
    pub(super) fn has(&mut self, all: Entries<'_>, wanted: &StoredEntry<'_>, visited: usize) -> bool
        requires { HasTableOf all self.old.table }
        ensures told { (form other_form : Form) (xs : Trees) (y : Tree) → HasEntriesLeft form all.entry xs
            → Stores other_form wanted.now y → Fits (array xs) → Fits y → result ≡ true
            → list_any (is_part_of y) (elements xs) ≡ true }
        ensures table { HasTableOf all.entry self.new.table }
    {
        self.budget.spend(visited);
        self.make(all);
        if wanted.content.len() > self.longest {
            return false;
        }
        let Some(table) = &mut self.table else {
            return false;
        };
        match table.has(wanted) {
            Ok(is_found) => is_found,
            Err(_) => false,
        }
    }
}
