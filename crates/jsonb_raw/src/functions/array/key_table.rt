//! A table of the equality keys of the elements of an array, which finds whether an element equals a value.

ghost use Rattle.std.specs.Prelude.{◌<◌, ◌^◌, List, length, IfOk, IfErr};
ghost use Rattle.std.specs.List.{AllByRecursion};
ghost use Rattle.jsonb_doc.specs.Tree.{Tree, Trees, elements};
ghost use Rattle.jsonb_doc.specs.Limits.{Fits};
ghost use Rattle.jsonb_doc.specs.Payload.{Form};
ghost use Rattle.jsonb_doc.specs.Private.Stored.{HasEntriesLeft, Stores};
ghost use Rattle.jsonb_doc.specs.Answer.{IsDecodingError, ◌or◌};
ghost use Rattle.jsonb_doc.specs.declared.error.Error.TheVariants.{OutOfMemory};
ghost use Rattle.jsonb_raw.specs.Private.KeyTables.{HasKeysOf, TellsMatch};

use super::counts::KeyCounts;
use crate::equality_key::write_entry_key;
use jsonb_doc::cursor::Entries;
use jsonb_doc::{Error, StoredEntry};
use std::alloc::Global;

/// The equality keys of entries, and a vector for the key of another one.
#[derive(Drop)]
pub(crate) struct KeyTable {
    alloc: Global,
    keys: KeyCounts,
    other: Vec<u8>,
}

impl KeyTable {
    /// Returns the table of these entries, without containers longer than `longest`.
    pub(crate) fn new(
        alloc: Global,
        entries: Entries<'_>,
        longest: usize,
    ) -> Result<KeyTable, Error>
        ensures keys { (form : Form) (ts : Trees) → HasEntriesLeft form entries.entry ts
            → AllByRecursion Fits (elements ts) → length (elements ts) < 2 ^ 63
            → IfOk result (λ table. HasKeysOf table (elements ts)) }
        ensures errors { IfErr result (IsDecodingError or OutOfMemory) }
    {
        let mut keys = KeyCounts::new(alloc);
        let mut other = Vec::new(alloc);
        for entry in entries {
            let entry = entry?;
            if entry.is_container() && entry.content.len() > longest {
                continue;
            }
            write_entry_key(alloc, &mut other, &entry)?;
            keys.add(alloc, &other)?;
        }
        Ok(KeyTable { alloc, keys, other })
    }

    /// Returns `true` if the key of the entry is in the table.
    #[tactic(auto, using(crate::proofs::KeyTables::key_tells))]
    pub(crate) fn has(&mut self, entry: &StoredEntry<'_>) -> Result<bool, Error>
        ensures told { (form : Form) (ts : List Tree) (t : Tree) → HasKeysOf self.old ts → Fits t
            → Stores form entry.now t → IfOk result (TellsMatch t ts) }
        ensures kept { (ts : List Tree) → HasKeysOf self.old ts → HasKeysOf self.new ts }
        ensures errors { IfErr result (IsDecodingError or OutOfMemory) }
    {
        write_entry_key(self.alloc, &mut self.other, entry)?;
        Ok(self.keys.has(&self.other))
    }
}
