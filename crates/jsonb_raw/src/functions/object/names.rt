//! The names of a set, which are compared with sorted keys in one pass over both.

use crate::functions::parts::Entries;
use jsonb_doc::{Error, bytes_cmp};
use std::cmp::Ordering;
use std::collections::BTreeSet;
use std::collections::btree_set::Iter;

/// The number of names that are passed for one key. If more are below it, the key is looked up in the set.
const STEPS: usize = 8;

/// The first keys that are all among the names, or all not, and those after them.
#[derive(Clone, Copy)]
pub struct KeyRun<'a> {
    pub is_in: bool,
    pub count: usize,
    pub others: Entries<'a>,
}

/// The names of a set from the first that was not passed.
#[derive(Drop)]
pub struct SortedNames<'s, 'n> {
    names: &'s BTreeSet<&'n str>,
    /// The first of them.
    next: Option<&'n str>,
    /// The others.
    left: Iter<'s, &'n str>,
}

impl<'s, 'n> SortedNames<'s, 'n> {
    ghost use Rattle.std.specs.Prelude.{◌≡◌, ◌<◌, ℕ, List, map, length, IsUtf8, IsOkAnd, IfOk, IfSome, IfErr};
    ghost use Rattle.std.specs.Map.{keys_of};
    ghost use Rattle.jsonb_doc.specs.Tree.{Tree, text};
    ghost use Rattle.jsonb_doc.specs.Payload.{Form};
    ghost use Rattle.jsonb_doc.specs.Format.{AreKeys};
    ghost use Rattle.jsonb_doc.specs.Answer.{IsDecodingError};
    ghost use Rattle.jsonb_raw.specs.Objects.{is_in};
    ghost use Rattle.jsonb_raw.specs.Private.Entries.{HoldTrees};
    ghost use Rattle.jsonb_raw.specs.Private.Names.{names_left, DecideFrom, DecideForKeys, TakesRun};

    /// Returns all names of a set.
    #[tactic(auto, using(crate::proofs::PartedRuns::name_taken))]
    pub fn new(names: &'s BTreeSet<&'n str>) -> SortedNames<'s, 'n>
        ensures decides { (key : List ℕ) → DecideFrom names.now key (names_left result) }
        ensures names { result.names.now ≡ names.now }
    {
        let mut left = names.iter();
        let next = left.next().copied();
        SortedNames { names, next, left }
    }

    /// Returns `true` if the set has the key.
    #[inline(never)]
    fn look_up(&self, key: &[u8]) -> bool
        ensures { IsUtf8 key.now → result ≡ is_in self.now.names.now key.now }
    {
        match str::from_utf8(key) {
            Ok(text) => self.names.contains(text),
            Err(_) => false,
        }
    }

    /// Returns `true` if a key is one of the names. No later key may be below it.
    #[inline(always)]
    #[tactic(auto, using(crate::proofs::PartedRuns::first_found, crate::proofs::PartedRuns::first_above))]
    fn has(&mut self, key: &[u8]) -> bool
        ensures found { IsUtf8 key.now → DecideFrom self.old.names.now key.now (names_left self.old)
            → result ≡ is_in self.old.names.now key.now }
        ensures decides { DecideFrom self.old.names.now key.now (names_left self.old)
            → DecideFrom self.old.names.now key.now (names_left self.new) }
        ensures names { self.new.names.now ≡ self.old.names.now }
    {
        for _step in 0..STEPS {
            let Some(name) = self.next else {
                return false;
            };
            match bytes_cmp(name.as_bytes(), key) {
                Ordering::Less => self.next = self.left.next().copied(),
                Ordering::Equal => return true,
                Ordering::Greater => return false,
            }
        }
        self.look_up(key)
    }

    /// Returns the first of these keys and those after it that are all among the names, or all not, or `None` if there
    /// is no key. No later key may be below them.
    #[tactic(auto, using(crate::proofs::PartedRuns::no_member_left, crate::proofs::PartedRuns::next_member))]
    pub fn next_run<'a>(&mut self, keys: Entries<'a>) -> Result<Option<KeyRun<'a>>, Error>
        ensures run { (form : Form) (ps : List (List ℕ × Tree)) → HoldTrees form keys.entry (map text (keys_of ps))
            → AreKeys (keys_of ps) → DecideForKeys self.old.names.now (names_left self.old) (keys_of ps)
            → IsOkAnd result (TakesRun form self.old.names.now (names_left self.new) ps) }
        ensures names { self.new.names.now ≡ self.old.names.now }
        ensures fewer { IfOk result
            (λ found. IfSome found (λ run. length run.others.words.now < length keys.entry.words.now)) }
        ensures errors { IfErr result IsDecodingError }
    {
        let Some((first, others)) = keys.first()? else {
            return Ok(None);
        };
        let is_in = self.has(first.content);
        let mut count = 1;
        let mut left = others;
        while let Some((key, others)) = left.first()? {
            if self.has(key.content) != is_in {
                return Ok(Some(KeyRun {
                    is_in,
                    count,
                    others: left,
                }));
            }
            count += 1;
            left = others;
        }
        Ok(Some(KeyRun {
            is_in,
            count,
            others: left,
        }))
    }
}
