//! The functions on objects.
//!
//! On bytes that do not decode each function returns; its result is not specified.

ghost use Rattle.std.specs.List.{All, Any, AllZip};
ghost use Rattle.std.specs.Map.{keys_of, values_of};
ghost use Rattle.std.specs.Prelude.{◌≡◌, ℕ, List, ◌⊎◌, ◌||◌, false, not, None, Ok, IsSomeAnd, IsTrue, OnOk, IfOk, IfErr, IfSome, IsErrOf, MatchResult, MatchOption, Err, string_bytes};
ghost use Rattle.jsonb_doc.specs.Tree.{Tree, object, pairs_of};
ghost use Rattle.jsonb_doc.specs.Payload.{Form, number_reader};
ghost use Rattle.jsonb_doc.specs.Format.{Decodes, AreKeys, IsContent};
ghost use Rattle.jsonb_doc.specs.Kinds.{kind_number};
ghost use Rattle.jsonb_doc.specs.Limits.{IsTooLarge};
ghost use Rattle.jsonb_doc.specs.Answer.{IsOutOfMemory, IsDecodingError, ◌or◌, ◌or◌when◌};
ghost use Rattle.jsonb_doc.specs.Private.Errors.{IsOutOfMemoryOrTooLarge};
ghost use Rattle.jsonb_doc.specs.declared.error.Error.TheVariants.{OutOfMemory, TooLarge, InvalidObject, ObjectDuplicateKey};
ghost use Rattle.jsonb_raw.specs.AnyBytes.Roots.{HasRootShape, IsWholePair};
ghost use Rattle.jsonb_raw.specs.Documents.{raw_bytes, MakesOption, Makes};
ghost use Rattle.jsonb_raw.specs.Private.Entries.{HoldPairs};
ghost use Rattle.jsonb_raw.specs.Private.PairSteps.{parted};
ghost use Rattle.jsonb_raw.specs.Making.{IsPairOf};
ghost use Rattle.jsonb_raw.specs.Objects.{object_pick, object_delete, object_keys, object_each, object_insert, has_name};

mod insert;
mod names;
mod pair_parts;

use self::insert::{object_with_pair, pair_place};
use self::names::SortedNames;
use crate::functions::entries::{entry_count, entry_document};
use crate::functions::joined::array_of;
use crate::functions::parts::{FirstPair, PairEntries, PairRuns};
use crate::functions::runs::{first_pair, pair_entries};
use crate::owned::OwnedJsonb;
use crate::raw::RawJsonb;
use jsonb_doc::Error;
use std::alloc::Global;
use std::collections::BTreeSet;

impl RawJsonb<'_> {
    /// Returns the object of the members whose keys are in the set.
    ///
    /// # Errors
    ///
    /// `InvalidObject` if and only if the root is not an object, and construction errors.
    ///
    /// # Complexity
    ///
    /// O(n), and a look-up in the set for each member. Allocates.
    ///
    /// # Examples
    ///
    /// <!-- rows: calls: object_pick -->
    /// | Document | Arguments | Result |
    /// |---|---|---|
    /// | `{"a":null,"b":[null]}` | `a`, `missing` | `{"a":null}` |
    #[tactic(auto, using(crate::proofs::PartedRuns::no_pairs_there))]
    pub fn object_pick(&self, alloc: Global, keys: &BTreeSet<&str>) -> Result<OwnedJsonb, Error>
        ensures pairs { (form : Form) (t : Tree) → Decodes form (raw_bytes self.now) t
            → MatchOption (object_pick keys.now t) (result ≡ Err InvalidObject) (λ wanted. Makes form wanted result) }
        ensures errors { IfErr result (IsDecodingError or OutOfMemory or TooLarge or InvalidObject) }
        ensures reads { OnOk result (HasRootShape (raw_bytes self.now)) }
    {
        let Some(pairs) = pair_entries(self.as_bytes())? else {
            return Err(Error::InvalidObject);
        };
        pairs_by_set(alloc, pairs, keys, true)
    }

    /// Returns the object without the members whose keys are in the set.
    ///
    /// Like PostgreSQL's `-` with an array.
    ///
    /// # Errors
    ///
    /// `InvalidObject` if and only if the root is not an object, and construction errors.
    ///
    /// # Complexity
    ///
    /// O(n), and a look-up in the set for each member. Allocates.
    ///
    /// # Examples
    ///
    /// <!-- rows: calls: object_delete -->
    /// | Document | Arguments | Result |
    /// |---|---|---|
    /// | `{"a":null,"b":[null]}` | `a`, `missing` | `{"b":[null]}` |
    #[tactic(auto, using(crate::proofs::PartedRuns::no_pairs_there))]
    pub fn object_delete(&self, alloc: Global, keys: &BTreeSet<&str>) -> Result<OwnedJsonb, Error>
        ensures pairs { (form : Form) (t : Tree) → Decodes form (raw_bytes self.now) t
            → MatchOption (object_delete keys.now t) (result ≡ Err InvalidObject) (λ wanted. Makes form wanted result) }
        ensures errors { IfErr result (IsDecodingError or OutOfMemory or TooLarge or InvalidObject) }
        ensures reads { OnOk result (HasRootShape (raw_bytes self.now)) }
    {
        let Some(pairs) = pair_entries(self.as_bytes())? else {
            return Err(Error::InvalidObject);
        };
        pairs_by_set(alloc, pairs, keys, false)
    }

    /// Returns the keys of the object, in order, each with its value as a new document, or `None` if the root is not an
    /// object.
    ///
    /// Like PostgreSQL's `jsonb_each`.
    ///
    /// # Errors
    ///
    /// Construction errors.
    ///
    /// # Complexity
    ///
    /// O(n). Allocates; each key and value is copied.
    ///
    /// # Examples
    ///
    /// <!-- rows: calls: object_each -->
    /// | Document | Result |
    /// |---|---|
    /// | `{"a":null,"b":[null]}` | `a`: `null`, `b`: `[null]` |
    pub fn object_each(&self, alloc: Global) -> Result<Option<Vec<(String, OwnedJsonb)>>, Error>
        ensures pairs { (form : Form) (t : Tree) → Decodes form (raw_bytes self.now) t
            → MatchOption (object_each t) (result ≡ Ok None) (λ ps. MatchResult result
            (λ found. IsSomeAnd found (λ made. AllZip (IsPairOf string_bytes form) made.items ps))
            (IsOutOfMemory or TooLarge when Any (IsTooLarge form) (values_of ps))) }
        ensures whole { IfOk result (λ found. IfSome found (λ made. All IsWholePair made.items)) }
        ensures errors { IfErr result (IsDecodingError or OutOfMemory or TooLarge) }
    {
        let Some(pairs) = pair_entries(self.as_bytes())? else {
            return Ok(None);
        };
        Ok(Some(owned_pairs(alloc, pairs)?))
    }

    /// Returns an array of the object's keys, in order, or `None` if the root is not an object.
    ///
    /// Like PostgreSQL's `jsonb_object_keys`.
    ///
    /// # Errors
    ///
    /// Construction errors.
    ///
    /// # Complexity
    ///
    /// O(k), and the keys' bytes, which are copied. Allocates.
    ///
    /// # Examples
    ///
    /// <!-- rows: calls: object_keys -->
    /// | Document | Result |
    /// |---|---|
    /// | `{"a":null,"b":[null]}` | `["a","b"]` |
    pub fn object_keys(&self, alloc: Global) -> Result<Option<OwnedJsonb>, Error>
        ensures keys { (form : Form) (t : Tree) → Decodes form (raw_bytes self.now) t
            → MakesOption form (object_keys t) result }
        ensures none { (form : Form) (t : Tree) → Decodes form (raw_bytes self.now) t → object_keys t ≡ None
            → result ≡ Ok None }
        ensures errors { IfErr result (IsDecodingError or OutOfMemory or TooLarge) }
    {
        let Some(object) = pair_entries(self.as_bytes())? else {
            return Ok(None);
        };
        Ok(Some(array_of(alloc, &[object.keys])?))
    }

    /// Returns the object with another member: this key with the root of the other document.
    ///
    /// If the key exists, its value is replaced if `update_flag` is set. Like PostgreSQL's `jsonb_set` and
    /// `jsonb_insert`.
    ///
    /// # Errors
    ///
    /// `InvalidObject` if and only if the root is not an object, `ObjectDuplicateKey` if and only if the key exists
    /// and the flag is not set, and construction errors.
    ///
    /// # Complexity
    ///
    /// O(n) of both and the key. Allocates.
    ///
    /// # Examples
    ///
    /// ```rust crates/jsonb_examples/src/configuration.rt
    /// let new = old.as_raw().object_insert(alloc, name, value, true)?;
    /// configuration.object_insert(alloc, section, &new.as_raw(), true)
    /// ```
    ///
    /// <!-- rows: calls: object_insert object_update -->
    /// | Function | Document | Arguments | Result |
    /// |---|---|---|---|
    /// | `object_insert` | `{"asd":"adf"}` | `b`, `1` | `{"asd":"adf","b":1}` |
    /// | `object_update` | `{"asd":"adf"}` | `asd`, `1` | `{"asd":1}` |
    /// | `object_insert` | `{"asd":"adf"}` | `asd`, `1` | refused: `ObjectDuplicateKey` |
    /// | `object_insert` | `[1]` | `a`, `1` | refused: `InvalidObject` |
    pub fn object_insert(
        &self,
        alloc: Global,
        new_key: &str,
        new_val: &RawJsonb<'_>,
        update_flag: bool,
    ) -> Result<OwnedJsonb, Error>
        ensures inserted { (form : Form) (t value : Tree) → Decodes form (raw_bytes self.now) t
            → Decodes form (raw_bytes new_val.now) value → IsTrue (update_flag || not (has_name new_key.now t))
            → MatchOption (object_insert new_key.now value t) (result ≡ Err InvalidObject)
            (λ wanted. Makes form wanted result) }
        ensures duplicate { (form : Form) (t : Tree) → Decodes form (raw_bytes self.now) t
            → IsTrue (has_name new_key.now t) → update_flag ≡ false → IsErrOf result Error.ObjectDuplicateKey }
        ensures errors { IfErr result
            (IsDecodingError or OutOfMemory or TooLarge or InvalidObject or ObjectDuplicateKey) }
        ensures reads { OnOk result (HasRootShape (raw_bytes self.now) × HasRootShape (raw_bytes new_val.now)) }
    {
        let bytes = self.as_bytes();
        let Some(pairs) = pair_entries(bytes)? else {
            return Err(Error::InvalidObject);
        };
        let place = pair_place(pairs.keys, new_key)?;
        if !update_flag && place.taken > 0 {
            return Err(Error::ObjectDuplicateKey);
        }
        object_with_pair(
            alloc,
            pairs,
            bytes.len(),
            place,
            new_key,
            new_val.as_bytes(),
        )
    }
}

/// Returns the object of the members whose keys are in the set, or of those whose keys are not.
#[tactic(auto, using(crate::proofs::Sets::object_pairs_by_set))]
fn pairs_by_set<'a>(
    alloc: Global,
    pairs: PairEntries<'a>,
    names: &BTreeSet<&str>,
    wanted: bool,
) -> Result<OwnedJsonb, Error>
    ensures pairs { (form : Form) (ps : List (List ℕ × Tree)) → HoldPairs form pairs.entry ps → AreKeys (keys_of ps)
        → Makes form (object (pairs_of (parted wanted names.now ps))) result }
    ensures errors { IfErr result (IsDecodingError or OutOfMemory or TooLarge) }
{
    let mut runs = PairRuns::new(alloc);
    let mut sorted = SortedNames::new(names);
    let mut left = pairs;
    while let Some(run) = sorted.next_run(left.keys)? {
        let (values, other_values) = left.values.split(run.count)?;
        if run.is_in == wanted {
            let (keys, _) = left.keys.split(run.count)?;
            runs.push(PairEntries { keys, values })?;
        }
        left = PairEntries {
            keys: run.others,
            values: other_values,
        };
    }
    runs.object(alloc)
}

/// Returns the keys of these members, each with its value as a new document. The keys are one after the other, so that
/// all of them are read as one string, which is then split: for 40 members `object_each` takes 37,277 instructions
/// instead of 40,870.
#[tactic(auto, using(crate::proofs::AnswerLemmas::all_made, crate::proofs::RunLemmas::no_pair_left))]
fn owned_pairs(alloc: Global, pairs: PairEntries<'_>) -> Result<Vec<(String, OwnedJsonb)>, Error>
    ensures pairs { (form : Form) (ps : List (List ℕ × Tree)) → HoldPairs form pairs.entry ps
        → MatchResult result (λ made. AllZip (IsPairOf string_bytes form) made.items ps)
        (IsOutOfMemory or TooLarge when Any (IsTooLarge form) (values_of ps)) }
    ensures whole { IfOk result (λ made. All IsWholePair made.items) }
    ensures errors { IfErr result (IsDecodingError or OutOfMemory or TooLarge) }
{
    if entry_count(pairs.keys) == 0 {
        return Ok(Vec::new(alloc));
    }
    let Ok(names) = str::from_utf8(pairs.keys.contents) else {
        return Err(Error::InvalidJsonb);
    };
    let mut each = Vec::with_capacity(alloc, entry_count(pairs.keys))?;
    let mut left = pairs;
    let mut others = names;
    while let Some(pair) = first_pair(left)? {
        let Some((name, behind)) = others.split_at_checked(pair.key.len()) else {
            return Err(Error::InvalidJsonb);
        };
        each.push(owned_pair(alloc, name, pair)?)?;
        left = pair.others;
        others = behind;
    }
    Ok(each)
}

/// Returns the key of a member, and the value as a new document.
#[inline(always)]
fn owned_pair(alloc: Global, name: &str, pair: FirstPair<'_>) -> Result<(String, OwnedJsonb), Error>
    ensures pair { (form : Form) (t : Tree)
        → IsContent (number_reader form) t (kind_number pair.entry.kind) pair.entry.content.now
        → MatchResult result (λ made. IsPairOf string_bytes form made (name.now, t))
        (IsOutOfMemoryOrTooLarge form t) }
    ensures whole { IfOk result IsWholePair }
    ensures errors { IfErr result (IsDecodingError or OutOfMemory or TooLarge) }
{
    let document = entry_document(alloc, pair.kind, pair.content)?;
    Ok((String::from_str(alloc, name)?, document))
}
