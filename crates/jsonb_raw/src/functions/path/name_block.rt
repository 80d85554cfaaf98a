//! A block of names that are looked up at once among the strings of an array: one traversal for all of them.

ghost use Rattle.std.specs.Prelude.{◌≡◌, ◌<◌, ◌≤◌, ◌+◌, ◌-◌, ◌^◌, ℕ, List, length, true, false, IsOk, IsOkAnd, IfOk, IfErr, IfSome, IsSome};
ghost use Rattle.std.specs.List.{list_any};
ghost use Rattle.jsonb_doc.specs.Tree.{Tree};
ghost use Rattle.jsonb_doc.specs.Payload.{Form};
ghost use Rattle.jsonb_doc.specs.Private.Stored.{Stores, entries_bound};
ghost use Rattle.jsonb_doc.specs.Answer.{IsDecodingError};
ghost use Rattle.jsonb_raw.specs.Private.NameBlocks.{HasTextsLeft, TakesText, is_one_of, decided_by, contents_of, DecidesAll, first_place, IsNameAt, IsPlaced, ArePlaced, AreSeen};

use super::exists_in::Budget;
use crate::functions::array::hashes::text_place;
use jsonb_doc::cursor::Entries;
use jsonb_doc::layout::EntryKind;
use jsonb_doc::{Error, StoredEntry, bytes_equal};

/// The number of names in a block up to which each is searched by itself.
const FEW: usize = 8;

/// The number of names in a small block. With places, they take 5 KB.
pub(super) const SMALL: usize = 64;

/// The number of names in a block of medium size. With places, they take 17 KB.
pub(super) const MEDIUM: usize = 512;

/// The number of names in a large block. With places, they take 32 KB.
pub(super) const LARGE: usize = 1408;

/// The number of places that a name may have, one after the other.
const TRIES: usize = 64;

/// The number of places of the names of a small block: a power of two that are first, and those after the last.
const FEW_PLACES: usize = 2048 + TRIES;

/// The number of places of the names of a larger block.
const MANY_PLACES: usize = 4096 + TRIES;

/// Fails if the entry is a float.
#[inline(always)]
fn reject_float(entry: &StoredEntry<'_>) -> Result<(), Error>
    ensures read { (form : Form) (t : Tree) → Stores form entry.now t → IsOk result }
    ensures errors { IfErr result IsDecodingError }
{
    if entry.kind == EntryKind::Number && entry.short_number().is_none() {
        let _number = entry.item()?;
    }
    Ok(())
}

/// Returns the next string among the entries, and advances past it. Fails if a float precedes it.
#[inline(always)]
pub(super) fn next_text<'a>(rest: &mut Entries<'a>) -> Result<Option<&'a [u8]>, Error>
    ensures takes { (form : Form) (ss : List (List ℕ)) → HasTextsLeft form rest.old ss
        → IsOkAnd result (λ text. TakesText form ss text rest.new) }
    ensures fewer { IfOk result (λ text. IfSome text (λ _. entries_bound rest.new < entries_bound rest.old)) }
    ensures errors { IfErr result IsDecodingError }
{
    let mut left = *rest;
    while let Some(entry) = left.next() {
        let entry = entry?;
        if entry.is_text() {
            *rest = left;
            return Ok(Some(entry.content));
        }
        reject_float(&entry)?;
    }
    Ok(None)
}

/// Returns whether the name is a string among the entries.
pub(super) fn entries_have(entries: Entries<'_>, name: &[u8]) -> Result<bool, Error>
    ensures has { (form : Form) (ss : List (List ℕ)) → HasTextsLeft form entries.entry ss
        → IsOkAnd result (λ b. b ≡ is_one_of ss name.now) }
    ensures errors { IfErr result IsDecodingError }
{
    let mut rest = entries;
    while let Some(text) = next_text(&mut rest)? {
        if text == name {
            return Ok(true);
        }
    }
    Ok(false)
}

/// Returns the index of the first place that a string may have.
#[inline(always)]
fn first_place(places: &[u16], text: &[u8]) -> usize
    requires { 64 < length places.now }
    ensures place { result ≡ first_place places.now text.now }
    ensures room { result + 64 ≤ length places.now }
{
    text_place(text, places.len() - TRIES)
}

/// Returns the index of a name that equals the string, whose first place is known, or `None` if its places have none.
#[inline(never)]
fn find_from(names: &[&[u8]], places: &[u16], first: usize, text: &[u8]) -> Option<usize>
    requires first { first ≡ first_place places.now text.now }
    requires room { first + 64 ≤ length places.now }
    ensures found { IfSome result (λ at. IsNameAt names.now at text.now) }
    ensures placed { IsPlaced names.now places.now text.now → IsSome result }
{
    for place in first..first + TRIES {
        let at = usize::from(places[place]);
        let name = names.get(at)?;
        if bytes_equal(name, text) {
            return Some(at);
        }
    }
    None
}

/// Returns the index of a name that equals the string, or `None` if its places have none. The first place of most
/// strings is free.
#[inline(always)]
#[tactic(auto, using(crate::proofs::NameBlockLemmas::not_free))]
fn find_name(names: &[&[u8]], places: &[u16], text: &[u8]) -> Option<usize>
    requires { 64 < length places.now }
    ensures found { IfSome result (λ at. IsNameAt names.now at text.now) }
    ensures placed { IsPlaced names.now places.now text.now → IsSome result }
{
    let first = first_place(places, text);
    let at = usize::from(places[first]);
    if at >= names.len() {
        return None;
    }
    find_from(names, places, first, text)
}

/// Stores the index of a name at its first free place, unless a name that equals it has one. Returns `false` if none is
/// free.
fn place_name(names: &[&[u8]], places: &mut [u16], at: usize, name: &[u8]) -> bool
    requires name { IsNameAt names.now at name.now }
    requires few { at < 2 ^ 16 }
    requires places { 64 < length places.old }
    ensures kept { (s : List ℕ) → IsPlaced names.now places.old s → IsPlaced names.now places.new s }
    ensures placed { result ≡ true → IsPlaced names.now places.new name.now }
    ensures length { length places.new ≡ length places.old }
{
    let first = first_place(places, name);
    for place in first..first + TRIES {
        let Some(other) = names.get(usize::from(places[place])) else {
            places[place] = at as u16;
            return true;
        };
        if *other == name {
            return true;
        }
    }
    false
}

/// Stores a place for each name. Returns `false` if one has none.
fn place_names(names: &[&[u8]], places: &mut [u16]) -> bool
    requires few { length names.now < 2 ^ 16 }
    requires places { 64 < length places.old }
    ensures placed { result ≡ true → ArePlaced names.now places.new }
    ensures length { length places.new ≡ length places.old }
{
    for at in 0..names.len() {
        if !place_name(names, places, at, names[at]) {
            return false;
        }
    }
    true
}

/// Returns whether one of the names is among the strings of the entries. Each name has a place.
#[inline(never)]
fn any_among(names: &[&[u8]], places: &[u16], entries: Entries<'_>) -> Result<bool, Error>
    requires places { 64 < length places.now }
    requires placed { ArePlaced names.now places.now }
    ensures has { (form : Form) (ss : List (List ℕ)) → HasTextsLeft form entries.entry ss
        → IsOkAnd result (λ b. b ≡ list_any (is_one_of ss) (contents_of names.now)) }
    ensures errors { IfErr result IsDecodingError }
{
    let mut rest = entries;
    while let Some(text) = next_text(&mut rest)? {
        if let Some(_at) = find_name(names, places, text) {
            return Ok(true);
        }
    }
    Ok(false)
}

/// Marks the name that equals the string as seen, if there is one. Returns the number of names that are left to see.
#[inline(always)]
#[tactic(auto, using(crate::proofs::NameBlockLemmas::seen_more))]
fn see(names: &[&[u8]], places: &[u16], seen: &mut [bool], text: &[u8], left: usize) -> usize
    requires places { 64 < length places.now }
    requires seen { length names.now ≤ length seen.old }
    ensures seen { (ss : List (List ℕ)) → AreSeen ss names.now seen.old → is_one_of ss text.now ≡ true
        → AreSeen ss names.now seen.new }
    ensures length { length seen.new ≡ length seen.old }
{
    let Some(at) = find_name(names, places, text) else {
        return left;
    };
    let was_seen = seen[at];
    seen[at] = true;
    if was_seen {
        left
    } else {
        left.saturating_sub(1)
    }
}

/// Marks the names that are among the strings of the entries.
#[inline(never)]
fn mark_seen(
    names: &[&[u8]],
    places: &[u16],
    seen: &mut [bool],
    entries: Entries<'_>,
) -> Result<(), Error>
    requires places { 64 < length places.now }
    requires seen { length names.now ≤ length seen.old }
    ensures seen { (form : Form) (ss : List (List ℕ)) → HasTextsLeft form entries.entry ss
        → AreSeen ss names.now seen.old → IsOkAnd result (λ _. AreSeen ss names.now seen.new) }
    ensures length { length seen.new ≡ length seen.old }
    ensures errors { IfErr result IsDecodingError }
{
    let mut left = names.len();
    let mut rest = entries;
    while let Some(text) = next_text(&mut rest)? {
        left = see(names, places, seen, text, left);
        if left == 0 {
            return Ok(());
        }
    }
    Ok(())
}

/// Returns `true` if a name was seen. Of names that are equal, only one was.
fn is_seen(names: &[&[u8]], places: &[u16], seen: &[bool], at: usize) -> bool
    requires places { 64 < length places.now }
    requires seen { length names.now ≤ length seen.now }
    requires name { at < length names.now }
    ensures { (ss : List (List ℕ)) (s : List ℕ) → AreSeen ss names.now seen.now → IsNameAt names.now at s
        → result ≡ true → is_one_of ss s ≡ true }
{
    if seen[at] {
        return true;
    }
    match find_name(names, places, names[at]) {
        Some(first) => seen[first],
        None => false,
    }
}

/// Returns whether a name is among the strings of the entries. A name that was not seen is searched.
fn has_name(
    names: &[&[u8]],
    places: &[u16],
    seen: &[bool],
    at: usize,
    entries: Entries<'_>,
) -> Result<bool, Error>
    requires places { 64 < length places.now }
    requires seen { length names.now ≤ length seen.now }
    requires name { at < length names.now }
    ensures has { (form : Form) (ss : List (List ℕ)) (s : List ℕ) → HasTextsLeft form entries.entry ss
        → AreSeen ss names.now seen.now → IsNameAt names.now at s → IsOkAnd result (λ b. b ≡ is_one_of ss s) }
    ensures errors { IfErr result IsDecodingError }
{
    if names.len() > FEW && is_seen(names, places, seen, at) {
        return Ok(true);
    }
    entries_have(entries, names[at])
}

/// Returns whether one of the names (`found`) or each of them is among the strings of the entries, of which some were
/// seen.
fn each_decides(
    names: &[&[u8]],
    places: &[u16],
    seen: &[bool],
    entries: Entries<'_>,
    found: bool,
) -> Result<bool, Error>
    requires places { 64 < length places.now }
    requires seen { length names.now ≤ length seen.now }
    ensures has { (form : Form) (ss : List (List ℕ)) → HasTextsLeft form entries.entry ss
        → AreSeen ss names.now seen.now → IsOkAnd result (λ b. b ≡ decided_by found ss (contents_of names.now)) }
    ensures errors { IfErr result IsDecodingError }
{
    for at in 0..names.len() {
        let has = has_name(names, places, seen, at, entries)?;
        if has == found {
            return Ok(found);
        }
    }
    Ok(!found)
}

/// Returns whether one of the names (`found`) or each of them is among the strings of the entries, by a table of this
/// many places. The callers do not hold it.
#[inline(never)]
fn places_decide<const NAMES: usize, const PLACES: usize>(
    names: &[&[u8]],
    entries: Entries<'_>,
    found: bool,
    budget: &mut Budget,
) -> Result<bool, Error>
    requires names { length names.now ≤ NAMES }
    requires few { NAMES ≤ 1408 }
    requires places { 64 < PLACES }
    requires some { PLACES ≤ 4160 }
    ensures has { DecidesAll found entries.entry names.now result }
    ensures errors { IfErr result IsDecodingError }
{
    let mut places = [u16::MAX; PLACES];
    let mut seen = [false; NAMES];
    if !place_names(names, &mut places) {
        budget.spend(names.len(), names.len());
        return each_decides(names, &places, &seen, entries, found);
    }
    budget.spend(names.len(), 1);
    if found {
        return any_among(names, &places, entries);
    }
    mark_seen(names, &places, &mut seen, entries)?;
    each_decides(names, &places, &seen, entries, found)
}

/// Returns the result for few names. Each is searched by itself.
fn few_decide(names: &[&[u8]], entries: Entries<'_>, found: bool) -> Result<bool, Error>
    requires { length names.now ≤ 8 }
    ensures has { DecidesAll found entries.entry names.now result }
    ensures errors { IfErr result IsDecodingError }
{
    let places = [u16::MAX; TRIES + 1];
    let seen = [false; FEW];
    each_decides(names, &places, &seen, entries, found)
}

/// Returns whether one of the names (`found`) or each of them is among the strings of the entries.
pub(super) fn names_decide(
    names: &[&[u8]],
    entries: Entries<'_>,
    found: bool,
    budget: &mut Budget,
) -> Result<bool, Error>
    requires { length names.now ≤ 1408 }
    ensures has { DecidesAll found entries.entry names.now result }
    ensures errors { IfErr result IsDecodingError }
{
    match names.len() {
        ..=FEW => few_decide(names, entries, found),
        ..=SMALL => places_decide::<SMALL, FEW_PLACES>(names, entries, found, budget),
        ..=MEDIUM => places_decide::<MEDIUM, MANY_PLACES>(names, entries, found, budget),
        _ => places_decide::<LARGE, MANY_PLACES>(names, entries, found, budget),
    }
}
