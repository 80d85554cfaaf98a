//! Equality by value, of items and of stored entries. It does not allocate, and the recursion depth is logarithmic in
//! the length.

ghost use Rattle.std.specs.Prelude.{◌≡◌, ◌+◌, ◌≤◌, ℕ, true, List, length, take, IsOkAnd, IfOk, IfErr, IfSome};
ghost use Rattle.std.specs.List.{list_any};
ghost use Rattle.std.specs.Str.{bytes_eq};
ghost use Rattle.std.specs.Ordering.{eq_by_cmp};
ghost use Rattle.jsonb_doc.specs.Number.{number_cmp};
ghost use Rattle.jsonb_doc.specs.Tree.{Tree, Trees, Pairs, elements};
ghost use Rattle.jsonb_doc.specs.Equal.{is_equal, are_equal, pairs_are_equal, is_same_extension};
ghost use Rattle.jsonb_doc.specs.Payload.{Form};
ghost use Rattle.jsonb_doc.specs.Format.{Decodes};
ghost use Rattle.jsonb_doc.specs.Item.{StandsFor};
ghost use Rattle.jsonb_doc.specs.AnyBytes.Items.{item_size};
ghost use Rattle.jsonb_doc.specs.Private.Stored.{HasEntriesLeft, Stores, entries_room, key_trees};
ghost use Rattle.jsonb_doc.specs.View.{number_view, extension_view};
ghost use Rattle.jsonb_doc.specs.Answer.{IsDecodingError};
ghost use Rattle.jsonb_raw.specs.Private.Compared.{Decides, IsShorter, IsShortOf, PassesOver};

use crate::compared::{Compared, is_container_longer_than};
use jsonb_doc::cursor::Entries;
use jsonb_doc::layout::{EntryKind, HeaderKind, split_header};
use jsonb_doc::{
    Error, ExtensionValue, Item, Number, ShortNumber, StoredEntry, array_entries, bytes_equal,
    object_entries, short_equal,
};

/// Returns `true` if two items are equal by value: of one type, with numbers of one exact value and extensions of the
/// same fields.
///
/// This loop enters a pair of children that is longer than half of all, and calls enter the others. Fails with
/// `InvalidJsonb` or `UnsupportedNumber` only if an item's bytes do not decode.
#[cycle(equal)]
pub(crate) fn items_equal(item: &Item<'_>, other: &Item<'_>) -> Result<bool, Error>
    ensures equal { (form other_form : Form) (t u : Tree) → StandsFor form item.now t → StandsFor other_form other.now u
        → IsOkAnd result (λ b. b ≡ is_equal t u) }
    ensures errors { IfErr result IsDecodingError }
{
    let mut left = Compared::Deferred(*item, *other);
    loop {
        left = match left {
            Compared::Known(answer) => return Ok(answer),
            Compared::Deferred(part, other_part) => parts_equal(&part, &other_part)?,
        };
    }
}

/// Returns `true` if two numbers have one exact value.
#[tactic(auto, using(jsonb_doc::proofs::EqualValues::equal_in_trees))]
fn numbers_equal(number: &Number, other: &Number) -> bool
    ensures { result ≡ eq_by_cmp number_cmp (number_view number.now) (number_view other.now) }
{
    number == other
}

/// Returns `true` if two extension values are of one type, with the same fields.
fn extensions_equal(value: &ExtensionValue<'_>, other: &ExtensionValue<'_>) -> bool
    ensures { result ≡ is_same_extension (extension_view value.now) (extension_view other.now) }
{
    value == other
}

/// Compares two items, except for one pair of their children.
#[cycle(equal)]
fn parts_equal<'a>(item: &Item<'a>, other: &Item<'a>) -> Result<Compared<'a>, Error>
    ensures equal { (form other_form : Form) (t u : Tree) → StandsFor form item.now t → StandsFor other_form other.now u
        → IsOkAnd result (λ told. Decides is_equal form other_form told (is_equal t u)) }
    ensures shorter { IfOk result (λ told. IsShorter told (item_size item.now)) }
    ensures errors { IfErr result IsDecodingError }
{
    match (item, other) {
        (Item::Null, Item::Null) => Ok(Compared::Known(true)),
        (Item::Boolean(a), Item::Boolean(b)) => Ok(Compared::Known(a == b)),
        (Item::Number(a), Item::Number(b)) => Ok(Compared::Known(numbers_equal(a, b))),
        (Item::String(a), Item::String(b)) => Ok(Compared::Known(a == b)),
        (Item::Extension(a), Item::Extension(b)) => Ok(Compared::Known(extensions_equal(a, b))),
        (Item::Array(a), Item::Array(b)) => {
            entries_equal(array_entries(a)?, array_entries(b)?, a.len() / 2)
        }
        (Item::Object(a), Item::Object(b)) => objects_equal(a, b),
        _ => Ok(Compared::Known(false)),
    }
}

/// Returns whether two objects have the same keys with equal values, except for one pair of values.
#[cycle(equal)]
fn objects_equal<'a>(bytes: &'a [u8], others: &'a [u8]) -> Result<Compared<'a>, Error>
    ensures equal { (form other_form : Form) (ps qs : Pairs)
        → Decodes form bytes.now (Tree.object ps) → Decodes other_form others.now (Tree.object qs)
        → IsOkAnd result (λ told. Decides is_equal form other_form told (pairs_are_equal ps qs)) }
    ensures shorter { IfOk result (λ told. IsShorter told (length bytes.now)) }
    ensures errors { IfErr result IsDecodingError }
{
    let found = object_entries(bytes)?;
    let wanted = object_entries(others)?;
    if !texts_equal(found.keys, wanted.keys)? {
        return Ok(Compared::Known(false));
    }
    entries_equal(found.values, wanted.values, bytes.len() / 2)
}

/// Returns whether the remaining entries, which are strings, are equal, one by one.
#[tactic(auto, using(crate::proofs::EntryEquals::key_trees_are_texts))]
fn texts_equal(found: Entries<'_>, others: Entries<'_>) -> Result<bool, Error>
    ensures equal { (form other_form : Form) (ks ls : List (List ℕ))
        → HasEntriesLeft form found.entry (key_trees ks) → HasEntriesLeft other_form others.entry (key_trees ls)
        → IsOkAnd result (λ b. b ≡ are_equal (key_trees ks) (key_trees ls)) }
    ensures errors { IfErr result IsDecodingError }
{
    let mut rest = others;
    for entry in found {
        let entry = entry?;
        let Some(other) = rest.next() else {
            return Ok(false);
        };
        let other = other?;
        if entry.content != other.content {
            return Ok(false);
        }
    }
    Ok(rest.next().is_none())
}

/// Returns whether the remaining entries are equal, one by one, except for a pair of containers whose first is longer
/// than `half`.
#[cycle(equal)]
fn entries_equal<'a>(
    found: Entries<'a>,
    others: Entries<'a>,
    half: usize,
) -> Result<Compared<'a>, Error>
    ensures equal { (form other_form : Form) (ts us : Trees)
        → HasEntriesLeft form found.entry ts → HasEntriesLeft other_form others.entry us
        → IsOkAnd result (λ told. Decides is_equal form other_form told (are_equal ts us)) }
    ensures shorter { IfOk result (λ told. IsShorter told (entries_room found.entry + 1)) }
    ensures errors { IfErr result IsDecodingError }
{
    let mut rest = others;
    let mut large = None;
    for entry in found {
        let entry = entry?;
        let Some(other) = rest.next() else {
            return Ok(Compared::Known(false));
        };
        let other = other?;
        if large.is_none() && is_container_longer_than(&entry, half) {
            large = Some((entry, other));
        } else if !stored_equal(&entry, &other, other.short_number())? {
            return Ok(Compared::Known(false));
        }
    }
    if rest.next().is_some() {
        return Ok(Compared::Known(false));
    }
    let Some((entry, other)) = large else {
        return Ok(Compared::Known(true));
    };
    Ok(Compared::Deferred(entry.item()?, other.item()?))
}

/// Returns whether an entry equals another one, whose short number is given if it has one. They are read as items
/// only if their bytes do not decide.
#[cycle(equal)]
#[inline(always)]
pub(crate) fn stored_equal(
    entry: &StoredEntry<'_>,
    wanted: &StoredEntry<'_>,
    short: Option<ShortNumber>,
) -> Result<bool, Error>
    requires { IsShortOf wanted.now short }
    ensures equal { (form other_form : Form) (t u : Tree) → Stores form entry.now t → Stores other_form wanted.now u
        → IsOkAnd result (λ b. b ≡ is_equal t u) }
    ensures errors { IfErr result IsDecodingError }
{
    match bytes_tell(entry, wanted, short) {
        Some(answer) => Ok(answer),
        None => {
            // A new one is passed, so that a loop over entries keeps none in memory: 11 instructions a step.
            let StoredEntry { kind, content } = *entry;
            stored_items_equal(&StoredEntry { kind, content }, wanted)
        }
    }
}

/// Compares two entries as items. It is a function of its own so that loops over entries stay small.
#[cycle(equal)]
#[inline(never)]
fn stored_items_equal(entry: &StoredEntry<'_>, wanted: &StoredEntry<'_>) -> Result<bool, Error>
    ensures equal { (form other_form : Form) (t u : Tree) → Stores form entry.now t → Stores other_form wanted.now u
        → IsOkAnd result (λ b. b ≡ is_equal t u) }
    ensures errors { IfErr result IsDecodingError }
{
    if let (Some(container), Some(other)) = (container_item(entry), container_item(wanted)) {
        return items_equal(&container, &other);
    }
    items_equal(&entry.item()?, &wanted.item()?)
}

/// Returns a container as an item, by its header, or `None` for another entry and for damaged bytes.
/// `StoredEntry::item`, a call that decodes any entry, takes 56 instructions for a container.
#[inline(always)]
pub(crate) fn container_item<'a>(entry: &StoredEntry<'a>) -> Option<Item<'a>>
    ensures item { (form : Form) (t : Tree) → Stores form entry.now t → IfSome result (λ item. StandsFor form item t) }
    ensures size { IfSome result (λ item. item_size item ≤ length entry.now.content.now) }
{
    let EntryKind::Container = entry.kind else {
        return None;
    };
    let Some((kind, _, _)) = split_header(entry.content) else {
        return None;
    };
    match kind {
        HeaderKind::Array => Some(Item::Array(entry.content)),
        HeaderKind::Object => Some(Item::Object(entry.content)),
        HeaderKind::Scalar => None,
    }
}

/// Returns `true` if two strings are equal. Strings of one length often differ in the last byte, so that few are
/// compared as a whole.
#[inline(always)]
fn same_bytes(bytes: &[u8], other: &[u8]) -> bool
    ensures { result ≡ bytes_eq bytes.now other.now }
{
    bytes_equal(bytes, other)
}

/// Returns whether an entry equals another one, if their bytes decide.
#[inline(always)]
fn bytes_tell(
    entry: &StoredEntry<'_>,
    wanted: &StoredEntry<'_>,
    short: Option<ShortNumber>,
) -> Option<bool>
    requires { IsShortOf wanted.now short }
    ensures { (form other_form : Form) (t u : Tree) → Stores form entry.now t → Stores other_form wanted.now u
        → IfSome result (λ b. b ≡ is_equal t u) }
{
    if entry.kind != wanted.kind {
        return Some(false);
    }
    if entry.has_one_spelling() {
        return Some(same_bytes(entry.content, wanted.content));
    }
    if let (Some(number), Some(other)) = (entry.short_number(), short) {
        return Some(short_equal(number, other));
    }
    if entry.content == wanted.content {
        return Some(true);
    }
    None
}

/// Returns whether one of the remaining entries equals the given one, and advances past the first that does.
pub(crate) fn find_equal(found: &mut Entries<'_>, wanted: &StoredEntry<'_>) -> Result<bool, Error>
    ensures found { (form other_form : Form) (ts : Trees) (u : Tree) → HasEntriesLeft form found.old ts
        → Stores other_form wanted.now u → IsOkAnd result (λ b. b ≡ list_any (λ t. is_equal t u) (elements ts)) }
    ensures passed { IfOk result (λ _. PassesOver found.old found.new) }
    ensures errors { IfErr result IsDecodingError }
{
    let short = wanted.short_number();
    let mut left = *found;
    while let Some(entry) = left.next() {
        if stored_equal(&entry?, wanted, short)? {
            *found = left;
            return Ok(true);
        }
    }
    *found = left;
    Ok(false)
}

/// Returns whether the next of the entries equals the given one, and advances past it if so.
pub(crate) fn next_equals(found: &mut Entries<'_>, wanted: &StoredEntry<'_>) -> Result<bool, Error>
    ensures found { (form other_form : Form) (ts : Trees) (u : Tree) → HasEntriesLeft form found.old ts
        → Stores other_form wanted.now u
        → IsOkAnd result (λ b. b ≡ true → list_any (λ t. is_equal t u) (elements ts) ≡ true) }
    ensures passed { PassesOver found.old found.new }
    ensures errors { IfErr result IsDecodingError }
{
    let mut left = *found;
    let Some(entry) = left.next() else {
        return Ok(false);
    };
    if !stored_equal(&entry?, wanted, wanted.short_number())? {
        return Ok(false);
    }
    *found = left;
    Ok(true)
}

/// Returns whether one of the first `count` entries equals the given one.
pub(crate) fn find_equal_among(
    found: Entries<'_>,
    wanted: &StoredEntry<'_>,
    count: usize,
) -> Result<bool, Error>
    ensures found { (form other_form : Form) (ts : Trees) (u : Tree) → HasEntriesLeft form found.entry ts
        → Stores other_form wanted.now u
        → IsOkAnd result (λ b. b ≡ list_any (λ t. is_equal t u) (take count (elements ts))) }
    ensures errors { IfErr result IsDecodingError }
{
    let short = wanted.short_number();
    let mut left = found;
    let mut more = count;
    while more > 0 {
        let Some(entry) = left.next() else {
            return Ok(false);
        };
        if stored_equal(&entry?, wanted, short)? {
            return Ok(true);
        }
        more -= 1;
    }
    Ok(false)
}
