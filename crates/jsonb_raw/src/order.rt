//! The order of documents. It does not allocate, and the recursion depth is logarithmic in the length.

ghost use Rattle.std.specs.Prelude.{◌≡◌, ◌+◌, ◌≤◌, ℕ, List, Option, length, IsOkAnd, IfOk, IfErr, IfSome, OnOk, Some};
ghost use Rattle.std.specs.Cmp.Lexicographic.{slice_cmp};
ghost use Rattle.std.specs.Ordering.{nat_cmp, ordering_then};
ghost use Rattle.std.specs.declared.cmp.Ordering.{Ordering};
ghost use Rattle.jsonb_doc.specs.Tree.{Tree, number};
ghost use Rattle.jsonb_doc.specs.View.{number_parts};
ghost use Rattle.jsonb_doc.specs.Order.{rank, tree_cmp};
ghost use Rattle.jsonb_doc.specs.Extension.{Extension};
ghost use Rattle.jsonb_doc.specs.Payload.{Form, extension_payload};
ghost use Rattle.jsonb_doc.specs.Format.{Decodes};
ghost use Rattle.jsonb_doc.specs.Item.{StandsFor};
ghost use Rattle.jsonb_doc.specs.Private.Stored.{Stores};
ghost use Rattle.jsonb_doc.specs.Answer.{IsDecodingError};
ghost use Rattle.jsonb_raw.specs.AnyBytes.Roots.{HasRootShape};
ghost use Rattle.jsonb_raw.specs.Private.Levels.{EntryPrefix, HasPartsLeft, IsKeyOf, level_room};
ghost use Rattle.jsonb_raw.specs.Private.Order.{Decides, IsShorter, key_cmp, part_cmp};

use crate::key_kind;
use crate::level::ChildCursor;
use jsonb_doc::layout::EntryKind;
use jsonb_doc::{Error, Item, Number, StoredEntry, bytes_cmp, root_entry, short_cmp};
use std::cmp::Ordering;

/// Two children that are at one position of their containers.
type EntryPair<'a> = (StoredEntry<'a>, StoredEntry<'a>);

/// A child of a container, after its key if it is a value of an object.
type Child<'a> = (Option<&'a [u8]>, StoredEntry<'a>);

/// The order of two containers. All pairs of their children up to the first difference are compared except at most
/// one, so that the recursion depth is logarithmic in the length.
#[derive(Clone, Copy)]
pub(crate) struct Ordered<'a> {
    /// The pair that was not compared because its first child is longer than half of all.
    deferred: Option<EntryPair<'a>>,
    /// The order if the deferred pair is equal.
    order: Ordering,
}

impl Ordered<'_> {
    ghost use Rattle.std.specs.Prelude.{◌≡◌, None};

    /// Returns the order of two containers that defer nothing.
    fn known(order: Ordering) -> Self
        ensures deferred { result.deferred ≡ None }
        ensures order { result.order ≡ order }
    {
        Ordered {
            deferred: None,
            order,
        }
    }
}

/// Returns the order of two documents.
pub fn documents_order(document: &[u8], other: &[u8]) -> Result<Ordering, Error>
    ensures order { (form other_form : Form) (t u : Tree)
        → Decodes form document.now t → Decodes other_form other.now u
        → IsOkAnd result (λ o. o ≡ tree_cmp t u) }
    ensures errors { IfErr result IsDecodingError }
    ensures reads { OnOk result (HasRootShape document.now × HasRootShape other.now) }
{
    // Each root is read, whatever the other one is.
    let entry = root_entry(document)?;
    let other = root_entry(other)?;
    match scalars_order(&entry, &other) {
        Some(order) => Ok(order),
        None => entries_order(&entry, &other),
    }
}

/// Returns the order of two entries. This loop enters a pair of children that is longer than half of all, and calls
/// enter the others.
#[cycle(order)]
fn entries_order(entry: &StoredEntry<'_>, other: &StoredEntry<'_>) -> Result<Ordering, Error>
    ensures order { (form other_form : Form) (t u : Tree) → Stores form entry.now t → Stores other_form other.now u
        → IsOkAnd result (λ o. o ≡ tree_cmp t u) }
    ensures errors { IfErr result IsDecodingError }
{
    let mut left = Ordered {
        deferred: Some((*entry, *other)),
        order: Ordering::Equal,
    };
    while let Some((part, other_part)) = left.deferred {
        left = parts_order(&part, &other_part, left.order)?;
    }
    Ok(left.order)
}

/// Compares two entries, except for one pair of their children. If they are equal, the order is the given one.
#[cycle(order)]
fn parts_order<'a>(
    entry: &StoredEntry<'a>,
    other: &StoredEntry<'a>,
    after: Ordering,
) -> Result<Ordered<'a>, Error>
    ensures order { (form other_form : Form) (t u : Tree) → Stores form entry.now t → Stores other_form other.now u
        → IsOkAnd result (λ told. Decides form other_form told.deferred told.order
        (ordering_then (tree_cmp t u) after)) }
    ensures shorter { IfOk result (λ told. IsShorter told (length entry.now.content.now)) }
    ensures errors { IfErr result IsDecodingError }
{
    let item = entry.item()?;
    let kind = rank(&item);
    let other_kind = rank(&other.item()?);
    if kind != other_kind {
        return Ok(Ordered::known(kind.cmp(&other_kind).then(after)));
    }
    let (bytes, other_bytes) = (entry.content, other.content);
    match item {
        Item::Array(_) | Item::Object(_) => {
            let children = ChildCursor::of_container(bytes)?;
            let others = ChildCursor::of_container(other_bytes)?;
            children_order(children, others, bytes.len() / 2, after)
        }
        Item::Number(number) => {
            let order = number.cmp(&read_number(other)?);
            Ok(Ordered::known(order.then(after)))
        }
        Item::String(_) => Ok(Ordered::known(bytes_cmp(bytes, other_bytes).then(after))),
        Item::Extension(_) => {
            let order = extensions_order(bytes, other_bytes);
            Ok(Ordered::known(order.then(after)))
        }
        Item::Null | Item::Boolean(_) => Ok(Ordered::known(after)),
    }
}

/// Returns the number that an entry stores.
fn read_number(entry: &StoredEntry<'_>) -> Result<Number, Error>
    ensures number { (form : Form) (t : Tree) → Stores form entry.now t → rank t ≡ 4
        → IsOkAnd result (λ read. t ≡ number (number_parts read)) }
    ensures errors { IfErr result IsDecodingError }
{
    match entry.item()? {
        Item::Number(number) => Ok(number),
        _ => Err(Error::InvalidJsonb),
    }
}

/// Returns the order of two extension values, by their payloads.
fn extensions_order(payload: &[u8], other: &[u8]) -> Ordering
    ensures { (x y : Extension) → payload.now ≡ extension_payload x → other.now ≡ extension_payload y
        → result ≡ slice_cmp nat_cmp (extension_payload x) (extension_payload y) }
{
    bytes_cmp(payload, other)
}

/// Returns the rank of an item's type among the types, as in sortable keys.
fn rank(item: &Item<'_>) -> u8
    ensures { (form : Form) (t : Tree) → StandsFor form item.now t → result ≡ rank t }
{
    match item {
        Item::Extension(_) => key_kind::EXTENSION,
        Item::Boolean(false) => key_kind::FALSE,
        Item::Boolean(true) => key_kind::TRUE,
        Item::Number(_) => key_kind::NUMBER,
        Item::String(_) => key_kind::STRING,
        Item::Object(_) => key_kind::OBJECT,
        Item::Array(_) => key_kind::ARRAY,
        Item::Null => key_kind::NULL,
    }
}

/// Compares the remaining children of two arrays or of two objects, except for one pair. If they are equal, the order
/// is the given one.
#[cycle(order)]
fn children_order<'a>(
    found: ChildCursor<'a>,
    others: ChildCursor<'a>,
    half: usize,
    after: Ordering,
) -> Result<Ordered<'a>, Error>
    ensures order { (form other_form : Form) (ps qs : List EntryPrefix)
        → HasPartsLeft form found.entry ps → HasPartsLeft other_form others.entry qs
        → IsOkAnd result (λ told. Decides form other_form told.deferred told.order
        (ordering_then (slice_cmp part_cmp ps qs) after)) }
    ensures shorter { IfOk result (λ told. IsShorter told (level_room found.entry + 1)) }
    ensures errors { IfErr result IsDecodingError }
{
    let mut left = found;
    let mut rest = others;
    let mut deferred = None;
    while let Some(child) = left.take()? {
        let Some(other) = rest.take()? else {
            let order = Ordering::Greater;
            return Ok(Ordered { deferred, order });
        };
        let order = child_order(&mut deferred, &child, &other, half)?;
        if order.is_ne() {
            return Ok(Ordered { deferred, order });
        }
    }
    let order = if rest.take()?.is_some() {
        Ordering::Less
    } else {
        after
    };
    Ok(Ordered { deferred, order })
}

/// Returns the order of two children: of their keys, and then of their values, which may be deferred.
#[cycle(order)]
#[inline(always)]
fn child_order<'a>(
    deferred: &mut Option<EntryPair<'a>>,
    child: &Child<'a>,
    other: &Child<'a>,
    half: usize,
) -> Result<Ordering, Error>
    ensures order { (form other_form : Form) (p q : EntryPrefix) (rest whole : Ordering)
        → IsKeyOf child.now.0 p.0 → Stores form child.now.1 p.1
        → IsKeyOf other.now.0 q.0 → Stores other_form other.now.1 q.1
        → Decides form other_form deferred.old (ordering_then (part_cmp p q) rest) whole
        → IsOkAnd result (λ o. Decides form other_form deferred.new (ordering_then o rest) whole) }
    ensures size { (len : ℕ) → length child.now.1.content.now ≤ len
        → IfSome deferred.old (λ p. length p.0.content.now ≤ len)
        → IfSome deferred.new (λ p. length p.0.content.now ≤ len) }
    ensures errors { IfErr result IsDecodingError }
{
    let order = keys_order(child.0, other.0);
    if order.is_ne() {
        return Ok(order);
    }
    value_order(deferred, &child.1, &other.1, half)
}

/// Returns the order of two keys. Elements have none.
#[inline(always)]
fn keys_order(key: Option<&[u8]>, other: Option<&[u8]>) -> Ordering
    ensures { (k l : Option (List ℕ)) → IsKeyOf key.entry k → IsKeyOf other.entry l → result ≡ key_cmp k l }
{
    match (key, other) {
        (Some(key), Some(other)) => bytes_cmp(key, other),
        _ => Ordering::Equal,
    }
}

/// Returns the order of two values, or defers them: of a container that is longer than `half`, if no other is
/// deferred.
#[cycle(order)]
#[inline(always)]
fn value_order<'a>(
    deferred: &mut Option<EntryPair<'a>>,
    entry: &StoredEntry<'a>,
    other: &StoredEntry<'a>,
    half: usize,
) -> Result<Ordering, Error>
    ensures order { (form other_form : Form) (t u : Tree) (rest whole : Ordering)
        → Stores form entry.now t → Stores other_form other.now u
        → Decides form other_form deferred.old (ordering_then (tree_cmp t u) rest) whole
        → IsOkAnd result (λ o. Decides form other_form deferred.new (ordering_then o rest) whole) }
    ensures size { (len : ℕ) → length entry.now.content.now ≤ len
        → IfSome deferred.old (λ p. length p.0.content.now ≤ len)
        → IfSome deferred.new (λ p. length p.0.content.now ≤ len) }
    ensures errors { IfErr result IsDecodingError }
{
    if let Some(order) = scalars_order(entry, other) {
        return Ok(order);
    }
    if deferred.is_none() && entry.is_container() && entry.content.len() > half {
        *deferred = Some((*entry, *other));
        return Ok(Ordering::Equal);
    }
    entries_order(entry, other)
}

/// Returns the order of two strings, or of two numbers with at most 64 bits of digits. They are not read as items.
#[inline(always)]
#[tactic(auto, using(crate::proofs::LevelLemmas::numbers_told))]
fn scalars_order(entry: &StoredEntry<'_>, other: &StoredEntry<'_>) -> Option<Ordering>
    ensures { (form other_form : Form) (t u : Tree) → Stores form entry.now t → Stores other_form other.now u
        → IfSome result (λ o. o ≡ tree_cmp t u) }
{
    if entry.kind == EntryKind::Text && other.kind == EntryKind::Text {
        return Some(bytes_cmp(entry.content, other.content));
    }
    let number = entry.short_number()?;
    let other_number = other.short_number()?;
    Some(short_cmp(number, &other_number.to_number()))
}
