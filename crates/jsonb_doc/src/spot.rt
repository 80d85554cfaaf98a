//! Items by their positions in the bytes of a document.

ghost use Rattle.std.specs.Prelude.{◌≡◌, ℕ, ◌+◌, ◌*◌, ◌^◌, ◌<◌, ◌≤◌, List, length, slice_range, is_some, IsOkAnd, IfOk, IfErr, IfSome, MatchResult, OnOk};
ghost use Rattle.jsonb_doc.specs.Tree.{Tree, number, children_of, field_of};
ghost use Rattle.jsonb_doc.specs.Payload.{Form, any, number_reader};
ghost use Rattle.jsonb_doc.specs.Format.{Decodes, IsContent, HeadedBy};
ghost use Rattle.jsonb_doc.specs.Kinds.{kind_number};
ghost use Rattle.jsonb_doc.specs.Item.{StandsFor, IsNormal};
ghost use Rattle.jsonb_doc.specs.AnyBytes.Items.{item_size};
ghost use Rattle.jsonb_doc.specs.Answer.{SameOption, IsDecodingError};
ghost use Rattle.jsonb_doc.specs.AnyBytes.Roots.{HasReadableRoot};
ghost use Rattle.jsonb_doc.specs.Private.Short.{short_value};
ghost use Rattle.jsonb_doc.specs.Representation.Positions.{Locates, spot_content, HasSpotsLeft};
ghost use Rattle.jsonb_doc.specs.AnyBytes.Spots.{spot_size, spots_bound, spots_room};

use crate::container::{Container, read_container};
use crate::entry_iter::StoredEntry;
use crate::error::Error;
use crate::item::Item;
use crate::layout::EntryKind;
use crate::short_number::ShortNumber;
use crate::spot_iter::SpotIter;
use std::ops::Range;

mod content;
mod document;

pub use self::content::{StoredValue, element_spots, spot_value, value_spots};
pub use self::document::{scalar_document, spot_document};

/// One item of a document: its type, and the position of its content in the bytes.
///
/// A spot is valid for the bytes it came from. With other bytes a call returns any result, or fails as for bytes that
/// do not decode.
#[derive(Clone, Copy, Debug)]
pub struct Spot {
    pub(crate) kind: EntryKind,
    pub(crate) start: usize,
    pub(crate) end: usize,
}

impl Spot {
    /// Returns `true` if it is an array or an object.
    ///
    /// # Complexity
    ///
    /// O(1). Does not allocate.
    ///
    /// # Examples
    ///
    /// ```rust crates/jsonb_examples/src/parts.rt
    /// if !child.is_container() {
    ///     scalars.push_spot(document, child)?;
    /// }
    /// ```
    #[inline(always)]
    pub fn is_container(self) -> bool
        ensures { (bytes : List ℕ) (t : Tree) → Locates bytes self t → result ≡ is_some (children_of t) }
    {
        self.kind == EntryKind::Container
    }

    /// Returns the type of its entry.
    ///
    /// # Complexity
    ///
    /// O(1). Does not allocate.
    ///
    /// # Examples
    ///
    /// ```rust crates/jsonb_c/src/span.rt
    /// entry: entry_number(spot.entry_kind()),
    /// ```
    #[inline(always)]
    pub fn entry_kind(self) -> EntryKind
        ensures { result ≡ self.kind }
    {
        let Spot { kind, .. } = self;
        kind
    }

    /// Returns the positions at which its content begins and ends in the bytes it came from.
    ///
    /// # Complexity
    ///
    /// O(1). Does not allocate.
    ///
    /// # Examples
    ///
    /// ```rust crates/jsonb_c/src/span.rt
    /// let range = spot.range();
    /// ```
    #[inline(always)]
    pub fn range(self) -> Range<usize>
        ensures start { result.start ≡ self.start }
        ensures end { result.end ≡ self.end }
    {
        self.start..self.end
    }

    /// Returns its content within these bytes. Fails with `InvalidJsonb` if it exceeds them.
    fn content<'a>(self, bytes: &'a [u8]) -> Result<&'a [u8], Error>
        ensures { MatchResult result
            (λ content. (self.start ≤ self.end) × (self.end ≤ length bytes.now)
            × (content.now ≡ spot_content bytes.now self))
            (λ e. (e ≡ Error.InvalidJsonb) × (self.start ≤ self.end → self.end ≤ length bytes.now → ⊥)) }
    {
        match bytes.get(self.start..self.end) {
            Some(content) => Ok(content),
            None => Err(Error::InvalidJsonb),
        }
    }
}

/// Returns the spot itself, built from its parts.
///
/// If a spot is stored, or passed to a call that is not inlined, this avoids a copy of the seven bytes after its type,
/// which the machine cannot forward from one move to the next.
///
/// # Complexity
///
/// O(1). Does not allocate.
#[inline(always)]
pub fn spot_by_parts(spot: Spot) -> Spot
    ensures { result ≡ spot }
{
    let Spot { kind, start, end } = spot;
    Spot { kind, start, end }
}

/// Returns the spot of a document's root.
///
/// # Errors
///
/// `InvalidJsonb` or `UnsupportedNumber`, only for bytes that do not decode. Only the root is read, so damage in its
/// content is not found.
///
/// # Complexity
///
/// O(1). Does not allocate.
///
/// # Examples
///
/// ```rust crates/jsonb_sweep/src/reads.rt
/// let Ok(root) = root_spot(PHONES) else {
///     return false;
/// };
/// ```
#[inline(always)]
pub fn root_spot(bytes: &[u8]) -> Result<Spot, Error>
    ensures marks { (t : Tree) → Decodes any bytes.now t → IsOkAnd result (λ spot. Locates bytes.now spot t) }
    ensures size { IfOk result (λ spot. spot_size spot ≤ length bytes.now) }
    ensures readable { OnOk result (HasReadableRoot bytes.now) }
    ensures errors { IfErr result IsDecodingError }
{
    let end = bytes.len();
    let (kind, start) = match read_container(bytes)? {
        Container::Scalar(entry) => (entry.kind, end - entry.content.len()),
        _ => (EntryKind::Container, 0),
    };
    Ok(Spot { kind, start, end })
}

/// Returns the item at a spot of these bytes, its slices borrowed from them.
///
/// # Errors
///
/// `InvalidJsonb` or `UnsupportedNumber`, only if the bytes do not decode or the spot is of other bytes.
///
/// # Complexity
///
/// O(1), or O(n) for a string of n bytes. Does not allocate.
///
/// # Examples
///
/// ```rust crates/jsonb_sweep/src/reads.rt
/// children.count() == 2 && spot_item(PHONES, name).is_ok()
/// ```
pub fn spot_item<'a>(bytes: &'a [u8], spot: Spot) -> Result<Item<'a>, Error>
    ensures item { (t : Tree) → Locates bytes.now spot t → IsOkAnd result (λ item. StandsFor any item t) }
    ensures in_form { (form : Form) (top t : Tree) → Decodes form bytes.now top → Locates bytes.now spot t
        → IsOkAnd result (λ item. StandsFor form item t) }
    ensures normal { IfOk result IsNormal }
    ensures size { IfOk result (λ item. item_size item ≤ spot_size spot) }
    ensures errors { IfErr result IsDecodingError }
{
    Item::from_content(spot.kind, spot.content(bytes)?)
}

/// Returns the entry at a spot of these bytes, as it is stored.
///
/// # Errors
///
/// `InvalidJsonb` or `UnsupportedNumber`, only if the bytes do not decode or the spot is of other bytes.
///
/// # Complexity
///
/// O(1). Does not allocate.
pub fn spot_entry<'a>(bytes: &'a [u8], spot: Spot) -> Result<StoredEntry<'a>, Error>
    ensures entry { (form : Form) (top t : Tree) → Decodes form bytes.now top → Locates bytes.now spot t
        → IsOkAnd result (λ entry. IsContent (number_reader form) t (kind_number entry.kind) entry.content.now) }
    ensures errors { IfErr result IsDecodingError }
{
    Ok(StoredEntry {
        kind: spot.kind,
        content: spot.content(bytes)?,
    })
}

/// Returns the number at a spot of these bytes, if its digits are stored in at most 64 bits. `None` says nothing about
/// the item.
///
/// # Errors
///
/// `InvalidJsonb` or `UnsupportedNumber`, only if the bytes do not decode or the spot is of other bytes.
///
/// # Complexity
///
/// O(1). Does not allocate.
#[inline(always)]
pub fn spot_number(bytes: &[u8], spot: Spot) -> Result<Option<ShortNumber>, Error>
    ensures number { (t : Tree) → Locates bytes.now spot t
        → IsOkAnd result (λ found. IfSome found (λ n. t ≡ number (short_value n))) }
    ensures errors { IfErr result IsDecodingError }
{
    Ok(spot_entry(bytes, spot)?.short_number())
}

/// Returns the spots of an array's elements or of an object's values, in stored order, or `None` for a scalar.
///
/// # Errors
///
/// `InvalidJsonb` or `UnsupportedNumber`, only if the bytes do not decode or the spot is of other bytes.
///
/// # Complexity
///
/// O(1) for an array, O(k) for an object of k members. Does not allocate.
///
/// # Examples
///
/// ```rust crates/jsonb_sweep/src/reads.rt
/// let Ok(Some(children)) = child_spots(PHONES, root) else {
///     return false;
/// };
/// ```
#[inline(always)]
pub fn child_spots<'a>(bytes: &'a [u8], spot: Spot) -> Result<Option<SpotIter<'a>>, Error>
    ensures spots { (t : Tree) → Locates bytes.now spot t
        → IsOkAnd result (λ found. SameOption (HasSpotsLeft bytes.now) found (children_of t)) }
    ensures room { IfOk result (λ found. IfSome found (λ it. spots_room it < spot_size spot)) }
    ensures bound { (kind entries : ℕ) (rest : List ℕ) → HeadedBy (spot_content bytes.now spot) kind entries rest
        → IfOk result (λ found. IfSome found (λ it. spots_bound it ≤ entries)) }
    ensures short { IfOk result (λ found. IfSome found (λ it. spots_bound it < 2 ^ 30)) }
    ensures errors { IfErr result IsDecodingError }
{
    let content = spot.content(bytes)?;
    if spot.kind != EntryKind::Container {
        return Ok(None);
    }
    match read_container(content)? {
        Container::Scalar(_) => Err(Error::InvalidJsonb),
        Container::Array(parts) => {
            let start = spot.end - parts.contents.len();
            Ok(Some(SpotIter::new(parts.words, start, spot.end)))
        }
        Container::Object(parts) => {
            let start = spot.end - parts.value_contents()?.len();
            Ok(Some(SpotIter::new(parts.value_words, start, spot.end)))
        }
    }
}

/// Returns the spot of the value of this key, or `None` for an object without the key and for any other item.
///
/// # Errors
///
/// `InvalidJsonb` or `UnsupportedNumber`, only if the bytes do not decode or the spot is of other bytes.
///
/// # Complexity
///
/// O(k) for k keys: the lengths of all, and of the values before the one found, are added up; one key in 128 is
/// compared, then one in 32 of a block of 128, then those in a block of 32 that are as long as the name. Does not
/// allocate.
///
/// # Examples
///
/// ```rust crates/jsonb_sweep/src/reads.rt
/// let Ok(Some(name)) = field_spot(PHONES, root, "name") else {
///     return false;
/// };
/// ```
#[inline(always)]
pub fn field_spot(bytes: &[u8], spot: Spot, name: &str) -> Result<Option<Spot>, Error>
    ensures field { (t : Tree) → Locates bytes.now spot t
        → IsOkAnd result (λ found. SameOption (Locates bytes.now) found (field_of name.now t)) }
    ensures size { IfOk result (λ found. IfSome found (λ child. spot_size child < spot_size spot)) }
    ensures errors { IfErr result IsDecodingError }
{
    let object = spot.content(bytes)?;
    if spot.kind != EntryKind::Container {
        return Ok(None);
    }
    let parts = match read_container(object)? {
        Container::Scalar(_) => return Err(Error::InvalidJsonb),
        Container::Array(_) => return Ok(None),
        Container::Object(parts) => parts,
    };
    let Some(value) = parts.value_of(name.as_bytes())? else {
        return Ok(None);
    };
    let kind = value.kind;
    let end = spot.end - value.other_contents.len();
    let start = end - value.content.len();
    Ok(Some(Spot { kind, start, end }))
}

#[cfg(test)]
mod tests;
