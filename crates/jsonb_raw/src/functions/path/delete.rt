//! A document without the value at a key path.

ghost use Rattle.std.specs.Prelude.{◌≡◌, ℕ, ◌+◌, ◌^◌, ◌<◌, ◌≤◌, List, map, length, position as first_position, not, IsTrue, IsErrOf, IfOk, IfSome, IfErr, OnOk, MatchResult};
ghost use Rattle.std.specs.Iterator.{IsFinite};
ghost use Rattle.std.specs.Fmt.{signed_decimal};
ghost use Rattle.std.specs.Str.{bytes_eq};
ghost use Rattle.jsonb_doc.specs.Tree.{Tree, text};
ghost use Rattle.jsonb_doc.specs.Payload.{Form};
ghost use Rattle.jsonb_doc.specs.Format.{Decodes, AreKeys};
ghost use Rattle.jsonb_doc.specs.Item.{StandsFor};
ghost use Rattle.jsonb_doc.specs.Answer.{SameOption, IsOutOfMemory, ◌or◌, IsDecodingError};
ghost use Rattle.jsonb_doc.specs.declared.error.Error.TheVariants.{OutOfMemory, InvalidJsonType};
ghost use Rattle.jsonb_keypath.specs.declared.key_path.KeyPath.{KeyPath};
ghost use Rattle.jsonb_keypath.specs.KeyPathViews.{key_view};
ghost use Rattle.jsonb_keypath.specs.Private.KeysView.{keys_view};
ghost use Rattle.jsonb_raw.specs.Documents.{raw_bytes};
ghost use Rattle.jsonb_raw.specs.AnyBytes.Roots.{HasRoot};
ghost use Rattle.jsonb_raw.specs.Deletes.{without, MeetNoPart};
ghost use Rattle.jsonb_raw.specs.Scalars.{is_json_scalar};
ghost use Rattle.jsonb_raw.specs.Iterators.{YieldsItemsLeft};
ghost use Rattle.jsonb_raw.specs.Places.{index_position, child_position, location};
ghost use Rattle.jsonb_raw.specs.Private.Entries.{HoldTrees, AreEntriesOf};
ghost use Rattle.jsonb_raw.specs.Private.Cuts.{Leads, StepsInto, HoldsValue, AreShort, size};

use super::child::index_position;
use super::cut::without_child;
use super::parent_entries::ParentEntries;
use crate::functions::parts::{ContainerEntries, Entries};
use crate::functions::runs::{container_entries, name_position};
use crate::owned::OwnedJsonb;
use crate::raw::RawJsonb;
use jsonb_doc::layout::{EntryKind, HeaderKind};
use jsonb_doc::{Error, Item, StoredEntry, root_item};
use jsonb_keypath::KeyPath;
use std::alloc::Global;

/// Returns the position that an index denotes among elements, from the end if negative.
#[tactic(auto, using(crate::proofs::Sets::integer_back))]
fn element_position(elements: Entries<'_>, index: i32) -> Option<usize>
    ensures { (form : Form) (ts : List Tree) → HoldTrees form elements.entry ts
        → result ≡ index_position (length ts) index }
{
    index_position(elements.len(), index)
}

/// Returns the position of the key that is an index in decimal.
#[tactic(auto, using(crate::proofs::AnswerLemmas::answered, crate::proofs::Sets::integer_back))]
fn decimal_position(alloc: Global, keys: Entries<'_>, index: i32) -> Result<Option<usize>, Error>
    ensures position { (form : Form) (ks : List (List ℕ)) → HoldTrees form keys.entry (map text ks) → AreKeys ks
        → MatchResult result (λ found. found
        ≡ first_position (λ key. bytes_eq key (signed_decimal index)) ks) IsOutOfMemory }
    ensures errors { IfErr result (IsDecodingError or OutOfMemory) }
{
    let key = format!(in alloc; "{index}")?;
    name_position(keys, key.as_str().as_bytes())
}

/// Returns the position of the child that a step selects.
#[tactic(auto, using(crate::proofs::PositionLemmas::of_array, crate::proofs::Sets::integer_back))]
fn child_position(
    alloc: Global,
    container: &ContainerEntries<'_>,
    step: &KeyPath<'_>,
) -> Result<Option<usize>, Error>
    ensures position { (form : Form) (t : Tree) → AreEntriesOf form t container.now
        → MatchResult result (λ found. found ≡ child_position (key_view step.now) t) IsOutOfMemory }
    ensures errors { IfErr result (IsDecodingError or OutOfMemory) }
{
    let keys = container.keys;
    match (container.kind, step) {
        (HeaderKind::Array, KeyPath::Index(index)) => Ok(element_position(
            container.values,
            *index,
        )),
        (HeaderKind::Object, KeyPath::Index(index)) => decimal_position(alloc, keys, *index),
        (HeaderKind::Object, KeyPath::QuotedName(name)) => {
            name_position(keys, name.as_str().as_bytes())
        }
        (HeaderKind::Object, KeyPath::Name(name)) => name_position(keys, name.as_str().as_bytes()),
        _ => Ok(None),
    }
}

/// Returns the entries of a container around the child that a step selects, and the child.
#[tactic(auto, using(crate::proofs::Sets::delete_split_container))]
fn split_container<'a>(
    alloc: Global,
    container: &'a [u8],
    step: &KeyPath<'_>,
) -> Result<Option<(ParentEntries<'a>, StoredEntry<'a>)>, Error>
    ensures child { (form : Form) (t : Tree) → Decodes form container.now t
        → MatchResult result (StepsInto form t (key_view step.now)) IsOutOfMemory }
    ensures short { IfOk result (λ found. IfSome found (λ f.
        (size f.0 + length f.1.content.now ≤ length container.now) × (length f.1.content.now < 2 ^ 28))) }
    ensures errors { IfErr result (IsDecodingError or OutOfMemory) }
{
    let Some(entries) = container_entries(container)? else {
        return Ok(None);
    };
    let Some(position) = child_position(alloc, &entries, step)? else {
        return Ok(None);
    };
    let (front, others) = entries.values.split(position)?;
    let Some((child, after)) = others.first()? else {
        return Ok(None);
    };
    let parent = ParentEntries {
        kind: entries.kind,
        others: front.len() + after.len(),
        keys: entries.keys,
        front,
        after,
    };
    Ok(Some((parent, child)))
}

/// Returns the child that a step selects, with the entries around it.
#[tactic(auto, using(crate::proofs::CutLemmas::no_children, crate::proofs::Sets::delete_split_at_step))]
fn split_at_step<'a>(
    alloc: Global,
    entry: StoredEntry<'a>,
    step: &KeyPath<'_>,
) -> Result<Option<(ParentEntries<'a>, StoredEntry<'a>)>, Error>
    ensures child { (form : Form) (t : Tree) → HoldsValue form entry.entry t
        → MatchResult result (StepsInto form t (key_view step.now)) IsOutOfMemory }
    ensures short { IfOk result (λ found. IfSome found (λ f.
        (size f.0 + length f.1.content.now ≤ length entry.entry.content.now)
        × (length f.1.content.now < 2 ^ 28))) }
    ensures errors { IfErr result (IsDecodingError or OutOfMemory) }
{
    if entry.kind == EntryKind::Container {
        return split_container(alloc, entry.content, step);
    }
    Ok(None)
}

/// Returns the containers around the value that the steps select, the outermost first.
fn parents_of<'a, 'k, I: Iterator<Item = &'k KeyPath<'k>> + Drop>(
    alloc: Global,
    bytes: &'a [u8],
    steps: I,
) -> Result<Option<Vec<ParentEntries<'a>>>, Error>
    requires can { I.can_next steps }
    requires ends { IsFinite (I.remaining steps) }
    ensures place { (left : I → List KeyPath) → YieldsItemsLeft I.next_gives left
        → (form : Form) (t : Tree) → Decodes form bytes.now t
        → MatchResult result (λ found. SameOption (λ parents ns. Leads form parents.items ns t) found
        (location (keys_view (left steps)) t)) IsOutOfMemory }
    ensures short { IfOk result (λ found. IfSome found (λ parents. AreShort parents.items 0)) }
    ensures errors { IfErr result (IsDecodingError or OutOfMemory) }
{
    let mut entry = StoredEntry {
        kind: EntryKind::Container,
        content: bytes,
    };
    let mut parents = Vec::new(alloc);
    for step in steps {
        let Some((parent, child)) = split_at_step(alloc, entry, step)? else {
            return Ok(None);
        };
        parents.push(parent)?;
        entry = child;
    }
    Ok(Some(parents))
}

/// Returns `true` if an item is null, a Boolean, a number or a string.
fn is_json_scalar(item: &Item<'_>) -> bool
    ensures { (form : Form) (t : Tree) → StandsFor form item.now t → result ≡ is_json_scalar t }
{
    !matches!(item, Item::Array(_) | Item::Object(_) | Item::Extension(_))
}

/// Returns a copy of the bytes.
fn copy_of(alloc: Global, bytes: &[u8]) -> Result<OwnedJsonb, Error>
    ensures same { MatchResult result (λ made. made ≡ bytes.now) IsOutOfMemory }
{
    Ok(OwnedJsonb::new(Vec::from_slice(alloc, bytes)?))
}

impl RawJsonb<'_> {
    /// Returns the document without the value at the location of the steps, which are those of `get_by_keypath`: an
    /// element of an array, or a member of an object.
    ///
    /// Returns the same bytes if there are no steps, if a step selects nothing, and if the root is an extension value.
    /// The iterator must end. Like PostgreSQL's `#-`.
    ///
    /// # Errors
    ///
    /// `InvalidJsonType` if and only if the root is null, a Boolean, a number or a string, and allocation errors.
    /// `TooLarge` does not occur, because the result is no longer than the document.
    ///
    /// # Complexity
    ///
    /// O(n). Allocates; what remains is copied once.
    ///
    /// # Examples
    ///
    /// ```rust crates/jsonb_examples/src/configuration.rt
    /// let steps = parse_key_paths(alloc, path.as_bytes())?;
    /// configuration.delete_by_keypath(alloc, steps.paths.iter())
    /// ```
    ///
    /// <!-- rows: calls: delete_by_keypath -->
    /// | Document | Arguments | Result |
    /// |---|---|---|
    /// | `[false,10,{"k":"v"}]` | `{2,k}` | `[false,10,{}]` |
    /// | `[false,10,{"k":"v"}]` | `{-4}` | `[false,10,{"k":"v"}]` |
    /// | `5` | `{0}` | refused: `InvalidJsonType` |
    #[tactic(auto, using(crate::proofs::ChildLemmas::not_scalar))]
    pub fn delete_by_keypath<'k, I: Iterator<Item = &'k KeyPath<'k>> + Drop>(
        &self,
        alloc: Global,
        steps: I,
    ) -> Result<OwnedJsonb, Error>
        requires can { I.can_next steps }
        requires ends { IsFinite (I.remaining steps) }
        ensures scalar { (form : Form) (t : Tree) → Decodes form (raw_bytes self.now) t → IsTrue (is_json_scalar t)
            → IsErrOf result Error.InvalidJsonType }
        ensures without { (left : I → List KeyPath) → YieldsItemsLeft I.next_gives left
            → (form : Form) (t : Tree) → Decodes form (raw_bytes self.now) t → IsTrue (not (is_json_scalar t))
            → MatchResult result (λ made. Decodes form made (without (map key_view (left steps)) t)) IsOutOfMemory }
        ensures same { (left : I → List KeyPath) → YieldsItemsLeft I.next_gives left
            → (form : Form) (t : Tree) → Decodes form (raw_bytes self.now) t → IsTrue (not (is_json_scalar t))
            → MeetNoPart (map key_view (left steps)) t
            → MatchResult result (λ made. made ≡ raw_bytes self.now) IsOutOfMemory }
        ensures errors { IfErr result (IsDecodingError or OutOfMemory or InvalidJsonType) }
        ensures reads { OnOk result (HasRoot (raw_bytes self.now)) }
    {
        let bytes = self.as_bytes();
        if is_json_scalar(&root_item(bytes)?) {
            return Err(Error::InvalidJsonType);
        }
        let Some(parents) = parents_of(alloc, bytes, steps)? else {
            return copy_of(alloc, bytes);
        };
        let Some((outermost, inner)) = parents.as_slice().split_first() else {
            return copy_of(alloc, bytes);
        };
        let document = without_child(alloc, outermost, inner, bytes.len())?;
        Ok(OwnedJsonb::new(document))
    }
}
