//! Members written as a document. Each byte is written once.

ghost use Rattle.std.specs.Prelude.{◌≡◌, ℕ, ◌+◌, ◌<◌, ◌^◌, List, [], ◌∷◌, ◌++◌, map, length, slice_range, IfOk, IfSome, IsOkAnd, MatchResult};
ghost use Rattle.jsonb_doc.specs.Tree.{Tree, boolean, text};
ghost use Rattle.jsonb_doc.specs.Payload.{Form, number_reader};
ghost use Rattle.jsonb_doc.specs.Format.{Decodes, IsContent};
ghost use Rattle.jsonb_doc.specs.Kinds.{kind_number};
ghost use Rattle.jsonb_doc.specs.Private.Errors.{IsOutOfMemoryOrTooLarge};
ghost use Rattle.jsonb_doc.specs.Private.EventParts.{IsPlain, IsPlainItem};
ghost use Rattle.jsonb_doc.specs.Private.Writer.{Around, IsWriting};
ghost use Rattle.jsonb_doc.specs.Private.EventParts.{IsPart, HoldParts, ArePut, Begins, member_keys, keys_first};
ghost use Rattle.jsonb_doc.specs.declared.event_list.collecting.Member as parts;
ghost use Rattle.jsonb_doc.specs.declared.event_list.collecting.Part.TheVariants.{Nested};

use crate::entry_iter::StoredEntry;
use crate::error::Error;
use crate::event_list::collecting::{Member, Part, Run};
use crate::item::Item;
use crate::layout::{EntryKind, HeaderKind};
use crate::rewriting::{OpenContainer, Writer};
use crate::text_event::{TextEvent, plain_item};
use std::alloc::Global;

/// The members of a container that remain. Each run among them ends before `room`.
#[derive(Clone, Copy)]
struct Left<'m, 'a> {
    members: &'m [Member<'a>],
    room: usize,
}

/// A container around the innermost one, and its members after that one.
#[derive(Clone, Copy)]
struct Outer<'m, 'a> {
    container: OpenContainer,
    left: Left<'m, 'a>,
}

/// Appends an entry without a content.
#[inline(always)]
fn put_empty(writer: &mut Writer, kind: EntryKind) -> Result<(), Error>
    ensures put { (form : Form) (t : Tree) (coming : List Tree) (around : Around) (whole : Tree)
        → IsContent (number_reader form) t (kind_number kind) [] → IsWriting form writer.old (t ∷ coming) around whole
        → MatchResult result (λ _. IsWriting form writer.new coming around whole)
        (IsOutOfMemoryOrTooLarge form whole) }
{
    writer.put(StoredEntry { kind, content: &[] })
}

/// Appends a Boolean.
#[inline(always)]
fn put_boolean(writer: &mut Writer, value: bool) -> Result<(), Error>
    ensures put { (form : Form) (coming : List Tree) (around : Around) (whole : Tree)
        → IsWriting form writer.old (boolean value ∷ coming) around whole
        → MatchResult result (λ _. IsWriting form writer.new coming around whole)
        (IsOutOfMemoryOrTooLarge form whole) }
{
    if value {
        return put_empty(writer, EntryKind::True);
    }
    put_empty(writer, EntryKind::False)
}

/// Appends a string.
#[inline(always)]
fn put_text(writer: &mut Writer, content: &str) -> Result<(), Error>
    ensures put { (form : Form) (coming : List Tree) (around : Around) (whole : Tree)
        → IsWriting form writer.old (text content.now ∷ coming) around whole
        → MatchResult result (λ _. IsWriting form writer.new coming around whole)
        (IsOutOfMemoryOrTooLarge form whole) }
{
    writer.put(StoredEntry {
        kind: EntryKind::Text,
        content: content.as_bytes(),
    })
}

/// Appends a scalar, except for a string.
#[inline(always)]
fn put_plain(writer: &mut Writer, event: &TextEvent) -> Result<(), Error>
    ensures put { (form : Form) (t : Tree) (coming : List Tree) (around : Around) (whole : Tree)
        → IsPlain event.now t → IsWriting form writer.old (t ∷ coming) around whole
        → MatchResult result (λ _. IsWriting form writer.new coming around whole)
        (IsOutOfMemoryOrTooLarge form whole) }
{
    match plain_item(event) {
        Some(item) => put_plain_item(writer, &item),
        None => Err(Error::InvalidJsonb),
    }
}

/// Appends a scalar, except for a string or an extension value.
#[inline(always)]
fn put_plain_item(writer: &mut Writer, item: &Item<'_>) -> Result<(), Error>
    ensures put { (form : Form) (t : Tree) (coming : List Tree) (around : Around) (whole : Tree)
        → IsPlainItem item.now t → IsWriting form writer.old (t ∷ coming) around whole
        → MatchResult result (λ _. IsWriting form writer.new coming around whole)
        (IsOutOfMemoryOrTooLarge form whole) }
{
    match item {
        Item::Null => put_empty(writer, EntryKind::Null),
        Item::Boolean(value) => put_boolean(writer, *value),
        Item::Number(number) => writer.put_number(*number),
        Item::String(_) | Item::Extension(_) | Item::Array(_) | Item::Object(_) => {
            Err(Error::InvalidJsonb)
        }
    }
}

/// Appends the keys of an object's members.
#[inline(never)]
fn put_keys(writer: &mut Writer, members: &[Member<'_>]) -> Result<(), Error>
    ensures put { (form : Form) (coming : List Tree) (around : Around) (whole : Tree)
        → IsWriting form writer.old (map text (member_keys members.now) ++ coming) around whole
        → MatchResult result (λ _. IsWriting form writer.new coming around whole)
        (IsOutOfMemoryOrTooLarge form whole) }
{
    let mut left = members;
    while let [member, others @ ..] = left {
        put_text(writer, member.key)?;
        left = others;
    }
    Ok(())
}

/// Appends the values before the next container. Returns that container and the members after it, or `None` if there is
/// none.
#[inline(always)]
fn put_scalars<'m, 'a>(
    writer: &mut Writer,
    members: &'m [Member<'a>],
) -> Result<Option<(Run, &'m [Member<'a>])>, Error>
    ensures put { (form : Form) (ds : List parts.Member) (room : ℕ) (ts : List Tree) (around : Around) (whole : Tree)
        → HoldParts ds room members.now ts → IsWriting form writer.old ts around whole
        → MatchResult result (ArePut form ds room writer.new around whole) (IsOutOfMemoryOrTooLarge form whole) }
    ensures fewer { IfOk result (λ found. IfSome found (λ f. length f.1.now < length members.now)) }
{
    let mut left = members;
    while let [member, others @ ..] = left {
        match member.part {
            Part::Plain(event) => put_plain(writer, event)?,
            Part::Text(content) => put_text(writer, content)?,
            Part::Nested(run) => return Ok(Some((run, others))),
        }
        left = others;
    }
    Ok(None)
}

/// Returns the members of a run, each run among which ends before `room`.
fn members_of<'m, 'a>(all: &'m [Member<'a>], run: Run) -> Result<Left<'m, 'a>, Error>
    ensures found { (room : ℕ) (t : Tree) → IsPart all.now room (Nested run) t
        → IsOkAnd result (λ left. (left.members.now ≡ slice_range all.now run.first run.end)
        × (left.room ≡ run.end)) }
    ensures room { IfOk result (λ left. left.room ≡ run.end) }
{
    match all.get(run.first..run.end) {
        Some(members) => Ok(Left {
            members,
            room: run.end,
        }),
        None => Err(Error::InvalidJsonb),
    }
}

/// Appends the keys of a container's members, if it is an object.
fn put_keys_of(writer: &mut Writer, kind: HeaderKind, members: &[Member<'_>]) -> Result<(), Error>
    ensures put { (form : Form) (coming : List Tree) (around : Around) (whole : Tree)
        → IsWriting form writer.old (keys_first kind members.now coming) around whole
        → MatchResult result (λ _. IsWriting form writer.new coming around whole)
        (IsOutOfMemoryOrTooLarge form whole) }
{
    match kind {
        HeaderKind::Object => put_keys(writer, members),
        HeaderKind::Array | HeaderKind::Scalar => Ok(()),
    }
}

/// Creates a writer of a container, and appends its keys. Returns its members.
fn begin<'m, 'a>(
    alloc: Global,
    all: &'m [Member<'a>],
    run: Run,
    capacity: usize,
) -> Result<(Writer, Left<'m, 'a>), Error>
    ensures begun { (form : Form) (room : ℕ) (t : Tree) → IsPart all.now room (Nested run) t
        → MatchResult result (λ begun. Begins form all.now begun.1 begun.0 [] t) (IsOutOfMemoryOrTooLarge form t) }
{
    let left = members_of(all, run)?;
    let mut writer = Writer::new(alloc, run.kind, left.members.len(), capacity)?;
    put_keys_of(&mut writer, run.kind, left.members)?;
    Ok((writer, left))
}

/// Opens a container as the next entry, and appends its keys. Returns the container around it, and its members.
fn enter<'m, 'a>(
    writer: &mut Writer,
    all: &'m [Member<'a>],
    run: Run,
    room: usize,
) -> Result<(OpenContainer, Left<'m, 'a>), Error>
    ensures entered { (form : Form) (t : Tree) (coming : List Tree) (around : Around) (whole : Tree)
        → IsPart all.now room (Nested run) t → IsWriting form writer.old (t ∷ coming) around whole
        → MatchResult result (λ entered. Begins form all.now entered.1 writer.new ((entered.0, coming) ∷ around) whole)
        (IsOutOfMemoryOrTooLarge form whole) }
    ensures inner { IfOk result (λ entered. (entered.1.room < room) × (length entered.1.members.now < 2 ^ 64)) }
{
    if run.end >= room {
        return Err(Error::InvalidJsonb);
    }
    let left = members_of(all, run)?;
    let outer = writer.enter(run.kind, left.members.len())?;
    put_keys_of(writer, run.kind, left.members)?;
    Ok((outer, left))
}

/// Returns the document of a container, whose members are in a run. The containers around the innermost one are kept in
/// a `Vec`.
#[tactic(auto, using(crate::proofs::Sets::writing_write_container))]
pub(crate) fn write_container(
    alloc: Global,
    all: &[Member<'_>],
    run: Run,
    capacity: usize,
) -> Result<Vec<u8>, Error>
    ensures written { (form : Form) (room : ℕ) (t : Tree) → IsPart all.now room (Nested run) t
        → MatchResult result (λ made. Decodes form made.items t) (IsOutOfMemoryOrTooLarge form t) }
{
    let (mut writer, mut left) = begin(alloc, all, run, capacity)?;
    let mut around = Vec::new(alloc);
    'walk: loop {
        match put_scalars(&mut writer, left.members)? {
            Some((inner, others)) => {
                left.members = others;
                let (container, entered) = enter(&mut writer, all, inner, left.room)?;
                around.push(Outer { container, left })?;
                left = entered;
            }
            None => {
                let Some(outer) = around.pop() else {
                    return writer.finish();
                };
                writer.leave(outer.container)?;
                left = outer.left;
            }
        }
    }
}
