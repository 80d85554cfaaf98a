//! Containers written without the null members of their objects. Each byte is written once.

ghost use Rattle.std.specs.Prelude.{◌≡◌, ℕ, ◌+◌, ◌≤◌, true, List, [], ◌∷◌, ◌++◌, map, length, IfOk, IfSome, IfErr, IsOkAnd, MatchResult, ⊤};
ghost use Rattle.jsonb_doc.specs.Tree.{Tree, text};
ghost use Rattle.jsonb_doc.specs.Payload.{Form, number_reader};
ghost use Rattle.jsonb_doc.specs.Format.{Decodes, IsContent};
ghost use Rattle.jsonb_doc.specs.Private.EntryKinds.{container_entry};
ghost use Rattle.jsonb_doc.specs.Kinds.{kind_number};
ghost use Rattle.jsonb_doc.specs.Answer.{IsOutOfMemory, IsDecodingError, ◌or◌};
ghost use Rattle.jsonb_doc.specs.Private.Errors.{IsOutOfMemoryOrTooLarge};
ghost use Rattle.jsonb_doc.specs.declared.error.Error.TheVariants.{OutOfMemory, TooLarge};
ghost use Rattle.jsonb_doc.specs.Private.Writer.{AreSortedKeys, Around, IsWriting};
ghost use Rattle.jsonb_raw.specs.Strip.{strip};
ghost use Rattle.jsonb_raw.specs.Private.Entries.{HoldTrees, AreEntriesOf};
ghost use Rattle.jsonb_raw.specs.Private.Stripping.{IsAboveLast, stops, stripped, beside, entries_kept, values_kept, Begins, HoldValues, AreWritten};

use crate::functions::parts::{ContainerEntries, Entries};
use crate::functions::runs::{container_entries, copy_run};
use jsonb_doc::Error;
use jsonb_doc::layout::{EntryKind, HeaderKind, split_entry_word};
use jsonb_doc::rewriting::{OpenContainer, Writer};
use std::alloc::Global;
use std::cmp::Ordering;

/// The values of a container that remain in the source, and whether nulls among them are left out.
#[derive(Clone, Copy)]
struct ValuesLeft<'a> {
    entries: Entries<'a>,
    is_object: bool,
}

/// A container around the innermost one, and its values after that one.
#[derive(Clone, Copy)]
struct Outer<'a> {
    open: OpenContainer,
    left: ValuesLeft<'a>,
}

/// Returns `true` if an entry is not copied as it is stored: a container, or a null of an object.
#[inline(always)]
fn stops(kind: EntryKind, is_object: bool) -> bool
    ensures { (form : Form) (t : Tree) (content : List ℕ) → IsContent (number_reader form) t (kind_number kind) content
        → result ≡ stops is_object t }
{
    match kind {
        EntryKind::Container => true,
        EntryKind::Null => is_object,
        _ => false,
    }
}

/// Returns the number of values that are not null.
#[tactic(auto, using(crate::proofs::StripWalk::words_of_run))]
fn count_values(values: Entries<'_>) -> usize
    ensures { (form : Form) (ts : List Tree) → HoldTrees form values.entry ts → result ≡ length (stripped true ts) }
{
    let mut count = 0;
    let mut left = values.words;
    while let Some((kind, _, others)) = split_entry_word(left) {
        if kind != EntryKind::Null {
            count += 1;
        }
        left = others;
    }
    count
}

/// Returns `true` if a key is above the one before it, if there is one.
#[inline(always)]
fn is_above(last: Option<&[u8]>, key: &[u8]) -> bool
    ensures { (ks : List (List ℕ)) → IsAboveLast last.entry (key.now ∷ ks) → result ≡ true }
{
    match last {
        Some(last) => match last.cmp(key) {
            Ordering::Less => true,
            _ => false,
        },
        None => true,
    }
}

/// Fails with `InvalidJsonb` if keys are not sorted.
fn check_keys(keys: Entries<'_>) -> Result<(), Error>
    ensures sorted { (form : Form) (ks : List (List ℕ)) → HoldTrees form keys.entry (map text ks) → AreSortedKeys ks
        → IsOkAnd result (λ _. ⊤) }
    ensures errors { IfErr result IsDecodingError }
{
    let mut left = keys;
    let mut last = None;
    while let Some((key, others)) = left.first()? {
        if !is_above(last, key.content) {
            return Err(Error::InvalidJsonb);
        }
        last = Some(key.content);
        left = others;
    }
    Ok(())
}

/// Returns the number of elements or members of a container that remain.
#[tactic(auto, using(crate::proofs::Sets::stripping_count_kept))]
fn count_kept(container: &ContainerEntries<'_>) -> usize
    ensures { (form : Form) (t : Tree) → AreEntriesOf form t container.now → result ≡ length (values_kept t) }
{
    match container.kind {
        HeaderKind::Object => count_values(container.values),
        _ => container.values.len(),
    }
}

/// Appends the keys of the members whose values are not null, in runs.
#[inline(never)]
fn put_keys_kept(writer: &mut Writer, keys: Entries<'_>, values: Entries<'_>) -> Result<(), Error>
    ensures put { (form : Form) (ks : List (List ℕ)) (vs coming : List Tree) (around : Around) (whole : Tree)
        → HoldTrees form keys.entry (map text ks) → HoldTrees form values.entry vs → length ks ≤ length vs
        → IsWriting form writer.old (map text (beside vs ks) ++ coming) around whole
        → MatchResult result (λ _. IsWriting form writer.new coming around whole) IsOutOfMemory }
    ensures errors { IfErr result (IsDecodingError or OutOfMemory) }
{
    let mut run = keys;
    let mut left = keys;
    let mut words = values.words;
    while let Some((_, others)) = left.first()? {
        let Some((kind, _, other_words)) = split_entry_word(words) else {
            return Err(Error::InvalidJsonb);
        };
        if kind == EntryKind::Null {
            copy_run(writer, run, left)?;
            run = others;
        }
        left = others;
        words = other_words;
    }
    copy_run(writer, run, left)
}

/// Appends the keys of a container's members, of which `count` remain. If all remain, they are copied as one run. Fails
/// with `InvalidJsonb` if keys are not sorted.
#[inline(always)]
#[tactic(auto, using(crate::proofs::Sets::stripping_put_keys))]
fn put_keys(
    writer: &mut Writer,
    container: &ContainerEntries<'_>,
    count: usize,
) -> Result<(), Error>
    ensures put { (form : Form) (t : Tree) (around : Around) (whole : Tree) → AreEntriesOf form t container.now
        → count ≡ length (values_kept t) → IsWriting form writer.old (entries_kept t) around whole
        → MatchResult result (λ _. IsWriting form writer.new (values_kept t) around whole) IsOutOfMemory }
    ensures errors { IfErr result (IsDecodingError or OutOfMemory) }
{
    if container.keys.words.is_empty() {
        return Ok(());
    }
    check_keys(container.keys)?;
    if count >= container.keys.len() {
        writer.copy(container.keys)?;
        return Ok(());
    }
    put_keys_kept(writer, container.keys, container.values)
}

/// Returns all values of a container.
#[tactic(auto, using(crate::proofs::Sets::stripping_all_values))]
fn all_values<'a>(container: &ContainerEntries<'a>) -> ValuesLeft<'a>
    ensures values { (form : Form) (t : Tree) → AreEntriesOf form t container.now → HoldValues form result t }
    ensures entries { result.entries ≡ container.now.values }
{
    ValuesLeft {
        entries: container.values,
        is_object: container.kind == HeaderKind::Object,
    }
}

/// Appends the values before the next container, without the nulls that are left out. Returns that container and the
/// entries after it, or `None` if there is none.
#[tactic(auto, using(crate::proofs::StripWalk::scalars_begun))]
fn put_scalars<'a>(
    writer: &mut Writer,
    left: ValuesLeft<'a>,
) -> Result<Option<(&'a [u8], Entries<'a>)>, Error>
    ensures put { (form : Form) (ts : List Tree) (around : Around) (whole : Tree)
        → HoldTrees form left.entry.entries ts
        → IsWriting form writer.old (stripped left.entry.is_object ts) around whole
        → MatchResult result (AreWritten form left.entry.is_object writer.new around whole) IsOutOfMemory }
    ensures room { IfOk result (λ found. IfSome found (λ f.
        length f.0.now + (length f.1.words.now + length f.1.contents.now) + 4
        ≤ length left.entry.entries.words.now + length left.entry.entries.contents.now)) }
    ensures errors { IfErr result (IsDecodingError or OutOfMemory) }
{
    let mut run = left.entries;
    let mut rest = left.entries;
    while let Some((entry, others)) = rest.first()? {
        if stops(entry.kind, left.is_object) {
            copy_run(writer, run, rest)?;
            if entry.kind == EntryKind::Container {
                return Ok(Some((entry.content, others)));
            }
            run = others;
        }
        rest = others;
    }
    copy_run(writer, run, rest)?;
    Ok(None)
}

/// Creates a writer of a container without nulls, and appends its keys.
#[tactic(auto, using(crate::proofs::StripWalk::begun_with, crate::proofs::StripWalk::kept_makes))]
fn begin<'a>(
    alloc: Global,
    container: &ContainerEntries<'a>,
    capacity: usize,
) -> Result<(Writer, ValuesLeft<'a>), Error>
    ensures begun { (form : Form) (t : Tree) → AreEntriesOf form t container.now
        → MatchResult result (λ begun. Begins form begun.1 begun.0 [] (strip t))
        (IsOutOfMemoryOrTooLarge form (strip t)) }
    ensures errors { IfErr result (IsDecodingError or OutOfMemory or TooLarge) }
{
    let count = count_kept(container);
    let mut writer = Writer::new(alloc, container.kind, count, capacity)?;
    put_keys(&mut writer, container, count)?;
    Ok((writer, all_values(container)))
}

/// Opens a container without nulls as the next entry, and appends its keys.
fn enter<'a>(
    writer: &mut Writer,
    container: &'a [u8],
) -> Result<(OpenContainer, ValuesLeft<'a>), Error>
    ensures entered { (form : Form) (t : Tree) (coming : List Tree) (around : Around) (whole : Tree)
        → IsContent (number_reader form) t container_entry container.now
        → IsWriting form writer.old (strip t ∷ coming) around whole
        → MatchResult result (λ entered. Begins form entered.1 writer.new ((entered.0, coming) ∷ around) whole)
        (IsOutOfMemoryOrTooLarge form whole) }
    ensures room { IfOk result (λ entered.
        length entered.1.entries.words.now + length entered.1.entries.contents.now + 4 ≤ length container.now) }
    ensures errors { IfErr result (IsDecodingError or OutOfMemory or TooLarge) }
{
    let Some(entries) = container_entries(container)? else {
        return Err(Error::InvalidJsonb);
    };
    let count = count_kept(&entries);
    let outer = writer.enter(entries.kind, count)?;
    put_keys(writer, &entries, count)?;
    Ok((outer, all_values(&entries)))
}

/// Returns the document of a container without the null members of its objects. The containers around the innermost one
/// are kept in a `Vec`.
#[tactic(auto, using(jsonb_doc::proofs::Basics::popped))]
pub fn strip_container(
    alloc: Global,
    container: &ContainerEntries<'_>,
    capacity: usize,
) -> Result<Vec<u8>, Error>
    ensures stripped { (form : Form) (t : Tree) → AreEntriesOf form t container.now
        → MatchResult result (λ made. Decodes form made.items (strip t)) (IsOutOfMemoryOrTooLarge form (strip t)) }
    ensures errors { IfErr result (IsDecodingError or OutOfMemory or TooLarge) }
{
    let (mut writer, mut left) = begin(alloc, container, capacity)?;
    let mut around = Vec::new(alloc);
    'walk: loop {
        match put_scalars(&mut writer, left)? {
            Some((container, others)) => {
                left.entries = others;
                let (open, inner) = enter(&mut writer, container)?;
                around.push(Outer { open, left })?;
                left = inner;
            }
            None => {
                let Some(outer) = around.pop() else {
                    return writer.finish();
                };
                writer.leave(outer.open)?;
                left = outer.left;
            }
        }
    }
}
