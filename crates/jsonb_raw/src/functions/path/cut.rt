//! Documents written without a value, whatever its depth.

ghost use Rattle.std.specs.Prelude.{◌≡◌, ℕ, ◌+◌, ◌^◌, ◌<◌, List, [], ◌∷◌, ◌++◌, length, reverse, OnOk, IfOk, IfErr, MatchResult};
ghost use Rattle.std.specs.List.{remove};
ghost use Rattle.jsonb_doc.specs.Tree.{Tree};
ghost use Rattle.jsonb_doc.specs.Payload.{Form};
ghost use Rattle.jsonb_doc.specs.Format.{Decodes};
ghost use Rattle.jsonb_doc.specs.Answer.{IsOutOfMemory, IsDecodingError, ◌or◌};
ghost use Rattle.jsonb_doc.specs.declared.error.Error.TheVariants.{OutOfMemory};
ghost use Rattle.jsonb_doc.specs.Private.Writer.{Make, Around, IsWriting, Rooms, HasRoom};
ghost use Rattle.jsonb_raw.specs.Deletes.{change_child, remove_at};
ghost use Rattle.jsonb_raw.specs.Private.Entries.{HoldTrees};
ghost use Rattle.jsonb_raw.specs.Private.Cuts.{LeadTo, children_kept, contents_size, sizes, rooms_after, IsClosing};

use super::parent_entries::ParentEntries;
use crate::functions::entries::around_entries;
use crate::functions::parts::Entries;
use jsonb_doc::Error;
use jsonb_doc::rewriting::{OpenContainer, Writer, container_of_runs};
use std::alloc::Global;

/// A container around another one, and its values after that one.
#[derive(Clone, Copy)]
struct Outer<'a> {
    open: OpenContainer,
    after: Entries<'a>,
}

/// Returns the number of children that a container keeps, given the containers within it: only the innermost one loses
/// a child.
#[inline(always)]
#[tactic(auto, using(jsonb_doc::proofs::Basics::not_zero_of, jsonb_doc::proofs::Basics::empty_of, jsonb_doc::proofs::Basics::zero_of))]
fn children_kept(parent: &ParentEntries<'_>, inner: &[ParentEntries<'_>]) -> usize
    ensures { result ≡ children_kept parent.now inner.now }
{
    if inner.is_empty() {
        parent.others
    } else {
        parent.others + 1
    }
}

/// Appends a run of entries to a container, if there are any. An empty run would take 70 instructions.
#[inline(always)]
#[tactic(auto, using(crate::proofs::CutLemmas::no_trees_held, jsonb_doc::proofs::Basics::zero_of, crate::proofs::CutLemmas::room_less))]
fn copy_some(writer: &mut Writer, run: Entries<'_>) -> Result<(), Error>
    ensures copied { (form : Form) (ts coming : List Tree) (around : Around) (whole : Tree)
        → HoldTrees form run.entry ts → IsWriting form writer.old (ts ++ coming) around whole
        → MatchResult result (λ _. IsWriting form writer.new coming around whole) IsOutOfMemory }
    ensures room { (coming : ℕ) (around : Rooms) → HasRoom writer.old (length run.entry.contents.now + coming) around
        → OnOk result (HasRoom writer.new coming around) }
    ensures errors { IfErr result IsOutOfMemory }
{
    if run.words.is_empty() {
        return Ok(());
    }
    writer.copy(run)
}

/// Appends the entries of a container without those of the child.
#[tactic(auto, using(crate::proofs::CutLemmas::in_runs, crate::proofs::CutLemmas::room_less))]
fn put_others(writer: &mut Writer, parent: &ParentEntries<'_>) -> Result<(), Error>
    ensures put { (form : Form) (names front after : List Tree) (n : ℕ) (around : Around) (whole : Tree)
        → HoldTrees form parent.now.keys names → HoldTrees form parent.now.front front
        → HoldTrees form parent.now.after after → n ≡ length front
        → IsWriting form writer.old (remove names n ++ (front ++ after)) around whole
        → MatchResult result (λ _. IsWriting form writer.new [] around whole) IsOutOfMemory }
    ensures room { (around : Rooms) → HasRoom writer.old (contents_size parent.now) around
        → OnOk result (HasRoom writer.new 0 around) }
    ensures errors { IfErr result (IsDecodingError or OutOfMemory) }
{
    let (keys, other_keys) = around_entries(parent.keys, parent.front.len(), 1)?;
    copy_some(writer, keys)?;
    copy_some(writer, other_keys)?;
    copy_some(writer, parent.front)?;
    copy_some(writer, parent.after)?;
    Ok(())
}

/// Returns the document of a container without the child. Its words are written once: in an array of 1,000 elements a
/// `Writer`, which clears their room first, takes up to three times the instructions.
#[tactic(auto, using(crate::proofs::Sets::cut_container_of_others))]
fn container_of_others(alloc: Global, parent: &ParentEntries<'_>) -> Result<Vec<u8>, Error>
    ensures container { (form : Form) (names front after : List Tree) (n : ℕ) (t : Tree)
        → HoldTrees form parent.now.keys names → HoldTrees form parent.now.front front
        → HoldTrees form parent.now.after after → n ≡ length front
        → Make parent.now.kind parent.now.others (remove names n ++ (front ++ after)) t
        → MatchResult result (λ made. Decodes form made.items t) IsOutOfMemory }
    ensures errors { IfErr result (IsDecodingError or OutOfMemory) }
{
    let (kind, count) = (parent.kind, parent.others);
    let values = [parent.front, parent.after];
    if parent.keys.words.is_empty() {
        let made = container_of_runs(alloc, kind, count, &[], &values)?;
        return Ok(made);
    }
    let (keys, other_keys) = around_entries(parent.keys, parent.front.len(), 1)?;
    let made = container_of_runs(alloc, kind, count, &[keys, other_keys], &values)?;
    Ok(made)
}

/// Writes the containers, each within the one before it, without the innermost child. They remain open. Returns the
/// writer, and the containers around the innermost one.
#[tactic(auto, using(crate::proofs::CutLemmas::room_less))]
fn write_down<'a>(
    alloc: Global,
    outermost: &ParentEntries<'a>,
    inner: &[ParentEntries<'a>],
    capacity: usize,
) -> Result<(Writer, Vec<Outer<'a>>), Error>
    requires short { sizes inner.now < 2 ^ 28 }
    ensures written { (form : Form) (t end : Tree) (n : ℕ) (ns : List ℕ)
        → LeadTo form (outermost.now ∷ inner.now) (n ∷ ns) t end
        → MatchResult result (λ made. IsClosing form made.0 made.1.items (change_child n (remove_at ns) t))
        IsOutOfMemory }
    ensures room { IfOk result (λ made. HasRoom made.0 0 (rooms_after (reverse made.1.items))) }
    ensures errors { IfErr result (IsDecodingError or OutOfMemory) }
{
    let mut parent = *outermost;
    let mut writer = Writer::new(
        alloc,
        parent.kind,
        children_kept(outermost, inner),
        capacity,
    )?;
    let mut around = Vec::with_capacity(alloc, inner.len())?;
    for (index, next) in inner.iter().enumerate() {
        copy_some(&mut writer, parent.keys)?;
        copy_some(&mut writer, parent.front)?;
        let open = writer.enter(next.kind, children_kept(next, &inner[index + 1..]))?;
        let after = parent.after;
        around.push(Outer { open, after })?;
        parent = *next;
    }
    put_others(&mut writer, &parent)?;
    Ok((writer, around))
}

/// Closes the containers, the innermost first, and appends to each around it the values that follow.
fn close_all(writer: &mut Writer, mut around: Vec<Outer<'_>>) -> Result<(), Error>
    requires room { HasRoom writer.old 0 (rooms_after (reverse around.items)) }
    ensures closed { (form : Form) (whole : Tree) → IsClosing form writer.old around.entry.items whole
        → MatchResult result (λ _. IsWriting form writer.new [] [] whole) IsOutOfMemory }
    ensures errors { IfErr result IsOutOfMemory }
{
    while let Some(outer) = around.pop() {
        writer.leave(outer.open)?;
        copy_some(writer, outer.after)?;
    }
    Ok(())
}

/// Returns the document of the outermost of these containers, each within the one before it, without the child of the
/// innermost one.
pub fn without_child(
    alloc: Global,
    outermost: &ParentEntries<'_>,
    inner: &[ParentEntries<'_>],
    capacity: usize,
) -> Result<Vec<u8>, Error>
    requires short { sizes inner.now < 2 ^ 28 }
    ensures without { (form : Form) (t end : Tree) (n : ℕ) (ns : List ℕ)
        → LeadTo form (outermost.now ∷ inner.now) (n ∷ ns) t end
        → MatchResult result (λ made. Decodes form made.items (change_child n (remove_at ns) t)) IsOutOfMemory }
    ensures errors { IfErr result (IsDecodingError or OutOfMemory) }
{
    if inner.is_empty() {
        return container_of_others(alloc, outermost);
    }
    let (mut writer, around) = write_down(alloc, outermost, inner, capacity)?;
    close_all(&mut writer, around)?;
    writer.finish()
}
