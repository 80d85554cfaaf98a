//! Entries of containers, as they are stored, and the documents of single entries.

ghost use Rattle.std.specs.Prelude.{◌≡◌, ◌≢◌, ◌⊎◌, ◌+◌, ◌≤◌, List, length, take, drop, IsOk, IsOkAnd, IfOk, IfErr, IfSome, OnOk};
ghost use Rattle.jsonb_doc.specs.Tree.{Tree};
ghost use Rattle.jsonb_doc.specs.Payload.{Form, any, number_reader};
ghost use Rattle.jsonb_doc.specs.Format.{Decodes, IsContent, array_header, object_header};
ghost use Rattle.jsonb_doc.specs.Kinds.{kind_number};
ghost use Rattle.jsonb_doc.specs.Answer.{IsDecodingError, ◌or◌};
ghost use Rattle.jsonb_doc.specs.declared.error.Error.TheVariants.{OutOfMemory, TooLarge};
ghost use Rattle.jsonb_doc.specs.AnyBytes.Parts.{IsHeaded};
ghost use Rattle.jsonb_doc.specs.Private.EntryKinds.{container_entry, text_entry};
ghost use Rattle.jsonb_raw.specs.AnyBytes.Roots.{HasRoot, HasRootShape, IsWhole};
ghost use Rattle.jsonb_raw.specs.Documents.{Makes};
ghost use Rattle.jsonb_raw.specs.Private.Entries.{HoldTrees, AreElementsOf};

use crate::functions::parts::{Elements, Entries, EntryWithWord};
use crate::owned::OwnedJsonb;
use jsonb_doc::layout::{
    EntryKind, HeaderKind, MAX_CONTENT, WORD, encode_entry_word, split_header,
};
use jsonb_doc::{Container, Error, StoredEntry, read_container, root_entry, scalar_document};
use std::alloc::Global;

/// Returns the entries of an array, or `None` if the root is not an array.
#[inline(always)]
pub fn element_entries(bytes: &[u8]) -> Result<Option<Entries<'_>>, Error>
    ensures entries { (form : Form) (t : Tree) → Decodes form bytes.now t → IsOkAnd result (AreElementsOf form t) }
    ensures reads { IfOk result (λ found. IfSome found (λ _. HasRootShape bytes.now)) }
    ensures root { IfOk result (λ found. IfSome found (λ _. HasRoot bytes.now)) }
    ensures errors { IfErr result IsDecodingError }
{
    match read_container(bytes)? {
        Container::Array(parts) => Ok(Some(Entries {
            words: parts.words,
            contents: parts.contents,
        })),
        _ => Ok(None),
    }
}

/// Returns the number of entries.
pub fn entry_count(entries: Entries<'_>) -> usize
    ensures { (form : Form) (ts : List Tree) → HoldTrees form entries.entry ts → result ≡ length ts }
{
    entries.len()
}

/// Returns the entries before a position, and those after the `count` entries at it.
pub fn around_entries(
    entries: Entries<'_>,
    position: usize,
    count: usize,
) -> Result<(Entries<'_>, Entries<'_>), Error>
    ensures around { (form : Form) (ts : List Tree) → HoldTrees form entries.entry ts
        → IsOkAnd result (λ parts. HoldTrees form parts.0 (take position ts)
        × HoldTrees form parts.1 (drop count (drop position ts))) }
    ensures room { IfOk result (λ parts. length parts.0.contents.now + length parts.1.contents.now
        ≤ length entries.entry.contents.now) }
    ensures errors { IfErr result IsDecodingError }
{
    let (front, others) = entries.split(position)?;
    let (_, back) = others.split(count)?;
    Ok((front, back))
}

/// Fails for bytes that do not begin with the header of a container.
#[inline(always)]
fn check_header(content: &[u8]) -> Result<(), Error>
    ensures decodes { (form : Form) (t : Tree) → IsContent (number_reader form) t container_entry content.now
        → IsOk result }
    ensures headed { OnOk result (IsHeaded array_header content.now ⊎ IsHeaded object_header content.now) }
    ensures errors { IfErr result IsDecodingError }
{
    let Some((kind, _, _)) = split_header(content) else {
        return Err(Error::InvalidJsonb);
    };
    match kind {
        HeaderKind::Array => Ok(()),
        HeaderKind::Object => Ok(()),
        HeaderKind::Scalar => Err(Error::InvalidJsonb),
    }
}

/// Fails for a scalar entry that does not decode. No string is read.
#[inline(always)]
fn check_scalar(entry: &StoredEntry<'_>) -> Result<(), Error>
    ensures decodes { (form : Form) (t : Tree)
        → IsContent (number_reader form) t (kind_number entry.now.kind) entry.now.content.now → IsOk result }
    ensures whole { kind_number entry.now.kind ≢ container_entry → OnOk result
        ((kind_number entry.now.kind ≡ text_entry)
        ⊎ ((t : Tree) × IsContent (number_reader any) t (kind_number entry.now.kind) entry.now.content.now)) }
    ensures errors { IfErr result IsDecodingError }
{
    if entry.is_text() {
        return Ok(());
    }
    if let Some(_) = entry.short_number() {
        return Ok(());
    }
    entry.item()?;
    Ok(())
}

/// Returns the entry as a new document, as it is stored. Fails for a number or an extension value that cannot be read,
/// for a container without a header, and for an entry of no type. Strings are copied unread.
#[inline(always)]
#[tactic(auto, using(jsonb_doc::proofs::KindLemmas::other_kind, jsonb_doc::proofs::WriterLimits::not_short, jsonb_doc::proofs::KindLemmas::kind_known, jsonb_doc::proofs::CanonicalLemmas::entry_decodes))]
pub fn entry_document(alloc: Global, kind: EntryKind, content: &[u8]) -> Result<OwnedJsonb, Error>
    ensures document { (form : Form) (t : Tree) → IsContent (number_reader form) t (kind_number kind) content.now
        → Makes form t result }
    ensures whole { IfOk result IsWhole }
    ensures errors { IfErr result (IsDecodingError or OutOfMemory or TooLarge) }
{
    if kind == EntryKind::Container {
        check_header(content)?;
        return Ok(OwnedJsonb::new(Vec::from_slice(alloc, content)?));
    }
    check_scalar(&StoredEntry { kind, content })?;
    if content.len() > MAX_CONTENT {
        return Err(Error::TooLarge);
    }
    Ok(OwnedJsonb::new(scalar_document(alloc, kind, content)?))
}

impl<'a> EntryWithWord<'a> {
    ghost use Rattle.std.specs.Prelude.{[], ◌∷◌, OnOk, MatchResult};
    ghost use Rattle.jsonb_doc.specs.Tree.{Tree};
    ghost use Rattle.jsonb_doc.specs.Payload.{Form};
    ghost use Rattle.jsonb_doc.specs.Format.{Decodes};
    ghost use Rattle.jsonb_doc.specs.Answer.{IsDecodingError, ◌or◌};
    ghost use Rattle.jsonb_doc.specs.declared.error.Error.TheVariants.{TooLarge};
    ghost use Rattle.jsonb_raw.specs.AnyBytes.Roots.{HasRootShape};
    ghost use Rattle.jsonb_raw.specs.Private.Entries.{HoldTrees, HoldsTree, IsTooLongRoot};

    /// Returns the root of a document as an element. Fails with `TooLarge` if it is too long for one.
    #[tactic(auto, using(jsonb_doc::proofs::WriterLimits::not_short))]
    pub fn of_root(document: &'a [u8]) -> Result<EntryWithWord<'a>, Error>
        ensures root { (form : Form) (t : Tree) → Decodes form document.now t
            → MatchResult result (λ entry. HoldsTree form entry t) (IsTooLongRoot form t) }
        ensures reads { OnOk result (HasRootShape document.now) }
        ensures errors { IfErr result (IsDecodingError or TooLarge) }
    {
        let StoredEntry { kind, content } = root_entry(document)?;
        if content.len() > MAX_CONTENT {
            return Err(Error::TooLarge);
        }
        Ok(EntryWithWord {
            word: encode_entry_word(kind, content.len()),
            content,
        })
    }

    /// Returns this one entry as entries.
    pub fn as_entries(&self) -> Entries<'_>
        ensures { (form : Form) (t : Tree) → HoldsTree form self.now t → HoldTrees form result (t ∷ []) }
    {
        Entries {
            words: &self.word,
            contents: self.content,
        }
    }
}

impl<'a> Elements<'a> {
    ghost use Rattle.std.specs.Prelude.{List, OnOk, MatchResult};
    ghost use Rattle.jsonb_doc.specs.Tree.{Tree};
    ghost use Rattle.jsonb_doc.specs.Payload.{Form};
    ghost use Rattle.jsonb_doc.specs.Format.{Decodes};
    ghost use Rattle.jsonb_doc.specs.Answer.{IsDecodingError, ◌or◌};
    ghost use Rattle.jsonb_doc.specs.declared.error.Error.TheVariants.{TooLarge};
    ghost use Rattle.jsonb_raw.specs.AnyBytes.Roots.{HasRootShape};
    ghost use Rattle.jsonb_raw.specs.Arrays.{as_elements};
    ghost use Rattle.jsonb_raw.specs.Private.Entries.{HoldTrees, HoldElements, IsTooLongElement};

    /// Returns the elements of a document. Fails with `TooLarge` if its root is not an array and is too long for an
    /// element.
    pub fn of_document(document: &'a [u8]) -> Result<Elements<'a>, Error>
        ensures elements { (form : Form) (t : Tree) → Decodes form document.now t
            → MatchResult result (λ found. HoldElements form found (as_elements t)) (IsTooLongElement form t) }
        ensures reads { OnOk result (HasRootShape document.now) }
        ensures errors { IfErr result (IsDecodingError or TooLarge) }
    {
        match element_entries(document)? {
            Some(entries) => Ok(Elements::Array(entries)),
            None => Ok(Elements::Root(EntryWithWord::of_root(document)?)),
        }
    }

    /// Returns these entries.
    pub fn as_entries(&self) -> Entries<'_>
        ensures { (form : Form) (ts : List Tree) → HoldElements form self.now ts → HoldTrees form result ts }
    {
        match self {
            Elements::Array(entries) => *entries,
            Elements::Root(entry) => entry.as_entries(),
        }
    }
}
