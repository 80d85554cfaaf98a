//! Containers that are written entry by entry into one buffer, each byte once.
//!
//! An object of n pairs is written as 2n entries: its keys, as strings, and then its values.

ghost use Rattle.std.specs.Prelude.{◌≡◌, ℕ, ◌+◌, ◌^◌, ◌<◌, ◌≤◌, List, ◌++◌, length, take, drop, OnOk, IfOk, IfErr, MatchResult};
ghost use Rattle.jsonb_doc.specs.Tree.{Tree};
ghost use Rattle.jsonb_doc.specs.Payload.{Form};
ghost use Rattle.jsonb_doc.specs.Format.{Decodes};
ghost use Rattle.jsonb_doc.specs.Answer.{IsOutOfMemory, ◌or◌, ◌or◌when◌};
ghost use Rattle.jsonb_doc.specs.Private.Errors.{IsOutOfMemoryOrTooLarge};
ghost use Rattle.jsonb_doc.specs.declared.error.Error.TheVariants.{TooLarge};
ghost use Rattle.jsonb_doc.specs.Private.Cursor.{RunsHold, words_of_runs, contents_of_runs};
ghost use Rattle.jsonb_doc.specs.Private.Writer.{Make, IsOpen, ExceedsLimits, head_size};

use crate::cursor::Entries;
use crate::entry_iter::StoredEntry;
use crate::error::Error;
use crate::layout::{
    EntryKind, HeaderKind, MAX_CONTENT, MAX_ENTRIES, WORD, encode_entry_word, encode_header,
};
use crate::number::Number;
use crate::payload::{number_len, push_number_payload};
use std::alloc::{AllocError, Global};

/// An open container: where it begins in the buffer, and where the word of its next entry goes.
#[derive(Clone, Copy)]
pub struct OpenContainer {
    start: usize,
    word: usize,
}

/// A writer of one container and of the containers within it.
///
/// The caller keeps the containers around the innermost one: `enter` returns each, `leave` takes it back. If more
/// entries are written than a container was opened for, `finish` may fail; no other call does for that reason.
#[derive(Drop)]
pub struct Writer {
    out: Vec<u8>,
    inner: OpenContainer,
    is_overrun: bool,
}

impl Writer {
    ghost use Rattle.std.specs.Prelude.{◌≡◌, ℕ, ◌+◌, ◌<◌, ◌≤◌, ◌^◌, List, [], ◌∷◌, ◌++◌, take, drop, length, OnOk, IfOk, IfErr, IsOkAnd, MatchResult};
    ghost use Rattle.jsonb_doc.specs.Tree as spec;
    ghost use Rattle.jsonb_doc.specs.Tree.{Tree};
    ghost use Rattle.jsonb_doc.specs.View.{number_view};
    ghost use Rattle.jsonb_doc.specs.Payload.{Form, number_reader};
    ghost use Rattle.jsonb_doc.specs.Format.{Decodes, IsContent};
    ghost use Rattle.jsonb_doc.specs.Kinds.{kind_number};
    ghost use Rattle.jsonb_doc.specs.Answer.{IsOutOfMemory, IsDecodingError, ◌or◌};
    ghost use Rattle.jsonb_doc.specs.Private.Errors.{IsOutOfMemoryOrTooLarge};
    ghost use Rattle.jsonb_doc.specs.declared.error.Error.TheVariants.{TooLarge};
    ghost use Rattle.jsonb_doc.specs.Private.Cursor.{HoldTrees};
    ghost use Rattle.jsonb_doc.specs.Private.Writer.{Make, Around, IsWriting, Rooms, HasRoom, head_size};

    /// Creates a writer of a container of `count` elements or pairs, with a capacity of `capacity` bytes.
    ///
    /// # Errors
    ///
    /// `TooLarge` if `count` is above the format's limit; `OutOfMemory`.
    ///
    /// # Complexity
    ///
    /// O(`count`). Allocates once if `capacity` is large enough.
    pub fn new(
        alloc: Global,
        kind: HeaderKind,
        count: usize,
        capacity: usize,
    ) -> Result<Writer, Error>
        ensures opened { (form : Form) (ts : List Tree) (t : Tree) → Make kind count ts t
            → MatchResult result (λ w. IsWriting form w ts [] t) (IsOutOfMemoryOrTooLarge form t) }
        ensures few { count < 2 ^ 29 → IfErr result IsOutOfMemory }
        ensures errors { IfErr result (IsOutOfMemory or TooLarge) }
    {
        let mut out = Vec::with_capacity(alloc, capacity)?;
        let inner = open(&mut out, kind, count)?;
        Ok(Writer {
            out,
            inner,
            is_overrun: false,
        })
    }

    /// Appends a run of entries to the innermost container.
    ///
    /// # Errors
    ///
    /// `OutOfMemory`.
    ///
    /// # Complexity
    ///
    /// O(n) for a run of n bytes: two copies of memory. Allocates if the capacity is consumed.
    #[inline(always)]
    pub fn copy(&mut self, run: Entries<'_>) -> Result<(), Error>
        ensures copied { (form : Form) (ts coming : List Tree) (around : Around) (whole : Tree)
            → HoldTrees form run.entry ts → IsWriting form self.old (ts ++ coming) around whole
            → MatchResult result (λ _. IsWriting form self.new coming around whole) IsOutOfMemory }
        ensures room { (coming : ℕ) (around : Rooms) → HasRoom self.old (length run.entry.contents.now + coming) around
            → OnOk result (HasRoom self.new coming around) }
        ensures errors { IfErr result IsOutOfMemory }
    {
        self.out.extend_from_slice(run.contents)?;
        self.set_words(self.inner, run.words);
        Ok(())
    }

    /// Appends one entry to the innermost container.
    ///
    /// # Errors
    ///
    /// `TooLarge` if the content is too long for an entry; `OutOfMemory`.
    ///
    /// # Complexity
    ///
    /// O(n) for a content of n bytes. Allocates if the capacity is consumed.
    #[inline(always)]
    pub fn put(&mut self, entry: StoredEntry<'_>) -> Result<(), Error>
        ensures put { (form : Form) (t : Tree) (coming : List Tree) (around : Around) (whole : Tree)
            → IsContent (number_reader form) t (kind_number entry.entry.kind) entry.entry.content.now
            → IsWriting form self.old (t ∷ coming) around whole
            → MatchResult result (λ _. IsWriting form self.new coming around whole)
            (IsOutOfMemoryOrTooLarge form whole) }
        ensures errors { IfErr result (IsOutOfMemory or TooLarge) }
    {
        if entry.content.len() > MAX_CONTENT {
            return Err(Error::TooLarge);
        }
        let word = encode_entry_word(entry.kind, entry.content.len());
        self.out.extend_from_slice(entry.content)?;
        self.set_words(self.inner, &word);
        Ok(())
    }

    /// Appends a number to the innermost container, each zero as one byte.
    ///
    /// # Errors
    ///
    /// `OutOfMemory`.
    ///
    /// # Complexity
    ///
    /// O(1). Allocates if the capacity is consumed.
    #[inline(always)]
    #[tactic(auto, using(crate::proofs::Sets::writer_put_number))]
    pub(crate) fn put_number(&mut self, number: Number) -> Result<(), Error>
        ensures put { (form : Form) (coming : List Tree) (around : Around) (whole : Tree)
            → IsWriting form self.old (spec.number (number_view number) ∷ coming) around whole
            → MatchResult result (λ _. IsWriting form self.new coming around whole) IsOutOfMemory }
        ensures errors { IfErr result IsOutOfMemory }
    {
        let word = encode_entry_word(EntryKind::Number, number_len(number));
        push_number_payload(&mut self.out, number)?;
        self.set_words(self.inner, &word);
        Ok(())
    }

    /// Opens a container of `count` elements or pairs as the next entry. Returns the container around it.
    ///
    /// # Errors
    ///
    /// `TooLarge` if `count` is above the format's limit; `OutOfMemory`.
    ///
    /// # Complexity
    ///
    /// O(`count`). Allocates if the capacity is consumed.
    #[inline(always)]
    pub fn enter(&mut self, kind: HeaderKind, count: usize) -> Result<OpenContainer, Error>
        ensures entered { (form : Form) (ts : List Tree) (t : Tree) (coming : List Tree) (around : Around)
            (whole : Tree)
            → Make kind count ts t → IsWriting form self.old (t ∷ coming) around whole
            → MatchResult result (λ outer. IsWriting form self.new ts ((outer, coming) ∷ around) whole)
            (IsOutOfMemoryOrTooLarge form whole) }
        ensures few { count < 2 ^ 29 → IfErr result IsOutOfMemory }
        ensures room { (coming bytes : ℕ) (around : Rooms)
            → HasRoom self.old (head_size kind count + bytes + coming) around → head_size kind count + bytes < 2 ^ 28
            → IfOk result (λ outer. HasRoom self.new bytes ((outer, coming) ∷ around)) }
        ensures errors { IfErr result (IsOutOfMemory or TooLarge) }
    {
        // In parts: `set_words` has just stored the word, and a load of both would wait for it, for 5 ns.
        let OpenContainer { start, word } = self.inner;
        self.inner = open(&mut self.out, kind, count)?;
        Ok(OpenContainer { start, word })
    }

    /// Closes the innermost container. The one around it, which `enter` returned, is the innermost one again.
    ///
    /// # Errors
    ///
    /// `TooLarge` if the container is too long for an entry.
    ///
    /// # Complexity
    ///
    /// O(1). Does not allocate.
    #[inline(always)]
    pub fn leave(&mut self, outer: OpenContainer) -> Result<(), Error>
        ensures left { (form : Form) (coming : List Tree) (around : Around) (whole : Tree)
            → IsWriting form self.old [] ((outer, coming) ∷ around) whole
            → MatchResult result (λ _. IsWriting form self.new coming around whole)
            (IsOutOfMemoryOrTooLarge form whole) }
        ensures room { (coming : ℕ) (around : Rooms) → HasRoom self.old 0 ((outer, coming) ∷ around)
            → IsOkAnd result (λ _. HasRoom self.new coming around) }
        ensures errors { IfErr result (λ e. e ≡ TooLarge) }
    {
        let len = self.out.len().saturating_sub(self.inner.start);
        if len > MAX_CONTENT {
            return Err(Error::TooLarge);
        }
        let word = encode_entry_word(EntryKind::Container, len);
        self.set_words(outer, &word);
        Ok(())
    }

    /// Returns the document, once all entries are written.
    ///
    /// # Errors
    ///
    /// `InvalidJsonb` only if more entries were written than a container was opened for.
    ///
    /// # Complexity
    ///
    /// O(1). Does not allocate.
    #[inline(always)]
    pub fn finish(self) -> Result<Vec<u8>, Error>
        ensures written { (form : Form) (whole : Tree) → IsWriting form self [] [] whole
            → IsOkAnd result (λ document. Decodes form document.items whole) }
        ensures errors { IfErr result IsDecodingError }
    {
        let Writer {
            out,
            is_overrun,
            ..
        } = self;
        if is_overrun {
            return Err(Error::InvalidJsonb);
        }
        Ok(out)
    }

    /// Writes the words of the next entries of a container, which becomes the innermost one.
    #[inline(always)]
    fn set_words(&mut self, container: OpenContainer, words: &[u8])
        ensures set { container.word + length words.now ≤ length self.old.out.items
            → (self.new.is_overrun ≡ self.old.is_overrun)
            × (self.new.inner.word ≡ container.word + length words.now)
            × (self.new.out.items ≡ take container.word self.old.out.items
            ++ (words.now ++ drop (container.word + length words.now) self.old.out.items)) }
        ensures start { self.new.inner.start ≡ container.start }
        ensures size { length self.new.out.items ≡ length self.old.out.items }
    {
        self.inner = container;
        let end = self.out.len();
        if words.len() > end || container.word > end - words.len() {
            self.is_overrun = true;
            return;
        }
        let next = container.word + words.len();
        self.out[container.word..next].copy_from_slice(words);
        self.inner.word = next;
    }
}

/// Appends a header, and zeros for the words of the entries. Inlined: as a call, its result is stored in parts and
/// loaded at once, which takes 5 ns more.
#[inline(always)]
#[tactic(auto, using(crate::proofs::WriterLimits::too_many, crate::proofs::Sets::rewriting_open))]
fn open(out: &mut Vec<u8>, kind: HeaderKind, count: usize) -> Result<OpenContainer, Error>
    ensures opened { (form : Form) (ts : List Tree) (t : Tree) → Make kind count ts t
        → MatchResult result (λ at. IsOpen form out.old.items out.new.items at ts t)
        (IsOutOfMemory or TooLarge when ExceedsLimits form t) }
    ensures size { IfOk result (λ at. (at.start ≡ length out.old.items)
        × (length out.new.items ≡ length out.old.items + head_size kind count)) }
    ensures few { count < 2 ^ 29 → IfErr result IsOutOfMemory }
    ensures errors { IfErr result (IsOutOfMemory or TooLarge) }
{
    if count > MAX_ENTRIES {
        return Err(Error::TooLarge);
    }
    let entries = match kind {
        HeaderKind::Object => 2 * count,
        _ => count,
    };
    let start = out.len();
    out.extend_from_slice(&encode_header(kind, count))?;
    let word = out.len();
    out.resize(word + WORD * entries, 0)?;
    Ok(OpenContainer { start, word })
}

/// Returns the number of bytes of all runs, or `usize::MAX` if it overflows.
#[inline(always)]
fn runs_len(runs: &[Entries<'_>]) -> usize {
    let mut len: usize = 0;
    for run in runs {
        len = len.saturating_add(run.words.len() + run.contents.len());
    }
    len
}

/// Appends the words of all runs.
#[inline(always)]
fn push_words(out: &mut Vec<u8>, runs: &[Entries<'_>]) -> Result<(), AllocError>
    ensures { OnOk result (out.new.items ≡ out.old.items ++ words_of_runs runs.now) }
{
    for run in runs {
        out.extend_from_slice(run.words)?;
    }
    Ok(())
}

/// Appends the contents of all runs.
#[inline(always)]
fn push_contents(out: &mut Vec<u8>, runs: &[Entries<'_>]) -> Result<(), AllocError>
    ensures { OnOk result (out.new.items ≡ out.old.items ++ contents_of_runs runs.now) }
{
    for run in runs {
        out.extend_from_slice(run.contents)?;
    }
    Ok(())
}

/// Returns the container of `total` elements or pairs whose entries are all in runs, `front` before `back`. Their words
/// are written in place at once: no room is cleared first. Inlined with what it calls: a call takes 47 instructions
/// more, a tenth of those of a small document.
///
/// # Errors
///
/// `TooLarge` if `total` is above the format's limit; `OutOfMemory`.
///
/// # Cost
///
/// Two copies of memory for each run. Allocates once.
#[inline(always)]
pub fn container_of_runs(
    alloc: Global,
    kind: HeaderKind,
    total: usize,
    front: &[Entries<'_>],
    back: &[Entries<'_>],
) -> Result<Vec<u8>, Error>
    ensures container { (form : Form) (xs ys : List Tree) (t : Tree) → RunsHold form front.now xs
        → RunsHold form back.now ys → Make kind total (xs ++ ys) t
        → MatchResult result (λ made. Decodes form made.items t) (IsOutOfMemoryOrTooLarge form t) }
    ensures few { total < 2 ^ 29 → IfErr result IsOutOfMemory }
    ensures errors { IfErr result (IsOutOfMemory or TooLarge) }
{
    if total > MAX_ENTRIES {
        return Err(Error::TooLarge);
    }
    let capacity = runs_len(front)
        .saturating_add(runs_len(back))
        .saturating_add(WORD);
    let mut out = Vec::with_capacity(alloc, capacity)?;
    out.extend_from_slice(&encode_header(kind, total))?;
    push_words(&mut out, front)?;
    push_words(&mut out, back)?;
    push_contents(&mut out, front)?;
    push_contents(&mut out, back)?;
    Ok(out)
}
