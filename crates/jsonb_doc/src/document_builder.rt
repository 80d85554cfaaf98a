//! The builder of documents from events.

ghost use Rattle.std.specs.Prelude.{◌≡◌, List, IsTrue, IfErr, OnOk, OnErr, MatchOption, MatchResult, Err};
ghost use Rattle.jsonb_doc.specs.declared.pieces.Piece as pieces;
ghost use Rattle.jsonb_doc.specs.Tree.{Tree};
ghost use Rattle.jsonb_doc.specs.Payload.{Form};
ghost use Rattle.jsonb_doc.specs.Format.{Decodes};
ghost use Rattle.jsonb_doc.specs.Item.{StandsFor};
ghost use Rattle.jsonb_doc.specs.Answer.{IsOutOfMemory, IsDecodingError, ◌or◌};
ghost use Rattle.jsonb_doc.specs.AnyBytes.Items.{IsRootOf};
ghost use Rattle.jsonb_doc.specs.AnyBytes.Events.{IsEventError};
ghost use Rattle.jsonb_doc.specs.Events.{Level, State, no_events, next, array_begins, object_begins, key_is, value_is, ends, takes_value, whole, within};
ghost use Rattle.jsonb_doc.specs.DocumentBuilder.{Takes};
ghost use Rattle.jsonb_doc.specs.Representation.DocumentBuilder.{Holds, HoldsLevel};
ghost use Rattle.jsonb_doc.specs.declared.item.Item.{Item};
ghost use Rattle.jsonb_doc.specs.declared.error.Error.TheVariants.{OutOfMemory, TooLarge};
ghost use Rattle.jsonb_doc.specs.declared.event_error.EventError.TheVariants.{OutOfOrder, Failed};

use crate::builder_entry::BuilderEntry;
use crate::document_builder::closing::{Closed, close};
use crate::document_builder::frame::Frame;
use crate::encoding::{content_len, encode_item};
use crate::error::Error;
use crate::event_error::EventError;
use crate::item::Item;
use crate::layout::{EntryKind, MAX_CONTENT};
use crate::pieces::{Piece, joined_pieces};
use crate::reading::root_item;
use std::alloc::Global;
use std::collections::BTreeMap;
use std::mem::replace;

mod closing;
mod frame;

/// Builds a document from events: the begin and the end of each container, the keys of objects, and values.
///
/// One value is the root. In an object, each value comes after its key; members are sorted by key. After an error the
/// builder is as before the event, so the caller may go on. It allocates with the `alloc` of `new`.
///
/// # Errors
///
/// `OutOfOrder` if and only if the event cannot come next; otherwise `Failed` with an error of the event.
///
/// # Complexity
///
/// No call recurses, however deep the containers are. Each byte is copied twice: by its event, and by `finish`.
#[derive(Drop)]
pub struct DocumentBuilder {
    alloc: Global,
    pieces: Vec<Piece>,
    inner: Frame,
    around: Vec<Frame>,
}

impl DocumentBuilder {
    /// Creates a builder of a document, before its first event.
    ///
    /// # Complexity
    ///
    /// O(1). Does not allocate.
    ///
    /// # Examples
    ///
    /// ```rust crates/jsonb_examples/src/events.rt
    /// let mut builder = DocumentBuilder::new(alloc);
    /// builder.begin_object()?;
    /// ```
    pub fn new(alloc: Global) -> DocumentBuilder
        ensures { (form : Form) → Holds form result no_events }
    {
        DocumentBuilder {
            alloc,
            pieces: Vec::new(alloc),
            inner: Frame::Root(None),
            around: Vec::new(alloc),
        }
    }

    /// Begins an array. The events until its `end` are its elements.
    ///
    /// # Errors
    ///
    /// `OutOfOrder` if a value cannot come next; otherwise `Failed` with `OutOfMemory` if an allocation fails.
    ///
    /// # Complexity
    ///
    /// Amortized O(1). Allocates.
    ///
    /// # Examples
    ///
    /// ```rust crates/jsonb_examples/src/events.rt
    /// builder.key("tags")?;
    /// builder.begin_array()?;
    /// ```
    pub fn begin_array(&mut self) -> Result<(), EventError>
        ensures { (form : Form) (s : State) → Holds form self.old s
            → Takes form s (next array_begins s) result self.new }
    {
        self.begin(Frame::Array(Vec::new(self.alloc)))
    }

    /// Begins an object. The events until its `end` are its keys, each before its value.
    ///
    /// # Errors
    ///
    /// Those of `begin_array`.
    ///
    /// # Complexity
    ///
    /// Amortized O(1). Allocates.
    ///
    /// # Examples
    ///
    /// ```rust crates/jsonb_examples/src/events.rt
    /// let mut builder = DocumentBuilder::new(alloc);
    /// builder.begin_object()?;
    /// ```
    pub fn begin_object(&mut self) -> Result<(), EventError>
        ensures { (form : Form) (s : State) → Holds form self.old s
            → Takes form s (next object_begins s) result self.new }
    {
        self.begin(Frame::Object(BTreeMap::new(self.alloc), None))
    }

    /// Begins the container of an empty frame.
    fn begin(&mut self, frame: Frame) -> Result<(), EventError>
        ensures { (form : Form) (s : State) (level : Level) → Holds form self.old s
            → ((ps : List pieces.Piece) → HoldsLevel form ps frame level)
            → Takes form s (within level s) result self.new }
    {
        if !self.inner.takes_value() {
            return Err(EventError::OutOfOrder);
        }
        self.around.reserve(1)?;
        let outer = replace(&mut self.inner, frame);
        self.around.push_reserved(outer);
        Ok(())
    }

    /// Names the next value of an object.
    ///
    /// # Errors
    ///
    /// `OutOfOrder` if the innermost container is not an object, or a key already waits for its value; otherwise
    /// `Failed` with `ObjectDuplicateKey` if and only if the object has the key, or with `OutOfMemory` if an allocation
    /// fails.
    ///
    /// # Complexity
    ///
    /// O(n) for a key of n bytes, which are copied, and O(log k) comparisons of keys, for k members. Allocates.
    ///
    /// # Examples
    ///
    /// ```rust crates/jsonb_examples/src/events.rt
    /// builder.key("name")?;
    /// builder.value(&Item::String(name))?;
    /// ```
    pub fn key(&mut self, name: &str) -> Result<(), EventError>
        ensures { (form : Form) (s : State) → Holds form self.old s
            → Takes form s (next (key_is name.now) s) result self.new }
    {
        let Frame::Object(members, key) = &mut self.inner else {
            return Err(EventError::OutOfOrder);
        };
        if key.is_some() {
            return Err(EventError::OutOfOrder);
        }
        if members.contains_key(name) {
            return Err(EventError::Failed(Error::ObjectDuplicateKey));
        }
        *key = Some(String::from_str(self.alloc, name)?);
        Ok(())
    }

    /// Adds a value: an item, or a container that is built already.
    ///
    /// # Errors
    ///
    /// `OutOfOrder` if a value cannot come next; otherwise `Failed` with `TooLarge` if its content has 2^28 bytes or
    /// more, unless it is a container at the root, or with `OutOfMemory` if an allocation fails.
    ///
    /// # Complexity
    ///
    /// Amortized O(n) for an item of n bytes, which are copied; in an object also O(log k) comparisons of keys, for k
    /// members. Allocates.
    ///
    /// # Examples
    ///
    /// ```rust crates/jsonb_examples/src/events.rt
    /// builder.key("name")?;
    /// builder.value(&Item::String(name))?;
    /// ```
    pub fn value(&mut self, item: &Item<'_>) -> Result<(), EventError>
        ensures takes { (form : Form) (s : State) (t : Tree) → Holds form self.old s → StandsFor form item.now t
            → Takes form s (next (value_is t) s) result self.new }
        ensures kept { (form : Form) (s : State) → Holds form self.old s → OnErr result (Holds form self.new s) }
        ensures order { (form : Form) (s : State) → Holds form self.old s → OnOk result (IsTrue (takes_value s.inner)) }
        ensures errors { IfErr result (IsEventError (IsOutOfMemory or TooLarge)) }
    {
        if !self.inner.takes_value() {
            return Err(EventError::OutOfOrder);
        }
        let rest = Vec::new(self.alloc);
        let index = self.pieces.len();
        if let Frame::Root(_) = self.inner {
            let head = encode_item(self.alloc, item)?;
            self.pieces.push(Piece { head, rest })?;
            self.inner = Frame::Root(Some(index));
            return Ok(());
        }
        if content_len(item) > MAX_CONTENT {
            return Err(EventError::Failed(Error::TooLarge));
        }
        let BuilderEntry {
            kind,
            content: head,
        } = BuilderEntry::new(self.alloc, item)?;
        let len = head.len();
        self.pieces.push(Piece { head, rest })?;
        self.inner.fill(kind, index, len)
    }

    /// Adds the root of a document as a value. A scalar is written in its shortest form.
    ///
    /// # Errors
    ///
    /// `Failed` with `InvalidJsonb` or `UnsupportedNumber`, only if the bytes do not decode; otherwise an error of
    /// `value`.
    ///
    /// # Complexity
    ///
    /// That of `value`.
    ///
    /// # Examples
    ///
    /// ```rust crates/jsonb_examples/src/events.rt
    /// builder.key("extra")?;
    /// builder.document(extra)?;
    /// ```
    pub fn document(&mut self, bytes: &[u8]) -> Result<(), EventError>
        ensures takes { (form : Form) (s : State) (t : Tree) → Holds form self.old s → Decodes form bytes.now t
            → Takes form s (next (value_is t) s) result self.new }
        ensures kept { (form : Form) (s : State) → Holds form self.old s → OnErr result (Holds form self.new s) }
        ensures reads { OnOk result ((root : Item) × IsRootOf bytes.now root) }
        ensures order { (form : Form) (s : State) → Holds form self.old s → OnOk result (IsTrue (takes_value s.inner)) }
        ensures errors { IfErr result (IsEventError (IsDecodingError or OutOfMemory or TooLarge)) }
    {
        let item = root_item(bytes)?;
        self.value(&item)
    }

    /// Ends the innermost container. It is then a value of the one around it, or the document.
    ///
    /// # Errors
    ///
    /// `OutOfOrder` if no container is open or a key waits for its value; otherwise `Failed` with `TooLarge` if the
    /// container has more than 2^29 - 1 elements or members, a key of 2^28 bytes or more, or, unless it is the root,
    /// 2^28 bytes or more, or with `OutOfMemory` if an allocation fails.
    ///
    /// # Complexity
    ///
    /// O(k) for k elements, or for k members with their keys. Allocates.
    ///
    /// # Examples
    ///
    /// ```rust crates/jsonb_examples/src/events.rt
    /// builder.end()?;
    /// builder.finish()
    /// ```
    pub fn end(&mut self) -> Result<(), EventError>
        ensures { (form : Form) (s : State) → Holds form self.old s → Takes form s (next ends s) result self.new }
    {
        if self.around.is_empty() {
            return Err(EventError::OutOfOrder);
        }
        let Closed { piece, len } = close(self.alloc, &self.inner)?;
        let index = self.pieces.len();
        self.pieces.push(piece)?;
        let Some(mut outer) = self.around.pop() else {
            return Err(EventError::OutOfOrder);
        };
        if let Err(error) = outer.fill(EntryKind::Container, index, len) {
            self.around.push_reserved(outer);
            return Err(error);
        }
        self.inner = outer;
        Ok(())
    }

    /// Returns the document. The builder keeps it.
    ///
    /// # Errors
    ///
    /// `OutOfOrder` if and only if the root is not complete; otherwise `Failed` with `OutOfMemory` if an allocation
    /// fails.
    ///
    /// # Complexity
    ///
    /// O(n) for a document of n bytes. Allocates.
    ///
    /// # Examples
    ///
    /// ```rust crates/jsonb_examples/src/events.rt
    /// builder.end()?;
    /// builder.finish()
    /// ```
    pub fn finish(&self) -> Result<Vec<u8>, EventError>
        ensures { (form : Form) (s : State) → Holds form self.now s
            → MatchOption (whole s.inner) (result ≡ Err OutOfOrder)
            (λ t. MatchResult result (λ v. Decodes form v.items t) (λ e. e ≡ Failed OutOfMemory)) }
    {
        let Frame::Root(Some(root)) = &self.inner else {
            return Err(EventError::OutOfOrder);
        };
        Ok(joined_pieces(self.alloc, &self.pieces, *root)?)
    }
}

#[cfg(test)]
mod tests;
