//! Events for a builder that a handle keeps.

ghost use Rattle.std.specs.Prelude.{◌≡◌, IsErr, MatchResult, None, OnErr, Some};
ghost use Rattle.jsonb_doc.specs.Answer.{IsOutOfMemory};
ghost use Rattle.jsonb_doc.specs.DocumentBuilder.{Takes};
ghost use Rattle.jsonb_doc.specs.Representation.DocumentBuilder.{Holds};
ghost use Rattle.jsonb_doc.specs.Events as spec;
ghost use Rattle.jsonb_doc.specs.Events.{State, next};
ghost use Rattle.jsonb_doc.specs.Payload.{Form};
ghost use Rattle.jsonb_c.specs.Builders.{Finishes, Follows, event_status};
ghost use Rattle.jsonb_c.specs.Private.Events.{IsEvent, IsKeptOrNew, KeepsState};
ghost use Rattle.jsonb_c.specs.Status.{code};
ghost use Rattle.jsonb_c.specs.declared.status.Status.TheVariants.{Answered};

use crate::deliver::{deliver_bytes, deliver_nothing};
use crate::prepared::{PathHandle, PreparedPath};
use crate::status::Status;
use jsonb::{DocumentBuilder, Error, EventError, Item};
use std::alloc::Global;

/// An event.
#[derive(Clone, Copy)]
pub(crate) enum Event<'a> {
    /// The begin of an array.
    BeginArray,
    /// The begin of an object.
    BeginObject,
    /// A key.
    Key(&'a str),
    /// A value.
    Value(Item<'a>),
    /// A value, as a document.
    Document(&'a [u8]),
    /// The end of a container.
    End,
}

/// Passes an event to the builder that the handle keeps, or to a new one. Returns the status.
pub(crate) fn add(alloc: Global, builder: &mut PathHandle, event: &Event<'_>) -> u32
    ensures follows { (form : Form) (e : spec.Event) → IsEvent form event.now e
        → Follows form e builder.old.value builder.new.value result }
    ensures kept { KeepsState builder.old.value result builder.new.value }
{
    let mut kept = match kept_or_new(alloc, builder) {
        Ok(kept) => kept,
        Err(error) => return Status::Refused(error).to_u32(),
    };
    let status = add_to(&mut kept, event);
    builder.put(kept);
    status
}

/// Takes out what the handle keeps, or creates a builder if it keeps nothing.
fn kept_or_new(alloc: Global, builder: &mut PathHandle) -> Result<Box<PreparedPath>, Error>
    ensures kept { MatchResult result (λ kept. IsKeptOrNew builder.old.value kept.value) IsOutOfMemory }
    ensures left { builder.new.value ≡ None }
    ensures empty { IsErr result → builder.old.value ≡ None }
{
    match builder.take(alloc) {
        Some(kept) => Ok(kept),
        None => Ok(Box::new(alloc, PreparedPath::Events(DocumentBuilder::new(alloc)))?),
    }
}

/// Passes an event to a builder. Returns the status.
fn add_to(kept: &mut PreparedPath, event: &Event<'_>) -> u32
    ensures follows { (form : Form) (e : spec.Event) → IsEvent form event.now e
        → Follows form e (Some kept.old) (Some kept.new) result }
    ensures kept { KeepsState (Some kept.old) result (Some kept.new) }
{
    match kept {
        PreparedPath::Events(builder) => status_of_event(pass(builder, event)),
        PreparedPath::Json(_) | PreparedPath::Keys(_) | PreparedPath::Items(_) => {
            Status::NoPath.to_u32()
        }
    }
}

fn pass(builder: &mut DocumentBuilder, event: &Event<'_>) -> Result<(), EventError>
    ensures takes { (form : Form) (s : State) (e : spec.Event) → Holds form builder.old s → IsEvent form event.now e
        → Takes form s (next e s) result builder.new }
    ensures kept { (form : Form) (s : State) → Holds form builder.old s → OnErr result (Holds form builder.new s) }
{
    match event {
        Event::BeginArray => builder.begin_array(),
        Event::BeginObject => builder.begin_object(),
        Event::Key(name) => builder.key(name),
        Event::Value(item) => builder.value(item),
        Event::Document(bytes) => builder.document(bytes),
        Event::End => builder.end(),
    }
}

/// Returns the status of an event.
fn status_of_event(taken: Result<(), EventError>) -> u32
    ensures { MatchResult taken (λ _. result ≡ code Answered) (λ e. result ≡ event_status e) }
{
    match taken {
        Ok(()) => Status::Answered.to_u32(),
        Err(error) => cause_of(error).to_u32(),
    }
}

/// Returns the cause of an event's error.
pub(crate) fn cause_of(error: EventError) -> Status
    ensures { code result ≡ event_status error }
{
    match error {
        EventError::OutOfOrder => Status::OutOfOrder,
        EventError::Failed(error) => Status::Refused(error),
    }
}

/// Stores the document of the events.
pub(crate) fn deliver_document(kept: &PreparedPath, out: &mut [u8], out_len: &mut usize) -> u32
    ensures { Finishes (Some kept.now) out.old out.new out_len.new result }
{
    let PreparedPath::Events(builder) = kept else {
        return deliver_nothing(Status::NoPath, out_len);
    };
    match builder.finish() {
        Ok(document) => deliver_bytes(&document, out, out_len),
        Err(error) => deliver_nothing(cause_of(error), out_len),
    }
}
