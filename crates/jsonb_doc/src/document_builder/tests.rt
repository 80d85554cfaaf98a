//! Events, and the documents that they build.

use super::DocumentBuilder;
use crate::error::Error;
use crate::event_error::EventError;
use crate::extension::{Date, ExtensionValue};
use crate::item::Item;
use crate::number::{Decimal64, Number};
use crate::reading::tests::expect;
use std::alloc::Global;

/// An event.
enum Event {
    BeginArray,
    BeginObject,
    Key(&'static str),
    Value(Item<'static>),
    Document(&'static [u8]),
    End,
}

/// An event, and its result.
type Row = (Event, Result<(), EventError>);

const OUT_OF_ORDER: Result<(), EventError> = Err(EventError::OutOfOrder);

const TEN: Item<'static> = Item::Number(Number::UInt64(10));

const PRICE: Item<'static> = Item::Number(Number::Decimal64(Decimal64 {
    scale: 2,
    value: 1234,
}));

const DAY: Item<'static> = Item::Extension(ExtensionValue::Date(Date { value: 1 }));

/// Documents: the events of each, and its bytes, or nothing if it is not complete.
static DOCUMENTS: [(&[Row], Option<&[u8]>); 10] = rows! {
    &[], None;
    &[(Event::BeginArray, Ok(()))], None;
    &rows! {
        Event::BeginArray, Ok(());
        Event::End, Ok(());
    }, Some(b"\x80\0\0\0");
    &[(Event::Value(PRICE), Ok(()))], Some(b"\x20\0\0\0\x20\0\0\x0a\x70\0\0\0\0\0\0\x04\xd2\x02");
    &[(Event::Document(b"\x20\0\0\0\x60\0\0\x05\x10\0\0\0\x01"), Ok(()))],
        Some(b"\x20\0\0\0\x60\0\0\x05\x10\0\0\0\x01");
    &[(Event::Value(DAY), Ok(()))], Some(b"\x20\0\0\0\x60\0\0\x05\x10\0\0\0\x01");
    // [false,10,{"k":"v"}], the object from events and as a document
    &rows! {
        Event::BeginArray, Ok(());
        Event::Value(Item::Boolean(false)), Ok(());
        Event::Value(TEN), Ok(());
        Event::BeginObject, Ok(());
        Event::Key("k"), Ok(());
        Event::Value(Item::String("v")), Ok(());
        Event::End, Ok(());
        Event::End, Ok(());
    }, Some(b"\x80\0\0\x03\x30\0\0\0\x20\0\0\x02\x50\0\0\x0e\x50\x0a\x40\0\0\x01\x10\0\0\x01\x10\0\0\x01kv");
    &rows! {
        Event::BeginArray, Ok(());
        Event::Value(Item::Boolean(false)), Ok(());
        Event::Document(b"\x20\0\0\0\x20\0\0\x02\x50\x0a"), Ok(());
        Event::Document(b"\x40\0\0\x01\x10\0\0\x01\x10\0\0\x01kv"), Ok(());
        Event::End, Ok(());
    }, Some(b"\x80\0\0\x03\x30\0\0\0\x20\0\0\x02\x50\0\0\x0e\x50\x0a\x40\0\0\x01\x10\0\0\x01\x10\0\0\x01kv");
    // {"number":3720453,"type":"home"}, the later key first; a rejected event changes nothing
    &rows! {
        Event::End, OUT_OF_ORDER;
        Event::Key("type"), OUT_OF_ORDER;
        Event::BeginObject, Ok(());
        Event::BeginArray, OUT_OF_ORDER;
        Event::Value(Item::Null), OUT_OF_ORDER;
        Event::Key("type"), Ok(());
        Event::Key("number"), OUT_OF_ORDER;
        Event::End, OUT_OF_ORDER;
        Event::Document(b"\x80\0\0"), Err(EventError::Failed(Error::InvalidJsonb));
        Event::Value(Item::String("home")), Ok(());
        Event::Key("type"), Err(EventError::Failed(Error::ObjectDuplicateKey));
        Event::Key("number"), Ok(());
        Event::Value(Item::Number(Number::UInt64(3_720_453))), Ok(());
        Event::End, Ok(());
        Event::End, OUT_OF_ORDER;
        Event::BeginObject, OUT_OF_ORDER;
    }, Some(b"\x40\0\0\x02\x10\0\0\x06\x10\0\0\x04\x20\0\0\x05\x10\0\0\x04numbertype\x50\x00\x38\xc5\x05home");
    // [[[]],10]
    &rows! {
        Event::BeginArray, Ok(());
        Event::BeginArray, Ok(());
        Event::BeginArray, Ok(());
        Event::Key("k"), OUT_OF_ORDER;
        Event::End, Ok(());
        Event::End, Ok(());
        Event::Value(TEN), Ok(());
        Event::End, Ok(());
    }, Some(b"\x80\0\0\x02\x50\0\0\x0c\x20\0\0\x02\x80\0\0\x01\x50\0\0\x04\x80\0\0\0\x50\x0a");
};

fn take(builder: &mut DocumentBuilder, event: &Event) -> Result<(), EventError> {
    match event {
        Event::BeginArray => builder.begin_array(),
        Event::BeginObject => builder.begin_object(),
        Event::Key(name) => builder.key(name),
        Event::Value(item) => builder.value(item),
        Event::Document(document) => builder.document(document),
        Event::End => builder.end(),
    }
}

/// Returns `true` if the events have these results.
fn take_all(builder: &mut DocumentBuilder, events: &[Row]) -> bool {
    let mut is_so = true;
    for (event, result) in events {
        is_so = take(builder, event) == *result && is_so;
    }
    is_so
}

/// Returns `true` if the document is this, or is not complete.
fn finishes(builder: DocumentBuilder, wanted: Option<&[u8]>) -> bool {
    match builder.finish() {
        Ok(document) => wanted == Some(document.as_slice()),
        Err(error) => wanted.is_none() && error == EventError::OutOfOrder,
    }
}

/// Returns `true` if the events have these results, and then the document is this, or is not complete.
fn builds(alloc: Global, events: &[Row], wanted: Option<&[u8]>) -> bool {
    let mut builder = DocumentBuilder::new(alloc);
    take_all(&mut builder, events) && finishes(builder, wanted)
}

#[test]
fn builds_documents_of_events(rt: HostRuntime) {
    for (events, document) in &DOCUMENTS {
        expect(&rt, builds(rt.alloc(), events, *document), *document);
    }
}

fn begin_arrays(builder: &mut DocumentBuilder, count: usize) -> Result<(), EventError> {
    for _ in 0..count {
        builder.begin_array()?;
    }
    Ok(())
}

fn end_arrays(builder: &mut DocumentBuilder, count: usize) -> Result<(), EventError> {
    for _ in 0..count {
        builder.end()?;
    }
    Ok(())
}

/// Returns the length of the document of this many arrays, each within another.
fn nested_len(alloc: Global, depth: usize) -> Result<usize, EventError> {
    let mut builder = DocumentBuilder::new(alloc);
    begin_arrays(&mut builder, depth)?;
    end_arrays(&mut builder, depth)?;
    Ok(builder.finish()?.len())
}

#[test]
fn builds_deep_documents(rt: HostRuntime) {
    let len = nested_len(rt.alloc(), 10_000);
    assert!(rt; matches!(len, Ok(79_996)));
}
