//! The builder of documents from events: after an event it has one more value or is as before; `finish`. The document of a
//! list of events.

use crate::documents::*;
use crate::mark::tell;
use jsonb::{DocumentBuilder, Error, EventError, Item, Number, TextEvent, document_from_events};

/// `[10,20]`
const TEN_AND_TWENTY: &[u8] = b"\x80\x00\x00\x02 \x00\x00\x02 \x00\x00\x02P\x0aP\x14";

/// `[10,20,[]]`
const AND_ARRAY: &[u8] =
    b"\x80\x00\x00\x03 \x00\x00\x02 \x00\x00\x02P\x00\x00\x04P\x0aP\x14\x80\x00\x00\x00";

/// `[10,20,{}]`
const AND_OBJECT: &[u8] =
    b"\x80\x00\x00\x03 \x00\x00\x02 \x00\x00\x02P\x00\x00\x04P\x0aP\x14\x40\x00\x00\x00";

/// `[[10,20]]`
const WITHIN: &[u8] =
    b"\x80\x00\x00\x01P\x00\x00\x10\x80\x00\x00\x02 \x00\x00\x02 \x00\x00\x02P\x0aP\x14";

/// What a builder has when an event comes.
#[derive(Clone, Copy)]
enum Start {
    Nothing,
    /// `[10,20`
    TenAndTwenty,
    /// `[[10,20`
    Within,
    /// `{"a":1,"c":3`
    Letters,
    /// `{"a":1,"c":3,"b":`
    LettersAndKey,
}

impl Start {
    fn on(self, builder: &mut DocumentBuilder) -> Result<(), EventError> {
        match self {
            Start::Nothing => Ok(()),
            Start::TenAndTwenty => push_ten_and_twenty(builder),
            Start::Within => {
                builder.begin_array()?;
                push_ten_and_twenty(builder)
            }
            Start::Letters => push_letters(builder),
            Start::LettersAndKey => {
                push_letters(builder)?;
                builder.key("b")
            }
        }
    }
}

fn push_ten_and_twenty(builder: &mut DocumentBuilder) -> Result<(), EventError> {
    builder.begin_array()?;
    builder.document(TEN)?;
    builder.document(TWENTY)
}

fn push_letters(builder: &mut DocumentBuilder) -> Result<(), EventError> {
    builder.begin_object()?;
    push_pair(builder, "c", THREE)?;
    push_pair(builder, "a", ONE)
}

fn push_pair(builder: &mut DocumentBuilder, key: &str, value: &[u8]) -> Result<(), EventError> {
    builder.key(key)?;
    builder.document(value)
}

/// An event, or one that fails because its key is there.
#[derive(Clone, Copy)]
enum Event {
    BeginArray,
    BeginObject,
    Key,
    KeyAgain,
    Value(u64),
    Thirty,
    End,
}

impl Event {
    fn on(self, builder: &mut DocumentBuilder) -> Result<(), EventError> {
        match self {
            Event::BeginArray => builder.begin_array(),
            Event::BeginObject => builder.begin_object(),
            Event::Key => builder.key("b"),
            Event::KeyAgain => refused_again(builder.key("a")),
            Event::Value(number) => builder.value(&Item::Number(Number::UInt64(number))),
            Event::Thirty => builder.document(THIRTY),
            Event::End => builder.end(),
        }
    }
}

/// The key is found before anything is copied.
fn refused_again(named: Result<(), EventError>) -> Result<(), EventError> {
    match named {
        Err(EventError::Failed(Error::ObjectDuplicateKey)) => Ok(()),
        _ => Err(EventError::OutOfOrder),
    }
}

/// A case: its name, what the builder has, the event, and the document with it. Then the one without it, or `None` if
/// the event is made again after a failure.
type Case = (
    &'static str,
    Start,
    Event,
    &'static [u8],
    Option<&'static [u8]>,
);

static CASES: [Case; 10] = rows! {
    "DocumentBuilder::begin_array", Start::TenAndTwenty, Event::BeginArray, AND_ARRAY, Some(TEN_AND_TWENTY);
    "DocumentBuilder::begin_object", Start::TenAndTwenty, Event::BeginObject, AND_OBJECT, Some(TEN_AND_TWENTY);
    "DocumentBuilder::key", Start::Letters, Event::Key, MORE_LETTERS, Some(LETTERS);
    "DocumentBuilder::key that is there", Start::Letters, Event::KeyAgain, LETTERS, Some(LETTERS);
    "DocumentBuilder::value", Start::TenAndTwenty, Event::Value(30), TENS, Some(TEN_AND_TWENTY);
    "DocumentBuilder::value of a key", Start::LettersAndKey, Event::Value(9), MORE_LETTERS, None;
    "DocumentBuilder::value at the root", Start::Nothing, Event::Value(10), TEN, None;
    "DocumentBuilder::document", Start::TenAndTwenty, Event::Thirty, TENS, Some(TEN_AND_TWENTY);
    "DocumentBuilder::end of an array", Start::Within, Event::End, WITHIN, None;
    "DocumentBuilder::end of an object", Start::Letters, Event::End, LETTERS, None;
};

/// Runs each case, and reports its result.
pub fn events(rt: &HostRuntime) {
    told(rt, "DocumentBuilder::new", new(rt));
    for case in &CASES {
        told(rt, case.0, ask(rt, case));
    }
    told(rt, "DocumentBuilder::finish", finish(rt));
    told(rt, "document_from_events", list(rt));
    told(rt, "document_from_events of nested arrays", nested_list(rt));
}

/// Reports a case. An event that cannot come next is wrong.
fn told(rt: &HostRuntime, name: &str, is_right: Result<bool, EventError>) {
    let is_right = match is_right {
        Ok(is_right) => Ok(is_right),
        Err(EventError::Failed(error)) => Err(error),
        Err(EventError::OutOfOrder) => Ok(false),
    };
    tell(rt, name, is_right);
}

fn ask(rt: &HostRuntime, case: &Case) -> Result<bool, EventError> {
    let mut builder = DocumentBuilder::new(rt.alloc());
    ask_builder(rt, &mut builder, case)
}

/// Makes an event between the marks. Returns `true` if the document is as the case says.
fn ask_builder(
    rt: &HostRuntime,
    builder: &mut DocumentBuilder,
    case: &Case,
) -> Result<bool, EventError> {
    let (_, start, event, with, without) = *case;
    start.on(builder)?;
    let made = marked!(rt, event.on(builder));
    if made.is_ok() {
        return has_with(builder, event, with);
    }
    match without {
        Some(without) => {
            if has(builder, without)? {
                made?;
            }
        }
        None => {
            event.on(builder)?;
            if has(builder, with)? {
                made?;
            }
        }
    }
    Ok(false)
}

/// Adds the value of a key, and returns `true` if the builder has this document.
fn has_with(builder: &mut DocumentBuilder, event: Event, with: &[u8]) -> Result<bool, EventError> {
    if matches!(event, Event::Key) {
        builder.document(NINE)?;
    }
    has(builder, with)
}

/// Ends up to two open containers, and returns `true` if the builder has this document.
fn has(builder: &mut DocumentBuilder, wanted: &[u8]) -> Result<bool, EventError> {
    let _ = builder.end();
    let _ = builder.end();
    is(builder.finish(), wanted)
}

/// Returns `true` if this is the document that was built.
fn is(built: Result<Vec<u8>, EventError>, wanted: &[u8]) -> Result<bool, EventError> {
    Ok(built?.as_slice() == wanted)
}

fn new(rt: &HostRuntime) -> Result<bool, EventError> {
    let builder = marked!(rt, DocumentBuilder::new(rt.alloc()));
    Ok(matches!(builder.finish(), Err(EventError::OutOfOrder)))
}

fn finish(rt: &HostRuntime) -> Result<bool, EventError> {
    let mut builder = DocumentBuilder::new(rt.alloc());
    finish_builder(rt, &mut builder)
}

/// The builder keeps the document.
fn finish_builder(rt: &HostRuntime, builder: &mut DocumentBuilder) -> Result<bool, EventError> {
    push_ten_and_twenty(builder)?;
    builder.end()?;
    let is_built = is(marked!(rt, builder.finish()), TEN_AND_TWENTY);
    Ok(is(builder.finish(), TEN_AND_TWENTY)? && is_built?)
}

/// A list of events: of each its kind, and a length or a natural number.
macro_rules! listed {
    ($($kind:literal $low:literal),+) => {
        [$(TextEvent { low: $low, high: 0, kind: $kind, scale: 0 }),+]
    };
}

/// An object, whose members are to be sorted.
static MEMBERS: [TextEvent; 6] = listed! { 10 0, 8 1, 4 3, 8 1, 4 1, 11 0 };

static NESTED_ARRAYS: [TextEvent; 6] = listed! { 9 0, 9 0, 4 10, 4 20, 11 0, 11 0 };

fn list(rt: &HostRuntime) -> Result<bool, EventError> {
    let document = marked!(rt, document_from_events(rt.alloc(), "ca", &MEMBERS, false));
    is(document, LETTERS)
}

fn nested_list(rt: &HostRuntime) -> Result<bool, EventError> {
    let document = marked!(
        rt,
        document_from_events(rt.alloc(), "", &NESTED_ARRAYS, false)
    );
    is(document, WITHIN)
}
