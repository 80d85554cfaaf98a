//! A document that is built of events, as a reader of another format does.

use jsonb::{DocumentBuilder, EventError, Item, TextEvent, document_from_events};
use std::alloc::Global;

/// Returns the object of a name, its tags, and a document.
pub fn entry(
    alloc: Global,
    name: &str,
    tags: &[&str],
    extra: &[u8],
) -> Result<Vec<u8>, EventError> {
    let mut builder = DocumentBuilder::new(alloc);
    builder.begin_object()?;
    add_members(&mut builder, name, tags, extra)?;
    builder.end()?;
    builder.finish()
}

/// Adds the members of an entry to the object that has begun.
fn add_members(
    builder: &mut DocumentBuilder,
    name: &str,
    tags: &[&str],
    extra: &[u8],
) -> Result<(), EventError> {
    builder.key("name")?;
    builder.value(&Item::String(name))?;
    builder.key("tags")?;
    builder.begin_array()?;
    for tag in tags {
        builder.value(&Item::String(tag))?;
    }
    builder.end()?;
    builder.key("extra")?;
    builder.document(extra)?;
    Ok(())
}

const TRUE: u8 = 2;

const KEY: u8 = 8;

const OBJECT: u8 = 10;

const END: u8 = 11;

/// Returns an event of this kind, of a key or a string with its number of bytes.
fn event(kind: u8, low: u64) -> TextEvent {
    TextEvent {
        kind,
        low,
        high: 0,
        scale: 0,
    }
}

/// Returns the object that says that all is well.
pub fn well(alloc: Global) -> Result<Vec<u8>, EventError> {
    let events = [
        event(OBJECT, 0),
        event(KEY, 2),
        event(TRUE, 0),
        event(END, 0),
    ];
    document_from_events(alloc, "ok", &events, false)
}

#[cfg(test)]
mod tests {
    use super::*;
    use crate::documents::expect;
    use jsonb::Error;

    /// `{"extra":null,"name":"a","tags":["b","c"]}`
    const ENTRY: &[u8] =
        b"\x40\0\0\x03\x10\0\0\x05\x10\0\0\x04\x10\0\0\x04\0\0\0\0\x10\0\0\x01\x50\0\0\x0eextranametagsa\x80\0\0\x02\x10\0\0\x01\x10\0\0\x01bc";

    const NULL: &[u8] = b"\x20\0\0\0\0\0\0\0";

    #[test]
    fn members_are_sorted(rt: HostRuntime) {
        let made = entry(rt.alloc(), "a", &["b", "c"], NULL);
        assert!(rt; matches!(&made, Ok(document) if document.as_slice() == ENTRY));
        let damaged = entry(rt.alloc(), "a", &[], b"");
        expect(
            &rt,
            damaged.err(),
            Some(EventError::Failed(Error::InvalidJsonb)),
        );
    }

    #[test]
    fn a_list_of_events(rt: HostRuntime) {
        let made = well(rt.alloc());
        let wanted: &[u8] = b"\x40\0\0\x01\x10\0\0\x02\x40\0\0\0ok";
        assert!(rt; matches!(&made, Ok(document) if document.as_slice() == wanted));
    }
}
