//! Each document decodes, and round-trips.

mod calls;
mod damage;
mod entries;

use crate::documents::DOCUMENTS;
use jsonb_doc::Error;
use jsonb_keypath::parse_key_paths;
use jsonb_raw::RawJsonb;
use std::alloc::Global;
use std::fmt::Debug;
use std::process::Abort;

/// Fails with the row of a table, unless it is as expected.
fn expect<T: Debug + Copy>(rt: &impl Abort, is_so: Result<bool, Error>, row: T) {
    assert!(*rt; matches!(is_so, Ok(true)), "{row:?}: {is_so:?}");
}

/// The bytes of a document's digits.
fn bytes_of(alloc: Global, digits: &str) -> Result<Vec<u8>, Error> {
    let mut joined = String::new(alloc);
    for part in digits.split(' ') {
        joined.push_str(part)?;
    }
    hex::decode(alloc, joined).or(Err(Error::InvalidJsonb))
}

/// Whether the path of no steps gives the document back.
fn is_given_back(alloc: Global, bytes: &[u8]) -> Result<bool, Error> {
    let no_steps = parse_key_paths(alloc, b"{}")?;
    let found = RawJsonb::new(bytes).get_by_keypath(alloc, no_steps.paths.iter())?;
    Ok(match found {
        Some(document) => document.to_vec().as_slice() == bytes,
        None => false,
    })
}

/// Whether a document decodes, and the path of no steps returns it whole.
fn is_accepted(alloc: Global, digits: &str) -> Result<bool, Error> {
    let bytes = bytes_of(alloc, digits)?;
    jsonb_doc::check(&bytes)?;
    RawJsonb::new(&bytes).check()?;
    is_given_back(alloc, &bytes)
}

#[test]
fn each_document_is_accepted_and_given_back_whole(rt: HostRuntime) {
    for document in &DOCUMENTS {
        expect(
            &rt,
            is_accepted(rt.alloc(), document.digits),
            document.value,
        );
    }
}
