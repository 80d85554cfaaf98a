//! Untrusted documents and paths: checked first, with a status for each error.

use jsonb::{
    Error, JsonPath, LimitError, LimitedSelector, OwnedJsonb, RawJsonb, json_path_error_position,
    parse_json_path,
};
use std::alloc::Global;

/// The longest path that is accepted.
const LONGEST_PATH: usize = 1_000;

/// The depth of the deepest item that is accepted, below the 255 levels of a sortable key.
const DEEPEST_ITEM: usize = 100;

/// The most items that a path may list, and values that it may compare.
const MOST_ITEMS: u64 = 1_000_000;

/// Returns what a path selects from untrusted bytes.
pub fn selected(alloc: Global, path: &[u8], bytes: &[u8]) -> Result<Vec<OwnedJsonb>, LimitError> {
    if path.len() > LONGEST_PATH {
        return Err(LimitError::LimitExceeded);
    }
    let path = parse_json_path(alloc, path)?;
    let document = RawJsonb::new(bytes);
    document.check_depth(DEEPEST_ITEM)?;
    let mut selector = LimitedSelector::new(alloc, document, MOST_ITEMS)?;
    selector.select_values(&path)
}

/// What a path selects, in each form.
#[derive(Drop)]
pub struct Reply {
    pub first: Option<OwnedJsonb>,
    pub value: Option<OwnedJsonb>,
    pub array: OwnedJsonb,
    pub is_found: bool,
    pub truth: Option<bool>,
}

/// Returns what a path selects in strict mode.
pub fn make_reply(
    alloc: Global,
    path: &JsonPath<'_>,
    document: RawJsonb<'_>,
    limit: u64,
) -> Result<Reply, LimitError> {
    let mut selector = LimitedSelector::new_strict(alloc, document, limit)?;
    let first = selector.select_first(path)?;
    let value = selector.select_value(path)?;
    let array = selector.select_array(path)?;
    let is_found = selector.exists(path)?;
    let truth = selector.predicate_match(path)?;
    Ok(Reply {
        first,
        value,
        array,
        is_found,
        truth,
    })
}

/// Returns `true` if a path is within the limit, without evaluating it.
pub fn is_cheap(
    alloc: Global,
    path: &JsonPath<'_>,
    document: RawJsonb<'_>,
    limit: u64,
) -> Result<bool, Error> {
    let selector = LimitedSelector::new(alloc, document, limit)?;
    Ok(selector.most_items(path)? <= limit)
}

/// Returns what is wrong with a path, or `None`.
pub fn mistake(alloc: Global, path: &[u8]) -> Result<Option<String>, Error> {
    Ok(match json_path_error_position(alloc, path)? {
        Some(at) => Some(format!(in alloc; "not a JSON path: see byte {at}")?),
        None => None,
    })
}

/// Returns the HTTP status of an error.
pub fn status(refusal: LimitError) -> u16 {
    match refusal {
        LimitError::LimitExceeded => 413,
        LimitError::Failed(error) => error_status(error),
    }
}

fn error_status(error: Error) -> u16 {
    match error {
        Error::InvalidJsonb | Error::InvalidJsonPath | Error::InvalidKeyPath => 400,
        Error::TooLarge | Error::TooDeep => 413,
        Error::UnsupportedNumber | Error::Arithmetic(_) => 422,
        Error::OutOfMemory => 503,
        _ => 500,
    }
}

#[cfg(test)]
mod tests {
    use super::*;
    use crate::documents::expect;
    use jsonb::ArrayBuilder;

    #[test]
    fn refusals_have_names(rt: HostRuntime) {
        let alloc = rt.alloc();
        let fraction = b"\x20\0\0\0\x20\0\0\x09\x60\x3f\xf8\0\0\0\0\0\0".as_slice();
        let five = b"\x20\0\0\0\x20\0\0\x02\x50\x05".as_slice();
        for (path, bytes, wanted) in [
            (b"$".as_slice(), b"\x80\0\0".as_slice(), 400),
            (b"$[1,]".as_slice(), five, 400),
            (b"$".as_slice(), fraction, 422),
            (b"$ / 0".as_slice(), five, 422),
            (b"$ + 1".as_slice(), five, 200),
        ] {
            let answer = match selected(alloc, path, bytes) {
                Ok(_) => 200,
                Err(refusal) => status(refusal),
            };
            assert_eq!(rt; answer, wanted, "{path:?}");
        }
    }

    #[test]
    fn a_mistake_is_found(rt: HostRuntime) -> Result<(), Error> {
        let alloc = rt.alloc();
        expect(&rt, mistake(alloc, b"$.a[0]")?, None);
        let found = mistake(alloc, b"$.a?(@.b = 1)")?.expect(&rt, "no mistake");
        expect(&rt, found.as_str(), "not a JSON path: see byte 9");
        Ok(())
    }

    #[test]
    fn long_runs_are_refused(rt: HostRuntime) -> Result<(), Error> {
        let alloc = rt.alloc();
        let five = b"\x20\0\0\0\x20\0\0\x02\x50\x05".as_slice();
        let mut doubling = Vec::from_slice(alloc, b"$")?;
        for _ in 0..24 {
            doubling.extend_from_slice(b"[0,0]")?;
        }
        expect(
            &rt,
            selected(alloc, &doubling, five).err().map(status),
            Some(413),
        );
        Ok(())
    }

    #[test]
    fn replies_have_every_form(rt: HostRuntime) -> Result<(), LimitError> {
        let alloc = rt.alloc();
        let five = RawJsonb::new(b"\x20\0\0\0\x20\0\0\x02\x50\x05");
        let path = parse_json_path(alloc, b"$ == 5")?;
        assert!(rt; is_cheap(alloc, &path, five, 10)?);
        let reply = make_reply(alloc, &path, five, 10)?;
        expect(&rt, reply.truth, Some(true));
        assert!(rt; reply.is_found && reply.first.is_some() && reply.value.is_some());
        expect(&rt, reply.array.as_raw().array_length()?, Some(1));
        Ok(())
    }

    /// Returns the array of a document.
    fn array_of(alloc: Global, document: &[u8]) -> Result<Vec<u8>, Error> {
        let mut array = ArrayBuilder::new(alloc);
        array.push_document(document)?;
        array.build()
    }

    #[test]
    fn deep_documents_are_refused(rt: HostRuntime) -> Result<(), LimitError> {
        let alloc = rt.alloc();
        let mut document = ArrayBuilder::new(alloc).build()?;
        for _ in 0..DEEPEST_ITEM {
            document = array_of(alloc, &document)?;
        }
        expect(
            &rt,
            selected(alloc, b"$.**", &document)?.len(),
            DEEPEST_ITEM + 1,
        );
        let refused = selected(alloc, b"$.**", &array_of(alloc, &document)?);
        expect(&rt, refused.err().map(status), Some(413));
        Ok(())
    }
}
