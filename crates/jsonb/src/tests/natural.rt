//! Paths and selectors as a user writes them first: parsed here, kept in structs, run on many documents.

use super::expect;
use crate::{Error, JsonPath, OwnedJsonb, RawJsonb, SelectByPath, Selector, parse_json_path};
use std::alloc::Global;

/// `[10,20,30]`
const TENS: &[u8] = b"\x80\0\0\x03\x20\0\0\x02\x20\0\0\x02\x20\0\0\x02\x50\x0a\x50\x14\x50\x1e";

/// `[1]`
const ONE: &[u8] = b"\x80\0\0\x01\x20\0\0\x02\x50\x01";

/// Returns the first item of a path that is parsed here.
fn first(alloc: Global, document: &[u8], text: &[u8]) -> Result<Option<OwnedJsonb>, Error> {
    let path = parse_json_path(alloc, text)?;
    let mut selector = Selector::new(alloc, RawJsonb::new(document));
    selector.select_first(&path)
}

/// Returns `true` if both paths select an item: one selector, two paths in two locals.
fn have_both(alloc: Global, document: &[u8], one: &[u8], other: &[u8]) -> Result<bool, Error> {
    let one = parse_json_path(alloc, one)?;
    let other = parse_json_path(alloc, other)?;
    let mut selector = Selector::new(alloc, RawJsonb::new(document));
    let has_one = selector.exists(&one)?;
    let has_other = selector.exists(&other)?;
    Ok(has_one && has_other)
}

/// Returns the number of documents of which the path selects an item.
fn count(alloc: Global, documents: &[&[u8]], text: &[u8]) -> Result<usize, Error> {
    let path = parse_json_path(alloc, text)?;
    let mut found: usize = 0;
    for document in documents {
        if RawJsonb::new(document).path_exists(alloc, &path)? {
            found = found.saturating_add(1);
        }
    }
    Ok(found)
}

/// A rule that keeps its path, which borrows from the text.
#[derive(Drop)]
struct Rule<'a> {
    path: JsonPath<'a>,
}

impl<'a> Rule<'a> {
    fn new(alloc: Global, text: &'a [u8]) -> Result<Rule<'a>, Error> {
        let path = parse_json_path(alloc, text)?;
        Ok(Rule { path })
    }

    fn is_met(&self, alloc: Global, document: &[u8]) -> Result<Option<bool>, Error> {
        Selector::new(alloc, RawJsonb::new(document)).predicate_match(&self.path)
    }
}

/// A rule that outlives the text that it was read from.
#[derive(Drop)]
struct OwnedRule {
    path: JsonPath<'static>,
}

impl OwnedRule {
    fn new(alloc: Global, text: &[u8]) -> Result<OwnedRule, Error> {
        let path = parse_json_path(alloc, text)?.to_owned(alloc)?;
        Ok(OwnedRule { path })
    }

    fn is_met(&self, alloc: Global, document: &[u8]) -> Result<Option<bool>, Error> {
        Selector::new(alloc, RawJsonb::new(document)).predicate_match(&self.path)
    }
}

/// A document that keeps its selector and takes the text of paths.
#[derive(Drop)]
struct Asked<'a> {
    selector: Selector<'a>,
}

impl<'a> Asked<'a> {
    fn has(&mut self, alloc: Global, text: &[u8]) -> Result<bool, Error> {
        let path = parse_json_path(alloc, text)?;
        self.selector.exists(&path)
    }
}

#[test]
fn paths_are_parsed_where_they_are_used(rt: HostRuntime) -> Result<(), Error> {
    let found = first(rt.alloc(), TENS, b"$[1]")?.ok_or(Error::InvalidJsonPath)?;
    let is_so = found.as_raw().as_bytes() == b"\x20\0\0\0\x20\0\0\x02\x50\x14".as_slice();
    assert!(rt; is_so);
    for (document, wanted) in [(TENS, true), (ONE, false)] {
        let found = have_both(rt.alloc(), document, b"$[0]", b"$[2]");
        expect(&rt, Ok(found == Ok(wanted)), document);
    }
    Ok(())
}

#[test]
fn a_path_is_run_on_many_documents(rt: HostRuntime) {
    let documents = [TENS, ONE];
    for (path, wanted) in [("$[2]", 1), ("$[0]", 2)] {
        let found = count(rt.alloc(), &documents, path.as_bytes());
        expect(&rt, Ok(found == Ok(wanted)), path);
    }
}

#[test]
fn structs_keep_paths(rt: HostRuntime) -> Result<(), Error> {
    let rule = Rule::new(rt.alloc(), b"$[*] > 25")?;
    let owned = OwnedRule::new(rt.alloc(), b"$[*] > 25")?;
    for (document, wanted) in [(TENS, Some(true)), (ONE, Some(false))] {
        let found = rule.is_met(rt.alloc(), document);
        expect(&rt, Ok(found == Ok(wanted)), document);
        let found = owned.is_met(rt.alloc(), document);
        expect(&rt, Ok(found == Ok(wanted)), ("by its own path", document));
    }
    Ok(())
}

#[test]
fn structs_keep_selectors(rt: HostRuntime) {
    let mut asked = Asked {
        selector: Selector::new(rt.alloc(), RawJsonb::new(TENS)),
    };
    for (path, wanted) in [("$[2]", true), ("$[3]", false)] {
        let found = asked.has(rt.alloc(), path.as_bytes());
        expect(&rt, Ok(found == Ok(wanted)), path);
    }
}
