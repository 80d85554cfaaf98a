//! Several paths evaluated on one document, and paths that are taken apart and built.

use jsonb::{
    ArrayIndex, Error, Expr, JsonPath, OwnedJsonb, Path, PathValue, RawJsonb, RecursiveLevel,
    SelectByPath, Selector, parse_json_path,
};
use std::alloc::Global;
use std::borrow::CowStr;

/// The books of a store.
#[derive(Drop)]
pub struct Books {
    /// The title of each book.
    pub titles: Vec<OwnedJsonb>,
    /// An array of the prices.
    pub prices: OwnedJsonb,
    /// The title of the first book, if there is one.
    pub first: Option<OwnedJsonb>,
    /// Whether a book costs less than 20, or `None` if that is unknown.
    pub is_cheap: Option<bool>,
}

/// Returns the books of a store. One selector runs all paths.
pub fn find_books(alloc: Global, store: RawJsonb<'_>) -> Result<Books, Error> {
    let title = parse_json_path(alloc, b"$.book[*].title")?;
    let price = parse_json_path(alloc, b"$.book[*].price")?;
    let cheap = parse_json_path(alloc, b"$.book[*].price < 20")?;
    let mut selector = Selector::new(alloc, store);
    let titles = selector.select_values(&title)?;
    let prices = selector.select_array(&price)?;
    let first = selector.select_first(&title)?;
    let is_cheap = selector.predicate_match(&cheap)?;
    Ok(Books {
        titles,
        prices,
        first,
        is_cheap,
    })
}

/// Returns a page of what a path selects, and the number of all items. Items of other pages are not copied.
pub fn page(
    alloc: Global,
    document: RawJsonb<'_>,
    path: &JsonPath<'_>,
    from: usize,
    size: usize,
) -> Result<(Vec<OwnedJsonb>, usize), Error> {
    let found = Selector::new(alloc, document).find_values(path)?;
    let mut page = Vec::new(alloc);
    for item in found.iter().skip(from).take(size) {
        page.push(item.to_document(alloc, &document)?)?;
    }
    Ok((page, found.len()))
}

/// Returns the values at a path as an array. Fails with `StrictPath` if a step does not apply, such as a missing key.
pub fn required(alloc: Global, document: RawJsonb<'_>, path: &str) -> Result<OwnedJsonb, Error> {
    let path = parse_json_path(alloc, path.as_bytes())?;
    let mut selector = Selector::new_strict(alloc, document);
    selector.select_array(&path)
}

/// Returns what the first of these paths that selects anything selects: its only item, or an array of several.
pub fn first_of(
    alloc: Global,
    document: RawJsonb<'_>,
    paths: &[JsonPath<'_>],
) -> Result<Option<OwnedJsonb>, Error> {
    let mut selector = Selector::new(alloc, document);
    for path in paths {
        if selector.exists(path)? {
            return selector.select_value(path);
        }
    }
    Ok(None)
}

/// Returns the response to a query: an array of all items, or without `is_list` the item itself if it is the only one.
pub fn response(
    alloc: Global,
    document: &RawJsonb<'_>,
    query: &str,
    is_list: bool,
) -> Result<Option<OwnedJsonb>, Error> {
    let path = parse_json_path(alloc, query.as_bytes())?;
    if !is_list {
        return document.select_value_by_path(alloc, &path);
    }
    let array = document.select_array_by_path(alloc, &path)?;
    Ok(Some(array))
}

/// Returns `true` if a query matches a document: a predicate that is true, or another path that selects an item.
pub fn is_match(
    alloc: Global,
    document: &RawJsonb<'_>,
    query: &JsonPath<'_>,
) -> Result<bool, Error> {
    if !query.is_predicate() {
        return document.path_exists(alloc, query);
    }
    let result = document.path_match(alloc, query)?;
    Ok(result == Some(true))
}

/// Returns a path that outlives its text.
pub fn stored_path(alloc: Global, text: &str) -> Result<JsonPath<'static>, Error> {
    let path = parse_json_path(alloc, text.as_bytes())?;
    path.to_owned(alloc)
}

/// Returns the path to the values of a key in the items that a path selects. The path itself is unchanged.
pub fn member<'a>(alloc: Global, path: &JsonPath<'a>, key: &'a str) -> Result<JsonPath<'a>, Error> {
    let mut longer = path.clone(alloc)?;
    longer.paths.push(Path::DotField(CowStr::Borrowed(key)))?;
    Ok(longer)
}

/// Returns the path without its last step.
pub fn parent<'a>(alloc: Global, path: &JsonPath<'a>) -> Result<JsonPath<'a>, Error> {
    let mut paths = Vec::new(alloc);
    if let Some((_, front)) = path.paths.as_slice().split_last() {
        for step in front {
            paths.push(step.clone(alloc)?)?;
        }
    }
    Ok(JsonPath { paths })
}

/// Returns the last step of a path, with its own name.
pub fn last_step(alloc: Global, path: &JsonPath<'_>) -> Result<Option<Path<'static>>, Error> {
    match path.paths.as_slice().last() {
        Some(step) => Ok(Some(step.to_owned(alloc)?)),
        None => Ok(None),
    }
}

/// Returns the condition of the filter at the end of a path, or `None` if the path does not end with a filter.
pub fn last_condition<'a>(alloc: Global, path: &JsonPath<'a>) -> Result<Option<Expr<'a>>, Error> {
    match path.paths.as_slice().last() {
        Some(Path::FilterExpr(condition)) => Ok(Some((**condition).clone(alloc)?)),
        _ => Ok(None),
    }
}

/// Returns a filter with this condition, to be appended to other paths.
pub fn filter_step(alloc: Global, condition: &Expr<'_>) -> Result<Path<'static>, Error> {
    let condition = condition.to_owned(alloc)?;
    Ok(Path::FilterExpr(Box::new(alloc, condition)?))
}

/// Returns the literal on the right of a comparison, or `None` if there is none.
pub fn right_literal<'a>(
    alloc: Global,
    condition: &Expr<'a>,
) -> Result<Option<PathValue<'a>>, Error> {
    let Expr::BinaryOp { right, .. } = condition else {
        return Ok(None);
    };
    match &**right {
        Expr::Value(literal) => Ok(Some((**literal).clone(alloc)?)),
        _ => Ok(None),
    }
}

/// Returns an operand with this literal, to be used in other conditions.
pub fn operand(alloc: Global, literal: &PathValue<'_>) -> Result<Expr<'static>, Error> {
    let literal = literal.to_owned(alloc)?;
    Ok(Expr::Value(Box::new(alloc, literal)?))
}

/// Returns `true` if a subscript such as `last` or `1 to 3` selects the element at a position of an array.
pub fn is_selected(
    alloc: Global,
    subscript: ArrayIndex,
    length: usize,
    position: usize,
) -> Result<bool, Error> {
    let positions = subscript.to_indices(alloc, length)?;
    Ok(positions.contains(&position))
}

/// Returns `true` if `.**{..}` with these levels selects an item at a level.
pub fn is_selected_level(levels: RecursiveLevel, level: u8) -> bool {
    let (is_selected, _) = levels.check_recursive_level(level);
    is_selected
}

#[cfg(test)]
mod tests {
    use super::*;
    use crate::documents::{BOOKS, PRICES, TITLE_A, TITLES, expect};
    use jsonb::{Index, RecursiveLevelEnd};
    use std::fmt::Display;

    /// A path with a condition.
    const CHEAP: &str = "$.book[*]?(@.price < 20)";

    /// Returns the text of a path, or of a part of one.
    fn text_of<T: Display + Drop>(alloc: Global, part: Result<T, Error>) -> Result<String, Error> {
        let part = part?;
        Ok(format!(in alloc; "{part}")?)
    }

    /// Returns the bytes of a document, or no bytes if there is none.
    fn bytes_of(found: &Option<OwnedJsonb>) -> &[u8] {
        match found {
            Some(document) => document.as_raw().as_bytes(),
            None => b"",
        }
    }

    #[test]
    fn a_selector_runs_several_paths(rt: HostRuntime) -> Result<(), Error> {
        let alloc = rt.alloc();
        let store = RawJsonb::new(BOOKS);
        let found = find_books(alloc, store)?;
        expect(&rt, found.titles.len(), 2);
        expect(&rt, found.prices.as_raw().as_bytes(), PRICES);
        expect(&rt, bytes_of(&found.first), TITLE_A);
        expect(&rt, found.is_cheap, Some(true));
        Ok(())
    }

    #[test]
    fn required_values_exist(rt: HostRuntime) -> Result<(), Error> {
        let alloc = rt.alloc();
        let store = RawJsonb::new(BOOKS);
        let titles = required(alloc, store, "$.book[*].title")?;
        expect(&rt, titles.as_raw().as_bytes(), TITLES);
        let missing = required(alloc, store, "$.books[*].title");
        expect(&rt, missing.err(), Some(Error::StrictPath));
        Ok(())
    }

    #[test]
    fn items_are_returned_in_pages(rt: HostRuntime) -> Result<(), Error> {
        let alloc = rt.alloc();
        let path = parse_json_path(alloc, b"$.book[*].title")?;
        for (from, size, count) in [(0, 1, 1), (1, 10, 1), (2, 1, 0)] {
            let (page, all) = page(alloc, RawJsonb::new(BOOKS), &path, from, size)?;
            expect(&rt, (page.len(), all), (count, 2));
        }
        let (first, _) = page(alloc, RawJsonb::new(BOOKS), &path, 0, 1)?;
        expect(&rt, bytes_of(&first.into_iter().next()), TITLE_A);
        Ok(())
    }

    #[test]
    fn queries_have_responses(rt: HostRuntime) -> Result<(), Error> {
        let alloc = rt.alloc();
        let store = RawJsonb::new(BOOKS);
        for (query, is_list, wanted) in [
            ("$.book[*].title", true, TITLES),
            ("$.book[*].title", false, TITLES),
            ("$.book[0].title", false, TITLE_A),
            ("$.name", false, b"".as_slice()),
        ] {
            let found = response(alloc, &store, query, is_list)?;
            assert_eq!(rt; bytes_of(&found), wanted, "{query}");
        }
        Ok(())
    }

    #[test]
    fn the_first_path_that_selects_is_used(rt: HostRuntime) -> Result<(), Error> {
        let alloc = rt.alloc();
        let name = parse_json_path(alloc, b"$.name")?;
        let title = parse_json_path(alloc, b"$.book[0].title")?;
        let found = first_of(alloc, RawJsonb::new(BOOKS), [name, title].as_slice())?;
        expect(&rt, bytes_of(&found), TITLE_A);
        Ok(())
    }

    #[test]
    fn queries_match_a_document(rt: HostRuntime) -> Result<(), Error> {
        let alloc = rt.alloc();
        let store = RawJsonb::new(BOOKS);
        for (query, wanted) in [
            ("$.book[*].price > 20", true),
            ("$.book[*].price > 30", false),
            ("$.book[1].title", true),
            ("$.book[2].title", false),
        ] {
            let path = parse_json_path(alloc, query.as_bytes())?;
            assert_eq!(rt; is_match(alloc, &store, &path)?, wanted, "{query}");
        }
        Ok(())
    }

    #[test]
    fn paths_are_taken_apart_and_built(rt: HostRuntime) -> Result<(), Error> {
        let alloc = rt.alloc();
        let path = stored_path(alloc, CHEAP)?;
        let longer = text_of(alloc, member(alloc, &path, "title"))?;
        expect(&rt, longer.as_str(), "$.book[*]?(@.price < 20).title");
        let shorter = text_of(alloc, parent(alloc, &path))?;
        expect(&rt, shorter.as_str(), "$.book[*]");
        Ok(())
    }

    #[test]
    fn the_last_step_is_copied(rt: HostRuntime) -> Result<(), Error> {
        let alloc = rt.alloc();
        let path = stored_path(alloc, CHEAP)?;
        let step = last_step(alloc, &path)?.expect(&rt, "no step");
        expect(&rt, text_of(alloc, Ok(step))?.as_str(), "?(@.price < 20)");
        Ok(())
    }

    #[test]
    fn a_condition_is_copied_to_a_filter(rt: HostRuntime) -> Result<(), Error> {
        let alloc = rt.alloc();
        let path = stored_path(alloc, CHEAP)?;
        let condition = last_condition(alloc, &path)?.expect(&rt, "no filter");
        let filter = filter_step(alloc, &condition)?;
        assert!(rt; Some(&filter) == path.paths.as_slice().last());
        Ok(())
    }

    #[test]
    fn a_literal_is_copied_to_an_operand(rt: HostRuntime) -> Result<(), Error> {
        let alloc = rt.alloc();
        let path = stored_path(alloc, CHEAP)?;
        let condition = last_condition(alloc, &path)?.expect(&rt, "no filter");
        let literal = right_literal(alloc, &condition)?.expect(&rt, "no literal");
        let twenty = text_of(alloc, operand(alloc, &literal))?;
        expect(&rt, twenty.as_str(), "20");
        Ok(())
    }

    #[test]
    fn positions_are_selected(rt: HostRuntime) -> Result<(), Error> {
        let alloc = rt.alloc();
        let last = ArrayIndex::Slice((Index::LastIndex(0), Index::Index(9)));
        assert!(rt; is_selected(alloc, last, 3, 2)?);
        assert!(rt; !is_selected(alloc, last, 3, 1)?);
        Ok(())
    }

    #[test]
    fn levels_are_selected(rt: HostRuntime) {
        let levels = RecursiveLevel {
            start: 2,
            end: Some(RecursiveLevelEnd::Last),
        };
        assert!(rt; is_selected_level(levels, 255));
        assert!(rt; !is_selected_level(levels, 1));
    }
}
