//! Counts the keys that searches for names pass.

use super::*;
use crate::tests::expect;
use std::alloc::{AllocError, Global};

/// The number of keys of the object.
const COUNT: u16 = 1_536;

/// The number of names, which are the first keys.
const NAMES: u16 = 320;

/// Appends as many words as there are keys.
fn push_words(bytes: &mut Vec<u8>, word: [u8; 4]) -> Result<(), AllocError> {
    for _ in 0..COUNT {
        bytes.extend_from_slice(&word)?;
    }
    Ok(())
}

/// Returns an object of 1,536 nulls. The key of each is its index, in two bytes.
fn object(alloc: Global) -> Result<Vec<u8>, AllocError> {
    let mut bytes = Vec::from_slice(alloc, b"\x40\0\x06\0")?;
    push_words(&mut bytes, [0x10, 0, 0, 2])?;
    push_words(&mut bytes, [0, 0, 0, 0])?;
    for index in 0..COUNT {
        bytes.extend_from_slice(&index.to_be_bytes())?;
    }
    Ok(bytes)
}

/// Searches for a key in a table, and returns how many keys the search passes.
fn passed_by_table(table: &mut KeyTable<'_>, name: &[u8]) -> Result<usize, Error> {
    table.seek(name);
    let before = table.left();
    let has = table.has(name)?;
    let passed = before.wrapping_sub(table.left());
    Ok(if has { passed } else { usize::MAX })
}

/// Searches for a key by a cursor, and returns how many keys the search passes.
fn passed_by_cursor(cursor: &mut KeyCursor<'_>, name: &[u8]) -> Result<usize, Error> {
    cursor.rewind(name);
    let start = *cursor;
    let has = cursor.search(name)?;
    let passed = start.left.len().wrapping_sub(cursor.left.len());
    Ok(if has { passed } else { usize::MAX })
}

/// The first name, the distance to the next one, the number of names, and the most keys that all searches may pass in
/// a new table. A block has 4 keys, of which the first is not passed.
static SEARCHES: [(u16, u16, u16, usize); 3] = [
    // in order: each key once
    (0, 1, NAMES, 320),
    // in reverse order: those before the first name, and then in each block 0, 1, 2 and 3
    (319, u16::MAX, NAMES, 800),
    // each in another block
    (1_408, 65_408, 10, 1_440),
];

/// Returns how many keys such searches pass.
fn passed_by_searches(
    keys: Entries<'_>,
    first: u16,
    distance: u16,
    count: u16,
) -> Result<usize, Error> {
    let mut table = KeyTable::new(keys);
    let mut name = first;
    let mut all = 0usize;
    for _ in 0..count {
        all = all.saturating_add(passed_by_table(&mut table, &name.to_be_bytes())?);
        name = name.wrapping_add(distance);
    }
    Ok(all)
}

#[test]
fn a_table_passes_few_keys(rt: HostRuntime) -> Result<(), Error> {
    let bytes = object(rt.alloc())?;
    let keys = object_entries(&bytes)?.keys;
    for (first, distance, count, most) in &SEARCHES {
        let passed = passed_by_searches(keys, *first, *distance, *count)?;
        expect(&rt, Ok(passed <= *most), (*first, *distance, passed));
    }
    Ok(())
}

#[test]
fn a_cursor_passes_each_key_once(rt: HostRuntime) -> Result<(), Error> {
    let bytes = object(rt.alloc())?;
    let mut cursor = KeyCursor::new(object_entries(&bytes)?.keys);
    let mut all = 0usize;
    for index in 0..NAMES {
        all = all.saturating_add(passed_by_cursor(&mut cursor, &index.to_be_bytes())?);
    }
    expect(&rt, Ok(all <= usize::from(NAMES)), all);
    Ok(())
}

#[test]
fn the_first_unsorted_name_decides(rt: HostRuntime) -> Result<(), Error> {
    let bytes = object(rt.alloc())?;
    let document = RawJsonb::new(&bytes);
    // no key has one byte
    let all = document.exists_all_keys(["\0b", "\0", "\0c"].iter().copied());
    assert!(rt; all == Ok(false));
    let any = document.exists_any_keys(["b", "\0b", "\0"].iter().copied());
    assert!(rt; any == Ok(true));
    Ok(())
}
