//! How many entries a block has, and what ends it.

use super::*;
use std::test::Fail;

/// The words of 5,000 nulls.
static NULLS: [u8; 20_000] = [0; 20_000];

/// Returns the words of 79 times `true` and of null.
fn words() -> [u8; 320] {
    let mut words = [0; 320];
    for index in 0..79 {
        words[4 * index] = 0x40;
    }
    words
}

/// Returns how many nulls remain after the block of this number. Each equals the last of 80 elements.
fn remaining(number: usize, budget: Budget) -> Result<usize, Error> {
    let words = words();
    let all = Entries {
        words: &words,
        contents: b"",
    };
    let mut rest = Entries {
        words: &NULLS,
        contents: b"",
    };
    let mut searches = Searches { left: all, budget };
    let _matched = next_block(&mut searches, all, &mut rest, number)?;
    Ok(rest.len())
}

#[test]
fn blocks_of_starts_grow(rt: HostRuntime) -> Result<(), Fail> {
    for (number, left) in [(0, 4968), (1, 4584), (2, 2600), (3, 2600)] {
        let found = remaining(number, Budget::new(None, 0))?;
        assert!(rt; found == left, "{number}: {found}");
    }
    Ok(())
}

#[test]
fn a_block_ends_with_the_budget(rt: HostRuntime) -> Result<(), Fail> {
    // lookups of 80 elements, and 20 that are found at once
    let found = remaining(1, Budget::new(Some(rt.alloc()), 30))?;
    assert!(rt; found == 4980, "{found}");
    Ok(())
}
