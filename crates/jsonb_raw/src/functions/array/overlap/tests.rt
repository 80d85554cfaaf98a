//! Which entries are in one set of hashes, and what comparisons cost.

use super::*;
use std::test::Fail;

/// The words of 9,000 nulls.
static NULLS: [u8; 36_000] = [0; 36_000];

/// The entry `true`.
const TRUE: Entries<'static> = Entries {
    words: b"\x40\0\0\0",
    contents: b"",
};

#[test]
fn blocks_grow(rt: HostRuntime) -> Result<(), Fail> {
    let mut budget = Budget::new(None, 0);
    for (number, left) in [(0, 8936), (1, 8488), (2, 1832), (3, 1832)] {
        let mut rest = Entries {
            words: &NULLS,
            contents: b"",
        };
        assert!(rt;
            next_block(TRUE, &mut rest, number, &mut budget)?.is_none(),
            "{number}"
        );
        assert!(rt; rest.len() == left, "{number}");
    }
    Ok(())
}

#[test]
fn blocks_do_not_grow_if_many_entries_were_compared(rt: HostRuntime) {
    let budget = Budget::new(None, 3);
    assert!(rt; next_number(0, 3, &budget) == 1);
    assert!(rt; next_number(0, 4, &budget) == 0);
}

/// A number with ten decimals, which has no hash.
const TEN_DECIMALS: &[u8] = b"\x70\0\0\0\0\0\0\0\x01\x0a";

/// Returns the words of 64 nulls and of that number.
fn words() -> [u8; 260] {
    let mut words = [0; 260];
    words[256] = 0x20;
    words[259] = 10;
    words
}

/// Returns the block of these entries without the first few, and how many remain.
fn taken(skipped: usize) -> Result<(Block, usize), Error> {
    let words = words();
    let mut rest = Entries {
        words: &words,
        contents: TEN_DECIMALS,
    };
    for _ in 0..skipped {
        let _entry = rest.next();
    }
    let mut set = [0; LARGE_WORDS];
    let block = take_hashes(&mut set, &mut rest, LARGE)?;
    Ok((block, rest.len()))
}

#[test]
fn many_entries_are_without_one_that_has_no_hash(rt: HostRuntime) -> Result<(), Fail> {
    assert!(rt; taken(0)?.0.count == 64);
    assert!(rt; taken(1)?.0.count == 64);
    Ok(())
}

#[test]
fn an_entry_without_a_hash_is_in_the_next_block(rt: HostRuntime) -> Result<(), Fail> {
    let (block, left) = taken(0)?;
    assert!(rt; !block.is_last && left == 1);
    Ok(())
}

#[test]
fn an_entry_without_a_hash_may_equal_any(rt: HostRuntime) -> Result<(), Fail> {
    assert!(rt; taken(1)?.0.is_open);
    Ok(())
}

#[test]
fn comparisons_are_counted(rt: HostRuntime) -> Result<(), Fail> {
    let words = words();
    let others = Entries {
        words: &words,
        contents: TEN_DECIMALS,
    };
    let block = Block {
        count: SMALL,
        is_last: false,
        is_open: true,
    };
    let mut budget = Budget::new(Some(rt.alloc()), 1);
    assert!(rt; !block_overlaps(TRUE, &[0], others, block, &mut budget)?);
    assert!(rt; budget.take_allocator().is_some());
    Ok(())
}
