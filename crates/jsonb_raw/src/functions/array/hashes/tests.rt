//! What a set of hashes excludes.

use super::*;
use std::process::Abort;

/// Returns the content of a number.
fn content(number: u16) -> [u8; 3] {
    let [high, low] = number.to_be_bytes();
    [0x50, high, low]
}

/// Returns the entry of a number.
fn entry(content: &[u8]) -> StoredEntry<'_> {
    StoredEntry {
        kind: EntryKind::Number,
        content,
    }
}

/// Returns the set of the hashes of the first numbers. Fails if one is not added.
fn set(rt: &impl Abort) -> [u64; 1024] {
    let mut words = [0; 1024];
    for number in 0..1024 {
        let is_added = add_hash(&mut words, &entry(&content(number)));
        assert!(*rt; is_added, "not added: {number}");
    }
    words
}

#[test]
fn a_set_excludes_most_other_numbers(rt: HostRuntime) {
    let words = set(&rt);
    let mut count = 0usize;
    for number in 1024..u16::MAX {
        if may_have_hash(&words, &entry(&content(number))) {
            count = count.saturating_add(1);
        }
    }
    // one in 10,000
    assert!(rt; count <= 6, "{count}");
}

#[test]
fn a_set_excludes_none_of_its_numbers(rt: HostRuntime) {
    let words = set(&rt);
    for number in 0..1024 {
        assert!(rt; may_have_hash(&words, &entry(&content(number))), "{number}");
    }
}

#[test]
fn an_entry_without_a_hash_is_not_excluded(rt: HostRuntime) {
    let mut words = [0; 1];
    // a number with ten decimals
    let content = b"\x70\0\0\0\0\0\0\0\x01\x0a";
    assert!(rt; !add_hash(&mut words, &entry(content)));
    assert!(rt; may_have_hash(&words, &entry(content)));
}

/// Contents that differ, some in their lengths alone or in a byte.
static CONTENTS: [&[u8]; 13] = [
    b"",
    b"\x50",
    b"\x50\x01",
    b"\x50\x01\x01",
    b"\x50\x01\x02",
    b"\x50\x02\x02",
    b"abcd",
    b"abcdabcd",
    b"abcdabce",
    b"bbcdabce",
    b"abcdefghi",
    b"abcdefgii",
    b"bbcdefghi",
];

#[test]
fn contents_that_differ_have_different_hashes(rt: HostRuntime) {
    for at in 0..CONTENTS.len() {
        for other in 0..at {
            let (content, other) = (CONTENTS[at], CONTENTS[other]);
            assert!(rt;
                stored_hash(&entry(content)) != stored_hash(&entry(other)),
                "{at}"
            );
        }
    }
}
