//! When a set of strings is made.

use super::*;
use jsonb_doc::array_entries;

/// `["a"]`
const ONLY_A: &[u8] = b"\x80\0\0\x01\x10\0\0\x01a";

#[test]
fn many_names_make_a_set(rt: HostRuntime) -> Result<(), Error> {
    let mut strings = Strings::new(Some(rt.alloc()), array_entries(ONLY_A)?);
    for _ in 1..MANY_NAMES {
        strings.count_name();
        assert!(rt; strings.has(b"a").is_none());
    }
    strings.count_name();
    assert!(rt; strings.has(b"a") == Some(true));
    assert!(rt; strings.has(b"b") == Some(false));
    Ok(())
}

#[test]
fn no_set_is_made_without_an_allocator(rt: HostRuntime) -> Result<(), Error> {
    let mut strings = Strings::new(None, array_entries(ONLY_A)?);
    for _ in 0..MANY_NAMES {
        strings.count_name();
    }
    assert!(rt; strings.has(b"a").is_none());
    Ok(())
}
