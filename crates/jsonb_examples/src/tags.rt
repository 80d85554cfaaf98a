//! Tags as sets: arrays of strings without repeats.

use jsonb::{Error, OwnedJsonb, RawJsonb};
use std::alloc::Global;

/// Returns the tags of both, each once.
pub fn all_tags(
    alloc: Global,
    tags: &RawJsonb<'_>,
    others: &RawJsonb<'_>,
) -> Result<OwnedJsonb, Error> {
    let joined = tags.concat(alloc, others)?;
    joined.as_raw().array_distinct(alloc)
}

/// Returns the tags that are new, and those that are gone.
pub fn changes(
    alloc: Global,
    old: &RawJsonb<'_>,
    new: &RawJsonb<'_>,
) -> Result<(OwnedJsonb, OwnedJsonb), Error> {
    let added = new.array_except(alloc, old)?;
    let removed = old.array_except(alloc, new)?;
    Ok((added, removed))
}

#[cfg(test)]
mod tests {
    use super::*;
    use crate::documents::{ADDED_TAGS, ALL_TAGS, NEW_TAGS, OLD_TAGS, REMOVED_TAGS, expect};

    #[test]
    fn tags_are_joined_and_compared(rt: HostRuntime) -> Result<(), Error> {
        let alloc = rt.alloc();
        let old = RawJsonb::new(OLD_TAGS);
        let new = RawJsonb::new(NEW_TAGS);
        assert!(rt; old.array_overlap(&new)?);
        let all = all_tags(alloc, &old, &new)?;
        expect(&rt, all.as_raw().as_bytes(), ALL_TAGS);
        let (added, removed) = changes(alloc, &old, &new)?;
        expect(&rt, added.as_raw().as_bytes(), ADDED_TAGS);
        expect(&rt, removed.as_raw().as_bytes(), REMOVED_TAGS);
        Ok(())
    }
}
