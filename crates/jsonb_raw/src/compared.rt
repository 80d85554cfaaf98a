//! The result of comparing two containers except for one pair of their children.

use jsonb_doc::{Item, StoredEntry};

/// The result of comparing two containers. All pairs of their children are compared except at most one, so that the
/// recursion depth is logarithmic in the lengths.
#[derive(Clone, Copy)]
pub(crate) enum Compared<'a> {
    /// The result.
    Known(bool),
    /// The result is that of these two, a pair of children that was not compared because it is longer than half of all.
    Deferred(Item<'a>, Item<'a>),
}

/// Returns `true` if an entry is a container longer than this.
#[inline(always)]
pub(crate) fn is_container_longer_than(entry: &StoredEntry<'_>, len: usize) -> bool {
    entry.is_container() && entry.content.len() > len
}
