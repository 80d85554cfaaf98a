//! The entries of a container around one of its children.

ghost use Rattle.std.specs.Prelude.{◌+◌, ◌^◌, ◌<◌};

use crate::functions::parts::Entries;
use jsonb_doc::layout::HeaderKind;

/// The entries of a container around one of its children: those of all keys of an object, none of an array, and those
/// of the values or elements before the child and after it.
#[derive(Clone, Copy)]
pub struct ParentEntries<'a> {
    pub kind: HeaderKind,
    /// The number of the other children.
    pub others: usize,
    pub keys: Entries<'a>,
    pub front: Entries<'a>,
    pub after: Entries<'a>,
    ghost few: { others + 1 < 2 ^ 29 },
}
