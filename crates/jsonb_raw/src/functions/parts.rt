//! The parts that containers are cut into and composed of: their entries, as they are stored.

pub use jsonb_doc::cursor::{Entries, PairEntries};
use jsonb_doc::layout::{EntryKind, HeaderKind, WORD};

/// An entry with its word.
#[derive(Clone, Copy)]
pub struct EntryWithWord<'a> {
    pub word: [u8; WORD],
    pub content: &'a [u8],
}

/// What a document adds to an array: the elements of an array, or the root of another as one element.
#[derive(Clone, Copy)]
pub enum Elements<'a> {
    Array(Entries<'a>),
    Root(EntryWithWord<'a>),
}

/// The key of the first of some members, the entry of its value, and the other members.
#[derive(Clone, Copy)]
pub struct FirstPair<'a> {
    pub key: &'a [u8],
    pub kind: EntryKind,
    pub content: &'a [u8],
    pub others: PairEntries<'a>,
}

/// The runs of members that an object is composed of.
#[derive(Drop)]
pub struct PairRuns<'a> {
    pub keys: Vec<Entries<'a>>,
    pub values: Vec<Entries<'a>>,
}

/// The entries of a container: those of an object's keys, none of an array, and those of its values or elements.
#[derive(Clone, Copy)]
pub struct ContainerEntries<'a> {
    pub kind: HeaderKind,
    pub keys: Entries<'a>,
    pub values: Entries<'a>,
}
