//! The position of a new member of an object.

/// The position of a member in an object: the number of keys before it, and the number of members that it replaces, at
/// most one.
#[derive(Clone, Copy)]
pub struct PairPlace {
    pub passed: usize,
    pub taken: usize,
}
