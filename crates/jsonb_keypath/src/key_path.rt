//! Key paths and their steps, with strings borrowed if possible.

ghost use Rattle.std.specs.Prelude.{◌≡◌, MatchResult};
ghost use Rattle.jsonb_doc.specs.Answer.{IsOutOfMemory};
ghost use Rattle.jsonb_keypath.specs.KeyPathViews.{key_view, key_paths_view, owned_key_view, owned_key_paths_view};

use crate::owned::{OwnedKeyPath, OwnedKeyPaths};
use jsonb_doc::Error;
use std::alloc::Global;
use std::borrow::CowStr;

/// A path of keys and positions to a location in a document, like PostgreSQL's text arrays of steps: `{a,1,"b c"}`.
///
/// It prints as text that parses back: an index in decimal, a quoted name between quotes, a name unchanged if it is
/// plain and otherwise between quotes. Two key paths are equal, and have equal hashes, if they have the same steps.
/// Without steps it locates the document itself.
#[derive(Debug, PartialEq, Eq, Hash, Drop)]
pub struct KeyPaths<'a> {
    /// The steps, from the root on.
    pub paths: Vec<KeyPath<'a>>,
}

/// One step of a key path.
///
/// Two steps are equal, and have equal hashes, if they are of one variant and have the same index or the same string,
/// borrowed or not.
#[derive(Debug, PartialEq, Eq, Hash, Drop)]
pub enum KeyPath<'a> {
    /// An element of an array, counted from 0, or from the end if negative; on an object, the key that is its decimal
    /// text.
    Index(i32),
    /// A key of an object, written between quotes.
    QuotedName(CowStr<'a, Global>),
    /// A key of an object, written without quotes.
    Name(CowStr<'a, Global>),
}

impl<'a> KeyPaths<'a> {
    /// Returns a copy of the key path. Borrowed strings remain borrowed.
    ///
    /// # Errors
    ///
    /// `OutOfMemory` if an allocation fails.
    ///
    /// # Complexity
    ///
    /// O(n) for n steps and bytes of owned strings. Allocates.
    ///
    /// # Examples
    ///
    /// ```rust crates/jsonb_examples/src/steps.rt
    /// let step = KeyPath::QuotedName(CowStr::Borrowed(key));
    /// let mut longer = path.clone(alloc)?;
    /// longer.paths.push(step)?;
    /// ```
    pub fn clone(&self, alloc: Global) -> Result<KeyPaths<'a>, Error>
        ensures { MatchResult result (λ copy. key_paths_view copy ≡ key_paths_view self.now) IsOutOfMemory }
    {
        let mut paths = Vec::with_capacity(alloc, self.paths.len())?;
        for step in &self.paths {
            paths.push(step.clone(alloc)?)?;
        }
        Ok(KeyPaths { paths })
    }

    /// Returns the key path with copies of its strings, so that it borrows nothing.
    ///
    /// # Errors
    ///
    /// `OutOfMemory` if an allocation fails.
    ///
    /// # Complexity
    ///
    /// O(n) for n steps and bytes of their strings. Allocates.
    ///
    /// # Examples
    ///
    /// ```rust crates/jsonb_examples/src/steps.rt
    /// let path = parse_key_paths(alloc, text.as_bytes())?;
    /// path.to_owned(alloc)
    /// ```
    pub fn to_owned(&self, alloc: Global) -> Result<OwnedKeyPaths, Error>
        ensures { MatchResult result (λ copy. owned_key_paths_view copy ≡ key_paths_view self.now) IsOutOfMemory }
    {
        let mut paths = Vec::with_capacity(alloc, self.paths.len())?;
        for step in &self.paths {
            paths.push(step.to_owned(alloc)?)?;
        }
        Ok(OwnedKeyPaths { paths })
    }
}

impl<'a> KeyPath<'a> {
    /// Returns a copy of the step. A borrowed string remains borrowed.
    ///
    /// # Errors
    ///
    /// `OutOfMemory` if an allocation fails.
    ///
    /// # Complexity
    ///
    /// O(n) for an owned string of n bytes, which is copied, otherwise O(1). Allocates only for an owned string.
    ///
    /// # Examples
    ///
    /// ```rust crates/jsonb_examples/src/steps.rt
    /// for step in steps {
    ///     kept.push(step.clone(alloc)?)?;
    /// }
    /// ```
    pub fn clone(&self, _alloc: Global) -> Result<KeyPath<'a>, Error>
        ensures { MatchResult result (λ copy. key_view copy ≡ key_view self.now) IsOutOfMemory }
    {
        match self {
            KeyPath::Index(index) => Ok(KeyPath::Index(*index)),
            KeyPath::QuotedName(text) => Ok(KeyPath::QuotedName(text.clone()?)),
            KeyPath::Name(text) => Ok(KeyPath::Name(text.clone()?)),
        }
    }

    /// Returns the step with a copy of its string.
    ///
    /// # Errors
    ///
    /// `OutOfMemory` if an allocation fails.
    ///
    /// # Complexity
    ///
    /// O(n) for a string of n bytes. Allocates, except for an index.
    ///
    /// # Examples
    ///
    /// ```rust crates/jsonb_examples/src/steps.rt
    /// let step = step.to_owned(alloc)?;
    /// path.paths.push(step)?;
    /// ```
    pub fn to_owned(&self, alloc: Global) -> Result<OwnedKeyPath, Error>
        ensures { MatchResult result (λ copy. owned_key_view copy ≡ key_view self.now) IsOutOfMemory }
    {
        match self {
            KeyPath::Index(index) => Ok(OwnedKeyPath::Index(*index)),
            KeyPath::QuotedName(text) => {
                let copy = String::from_str(alloc, text.as_str())?;
                Ok(OwnedKeyPath::QuotedName(copy))
            }
            KeyPath::Name(text) => {
                let copy = String::from_str(alloc, text.as_str())?;
                Ok(OwnedKeyPath::Name(copy))
            }
        }
    }
}
