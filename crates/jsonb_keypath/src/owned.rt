//! Key paths that own their strings.

ghost use Rattle.std.specs.Prelude.{◌≡◌, MatchResult};
ghost use Rattle.jsonb_doc.specs.Answer.{IsOutOfMemory};
ghost use Rattle.jsonb_keypath.specs.KeyPathViews.{key_view, key_paths_view, owned_key_view, owned_key_paths_view};

use crate::key_path::{KeyPath, KeyPaths};
use jsonb_doc::Error;
use std::alloc::Global;
use std::borrow::CowStr;

/// A key path that owns its strings, and outlives the text it was parsed from.
///
/// Two owned key paths are equal, and have equal hashes, if they have the same steps.
#[derive(Debug, PartialEq, Eq, Hash, Drop)]
pub struct OwnedKeyPaths {
    /// The steps, from the root on.
    pub paths: Vec<OwnedKeyPath>,
}

/// One step of an owned key path.
///
/// Two steps are equal, and have equal hashes, if they are of one variant and have the same index or the same string.
#[derive(Debug, PartialEq, Eq, Hash, Drop)]
pub enum OwnedKeyPath {
    /// An element of an array, counted from 0, or from the end if negative; on an object, the key that is its decimal
    /// text.
    Index(i32),
    /// A key of an object, written between quotes.
    QuotedName(String),
    /// A key of an object, written without quotes.
    Name(String),
}

impl OwnedKeyPaths {
    /// Returns a copy of the key path.
    ///
    /// # Errors
    ///
    /// `OutOfMemory` if an allocation fails.
    ///
    /// # Complexity
    ///
    /// O(n) for n steps and bytes of their strings. Allocates.
    ///
    /// # Examples
    ///
    /// ```rust crates/jsonb_examples/src/steps.rt
    /// let mut joined = path.clone(alloc)?;
    /// for step in &rest.paths {
    ///     let step = step.clone(alloc)?;
    ///     joined.paths.push(step)?;
    /// }
    /// ```
    pub fn clone(&self, alloc: Global) -> Result<OwnedKeyPaths, Error>
        ensures { MatchResult result (λ copy. owned_key_paths_view copy ≡ owned_key_paths_view self.now) IsOutOfMemory }
    {
        let mut paths = Vec::with_capacity(alloc, self.paths.len())?;
        for step in &self.paths {
            paths.push(step.clone(alloc)?)?;
        }
        Ok(OwnedKeyPaths { paths })
    }

    /// Returns the key path with its strings borrowed from this one.
    ///
    /// # Errors
    ///
    /// `OutOfMemory` if an allocation fails.
    ///
    /// # Complexity
    ///
    /// O(n) for n steps. Allocates once.
    ///
    /// # Examples
    ///
    /// ```rust crates/jsonb_examples/src/steps.rt
    /// let steps = path.as_key_paths(alloc)?;
    /// document.get_by_keypath(alloc, steps.paths.iter())
    /// ```
    pub fn as_key_paths(&self, alloc: Global) -> Result<KeyPaths<'_>, Error>
        ensures { MatchResult result (λ same. key_paths_view same ≡ owned_key_paths_view self.now) IsOutOfMemory }
    {
        let mut paths = Vec::with_capacity(alloc, self.paths.len())?;
        for step in &self.paths {
            paths.push_reserved(step.as_key_path());
        }
        Ok(KeyPaths { paths })
    }
}

impl OwnedKeyPath {
    /// Returns a copy of the step.
    ///
    /// # Errors
    ///
    /// `OutOfMemory` if an allocation fails.
    ///
    /// # Complexity
    ///
    /// O(n) for a string of n bytes. Allocates, except for an index.
    ///
    /// # Examples
    ///
    /// ```rust crates/jsonb_examples/src/steps.rt
    /// let mut joined = path.clone(alloc)?;
    /// for step in &rest.paths {
    ///     let step = step.clone(alloc)?;
    ///     joined.paths.push(step)?;
    /// }
    /// ```
    pub fn clone(&self, alloc: Global) -> Result<OwnedKeyPath, Error>
        ensures { MatchResult result (λ copy. owned_key_view copy ≡ owned_key_view self.now) IsOutOfMemory }
    {
        self.as_key_path().to_owned(alloc)
    }

    /// Returns the step with its string borrowed from this one.
    ///
    /// # Complexity
    ///
    /// O(1). Does not allocate.
    ///
    /// # Examples
    ///
    /// ```rust crates/jsonb_examples/src/steps.rt
    /// let steps = [step.as_key_path()];
    /// document.get_by_keypath(alloc, steps.iter())
    /// ```
    pub fn as_key_path(&self) -> KeyPath<'_>
        ensures { key_view result ≡ owned_key_view self.now }
    {
        match self {
            OwnedKeyPath::Index(index) => KeyPath::Index(*index),
            OwnedKeyPath::QuotedName(text) => KeyPath::QuotedName(CowStr::Borrowed(text.as_str())),
            OwnedKeyPath::Name(text) => KeyPath::Name(CowStr::Borrowed(text.as_str())),
        }
    }
}
