//! Prepared paths, which are parsed once and kept in a struct of the caller.

pub(crate) mod handle;
mod keeping;
mod loose;
pub(crate) mod parsing;
pub(crate) mod path;

pub(crate) use self::handle::PathHandle;
pub(crate) use self::path::PreparedPath;
