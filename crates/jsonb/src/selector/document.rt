//! The document and the context of a selection.

use jsonb_doc::{Error, Spot};
use std::alloc::Global;

/// The bytes of a document with the position of its root.
#[derive(Clone, Copy)]
pub(crate) struct Document<'a> {
    pub(crate) bytes: &'a [u8],
    pub(crate) root: Spot,
}

/// What a step does with an item to which it does not apply.
#[derive(Clone, Copy, Debug, PartialEq, Eq)]
pub(crate) enum Mode {
    /// It selects nothing, or the item itself.
    Lax,
    /// It fails.
    Strict,
}

/// What an expression among the steps of a path is.
#[derive(Clone, Copy)]
pub(crate) enum Expressions {
    /// A filter, as among the steps of a whole path.
    AreFilters,
    /// It fails, as within an operand or `exists`.
    AreRefused,
}

/// What a list contains of an item that is selected again.
#[derive(Clone, Copy)]
pub(crate) enum Repeats {
    /// The item again, as in a selection.
    AreKept,
    /// Nothing, as within a comparison or `exists`: only the first item of each kind matters there.
    AreDropped,
}

/// The context in which a path is evaluated.
#[derive(Clone, Copy)]
pub(crate) struct Context<'a> {
    pub(crate) alloc: Global,
    pub(crate) mode: Mode,
    pub(crate) document: Document<'a>,
}

/// The item that `@` denotes, in its context.
#[derive(Clone, Copy)]
pub(crate) struct Current<'c, 'a> {
    pub(crate) context: &'c Context<'a>,
    pub(crate) item: Spot,
}

/// Whether an expression is true of an item, or `None` if it is unknown.
pub(crate) type TruthResult = Result<Option<bool>, Error>;
