//! What a path selects.

use super::node_list::NodeList;
use jsonb_doc::{Error, Item, Number};

/// The result of an expression: an item, or an array of one.
#[derive(Clone, Copy)]
pub(crate) enum MadeItem<'a> {
    Item(Item<'a>),
    ArrayOf(Item<'a>),
}

/// What a path selects.
#[derive(Drop)]
pub(crate) enum Selected<'a> {
    /// Items of the document, by their positions.
    Nodes(NodeList),
    /// The signed numbers of the values.
    Numbers(Vec<Number>),
    /// The result of any other expression.
    Made(MadeItem<'a>),
}

/// What a path selects, or its error.
pub(crate) type Selection<'a> = Result<Selected<'a>, Error>;
