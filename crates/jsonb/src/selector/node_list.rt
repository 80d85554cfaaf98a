//! The positions that steps have selected.

ghost use Rattle.std.specs.Prelude.{◌≡◌, IfErr, OnOk, ◌++◌, ◌∷◌, []};
ghost use Rattle.jsonb_doc.specs.Answer.{IsOutOfMemory};
ghost use Rattle.jsonb.specs.Private.Selection.{node_spots, option_spots};

use jsonb_doc::{Error, Spot};
use std::alloc::Global;
use std::slice;

/// The positions of a list of items. A single one is not allocated.
#[derive(Drop)]
pub(crate) enum NodeList {
    One(Spot),
    Many(Vec<Spot>),
}

/// The items that steps have selected.
pub(crate) type ListResult = Result<NodeList, Error>;

impl NodeList {
    #[inline(always)]
    pub(crate) fn at_most_one(alloc: Global, spot: Option<Spot>) -> NodeList
        ensures { node_spots result ≡ option_spots spot }
    {
        match spot {
            Some(spot) => NodeList::One(spot),
            None => NodeList::Many(Vec::new(alloc)),
        }
    }

    #[inline(always)]
    pub(crate) fn as_slice(&self) -> &[Spot]
        ensures { result.now ≡ node_spots self.now }
    {
        match self {
            NodeList::One(spot) => slice::from_ref(spot),
            NodeList::Many(spots) => spots.as_slice(),
        }
    }

    /// Appends a position. The first one is not allocated.
    #[inline(always)]
    pub(crate) fn push(&mut self, alloc: Global, spot: Spot) -> Result<(), Error>
        ensures ok { OnOk result (node_spots self.new ≡ node_spots self.old ++ spot ∷ []) }
        ensures err { IfErr result IsOutOfMemory }
    {
        match self {
            NodeList::One(first) => {
                let both = vec![in alloc; *first, spot]?;
                *self = NodeList::Many(both);
                Ok(())
            }
            NodeList::Many(spots) => {
                if spots.is_empty() {
                    *self = NodeList::One(spot);
                    return Ok(());
                }
                spots.push(spot)?;
                Ok(())
            }
        }
    }
}
