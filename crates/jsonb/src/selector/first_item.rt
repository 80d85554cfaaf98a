//! The first item that a path selects, in place.

ghost use Rattle.std.specs.Prelude.{◌≡◌, false, List};
ghost use Rattle.jsonb_doc.specs.Answer.{SameOption};
ghost use Rattle.jsonb_doc.specs.Payload.{Form};
ghost use Rattle.jsonb_doc.specs.Representation.Positions.{Locates};
ghost use Rattle.jsonb_doc.specs.Tree.{Tree};
ghost use Rattle.jsonb.specs.FirstItems.{IsFirstItem};
ghost use Rattle.jsonb.specs.Meaning.{first_item};
ghost use Rattle.jsonb.specs.Private.Selected.{is_computed};
ghost use Rattle.jsonb.specs.Private.Selection.{AreSelected};
ghost use Rattle.jsonb.specs.declared.selector.document.Document.{Document};

use super::is_some;
use super::selected::Selected;
use jsonb_doc::Spot;

/// The first item that a path selects.
#[derive(Clone, Copy, Debug)]
pub enum FirstItem<S> {
    /// An item of the document, by its spot or by what that is mapped to.
    At(S),
    /// The result of a path that is an expression, such as `$.a + 1`: it is not an item of the document.
    Computed,
}

/// Returns the first of the items that a path has selected; `computed` is whether the path is an expression.
pub(crate) fn first_of(computed: bool, selected: &Selected<'_>) -> Option<FirstItem<Spot>>
    ensures { (form : Form) (document : Document) (ts : List Tree)
        → (computed ≡ false → is_computed selected.now ≡ false) → AreSelected form document selected.now ts
        → SameOption (IsFirstItem (Locates document.bytes.now) computed) result (first_item ts) }
{
    if computed {
        return is_some(selected).then_some(FirstItem::Computed);
    }
    let Selected::Nodes(spots) = selected else {
        return None;
    };
    let [first, ..] = spots.as_slice() else {
        return None;
    };
    Some(FirstItem::At(*first))
}
