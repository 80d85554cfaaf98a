//! The type bytes of keys, in ascending order.

ghost use Rattle.std.specs.Prelude.{◌≡◌, IfSome};
ghost use Rattle.jsonb_doc.specs.Tree.{Tree};
ghost use Rattle.jsonb_doc.specs.Order.{rank};
ghost use Rattle.jsonb_doc.specs.Payload.{Form};
ghost use Rattle.jsonb_doc.specs.Private.Stored.{Stores};
ghost use Rattle.jsonb_raw.specs.Private.Levels.{HasAllLeft};
ghost use Rattle.jsonb_raw.specs.Private.KeyKinds.{IsLiteralKind};

use crate::level::ChildCursor;
use jsonb_doc::StoredEntry;
use jsonb_doc::layout::EntryKind;

pub const EXTENSION: u8 = 1;

pub const FALSE: u8 = 2;

pub const TRUE: u8 = 3;

pub const NUMBER: u8 = 4;

pub const STRING: u8 = 5;

pub const OBJECT: u8 = 6;

pub const ARRAY: u8 = 7;

pub const NULL: u8 = 8;

/// Returns the type of a container by its children.
#[inline(always)]
pub fn of_level(level: &ChildCursor<'_>) -> u8
    ensures { (form : Form) (t : Tree) → HasAllLeft form t level.now → result ≡ rank t }
{
    match level {
        ChildCursor::Elements(_) => ARRAY,
        ChildCursor::Pairs(_) => OBJECT,
    }
}

/// Returns the type of a null or a Boolean.
#[inline(always)]
pub fn of_literal(entry: &StoredEntry<'_>) -> Option<u8>
    ensures { (form : Form) (t : Tree) → Stores form entry.now t → IfSome result (IsLiteralKind t) }
{
    if !entry.content.is_empty() {
        return None;
    }
    match entry.kind {
        EntryKind::Null => Some(NULL),
        EntryKind::False => Some(FALSE),
        EntryKind::True => Some(TRUE),
        _ => None,
    }
}
