//! Comparison of documents.

ghost use Rattle.std.specs.Ordering.{match_ordering};
ghost use Rattle.std.specs.Prelude.{◌≡◌, IfErr, IsOkAnd, negsuc, pos};
ghost use Rattle.jsonb_doc.specs.Answer.{IsDecodingError};
ghost use Rattle.jsonb_doc.specs.Format.{Decodes};
ghost use Rattle.jsonb_doc.specs.Order.{tree_cmp};
ghost use Rattle.jsonb_doc.specs.Payload.{Form};
ghost use Rattle.jsonb_doc.specs.Tree.{Tree};
ghost use Rattle.std.specs.Int.{from_bool};
ghost use Rattle.jsonb_c.specs.Answers.{ShowsAs, ShowsValue, WritesResult};
ghost use Rattle.jsonb_c.specs.Calls.{TellsContainment};

use crate::deliver::{store, store_bool};
use jsonb::{Error, RawJsonb};
use std::alloc::Global;
use std::cmp::Ordering;

/// Returns whether a document contains another.
#[unsafe(no_mangle)]
pub extern "C" fn jdoc_contains(alloc: Global, document: &[u8], other: &[u8], truth: &mut u8) -> u32
    ensures { TellsContainment other.now document.now (ShowsAs from_bool truth.old truth.new result) }
{
    let document = RawJsonb::new(document);
    store_bool(document.contains_in(alloc, &RawJsonb::new(other)), truth)
}

/// Returns the order of two documents: -1, 0 or 1. Without extension values it is that of their sortable keys.
#[unsafe(no_mangle)]
pub extern "C" fn jdoc_compare(document: &[u8], other: &[u8], order: &mut i32) -> u32
    ensures { WritesResult (λ answer. (form other_form : Form) (t u : Tree)
        → Decodes form document.now t → Decodes other_form other.now u
        → IsOkAnd answer (λ z. z ≡ match_ordering (tree_cmp t u) (negsuc 0) (pos 0) (pos 1)))
        IsDecodingError (ShowsValue order.old order.new result) }
{
    store(compare(document, other), order)
}

fn compare(document: &[u8], other: &[u8]) -> Result<i32, Error>
    ensures order { (form other_form : Form) (t u : Tree)
        → Decodes form document.now t → Decodes other_form other.now u
        → IsOkAnd result (λ z. z ≡ match_ordering (tree_cmp t u) (negsuc 0) (pos 0) (pos 1)) }
    ensures errors { IfErr result IsDecodingError }
{
    match order_of(document, other)? {
        Ordering::Less => Ok(-1),
        Ordering::Equal => Ok(0),
        Ordering::Greater => Ok(1),
    }
}

fn order_of(document: &[u8], other: &[u8]) -> Result<Ordering, Error>
    ensures order { (form other_form : Form) (t u : Tree) → Decodes form document.now t
        → Decodes other_form other.now u → IsOkAnd result (λ o. o ≡ tree_cmp t u) }
    ensures errors { IfErr result IsDecodingError }
{
    let document = RawJsonb::new(document);
    let other = RawJsonb::new(other);
    document.compare(&other)
}
