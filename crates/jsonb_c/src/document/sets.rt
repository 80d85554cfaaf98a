//! Arrays as sets.

ghost use Rattle.std.specs.Prelude.{◌≡◌, IsOkAnd};
ghost use Rattle.jsonb_doc.specs.Answer.{IsDecodingError, ◌or◌};
ghost use Rattle.jsonb_doc.specs.declared.error.Error.TheVariants.{OutOfMemory, TooLarge};
ghost use Rattle.jsonb_doc.specs.Format.{Decodes};
ghost use Rattle.jsonb_doc.specs.Payload.{Form};
ghost use Rattle.jsonb_doc.specs.Tree.{Tree, array, trees_of};
ghost use Rattle.jsonb_raw.specs.Arrays.{as_elements};
ghost use Rattle.std.specs.Int.{from_bool};
ghost use Rattle.jsonb_raw.specs.Documents.{Makes};
ghost use Rattle.jsonb_raw.specs.Sets.{difference_of, distinct, intersection_of, overlap};
ghost use Rattle.jsonb_c.specs.Answers.{DeliversValue, OfDocument, ShowsAs, WritesResult};

use crate::deliver::{deliver_made, store_bool};
use jsonb::RawJsonb;
use std::alloc::Global;

/// Returns the array of the elements without repetitions: of elements that are equal by value the first.
#[unsafe(no_mangle)]
pub extern "C" fn jdoc_array_distinct(
    alloc: Global,
    document: &[u8],
    out: &mut [u8],
    out_len: &mut usize,
) -> u32
    ensures { WritesResult
        (OfDocument document.now (λ form t. Makes form (array (trees_of (distinct (as_elements t))))))
        (IsDecodingError or OutOfMemory or TooLarge) (DeliversValue out.old out.new out_len.new result) }
{
    deliver_made(RawJsonb::new(document).array_distinct(alloc), out, out_len)
}

/// Returns the array of the elements that another document has too.
#[unsafe(no_mangle)]
pub extern "C" fn jdoc_array_intersection(
    alloc: Global,
    document: &[u8],
    other: &[u8],
    out: &mut [u8],
    out_len: &mut usize,
) -> u32
    ensures { WritesResult (λ answer. (form other_form : Form) (t u : Tree)
        → Decodes form document.now t → Decodes other_form other.now u
        → Makes form (array (trees_of (intersection_of (as_elements t) (as_elements u)))) answer)
        (IsDecodingError or OutOfMemory or TooLarge) (DeliversValue out.old out.new out_len.new result) }
{
    let made = RawJsonb::new(document).array_intersection(alloc, &RawJsonb::new(other));
    deliver_made(made, out, out_len)
}

/// Returns the array of the elements that the intersection drops.
#[unsafe(no_mangle)]
pub extern "C" fn jdoc_array_except(
    alloc: Global,
    document: &[u8],
    other: &[u8],
    out: &mut [u8],
    out_len: &mut usize,
) -> u32
    ensures { WritesResult (λ answer. (form other_form : Form) (t u : Tree)
        → Decodes form document.now t → Decodes other_form other.now u
        → Makes form (array (trees_of (difference_of (as_elements t) (as_elements u)))) answer)
        (IsDecodingError or OutOfMemory or TooLarge) (DeliversValue out.old out.new out_len.new result) }
{
    let made = RawJsonb::new(document).array_except(alloc, &RawJsonb::new(other));
    deliver_made(made, out, out_len)
}

/// Returns whether an element equals one of another document.
#[unsafe(no_mangle)]
pub extern "C" fn jdoc_array_overlap(
    alloc: Global,
    document: &[u8],
    other: &[u8],
    truth: &mut u8,
) -> u32
    ensures { WritesResult (λ answer. (form other_form : Form) (t u : Tree)
        → Decodes form document.now t → Decodes other_form other.now u
        → IsOkAnd answer (λ b. b ≡ overlap (as_elements t) (as_elements u)))
        IsDecodingError (ShowsAs from_bool truth.old truth.new result) }
{
    let document = RawJsonb::new(document);
    let other = RawJsonb::new(other);
    store_bool(document.array_overlap_in(alloc, &other), truth)
}
