//! The depth of documents, computed without a tree.

ghost use Rattle.std.specs.Prelude.{◌≡◌, ◌↔◌, ◌≤◌, ◌<◌, ◌+◌, IsOk, IsErrOf, IfSome, length, option_copied, MatchOption, Ok};
ghost use Rattle.jsonb_doc.specs.Tree.{Tree, Trees, no_trees};
ghost use Rattle.jsonb_doc.specs.Payload.{Form, any, number_reader};
ghost use Rattle.jsonb_doc.specs.Format.{AreEntries, Decodes};
ghost use Rattle.jsonb_doc.specs.AnyBytes.Unsupported.{IsUnsupportedDocument, IsNoDocument};
ghost use Rattle.jsonb_doc.specs.Depth.{deepest};
ghost use Rattle.jsonb_doc.specs.Private.Checking.{IsNoLonger};
ghost use Rattle.jsonb_doc.specs.Private.Depths.{parts_of, AreDeep};

use crate::checking::check;
use crate::container::{Container, read_container};
use crate::error::Error;
use crate::layout::{EntryKind, split_entry};

/// Returns the depth of the deepest item of a document.
///
/// The root has depth 0, and the elements and values of a container have one more than it. So a scalar and an empty
/// container have depth 0, `[1]` and `{"a":[]}` have 1.
///
/// # Errors
///
/// An error of `check`, if and only if the bytes do not decode.
///
/// # Complexity
///
/// O(n) for n bytes: that of `check`, and a second visit of the entry words. Does not allocate. The recursion depth is
/// O(log n).
///
/// # Examples
///
/// ```rust crates/jsonb_examples/src/parts.rt
/// Ok(depth(document)? <= 1)
/// ```
pub fn depth(bytes: &[u8]) -> Result<usize, Error>
    ensures depth { (form : Form) (t : Tree) → Decodes form bytes.now t → result ≡ Ok (deepest t) }
    ensures ok { IsOk result ↔ ((t : Tree) × Decodes any bytes.now t) }
    ensures unsupported { IsErrOf result Error.UnsupportedNumber ↔ IsUnsupportedDocument bytes.now }
    ensures invalid { IsErrOf result Error.InvalidJsonb ↔ IsNoDocument bytes.now }
{
    check(bytes)?;
    Ok(document_depth(bytes))
}

/// Returns `Ok` if and only if the bytes decode and their `depth` is at most the limit.
///
/// # Errors
///
/// An error of `check`, if and only if the bytes do not decode; otherwise `TooDeep` if and only if an item is deeper.
///
/// # Complexity
///
/// O(n) for n bytes. Does not allocate. The recursion depth is O(log n).
///
/// # Examples
///
/// ```rust crates/jsonb_examples/src/parts.rt
/// check_depth(bytes, limit)?;
/// let root = root_item(bytes)?;
/// to_value(alloc, &root)
/// ```
pub fn check_depth(bytes: &[u8], limit: usize) -> Result<(), Error>
    ensures ok { IsOk result ↔ ((t : Tree) × Decodes any bytes.now t × (deepest t ≤ limit)) }
    ensures too_deep { IsErrOf result Error.TooDeep ↔ ((t : Tree) × Decodes any bytes.now t × (limit < deepest t)) }
    ensures unsupported { IsErrOf result Error.UnsupportedNumber ↔ IsUnsupportedDocument bytes.now }
    ensures invalid { IsErrOf result Error.InvalidJsonb ↔ IsNoDocument bytes.now }
{
    if depth(bytes)? > limit {
        Err(Error::TooDeep)
    } else {
        Ok(())
    }
}

/// Returns the depth of a document. Other bytes have any depth.
///
/// The loop enters a container that is longer than half of its parent, and calls enter the others. So the recursion
/// depth is logarithmic in the length.
#[cycle(depth)]
fn document_depth(bytes: &[u8]) -> usize
    ensures depth { (form : Form) (t : Tree) → Decodes form bytes.now t → result ≡ deepest t }
    ensures room { result ≤ length bytes.now }
{
    let mut container = bytes;
    let mut level = 0;
    let mut deepest = 0;
    while let Some((words, contents)) = split_parts(container) {
        let depths = entries_depth(words, contents);
        deepest = deepest.max(level + depths.known);
        let Some(large) = depths.large else {
            break;
        };
        container = large;
        level += 1;
    }
    deepest.max(level)
}

/// Returns the entry words and the contents of an array's elements or of an object's values.
#[tactic(auto, using(crate::proofs::Sets::nesting_split_parts))]
fn split_parts(bytes: &[u8]) -> Option<(&[u8], &[u8])>
    ensures parts { (form : Form) (t : Tree) → Decodes form bytes.now t
        → MatchOption result (parts_of t ≡ no_trees)
        (λ r. AreEntries (number_reader form) (parts_of t) r.0.now r.1.now) }
    ensures room { IfSome result (λ r. 4 + length r.1.now ≤ length bytes.now) }
{
    let Ok(container) = read_container(bytes) else {
        return None;
    };
    match container {
        Container::Scalar(_) => None,
        Container::Array(parts) => Some((parts.words, parts.contents)),
        Container::Object(parts) => match parts.value_contents() {
            Ok(contents) => Some((parts.value_words, contents)),
            Err(_) => None,
        },
    }
}

/// What is known of the depth of entries, seen from their container.
#[derive(Clone, Copy)]
struct Depths<'a> {
    /// The depth of the items, except for those in the large container.
    known: usize,
    /// The container that is longer than half of the contents.
    large: Option<&'a [u8]>,
}

/// Returns the depth of the items of these entries, except for those in a container that is longer than half of all.
#[cycle(depth)]
fn entries_depth<'a>(words: &[u8], contents: &'a [u8]) -> Depths<'a>
    ensures depth { (form : Form) (ts : Trees) → AreEntries (number_reader form) ts words.now contents.now
        → AreDeep form ts result.known (option_copied result.large) }
    ensures room { result.known ≤ 1 + length contents.now }
    ensures large { IsNoLonger (option_copied result.large) contents.now }
{
    let half = contents.len() / 2;
    let mut words_left = words;
    let mut contents_left = contents;
    let mut known = 0;
    let mut large: Option<&[u8]> = None;
    while let Some(entry) = split_entry(words_left, contents_left) {
        let mut within = 0;
        if entry.kind == EntryKind::Container {
            if entry.content.len() > half {
                large = Some(entry.content);
            } else {
                within = document_depth(entry.content);
            }
        }
        known = known.max(1 + within);
        words_left = entry.other_words;
        contents_left = entry.other_contents;
    }
    Depths { known, large }
}

#[cfg(test)]
mod tests;
