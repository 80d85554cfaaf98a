//! The check that bytes decode, made without a tree.

ghost use Rattle.std.specs.Prelude.{◌≡◌, ◌≢◌, ◌↔◌, IsOk, IsErrOf, ℕ, List, [], MatchOption, MatchResult, option_copied};
ghost use Rattle.jsonb_doc.specs.Tree.{Tree};
ghost use Rattle.jsonb_doc.specs.Payload.{any};
ghost use Rattle.jsonb_doc.specs.AnyBytes.Unsupported.{number_or_unsupported, IsUnsupportedDocument, IsNoDocument};
ghost use Rattle.jsonb_doc.specs.Format.{Decodes};
ghost use Rattle.jsonb_doc.specs.Kinds.{kind_number};
ghost use Rattle.jsonb_doc.specs.Private.Checking.{Validates, HasContent, HasEntries, HasDocument, HasKeys, IsNextKey, HasParts, HasLarge, IsNoLonger, ReducesTo};

use crate::container::{Container, read_container};
use crate::error::Error;
use crate::extension::ExtensionValue;
use crate::layout::{EntryKind, split_entry};
use crate::number::Number;
use crate::utf8::text_of;
use std::cmp::Ordering;

/// Returns `Ok` if and only if the bytes decode. docs/FORMAT.md describes what decodes.
///
/// # Errors
///
/// `UnsupportedNumber` if and only if the bytes do not decode, but would if each float and each 256-bit decimal were a
/// number. `InvalidJsonb` if and only if they do not decode for another reason.
///
/// # Complexity
///
/// O(n) for n bytes. Does not allocate. The recursion depth is O(log n).
///
/// # Examples
///
/// ```rust crates/jsonb_examples/src/parts.rt
/// match check(bytes) {
///     Ok(()) => "a document",
///     Err(Error::UnsupportedNumber) => "a document with a float",
///     Err(_) => "damaged",
/// }
/// ```
#[tactic(auto, using(crate::proofs::Sets::checking_check))]
pub fn check(bytes: &[u8]) -> Result<(), Error>
    ensures ok { IsOk result ↔ ((t : Tree) × Decodes any bytes.now t) }
    ensures unsupported { IsErrOf result Error.UnsupportedNumber ↔ IsUnsupportedDocument bytes.now }
    ensures invalid { IsErrOf result Error.InvalidJsonb ↔ IsNoDocument bytes.now }
{
    check_document(bytes)
}

#[tactic(auto, using(crate::proofs::Sets::checking_check_document))]
fn check_document(bytes: &[u8]) -> Result<(), Error>
    ensures { Validates (HasDocument bytes.now) result }
{
    let Ok(container) = read_container(bytes) else {
        return Err(Error::InvalidJsonb);
    };
    match container {
        Container::Scalar(entry) => check_scalar(entry.kind, entry.content),
        _ => check_container(bytes),
    }
}

#[cycle(check)]
fn check_content(kind: EntryKind, content: &[u8]) -> Result<(), Error>
    ensures { Validates (HasContent (kind_number kind) content.now) result }
{
    match kind {
        EntryKind::Container => check_container(content),
        _ => check_scalar(kind, content),
    }
}

#[tactic(auto, using(crate::proofs::ScalarLemmas::number_refused))]
fn check_scalar(kind: EntryKind, content: &[u8]) -> Result<(), Error>
    requires { kind_number kind ≢ 5 }
    ensures { Validates (HasContent (kind_number kind) content.now) result }
{
    match kind {
        EntryKind::Null | EntryKind::False | EntryKind::True => check_empty(content),
        EntryKind::Text => match text_of(content) {
            Some(_) => Ok(()),
            None => Err(Error::InvalidJsonb),
        },
        EntryKind::Number => match Number::from_payload(content) {
            Ok(_) => Ok(()),
            Err(error) => Err(error),
        },
        EntryKind::Extension => match ExtensionValue::from_payload(content) {
            Ok(_) => Ok(()),
            Err(error) => Err(error),
        },
        EntryKind::Container | EntryKind::Unknown => Err(Error::InvalidJsonb),
    }
}

fn check_empty(content: &[u8]) -> Result<(), Error>
    ensures { MatchResult result (λ _. content.now ≡ []) (λ e. (e ≡ Error.InvalidJsonb) × (content.now ≢ [])) }
{
    if content.is_empty() {
        Ok(())
    } else {
        Err(Error::InvalidJsonb)
    }
}

/// Returns `Ok` if and only if the content of a container decodes.
///
/// The loop enters a child that is longer than half of its container, and calls enter the others. So the recursion
/// depth is logarithmic in the length.
#[cycle(check)]
fn check_container(bytes: &[u8]) -> Result<(), Error>
    ensures { Validates (HasContent 5 bytes.now) result }
{
    let mut container = bytes;
    let mut is_supported = true;
    loop {
        let Some((words, contents)) = split_container(container) else {
            return Err(Error::InvalidJsonb);
        };
        let Some(entries) = check_entries(words, contents) else {
            return Err(Error::InvalidJsonb);
        };
        is_supported &= entries.is_supported;
        let Some(large) = entries.large else {
            break;
        };
        container = large;
    }
    if is_supported {
        Ok(())
    } else {
        Err(Error::UnsupportedNumber)
    }
}

/// Returns the entry words and the contents of an array's elements or of an object's values.
fn split_container(bytes: &[u8]) -> Option<(&[u8], &[u8])>
    ensures { MatchOption result (HasContent 5 bytes.now number_or_unsupported → ⊥)
        (λ r. HasParts bytes.now r.0.now r.1.now) }
{
    let Ok(container) = read_container(bytes) else {
        return None;
    };
    match container {
        Container::Scalar(_) => None,
        Container::Array(parts) => Some((parts.words, parts.contents)),
        Container::Object(parts) => {
            let contents = skip_keys(parts.key_words, parts.contents)?;
            Some((parts.value_words, contents))
        }
    }
}

/// What is known of entries, except for one container among them.
#[derive(Clone, Copy)]
struct Entries<'a> {
    /// No unsupported number was found.
    is_supported: bool,
    /// The container that is longer than half of the contents.
    large: Option<&'a [u8]>,
}

/// Checks the contents of these entry words, except for a large container, which is returned.
#[cycle(check)]
fn check_entries<'a>(words: &[u8], contents: &'a [u8]) -> Option<Entries<'a>>
    ensures { MatchOption result (HasEntries words.now contents.now number_or_unsupported → ⊥)
        (λ r. IsNoLonger (option_copied r.large) contents.now
        × ReducesTo r.is_supported (HasEntries words.now contents.now) (HasLarge (option_copied r.large))) }
{
    let half = contents.len() / 2;
    let mut words_left = words;
    let mut contents_left = contents;
    let mut is_supported = true;
    let mut large: Option<&[u8]> = None;
    while !words_left.is_empty() {
        let Some(entry) = split_entry(words_left, contents_left) else {
            return None;
        };
        if entry.kind == EntryKind::Container && entry.content.len() > half {
            large = Some(entry.content);
        } else {
            match check_content(entry.kind, entry.content) {
                Ok(()) => {}
                Err(error) => match error {
                    Error::UnsupportedNumber => is_supported = false,
                    _ => return None,
                },
            }
        }
        words_left = entry.other_words;
        contents_left = entry.other_contents;
    }
    if !contents_left.is_empty() {
        return None;
    }
    Some(Entries {
        is_supported,
        large,
    })
}

/// Returns the bytes after the keys of these entry words.
#[tactic(auto, using(crate::proofs::Sets::checking_skip_keys))]
pub fn skip_keys<'a>(words: &[u8], bytes: &'a [u8]) -> Option<&'a [u8]>
    ensures { MatchOption result ((rest : List ℕ) → HasKeys words.now bytes.now rest → ⊥)
        (λ rest. HasKeys words.now bytes.now rest.now) }
{
    let mut words_left = words;
    let mut bytes_left = bytes;
    let mut last: Option<&str> = None;
    while !words_left.is_empty() {
        let Some(entry) = split_entry(words_left, bytes_left) else {
            return None;
        };
        if entry.kind != EntryKind::Text {
            return None;
        }
        let Some(key) = next_key(last, entry.content) else {
            return None;
        };
        last = Some(key);
        words_left = entry.other_words;
        bytes_left = entry.other_contents;
    }
    Some(bytes_left)
}

/// Returns the bytes as a key, if they are one that may follow the last.
fn next_key<'a>(last: Option<&str>, bytes: &'a [u8]) -> Option<&'a str>
    ensures { MatchOption result (IsNextKey (option_copied last.entry) bytes.now → ⊥)
        (λ key. (key.now ≡ bytes.now) × IsNextKey (option_copied last.entry) bytes.now) }
{
    let key = text_of(bytes)?;
    let Some(last) = last else {
        return Some(key);
    };
    match last.cmp(key) {
        Ordering::Less => Some(key),
        _ => None,
    }
}

#[cfg(test)]
mod tests;
