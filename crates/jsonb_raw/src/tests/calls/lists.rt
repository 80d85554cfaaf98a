//! Results of several documents, in hexadecimal with spaces between them.

use super::hexadecimal::push_digits;
use crate::OwnedJsonb;
use jsonb_keypath::KeyPaths;
use std::alloc::{AllocError, Global};

/// Appends a document and a space.
fn push_document(text: &mut String, document: &OwnedJsonb) -> Result<(), AllocError> {
    push_digits(text, document.as_raw().as_bytes())?;
    text.push(' ')
}

/// Returns documents in hexadecimal.
pub fn listed(alloc: Global, documents: &[OwnedJsonb]) -> Result<String, AllocError> {
    let mut text = String::new(alloc);
    for document in documents {
        push_document(&mut text, document)?;
    }
    text.pop();
    Ok(text)
}

/// Returns keys and their values.
pub fn listed_pairs(alloc: Global, pairs: &[(String, OwnedJsonb)]) -> Result<String, AllocError> {
    let mut text = String::new(alloc);
    for (key, value) in pairs {
        text.push_str(key.as_str())?;
        text.push(' ')?;
        push_document(&mut text, value)?;
    }
    text.pop();
    Ok(text)
}

/// Returns the key paths of leaves and their documents.
pub fn listed_leaves(
    alloc: Global,
    leaves: &[(KeyPaths<'_>, OwnedJsonb)],
) -> Result<String, AllocError> {
    let mut text = String::new(alloc);
    for (path, document) in leaves {
        text.push_str(format!(in alloc; "{path} ")?.as_str())?;
        push_document(&mut text, document)?;
    }
    text.pop();
    Ok(text)
}
