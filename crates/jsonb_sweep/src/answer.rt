//! The result of a call, and the expected one.

use jsonb::{Error, OwnedJsonb};
use std::alloc::{AllocError, Global};
use std::fmt::Display;

/// The result of a call.
#[derive(Drop)]
pub enum Answer {
    Nothing,
    Truth(bool),
    /// A document, a string, or other bytes.
    Bytes(Vec<u8>),
    Documents(Vec<OwnedJsonb>),
}

/// The expected result.
#[derive(Clone, Copy)]
pub enum Wanted<'a> {
    Nothing,
    Truth(bool),
    Bytes(&'a [u8]),
    Documents(&'a [&'a [u8]]),
    /// This many documents.
    Count(u64),
}

impl Answer {
    /// A document.
    pub fn document(document: OwnedJsonb) -> Answer {
        Answer::Bytes(document.to_vec())
    }

    /// A string.
    pub fn string(text: String) -> Answer {
        Answer::Bytes(text.into_bytes())
    }

    /// The document that was found, if there is one.
    pub fn found(document: Option<OwnedJsonb>) -> Answer {
        document.map_or(Answer::Nothing, Answer::document)
    }

    /// The documents that were found, if there are any.
    pub fn found_all(documents: Option<Vec<OwnedJsonb>>) -> Answer {
        documents.map_or(Answer::Nothing, Answer::Documents)
    }

    /// The bytes that were found, if there are any.
    pub fn found_bytes(bytes: Option<Vec<u8>>) -> Answer {
        bytes.map_or(Answer::Nothing, Answer::Bytes)
    }

    /// The truth that was found, if there is one.
    pub fn found_truth(truth: Option<bool>) -> Answer {
        truth.map_or(Answer::Nothing, Answer::Truth)
    }

    /// Returns what an equal result has to be. For several documents that is their number only.
    pub fn as_wanted(&self) -> Wanted<'_> {
        match self {
            Answer::Nothing => Wanted::Nothing,
            Answer::Truth(truth) => Wanted::Truth(*truth),
            Answer::Bytes(bytes) => Wanted::Bytes(bytes),
            Answer::Documents(documents) => Wanted::Count(documents.len() as u64),
        }
    }

    /// Returns `true` if the result is the expected one.
    pub fn is(&self, wanted: Wanted<'_>) -> bool {
        match self {
            Answer::Nothing => matches!(wanted, Wanted::Nothing),
            Answer::Truth(truth) => wanted.is_truth(*truth),
            Answer::Bytes(bytes) => wanted.is_bytes(bytes),
            Answer::Documents(documents) => wanted.are_documents(documents),
        }
    }
}

impl Wanted<'_> {
    fn is_truth(self, truth: bool) -> bool {
        match self {
            Wanted::Truth(wanted) => truth == wanted,
            _ => false,
        }
    }

    fn is_bytes(self, bytes: &[u8]) -> bool {
        match self {
            Wanted::Bytes(wanted) => bytes == wanted,
            _ => false,
        }
    }

    fn are_documents(self, documents: &[OwnedJsonb]) -> bool {
        match self {
            Wanted::Documents(wanted) => are(documents, wanted),
            Wanted::Count(wanted) => documents.len() as u64 == wanted,
            _ => false,
        }
    }
}

/// Returns `true` if these are the expected documents.
fn are(documents: &[OwnedJsonb], wanted: &[&[u8]]) -> bool {
    if documents.len() != wanted.len() {
        return false;
    }
    for (document, wanted) in documents.iter().zip(wanted) {
        if document.as_raw().as_bytes() != *wanted {
            return false;
        }
    }
    true
}

/// Returns `true` if a call returned the expected result.
pub fn is_answer(answer: Result<Answer, Error>, wanted: Wanted<'_>) -> Result<bool, Error> {
    Ok(answer?.is(wanted))
}

/// Returns `true` if a call returned this string.
pub fn is_text(answer: Result<String, AllocError>, wanted: &str) -> Result<bool, Error> {
    Ok(answer?.as_str() == wanted)
}

/// Returns `true` if a call returned this value.
pub fn is_same<T: PartialEq + Drop>(answer: Result<T, Error>, wanted: &T) -> Result<bool, Error> {
    Ok(answer? == *wanted)
}

/// Returns `true` if a call returned these bytes.
pub fn is_bytes(answer: Result<Vec<u8>, Error>, wanted: &[u8]) -> Result<bool, Error> {
    Ok(answer?.as_slice() == wanted)
}

/// Returns `true` if a call returned this document.
pub fn is_document(answer: Result<OwnedJsonb, Error>, wanted: &[u8]) -> Result<bool, Error> {
    Ok(answer?.as_raw().as_bytes() == wanted)
}

/// Returns `true` if both are right. Otherwise what is wrong with the first, or with the second.
pub fn both(first: Result<bool, Error>, second: Result<bool, Error>) -> Result<bool, Error> {
    Ok(first? && second?)
}

/// Returns `true` if a call returned what prints so.
pub fn prints<T: Display + Drop>(
    alloc: Global,
    answer: Result<T, Error>,
    text: &[u8],
) -> Result<bool, Error> {
    let value = answer?;
    Ok(format!(in alloc; "{value}")?.as_bytes() == text)
}
