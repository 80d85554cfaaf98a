//! Calls on a document, and cases of them.

use crate::answer::{Answer, Wanted, is_answer};
use crate::mark::tell;
use jsonb::{
    Error, RawJsonb, composite_key, composite_key_wide, push_column_key, push_column_key_wide,
};
use std::alloc::Global;

/// A key of a whole document.
#[derive(Clone, Copy)]
pub enum Key {
    Comparable,
    ComparableWide,
    Equality,
}

impl Key {
    fn made(self, alloc: Global, document: RawJsonb<'_>) -> Result<Vec<u8>, Error> {
        match self {
            Key::Comparable => document.convert_to_comparable(alloc),
            Key::ComparableWide => document.convert_to_comparable_wide(alloc),
            Key::Equality => document.equality_key(alloc),
        }
    }

    /// Returns the key, written by the `_into` function into a new vector.
    fn pushed(self, alloc: Global, document: RawJsonb<'_>) -> Result<Vec<u8>, Error> {
        let mut key = Vec::new(alloc);
        match self {
            Key::Comparable => document.convert_to_comparable_into(alloc, &mut key)?,
            Key::ComparableWide => document.convert_to_comparable_wide_into(alloc, &mut key)?,
            Key::Equality => document.equality_key_into(alloc, &mut key)?,
        }
        Ok(key)
    }
}

/// Returns the composite key of the document and a missing value.
fn composite(alloc: Global, document: RawJsonb<'_>) -> Result<Vec<u8>, Error> {
    let mut key = Vec::new(alloc);
    push_column_key(alloc, &mut key, Some(document))?;
    push_column_key(alloc, &mut key, None)?;
    Ok(key)
}

/// Returns the wide composite key of the document and a missing value.
fn composite_wide(alloc: Global, document: RawJsonb<'_>) -> Result<Vec<u8>, Error> {
    let mut key = Vec::new(alloc);
    push_column_key_wide(alloc, &mut key, Some(document))?;
    push_column_key_wide(alloc, &mut key, None)?;
    Ok(key)
}

/// A call on a document, with what it takes besides.
#[derive(Clone, Copy)]
pub enum Call<'a> {
    Values,
    Distinct,
    Intersection(&'a [u8]),
    Except(&'a [u8]),
    InsertAt(i32, &'a [u8]),
    GetAt(usize),
    DeleteAt(i32),
    Keys,
    /// The key and the value of a new pair.
    Insert(&'a str, &'a [u8]),
    /// The key and the value of a pair that may be there.
    Replace(&'a str, &'a [u8]),
    Get(&'a str),
    GetIgnoringCase(&'a str),
    Delete(&'a str),
    Concat(&'a [u8]),
    StripNulls,
    Make(Key),
    Push(Key),
    Composite,
    CompositeWide,
    Row,
    RowWide,
    ToStr,
    AsBinary,
}

impl Call<'_> {
    /// Makes the call.
    pub fn answer(&self, alloc: Global, on: RawJsonb<'_>) -> Result<Answer, Error> {
        let made = match *self {
            Call::Distinct => on.array_distinct(alloc),
            Call::Intersection(other) => on.array_intersection(alloc, &RawJsonb::new(other)),
            Call::Except(other) => on.array_except(alloc, &RawJsonb::new(other)),
            Call::InsertAt(place, new) => on.array_insert(alloc, place, &RawJsonb::new(new)),
            Call::DeleteAt(index) => on.delete_by_index(alloc, index),
            Call::Insert(key, new) => on.object_insert(alloc, key, &RawJsonb::new(new), false),
            Call::Replace(key, new) => on.object_insert(alloc, key, &RawJsonb::new(new), true),
            Call::Delete(name) => on.delete_by_name(alloc, name),
            Call::Concat(other) => on.concat(alloc, &RawJsonb::new(other)),
            Call::StripNulls => on.strip_nulls(alloc),
            Call::Values => return on.array_values(alloc).map(Answer::found_all),
            Call::GetAt(index) => return on.get_by_index(alloc, index).map(Answer::found),
            Call::Keys => return on.object_keys(alloc).map(Answer::found),
            Call::Get(name) => return on.get_by_name(alloc, name, false).map(Answer::found),
            Call::GetIgnoringCase(name) => {
                return on.get_by_name(alloc, name, true).map(Answer::found);
            }
            Call::Make(key) => return key.made(alloc, on).map(Answer::Bytes),
            Call::Push(key) => return key.pushed(alloc, on).map(Answer::Bytes),
            Call::Composite => return composite(alloc, on).map(Answer::Bytes),
            Call::CompositeWide => return composite_wide(alloc, on).map(Answer::Bytes),
            Call::Row => return composite_key(alloc, &[Some(on), None]).map(Answer::Bytes),
            Call::RowWide => return composite_key_wide(alloc, &[Some(on), None]).map(Answer::Bytes),
            Call::ToStr => return on.to_str(alloc).map(Answer::string),
            Call::AsBinary => return on.as_binary(alloc).map(Answer::found_bytes),
        };
        made.map(Answer::document)
    }
}

/// Makes the call between the marks. Returns `true` if its result is the expected one.
pub fn asked(
    rt: &HostRuntime,
    call: &Call<'_>,
    document: &[u8],
    wanted: Wanted<'_>,
) -> Result<bool, Error> {
    let document = RawJsonb::new(document);
    is_answer(marked!(rt, call.answer(rt.alloc(), document)), wanted)
}

/// Makes the call, and again between the marks. Returns `true` if both results are equal.
pub fn asked_again(rt: &HostRuntime, call: &Call<'_>, document: &[u8]) -> Result<bool, Error> {
    let first = call.answer(rt.alloc(), RawJsonb::new(document))?;
    asked(rt, call, document, first.as_wanted())
}

/// The name of a case, its call, its document, and the expected result.
pub type Case = (&'static str, Call<'static>, &'static [u8], Wanted<'static>);

/// Makes the call of each case, and reports its result.
pub fn ask_each(rt: &HostRuntime, cases: &[Case]) {
    for (name, call, document, wanted) in cases {
        tell(rt, *name, asked(rt, call, document, *wanted));
    }
}
