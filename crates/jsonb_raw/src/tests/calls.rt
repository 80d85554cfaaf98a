//! The tables of docs/CALLS.md, run row by row.

ghost use Rattle.std.specs.Prelude.{◌≡◌, map, IsOkAnd};
ghost use Rattle.jsonb_doc.specs.Tree.{Tree};
ghost use Rattle.jsonb_doc.specs.Payload.{Form};
ghost use Rattle.jsonb_doc.specs.Format.{Decodes};
ghost use Rattle.jsonb_raw.specs.Documents.{raw_bytes};
ghost use Rattle.jsonb_raw.specs.Exists.{has_all};

mod hexadecimal;
mod lists;
mod rows;
mod scalars;

use self::hexadecimal::{bytes, digits};
use self::lists::{listed, listed_leaves, listed_pairs};
use self::rows::ROWS;
use self::scalars::{says, scalar_holds};
use super::part_at;
use crate::{OwnedJsonb, RawJsonb};
use jsonb_doc::Error;
use jsonb_keypath::parse_key_paths;
use std::alloc::{AllocError, Global};
use std::cmp::Ordering;
use std::collections::BTreeSet;

/// The document and the arguments of a call, and the expected result.
#[derive(Drop)]
struct Asked<'d, 'o, 't> {
    alloc: Global,
    document: RawJsonb<'d>,
    other: RawJsonb<'o>,
    text: &'t str,
    wanted: &'t str,
}

/// Returns the names of a comma-separated list.
fn names<'a>(alloc: Global, text: &'a str) -> Result<Vec<&'a str>, AllocError> {
    let mut names = Vec::new(alloc);
    if !text.is_empty() {
        names.extend(text.split(','))?;
    }
    Ok(names)
}

/// Returns the names of a comma-separated list as a set.
fn name_set<'a>(alloc: Global, text: &'a str) -> Result<BTreeSet<&'a str>, AllocError> {
    let mut set = BTreeSet::new(alloc);
    if !text.is_empty() {
        set.extend(text.split(','))?;
    }
    Ok(set)
}

/// Returns whether the document has all of the names: a caller, with what it knows of the result.
fn has_each(document: &RawJsonb<'_>, names: &[&str]) -> Result<bool, Error>
    ensures { (form : Form) (t : Tree) → Decodes form (raw_bytes document.now) t
        → IsOkAnd result (λ b. b ≡ has_all (map (λ name. name.now) names.now) t) }
{
    document.exists_all_keys(names.iter().copied())
}

/// Returns the result of a call, which that of the call with an allocator must equal.
fn agreed(found: Result<bool, Error>, made: Result<bool, Error>) -> Result<bool, Error> {
    if found == made {
        found
    } else {
        Err(Error::TooLarge)
    }
}

/// Returns the number of an argument, 0 if it is not one.
fn index(text: &str) -> i32 {
    text.parse::<i32>().unwrap_or(0)
}

impl Asked<'_, '_, '_> {
    /// Returns whether the call has the expected result, which may be an error.
    fn holds(&self, call: &str) -> Result<bool, Error> {
        match self.call_holds(call) {
            Ok(is_so) => Ok(is_so),
            Err(error) => {
                let refused = format!(in self.alloc; "refused: {error}")?;
                Ok(refused.as_str() == self.wanted)
            }
        }
    }

    /// Returns whether the result of the call is the expected one. A group of calls that lacks this one returns `None`.
    fn call_holds(&self, call: &str) -> Result<bool, Error> {
        if let Some(is_so) = self.place_holds(call)? {
            return Ok(is_so);
        }
        if let Some(is_so) = self.list_holds(call)? {
            return Ok(is_so);
        }
        if let Some(is_so) = self.edit_holds(call)? {
            return Ok(is_so);
        }
        if let Some(is_so) = self.key_holds(call)? {
            return Ok(is_so);
        }
        if let Some(is_so) = self.truth_holds(call)? {
            return Ok(is_so);
        }
        scalar_holds(self.alloc, call, &self.document, self.wanted)
    }

    /// Returns whether these bytes are the expected result.
    fn is_wanted(&self, bytes: &[u8]) -> Result<Option<bool>, Error> {
        Ok(Some(digits(self.alloc, bytes)?.as_str() == self.wanted))
    }

    /// Returns the value at a key path.
    fn part(&self) -> Result<Option<OwnedJsonb>, Error> {
        let path = parse_key_paths(self.alloc, self.text.as_bytes())?;
        part_at(self.alloc, &self.document, &path)
    }

    /// Runs functions that return a value of the document.
    fn place_holds(&self, call: &str) -> Result<Option<bool>, Error> {
        let (alloc, document, text) = (self.alloc, &self.document, self.text);
        let found = match call {
            "get_by_keypath" => self.part(),
            "get_by_index" => document.get_by_index(alloc, text.parse::<usize>().unwrap_or(0)),
            "get_by_name" => document.get_by_name(alloc, text, false),
            "get_by_name_ignore_case" => document.get_by_name(alloc, text, true),
            "object_keys" => document.object_keys(alloc),
            _ => return Ok(None),
        };
        match found? {
            Some(part) => self.is_wanted(part.as_raw().as_bytes()),
            None => Ok(Some(self.wanted == "none")),
        }
    }

    /// Runs functions that return several documents, or an order.
    fn list_holds(&self, call: &str) -> Result<Option<bool>, Error> {
        let is_so = match call {
            "array_values" => self.elements_hold(),
            "object_each" => self.pairs_hold(),
            "leaves" => self.leaves_hold(false),
            "leaves_ignoring_arrays" => self.leaves_hold(true),
            "compare" => self.order_holds(),
            _ => return Ok(None),
        };
        Ok(Some(is_so?))
    }

    fn elements_hold(&self) -> Result<bool, Error> {
        Ok(match self.document.array_values(self.alloc)? {
            Some(elements) => listed(self.alloc, &elements)?.as_str() == self.wanted,
            None => self.wanted == "none",
        })
    }

    fn pairs_hold(&self) -> Result<bool, Error> {
        Ok(match self.document.object_each(self.alloc)? {
            Some(pairs) => listed_pairs(self.alloc, &pairs)?.as_str() == self.wanted,
            None => self.wanted == "none",
        })
    }

    fn leaves_hold(&self, ignore_array: bool) -> Result<bool, Error> {
        let leaves = self.document.leaf_documents(self.alloc, ignore_array)?;
        Ok(listed_leaves(self.alloc, &leaves)?.as_str() == self.wanted)
    }

    fn order_holds(&self) -> Result<bool, Error> {
        let name = match self.document.compare(&self.other)? {
            Ordering::Less => "Less",
            Ordering::Equal => "Equal",
            Ordering::Greater => "Greater",
        };
        Ok(name == self.wanted)
    }

    /// Returns the object with only the members of a set of names, or without them.
    fn by_names(&self, is_picked: bool) -> Result<OwnedJsonb, Error> {
        let names = name_set(self.alloc, self.text)?;
        if is_picked {
            self.document.object_pick(self.alloc, &names)
        } else {
            self.document.object_delete(self.alloc, &names)
        }
    }

    /// Returns the document without the value at a key path.
    fn without_part(&self) -> Result<OwnedJsonb, Error> {
        let path = parse_key_paths(self.alloc, self.text.as_bytes())?;
        self.document
            .delete_by_keypath(self.alloc, path.paths.iter())
    }

    /// Runs functions that return a document.
    fn edit_holds(&self, call: &str) -> Result<Option<bool>, Error> {
        let (alloc, document, other, text) = (self.alloc, &self.document, &self.other, self.text);
        let made = match call {
            "object_insert" => document.object_insert(alloc, text, other, false),
            "object_update" => document.object_insert(alloc, text, other, true),
            "object_pick" => self.by_names(true),
            "object_delete" => self.by_names(false),
            "array_insert" => document.array_insert(alloc, index(text), other),
            "array_distinct" => document.array_distinct(alloc),
            "array_intersection" => document.array_intersection(alloc, other),
            "array_except" => document.array_except(alloc, other),
            "delete_by_index" => document.delete_by_index(alloc, index(text)),
            "delete_by_name" => document.delete_by_name(alloc, text),
            "delete_by_keypath" => self.without_part(),
            "concat" => document.concat(alloc, other),
            "strip_nulls" => document.strip_nulls(alloc),
            _ => return Ok(None),
        };
        self.is_wanted(made?.as_raw().as_bytes())
    }

    /// Runs functions that return a key.
    fn key_holds(&self, call: &str) -> Result<Option<bool>, Error> {
        let (alloc, document) = (self.alloc, &self.document);
        let key = match call {
            "convert_to_comparable" => document.convert_to_comparable(alloc),
            "convert_to_comparable_wide" => document.convert_to_comparable_wide(alloc),
            "equality_key" => document.equality_key(alloc),
            _ => return Ok(None),
        };
        self.is_wanted(&key?)
    }

    /// Returns `true` if all, or any, of the names exist.
    fn names_exist(&self, all: bool) -> Result<bool, Error> {
        let (alloc, document) = (self.alloc, &self.document);
        let names = names(alloc, self.text)?;
        if all {
            let made = document.exists_all_keys_in(alloc, names.iter().copied());
            agreed(has_each(document, &names), made)
        } else {
            let made = document.exists_any_keys_in(alloc, names.iter().copied());
            agreed(document.exists_any_keys(names.iter().copied()), made)
        }
    }

    /// Returns `true` if the documents share an element.
    fn overlaps(&self) -> Result<bool, Error> {
        let (document, other) = (&self.document, &self.other);
        let made = document.array_overlap_in(self.alloc, other);
        agreed(document.array_overlap(other), made)
    }

    /// Returns `true` if the document contains the other one.
    fn contains(&self) -> Result<bool, Error> {
        let (document, other) = (&self.document, &self.other);
        let made = document.contains_in(self.alloc, other);
        agreed(document.contains(other), made)
    }

    /// Runs functions that return a Boolean.
    fn truth_holds(&self, call: &str) -> Result<Option<bool>, Error> {
        let (document, other, text) = (&self.document, &self.other, self.text);
        let is_so = match call {
            "exists_all_keys" => self.names_exist(true),
            "exists_any_keys" => self.names_exist(false),
            "traverse_check_string" => document.traverse_check_string(|s| s == text.as_bytes()),
            "contains" => self.contains(),
            "array_overlap" => self.overlaps(),
            "check" => document.check().map(|()| true),
            _ => return Ok(None),
        };
        Ok(Some(says(self.wanted, is_so?)))
    }
}

/// Returns the columns of a row: the call, its document, another one, a string, and the result.
fn parts(row: &str) -> Option<(&str, &str, &str, &str, &str)> {
    let (asked, wanted) = row.split_once(" =>")?;
    let (call, rest) = asked.split_once(' ')?;
    let (document, rest) = rest.split_once(' ').unwrap_or((rest, ""));
    let (other, text) = rest.split_once(' ').unwrap_or((rest, ""));
    Some((
        call,
        document,
        other,
        text,
        wanted.strip_prefix(' ').unwrap_or(wanted),
    ))
}

/// Returns whether a row states the result.
fn holds(alloc: Global, row: &str) -> Result<bool, Error> {
    let Some((call, document, other, text, wanted)) = parts(row) else {
        return Ok(false);
    };
    let (document_bytes, other_bytes) = (bytes(alloc, document)?, bytes(alloc, other)?);
    let document = RawJsonb::new(document_bytes.as_slice());
    let other = RawJsonb::new(other_bytes.as_slice());
    let asked = Asked {
        alloc,
        document,
        other,
        text,
        wanted,
    };
    asked.holds(call)
}

#[test]
fn answers_are_as_the_tables_say(rt: HostRuntime) {
    for row in ROWS.lines().skip(1) {
        assert!(rt; matches!(holds(rt.alloc(), row), Ok(true)), "{row}");
    }
}
