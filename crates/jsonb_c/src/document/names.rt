//! Functions that take a column of names.

ghost use Rattle.std.specs.Prelude.{◌≡◌, ◌⊎◌, ℕ, List, Err, IfErr, IsOkAnd, MatchResult, Ok, map, option_copied};
ghost use Rattle.jsonb_doc.specs.Answer.{IsDecodingError, IsOutOfMemory, ◌or◌};
ghost use Rattle.jsonb_doc.specs.declared.error.Error.TheVariants.{InvalidObject, OutOfMemory, TooLarge};
ghost use Rattle.jsonb_raw.specs.Exists.{has_all, has_any};
ghost use Rattle.jsonb_c.specs.Answers.{DeliversNothing, DeliversValue, OfDocument, ShowsAs, ShowsNothing, With, WritesResult};
ghost use Rattle.std.specs.Int.{from_bool};
ghost use Rattle.jsonb_c.specs.Calls.{MakesOr};
ghost use Rattle.jsonb_c.specs.Columns.{rows};
ghost use Rattle.jsonb_c.specs.Names.{dropped_names, names_of, picked_names};
ghost use Rattle.jsonb_c.specs.Private.NameColumns.{DeliversPairs, HasNames, IsNameOf, ShowsKeys, chosen_pairs, has_keys};
ghost use Rattle.jsonb_c.specs.declared.status.Status.TheVariants.{Refused};

use crate::column::Column;
use crate::deliver::{deliver_made, deliver_nothing, store_bool};
use crate::status::Status;
use jsonb::{Error, OwnedJsonb, RawJsonb};
use std::alloc::Global;
use std::collections::BTreeSet;

/// Returns whether the document has each of the names: as a key of an object, as an element of an array, or as the
/// root.
#[unsafe(no_mangle)]
pub extern "C" fn jdoc_exists_all_keys(
    alloc: Global,
    document: &[u8],
    names: &[u8],
    offsets: &[u64],
    truth: &mut u8,
) -> u32
    ensures { With (names_of (rows names.now offsets.now)) (λ wanted. WritesResult
        (OfDocument document.now (λ form t said. IsOkAnd said (λ b. b ≡ has_all wanted t))) IsDecodingError
        (ShowsAs from_bool truth.old truth.new result))
        (ShowsNothing truth.old truth.new result) }
{
    store_exists_keys(alloc, document, names, offsets, Quantity::All, truth)
}

/// Returns whether the document has one of the names: as a key of an object, as an element of an array, or as the
/// root.
#[unsafe(no_mangle)]
pub extern "C" fn jdoc_exists_any_keys(
    alloc: Global,
    document: &[u8],
    names: &[u8],
    offsets: &[u64],
    truth: &mut u8,
) -> u32
    ensures { With (names_of (rows names.now offsets.now)) (λ wanted. WritesResult
        (OfDocument document.now (λ form t said. IsOkAnd said (λ b. b ≡ has_any wanted t))) IsDecodingError
        (ShowsAs from_bool truth.old truth.new result))
        (ShowsNothing truth.old truth.new result) }
{
    store_exists_keys(alloc, document, names, offsets, Quantity::Any, truth)
}

/// The number of names that must exist.
#[derive(Clone, Copy)]
enum Quantity {
    /// All.
    All,
    /// At least one.
    Any,
}

/// Stores whether the document has all, or any, of the names.
fn store_exists_keys(
    alloc: Global,
    document: &[u8],
    names: &[u8],
    offsets: &[u64],
    quantity: Quantity,
    truth: &mut u8,
) -> u32
    ensures { ShowsKeys (has_keys quantity) document.now (names_of (rows names.now offsets.now))
        truth.old truth.new result }
{
    match read_names(alloc, &Column::new(names, offsets)) {
        Ok(names) => store_bool(exists_keys(alloc, document, &names, quantity), truth),
        Err(cause) => cause.to_u32(),
    }
}

fn exists_keys(
    alloc: Global,
    document: &[u8],
    names: &[&str],
    quantity: Quantity,
) -> Result<bool, Error>
    ensures keys { OfDocument document.now
        (λ form t said. IsOkAnd said (λ b. b ≡ has_keys quantity (map (λ name. name.now) names.now) t)) result }
    ensures errors { IfErr result IsDecodingError }
{
    let document = RawJsonb::new(document);
    match quantity {
        Quantity::All => document.exists_all_keys_in(alloc, names.iter().copied()),
        Quantity::Any => document.exists_any_keys_in(alloc, names.iter().copied()),
    }
}

/// Returns the object of the members whose keys are among the names.
#[unsafe(no_mangle)]
pub extern "C" fn jdoc_object_pick(
    alloc: Global,
    document: &[u8],
    names: &[u8],
    offsets: &[u64],
    out: &mut [u8],
    out_len: &mut usize,
) -> u32
    ensures { With (names_of (rows names.now offsets.now)) (λ wanted. WritesResult
        (OfDocument document.now (λ form t. MakesOr InvalidObject form (picked_names wanted t)))
        (IsDecodingError or OutOfMemory or TooLarge or InvalidObject)
        (DeliversValue out.old out.new out_len.new result))
        (DeliversNothing out.old out.new out_len.new result) }
{
    deliver_pairs(alloc, document, names, offsets, Chosen::Named, out, out_len)
}

/// Returns the object without the members whose keys are among the names.
#[unsafe(no_mangle)]
pub extern "C" fn jdoc_object_delete(
    alloc: Global,
    document: &[u8],
    names: &[u8],
    offsets: &[u64],
    out: &mut [u8],
    out_len: &mut usize,
) -> u32
    ensures { With (names_of (rows names.now offsets.now)) (λ wanted. WritesResult
        (OfDocument document.now (λ form t. MakesOr InvalidObject form (dropped_names wanted t)))
        (IsDecodingError or OutOfMemory or TooLarge or InvalidObject)
        (DeliversValue out.old out.new out_len.new result))
        (DeliversNothing out.old out.new out_len.new result) }
{
    deliver_pairs(alloc, document, names, offsets, Chosen::Rest, out, out_len)
}

/// The members of an object that are chosen.
#[derive(Clone, Copy)]
enum Chosen {
    /// Those whose keys are among the names.
    Named,
    /// The others.
    Rest,
}

/// Stores the object of the chosen members.
fn deliver_pairs(
    alloc: Global,
    document: &[u8],
    names: &[u8],
    offsets: &[u64],
    chosen: Chosen,
    out: &mut [u8],
    out_len: &mut usize,
) -> u32
    ensures { DeliversPairs (chosen_pairs chosen) document.now (names_of (rows names.now offsets.now))
        out.old out.new out_len.new result }
{
    match read_set(alloc, &Column::new(names, offsets)) {
        Ok(keys) => deliver_made(chosen_object(alloc, document, &keys, chosen), out, out_len),
        Err(cause) => deliver_nothing(cause, out_len),
    }
}

fn chosen_object(
    alloc: Global,
    document: &[u8],
    keys: &BTreeSet<&str>,
    chosen: Chosen,
) -> Result<OwnedJsonb, Error>
    ensures object { (names : List (List ℕ)) → HasNames keys.now names
        → OfDocument document.now (λ form t. MakesOr InvalidObject form (chosen_pairs chosen names t)) result }
    ensures errors { IfErr result (IsDecodingError or OutOfMemory or TooLarge or InvalidObject) }
{
    let document = RawJsonb::new(document);
    match chosen {
        Chosen::Named => document.object_pick(alloc, keys),
        Chosen::Rest => document.object_delete(alloc, keys),
    }
}

/// Returns the names of a column, or the status if they cannot be read.
pub(crate) fn read_names<'a>(alloc: Global, column: &Column<'a>) -> Result<Vec<&'a str>, Status>
    ensures { MatchResult result (λ names. names_of column.now ≡ Ok (map (λ name. name.now) names.items))
        (λ cause. (cause ≡ Refused OutOfMemory) ⊎ (names_of column.now ≡ Err cause)) }
{
    let mut names = Vec::new(alloc);
    for index in 0..column.len() {
        let name = name_of(column.row(index))?;
        if let Err(failed) = names.push(name) {
            return Err(Status::from(Error::from(failed)));
        }
    }
    Ok(names)
}

/// Returns the name in a row.
fn name_of(row: Option<&[u8]>) -> Result<&str, Status>
    ensures { IsNameOf result (option_copied row.entry) }
{
    let Some(bytes) = row else {
        return Err(Status::BadOffsets);
    };
    match str::from_utf8(bytes) {
        Ok(name) => Ok(name),
        Err(_) => Err(Status::NotUtf8),
    }
}

/// Returns the names of a column as a set, or the status if they cannot be read.
fn read_set<'a>(alloc: Global, column: &Column<'a>) -> Result<BTreeSet<&'a str>, Status>
    ensures { MatchResult result (λ set. IsOkAnd (names_of column.now) (HasNames set))
        (λ cause. (cause ≡ Refused OutOfMemory) ⊎ (names_of column.now ≡ Err cause)) }
{
    let names = read_names(alloc, column)?;
    match set_of(alloc, &names) {
        Ok(set) => Ok(set),
        Err(error) => Err(Status::Refused(error)),
    }
}

/// Returns the names as a set.
fn set_of<'a>(alloc: Global, names: &[&'a str]) -> Result<BTreeSet<&'a str>, Error>
    ensures { MatchResult result (λ set. HasNames set (map (λ name. name.now) names.now)) IsOutOfMemory }
{
    let mut set = BTreeSet::new(alloc);
    for name in names {
        set.insert(*name)?;
    }
    Ok(set)
}
