//! Composite keys: the sortable key of one value after another, each of which may be missing.

ghost use Rattle.std.specs.Prelude.{◌≡◌, ◌++◌, ◌+◌, ◌≤◌, [], List, Option, flat_map, None, Some, IsOk, IfErr, IfSome, IsSomeAnd, MatchResult, OnOk, length, vec_len, vec_capacity};
ghost use Rattle.std.specs.Int.{w8, w16, byte_len};
ghost use Rattle.std.specs.List.{AllByRecursion};
ghost use Rattle.jsonb_doc.specs.Tree.{Tree};
ghost use Rattle.jsonb_doc.specs.Payload.{Form};
ghost use Rattle.jsonb_doc.specs.Format.{Decodes};
ghost use Rattle.jsonb_doc.specs.Answer.{IsOutOfMemory, IsDecodingError, ◌or◌};
ghost use Rattle.jsonb_doc.specs.declared.error.Error.TheVariants.{OutOfMemory, TooDeep};
ghost use Rattle.jsonb_raw.specs.CompositeKeys.{column_key, AppendsColumn, AreColumns, deepest_of_columns};
ghost use Rattle.jsonb_raw.specs.KeyAnswer.{GivesKey};
ghost use Rattle.jsonb_raw.specs.KeyRoom.{HasKeyRoom};
ghost use Rattle.jsonb_raw.specs.AnyBytes.Roots.{HasRoot};
ghost use Rattle.jsonb_raw.specs.Documents.{raw_bytes};
ghost use Rattle.jsonb_raw.specs.Private.KeyWidth.{width_of};

use super::kept_where_written;
use crate::raw::RawJsonb;
use crate::sortable_key::{DepthWidth, push_sortable_key};
use jsonb_doc::Error;
use std::alloc::Global;

/// Appends the sortable key of a value to a composite key, or the bytes `00 00` if the value is missing.
///
/// Keys of the same number of values compare as the lists of the values do, if these contain no extension value. A
/// missing value sorts before every other.
///
/// # Errors
///
/// The errors of `convert_to_comparable`; `OutOfMemory` if an allocation fails. The key is then empty. No allocation of
/// a value fails for which `convert_to_comparable_into` does not fail if the key has that much room left.
///
/// # Complexity
///
/// That of `convert_to_comparable_into`. O(1) for a missing value, which does not allocate if the key has room for two
/// bytes.
///
/// # Examples
///
/// ```rust crates/jsonb_examples/src/calls.rt
/// let value = document.select_first_by_path(alloc, path)?;
/// push_column_key(alloc, key, value.as_ref().map(|it| it.as_raw()))
/// ```
pub fn push_column_key(
    alloc: Global,
    key: &mut Vec<u8>,
    column: Option<RawJsonb<'_>>,
) -> Result<(), Error>
    ensures key { (form : Form) (tree : Tree) → IsSomeAnd column.entry (λ raw. Decodes form (raw_bytes raw) tree)
        → AppendsColumn w8 (Some tree) key.old.items result key.new.items }
    ensures missing { column.entry ≡ None → AppendsColumn w8 None key.old.items result key.new.items }
    ensures empty { IfErr result (λ _. key.new.items ≡ []) }
    ensures reads { OnOk result (IfSome column.entry (λ raw. HasRoot (raw_bytes raw))) }
    ensures room { column.entry ≡ None → vec_len key.old + 2 ≤ vec_capacity key.old → IsOk result }
    ensures room_of_scalar { (form : Form) (tree : Tree)
        → IsSomeAnd column.entry (λ raw. Decodes form (raw_bytes raw) tree
        × HasKeyRoom tree (vec_len key.old + length (raw_bytes raw)) (vec_capacity key.old)) → IsOk result }
    ensures errors { IfErr result (IsDecodingError or OutOfMemory or TooDeep) }
{
    push_column(alloc, key, column, DepthWidth::OneByte)
}

/// Appends the wide sortable key of a value to a composite key, or the bytes `00 00 00` if the value is missing.
///
/// Keys of the same number of values compare as the lists of the values do, if these contain no extension value. A
/// missing value sorts before every other.
///
/// # Errors
///
/// The errors of `convert_to_comparable_wide`; `OutOfMemory` if an allocation fails. The key is then empty.
///
/// # Complexity
///
/// That of `convert_to_comparable_wide_into`. O(1) for a missing value, which does not allocate if the key has room for
/// three bytes.
///
/// # Examples
///
/// ```rust crates/jsonb_examples/src/calls.rt
/// let mut key = Vec::new(alloc);
/// push_column_key_wide(alloc, &mut key, first)?;
/// push_column_key_wide(alloc, &mut key, second)?;
/// Ok(key)
/// ```
pub fn push_column_key_wide(
    alloc: Global,
    key: &mut Vec<u8>,
    column: Option<RawJsonb<'_>>,
) -> Result<(), Error>
    ensures key { (form : Form) (tree : Tree) → IsSomeAnd column.entry (λ raw. Decodes form (raw_bytes raw) tree)
        → AppendsColumn w16 (Some tree) key.old.items result key.new.items }
    ensures missing { column.entry ≡ None → AppendsColumn w16 None key.old.items result key.new.items }
    ensures empty { IfErr result (λ _. key.new.items ≡ []) }
    ensures reads { OnOk result (IfSome column.entry (λ raw. HasRoot (raw_bytes raw))) }
    ensures room { column.entry ≡ None → vec_len key.old + 3 ≤ vec_capacity key.old → IsOk result }
    ensures room_of_scalar { (form : Form) (tree : Tree)
        → IsSomeAnd column.entry (λ raw. Decodes form (raw_bytes raw) tree
        × HasKeyRoom tree (vec_len key.old + length (raw_bytes raw)) (vec_capacity key.old)) → IsOk result }
    ensures errors { IfErr result (IsDecodingError or OutOfMemory or TooDeep) }
{
    push_column(alloc, key, column, DepthWidth::TwoBytes)
}

/// Returns the composite key of values: the sortable key of each, or the bytes `00 00` if it is missing.
///
/// Such keys compare as the lists of the values do, if these contain no extension value. A missing value sorts before
/// every other.
///
/// # Errors
///
/// `TooDeep` if and only if an item is deeper than 255, and allocation errors.
///
/// # Complexity
///
/// O(n) of all documents. Allocates.
///
/// # Examples
///
/// ```rust crates/jsonb_examples/src/index.rt
/// let values = [
///     first.as_ref().map(|it| it.as_raw()),
///     second.as_ref().map(|it| it.as_raw()),
/// ];
/// let key = composite_key(alloc, &values)?;
/// ```
pub fn composite_key(alloc: Global, columns: &[Option<RawJsonb<'_>>]) -> Result<Vec<u8>, Error>
    ensures key { (form : Form) (values : List (Option Tree)) → AreColumns form columns.now values
        → GivesKey w8 (deepest_of_columns values) result (λ key. key.items ≡ flat_map (column_key w8) values) }
    ensures reads { OnOk result
        (AllByRecursion (λ column. IfSome column (λ raw. HasRoot (raw_bytes raw))) columns.now) }
    ensures errors { IfErr result (IsDecodingError or OutOfMemory or TooDeep) }
{
    key_of_columns(alloc, columns, DepthWidth::OneByte)
}

/// Returns the wide composite key of values: the wide sortable key of each, or the bytes `00 00 00` if it is missing.
///
/// It is not comparable with keys of `composite_key`.
///
/// # Errors
///
/// `TooDeep` if and only if an item is deeper than 65,535, and allocation errors.
///
/// # Complexity
///
/// O(n) of all documents. Allocates.
///
/// # Examples
///
/// ```rust crates/jsonb_examples/src/calls.rt
/// Ok(composite_key_wide(alloc, row)? < composite_key_wide(alloc, other)?)
/// ```
pub fn composite_key_wide(alloc: Global, columns: &[Option<RawJsonb<'_>>]) -> Result<Vec<u8>, Error>
    ensures key { (form : Form) (values : List (Option Tree)) → AreColumns form columns.now values
        → GivesKey w16 (deepest_of_columns values) result (λ key. key.items ≡ flat_map (column_key w16) values) }
    ensures reads { OnOk result
        (AllByRecursion (λ column. IfSome column (λ raw. HasRoot (raw_bytes raw))) columns.now) }
    ensures errors { IfErr result (IsDecodingError or OutOfMemory or TooDeep) }
{
    key_of_columns(alloc, columns, DepthWidth::TwoBytes)
}

/// Returns the composite key of values, with depths of this width.
fn key_of_columns(
    alloc: Global,
    columns: &[Option<RawJsonb<'_>>],
    width: DepthWidth,
) -> Result<Vec<u8>, Error>
    ensures key { (form : Form) (values : List (Option Tree)) → AreColumns form columns.now values
        → GivesKey (width_of width) (deepest_of_columns values) result
        (λ key. key.items ≡ flat_map (column_key (width_of width)) values) }
    ensures reads { OnOk result
        (AllByRecursion (λ column. IfSome column (λ raw. HasRoot (raw_bytes raw))) columns.now) }
    ensures errors { IfErr result (IsDecodingError or OutOfMemory or TooDeep) }
{
    let mut key = Vec::new(alloc);
    for column in columns {
        push_column(alloc, &mut key, *column, width)?;
    }
    Ok(key)
}

/// Appends the key of a value, or that of a missing value, with depths of this width.
fn push_column(
    alloc: Global,
    key: &mut Vec<u8>,
    column: Option<RawJsonb<'_>>,
    width: DepthWidth,
) -> Result<(), Error>
    ensures key { (form : Form) (tree : Tree) → IsSomeAnd column.entry (λ raw. Decodes form (raw_bytes raw) tree)
        → AppendsColumn (width_of width) (Some tree) key.old.items result key.new.items }
    ensures missing { column.entry ≡ None
        → AppendsColumn (width_of width) None key.old.items result key.new.items }
    ensures empty { IfErr result (λ _. key.new.items ≡ []) }
    ensures reads { OnOk result (IfSome column.entry (λ raw. HasRoot (raw_bytes raw))) }
    ensures room { column.entry ≡ None
        → vec_len key.old + (byte_len (width_of width) + 1) ≤ vec_capacity key.old → IsOk result }
    ensures room_of_scalar { (form : Form) (tree : Tree)
        → IsSomeAnd column.entry (λ raw. Decodes form (raw_bytes raw) tree
        × HasKeyRoom tree (vec_len key.old + length (raw_bytes raw)) (vec_capacity key.old)) → IsOk result }
    ensures errors { IfErr result (IsDecodingError or OutOfMemory or TooDeep) }
{
    let written = match column {
        Some(document) => push_sortable_key(alloc, key, document.as_bytes(), width),
        None => push_missing_key(key, width),
    };
    kept_where_written(key, written)
}

/// Appends the key of a missing value.
fn push_missing_key(key: &mut Vec<u8>, width: DepthWidth) -> Result<(), Error>
    ensures key { MatchResult result
        (λ _. key.new.items ≡ key.old.items ++ column_key (width_of width) None) IsOutOfMemory }
    ensures room { vec_len key.old + (byte_len (width_of width) + 1) ≤ vec_capacity key.old → IsOk result }
{
    match width {
        DepthWidth::OneByte => key.extend_from_slice(&[0, 0])?,
        DepthWidth::TwoBytes => key.extend_from_slice(&[0, 0, 0])?,
    }
    Ok(())
}
