//! Subscripts: positions in an array, and slices.

ghost use Rattle.std.specs.Prelude.{◌≡◌, IfOk};
ghost use Rattle.jsonb.specs.PathGrammar.{negated, place, entry, entries, spaced};
ghost use Rattle.jsonb.specs.Private.Repeated.{another_entry, entry_list};
ghost use Rattle.jsonb_keypath.specs.Views.{read_as, ConsumesInput};

use super::Reading;
use super::token::keyword_at;
use crate::path::{ArrayIndex, Index};
use jsonb_keypath::token::{int32, literal, skip_space};
use std::alloc::Global;

/// Returns the negated number. The least one has no negation here, so the greatest is returned.
fn negation(i: i32) -> i32
    ensures { result ≡ negated i }
{
    i.checked_neg().unwrap_or(i32::MAX)
}

#[tactic(auto, unfolding(crate::specs::PathGrammar::place))]
fn place_at(input: &[u8]) -> Option<(Index, &[u8])>
    ensures value { read_as (λ x. x) result ≡ place input.now }
    ensures shrinks { ConsumesInput input.now result }
{
    if let Some((i, rest)) = int32(input) {
        return Some((Index::Index(i), rest));
    }
    let last = keyword_at(b"last", input)?;
    let sign = skip_space(last);
    if let Some(rest) = literal(b"-", sign) {
        if let Some((i, rest)) = int32(skip_space(rest)) {
            return Some((Index::LastIndex(negation(i)), rest));
        }
    }
    if let Some(rest) = literal(b"+", sign) {
        if let Some((i, rest)) = int32(skip_space(rest)) {
            return Some((Index::LastIndex(i), rest));
        }
    }
    Some((Index::LastIndex(0), last))
}

#[tactic(auto, unfolding(crate::specs::PathGrammar::entry))]
fn entry_at(input: &[u8]) -> Option<(ArrayIndex, &[u8])>
    ensures value { read_as (λ x. x) result ≡ entry input.now }
    ensures shrinks { ConsumesInput input.now result }
{
    let (first, rest) = place_at(input)?;
    if let Some(after) = keyword_at(b"to", skip_space(rest)) {
        if let Some((last, end)) = place_at(skip_space(after)) {
            return Some((ArrayIndex::Slice((first, last)), end));
        }
    }
    Some((ArrayIndex::Index(first), rest))
}

fn spaced_entry_at(input: &[u8]) -> Option<(ArrayIndex, &[u8])>
    ensures value { read_as (λ x. x) result ≡ spaced entry input.now }
    ensures shrinks { ConsumesInput input.now result }
{
    let (found, rest) = entry_at(skip_space(input))?;
    Some((found, skip_space(rest)))
}

/// Reads a comma and the subscript after it.
fn another_entry_at(input: &[u8]) -> Option<(ArrayIndex, &[u8])>
    ensures value { read_as (λ x. x) result ≡ another_entry input.now }
    ensures shrinks { ConsumesInput input.now result }
{
    spaced_entry_at(literal(b",", input)?)
}

#[tactic(auto, using(crate::proofs::Sets::index_entry_list_at))]
fn entry_list_at(alloc: Global, input: &[u8]) -> Reading<'_, Vec<ArrayIndex>>
    ensures value { IfOk result (λ found.
        read_as (λ entries. entries.items) found ≡ entry_list input.now) }
    ensures shrinks { IfOk result (ConsumesInput input.now) }
{
    let Some((first, mut rest)) = spaced_entry_at(input) else {
        return Ok(None);
    };
    let mut entries = Vec::new(alloc);
    entries.push(first)?;
    while let Some((next, after)) = another_entry_at(rest) {
        entries.push(next)?;
        rest = after;
    }
    Ok(Some((entries, rest)))
}

#[tactic(auto, unfolding(crate::specs::PathGrammar::entries))]
pub(super) fn entries_at(alloc: Global, input: &[u8]) -> Reading<'_, Vec<ArrayIndex>>
    ensures value { IfOk result (λ found.
        read_as (λ entries. entries.items) found ≡ entries input.now) }
    ensures shrinks { IfOk result (ConsumesInput input.now) }
{
    let Some(inside) = literal(b"[", input) else {
        return Ok(None);
    };
    let Some((found, rest)) = entry_list_at(alloc, inside)? else {
        return Ok(None);
    };
    match literal(b"]", rest) {
        Some(end) => Ok(Some((found, end))),
        None => Ok(None),
    }
}
