//! Copies of decoded values, with what is left to be copied in a list.

ghost use Rattle.std.specs.Prelude.{◌≡◌, ◌≤◌, ◌<◌, IfOk};
ghost use Rattle.std.specs.Cow.{cow_str_bytes};
ghost use Rattle.std.specs.Slice.Iter.{iter_rest};
ghost use Rattle.jsonb_doc.specs.Number as spec;
ghost use Rattle.jsonb_doc.specs.Value.{tree_seen};
ghost use Rattle.jsonb_doc.specs.Private.Values.{trees_seen};
ghost use Rattle.jsonb_doc.specs.Private.Parts.{values_parts, entries_parts};
ghost use Rattle.jsonb_doc.specs.Private.Copying.{part_tree, part_parts, left_parts, filled_parts, filled_tree, array_seen, object_seen, with_part};
ghost use Rattle.jsonb_doc.specs.declared.number.Number.{Number};

use crate::value::Value;
use std::alloc::{AllocError, Global};
use std::borrow::CowStr;
use std::collections::{BTreeMap, btree_map};
use std::slice;

/// Returns a copy of a string. A borrowed one remains borrowed.
fn copy_text<'a>(text: &CowStr<'a, Global>) -> Result<CowStr<'a, Global>, AllocError>
    ensures { IfOk result (λ t. cow_str_bytes t ≡ cow_str_bytes text.now) }
{
    match text {
        CowStr::Borrowed(s) => Ok(CowStr::Borrowed(s)),
        CowStr::Owned(s) => Ok(CowStr::Owned(s.clone()?)),
    }
}

/// A copy, or a container that is to be copied.
#[derive(Drop)]
enum Part<'v, 'a> {
    Scalar(Value<'a>),
    Array(&'v Vec<Value<'a>>),
    Object(&'v BTreeMap<String, Value<'a>>),
}

/// A container of which a child is being copied: the copies of the children before it, and the children after it.
#[derive(Drop)]
enum Open<'v, 'a> {
    Array(Vec<Value<'a>>, slice::Iter<'v, Value<'a>>),
    /// The key is that of the member that is being copied.
    Object(BTreeMap<String, Value<'a>>, &'v String, btree_map::Iter<'v, String, Value<'a>>),
}

/// How far a container is copied.
#[derive(Drop)]
enum Filled<'v, 'a> {
    /// All of it.
    Whole(Value<'a>),
    /// Up to a container within it.
    Within(Open<'v, 'a>, Part<'v, 'a>),
}

/// Returns a copy of a value, equal under every view of its numbers.
pub fn copy<'a>(alloc: Global, value: &Value<'a>) -> Result<Value<'a>, AllocError>
    ensures { (seen : Number → spec.Number)
        → IfOk result (λ v. tree_seen seen v ≡ tree_seen seen value.now) }
{
    let mut around = Vec::new(alloc);
    let mut filled = filled_from(alloc, part_of(value)?)?;
    loop {
        filled = match filled {
            Filled::Within(outer, part) => {
                around.push(outer)?;
                filled_from(alloc, part)?
            }
            Filled::Whole(copy) => match around.pop() {
                None => return Ok(copy),
                Some(outer) => resume_fill(outer, copy)?,
            },
        };
    }
}

/// Returns the copy of a scalar, or the container.
#[inline(always)]
fn part_of<'v, 'a>(value: &'v Value<'a>) -> Result<Part<'v, 'a>, AllocError>
    ensures { (seen : Number → spec.Number)
        → IfOk result (λ part. part_tree seen part ≡ tree_seen seen value.now) }
{
    Ok(match value {
        Value::Array(values) => Part::Array(values),
        Value::Object(members) => Part::Object(members),
        Value::Null => Part::Scalar(Value::Null),
        Value::Bool(b) => Part::Scalar(Value::Bool(*b)),
        Value::String(text) => Part::Scalar(Value::String(copy_text(text)?)),
        Value::Number(number) => Part::Scalar(Value::Number(*number)),
        Value::Binary(bytes) => Part::Scalar(Value::Binary(bytes)),
        Value::Date(date) => Part::Scalar(Value::Date(*date)),
        Value::Timestamp(timestamp) => Part::Scalar(Value::Timestamp(*timestamp)),
        Value::TimestampTz(timestamp) => Part::Scalar(Value::TimestampTz(*timestamp)),
        Value::Interval(interval) => Part::Scalar(Value::Interval(*interval)),
    })
}

/// Returns the copy of a part, up to a container within it.
fn filled_from<'v, 'a>(alloc: Global, part: Part<'v, 'a>) -> Result<Filled<'v, 'a>, AllocError>
    ensures copies { (seen : Number → spec.Number)
        → IfOk result (λ filled. filled_tree seen filled ≡ part_tree seen part.entry) }
    ensures fewer { IfOk result (λ filled. filled_parts filled < part_parts part.entry) }
{
    match part {
        Part::Scalar(copy) => Ok(Filled::Whole(copy)),
        Part::Array(values) => {
            fill_array(Vec::with_capacity(alloc, values.len())?, values.iter())
        }
        Part::Object(members) => fill_object(BTreeMap::new(alloc), members.iter()),
    }
}

/// Returns the array of these copies and the copies of the remaining values, up to a container among them.
fn fill_array<'v, 'a>(
    mut copies: Vec<Value<'a>>,
    mut left: slice::Iter<'v, Value<'a>>,
) -> Result<Filled<'v, 'a>, AllocError>
    ensures copies { (seen : Number → spec.Number)
        → IfOk result (λ filled. filled_tree seen filled
        ≡ array_seen seen copies.entry.items (trees_seen seen (iter_rest left.entry))) }
    ensures fewer { IfOk result (λ filled. filled_parts filled ≤ values_parts (iter_rest left.entry)) }
{
    while let Some(value) = left.next() {
        match part_of(value)? {
            Part::Scalar(copy) => copies.push(copy)?,
            part => return Ok(Filled::Within(Open::Array(copies, left), part)),
        }
    }
    Ok(Filled::Whole(Value::Array(copies)))
}

/// Returns the object of these copies and the copies of the remaining members, up to a container among them.
fn fill_object<'v, 'a>(
    mut copies: BTreeMap<String, Value<'a>>,
    mut left: btree_map::Iter<'v, String, Value<'a>>,
) -> Result<Filled<'v, 'a>, AllocError>
    ensures copies { (seen : Number → spec.Number)
        → IfOk result (λ filled. filled_tree seen filled ≡ object_seen seen copies.entry.entries left.entry) }
    ensures fewer { IfOk result (λ filled. filled_parts filled ≤ entries_parts left.entry) }
{
    while let Some((key, value)) = left.next() {
        match part_of(value)? {
            Part::Scalar(copy) => drop(copies.insert(key.clone()?, copy)?),
            part => return Ok(Filled::Within(Open::Object(copies, key, left), part)),
        }
    }
    Ok(Filled::Whole(Value::Object(copies)))
}

/// Returns the container with this copy of the missing child, and copies of the children after it.
fn resume_fill<'v, 'a>(outer: Open<'v, 'a>, copy: Value<'a>) -> Result<Filled<'v, 'a>, AllocError>
    ensures copies { (seen : Number → spec.Number)
        → IfOk result (λ filled. filled_tree seen filled ≡ with_part seen outer.entry (tree_seen seen copy.entry)) }
    ensures fewer { IfOk result (λ filled. filled_parts filled ≤ left_parts outer.entry) }
{
    match outer {
        Open::Array(mut copies, left) => {
            copies.push(copy)?;
            fill_array(copies, left)
        }
        Open::Object(mut copies, key, left) => {
            drop(copies.insert(key.clone()?, copy)?);
            fill_object(copies, left)
        }
    }
}
