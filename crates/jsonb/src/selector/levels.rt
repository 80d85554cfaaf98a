//! The items below an item, level by level.

ghost use Rattle.std.specs.List.{AllZip};
ghost use Rattle.std.specs.Prelude.{◌≡◌, ◌&&◌, nat_le, ℕ, ◌<◌, ◌≤◌, ◌^◌, ◌++◌, ◌+◌, min, List, Ok, Option, IfOk, IfErr, OnOk, IfSome, MatchResult};
ghost use Rattle.jsonb_doc.specs.Answer.{IsOutOfMemory, IsDecodingError, ◌or◌};
ghost use Rattle.jsonb_doc.specs.AnyBytes.Spots.{spot_size, spots_room, spots_bound};
ghost use Rattle.jsonb_doc.specs.Representation.Positions.{Locates, HasSpotsLeft};
ghost use Rattle.jsonb_doc.specs.Tree.{Tree};
ghost use Rattle.jsonb_doc.specs.declared.error.Error.TheVariants.{OutOfMemory};
ghost use Rattle.jsonb.specs.PathTree.{Levels};
ghost use Rattle.jsonb.specs.Preorder.{taken_item, preorder};
ghost use Rattle.jsonb.specs.Private.Below.{answer_at, AreBelow, KeepsLevel, PassesLeaves, AreLevelsOf};
ghost use Rattle.jsonb.specs.Private.ItemSteps.{AreAppended};

use super::children::push_if;
use crate::path::{RecursiveLevel, RecursiveLevelEnd};
use jsonb_doc::{Error, Spot, SpotIter, child_spots};
use std::alloc::Global;

/// The levels at which items are selected: from the first to the last, and none if the last is before the first.
#[derive(Clone, Copy)]
struct LevelRange {
    first: usize,
    last: usize,
}

impl LevelRange {
    /// Returns the levels of a step: without levels all.
    fn of_step(levels: Option<RecursiveLevel>) -> LevelRange
        ensures { AreLevelsOf levels result }
    {
        let Some(RecursiveLevel { start, end }) = levels else {
            return LevelRange {
                first: 0,
                last: usize::MAX,
            };
        };
        let first = usize::from(start);
        match end {
            None => LevelRange { first, last: first },
            Some(RecursiveLevelEnd::Index(end)) if end < start => LevelRange { first: 1, last: 0 },
            Some(RecursiveLevelEnd::Index(end)) => LevelRange {
                first,
                last: usize::from(end),
            },
            Some(RecursiveLevelEnd::Last) => LevelRange {
                first,
                last: usize::MAX,
            },
        }
    }

    /// Returns `true` if a level is one of them.
    #[inline(always)]
    fn contains(self, level: usize) -> bool
        ensures { result ≡ (nat_le self.first level && nat_le level self.last) }
    {
        self.first <= level && level <= self.last
    }
}

/// The remaining children of a container, and their level.
#[derive(Clone, Copy)]
pub(crate) struct OpenLevel<'a> {
    children: SpotIter<'a>,
    level: usize,
}

/// Appends the items from this one down, each before its children. A level past 255, which no range names, counts as
/// 256. What remains of the enclosing containers is in a `Vec`.
pub(crate) fn push_levels(
    alloc: Global,
    bytes: &[u8],
    levels: Option<RecursiveLevel>,
    level: usize,
    item: Spot,
    nodes: &mut Vec<Spot>,
) -> Result<(), Error>
    ensures meant { (t : Tree) (n : ℕ) (before : List Tree) → level ≡ min n 256 → Locates bytes.now item t
        → AreAppended bytes.now nodes.old.items nodes.new.items before result (Ok (preorder levels n t)) }
    ensures errors { IfErr result (IsDecodingError or OutOfMemory) }
{
    let range = LevelRange::of_step(levels);
    let Some(below) = push_item(bytes, range, level, item, nodes)? else {
        return Ok(());
    };
    let mut within = below;
    let mut around = Vec::new(alloc);
    'walk: loop {
        let is_taken = range.contains(within.level);
        match pass_leaves(is_taken, within.children, nodes)? {
            Some((container, others)) => {
                within.children = others;
                let below = push_item(bytes, range, within.level, container, nodes)?;
                if let Some(inner) = below {
                    keep_level(&mut around, within)?;
                    within = inner;
                }
            }
            None => match around.pop() {
                Some(outer) => within = outer,
                None => return Ok(()),
            },
        }
    }
}

/// Appends these children up to the first container, if they are selected. Returns that container, with those after
/// it, or `None` if all are visited.
#[inline(always)]
fn pass_leaves<'a>(
    is_taken: bool,
    children: SpotIter<'a>,
    nodes: &mut Vec<Spot>,
) -> Result<Option<(Spot, SpotIter<'a>)>, Error>
    ensures meant { (bytes : List ℕ) (levels : Option Levels) (n : ℕ) (ts before : List Tree)
        → is_taken ≡ (answer_at levels n).0
        → HasSpotsLeft bytes children.entry ts → AllZip (Locates bytes) nodes.old.items before
        → MatchResult result (PassesLeaves bytes levels n ts before nodes.new.items) IsOutOfMemory }
    ensures size { IfOk result (λ found. IfSome found (λ r. spot_size r.0 ≤ spots_room children.entry)) }
    ensures room { IfOk result (λ found. IfSome found (λ r. spots_room r.1 ≤ spots_room children.entry)) }
    ensures bound { IfOk result (λ found. IfSome found (λ r. spots_bound r.1 < spots_bound children.entry)) }
    ensures errors { IfErr result (IsDecodingError or OutOfMemory) }
{
    let mut left = children;
    while let Some(child) = left.next() {
        let child = child?;
        if child.is_container() {
            return Ok(Some((child, left)));
        }
        push_if(is_taken, child, nodes)?;
    }
    Ok(None)
}

/// Stores what remains of a level until the traversal returns to it. A level of which nothing remains is not stored.
#[inline(always)]
fn keep_level<'a>(around: &mut Vec<OpenLevel<'a>>, within: OpenLevel<'a>) -> Result<(), Error>
    ensures kept { OnOk result (KeepsLevel around.old.items within.entry around.new.items) }
    ensures err { IfErr result IsOutOfMemory }
{
    if within.children.len() == 0 {
        return Ok(());
    }
    around.push(within)?;
    Ok(())
}

/// Appends an item if its level is selected, and its children if some below are.
#[inline(always)]
fn push_item<'a>(
    bytes: &'a [u8],
    range: LevelRange,
    level: usize,
    item: Spot,
    nodes: &mut Vec<Spot>,
) -> Result<Option<OpenLevel<'a>>, Error>
    ensures meant { (levels : Option Levels) (t : Tree) (n : ℕ) (before : List Tree) → AreLevelsOf levels range
        → level ≡ min n 256 → Locates bytes.now item t → AllZip (Locates bytes.now) nodes.old.items before
        → MatchResult result (λ below. AllZip (Locates bytes.now) nodes.new.items (before ++ taken_item levels n t)
        × AreBelow bytes.now levels n t below) IsOutOfMemory }
    ensures room { IfOk result (λ below. IfSome below (λ within. spots_room within.children < spot_size item)) }
    ensures bound { IfOk result (λ below. IfSome below (λ within. spots_bound within.children < 2 ^ 64)) }
    ensures errors { IfErr result (IsDecodingError or OutOfMemory) }
{
    push_if(range.contains(level), item, nodes)?;
    if range.last <= level {
        return Ok(None);
    }
    match child_spots(bytes, item)? {
        Some(children) => Ok(Some(OpenLevel {
            children,
            level: next_level(level),
        })),
        None => Ok(None),
    }
}

/// Returns the level below.
#[inline(always)]
fn next_level(level: usize) -> usize
    ensures { (n : ℕ) → level ≡ min n 256 → result ≡ min (n + 1) 256 }
{
    if level < 256 { level + 1 } else { level }
}
