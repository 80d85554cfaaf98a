//! Results for each of some items.

ghost use Rattle.std.specs.Fn.{FnReturnsAt};
ghost use Rattle.std.specs.List.{AllZip};
ghost use Rattle.std.specs.Prelude.{◌≡◌, Some, None, MatchOption, IfOk, IfErr};
ghost use Rattle.jsonb_doc.specs.Answer.{IsOutOfMemory};
ghost use Rattle.jsonb.specs.Private.Columns.{column_at, AreMade, AreMapped, AreBoth, ArePairs, ReturnsAtBoth};

use super::document::TruthResult;
use jsonb_doc::{Error, Spot};
use std::alloc::Global;

/// A result for each of some items.
#[derive(Drop)]
pub(crate) enum Column<T> {
    /// One result for all items, of which there is at least one.
    Same(T),
    /// One for each item, in order.
    Each(Vec<T>),
}

/// Whether an expression is true of each item.
pub(crate) type Truths = Column<TruthResult>;

/// Returns the result for an item, or fails if it is that an allocation failed: no other item is evaluated then.
#[inline(always)]
pub(crate) fn settled<T: Drop>(said: Result<T, Error>) -> Result<Result<T, Error>, Error>
    ensures same { IfOk result (λ kept. kept ≡ said) }
    ensures errors { IfErr result IsOutOfMemory }
{
    match said {
        Err(error @ Error::OutOfMemory) => Err(error),
        said => Ok(said),
    }
}

/// Returns what a function makes of each item.
#[inline(always)]
pub(crate) fn column_of<T: Drop, F: Fn(&Spot) -> Result<T, Error>>(
    alloc: Global,
    items: &[Spot],
    f: F,
) -> Result<Column<Result<T, Error>>, Error>
    requires { F.IsAlwaysCallable f }
    ensures made { IfOk result (AreMade (FnReturnsAt F.Fn f) items.now) }
    ensures errors { IfErr result IsOutOfMemory }
{
    if let [item] = items {
        return Ok(Column::Same(settled(f(item))?));
    }
    Ok(Column::Each(each(alloc, items, f)?))
}

/// Returns what a function makes of each of some values.
#[inline(always)]
fn each<S, T: Drop, F: Fn(&S) -> Result<T, Error>>(
    alloc: Global,
    values: &[S],
    f: F,
) -> Result<Vec<Result<T, Error>>, Error>
    requires { F.IsAlwaysCallable f }
    ensures made { IfOk result (λ v. AllZip (FnReturnsAt F.Fn f) values.now v.items) }
    ensures errors { IfErr result IsOutOfMemory }
{
    let mut made = Vec::with_capacity(alloc, values.len())?;
    for value in values {
        let said = settled(f(value))?;
        made.push(said)?;
    }
    Ok(made)
}

/// Returns what a function makes of pairs of values.
#[inline(always)]
fn pairs<S, T, U: Drop, F: Fn(&S, &T) -> Result<U, Error>>(
    alloc: Global,
    lefts: &[S],
    rights: &[T],
    f: F,
) -> Result<Vec<Result<U, Error>>, Error>
    requires { F.IsAlwaysCallable f }
    ensures made { IfOk result (λ v. ArePairs (ReturnsAtBoth F.Fn f) lefts.now rights.now v.items) }
    ensures errors { IfErr result IsOutOfMemory }
{
    let mut made = Vec::with_capacity(alloc, lefts.len())?;
    let mut rest = rights;
    for left in lefts {
        let Some((right, others)) = rest.split_first() else {
            return Ok(made);
        };
        let said = settled(f(left, right))?;
        made.push(said)?;
        rest = others;
    }
    Ok(made)
}

impl<T: Drop> Column<T> {
    /// Returns the result for the item at an index.
    #[inline(always)]
    pub(crate) fn at(&self, index: usize) -> Option<&T>
        ensures { MatchOption result (column_at self.now index ≡ None) (λ x. column_at self.now index ≡ Some x.now) }
    {
        match self {
            Column::Same(result) => Some(result),
            Column::Each(results) => results.get(index),
        }
    }

    /// Returns what a function makes of each result.
    #[inline(always)]
    pub(crate) fn map<U: Drop, F: Fn(&T) -> Result<U, Error>>(
        &self,
        alloc: Global,
        f: F,
    ) -> Result<Column<Result<U, Error>>, Error>
        requires { F.IsAlwaysCallable f }
        ensures mapped { IfOk result (AreMapped (FnReturnsAt F.Fn f) self.now) }
        ensures errors { IfErr result IsOutOfMemory }
    {
        match self {
            Column::Same(result) => Ok(Column::Same(settled(f(result))?)),
            Column::Each(results) => Ok(Column::Each(each(alloc, results, f)?)),
        }
    }

    /// Returns what a function makes of each result and that of another column.
    #[inline(always)]
    pub(crate) fn both<V: Drop, U: Drop, F: Fn(&T, &V) -> Result<U, Error>>(
        &self,
        alloc: Global,
        other: &Column<V>,
        f: F,
    ) -> Result<Column<Result<U, Error>>, Error>
        requires { F.IsAlwaysCallable f }
        ensures made { IfOk result (AreBoth (ReturnsAtBoth F.Fn f) self.now other.now) }
        ensures errors { IfErr result IsOutOfMemory }
    {
        let made = match (self, other) {
            (Column::Same(left), Column::Same(right)) => return Ok(Column::Same(f(left, right))),
            (Column::Same(left), Column::Each(rights)) => each(
                alloc,
                rights,
                |right| f(left, right),
            )?,
            (Column::Each(lefts), Column::Same(right)) => each(
                alloc,
                lefts,
                |left| f(left, right),
            )?,
            (Column::Each(lefts), Column::Each(rights)) => pairs(alloc, lefts, rights, f)?,
        };
        Ok(Column::Each(made))
    }
}
