//! A bound on the items that the evaluation of a path lists and compares, computed before it.

ghost use Rattle.std.specs.List.{list_all};
ghost use Rattle.std.specs.Prelude.{◌≡◌, length, IfOk, IfErr, ◌↔◌, IsOkAnd, IsErrOf, ◌+◌, ◌<◌, ◌≤◌};
ghost use Rattle.jsonb_doc.specs.Answer.{IsOutOfMemory};
ghost use Rattle.jsonb_doc.specs.AnyBytes.Unsupported.{IsUnsupportedDocument, IsNoDocument};
ghost use Rattle.jsonb_doc.specs.Format.{Decodes};
ghost use Rattle.jsonb_doc.specs.Payload.{Form};
ghost use Rattle.jsonb_doc.specs.Tree.{Tree};
ghost use Rattle.jsonb_raw.specs.Documents.{raw_bytes};
ghost use Rattle.jsonb.specs.MostItems.{root_list, is_single, after, after_steps, start_list, most_values, most_pairs, most_items, picked_list, document_size, capped, step_items, steps_items, expression_items, most_compared};
ghost use Rattle.jsonb.specs.PathTree.{steps_of};
ghost use Rattle.jsonb.specs.PathViews.{step_view, steps_view, expression_view};
ghost use Rattle.jsonb.specs.Private.Counted.{waiting_items, waiting_parts, Grows};
ghost use Rattle.jsonb.specs.Private.Parts.{step_parts, steps_parts, parts};
ghost use Rattle.jsonb.specs.declared.selector.most_items.DocumentSize.{DocumentSize};
ghost use Rattle.jsonb_doc.specs.declared.error.Error.TheVariants as error;

use super::members::is_relative;
use crate::path::{ArrayIndex, BinaryOperator, Expr, Path};
use jsonb_doc::Error;
use jsonb_raw::RawJsonb;
use std::alloc::Global;

/// How many items a document has at most, and how many levels.
#[derive(Clone, Copy)]
pub(crate) struct DocumentSize {
    pub(crate) items: u64,
    pub(crate) levels: u64,
}

impl DocumentSize {
    /// Returns the size of a document. Fails if and only if the bytes do not decode.
    pub(crate) fn of(root: RawJsonb<'_>) -> Result<DocumentSize, Error>
        ensures size { (form : Form) (top : Tree) → Decodes form (raw_bytes root.entry) top
            → IsOkAnd result (λ size. size ≡ document_size (raw_bytes root.entry) top) }
        ensures unsupported { IsErrOf result error.UnsupportedNumber ↔ IsUnsupportedDocument (raw_bytes root.entry) }
        ensures invalid { IsErrOf result error.InvalidJsonb ↔ IsNoDocument (raw_bytes root.entry) }
    {
        let depth = root.depth()? as u64;
        Ok(DocumentSize {
            items: root.as_bytes().len() as u64 / 4,
            levels: depth.saturating_add(1),
        })
    }
}

/// At most how many items a list has, and how many are at and below all of them together. An item that occurs twice is
/// counted twice.
#[derive(Clone, Copy)]
pub(crate) struct ListBound {
    items: u64,
    below: u64,
}

/// An expression that is still to be counted, and the items for which it is evaluated.
#[derive(Clone, Copy)]
pub(crate) struct Waiting<'s, 'p> {
    expression: &'s Expr<'p>,
    list: ListBound,
}

/// The items that are counted, and what is still to be counted.
#[derive(Drop)]
pub(crate) struct Count<'s, 'p> {
    items: u64,
    waiting: Vec<Waiting<'s, 'p>>,
}

/// Returns the bound of a path, and 2^64 - 1 for a larger one. The expressions that are still to be counted are in a
/// `Vec`.
#[tactic(auto, using(crate::proofs::TestLemmas::none_waiting))]
pub(crate) fn most_items(
    alloc: Global,
    size: DocumentSize,
    steps: &[Path<'_>],
) -> Result<u64, Error>
    ensures bound { IfOk result (λ n. n ≡ most_items size (steps_view steps.now)) }
    ensures errors { IfErr result IsOutOfMemory }
{
    let mut count = Count {
        items: 0,
        waiting: Vec::new(alloc),
    };
    count.add_steps(size, steps, root_list(size))?;
    while let Some(next) = count.waiting.pop() {
        count.add_expression(size, next)?;
    }
    Ok(count.items())
}

impl<'s, 'p> Count<'s, 'p> {
    /// Adds items.
    fn add(&mut self, items: u64)
        ensures grows { (size : DocumentSize) → Grows size self.old self.new items }
        ensures parts { waiting_parts self.new ≡ waiting_parts self.old }
    {
        self.items = self.items.saturating_add(items);
    }

    /// Adds an expression that is still to be counted.
    fn wait(&mut self, expression: &'s Expr<'p>, list: ListBound) -> Result<(), Error>
        ensures grows { (size : DocumentSize)
            → IfOk result (λ _. Grows size self.old self.new
            (expression_items size (expression_view expression.now) list)) }
        ensures parts { IfOk result (λ _. waiting_parts self.new ≡ waiting_parts self.old + parts expression.now) }
        ensures errors { IfErr result IsOutOfMemory }
    {
        self.waiting.push(Waiting { expression, list })?;
        Ok(())
    }

    /// Adds the items of a step, and its expression; returns the list after it.
    #[tactic(auto, using(crate::proofs::CountLemmas::grows_then))]
    fn add_step(
        &mut self,
        size: DocumentSize,
        step: &'s Path<'p>,
        list: ListBound,
    ) -> Result<ListBound, Error>
        ensures grows { IfOk result (λ _. Grows size self.old self.new (step_items size (step_view step.now) list)) }
        ensures after { IfOk result (λ next. next ≡ after size (step_view step.now) list) }
        ensures parts { IfOk result (λ _. waiting_parts self.new
            ≤ waiting_parts self.old + step_parts (step_view step.now)) }
        ensures errors { IfErr result IsOutOfMemory }
    {
        match step {
            Path::FilterExpr(e) | Path::Expr(e) => {
                self.add(list.items);
                self.wait(e, list)?;
                Ok(list)
            }
            Path::Root
            | Path::Current
            | Path::DotWildcard
            | Path::RecursiveDotWildcard(_)
            | Path::BracketWildcard
            | Path::DotField(_)
            | Path::ColonField(_)
            | Path::ObjectField(_)
            | Path::ArrayIndices(_) => {
                let next = after(size, step, list);
                self.add(next.items);
                Ok(next)
            }
        }
    }

    /// Adds the items of steps, and their expressions.
    #[tactic(auto, using(crate::proofs::CountLemmas::grows_then, crate::proofs::CountLemmas::left_steps))]
    fn add_steps(
        &mut self,
        size: DocumentSize,
        steps: &'s [Path<'p>],
        first: ListBound,
    ) -> Result<(), Error>
        ensures grows { IfOk result (λ _. Grows size self.old self.new
            (steps_items size (steps_of (steps_view steps.now)) first)) }
        ensures parts { IfOk result (λ _. waiting_parts self.new
            ≤ waiting_parts self.old + steps_parts (steps_of (steps_view steps.now))) }
        ensures errors { IfErr result IsOutOfMemory }
    {
        let mut list = first;
        for step in steps {
            list = self.add_step(size, step, list)?;
        }
        Ok(())
    }

    /// Adds what an expression takes itself; the expressions in it are still to be counted.
    #[tactic(auto, using(crate::proofs::CountLemmas::grows_then))]
    fn add_expression(&mut self, size: DocumentSize, next: Waiting<'s, 'p>) -> Result<(), Error>
        ensures grows { IfOk result (λ _. Grows size self.old self.new (waiting_items size next.entry)) }
        ensures parts { IfOk result
            (λ _. waiting_parts self.new < waiting_parts self.old + parts next.entry.expression.now) }
        ensures errors { IfErr result IsOutOfMemory }
    {
        let list = next.list;
        match next.expression {
            Expr::Paths(steps) | Expr::ExistsFunc(steps) => {
                self.add_steps(size, steps, start_list(size, steps, list))?;
            }
            Expr::Value(_) => {}
            Expr::UnaryOp { operand, .. } => {
                self.add(most_values(size, operand, list));
                self.wait(operand, list)?;
            }
            Expr::BinaryOp { op, left, right } => {
                self.add_operator(size, *op, left, right, list);
                self.wait(left, list)?;
                self.wait(right, list)?;
            }
        }
        Ok(())
    }

    /// Adds the values that an operator takes, and their pairs.
    #[tactic(auto, using(crate::proofs::CountLemmas::grows_then))]
    fn add_operator(
        &mut self,
        size: DocumentSize,
        op: BinaryOperator,
        left: &Expr<'_>,
        right: &Expr<'_>,
        list: ListBound,
    )
        ensures grows { Grows size self.old self.new (most_compared size op (expression_view left.now)
            (expression_view right.now) list) }
        ensures parts { waiting_parts self.new ≡ waiting_parts self.old }
    {
        match op {
            BinaryOperator::And | BinaryOperator::Or => {}
            BinaryOperator::Eq
            | BinaryOperator::NotEq
            | BinaryOperator::Lt
            | BinaryOperator::Lte
            | BinaryOperator::Gt
            | BinaryOperator::Gte
            | BinaryOperator::StartsWith
            | BinaryOperator::Add
            | BinaryOperator::Subtract
            | BinaryOperator::Multiply
            | BinaryOperator::Divide
            | BinaryOperator::Modulo => {
                self.add(most_values(size, left, list));
                self.add(most_values(size, right, list));
                self.add(most_pairs(size, left, right, list));
            }
        }
    }

    /// Returns the number of items that are counted.
    fn items(&self) -> u64
        ensures { result ≡ capped self.now.items }
    {
        self.items
    }
}

/// Returns the list of the root alone.
fn root_list(size: DocumentSize) -> ListBound
    ensures { result ≡ root_list size }
{
    ListBound {
        items: 1,
        below: size.items,
    }
}

/// Returns the list after a step.
fn after(size: DocumentSize, step: &Path<'_>, list: ListBound) -> ListBound
    ensures { result ≡ after size (step_view step.now) list }
{
    match step {
        Path::DotWildcard | Path::BracketWildcard => ListBound {
            items: list.below,
            below: list.below,
        },
        Path::RecursiveDotWildcard(_) => ListBound {
            items: list.below,
            below: list.below.saturating_mul(size.levels),
        },
        Path::ArrayIndices(entries) => picked_list(entries, list),
        Path::Root
        | Path::Current
        | Path::DotField(_)
        | Path::ColonField(_)
        | Path::ObjectField(_)
        | Path::FilterExpr(_)
        | Path::Expr(_) => list,
    }
}

/// Returns the list of the elements at the positions of subscripts.
fn picked_list(entries: &[ArrayIndex], list: ListBound) -> ListBound
    ensures { result
        ≡ picked_list (list_all is_single entries.now) (length entries.now) list }
{
    let count = entries.len() as u64;
    let below = list.below.saturating_mul(count);
    let items = if all_single(entries) {
        list.items.saturating_mul(count)
    } else {
        below
    };
    ListBound { items, below }
}

/// Returns `true` if each subscript is a single position.
fn all_single(entries: &[ArrayIndex]) -> bool
    ensures { result ≡ list_all is_single entries.now }
{
    for entry in entries {
        if !is_single(entry) {
            return false;
        }
    }
    true
}

/// Returns `true` if a subscript is a single position.
fn is_single(entry: &ArrayIndex) -> bool
    ensures { result ≡ is_single entry.now }
{
    matches!(entry, ArrayIndex::Index(_))
}

/// Returns the list after steps.
fn after_steps(size: DocumentSize, steps: &[Path<'_>], first: ListBound) -> ListBound
    ensures { result ≡ after_steps size (steps_of (steps_view steps.now)) first }
{
    let mut list = first;
    for step in steps {
        list = after(size, step, list);
    }
    list
}

/// Returns the items at which a path within an expression starts.
fn start_list(size: DocumentSize, steps: &[Path<'_>], list: ListBound) -> ListBound
    ensures { result ≡ start_list size (steps_of (steps_view steps.now)) list }
{
    if is_relative(steps) {
        list
    } else {
        ListBound {
            items: list.items,
            below: list.items.saturating_mul(size.items),
        }
    }
}

/// Returns the number of values of an operand, of all items of a list together.
fn most_values(size: DocumentSize, operand: &Expr<'_>, list: ListBound) -> u64
    ensures { result ≡ most_values size (expression_view operand.now) list }
{
    match operand {
        Expr::Paths(steps) => after_steps(size, steps, start_list(size, steps, list)).below,
        Expr::Value(_) => list.items,
        Expr::BinaryOp { .. } | Expr::UnaryOp { .. } | Expr::ExistsFunc(_) => 0,
    }
}

/// Returns the number of pairs of values.
fn most_pairs(size: DocumentSize, left: &Expr<'_>, right: &Expr<'_>, list: ListBound) -> u64
    ensures { result ≡ most_pairs size (expression_view left.now) (expression_view right.now) list }
{
    let one = root_list(size);
    let by_left = most_values(size, left, list).saturating_mul(most_values(size, right, one));
    let by_right = most_values(size, left, one).saturating_mul(most_values(size, right, list));
    by_left.min(by_right)
}
