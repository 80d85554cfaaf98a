//! Expressions nested so deeply that a call for each level would overflow the machine's stack.

use super::{are_equal, expect};
use crate::{BinaryOperator, Expr, Path, PathValue, UnaryOperator};
use jsonb_doc::{Error, Number};
use std::alloc::{AllocError, Global};

const LEVELS: u32 = 100_000;

/// How an expression is nested.
#[derive(Clone, Copy)]
enum Nesting {
    /// `((true && 0) && 1) && ..`
    Chain,
    /// `true && (true && (true && ..))`
    RightSides,
    /// `---..true`
    Signs,
    /// `exists(@?(exists(@?(..))))`
    Filters,
    /// `exists(@?(exists(@?(.. && true)?(true)) && true)?(true))`
    FiltersAndMore,
}

/// The innermost expression.
#[derive(Clone, Copy)]
enum Innermost {
    True,
    Zero,
    TrueAndTrue,
}

const TRUE: PathValue<'static> = PathValue::Boolean(true);

fn number(n: u32) -> PathValue<'static> {
    PathValue::Number(Number::UInt64(u64::from(n)))
}

fn literal(alloc: Global, value: PathValue<'static>) -> Result<Expr<'static>, AllocError> {
    Ok(Expr::Value(Box::new(alloc, value)?))
}

fn pair(
    alloc: Global,
    left: Expr<'static>,
    right: Expr<'static>,
) -> Result<Expr<'static>, AllocError> {
    Ok(Expr::BinaryOp {
        op: BinaryOperator::And,
        left: Box::new(alloc, left)?,
        right: Box::new(alloc, right)?,
    })
}

fn sign(alloc: Global, operand: Expr<'static>) -> Result<Expr<'static>, AllocError> {
    Ok(Expr::UnaryOp {
        op: UnaryOperator::Subtract,
        operand: Box::new(alloc, operand)?,
    })
}

// A literal after an expression.
fn before(
    alloc: Global,
    left: Expr<'static>,
    value: PathValue<'static>,
) -> Result<Expr<'static>, AllocError> {
    let right = literal(alloc, value)?;
    pair(alloc, left, right)
}

// `true` before an expression.
fn behind_truth(alloc: Global, right: Expr<'static>) -> Result<Expr<'static>, AllocError> {
    let left = literal(alloc, TRUE)?;
    pair(alloc, left, right)
}

// `@?(..)`
fn filtered(alloc: Global, inner: Expr<'static>) -> Result<Vec<Path<'static>>, AllocError> {
    let filter = Path::FilterExpr(Box::new(alloc, inner)?);
    Ok(vec![in alloc; Path::Current, filter]?)
}

// `exists(@?(..))`
fn filter(alloc: Global, inner: Expr<'static>) -> Result<Expr<'static>, AllocError> {
    let steps = filtered(alloc, inner)?;
    Ok(Expr::ExistsFunc(steps))
}

// `?(true)`
fn truth_step(alloc: Global) -> Result<Path<'static>, AllocError> {
    let truth = literal(alloc, TRUE)?;
    Ok(Path::Expr(Box::new(alloc, truth)?))
}

// `exists(@?(.. && true)?(true))`
fn filter_and_more(alloc: Global, inner: Expr<'static>) -> Result<Expr<'static>, AllocError> {
    let mut steps = filtered(alloc, before(alloc, inner, TRUE)?)?;
    steps.push(truth_step(alloc)?)?;
    Ok(Expr::ExistsFunc(steps))
}

// One more level, the one with this number, around an expression.
fn around(
    alloc: Global,
    nesting: Nesting,
    n: u32,
    inner: Expr<'static>,
) -> Result<Expr<'static>, AllocError> {
    match nesting {
        Nesting::Chain => before(alloc, inner, number(n)),
        Nesting::RightSides => behind_truth(alloc, inner),
        Nesting::Signs => sign(alloc, inner),
        Nesting::Filters => filter(alloc, inner),
        Nesting::FiltersAndMore => filter_and_more(alloc, inner),
    }
}

fn inner_expression(alloc: Global, inner: Innermost) -> Result<Expr<'static>, AllocError> {
    match inner {
        Innermost::True => literal(alloc, TRUE),
        Innermost::Zero => literal(alloc, number(0)),
        Innermost::TrueAndTrue => before(alloc, literal(alloc, TRUE)?, TRUE),
    }
}

/// How an expression is nested, and its innermost one.
type Nested = (Nesting, Innermost);

// An expression of all levels.
fn nested(alloc: Global, (nesting, inner): Nested) -> Result<Expr<'static>, Error> {
    let mut found = inner_expression(alloc, inner)?;
    for n in 0..LEVELS {
        found = around(alloc, nesting, n, found)?;
    }
    Ok(found)
}

fn is_literal(expression: &Expr<'_>, wanted: PathValue<'static>) -> bool {
    matches!(expression, Expr::Value(literal) if **literal == wanted)
}

// Whether an expression has all levels around `true`. Filters are not looked into.
fn is_nested(nesting: Nesting, expression: &Expr<'_>) -> bool {
    let mut inner = expression;
    for n in (0..LEVELS).rev() {
        inner = match (nesting, inner) {
            (
                Nesting::Chain,
                Expr::BinaryOp {
                    op: BinaryOperator::And,
                    left,
                    right,
                },
            ) if is_literal(right, number(n)) => left,
            (
                Nesting::RightSides,
                Expr::BinaryOp {
                    op: BinaryOperator::And,
                    left: _,
                    right,
                },
            ) => right,
            (
                Nesting::Signs,
                Expr::UnaryOp {
                    op: UnaryOperator::Subtract,
                    operand,
                },
            ) => operand,
            _ => return false,
        };
    }
    is_literal(inner, TRUE)
}

/// How expressions are nested that are looked into.
static LOOKED_INTO: [(&str, Nesting); 3] = rows! {
    "a chain", Nesting::Chain;
    "right sides", Nesting::RightSides;
    "signs", Nesting::Signs;
};

#[test]
fn deep_expressions_are_let_go(rt: HostRuntime) -> Result<(), Error> {
    let alloc = rt.alloc();
    for (_, nesting) in &LOOKED_INTO {
        drop(nested(alloc, (*nesting, Innermost::True))?);
    }
    let filters = nested(alloc, (Nesting::FiltersAndMore, Innermost::True))?;
    drop(Path::FilterExpr(Box::new(alloc, filters)?));
    Ok(())
}

// Whether a call returned an expression that has all levels. Drops it.
fn has_levels(nesting: Nesting, found: Result<Expr<'_>, Error>) -> Result<bool, Error> {
    Ok(is_nested(nesting, &found?))
}

// Whether an expression, its copy and its owned copy are nested so, the copies after the first is dropped.
fn are_nested(alloc: Global, nesting: Nesting) -> Result<bool, Error> {
    let whole = nested(alloc, (nesting, Innermost::True))?;
    let copy = whole.clone(alloc);
    let owned = whole.to_owned(alloc);
    let is_whole = has_levels(nesting, Ok(whole));
    let are_copies = [has_levels(nesting, copy), has_levels(nesting, owned)];
    Ok(is_whole? && are_copies == [Ok(true); 2])
}

#[test]
fn deep_expressions_are_copied(rt: HostRuntime) {
    for (name, nesting) in &LOOKED_INTO {
        expect(&rt, are_nested(rt.alloc(), *nesting), *name);
    }
}

const CHAIN: Nested = (Nesting::Chain, Innermost::True);

const RIGHTS: Nested = (Nesting::RightSides, Innermost::True);

const SIGNS: Nested = (Nesting::Signs, Innermost::True);

const FILTERS: Nested = (Nesting::Filters, Innermost::True);

/// Expressions, and whether they are equal.
static COMPARED: [(&str, Nested, Nested, bool); 10] = rows! {
    "chains", CHAIN, CHAIN, true;
    "a chain around 0", CHAIN, (Nesting::Chain, Innermost::Zero), false;
    "a longer chain", CHAIN, (Nesting::Chain, Innermost::TrueAndTrue), false;
    "signs and a chain", SIGNS, CHAIN, false;
    "signs", SIGNS, SIGNS, true;
    "right sides", RIGHTS, RIGHTS, true;
    "right sides around 0", RIGHTS, (Nesting::RightSides, Innermost::Zero), false;
    "filters", FILTERS, FILTERS, true;
    "filters around 0", FILTERS, (Nesting::Filters, Innermost::Zero), false;
    "filters and right sides", FILTERS, RIGHTS, false;
};

#[test]
fn deep_expressions_are_compared(rt: HostRuntime) {
    for (name, one, other, wanted) in &COMPARED {
        let found = are_equal(nested(rt.alloc(), *one), nested(rt.alloc(), *other));
        expect(&rt, Ok(found == Ok(*wanted)), *name);
    }
}

// What a chain prints.
fn chain_text(alloc: Global) -> Result<String, AllocError> {
    let mut text = "(".repeat(alloc, LEVELS as usize - 1)?;
    text.push_str("true && 0")?;
    for n in 1..LEVELS {
        text.push_str(") && ")?;
        text.push_str(n.to_string(alloc)?.as_str())?;
    }
    Ok(text)
}

// The middle with the others around it, once for each level.
fn nested_text(
    alloc: Global,
    before: &str,
    middle: &str,
    behind: &str,
) -> Result<String, AllocError> {
    let mut text = before.repeat(alloc, LEVELS as usize)?;
    text.push_str(middle)?;
    text.push_str(behind.repeat(alloc, LEVELS as usize)?.as_str())?;
    Ok(text)
}

// What an expression prints.
fn printed(alloc: Global, expression: Nested) -> Result<String, Error> {
    let expression = nested(alloc, expression)?;
    Ok(format!(in alloc; "{expression}")?)
}

/// Expressions, and what they print: what precedes the middle at each level, the middle, and what follows it.
type Printed = (Nested, &'static str, &'static str, &'static str);

static PRINTED: [Printed; 2] = rows! {
    (Nesting::RightSides, Innermost::TrueAndTrue), "true && (", "true && true", ")";
    FILTERS, "exists(@?(", "true", "))";
};

/// Whether a chain prints its text.
fn is_chain_printed(alloc: Global) -> Result<bool, Error> {
    Ok(printed(alloc, CHAIN)? == chain_text(alloc)?)
}

/// Whether an expression prints what its row states.
fn is_printed(alloc: Global, row: &Printed) -> Result<bool, Error> {
    Ok(printed(alloc, row.0)? == nested_text(alloc, row.1, row.2, row.3)?)
}

#[test]
fn deep_expressions_are_printed(rt: HostRuntime) {
    assert!(rt; is_chain_printed(rt.alloc()) == Ok(true));
    for row in &PRINTED {
        expect(&rt, is_printed(rt.alloc(), row), row.1);
    }
}
