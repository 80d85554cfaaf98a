//! Paths built by hand, which no text reads as.

use super::*;
use crate::{BinaryOperator, Expr, Number, Path, PathValue, UnaryOperator};

/// `[1]`
const ONES: &[u8] = b"\x80\0\0\x01\x20\0\0\x02\x50\x01";

/// What is built.
#[derive(Clone, Copy, Debug)]
enum Made {
    ItemAlone,
    LiteralAlone,
    PathAsExpression,
    ExpressionAmongSteps,
    SignedOperand,
    ExpressionWithinPath,
    TruthWithinPath,
}

/// Returns a step alone.
fn alone<'a>(alloc: Global, step: Path<'a>) -> Result<Vec<Path<'a>>, AllocError> {
    Ok(vec![in alloc; step]?)
}

/// Returns two steps.
fn both<'a>(alloc: Global, first: Path<'a>, last: Path<'a>) -> Result<Vec<Path<'a>>, AllocError> {
    Ok(vec![in alloc; first, last]?)
}

/// Returns a literal in a box.
fn literal<'a>(alloc: Global, value: PathValue<'a>) -> Result<Box<Expr<'a>>, AllocError> {
    let value = Box::new(alloc, value)?;
    Ok(Box::new(alloc, Expr::Value(value))?)
}

/// Returns the literal 1.
fn one<'a>(alloc: Global) -> Result<Box<Expr<'a>>, AllocError> {
    literal(alloc, PathValue::Number(Number::UInt64(1)))
}

/// Returns `$` as an expression.
fn path_as_expression(alloc: Global) -> Result<Vec<Path<'static>>, AllocError> {
    let root = alone(alloc, Path::Root)?;
    let expression = Box::new(alloc, Expr::Paths(root))?;
    alone(alloc, Path::Expr(expression))
}

/// Returns `$`, and `exists(@)` that is not a filter.
fn expression_among_steps(alloc: Global) -> Result<Vec<Path<'static>>, AllocError> {
    let item = alone(alloc, Path::Current)?;
    let expression = Box::new(alloc, Expr::ExistsFunc(item))?;
    both(alloc, Path::Root, Path::Expr(expression))
}

/// Returns `$?(+1 == 1)`.
fn signed_operand(alloc: Global) -> Result<Vec<Path<'static>>, AllocError> {
    let signed = Expr::UnaryOp {
        op: UnaryOperator::Add,
        operand: one(alloc)?,
    };
    let comparison = Expr::BinaryOp {
        op: BinaryOperator::Eq,
        left: Box::new(alloc, signed)?,
        right: one(alloc)?,
    };
    let filter = Box::new(alloc, comparison)?;
    both(alloc, Path::Root, Path::FilterExpr(filter))
}

/// Returns `[*]?(exists(..))` of these steps.
fn filter_by<'a>(alloc: Global, inner: Vec<Path<'a>>) -> Result<Vec<Path<'a>>, AllocError> {
    let filter = Box::new(alloc, Expr::ExistsFunc(inner))?;
    both(alloc, Path::BracketWildcard, Path::FilterExpr(filter))
}

/// Returns `[*]?(exists(@ null))`.
fn expression_within_path(alloc: Global) -> Result<Vec<Path<'static>>, AllocError> {
    let null = literal(alloc, PathValue::Null)?;
    filter_by(alloc, both(alloc, Path::Current, Path::Expr(null))?)
}

/// Returns `[*]?(exists(@ exists(@)))`, in which the inner one is not a filter.
fn truth_within_path(alloc: Global) -> Result<Vec<Path<'static>>, AllocError> {
    let item = alone(alloc, Path::Current)?;
    let truth = Box::new(alloc, Expr::ExistsFunc(item))?;
    filter_by(alloc, both(alloc, Path::Current, Path::Expr(truth))?)
}

fn steps(alloc: Global, made: Made) -> Result<Vec<Path<'static>>, AllocError> {
    match made {
        Made::ItemAlone => alone(alloc, Path::Current),
        Made::LiteralAlone => alone(alloc, Path::Expr(one(alloc)?)),
        Made::PathAsExpression => path_as_expression(alloc),
        Made::ExpressionAmongSteps => expression_among_steps(alloc),
        Made::SignedOperand => signed_operand(alloc),
        Made::ExpressionWithinPath => expression_within_path(alloc),
        Made::TruthWithinPath => truth_within_path(alloc),
    }
}

/// Returns what a path of these steps selects of a document.
fn selected_by(alloc: Global, paths: Vec<Path<'_>>, document: &str) -> Result<String, Error> {
    let document = bytes_of(alloc, document)?;
    let path = JsonPath { paths };
    let mut selector = Selector::new(alloc, RawJsonb::new(&document));
    Ok(shown(alloc, selector.select_values(&path))?)
}

/// What is built, a document, and what is selected of it.
type Row = (Made, &'static str, &'static str);

static ROWS: [Row; 8] = rows! {
    Made::ItemAlone, "[1]", "InvalidJsonPath";
    Made::LiteralAlone, "[1]", "[1]";
    Made::PathAsExpression, "[1]", "InvalidJsonPath";
    Made::ExpressionAmongSteps, "[1]", "[1]";
    Made::SignedOperand, "[1]", "InvalidJsonPath";
    Made::ExpressionWithinPath, "[1]", "InvalidJsonPath";
    Made::ExpressionWithinPath, "[]", "";
    Made::TruthWithinPath, "[1]", "InvalidJsonPath";
};

/// Returns `true` if the steps select what their row states.
fn is_selected(alloc: Global, row: &Row) -> Result<bool, Error> {
    let steps = steps(alloc, row.0)?;
    Ok(selected_by(alloc, steps, row.1)?.as_str() == row.2)
}

#[test]
fn steps_that_no_text_reads_as(rt: HostRuntime) {
    for row in &ROWS {
        expect(&rt, is_selected(rt.alloc(), row), *row);
    }
}

#[test]
fn no_item_is_below_an_item_alone(rt: HostRuntime) -> Result<(), Error> {
    let paths = both(rt.alloc(), Path::Current, Path::BracketWildcard)?;
    let mut selector = Selector::new(rt.alloc(), RawJsonb::new(ONES));
    let found = selector.exists(&JsonPath { paths });
    assert!(rt; found == Err(Error::InvalidJsonPath));
    Ok(())
}

/// Returns `true` if a document in place of a path selects itself.
fn selects_itself(alloc: Global, name: &str) -> Result<bool, Error> {
    let bytes = bytes_of(alloc, name)?;
    let document = literal(alloc, PathValue::Raw(RawJsonb::new(&bytes)))?;
    let steps = alone(alloc, Path::Expr(document))?;
    Ok(selected_by(alloc, steps, "[1]")?.as_str() == name)
}

#[test]
fn a_document_alone_is_itself(rt: HostRuntime) {
    let mixed = "[false,10,{\"k\":\"v\"}]";
    expect(&rt, selects_itself(rt.alloc(), mixed), mixed);
}

/// Returns the array of a literal alone.
fn array_of_literal(alloc: Global) -> Result<OwnedJsonb, Error> {
    let paths = steps(alloc, Made::LiteralAlone)?;
    Selector::new(alloc, RawJsonb::new(ONES)).select_array(&JsonPath { paths })
}

#[test]
fn the_array_of_a_literal_alone_contains_its_array(rt: HostRuntime) -> Result<(), Error> {
    let array = array_of_literal(rt.alloc())?;
    let name = name_of(rt.alloc(), array.as_raw().as_bytes())?;
    assert!(rt; name.as_str() == "[[1]]");
    Ok(())
}
