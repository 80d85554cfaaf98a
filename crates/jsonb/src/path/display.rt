//! Printing of the nodes of a path.

ghost use Rattle.std.specs.Prelude.{◌≡◌, [], ◌∷◌, ◌++◌, Some, codes, flat_map};
ghost use Rattle.std.specs.Fmt.{WritesOnOk};
ghost use Rattle.hex.specs.Hex.{encode_lower};
ghost use Rattle.jsonb.specs.PathText.{offset_text, place_text, entry_text, level_text, operator_text, sign_text, literal_text, needs_parentheses, side_text, step_text, steps_text, expression_text, path_text};
ghost use Rattle.jsonb.specs.PathTree.{steps_of};
ghost use Rattle.jsonb.specs.Private.ChainText.{parenthesis, front_text, fronts_text, link_text, links_text};
ghost use Rattle.jsonb.specs.Private.EntriesText.{entries_text, other_entry_text};
ghost use Rattle.jsonb.specs.Private.Last.{down, step_before, steps_before, text_before, between_text, closing};
ghost use Rattle.jsonb.specs.PathViews.{literal_view, step_view, steps_view, expression_view, path_view};

use super::chain::{below, left_of, links_of};
use super::last::{ends_in_filter, last_of};
use super::{
    ArrayIndex, BinaryOperator, Expr, Index, JsonPath, Path, PathValue, RecursiveLevel,
    RecursiveLevelEnd, UnaryOperator,
};
use jsonb_keypath::token::{write_name, write_quoted};
use std::fmt;

impl fmt::Display for JsonPath<'_> {
    ghost output = { λ p. Some (path_text (path_view p)) };

    fn fmt<W: fmt::Write>(&self, f: &mut fmt::Formatter<W>) -> fmt::Result {
        write_steps(&self.paths, f)
    }
}

impl fmt::Display for Path<'_> {
    ghost output = { λ p. Some (step_text (step_view p)) };

    fn fmt<W: fmt::Write>(&self, f: &mut fmt::Formatter<W>) -> fmt::Result {
        write_step(self, f)
    }
}

impl fmt::Display for Expr<'_> {
    ghost output = { λ e. Some (expression_text (expression_view e)) };

    fn fmt<W: fmt::Write>(&self, f: &mut fmt::Formatter<W>) -> fmt::Result {
        write_expression(self, f)
    }
}

#[cycle(write)]
fn write_steps<W: fmt::Write>(steps: &[Path<'_>], f: &mut fmt::Formatter<W>) -> fmt::Result
    ensures { WritesOnOk W.write_str_gives f.old result (steps_text (steps_of (steps_view steps.now))) f.new }
{
    for step in steps {
        write_step(step, f)?;
    }
    Ok(())
}

#[cycle(write)]
fn write_step<W: fmt::Write>(step: &Path<'_>, f: &mut fmt::Formatter<W>) -> fmt::Result
    ensures { WritesOnOk W.write_str_gives f.old result (step_text (step_view step.now)) f.new }
{
    match step {
        Path::Root => f.write_str("$"),
        Path::Current => f.write_str("@"),
        Path::DotWildcard => f.write_str(".*"),
        Path::RecursiveDotWildcard(None) => f.write_str(".**"),
        Path::RecursiveDotWildcard(Some(level)) => write!(f, ".**{{{level}}}"),
        Path::BracketWildcard => f.write_str("[*]"),
        Path::DotField(name) => {
            f.write_str(".")?;
            write_name(name.as_str(), f)
        }
        Path::ColonField(name) => {
            f.write_str(":")?;
            write_name(name.as_str(), f)
        }
        Path::ObjectField(name) => {
            f.write_str("[")?;
            write_quoted(name.as_str(), f)?;
            f.write_str("]")
        }
        Path::ArrayIndices(indices) => write_array_indices(indices, f),
        Path::FilterExpr(expression) => {
            f.write_str("?(")?;
            write_expression(expression, f)?;
            f.write_str(")")
        }
        Path::Expr(expression) => write_expression(expression, f),
    }
}

#[cycle(write)]
fn write_expression<W: fmt::Write>(expression: &Expr<'_>, f: &mut fmt::Formatter<W>) -> fmt::Result
    ensures { WritesOnOk W.write_str_gives f.old result (expression_text (expression_view expression.now)) f.new }
{
    write_down(expression, f)?;
    write_closings(expression, f)
}

/// Writes an expression without the parentheses that close at its end. Its last expression is written last, so that no
/// call has to return from there.
#[cycle(write)]
fn write_down<W: fmt::Write>(expression: &Expr<'_>, f: &mut fmt::Formatter<W>) -> fmt::Result
    ensures { WritesOnOk W.write_str_gives f.old result (down text_before (expression_view expression.now)) f.new }
{
    let mut next = Some(expression);
    while let Some(inner) = next {
        write_before(inner, f)?;
        next = last_of(inner);
    }
    Ok(())
}

/// Writes the parentheses that close at the end of an expression. They are all equal, so the outer ones may be written
/// first.
fn write_closings<W: fmt::Write>(expression: &Expr<'_>, f: &mut fmt::Formatter<W>) -> fmt::Result
    ensures { WritesOnOk W.write_str_gives f.old result (down closing (expression_view expression.now)) f.new }
{
    let mut next = Some(expression);
    while let Some(inner) = next {
        f.write_str(closing_of(inner))?;
        next = last_of(inner);
    }
    Ok(())
}

/// Returns the parentheses that close after the last expression.
fn closing_of(expression: &Expr<'_>) -> &'static str
    ensures { result.now ≡ closing (expression_view expression.now) }
{
    match expression {
        Expr::BinaryOp { right, .. } if needs_parentheses(right) => ")",
        Expr::Paths(steps) if ends_in_filter(steps) => ")",
        Expr::ExistsFunc(steps) if ends_in_filter(steps) => "))",
        Expr::ExistsFunc(_) => ")",
        _ => "",
    }
}

/// Writes what precedes the last expression of this one; without one, all except the parenthesis at the end.
#[cycle(write)]
fn write_before<W: fmt::Write>(expression: &Expr<'_>, f: &mut fmt::Formatter<W>) -> fmt::Result
    ensures { WritesOnOk W.write_str_gives f.old result (text_before (expression_view expression.now)) f.new }
{
    match expression {
        Expr::Paths(steps) => write_before_last(steps, f),
        Expr::Value(literal) => write!(f, "{}", **literal),
        Expr::BinaryOp { left, right, .. } => {
            write_opening(left, f)?;
            write_chain(left, f)?;
            write_between(expression, f)?;
            write_opening(right, f)
        }
        Expr::UnaryOp { op, .. } => write!(f, "{op}"),
        Expr::ExistsFunc(steps) => {
            f.write_str("exists(")?;
            write_before_last(steps, f)
        }
    }
}

/// Writes the steps, of the last one only what precedes its expression.
#[cycle(write)]
fn write_before_last<W: fmt::Write>(steps: &Vec<Path<'_>>, f: &mut fmt::Formatter<W>) -> fmt::Result
    ensures { WritesOnOk W.write_str_gives f.old result (steps_before (steps_of (steps_view steps.now.items))) f.new }
{
    let Some((last, others)) = steps.split_last() else {
        return Ok(());
    };
    write_steps(others, f)?;
    write_step_before(last, f)
}

/// Writes a step, or what precedes its expression.
#[cycle(write)]
fn write_step_before<W: fmt::Write>(step: &Path<'_>, f: &mut fmt::Formatter<W>) -> fmt::Result
    ensures { WritesOnOk W.write_str_gives f.old result (step_before (step_view step.now)) f.new }
{
    match step {
        Path::FilterExpr(_) => f.write_str("?("),
        Path::Expr(_) => Ok(()),
        _ => write_step(step, f),
    }
}

/// Writes an expression from its innermost left side on.
#[cycle(write)]
fn write_chain<W: fmt::Write>(expression: &Expr<'_>, f: &mut fmt::Formatter<W>) -> fmt::Result
    ensures { WritesOnOk W.write_str_gives f.old result (expression_text (expression_view expression.now)) f.new }
{
    let links = links_of(expression);
    write_fronts(expression, links, f)?;
    write_expression(below(expression, links), f)?;
    write_links(expression, links, f)
}

/// Opens the parentheses of that many nested left sides.
fn write_fronts<W: fmt::Write>(
    chain: &Expr<'_>,
    links: usize,
    f: &mut fmt::Formatter<W>,
) -> fmt::Result
    ensures { WritesOnOk W.write_str_gives f.old result (fronts_text links (expression_view chain.now)) f.new }
{
    let mut inner = chain;
    for _ in 0..links {
        write_front(inner, f)?;
        inner = left_of(inner);
    }
    Ok(())
}

/// Writes what precedes the left side of a pair.
fn write_front<W: fmt::Write>(pair: &Expr<'_>, f: &mut fmt::Formatter<W>) -> fmt::Result
    ensures { WritesOnOk W.write_str_gives f.old result (front_text (expression_view pair.now)) f.new }
{
    match pair {
        Expr::BinaryOp { left, .. } if needs_parentheses(left) => f.write_str("("),
        _ => Ok(()),
    }
}

/// Writes the outermost links of a chain, the inner ones first. They can only be reached from the outside, so each half
/// is written by a call, the inner one first, and the recursion depth is logarithmic.
#[cycle(write)]
fn write_links<W: fmt::Write>(
    chain: &Expr<'_>,
    links: usize,
    f: &mut fmt::Formatter<W>,
) -> fmt::Result
    ensures { WritesOnOk W.write_str_gives f.old result (links_text links (expression_view chain.now)) f.new }
{
    match links {
        0 => Ok(()),
        1 => write_link(chain, f),
        _ => {
            let outer = links / 2;
            write_links(below(chain, outer), links - outer, f)?;
            write_links(chain, outer, f)
        }
    }
}

/// Writes what follows the left side of a pair.
#[cycle(write)]
fn write_link<W: fmt::Write>(pair: &Expr<'_>, f: &mut fmt::Formatter<W>) -> fmt::Result
    ensures { WritesOnOk W.write_str_gives f.old result (link_text (expression_view pair.now)) f.new }
{
    let Expr::BinaryOp { right, .. } = pair else {
        return Ok(());
    };
    write_between(pair, f)?;
    write_side(right, f)
}

/// Writes what is between the sides of a pair.
fn write_between<W: fmt::Write>(pair: &Expr<'_>, f: &mut fmt::Formatter<W>) -> fmt::Result
    ensures { WritesOnOk W.write_str_gives f.old result (between_text (expression_view pair.now)) f.new }
{
    let Expr::BinaryOp { op, left, .. } = pair else {
        return Ok(());
    };
    if needs_parentheses(left) {
        f.write_str(")")?;
    }
    write!(f, " {op} ")
}

/// Writes a side of a binary expression.
#[cycle(write)]
fn write_side<W: fmt::Write>(side: &Expr<'_>, f: &mut fmt::Formatter<W>) -> fmt::Result
    ensures { WritesOnOk W.write_str_gives f.old result
        (side_text (expression_view side.now) (expression_text (expression_view side.now))) f.new }
{
    if needs_parentheses(side) {
        f.write_str("(")?;
        write_expression(side, f)?;
        f.write_str(")")
    } else {
        write_expression(side, f)
    }
}

/// Writes the parenthesis before a side, if it has one.
fn write_opening<W: fmt::Write>(side: &Expr<'_>, f: &mut fmt::Formatter<W>) -> fmt::Result
    ensures { WritesOnOk W.write_str_gives f.old result (parenthesis (expression_view side.now) (codes "(")) f.new }
{
    if needs_parentheses(side) {
        f.write_str("(")
    } else {
        Ok(())
    }
}

/// Returns `true` if the expression joins conditions: as a side it is in parentheses.
fn needs_parentheses(expression: &Expr<'_>) -> bool
    ensures { result ≡ needs_parentheses (expression_view expression.now) }
{
    matches!(
        expression,
        Expr::BinaryOp {
            op: BinaryOperator::And | BinaryOperator::Or,
            ..
        }
    )
}

fn write_array_indices<W: fmt::Write>(
    indices: &Vec<ArrayIndex>,
    f: &mut fmt::Formatter<W>,
) -> fmt::Result
    ensures { WritesOnOk W.write_str_gives f.old result
        (codes "[" ++ entries_text indices.now.items ++ codes "]") f.new }
{
    f.write_str("[")?;
    write_entries(indices, f)?;
    f.write_str("]")
}

/// Writes the subscripts, with a comma and a space between two.
fn write_entries<W: fmt::Write>(entries: &[ArrayIndex], f: &mut fmt::Formatter<W>) -> fmt::Result
    ensures { WritesOnOk W.write_str_gives f.old result (entries_text entries.now) f.new }
{
    let Some((first, rest)) = entries.split_first() else {
        return Ok(());
    };
    write!(f, "{first}")?;
    write_others(rest, f)
}

/// Writes each subscript after a comma and a space.
fn write_others<W: fmt::Write>(entries: &[ArrayIndex], f: &mut fmt::Formatter<W>) -> fmt::Result
    ensures { WritesOnOk W.write_str_gives f.old result (flat_map other_entry_text entries.now) f.new }
{
    for entry in entries {
        write!(f, ", {entry}")?;
    }
    Ok(())
}

impl fmt::Display for Index {
    ghost output = { λ i. Some (place_text i) };

    fn fmt<W: fmt::Write>(&self, f: &mut fmt::Formatter<W>) -> fmt::Result {
        match self {
            Index::Index(index) => write!(f, "{index}"),
            Index::LastIndex(offset) => write_last(*offset, f),
        }
    }
}

/// Writes a position that is counted from the last element. The least offset has no positive counterpart, so it does
/// not follow a minus.
fn write_last<W: fmt::Write>(offset: i32, f: &mut fmt::Formatter<W>) -> fmt::Result
    ensures { WritesOnOk W.write_str_gives f.old result (codes "last" ++ offset_text offset) f.new }
{
    if offset == 0 {
        return f.write_str("last");
    }
    if offset > 0 || offset == i32::MIN {
        return write!(f, "last+{offset}");
    }
    write!(f, "last{offset}")
}

impl fmt::Display for ArrayIndex {
    ghost output = { λ e. Some (entry_text e) };

    fn fmt<W: fmt::Write>(&self, f: &mut fmt::Formatter<W>) -> fmt::Result {
        match self {
            ArrayIndex::Index(index) => write!(f, "{index}"),
            ArrayIndex::Slice((start, end)) => write!(f, "{start} to {end}"),
        }
    }
}

impl fmt::Display for RecursiveLevel {
    ghost output = { λ l. Some (level_text l) };

    fn fmt<W: fmt::Write>(&self, f: &mut fmt::Formatter<W>) -> fmt::Result {
        let start = self.start;
        match self.end {
            None => write!(f, "{start}"),
            Some(RecursiveLevelEnd::Index(end)) => write!(f, "{start} to {end}"),
            Some(RecursiveLevelEnd::Last) => write!(f, "{start} to last"),
        }
    }
}

impl fmt::Display for PathValue<'_> {
    ghost output = { λ v. Some (literal_text (literal_view v)) };

    fn fmt<W: fmt::Write>(&self, f: &mut fmt::Formatter<W>) -> fmt::Result {
        match self {
            PathValue::Null => f.write_str("null"),
            PathValue::Boolean(true) => f.write_str("true"),
            PathValue::Boolean(false) => f.write_str("false"),
            PathValue::Number(number) => write!(f, "{number}"),
            PathValue::String(text) => write_quoted(text.as_str(), f),
            PathValue::Raw(document) => {
                f.write_str("raw(")?;
                write_hex(document.as_bytes(), f)?;
                f.write_str(")")
            }
        }
    }
}

/// Writes the bytes in hexadecimal, in lower case.
fn write_hex<W: fmt::Write>(bytes: &[u8], f: &mut fmt::Formatter<W>) -> fmt::Result
    ensures { WritesOnOk W.write_str_gives f.old result (encode_lower bytes.now) f.new }
{
    for byte in bytes {
        write_hex_byte(*byte, f)?;
    }
    Ok(())
}

fn write_hex_byte<W: fmt::Write>(byte: u8, f: &mut fmt::Formatter<W>) -> fmt::Result
    ensures { WritesOnOk W.write_str_gives f.old result (encode_lower (byte ∷ [])) f.new }
{
    let mut digits = [0; 2];
    if hex::encode_to_slice([byte].as_slice(), &mut digits).is_err() {
        return Err(fmt::Error);
    }
    match str::from_utf8(&digits) {
        Ok(text) => f.write_str(text),
        Err(_) => Err(fmt::Error),
    }
}

impl fmt::Display for BinaryOperator {
    ghost output = { λ op. Some (operator_text op) };

    fn fmt<W: fmt::Write>(&self, f: &mut fmt::Formatter<W>) -> fmt::Result {
        f.write_str(match self {
            BinaryOperator::And => "&&",
            BinaryOperator::Or => "||",
            BinaryOperator::Eq => "==",
            BinaryOperator::NotEq => "!=",
            BinaryOperator::Lt => "<",
            BinaryOperator::Lte => "<=",
            BinaryOperator::Gt => ">",
            BinaryOperator::Gte => ">=",
            BinaryOperator::StartsWith => "starts with",
            BinaryOperator::Add => "+",
            BinaryOperator::Subtract => "-",
            BinaryOperator::Multiply => "*",
            BinaryOperator::Divide => "/",
            BinaryOperator::Modulo => "%",
        })
    }
}

impl fmt::Display for UnaryOperator {
    ghost output = { λ op. Some (sign_text op) };

    fn fmt<W: fmt::Write>(&self, f: &mut fmt::Formatter<W>) -> fmt::Result {
        f.write_str(match self {
            UnaryOperator::Add => "+",
            UnaryOperator::Subtract => "-",
        })
    }
}
