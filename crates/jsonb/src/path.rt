//! JSON paths as trees.
//!
//! A path is a list of steps. `parser` parses one from text; a caller may also build one by hand. A parsed path prints
//! as text that parses as the same path, except for the variant of an integer. A path built by hand may print as text
//! that does not parse: one with a scaled number, a document as a literal, an empty name, or a list of steps that the
//! grammar does not produce.

use jsonb_doc::Number;
use jsonb_raw::RawJsonb;
use std::alloc::Global;
use std::borrow::CowStr;

mod chain;
mod compare;
mod copy;
mod copying;
mod debug;
mod display;
mod last;
mod level;
mod own;
mod position;
mod release;

/// A JSON path: the steps of a selection, in order, from the root.
///
/// A parsed path prints as text that parses back. Two paths are equal if they have the same steps, node by node, and
/// literals that are equal by value. Comparing and printing recurse only into nodes that something follows: see
/// docs/STACK.md.
#[derive(PartialEq, Drop)]
pub struct JsonPath<'a> {
    /// The steps, the first one first.
    pub paths: Vec<Path<'a>>,
}

impl JsonPath<'_> {
    ghost use Rattle.std.specs.Prelude.{◌≡◌};
    ghost use Rattle.jsonb.specs.PathTree.{is_predicate};
    ghost use Rattle.jsonb.specs.PathViews.{path_view};

    /// Returns `true` if the path is one expression, such as `$.a == 1`, and not a list of steps.
    ///
    /// # Complexity
    ///
    /// O(1). Does not allocate.
    ///
    /// # Examples
    ///
    /// ```rust crates/jsonb_examples/src/evaluation.rt
    /// if !query.is_predicate() {
    ///     return document.path_exists(alloc, query);
    /// }
    /// let result = document.path_match(alloc, query)?;
    /// Ok(result == Some(true))
    /// ```
    pub fn is_predicate(&self) -> bool
        ensures { result ≡ is_predicate (path_view self.now) }
    {
        match self.paths.as_slice() {
            [only] => only.is_expression(),
            _ => false,
        }
    }
}

/// One step of a path.
///
/// Names borrow from the text that was parsed, unless they have escapes there.
#[cycle(path)]
#[derive(Drop)]
pub enum Path<'a> {
    /// `$`: the root of the document. As a later step it leaves the list unchanged.
    Root,
    /// `@`: the item that a filter tests. As a later step it leaves the list unchanged.
    Current,
    /// `.*`: the values of an object.
    DotWildcard,
    /// `.**`: the item and all that it contains, at every level or at some, such as `.**{1 to last}`.
    RecursiveDotWildcard(Option<RecursiveLevel>),
    /// `[*]`: the elements of an array.
    BracketWildcard,
    /// `.name` or `."a name"`: the value of that key.
    DotField(CowStr<'a, Global>),
    /// `:name` or `:"a name"`: the value of that key.
    ColonField(CowStr<'a, Global>),
    /// `["a name"]`: the value of that key.
    ObjectField(CowStr<'a, Global>),
    /// `[0, last, 1 to 3]`: elements of an array, subscript by subscript.
    ArrayIndices(Vec<ArrayIndex>),
    /// `?(@.a == 1)`: the items for which the expression is true.
    FilterExpr(Box<Expr<'a>>),
    /// An expression that is the whole path, such as `$.a == 1` or `-$.a`.
    Expr(Box<Expr<'a>>),
}

impl Path<'_> {
    ghost use Rattle.std.specs.Prelude.{◌≡◌};
    ghost use Rattle.jsonb.specs.PathViews.{step_view};
    ghost use Rattle.jsonb.specs.Private.Last.{is_expression};

    fn is_expression(&self) -> bool
        ensures { result ≡ is_expression (step_view self.now) }
    {
        match self {
            Path::Expr(_) => true,
            Path::Root
            | Path::Current
            | Path::DotWildcard
            | Path::RecursiveDotWildcard(_)
            | Path::BracketWildcard
            | Path::DotField(_)
            | Path::ColonField(_)
            | Path::ObjectField(_)
            | Path::ArrayIndices(_)
            | Path::FilterExpr(_) => false,
        }
    }
}

/// A position in an array.
#[derive(Clone, Copy, Debug, PartialEq)]
pub enum Index {
    /// `3`: counted from the first element, which is 0. A negative number is not a position of any array.
    Index(i32),
    /// `last`, `last-1` or `last+1`: that many positions after the last element.
    LastIndex(i32),
}

/// A subscript.
#[derive(Clone, Copy, Debug, PartialEq)]
pub enum ArrayIndex {
    /// One position.
    Index(Index),
    /// `1 to last`: all positions from the first to the second, both included.
    Slice((Index, Index)),
}

/// The end of the levels of a recursive step.
#[derive(Clone, Copy, Debug, PartialEq)]
pub enum RecursiveLevelEnd {
    /// At this level.
    Index(u8),
    /// At the deepest level.
    Last,
}

/// The levels of a recursive step, such as those of `.**{2}`, `.**{1 to 3}` and `.**{1 to last}`. The item that
/// the step begins at has level 0, and its children have level 1.
#[derive(Clone, Copy, Debug, PartialEq)]
pub struct RecursiveLevel {
    /// The first level that is selected.
    pub start: u8,
    /// The last level that is selected, or `None` if that is the first.
    pub end: Option<RecursiveLevelEnd>,
}

/// A literal of an expression.
///
/// Two literals are equal if and only if `partial_cmp` returns `Equal`. So 1 equals 1.0, and a document equals
/// nothing, not even itself: there is no `Eq`.
#[derive(Drop)]
pub enum PathValue<'a> {
    /// `null`.
    Null,
    /// `true` or `false`.
    Boolean(bool),
    /// A number. A parsed path has none with a scale.
    Number(Number),
    /// `"a string"`.
    String(CowStr<'a, Global>),
    /// A document. A parsed path has none; it prints as `raw(`, its bytes in hexadecimal, and `)`.
    Raw(RawJsonb<'a>),
}

/// An operator between two operands, or between two conditions.
#[derive(Clone, Copy, Debug, PartialEq, Eq)]
pub enum BinaryOperator {
    /// `&&`.
    And,
    /// `||`.
    Or,
    /// `==`.
    Eq,
    /// `!=`, which may also be written `<>`.
    NotEq,
    /// `<`.
    Lt,
    /// `<=`.
    Lte,
    /// `>`.
    Gt,
    /// `>=`.
    Gte,
    /// `starts with`.
    StartsWith,
    /// `+`.
    Add,
    /// `-`.
    Subtract,
    /// `*`.
    Multiply,
    /// `/`.
    Divide,
    /// `%`.
    Modulo,
}

/// A sign before an operand.
#[derive(Clone, Copy, Debug, PartialEq)]
pub enum UnaryOperator {
    /// `+`.
    Add,
    /// `-`.
    Subtract,
}

/// An expression: in a filter, or as the whole path.
#[cycle(path)]
pub enum Expr<'a> {
    /// A path that begins at `$` or `@`.
    Paths(Vec<Path<'a>>),
    /// A literal.
    Value(Box<PathValue<'a>>),
    /// A comparison, arithmetic, or two conditions joined by `&&` or `||`.
    BinaryOp {
        op: BinaryOperator,
        left: Box<Expr<'a>>,
        right: Box<Expr<'a>>,
    },
    /// A sign before an operand.
    UnaryOp {
        op: UnaryOperator,
        operand: Box<Expr<'a>>,
    },
    /// `exists(@.a)`: whether the path selects an item.
    ExistsFunc(Vec<Path<'a>>),
}

/// Drops an expression in a loop, since the text of conditions may be nested as deep as it is long.
impl Drop for Expr<'_> {
    fn drop(self) {
        self.release();
    }
}
