//! The calls on parts of paths: copies of a step, an expression or a literal, tokens, and the positions of an index
//! entry.

use crate::answer::is_same;
use crate::mark::tell;
use jsonb::{
    ArrayIndex, BinaryOperator, Error, Expr, Index, KeyPath, OwnedKeyPath, Path, PathValue,
    read_name, read_quoted,
};
use std::alloc::Global;
use std::borrow::CowStr;

/// A call on a part of a path that has a string.
#[derive(Clone, Copy)]
pub enum PartCall {
    CloneBorrowedKey,
    CloneKey,
    OwnKey,
    CloneOwnedKey,
    CloneStep,
    OwnStep,
    CloneExpression,
    OwnExpression,
    CloneLiteral,
    CloneBorrowedLiteral,
    OwnLiteral,
}

impl PartCall {
    /// Makes the call on a part with this text.
    pub fn ask(self, rt: &HostRuntime, text: &str) -> Result<bool, Error> {
        let alloc = rt.alloc();
        match self {
            PartCall::CloneBorrowedKey => clone_key(rt, CowStr::Borrowed(text)),
            PartCall::CloneKey => clone_key(rt, owned(alloc, text)?),
            PartCall::OwnKey => own_key(rt, text),
            PartCall::CloneOwnedKey => clone_owned_key(rt, text),
            PartCall::CloneStep => clone_step(rt, text),
            PartCall::OwnStep => own_step(rt, text),
            PartCall::CloneExpression => clone_expression(rt, text),
            PartCall::OwnExpression => own_expression(rt, text),
            PartCall::CloneLiteral => clone_literal(rt, owned(alloc, text)?),
            PartCall::CloneBorrowedLiteral => clone_literal(rt, CowStr::Borrowed(text)),
            PartCall::OwnLiteral => own_literal(rt, text),
        }
    }
}

/// Returns an owned string.
fn owned(alloc: Global, text: &str) -> Result<CowStr<'static, Global>, Error> {
    Ok(CowStr::Owned(String::from_str(alloc, text)?))
}

/// A quoted step that owns its text.
fn quoted(alloc: Global, text: &str) -> Result<OwnedKeyPath, Error> {
    Ok(OwnedKeyPath::QuotedName(String::from_str(alloc, text)?))
}

/// `@ == "c"`, of any text.
fn comparison(alloc: Global, text: &str) -> Result<Expr<'static>, Error> {
    let mut steps = Vec::new(alloc);
    steps.push(Path::Current)?;
    let right = Expr::Value(Box::new(alloc, PathValue::String(owned(alloc, text)?))?);
    Ok(Expr::BinaryOp {
        op: BinaryOperator::Eq,
        left: Box::new(alloc, Expr::Paths(steps))?,
        right: Box::new(alloc, right)?,
    })
}

/// `?(@ == "c")`, of any text.
fn filter(alloc: Global, text: &str) -> Result<Path<'static>, Error> {
    Ok(Path::FilterExpr(Box::new(alloc, comparison(alloc, text)?)?))
}

fn clone_key(rt: &HostRuntime, name: CowStr<'_, Global>) -> Result<bool, Error> {
    clones!(rt, KeyPath::Name(name))
}

fn own_key(rt: &HostRuntime, text: &str) -> Result<bool, Error> {
    let step = KeyPath::Name(CowStr::Borrowed(text));
    let answer = marked!(rt, step.to_owned(rt.alloc()));
    Ok(answer?.as_key_path() == step)
}

fn clone_owned_key(rt: &HostRuntime, text: &str) -> Result<bool, Error> {
    clones!(rt, quoted(rt.alloc(), text)?)
}

fn clone_step(rt: &HostRuntime, text: &str) -> Result<bool, Error> {
    clones!(rt, filter(rt.alloc(), text)?)
}

fn own_step(rt: &HostRuntime, text: &str) -> Result<bool, Error> {
    owns!(rt, filter(rt.alloc(), text)?)
}

fn clone_expression(rt: &HostRuntime, text: &str) -> Result<bool, Error> {
    clones!(rt, comparison(rt.alloc(), text)?)
}

fn own_expression(rt: &HostRuntime, text: &str) -> Result<bool, Error> {
    owns!(rt, comparison(rt.alloc(), text)?)
}

fn clone_literal(rt: &HostRuntime, text: CowStr<'_, Global>) -> Result<bool, Error> {
    clones!(rt, PathValue::String(text))
}

fn own_literal(rt: &HostRuntime, text: &str) -> Result<bool, Error> {
    owns!(rt, PathValue::String(owned(rt.alloc(), text)?))
}

static OF_KEY_PATHS: [(&str, PartCall); 4] = rows! {
    "KeyPath::clone of a borrowed name", PartCall::CloneBorrowedKey;
    "KeyPath::clone of a name of its own", PartCall::CloneKey;
    "KeyPath::to_owned", PartCall::OwnKey;
    "OwnedKeyPath::clone", PartCall::CloneOwnedKey;
};

static OF_JSON_PATHS: [(&str, PartCall); 7] = rows! {
    "Path::clone", PartCall::CloneStep;
    "Path::to_owned", PartCall::OwnStep;
    "Expr::clone", PartCall::CloneExpression;
    "Expr::to_owned", PartCall::OwnExpression;
    "PathValue::clone of a text of its own", PartCall::CloneLiteral;
    "PathValue::clone of a borrowed text", PartCall::CloneBorrowedLiteral;
    "PathValue::to_owned", PartCall::OwnLiteral;
};

/// Makes each call on a part with this string, and reports its result.
fn ask_each(rt: &HostRuntime, text: &str, calls: &[(&str, PartCall)]) {
    for (name, call) in calls {
        tell(rt, *name, call.ask(rt, text));
    }
}

pub fn of_key_paths(rt: &HostRuntime) {
    ask_each(rt, "abc", &OF_KEY_PATHS);
}

pub fn of_json_paths(rt: &HostRuntime) {
    ask_each(rt, "c", &OF_JSON_PATHS);
}

/// A sort of token, and the string `abc` as such a name and such a quoted string, each with `,d` after it.
static TOKENS: [(&str, &[u8], &[u8]); 2] = rows! {
    "a plain text", b"abc,d", b"\"abc\",d";
    "an escape", b"a\\u0062c,d", b"\"a\\u0062c\",d";
};

/// Runs each case of a token, and reports its result.
pub fn tokens(rt: &HostRuntime) {
    for (kind, name, quoted) in &TOKENS {
        let is_right = reads_name(rt, name, "abc");
        tell(rt, format_args!("read_name of {kind}"), is_right);
        let is_right = reads_quoted(rt, quoted, "abc");
        tell(rt, format_args!("read_quoted of {kind}"), is_right);
    }
}

/// Returns `true` if the name before `,d` parses as this string.
pub fn reads_name(rt: &HostRuntime, input: &[u8], text: &str) -> Result<bool, Error> {
    let answer = marked!(rt, read_name(rt.alloc(), input));
    Ok(is_in_front(answer?, text))
}

/// Returns `true` if the quoted string before `,d` parses as this one.
pub fn reads_quoted(rt: &HostRuntime, input: &[u8], text: &str) -> Result<bool, Error> {
    let answer = marked!(rt, read_quoted(rt.alloc(), input));
    Ok(is_in_front(answer?, text))
}

/// Returns `true` if a token is this string with `,d` after it.
fn is_in_front(found: Option<(CowStr<'_, Global>, &[u8])>, wanted: &str) -> bool {
    match found {
        Some((text, rest)) => text.as_str() == wanted && rest == b",d".as_slice(),
        None => false,
    }
}

/// Whether `0 to last` has as many positions as an array of that many elements.
pub fn to_indices(rt: &HostRuntime, count: usize) -> Result<bool, Error> {
    let all = ArrayIndex::Slice((Index::Index(0), Index::LastIndex(0)));
    let answer = marked!(rt, all.to_indices(rt.alloc(), count));
    Ok(answer?.len() == count)
}
