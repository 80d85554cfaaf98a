//! Example rows of key paths: what is parsed, rejected and printed.

use super::*;
use jsonb_doc::Error;
use std::alloc::{AllocError, Global};
use std::borrow::CowStr;
use std::fmt::{self, Debug};
use std::hash::{DefaultHasher, Hash, Hasher};
use std::process::Abort;

/// Fails with the row of a table and the result, unless the row is as expected and no call failed.
fn expect<T: Debug + Copy>(rt: &impl Abort, is_so: Result<bool, Error>, row: T) {
    assert!(*rt; matches!(is_so, Ok(true)), "{row:?}: {is_so:?}");
}

/// Returns the variant and the content of a step. A string that had to be copied is owned.
fn described(alloc: Global, step: &KeyPath<'_>) -> Result<String, AllocError> {
    let (variant, name) = match step {
        KeyPath::Index(index) => return format!(in alloc; "index {index}"),
        KeyPath::Name(name) => ("name", name),
        KeyPath::QuotedName(name) => ("quoted", name),
    };
    let own = match name {
        CowStr::Borrowed(_) => "",
        CowStr::Owned(_) => "own ",
    };
    let text = name.as_str();
    format!(in alloc; "{own}{variant} {text}")
}

/// Returns the steps of a key path with semicolons after them.
fn steps_of(alloc: Global, path: &KeyPaths<'_>) -> Result<String, AllocError> {
    let mut steps = String::new(alloc);
    for step in &path.paths {
        steps.push_str(described(alloc, step)?.as_str())?;
        steps.push(';')?;
    }
    Ok(steps)
}

/// A line for each input: the input, a space and an equals sign, and its steps or the error.
static READ: &str = "
{} =
 { }  =
{+1} =index 1;
{99999999999,2147483647,-2147483648} =name 99999999999;index 2147483647;index -2147483648;
{a\t&b} =name a\t&b;
{a,\"b\"} =name a;quoted b;
{\\u{0061},\"\\u0062\"} =own name a;own quoted b;
{1a} =InvalidKeyPath
{ =InvalidKeyPath
ab =InvalidKeyPath
{1,} =InvalidKeyPath
{,1} =InvalidKeyPath
{1.5} =InvalidKeyPath
{a}b =InvalidKeyPath
 =InvalidKeyPath
{-99999999999} =InvalidKeyPath
{\"a =InvalidKeyPath
{\"\"} =InvalidKeyPath
{a\\u{12}} =InvalidKeyPath
{a\\x} =InvalidKeyPath
{\\ud83d} =InvalidKeyPath
{\\ude00} =InvalidKeyPath
{\"\\ud83d\\u0061\"} =InvalidKeyPath";

/// Inputs that no line can hold, and the steps of each.
static READ_AS_BYTES: [(&[u8], &str); 3] = [
    (b" {\t1, a ,\r\n\"b c\"} ", "index 1;name a;quoted b c;"),
    (b"{a\xff}", "InvalidKeyPath"),
    (b"{\"\xff\"}", "InvalidKeyPath"),
];

/// Returns `true` if these are the steps of an input, or this is its error.
fn has_steps(alloc: Global, text: &[u8], wanted: &str) -> Result<bool, Error> {
    match parse_key_paths(alloc, text) {
        Ok(path) => Ok(steps_of(alloc, &path)?.as_str() == wanted),
        Err(Error::InvalidKeyPath) => Ok(wanted == "InvalidKeyPath"),
        Err(error) => Err(error),
    }
}

#[test]
fn texts_are_read_or_refused(rt: HostRuntime) {
    for line in READ.lines().skip(1) {
        let (text, wanted) = line.split_once(" =").unwrap_or((line, "no steps"));
        expect(&rt, has_steps(rt.alloc(), text.as_bytes(), wanted), text);
    }
    for (text, wanted) in &READ_AS_BYTES {
        expect(&rt, has_steps(rt.alloc(), text, wanted), *text);
    }
}

/// A name or a quoted string, the text after it, and whether it had to be copied.
type Front = (&'static str, &'static [u8], bool);

/// Returns `true` if a reader found this, whether it had to copy it or not.
fn is_read(found: &Option<(CowStr<'_>, &[u8])>, wanted: Option<Front>) -> bool {
    match (found, wanted) {
        (Some((name, behind)), Some((text, rest, _))) => name.as_str() == text && *behind == rest,
        (None, None) => true,
        _ => false,
    }
}

/// Returns `true` if a reader copied what it found only if it had to.
fn is_copied_as_needed(found: &Option<(CowStr<'_>, &[u8])>, wanted: Option<Front>) -> bool {
    match (found, wanted) {
        (Some((name, _)), Some((_, _, is_own))) => is_own == matches!(name, CowStr::Owned(_)),
        _ => true,
    }
}

/// Inputs, and the names that they begin with.
static NAMES: [(&[u8], Option<Front>); 7] = [
    (b"ab.c", Some(("ab", b".c", false))),
    (b"\\u{0061}b.c", Some(("ab", b".c", true))),
    (b"\\ud83d\\u{de00}", Some(("\u{1f600}", b"", true))),
    (b"", None),
    (b".a", None),
    (b"a\\q", None),
    (b"\xc3.", None),
];

/// Inputs, and the quoted strings that they begin with.
static QUOTED: [(&[u8], Option<Front>); 5] = [
    (b"\"a b\".c", Some(("a b", b".c", false))),
    (
        b"\"\\\"\\\\\\/\\b\\f\\n\\r\\t\"!",
        Some(("\"\\/\u{8}\u{c}\n\r\t", b"!", true)),
    ),
    (b"\"\"", None),
    (b"\"a", None),
    (b"a", None),
];

/// Fails with the text of a row, unless a reader found what it states.
fn expect_read(
    rt: &impl Abort,
    found: &Option<(CowStr<'_>, &[u8])>,
    text: &[u8],
    wanted: Option<Front>,
) {
    assert!(*rt; is_read(found, wanted), "{text:?}");
    assert!(*rt; is_copied_as_needed(found, wanted), "copied {text:?}");
}

#[test]
fn names_and_quoted_texts_are_read(rt: HostRuntime) -> Result<(), Error> {
    for (text, wanted) in &NAMES {
        expect_read(&rt, &read_name(rt.alloc(), text)?, text, *wanted);
    }
    for (text, wanted) in &QUOTED {
        expect_read(&rt, &read_quoted(rt.alloc(), text)?, text, *wanted);
    }
    Ok(())
}

/// A reader of integers, and what it returns.
#[derive(Clone, Copy)]
enum Integer {
    Int32(Option<(i32, &'static [u8])>),
    Int64(Option<(i64, &'static [u8])>),
    Nat64(Option<(u64, &'static [u8])>),
    Nat8(Option<(u8, &'static [u8])>),
}

/// Inputs, and the integers that they begin with.
static INTEGERS: [(&[u8], Integer); 10] = [
    (b"+007]", Integer::Int32(Some((7, b"]")))),
    (b"-2147483648", Integer::Int32(Some((i32::MIN, b"")))),
    (b"2147483648", Integer::Int32(None)),
    (
        b"-9223372036854775808",
        Integer::Int64(Some((i64::MIN, b""))),
    ),
    (b"9223372036854775808", Integer::Int64(None)),
    (
        b"18446744073709551615 ",
        Integer::Nat64(Some((u64::MAX, b" "))),
    ),
    (b"18446744073709551616", Integer::Nat64(None)),
    (b"255}", Integer::Nat8(Some((255, b"}")))),
    (b"256", Integer::Nat8(None)),
    (b"-1", Integer::Nat8(None)),
];

/// Returns `true` if an input begins with this integer.
fn begins_with(text: &[u8], integer: Integer) -> bool {
    match integer {
        Integer::Int32(wanted) => token::int32(text) == wanted,
        Integer::Int64(wanted) => token::int64(text) == wanted,
        Integer::Nat64(wanted) => token::nat64(text) == wanted,
        Integer::Nat8(wanted) => token::nat8(text) == wanted,
    }
}

#[test]
fn tokens_and_their_rests(rt: HostRuntime) {
    for (text, integer) in &INTEGERS {
        expect(&rt, Ok(begins_with(text, *integer)), *text);
    }
    assert!(rt; matches!(token::skip_space(b" \t\r\n a"), b"a"));
    assert!(rt; matches!(token::literal(b"to", b"to 3"), Some(b" 3")));
    assert!(rt; token::literal(b"to", b"t").is_none());
}

/// Returns `true` if the key path of an input, and the owned one, print this text.
fn prints(alloc: Global, text: &str, wanted: &str) -> Result<bool, Error> {
    let found = parse_key_paths(alloc, text.as_bytes())?;
    let owned = found.to_owned(alloc)?;
    let printed = format!(in alloc; "{found}\n{owned}")?;
    Ok(printed.as_str().split_once('\n') == Some((wanted, wanted)))
}

/// A line for each text: the text, a space and an equals sign, and what is printed.
static PRINTED: &str = "
 { 1, a }  ={1,a}
{\"a b\",-2} ={\"a b\",-2}
{\\u{0061}} ={a}
{007} ={7}
{-0} ={0}
{} ={}
{99999999999,+1,\"a b\"} ={\"99999999999\",1,\"a b\"}
{\"x\\\"\\\\y\",\\u00e9_} ={\"x\\\"\\\\y\",\"\u{e9}_\"}";

#[test]
fn prints_key_paths(rt: HostRuntime) {
    for line in PRINTED.lines().skip(1) {
        let (text, wanted) = line.split_once(" =").unwrap_or((line, "no path"));
        expect(&rt, prints(rt.alloc(), text, wanted), text);
    }
}

/// A string that prints as a name and as a quoted string, by the writers of tokens.
#[derive(Drop)]
struct Written<'a>(&'a str);

impl fmt::Display for Written<'_> {
    fn fmt<W: fmt::Write>(&self, f: &mut fmt::Formatter<W>) -> fmt::Result {
        token::write_name(self.0, f)?;
        f.write_str(" ")?;
        token::write_quoted(self.0, f)
    }
}

/// Returns `true` if the writers of tokens print this of a string.
fn writes(alloc: Global, text: &str, wanted: &str) -> Result<bool, Error> {
    let written = Written(text);
    Ok(format!(in alloc; "{written}")?.as_str() == wanted)
}

#[test]
fn prints_names_and_quoted_texts(rt: HostRuntime) {
    for (text, wanted) in [("a_1", "a_1 \"a_1\""), ("1\"", "\"1\\\"\" \"1\\\"\"")] {
        expect(&rt, writes(rt.alloc(), text, wanted), text);
    }
    for (text, is_plain) in [("_a", true), ("1a", false), ("", false)] {
        expect(&rt, Ok(token::is_plain_name(text) == is_plain), text);
    }
}

/// Returns `true` if a name, its owned copy and an index print this.
fn steps_print(alloc: Global, name: &str, index: i32, wanted: &str) -> Result<bool, Error> {
    let step = KeyPath::Name(CowStr::Borrowed(name));
    let owned = step.to_owned(alloc)?;
    let index = OwnedKeyPath::Index(index);
    Ok(format!(in alloc; "{step} {owned} {index}")?.as_str() == wanted)
}

#[test]
fn prints_steps(rt: HostRuntime) {
    let is_so = steps_print(rt.alloc(), "a b", -3, "\"a b\" \"a b\" -3");
    expect(&rt, is_so, "a b");
}

/// Returns an owned copy of the path that borrows from an owned one.
fn copied_by_borrowing(alloc: Global, path: &OwnedKeyPaths) -> Result<OwnedKeyPaths, Error> {
    path.as_key_paths(alloc)?.to_owned(alloc)
}

/// Returns `true` if an owned path equals its copy, and a copy of the path that borrows from it.
fn equals_its_copies(alloc: Global, path: &OwnedKeyPaths) -> Result<bool, Error> {
    let is_copied = path.clone(alloc)? == *path;
    Ok(copied_by_borrowing(alloc, path)? == *path && is_copied)
}

/// Returns `true` if a path equals its copy.
fn equals_its_copy(alloc: Global, path: &KeyPaths<'_>) -> Result<bool, Error> {
    Ok(path.clone(alloc)? == *path)
}

/// Returns `true` if a parsed path equals its copy, and the owned one its copies.
fn copies_are_equal(alloc: Global, text: &[u8]) -> Result<bool, Error> {
    let found = parse_key_paths(alloc, text)?;
    let owned = found.to_owned(alloc)?;
    Ok(equals_its_copy(alloc, &found)? && equals_its_copies(alloc, &owned)?)
}

#[test]
fn copied_paths_are_equal(rt: HostRuntime) {
    let is_so = copies_are_equal(rt.alloc(), b"{1,a,\"b\",\\u0061}");
    expect(&rt, is_so, "copies");
}

/// Returns `true` if a step is the borrowed name `a`.
fn borrows_a(step: &KeyPath<'_>) -> bool {
    matches!(step, KeyPath::Name(CowStr::Borrowed("a")))
}

/// Returns `true` if an owned step equals its copy.
fn equals_its_copied_step(alloc: Global, step: &OwnedKeyPath) -> Result<bool, Error> {
    Ok(step.clone(alloc)? == *step)
}

/// Returns `true` if a copy of this name borrows it, and so does one borrowed from an owned name, which equals its
/// copy.
fn is_copied(alloc: Global, step: &KeyPath<'_>) -> Result<bool, Error> {
    let is_borrowed = borrows_a(&step.clone(alloc)?);
    let owned = step.to_owned(alloc)?;
    let is_owned = equals_its_copied_step(alloc, &owned)?;
    Ok(borrows_a(&owned.as_key_path()) && is_borrowed && is_owned)
}

#[test]
fn copied_steps_are_equal(rt: HostRuntime) {
    let step = KeyPath::Name(CowStr::Borrowed("a"));
    expect(&rt, is_copied(rt.alloc(), &step), "copies");
}

fn hash_of<T: Hash>(value: &T) -> u64 {
    let mut state = DefaultHasher::new();
    value.hash(&mut state);
    state.finish()
}

/// Returns `true` if two paths are equal and have equal hashes, and the owned ones too.
fn are_same(alloc: Global, one: &KeyPaths<'_>, other: &KeyPaths<'_>) -> Result<bool, Error> {
    let is_same = *one == *other && hash_of(one) == hash_of(other);
    let (one, other) = (one.to_owned(alloc)?, other.to_owned(alloc)?);
    Ok(is_same && one == other && hash_of(&one) == hash_of(&other))
}

/// Returns `true` if the paths of two inputs are equal and have equal hashes.
fn are_read_as_same(alloc: Global, one: &[u8], other: &[u8]) -> Result<bool, Error> {
    let one = parse_key_paths(alloc, one)?;
    let other = parse_key_paths(alloc, other)?;
    are_same(alloc, &one, &other)
}

#[test]
fn paths_are_equal_by_texts(rt: HostRuntime) {
    let escaped = b"{+1,\\u0061,\"\\u0062\"}";
    let is_same = are_read_as_same(rt.alloc(), b"{1,a,\"b\"}", escaped);
    expect(&rt, is_same, "escapes");
}

/// Returns `true` if two steps differ, and the owned ones too.
fn differ(alloc: Global, one: &KeyPath<'_>, other: &KeyPath<'_>) -> Result<bool, Error> {
    let is_other = one.to_owned(alloc)? != other.to_owned(alloc)?;
    Ok(*one != *other && is_other)
}

#[test]
fn steps_of_other_kinds_differ(rt: HostRuntime) {
    let name = KeyPath::Name(CowStr::Borrowed("1"));
    let quoted = KeyPath::QuotedName(CowStr::Borrowed("1"));
    let longer = KeyPath::Name(CowStr::Borrowed("11"));
    expect(&rt, differ(rt.alloc(), &name, &quoted), "quoted");
    expect(&rt, differ(rt.alloc(), &name, &longer), "longer");
    expect(
        &rt,
        differ(rt.alloc(), &name, &KeyPath::Index(1)),
        "an index",
    );
}

/// Inputs, and the position of the error in each.
static ERROR_POSITIONS: [(&[u8], Option<usize>); 21] = [
    (b" {\t1, a ,\r\n\"b c\"} ", None),
    (b"{ }", None),
    (b"", Some(0)),
    (b"  ab", Some(2)),
    (b" { ", Some(3)),
    (b"{ ,1}", Some(2)),
    (b"{a", Some(2)),
    (b"{a b}", Some(3)),
    (b"{a, }", Some(4)),
    (b"{a,b , ", Some(7)),
    (b"{1a}", Some(2)),
    (b"{1.5}", Some(2)),
    (b"{-99999999999}", Some(1)),
    (b"{a} }", Some(4)),
    (b"{ } b", Some(4)),
    (b"{\"\"}", Some(2)),
    (b"{1,\"ab", Some(6)),
    (b"{\"a b", Some(5)),
    (b"{\"a\\q\"}", Some(3)),
    (b"{ab\\ud83d}", Some(3)),
    (b"{\"a\xff\"}", Some(2)),
];

/// Returns `true` if the error of an input has this position.
fn has_error_at(alloc: Global, text: &[u8], wanted: Option<usize>) -> Result<bool, Error> {
    Ok(key_path_error_position(alloc, text)? == wanted)
}

#[test]
fn errors_have_positions(rt: HostRuntime) {
    for (text, wanted) in &ERROR_POSITIONS {
        expect(&rt, has_error_at(rt.alloc(), text, *wanted), *text);
    }
}
