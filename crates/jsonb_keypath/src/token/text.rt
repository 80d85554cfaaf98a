//! Names and quoted strings.

ghost use Rattle.std.specs.Prelude.{◌≡◌, ◌++◌, Some, string_bytes, IfOk, IfErr, OnOk};
ghost use Rattle.std.specs.List.{prefix_len};
ghost use Rattle.std.specs.Cow.{cow_str_bytes};
ghost use Rattle.jsonb_doc.specs.declared.error.Error.TheVariants.{OutOfMemory};
ghost use Rattle.jsonb_keypath.specs.Tokens.{is_unescaped, is_stop as spec_is_stop, unit, units, text, name, quoted};
ghost use Rattle.jsonb_keypath.specs.ErrorPosition.{perhaps};
ghost use Rattle.jsonb_keypath.specs.Views.{read_as, ConsumesInput};
ghost use Rattle.jsonb_keypath.specs.Private.Units.{closed, excluded, unit_bytes};
ghost use Rattle.jsonb_doc.specs.Answer.{IsOutOfMemory};

use super::escape::escape_at;
use super::literal;
use jsonb_doc::Error;
use std::alloc::{AllocError, Global};
use std::borrow::CowStr;

/// Reads a name, and returns it with its escapes replaced, and the bytes after it.
///
/// A name is the longest run of one or more units, a unit being an escape or a byte that is neither a backslash nor a
/// stop byte, followed by the end of the input or a stop byte. The stop bytes are space and
/// `, . : { } [ ] ( ) ? @ $ | < > ! = + - * / % " '`, but not tab, line end and `&`.
///
/// Returns `None` if there is no such run, or if it has a malformed escape, a lone surrogate, or invalid UTF-8. A name
/// without escapes is borrowed from the input.
///
/// # Errors
///
/// `OutOfMemory` if an allocation fails. Only a name with escapes allocates.
///
/// # Complexity
///
/// O(n) for a name of n bytes. Allocates only for a name with escapes.
///
/// # Examples
///
/// ```rust crates/jsonb_examples/src/steps.rt
/// let found = match read_quoted(alloc, text)? {
///     Some(quoted) => Some(quoted),
///     None => read_name(alloc, text)?,
/// };
/// ```
pub fn read_name(alloc: Global, input: &[u8]) -> Result<Option<(CowStr<'_, Global>, &[u8])>, Error>
    ensures value { IfOk result (λ found. read_as cow_str_bytes found ≡ name input.now) }
    ensures shrinks { IfOk result (ConsumesInput input.now) }
    ensures err { IfErr result IsOutOfMemory }
{
    Ok(name_at(alloc, input)?)
}

/// Reads a quoted string, and returns it without its quotes and with its escapes replaced, and the bytes after it.
///
/// A quoted string is a quote, one or more units, a unit being an escape or a byte that is neither a backslash nor a
/// quote, and a quote.
///
/// Returns `None` for empty quotes, a missing end, a malformed escape, a lone surrogate, or invalid UTF-8. A string
/// without escapes is borrowed from the input.
///
/// # Errors
///
/// `OutOfMemory` if an allocation fails. Only a string with escapes allocates.
///
/// # Complexity
///
/// O(n) for a string of n bytes. Allocates only for a string with escapes.
///
/// # Examples
///
/// ```rust crates/jsonb_examples/src/steps.rt
/// let found = match read_quoted(alloc, text)? {
///     Some(quoted) => Some(quoted),
///     None => read_name(alloc, text)?,
/// };
/// ```
pub fn read_quoted(
    alloc: Global,
    input: &[u8],
) -> Result<Option<(CowStr<'_, Global>, &[u8])>, Error>
    ensures value { IfOk result (λ found. read_as cow_str_bytes found ≡ quoted input.now) }
    ensures shrinks { IfOk result (ConsumesInput input.now) }
    ensures err { IfErr result IsOutOfMemory }
{
    Ok(quoted_at(alloc, input)?)
}

/// Reads a name; fails only if an allocation fails.
#[tactic(auto, unfolding(crate::specs::Tokens::name))]
#[inline(always)]
pub(crate) fn name_at(
    alloc: Global,
    input: &[u8],
) -> Result<Option<(CowStr<'_, Global>, &[u8])>, AllocError>
    ensures value { IfOk result (λ found. read_as cow_str_bytes found ≡ name input.now) }
    ensures shrinks { IfOk result (ConsumesInput input.now) }
{
    let Some((found, rest)) = text_at(alloc, Ending::Stop, input)? else {
        return Ok(None);
    };
    if let Some(next) = rest.first() {
        if !Ending::Stop.excludes(*next) {
            return Ok(None);
        }
    }
    Ok(Some((found, rest)))
}

/// Reads a quoted string; fails only if an allocation fails.
#[tactic(auto, unfolding(crate::specs::Tokens::quoted))]
#[inline(always)]
pub(crate) fn quoted_at(
    alloc: Global,
    input: &[u8],
) -> Result<Option<(CowStr<'_, Global>, &[u8])>, AllocError>
    ensures value { IfOk result (λ found. read_as cow_str_bytes found ≡ quoted input.now) }
    ensures shrinks { IfOk result (ConsumesInput input.now) }
{
    match literal(b"\"", input) {
        Some(inside) => closed_at(alloc, inside),
        None => Ok(None),
    }
}

/// Reads a quoted string after its first quote.
#[inline(never)]
fn closed_at(alloc: Global, input: &[u8]) -> Result<Option<(CowStr<'_, Global>, &[u8])>, AllocError>
    ensures value { IfOk result (λ found. read_as cow_str_bytes found ≡ closed input.now) }
    ensures shrinks { IfOk result (ConsumesInput input.now) }
{
    let Some((found, rest)) = text_at(alloc, Ending::Quote, input)? else {
        return Ok(None);
    };
    match literal(b"\"", rest) {
        Some(end) => Ok(Some((found, end))),
        None => Ok(None),
    }
}

/// Returns the input after a token up to the end of its run of units; all of it if there is no such token.
pub(crate) fn text_front_at(
    alloc: Global,
    ending: Ending,
    input: &[u8],
) -> Result<&[u8], AllocError>
    ensures { IfOk result (λ rest. perhaps (text (excluded ending)) input.now ≡ Some (tt, rest.now)) }
{
    match text_at(alloc, ending, input)? {
        Some((_, rest)) => Ok(rest),
        None => Ok(input),
    }
}

/// The bytes that a token can contain only by an escape.
#[derive(Clone, Copy)]
pub(crate) enum Ending {
    /// The stop bytes, which end a name.
    Stop,
    /// The quote alone.
    Quote,
}

impl Ending {
    fn excludes(self, b: u8) -> bool
        ensures { result ≡ excluded self b }
    {
        match self {
            Ending::Stop => is_stop(b),
            Ending::Quote => b == b'"',
        }
    }
}

fn is_stop(b: u8) -> bool
    ensures { result ≡ spec_is_stop b }
{
    matches!(
        b,
        b' ' | b','
            | b'.'
            | b':'
            | b'{'
            | b'}'
            | b'['
            | b']'
            | b'('
            | b')'
            | b'?'
            | b'@'
            | b'$'
            | b'|'
            | b'<'
            | b'>'
            | b'!'
            | b'='
            | b'+'
            | b'-'
            | b'*'
            | b'/'
            | b'%'
            | b'"'
            | b'\''
    )
}

/// Reads a token up to the end of its run of units. Without escapes it is not copied.
#[inline(always)]
fn text_at(
    alloc: Global,
    ending: Ending,
    input: &[u8],
) -> Result<Option<(CowStr<'_, Global>, &[u8])>, AllocError>
    ensures value { IfOk result (λ found.
        read_as cow_str_bytes found ≡ text (excluded ending) input.now) }
    ensures shrinks { IfOk result (ConsumesInput input.now) }
{
    let count = plain_count(ending, input);
    let (front, rest) = input.split_at(count);
    if let Some(_) = literal(b"\\", rest) {
        return match owned_text_at(alloc, ending, input)? {
            Some((found, after)) => Ok(Some((CowStr::Owned(found), after))),
            None => Ok(None),
        };
    }
    if count == 0 {
        return Ok(None);
    }
    match str::from_utf8(front) {
        Ok(found) => Ok(Some((CowStr::Borrowed(found), rest))),
        Err(_) => Ok(None),
    }
}

#[inline(always)]
fn plain_count(ending: Ending, input: &[u8]) -> usize
    ensures { result ≡ prefix_len (is_unescaped (excluded ending)) input.now }
{
    input
        .iter()
        .take_while(|b| **b != b'\\' && !ending.excludes(**b))
        .count()
}

/// Reads a token into a new string.
#[inline(never)]
fn owned_text_at(
    alloc: Global,
    ending: Ending,
    input: &[u8],
) -> Result<Option<(String, &[u8])>, AllocError>
    ensures value { IfOk result (λ found.
        read_as string_bytes found ≡ text (excluded ending) input.now) }
    ensures shrinks { IfOk result (ConsumesInput input.now) }
{
    let Some((bytes, after)) = units_at(alloc, ending, input)? else {
        return Ok(None);
    };
    match String::from_utf8(bytes) {
        Ok(found) => Ok(Some((found, after))),
        Err(_) => Ok(None),
    }
}

/// Reads the longest run of one or more units. Returns the bytes that they denote, and the bytes after the run.
#[tactic(auto, unfolding(crate::specs::Tokens::units))]
fn units_at(
    alloc: Global,
    ending: Ending,
    input: &[u8],
) -> Result<Option<(Vec<u8>, &[u8])>, AllocError>
    ensures value { IfOk result (λ found.
        read_as (λ bytes. bytes.items) found ≡ units (excluded ending) input.now) }
    ensures shrinks { IfOk result (ConsumesInput input.now) }
{
    let Some((first, mut rest)) = unit_at(ending, input) else {
        return Ok(None);
    };
    let mut found = Vec::new(alloc);
    push_unit(&mut found, first)?;
    while let Some((next, after)) = unit_at(ending, rest) {
        push_unit(&mut found, next)?;
        rest = after;
    }
    Ok(Some((found, rest)))
}

/// A unit of a token: a byte that denotes itself, or the character of an escape.
#[derive(Clone, Copy)]
pub(crate) enum Unit {
    Byte(u8),
    Escape(char),
}

#[tactic(auto, unfolding(crate::specs::Tokens::unit))]
fn unit_at(ending: Ending, input: &[u8]) -> Option<(Unit, &[u8])>
    ensures value { read_as unit_bytes result ≡ unit (excluded ending) input.now }
    ensures shrinks { ConsumesInput input.now result }
{
    if let Some((c, rest)) = escape_at(input) {
        return Some((Unit::Escape(c), rest));
    }
    let (first, rest) = input.split_first()?;
    if *first == b'\\' || ending.excludes(*first) {
        return None;
    }
    Some((Unit::Byte(*first), rest))
}

fn push_unit(found: &mut Vec<u8>, next: Unit) -> Result<(), AllocError>
    ensures { OnOk result (found.new.items ≡ found.old.items ++ unit_bytes next) }
{
    match next {
        Unit::Byte(b) => found.push(b)?,
        Unit::Escape(c) => {
            let mut buffer = [0u8; 4];
            let bytes = c.encode_utf8(&mut buffer);
            found.extend_from_slice(bytes.as_bytes())?;
        }
    }
    Ok(())
}
