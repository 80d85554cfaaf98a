//! Writing names and strings, between quotes if they do not parse back otherwise.

ghost use Rattle.std.specs.Prelude.{◌≡◌, flat_map, encode_utf8};
ghost use Rattle.std.specs.List.{list_all};
ghost use Rattle.std.specs.Fmt.{WritesOnOk};
ghost use Rattle.jsonb_keypath.specs.Tokens.{is_unescaped, is_quote};
ghost use Rattle.jsonb_keypath.specs.KeyPathText.{is_word_byte, is_plain_name as spec_is_plain_name, quoted_byte, quoted_text, name_text};

use std::fmt;

/// Returns `true` if a name is plain: it is not empty, has only ASCII letters, digits and underscores, and does not
/// begin with a digit.
///
/// # Complexity
///
/// O(n) for a name of n bytes. Does not allocate.
pub fn is_plain_name(text: &str) -> bool
    ensures { result ≡ spec_is_plain_name text.now }
{
    match text.as_bytes().split_first() {
        None => false,
        Some((first, _)) => !first.is_ascii_digit() && are_word_bytes(text.as_bytes()),
    }
}

/// Returns `true` if all bytes are letters, digits or underscores. Examines them without a branch, several at once:
/// most names are plain, so that an early end would cost more.
fn are_word_bytes(bytes: &[u8]) -> bool
    ensures { result ≡ list_all is_word_byte bytes.now }
{
    let mut are_words = true;
    for b in bytes {
        are_words = are_words & is_word_byte(*b);
    }
    are_words
}

#[inline(always)]
fn is_word_byte(b: u8) -> bool
    ensures { result ≡ is_word_byte b }
{
    b.is_ascii_alphanumeric() | (b == b'_')
}

/// Writes a name, unchanged if it is plain, otherwise between quotes.
///
/// # Errors
///
/// The error of the formatter, only if it fails.
///
/// # Complexity
///
/// O(n) for a name of n bytes. Does not allocate.
pub fn write_name<W: fmt::Write>(text: &str, f: &mut fmt::Formatter<W>) -> fmt::Result
    ensures { WritesOnOk W.write_str_gives f.old result (name_text text.now) f.new }
{
    if is_plain_name(text) {
        f.write_str(text)
    } else {
        write_quoted(text, f)
    }
}

/// Writes a string between quotes, with a backslash before each quote and each backslash in it; all other characters
/// are unchanged.
///
/// # Errors
///
/// The error of the formatter, only if it fails.
///
/// # Complexity
///
/// O(n) for a string of n bytes. Does not allocate.
pub fn write_quoted<W: fmt::Write>(text: &str, f: &mut fmt::Formatter<W>) -> fmt::Result
    ensures { WritesOnOk W.write_str_gives f.old result (quoted_text text.now) f.new }
{
    f.write_str("\"")?;
    write_inside(text, f)?;
    f.write_str("\"")
}

/// Writes the content between the quotes.
fn write_inside<W: fmt::Write>(text: &str, f: &mut fmt::Formatter<W>) -> fmt::Result
    ensures { WritesOnOk W.write_str_gives f.old result (flat_map quoted_byte text.now) f.new }
{
    if need_no_escapes(text.as_bytes()) {
        f.write_str(text)
    } else {
        write_escaped(text, f)
    }
}

fn need_no_escapes(bytes: &[u8]) -> bool
    ensures { result ≡ list_all (is_unescaped is_quote) bytes.now }
{
    bytes.iter().all(|b| !(*b == b'"' || *b == b'\\'))
}

fn write_escaped<W: fmt::Write>(text: &str, f: &mut fmt::Formatter<W>) -> fmt::Result
    ensures { WritesOnOk W.write_str_gives f.old result (flat_map quoted_byte text.now) f.new }
{
    for c in text.chars() {
        write_escaped_char(c, f)?;
    }
    Ok(())
}

fn write_escaped_char<W: fmt::Write>(c: char, f: &mut fmt::Formatter<W>) -> fmt::Result
    ensures { WritesOnOk W.write_str_gives f.old result (flat_map quoted_byte (encode_utf8 c)) f.new }
{
    if c == '"' {
        return f.write_str("\\\"");
    }
    if c == '\\' {
        return f.write_str("\\\\");
    }
    write!(f, "{c}")
}
