//! Tokens that key paths and JSON paths share.
//!
//! A reader returns a token at the beginning of its input and the rest of the input, or `None` if there is no such
//! token. It allocates only for a string with escapes. A writer prints a name or a string so that it parses back.

ghost use Rattle.std.specs.Prelude.{◌≡◌, ◌+◌, ◌≤◌, length, Some, option_map, IfSome};
ghost use Rattle.std.specs.List.{prefix_len};
ghost use Rattle.jsonb_keypath.specs.Rules.{bytes};
ghost use Rattle.jsonb_keypath.specs.Tokens.{is_space, ws};

mod escape;
mod number;
mod quoting;
mod text;

pub use self::number::{int32, int64, nat8, nat64};
pub use self::quoting::{is_plain_name, write_name, write_quoted};
pub(crate) use self::text::{Ending, name_at, quoted_at, text_front_at};
pub use self::text::{read_name, read_quoted};

/// Returns the input after a run of white space, possibly empty: spaces, tabs, carriage returns and line feeds.
///
/// # Complexity
///
/// O(n) for a run of n bytes. Does not allocate.
#[tactic(auto, unfolding(crate::specs::Tokens::ws))]
pub fn skip_space(input: &[u8]) -> &[u8]
    ensures value { ws input.now ≡ Some (tt, result.now) }
    ensures shrinks { length result.now ≤ length input.now }
{
    input.split_at(space_count(input)).1
}

fn space_count(input: &[u8]) -> usize
    ensures { result ≡ prefix_len is_space input.now }
{
    input
        .iter()
        .take_while(|b| matches!(**b, b' ' | b'\t' | b'\n' | b'\r'))
        .count()
}

/// Returns the input after these bytes, or `None` if it does not begin with them.
///
/// # Complexity
///
/// O(n) for n bytes. Does not allocate.
pub fn literal<'a>(text: &[u8], input: &'a [u8]) -> Option<&'a [u8]>
    ensures value { option_map (λ rest. (tt, rest.now)) result ≡ bytes text.now input.now }
    ensures shrinks { IfSome result (λ rest. length rest.now + length text.now ≡ length input.now) }
{
    input.strip_prefix(text)
}
