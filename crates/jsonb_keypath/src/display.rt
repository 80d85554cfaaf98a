//! Printing key paths: the steps between braces, separated by commas, as text that parses back.
//!
//! An index is decimal. A quoted name is between quotes, and so is a name that is not plain. Between quotes, a quote
//! and a backslash are preceded by a backslash.

ghost use Rattle.std.specs.Prelude.{Some, flat_map, map};
ghost use Rattle.std.specs.Fmt.{WritesOnOk};
ghost use Rattle.jsonb_keypath.specs.KeyPathText.{key_text, key_path_text};
ghost use Rattle.jsonb_keypath.specs.Private.LaterKeys.{other_key_text};
ghost use Rattle.jsonb_keypath.specs.KeyPathViews.{key_view, key_paths_view, owned_key_view, owned_key_paths_view};
ghost use Rattle.jsonb_keypath.specs.Private.KeysView.{keys_view};

use crate::key_path::{KeyPath, KeyPaths};
use crate::owned::{OwnedKeyPath, OwnedKeyPaths};
use crate::token::{write_name, write_quoted};
use std::fmt;

impl fmt::Display for KeyPath<'_> {
    ghost output = { λ k. Some (key_text (key_view k)) };

    fn fmt<W: fmt::Write>(&self, f: &mut fmt::Formatter<W>) -> fmt::Result {
        match self {
            KeyPath::Index(index) => write!(f, "{index}"),
            KeyPath::QuotedName(text) => write_quoted(text.as_str(), f),
            KeyPath::Name(text) => write_name(text.as_str(), f),
        }
    }
}

impl fmt::Display for KeyPaths<'_> {
    ghost output = { λ k. Some (key_path_text (key_paths_view k)) };

    fn fmt<W: fmt::Write>(&self, f: &mut fmt::Formatter<W>) -> fmt::Result {
        f.write_str("{")?;
        if let Some((first, others)) = self.paths.split_first() {
            write!(f, "{first}")?;
            write_others(others, f)?;
        }
        f.write_str("}")
    }
}

/// Writes each step after a comma.
fn write_others<W: fmt::Write>(steps: &[KeyPath<'_>], f: &mut fmt::Formatter<W>) -> fmt::Result
    ensures { WritesOnOk W.write_str_gives f.old result
        (flat_map other_key_text (keys_view steps.now)) f.new }
{
    for step in steps {
        write!(f, ",{step}")?;
    }
    Ok(())
}

impl fmt::Display for OwnedKeyPath {
    ghost output = { λ k. Some (key_text (owned_key_view k)) };

    fn fmt<W: fmt::Write>(&self, f: &mut fmt::Formatter<W>) -> fmt::Result {
        let step = self.as_key_path();
        write!(f, "{step}")
    }
}

impl fmt::Display for OwnedKeyPaths {
    ghost output = { λ k. Some (key_path_text (owned_key_paths_view k)) };

    fn fmt<W: fmt::Write>(&self, f: &mut fmt::Formatter<W>) -> fmt::Result {
        f.write_str("{")?;
        if let Some((first, others)) = self.paths.split_first() {
            write!(f, "{first}")?;
            write_more_owned(others, f)?;
        }
        f.write_str("}")
    }
}

/// Writes each step after a comma.
fn write_more_owned<W: fmt::Write>(steps: &[OwnedKeyPath], f: &mut fmt::Formatter<W>) -> fmt::Result
    ensures { WritesOnOk W.write_str_gives f.old result
        (flat_map other_key_text (map owned_key_view steps.now)) f.new }
{
    for step in steps {
        write!(f, ",{step}")?;
    }
    Ok(())
}
