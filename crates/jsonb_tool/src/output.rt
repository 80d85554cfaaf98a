//! What each command prints.

ghost use Rattle.std.specs.Prelude.{◌≡◌, ◌⊎◌, ◌++◌, All, Ok, Err, IfOk, IfSome, MatchResult, codes, string_bytes};
ghost use Rattle.jsonb.specs.Error.TheVariants.{OutOfMemory};
ghost use Rattle.jsonb.specs.Bytes.{AreBytes};
ghost use Rattle.jsonb.specs.Tree.{Tree};
ghost use Rattle.jsonb.specs.Payload.{any};
ghost use Rattle.jsonb.specs.Format.{Decodes};
ghost use Rattle.jsonb.specs.Documents.{raw_bytes};
ghost use Rattle.jsonb_tool.specs.Output.{IsDamage, IsOutputOf, truth_line};
ghost use Rattle.jsonb_tool.specs.Requests as spec;
ghost use Rattle.jsonb_tool.specs.Private.Lines.{Prints, found_lines, found_text, leaf_line, leaf_lines};
ghost use Rattle.jsonb_tool.specs.Private.Lines.{request};
ghost use Rattle.hex.specs.Hex.{encode_lower};

use crate::command::Command;
use jsonb::keypath::KeyPaths;
use jsonb::{Error, OwnedJsonb, RawJsonb, SelectByPath, parse_json_path, parse_key_paths};
use std::alloc::{AllocError, Global};

/// Returns the lines that a command prints, each with its line feed.
///
/// # Errors
///
/// The command's error, as docs/PROGRAM.md lists them, or `OutOfMemory` if an allocation fails.
///
/// # Complexity
///
/// That of `check` and of the call that the command makes. Allocates all lines.
pub fn output(alloc: Global, command: &Command<'_>) -> Result<String, Error>
    ensures { MatchResult result
        (λ lines. IsOutputOf (request command.now) (Ok (string_bytes lines)))
        (λ e. (e ≡ OutOfMemory) ⊎ IsOutputOf (request command.now) (Err e)) }
{
    match command {
        Command::Get { path, document } => get(alloc, path, document.as_slice()),
        Command::Key { document } => key(alloc, document.as_slice()),
        Command::Leaves { document } => leaves(alloc, document.as_slice()),
        Command::Select { path, document } => select(alloc, path, document.as_slice()),
        Command::Match { path, document } => path_match(alloc, path, document.as_slice()),
    }
}

/// The document at the place of a key path, or `none`.
fn get(alloc: Global, path: &str, document: &[u8]) -> Result<String, Error>
    ensures { Prints (IsOutputOf (spec.get path.now document.now)) result }
{
    let steps = parse_key_paths(alloc, path.as_bytes())?;
    let document = checked(document)?;
    let found = document.get_by_keypath(alloc, steps.paths.iter())?;
    Ok(found_line(alloc, found)?)
}

/// The sortable key of a document.
fn key(alloc: Global, document: &[u8]) -> Result<String, Error>
    ensures { Prints (IsOutputOf (spec.key document.now)) result }
{
    let document = checked(document)?;
    let key = document.convert_to_comparable(alloc)?;
    Ok(hexadecimal_line(alloc, key.as_slice())?)
}

/// The leaves of a document with their key paths, a line for each, or `none`.
fn leaves(alloc: Global, document: &[u8]) -> Result<String, Error>
    ensures { Prints (IsOutputOf (spec.leaves document.now)) result }
{
    let document = checked(document)?;
    let leaves = document.leaf_documents(alloc, false)?;
    Ok(leaf_lines(alloc, &leaves)?)
}

/// The documents that a JSON path selects, each on a line, or `none`.
fn select<'a>(alloc: Global, path: &'a str, document: &'a [u8]) -> Result<String, Error>
    ensures { Prints (IsOutputOf (spec.select path.now document.now)) result }
{
    let steps = parse_json_path(alloc, path.as_bytes())?;
    let document = checked(document)?;
    let found = document.select_by_path(alloc, &steps)?;
    Ok(found_lines(alloc, &found)?)
}

/// What a JSON path says as a predicate: `true`, `false` or `unknown`.
fn path_match<'a>(alloc: Global, path: &'a str, document: &'a [u8]) -> Result<String, Error>
    ensures { Prints (IsOutputOf (spec.path_match path.now document.now)) result }
{
    let steps = parse_json_path(alloc, path.as_bytes())?;
    let document = checked(document)?;
    let truth = document.path_match(alloc, &steps)?;
    Ok(String::from_str(alloc, truth_line(truth))?)
}

/// The bytes as a document, or why they are none.
fn checked(bytes: &[u8]) -> Result<RawJsonb<'_>, Error>
    ensures { MatchResult result
        (λ document. (raw_bytes document ≡ bytes.now) × ((t : Tree) × Decodes any bytes.now t))
        (λ e. IsDamage bytes.now e) }
{
    let document = RawJsonb::new(bytes);
    document.check()?;
    Ok(document)
}

/// The line of a document that was found, or `none`.
fn found_line(alloc: Global, found: Option<OwnedJsonb>) -> Result<String, AllocError>
    ensures { IfOk result (λ line. IfSome found AreBytes × (string_bytes line ≡ found_text found)) }
{
    match found {
        Some(document) => hexadecimal_line(alloc, document.as_raw().as_bytes()),
        None => String::from_str(alloc, "none\n"),
    }
}

/// A line for each document, or `none`.
fn found_lines(alloc: Global, documents: &[OwnedJsonb]) -> Result<String, AllocError>
    ensures { IfOk result (λ lines. All AreBytes documents.now
        × (string_bytes lines ≡ found_lines documents.now)) }
{
    if documents.is_empty() {
        return String::from_str(alloc, "none\n");
    }
    let mut lines = String::new(alloc);
    for document in documents {
        let line = hexadecimal_line(alloc, document.as_raw().as_bytes())?;
        lines.push_str(line.as_str())?;
    }
    Ok(lines)
}

/// A line for each leaf, or `none`.
fn leaf_lines(alloc: Global, leaves: &[(KeyPaths<'_>, OwnedJsonb)]) -> Result<String, AllocError>
    ensures { IfOk result (λ lines. All (λ leaf. AreBytes leaf.1) leaves.now
        × (string_bytes lines ≡ leaf_lines leaves.now)) }
{
    if leaves.is_empty() {
        return String::from_str(alloc, "none\n");
    }
    let mut lines = String::new(alloc);
    for (path, document) in leaves {
        let line = leaf_line(alloc, path, document.as_raw().as_bytes())?;
        lines.push_str(line.as_str())?;
    }
    Ok(lines)
}

/// The line of a leaf: its document, and its key path.
fn leaf_line(alloc: Global, path: &KeyPaths<'_>, document: &[u8]) -> Result<String, AllocError>
    ensures { IfOk result (λ line. AreBytes document.now
        × (string_bytes line ≡ leaf_line (path.now, document.now))) }
{
    let digits = hex::encode(alloc, document)?;
    Ok(format!(in alloc; "{digits} {path}\n")?)
}

/// Returns the line of a predicate's result.
fn truth_line(truth: Option<bool>) -> &'static str
    ensures { result.now ≡ truth_line truth }
{
    match truth {
        Some(true) => "true\n",
        Some(false) => "false\n",
        None => "unknown\n",
    }
}

/// Bytes in hexadecimal, as a line.
fn hexadecimal_line(alloc: Global, bytes: &[u8]) -> Result<String, AllocError>
    ensures { IfOk result (λ line. AreBytes bytes.now
        × (string_bytes line ≡ encode_lower bytes.now ++ codes "\n")) }
{
    let mut line = hex::encode(alloc, bytes)?;
    line.push('\n')?;
    Ok(line)
}
