//! Values and paths that standard input has, in their text or bytes: for those that are nested deep, under a small stack.

use crate::answer::{both, is_same, prints};
use jsonb::{DocumentBuilder, Error, EventError, depth, parse_json_path, root_item, to_value};
use std::io::{self, Read};

/// What standard input has.
#[derive(Clone, Copy)]
pub enum Input {
    Document,
    Path,
}

/// Makes the calls on what standard input has, and prints whether their results are right.
pub fn calls(rt: &HostRuntime, kind: Input) -> io::Result<()> {
    let mut input = Vec::new(rt.alloc());
    rt.reader().read_to_end(&mut input)?;
    let is_right = match kind {
        Input::Document => value(rt, &input),
        Input::Path => path(rt, &input),
    };
    println!(rt;
        "{}",
        if matches!(is_right, Ok(true)) {
            "right"
        } else {
            "wrong"
        }
    )
}

/// Decodes a document, clones the value, compares both and drops them. Then builds arrays that are as deep from events.
fn value(rt: &HostRuntime, document: &[u8]) -> Result<bool, Error> {
    let alloc = rt.alloc();
    let item = root_item(document)?;
    let value = to_value(alloc, &item)?;
    let is_copied = is_same(value.clone(alloc), &value);
    let is_built = matches!(arrays(rt, depth(document)?), Ok(true));
    both(is_copied, Ok(is_built))
}

/// Builds this many arrays from events, each within another: 8 bytes each, except that the root has no entry word.
fn arrays(rt: &HostRuntime, levels: usize) -> Result<bool, EventError> {
    let mut builder = DocumentBuilder::new(rt.alloc());
    push_arrays(&mut builder, levels)?;
    let document = builder.finish()?;
    Ok(document.len().wrapping_add(4) == levels.wrapping_mul(8))
}

fn push_arrays(builder: &mut DocumentBuilder, levels: usize) -> Result<(), EventError> {
    for _ in 0..levels {
        builder.begin_array()?;
    }
    for _ in 0..levels {
        builder.end()?;
    }
    Ok(())
}

/// Parses a path that is as `Display` prints it, clones it twice, compares it, prints it, and drops all.
fn path(rt: &HostRuntime, text: &[u8]) -> Result<bool, Error> {
    let alloc = rt.alloc();
    let path = parse_json_path(alloc, text)?;
    let is_copied = is_same(path.clone(alloc), &path);
    let is_owned = prints(alloc, path.to_owned(alloc), text);
    both(both(is_copied, is_owned), prints(alloc, Ok(path), text))
}
