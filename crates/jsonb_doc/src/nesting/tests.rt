//! Depths of documents, and errors.

use super::{check_depth, depth};
use crate::checking::check;
use crate::error::Error;
use crate::reading::tests::{expect, expect_ok};
use std::alloc::{AllocError, Global};

/// Documents and other bytes, and their depth or error.
static DEPTHS: [(&[u8], Result<usize, Error>); 13] = rows! {
    // null
    b"\x20\0\0\0\0\0\0\0", Ok(0);
    // []
    b"\x80\0\0\0", Ok(0);
    // {}
    b"\x40\0\0\0", Ok(0);
    // [null]
    b"\x80\0\0\x01\0\0\0\0", Ok(1);
    // [[]]
    b"\x80\0\0\x01\x50\0\0\x04\x80\0\0\0", Ok(1);
    // {"a":[]}
    b"\x40\0\0\x01\x10\0\0\x01\x50\0\0\x04a\x80\0\0\0", Ok(1);
    // [[],[[]],[]]: the deepest is neither the first nor the last
    b"\x80\0\0\x03\x50\0\0\x04\x50\0\0\x0c\x50\0\0\x04\x80\0\0\0\x80\0\0\x01\x50\0\0\x04\x80\0\0\0\x80\0\0\0", Ok(2);
    // [["abcdefghijklmnop"],[{"k":[]}]]: the deepest is not in the longest
    b"\x80\0\0\x02\x50\0\0\x18\x50\0\0\x19\x80\0\0\x01\x10\0\0\x10abcdefghijklmnop\x80\0\0\x01\x50\0\0\x11\x40\0\0\x01\x10\0\0\x01\x50\0\0\x04k\x80\0\0\0",
        Ok(3);
    // [false, 10, {"k":"v"}]
    b"\x80\0\0\x03\x30\0\0\0\x20\0\0\x02\x50\0\0\x0e\x50\x0a\x40\0\0\x01\x10\0\0\x01\x10\0\0\x01kv", Ok(2);
    b"", Err(Error::InvalidJsonb);
    // [[null and one more byte]]
    b"\x80\0\0\x01\x50\0\0\x09\x80\0\0\x01\0\0\0\0\0", Err(Error::InvalidJsonb);
    // 1.5 as a float
    b"\x20\0\0\0\x20\0\0\x09\x60\x3f\xf8\0\0\0\0\0\0", Err(Error::UnsupportedNumber);
    // [[float]]
    b"\x80\0\0\x01\x50\0\0\x09\x80\0\0\x01\x20\0\0\x01\x10", Err(Error::UnsupportedNumber);
};

/// Returns `true` if this is the depth of the bytes, which a check accepts as a limit, but not one less; or if both
/// fail with this error.
fn has_depth(bytes: &[u8], wanted: Result<usize, Error>) -> bool {
    let levels = wanted.unwrap_or(0);
    depth(bytes) == wanted
        && check_depth(bytes, levels) == wanted.and(Ok(()))
        && (levels == 0 || check_depth(bytes, levels.wrapping_sub(1)) == Err(Error::TooDeep))
}

#[test]
fn depths_of_documents_and_refusals(rt: HostRuntime) {
    for (bytes, wanted) in &DEPTHS {
        expect(&rt, has_depth(bytes, *wanted), *bytes);
    }
}

/// Returns nested arrays, the innermost empty, of 8 bytes per level and 4. A null before or after each inner array adds
/// 4.
fn nested(alloc: Global, levels: u32, before: bool, behind: bool) -> Result<Vec<u8>, AllocError> {
    let beside = u32::from(before).wrapping_add(u32::from(behind));
    let mut out = Vec::new(alloc);
    for within in (0..levels).rev() {
        out.extend_from_slice(&0x8000_0001_u32.wrapping_add(beside).to_be_bytes())?;
        if before {
            out.extend_from_slice(&0_u32.to_be_bytes())?;
        }
        let child = beside.wrapping_mul(4).wrapping_add(8).wrapping_mul(within);
        out.extend_from_slice(&0x5000_0004_u32.wrapping_add(child).to_be_bytes())?;
        if behind {
            out.extend_from_slice(&0_u32.to_be_bytes())?;
        }
    }
    out.extend_from_slice(&0x8000_0000_u32.to_be_bytes())?;
    Ok(out)
}

/// The number of nested levels, and whether a null precedes and follows each.
type Nesting = (u32, bool, bool);

static NESTED: [Nesting; 4] = rows! {
    100_000, false, false;
    10_000, true, false;
    10_000, false, true;
    10_000, true, true;
};

/// Returns `true` if nested arrays have the depth of their levels.
fn are_as_deep(alloc: Global, (levels, before, behind): Nesting) -> Result<bool, AllocError> {
    let document = nested(alloc, levels, before, behind)?;
    Ok(has_depth(&document, Ok(levels as usize)))
}

#[test]
fn deep_documents(rt: HostRuntime) {
    for row in &NESTED {
        expect_ok(&rt, are_as_deep(rt.alloc(), *row), *row);
    }
}

#[test]
fn a_deep_document_is_accepted(rt: HostRuntime) -> Result<(), AllocError> {
    let document = nested(rt.alloc(), 200_000, false, false)?;
    assert!(rt; check(&document).is_ok());
    Ok(())
}
