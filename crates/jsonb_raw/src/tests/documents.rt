//! Documents that the tests of several calls ask.

use std::alloc::{AllocError, Global};

/// `[false, 10, {"k":"v"}]`
pub(crate) const MIXED_ARRAY: &[u8] =
    b"\x80\0\0\x03\x30\0\0\0\x20\0\0\x02\x50\0\0\x0e\x50\x0a\x40\0\0\x01\x10\0\0\x01\x10\0\0\x01kv";

/// `[1]`
pub(crate) const ONE_ELEMENT: &[u8] = b"\x80\0\0\x01\x20\0\0\x02\x50\x01";

/// `{"a":null,"b":[null]}`
pub(crate) const NULLS: &[u8] =
    b"\x40\0\0\x02\x10\0\0\x01\x10\0\0\x01\0\0\0\0\x50\0\0\x08ab\x80\0\0\x01\0\0\0\0";

/// `[]`
pub(crate) const EMPTY_ARRAY: &[u8] = b"\x80\0\0\0";

/// `{}`
pub(crate) const EMPTY_OBJECT: &[u8] = b"\x40\0\0\0";

/// `null`
pub(crate) const NULL: &[u8] = b"\x20\0\0\0\0\0\0\0";

/// The date 1.
pub(crate) const DATE: &[u8] = b"\x20\0\0\0\x60\0\0\x05\x10\0\0\0\x01";

/// A float.
pub(crate) const FLOAT: &[u8] = b"\x20\0\0\0\x20\0\0\x09\x60\x3f\xf8\0\0\0\0\0\0";

/// `[null]`
pub(crate) const NULL_IN_ARRAY: &[u8] = b"\x80\0\0\x01\0\0\0\0";

/// A kind of container around one that continues: what precedes and follows the entry word of that one.
pub(crate) type ChildCursor = (&'static [u8], &'static [u8]);

/// `[child]`
pub(crate) const ALONE: ChildCursor = (b"\x80\0\0\x01", b"");

/// `{"a":child}`
pub(crate) const MEMBER: ChildCursor = (b"\x40\0\0\x01\x10\0\0\x01", b"a");

/// Returns the number of bytes of a level, its entry word among them.
fn level_len(level: ChildCursor) -> u32 {
    let around = level.0.len().wrapping_add(level.1.len());
    u32::try_from(around).unwrap_or(0).wrapping_add(4)
}

/// Returns a container in this many rounds of these levels, the first one outermost.
pub(crate) fn nested(
    alloc: Global,
    levels: &[ChildCursor],
    rounds: u32,
    core: &[u8],
) -> Result<Vec<u8>, AllocError> {
    let mut round = 0u32;
    for level in levels {
        round = round.wrapping_add(level_len(*level));
    }
    let core_len = u32::try_from(core.len()).unwrap_or(0);
    let mut left = round.wrapping_mul(rounds).wrapping_add(core_len);
    let mut bytes = Vec::new(alloc);
    for _ in 0..rounds {
        for level in levels {
            left = left.wrapping_sub(level_len(*level));
            bytes.extend_from_slice(level.0)?;
            bytes.extend_from_slice(&0x5000_0000_u32.wrapping_add(left).to_be_bytes())?;
            bytes.extend_from_slice(level.1)?;
        }
    }
    bytes.extend_from_slice(core)?;
    Ok(bytes)
}
