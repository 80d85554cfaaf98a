//! Equality of slices of bytes, short ones compared by words.

ghost use Rattle.std.specs.Prelude.{◌≡◌, ◌↔◌, IsTrue, ◌<◌, length};
ghost use Rattle.std.specs.Int.{w32, w64};
ghost use Rattle.jsonb_doc.specs.Private.EqualBytes.{AreEnds};

/// Returns `true` if two slices hold the same bytes. Compares the last bytes first: sorted keys differ at their ends
/// more often than at their beginnings. Then compares up to 16 bytes as two words.
///
/// # Complexity
///
/// O(1) for up to 16 bytes, otherwise O(n) for n bytes. Does not allocate.
#[inline(always)]
#[tactic(auto, using(crate::proofs::WordLemmas::ends_tell))]
pub fn bytes_equal(bytes: &[u8], other: &[u8]) -> bool
    ensures { IsTrue result ↔ (bytes.now ≡ other.now) }
{
    let len = bytes.len();
    if len != other.len() {
        return false;
    }
    if len < 4 {
        return few_equal(bytes, other);
    }
    if bytes[len - 1] != other[len - 1] {
        return false;
    }
    if len <= 8 {
        return ends(bytes) == ends(other);
    }
    if len <= 16 {
        return long_ends(bytes) == long_ends(other);
    }
    bytes == other
}

/// Returns `true` if two slices of the same length, below 4 bytes, are equal.
#[inline(always)]
fn few_equal(bytes: &[u8], other: &[u8]) -> bool
    requires alike { length bytes.now ≡ length other.now }
    requires few { length bytes.now < 4 }
    ensures { IsTrue result ↔ (bytes.now ≡ other.now) }
{
    let len = bytes.len();
    len == 0
        || bytes[0] == other[0]
            && bytes[len / 2] == other[len / 2]
            && bytes[len - 1] == other[len - 1]
}

/// Returns the first 4 bytes and the last 4, as numbers.
#[inline(always)]
fn ends(bytes: &[u8]) -> Option<(u32, u32)>
    ensures { AreEnds w32 4 bytes.now result }
{
    Some((
        u32::from_be_bytes(*bytes.first_chunk()?),
        u32::from_be_bytes(*bytes.last_chunk()?),
    ))
}

/// Returns the first 8 bytes and the last 8, as numbers.
#[inline(always)]
fn long_ends(bytes: &[u8]) -> Option<(u64, u64)>
    ensures { AreEnds w64 8 bytes.now result }
{
    Some((
        u64::from_be_bytes(*bytes.first_chunk()?),
        u64::from_be_bytes(*bytes.last_chunk()?),
    ))
}
