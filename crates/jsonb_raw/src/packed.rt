//! Up to 16 bytes of a key, composed in two words from the last byte on and appended at once. No byte of them is stored
//! by itself: a load of several bytes would have to wait for such stores.

ghost use Rattle.std.specs.Prelude.{◌≡◌, ◌≤◌, ◌<◌, ◌+◌, ◌++◌, [], ◌∷◌, IsOk, OnOk, take, vec_len, vec_capacity};
ghost use Rattle.std.specs.Int.{to_le_bytes, w64};
ghost use Rattle.jsonb_raw.specs.Private.PackedBytes.{packed_bytes};

use std::alloc::AllocError;

/// The number of bytes of a word.
const WORD: usize = 8;

/// The greatest number of bytes.
pub const ROOM: usize = 2 * WORD;

/// Up to 16 bytes, packed into two words, the lowest of each first.
#[derive(Clone, Copy)]
pub struct PackedBytes {
    first: u64,
    second: u64,
    pub len: usize,
}

/// Returns a word with a byte before its bytes, the last of which is lost.
#[inline(always)]
fn prepend_byte(byte: u8, word: u64) -> u64
    ensures { to_le_bytes w64 result ≡ byte ∷ take 7 (to_le_bytes w64 word) }
{
    (word << 8) + u64::from(byte)
}

impl PackedBytes {
    /// Returns one byte.
    #[inline(always)]
    pub fn one(byte: u8) -> PackedBytes
        ensures bytes { packed_bytes result ≡ byte ∷ [] }
        ensures len { result.len ≡ 1 }
    {
        PackedBytes {
            first: prepend_byte(byte, 0),
            second: 0,
            len: 1,
        }
    }

    /// Returns the first `len` bytes of a word that zeros follow.
    #[inline(always)]
    pub fn of_word(word: u64, len: usize) -> PackedBytes
        ensures bytes { packed_bytes result ≡ take len (to_le_bytes w64 word ++ to_le_bytes w64 0) }
        ensures len { result.len ≡ len }
    {
        PackedBytes {
            first: word,
            second: 0,
            len,
        }
    }

    /// Returns these bytes with one before them.
    #[inline(always)]
    pub fn prepend(self, byte: u8) -> PackedBytes
        requires { self.len < 16 }
        ensures bytes { packed_bytes result ≡ byte ∷ packed_bytes self }
        ensures len { result.len ≡ self.len + 1 }
    {
        let last = ((self.first >> 56) % 256) as u8;
        PackedBytes {
            first: prepend_byte(byte, self.first),
            second: prepend_byte(last, self.second),
            len: self.len + 1,
        }
    }

    /// Returns the bytes of both words.
    #[inline(always)]
    fn to_words(self) -> [u8; ROOM]
        ensures { result ≡ to_le_bytes w64 self.first ++ to_le_bytes w64 self.second }
    {
        let mut bytes = [0; ROOM];
        bytes[..WORD].copy_from_slice(&self.first.to_le_bytes());
        bytes[WORD..].copy_from_slice(&self.second.to_le_bytes());
        bytes
    }

    /// Appends the bytes. Both words are written first and then cut to the length, so that capacity is reserved once.
    #[inline(always)]
    #[tactic(auto, using(crate::proofs::DigitSteps::packed_pushed))]
    pub fn push(self, out: &mut Vec<u8>) -> Result<(), AllocError>
        requires { self.len ≤ 16 }
        ensures bytes { OnOk result (out.new.items ≡ out.old.items ++ packed_bytes self) }
        ensures len { OnOk result (vec_len out.new ≡ vec_len out.old + self.len) }
        ensures capacity { vec_capacity out.old ≤ vec_capacity out.new }
        ensures room { vec_len out.old + 16 ≤ vec_capacity out.old → IsOk result }
    {
        let start = out.len();
        out.extend_from_slice(&self.to_words())?;
        out.truncate(start + self.len);
        Ok(())
    }
}
