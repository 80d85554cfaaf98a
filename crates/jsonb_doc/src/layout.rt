//! The words of the binary format, and its numbers.
//!
//! A container is a header word, entry words, and their contents. A header word is a type and a count of elements or
//! members (0 of a scalar), an entry word a type and the length of its content. All words have 32 bits, big-endian.

ghost use Rattle.std.specs.Prelude.{◌≡◌, ◌≢◌, ℕ, ◌+◌, ◌%◌, ◌^◌, ◌<◌, ◌≤◌, List, IfSome, MatchOption, length, drop};
ghost use Rattle.std.specs.Int.{w32, from_be_bytes};
ghost use Rattle.byteorder.specs.Endian.{big_number};
ghost use Rattle.jsonb_doc.specs.Format.{BeginWith, HeadedBy, header, entry_word, scalar_header};
ghost use Rattle.jsonb_doc.specs.Kinds.{kind_number};
ghost use Rattle.jsonb_doc.specs.Private.Headers.{header_number};
ghost use Rattle.jsonb_doc.specs.Private.Lengths.{HasEntryWordFields};
ghost use Rattle.jsonb_doc.specs.Private.Containers.{StartWith};

/// How many bytes a word has.
pub const WORD: usize = 4;

/// A header word is the number of its kind times this, and a count below this.
const COUNTS: u32 = 0x2000_0000;

/// The header word of a scalar root.
const SCALAR_HEADER: u32 = 0x2000_0000;

/// An entry word is the number of its kind times this, and a length below this.
const LENGTHS: u32 = 0x1000_0000;

/// How many elements or members a container may have.
pub const MAX_ENTRIES: usize = 0x1fff_ffff;

/// How many bytes the content of an entry may have.
pub const MAX_CONTENT: usize = 0x0fff_ffff;

/// The kinds of a header, with their numbers in header words.
#[derive(Clone, Copy, Debug, PartialEq, Eq)]
pub enum HeaderKind {
    /// A header whose one entry is a scalar. Its count is 0.
    Scalar = 1,
    /// The header of an object. Its count is that of the pairs.
    Object = 2,
    /// The header of an array. Its count is that of the elements.
    Array = 4,
}

impl HeaderKind {
    /// Returns the type with this number, or `None` if there is none.
    #[inline(always)]
    fn from_u32(number: u32) -> Option<HeaderKind>
        ensures { MatchOption result ((number ≢ 1) × (number ≢ 2) × (number ≢ 4))
            (λ kind. header_number kind ≡ number) }
    {
        match number {
            1 => Some(HeaderKind::Scalar),
            2 => Some(HeaderKind::Object),
            4 => Some(HeaderKind::Array),
            _ => None,
        }
    }
}

/// The kinds of an entry, with their numbers in entry words.
#[derive(Clone, Copy, Debug, PartialEq, Eq)]
pub enum EntryKind {
    /// Null. No content.
    Null = 0,
    /// A string or a key, in UTF-8.
    Text = 1,
    /// A number: a tag, and what follows it.
    Number = 2,
    /// False. No content.
    False = 3,
    /// True. No content.
    True = 4,
    /// An array or an object, with its own header.
    Container = 5,
    /// A value that JSON itself lacks: a tag, and what follows it.
    Extension = 6,
    /// The kind that no item has. Its content has an end, so that it can be passed over.
    Unknown = 7,
}

impl EntryKind {
    /// Returns the type with this number, or `None` if there is none.
    ///
    /// # Complexity
    ///
    /// O(1). Does not allocate.
    #[inline(always)]
    pub fn from_u32(number: u32) -> Option<EntryKind>
        ensures { MatchOption result (8 ≤ number) (λ kind. kind_number kind ≡ number) }
    {
        match number {
            0 => Some(EntryKind::Null),
            1 => Some(EntryKind::Text),
            2 => Some(EntryKind::Number),
            3 => Some(EntryKind::False),
            4 => Some(EntryKind::True),
            5 => Some(EntryKind::Container),
            6 => Some(EntryKind::Extension),
            7 => Some(EntryKind::Unknown),
            _ => None,
        }
    }
}

// The first bytes of a number's payload, and how many bytes of a decimal follow. Floats are not supported, nor are the
// longest decimals.

/// The tag of zero. Nothing follows.
pub const ZERO: u8 = 0x00;

/// The tag of an integer with a sign, of 1, 2, 4 or 8 bytes.
pub const INT64: u8 = 0x40;

/// The tag of an integer without a sign, of 1, 2, 4 or 8 bytes.
pub const UINT64: u8 = 0x50;

/// The tag of a decimal: its digits, and a byte for the scale.
pub const DECIMAL: u8 = 0x70;

/// How many bytes of a decimal of 64 bits follow.
pub const DECIMAL64_LEN: usize = 9;

/// How many bytes of a decimal of 128 bits follow.
pub const DECIMAL128_LEN: usize = 17;

/// How many bytes of a decimal of 256 bits follow. It is not supported.
pub const DECIMAL256_LEN: usize = 33;

/// The tag of the float NaN. It is not supported.
pub const NAN: u8 = 0x10;

/// The tag of the float that is infinite. It is not supported.
pub const INFINITY: u8 = 0x20;

/// The tag of the float that is infinite below zero. It is not supported.
pub const NEGATIVE_INFINITY: u8 = 0x30;

/// The tag of every other float. It is not supported.
pub const FLOAT64: u8 = 0x60;

// The first bytes of an extension's payload, and how many bytes of each follow. Any bytes follow in a binary value.

/// The tag of a binary value. Any bytes follow.
pub const BINARY: u8 = 0x00;

/// The tag of a day.
pub const DATE: u8 = 0x10;

/// How many bytes of a day follow.
pub const DATE_LEN: usize = 4;

/// The tag of a point in time.
pub const TIMESTAMP: u8 = 0x20;

/// How many bytes of a point in time follow.
pub const TIMESTAMP_LEN: usize = 8;

/// The tag of a point in time with a time zone.
pub const TIMESTAMP_TZ: u8 = 0x30;

/// How many bytes of a point in time with a time zone follow.
pub const TIMESTAMP_TZ_LEN: usize = 12;

/// The tag of a length of time.
pub const INTERVAL: u8 = 0x40;

/// How many bytes of a length of time follow.
pub const INTERVAL_LEN: usize = 16;

/// The first of the entries, and the words and the contents of the others.
#[derive(Clone, Copy)]
pub struct Entry<'w, 'c> {
    /// The kind of its entry word.
    pub kind: EntryKind,
    /// Its bytes.
    pub content: &'c [u8],
    /// The words of the other entries.
    pub other_words: &'w [u8],
    /// The contents of the other entries.
    pub other_contents: &'c [u8],
}

/// Returns the word of an entry of this type, with a content of this length.
///
/// # Complexity
///
/// O(1). Does not allocate.
#[inline(always)]
pub fn encode_entry_word(kind: EntryKind, len: usize) -> [u8; WORD]
    requires { len < 2 ^ 28 }
    ensures { result ≡ entry_word (kind_number kind) len }
{
    (kind as u32 * LENGTHS + len as u32).to_be_bytes()
}

/// Returns the word of a header of this type and count.
///
/// # Complexity
///
/// O(1). Does not allocate.
#[inline(always)]
pub fn encode_header(kind: HeaderKind, count: usize) -> [u8; WORD]
    requires { count < 2 ^ 29 }
    ensures { result ≡ header (header_number kind) count }
{
    (kind as u32 * COUNTS + count as u32).to_be_bytes()
}

/// Returns the length in an entry word.
///
/// # Complexity
///
/// O(1). Does not allocate.
#[inline(always)]
pub fn entry_len(word: &[u8; WORD]) -> usize
    ensures { result ≡ from_be_bytes w32 word.now % 2 ^ 28 }
{
    (u32::from_be_bytes(*word) % LENGTHS) as usize
}

/// Returns the type and the length in an entry word. A word whose top bit is set is of the type that no item has.
///
/// # Complexity
///
/// O(1). Does not allocate.
#[tactic(auto, using(std::proofs::Common::arith))]
#[inline(always)]
pub fn read_entry_word(word: &[u8; WORD]) -> (EntryKind, usize)
    ensures told { HasEntryWordFields word.now (kind_number result.0) result.1 }
    ensures bound { result.1 < 2 ^ 28 }
{
    let kind = EntryKind::from_u32(u32::from_be_bytes(*word) / LENGTHS);
    (kind.unwrap_or(EntryKind::Unknown), entry_len(word))
}

/// Returns the first word, and the bytes after it, or `None` if there are fewer than four bytes.
#[inline(always)]
fn split_word(bytes: &[u8]) -> Option<(u32, &[u8])>
    ensures { MatchOption result (length bytes.now < 4) (λ r.
        (4 ≤ length bytes.now) × (r.0 ≡ big_number 4 bytes.now) × (r.1.now ≡ drop 4 bytes.now)) }
{
    let word = bytes.first_chunk::<WORD>()?;
    Some((u32::from_be_bytes(*word), &bytes[WORD..]))
}

/// Returns the header's type and count, and the bytes after it, or `None` if they do not begin with a header.
///
/// # Complexity
///
/// O(1). Does not allocate.
#[inline(always)]
pub fn split_header(bytes: &[u8]) -> Option<(HeaderKind, usize, &[u8])>
    ensures { MatchOption result
        ((kind : HeaderKind) (entries : ℕ) (rest : List ℕ) → HeadedBy bytes.now (header_number kind) entries rest → ⊥)
        (λ r. HeadedBy bytes.now (header_number r.0) r.1 r.2.now) }
{
    let (header, rest) = split_word(bytes)?;
    let kind = HeaderKind::from_u32(header / COUNTS)?;
    Some((kind, (header % COUNTS) as usize, rest))
}

/// Returns the type and the length in the first entry word, and the words after it, or `None` if there is none.
///
/// # Complexity
///
/// O(1). Does not allocate.
#[inline(always)]
pub fn split_entry_word(words: &[u8]) -> Option<(EntryKind, usize, &[u8])>
    ensures word { MatchOption result
        ((kind len : ℕ) (others : List ℕ) → StartWith words.now kind len others → ⊥)
        (λ r. StartWith words.now (kind_number r.0) r.1 r.2.now) }
    ensures size { IfSome result (λ r. length r.2.now + 4 ≡ length words.now) }
{
    let (word, others) = split_word(words)?;
    let kind = EntryKind::from_u32(word / LENGTHS)?;
    Some((kind, (word % LENGTHS) as usize, others))
}

/// Returns the type and the content of the entry that these bytes consist of, its word and its content, or `None` if
/// they are not one entry.
///
/// The length is compared before the type is decoded: LLVM then tests the type once, in 11 instructions fewer.
#[inline(always)]
fn split_lone_entry(bytes: &[u8]) -> Option<(EntryKind, &[u8])>
    ensures { MatchOption result
        ((kind : ℕ) (content : List ℕ) → StartWith bytes.now kind (length content) content → ⊥)
        (λ r. StartWith bytes.now (kind_number r.0) (length r.1.now) r.1.now) }
{
    let (word, content) = split_word(bytes)?;
    if (word % LENGTHS) as usize != content.len() {
        return None;
    }
    let kind = EntryKind::from_u32(word / LENGTHS)?;
    Some((kind, content))
}

/// Returns the type and the content of a scalar root's entry, or `None` if the bytes are not the header of a scalar
/// root, an entry word and its content.
///
/// The size of both words is tested at once.
///
/// # Complexity
///
/// O(1). Does not allocate.
#[inline(always)]
#[tactic(auto, using(crate::proofs::Sets::one_header))]
pub fn split_scalar(bytes: &[u8]) -> Option<(EntryKind, &[u8])>
    ensures { MatchOption result
        ((kind : ℕ) (words content : List ℕ) → HeadedBy bytes.now scalar_header 0 words
        → StartWith words kind (length content) content → ⊥)
        (λ r. (words : List ℕ) × HeadedBy bytes.now scalar_header 0 words
        × StartWith words (kind_number r.0) (length r.1.now) r.1.now) }
{
    if bytes.len() < 2 * WORD {
        return None;
    }
    let (header, words) = split_word(bytes)?;
    if header != SCALAR_HEADER {
        return None;
    }
    let (kind, content) = split_lone_entry(words)?;
    Some((kind, content))
}

/// Returns the first of the entries with these words and contents, or `None` if they do not begin with one.
///
/// # Complexity
///
/// O(1). Does not allocate.
#[inline(always)]
#[tactic(auto, using(crate::proofs::Sets::layout_split_entry))]
pub fn split_entry<'w, 'c>(words: &'w [u8], contents: &'c [u8]) -> Option<Entry<'w, 'c>>
    ensures { MatchOption result
        ((kind : ℕ) (content other_words other_contents : List ℕ)
        → BeginWith words.now contents.now kind content other_words other_contents → ⊥)
        (λ e. BeginWith words.now contents.now (kind_number e.kind) e.content.now e.other_words.now
        e.other_contents.now) }
{
    let (kind, len, other_words) = split_entry_word(words)?;
    if contents.len() < len {
        return None;
    }
    let (content, other_contents) = contents.split_at(len);
    Some(Entry {
        kind,
        content,
        other_words,
        other_contents,
    })
}
