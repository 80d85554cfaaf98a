//! Hashes of entries. Entries that are equal by value have the same hash, if both have one. So an entry equals none of
//! a list whose entries all have other hashes.

ghost use Rattle.std.specs.Prelude.{◌≡◌, ◌<◌, ◌≤◌, ◌*◌, ◌-◌, ◌^◌, ℕ, length, bit_and, pos, neg_ℤ, true, false, IfSome};
ghost use Rattle.jsonb_doc.specs.Tree.{Tree, Trees, Pairs, values};
ghost use Rattle.jsonb_doc.specs.Equal.{is_equal};
ghost use Rattle.jsonb_doc.specs.Payload.{Form};
ghost use Rattle.jsonb_doc.specs.Format.{Decodes};
ghost use Rattle.jsonb_doc.specs.Private.Short.{short_value};
ghost use Rattle.jsonb_doc.specs.Private.Stored.{HasEntriesLeft, Stores};
ghost use Rattle.jsonb_raw.specs.Private.Hashes.{IsPartHash, AreHashed, IsHashOf, IsIn, mixed, value_hash, text_hash, hash_word, hash_bit, other_bits};

use jsonb_doc::cursor::Entries;
use jsonb_doc::layout::EntryKind;
use jsonb_doc::{Item, ShortNumber, StoredEntry, array_entries, object_entries};
use std::hash::{FoldHasher, Hasher};

/// An odd number whose digits have no pattern. Times it, numbers that differ in few digits differ in the highest ones.
const FACTOR: u64 = 0x9e37_79b9_7f4a_7c15;

/// Returns a number whose highest digits depend on all digits of the given one.
fn mixed(value: u64) -> u64
    ensures { result ≡ mixed value }
{
    value.wrapping_mul(FACTOR)
}

/// Returns `10 ^ (9 - scale)`, or `None` if the scale is greater than 9.
fn billionths(scale: u8) -> Option<u64>
    ensures { IfSome result (λ power. (scale ≤ 9) × (power ≡ 10 ^ (9 - scale))) }
{
    match scale {
        0 => Some(1_000_000_000),
        1 => Some(100_000_000),
        2 => Some(10_000_000),
        3 => Some(1_000_000),
        4 => Some(100_000),
        5 => Some(10_000),
        6 => Some(1000),
        7 => Some(100),
        8 => Some(10),
        9 => Some(1),
        _ => None,
    }
}

/// Returns the hash of an integer that is a product.
fn product_hash(magnitude: u64, power: u64, is_negative: bool) -> u64
    ensures above { is_negative ≡ false → result ≡ value_hash (pos (magnitude * power)) }
    ensures below { is_negative ≡ true → 0 < magnitude → 0 < power
        → result ≡ value_hash (neg_ℤ (pos (magnitude * power))) }
{
    let product = magnitude.wrapping_mul(power);
    if is_negative {
        mixed(product.wrapping_add(1))
    } else {
        mixed(product)
    }
}

/// Returns the hash of a number, or `None` if it has more than nine decimals.
fn number_hash(number: ShortNumber) -> Option<u64>
    ensures { IfSome result (IsPartHash (Tree.number (short_value number))) }
{
    match number {
        ShortNumber::Unsigned(value) => Some(product_hash(value, 1_000_000_000, false)),
        ShortNumber::Signed(value) => Some(product_hash(
            value.unsigned_abs(),
            1_000_000_000,
            value < 0,
        )),
        ShortNumber::Decimal(value, scale) => {
            let power = billionths(scale)?;
            Some(product_hash(value.unsigned_abs(), power, value < 0))
        }
    }
}

/// Returns the hash of a string.
#[tactic(auto, unfolding(crate::specs::Private::Hashes::text_hash))]
fn text_hash(text: &[u8]) -> u64
    ensures { result ≡ text_hash text.now }
{
    let mut hasher = FoldHasher::default();
    hasher.write(text);
    hasher.finish()
}

/// Returns the hash of an entry of a container, or `None` for a number that is not short or has more than nine decimals.
/// All containers have one.
fn part_hash(entry: &StoredEntry<'_>) -> Option<u64>
    ensures { (form : Form) (t : Tree) → Stores form entry.now t → IfSome result (IsPartHash t) }
{
    if entry.is_text() {
        return Some(text_hash(entry.content));
    }
    if let Some(number) = entry.short_number() {
        return number_hash(number);
    }
    match entry.kind {
        EntryKind::Null => Some(mixed(2)),
        EntryKind::False => Some(mixed(3)),
        EntryKind::True => Some(mixed(4)),
        EntryKind::Container => Some(mixed(5)),
        EntryKind::Extension => Some(mixed(6)),
        EntryKind::Text | EntryKind::Number | EntryKind::Unknown => None,
    }
}

/// Returns the hash of a list of entries, or `None` if one of them has none.
#[tactic(auto, using(crate::proofs::Sets::hashes_entries_hash))]
fn entries_hash(entries: Entries<'_>) -> Option<u64>
    ensures { (form : Form) (ts : Trees) → HasEntriesLeft form entries.entry ts
        → IfSome result (AreHashed ts 5) }
{
    let mut hash = 5;
    for entry in entries {
        let Ok(entry) = entry else {
            return None;
        };
        hash = mixed(hash).wrapping_add(part_hash(&entry)?);
    }
    Some(hash)
}

/// Returns the hash of an array: that of its elements.
fn array_hash(bytes: &[u8]) -> Option<u64>
    ensures { (form : Form) (ts : Trees) → Decodes form bytes.now (Tree.array ts)
        → IfSome result (AreHashed ts 5) }
{
    match array_entries(bytes) {
        Ok(entries) => entries_hash(entries),
        Err(_) => None,
    }
}

/// Returns the hash of an object: that of its values.
fn object_hash(bytes: &[u8]) -> Option<u64>
    ensures { (form : Form) (ps : Pairs) → Decodes form bytes.now (Tree.object ps)
        → IfSome result (AreHashed (values ps) 5) }
{
    match object_entries(bytes) {
        Ok(pairs) => entries_hash(pairs.values),
        Err(_) => None,
    }
}

/// Returns the hash of a container, or `None` if it has an entry without one.
#[inline(never)]
fn container_hash(entry: &StoredEntry<'_>) -> Option<u64>
    ensures { (form : Form) (t : Tree) → Stores form entry.now t → IfSome result (IsHashOf t) }
{
    match entry.item() {
        Ok(Item::Array(bytes)) => array_hash(bytes),
        Ok(Item::Object(bytes)) => object_hash(bytes),
        _ => None,
    }
}

/// Returns the hash of an entry, or `None` if it is or has a number that is not short or has more than nine decimals.
pub(crate) fn entry_hash(entry: &StoredEntry<'_>) -> Option<u64>
    ensures { (form : Form) (t : Tree) → Stores form entry.now t → IfSome result (IsHashOf t) }
{
    if entry.is_container() {
        return container_hash(entry);
    }
    part_hash(entry)
}

/// Returns the halves of a product, added without carries. Each depends on most digits of both numbers.
#[inline(always)]
fn folded_product(number: u64, factor: u64) -> u64 {
    let product = number as u128 * factor as u128;
    (product & 0xffff_ffff_ffff_ffff) as u64 ^ (product >> 64) as u64
}

/// Returns up to 3 bytes as one number, the last one as its lowest digits.
#[inline(always)]
fn few_bytes(bytes: &[u8]) -> u64
    requires { 0 < length bytes.now }
{
    let (middle, last) = (bytes.len() / 2, bytes.len() - 1);
    u64::from(bytes[0]) << 16 | u64::from(bytes[middle]) << 8 | u64::from(bytes[last])
}

/// Returns the first 4 bytes and the last 4 as one number, or 0 if there are fewer.
#[inline(always)]
fn short_ends(bytes: &[u8]) -> u64 {
    match (bytes.first_chunk(), bytes.last_chunk()) {
        (Some(first), Some(last)) => {
            u64::from(u32::from_be_bytes(*first)) << 32 | u64::from(u32::from_be_bytes(*last))
        }
        _ => 0,
    }
}

/// Returns the first 8 bytes and the last 8 as numbers, or 0 if there are fewer.
#[inline(always)]
fn long_ends(bytes: &[u8]) -> (u64, u64) {
    match (bytes.first_chunk(), bytes.last_chunk()) {
        (Some(first), Some(last)) => (u64::from_be_bytes(*first), u64::from_be_bytes(*last)),
        _ => (0, 0),
    }
}

/// Returns a hash of the kind and the bytes of an entry. That of up to 16 bytes is one product.
#[inline(always)]
pub(crate) fn stored_hash(entry: &StoredEntry<'_>) -> u64 {
    let content = entry.content;
    let len = content.len();
    let (number, other) = if len == 0 {
        (entry.kind as u64, 0)
    } else if len < 4 {
        (few_bytes(content), 2 * len as u64)
    } else if len <= 8 {
        (short_ends(content), 2 * len as u64)
    } else if len <= 16 {
        let (first, last) = long_ends(content);
        (first.wrapping_add(FACTOR), last)
    } else {
        return text_hash(content);
    };
    folded_product(number, FACTOR ^ other)
}

/// Returns the index of the word that has the bits of a hash, of a number of words that is a power of two.
#[inline(always)]
#[tactic(auto, using(crate::proofs::Sets::hashes_hash_word))]
fn hash_word(hash: u64, count: usize) -> usize
    requires { 0 < count }
    ensures word { result ≡ hash_word count hash }
    ensures few { result < count }
{
    (hash >> 52) as usize & (count - 1)
}

/// Returns the place of a string in a table, by its hash, of a number of places that is a power of two.
#[inline(always)]
#[tactic(auto, using(crate::proofs::Sets::hashes_hash_word))]
pub(crate) fn text_place(text: &[u8], count: usize) -> usize
    requires { 0 < count }
    ensures place { result ≡ bit_and (text_hash text.now) (count - 1) }
    ensures few { result < count }
{
    text_hash(text) as usize & (count - 1)
}

/// Returns the bit of a word that the bits of a hash from this one on choose.
#[inline(always)]
#[tactic(auto, unfolding(crate::specs::Private::Hashes::hash_bit))]
fn hash_bit(hash: u64, at: u32) -> u64
    requires { at < 64 }
    ensures { result ≡ hash_bit hash at }
{
    1 << (hash >> at) % 64
}

/// Returns the first bit of a hash in its word. Most lookups end with it.
#[inline(always)]
fn first_bit(hash: u64) -> u64
    ensures { result ≡ hash_bit hash 46 }
{
    hash_bit(hash, 46)
}

/// Returns the other bits of a hash in its word.
#[inline(always)]
#[tactic(auto, unfolding(crate::specs::Private::Hashes::other_bits))]
fn other_bits(hash: u64) -> u64
    ensures { result ≡ other_bits hash }
{
    hash_bit(hash, 40) | hash_bit(hash, 34) | hash_bit(hash, 28) | hash_bit(hash, 22)
}

/// Adds the hash of an entry to the set of these words, and returns `true`. Returns `false` if the entry has none.
pub(super) fn add_hash(words: &mut [u64], entry: &StoredEntry<'_>) -> bool
    requires { 0 < length words.old }
    ensures kept { (t : Tree) → IsIn words.old t → IsIn words.new t }
    ensures added { (form : Form) (t u : Tree) → Stores form entry.now u → is_equal t u ≡ true → result ≡ true
        → IsIn words.new t }
    ensures length { length words.new ≡ length words.old }
{
    let Some(hash) = entry_hash(entry) else {
        return false;
    };
    let word = hash_word(hash, words.len());
    words[word] = words[word] | first_bit(hash) | other_bits(hash);
    true
}

/// Returns `true` if the hash of an entry may be in the set of these words, or the entry has none.
pub(super) fn may_have_hash(words: &[u64], entry: &StoredEntry<'_>) -> bool
    requires { 0 < length words.now }
    ensures { (form : Form) (t : Tree) → Stores form entry.now t → IsIn words.now t → result ≡ true }
{
    let Some(hash) = entry_hash(entry) else {
        return true;
    };
    let word = words[hash_word(hash, words.len())];
    let first = first_bit(hash);
    if word & first != first {
        return false;
    }
    let others = other_bits(hash);
    word & others == others
}

#[cfg(test)]
mod tests;
