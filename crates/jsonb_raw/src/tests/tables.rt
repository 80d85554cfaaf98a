//! Calls that make tables: many elements that have one hash, or are not in the same order, and many names.

use super::*;
use std::alloc::AllocError;
use std::hash::{FoldHasher, Hasher};

/// Appends a part this many times.
fn push_times(bytes: &mut Vec<u8>, part: &[u8], count: u16) -> Result<(), AllocError> {
    for _ in 0..count {
        bytes.extend_from_slice(part)?;
    }
    Ok(())
}

/// Times this, a number is that at an index among the numbers that have one hash. It is the inverse of 5^9 times the
/// factor of hashes, modulo 2^55.
const INVERSE: u64 = 21_818_951_638_662_393;

/// Appends the number at an index among those that have one hash.
fn push_number(bytes: &mut Vec<u8>, index: u16) -> Result<(), AllocError> {
    let number = u64::from(index).wrapping_mul(INVERSE) % (1 << 55);
    bytes.push(0x50)?;
    bytes.extend_from_slice(&number.to_be_bytes())
}

/// Returns the array of `count` numbers from a first one, which have one hash.
fn numbers(alloc: Global, first: u16, count: u16) -> Result<Vec<u8>, AllocError> {
    let mut bytes = Vec::from_slice(alloc, &[0x80, 0])?;
    bytes.extend_from_slice(&count.to_be_bytes())?;
    push_times(&mut bytes, b"\x20\0\0\x09", count)?;
    for index in 0..count {
        push_number(&mut bytes, first.wrapping_add(index))?;
    }
    Ok(bytes)
}

/// Returns whether both calls return the result.
fn overlap_is(alloc: Global, bytes: &[u8], other: &[u8], wanted: bool) -> bool {
    let (document, other) = (RawJsonb::new(bytes), RawJsonb::new(other));
    document.array_overlap_in(alloc, &other) == Ok(wanted)
        && document.array_overlap(&other) == Ok(wanted)
}

/// The number of elements of an array, the first number of another one and its number of elements, and whether they
/// overlap.
type Overlap = (u16, u16, u16, bool);

static OVERLAPS: [Overlap; 15] = [
    // all pairs are compared
    (2, 2, 3, false),
    (200, 199, 200, true),
    (200, 200, 200, false),
    (200, 150, 70, true),
    // at the ends of blocks of 64, 512 and 7,168
    (64, 63, 2, true),
    (65, 64, 2, true),
    (576, 575, 2, true),
    (577, 576, 2, true),
    (7744, 7743, 2, true),
    (7745, 7744, 2, true),
    // more than two blocks of both
    (577, 576, 577, true),
    (577, 577, 577, false),
    (600, 599, 600, true),
    (600, 600, 600, false),
    (600, 500, 300, true),
];

/// Returns whether the arrays of a row overlap as it states, in both orders.
fn row_overlaps(alloc: Global, row: &Overlap) -> Result<bool, Error> {
    let found = numbers(alloc, 0, row.0)?;
    let other = numbers(alloc, row.1, row.2)?;
    Ok(overlap_is(alloc, &found, &other, row.3) && overlap_is(alloc, &other, &found, row.3))
}

#[test]
fn numbers_of_one_hash_overlap(rt: HostRuntime) {
    for row in &OVERLAPS {
        expect(&rt, row_overlaps(rt.alloc(), row), *row);
    }
}

/// `[true,0.1]`
const ONE_TENTH: &[u8] = b"\x80\0\0\x02\x40\0\0\0\x20\0\0\x0a\x70\0\0\0\0\0\0\0\x01\x01";

/// Returns the array of this many nulls and 0.1000000000, which has no hash.
fn nulls_and_one_tenth(alloc: Global, count: u16) -> Result<Vec<u8>, AllocError> {
    let mut bytes = Vec::from_slice(alloc, &[0x80, 0])?;
    bytes.extend_from_slice(&count.wrapping_add(1).to_be_bytes())?;
    push_times(&mut bytes, &[0; 4], count)?;
    bytes.extend_from_slice(b"\x20\0\0\x0a\x70\0\0\0\0\x3b\x9a\xca\0\x0a")?;
    Ok(bytes)
}

/// The number is within the first block of entries, or ends the second one.
#[test]
fn a_number_without_a_hash_overlaps(rt: HostRuntime) -> Result<(), AllocError> {
    for count in [9, 200] {
        let other = nulls_and_one_tenth(rt.alloc(), count)?;
        assert!(rt; overlap_is(rt.alloc(), ONE_TENTH, &other, true), "{count}");
    }
    Ok(())
}

/// Appends this number as a decimal with the digit 0 after its point.
fn push_decimal(bytes: &mut Vec<u8>, index: u16) -> Result<(), AllocError> {
    let number = u64::from(index).wrapping_mul(INVERSE) % (1 << 55);
    bytes.push(0x70)?;
    bytes.extend_from_slice(&(10 * number).to_be_bytes())?;
    bytes.push(1)?;
    Ok(())
}

/// What the elements of an array are.
#[derive(Clone, Copy)]
enum Elements {
    /// Numbers that have one hash.
    Numbers,
    /// These numbers as decimals, so that no start of a search is known.
    Decimals,
    /// Arrays of such a number.
    Arrays,
    /// Arrays of such a number and null.
    Wider,
}

use Elements::{Arrays, Decimals, Numbers, Wider};

impl Elements {
    fn word(self) -> &'static [u8] {
        match self {
            Elements::Numbers => b"\x20\0\0\x09",
            Elements::Decimals => b"\x20\0\0\x0a",
            Elements::Arrays => b"\x50\0\0\x11",
            Elements::Wider => b"\x50\0\0\x15",
        }
    }

    fn head(self) -> &'static [u8] {
        match self {
            Elements::Numbers | Elements::Decimals => b"",
            Elements::Arrays => b"\x80\0\0\x01\x20\0\0\x09",
            Elements::Wider => b"\x80\0\0\x02\x20\0\0\x09\0\0\0\0",
        }
    }

    /// Appends the number at an index, as these elements have it.
    fn push(self, bytes: &mut Vec<u8>, index: u16) -> Result<(), AllocError> {
        match self {
            Elements::Decimals => push_decimal(bytes, index),
            _ => push_number(bytes, index),
        }
    }

    /// Returns the array of `count` of them, with the numbers from a first one, or these in the reverse order.
    fn array(
        self,
        alloc: Global,
        count: u16,
        first: u16,
        is_reversed: bool,
    ) -> Result<Vec<u8>, AllocError> {
        let mut bytes = Vec::from_slice(alloc, &[0x80, 0])?;
        bytes.extend_from_slice(&count.to_be_bytes())?;
        push_times(&mut bytes, self.word(), count)?;
        for index in 0..count {
            let place = if is_reversed {
                count.wrapping_sub(index).wrapping_sub(1)
            } else {
                index
            };
            bytes.extend_from_slice(self.head())?;
            self.push(&mut bytes, first.wrapping_add(place))?;
        }
        Ok(bytes)
    }
}

/// Elements of a document and of another one in the reverse order, how many both have, how many numbers of the other
/// are missing, and whether the document contains it.
type Contained = (&'static str, Elements, Elements, u16, u16, bool);

static CONTAINED: [Contained; 13] = [
    ("20 arrays but one", Arrays, Arrays, 20, 1, false),
    ("20 arrays", Arrays, Arrays, 20, 0, true),
    ("numbers", Numbers, Numbers, 200, 0, true),
    ("numbers but one", Numbers, Numbers, 200, 1, false),
    ("decimals", Numbers, Decimals, 200, 0, true),
    ("decimals but one", Numbers, Decimals, 200, 1, false),
    ("many numbers", Numbers, Numbers, 7_200, 0, true),
    ("many numbers but one", Numbers, Numbers, 7_200, 1, false),
    ("arrays", Arrays, Arrays, 200, 0, true),
    ("arrays but one", Arrays, Arrays, 200, 1, false),
    ("parts of arrays", Wider, Arrays, 200, 0, true),
    ("parts of arrays but one", Wider, Arrays, 200, 1, false),
    ("arrays of more", Arrays, Wider, 200, 0, false),
];

/// Returns whether both calls return what a row states.
fn row_is_contained(alloc: Global, row: &Contained) -> Result<bool, Error> {
    let bytes = row.1.array(alloc, row.3, row.4, false)?;
    let other = row.2.array(alloc, row.3, 0, true)?;
    let (document, other) = (RawJsonb::new(&bytes), RawJsonb::new(&other));
    Ok(document.contains_in(alloc, &other) == Ok(row.5) && document.contains(&other) == Ok(row.5))
}

#[test]
fn elements_in_the_reverse_order_are_contained(rt: HostRuntime) {
    for row in &CONTAINED {
        expect(&rt, row_is_contained(rt.alloc(), row), row.0);
    }
}

/// The number of elements of an array, and of one in no order before its last element.
const MANY: u16 = 3_000;

/// Returns the array of the numbers below `MANY` in no order and 0, with another number at this index.
fn shuffled(alloc: Global, at: u16, other: u16) -> Result<Vec<u8>, AllocError> {
    let mut bytes = Vec::from_slice(alloc, &[0x80, 0])?;
    bytes.extend_from_slice(&(MANY + 1).to_be_bytes())?;
    push_times(&mut bytes, b"\x20\0\0\x09", MANY + 1)?;
    for index in 0..=MANY {
        let number = u32::from(index).wrapping_mul(1_031) % u32::from(MANY);
        push_number(&mut bytes, if index == at { other } else { number as u16 })?;
    }
    Ok(bytes)
}

/// The index of a number, the number, and whether the array of the numbers below `MANY` contains the other one. The
/// indices are the first one and those after blocks of 32, 416 and 2,400 elements.
static IN_NO_ORDER: [(u16, u16, bool); 8] = [
    (0, MANY, false),
    (33, MANY, false),
    (34, MANY, false),
    (449, MANY, false),
    (450, MANY, false),
    (2_849, MANY, false),
    (MANY, MANY, false),
    (MANY, 7, true),
];

/// Returns whether the array of the numbers below `MANY` contains the one in no order as a row states.
fn is_contained_shuffled(alloc: Global, row: &(u16, u16, bool)) -> Result<bool, Error> {
    let bytes = numbers(alloc, 0, MANY)?;
    let other = shuffled(alloc, row.0, row.1)?;
    let (document, other) = (RawJsonb::new(&bytes), RawJsonb::new(&other));
    Ok(document.contains(&other) == Ok(row.2) && document.contains_in(alloc, &other) == Ok(row.2))
}

#[test]
fn elements_in_no_order_are_contained(rt: HostRuntime) {
    for row in &IN_NO_ORDER {
        expect(&rt, is_contained_shuffled(rt.alloc(), row), *row);
    }
}

/// Appends a number below 10,000 in four digits.
fn push_digits(bytes: &mut Vec<u8>, number: u16) -> Result<(), AllocError> {
    for place in [1000, 100, 10, 1] {
        bytes.push(b'0' + (number / place % 10) as u8)?;
    }
    Ok(())
}

/// Returns how many the numbers are, if these are few.
fn count_of(numbers: &[u16]) -> u16 {
    let mut count = 0u16;
    for _ in numbers {
        count = count.wrapping_add(1);
    }
    count
}

/// Returns the container of these numbers in four digits, which are keys if it is an object.
fn container(alloc: Global, is_object: bool, numbers: &[u16]) -> Result<Vec<u8>, AllocError> {
    let count = count_of(numbers);
    let mut bytes = Vec::from_slice(alloc, &[if is_object { 0x40 } else { 0x80 }, 0])?;
    bytes.extend_from_slice(&count.to_be_bytes())?;
    push_times(&mut bytes, b"\x10\0\0\x04", count)?;
    if is_object {
        push_times(&mut bytes, b"\0\0\0\0", count)?;
    }
    for number in numbers {
        push_digits(&mut bytes, *number)?;
    }
    Ok(bytes)
}

/// Returns the numbers from a first one in decreasing order, in four digits with a comma after each, that many times,
/// and another one.
fn names(alloc: Global, numbers: &[u16], times: u16, other: u16) -> Result<Vec<u8>, AllocError> {
    let mut text = Vec::new(alloc);
    for _ in 0..times {
        for number in numbers.iter().rev() {
            push_digits(&mut text, *number)?;
            text.push(b',')?;
        }
    }
    push_digits(&mut text, other)?;
    Ok(text)
}

/// Returns whether the calls with an allocator and those without return these results.
fn exist(alloc: Global, document: &RawJsonb<'_>, names: &[&str], all: bool, any: bool) -> bool {
    document.exists_all_keys_in(alloc, names.iter().copied()) == Ok(all)
        && document.exists_any_keys_in(alloc, names.iter().copied()) == Ok(any)
        && document.exists_all_keys(names.iter().copied()) == Ok(all)
        && document.exists_any_keys(names.iter().copied()) == Ok(any)
}

/// Whether each name is missing, whether another one is, and whether all and any of them exist.
type Existing = (bool, bool, bool, bool);

static NAMES: [Existing; 4] = [
    (false, false, true, true),
    (false, true, false, true),
    (true, false, false, true),
    (true, true, false, false),
];

/// Returns whether the names of a string exist in a document as a row states.
fn names_exist(
    alloc: Global,
    document: &RawJsonb<'_>,
    bytes: &[u8],
    row: &Existing,
) -> Result<bool, Error> {
    let Ok(text) = str::from_utf8(bytes) else {
        return Ok(false);
    };
    let mut names = Vec::new(alloc);
    names.extend(text.split(','))?;
    Ok(exist(alloc, document, &names, row.2, row.3))
}

/// Returns whether the names of some numbers, that many times, exist as a row states in a container of these or of
/// other numbers.
fn row_exists_in(
    alloc: Global,
    is_object: bool,
    some: &[u16],
    others: &[u16],
    times: u16,
    row: &Existing,
) -> Result<bool, Error> {
    let (found, missing) = if row.0 {
        (others, some)
    } else {
        (some, others)
    };
    let other = if row.1 {
        missing.first()
    } else {
        found.first()
    };
    let bytes = container(alloc, is_object, found)?;
    let text = names(alloc, some, times, other.copied().unwrap_or(0))?;
    names_exist(alloc, &RawJsonb::new(&bytes), &text, row)
}

/// Returns `count` numbers from a first one.
fn range(alloc: Global, first: u16, count: u16) -> Result<Vec<u16>, AllocError> {
    let mut numbers = Vec::new(alloc);
    for index in 0..count {
        numbers.push(first.wrapping_add(index))?;
    }
    Ok(numbers)
}

/// The number of keys or strings, and how often a list has each of its names.
type Listed = (u16, u16);

/// For a set of few strings, for a table of keys, and more names than fill a large block.
static LISTS: [Listed; 3] = [(200, 12), (600, 5), (3_000, 1)];

/// Returns whether the names of a list exist as a row states.
fn list_exists(
    alloc: Global,
    is_object: bool,
    list: &Listed,
    row: &Existing,
) -> Result<bool, Error> {
    let (some, others) = (range(alloc, 0, list.0)?, range(alloc, list.0, list.0)?);
    row_exists_in(alloc, is_object, &some, &others, list.1, row)
}

#[test]
fn many_names_exist(rt: HostRuntime) {
    for list in &LISTS {
        for row in &NAMES {
            expect(&rt, list_exists(rt.alloc(), true, list, row), (*list, *row));
            expect(
                &rt,
                list_exists(rt.alloc(), false, list, row),
                (*list, *row),
            );
        }
    }
}

/// Returns the first place of a name among 4,096.
fn place(name: &[u8]) -> u64 {
    let mut hasher = FoldHasher::default();
    hasher.write(name);
    hasher.finish() % 4096
}

/// Returns the numbers below 10,000 whose names have one of the first 128 places, or those whose names have not.
fn by_place(alloc: Global, is_first: bool) -> Result<Vec<u16>, AllocError> {
    let mut numbers = Vec::new(alloc);
    let mut name = Vec::new(alloc);
    for number in 0..10_000u16 {
        name.clear();
        push_digits(&mut name, number)?;
        if (place(&name) < 128) == is_first {
            numbers.push(number)?;
        }
    }
    Ok(numbers)
}

/// Returns whether names that have few places exist as a row states.
fn crowd_exists(alloc: Global, row: &Existing) -> Result<bool, Error> {
    let (crowd, others) = (by_place(alloc, true)?, by_place(alloc, false)?);
    let others = others.get(..600).unwrap_or(&[]);
    row_exists_in(alloc, false, &crowd, others, 2, row)
}

#[test]
fn names_without_a_place_exist(rt: HostRuntime) {
    for row in &NAMES {
        expect(&rt, crowd_exists(rt.alloc(), row), *row);
    }
}
