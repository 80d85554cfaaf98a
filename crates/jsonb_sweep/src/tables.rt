//! The calls that make a table of names or elements, and return the same if an allocation fails.

use crate::made::{pairs, repeated};
use crate::mark::tell;
use jsonb::{ArrayBuilder, Error, Item, Number, RawJsonb};
use std::alloc::Global;

/// What a document has the names as.
#[derive(Clone, Copy)]
enum Kind {
    Keys,
    Strings,
}

impl Kind {
    fn name(self) -> &'static str {
        match self {
            Kind::Keys => "keys",
            Kind::Strings => "strings",
        }
    }

    /// Returns the object of `count` keys, or the array of these as strings.
    fn document(self, alloc: Global, count: u64) -> Result<Vec<u8>, Error> {
        let object = pairs(alloc, count)?;
        match self {
            Kind::Keys => Ok(object),
            Kind::Strings => match RawJsonb::new(&object).object_keys(alloc)? {
                Some(keys) => Ok(keys.to_vec()),
                None => Err(Error::InvalidJsonb),
            },
        }
    }
}

/// A call with many names: its name, whether it is for all of them, what is added to each of the others and to the last
/// one, and the expected result. A name exists if nothing is added to it.
type Case = (&'static str, bool, &'static str, &'static str, bool);

static CASES: [Case; 4] = rows! {
    "exists_all_keys_in", true, "", "", true;
    "exists_all_keys_in of one that is missing", true, "", "a", false;
    "exists_any_keys_in", false, "a", "", true;
    "exists_any_keys_in of those that are missing", false, "a", "a", false;
};

/// Makes the calls on documents of that many parts, with each name that many times, and reports each result.
pub fn cases(rt: &HostRuntime, count: u64, times: u64) {
    for of in [Kind::Keys, Kind::Strings] {
        for case in &CASES {
            let is_right = exist(rt, of, count, times, case);
            tell(
                rt,
                format_args!("{count} {}: {}", of.name(), case.0),
                is_right,
            );
        }
    }
    let is_right = overlap(rt, count, 0);
    tell(
        rt,
        format_args!("{count} numbers: array_overlap_in"),
        is_right,
    );
    let is_right = overlap(rt, count, count);
    tell(
        rt,
        format_args!("{count} numbers: array_overlap_in of others"),
        is_right,
    );
}

/// Returns the names of `made::pairs` in decreasing order, each with this ending and a comma.
fn decreasing(alloc: Global, count: u64, ending: &str) -> Result<String, Error> {
    let mut text = String::new(alloc);
    for number in (0..count).rev() {
        let name = format!(in alloc; "key {number:06}{ending},")?;
        text.push_str(name.as_str())?;
    }
    Ok(text)
}

/// Returns the names of a case with commas between, each that many times. The last one is looked up in the table, if
/// there is one.
fn names_text(alloc: Global, count: u64, times: u64, case: &Case) -> Result<String, Error> {
    let (_, _, ending, last_ending, _) = *case;
    let each = decreasing(alloc, count, ending)?;
    let last = format!(in alloc; "key 000000{last_ending}")?;
    repeated(alloc, ["", each.as_str(), last.as_str()], times)
}

/// Makes the call of a case.
fn exist(rt: &HostRuntime, of: Kind, count: u64, times: u64, case: &Case) -> Result<bool, Error> {
    let alloc = rt.alloc();
    let document = of.document(alloc, count)?;
    let text = names_text(alloc, count, times, case)?;
    let mut names = Vec::new(alloc);
    names.extend(text.as_str().split(','))?;
    exist_in(rt, RawJsonb::new(&document), &names, case)
}

fn exist_in(
    rt: &HostRuntime,
    document: RawJsonb<'_>,
    names: &[&str],
    case: &Case,
) -> Result<bool, Error> {
    let alloc = rt.alloc();
    let (_, is_all, _, _, wanted) = *case;
    let names = names.iter().copied();
    let answer = if is_all {
        marked!(rt, document.exists_all_keys_in(alloc, names))
    } else {
        marked!(rt, document.exists_any_keys_in(alloc, names))
    };
    Ok(answer? == wanted)
}

/// Times this, numbers below 2^13 have one hash. It is the inverse of 5^9 times the factor of hashes, modulo 2^55.
const INVERSE: u64 = 21_818_951_638_662_393;

/// Returns the number at an index below 2^22 among those that have one hash, which no multiple of 2^55 changes.
fn of_one_hash(index: u64) -> Item<'static> {
    let low = (index % 8192).wrapping_mul(INVERSE) % (1 << 55);
    Item::Number(Number::UInt64(low | index / 8192 << 55))
}

/// Returns the array of that many numbers from a first one, and of a last one. All have one hash.
fn numbers(alloc: Global, first: u64, count: u64, last: u64) -> Result<Vec<u8>, Error> {
    let mut array = ArrayBuilder::new(alloc);
    for number in first..first.saturating_add(count) {
        array.push_item(&of_one_hash(number))?;
    }
    array.push_item(&of_one_hash(last))?;
    array.build()
}

/// Whether two arrays overlap if and only if their last elements are equal. That of the other array is `last`.
fn overlap(rt: &HostRuntime, count: u64, last: u64) -> Result<bool, Error> {
    let alloc = rt.alloc();
    let one = numbers(alloc, 150_000, count, 0)?;
    let other = numbers(alloc, 300_000, count, last)?;
    let (one, other) = (RawJsonb::new(&one), RawJsonb::new(&other));
    let answer = marked!(rt, one.array_overlap_in(alloc, &other));
    Ok(answer? == (last == 0))
}
