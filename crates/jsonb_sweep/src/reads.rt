//! The calls that read documents without allocating: checks, roots, iterators, spots, and queries of whole documents.

use crate::documents::*;
use jsonb::{
    Item, RawJsonb, check, child_spots, elements, field_spot, keys, pairs, root_item, root_spot,
    spot_item, values,
};
use std::cmp::Ordering;

/// Makes the calls, and reports the results of each type.
pub fn cases(rt: &HostRuntime) {
    tell_free! { rt;
        "check": check_is_right(RawJsonb::new(PHONES));
        "root_item": root_is_phones();
        "elements": count_of_elements() == 3;
        "keys": count_of_keys() == 2;
        "values": count_of_values() == 2;
        "pairs": count_of_pairs() == 2;
        "root_spot, field_spot, child_spots, spot_item": spots_are_right();
        "array_length, type_of": questions_are_right(RawJsonb::new(TENS));
        "contains": contains_is_right();
        "array_overlap": overlap_is_right(RawJsonb::new(EQUAL_NUMBERS));
        "compare": order_is_right(RawJsonb::new(PHONES));
        "exists_all_keys, exists_any_keys": exists_keys_are_right(RawJsonb::new(LETTERS));
        "traverse_check_string": traverse_is_right(RawJsonb::new(PHONES));
    }
}

fn check_is_right(phones: RawJsonb<'_>) -> bool {
    check(PHONES) == Ok(()) && phones.check() == Ok(())
}

fn root_is_phones() -> bool {
    match root_item(PHONES) {
        Ok(Item::Object(bytes)) => bytes == PHONES,
        _ => false,
    }
}

fn count_of_elements() -> usize {
    match elements(TENS) {
        Ok(Some(found)) => found.count(),
        _ => 0,
    }
}

fn count_of_keys() -> usize {
    match keys(PHONES) {
        Ok(Some(found)) => found.count(),
        _ => 0,
    }
}

fn count_of_values() -> usize {
    let Ok(Some(found)) = values(PHONES) else {
        return 0;
    };
    let mut count = 0usize;
    for value in found {
        count = count.saturating_add(usize::from(value.is_ok()));
    }
    count
}

fn count_of_pairs() -> usize {
    match pairs(PHONES) {
        Ok(Some(found)) => found.count(),
        _ => 0,
    }
}

/// Whether the root has two children, of which `name` is one.
fn spots_are_right() -> bool {
    let Ok(root) = root_spot(PHONES) else {
        return false;
    };
    let Ok(Some(name)) = field_spot(PHONES, root, "name") else {
        return false;
    };
    let Ok(Some(children)) = child_spots(PHONES, root) else {
        return false;
    };
    children.count() == 2 && spot_item(PHONES, name).is_ok()
}

fn questions_are_right(tens: RawJsonb<'_>) -> bool {
    tens.array_length() == Ok(Some(3)) && tens.type_of() == Ok("ARRAY")
}

fn contains_is_right() -> bool {
    let phones = RawJsonb::new(PHONES);
    [
        RawJsonb::new(EQUAL_NUMBERS).contains(&RawJsonb::new(ONE)),
        RawJsonb::new(LETTERS).contains(&RawJsonb::new(ONLY_A)),
        RawJsonb::new(BOTH_PHONES).contains(&RawJsonb::new(BOTH_PHONES)),
        phones.contains(&phones),
    ] == [Ok(true); 4]
}

fn overlap_is_right(numbers: RawJsonb<'_>) -> bool {
    numbers.array_overlap(&RawJsonb::new(ONE)) == Ok(true)
        && numbers.array_overlap(&RawJsonb::new(TENS)) == Ok(false)
}

fn order_is_right(phones: RawJsonb<'_>) -> bool {
    phones.compare(&phones) == Ok(Ordering::Equal)
        && phones.compare(&RawJsonb::new(TENS)) == Ok(Ordering::Less)
        && RawJsonb::new(TENS).compare(&RawJsonb::new(ONE)) == Ok(Ordering::Greater)
}

fn exists_keys_are_right(letters: RawJsonb<'_>) -> bool {
    letters.exists_all_keys(["a", "c"].iter().copied()) == Ok(true)
        && letters.exists_any_keys(["b", "c"].iter().copied()) == Ok(true)
}

fn traverse_is_right(phones: RawJsonb<'_>) -> bool {
    phones.traverse_check_string(|text| text == b"work".as_slice()) == Ok(true)
}
