//! The calls on arrays.

use crate::answer::Wanted;
use crate::call::{Call, Case, ask_each};
use crate::documents::*;

/// `[1,2]`
const ONE_AND_TWO: &[u8] = b"\x80\x00\x00\x02 \x00\x00\x02 \x00\x00\x02P\x01P\x02";

/// `[1,2,1.0]`
const ALL_BUT_ONE: &[u8] =
    b"\x80\x00\x00\x03 \x00\x00\x02 \x00\x00\x02 \x00\x00\x0aP\x01P\x02p\x00\x00\x00\x00\x00\x00\x00\x0a\x01";

/// `[9,1]`
const NINE_THEN_ONE: &[u8] = b"\x80\x00\x00\x02 \x00\x00\x02 \x00\x00\x02P\x09P\x01";

/// `[false,{"k":"v"}]`
const WITHOUT_TEN: &[u8] =
    b"\x80\x00\x00\x020\x00\x00\x00P\x00\x00\x0e\x40\x00\x00\x01\x10\x00\x00\x01\x10\x00\x00\x01kv";

/// `["c"]`
const ONLY_TEXT_C: &[u8] = b"\x80\x00\x00\x01\x10\x00\x00\x01c";

static CASES: [Case; 11] = rows! {
    "array_values", Call::Values, TENS, Wanted::Documents(&[TEN, TWENTY, THIRTY]);
    "array_distinct", Call::Distinct, EQUAL_NUMBERS, Wanted::Bytes(ONE_AND_TWO);
    "array_intersection", Call::Intersection(ONE_ELEMENT), EQUAL_NUMBERS, Wanted::Bytes(ONE_ELEMENT);
    "array_except", Call::Except(ONE_ELEMENT), EQUAL_NUMBERS, Wanted::Bytes(ALL_BUT_ONE);
    "array_insert in front", Call::InsertAt(-2147483648, NINE), ONE_ELEMENT, Wanted::Bytes(NINE_THEN_ONE);
    "array_insert behind", Call::InsertAt(3, ONE), TENS, Wanted::Bytes(TENS_AND_ONE);
    "get_by_index", Call::GetAt(0), TENS, Wanted::Bytes(TEN);
    "get_by_index of none", Call::GetAt(3), TENS, Wanted::Nothing;
    "delete_by_index", Call::DeleteAt(1), MIXED, Wanted::Bytes(WITHOUT_TEN);
    "delete_by_index of none", Call::DeleteAt(-2147483648), ONE_ELEMENT, Wanted::Bytes(ONE_ELEMENT);
    "delete_by_name of a text", Call::Delete("a"), KEYS, Wanted::Bytes(ONLY_TEXT_C);
};

/// Runs each case, and reports its result.
pub fn cases(rt: &HostRuntime) {
    ask_each(rt, &CASES);
}
