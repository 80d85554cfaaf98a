//! The calls on objects.

use crate::answer::{Wanted, is_document};
use crate::call::{Call, Case, ask_each};
use crate::documents::*;
use crate::mark::tell;
use jsonb::{Error, OwnedJsonb, RawJsonb, keys};
use std::collections::BTreeSet;

/// `{"c":3}`
const ONLY_C: &[u8] = b"\x40\x00\x00\x01\x10\x00\x00\x01 \x00\x00\x02cP\x03";

static CASES: [Case; 8] = rows! {
    "object_keys", Call::Keys, LETTERS, Wanted::Bytes(KEYS);
    "object_keys of an array", Call::Keys, TENS, Wanted::Nothing;
    "object_insert", Call::Insert("b", NINE), LETTERS, Wanted::Bytes(MORE_LETTERS);
    "object_insert of a key that is there", Call::Replace("b", NINE), MORE_LETTERS, Wanted::Bytes(MORE_LETTERS);
    "get_by_name", Call::Get("a"), LETTERS, Wanted::Bytes(ONE);
    "get_by_name of none", Call::Get("A"), LETTERS, Wanted::Nothing;
    "get_by_name in another case", Call::GetIgnoringCase("A"), LETTERS, Wanted::Bytes(ONE);
    "delete_by_name", Call::Delete("a"), LETTERS, Wanted::Bytes(ONLY_C);
};

/// Runs each case, and reports its result.
pub fn cases(rt: &HostRuntime) {
    ask_each(rt, &CASES);
    tell(rt, "object_pick", Picking::Pick.picks_a(rt, ONLY_A));
    tell(rt, "object_delete", Picking::Delete.picks_a(rt, ONLY_C));
    tell(rt, "object_each", object_each(rt));
}

/// A call on an object that takes a set of keys.
#[derive(Clone, Copy)]
pub enum Picking {
    Pick,
    Delete,
}

impl Picking {
    fn asked(
        self,
        rt: &HostRuntime,
        object: &[u8],
        keys: &BTreeSet<&str>,
        wanted: &[u8],
    ) -> Result<bool, Error> {
        let alloc = rt.alloc();
        let object = RawJsonb::new(object);
        let answer = match self {
            Picking::Pick => marked!(rt, object.object_pick(alloc, keys)),
            Picking::Delete => marked!(rt, object.object_delete(alloc, keys)),
        };
        is_document(answer, wanted)
    }

    /// Makes the call with the key `a`.
    fn picks_a(self, rt: &HostRuntime, wanted: &[u8]) -> Result<bool, Error> {
        let mut set = BTreeSet::new(rt.alloc());
        set.insert("a")?;
        self.asked(rt, LETTERS, &set, wanted)
    }

    /// Makes the call with all keys of an object.
    pub fn picks_all(self, rt: &HostRuntime, object: &[u8]) -> Result<bool, Error> {
        let mut set = BTreeSet::new(rt.alloc());
        if let Some(found) = keys(object)? {
            for key in found {
                set.insert(key?)?;
            }
        }
        let wanted = match self {
            Picking::Pick => object,
            Picking::Delete => EMPTY_OBJECT,
        };
        self.asked(rt, object, &set, wanted)
    }
}

fn object_each(rt: &HostRuntime) -> Result<bool, Error> {
    let answer = marked!(rt, RawJsonb::new(LETTERS).object_each(rt.alloc()));
    Ok(are_letters(answer?.as_deref()))
}

/// Whether these are the pairs of `LETTERS`.
fn are_letters(pairs: Option<&[(String, OwnedJsonb)]>) -> bool {
    match pairs {
        Some([(a, one), (c, three)]) => {
            a.as_str() == "a"
                && c.as_str() == "c"
                && one.as_raw().as_bytes() == ONE
                && three.as_raw().as_bytes() == THREE
        }
        _ => false,
    }
}
