//! Calls on documents of many items, whose allocations come late.

use crate::answer::{Wanted, is_document};
use crate::call::{Call, Key, asked, asked_again};
use crate::documents::*;
use crate::mark::tell;
use crate::objects::Picking;
use crate::selections::{Selection, Way, ask};
use crate::{builders, made, parts, values, wholes};
use jsonb::{ArrayBuilder, Error, ObjectBuilder, RawJsonb};
use std::alloc::Global;

/// `[10]`
const ONLY_TEN: &[u8] = b"\x80\x00\x00\x01 \x00\x00\x02P\x0a";

/// `[]`
const EMPTY_ARRAY: &[u8] = b"\x80\x00\x00\x00";

/// What a document has many of.
#[derive(Clone, Copy)]
enum Kind {
    Elements,
    Pairs,
}

impl Kind {
    fn name(self) -> &'static str {
        match self {
            Kind::Elements => "elements",
            Kind::Pairs => "pairs",
        }
    }

    fn document(self, alloc: Global, count: u64) -> Result<Vec<u8>, Error> {
        match self {
            Kind::Elements => made::elements(alloc, count),
            Kind::Pairs => made::pairs(alloc, count),
        }
    }
}

/// A call on a document of many parts.
#[derive(Clone, Copy)]
enum ManyCall {
    /// One that gives the document back.
    Keep(Call<'static>),
    /// A call that returns the same result again.
    Again(Call<'static>),
    Intersection,
    Values,
    Leaves,
    ToValue,
    CloneValue,
    Encode,
    PushElement,
    BuildArray,
    GetByKeyPath,
    DeleteByKeyPath,
    CloneDocument,
    Insert,
    Keys,
    DeleteText,
    Each,
    Pick(Picking),
    PushPair,
    BuildObject,
}

static ARRAYS_CHANGED: [(&str, ManyCall); 9] = rows! {
    "array_distinct", ManyCall::Keep(Call::Distinct);
    "array_except", ManyCall::Keep(Call::Except(ONE_ELEMENT));
    "delete_by_index of none", ManyCall::Keep(Call::DeleteAt(-2147483648));
    "delete_by_name of none", ManyCall::Keep(Call::Delete("a"));
    "strip_nulls", ManyCall::Keep(Call::StripNulls);
    "concat", ManyCall::Keep(Call::Concat(EMPTY_ARRAY));
    "array_insert in the middle", ManyCall::Again(Call::InsertAt(20, ONE));
    "get_by_index", ManyCall::Again(Call::GetAt(20));
    "delete_by_index", ManyCall::Again(Call::DeleteAt(20));
};

/// The calls that make one key of a whole document.
static KEYS_OF: [(&str, ManyCall); 6] = rows! {
    "convert_to_comparable", ManyCall::Again(Call::Make(Key::Comparable));
    "convert_to_comparable_wide", ManyCall::Again(Call::Make(Key::ComparableWide));
    "equality_key", ManyCall::Again(Call::Make(Key::Equality));
    "convert_to_comparable_into", ManyCall::Again(Call::Push(Key::Comparable));
    "convert_to_comparable_wide_into", ManyCall::Again(Call::Push(Key::ComparableWide));
    "equality_key_into", ManyCall::Again(Call::Push(Key::Equality));
};

static OF_ARRAYS: [(&str, ManyCall); 11] = rows! {
    "array_intersection", ManyCall::Intersection;
    "array_values", ManyCall::Values;
    "extract_scalar_key_values", ManyCall::Leaves;
    "to_value", ManyCall::ToValue;
    "Value::clone", ManyCall::CloneValue;
    "encode_item", ManyCall::Encode;
    "ArrayBuilder::push_document", ManyCall::PushElement;
    "ArrayBuilder::build", ManyCall::BuildArray;
    "get_by_keypath", ManyCall::GetByKeyPath;
    "delete_by_keypath", ManyCall::DeleteByKeyPath;
    "OwnedJsonb::clone", ManyCall::CloneDocument;
};

static OBJECTS_CHANGED: [(&str, ManyCall); 7] = rows! {
    "delete_by_name of none", ManyCall::Keep(Call::Delete("a"));
    "object_insert of a pair that is there", ManyCall::Keep(Call::Replace("key 000001", ONE));
    "strip_nulls", ManyCall::Keep(Call::StripNulls);
    "concat", ManyCall::Keep(Call::Concat(EMPTY_OBJECT));
    "get_by_name", ManyCall::Again(Call::Get("key 000020"));
    "get_by_name in another case", ManyCall::Again(Call::GetIgnoringCase("KEY 000020"));
    "delete_by_name", ManyCall::Again(Call::Delete("key 000020"));
};

static OF_OBJECTS: [(&str, ManyCall); 10] = rows! {
    "object_insert in the middle", ManyCall::Insert;
    "object_keys", ManyCall::Keys;
    "delete_by_name of a text", ManyCall::DeleteText;
    "object_each", ManyCall::Each;
    "object_pick", ManyCall::Pick(Picking::Pick);
    "object_delete", ManyCall::Pick(Picking::Delete);
    "to_value", ManyCall::ToValue;
    "Value::clone", ManyCall::CloneValue;
    "ObjectBuilder::push_document", ManyCall::PushPair;
    "ObjectBuilder::build", ManyCall::BuildObject;
};

/// Makes the calls on an array of that many elements, and reports each result.
pub fn elements(rt: &HostRuntime, count: u64) {
    ask_each(rt, Kind::Elements, count, &ARRAYS_CHANGED);
    ask_each(rt, Kind::Elements, count, &KEYS_OF);
    ask_each(rt, Kind::Elements, count, &OF_ARRAYS);
}

/// Makes the calls on an object of that many members, and reports each result.
pub fn pairs(rt: &HostRuntime, count: u64) {
    ask_each(rt, Kind::Pairs, count, &OBJECTS_CHANGED);
    ask_each(rt, Kind::Pairs, count, &KEYS_OF);
    ask_each(rt, Kind::Pairs, count, &OF_OBJECTS);
}

fn ask_each(rt: &HostRuntime, of: Kind, count: u64, calls: &[(&str, ManyCall)]) {
    for (name, call) in calls {
        let is_right = call.ask(rt, of, count);
        tell(rt, format_args!("{count} {}: {name}", of.name()), is_right);
    }
}

impl ManyCall {
    fn ask(self, rt: &HostRuntime, of: Kind, count: u64) -> Result<bool, Error> {
        let document = of.document(rt.alloc(), count)?;
        self.on(rt, &document, count)
    }

    /// Makes the call on a document of that many parts.
    fn on(self, rt: &HostRuntime, document: &[u8], count: u64) -> Result<bool, Error> {
        let same = Wanted::Bytes(document);
        match self {
            ManyCall::Keep(call) => asked(rt, &call, document, same),
            ManyCall::Again(call) => asked_again(rt, &call, document),
            ManyCall::Intersection => asked(rt, &Call::Intersection(document), document, same),
            ManyCall::Values => asked(rt, &Call::Values, document, Wanted::Count(count)),
            ManyCall::Leaves => leaves(rt, document, count),
            ManyCall::ToValue => values::decode(rt, document),
            ManyCall::CloneValue => values::clone(rt, document),
            ManyCall::Encode => values::encode(rt, document),
            ManyCall::PushElement => push_element(rt, document),
            ManyCall::BuildArray => builders::array_builds(rt, document),
            ManyCall::GetByKeyPath => wholes::number_is_found(rt, document),
            ManyCall::DeleteByKeyPath => wholes::number_is_deleted(rt, document),
            ManyCall::CloneDocument => wholes::clone(rt, document),
            ManyCall::Insert => insert(rt, document),
            ManyCall::Keys => keys(rt, document, count),
            ManyCall::DeleteText => delete_text(rt, document),
            ManyCall::Each => each(rt, document, count),
            ManyCall::Pick(picking) => picking.picks_all(rt, document),
            ManyCall::PushPair => push_pair(rt, document),
            ManyCall::BuildObject => builders::object_builds(rt, document),
        }
    }
}

fn leaves(rt: &HostRuntime, document: &[u8], count: u64) -> Result<bool, Error> {
    let answer = marked!(
        rt,
        RawJsonb::new(document).extract_scalar_key_values(rt.alloc(), false)
    );
    Ok(answer?.len() as u64 == count)
}

fn push_element(rt: &HostRuntime, document: &[u8]) -> Result<bool, Error> {
    let mut builder = ArrayBuilder::new(rt.alloc());
    builder.push_document(TEN)?;
    let pushed = marked!(rt, builder.push_document(document));
    builders::has_second(&builder, pushed, ONLY_TEN)
}

fn insert(rt: &HostRuntime, document: &[u8]) -> Result<bool, Error> {
    let alloc = rt.alloc();
    let raw = RawJsonb::new(document);
    let answer = marked!(rt, raw.object_insert(alloc, "key 000020a", &raw, false));
    let without = answer?.as_raw().delete_by_name(alloc, "key 000020a");
    is_document(without, document)
}

fn keys(rt: &HostRuntime, document: &[u8], count: u64) -> Result<bool, Error> {
    match marked!(rt, RawJsonb::new(document).object_keys(rt.alloc()))? {
        Some(keys) => Ok(keys.as_raw().array_length()? == Some(count as usize)),
        None => Ok(false),
    }
}

/// The keys as an array of strings, one of which is deleted.
fn delete_text(rt: &HostRuntime, document: &[u8]) -> Result<bool, Error> {
    let Some(keys) = RawJsonb::new(document).object_keys(rt.alloc())? else {
        return Ok(false);
    };
    asked_again(rt, &Call::Delete("key 000020"), keys.as_raw().as_bytes())
}

fn each(rt: &HostRuntime, document: &[u8], count: u64) -> Result<bool, Error> {
    let answer = marked!(rt, RawJsonb::new(document).object_each(rt.alloc()));
    Ok(match answer? {
        Some(pairs) => pairs.len() as u64 == count,
        None => false,
    })
}

fn push_pair(rt: &HostRuntime, document: &[u8]) -> Result<bool, Error> {
    let mut builder = ObjectBuilder::new(rt.alloc());
    builder.push_document("a", ONE)?;
    let pushed = marked!(rt, builder.push_document("b", document));
    builders::has_only_b(&builder, pushed, ONLY_A)
}

const FILTER: &[u8] = b"$[*]?(@.number >= 0 && exists(@.number))";

/// What a selection of many elements is to give.
#[derive(Clone, Copy)]
enum Given {
    /// The array.
    All,
    /// As many documents as there are elements.
    Each,
    Truth(bool),
}

/// The name of a selection of many elements, its call, its path, and the expected result.
type Selecting = (&'static str, Selection, &'static [u8], Given);

static SELECTING: [Selecting; 10] = rows! {
    "select_values of a member", Selection::Values, b"$[*].number", Given::Each;
    "select_values of an arithmetic list", Selection::Values, b"+$[*].number", Given::Each;
    "find_values of a filter", Selection::Found, FILTER, Given::Each;
    "select_array of a filter", Selection::Array, FILTER, Given::All;
    "select_first of the root", Selection::First, b"$", Given::All;
    "select_value of a filter", Selection::Value, FILTER, Given::All;
    "select_value of a wildcard", Selection::Value, b"$[*]", Given::All;
    "exists of a filter that none passes", Selection::Exists, b"$[*]?(@.number < 0)", Given::Truth(false);
    "predicate_match that none meets", Selection::Truth, b"$[*].number < 0", Given::Truth(false);
    "predicate_match of exists", Selection::Truth, b"exists($[*]?(@.number < 0))", Given::Truth(false);
};

static WAYS: [(&str, Way); 3] = rows! {
    "lax", Way::Lax;
    "strict", Way::Strict;
    "by path", Way::ByPath;
};

/// Makes selections of many elements, and reports each result.
pub fn selections(rt: &HostRuntime, count: u64) {
    for selecting in &SELECTING {
        for (word, way) in &WAYS {
            let is_right = select(rt, selecting, *way, count);
            let name = selecting.0;
            tell(
                rt,
                format_args!("{count} elements: {name}, {word}"),
                is_right,
            );
        }
    }
    let is_right = parts::to_indices(rt, count as usize);
    tell(
        rt,
        format_args!("{count} elements: ArrayIndex::to_indices"),
        is_right,
    );
}

fn select(rt: &HostRuntime, selecting: &Selecting, way: Way, count: u64) -> Result<bool, Error> {
    let document = made::elements(rt.alloc(), count)?;
    let (_, selection, path, given) = *selecting;
    let wanted = match given {
        Given::All => Wanted::Bytes(&document),
        Given::Each => Wanted::Count(count),
        Given::Truth(truth) => Wanted::Truth(truth),
    };
    ask(rt, &(selection, path, &document, wanted), way)
}
