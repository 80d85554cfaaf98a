//! Each call that reads a document, made on some bytes, and whether the documents that the calls return decode.

use jsonb::{
    ArrayBuilder, DocumentBuilder, Error, JsonPath, ObjectBuilder, OwnedJsonb, RawJsonb,
    SelectByPath, Selector, child_spots, composite_key, composite_key_wide, elements, encode_item,
    field_spot, keys, open_children, pairs, parse_json_path, parse_key_paths, push_column_key,
    push_column_key_wide, root_item, root_spot, spot_item, to_value, values,
};
use std::alloc::Global;
use std::collections::BTreeSet;

// 1
const ONE: &[u8] = b"\x20\0\0\0\x20\0\0\x02\x50\x01";

/// What the returned documents have in common.
#[derive(Drop)]
pub(super) struct Answers {
    /// Whether each of them decodes.
    pub(super) decode: bool,
}

impl Answers {
    /// Looks at a document.
    fn look_at(&mut self, document: &OwnedJsonb) {
        if document.as_raw().check().is_err() {
            self.decode = false;
        }
    }

    /// Checks the document of a result.
    fn one(&mut self, answer: Result<OwnedJsonb, Error>) {
        if let Ok(document) = answer {
            self.look_at(&document);
        }
    }

    /// Checks the document of a result that may have none.
    fn found(&mut self, answer: Result<Option<OwnedJsonb>, Error>) {
        if let Ok(Some(document)) = answer {
            self.look_at(&document);
        }
    }

    /// Checks each document of a result.
    fn each(&mut self, answer: Result<Vec<OwnedJsonb>, Error>) {
        if let Ok(documents) = answer {
            for document in &documents {
                self.look_at(document);
            }
        }
    }

    /// Checks the bytes of a result as a document.
    fn bytes(&mut self, answer: Result<Vec<u8>, Error>) {
        self.one(answer.map(OwnedJsonb::new));
    }
}

/// The calls on arrays.
pub(super) fn ask_array(alloc: Global, raw: &RawJsonb<'_>, answers: &mut Answers) {
    let one = RawJsonb::new(ONE);
    let same = RawJsonb::new(raw.as_bytes());
    let _ = raw.array_length();
    let _ = raw.array_overlap(&same);
    let _ = raw.array_overlap_in(alloc, &same);
    if let Ok(Some(list)) = raw.array_values(alloc) {
        answers.each(Ok(list));
    }
    answers.one(raw.array_distinct(alloc));
    answers.one(raw.array_intersection(alloc, &same));
    answers.one(raw.array_except(alloc, &one));
    for pos in [-2147483648, -1, 0, 1] {
        answers.one(raw.array_insert(alloc, pos, &one));
        answers.one(one.array_insert(alloc, pos, raw));
        answers.one(raw.delete_by_index(alloc, pos));
    }
    answers.found(raw.get_by_index(alloc, 0));
    let _ = raw.spot_by_index(0);
}

/// The calls on objects.
pub(super) fn ask_object(
    alloc: Global,
    raw: &RawJsonb<'_>,
    answers: &mut Answers,
) -> Result<(), Error> {
    let one = RawJsonb::new(ONE);
    answers.found(raw.object_keys(alloc));
    if let Ok(Some(each)) = raw.object_each(alloc) {
        for (_, document) in &each {
            answers.look_at(document);
        }
    }
    for update_flag in [false, true] {
        answers.one(raw.object_insert(alloc, "b", &one, update_flag));
        answers.found(raw.get_by_name(alloc, "A", update_flag));
        let _ = raw.spot_by_name("A", update_flag);
    }
    answers.one(raw.delete_by_name(alloc, "a"));
    let mut names = BTreeSet::new(alloc);
    names.insert("a")?;
    answers.one(raw.object_pick(alloc, &names));
    answers.one(raw.object_delete(alloc, &names));
    Ok(())
}

/// The calls on places, on whole documents, and those that take names.
pub(super) fn ask_places(
    alloc: Global,
    raw: &RawJsonb<'_>,
    answers: &mut Answers,
) -> Result<(), Error> {
    for text in ["{}", "{0}", "{-1}", "{b,0}", "{phones,1,number}"] {
        let steps = parse_key_paths(alloc, text.as_bytes())?;
        answers.found(raw.get_by_keypath(alloc, steps.paths.iter()));
        let _ = raw.spot_by_keypath(alloc, steps.paths.iter());
        answers.one(raw.delete_by_keypath(alloc, steps.paths.iter()));
    }
    let names = ["a", "k"];
    let _ = raw.exists_all_keys(names.iter().copied());
    let _ = raw.exists_any_keys(names.iter().copied());
    let _ = raw.exists_all_keys_in(alloc, names.iter().copied());
    let _ = raw.exists_any_keys_in(alloc, names.iter().copied());
    for ignore_array in [false, true] {
        let _ = raw.extract_scalar_key_values(alloc, ignore_array);
        if let Ok(leaves) = raw.leaf_documents(alloc, ignore_array) {
            for (_, document) in &leaves {
                answers.look_at(document);
            }
        }
    }
    Ok(())
}

/// The calls on whole documents.
pub(super) fn ask_whole(alloc: Global, raw: &RawJsonb<'_>, answers: &mut Answers) {
    let one = RawJsonb::new(ONE);
    let same = RawJsonb::new(raw.as_bytes());
    let _ = raw.contains(&one);
    let _ = one.contains(raw);
    let _ = raw.contains(&same);
    let _ = raw.contains_in(alloc, &one);
    let _ = one.contains_in(alloc, raw);
    let _ = raw.contains_in(alloc, &same);
    let _ = raw.compare(&one);
    let _ = one.compare(raw);
    let _ = raw.compare(&same);
    let _ = raw.depth();
    let _ = raw.check_depth(1);
    let _ = raw.traverse_check_string(|text| text == b"b".as_slice());
    answers.one(raw.concat(alloc, &one));
    answers.one(raw.concat(alloc, &same));
    answers.one(raw.strip_nulls(alloc));
}

/// The keys of a document, and the calls on scalars.
pub(super) fn ask_scalars(alloc: Global, raw: &RawJsonb<'_>) {
    let _ = raw.convert_to_comparable(alloc);
    let _ = raw.convert_to_comparable_wide(alloc);
    let _ = raw.equality_key(alloc);
    let mut key = Vec::new(alloc);
    let _ = raw.convert_to_comparable_into(alloc, &mut key);
    let _ = raw.convert_to_comparable_wide_into(alloc, &mut key);
    let _ = raw.equality_key_into(alloc, &mut key);
    let _ = push_column_key(alloc, &mut key, Some(*raw));
    let _ = push_column_key_wide(alloc, &mut key, Some(*raw));
    let columns = [None, Some(*raw)];
    let _ = composite_key(alloc, &columns);
    let _ = composite_key_wide(alloc, &columns);
    let _ = raw.type_of();
    let _ = [
        raw.is_null(),
        raw.is_boolean(),
        raw.is_number(),
        raw.is_string(),
        raw.is_array(),
        raw.is_object(),
        raw.is_extension_value(),
        raw.is_binary(),
        raw.is_date(),
        raw.is_timestamp(),
        raw.is_timestamp_tz(),
        raw.is_interval(),
        raw.is_i64(),
        raw.is_u64(),
    ];
    let _ = raw.as_null();
    let _ = raw.as_bool();
    let _ = raw.as_number();
    let _ = raw.as_str();
    let _ = raw.as_i64();
    let _ = raw.as_u64();
}

/// The extension values of a document, and its casts.
pub(super) fn ask_extensions_and_casts(alloc: Global, raw: &RawJsonb<'_>) {
    let _ = raw.as_extension_value();
    let _ = raw.as_binary(alloc);
    let _ = raw.as_date();
    let _ = raw.as_timestamp();
    let _ = raw.as_timestamp_tz();
    let _ = raw.as_interval();
    let _ = raw.to_bool();
    let _ = raw.to_i64();
    let _ = raw.to_u64();
    let _ = raw.to_str(alloc);
}

/// The items of a document, and its iterators.
pub(super) fn ask_items(alloc: Global, bytes: &[u8], answers: &mut Answers) {
    if let Ok(item) = root_item(bytes) {
        let _ = to_value(alloc, &item);
        answers.bytes(encode_item(alloc, &item));
    }
    if let Ok(Some(found)) = elements(bytes) {
        for item in found {
            if let Ok(item) = item {
                answers.bytes(encode_item(alloc, &item));
            }
        }
    }
    if let Ok(Some(found)) = keys(bytes) {
        let _ = found.count();
    }
    if let Ok(Some(found)) = values(bytes) {
        for value in found {
            let _ = value;
        }
    }
    if let Ok(Some(found)) = pairs(bytes) {
        let _ = found.count();
    }
}

/// The spots of a document, and the items at them.
pub(super) fn ask_spots(alloc: Global, bytes: &[u8], answers: &mut Answers) {
    let Ok(root) = root_spot(bytes) else {
        return;
    };
    let _ = field_spot(bytes, root, "a");
    ask_children(bytes);
    if let Ok(Some(children)) = child_spots(bytes, root) {
        for child in children {
            if let Ok(child) = child {
                if let Ok(item) = spot_item(bytes, child) {
                    answers.bytes(encode_item(alloc, &item));
                }
            }
        }
    }
}

/// The children of a document one by one.
fn ask_children(bytes: &[u8]) {
    let Ok(Some(mut left)) = open_children(bytes) else {
        return;
    };
    for _ in 0..bytes.len() {
        let _ = left.take(bytes);
    }
}

/// The builders, with the document pushed.
pub(super) fn ask_builders(alloc: Global, bytes: &[u8], answers: &mut Answers) {
    let mut array = ArrayBuilder::new(alloc);
    let _ = array.push_document(bytes);
    answers.bytes(array.build());
    if let Ok(root) = root_spot(bytes) {
        let mut copies = ArrayBuilder::new(alloc);
        let _ = copies.push_spot(bytes, root);
        answers.bytes(copies.build());
    }
    let mut object = ObjectBuilder::new(alloc);
    let _ = object.push_document("k", bytes);
    answers.bytes(object.build());
    let mut events = DocumentBuilder::new(alloc);
    let _ = events.document(bytes);
    if let Ok(document) = events.finish() {
        answers.bytes(Ok(document));
    }
}

/// Selections by a path, in both modes.
pub(super) fn ask_path(
    alloc: Global,
    bytes: &[u8],
    text: &str,
    answers: &mut Answers,
) -> Result<(), Error> {
    let path = parse_json_path(alloc, text.as_bytes())?;
    ask_by_path(alloc, bytes, &path, answers);
    ask_strict(alloc, bytes, &path, answers);
    Ok(())
}

/// Selections through the trait.
fn ask_by_path<'a>(alloc: Global, bytes: &'a [u8], path: &'a JsonPath<'_>, answers: &mut Answers) {
    let raw = RawJsonb::new(bytes);
    answers.each(raw.select_by_path(alloc, path));
    answers.one(raw.select_array_by_path(alloc, path));
    answers.found(raw.select_first_by_path(alloc, path));
    answers.found(raw.select_value_by_path(alloc, path));
    let _ = raw.path_exists(alloc, path);
    let _ = raw.path_match(alloc, path);
}

/// Documents of the items that a strict selector finds in place.
fn found_documents<'a>(
    alloc: Global,
    bytes: &'a [u8],
    path: &'a JsonPath<'_>,
) -> Result<Vec<OwnedJsonb>, Error> {
    let raw = RawJsonb::new(bytes);
    let mut documents = Vec::new(alloc);
    for item in &Selector::new_strict(alloc, raw).find_values(path)? {
        documents.push(item.to_document(alloc, &raw)?)?;
    }
    Ok(documents)
}

/// Selections of a strict selector, which is used again.
fn ask_strict<'a>(alloc: Global, bytes: &'a [u8], path: &'a JsonPath<'_>, answers: &mut Answers) {
    let mut selector = Selector::new_strict(alloc, RawJsonb::new(bytes));
    answers.each(selector.select_values(path));
    answers.each(found_documents(alloc, bytes, path));
    answers.one(selector.select_array(path));
    answers.found(selector.select_first(path));
    answers.found(selector.select_value(path));
    let _ = selector.find_first(path);
    let _ = selector.exists(path);
    let _ = selector.predicate_match(path);
}
