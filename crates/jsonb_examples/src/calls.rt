//! Functions on documents that the other examples do not call.

use jsonb::{
    Error, ExtensionValue, JsonPath, KeyPaths, OwnedJsonb, RawJsonb, SelectByPath, Value,
    composite_key_wide, push_column_key, push_column_key_wide,
};
use std::alloc::Global;
use std::cmp::Ordering;
use std::collections::BTreeSet;
use std::mem::swap;

/// Returns an owned copy of a document received from outside, or its error.
pub fn received(alloc: Global, bytes: &[u8]) -> Result<OwnedJsonb, Error> {
    let document = RawJsonb::new(bytes);
    document.check()?;
    let copy = Vec::from_slice(alloc, document.as_bytes())?;
    Ok(OwnedJsonb::new(copy))
}

/// Returns the largest of some documents, the first of equal ones, or `None` if there are none.
pub fn largest_of<'a>(documents: &[RawJsonb<'a>]) -> Result<Option<RawJsonb<'a>>, Error> {
    let [first, others @ ..] = documents else {
        return Ok(None);
    };
    let mut largest = *first;
    for document in others {
        if document.compare(&largest)? == Ordering::Greater {
            largest = *document;
        }
    }
    Ok(Some(largest))
}

/// Returns `true` if the document has a sortable key: no item is deeper than 255.
pub fn is_sortable(document: &RawJsonb<'_>) -> Result<bool, Error> {
    Ok(document.depth()? <= 255)
}

/// Appends a copy of a document to its earlier versions.
pub fn keep_version(
    alloc: Global,
    versions: &mut Vec<OwnedJsonb>,
    document: &OwnedJsonb,
) -> Result<(), Error> {
    versions.push(document.clone(alloc)?)?;
    Ok(())
}

/// Returns the bytes of the defaults with the settings of a user. A setting that is null removes its default.
pub fn settings(
    alloc: Global,
    defaults: &RawJsonb<'_>,
    user: &RawJsonb<'_>,
) -> Result<Vec<u8>, Error> {
    let merged = defaults.concat(alloc, user)?;
    let settings = merged.as_raw().strip_nulls(alloc)?;
    Ok(settings.to_vec())
}

/// Returns the tags that two users share, or `None` if they share none.
pub fn shared_tags(
    alloc: Global,
    tags: &RawJsonb<'_>,
    others: &RawJsonb<'_>,
) -> Result<Option<OwnedJsonb>, Error> {
    if !tags.array_overlap(others)? {
        return Ok(None);
    }
    let shared = tags.array_intersection(alloc, others)?;
    Ok(Some(shared))
}

/// Returns a queue with one more entry at its end, or `None` if it has `limit` entries or is not an array.
pub fn enqueued(
    alloc: Global,
    queue: &RawJsonb<'_>,
    entry: &RawJsonb<'_>,
    limit: usize,
) -> Result<Option<OwnedJsonb>, Error> {
    let Some(length) = queue.array_length()? else {
        return Ok(None);
    };
    if length >= limit {
        return Ok(None);
    }
    let longer = queue.array_insert(alloc, i32::MAX, entry)?;
    Ok(Some(longer))
}

/// Returns the first entry of a queue and the queue without it, or `None` if it is empty or not an array.
pub fn dequeued(
    alloc: Global,
    queue: &RawJsonb<'_>,
) -> Result<Option<(OwnedJsonb, OwnedJsonb)>, Error> {
    let Some(first) = queue.get_by_index(alloc, 0)? else {
        return Ok(None);
    };
    let rest = queue.delete_by_index(alloc, 0)?;
    Ok(Some((first, rest)))
}

/// Returns `true` if the documents are in sorted order. Two buffers serve for all keys.
pub fn is_sorted(alloc: Global, documents: &[RawJsonb<'_>]) -> Result<bool, Error> {
    let mut key = Vec::new(alloc);
    let mut last = Vec::new(alloc);
    for document in documents {
        document.convert_to_comparable_into(alloc, &mut key)?;
        if key < last {
            return Ok(false);
        }
        swap(&mut key, &mut last);
    }
    Ok(true)
}

/// Returns `true` if one document sorts before another. Both may be nested as deep as 65,535.
pub fn is_before(
    alloc: Global,
    first: &RawJsonb<'_>,
    second: &RawJsonb<'_>,
) -> Result<bool, Error> {
    let mut key = Vec::new(alloc);
    let mut other = Vec::new(alloc);
    first.convert_to_comparable_wide_into(alloc, &mut key)?;
    second.convert_to_comparable_wide_into(alloc, &mut other)?;
    Ok(key < other)
}

/// Returns the composite key of a row with two columns, either of which may be missing.
pub fn row_key(
    alloc: Global,
    first: Option<RawJsonb<'_>>,
    second: Option<RawJsonb<'_>>,
) -> Result<Vec<u8>, Error> {
    let mut key = Vec::new(alloc);
    push_column_key_wide(alloc, &mut key, first)?;
    push_column_key_wide(alloc, &mut key, second)?;
    Ok(key)
}

/// Returns `true` if a row, each of whose columns may be missing, sorts before another one.
pub fn is_row_before(
    alloc: Global,
    row: &[Option<RawJsonb<'_>>],
    other: &[Option<RawJsonb<'_>>],
) -> Result<bool, Error> {
    Ok(composite_key_wide(alloc, row)? < composite_key_wide(alloc, other)?)
}

/// Appends the first item that a path selects to a composite key.
pub fn push_selected(
    alloc: Global,
    key: &mut Vec<u8>,
    document: &RawJsonb<'_>,
    path: &JsonPath<'_>,
) -> Result<(), Error> {
    let value = document.select_first_by_path(alloc, path)?;
    push_column_key(alloc, key, value.as_ref().map(|it| it.as_raw()))
}

/// Returns the number of documents that differ by value.
pub fn distinct_count(alloc: Global, documents: &[RawJsonb<'_>]) -> Result<usize, Error> {
    let mut keys = BTreeSet::new(alloc);
    let mut key = Vec::new(alloc);
    for document in documents {
        document.equality_key_into(alloc, &mut key)?;
        if !keys.contains(&key) {
            keys.insert(key.clone()?)?;
        }
    }
    Ok(keys.len())
}

/// Returns the key paths of all values that equal this one, such as a name that is to be replaced.
pub fn paths_of<'a>(
    alloc: Global,
    document: &RawJsonb<'a>,
    value: &Value<'a>,
) -> Result<Vec<KeyPaths<'a>>, Error> {
    let mut paths = Vec::new(alloc);
    for (path, leaf) in document.extract_scalar_key_values(alloc, false)? {
        if leaf == *value {
            paths.push(path)?;
        }
    }
    Ok(paths)
}

/// Returns the SQL type of a column that can store a value.
pub fn column_type(value: &RawJsonb<'_>) -> Result<&'static str, Error> {
    if !value.is_extension_value()? {
        return Ok("JSONB");
    }
    if value.is_date()? {
        return Ok("DATE");
    }
    if value.is_timestamp()? {
        return Ok("TIMESTAMP");
    }
    if value.is_timestamp_tz()? {
        return Ok("TIMESTAMP WITH TIME ZONE");
    }
    if value.is_interval()? {
        return Ok("INTERVAL");
    }
    if value.is_binary()? {
        return Ok("BYTEA");
    }
    Ok("JSONB")
}

/// Returns the day of an invoice, or `None` if the value is not a date.
pub fn day(value: &RawJsonb<'_>) -> Result<Option<i32>, Error> {
    let date = value.as_date()?;
    Ok(date.map(|it| it.value))
}

/// Returns the microseconds of a timestamp, with a time zone or without one, or `None` if the value is not one.
pub fn microseconds(value: &RawJsonb<'_>) -> Result<Option<i64>, Error> {
    if let Some(time) = value.as_timestamp()? {
        return Ok(Some(time.value));
    }
    match value.as_timestamp_tz()? {
        Some(time) => Ok(Some(time.value)),
        None => Ok(None),
    }
}

/// Returns the months and the days of a period of notice, or `None` if the value is not an interval.
pub fn notice(value: &RawJsonb<'_>) -> Result<Option<(i32, i32)>, Error> {
    match value.as_interval()? {
        Some(period) => Ok(Some((period.months, period.days))),
        None => Ok(None),
    }
}

/// Returns the bytes of a thumbnail, or no bytes if the value is not binary.
pub fn thumbnail(alloc: Global, value: &RawJsonb<'_>) -> Result<Vec<u8>, Error> {
    match value.as_binary(alloc)? {
        Some(bytes) => Ok(bytes),
        None => Ok(Vec::new(alloc)),
    }
}

/// Returns the text of an extension value, for a log, or `None` if the value is of a JSON type.
pub fn extension_text(alloc: Global, value: &RawJsonb<'_>) -> Result<Option<String>, Error> {
    let Some(extension) = value.as_extension_value()? else {
        return Ok(None);
    };
    let text = match extension {
        ExtensionValue::Binary(bytes) => format!(in alloc; "{} bytes", bytes.len())?,
        ExtensionValue::Date(date) => format!(in alloc; "day {}", date.value)?,
        ExtensionValue::Timestamp(time) => format!(in alloc; "time {}", time.value)?,
        ExtensionValue::TimestampTz(time) => format!(in alloc; "time {}", time.value)?,
        ExtensionValue::Interval(span) => format!(in alloc; "{} months", span.months)?,
    };
    Ok(Some(text))
}

#[cfg(test)]
mod tests {
    use super::*;
    use crate::documents::{
        ALL_TAGS, DEFAULTS, FRED, NEW_TAGS, NEWS, OLD_TAGS, ONE, ONE_POINT_ZERO, REMOVED_TAGS,
        SETTINGS, SEVENTY, SHARED_TAGS, THIRTY, USER, WEATHER, expect,
    };
    use jsonb::parse_json_path;
    use std::borrow::CowStr;

    /// The date 1.
    const DATE: &[u8] = b"\x20\0\0\0\x60\0\0\x05\x10\0\0\0\x01";

    /// The timestamp -7.
    const TIMESTAMP: &[u8] = b"\x20\0\0\0\x60\0\0\x09\x20\xff\xff\xff\xff\xff\xff\xff\xf9";

    /// The timestamp 9 at the offset 8.
    const TIMESTAMP_TZ: &[u8] = b"\x20\0\0\0\x60\0\0\x0d\x30\0\0\0\x08\0\0\0\0\0\0\0\x09";

    /// An interval of 1 month, 2 days and 3 microseconds.
    const INTERVAL: &[u8] = b"\x20\0\0\0\x60\0\0\x11\x40\0\0\0\x01\0\0\0\x02\0\0\0\0\0\0\0\x03";

    /// The bytes 00 and ff.
    const BINARY: &[u8] = b"\x20\0\0\0\x60\0\0\x03\0\0\xff";

    /// Returns the bytes of a document, or no bytes if there is none.
    fn bytes_of(found: &Option<OwnedJsonb>) -> &[u8] {
        match found {
            Some(document) => document.as_raw().as_bytes(),
            None => b"",
        }
    }

    #[test]
    fn documents_are_received_and_kept(rt: HostRuntime) -> Result<(), Error> {
        let alloc = rt.alloc();
        let document = received(alloc, FRED)?;
        expect(&rt, document.as_raw().as_bytes(), FRED);
        assert!(rt; is_sortable(&document.as_raw())?);
        let mut versions = Vec::new(alloc);
        keep_version(alloc, &mut versions, &document)?;
        keep_version(alloc, &mut versions, &document)?;
        expect(&rt, versions.len(), 2);
        Ok(())
    }

    #[test]
    fn damaged_bytes_are_refused(rt: HostRuntime) {
        let refused = received(rt.alloc(), b"\x80\0\0");
        expect(&rt, refused.err(), Some(Error::InvalidJsonb));
    }

    #[test]
    fn settings_are_merged(rt: HostRuntime) -> Result<(), Error> {
        let merged = settings(rt.alloc(), &RawJsonb::new(DEFAULTS), &RawJsonb::new(USER))?;
        expect(&rt, merged.as_slice(), SETTINGS);
        Ok(())
    }

    #[test]
    fn tags_are_shared(rt: HostRuntime) -> Result<(), Error> {
        let alloc = rt.alloc();
        for (tags, shared) in [(NEW_TAGS, SHARED_TAGS), (REMOVED_TAGS, REMOVED_TAGS)] {
            let found = shared_tags(alloc, &RawJsonb::new(OLD_TAGS), &RawJsonb::new(tags))?;
            expect(&rt, bytes_of(&found), shared);
        }
        let none = shared_tags(
            alloc,
            &RawJsonb::new(NEW_TAGS),
            &RawJsonb::new(REMOVED_TAGS),
        )?;
        assert!(rt; none.is_none());
        Ok(())
    }

    #[test]
    fn entries_join_a_queue(rt: HostRuntime) -> Result<(), Error> {
        let alloc = rt.alloc();
        let (queue, entry) = (RawJsonb::new(OLD_TAGS), RawJsonb::new(WEATHER));
        for (limit, wanted) in [(3, ALL_TAGS), (2, b"".as_slice())] {
            let longer = enqueued(alloc, &queue, &entry, limit)?;
            expect(&rt, bytes_of(&longer), wanted);
        }
        assert!(rt; enqueued(alloc, &entry, &entry, 3)?.is_none());
        Ok(())
    }

    #[test]
    fn the_first_entry_leaves_a_queue(rt: HostRuntime) -> Result<(), Error> {
        let found = dequeued(rt.alloc(), &RawJsonb::new(OLD_TAGS))?;
        let (first, rest) = found.expect(&rt, "an empty queue");
        expect(&rt, first.as_raw().as_bytes(), NEWS);
        expect(&rt, rest.as_raw().as_bytes(), SHARED_TAGS);
        Ok(())
    }

    #[test]
    fn documents_are_ordered_by_their_keys(rt: HostRuntime) -> Result<(), Error> {
        let alloc = rt.alloc();
        let numbers = [ONE, ONE_POINT_ZERO, THIRTY].map(RawJsonb::new);
        assert!(rt; is_sorted(alloc, numbers.as_slice())?);
        expect(&rt, distinct_count(alloc, numbers.as_slice())?, 2);
        let (low, high) = (RawJsonb::new(THIRTY), RawJsonb::new(SEVENTY));
        assert!(rt; !is_sorted(alloc, [high, low].as_slice())?);
        assert!(rt; is_before(alloc, &low, &high)? && !is_before(alloc, &high, &low)?);
        Ok(())
    }

    #[test]
    fn the_largest_document_is_found(rt: HostRuntime) -> Result<(), Error> {
        let documents = [THIRTY, SEVENTY, THIRTY].map(RawJsonb::new);
        let largest = largest_of(documents.as_slice())?;
        expect(&rt, largest.map(|it| it.as_bytes()), Some(SEVENTY));
        assert!(rt; largest_of([].as_slice())?.is_none());
        Ok(())
    }

    #[test]
    fn rows_are_ordered_by_their_keys(rt: HostRuntime) -> Result<(), Error> {
        let alloc = rt.alloc();
        let one = Some(RawJsonb::new(ONE));
        let key = row_key(alloc, None, one)?;
        expect(
            &rt,
            key.as_slice(),
            b"\0\0\0\0\0\x04\x81\x03\xe9\x02\0".as_slice(),
        );
        assert!(rt; is_row_before(alloc, [None, one].as_slice(), [one, None].as_slice())?);
        Ok(())
    }

    #[test]
    fn a_missing_value_has_a_key(rt: HostRuntime) -> Result<(), Error> {
        let alloc = rt.alloc();
        let age = parse_json_path(alloc, b"$.age")?;
        let mut selected = Vec::new(alloc);
        push_selected(alloc, &mut selected, &RawJsonb::new(FRED), &age)?;
        expect(&rt, selected.as_slice(), b"\0\0".as_slice());
        Ok(())
    }

    #[test]
    fn a_value_is_found_by_its_key_path(rt: HostRuntime) -> Result<(), Error> {
        let alloc = rt.alloc();
        let home = Value::String(CowStr::Borrowed("home"));
        let paths = paths_of(alloc, &RawJsonb::new(FRED), &home)?;
        expect(&rt, paths.len(), 1);
        for path in &paths {
            expect(
                &rt,
                format!(in alloc; "{path}")?.as_str(),
                "{phones,0,type}",
            );
        }
        Ok(())
    }

    #[test]
    fn extension_values_are_read(rt: HostRuntime) -> Result<(), Error> {
        let alloc = rt.alloc();
        for (bytes, column, text) in [
            (DATE, "DATE", Some("day 1")),
            (TIMESTAMP, "TIMESTAMP", Some("time -7")),
            (TIMESTAMP_TZ, "TIMESTAMP WITH TIME ZONE", Some("time 9")),
            (INTERVAL, "INTERVAL", Some("1 months")),
            (BINARY, "BYTEA", Some("2 bytes")),
            (ONE, "JSONB", None),
        ] {
            let value = RawJsonb::new(bytes);
            expect(&rt, column_type(&value)?, column);
            let found = extension_text(alloc, &value)?;
            expect(&rt, found.as_ref().map(|it| it.as_str()), text);
        }
        Ok(())
    }

    #[test]
    fn extension_values_have_parts(rt: HostRuntime) -> Result<(), Error> {
        expect(&rt, day(&RawJsonb::new(DATE))?, Some(1));
        expect(&rt, day(&RawJsonb::new(ONE))?, None);
        expect(&rt, microseconds(&RawJsonb::new(TIMESTAMP))?, Some(-7));
        expect(&rt, microseconds(&RawJsonb::new(TIMESTAMP_TZ))?, Some(9));
        expect(&rt, notice(&RawJsonb::new(INTERVAL))?, Some((1, 2)));
        Ok(())
    }

    #[test]
    fn a_thumbnail_has_bytes(rt: HostRuntime) -> Result<(), Error> {
        expect(
            &rt,
            thumbnail(rt.alloc(), &RawJsonb::new(BINARY))?.as_slice(),
            b"\0\xff".as_slice(),
        );
        Ok(())
    }
}
