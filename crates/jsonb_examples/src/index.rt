//! An index of documents by two values, over sortable keys.
//!
//! Each key is composed of the sortable keys of both values. Such keys compare as the pairs of values do, if these
//! contain no extension value. A missing value is below every other.

use jsonb::{Error, JsonPath, RawJsonb, SelectByPath, composite_key, parse_json_path};
use std::alloc::Global;
use std::collections::BTreeMap;

/// The documents by their values at two paths.
#[derive(Drop)]
pub struct Index<'p> {
    first: JsonPath<'p>,
    second: JsonPath<'p>,
    entries: BTreeMap<Vec<u8>, Vec<u64>>,
}

impl<'p> Index<'p> {
    /// Creates an index on two paths, without documents.
    pub fn new(alloc: Global, first: &'p str, second: &'p str) -> Result<Index<'p>, Error> {
        Ok(Index {
            first: parse_json_path(alloc, first.as_bytes())?,
            second: parse_json_path(alloc, second.as_bytes())?,
            entries: BTreeMap::new(alloc),
        })
    }

    /// Files a document under its number.
    pub fn insert(
        &mut self,
        alloc: Global,
        number: u64,
        document: &RawJsonb<'_>,
    ) -> Result<(), Error> {
        let first = document.select_first_by_path(alloc, &self.first)?;
        let second = document.select_first_by_path(alloc, &self.second)?;
        let values = [
            first.as_ref().map(|it| it.as_raw()),
            second.as_ref().map(|it| it.as_raw()),
        ];
        let key = composite_key(alloc, &values)?;
        match self.entries.get_mut(&key) {
            Some(numbers) => numbers.push(number)?,
            None => {
                self.entries.insert(key, vec![in alloc; number]?)?;
            }
        }
        Ok(())
    }

    /// Returns the numbers of the documents whose first value is at least `low` and below `high`, by ascending values.
    pub fn range(
        &self,
        alloc: Global,
        low: &RawJsonb<'_>,
        high: &RawJsonb<'_>,
    ) -> Result<Vec<u64>, Error> {
        let low = low.convert_to_comparable(alloc)?;
        let high = high.convert_to_comparable(alloc)?;
        let mut found = Vec::new(alloc);
        for (key, numbers) in self.entries.range(low..) {
            if *key >= high {
                break;
            }
            found.extend_from_slice(numbers.as_slice())?;
        }
        Ok(found)
    }
}

#[cfg(test)]
mod tests {
    use super::*;
    use crate::documents::{ANN, BOB, CYD, SEVENTY, THIRTY, expect};

    #[test]
    fn people_by_age_and_name(rt: HostRuntime) -> Result<(), Error> {
        let alloc = rt.alloc();
        let mut index = Index::new(alloc, "$.age", "$.name")?;
        for (number, person) in [(1, ANN), (2, BOB), (3, CYD), (4, BOB)] {
            index.insert(alloc, number, &RawJsonb::new(person))?;
        }
        let found = index.range(alloc, &RawJsonb::new(THIRTY), &RawJsonb::new(SEVENTY))?;
        expect(&rt, found.as_slice(), [2, 4, 1].as_slice());
        Ok(())
    }
}
