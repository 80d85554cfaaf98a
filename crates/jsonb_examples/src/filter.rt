//! A path as a filter over a list of documents.

use jsonb::{Error, RawJsonb, SelectByPath, parse_json_path};
use std::alloc::Global;

/// Returns the documents for which the condition is true, in order.
///
/// Fails with `InvalidJsonPath` if the condition does not parse, and with the error of its evaluation on a document.
pub fn matching<'a>(
    alloc: Global,
    documents: &[RawJsonb<'a>],
    condition: &str,
) -> Result<Vec<RawJsonb<'a>>, Error> {
    let path = parse_json_path(alloc, condition.as_bytes())?;
    let mut found = Vec::new(alloc);
    for document in documents {
        if document.path_match(alloc, &path)? == Some(true) {
            found.push(*document)?;
        }
    }
    Ok(found)
}

#[cfg(test)]
mod tests {
    use super::*;
    use crate::documents::{ANN, BOB, CYD};

    #[test]
    fn people_of_fifty_or_more(rt: HostRuntime) -> Result<(), Error> {
        let alloc = rt.alloc();
        let people = [ANN, BOB, CYD].map(RawJsonb::new);
        for (condition, count) in [
            ("$.age >= 50", 1),
            ("$.age < 50 || exists($.name)", 3),
            ("$.name starts with \"B\"", 1),
            ("$.shoe == 43", 0),
        ] {
            let found = matching(alloc, people.as_slice(), condition)?;
            assert_eq!(rt; found.len(), count, "{condition}");
        }
        Ok(())
    }
}
