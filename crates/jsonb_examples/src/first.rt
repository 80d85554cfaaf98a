//! The first example of README.md.

use crate::documents::FRED;
use jsonb::{RawJsonb, SelectByPath, parse_json_path, parse_key_paths};

#[test]
fn first_example(rt: HostRuntime) -> Result<(), jsonb::Error> {
    let alloc = rt.alloc();
    let fred = RawJsonb::new(FRED);
    fred.check()?; // bytes from outside: checked once

    let home = parse_json_path(alloc, b"$.phones[*]?(@.type == \"home\").number")?;
    let numbers = fred.select_by_path(alloc, &home)?; // one document for each match
    assert_eq!(rt; numbers.len(), 1);

    let place = parse_key_paths(alloc, b"{phones,0}")?;
    let phone = fred.get_by_keypath(alloc, place.paths.iter())?; // a document, or None
    assert!(rt; phone.is_some());
    let edited = fred.delete_by_keypath(alloc, place.paths.iter())?; // a new document

    let key = edited.as_raw().convert_to_comparable(alloc)?; // sorts as the document does
    assert!(rt; key > fred.convert_to_comparable(alloc)?);
    Ok(())
}
