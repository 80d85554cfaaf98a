//! A configuration that is read and changed by key path.

use jsonb::{Error, OwnedJsonb, RawJsonb, key_path_error_position, parse_key_paths};
use std::alloc::Global;

/// Returns the setting at a key path such as `{server,port}`, or `None`.
pub fn setting(
    alloc: Global,
    configuration: &RawJsonb<'_>,
    path: &str,
) -> Result<Option<OwnedJsonb>, Error> {
    let steps = parse_key_paths(alloc, path.as_bytes())?;
    configuration.get_by_keypath(alloc, steps.paths.iter())
}

/// Returns what is wrong with a key path, or `None`.
pub fn mistake(alloc: Global, path: &str) -> Result<Option<String>, Error> {
    Ok(match key_path_error_position(alloc, path.as_bytes())? {
        Some(at) => Some(format!(in alloc; "not a key path: see byte {at} of {path}")?),
        None => None,
    })
}

/// Returns the port of the server, or `None` if it is missing or not a 64-bit unsigned integer.
pub fn port(alloc: Global, configuration: &RawJsonb<'_>) -> Result<Option<u64>, Error> {
    match setting(alloc, configuration, "{server,port}")? {
        Some(found) => found.as_raw().as_u64(),
        None => Ok(None),
    }
}

/// Returns the configuration without the setting at a key path, unchanged if there is none.
pub fn without_setting(
    alloc: Global,
    configuration: &RawJsonb<'_>,
    path: &str,
) -> Result<OwnedJsonb, Error> {
    let steps = parse_key_paths(alloc, path.as_bytes())?;
    configuration.delete_by_keypath(alloc, steps.paths.iter())
}

/// Returns the configuration with this value for a name in a section, new or in place of the old one.
pub fn with_setting(
    alloc: Global,
    configuration: &RawJsonb<'_>,
    section: &str,
    name: &str,
    value: &RawJsonb<'_>,
) -> Result<OwnedJsonb, Error> {
    let Some(old) = configuration.get_by_name(alloc, section, false)? else {
        return Err(Error::InvalidObject);
    };
    let new = old.as_raw().object_insert(alloc, name, value, true)?;
    configuration.object_insert(alloc, section, &new.as_raw(), true)
}

#[cfg(test)]
mod tests {
    use super::*;
    use crate::documents::{CONFIGURATION, PORT_80, WITH_PORT_80, WITHOUT_PORT, expect};

    #[test]
    fn a_port_is_read_set_and_taken_out(rt: HostRuntime) -> Result<(), Error> {
        let alloc = rt.alloc();
        let file = RawJsonb::new(CONFIGURATION);
        expect(&rt, port(alloc, &file)?, Some(8080));
        let set = with_setting(alloc, &file, "server", "port", &RawJsonb::new(PORT_80))?;
        expect(&rt, set.as_raw().as_bytes(), WITH_PORT_80);
        let taken = without_setting(alloc, &file, "{server,port}")?;
        expect(&rt, taken.as_raw().as_bytes(), WITHOUT_PORT);
        Ok(())
    }

    #[test]
    fn a_mistake_is_found(rt: HostRuntime) -> Result<(), Error> {
        let alloc = rt.alloc();
        expect(&rt, mistake(alloc, "{server,port}")?, None);
        let found = mistake(alloc, "{server port}")?.expect(&rt, "no mistake");
        expect(
            &rt,
            found.as_str(),
            "not a key path: see byte 8 of {server port}",
        );
        Ok(())
    }
}
