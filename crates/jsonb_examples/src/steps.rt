//! Key paths that are stored, joined and cut, and text that is read token by token.

use jsonb::{
    Error, KeyPath, KeyPaths, OwnedJsonb, OwnedKeyPath, OwnedKeyPaths, RawJsonb, parse_key_paths,
    read_name, read_quoted,
};
use std::alloc::Global;
use std::borrow::CowStr;

/// Parses a key path that outlives its text.
pub fn stored(alloc: Global, text: &str) -> Result<OwnedKeyPaths, Error> {
    let path = parse_key_paths(alloc, text.as_bytes())?;
    path.to_owned(alloc)
}

/// Returns the value at a stored key path, or `None` if there is none.
pub fn value_at(
    alloc: Global,
    document: &RawJsonb<'_>,
    path: &OwnedKeyPaths,
) -> Result<Option<OwnedJsonb>, Error> {
    let steps = path.as_key_paths(alloc)?;
    document.get_by_keypath(alloc, steps.paths.iter())
}

/// Returns the value that one step of a stored key path locates, or `None` if there is none.
pub fn child_at(
    alloc: Global,
    document: &RawJsonb<'_>,
    step: &OwnedKeyPath,
) -> Result<Option<OwnedJsonb>, Error> {
    let steps = [step.as_key_path()];
    document.get_by_keypath(alloc, steps.iter())
}

/// Returns a key path with a key after its steps.
pub fn with_key<'a>(
    alloc: Global,
    path: &KeyPaths<'a>,
    key: &'a str,
) -> Result<KeyPaths<'a>, Error> {
    let step = KeyPath::QuotedName(CowStr::Borrowed(key));
    let mut longer = path.clone(alloc)?;
    longer.paths.push(step)?;
    Ok(longer)
}

/// Returns a key path without its last step, or `None` if it has no steps.
pub fn parent<'a>(alloc: Global, path: &KeyPaths<'a>) -> Result<Option<KeyPaths<'a>>, Error> {
    let Some((_, steps)) = path.paths.split_last() else {
        return Ok(None);
    };
    let mut kept = Vec::new(alloc);
    for step in steps {
        kept.push(step.clone(alloc)?)?;
    }
    Ok(Some(KeyPaths { paths: kept }))
}

/// Appends a step to a stored key path.
pub fn append(alloc: Global, path: &mut OwnedKeyPaths, step: &KeyPath<'_>) -> Result<(), Error> {
    let step = step.to_owned(alloc)?;
    path.paths.push(step)?;
    Ok(())
}

/// Returns a stored key path with the steps of another after its own.
pub fn joined(
    alloc: Global,
    path: &OwnedKeyPaths,
    rest: &OwnedKeyPaths,
) -> Result<OwnedKeyPaths, Error> {
    let mut joined = path.clone(alloc)?;
    for step in &rest.paths {
        let step = step.clone(alloc)?;
        joined.paths.push(step)?;
    }
    Ok(joined)
}

/// Reads an assignment such as `port=8080` or `"log level"=info`. Returns the name and the text of the value.
pub fn assignment(
    alloc: Global,
    text: &[u8],
) -> Result<Option<(CowStr<'_, Global>, &[u8])>, Error> {
    let found = match read_quoted(alloc, text)? {
        Some(quoted) => Some(quoted),
        None => read_name(alloc, text)?,
    };
    let Some((name, rest)) = found else {
        return Ok(None);
    };
    match rest.split_first() {
        Some((first, value)) if *first == b'=' => Ok(Some((name, value))),
        _ => Ok(None),
    }
}

#[cfg(test)]
mod tests {
    use super::*;
    use crate::documents::{CONFIGURATION, PORT_8080, SERVER, expect};

    #[test]
    fn stored_paths_locate_values(rt: HostRuntime) -> Result<(), Error> {
        let alloc = rt.alloc();
        let file = RawJsonb::new(CONFIGURATION);
        let path = stored(alloc, "{server,port}")?;
        let port = value_at(alloc, &file, &path)?;
        expect(&rt, port.map(|it| it.to_vec()).as_deref(), Some(PORT_8080));
        let missing = stored(alloc, "{server,user}")?;
        assert!(rt; value_at(alloc, &file, &missing)?.is_none());
        Ok(())
    }

    #[test]
    fn a_step_locates_a_value(rt: HostRuntime) -> Result<(), Error> {
        let alloc = rt.alloc();
        let path = stored(alloc, "{server,port}")?;
        let first = path.paths.first().expect(&rt, "no step");
        let server = child_at(alloc, &RawJsonb::new(CONFIGURATION), first)?;
        expect(&rt, server.map(|it| it.to_vec()).as_deref(), Some(SERVER));
        Ok(())
    }

    #[test]
    fn paths_are_joined_and_cut(rt: HostRuntime) -> Result<(), Error> {
        let alloc = rt.alloc();
        let server = parse_key_paths(alloc, b"{server}")?;
        let port = with_key(alloc, &server, "port")?;
        expect(&rt, parent(alloc, &port)?, Some(server));
        expect(&rt, port, parse_key_paths(alloc, b"{server,\"port\"}")?);
        let root = parse_key_paths(alloc, b"{}")?;
        expect(&rt, parent(alloc, &root)?, None);
        Ok(())
    }

    #[test]
    fn stored_paths_are_joined(rt: HostRuntime) -> Result<(), Error> {
        let alloc = rt.alloc();
        let mut log = joined(alloc, &stored(alloc, "{log}")?, &stored(alloc, "{levels}")?)?;
        append(alloc, &mut log, &KeyPath::Index(0))?;
        expect(&rt, log, stored(alloc, "{log,levels,0}")?);
        Ok(())
    }

    #[test]
    fn assignments_are_read(rt: HostRuntime) -> Result<(), Error> {
        for (text, name, value) in [
            (b"port=8080".as_slice(), "port", b"8080".as_slice()),
            (b"\"log level\"=info", "log level", b"info"),
            (b"\\u0061b=", "ab", b""),
        ] {
            let found = assignment(rt.alloc(), text)?;
            let (found, rest) = found.expect(&rt, "no assignment");
            expect(&rt, found.as_str(), name);
            expect(&rt, rest, value);
        }
        assert!(rt; assignment(rt.alloc(), b"=8080")?.is_none());
        assert!(rt; assignment(rt.alloc(), b"port")?.is_none());
        Ok(())
    }
}
