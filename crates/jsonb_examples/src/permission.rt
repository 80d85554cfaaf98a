//! Containment as a test of permissions.

use jsonb::{Error, RawJsonb};

/// Returns `true` if one of the grants contains the request. Does not allocate.
pub fn is_granted(grants: &[RawJsonb<'_>], request: &RawJsonb<'_>) -> Result<bool, Error> {
    for grant in grants {
        if grant.contains(request)? {
            return Ok(true);
        }
    }
    Ok(false)
}

#[cfg(test)]
mod tests {
    use super::*;
    use crate::documents::{EDITOR, READER, WRITE_API, WRITE_GUIDE, expect};

    #[test]
    fn an_editor_writes_the_guide_alone(rt: HostRuntime) -> Result<(), Error> {
        let grants = [READER, EDITOR].map(RawJsonb::new);
        for (request, wanted) in [(WRITE_GUIDE, true), (WRITE_API, false), (READER, true)] {
            let granted = is_granted(grants.as_slice(), &RawJsonb::new(request))?;
            expect(&rt, granted, wanted);
        }
        Ok(())
    }
}
