//! The version of the library for C, which differs from that of the crate `jsonb`.

ghost use Rattle.std.specs.Prelude.{◌≡◌, ◌+◌, ◌*◌};

/// Returns the version 0.1.0 as `JDOC_VERSION_NUMBER` in the header of this version: a million times the major number,
/// a thousand times the minor, and the patch.
#[unsafe(no_mangle)]
pub extern "C" fn jdoc_version() -> u32
    ensures { result ≡ 0 * 1000000 + 1 * 1000 + 0 }
{
    1_000
}
