//! The names of the statuses.

ghost use Rattle.std.specs.Prelude.{◌≡◌, option_copied};
ghost use Rattle.jsonb_c.specs.Answers.{DeliversBytes, DeliversNothing};
ghost use Rattle.jsonb_c.specs.Private.Numbers.{status_name};
ghost use Rattle.jsonb_c.specs.Status.{code, number_and_name};
ghost use Rattle.jsonb_c.specs.declared.status.Status.{Status};
ghost use Rattle.jsonb_c.specs.declared.status.Status.TheVariants.{Absent};

use crate::deliver::deliver_found_text;

/// Returns the name of a status, as in the header.
#[unsafe(no_mangle)]
pub extern "C" fn jdoc_status_name(status: u32, out: &mut [u8], out_len: &mut usize) -> u32
    ensures name { (s : Status) → code s ≡ status
        → DeliversBytes out.old out.new out_len.new result (number_and_name s).1 }
    ensures other { ((s : Status) → code s ≡ status → ⊥)
        → DeliversNothing out.old out.new out_len.new result Absent }
{
    deliver_found_text(Ok(name(status)), out, out_len)
}

fn name(status: u32) -> Option<&'static str>
    ensures { option_copied result ≡ status_name status }
{
    match status {
        0 => Some("JDOC_OK"),
        1 => Some("JDOC_NONE"),
        2 => Some("JDOC_BUFFER_TOO_SMALL"),
        3 => Some("JDOC_BAD_OFFSETS"),
        4 => Some("JDOC_NOT_UTF8"),
        5 => Some("JDOC_NO_PATH"),
        6 => Some("JDOC_COMPUTED"),
        7 => Some("JDOC_OUT_OF_ORDER"),
        16 => Some("JDOC_INVALID_JSONB"),
        17 => Some("JDOC_UNSUPPORTED_NUMBER"),
        18 => Some("JDOC_INVALID_JSON_PATH"),
        19 => Some("JDOC_INVALID_KEY_PATH"),
        20 => Some("JDOC_INVALID_CAST"),
        21 => Some("JDOC_INVALID_OBJECT"),
        22 => Some("JDOC_INVALID_JSON_TYPE"),
        23 => Some("JDOC_OBJECT_DUPLICATE_KEY"),
        24 => Some("JDOC_TOO_LARGE"),
        25 => Some("JDOC_TOO_DEEP"),
        26 => Some("JDOC_OUT_OF_MEMORY"),
        27 => Some("JDOC_STRICT_PATH"),
        28 => Some("JDOC_PATH_FAILED"),
        29 => Some("JDOC_LIMIT_EXCEEDED"),
        48 => Some("JDOC_OVERFLOW"),
        49 => Some("JDOC_ZERO_DIVISOR"),
        50 => Some("JDOC_INEXACT"),
        51 => Some("JDOC_DECIMAL_OPERAND"),
        _ => None,
    }
}
