//! The errors of all calls.

ghost use Rattle.std.specs.Prelude.{◌≡◌, Some};
ghost use Rattle.jsonb_doc.specs.ErrorText.{error_text, fault_text};
ghost use Rattle.jsonb_doc.specs.declared.error.Error.TheVariants.{OutOfMemory};

use std::alloc::{AllocError, AllocFailed};
use std::fmt;

/// Why an operation on numbers has no result. Its text is its name.
#[derive(Clone, Copy, Debug, PartialEq, Eq)]
pub enum ArithmeticFault {
    /// The result is below `i64::MIN` or above `u64::MAX`.
    Overflow,
    /// A division by zero, or a remainder by it.
    ZeroDivisor,
    /// A quotient that is not an integer.
    Inexact,
    /// An operand is a decimal other than zero.
    DecimalOperand,
}

/// The cause of a failed call. It prints as its name, with the fault of an `Arithmetic` in parentheses:
/// `Arithmetic(Overflow)`.
#[derive(Clone, Copy, Debug, PartialEq, Eq)]
pub enum Error {
    /// The bytes don't decode, for another cause than unsupported numbers alone.
    InvalidJsonb,
    /// A float or a decimal of 256 bits was read.
    UnsupportedNumber,
    /// A path's text is outside the grammar, or the path has no value.
    InvalidJsonPath,
    /// A key path's text is outside the grammar.
    InvalidKeyPath,
    /// The value has no such form.
    InvalidCast,
    /// The root is not an object, and the call needs one.
    InvalidObject,
    /// The root has no parts of the kind that is to be deleted.
    InvalidJsonType,
    /// The object has the key.
    ObjectDuplicateKey,
    /// An operation on numbers has no result.
    Arithmetic(ArithmeticFault),
    /// A count or a length exceeds the limits of the format: 2^29 - 1 elements or members, 2^28 - 1 bytes.
    TooLarge,
    /// An item is nested too deep for a sortable key, or deeper than the limit of `check_depth`.
    TooDeep,
    /// An allocation failed.
    OutOfMemory,
    /// A step of a path in strict mode does not apply to an item.
    StrictPath,
}

impl fmt::Display for ArithmeticFault {
    ghost output = { λ fault. Some (fault_text fault) };

    fn fmt<W: fmt::Write>(&self, f: &mut fmt::Formatter<W>) -> fmt::Result {
        f.write_str(match self {
            ArithmeticFault::Overflow => "Overflow",
            ArithmeticFault::ZeroDivisor => "ZeroDivisor",
            ArithmeticFault::Inexact => "Inexact",
            ArithmeticFault::DecimalOperand => "DecimalOperand",
        })
    }
}

impl fmt::Display for Error {
    ghost output = { λ e. Some (error_text e) };

    fn fmt<W: fmt::Write>(&self, f: &mut fmt::Formatter<W>) -> fmt::Result {
        match self {
            Error::InvalidJsonb => f.write_str("InvalidJsonb"),
            Error::UnsupportedNumber => f.write_str("UnsupportedNumber"),
            Error::InvalidJsonPath => f.write_str("InvalidJsonPath"),
            Error::InvalidKeyPath => f.write_str("InvalidKeyPath"),
            Error::InvalidCast => f.write_str("InvalidCast"),
            Error::InvalidObject => f.write_str("InvalidObject"),
            Error::InvalidJsonType => f.write_str("InvalidJsonType"),
            Error::ObjectDuplicateKey => f.write_str("ObjectDuplicateKey"),
            Error::Arithmetic(fault) => write!(f, "Arithmetic({fault})"),
            Error::TooLarge => f.write_str("TooLarge"),
            Error::TooDeep => f.write_str("TooDeep"),
            Error::OutOfMemory => f.write_str("OutOfMemory"),
            Error::StrictPath => f.write_str("StrictPath"),
        }
    }
}

impl std::error::Error for Error {}

impl From<AllocError> for Error {
    ghost from_gives = { λ _ e. e ≡ OutOfMemory };

    fn from(_error: AllocError) -> Error {
        Error::OutOfMemory
    }
}

impl<T: Drop> From<AllocFailed<T>> for Error {
    ghost from_gives = { λ _ e. e ≡ OutOfMemory };

    fn from(_error: AllocFailed<T>) -> Error {
        Error::OutOfMemory
    }
}

#[cfg(test)]
mod tests {
    use super::{ArithmeticFault, Error};
    use crate::number_text::tests::prints;
    use crate::reading::tests::expect_ok;

    static NAMES: [(Error, &str); 16] = rows! {
        Error::InvalidJsonb, "InvalidJsonb";
        Error::UnsupportedNumber, "UnsupportedNumber";
        Error::InvalidJsonPath, "InvalidJsonPath";
        Error::InvalidKeyPath, "InvalidKeyPath";
        Error::InvalidCast, "InvalidCast";
        Error::InvalidObject, "InvalidObject";
        Error::InvalidJsonType, "InvalidJsonType";
        Error::ObjectDuplicateKey, "ObjectDuplicateKey";
        Error::Arithmetic(ArithmeticFault::Overflow), "Arithmetic(Overflow)";
        Error::Arithmetic(ArithmeticFault::ZeroDivisor), "Arithmetic(ZeroDivisor)";
        Error::Arithmetic(ArithmeticFault::Inexact), "Arithmetic(Inexact)";
        Error::Arithmetic(ArithmeticFault::DecimalOperand), "Arithmetic(DecimalOperand)";
        Error::TooLarge, "TooLarge";
        Error::TooDeep, "TooDeep";
        Error::OutOfMemory, "OutOfMemory";
        Error::StrictPath, "StrictPath";
    };

    #[test]
    fn prints_names(rt: HostRuntime) {
        for (error, text) in &NAMES {
            expect_ok(&rt, prints(rt.alloc(), *error, text), *text);
        }
    }
}
