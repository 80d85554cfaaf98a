//! Results of calls: the statuses, and their numbers.

ghost use Rattle.std.specs.Prelude.{◌≡◌};
ghost use Rattle.jsonb_c.specs.Private.Views.{text_refusal};
ghost use Rattle.jsonb_c.specs.Status.{code};
ghost use Rattle.jsonb_c.specs.declared.status.Status.TheVariants.{Refused};

use jsonb::{ArithmeticFault, Error};

/// The result of a call.
#[derive(Clone, Copy, Debug, PartialEq, Eq)]
pub(crate) enum Status {
    /// The call succeeded.
    Answered,
    /// There is no such value.
    Absent,
    /// The buffer is too small for the result.
    BufferTooSmall,
    /// Offsets decrease, or exceed the data.
    BadOffsets,
    /// A name is not UTF-8.
    NotUtf8,
    /// The handle keeps no such path.
    NoPath,
    /// The item is computed, and is not in the document.
    Computed,
    /// The event cannot come next.
    OutOfOrder,
    /// The text is not a JSON path.
    NotJsonPath,
    /// The bound of the path on this document is above its limit.
    LimitExceeded,
    /// The call failed. Of `InvalidJsonPath`: a path failed on a document.
    Refused(Error),
}

impl From<Error> for Status {
    ghost use Rattle.jsonb_c.specs.declared.status.Status.TheVariants.{Refused};

    ghost from_gives = { λ error status. status ≡ Refused error };

    fn from(error: Error) -> Status {
        Status::Refused(error)
    }
}

impl Status {
    /// Returns the status of text that was not parsed.
    pub(crate) fn of_text(error: Error) -> Status
        ensures { result ≡ text_refusal error }
    {
        match error {
            Error::InvalidJsonPath => Status::NotJsonPath,
            _ => Status::Refused(error),
        }
    }

    /// Returns the number of the status.
    pub(crate) fn to_u8(self) -> u8
        ensures { result ≡ code self }
    {
        match self {
            Status::Answered => 0,
            Status::Absent => 1,
            Status::BufferTooSmall => 2,
            Status::BadOffsets => 3,
            Status::NotUtf8 => 4,
            Status::NoPath => 5,
            Status::Computed => 6,
            Status::OutOfOrder => 7,
            Status::NotJsonPath => 18,
            Status::LimitExceeded => 29,
            Status::Refused(error) => refusal_code(error),
        }
    }

    /// Returns the number of the status.
    pub(crate) fn to_u32(self) -> u32
        ensures { result ≡ code self }
    {
        u32::from(self.to_u8())
    }
}

/// Returns the number of an error.
fn refusal_code(error: Error) -> u8
    ensures { result ≡ code (Refused error) }
{
    match error {
        Error::InvalidJsonb => 16,
        Error::UnsupportedNumber => 17,
        Error::InvalidKeyPath => 19,
        Error::InvalidCast => 20,
        Error::InvalidObject => 21,
        Error::InvalidJsonType => 22,
        Error::ObjectDuplicateKey => 23,
        Error::TooLarge => 24,
        Error::TooDeep => 25,
        Error::OutOfMemory => 26,
        Error::StrictPath => 27,
        Error::InvalidJsonPath => 28,
        Error::Arithmetic(ArithmeticFault::Overflow) => 48,
        Error::Arithmetic(ArithmeticFault::ZeroDivisor) => 49,
        Error::Arithmetic(ArithmeticFault::Inexact) => 50,
        Error::Arithmetic(ArithmeticFault::DecimalOperand) => 51,
    }
}
