//! The error of an event.

ghost use Rattle.std.specs.Prelude.{◌≡◌, Some};
ghost use Rattle.jsonb_doc.specs.EventErrorText.{event_error_text};
ghost use Rattle.jsonb_doc.specs.declared.error.Error.TheVariants.{OutOfMemory};
ghost use Rattle.jsonb_doc.specs.declared.event_error.EventError.TheVariants.{Failed};

use crate::error::Error;
use std::alloc::{AllocError, AllocFailed};
use std::fmt;

/// Why an event was rejected. It prints as the name of the error.
#[derive(Clone, Copy, Debug, PartialEq, Eq)]
pub enum EventError {
    /// The event cannot come next, such as a value without a key in an object.
    OutOfOrder,
    /// The value cannot be added.
    Failed(Error),
}

impl fmt::Display for EventError {
    ghost output = { λ e. Some (event_error_text e) };

    fn fmt<W: fmt::Write>(&self, f: &mut fmt::Formatter<W>) -> fmt::Result {
        match self {
            EventError::OutOfOrder => f.write_str("OutOfOrder"),
            EventError::Failed(error) => write!(f, "{error}"),
        }
    }
}

impl std::error::Error for EventError {}

impl From<Error> for EventError {
    ghost from_gives = { λ error e. e ≡ Failed error };

    fn from(error: Error) -> EventError {
        EventError::Failed(error)
    }
}

impl From<AllocError> for EventError {
    ghost from_gives = { λ _ e. e ≡ Failed OutOfMemory };

    fn from(error: AllocError) -> EventError {
        EventError::Failed(Error::from(error))
    }
}

impl<T: Drop> From<AllocFailed<T>> for EventError {
    ghost from_gives = { λ _ e. e ≡ Failed OutOfMemory };

    fn from(error: AllocFailed<T>) -> EventError {
        EventError::Failed(Error::from(error))
    }
}

#[cfg(test)]
mod tests {
    use super::EventError;
    use crate::error::Error;
    use crate::number_text::tests::prints;
    use crate::reading::tests::expect_ok;

    #[test]
    fn prints_names(rt: HostRuntime) {
        for (error, text) in [
            (EventError::OutOfOrder, "OutOfOrder"),
            (EventError::Failed(Error::TooLarge), "TooLarge"),
        ] {
            expect_ok(&rt, prints(rt.alloc(), error, text), text);
        }
    }
}
