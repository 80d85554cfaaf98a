//! Why a run ended before it had read all lines.

use std::io::ErrorKind;
use std::{fmt, io};

/// What failed before all lines were read. It prints as what the user reads.
#[derive(Clone, Copy, Debug)]
pub enum Fault {
    /// The arguments cannot be read.
    Arguments(io::Error),
    /// The line of standard input with this number cannot be read.
    Input(u64, io::Error),
    /// Standard output cannot be written.
    Output(io::Error),
}

impl fmt::Display for Fault {
    fn fmt<W: fmt::Write>(&self, f: &mut fmt::Formatter<W>) -> fmt::Result {
        match self {
            Fault::Arguments(error) if error.kind() == ErrorKind::InvalidData => {
                f.write_str("the arguments cannot be read: one is not UTF-8")
            }
            Fault::Arguments(error) => write!(f, "the arguments cannot be read: {error}"),
            Fault::Input(line, error) => write!(f, "line {line} cannot be read: {error}"),
            Fault::Output(error) => write!(f, "the output cannot be written: {error}"),
        }
    }
}
