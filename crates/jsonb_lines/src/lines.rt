//! The engine: from lines of documents to lines of results and an exit status.

use crate::answer::answer;
use crate::fault::Fault;
use crate::problem::Problem;
use crate::question::Question;
use std::alloc::Global;
use std::io;
use std::io::{BufRead, Write};

/// Each document had a result.
const SUCCESS: u8 = 0;

/// A path or a document was rejected.
const REFUSED: u8 = 1;

/// The arguments are not a command, or a line is not hexadecimal.
const USAGE: u8 = 2;

/// What is printed to standard error if the arguments are not a command.
const COMMANDS: &str = "\
usage: jsonb_lines COMMAND [PATH] < documents
  get KEYPATH   the value at the key path, as a document, or none
  select PATH   a line for each document that the JSON path selects, or none
  match PATH    true, false or unknown, of a path that is a predicate
  key           the document's sortable key
Each line of documents is one in hexadecimal.";

/// Writes the result for each document, and returns the greatest status of all lines.
///
/// A document that fails has one line, `refused: ` with the error's text, or `usage` if it is not hexadecimal, and
/// the next one is read. Arguments that are not a command, and a path that does not parse, end the run with their
/// line before a document is read. What is wrong is printed to `errors`, with the number of the line. If it cannot be
/// written there, the status alone reports it.
pub fn answer_lines<I: BufRead + Drop, W: Write, E: Eprint>(
    alloc: Global,
    words: &[String],
    input: I,
    out: &mut W,
    errors: &E,
) -> Result<u8, Fault> {
    let question = match Question::read(alloc, words) {
        Ok(Some(question)) => question,
        Ok(None) => {
            let _unwritten = errors.eprintln(COMMANDS);
            out.write_all(b"usage\n").map_err(Fault::Output)?;
            return Ok(USAGE);
        }
        Err(problem) => {
            let _unwritten = eprintln!(errors; "jsonb_lines: {problem}");
            return refuse(problem, out).map_err(Fault::Output);
        }
    };
    let mut status = SUCCESS;
    let mut number: u64 = 0;
    for line in input.lines(alloc) {
        number = number.saturating_add(1);
        let line = line.map_err(|error| Fault::Input(number, error))?;
        match answer(alloc, &question, line.as_str()) {
            Ok(lines) => out
                .write_all(lines.as_str().as_bytes())
                .map_err(Fault::Output)?,
            Err(problem) => {
                let _unwritten = eprintln!(errors; "jsonb_lines: line {number}: {problem}");
                status = status.max(refuse(problem, out).map_err(Fault::Output)?);
            }
        }
    }
    Ok(status)
}

/// Writes the line of a problem, and returns its status.
fn refuse<W: Write>(problem: Problem, out: &mut W) -> io::Result<u8> {
    let Some(error) = problem.error() else {
        out.write_all(b"usage\n")?;
        return Ok(USAGE);
    };
    writeln!(out, "refused: {error}")?;
    Ok(REFUSED)
}

#[cfg(test)]
mod tests {
    use super::*;
    use jsonb::Error;
    use std::cell::RefCell;
    use std::fmt::Display;
    use std::io::ErrorKind;

    /// Standard error, in memory.
    #[derive(Drop)]
    struct Errors {
        text: RefCell<String>,
    }

    impl Eprint for Errors {
        fn eprint<D: Display + Drop>(&self, value: D) -> io::Result<()> {
            match self.text.try_borrow_mut() {
                Ok(mut text) => Ok(write!(text, "{value}")?),
                Err(_) => Err(io::Error::from(ErrorKind::Other)),
            }
        }

        fn eprintln<D: Display + Drop>(&self, value: D) -> io::Result<()> {
            self.eprint(value)?;
            self.eprint("\n")
        }
    }

    /// A writer of which each write fails.
    #[derive(Drop)]
    struct Full;

    impl Write for Full {
        fn write(&mut self, _buf: &[u8]) -> io::Result<usize> {
            Err(io::Error::from(ErrorKind::StorageFull))
        }

        fn flush(&mut self) -> io::Result<()> {
            Ok(())
        }
    }

    /// Returns what a run prints to standard error, after its result.
    fn run<W: Write>(
        alloc: Global,
        texts: &[&str],
        input: &[u8],
        out: &mut W,
    ) -> Result<(Result<u8, Fault>, String), Error> {
        let mut words = Vec::new(alloc);
        for text in texts {
            words.push(String::from_str(alloc, text)?)?;
        }
        let errors = Errors {
            text: RefCell::new(String::new(alloc)),
        };
        let status = answer_lines(alloc, words.as_slice(), input, out, &errors);
        Ok((status, errors.text.into_inner()))
    }

    const DOCUMENTS: &[u8] = b"80000001200000025001\n800000\n8\n20000000200000025005\n2000000g\n";

    /// What standard error says of them.
    const PROBLEMS: &str = "\
jsonb_lines: line 2: not a document
jsonb_lines: line 3: not hexadecimal: Odd number of digits
jsonb_lines: line 5: not hexadecimal: Invalid character 'g' at position 7";

    /// The arguments, what is printed to standard output, the status, and what is printed to standard error.
    type Row = (&'static [&'static str], &'static str, u8, &'static str);

    const ROWS: [Row; 7] = [
        (
            &["select", "$[*]"],
            "20000000200000025001\nrefused: InvalidJsonb\nusage\n20000000200000025005\nusage\n",
            2,
            PROBLEMS,
        ),
        (
            &["match", "$ == 5"],
            "false\nrefused: InvalidJsonb\nusage\ntrue\nusage\n",
            2,
            PROBLEMS,
        ),
        (
            &["get", "{0}"],
            "20000000200000025001\nrefused: InvalidJsonb\nusage\nnone\nusage\n",
            2,
            PROBLEMS,
        ),
        (
            &["select", "$.a["],
            "refused: InvalidJsonPath\n",
            1,
            "jsonb_lines: not a JSON path: error at byte 3",
        ),
        (
            &["get", "{1a}"],
            "refused: InvalidKeyPath\n",
            1,
            "jsonb_lines: not a key path: error at byte 2",
        ),
        (&["delete", "{0}"], "usage\n", 2, COMMANDS),
        (&["key", "{0}"], "usage\n", 2, COMMANDS),
    ];

    #[test]
    fn each_line_has_its_answer(rt: HostRuntime) -> Result<(), Error> {
        for (words, wanted, status, problems) in &ROWS {
            let mut out = Vec::new(rt.alloc());
            let (answer, printed) = run(rt.alloc(), words, DOCUMENTS, &mut out)?;
            assert_eq!(rt; out.as_slice(), wanted.as_bytes(), "{words:?}");
            assert_eq!(rt; answer.ok(), Some(*status), "{words:?}");
            assert_eq!(rt;
                printed.as_str().strip_suffix("\n"),
                Some(*problems),
                "{words:?}"
            );
        }
        Ok(())
    }

    /// A path that fails on some documents, and its problems.
    #[test]
    fn a_path_that_fails_on_documents(rt: HostRuntime) -> Result<(), Error> {
        let mut out = Vec::new(rt.alloc());
        let input = b"20000000200000025005\n80000000\n200000002000000100\n".as_slice();
        let (answer, printed) = run(rt.alloc(), &["select", "10 / $"], input, &mut out)?;
        assert_eq!(rt; answer.ok(), Some(1));
        assert_eq!(rt;
            printed.as_str(),
            "\
jsonb_lines: line 2: the JSON path cannot be evaluated on this document
jsonb_lines: line 3: arithmetic of the JSON path fails on this document
"
        );
        Ok(())
    }

    /// Returns what a run says that ends before all lines are read.
    fn fault_of<W: Write>(alloc: Global, input: &[u8], out: &mut W) -> Result<String, Error> {
        let (answer, printed) = run(alloc, &["key"], input, out)?;
        match answer {
            Ok(status) => Ok(format!(in alloc; "status {status}, {printed}")?),
            Err(fault) => Ok(format!(in alloc; "{fault}")?),
        }
    }

    #[test]
    fn a_fault_says_what_failed(rt: HostRuntime) -> Result<(), Error> {
        let mut out = Vec::new(rt.alloc());
        let input = b"20000000200000025005\n\xff\n".as_slice();
        let said = fault_of(rt.alloc(), input, &mut out)?;
        assert_eq!(rt;
            said.as_str(),
            "line 2 cannot be read: stream did not contain valid UTF-8"
        );
        let said = fault_of(rt.alloc(), DOCUMENTS, &mut Full)?;
        assert_eq!(rt;
            said.as_str(),
            "the output cannot be written: no storage space"
        );
        Ok(())
    }
}
