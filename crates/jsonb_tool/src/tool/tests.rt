//! Runs over a writer in memory: what they write, and their status.
use super::*;
use crate::problem::{Problem, explain};
use std::alloc::AllocError;
use std::io;
use std::io::ErrorKind;

/// A table: each row is a line, and a tuple.
macro_rules! rows {
    ($($($part:expr),+;)+) => { [$(($($part),+)),+] };
}

/// `[false, 10, {"k":"v"}]`
const ARRAY: &str = "8000000330000000200000025000000e500a4000000110000001100000016b76";

/// `[false, 10, {"k":"v"}]`, with digits in upper case
const ARRAY_IN_UPPER_CASE: &str =
    "8000000330000000200000025000000E500A4000000110000001100000016B76";

/// `[10,20,30]`
const TENS: &str = "80000003200000022000000220000002500a5014501e";

/// `[1,"a"]`
const NUMBER_THEN_TEXT: &str = "800000022000000210000001500161";

/// `[1]`
const ONE_ELEMENT: &str = "80000001200000025001";

const FIVE: &str = "20000000200000025005";

/// A float, which is not a number here.
const FLOAT: &str = "2000000020000009603ff8000000000000";

/// Bytes that end within a header.
const CUT: &str = "800000";

const CUT_REFUSED: &str = "refused: InvalidJsonb";

const FLOAT_REFUSED: &str = "refused: UnsupportedNumber";

/// The words of a command line, the line that is written or the lines, and the status.
type Row = (&'static [&'static str], &'static str, u8);

/// The words of a command line.
fn words_of(alloc: Global, texts: &[&str]) -> Result<Vec<String>, AllocError> {
    let mut words = Vec::new(alloc);
    for text in texts {
        words.push(String::from_str(alloc, text)?)?;
    }
    Ok(words)
}

/// Whether a run writes this one line and has this status.
fn answers(alloc: Global, texts: &[&str], line: &str, status: u8) -> Result<bool, AllocError> {
    let words = words_of(alloc, texts)?;
    let mut out = Vec::new(alloc);
    let answer = run(alloc, words.as_slice(), &mut out);
    Ok(answer == Ok(status) && out.as_slice().strip_suffix(b"\n") == Some(line.as_bytes()))
}

const GET: [Row; 14] = rows! {
    &["get", "{2,k}", ARRAY], "200000001000000176", 0;
    &["get", "{-1,k}", ARRAY], "200000001000000176", 0;
    &["get", " { 2 , \"k\" } ", ARRAY], "200000001000000176", 0;
    &["get", "{2,\\u006b}", ARRAY], "200000001000000176", 0;
    &["get", "{}", ARRAY], ARRAY, 0;
    &["get", "{}", ARRAY_IN_UPPER_CASE], ARRAY, 0;
    &["get", "{3}", ARRAY], "none", 0;
    &["get", "{-4}", ARRAY], "none", 0;
    &["get", "{-2147483648}", TENS], "none", 0;
    &["get", "{1a}", ARRAY], "refused: InvalidKeyPath", 1;
    &["get", "{1a}", CUT], "refused: InvalidKeyPath", 1;
    &["get", "{}", CUT], CUT_REFUSED, 1;
    &["get", "{}", ""], CUT_REFUSED, 1;
    &["get", "{}", FLOAT], FLOAT_REFUSED, 1;
};

/// What paths select, and what they say.
const PATHS: [Row; 18] = rows! {
    &["select", "1 == -1", ONE_ELEMENT], "2000000030000000", 0;
    &["match", "1 == -1", ONE_ELEMENT], "false", 0;
    &["select", "-1 == 1", ONE_ELEMENT], "refused: InvalidJsonPath", 1;
    &["select", "$[0] == 1 || $[1] == 1", NUMBER_THEN_TEXT], "2000000000000000", 0;
    &["match", "$[0] == 1 || $[1] == 1", NUMBER_THEN_TEXT], "unknown", 0;
    &["select", "7 - 10", ONE_ELEMENT], "200000002000000240fd", 0;
    &["match", "7 - 10", ONE_ELEMENT], "unknown", 0;
    &["select", "$ / 0", FIVE], "refused: Arithmetic(ZeroDivisor)", 1;
    &["match", "$ / 2", FIVE], "refused: Arithmetic(Inexact)", 1;
    &["select", "$ != null", FIVE], "2000000040000000", 0;
    &["match", "$[*] > 25", TENS], "true", 0;
    &["select", "$[last, 0]", TENS], "2000000020000002501e\n2000000020000002500a", 0;
    &["select", "$[-1]", TENS], "none", 0;
    &["select", "", ARRAY_IN_UPPER_CASE], ARRAY, 0;
    &["match", "$.a", ONE_ELEMENT], "unknown", 0;
    &["match", "$[1,]", CUT], "refused: InvalidJsonPath", 1;
    &["select", "$.a", CUT], CUT_REFUSED, 1;
    &["match", "$.a", FLOAT], FLOAT_REFUSED, 1;
};

const KEY: [Row; 6] = rows! {
    &["key", "20000000200000025001"], "00048103e90200", 0;
    &["key", "200000002000000100"], "000480", 0;
    &["key", "2000000000000000"], "0008", 0;
    &["key", ONE_ELEMENT], "000701048103e90200", 0;
    &["key", CUT], CUT_REFUSED, 1;
    &["key", FLOAT], FLOAT_REFUSED, 1;
};

const LEAVES: [Row; 13] = rows! {
    &["leaves", ARRAY], "2000000030000000 {0}\n2000000020000002500a {1}\n200000001000000176 {2,k}", 0;
    &["leaves", ARRAY_IN_UPPER_CASE], "2000000030000000 {0}\n2000000020000002500a {1}\n200000001000000176 {2,k}", 0;
    // {"a":null,"b":[null]}
    &["leaves", "400000021000000110000001000000005000000861628000000100000000"],
        "2000000000000000 {a}\n2000000000000000 {b,0}", 0;
    // [[],{}]
    &["leaves", "8000000250000004500000048000000040000000"], "80000000 {0}\n40000000 {1}", 0;
    // {"a b":1}
    &["leaves", "4000000110000003200000026120625001"], "20000000200000025001 {\"a b\"}", 0;
    // {"":null}
    &["leaves", "400000011000000000000000"], "2000000000000000 {\"\"}", 0;
    // [10] with its number in two bytes instead of one
    &["leaves", "800000012000000350000a"], "200000002000000350000a {0}", 0;
    &["leaves", FIVE], "none", 0;
    &["leaves", "80000000"], "none", 0;
    &["leaves", "40000000"], "none", 0;
    &["leaves", CUT], CUT_REFUSED, 1;
    &["leaves", ""], CUT_REFUSED, 1;
    &["leaves", FLOAT], FLOAT_REFUSED, 1;
};

/// Arguments that are not a command.
const OTHERS: [Row; 30] = rows! {
    &[], "usage", 2;
    &["get"], "usage", 2;
    &["get", "{}"], "usage", 2;
    &["get", "{}", ARRAY, ARRAY], "usage", 2;
    // half a byte
    &["get", "{}", "80000"], "usage", 2;
    // no digit
    &["get", "{}", "8000000g"], "usage", 2;
    // before the path is looked at
    &["get", "{1a}", "80000"], "usage", 2;
    &["key", "8000000g"], "usage", 2;
    &["key", "{}", ARRAY], "usage", 2;
    &["leaves"], "usage", 2;
    &["leaves", "8000000g"], "usage", 2;
    &["leaves", "{}", ARRAY], "usage", 2;
    &["select", ARRAY], "usage", 2;
    &["select", "$", "8000000g"], "usage", 2;
    &["select", "$", ARRAY, ARRAY], "usage", 2;
    &["match", ARRAY], "usage", 2;
    &["match", "$", "8000000g"], "usage", 2;
    &["match", "$", ARRAY, ARRAY], "usage", 2;
    &["GET", ARRAY], "usage", 2;
    &["GET", "{}", ARRAY], "usage", 2;
    &["KEY", ARRAY], "usage", 2;
    &["KEY", "{}", ARRAY], "usage", 2;
    &["LEAVES", ARRAY], "usage", 2;
    &["LEAVES", "{}", ARRAY], "usage", 2;
    &["SELECT", ARRAY], "usage", 2;
    &["SELECT", "{}", ARRAY], "usage", 2;
    &["MATCH", ARRAY], "usage", 2;
    &["MATCH", "{}", ARRAY], "usage", 2;
    &["", ARRAY], "usage", 2;
    &["", "{}", ARRAY], "usage", 2;
};

static COMMANDS: [&[Row]; 5] = [&GET, &PATHS, &KEY, &LEAVES, &OTHERS];

#[test]
fn commands_are_answered(rt: HostRuntime) -> Result<(), AllocError> {
    for rows in &COMMANDS {
        for (words, line, status) in *rows {
            assert!(rt; answers(rt.alloc(), words, line, *status)?, "{words:?}");
        }
    }
    Ok(())
}

/// Arguments without a result, and what is printed to standard error.
type ProblemRow = (&'static [&'static str], &'static str);

const PROBLEMS: [ProblemRow; 13] = rows! {
    &["get", "{1a}", ARRAY], "jsonb_tool: not a key path: error at byte 2";
    &["get", "{1a}", CUT], "jsonb_tool: not a key path: error at byte 2";
    &["get", "{}", CUT], "jsonb_tool: HEX is not a document";
    &["get", "{}", "80000"], "jsonb_tool: HEX is not hexadecimal: Odd number of digits";
    &["select", "$[", "8000000g"], "jsonb_tool: HEX is not hexadecimal: Invalid character 'g' at position 7";
    &["select", "$.a[", ARRAY], "jsonb_tool: not a JSON path: error at byte 3";
    &["match", "$.a[", CUT], "jsonb_tool: not a JSON path: error at byte 3";
    &["select", "$[*] + 1", TENS], "jsonb_tool: the JSON path cannot be evaluated on this document";
    &["match", "$[*] + 1", TENS], "jsonb_tool: the JSON path cannot be evaluated on this document";
    &["select", "$ / 0", FIVE], "jsonb_tool: arithmetic of the JSON path fails on this document";
    &["leaves", "0"], "jsonb_tool: HEX is not hexadecimal: Odd number of digits";
    &["key", "g0"], "jsonb_tool: HEX is not hexadecimal: Invalid character 'g' at position 0";
    &["key", FLOAT], "jsonb_tool: the document has a float or a 256-bit decimal";
};

/// Arguments that are another command, too few or too many.
const NO_COMMANDS: [&[&str]; 4] = [
    &[],
    &["get", "8000000g"],
    &["put", "{}", "8000000g"],
    &["key", "{}", "0"],
];

#[test]
fn problems_are_explained(rt: HostRuntime) -> Result<(), Error> {
    for (texts, wanted) in &PROBLEMS {
        let words = words_of(rt.alloc(), texts)?;
        let found = explain(rt.alloc(), words.as_slice())?.expect(&rt, "no problem");
        let text = format!(in rt.alloc(); "{found}")?;
        assert_eq!(rt; text.as_str(), *wanted);
    }
    for texts in &NO_COMMANDS {
        let words = words_of(rt.alloc(), texts)?;
        assert_eq!(rt;
            explain(rt.alloc(), words.as_slice()),
            Ok(Some(Problem::Command)),
            "{texts:?}"
        );
    }
    Ok(())
}

/// There is a problem if the status is not 0.
#[test]
fn each_other_status_has_a_problem(rt: HostRuntime) -> Result<(), Error> {
    for rows in &COMMANDS {
        for (texts, _, status) in *rows {
            let words = words_of(rt.alloc(), texts)?;
            let found = explain(rt.alloc(), words.as_slice())?;
            assert_eq!(rt; found.is_none(), *status == SUCCESS, "{texts:?}");
        }
    }
    Ok(())
}

/// A number of leaves that leaves no time to look each of them up from the root.
const MANY: usize = 200_000;

/// `[null,null,..]`
fn many_nulls(alloc: Global) -> Result<String, AllocError> {
    let mut document = String::from_str(alloc, "80030d40")?;
    for _ in 0..MANY {
        document.push_str("00000000")?;
    }
    Ok(document)
}

/// The lines of its leaves.
fn lines_of_many(alloc: Global) -> Result<String, AllocError> {
    let mut lines = String::new(alloc);
    for index in 0..MANY {
        let line = format!(in alloc; "2000000000000000 {{{index}}}\n")?;
        lines.push_str(line.as_str())?;
    }
    lines.pop();
    Ok(lines)
}

#[test]
fn leaves_of_a_long_array_are_printed_in_one_walk(rt: HostRuntime) -> Result<(), AllocError> {
    let document = many_nulls(rt.alloc())?;
    let lines = lines_of_many(rt.alloc())?;
    let words = ["leaves", document.as_str()];
    assert!(rt; answers(rt.alloc(), &words, lines.as_str(), 0)?);
    Ok(())
}

/// How a writer does not take what it is given.
#[derive(Clone, Copy, Debug)]
enum Break {
    /// A writer of which each write fails.
    Full,
    /// No byte is taken.
    Zero,
    /// One write is interrupted, and then all are taken.
    Interrupted,
}

/// A writer that accepts a limited number of bytes at a write, and fails after the first writes.
#[derive(Drop)]
struct Breaking {
    at_a_time: usize,
    writes: u32,
    how: Break,
    bytes: Vec<u8>,
}

impl Write for Breaking {
    fn write(&mut self, buf: &[u8]) -> io::Result<usize> {
        if self.writes > 0 {
            self.writes -= 1;
            return self.bytes.write(&buf[..buf.len().min(self.at_a_time)]);
        }
        match self.how {
            Break::Full => Err(io::Error::from(ErrorKind::StorageFull)),
            Break::Zero => Ok(0),
            Break::Interrupted => {
                self.writes = u32::MAX;
                Err(io::Error::from(ErrorKind::Interrupted))
            }
        }
    }

    fn flush(&mut self) -> io::Result<()> {
        Ok(())
    }
}

const LINE: &[u8] = b"200000001000000176\n";

/// Returns the result of a run over a failing writer, and whether it wrote the line.
fn run_over(
    alloc: Global,
    at_a_time: usize,
    writes: u32,
    how: Break,
) -> Result<(Result<u8, ToolFault>, bool), AllocError> {
    let words = words_of(alloc, &["get", "{2,k}", ARRAY])?;
    let mut out = Breaking {
        at_a_time,
        writes,
        how,
        bytes: Vec::new(alloc),
    };
    let answer = run(alloc, words.as_slice(), &mut out);
    Ok((answer, out.bytes.as_slice() == LINE))
}

/// Fails the first write, then the second, and so on, until a run has no failure and has written the line. Returns
/// the number of its writes, or `None` if a failed write did not fail a run.
fn writes_made(alloc: Global, at_a_time: usize, how: Break) -> Result<Option<u32>, AllocError> {
    for writes in 0..20 {
        match run_over(alloc, at_a_time, writes, how)? {
            (Err(ToolFault::Write), _) => {}
            (Ok(0), true) => return Ok(Some(writes)),
            _ => return Ok(None),
        }
    }
    Ok(None)
}

/// How many bytes are taken at a time, how a write breaks, and how many writes a run makes.
static BROKEN: [(usize, Break, u32); 6] = rows! {
    1, Break::Full, 19;
    1, Break::Zero, 19;
    4, Break::Full, 5;
    4, Break::Zero, 5;
    100, Break::Full, 1;
    100, Break::Zero, 1;
};

#[test]
fn a_failing_write_is_a_fault(rt: HostRuntime) -> Result<(), AllocError> {
    for (at_a_time, how, wanted) in &BROKEN {
        let made = writes_made(rt.alloc(), *at_a_time, *how)?;
        assert_eq!(rt; made, Some(*wanted), "{how:?}, {at_a_time} at a time");
    }
    Ok(())
}

/// A write that is interrupted is made again.
#[test]
fn an_interrupted_write_is_no_fault(rt: HostRuntime) -> Result<(), AllocError> {
    for at_a_time in [1, 4, 100] {
        for writes in 0..20 {
            let found = run_over(rt.alloc(), at_a_time, writes, Break::Interrupted)?;
            assert_eq!(rt; found, (Ok(0), true), "{at_a_time} behind {writes}");
        }
    }
    Ok(())
}
