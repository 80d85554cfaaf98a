//! Asks documents in hexadecimal, one a line of standard input, of any size: `jsonb_lines select '$.a' < documents`.
#![tactic(auto)]

mod answer;
mod fault;
mod lines;
mod problem;
mod question;

use fault::Fault;
use std::env::Env;
use std::io::{BufReader, BufWriter, Write};
use std::process::ExitCode;
use std::{env, io};

/// The status if reading or writing failed, or an allocation outside a command.
const FAULT: u8 = 3;

fn main(rt: HostRuntime) -> ExitCode {
    match run(&rt) {
        Ok(status) => ExitCode::from(status),
        Err(fault) => {
            let _unwritten = eprintln!(rt; "jsonb_lines: {fault}");
            ExitCode::from(FAULT)
        },
    }
}

/// Runs the command on each line of standard input.
fn run<R: Env + Input + Print + Eprint + AllocGlobal>(rt: &R) -> Result<u8, Fault> {
    let alloc = rt.alloc();
    let words = words(rt).map_err(Fault::Arguments)?;
    let input = BufReader::new(alloc, rt.reader()).map_err(|error| Fault::Input(1, error))?;
    let mut out = BufWriter::new(alloc, io::writer(rt)).map_err(Fault::Output)?;
    let status = lines::answer_lines(alloc, words.as_slice(), input, &mut out, rt)?;
    out.flush().map_err(Fault::Output)?;
    Ok(status)
}

/// The arguments, without the program's name.
fn words<R: Env + AllocGlobal>(rt: &R) -> io::Result<Vec<String>> {
    let mut words = Vec::new(rt.alloc());
    for word in env::args(rt)?.skip(1) {
        words.push(word)?;
    }
    Ok(words)
}
