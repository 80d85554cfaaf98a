//! Asks documents in hexadecimal: `jsonb_tool get '{a,1}' 8000..`.
#![tactic(auto)]

mod command;
mod output;
mod problem;
mod tool;

use std::env::Env;
use std::io::ErrorKind;
use std::process::ExitCode;
use std::{env, io};

/// The status if a write failed, or the arguments cannot be read.
const FAULT: u8 = 3;

fn main(rt: HostRuntime) -> ExitCode {
    let words = match words(&rt) {
        Ok(words) => words,
        Err(error) => return fault(&rt, unreadable(&error)),
    };
    match tool::run(rt.alloc(), words.as_slice(), &mut io::writer(&rt)) {
        Ok(status) => {
            if status != tool::SUCCESS {
                print_problem(&rt, words.as_slice());
            }
            ExitCode::from(status)
        },
        Err(tool::ToolFault::Write) => fault(&rt, "the output cannot be written"),
    }
}

/// The arguments, without the program's name.
fn words<R: Env + AllocGlobal>(rt: &R) -> io::Result<Vec<String>> {
    let mut words = Vec::new(rt.alloc());
    for word in env::args(rt)?.skip(1) {
        words.push(word)?;
    }
    Ok(words)
}

/// Why the arguments cannot be read.
fn unreadable(error: &io::Error) -> &'static str {
    match error.kind() {
        ErrorKind::InvalidData => "the arguments cannot be read: one is not UTF-8",
        _ => "the arguments cannot be read: an allocation failed",
    }
}

/// Prints to standard error why arguments have no result. If it cannot be written, the status alone reports that.
fn print_problem<R: Eprint + AllocGlobal>(rt: &R, words: &[String]) {
    let _unwritten = match problem::explain(rt.alloc(), words) {
        Ok(Some(problem)) => rt.eprintln(problem),
        Ok(None) | Err(_) => rt.eprintln("jsonb_tool: an allocation failed"),
    };
}

/// Prints to standard error what failed, if possible, and returns the status.
fn fault<R: Eprint>(rt: &R, what: &str) -> ExitCode {
    let _unwritten = eprintln!(rt; "jsonb_tool: {what}");
    ExitCode::from(FAULT)
}
