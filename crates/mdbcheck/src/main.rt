//! `mdbcheck`: reads a recording of a vending bus from standard input or a file, and writes to
//! standard output whether the recording is possible.
#![tactic(auto)]

use mdb_progress::{Input, Live, Progress};
use mdbcheck_run::{file_named, refuse_file, run_words};
use std::io::{BufReader, Read, Write};
use std::process::ExitCode;
use std::{env, io};

/// How many bytes are asked of standard input at once. `csv` asks for fewer, and each asking takes
/// time. A pipe gives what is there, so no row waits for that.
const READ_SIZE: usize = 65_536;

/// The status where the program can't begin.
const NOT_BEGUN: u8 = 2;

/// The words of the command line, the program's name first.
fn words(rt: &HostRuntime) -> io::Result<Vec<String>> {
    Ok(env::args(rt)?.collect(rt.alloc())?)
}

/// Hands the words and the streams to `mdbcheck_run::run_words`, and answers its status. The only
/// file that is opened is the one that the words name. A long run shows how far it is where
/// standard error is a terminal.
fn run(rt: &HostRuntime, words: &[String], file: Option<&str>) -> u8 {
    let input = match Input::open(rt, rt.stdin(), file) {
        Ok(input) => input,
        Err(error) => {
            refuse_file(words, file.unwrap_or(""), &error, &mut rt.stderr());
            return NOT_BEGUN;
        }
    };
    let progress = Progress::new(rt, rt.stderr(), "mdbcheck", file);
    let output = Live::new(progress.output(rt.stdout()));
    let reader = progress.reader(input);
    let status = run_live(rt, words, reader, &output, progress.writer(rt.stderr()));
    progress.end();
    output.end(status, "mdbcheck", &mut rt.stderr())
}

/// Runs the program over its words and streams. Where there is no memory for what is asked at once,
/// a line says so, as of any other want of memory.
fn run_live<R: Read + Drop, W: Write, E: Write + Drop>(
    rt: &HostRuntime,
    words: &[String],
    reader: R,
    output: &Live<W>,
    err: E,
) -> u8 {
    match BufReader::with_capacity(rt.alloc(), READ_SIZE, output.reader(reader)) {
        Ok(input) => {
            let mut out = output;
            let mut err = output.beside(err);
            run_words(rt.alloc(), words, input, &mut out, &mut err)
        }
        Err(error) => refuse(rt, "", error),
    }
}

/// Refuses what hasn't begun, for this reason, by one line on standard error.
fn refuse(rt: &HostRuntime, reason: &str, error: io::Error) -> u8 {
    let _ = eprintln!(rt; "mdbcheck: {reason}{error}");
    NOT_BEGUN
}

/// Runs the program over its words, and over the file that they name, if they name one.
fn run_named(rt: &HostRuntime, words: &[String]) -> u8 {
    match file_named(rt.alloc(), words) {
        Ok(file) => run(rt, words, file),
        Err(error) => refuse(rt, "", io::Error::from(error)),
    }
}

/// Runs the program. Words that can't be had, for want of memory or since one isn't UTF-8, are
/// refused like words that are no command of the program: status 2 and one line.
fn main(rt: HostRuntime) -> ExitCode {
    let status = match words(&rt) {
        Ok(words) => run_named(&rt, words.as_slice()),
        Err(error) => refuse(&rt, "the command line can't be read: ", error),
    };
    ExitCode::from(status)
}
