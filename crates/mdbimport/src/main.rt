//! `mdbimport`: reads an export of a recorder or a spreadsheet from standard input or a file, and
//! writes its rows to standard output in the form that `mdbcheck` reads.
#![tactic(auto)]

use mdb_import_shared::write_refusal;
use mdb_progress::{Input, Live, Progress};
use mdbimport_run::{file_named, refuse_file};
use std::io::{BufReader, Read, Write};
use std::process::ExitCode;
use std::{env, io};

/// How many bytes are asked of standard input at once. `csv` asks for fewer, and each asking takes
/// time. A pipe gives what is there, so no row waits for that.
const READ_SIZE: usize = 65_536;

/// The status where the program can't begin.
const NOT_BEGUN: u8 = 2;

/// Refuses what hasn't begun, for this reason: one line on standard error, and on standard output
/// that of a refused export. A stream that can't be written gets none.
fn refuse(rt: &HostRuntime, reason: &str, error: io::Error) -> u8 {
    let _ = write_refusal(&mut rt.stdout());
    let _ = eprintln!(rt; "mdbimport: {reason}{error}");
    NOT_BEGUN
}

/// The words of the command line, the program's name first.
fn words(rt: &HostRuntime) -> io::Result<Vec<String>> {
    Ok(env::args(rt)?.collect(rt.alloc())?)
}

/// Hands the words and the streams to `mdbimport_run::run`, and answers its status. The only file
/// that is opened is the one that the words name. A long run shows how far it is where standard
/// error is a terminal.
fn run(rt: &HostRuntime, words: &[String], file: Option<&str>) -> u8 {
    let input = match Input::open(rt, rt.stdin(), file) {
        Ok(input) => input,
        Err(error) => {
            let name = file.unwrap_or("");
            refuse_file(words, name, &error, &mut rt.stdout(), &mut rt.stderr());
            return NOT_BEGUN;
        }
    };
    let progress = Progress::new(rt, rt.stderr(), "mdbimport", file);
    let output = Live::new(progress.output(rt.stdout()));
    let reader = progress.reader(input);
    let status = run_live(rt, words, reader, &output, progress.writer(rt.stderr()));
    progress.end();
    output.end(status, "mdbimport", &mut rt.stderr())
}

/// Runs the program over its words and streams. Where there is no memory for what is asked at once,
/// a line says so, as of any other want of memory.
fn run_live<R: Read + Drop, W: Write, E: Write + Drop>(
    rt: &HostRuntime,
    words: &[String],
    reader: R,
    output: &Live<W>,
    err: E,
) -> u8 {
    match BufReader::with_capacity(rt.alloc(), READ_SIZE, output.reader(reader)) {
        Ok(input) => {
            let mut out = output;
            let mut err = output.beside(err);
            mdbimport_run::run(rt.alloc(), words, input, &mut out, &mut err)
        }
        Err(error) => refuse(rt, "", error),
    }
}

/// Runs the program over its words, and over the file that they name, if they name one.
fn run_named(rt: &HostRuntime, words: &[String]) -> u8 {
    match file_named(rt.alloc(), words) {
        Ok(file) => run(rt, words, file),
        Err(error) => refuse(rt, "", io::Error::from(error)),
    }
}

/// Runs the program. Words that can't be had, for want of memory or since one isn't UTF-8, are
/// refused like words that are no command of the program: status 2, and a line on each stream.
fn main(rt: HostRuntime) -> ExitCode {
    let status = match words(&rt) {
        Ok(words) => run_named(&rt, words.as_slice()),
        Err(error) => refuse(&rt, "the command line can't be read: ", error),
    };
    ExitCode::from(status)
}
