//! Counts the CSV records of its standard input, and does nothing else. The benchmark compares the
//! checker with this program.
#![tactic(auto)]

use csv::{ByteRecord, Error, ReaderBuilder};
use std::alloc::Global;
use std::io::Read;
use std::process::ExitCode;

/// The number of records that a reader gives, up to 2^64 - 1.
fn count<R: Read + Drop>(alloc: Global, reader: R) -> Result<u64, Error> {
    let mut records = ReaderBuilder::new()
        .has_headers(false)
        .flexible(true)
        .from_reader(alloc, reader);
    let mut record = ByteRecord::new(alloc);
    for number in 0..u64::MAX {
        if !records.read_byte_record(&mut record)? {
            return Ok(number);
        }
    }
    Ok(u64::MAX)
}

fn main(rt: HostRuntime) -> ExitCode {
    match count(rt.alloc(), rt.stdin()) {
        Ok(number) => match println!(rt; "{number}") {
            Ok(()) => ExitCode::SUCCESS,
            Err(_) => ExitCode::FAILURE,
        },
        Err(_) => ExitCode::FAILURE,
    }
}
