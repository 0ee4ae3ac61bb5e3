//! The worked rows: calls of the program over files in memory, beside the status and the text that each must answer.
//! They stand in `data/rows.txt`, whose form `reader.rt` tells. Prints each row that differs, and last how many there are.
#![tactic(auto)]

mod call;
mod cuts;
mod escapes;
mod files;
mod outside;
mod reader;

use job_io::{FileShelf, Shelf};
use reader::Reader;
use std::alloc::Global;
use std::process::ExitCode;

fn main(rt: HostRuntime) -> ExitCode {
    let alloc = rt.alloc();
    let mut shelf = FileShelf::new(&rt);
    let bytes = match shelf.read(alloc, "rows.txt", 67_108_864) {
        Ok(bytes) => bytes,
        Err(_) => return ExitCode::from(4),
    };
    match read(&rt, alloc, &bytes) {
        Ok(0) => ExitCode::from(0),
        Ok(_) => ExitCode::from(1),
        Err(_) => ExitCode::from(4),
    }
}

// Runs all rows, and gives how many differ.
fn read(rt: &impl Print, alloc: Global, bytes: &[u8]) -> anyhow::Result<u32> {
    let mut reader = Reader::new(alloc);
    for line in bytes.split(|byte| *byte == b'\n') {
        reader.take(rt, alloc, line)?;
    }
    reader.settle(rt, alloc)?;
    let (rows, calls, differ) = reader.counts();
    println!(rt; "{rows} rows, {calls} calls, {differ} differ")?;
    Ok(differ)
}
