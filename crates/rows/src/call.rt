//! One call of the program.
use crate::files::Files;
use crate::outside::Outside;
use gf_abs::run;
use std::alloc::{AllocError, Global};

/// What the program answers to words, over files in memory.
pub fn answer(
    alloc: Global,
    words: &[String],
    files: &Files,
    outside: &Outside,
) -> Result<(u8, Vec<u8>), AllocError> {
    let mut shelf = outside.shelf(alloc, files)?;
    let mut sink = outside.sink(alloc)?;
    let status = run(alloc, words, &mut shelf, &mut sink);
    Ok((status, sink.bytes().to_vec(alloc)?))
}
