//! The answers to a call of whose files one is cut short.
use crate::call::answer;
use crate::files::Files;
use crate::outside::Outside;
use std::alloc::{AllocError, Global};

/// How many answers are the same as to the whole files; how many others have the status 0, 1, .. 5; and how many have not
/// the form of an answer.
#[derive(Drop)]
pub struct Tally {
    counts: [u32; 8],
}

impl Tally {
    /// The line of rows that says so.
    pub fn line(&self, alloc: Global) -> Result<String, AllocError> {
        let [same, zero, one, two, three, four, five, bent] = self.counts;
        format!(in alloc; "cuts {same} {zero} {one} {two} {three} {four} {five} {bent}")
    }

    // Counts an answer.
    fn add(&mut self, kind: usize) {
        if let Some(count) = self.counts.get_mut(kind) {
            *count = count.wrapping_add(1);
        }
    }
}

/// Makes a call once for each byte of each file, with this file cut before the byte.
pub fn cut_answers(
    alloc: Global,
    words: &[String],
    files: &Files,
    outside: &Outside,
    whole: &(u8, Vec<u8>),
) -> Result<Tally, AllocError> {
    let mut tally = Tally { counts: [0; 8] };
    for place in 0..files.count() {
        add_cuts(alloc, words, files, outside, whole, place, &mut tally)?;
    }
    Ok(tally)
}

// The calls with the file at this place cut.
fn add_cuts(
    alloc: Global,
    words: &[String],
    files: &Files,
    outside: &Outside,
    whole: &(u8, Vec<u8>),
    place: usize,
    tally: &mut Tally,
) -> Result<(), AllocError> {
    for length in 0..files.size(place) {
        let (status, text) = answer(alloc, words, &files.cut(alloc, place, length)?, outside)?;
        tally.add(kind(status, &text, whole));
    }
    Ok(())
}

// What counts of an answer.
fn kind(status: u8, text: &[u8], whole: &(u8, Vec<u8>)) -> usize {
    if status == whole.0 && text == whole.1.as_slice() {
        return 0;
    }
    if !has_form(status, text) {
        return 7;
    }
    match status {
        0..=5 => 1 + status as usize,
        _ => 7,
    }
}

// Whether the text ends with a line, and is one line that tells a fault where the status is above 1.
fn has_form(status: u8, text: &[u8]) -> bool {
    match text.strip_suffix(b"\n") {
        Some(lines) => {
            status <= 1 || lines.starts_with(b"fault ") && lines.iter().all(|byte| *byte != b'\n')
        }
        None => false,
    }
}
