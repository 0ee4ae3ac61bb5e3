//! What fails outside while a call runs.
use crate::files::Files;
use job_io::{MemShelf, MemSink};
use std::alloc::{AllocError, Global};

// How many bytes the output takes where no line says so.
const ROOM: u32 = 4_000_000;

/// The numbers of the reads and of the writes that fail, from 1, and how many bytes the output takes.
#[derive(Drop)]
pub struct Outside {
    reads: Vec<u32>,
    writes: Vec<u32>,
    room: u32,
}

impl Outside {
    /// Nothing fails.
    pub fn new(alloc: Global) -> Outside {
        Outside {
            reads: Vec::new(alloc),
            writes: Vec::new(alloc),
            room: ROOM,
        }
    }

    /// Takes the parts of a line that says what fails; any other line says nothing.
    pub fn take(&mut self, alloc: Global, parts: &[String]) -> Result<(), AllocError> {
        match parts {
            [word, reads @ ..] if word.as_str() == "reads" => self.reads = numbers(alloc, reads)?,
            [word, writes @ ..] if word.as_str() == "writes" => {
                self.writes = numbers(alloc, writes)?;
            }
            [word, room] if word.as_str() == "room" => self.room = room.parse().unwrap_or(0),
            _ => {}
        }
        Ok(())
    }

    /// These files, of which reads fail.
    pub fn shelf(&self, alloc: Global, files: &Files) -> Result<MemShelf, AllocError> {
        Ok(MemShelf::new(files.copied(alloc)?, self.reads.to_vec(alloc)?))
    }

    /// An empty output, of which writes fail.
    pub fn sink(&self, alloc: Global) -> Result<MemSink, AllocError> {
        MemSink::new(alloc, self.writes.to_vec(alloc)?, self.room as usize)
    }
}

// The numbers that words are, in decimal; any other word is 0.
fn numbers(alloc: Global, words: &[String]) -> Result<Vec<u32>, AllocError> {
    let mut numbers = Vec::new(alloc);
    for word in words {
        numbers.push(word.parse().unwrap_or(0))?;
    }
    Ok(numbers)
}
