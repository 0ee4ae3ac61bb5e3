//! The shelf of the system's files, which is trusted to be what the system says.
ghost use Rattle.std.specs.Prelude.{◌≡◌, ◌↔◌, ◌<◌, ◌≤◌, ◌^◌, None, IfOk, IfErr, IfSome, IsErrOf, ℕ, length, vec_len};
ghost use Rattle.job_io.specs.Shelf.{faults_after, misses_after};

use crate::shelf::count_read;
use crate::{Shelf, ShelfFault};
use std::alloc::Global;
use std::io::{ErrorKind, Read};
use std::rt::Files;
use std::{fs, io};

// Bytes of one read.
const PIECE: usize = 8192;

/// The files of the system. It tells nothing of what they hold.
#[derive(Drop)]
pub struct FileShelf<R: Files> {
    files: R,
    faults: u64,
    misses: u64,
    ghost counts: { (faults < 2 ^ 64) × (misses < 2 ^ 64) },
}

impl<R: Files> FileShelf<R> {
    ghost use Rattle.job_io.specs.FileShelf.{file_faults, file_misses};

    /// A shelf over what the runtime gives to `main`.
    pub fn new(files: R) -> FileShelf<R>
        ensures faults { file_faults result ≡ 0 }
        ensures misses { file_misses result ≡ 0 }
    {
        FileShelf {
            files,
            faults: 0,
            misses: 0,
        }
    }
}

// What an error of the system says.
fn fault_of(kind: ErrorKind) -> ShelfFault
    ensures not_long { (n : ℕ) → result ≡ ShelfFault.TooLong n → ⊥ }
    ensures absent { (result ≡ ShelfFault.Absent) ↔ (kind ≡ ErrorKind.NotFound) }
    ensures memory { (result ≡ ShelfFault.OutOfMemory) ↔ (kind ≡ ErrorKind.OutOfMemory) }
{
    match kind {
        ErrorKind::NotFound => ShelfFault::Absent,
        ErrorKind::OutOfMemory => ShelfFault::OutOfMemory,
        _ => ShelfFault::Failed,
    }
}

// All that the reader gives, unless it is more than the limit.
fn read_up_to<F: Read>(alloc: Global, file: &mut F, limit: u32) -> Result<Vec<u8>, ShelfFault>
    ensures within { IfOk result (λ bytes. vec_len bytes ≤ limit) }
    ensures too_long { IfErr result (λ e. (n : ℕ) → e ≡ ShelfFault.TooLong n → n ≡ limit) }
    // Where it is known what the reader gives, it is all of that, or that is more than the limit.
    ensures all { IfOk result (λ bytes. IfSome (F.remaining file.old) (λ known. bytes.items ≡ known)) }
    ensures more { IfErr result (λ e. (n : ℕ) → e ≡ ShelfFault.TooLong n → IfSome (F.remaining file.old) (λ known. limit < length known)) }
{
    let limit_bytes = limit as usize;
    let mut bytes = Vec::new(alloc);
    let mut piece = [0u8; PIECE];
    // Each turn takes at least one byte, or is the last.
    for _ in 0..=u64::from(limit) {
        let taken = match file.read(&mut piece) {
            Ok(taken) => taken,
            Err(error) => return Err(fault_of(error.kind())),
        };
        if taken == 0 {
            return Ok(bytes);
        }
        if taken > limit_bytes - bytes.len() {
            return Err(ShelfFault::TooLong { limit });
        }
        let Ok(()) = bytes.extend_from_slice(&piece[..taken]) else {
            return Err(ShelfFault::OutOfMemory);
        };
    }
    Err(ShelfFault::TooLong { limit })
}

// All the bytes of a file, unless they are more than the limit.
fn read_file<R: Files>(
    alloc: Global,
    files: &R,
    name: &str,
    limit: u32,
) -> Result<Vec<u8>, ShelfFault>
    ensures within { IfOk result (λ bytes. vec_len bytes ≤ limit) }
    ensures too_long { IfErr result (λ e. (n : ℕ) → e ≡ ShelfFault.TooLong n → n ≡ limit) }
{
    match fs::open(files, name) {
        Ok(file) => {
            let mut file = file;
            read_up_to(alloc, &mut file, limit)
        }
        Err(error) => Err(fault_of(error.kind())),
    }
}

impl<R: Files> Shelf for FileShelf<R> {
    ghost use Rattle.job_io.specs.FileShelf.{file_faults, file_misses};

    ghost held = { λ _. None };

    ghost faults = { λ s. file_faults s };

    ghost misses = { λ s. file_misses s };

    /// A file that the system does not find is `Absent`, and any other error but out of memory is `Failed`.
    fn read(&mut self, alloc: Global, name: &str, limit: u32) -> Result<Vec<u8>, ShelfFault>
        ensures faults { file_faults self.new ≡ faults_after result (file_faults self.old) }
        ensures misses { file_misses self.new ≡ misses_after result (file_misses self.old) }
        ensures counts { (file_faults self.new < 2 ^ 64) × (file_misses self.new < 2 ^ 64) }
        ensures within { IfOk result (λ bytes. vec_len bytes ≤ limit) }
        ensures too_long { (n : ℕ) → IsErrOf result (ShelfFault.TooLong n) → n ≡ limit }
    {
        let read = read_file(alloc, &self.files, name, limit);
        count_read(&read, &mut self.faults, &mut self.misses);
        read
    }
}
