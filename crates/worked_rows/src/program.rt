//! The program over files in memory.
ghost use Rattle.job_input.specs.Setting.{AreBasesOver, AreSaid};

use gf_abs::run;
use gf_field::Field;
use job_input::{Setting, Signed, read_circuit, read_signed, setting_over};
use job_io::{MemShelf, MemSink};
use net_signature::Signature;
use net_words::Combinational;
use std::alloc::{AllocError, Global};
use std::process::Abort;
use std::test::Fail;

/// Files by name, of their texts.
pub fn files_of(
    alloc: Global,
    files: &[(&str, &str)],
) -> Result<Vec<(String, Vec<u8>)>, AllocError> {
    let mut pairs = Vec::new(alloc);
    for (name, text) in files {
        pairs.push((
            String::from_str(alloc, name)?,
            text.as_bytes().to_vec(alloc)?,
        ))?;
    }
    Ok(pairs)
}

/// The status of a run, and what it writes.
pub fn answer(
    alloc: Global,
    words: &[&str],
    files: Vec<(String, Vec<u8>)>,
    failing_reads: &[u32],
    failing_writes: &[u32],
    room: usize,
) -> Result<(u8, Vec<u8>), Fail> {
    let mut shelf = MemShelf::new(files, failing_reads.to_vec(alloc)?);
    let mut sink = MemSink::new(alloc, failing_writes.to_vec(alloc)?, room)?;
    let mut texts = Vec::new(alloc);
    for word in words {
        texts.push(String::from_str(alloc, word)?)?;
    }
    let status = run(alloc, &texts, &mut shelf, &mut sink);
    Ok((status, sink.bytes().to_vec(alloc)?))
}

/// The signature in the file `s`, with its field.
pub fn signed(rt: &impl Abort, alloc: Global, shelf: &mut MemShelf) -> Signed
    ensures { AreSaid result.signature }
{
    match read_signed(alloc, shelf, "s") {
        Ok(signed) => signed,
        Err(_) => panic!(rt; "no signature"),
    }
}

/// Its setting over the field, and the circuit in the file `net`.
pub fn job<F: Field>(
    rt: &impl Abort,
    alloc: Global,
    field: &F,
    signature: Signature,
    shelf: &mut MemShelf,
) -> (Setting, Combinational)
    requires { AreSaid signature }
    ensures { AreBasesOver (F.degree field.now) (F.product field.now) result.0.bases.items }
{
    let setting = match setting_over(alloc, field, signature) {
        Ok(setting) => setting,
        Err(_) => panic!(rt; "no setting"),
    };
    match read_circuit(alloc, shelf, &setting, "net", 0) {
        Ok(circuit) => (setting, circuit),
        Err(_) => panic!(rt; "no circuit"),
    }
}
