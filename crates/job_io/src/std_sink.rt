//! The sink of standard output, which is trusted to be what the system says.
ghost use Rattle.std.specs.Prelude.{◌≡◌, ◌<◌, ◌≤◌, ◌^◌, None, Ok, [], length, take, IfOk, OnErr};
ghost use Rattle.std.specs.Io.KnownBytes.{Appends, Keeps};
ghost use Rattle.job_io.specs.Sink.{sink_faults_after};

use crate::counts::next_count;
use crate::{Sink, SinkFailed};
use std::io;
use std::io::Write;

/// Standard output. It tells nothing of what was written.
#[derive(Drop)]
pub struct StdSink<R: Print> {
    output: R,
    faults: u64,
    ghost counts: { faults < 2 ^ 64 },
}

impl<R: Print> StdSink<R> {
    ghost use Rattle.job_io.specs.StdSink.{std_faults};

    /// A sink over what the runtime gives to `main`.
    pub fn new(output: R) -> StdSink<R>
        ensures { std_faults result ≡ 0 }
    {
        StdSink { output, faults: 0 }
    }
}

// What a writer takes of a piece, where it takes something.
fn write_some<W: Write>(writer: &mut W, piece: &[u8]) -> Result<usize, SinkFailed>
    ensures within { IfOk result (λ n. n ≤ length piece.now) }
    ensures some { IfOk result (λ n. 0 < n) }
    ensures appends { IfOk result (λ n. Appends (W.contents writer.old) (W.contents writer.new) (take n piece.now)) }
    ensures nothing { OnErr result (Keeps (W.contents writer.old) (W.contents writer.new)) }
{
    match writer.write(piece) {
        Ok(taken) if taken > 0 => Ok(taken),
        _ => Err(SinkFailed),
    }
}

impl<R: Print> Sink for StdSink<R> {
    ghost use Rattle.job_io.specs.StdSink.{std_faults};

    ghost written = { λ _. None };

    ghost faults = { λ s. std_faults s };

    /// A write that takes nothing of a piece that is not empty is a fault.
    fn write(&mut self, piece: &[u8]) -> Result<usize, SinkFailed>
        ensures faults { std_faults self.new ≡ sink_faults_after result (std_faults self.old) }
        ensures counts { std_faults self.new < 2 ^ 64 }
        ensures empty { piece.now ≡ [] → result ≡ Ok 0 }
        ensures within { IfOk result (λ n. n ≤ length piece.now) }
        ensures some { IfOk result (λ n. 0 < length piece.now → 0 < n) }
    {
        if piece.is_empty() {
            return Ok(0);
        }
        match write_some(&mut io::writer(&self.output), piece) {
            Ok(taken) => Ok(taken),
            Err(SinkFailed) => {
                self.faults = next_count(self.faults);
                Err(SinkFailed)
            }
        }
    }
}
