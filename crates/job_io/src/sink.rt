//! Sinks of bytes: what each of them promises, whatever it stands on.
ghost use Rattle.std.specs.Prelude.{◌≡◌, ◌≤◌, ◌<◌, ◌^◌, ℕ, List, [], Option, length, take, IfOk, IsOk, OnOk, OnErr};
ghost use Rattle.std.specs.Io.KnownBytes.{Appends, Keeps};
ghost use Rattle.job_io.specs.Counts.{Rose};

use thiserror::Error;

/// A write took nothing.
#[derive(Clone, Copy, Debug, PartialEq, Eq, Error)]
#[error("the output cannot be written")]
pub struct SinkFailed;

/// Takes bytes.
pub trait Sink {
    /// The bytes that were written, where the sink tells it.
    ghost written: { Self → Option (List ℕ) };

    /// How often a write has failed.
    ghost faults: { Self → ℕ };

    /// Takes at least one byte of a piece that is not empty, from its front, and says how many.
    fn write(&mut self, piece: &[u8]) -> Result<usize, SinkFailed>
        ensures faults_never_fall { faults self.old ≤ faults self.new }
        ensures counts { faults self.new < 2 ^ 64 }
        ensures within { IfOk result (λ n. n ≤ length piece.now) }
        ensures some { IfOk result (λ n. 0 < length piece.now → 0 < n) }
        ensures appends { IfOk result (λ n. Appends (written self.old) (written self.new) (take n piece.now)) }
        ensures failed { OnErr result (Rose (faults self.old) (faults self.new)) }
        ensures nothing { OnErr result (Keeps (written self.old) (written self.new)) };
}

/// Writes the whole piece. An empty one needs no write. An `Err` leaves a proper prefix of the piece written.
pub fn put_all<K: Sink>(sink: &mut K, piece: &[u8]) -> Result<(), SinkFailed>
    ensures empty { piece.now ≡ [] → IsOk result × (sink.new ≡ sink.old) }
    ensures faults_never_fall { K.faults sink.old ≤ K.faults sink.new }
    ensures counts { K.faults sink.old < 2 ^ 64 → K.faults sink.new < 2 ^ 64 }
    ensures appends { OnOk result (Appends (K.written sink.old) (K.written sink.new) piece.now) }
    ensures failed { OnErr result (Rose (K.faults sink.old) (K.faults sink.new)) }
    ensures prefix { OnErr result ((n : ℕ) × (n < length piece.now)
        × Appends (K.written sink.old) (K.written sink.new) (take n piece.now)) }
{
    let mut done = 0;
    while done < piece.len() {
        done += sink.write(&piece[done..])?;
    }
    Ok(())
}
