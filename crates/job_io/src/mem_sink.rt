//! A sink of bytes in memory that has a room, and some of whose writes fail.
ghost use Rattle.std.specs.Prelude.{◌≡◌, ◌≤◌, ◌<◌, ◌^◌, ◌↔◌, ◌⊎◌, ◌++◌, [], Some, min, length, take, vec_len, vec_capacity, IsTrue, IfOk, IsErr, OnErr};
ghost use Rattle.job_io.specs.Counts.{Rose, is_listed, next_of};
ghost use Rattle.job_io.specs.Sink.{sink_faults_after};

use crate::counts::{is_listed, next_count};
use crate::{Sink, SinkFailed};
use std::alloc::{AllocError, Global};

/// Bytes in memory. The writes with the numbers in `failing` fail, counted from 1.
#[derive(Drop)]
pub struct MemSink {
    bytes: Vec<u8>,
    room: usize,
    failing: Vec<u32>,
    writes: u64,
    faults: u64,
    ghost counts: { faults < 2 ^ 64 },
    ghost within: { vec_len bytes ≤ room },
    ghost taken: { room ≤ vec_capacity bytes },
}

impl MemSink {
    ghost use Rattle.job_io.specs.MemSink.{failing_writes, mem_room, mem_sink_faults, mem_writes, mem_written};

    /// A sink with room for so many bytes, which it takes now, and nothing written.
    pub fn new(alloc: Global, failing: Vec<u32>, room: usize) -> Result<MemSink, AllocError>
        ensures written { IfOk result (λ sink. mem_written sink ≡ []) }
        ensures room { IfOk result (λ sink. mem_room sink ≡ room) }
        ensures failing { IfOk result (λ sink. failing_writes sink ≡ failing.items) }
        ensures writes { IfOk result (λ sink. mem_writes sink ≡ 0) }
        ensures faults { IfOk result (λ sink. mem_sink_faults sink ≡ 0) }
    {
        let bytes = Vec::with_capacity(alloc, room)?;
        Ok(MemSink {
            bytes,
            room,
            failing,
            writes: 0,
            faults: 0,
        })
    }

    /// The bytes that were written.
    pub fn bytes(&self) -> &[u8]
        ensures { result.now ≡ mem_written self.now }
    {
        &self.bytes
    }
}

impl Sink for MemSink {
    ghost use Rattle.job_io.specs.MemSink.{failing_writes, mem_room, mem_sink_faults, mem_writes, mem_written, room_left};

    ghost written = { λ s. Some (mem_written s) };

    ghost faults = { λ s. mem_sink_faults s };

    fn write(&mut self, piece: &[u8]) -> Result<usize, SinkFailed>
        ensures room { mem_room self.new ≡ mem_room self.old }
        ensures failing { failing_writes self.new ≡ failing_writes self.old }

        ensures writes { mem_writes self.new ≡ next_of (mem_writes self.old) }
        ensures faults { mem_sink_faults self.new ≡ sink_faults_after result (mem_sink_faults self.old) }
        ensures counts { mem_sink_faults self.new < 2 ^ 64 }

        ensures faults_never_fall { mem_sink_faults self.old ≤ mem_sink_faults self.new }
        ensures failed { OnErr result (Rose (mem_sink_faults self.old) (mem_sink_faults self.new)) }

        ensures fails { IsErr result
            ↔ (IsTrue (is_listed (failing_writes self.old) (next_of (mem_writes self.old)))
            ⊎ ((0 < length piece.now) × (room_left self.old ≡ 0))) }
        ensures within { IfOk result (λ n. n ≤ length piece.now) }
        ensures some { IfOk result (λ n. 0 < length piece.now → 0 < n) }
        ensures takes { IfOk result (λ n. n ≡ min (length piece.now) (room_left self.old)) }
        ensures appends { IfOk result (λ n. mem_written self.new ≡ mem_written self.old ++ take n piece.now) }
        ensures nothing { OnErr result (mem_written self.new ≡ mem_written self.old) }
    {
        self.writes = next_count(self.writes);
        let left = self.room - self.bytes.len();
        let full = left == 0 && !piece.is_empty();
        if full || is_listed(&self.failing, self.writes) {
            self.faults = next_count(self.faults);
            return Err(SinkFailed);
        }
        let taken = piece.len().min(left);
        // The room was taken when the sink was made.
        self.bytes.extend_from_slice(&piece[..taken]).unwrap();
        Ok(taken)
    }
}
