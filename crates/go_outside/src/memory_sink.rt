//! A sink in memory.
ghost use Rattle.std.specs.Prelude.{◌≡◌, ◌↔◌, ◌+◌, ◌<◌, ◌≤◌, ◌++◌, [], Some, Err, nat_le, length, IfOk, option_map, unwrap_or, vec_capacity};
ghost use Rattle.go_outside.specs.Sinks.{AnswersWrite, SinkCause};
ghost use Rattle.go_outside.specs.MemorySink.{State, IsWithin, empty, written};

use crate::sink::{Sink, SinkError};
use go_base::memory::NoMemory;
use std::alloc::Global;
use std::marker::Model;

/// Takes bytes up to a capacity. A piece that passes the capacity fails, and nothing of it is
/// taken.
#[derive(Debug, Drop)]
pub struct MemorySink {
    buffer: Option<Vec<u8>>,
    capacity: u64,
    faults: u64,
}

impl Model for MemorySink {
    ghost Value = { State };

    ghost view = { λ s. record { bytes = unwrap_or (option_map (λ v. v.items) s.buffer) []; capacity = s.capacity; faults = s.faults } };

    ghost invariant = { λ s. IsWithin (length (unwrap_or (option_map (λ v. v.items) s.buffer) [])) s.capacity (unwrap_or (option_map vec_capacity s.buffer) 0) };
}

// Takes a piece for which there is room.
fn append(buffer: &mut Option<Vec<u8>>, piece: &[u8])
    requires { length (unwrap_or (option_map (λ v. v.items) buffer.old) []) + length piece.now ≤ unwrap_or (option_map vec_capacity buffer.old) 0 }
    ensures bytes { unwrap_or (option_map (λ v. v.items) buffer.new) [] ≡ unwrap_or (option_map (λ v. v.items) buffer.old) [] ++ piece.now }
    ensures room { unwrap_or (option_map vec_capacity buffer.old) 0 ≤ unwrap_or (option_map vec_capacity buffer.new) 0 }
{
    if let Some(bytes) = buffer {
        let _ = bytes.extend_from_slice(piece);
    }
}

impl MemorySink {
    /// A sink with no room, which fails at each piece that isn't empty.
    pub fn new() -> MemorySink
        ensures { result ≡ empty 0 }
    {
        MemorySink {
            buffer: None,
            capacity: 0,
            faults: 0,
        }
    }

    /// An empty sink with room for this many bytes.
    pub fn with_capacity(alloc: Global, bytes: u64) -> Result<MemorySink, NoMemory>
        ensures { IfOk result (λ sink. sink ≡ empty bytes) }
    {
        Ok(MemorySink {
            buffer: Some(Vec::with_capacity(alloc, bytes as usize)?),
            capacity: bytes,
            faults: 0,
        })
    }

    fn has_room(&self, piece: &[u8]) -> bool
        ensures { result ≡ nat_le (length self.now.bytes + length piece.now) self.now.capacity }
    {
        piece.len() <= self.capacity as usize - self.bytes().len()
    }

    /// The bytes taken.
    pub fn bytes(&self) -> &[u8]
        ensures { result.now ≡ self.now.bytes }
    {
        match &self.buffer {
            None => &[],
            Some(bytes) => bytes.as_slice(),
        }
    }
}

impl Sink for MemorySink {
    ghost told = { λ s. Some s.bytes };

    ghost faults = { λ s. s.faults };

    fn write(&mut self, piece: &[u8]) -> Result<(), SinkError>
        ensures bytes { AnswersWrite (Some self.old.bytes) piece.now (Some self.new.bytes) result }
        ensures cause { SinkCause self.old.faults self.new.faults result }
        ensures full { (result ≡ Err SinkError.Failed) ↔ (self.old.capacity < length self.old.bytes + length piece.now) }
        ensures after { self.new ≡ written self.old piece.now }
    {
        if self.has_room(piece) {
            append(&mut self.buffer, piece);
            return Ok(());
        }
        self.faults = self.faults.saturating_add(1);
        Err(SinkError::Failed)
    }
}
