//! A sink that fails at some writes.
ghost use Rattle.std.specs.Prelude.{◌≡◌, ◌⊎◌, ◌↔◌, ◌+◌, ◌<◌, Some, Err, true, length};
ghost use Rattle.go_outside.specs.Sinks.{AnswersWrite, SinkCause};
ghost use Rattle.go_outside.specs.Failing.{fails_next, all_faults, wrote};

use crate::call_numbers::count_call;
use crate::memory_sink::MemorySink;
use crate::sink::{Sink, SinkError};
use go_base::list::List;
use std::marker::Model;

/// A sink in memory that fails the writes whose numbers, from 1, it was given, and those that pass
/// its capacity.
#[derive(Debug, Drop)]
pub struct FailingSink {
    sink: MemorySink,
    fail: List<u64>,
    calls: u64,
    faults: u64,
}

impl Model for FailingSink {
    ghost use Rattle.go_outside.specs.Failing as failing;

    ghost Value = { failing.Sink };

    ghost view = { λ s. record { sink = s.sink; fail = s.fail; calls = s.calls; own_faults = s.faults } };
}

impl FailingSink {
    /// A sink that fails at the writes of these numbers. A number that stands twice, or is 0, does
    /// no harm.
    pub fn new(sink: MemorySink, fail: List<u64>) -> FailingSink
        ensures { result ≡ record { sink = sink; fail = fail; calls = 0; own_faults = 0 } }
    {
        FailingSink {
            sink,
            fail,
            calls: 0,
            faults: 0,
        }
    }

    /// The bytes taken.
    pub fn bytes(&self) -> &[u8]
        ensures { result.now ≡ self.now.sink.bytes }
    {
        self.sink.bytes()
    }
}

impl Sink for FailingSink {
    ghost told = { λ s. Some s.sink.bytes };

    ghost faults = { all_faults };

    fn write(&mut self, piece: &[u8]) -> Result<(), SinkError>
        ensures bytes { AnswersWrite (Some self.old.sink.bytes) piece.now (Some self.new.sink.bytes) result }
        ensures cause { SinkCause (all_faults self.old) (all_faults self.new) result }
        ensures exact { (result ≡ Err SinkError.Failed) ↔ ((fails_next self.old.fail self.old.calls ≡ true) ⊎ (self.old.sink.capacity < length self.old.sink.bytes + length piece.now)) }
        ensures after { self.new ≡ wrote self.old piece.now }
    {
        if count_call(self.fail.items(), &mut self.calls) {
            self.faults = self.faults.saturating_add(1);
            return Err(SinkError::Failed);
        }
        self.sink.write(piece)
    }
}
