//! A sink of bytes.
ghost use Rattle.std.specs.Prelude.{ℕ, List, Option};
ghost use Rattle.go_outside.specs.Sinks.{AnswersWrite, SinkCause};

use thiserror::Error;

/// Why a sink took less than a whole piece.
#[derive(Clone, Copy, Debug, PartialEq, Eq, Error)]
pub enum SinkError {
    /// The sink failed, and its count of faults rose.
    #[error("write fault")]
    Failed,
}

/// What takes bytes.
pub trait Sink {
    /// The bytes taken so far, where the sink tells them.
    ghost told: { Self → Option (List ℕ) };

    /// How often it has failed: a count that never falls, and stands still at its last value.
    ghost faults: { Self → ℕ };

    /// Takes a piece whole, or fails after some prefix of it. It takes no memory.
    fn write(&mut self, piece: &[u8]) -> Result<(), SinkError>
        ensures bytes { AnswersWrite (told self.old) piece.now (told self.new) result }
        ensures cause { SinkCause (faults self.old) (faults self.new) result };
}
