//! Writing: a text in pieces, and a decision to both sinks.
ghost use Rattle.std.specs.Prelude.{◌≡◌, ◌≤◌, ◌<◌, ℕ, length, IfErr};
ghost use Rattle.go_outside.specs.Sinks.{AnswersWrite, SinkCause};
ghost use Rattle.api_gate.specs.inner.Decisions.{outcome_of};
ghost use Rattle.api_gate.specs.runs.Effects.{NeverFell, change};
ghost use Rattle.api_gate.specs.runs.Runs.{Delivers};

use crate::reports::decision::Decision;
use crate::status::Status;
use api_texts::fixed::write_line;
use go_outside::sink::{Sink, SinkError};

/// The most bytes that are written at once.
pub const PIECE: usize = 65_536;

// The one write: no piece is empty, and none is longer than `PIECE`.
fn write_piece<S: Sink>(sink: &mut S, piece: &[u8]) -> Result<(), SinkError>
    requires some { 0 < length piece.now }
    requires few { length piece.now ≤ 65536 }
    ensures bytes { AnswersWrite (S.told sink.old) piece.now (S.told sink.new) result }
    ensures cause { SinkCause (S.faults sink.old) (S.faults sink.new) result }
{
    sink.write(piece)
}

/// Writes the bytes in pieces of at most `PIECE` bytes, none of them empty.
pub fn write_pieces<S: Sink>(sink: &mut S, bytes: &[u8]) -> Result<(), SinkError>
    ensures bytes { AnswersWrite (S.told sink.old) bytes.now (S.told sink.new) result }
    ensures some { IfErr result (λ _. 0 < length bytes.now) }
    ensures cause { SinkCause (S.faults sink.old) (S.faults sink.new) result }
{
    let mut at = 0usize;
    while at < bytes.len() {
        let end = if bytes.len() - at < PIECE {
            bytes.len()
        } else {
            at + PIECE
        };
        if let Err(error) = write_piece(sink, &bytes[at..end]) {
            return Err(error);
        }
        at = end;
    }
    Ok(())
}

/// Writes the report to `out` and the fault line to `err`. After a fault on `out` the line of a
/// write fault is tried once on `err`, and the status is that of a write fault.
pub fn deliver<S: Sink, E: Sink>(out: &mut S, err: &mut E, decision: &Decision) -> Status
    ensures written { Delivers (outcome_of decision.now) (change S.told S.faults out.old out.new) (change E.told E.faults err.old err.new) result }
    ensures output { NeverFell (change S.told S.faults out.old out.new) }
    ensures error_output { NeverFell (change E.told E.faults err.old err.new) }
{
    if let Err(_) = write_pieces(out, decision.output()) {
        let _tried = write_pieces(err, write_line());
        return Status::WriteFault;
    }
    if let Err(_) = write_pieces(err, decision.fault_line()) {
        return Status::WriteFault;
    }
    decision.status()
}
