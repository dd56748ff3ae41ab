//! The standard streams as sinks.
ghost use Rattle.std.specs.Prelude.{◌≡◌, ◌≤◌, ℕ, None, length};

use crate::sink::{Sink, SinkError};
use std::io;
use std::io::ErrorKind;
use std::marker::Model;
use std::rt::Runtime;

// The first bytes of a character, whose others come with the next piece.
#[derive(Clone, Copy, Debug)]
struct Partial {
    bytes: [u8; 4],
    len: usize,
}

#[derive(Clone, Copy, Debug)]
enum Stream {
    Output,
    Error(Partial),
}

/// A standard stream of a runtime. It tells nothing: a contract sees its count of faults alone.
#[derive(Drop)]
pub struct HostSink<'a, R> {
    rt: &'a R,
    stream: Stream,
    faults: u64,
}

impl<'a, R> Model for HostSink<'a, R> {
    ghost Value = { ℕ };

    ghost view = { λ s. s.faults };
}

// Writes a piece whole to the standard output. A write that takes nothing of what is left fails.
fn write_output<R: Runtime>(rt: &R, piece: &[u8]) -> io::Result<()> {
    let mut at = 0;
    for _ in 0..u64::MAX {
        if at >= piece.len() {
            return Ok(());
        }
        match rt.write_some(&piece[at..]) {
            Ok(0) => break,
            Ok(count) => at += count,
            Err(error) if error.kind() == ErrorKind::Interrupted => {}
            Err(error) => return Err(error),
        }
    }
    Err(io::Error::from(ErrorKind::WriteZero))
}

fn no_text() -> io::Error {
    io::Error::from(ErrorKind::InvalidData)
}

impl Partial {
    // Takes one more byte, and writes the character once it is whole.
    fn add<R: Runtime>(&mut self, rt: &R, byte: u8) -> io::Result<()> {
        if self.len >= self.bytes.len() {
            return Err(no_text());
        }
        self.bytes[self.len] = byte;
        self.len += 1;
        match str::from_utf8(&self.bytes[..self.len]) {
            Ok(character) => {
                rt.eprint(character)?;
                self.len = 0;
                Ok(())
            }
            Err(error) if error.error_len().is_some() => Err(no_text()),
            Err(_) => Ok(()),
        }
    }

    // Writes a piece to the standard error, which takes text alone. Of a character that the piece
    // cuts, the first bytes wait for the next piece.
    fn write<R: Runtime>(&mut self, rt: &R, piece: &[u8]) -> io::Result<()> {
        if self.len == 0 {
            if let Ok(text) = str::from_utf8(piece) {
                return rt.eprint(text);
            }
        }
        for byte in piece {
            self.add(rt, *byte)?;
        }
        Ok(())
    }
}

impl<'a, R: Runtime + AllocGlobal> HostSink<'a, R> {
    /// The standard output.
    pub fn out(rt: &'a R) -> HostSink<'a, R>
        ensures { result ≡ 0 }
    {
        HostSink {
            rt,
            stream: Stream::Output,
            faults: 0,
        }
    }

    /// The standard error, to which a runtime writes text alone: a byte that belongs to no UTF-8
    /// character is a fault. A character that a piece cuts is written with the piece that ends it.
    pub fn err(rt: &'a R) -> HostSink<'a, R>
        ensures { result ≡ 0 }
    {
        HostSink {
            rt,
            stream: Stream::Error(Partial {
                bytes: [0; 4],
                len: 0,
            }),
            faults: 0,
        }
    }
}

impl<'a, R: Runtime + AllocGlobal> Sink for HostSink<'a, R> {
    ghost told = { λ _. None };

    ghost faults = { λ s. s };

    fn write(&mut self, piece: &[u8]) -> Result<(), SinkError> {
        let written = match &mut self.stream {
            Stream::Output => write_output(self.rt, piece),
            Stream::Error(partial) => partial.write(self.rt, piece),
        };
        match written {
            Ok(()) => Ok(()),
            Err(_) => {
                self.faults = self.faults.saturating_add(1);
                Err(SinkError::Failed)
            }
        }
    }
}
