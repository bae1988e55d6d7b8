ghost use Rattle.std.specs.Prelude.{◌≡◌};

use super::fault::Fault;
use super::sink::Sink;
use std::io::Write;
use std::marker::Model;

/// A writer and the count of its failed writes. Contracts see only the count.
#[derive(Drop)]
struct Stream<W> {
    writer: W,
    faults: u64,
}

impl<W> Model for Stream<W> {
    ghost use Rattle.std.specs.Prelude.{ℕ};

    ghost Value = { ℕ };

    ghost view = { λ stream. stream.faults };
}

impl<W: Write> Stream<W> {
    fn new(writer: W) -> Stream<W>
        ensures { result ≡ 0 }
    {
        Stream { writer, faults: 0 }
    }
}

impl<W: Write> Sink for Stream<W> {
    ghost use Rattle.std.specs.Prelude.{None};

    ghost faults = { λ faults. faults };

    ghost written = { λ faults. None };

    fn write(&mut self, piece: &[u8]) -> Result<usize, Fault> {
        match self.writer.write(piece) {
            Ok(count) if count > 0 || piece.is_empty() => Ok(count),
            _ => {
                self.faults = self.faults.saturating_add(1);
                Err(Fault)
            }
        }
    }
}

/// Standard output, or another writer in its place. Contracts see only how often it failed. A call
/// fails also where the writer takes no byte of a piece that is not empty, and where it is
/// interrupted.
#[derive(Drop)]
pub struct OutSink<W> {
    stream: Stream<W>,
}

impl<W> Model for OutSink<W> {
    ghost use Rattle.std.specs.Prelude.{ℕ};

    ghost Value = { ℕ };

    ghost view = { λ sink. sink.stream };
}

impl<W: Write> OutSink<W> {
    /// Takes no memory and writes nothing.
    pub fn new(writer: W) -> OutSink<W>
        ensures { result ≡ 0 }
    {
        OutSink {
            stream: Stream::new(writer),
        }
    }
}

impl<W: Write> Sink for OutSink<W> {
    ghost use Rattle.std.specs.Prelude.{None};

    ghost faults = { λ faults. faults };

    ghost written = { λ faults. None };

    fn write(&mut self, piece: &[u8]) -> Result<usize, Fault> {
        self.stream.write(piece)
    }
}

/// Standard error, or another writer in its place. It works as `OutSink`, and is a type of its own
/// so that the two cannot be swapped.
#[derive(Drop)]
pub struct ErrSink<W> {
    stream: Stream<W>,
}

impl<W> Model for ErrSink<W> {
    ghost use Rattle.std.specs.Prelude.{ℕ};

    ghost Value = { ℕ };

    ghost view = { λ sink. sink.stream };
}

impl<W: Write> ErrSink<W> {
    /// Takes no memory and writes nothing.
    pub fn new(writer: W) -> ErrSink<W>
        ensures { result ≡ 0 }
    {
        ErrSink {
            stream: Stream::new(writer),
        }
    }
}

impl<W: Write> Sink for ErrSink<W> {
    ghost use Rattle.std.specs.Prelude.{None};

    ghost faults = { λ faults. faults };

    ghost written = { λ faults. None };

    fn write(&mut self, piece: &[u8]) -> Result<usize, Fault> {
        self.stream.write(piece)
    }
}
