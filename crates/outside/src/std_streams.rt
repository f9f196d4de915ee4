//! Sources and sinks over the streams of std.

ghost use Rattle.std.specs.Prelude.{◌≡◌, ◌≤◌, ◌<◌, ◌+◌, length, IfOk, OnErr, take, MatchResult};
ghost use Rattle.std.specs.Io.KnownBytes.{Keeps, Appends, ReadConsumes};

use crate::faults::Faults;
use crate::streams::{Sink, SinkFault, Source, SourceFault};
use std::io;
use std::io::{ErrorKind, Read, Write};

/// Input from a stream. What is left is told where the contract of the stream tells it: of the
/// standard input it is not.
#[derive(Drop)]
pub struct StdSource<I: Read + Drop> {
    stream: I,
    faults: Faults,
}

/// Output to a stream, which each write reaches: nothing stays behind in a buffer. What it holds is
/// told where the contract of the stream tells it: of the standard streams it is not.
#[derive(Drop)]
pub struct StdSink<O: Write + Drop> {
    stream: O,
    faults: Faults,
}

/// One read. A read that a signal cut short is made again.
pub fn read_once<I: Read>(stream: &mut I, piece: &mut [u8]) -> io::Result<usize>
    ensures fits { IfOk result (λ n. n ≤ length piece.old) }
    ensures bytes { ReadConsumes (I.remaining stream.old) (I.remaining stream.new) result piece.new }
{
    for _ in 0..u64::MAX {
        match stream.read(piece) {
            Err(e) if e.kind() == ErrorKind::Interrupted => {}
            Err(e) => return Err(e),
            Ok(n) => return Ok(n),
        }
    }
    Err(io::Error::from(ErrorKind::Interrupted))
}

/// One write, of at least one byte of a piece that isn't empty.
fn write_once<O: Write>(stream: &mut O, piece: &[u8]) -> io::Result<usize>
    ensures fits { IfOk result (λ n. n ≤ length piece.now) }
    ensures some { IfOk result (λ n. 0 < length piece.now → 0 < n) }
    ensures bytes { MatchResult result (λ n. Appends (O.contents stream.old) (O.contents stream.new) (take n piece.now)) (λ _. Keeps (O.contents stream.old) (O.contents stream.new)) }
{
    for _ in 0..u64::MAX {
        match stream.write(piece) {
            Err(e) if e.kind() == ErrorKind::Interrupted => {}
            Err(e) => return Err(e),
            Ok(0) if !piece.is_empty() => return Err(io::Error::from(ErrorKind::WriteZero)),
            Ok(n) => return Ok(n),
        }
    }
    Err(io::Error::from(ErrorKind::Interrupted))
}

/// Sends on what the stream keeps in a buffer.
fn flush_once<O: Write>(stream: &mut O) -> io::Result<()>
    ensures bytes { Keeps (O.contents stream.old) (O.contents stream.new) }
{
    for _ in 0..u64::MAX {
        match stream.flush() {
            Err(e) if e.kind() == ErrorKind::Interrupted => {}
            Err(e) => return Err(e),
            Ok(()) => return Ok(()),
        }
    }
    Err(io::Error::from(ErrorKind::Interrupted))
}

impl<I: Read + Drop> StdSource<I> {
    pub fn new(stream: I) -> StdSource<I>
        ensures { result ≡ record { stream = stream; faults = record { count = 0 } } }
    {
        StdSource {
            stream,
            faults: Faults::new(),
        }
    }
}

impl<I: Read + Drop> Source for StdSource<I> {
    ghost use Rattle.std.specs.Prelude.{IsSome, unwrap_or, [], None};

    ghost count = { λ s. s.faults.count };

    ghost course = { λ _. None };

    ghost tells = { λ s. IsSome (I.remaining s.stream) };

    ghost left = { λ s. unwrap_or (I.remaining s.stream) [] };

    fn faults(&self) -> u64 {
        self.faults.count
    }

    fn read(&mut self, piece: &mut [u8]) -> Result<usize, SourceFault> {
        match read_once(&mut self.stream, piece) {
            Ok(n) => Ok(n),
            Err(_) => {
                self.faults.raise();
                Err(SourceFault)
            }
        }
    }
}

impl<O: Write + Drop> StdSink<O> {
    pub fn new(stream: O) -> StdSink<O>
        ensures { result ≡ record { stream = stream; faults = record { count = 0 } } }
    {
        StdSink {
            stream,
            faults: Faults::new(),
        }
    }
}

impl<O: Write + Drop> Sink for StdSink<O> {
    ghost use Rattle.std.specs.Prelude.{IsSome, unwrap_or, [], None};

    ghost count = { λ s. s.faults.count };

    ghost course = { λ _. None };

    ghost room = { λ _. None };

    ghost tells = { λ s. IsSome (O.contents s.stream) };

    ghost held = { λ s. unwrap_or (O.contents s.stream) [] };

    fn faults(&self) -> u64 {
        self.faults.count
    }

    fn write(&mut self, piece: &[u8]) -> Result<usize, SinkFault> {
        match write_once(&mut self.stream, piece) {
            Ok(n) => match flush_once(&mut self.stream) {
                Ok(()) => Ok(n),
                Err(_) => {
                    self.faults.raise();
                    Err(SinkFault)
                }
            },
            Err(_) => {
                self.faults.raise();
                Err(SinkFault)
            }
        }
    }
}
