ghost use Rattle.std.specs.Prelude.{◌≡◌, ◌≤◌, OnOk, IsErrOf};
ghost use Rattle.std.specs.Io.KnownBytes.{Appends};
ghost use Rattle.sr_outside.specs.Writing.{AppendsPart};

use crate::{Sink, WriteRefusal};
use std::io::Write;

/// A writer of std as the run's output, as a rule the standard output. It tells what the writer tells.
#[derive(Drop)]
pub struct OutSink<W: Write + Drop> {
    writer: W,
    faults: u64,
}

impl<W: Write + Drop> OutSink<W> {
    /// A sink over a writer.
    pub fn over(writer: W) -> OutSink<W>
        ensures { ⟦<OutSink<W> as Sink>⟧.written result ≡ W.contents writer }
    {
        OutSink { writer, faults: 0 }
    }
}

impl<W: Write + Drop> Sink for OutSink<W> {
    ghost written = { λ sink. W.contents sink.writer };

    ghost faults = { λ sink. sink.faults };

    fn write_all(&mut self, bytes: &[u8]) -> Result<(), WriteRefusal> {
        match write_whole(&mut self.writer, bytes) {
            Whole::Taken => Ok(()),
            Whole::Fault => {
                self.faults = self.faults.saturating_add(1);
                Err(WriteRefusal::Failed)
            }
        }
    }
}

/// A writer of std for the lines on the run's errors, as a rule the standard error. It tells what the writer tells.
#[derive(Drop)]
pub struct ErrSink<W: Write + Drop> {
    writer: W,
    faults: u64,
}

impl<W: Write + Drop> ErrSink<W> {
    /// A sink over a writer.
    pub fn over(writer: W) -> ErrSink<W>
        ensures { ⟦<ErrSink<W> as Sink>⟧.written result ≡ W.contents writer }
    {
        ErrSink { writer, faults: 0 }
    }
}

impl<W: Write + Drop> Sink for ErrSink<W> {
    ghost written = { λ sink. W.contents sink.writer };

    ghost faults = { λ sink. sink.faults };

    fn write_all(&mut self, bytes: &[u8]) -> Result<(), WriteRefusal> {
        match write_whole(&mut self.writer, bytes) {
            Whole::Taken => Ok(()),
            Whole::Fault => {
                self.faults = self.faults.saturating_add(1);
                Err(WriteRefusal::Failed)
            }
        }
    }
}

/// Whether a writer took all bytes.
#[derive(Clone, Copy, Debug, PartialEq, Eq)]
enum Whole {
    Taken,
    Fault,
}

/// Writes until all is taken. A piece of which nothing is taken is a fault.
fn write_whole<W: Write>(writer: &mut W, bytes: &[u8]) -> Whole
    ensures taken { result ≡ Whole.Taken → Appends (W.contents writer.old) (W.contents writer.new) bytes.now }
    ensures part { result ≡ Whole.Fault → AppendsPart (W.contents writer.old) (W.contents writer.new) bytes.now }
{
    let mut at = 0usize;
    while at < bytes.len() {
        match writer.write(&bytes[at..]) {
            Ok(0) | Err(_) => return Whole::Fault,
            Ok(taken) => at += taken,
        }
    }
    Whole::Taken
}
