ghost use Rattle.std.specs.Prelude.{◌≡◌, ◌<◌, ◌≤◌, length, None, IfOk};
ghost use Rattle.std.specs.Io.KnownBytes.{ReadConsumes, WriteAppends};
ghost use Rattle.flash_names.specs.Faults.{Counts};
ghost use Rattle.flash_names.specs.Adapters.{reader_of, source_faults_of, writer_of, sink_faults_of};

use crate::{Sink, SinkFault, Source, SourceFault};
use std::io::{Read, Write};

/// A source over a reader of `std`. It tells nothing of what is left. A read that the reader fails is a fault.
#[derive(Debug, Drop)]
pub struct ReaderSource<R> {
    reader: R,
    faults: u64,
}

impl<R> ReaderSource<R> {
    /// The source over this reader. It has counted no fault.
    pub fn new(reader: R) -> ReaderSource<R>
        ensures same { reader_of result ≡ reader }
        ensures none { source_faults_of result ≡ 0 }
    {
        ReaderSource { reader, faults: 0 }
    }
}

impl<R: Read> Source for ReaderSource<R> {
    ghost left = { λ _. None };

    ghost faults = { source_faults_of };

    fn read(&mut self, into: &mut [u8]) -> Result<usize, SourceFault>
        ensures bound { IfOk result (λ n. n ≤ length into.old) }
        ensures counts { Counts (source_faults_of self.old) (source_faults_of self.new) result }

        // The reader lost what it gave, and nothing by a read that failed.
        ensures passed_on { ReadConsumes (R.remaining (reader_of self.old))
            (R.remaining (reader_of self.new)) result into.new }
    {
        match self.reader.read(into) {
            Ok(n) => Ok(n),
            Err(_) => {
                self.faults = self.faults.saturating_add(1);
                Err(SourceFault)
            }
        }
    }
}

/// A sink over a writer of `std`. It tells nothing of what it holds. A write that the writer fails is a fault,
/// and so is one in which it takes nothing of a piece that isn't empty.
#[derive(Debug, Drop)]
pub struct WriterSink<W> {
    writer: W,
    faults: u64,
}

impl<W> WriterSink<W> {
    /// The sink over this writer. It has counted no fault.
    pub fn new(writer: W) -> WriterSink<W>
        ensures same { writer_of result ≡ writer }
        ensures none { sink_faults_of result ≡ 0 }
    {
        WriterSink { writer, faults: 0 }
    }
}

impl<W: Write> Sink for WriterSink<W> {
    ghost held = { λ _. None };

    ghost faults = { sink_faults_of };

    fn write(&mut self, bytes: &[u8]) -> Result<usize, SinkFault>
        ensures bound { IfOk result (λ n. n ≤ length bytes.now) }
        ensures progress { IfOk result (λ n. 0 < length bytes.now → 0 < n) }
        ensures counts { Counts (sink_faults_of self.old) (sink_faults_of self.new) result }

        // The writer got what it took, and nothing of a write that failed.
        ensures passed_on { WriteAppends (W.contents (writer_of self.old))
            (W.contents (writer_of self.new)) result bytes.now }
    {
        match self.writer.write(bytes) {
            Ok(n) if n > 0 || bytes.is_empty() => Ok(n),
            _ => {
                self.faults = self.faults.saturating_add(1);
                Err(SinkFault)
            }
        }
    }
}
