// Standard readers and writers as devices of the program.
ghost use Rattle.std.specs.Prelude.{◌≡◌, ◌<◌, ◌≤◌, length, IfOk};
ghost use Rattle.std.specs.Io.KnownBytes.{ReadConsumes, WriteAppends};
ghost use Rattle.byte_streams.specs.Devices.{nothing_moved, after};

use crate::devices::{DeviceError, Sink, Source};
use crate::trace::Trace;
use std::io::{Read, Write};

/// A reader of `std` as a source. Any failure of the reader, an interruption too, is one of the source.
#[derive(Drop)]
pub struct StdSource<R> {
    reader: R,
    trace: Trace,
}

impl<R: Read> StdSource<R> {
    /// The reader, before its first call.
    pub fn new(reader: R) -> Self
        ensures reader { result.reader ≡ reader }
        ensures account { result.trace.account.value ≡ nothing_moved }
    {
        StdSource {
            reader,
            trace: Trace::new(),
        }
    }
}

impl<R: Read> Source for StdSource<R> {
    ghost account = { λ source. source.trace.account.value };

    fn read(&mut self, buffer: &mut [u8]) -> Result<usize, DeviceError>
        requires { 0 < length buffer.old }
        ensures within { IfOk result (λ n. n ≤ length buffer.new) }
        ensures account { self.new.trace.account.value ≡ after self.old.trace.account.value result buffer.new }
        ensures bytes { ReadConsumes (R.remaining self.old.reader) (R.remaining self.new.reader) result buffer.new }
    {
        let answer = match self.reader.read(buffer) {
            Ok(count) => Ok(count),
            Err(_) => Err(DeviceError),
        };
        self.trace = self.trace.after(&answer, buffer);
        answer
    }
}

/// A writer of `std` as a sink. Any failure of the writer, an interruption too, is one of the sink.
#[derive(Drop)]
pub struct StdSink<W> {
    writer: W,
    trace: Trace,
}

impl<W: Write> StdSink<W> {
    /// The writer, before its first call.
    pub fn new(writer: W) -> Self
        ensures writer { result.writer ≡ writer }
        ensures account { result.trace.account.value ≡ nothing_moved }
    {
        StdSink {
            writer,
            trace: Trace::new(),
        }
    }
}

impl<W: Write> Sink for StdSink<W> {
    ghost account = { λ sink. sink.trace.account.value };

    fn write(&mut self, bytes: &[u8]) -> Result<usize, DeviceError>
        requires { 0 < length bytes.now }
        ensures within { IfOk result (λ n. n ≤ length bytes.now) }
        ensures account { self.new.trace.account.value ≡ after self.old.trace.account.value result bytes.now }
        ensures bytes { WriteAppends (W.contents self.old.writer) (W.contents self.new.writer) result bytes.now }
    {
        let answer = match self.writer.write(bytes) {
            Ok(count) => Ok(count),
            Err(_) => Err(DeviceError),
        };
        self.trace = self.trace.after(&answer, bytes);
        answer
    }
}
