// A reader that waits.
use std::io::{self, ErrorKind, Read};
use std::time::Duration;
use std::{rt, thread};

// How long it waits before it asks again, in milliseconds.
const PAUSE: u64 = 5;

/// Reads from another reader, and waits while that has nothing yet, as a pipe that does not block.
#[derive(Drop)]
pub struct Patient<'r, R, I> {
    runtime: &'r R,
    reader: I,
}

impl<'r, R, I> Patient<'r, R, I> {
    /// One that waits by the clock of this runtime.
    pub fn new(runtime: &'r R, reader: I) -> Self {
        Patient { runtime, reader }
    }
}

impl<R: rt::Clock, I: Read> Read for Patient<'_, R, I> {
    fn read(&mut self, buf: &mut [u8]) -> io::Result<usize> {
        for _ in 0..u64::MAX {
            match self.reader.read(buf) {
                Ok(count) => return Ok(count),
                Err(error) if error.kind() == ErrorKind::WouldBlock => {
                    thread::sleep(self.runtime, Duration::from_millis(PAUSE));
                }
                Err(error) => return Err(error),
            }
        }
        Err(io::Error::from(ErrorKind::WouldBlock))
    }
}
