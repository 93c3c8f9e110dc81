// Where the program reads and where it writes.
ghost use Rattle.std.specs.Prelude.{◌≡◌, ◌<◌, ◌≤◌, length, IfOk};
ghost use Rattle.byte_streams.specs.Devices.{Account, after};

/// That a device failed.
#[derive(Clone, Copy)]
pub struct DeviceError;

/// A reader of bytes.
pub trait Source {
    // what it gave so far, and how it ended
    ghost account: { Self → Account };

    /// Reads into the front of the buffer, and answers how many bytes: 0 at the end.
    fn read(&mut self, buffer: &mut [u8]) -> Result<usize, DeviceError>
        requires { 0 < length buffer.old }
        ensures within { IfOk result (λ n. n ≤ length buffer.new) }
        ensures account { account self.new ≡ after (account self.old) result buffer.new };
}

/// A writer of bytes.
pub trait Sink {
    // what it took so far, and how it ended
    ghost account: { Self → Account };

    /// Writes the front of the bytes, and answers how many it took.
    fn write(&mut self, bytes: &[u8]) -> Result<usize, DeviceError>
        requires { 0 < length bytes.now }
        ensures within { IfOk result (λ n. n ≤ length bytes.now) }
        ensures account { account self.new ≡ after (account self.old) result bytes.now };
}
