// The account of a device, which contracts alone see.
ghost use Rattle.std.specs.Prelude.{◌≡◌};
ghost use Rattle.byte_streams.specs.Devices as devices;

use crate::devices::DeviceError;
use ghost_value::Ghost;
use std::marker::Model;

/// The kind of an account.
#[derive(Drop)]
pub struct Account {}

impl Model for Account {
    ghost Value = { devices.Account };

    ghost view = { λ _. devices.nothing_moved };
}

/// The account of a device. It takes no bytes, and its methods do nothing at run time.
#[derive(Drop)]
pub struct Trace {
    pub account: Ghost<Account>,
}

// A call of a device.
#[derive(Clone, Copy)]
struct Call<'c> {
    answer: &'c Result<usize, DeviceError>,
    buffer: &'c [u8],
}

impl Trace {
    /// The account of a device that was not called.
    pub fn new() -> Trace
        ensures { result.account.value ≡ devices.nothing_moved }
    {
        Trace {
            account: Ghost::picked(&(), &()),
        }
    }

    /// The account after a call over a buffer that answered so.
    pub fn after(&self, answer: &Result<usize, DeviceError>, buffer: &[u8]) -> Trace
        ensures { result.account.value ≡ devices.after self.now.account.value answer.now buffer.now }
    {
        let call = Call { answer, buffer };
        Trace {
            account: Ghost::picked(&self.account, &call),
        }
    }
}
