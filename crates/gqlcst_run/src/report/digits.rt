// An offset, in decimal digits.
ghost use Rattle.std.specs.Prelude.{◌≡◌, ◌≤◌, decimal, drop};

use itoa::Integer;

/// A number of bytes and its digits. An item begins where the one before it ends, so its first digits are at hand. The
/// number has 128 bits, since no contract of an item says that its end fits in fewer.
#[derive(Drop)]
pub struct Digits {
    number: u128,
    bytes: [u8; 40],
    first: usize,
    ghost within: { first ≤ 40 },
    ghost written: { drop first bytes ≡ decimal number },
}

impl Digits {
    /// The beginning of a text.
    pub fn new() -> Digits
        ensures { result.number ≡ 0 }
    {
        let mut bytes = [0; 40];
        let first = 0u128.write(&mut bytes);
        Digits {
            number: 0,
            bytes,
            first,
        }
    }

    /// Moves on by this many bytes.
    #[inline(always)]
    pub fn move_to(&mut self, number: u128)
        ensures { self.new.number ≡ number }
    {
        if self.number != number {
            self.first = number.write(&mut self.bytes);
            self.number = number;
        }
    }

    /// The digits.
    #[inline(always)]
    pub fn digits(&self) -> &[u8]
        ensures { result.now ≡ decimal self.now.number }
    {
        &self.bytes[self.first..]
    }
}
