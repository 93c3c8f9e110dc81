// Texts, numbers and offsets, put in a buffer.
ghost use Rattle.std.specs.Prelude.{◌+◌, ◌++◌, codes, decimal};

use crate::output_buffer::OutputBuffer;
use byte_streams::Sink;
use itoa::Buffer;

impl OutputBuffer {
    ghost use Rattle.gqlcst_run.specs.Buffering.{Puts};

    /// Puts a text.
    #[inline(always)]
    pub fn put_str<W: Sink>(&mut self, writer: &mut W, text: &str)
        ensures { Puts (self.old, W.account writer.old) text.now (self.new, W.account writer.new) }
    {
        self.put(writer, text.as_bytes());
    }

    /// Puts a number in decimal digits.
    pub fn put_number<W: Sink>(&mut self, writer: &mut W, number: usize)
        ensures { Puts (self.old, W.account writer.old) (decimal number) (self.new, W.account writer.new) }
    {
        let mut digits = Buffer::new();
        self.put_str(writer, digits.format(number));
    }

    // Puts a number that may be larger than a usize.
    fn put_wide_number<W: Sink>(&mut self, writer: &mut W, number: u128)
        ensures { Puts (self.old, W.account writer.old) (decimal number) (self.new, W.account writer.new) }
    {
        let mut digits = Buffer::new();
        self.put_str(writer, digits.format(number));
    }

    /// Puts the bytes from where to where a text of an error is, as `5:10`. The sum is made in 128 bits, since no
    /// contract of an error says that it fits in fewer.
    pub fn put_span<W: Sink>(&mut self, writer: &mut W, start: usize, len: usize)
        ensures { Puts (self.old, W.account writer.old) (decimal start ++ (codes ":" ++ decimal (start + len)))
            (self.new, W.account writer.new) }
    {
        self.put_number(writer, start);
        self.put_str(writer, ":");
        self.put_wide_number(writer, start as u128 + len as u128);
    }

    /// Puts the bytes from where to where something is, with a mark between them, as `5..10`.
    pub fn put_range<W: Sink>(&mut self, writer: &mut W, start: usize, mark: &str, end: usize)
        ensures { Puts (self.old, W.account writer.old) (decimal start ++ (mark.now ++ decimal end))
            (self.new, W.account writer.new) }
    {
        self.put_number(writer, start);
        self.put_str(writer, mark);
        self.put_number(writer, end);
    }
}
