// A buffer: what is written is collected in it, so that the writer is called seldom, and writing needs no memory.
ghost use Rattle.std.specs.Prelude.{◌≡◌, ◌+◌, ◌≤◌, [], ◌++◌, length, take};
ghost use Rattle.gqlcst_run.specs.Passing.{IsPassed};

use byte_streams::{Fault, Sink, write_all};

// How many bytes a buffer holds.
const SIZE: usize = 65536;

/// Bytes that wait for a writer. It has a fixed size, and needs no memory of an allocator. When the writer fails or
/// takes no byte, nothing goes to it any more, and `finish` says so.
#[derive(Drop)]
pub struct OutputBuffer {
    bytes: [u8; 65536],
    filled: usize,
    is_broken: bool,
    ghost within: { filled ≤ 65536 },
}

// Writes the bytes, unless the writer has failed before. Answers whether it has failed now.
#[tactic(auto, using(crate::proofs::Buffers::ends_broken))]
fn pass<W: Sink>(writer: &mut W, is_broken: bool, bytes: &[u8]) -> bool
    ensures { IsPassed is_broken bytes.now (W.account writer.old) result (W.account writer.new) }
{
    if is_broken {
        return true;
    }
    match write_all(writer, bytes) {
        Ok(()) => false,
        Err(_) => true,
    }
}

// Writes a text into a buffer from an offset on. Answers where it ends.
#[inline(always)]
fn write_at(buffer: &mut [u8; 65536], start: usize, text: &[u8]) -> usize
    requires { start + length text.now ≤ 65536 }
    ensures end { result ≡ start + length text.now }
    ensures written { take result buffer.new ≡ take start buffer.old ++ text.now }
{
    let end = start + text.len();
    buffer[start..end].copy_from_slice(text);
    end
}

impl OutputBuffer {
    ghost use Rattle.gqlcst_run.specs.Buffering.{waiting, IsEmpty, Puts, Finishes};

    /// A buffer with nothing in it.
    pub fn new() -> OutputBuffer
        ensures { IsEmpty result }
    {
        OutputBuffer {
            bytes: [0; 65536],
            filled: 0,
            is_broken: false,
        }
    }

    // Puts bytes that there is room for.
    #[inline(always)]
    fn fill(&mut self, bytes: &[u8])
        requires { self.old.filled + length bytes.now ≤ 65536 }
        ensures waiting { waiting self.new ≡ waiting self.old ++ bytes.now }
        ensures broken { self.new.is_broken ≡ self.old.is_broken }
    {
        self.filled = write_at(&mut self.bytes, self.filled, bytes);
    }

    // Writes what is in the buffer.
    #[tactic(auto, using(crate::proofs::Buffers::flushed))]
    fn flush<W: Sink>(&mut self, writer: &mut W)
        ensures puts { Puts (self.old, W.account writer.old) [] (self.new, W.account writer.new) }
        ensures empty { self.new.filled ≡ 0 }
    {
        self.is_broken = pass(writer, self.is_broken, &self.bytes[..self.filled]);
        self.filled = 0;
    }

    // Puts bytes that the buffer has no room for.
    #[cold]
    #[tactic(auto, using(crate::proofs::Buffers::puts_then, crate::proofs::Buffers::filled, crate::proofs::Buffers::put_through))]
    fn put_without_room<W: Sink>(&mut self, writer: &mut W, bytes: &[u8])
        ensures { Puts (self.old, W.account writer.old) bytes.now (self.new, W.account writer.new) }
    {
        self.flush(writer);
        if bytes.len() <= SIZE {
            self.fill(bytes);
        } else {
            self.is_broken = pass(writer, self.is_broken, bytes);
        }
    }

    /// Puts bytes at the end.
    #[inline(always)]
    #[tactic(auto, using(crate::proofs::Buffers::filled))]
    pub fn put<W: Sink>(&mut self, writer: &mut W, bytes: &[u8])
        ensures { Puts (self.old, W.account writer.old) bytes.now (self.new, W.account writer.new) }
    {
        if bytes.len() <= SIZE - self.filled {
            self.fill(bytes);
        } else {
            self.put_without_room(writer, bytes);
        }
    }

    // Puts four texts that there is room for.
    #[inline(always)]
    fn fill_four(&mut self, one: &[u8], two: &[u8], three: &[u8], four: &[u8])
        requires { self.old.filled + (length one.now + (length two.now + (length three.now + length four.now)))
            ≤ 65536 }
        ensures waiting { waiting self.new ≡ waiting self.old ++ (one.now ++ (two.now ++ (three.now ++ four.now))) }
        ensures broken { self.new.is_broken ≡ self.old.is_broken }
    {
        let first = write_at(&mut self.bytes, self.filled, one);
        let second = write_at(&mut self.bytes, first, two);
        let third = write_at(&mut self.bytes, second, three);
        self.filled = write_at(&mut self.bytes, third, four);
    }

    // Puts four texts, one after the other.
    #[cold]
    fn put_each<W: Sink>(
        &mut self,
        writer: &mut W,
        one: &[u8],
        two: &[u8],
        three: &[u8],
        four: &[u8],
    )
        ensures { Puts (self.old, W.account writer.old) (one.now ++ (two.now ++ (three.now ++ four.now)))
            (self.new, W.account writer.new) }
    {
        self.put(writer, one);
        self.put(writer, two);
        self.put(writer, three);
        self.put(writer, four);
    }

    /// Puts four texts, one after the other, with one look at the room for them.
    #[inline(always)]
    #[tactic(auto, using(crate::proofs::Buffers::filled))]
    pub fn put_four<W: Sink>(
        &mut self,
        writer: &mut W,
        one: &[u8],
        two: &[u8],
        three: &[u8],
        four: &[u8],
    )
        ensures { Puts (self.old, W.account writer.old) (one.now ++ (two.now ++ (three.now ++ four.now)))
            (self.new, W.account writer.new) }
    {
        let room = SIZE - self.filled;
        let front = one.len().saturating_add(two.len());
        let back = three.len().saturating_add(four.len());
        if front.saturating_add(back) <= room {
            self.fill_four(one, two, three, four);
        } else {
            self.put_each(writer, one, two, three, four);
        }
    }

    /// Writes what is left in the buffer. It fails when the writer has failed or took no byte, now or before.
    #[tactic(auto, using(crate::proofs::Buffers::finished_ok, crate::proofs::Buffers::finished_err))]
    pub fn finish<W: Sink>(&mut self, writer: &mut W) -> Result<(), Fault>
        ensures { Finishes result (self.old, W.account writer.old) (W.account writer.new) }
    {
        self.flush(writer);
        if self.is_broken {
            return Err(Fault::Write);
        }
        Ok(())
    }
}
