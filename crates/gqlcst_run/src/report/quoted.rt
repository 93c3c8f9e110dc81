// Texts in quotes, as `{:?}` writes them.
ghost use Rattle.std.specs.Prelude.{◌≡◌, ◌<◌, ◌≤◌, ◌++◌, false, length, take, codes};
ghost use Rattle.std.specs.List.{prefix_len, flat_map, list_all};
ghost use Rattle.std.specs.Fmt.{digits, digit_glyph, debug_escape, debug_escape_letter, debug_str};
ghost use Rattle.gqlcst_run.specs.Quoted.{is_plain, is_control, IsEscaped};
ghost use Rattle.gqlcst_run.specs.Rendering.{IsForm, IsFormAfter};

use crate::output_buffer::OutputBuffer;
use byte_streams::Sink;

// Whether a byte is written as it is between quotes: a character of ASCII that prints, but for the quote and the
// backslash.
#[inline(always)]
fn is_plain(byte: u8) -> bool
    ensures { result ≡ is_plain byte }
{
    32 <= byte && byte <= 126 && byte != 34 && byte != 92
}

fn is_control(byte: u8) -> bool
    ensures { result ≡ is_control byte }
{
    byte < 32 || byte == 127
}

// How many plain bytes are at the front.
fn plain_len(bytes: &[u8]) -> usize
    ensures value { result ≡ prefix_len is_plain bytes.now }
    ensures within { result ≤ length bytes.now }
{
    bytes.iter().take_while(|b| is_plain(**b)).count()
}

// Whether all bytes are plain. A long text is gone over to its end, since a loop without an early end takes many bytes
// at a time.
#[inline(always)]
fn are_plain(bytes: &[u8]) -> bool
    ensures { result ≡ list_all is_plain bytes.now }
{
    if bytes.len() < 16 {
        return bytes.iter().all(|b| is_plain(*b));
    }
    let mut all = true;
    for byte in bytes {
        all &= is_plain(*byte);
    }
    all
}

// The letter that is written for a byte after a backslash, or 0 when there is none.
fn escape_letter(byte: u8) -> u8
    ensures { result ≡ debug_escape_letter byte 34 }
{
    match byte {
        b'"' | b'\\' => byte,
        b'\0' => b'0',
        b'\t' => b't',
        b'\n' => b'n',
        b'\r' => b'r',
        _ => 0,
    }
}

fn hex_digit(value: u8) -> u8
    requires { value < 16 }
    ensures { result ≡ digit_glyph false value }
{
    if value < 10 { 48 + value } else { 87 + value }
}

impl OutputBuffer {
    ghost use Rattle.gqlcst_run.specs.Buffering.{Puts, PutsSome, PutsAny};

    // Puts a byte in hex digits.
    #[tactic(auto, using(crate::proofs::Quoting::hex_put_one, crate::proofs::Quoting::hex_put_two))]
    fn put_hex<W: Sink>(&mut self, writer: &mut W, byte: u8)
        ensures { Puts (self.old, W.account writer.old) (digits 16 false byte) (self.new, W.account writer.new) }
    {
        if byte < 16 {
            self.put(writer, &[hex_digit(byte)]);
            return;
        }
        self.put(writer, &[hex_digit(byte / 16), hex_digit(byte % 16)]);
    }

    // Puts a control character's number, as `\u{1}`.
    #[cold]
    fn put_control<W: Sink>(&mut self, writer: &mut W, byte: u8)
        ensures { Puts (self.old, W.account writer.old) (codes "\\u{" ++ (digits 16 false byte ++ codes "}"))
            (self.new, W.account writer.new) }
    {
        self.put(writer, b"\\u{");
        self.put_hex(writer, byte);
        self.put(writer, b"}");
    }

    // Puts a byte as it is written between quotes.
    #[tactic(auto, using(crate::proofs::Quoting::letter_put, crate::proofs::Quoting::control_put, crate::proofs::Quoting::other_put))]
    fn put_escape<W: Sink>(&mut self, writer: &mut W, byte: u8)
        ensures { Puts (self.old, W.account writer.old) (debug_escape 34 byte) (self.new, W.account writer.new) }
    {
        let letter = escape_letter(byte);
        if letter != 0 {
            self.put(writer, &[b'\\', letter]);
            return;
        }
        if is_control(byte) {
            self.put_control(writer, byte);
            return;
        }
        self.put(writer, &[byte]);
    }

    // Puts the bytes at the front that are written as they are, or else one escape. Answers how many bytes it has put.
    #[tactic(auto, using(crate::proofs::Quoting::front_put, crate::proofs::Quoting::escape_put))]
    fn put_front<W: Sink>(&mut self, writer: &mut W, bytes: &[u8]) -> usize
        requires { 0 < length bytes.now }
        ensures puts { Puts (self.old, W.account writer.old) (flat_map (debug_escape 34) (take result bytes.now))
            (self.new, W.account writer.new) }
        ensures some { 0 < result }
        ensures within { result ≤ length bytes.now }
    {
        let plain = plain_len(bytes);
        if plain > 0 {
            self.put(writer, &bytes[..plain]);
            return plain;
        }
        self.put_escape(writer, bytes[0]);
        1
    }

    // Puts a text of ASCII as it is written between quotes.
    #[tactic(auto, using(crate::proofs::Quoting::part_none, crate::proofs::Quoting::part_more, crate::proofs::Quoting::part_all))]
    fn put_ascii_escaped<W: Sink>(&mut self, writer: &mut W, bytes: &[u8])
        ensures { Puts (self.old, W.account writer.old) (flat_map (debug_escape 34) bytes.now)
            (self.new, W.account writer.new) }
    {
        let mut rest = bytes;
        while !rest.is_empty() {
            let count = self.put_front(writer, rest);
            rest = &rest[count..];
        }
    }

    // Puts a character past ASCII as it is written between quotes. What that is is not stated.
    #[tactic(auto, using(crate::proofs::Buffers::any_none, crate::proofs::Buffers::any_then, crate::proofs::Buffers::any_any))]
    fn put_character<W: Sink>(&mut self, writer: &mut W, character: char)
        ensures { PutsAny (self.old, W.account writer.old) (self.new, W.account writer.new) }
    {
        for part in character.escape_debug() {
            let mut bytes = [0; 4];
            self.put(writer, part.encode_utf8(&mut bytes).as_bytes());
        }
    }

    // Puts a character as it is written between quotes.
    #[tactic(auto, using(crate::proofs::Buffers::any_of))]
    fn put_any_character<W: Sink>(&mut self, writer: &mut W, character: char)
        ensures { PutsAny (self.old, W.account writer.old) (self.new, W.account writer.new) }
    {
        if character.is_ascii() {
            self.put_escape(writer, character as u8);
            return;
        }
        self.put_character(writer, character);
    }

    // Puts a text as it is written between quotes. What that is is not stated.
    #[cold]
    #[tactic(auto, using(crate::proofs::Buffers::any_none, crate::proofs::Buffers::any_any))]
    fn put_any_escaped<W: Sink>(&mut self, writer: &mut W, text: &str)
        ensures { PutsAny (self.old, W.account writer.old) (self.new, W.account writer.new) }
    {
        for character in text.chars() {
            self.put_any_character(writer, character);
        }
    }

    /// Puts a text as it is written between quotes. What that is is stated for ASCII alone.
    #[tactic(auto, using(crate::proofs::Quoting::ascii_put, crate::proofs::Quoting::any_put))]
    pub fn put_escaped<W: Sink>(&mut self, writer: &mut W, text: &str)
        ensures { PutsSome (IsEscaped text.now) (self.old, W.account writer.old) (self.new, W.account writer.new) }
    {
        if text.is_ascii() {
            self.put_ascii_escaped(writer, text.as_bytes());
            return;
        }
        self.put_any_escaped(writer, text);
    }

    // Puts a text in quotes, with escapes.
    fn put_quoted_escaped<W: Sink>(&mut self, writer: &mut W, text: &str)
        ensures { PutsSome (IsForm (debug_str text.now)) (self.old, W.account writer.old)
            (self.new, W.account writer.new) }
    {
        self.put(writer, b"\"");
        self.put_escaped(writer, text);
        self.put(writer, b"\"");
    }

    /// Puts a text, and another one in quotes.
    #[inline(always)]
    #[tactic(auto, using(crate::proofs::Quoting::plain_put, crate::proofs::Quoting::quoted_put))]
    pub fn put_quoted_after<W: Sink>(&mut self, writer: &mut W, front: &str, text: &str)
        ensures { PutsSome (IsFormAfter front.now (debug_str text.now)) (self.old, W.account writer.old)
            (self.new, W.account writer.new) }
    {
        let bytes = text.as_bytes();
        if are_plain(bytes) {
            self.put_four(writer, front.as_bytes(), b"\"", bytes, b"\"");
            return;
        }
        self.put_str(writer, front);
        self.put_quoted_escaped(writer, text);
    }

    // Puts a text that is in three parts as it is written between quotes.
    #[inline(always)]
    #[tactic(auto, using(crate::proofs::Quoting::plain_parts_put))]
    fn put_escaped_parts<W: Sink>(&mut self, writer: &mut W, front: &str, middle: &str, back: &str)
        ensures { PutsSome (IsEscaped (front.now ++ middle.now ++ back.now)) (self.old, W.account writer.old)
            (self.new, W.account writer.new) }
    {
        let (one, two, three) = (front.as_bytes(), middle.as_bytes(), back.as_bytes());
        if are_plain(one) && are_plain(two) && are_plain(three) {
            self.put_four(writer, one, two, three, b"");
            return;
        }
        self.put_escaped(writer, front);
        self.put_escaped(writer, middle);
        self.put_escaped(writer, back);
    }

    /// Puts a text that is in three parts in quotes.
    pub fn put_quoted_parts<W: Sink>(
        &mut self,
        writer: &mut W,
        front: &str,
        middle: &str,
        back: &str,
    )
        ensures { PutsSome (IsForm (debug_str (front.now ++ middle.now ++ back.now))) (self.old, W.account writer.old)
            (self.new, W.account writer.new) }
    {
        self.put(writer, b"\"");
        self.put_escaped_parts(writer, front, middle, back);
        self.put(writer, b"\"");
    }
}
