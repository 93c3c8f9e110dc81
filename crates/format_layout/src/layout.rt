// The writer of tokens and of the gaps between them. Functions called for each token are inlined: the whole program
// takes some 3 % less time.
ghost use Rattle.std.specs.Prelude.{◌≡◌, ◌+◌, ◌*◌, ◌<◌, ◌≤◌, true, false, [], List, IfOk, OnOk, length, slice_index};
ghost use Rattle.std.specs.Prelude.{string_bytes};
ghost use Rattle.std.specs.List.{list_all};
ghost use Rattle.lexical_grammar.specs.Cut.{Word};
ghost use Rattle.lexical_grammar.specs.Tokens.{Tok};
ghost use Rattle.lexical_grammar.specs.Reads.{items_of};
ghost use Rattle.lexical_grammar.specs.Edges.{touches};
ghost use Rattle.lexical_grammar.specs.Kept.{Holds, is_kept_kind};
ghost use Rattle.lexical_grammar.specs.declared.edge.Edge.TheVariants.{Whitespace};
ghost use Rattle.format_layout.specs.Laid.{Adds, Keeps, Laid, ended_length, is_gap_byte, takes_blank};

use crate::gap::Gap;
use ghost_value::{Ghost, Natural};
use lexical_grammar::{Edge, TokenKind};
use std::alloc::{AllocError, Allocator};

// What spaces are copied from, as many at once as most lines are indented by, and a line feed with them.
const SPACES: &str = "                                ";

const LINE: &str = "\n                                ";

/// Writes tokens, and commas and white space between them. At each moment its text has a cut without bad text, whose
/// significant tokens and comments are those that were written.
#[derive(Drop)]
pub struct Layout<A: Allocator> {
    text: String<A>,
    edge: Edge,
    // how many tokens it has written at most that are no white space
    tokens: Ghost<Natural>,
}

impl<A: Allocator> Layout<A> {
    /// A writer that has written nothing, with room for `capacity` bytes. It fails only where memory is refused.
    pub fn with_capacity(alloc: A, capacity: usize) -> Result<Layout<A>, AllocError>
        ensures laid { IfOk result (λ l. Laid (string_bytes l.text) l.edge l.tokens.value []) }
        ensures empty { IfOk result (λ l. ended_length (string_bytes l.text) l.edge ≡ 0) }
        ensures none { IfOk result (λ l. l.tokens.value ≡ 0) }
    {
        Ok(Layout {
            text: String::with_capacity(alloc, capacity)?,
            edge: Edge::Free,
            tokens: Ghost::zero(),
        })
    }

    /// How many bytes it has written.
    #[inline(always)]
    pub fn len(&self) -> usize
        ensures { result ≡ length (string_bytes self.now.text) }
    {
        self.text.len()
    }

    // Whether this line feed or space may follow: white space goes on, and other tokens it has to follow directly.
    #[inline(always)]
    fn takes_blank(&self, byte: u8) -> bool
        ensures { result ≡ takes_blank self.now.edge byte }
    {
        self.edge == Edge::Whitespace || self.edge.may_touch(TokenKind::Whitespace, byte)
    }

    // Line feeds and spaces, where the first of them may follow.
    #[inline(always)]
    fn push_blanks(&mut self, run: &str) -> Result<(), AllocError>
        requires some { 0 < length run.now }
        requires blank { list_all is_gap_byte run.now ≡ true }
        requires apart { takes_blank self.old.edge (slice_index run.now 0) ≡ true }
        ensures keeps { OnOk result
            (Keeps (string_bytes self.old.text) self.old.edge self.old.tokens.value (string_bytes self.new.text)
            self.new.edge self.new.tokens.value) }
        ensures edge { OnOk result (self.new.edge ≡ Whitespace) }
        ensures short { OnOk result
            (ended_length (string_bytes self.new.text) self.new.edge
            ≤ length (string_bytes self.old.text) + length run.now) }
        ensures few { OnOk result (self.new.tokens.value ≡ self.old.tokens.value) }
    {
        self.text.push_str(run)?;
        self.edge = Edge::Whitespace;
        Ok(())
    }

    /// Writes a line feed. It fails only where memory is refused.
    #[inline(always)]
    pub fn line(&mut self) -> Result<(), AllocError>
        ensures keeps { OnOk result
            (Keeps (string_bytes self.old.text) self.old.edge self.old.tokens.value (string_bytes self.new.text)
            self.new.edge self.new.tokens.value) }
        ensures edge { OnOk result (self.new.edge ≡ Whitespace) }
        ensures short { OnOk result
            (ended_length (string_bytes self.new.text) self.new.edge ≤ length (string_bytes self.old.text) + 1) }
        ensures few { OnOk result (self.new.tokens.value ≡ self.old.tokens.value) }
    {
        self.push_blanks("\n")
    }

    // Line feeds and spaces, which after a comment begin in the next line.
    #[inline(always)]
    fn blanks(&mut self, run: &str) -> Result<(), AllocError>
        requires { list_all is_gap_byte run.now ≡ true }
        ensures keeps { OnOk result
            (Keeps (string_bytes self.old.text) self.old.edge self.old.tokens.value (string_bytes self.new.text)
            self.new.edge self.new.tokens.value) }
        ensures edge { OnOk result (0 < length run.now → self.new.edge ≡ Whitespace) }
        ensures short { OnOk result
            (ended_length (string_bytes self.new.text) self.new.edge
            ≤ ended_length (string_bytes self.old.text) self.old.edge + length run.now) }
        ensures few { OnOk result (self.new.tokens.value ≡ self.old.tokens.value) }
    {
        let Some(first) = run.as_bytes().first() else {
            return Ok(());
        };
        if !self.takes_blank(*first) {
            self.line()?;
        }
        self.push_blanks(run)?;
        Ok(())
    }

    /// Writes a space. It fails only where memory is refused.
    pub fn space(&mut self) -> Result<(), AllocError>
        ensures keeps { OnOk result
            (Keeps (string_bytes self.old.text) self.old.edge self.old.tokens.value (string_bytes self.new.text)
            self.new.edge self.new.tokens.value) }
        ensures short { OnOk result
            (ended_length (string_bytes self.new.text) self.new.edge
            ≤ ended_length (string_bytes self.old.text) self.old.edge + 1) }
        ensures few { OnOk result (self.new.tokens.value ≡ self.old.tokens.value) }
    {
        self.blanks(" ")
    }

    // So many spaces.
    #[inline(always)]
    fn spaces(&mut self, count: usize) -> Result<(), AllocError>
        ensures keeps { OnOk result
            (Keeps (string_bytes self.old.text) self.old.edge self.old.tokens.value (string_bytes self.new.text)
            self.new.edge self.new.tokens.value) }
        ensures short { OnOk result
            (ended_length (string_bytes self.new.text) self.new.edge
            ≤ ended_length (string_bytes self.old.text) self.old.edge + count) }
        ensures few { OnOk result (self.new.tokens.value ≡ self.old.tokens.value) }
    {
        if count == 1 {
            // between most tokens
            return self.blanks(" ");
        }
        for _ in 0..count / SPACES.len() {
            self.blanks(SPACES)?;
        }
        if let Some(run) = SPACES.get(..count % SPACES.len()) {
            self.blanks(run)?;
        }
        Ok(())
    }

    // A comma, but nothing after a comment.
    #[inline(always)]
    fn comma(&mut self) -> Result<(), AllocError>
        ensures keeps { OnOk result
            (Keeps (string_bytes self.old.text) self.old.edge self.old.tokens.value (string_bytes self.new.text)
            self.new.edge self.new.tokens.value) }
        ensures short { OnOk result
            (ended_length (string_bytes self.new.text) self.new.edge
            ≤ ended_length (string_bytes self.old.text) self.old.edge + 1) }
        ensures few { OnOk result (self.new.tokens.value ≤ self.old.tokens.value + 1) }
    {
        if !self.edge.may_touch(TokenKind::Comma, b',') {
            return Ok(());
        }
        self.text.push_str(",")?;
        self.edge = Edge::Free;
        self.tokens.add_one();
        Ok(())
    }

    /// Writes what is to be before a token. It fails only where memory is refused.
    #[inline(always)]
    pub fn gap(&mut self, gap: Gap) -> Result<(), AllocError>
        ensures keeps { OnOk result
            (Keeps (string_bytes self.old.text) self.old.edge self.old.tokens.value (string_bytes self.new.text)
            self.new.edge self.new.tokens.value) }
        ensures short { OnOk result
            (ended_length (string_bytes self.new.text) self.new.edge
            ≤ ended_length (string_bytes self.old.text) self.old.edge + gap.lines + gap.spaces + 1) }
        ensures few { OnOk result (self.new.tokens.value ≤ self.old.tokens.value + 1) }
        ensures blank { OnOk result (gap.comma ≡ false → self.new.tokens.value ≡ self.old.tokens.value) }
    {
        if gap.comma {
            self.comma()?;
        }
        let spaces = usize::from(gap.spaces);
        if gap.lines == 1 {
            // most lines are written at once
            if let Some(run) = LINE.get(..1 + spaces) {
                return self.blanks(run);
            }
        }
        for _ in 0..gap.lines {
            self.line()?;
        }
        self.spaces(spaces)
    }

    // The token, where it may follow directly.
    #[inline(always)]
    fn put(&mut self, kind: TokenKind, text: &str) -> Result<(), AllocError>
        requires token { Tok kind text.now }
        requires apart { touches self.old.edge (record { kind = kind; text = text.now }) ≡ true }
        ensures adds { OnOk result
            (Adds (string_bytes self.old.text) self.old.edge self.old.tokens.value
            (record { kind = kind; text = text.now }) (string_bytes self.new.text) self.new.edge
            self.new.tokens.value) }
        ensures short { OnOk result
            (ended_length (string_bytes self.new.text) self.new.edge
            ≤ length (string_bytes self.old.text) + length text.now + 1) }
        ensures few { OnOk result (self.new.tokens.value ≤ self.old.tokens.value + 1) }
    {
        self.text.push_str(text)?;
        self.edge = Edge::of(kind, text);
        self.tokens.add_one();
        Ok(())
    }

    /// Writes a significant token or a comment: after a space where it could not follow directly, and after a line feed
    /// where that is a comment. It fails only where memory is refused.
    #[inline(always)]
    pub fn token(&mut self, kind: TokenKind, text: &str) -> Result<(), AllocError>
        requires token { Tok kind text.now }
        requires kept { is_kept_kind kind ≡ true }
        ensures adds { OnOk result
            (Adds (string_bytes self.old.text) self.old.edge self.old.tokens.value
            (record { kind = kind; text = text.now }) (string_bytes self.new.text) self.new.edge
            self.new.tokens.value) }
        ensures short { OnOk result
            (ended_length (string_bytes self.new.text) self.new.edge
            ≤ ended_length (string_bytes self.old.text) self.old.edge + length text.now + 2) }
        ensures few { OnOk result (self.new.tokens.value ≤ self.old.tokens.value + 1) }
    {
        let first = text.as_bytes().first().copied().unwrap_or(0);
        if !self.edge.may_touch(kind, first) {
            self.blanks(" ")?;
        }
        self.put(kind, text)
    }

    /// Writes white space or a comma of another text as it is, but nothing where it could not follow directly. It fails
    /// only where memory is refused.
    pub fn ignored(&mut self, kind: TokenKind, text: &str) -> Result<(), AllocError>
        requires token { Tok kind text.now }
        requires ignored { is_kept_kind kind ≡ false }
        ensures keeps { OnOk result
            (Keeps (string_bytes self.old.text) self.old.edge self.old.tokens.value (string_bytes self.new.text)
            self.new.edge self.new.tokens.value) }
        ensures short { OnOk result
            (ended_length (string_bytes self.new.text) self.new.edge
            ≤ ended_length (string_bytes self.old.text) self.old.edge + length text.now + 1) }
        ensures few { OnOk result (self.new.tokens.value ≤ self.old.tokens.value + 1) }
    {
        let first = text.as_bytes().first().copied().unwrap_or(0);
        if self.edge.may_touch(kind, first) {
            self.put(kind, text)?;
        }
        Ok(())
    }

    /// The text: its significant tokens and comments are those that were written, in that order.
    pub fn finish(self) -> String<A>
        ensures holds { (words : List Word) → Laid (string_bytes self.text) self.edge self.tokens.value words
            → Holds (string_bytes result) words }
        ensures few { (words : List Word) → Laid (string_bytes self.text) self.edge self.tokens.value words
            → length (items_of (string_bytes result)) ≤ 2 * self.tokens.value + 2 }
        ensures text { string_bytes result ≡ string_bytes self.text }
    {
        self.text
    }
}
