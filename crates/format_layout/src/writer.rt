// The tokens of a text, written with other gaps between them.
ghost use Rattle.std.specs.Prelude.{◌≡◌, ◌+◌, ◌*◌, ◌<◌, ◌≤◌, true, false, IfErr, IfOk, IfSome, OnOk, length};
ghost use Rattle.std.specs.Prelude.{string_bytes};
ghost use Rattle.lexical_grammar.specs.Answers.{IsTokenText, usize_max};
ghost use Rattle.lexical_grammar.specs.declared.TokenKind.TheVariants.{Eof};
ghost use Rattle.lexical_grammar.specs.Tokens.{IsString, Tok};
ghost use Rattle.lexical_grammar.specs.Reads.{items_of};
ghost use Rattle.lexical_grammar.specs.Kept.{Kept, is_kept_kind};
ghost use Rattle.format_layout.specs.Laid.{Keeps, ended_length};
ghost use Rattle.format_layout.specs.Respelled.{SameBlock};
ghost use Rattle.format_layout.specs.declared.style.WriteError.TheVariants.{Memory, TooLong};
ghost use Rattle.format_layout.specs.Formatted.{Formatted, IsSentence};
ghost use Rattle.format_layout.specs.Lengths.{bytes_for_each, deepest_indent, longest_layout, most_items};
ghost use Rattle.format_layout.specs.Written.{AddsChosen, AddsSame, AddsSigned, HoldsChosen};
ghost use Rattle.format_layout.specs.Chosen.{pipe_word};
ghost use Rattle.format_layout.specs.Leads.{lead_after};

use crate::block_strings::spelled;
use crate::block_text::Indented;
use crate::gap::Gap;
use crate::gaps::{Advice, Gaps, SignAdvice, column_after};
use crate::kept::is_kept;
use crate::layout::Layout;
use crate::lead::Lead;
use crate::size::{QUOTES, columns, has_lines};
use crate::style::WriteError;
use apollo_lexer::{Lexer, Token};
use lexical_grammar::TokenKind;
use std::alloc::Allocator;

// How many spaces a line is indented by for each level.
const LEVEL: usize = 2;

// How many levels a line is indented by at most that are not counted as nesting. The layout has six, where a comment is
// in the value of an argument of a directive: the braces and parentheses around the directive, the directive, its
// parentheses, the value, and the comment.
const OTHER_LEVELS: usize = 16;

// How many line feeds are between two tokens at most.
const MOST_LINES: u8 = 2;

// How many bytes are written for each byte of the source at most, besides the spaces before it.
const OTHER_BYTES: usize = 10;

// How many spaces a line begins with at most, in a document that nests at most this deep.
fn deepest_indent(nesting: usize) -> u16
    ensures { result ≡ deepest_indent nesting }
{
    let spaces = nesting.saturating_add(OTHER_LEVELS).saturating_mul(LEVEL);
    u16::try_from(spaces).unwrap_or(u16::MAX)
}

// What a formatted text keeps to. The gaps are advice, and so are other block strings: what they take beyond `deepest`
// is left out, so that a text is refused only where `most` is small for it. The layout stays within `deepest`, so
// nothing of it is ever left out.
#[derive(Clone, Copy)]
struct TextBounds {
    // how many bytes it has at most
    most: usize,
    // how many spaces a line begins with at most
    deepest: u16,
}

impl TextBounds {
    // How many bytes there are for a token that has this text in the source, besides those for the gap before it, a
    // sign, spaces and a line feed.
    fn room(self, text: &str) -> usize
        requires { 0 < length text.now }
        ensures { result + self.deepest + 9 ≤ bytes_for_each self.deepest * length text.now }
    {
        let each = usize::from(self.deepest) + OTHER_BYTES;
        each.saturating_mul(text.len()).saturating_sub(each - 1)
    }

    // The gap, as far as it is within the bounds.
    #[inline(always)]
    fn gap_within(self, gap: Gap) -> Gap
        ensures lines { result.lines ≤ 2 }
        ensures spaces { result.spaces ≤ self.deepest }
        ensures comma { result.comma ≡ gap.comma }
    {
        Gap {
            comma: gap.comma,
            lines: gap.lines.min(MOST_LINES),
            spaces: gap.spaces.min(self.deepest),
        }
    }
}

// Writes the tokens of a text.
#[derive(Drop)]
struct Writer<A: Allocator> {
    alloc: A,
    layout: Layout<A>,
    gaps: Gaps<A>,
    bounds: TextBounds,
    // what the last tokens say of an optional sign
    lead: Lead,
    // how many spaces the line begins with
    indent: u16,
    // the column in which the last token ends
    column: usize,
}

impl<A: Allocator + Copy> Writer<A> {
    // The block string in other words with the same value, or `None` where it stays as it is. It does too where the
    // other words take more bytes than there are for it, which never happens: a line of its value takes a byte of it
    // and an indent.
    fn other_words(&self, text: &str) -> Result<Option<String<A>>, WriteError>
        requires { IsString text.now }
        ensures string { IfOk result (λ o. IfSome o (λ other. IsString (string_bytes other))) }
        ensures same { IfOk result (λ o. IfSome o (λ other. SameBlock text.now (string_bytes other))) }
        ensures short { IfOk result
            (λ o. IfSome o (λ other. length (string_bytes other) + self.now.bounds.deepest + 9
            ≤ bytes_for_each self.now.bounds.deepest * length text.now)) }
        ensures long { IfErr result
            (λ error. error ≡ TooLong
            → self.now.bounds.most < bytes_for_each self.now.bounds.deepest * length text.now) }
    {
        let room = self.bounds.room(text);
        let style = Indented {
            spaces: usize::from(self.indent),
            most: self.bounds.most,
        };
        match spelled(self.alloc, text, &style) {
            Ok(Some(other)) if other.len() > room => Ok(None),
            Err(WriteError::TooLong) if self.bounds.most >= room => Ok(None),
            answer => answer,
        }
    }

    // Writes a significant token or a comment as it is, or, where it need not stay so, another block string with the
    // same value.
    fn spell(&mut self, kind: TokenKind, text: &str, stays: bool) -> Result<(), WriteError>
        requires token { Tok kind text.now }
        requires kept { is_kept_kind kind ≡ true }
        ensures adds { OnOk result
            (AddsSame (string_bytes self.old.layout.text) self.old.layout.edge self.old.layout.tokens.value
            (record { kind = kind; text = text.now }) (string_bytes self.new.layout.text) self.new.layout.edge
            self.new.layout.tokens.value) }
        ensures short { OnOk result
            (ended_length (string_bytes self.new.layout.text) self.new.layout.edge + self.old.bounds.deepest + 7
            ≤ ended_length (string_bytes self.old.layout.text) self.old.layout.edge
            + bytes_for_each self.old.bounds.deepest * length text.now) }
        ensures few { OnOk result (self.new.layout.tokens.value ≤ self.old.layout.tokens.value + 1) }
        ensures long { IfErr result
            (λ error. error ≡ TooLong
            → self.old.bounds.most < bytes_for_each self.old.bounds.deepest * length text.now) }
        ensures bounds { self.new.bounds ≡ self.old.bounds }
    {
        self.column = self.column_after_token(kind, text, self.column);
        if kind == TokenKind::StringValue && !stays && has_lines(text) {
            if let Some(other) = self.other_words(text)? {
                self.layout.token(TokenKind::StringValue, other.as_str())?;
                return Ok(());
            }
        }
        self.layout.token(kind, text)?;
        Ok(())
    }

    // Writes white space or a comma where these stay as they are in the source.
    fn write_ignored(&mut self, kind: TokenKind, text: &str) -> Result<(), WriteError>
        requires token { IsTokenText kind text.now }
        requires ignored { is_kept_kind kind ≡ false }
        ensures keeps { OnOk result
            (Keeps (string_bytes self.old.layout.text) self.old.layout.edge self.old.layout.tokens.value
            (string_bytes self.new.layout.text) self.new.layout.edge self.new.layout.tokens.value) }
        ensures short { OnOk result
            (ended_length (string_bytes self.new.layout.text) self.new.layout.edge
            ≤ ended_length (string_bytes self.old.layout.text) self.old.layout.edge + 2 * length text.now) }
        ensures few { OnOk result (self.new.layout.tokens.value ≤ self.old.layout.tokens.value + 1) }
        ensures end { OnOk result (kind ≡ Eof → self.new.layout.tokens.value ≡ self.old.layout.tokens.value) }
        ensures memory { IfErr result (λ error. error ≡ Memory) }
        ensures bounds { self.new.bounds ≡ self.old.bounds }
        ensures lead { self.new.lead ≡ self.old.lead }
    {
        if kind == TokenKind::Eof || !self.gaps.keeps_blanks() {
            return Ok(());
        }
        self.layout.ignored(kind, text)?;
        Ok(())
    }

    // The column in which a token ends that begins in a column.
    #[inline(always)]
    fn column_after_token(&self, kind: TokenKind, text: &str, column: usize) -> usize {
        if kind != TokenKind::StringValue {
            column.saturating_add(text.len())
        } else if has_lines(text) {
            usize::from(self.indent).saturating_add(QUOTES)
        } else {
            column.saturating_add(columns(text))
        }
    }

    // Writes the gap before a token.
    #[inline(always)]
    fn write_gap(&mut self, gap: Gap) -> Result<(), WriteError>
        ensures keeps { OnOk result
            (Keeps (string_bytes self.old.layout.text) self.old.layout.edge self.old.layout.tokens.value
            (string_bytes self.new.layout.text) self.new.layout.edge self.new.layout.tokens.value) }
        ensures short { OnOk result
            (ended_length (string_bytes self.new.layout.text) self.new.layout.edge
            ≤ ended_length (string_bytes self.old.layout.text) self.old.layout.edge + self.old.bounds.deepest + 3) }
        ensures few { OnOk result (self.new.layout.tokens.value ≤ self.old.layout.tokens.value + 1) }
        ensures blank { OnOk result (gap.comma ≡ false → self.new.layout.tokens.value ≡ self.old.layout.tokens.value) }
        ensures memory { IfErr result (λ error. error ≡ Memory) }
        ensures bounds { self.new.bounds ≡ self.old.bounds }
    {
        let gap = self.bounds.gap_within(gap);
        if gap.lines > 0 {
            self.indent = gap.spaces;
        }
        self.column = column_after(gap, self.column);
        self.layout.gap(gap)?;
        Ok(())
    }

    // Writes a significant token or a comment with the gap before it.
    fn write_token(&mut self, kind: TokenKind, text: &str, advice: Advice) -> Result<(), WriteError>
        requires token { Tok kind text.now }
        requires kept { is_kept_kind kind ≡ true }
        ensures adds { OnOk result
            (AddsSame (string_bytes self.old.layout.text) self.old.layout.edge self.old.layout.tokens.value
            (record { kind = kind; text = text.now }) (string_bytes self.new.layout.text) self.new.layout.edge
            self.new.layout.tokens.value) }
        ensures short { OnOk result
            (ended_length (string_bytes self.new.layout.text) self.new.layout.edge
            ≤ ended_length (string_bytes self.old.layout.text) self.old.layout.edge
            + bytes_for_each self.old.bounds.deepest * length text.now) }
        ensures few { OnOk result (self.new.layout.tokens.value ≤ self.old.layout.tokens.value + 2) }
        ensures long { IfErr result
            (λ error. error ≡ TooLong
            → self.old.bounds.most < bytes_for_each self.old.bounds.deepest * length text.now) }
        ensures bounds { self.new.bounds ≡ self.old.bounds }
    {
        self.write_gap(advice.gap)?;
        self.spell(kind, text, advice.is_written)?;
        Ok(())
    }

    // Writes a sign with the gap before it, but no comma, and a space.
    fn write_sign(&mut self, gap: Gap) -> Result<(), WriteError>
        ensures adds { OnOk result
            (AddsSame (string_bytes self.old.layout.text) self.old.layout.edge self.old.layout.tokens.value pipe_word
            (string_bytes self.new.layout.text) self.new.layout.edge self.new.layout.tokens.value) }
        ensures short { OnOk result
            (ended_length (string_bytes self.new.layout.text) self.new.layout.edge
            ≤ ended_length (string_bytes self.old.layout.text) self.old.layout.edge + self.old.bounds.deepest + 7) }
        ensures few { OnOk result (self.new.layout.tokens.value ≤ self.old.layout.tokens.value + 1) }
        ensures memory { IfErr result (λ error. error ≡ Memory) }
        ensures bounds { self.new.bounds ≡ self.old.bounds }
    {
        self.write_gap(Gap {
            comma: false,
            ..gap
        })?;
        self.layout.token(TokenKind::Pipe, "|")?;
        self.layout.space()?;
        self.column = self.column.saturating_add(2);
        Ok(())
    }

    // Writes a token with a sign before it.
    fn write_signed(
        &mut self,
        kind: TokenKind,
        text: &str,
        advice: Advice,
    ) -> Result<(), WriteError>
        requires token { Tok kind text.now }
        requires kept { is_kept_kind kind ≡ true }
        ensures adds { OnOk result
            (AddsSigned (string_bytes self.old.layout.text) self.old.layout.edge self.old.layout.tokens.value
            (record { kind = kind; text = text.now }) (string_bytes self.new.layout.text) self.new.layout.edge
            self.new.layout.tokens.value) }
        ensures short { OnOk result
            (ended_length (string_bytes self.new.layout.text) self.new.layout.edge
            ≤ ended_length (string_bytes self.old.layout.text) self.old.layout.edge
            + bytes_for_each self.old.bounds.deepest * length text.now) }
        ensures few { OnOk result (self.new.layout.tokens.value ≤ self.old.layout.tokens.value + 2) }
        ensures long { IfErr result
            (λ error. error ≡ TooLong
            → self.old.bounds.most < bytes_for_each self.old.bounds.deepest * length text.now) }
        ensures bounds { self.new.bounds ≡ self.old.bounds }
    {
        self.write_sign(advice.gap)?;
        self.spell(kind, text, advice.is_written)?;
        Ok(())
    }

    // Writes a significant token or a comment with the gap before it. An optional sign is left out, or put in before
    // it, where that is advised and its lead allows it.
    fn put(&mut self, kind: TokenKind, text: &str) -> Result<(), WriteError>
        requires token { Tok kind text.now }
        requires kept { is_kept_kind kind ≡ true }
        ensures adds { OnOk result
            (AddsChosen (string_bytes self.old.layout.text) self.old.layout.edge self.old.layout.tokens.value
            self.old.lead (record { kind = kind; text = text.now })
            (string_bytes self.new.layout.text) self.new.layout.edge self.new.layout.tokens.value
            (lead_after self.old.lead kind text.now)) }
        ensures short { OnOk result
            (ended_length (string_bytes self.new.layout.text) self.new.layout.edge
            ≤ ended_length (string_bytes self.old.layout.text) self.old.layout.edge
            + bytes_for_each self.old.bounds.deepest * length text.now) }
        ensures few { OnOk result (self.new.layout.tokens.value ≤ self.old.layout.tokens.value + 2) }
        ensures long { IfErr result
            (λ error. error ≡ TooLong
            → self.old.bounds.most < bytes_for_each self.old.bounds.deepest * length text.now) }
        ensures bounds { self.new.bounds ≡ self.old.bounds }
    {
        let advice = self.gaps.next_advice(self.column)?;
        match advice.sign {
            SignAdvice::LeftOut if self.lead.may_go(kind) => return Ok(()),
            SignAdvice::PutIn if self.lead.may_come(kind) => {
                self.write_signed(kind, text, advice)?;
                return Ok(());
            }
            _ => {}
        }
        self.write_token(kind, text, advice)?;
        Ok(())
    }

    // Writes a token with the gap before it, unless it is white space, a comma or the end.
    fn write(&mut self, token: Token<'_>) -> Result<(), WriteError>
        requires { IsTokenText token.kind token.text.now }
        ensures adds { OnOk result
            (AddsChosen (string_bytes self.old.layout.text) self.old.layout.edge self.old.layout.tokens.value
            self.old.lead (record { kind = token.entry.kind; text = token.entry.text.now })
            (string_bytes self.new.layout.text) self.new.layout.edge self.new.layout.tokens.value self.new.lead) }
        ensures short { OnOk result
            (ended_length (string_bytes self.new.layout.text) self.new.layout.edge
            ≤ ended_length (string_bytes self.old.layout.text) self.old.layout.edge
            + bytes_for_each self.old.bounds.deepest * length token.entry.text.now) }
        ensures few { OnOk result (self.new.layout.tokens.value ≤ self.old.layout.tokens.value + 2) }
        ensures end { OnOk result
            (token.entry.kind ≡ Eof → self.new.layout.tokens.value ≡ self.old.layout.tokens.value) }
        ensures long { IfErr result
            (λ error. error ≡ TooLong
            → self.old.bounds.most < bytes_for_each self.old.bounds.deepest * length token.entry.text.now) }
        ensures bounds { self.new.bounds ≡ self.old.bounds }
    {
        let kind = token.kind();
        let text = token.data();
        if !is_kept(kind) {
            self.write_ignored(kind, text)?;
            return Ok(());
        }
        let lead = self.lead.after(kind, text);
        self.put(kind, text)?;
        self.lead = lead;
        Ok(())
    }

    // Fails where too many bytes are written.
    fn check_length(&self) -> Result<(), WriteError>
        ensures { IfErr result (λ error. self.now.bounds.most < length (string_bytes self.now.layout.text)) }
    {
        if self.layout.len() > self.bounds.most {
            return Err(WriteError::TooLong);
        }
        Ok(())
    }

    // Ends the last line, if there is one.
    fn finish(&mut self) -> Result<(), WriteError>
        ensures keeps { OnOk result
            (Keeps (string_bytes self.old.layout.text) self.old.layout.edge self.old.layout.tokens.value
            (string_bytes self.new.layout.text) self.new.layout.edge self.new.layout.tokens.value) }
        ensures short { OnOk result
            (ended_length (string_bytes self.new.layout.text) self.new.layout.edge
            ≤ ended_length (string_bytes self.old.layout.text) self.old.layout.edge + 1) }
        ensures few { OnOk result (self.new.layout.tokens.value ≡ self.old.layout.tokens.value) }
        ensures memory { IfErr result (λ error. error ≡ Memory) }
    {
        if self.gaps.is_empty() {
            return Ok(());
        }
        self.layout.line()?;
        Ok(())
    }
}

// Writes the tokens and the comments of a text with these gaps before them, whatever these are. It stops after the
// token with which there are too many bytes.
fn write<A: Allocator + Copy>(
    alloc: A,
    source: &str,
    gaps: Gaps<A>,
    bounds: TextBounds,
) -> Result<String<A>, WriteError>
    requires { length (items_of source.now) ≤ usize_max }
    ensures same { IfOk result (λ text. HoldsChosen (string_bytes text) (Kept (items_of source.now))) }
    ensures longest { IfOk result
        (λ text. length (string_bytes text) ≤ bytes_for_each bounds.deepest * length source.now + 1) }
    ensures few { IfOk result
        (λ text. length (items_of (string_bytes text)) ≤ most_items (length (items_of source.now))) }
    ensures small { IfErr result
        (λ error. error ≡ TooLong → bounds.most < bytes_for_each bounds.deepest * length source.now + 1) }
{
    let mut writer = Writer {
        alloc,
        layout: Layout::with_capacity(alloc, source.len())?,
        gaps,
        bounds,
        lead: Lead::Other,
        indent: 0,
        column: 0,
    };
    for item in Lexer::new(source) {
        if let Ok(token) = item {
            writer.write(token)?;
            writer.check_length()?;
        }
    }
    writer.finish()?;
    Ok(writer.layout.finish())
}

/// The significant tokens and the comments of a text with another layout, which has these gaps, of at most `most`
/// bytes. It fails where memory is refused, or the other layout has more bytes: then it has stopped after at most twice
/// as many, a token and a gap.
///
/// A text that nests at most `nesting` deep has no layout of more bytes than `longest_layout` says.
pub fn format_text<A: Allocator + Copy>(
    alloc: A,
    source: &str,
    gaps: Gaps<A>,
    nesting: usize,
    most: usize,
) -> Result<String<A>, WriteError>
    requires { length (items_of source.now) ≤ usize_max }
    ensures same { IfOk result (λ text. HoldsChosen (string_bytes text) (Kept (items_of source.now))) }
    ensures most { IfOk result (λ text. length (string_bytes text) ≤ most) }
    ensures longest { IfOk result (λ text. length (string_bytes text) ≤ longest_layout nesting (length source.now)) }
    ensures few { IfOk result
        (λ text. length (items_of (string_bytes text)) ≤ most_items (length (items_of source.now))) }
    ensures small { IfErr result (λ error. error ≡ TooLong → most < longest_layout nesting (length source.now)) }
{
    let deepest = deepest_indent(nesting);
    let text = write(alloc, source, gaps, TextBounds { most, deepest })?;
    if text.len() > most {
        return Err(WriteError::TooLong);
    }
    Ok(text)
}

/// The document with another layout, of at most `most` bytes, as `format_text` has it.
pub fn format_document<A: Allocator + Copy>(
    alloc: A,
    source: &str,
    gaps: Gaps<A>,
    nesting: usize,
    most: usize,
) -> Result<String<A>, WriteError>
    requires { IsSentence source.now }
    ensures formatted { IfOk result (λ text. Formatted source.now (string_bytes text)) }
    ensures most { IfOk result (λ text. length (string_bytes text) ≤ most) }
    ensures longest { IfOk result (λ text. length (string_bytes text) ≤ longest_layout nesting (length source.now)) }
    ensures few { IfOk result
        (λ text. length (items_of (string_bytes text)) ≤ most_items (length (items_of source.now))) }
    ensures small { IfErr result (λ error. error ≡ TooLong → most < longest_layout nesting (length source.now)) }
{
    let text = format_text(alloc, source, gaps, nesting, most)?;
    Ok(text)
}
