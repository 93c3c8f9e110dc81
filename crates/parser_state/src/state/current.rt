// Reading: the current token, the next one, and what waits.
#![tactic(auto, using(parser_rules::specs::Runs::does), unfolding(parser_rules::proofs::runs::Running::steps))]

ghost use Rattle.std.specs.Prelude.{◌≡◌, ◌+◌, ◌<◌, ◌^◌, true, false, length, Some, None, Err, OnOk, IfSome, option_map};
ghost use Rattle.lexical_grammar.specs.declared.TokenKind.TheVariants as token;
ghost use Rattle.document_grammar.specs.declared.kind.SyntaxKind.TheVariants as kind;
ghost use Rattle.document_grammar.specs.Forests.{none};
ghost use Rattle.apollo_lexer.specs.Answers.{answer_of, answers_left};
ghost use Rattle.parser_rules.specs.State as state;
ghost use Rattle.parser_rules.specs.RuleLanguage.{Here, At, Next, Kind, Word, Ready, holds};
ghost use Rattle.document_grammar.specs.Choices.{is_keyword};
ghost use Rattle.document_grammar.specs.Numbers.{number};
ghost use Rattle.parser_rules.specs.Rules as rules;
ghost use Rattle.parser_state.specs.Lengths.{current_length, answer_length, text_length, length_of};
ghost use Rattle.parser_state.specs.Reading as reading;
ghost use Rattle.parser_state.specs.Sorted.{sorted_answer, IsSorted};
ghost use Rattle.parser_state.specs.View.{current_of};

use super::reader::Sorted;
use super::tokens::{is_boolean, is_eof, is_kind, is_word};
use super::{ParserState, PendingToken};
use crate::borrowed_error::BorrowedError;
use apollo_lexer::{LexError, Token};
use document_grammar::SyntaxKind;
use lexical_grammar::TokenKind;
use std::alloc::{AllocError, Allocator};

impl<'i, A: Allocator + Copy> ParserState<'i, A> {
    /// The current token: the next significant one, or the end, or none where nothing is left.
    pub fn current(&self) -> Option<Token<'i>>
        ensures { current_of result ≡ self.now.current }
    {
        self.current_token
    }

    /// Whether the current token is of the kind.
    pub fn at(&self, kind: TokenKind) -> bool
        ensures { result ≡ holds (At kind) self.now }
    {
        is_kind(self.current_token, kind)
    }

    /// Whether the current token is the keyword.
    pub fn at_word(&self, keyword: SyntaxKind) -> bool
        requires { is_keyword (number keyword) ≡ true }
        ensures { result ≡ holds (Word keyword) self.now }
    {
        is_word(self.current_token, keyword)
    }

    /// Whether the current token is `true` or `false`.
    pub fn at_boolean(&self) -> bool
        ensures { result ≡ holds (Here rules.boolean) self.now }
    {
        is_boolean(self.current())
    }

    /// The significant token after the current one, or the end. A copy of the lexer looks for it, once.
    pub fn peek(&mut self) -> Option<Token<'i>>
        ensures found { current_of result ≡ state.second self.new.items }
        ensures same { self.new ≡ self.old }
        ensures budget { self.new.budget ≡ self.old.budget }
    {
        self.reader.peek()
    }

    /// Whether the significant token after the current one is of the kind.
    pub fn is_before(&mut self, kind: TokenKind) -> bool
        ensures next { result ≡ holds (Next (Kind kind)) self.new }
        ensures same { self.new ≡ self.old }
        ensures budget { self.new.budget ≡ self.old.budget }
    {
        is_kind(self.reader.peek(), kind)
    }

    /// Whether a token is left besides the end.
    pub fn is_ready(&self) -> bool
        ensures { result ≡ holds Ready self.now }
    {
        match self.current_token {
            Some(token) => !is_eof(token.kind()),
            None => false,
        }
    }

    fn wait(&mut self, kind: SyntaxKind, text: &'i str) -> Result<(), AllocError>
        requires { length text.now + length_of self.old < 2 ^ 64 }
        ensures step { OnOk result (self.new ≡ state.wait kind text.now self.old) }
        ensures budget { self.new.budget ≡ self.old.budget }
    {
        self.pending.push(PendingToken { kind, text })?;
        Ok(())
    }

    // An error of the lexer, and the bad text that it is about.
    fn push_lex_error(&mut self, error: LexError<'i>) -> Result<(), AllocError>
        requires { answer_length (Some (answer_of (Err error))) + length_of self.old < 2 ^ 64 }
        ensures step { OnOk result
            (self.new ≡ reading.refused error.entry.is_limit error.entry.text.now error.entry.index self.old) }
        ensures budget { self.new.budget ≡ self.old.budget }
    {
        self.add_error(BorrowedError::Lexer(error))?;
        if error.is_limit() {
            self.accept_errors = false;
            return Ok(());
        }
        self.wait(SyntaxKind::ERROR, error.data())
    }

    // The lexer's next answer.
    #[inline(always)]
    fn next_answer(&mut self) -> Option<Sorted<'i>>
        ensures taken { reading.Taken (option_map sorted_answer result) self.old self.new }
        ensures sorted { IfSome result IsSorted }
        ensures text { reading.IsAnswerText (option_map sorted_answer result) }
        ensures len { answer_length (option_map sorted_answer result) + length_of self.new < 2 ^ 64 }
        ensures budget { self.new.budget ≡ self.old.budget }
    {
        self.reader.next_answer()
    }

    fn set_current(&mut self, token: Option<Token<'i>>)
        requires text { state.IsNow (current_of token) }
        requires len { current_length (current_of token)
            + text_length self.old.tree self.old.pending None self.old.items < 2 ^ 64 }
        ensures step { self.new ≡ record self.old { current = current_of token.entry } }
        ensures budget { self.new.budget ≡ self.old.budget }
    {
        self.current_token = token;
    }

    // Reads up to the next token that is not ignored. What it passes waits.
    pub(super) fn read_on(&mut self) -> Result<(), AllocError>
        ensures step { OnOk result (self.new ≡ state.read_on self.old.items self.old) }
        ensures budget { self.new.budget ≡ self.old.budget }
    {
        while let Some(answer) = self.next_answer() {
            match answer {
                Sorted::Bad(error) => self.push_lex_error(error)?,
                Sorted::Ignored(kind, token) => self.wait(kind, token.data())?,
                Sorted::Significant(token) => {
                    self.set_current(Some(token));
                    return Ok(());
                }
            }
        }
        self.set_current(None);
        Ok(())
    }
}
