// Reporting: what was found wrong.
#![tactic(auto, using(parser_rules::specs::Runs::does), unfolding(parser_rules::proofs::runs::Running::steps))]

ghost use Rattle.std.specs.Prelude.{◌≡◌, ◌<◌, true, [], ◌∷◌, ◌++◌, OnOk};
ghost use Rattle.lexical_grammar.specs.declared.TokenKind.TheVariants as token;
ghost use Rattle.document_grammar.specs.declared.kind.SyntaxKind.TheVariants as kind;
ghost use Rattle.parser_rules.specs.State as state;
ghost use Rattle.parser_rules.specs.RuleLanguage.{At, Word, Ready, Note, Bump, Do, When, Skip, want, expect};
ghost use Rattle.parser_rules.specs.RuleLanguage.{expect_word, refuse};
ghost use Rattle.document_grammar.specs.Choices.{is_keyword};
ghost use Rattle.document_grammar.specs.Numbers.{number};
ghost use Rattle.parser_state.specs.View.{report_of};
ghost use Rattle.parser_state.specs.Parses.{Parses};

use super::ParserState;
use crate::borrowed_error::BorrowedError;
use document_grammar::SyntaxKind;
use lexical_grammar::TokenKind;
use parser_rules::Message;
use std::alloc::{AllocError, Allocator};

impl<'i, A: Allocator + Copy> ParserState<'i, A> {
    // One error more.
    #[cold]
    pub(super) fn add_error(&mut self, error: BorrowedError<'i>) -> Result<(), AllocError>
        ensures step { OnOk result
            (self.new ≡ record self.old { errors = self.old.errors ++ report_of error.entry ∷ [] }) }
        ensures budget { self.new.budget ≡ self.old.budget }
    {
        self.errors.push(error)?;
        Ok(())
    }

    // After a limit error no more is reported.
    pub(super) fn push_error(&mut self, error: BorrowedError<'i>) -> Result<(), AllocError>
        ensures step { OnOk result (self.new ≡ state.reported (report_of error.entry) self.old) }
        ensures budget { self.new.budget ≡ self.old.budget }
    {
        if self.accept_errors {
            self.add_error(error)?;
        }
        Ok(())
    }

    /// Reports an error at the current token.
    pub fn err(&mut self, message: Message) -> Result<(), AllocError>
        ensures { Parses (Do (Note message)) result self.old self.new }
    {
        if let Some(token) = self.current_token {
            self.push_error(BorrowedError::Fault(message, token))?;
        }
        Ok(())
    }

    /// Reports an error at the current token, and pops it: it becomes an ERROR leaf.
    #[tactic(auto, using(parser_rules::proofs::runs::Running::sequence))]
    pub fn err_and_pop(&mut self, message: Message) -> Result<(), AllocError>
        ensures { Parses (refuse message) result self.old self.new }
    {
        self.err(message)?;
        self.bump(SyntaxKind::ERROR)
    }

    /// The punctuator becomes a leaf, or an error reports that it is missing.
    #[tactic(auto, using(parser_rules::proofs::runs::Running::sequence))]
    pub fn expect(
        &mut self,
        token: TokenKind,
        kind: SyntaxKind,
        message: Message,
    ) -> Result<(), AllocError>
        ensures { Parses (expect token kind message) result self.old self.new }
    {
        if self.at(token) {
            self.bump(kind)
        } else {
            self.err(message)
        }
    }

    /// The keyword becomes a leaf, or an error reports that it is missing.
    #[tactic(auto, using(parser_rules::proofs::runs::Running::sequence))]
    pub fn expect_word(&mut self, keyword: SyntaxKind, message: Message) -> Result<(), AllocError>
        requires { is_keyword (number keyword) ≡ true }
        ensures { Parses (expect_word keyword message) result self.old self.new }
    {
        if self.at_word(keyword) {
            self.bump(keyword)
        } else {
            self.err(message)
        }
    }

    /// The punctuator becomes a leaf, if it is there.
    #[tactic(auto, using(parser_rules::proofs::runs::Running::sequence))]
    pub fn skip(&mut self, token: TokenKind, kind: SyntaxKind) -> Result<(), AllocError>
        ensures { Parses (When (At token) (Do (Bump kind)) Skip) result self.old self.new }
    {
        if self.at(token) {
            return self.bump(kind);
        }
        Ok(())
    }

    /// The keyword becomes a leaf, if it is there.
    #[tactic(auto, using(parser_rules::proofs::runs::Running::sequence))]
    pub fn skip_word(&mut self, keyword: SyntaxKind) -> Result<(), AllocError>
        requires { is_keyword (number keyword) ≡ true }
        ensures { Parses (When (Word keyword) (Do (Bump keyword)) Skip) result self.old self.new }
    {
        if self.at_word(keyword) {
            return self.bump(keyword);
        }
        Ok(())
    }

    /// Reports an error where the current token is not of the kind.
    #[tactic(auto, using(parser_rules::proofs::runs::Running::sequence))]
    pub fn want(&mut self, kind: TokenKind, message: Message) -> Result<(), AllocError>
        ensures { Parses (want (At kind) message) result self.old self.new }
    {
        if self.at(kind) {
            return Ok(());
        }
        self.err(message)
    }

    /// Reports an error where no token is left.
    #[tactic(auto, using(parser_rules::proofs::runs::Running::sequence))]
    pub fn want_ready(&mut self, message: Message) -> Result<(), AllocError>
        ensures { Parses (want Ready message) result self.old self.new }
    {
        if self.is_ready() {
            return Ok(());
        }
        self.err(message)
    }
}
