// Cuts a text into its items.
ghost use Rattle.std.specs.Prelude.{◌≡◌, ◌+◌, ◌-◌, ◌≤◌, ◌<◌, ◌^◌, ◌==◌, if◌then◌else◌, cond, length, true, false};

use crate::error::Error;
use crate::lex_error::LexError;
use crate::limit::LimitTracker;
use crate::scan::cut;
use crate::steps::Steps;
use crate::token::Token;
use lexical_grammar::TokenKind;
use std::alloc::{AllocError, Allocator};

/// Cuts a text into its items: tokens, bad text, and the end (GraphQL October 2021, section 2.1, "Source Text"). It is
/// an iterator of them that takes no memory. Where more items are there than the token limit allows, it gives an error
/// in place of the next one. After the end or that error it gives nothing more. A copy gives the items that its
/// original gives.
#[derive(Clone, Copy)]
pub struct Lexer<'a> {
    rest: &'a str,
    index: usize,
    is_finished: bool,
    limit_tracker: LimitTracker,
    // what is left, and what was cut, fit
    ghost in_range: { index + length rest.now < 2 ^ 63 },
    // each item but the end takes a byte
    ghost counted: { limit_tracker.current ≤ index + cond is_finished 1 0 },
    // nothing has been refused
    ghost granted: { is_finished ≡ false → limit_tracker.high ≡ limit_tracker.current },
}

impl<'a> Lexer<'a> {
    ghost use Rattle.lexical_grammar.specs.Cut.{Cut};
    ghost use Rattle.lexical_grammar.specs.Reads.{items_from};
    ghost use Rattle.apollo_lexer.specs.Answers.{answers_left, items_left};
    ghost use Rattle.lexical_grammar.specs.Answers.{limited, usize_max};

    /// A lexer of the text, which has no limit.
    #[tactic(auto, unfolding(crate::specs::Answers::answers_left, crate::specs::Answers::items_left))]
    pub fn new(input: &'a str) -> Self
        ensures answers { answers_left result ≡ limited usize_max (items_from 0 0 input.now) }
        ensures cut { Cut input.now (items_from 0 0 input.now) }
        ensures items { items_left result ≡ items_from 0 0 input.now }
        ensures tracker { result.limit_tracker ≡ record { current = 0; high = 0; limit = usize_max } }
    {
        Lexer {
            rest: input,
            index: 0,
            is_finished: false,
            limit_tracker: LimitTracker::new(usize::MAX),
        }
    }

    /// Sets the token limit: the number of items, bad text and the end among them, that are given from here on. It
    /// counts from the next item on, whatever the limit was before. After the end, and after a limit error, nothing
    /// more is given.
    #[tactic(auto, unfolding(crate::specs::Answers::answers_left, crate::specs::Answers::items_left))]
    pub fn with_limit(self, limit: usize) -> Self
        ensures answers { answers_left result ≡ limited limit (items_left self.entry) }
        ensures items { items_left result ≡ items_left self.entry }
        ensures tracker { result.limit_tracker ≡ record { current = 0; high = 0; limit = limit } }
    {
        Lexer {
            rest: self.rest,
            index: self.index,
            is_finished: self.is_finished,
            limit_tracker: LimitTracker::new(limit),
        }
    }
}

impl<'a> Lexer<'a> {
    /// How many bytes of the text are left.
    pub fn bytes_left(&self) -> usize
        ensures { result ≡ length self.now.rest.now }
    {
        self.rest.len()
    }

    /// How the limit was used.
    pub fn limit_tracker(&self) -> LimitTracker
        ensures { result ≡ self.now.limit_tracker }
    {
        self.limit_tracker
    }
}

impl<'a> Lexer<'a> {
    ghost use Rattle.std.specs.Prelude.{IfOk, map, filter, not, Ok};
    ghost use Rattle.apollo_lexer.specs.Answers.{answers_left, answer_of};
    ghost use Rattle.apollo_lexer.specs.LexErrors.{AreLexErrors};
    ghost use Rattle.lexical_grammar.specs.Answers.{is_token};

    /// The tokens and the errors that are left, each in order. It fails only where memory is refused.
    pub fn lex<A: Allocator + Copy>(
        self,
        alloc: A,
    ) -> Result<(Vec<Token<'a>, A>, Vec<Error<A>, A>), AllocError>
        ensures tokens { IfOk result
            (λ lists. map (λ token. answer_of (Ok token)) lists.0.items ≡ filter is_token (answers_left self.entry)) }
        ensures errors { IfOk result
            (λ lists. AreLexErrors (filter (λ answer. not (is_token answer)) (answers_left self.entry)) lists.1.items) }
    {
        let mut tokens = Vec::new(alloc);
        let mut errors = Vec::new(alloc);
        for item in self {
            match item {
                Ok(token) => tokens.push(token)?,
                Err(error) => errors.push(error.to_error(alloc)?)?,
            }
        }
        Ok((tokens, errors))
    }
}

impl<'a> Lexer<'a> {
    ghost use Rattle.std.specs.Iterator.{YieldsFirstBy};
    ghost use Rattle.apollo_lexer.specs.Answers.{
      answers_left,
      answer_of,
      items_left,
      items_after,
      final_high,
      cut_count,
    };

    // Where the next item begins, or at the last byte where that is the end of a text with some.
    #[cold]
    fn limit_error(&self) -> LexError<'a>
        ensures is_limit { result.is_limit ≡ true }
        ensures index { result.index ≡ (if length self.now.rest.now == 0 then self.now.index - 1 else self.now.index) }
    {
        let index = if self.rest.is_empty() {
            self.index.saturating_sub(1)
        } else {
            self.index
        };
        LexError {
            text: "",
            index,
            is_limit: true,
        }
    }

    /// Answers as `next`, and counts one step where an item was cut.
    #[inline(always)]
    #[tactic(auto, unfolding(crate::specs::Answers::answers_left, crate::specs::Answers::items_left))]
    pub fn next_counted(&mut self, steps: &mut Steps) -> Option<Result<Token<'a>, LexError<'a>>>
        ensures answers { YieldsFirstBy answer_of answers_left self.old result self.new }
        ensures items { items_left self.new ≡ items_after result (items_left self.old) }
        ensures count { steps.new.value ≡ steps.old.value + cut_count result }
        ensures high { final_high self.new ≡ final_high self.old }
        ensures limit { self.new.limit_tracker.limit ≡ self.old.limit_tracker.limit }
    {
        if self.is_finished {
            return None;
        }
        if self.limit_tracker.check_and_increment() {
            self.is_finished = true;
            return Some(Err(self.limit_error()));
        }
        steps.add_one();
        if self.rest.is_empty() {
            self.is_finished = true;
            return Some(Ok(Token {
                kind: TokenKind::Eof,
                text: "",
                index: self.index,
            }));
        }
        let index = self.index;
        let (kind, text, after) = cut(self.rest);
        self.rest = after;
        self.index += text.len();
        match kind {
            Some(kind) => Some(Ok(Token { kind, text, index })),
            None => Some(Err(LexError {
                text,
                index,
                is_limit: false,
            })),
        }
    }
}

impl<'a> Iterator for Lexer<'a> {
    type Item = Result<Token<'a>, LexError<'a>>;

    ghost use Rattle.std.specs.Iterator.{item_count};
    ghost use Rattle.apollo_lexer.specs.Answers.{answers_left, Advances};

    ghost next_gives = { Advances };

    ghost remaining = { item_count answers_left };

    #[inline(always)]
    fn next(&mut self) -> Option<Result<Token<'a>, LexError<'a>>> {
        self.next_counted(&mut Steps::zero())
    }
}
