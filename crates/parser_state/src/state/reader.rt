// What a parser reads from: its lexer, what a copy of that found ahead, and the count of the items that both cut.
#![tactic(auto)]

ghost use Rattle.std.specs.Prelude.{◌≡◌, ◌≤◌, ◌+◌, ◌*◌, length, true, IfSome};
ghost use Rattle.std.specs.Iterator.{YieldsFirstBy};
ghost use Rattle.lexical_grammar.specs.declared.TokenKind.TheVariants as token;
ghost use Rattle.apollo_lexer.specs.Answers.{answers_left, final_high};
ghost use Rattle.document_grammar.specs.declared.kind.SyntaxKind.TheVariants as kind;
ghost use Rattle.parser_rules.specs.State.{second};
ghost use Rattle.std.specs.Coded.{codes};
ghost use Rattle.parser_state.specs.Sorted.{sorted_answer, IsSorted};
ghost use Rattle.parser_state.specs.View.{current_of};
ghost use Rattle.parser_state.specs.Lookahead.{given, looked, shown, spared, all_given};

use super::tokens::ignored;
use apollo_lexer::{LexError, Lexer, Steps, Token};
use document_grammar::SyntaxKind;

/// An answer of the lexer, by its use to the parser.
#[derive(Clone, Copy)]
pub enum Sorted<'i> {
    /// A token that is not ignored.
    Significant(Token<'i>),
    /// An ignored token, and the kind of its leaf.
    Ignored(SyntaxKind, Token<'i>),
    /// Bad text, or the token limit.
    Bad(LexError<'i>),
}

/// The significant token after the current one, as far as it is known.
#[derive(Clone, Copy)]
pub struct Ahead<'i> {
    /// Whether a copy of the lexer has looked for it.
    is_known: bool,
    /// What that copy found.
    found: Option<Token<'i>>,
}

/// It cuts each item once, and copies of its lexer cut each item at most once more.
#[derive(Drop)]
pub struct Reader<'i> {
    lexer: Lexer<'i>,
    ahead: Ahead<'i>,
    steps: Steps,
    // the count before the first item, which contracts alone see
    start: Steps,
    // what a copy found is the token there
    ghost known: { shown ahead.is_known (current_of ahead.found) (second (answers_left lexer))
        ≡ second (answers_left lexer) } by { Prim.hlevel codes },
    // What was cut, and twice the items that are left, are no more than twice all items; those that a copy has cut
    // already are cut only once more.
    ghost within: { steps.value + 2 * given (answers_left lexer)
        ≤ start.value + 2 * all_given lexer + spared ahead.is_known (answers_left lexer) },
}

// The next significant token that the lexer gives.
fn next_significant<'i>(lexer: Lexer<'i>, steps: &mut Steps) -> Option<Token<'i>>
    ensures found { current_of result ≡ second (answers_left lexer.entry) }
    ensures count { steps.new.value ≡ steps.old.value + looked (answers_left lexer.entry) }
{
    let mut lexer = lexer;
    while let Some(answer) = lexer.next_counted(steps) {
        if let Ok(token) = answer {
            if ignored(token.kind()).is_none() {
                return Some(token);
            }
        }
    }
    None
}

impl<'i> Reader<'i> {
    /// Reads what the lexer gives, and goes on with this count.
    pub(super) fn new(lexer: Lexer<'i>, steps: Steps) -> Self
        ensures lexer { result.lexer ≡ lexer.entry }
        ensures start { result.start.value ≡ steps.value }
    {
        let start = steps.copied();
        Reader {
            lexer,
            ahead: Ahead {
                is_known: false,
                found: None,
            },
            steps,
            start,
        }
    }

    /// How many bytes of the text the lexer has not cut yet.
    pub(super) fn bytes_left(&self) -> usize
        ensures { result ≡ length self.now.lexer.rest.now }
    {
        self.lexer.bytes_left()
    }

    /// How many answers were asked of the lexer.
    pub(super) fn asked(&self) -> usize
        ensures { result ≡ self.now.lexer.limit_tracker.high }
    {
        self.lexer.limit_tracker().high
    }

    /// What was cut.
    pub(super) fn into_steps(self) -> Steps
        ensures { result.value ≤ self.entry.start.value + 2 * all_given self.entry.lexer }
    {
        self.steps
    }

    /// The lexer's next answer, sorted. It is matched once, where it is made.
    #[inline(always)]
    pub(super) fn next_answer(&mut self) -> Option<Sorted<'i>>
        ensures answers { YieldsFirstBy sorted_answer answers_left self.old.lexer result self.new.lexer }
        ensures sorted { IfSome result IsSorted }
        ensures high { final_high self.new.lexer ≡ final_high self.old.lexer }
        ensures limit { self.new.lexer.limit_tracker.limit ≡ self.old.lexer.limit_tracker.limit }
        ensures start { self.new.start ≡ self.old.start }
    {
        let answer = self.lexer.next_counted(&mut self.steps)?;
        match answer {
            Err(error) => Some(Sorted::Bad(error)),
            Ok(token) => match ignored(token.kind()) {
                Some(kind) => Some(Sorted::Ignored(kind, token)),
                None => {
                    self.ahead.is_known = false;
                    Some(Sorted::Significant(token))
                }
            },
        }
    }

    // Looks for the significant token after the current one, by a copy of the lexer, once.
    #[inline(never)]
    fn look_ahead(&mut self)
        ensures known { self.new.ahead.is_known ≡ true }
        ensures lexer { self.new.lexer ≡ self.old.lexer }
        ensures start { self.new.start ≡ self.old.start }
    {
        if self.ahead.is_known {
            return;
        }
        let found = next_significant(self.lexer, &mut self.steps);
        self.ahead = Ahead {
            is_known: true,
            found,
        };
    }

    /// The significant token after the current one. A copy of the lexer looks for it, once.
    #[inline(always)]
    pub(super) fn peek(&mut self) -> Option<Token<'i>>
        ensures found { current_of result ≡ second (answers_left self.old.lexer) }
        ensures lexer { self.new.lexer ≡ self.old.lexer }
        ensures start { self.new.start ≡ self.old.start }
    {
        self.look_ahead();
        self.ahead.found
    }
}
