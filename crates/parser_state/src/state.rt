// The state of a parser, and its steps. Each is a step of the parser's rules. Some do one line's work, as `push_token`,
// `push_leaf_node`, `set_current` and `is_same`: so each change of a field has a contract in the words of the rules'
// state. Their callers are proved from these contracts, and do not look into the fields.
#![tactic(auto, using(parser_rules::specs::Runs::does), unfolding(parser_rules::proofs::runs::Running::steps))]

mod current;
mod errors;
mod nesting;
mod nodes;
mod reader;
mod tokens;

ghost use Rattle.std.specs.Prelude.{◌≡◌, ◌≤◌, ◌<◌, ◌^◌, ◌+◌, ◌*◌, ◌/◌, true, [], length, take, map, min, OnOk, IfOk};
ghost use Rattle.std.specs.List.{AllZip};
ghost use Rattle.lexical_grammar.specs.declared.TokenKind.TheVariants as token;
ghost use Rattle.document_grammar.specs.Builds.{nothing};
ghost use Rattle.document_grammar.specs.Forests.{count, none, text};
ghost use Rattle.apollo_lexer.specs.Answers.{answers_left};
ghost use Rattle.parser_rules.specs.State as state;
ghost use Rattle.parser_rules.specs.Open.{IsRoot};
ghost use Rattle.parser_state.specs.Errors.{IsErrorOf, error_of};
ghost use Rattle.parser_state.specs.Reading as reading;
ghost use Rattle.parser_state.specs.View.{current_of, pending_of};

use crate::borrowed_error::BorrowedError;
use apollo_lexer::{Lexer, LimitTracker, Steps, Token};
use apollo_tree::{BorrowedSubtree, Checkpoint, SpanBuilder};
use document_grammar::SyntaxKind;
use nodes::push_all;
use reader::Reader;
use std::alloc::{AllocError, Allocator};
use std::marker::Model;
pub use tokens::{is_eof, is_kind, is_word};

/// An ignored token or bad text, which waits for the next leaf.
#[derive(Clone, Copy)]
pub struct PendingToken<'i> {
    pub kind: SyntaxKind,
    pub text: &'i str,
}

/// What a parse leaves: the tree, the errors in the order in which they were found, and how the limits were used. Tree
/// and errors borrow the source.
#[derive(Drop)]
pub struct Finished<'i, A: Allocator> {
    pub tree: BorrowedSubtree<'i, A>,
    pub errors: Vec<BorrowedError<'i>, A>,
    pub recursion_limit: LimitTracker,
    pub token_limit: LimitTracker,
}

/// The current token is the next significant one, or the end, or none where nothing is left and while the next one is
/// read.
#[derive(Drop)]
pub struct ParserState<'i, A: Allocator> {
    alloc: A,
    reader: Reader<'i>,
    current_token: Option<Token<'i>>,
    builder: SpanBuilder<A>,
    pending: Vec<PendingToken<'i>, A>,
    errors: Vec<BorrowedError<'i>, A>,
    recursion_limit: LimitTracker,
    accept_errors: bool,
}

// How many open nodes get room at first. Few documents nest deeper.
const EXPECTED_DEPTH: usize = 16;

// How many bytes make a text long.
const LONG: usize = 1 << 14;

// How many elements get room at first: as many as most small texts have, even without blanks. A long text may be one
// string, so it gets no more than 4,096.
fn expected_elements(bytes: usize) -> usize
    ensures { result ≡ min (bytes / 4 * 3 + 32) 4096 }
{
    (bytes / 4 * 3 + 32).min(4096)
}

// How many elements a long text may have: one for two bytes, up to 31 MB of memory. More than 32 MB glibc takes anew
// for each parse.
fn likely_elements(bytes: usize) -> usize
    ensures { result ≡ min (bytes / 2) 2600000 }
{
    (bytes / 2).min(2_600_000)
}

// Takes room for a long text's tree, if there is as much beside it as the tree's own text takes at the end. A guess may
// be wrong, so a refusal is no failure.
#[cold]
#[inline(never)]
fn reserve_likely<A: Allocator + Copy>(alloc: A, builder: &mut SpanBuilder<A>, bytes: usize)
    ensures { builder.new ≡ builder.old }
{
    if let Ok(_text) = Vec::<u8, A>::with_capacity(alloc, bytes) {
        let _ = builder.reserve(likely_elements(bytes), 0);
    }
}

// Takes room for the tree of a text.
fn reserve_for<A: Allocator + Copy>(
    alloc: A,
    builder: &mut SpanBuilder<A>,
    bytes: usize,
) -> Result<(), AllocError>
    ensures { builder.new ≡ builder.old }
{
    if bytes > LONG {
        reserve_likely(alloc, builder, bytes);
    }
    builder.reserve(expected_elements(bytes), EXPECTED_DEPTH)
}

impl<'i, A: Allocator> Model for ParserState<'i, A> {
    ghost use Rattle.std.specs.Prelude.{map, ◌+◌, ◌*◌, ◌<◌, ◌^◌};
    ghost use Rattle.std.specs.Coded.{codes};
    ghost use Rattle.apollo_tree.specs.Codes.{building_code};
    ghost use Rattle.parser_rules.specs.State.{State};

    ghost Value = { State };

    ghost coded = { Prim.hlevel (codes, building_code) };

    ghost use Rattle.apollo_lexer.specs.Answers.{answers_left, final_high};
    ghost use Rattle.parser_state.specs.Lengths.{text_length};
    ghost use Rattle.parser_state.specs.Lookahead.{all_given};
    ghost use Rattle.parser_state.specs.View.{current_of, pending_of, report_of};
    ghost use Rattle.parser_rules.specs.State.{IsNow};

    ghost view = { λ p. record {
      items = answers_left p.reader.lexer;
      current = current_of p.current_token;
      pending = map pending_of p.pending.items;
      tree = p.builder;
      errors = map report_of p.errors.items;
      limit = p.recursion_limit.limit;
      depth = p.recursion_limit.current;
      high = p.recursion_limit.high;
      accepts = p.accept_errors;
      asked = final_high p.reader.lexer;
      budget = p.reader.start.value + 2 * all_given p.reader.lexer;
    } };

    ghost invariant = { λ p. IsNow (current_of p.current_token)
        × (text_length p.builder (map pending_of p.pending.items) (current_of p.current_token)
        (answers_left p.reader.lexer) < 2 ^ 64) };
}

impl<'i, A: Allocator + Copy> ParserState<'i, A> {
    /// Before anything is read or built. The items that are cut are counted on from these steps.
    pub fn new(
        alloc: A,
        lexer: Lexer<'i>,
        recursion_limit: usize,
        steps: Steps,
    ) -> ParserState<'i, A>
        requires { lexer.limit_tracker.high ≡ 0 }
        ensures { result ≡ reading.unread (answers_left lexer.entry) recursion_limit
            (steps.value + 2 * min (length (answers_left lexer.entry)) lexer.entry.limit_tracker.limit) }
    {
        ParserState {
            alloc,
            reader: Reader::new(lexer, steps),
            current_token: None,
            builder: SpanBuilder::new(alloc),
            pending: Vec::new(alloc),
            errors: Vec::new(alloc),
            recursion_limit: LimitTracker::new(recursion_limit),
            accept_errors: true,
        }
    }

    /// Opens the root, and reads the first token. First it takes room for the tree, so that a small one does not grow
    /// step by step.
    pub fn open(&mut self, root: SyntaxKind) -> Result<(), AllocError>
        ensures step { OnOk result (self.new ≡ reading.rooted root self.old) }
        ensures budget { self.new.budget ≡ self.old.budget }
    {
        reserve_for(self.alloc, &mut self.builder, self.reader.bytes_left())?;
        self.builder.start_node(root)?;
        self.read_on()
    }

    /// Reads the first token, where no root is open, and takes in the items before it. The checkpoint is the index
    /// before all that is built.
    pub fn read_first(&mut self) -> Result<Checkpoint, AllocError>
        requires { self.old.tree ≡ nothing }
        ensures step { OnOk result (self.new ≡ state.flush (state.read_on self.old.items self.old)) }
        ensures index { IfOk result (λ c. c.index ≡ 0) }
        ensures budget { self.new.budget ≡ self.old.budget }
    {
        let checkpoint = self.builder.checkpoint();
        self.read_on()?;
        self.push_pending()?;
        Ok(checkpoint)
    }

    /// What was cut.
    pub fn into_steps(self) -> Steps
        ensures { result.value ≤ self.entry.budget }
    {
        self.reader.into_steps()
    }

    /// Takes in the waiting items, and closes the root. The token limit is the lexer's, and the source is what it
    /// reads. The steps become those of the parse, whatever it answers.
    pub fn finish(
        self,
        token_limit: usize,
        source: &'i str,
        steps: &mut Steps,
    ) -> Result<Finished<'i, A>, AllocError>
        requires source { take (length (text (state.finished self))) source.now ≡ text (state.finished self) }
        requires open_root { IsRoot self.tree }
        ensures tree { IfOk result (λ t. t.tree ≡ state.finished self.entry) }
        ensures counted { IfOk result (λ t. count t.tree < 2 ^ 64) }
        ensures errors { IfOk result (λ t. AllZip IsErrorOf self.entry.errors (map error_of t.errors.items)) }
        ensures recursion_limit { IfOk result (λ t. t.recursion_limit
            ≡ record { current = self.entry.depth; high = self.entry.high; limit = self.entry.limit }) }
        ensures allowed { IfOk result
            (λ t. (t.token_limit.current ≡ 0) × (t.token_limit.limit ≡ token_limit)
            × (t.token_limit.high ≤ self.entry.asked)) }
        ensures steps { steps.new.value ≤ self.entry.budget }
        ensures token_limit { self.entry.items ≡ []
            → IfOk result (λ t. t.token_limit ≡ record { current = 0; high = self.entry.asked; limit = token_limit }) }
    {
        let ParserState {
            reader,
            pending,
            mut builder,
            errors,
            recursion_limit,
            ..
        } = self;
        let asked = reader.asked();
        *steps = reader.into_steps();
        push_all(&mut builder, &pending)?;
        builder.finish_node();
        let mut tokens = LimitTracker::new(token_limit);
        tokens.high = asked;
        Ok(Finished {
            tree: builder.finish(source),
            errors,
            recursion_limit,
            token_limit: tokens,
        })
    }
}
