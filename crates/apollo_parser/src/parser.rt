// The whole parse.
ghost use Rattle.std.specs.Prelude.{◌≡◌, ◌≤◌, ◌<◌, ◌+◌, ◌*◌, ◌^◌, OnOk, IfOk, length, min};
ghost use Rattle.std.specs.Str.{IsUtf8};
ghost use Rattle.lexical_grammar.specs.Answers.{limited, usize_max};
ghost use Rattle.lexical_grammar.specs.Cut.{Cut};
ghost use Rattle.lexical_grammar.specs.Reads.{items_of};
ghost use Rattle.apollo_lexer.specs.Limits.{default_recursion};
ghost use Rattle.document_grammar.specs.declared.kind.SyntaxKind.TheVariants as kind;
ghost use Rattle.document_grammar.specs.Forests.{Forest, none, node};
ghost use Rattle.document_grammar.specs.Derivation.{selections as selections_sort, type as type_sort};
ghost use Rattle.apollo_parser.specs.ByRules.{ByRules, ByRootRule, ByTypeRule};
ghost use Rattle.apollo_parser.specs.Parts.{OneType, first_kind};
ghost use Rattle.apollo_parser.specs.Promise.{Promise, PartPromise};
ghost use Rattle.parser_rules.specs.Fragments.{field_set};
ghost use Rattle.parser_rules.specs.Nodes.{Document};
ghost use Rattle.parser_rules.specs.RuleLanguage.{Call};
ghost use Rattle.parser_rules.specs.Runs.{Runs};
ghost use Rattle.parser_state.specs.Reading.{rooted, unread};

use crate::borrowed_tree::BorrowedSyntaxTree;
use crate::syntax_tree::{DocumentRoot, SelectionSetRoot, SyntaxTree, TypeRoot};
use apollo_document::document;
use apollo_grammar::{field_set, type_root};
use apollo_lexer::{Lexer, Limits, Steps};
use document_grammar::SyntaxKind;
use parser_state::ParserState;
use std::alloc::{AllocError, Allocator};
use std::mem;

/// A parser of a text, with its limits.
#[derive(Clone, Copy)]
pub struct Parser<'i> {
    source: &'i str,
    recursion_limit: usize,
    token_limit: usize,
}

impl<'i> Parser<'i> {
    /// A parser of the text, with the recursion limit 500 and no token limit.
    pub fn new(source: &'i str) -> Self
        ensures source { result.source.now ≡ source.now }
        ensures recursion_limit { result.recursion_limit ≡ default_recursion }
        ensures token_limit { result.token_limit ≡ usize_max }
    {
        Parser::within(source, Limits::DEFAULT)
    }

    /// A parser of the text, with these limits. `recursion_limit` and `token_limit` say what each is.
    pub fn within(source: &'i str, limits: Limits) -> Self
        ensures source { result.source.now ≡ source.now }
        ensures recursion_limit { result.recursion_limit ≡ limits.recursion }
        ensures token_limit { result.token_limit ≡ limits.tokens }
    {
        Parser {
            source,
            recursion_limit: limits.recursion,
            token_limit: limits.tokens,
        }
    }

    /// Sets the recursion limit: how deep selection sets, list types and values may nest.
    ///
    /// Parsing recurses, so each level takes stack: 128 bytes for a selection set, 80 for a value in a list, 96 for a
    /// value in an object and 192 for a list type, as LLVM compiles it for x86-64. So 8 MB hold 43,000 levels of any
    /// kind. Where the limit is higher than the stack allows, a deep text ends the program: the caller of a higher
    /// limit has to provide the stack.
    pub fn recursion_limit(self, limit: usize) -> Self
        ensures { result ≡ record self.entry { recursion_limit = limit } }
    {
        Parser {
            recursion_limit: limit,
            ..self
        }
    }

    /// Sets the token limit: how many items of the text are read, ignored ones and the end among them.
    ///
    /// So it bounds memory: of n items that are read, a tree has at most 5 n + 1 elements, and there are at most 3 n +
    /// 1 errors. An element takes 12 bytes while the tree has fewer than 2^28 of them and the text is shorter than 2
    /// GiB, then 16, and 32 from 4 GiB of text on; an error takes 40 while it borrows the text, and 64 with a text of
    /// its own. So on such a text a limit of k, up to fifty million, takes at most 180 k + 52 bytes for
    /// `parse_borrowed`. A tree of `parse` takes 252 k + 76, and 120 k + 40 more while it is made, besides the text,
    /// and what an error says that is too long to lie in it. Lists keep room in reserve: by the length of the text up
    /// to 48 KiB before anything is read, and later as they grow.
    pub fn token_limit(self, limit: usize) -> Self
        ensures { result ≡ record self.entry { token_limit = limit } }
    {
        Parser {
            token_limit: limit,
            ..self
        }
    }

    // The state before anything is read. It also says what the text is made of.
    fn start<A: Allocator + Copy>(self, alloc: A, steps: Steps) -> ParserState<'i, A>
        ensures unread { let answers = limited self.entry.token_limit (items_of self.entry.source.now) in
            result ≡ unread answers self.entry.recursion_limit
            (steps.value + 2 * min (length answers) self.entry.token_limit) }
        ensures cut { Cut self.entry.source.now (items_of self.entry.source.now) }
        ensures characters { IsUtf8 self.entry.source.now }
        ensures short { length self.entry.source.now < 2 ^ 63 }
    {
        let lexer = Lexer::new(self.source).with_limit(self.token_limit);
        ParserState::new(alloc, lexer, self.recursion_limit, steps)
    }

    // Opens the root, and parses the document.
    fn read_document<A: Allocator + Copy>(p: &mut ParserState<'_, A>) -> Result<(), AllocError>
        ensures runs { OnOk result (Runs (Call Document) (rooted kind.DOCUMENT p.old) p.new) }
        ensures budget { p.new.budget ≡ p.old.budget }
    {
        p.open(SyntaxKind::DOCUMENT)?;
        document(p)
    }

    // The parse, as a run of the document's rule over the items of the text. The steps are counted on, whatever it
    // answers.
    fn run_document<A: Allocator + Copy>(
        self,
        alloc: A,
        steps: &mut Steps,
    ) -> Result<BorrowedSyntaxTree<'i, DocumentRoot, A>, AllocError>
        ensures run { IfOk result (ByRules self.entry.source.now self.entry.recursion_limit self.entry.token_limit) }
        ensures lookahead { steps.new.value
            ≤ steps.old.value + 2 * min (length (items_of self.entry.source.now)) self.entry.token_limit }
    {
        let before = mem::replace(steps, Steps::zero());
        let mut p = self.start(alloc, before);
        if let Err(error) = Self::read_document(&mut p) {
            *steps = p.into_steps();
            return Err(error);
        }
        let finished = p.finish(self.token_limit, self.source, steps)?;
        Ok(BorrowedSyntaxTree::of(finished))
    }

    /// Parses a document (GraphQL October 2021, section 2.2, "Document").
    ///
    /// A text that is no document has a tree too: what cannot be read is in it as ERROR leaves, and the errors say why.
    /// It fails only where memory is refused. What it promises is `Promise` in `specs/Promise.antt`, field by field.
    pub fn parse<A: Allocator + Copy>(
        self,
        alloc: A,
    ) -> Result<SyntaxTree<DocumentRoot, A>, AllocError>
        ensures promise { IfOk result
            (Promise self.entry.source.now self.entry.recursion_limit self.entry.token_limit) }
    {
        self.parse_counted(alloc, &mut Steps::zero())
    }

    /// Answers as `parse`, and counts each item that is cut, by the parser's lexer or by a copy of it that looks ahead.
    pub fn parse_counted<A: Allocator + Copy>(
        self,
        alloc: A,
        steps: &mut Steps,
    ) -> Result<SyntaxTree<DocumentRoot, A>, AllocError>
        ensures promise { IfOk result
            (Promise self.entry.source.now self.entry.recursion_limit self.entry.token_limit) }
        // whatever it answers, each item of the text is cut at most twice, and no more items are cut than twice the
        // token limit
        ensures lookahead { steps.new.value
            ≤ steps.old.value + 2 * min (length (items_of self.entry.source.now)) self.entry.token_limit }
    {
        let tree = self.run_document(alloc, steps)?;
        tree.into_owned(alloc)
    }

    /// Answers as `parse`, with a tree and errors that borrow the text: so a long token is in memory once.
    pub fn parse_borrowed<A: Allocator + Copy>(
        self,
        alloc: A,
    ) -> Result<BorrowedSyntaxTree<'i, DocumentRoot, A>, AllocError>
        ensures promise { IfOk result
            (Promise self.entry.source.now self.entry.recursion_limit self.entry.token_limit) }
    {
        let tree = self.run_document(alloc, &mut Steps::zero())?;
        Ok(tree)
    }

    // The parse, as a run of the root's rule over the items of the text.
    fn run_selection_set<A: Allocator + Copy>(
        self,
        alloc: A,
    ) -> Result<BorrowedSyntaxTree<'i, SelectionSetRoot, A>, AllocError>
        ensures { IfOk result (ByRootRule kind.SELECTION_SET field_set self.entry.source.now self.entry.recursion_limit
            self.entry.token_limit) }
    {
        let mut p = self.start(alloc, Steps::zero());
        p.open(SyntaxKind::SELECTION_SET)?;
        p.push_pending()?;
        field_set(&mut p)?;
        p.drop_pending();
        let finished = p.finish(self.token_limit, self.source, &mut Steps::zero())?;
        Ok(BorrowedSyntaxTree::of(finished))
    }

    /// Parses a selection set (GraphQL October 2021, section 2.4, "Selection Sets"), with its outer braces or with both
    /// left away.
    ///
    /// What follows the selection set is not in the tree. It fails only where memory is refused. What it promises is
    /// `PartPromise` in `specs/Promise.antt`, field by field.
    pub fn parse_selection_set<A: Allocator + Copy>(
        self,
        alloc: A,
    ) -> Result<SyntaxTree<SelectionSetRoot, A>, AllocError>
        ensures promise { IfOk result
            (PartPromise selections_sort self.entry.source.now self.entry.recursion_limit self.entry.token_limit) }
        // the tree is one SELECTION_SET, also where there are errors
        ensures one_selection_set { IfOk result (λ t. (kids : Forest) × (t.tree ≡ node kind.SELECTION_SET kids none)) }
    {
        let tree = self.run_selection_set(alloc)?;
        tree.into_owned(alloc)
    }

    // The parse, as a run of the root's rule over the items of the text.
    fn run_type<A: Allocator + Copy>(
        self,
        alloc: A,
    ) -> Result<BorrowedSyntaxTree<'i, TypeRoot, A>, AllocError>
        ensures { IfOk result (ByTypeRule self.entry.source.now self.entry.recursion_limit self.entry.token_limit) }
    {
        let mut p = self.start(alloc, Steps::zero());
        let first = p.read_first()?;
        type_root(&mut p, first)?;
        p.drop_pending();
        let finished = p.finish(self.token_limit, self.source, &mut Steps::zero())?;
        Ok(BorrowedSyntaxTree::of(finished))
    }

    /// Parses a type (GraphQL October 2021, section 2.11, "Type References").
    ///
    /// What follows the type is not in the tree. It fails only where memory is refused. What it promises is
    /// `PartPromise` in `specs/Promise.antt`, field by field.
    pub fn parse_type<A: Allocator + Copy>(
        self,
        alloc: A,
    ) -> Result<SyntaxTree<TypeRoot, A>, AllocError>
        ensures promise { IfOk result
            (PartPromise type_sort self.entry.source.now self.entry.recursion_limit self.entry.token_limit) }
        // the tree is one NAMED_TYPE, LIST_TYPE or NON_NULL_TYPE, also where there are errors; or an ERROR, where the
        // first significant token starts no type
        ensures one_type { IfOk result
            (λ t. OneType (first_kind (limited self.entry.token_limit (items_of self.entry.source.now))) t.tree) }
    {
        let tree = self.run_type(alloc)?;
        tree.into_owned(alloc)
    }
}
