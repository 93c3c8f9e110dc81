// What is found in a text.
use super::parts::put_parts;
use super::record::{Mode, Record, View};
use super::typed::{put_definitions, put_values};
use crate::answers::Answers;
use apollo_parser::cst::{CstNode, SyntaxNodePtr};
use apollo_parser::{
    BorrowedError, BorrowedSyntaxTree, DocumentRoot, Error, LexError, Lexer, LimitTracker, Limits,
    Parser, Root, SelectionSetRoot, Steps, SyntaxKind, SyntaxNode, SyntaxTree, Token, TypeRoot,
};
use std::alloc::{AllocError, Global};

// A root that a text is parsed below. The calls have no contracts: the promises of the parser would burden the proofs
// here.
trait Parsed: Root {
    fn parse(alloc: Global, parser: Parser<'_>) -> Result<SyntaxTree<Self, Global>, AllocError>;

    // The root with its type, where it has one.
    fn typed(tree: &SyntaxTree<Self, Global>) -> Option<SyntaxNode<'_>>;
}

impl Parsed for DocumentRoot {
    fn parse(alloc: Global, parser: Parser<'_>) -> Result<SyntaxTree<Self, Global>, AllocError> {
        parser.parse(alloc)
    }

    fn typed(tree: &SyntaxTree<Self, Global>) -> Option<SyntaxNode<'_>> {
        Some(*tree.document().syntax())
    }
}

impl Parsed for SelectionSetRoot {
    fn parse(alloc: Global, parser: Parser<'_>) -> Result<SyntaxTree<Self, Global>, AllocError> {
        parser.parse_selection_set(alloc)
    }

    fn typed(tree: &SyntaxTree<Self, Global>) -> Option<SyntaxNode<'_>> {
        Some(*tree.field_set().syntax())
    }
}

impl Parsed for TypeRoot {
    fn parse(alloc: Global, parser: Parser<'_>) -> Result<SyntaxTree<Self, Global>, AllocError> {
        parser.parse_type(alloc)
    }

    fn typed(tree: &SyntaxTree<Self, Global>) -> Option<SyntaxNode<'_>> {
        Some(*tree.ty()?.syntax())
    }
}

// Where an error is, and what it is about.
fn put_subject(found: &mut Answers, index: usize, is_limit: bool, is_eof: bool, data: &str) {
    found.write(&index, " ");
    if is_limit {
        found.push_text("limit");
    } else if is_eof {
        found.push_text("end");
    } else {
        found.write(&data, "");
    }
    found.push_text(": ");
}

fn put_error(found: &mut Answers, error: &Error) {
    put_subject(
        found,
        error.index(),
        error.is_limit(),
        error.is_eof(),
        error.data(),
    );
    found.push_text(error.message());
    found.end_line();
}

// A line for each of the first ten errors, with the byte offset, the text that it is about, and the message.
fn put_errors<R: Root>(found: &mut Answers, tree: &SyntaxTree<R, Global>) {
    for error in tree.errors().take(10) {
        put_error(found, error);
    }
}

fn node_count(root: SyntaxNode<'_>) -> usize {
    let mut count = 0usize;
    for _node in root.children() {
        count = count.saturating_add(1);
    }
    count
}

fn put_root(found: &mut Answers, root: SyntaxNode<'_>) {
    found.write(&root.kind(), " of ");
    found.write(&root.text().len(), " bytes, ");
    found.write(&node_count(root), " nodes below it; ");
}

fn put_counts(found: &mut Answers, elements: usize, tokens: LimitTracker, recursion: LimitTracker) {
    found.write(&elements, " elements, ");
    found.write(&tokens.high, " items, nesting ");
    found.debug(&recursion.high);
}

// The errors, and a line with the root and the counts.
fn put_tree<R: Root>(found: &mut Answers, tree: &SyntaxTree<R, Global>) {
    put_errors(found, tree);
    put_root(found, tree.root());
    put_counts(
        found,
        tree.element_count(),
        tree.token_limit(),
        tree.recursion_limit(),
    );
    found.push_text(", ");
    found.write(&tree.errors().len(), " errors\n");
}

fn put_item(
    alloc: Global,
    found: &mut Answers,
    item: Result<Token<'_>, LexError<'_>>,
) -> Result<(), AllocError> {
    match item {
        Ok(token) => {
            found.show(&token);
            found.end_line();
        }
        Err(error) => put_error(found, &error.to_error(alloc)?),
    }
    Ok(())
}

// A line for each item of the lexer.
fn put_items(
    alloc: Global,
    found: &mut Answers,
    source: &str,
    limits: Limits,
) -> Result<(), AllocError> {
    for item in Lexer::new(source).with_limit(limits.tokens) {
        put_item(alloc, found, item)?;
    }
    Ok(())
}

fn put_range(found: &mut Answers, node: SyntaxNode<'_>) {
    found.write(&node.kind(), " ");
    found.write(&node.text_range(), " ");
    found.write(&node.text(), " ");
}

// Where a node is, its text, and the same of a copy of it.
fn put_place(alloc: Global, found: &mut Answers, node: SyntaxNode<'_>) -> Result<(), AllocError> {
    let copy = node.clone_subtree(alloc)?;
    put_range(found, node);
    put_range(found, copy.root());
    found.made(node.source_string(alloc), "\n");
    Ok(())
}

fn put_places(alloc: Global, found: &mut Answers, root: SyntaxNode<'_>) -> Result<(), AllocError> {
    for node in root.descendants() {
        put_place(alloc, found, node)?;
    }
    Ok(())
}

// What is looked at in the nodes of a tree, from its root on.
fn put_nodes(
    alloc: Global,
    found: &mut Answers,
    root: SyntaxNode<'_>,
    view: View,
) -> Result<(), AllocError> {
    match view {
        View::Definitions => put_definitions(alloc, found, root),
        View::Values => put_values(alloc, found, root),
        View::Parts => put_parts(alloc, found, root),
        _ => put_places(alloc, found, root)?,
    }
    Ok(())
}

fn put_view<R: Parsed>(
    alloc: Global,
    found: &mut Answers,
    tree: &SyntaxTree<R, Global>,
    view: View,
) -> Result<(), AllocError> {
    match view {
        View::Counts => put_tree(found, tree),
        View::Printed => found.write(tree, "\n"),
        _ => {
            put_errors(found, tree);
            match R::typed(tree) {
                Some(root) => put_nodes(alloc, found, root, view)?,
                None => found.push_text("no type\n"),
            }
        }
    }
    Ok(())
}

fn put_text<R: Parsed>(
    alloc: Global,
    found: &mut Answers,
    source: &str,
    limits: Limits,
    view: View,
) -> Result<(), AllocError> {
    let tree = R::parse(alloc, Parser::within(source, limits))?;
    put_view(alloc, found, &tree, view)
}

// A copy of a tree whose parse was counted: it is the tree of a plain parse.
fn counted_copy(
    alloc: Global,
    source: &str,
    limits: Limits,
) -> Result<SyntaxTree<DocumentRoot, Global>, AllocError> {
    let parser = Parser::within(source, limits);
    parser
        .parse_counted(alloc, &mut Steps::zero())?
        .try_clone(alloc)
}

fn put_copy(
    alloc: Global,
    found: &mut Answers,
    source: &str,
    limits: Limits,
) -> Result<(), AllocError> {
    let copy = counted_copy(alloc, source, limits)?;
    found.write(&copy, "\n");
    found.write(&copy.token_limit().limit, " ");
    found.write(&copy.element(0), "\n");
    put_tree(found, &copy);
    Ok(())
}

fn put_borrowed_error(found: &mut Answers, error: &BorrowedError<'_>) {
    put_subject(
        found,
        error.index(),
        error.is_limit(),
        error.is_eof(),
        error.data(),
    );
    let (words, quoted, end) = error.message_parts();
    found.push_text(words);
    found.push_text(quoted);
    found.push_text(end);
    found.end_line();
}

fn put_borrowed_errors(found: &mut Answers, tree: &BorrowedSyntaxTree<'_, DocumentRoot, Global>) {
    for error in tree.errors() {
        put_borrowed_error(found, error);
    }
}

fn borrowed(
    alloc: Global,
    source: &str,
    limits: Limits,
) -> Result<BorrowedSyntaxTree<'_, DocumentRoot, Global>, AllocError> {
    Parser::within(source, limits).parse_borrowed(alloc)
}

// What a tree that borrows the text says, in the words of `put_tree`, and its last element.
fn put_borrowed_tree(found: &mut Answers, tree: &BorrowedSyntaxTree<'_, DocumentRoot, Global>) {
    let last = tree.element_count().saturating_sub(1);
    put_borrowed_errors(found, tree);
    put_root(found, tree.root());
    put_counts(
        found,
        tree.element_count(),
        tree.token_limit(),
        tree.recursion_limit(),
    );
    found.push_text("; ");
    found.write(&tree.element(last), "\n");
}

// A tree that borrows the text; then the same tree with a text of its own.
fn put_borrowed(
    alloc: Global,
    found: &mut Answers,
    source: &str,
    limits: Limits,
) -> Result<(), AllocError> {
    let tree = borrowed(alloc, source, limits)?;
    put_borrowed_tree(found, &tree);
    put_tree(found, &tree.into_owned(alloc)?);
    Ok(())
}

fn document(alloc: Global, source: &str) -> Result<SyntaxTree<DocumentRoot, Global>, AllocError> {
    DocumentRoot::parse(alloc, Parser::new(source))
}

fn first_field(root: SyntaxNode<'_>) -> Option<SyntaxNode<'_>> {
    for node in root.descendants() {
        if node.kind().is(SyntaxKind::FIELD) {
            return Some(node);
        }
    }
    None
}

fn pointer_to_field(alloc: Global, source: &str) -> Result<Option<SyntaxNodePtr>, AllocError> {
    let tree = document(alloc, source)?;
    match first_field(tree.root()) {
        Some(field) => Ok(Some(SyntaxNodePtr::new(&field))),
        None => Ok(None),
    }
}

fn put_pointed(
    alloc: Global,
    found: &mut Answers,
    pointer: SyntaxNodePtr,
    source: &str,
) -> Result<(), AllocError> {
    let tree = document(alloc, source)?;
    match pointer.to_node(&tree.root()) {
        Some(node) => found.write(&(node.kind(), node.text()), "\n"),
        None => found.push_text("no node\n"),
    }
    Ok(())
}

// What a pointer to the first field of the first line finds in the other lines.
fn put_pointers(alloc: Global, found: &mut Answers, source: &str) -> Result<(), AllocError> {
    let (first, others) = source.split_once("\n").unwrap_or((source, ""));
    if let Some(pointer) = pointer_to_field(alloc, first)? {
        for line in others.split("\n") {
            put_pointed(alloc, found, pointer, line)?;
        }
    }
    Ok(())
}

// What a mode finds in a text.
fn put_findings(
    alloc: Global,
    found: &mut Answers,
    source: &str,
    mode: Mode,
    limits: Limits,
) -> Result<(), AllocError> {
    match mode {
        Mode::Tokens => put_items(alloc, found, source, limits),
        Mode::Copy => put_copy(alloc, found, source, limits),
        Mode::Borrowed => put_borrowed(alloc, found, source, limits),
        Mode::Pointers => put_pointers(alloc, found, source),
        Mode::Document(view) => put_text::<DocumentRoot>(alloc, found, source, limits, view),
        Mode::SelectionSet(view) => {
            put_text::<SelectionSetRoot>(alloc, found, source, limits, view)
        }
        Mode::Type(view) => put_text::<TypeRoot>(alloc, found, source, limits, view),
    }
}

/// What the record's mode finds in its text.
pub fn findings(alloc: Global, record: &Record<'_>) -> Result<String, AllocError> {
    let source = record.text(alloc)?;
    let mut found = Answers::new(alloc);
    put_findings(
        alloc,
        &mut found,
        source.as_str(),
        record.mode,
        record.limits,
    )?;
    found.into_text()
}
