// Calls on lexers and trackers.
use crate::answers::Answers;
use apollo_lexer::{Error, LexError, Lexer, LimitTracker, Steps, Token};
use std::alloc::{AllocError, Global};

// It has no contract, so the proof of a caller does not carry what the lexer promises from call to call.
fn lexer_of<'a>(source: &'a str, limit: usize) -> Lexer<'a> {
    Lexer::new(source).with_limit(limit)
}

fn put_item(
    alloc: Global,
    found: &mut Answers,
    item: Result<Token<'_>, LexError<'_>>,
) -> Result<(), AllocError> {
    match item {
        Ok(token) => found.show(&token),
        Err(error) => found.show(&error.to_error(alloc)?),
    }
    found.end_line();
    Ok(())
}

fn put_items(alloc: Global, found: &mut Answers, lexer: Lexer<'_>) -> Result<(), AllocError> {
    for item in lexer {
        put_item(alloc, found, item)?;
    }
    found.push_text("no more\n");
    Ok(())
}

// A lexer of `a b c` that has given its only item.
fn lexer_behind_an_item() -> Lexer<'static> {
    let mut lexer = lexer_of("a b c", 1);
    let _item = lexer.next_counted(&mut Steps::zero());
    lexer
}

// A lexer that has given its limit's error, which a later limit does not open.
fn lexer_behind_its_limit() -> Lexer<'static> {
    let mut lexer = lexer_behind_an_item();
    let _error = lexer.next();
    lexer.with_limit(5)
}

// A limit counts from the next item on, whatever the limit was before. After the limit's error nothing more is given.
fn put_later_limits(alloc: Global, found: &mut Answers) -> Result<(), AllocError> {
    for limit in [0, 2, 5] {
        put_items(alloc, found, lexer_behind_an_item().with_limit(limit))?;
    }
    put_items(alloc, found, lexer_behind_an_item())?;
    put_items(alloc, found, lexer_behind_its_limit())
}

// Tokens and errors are listed apart.
fn put_lists(alloc: Global, found: &mut Answers) -> Result<(), AllocError> {
    let (tokens, errors) = lexer_of("type Query { ..a a a a a a a a a }", 10).lex(alloc)?;
    found.push_text("tokens:");
    found.put(&tokens.len());
    for error in &errors {
        put_listed(found, error);
    }
    found.end_line();
    Ok(())
}

fn put_listed(found: &mut Answers, error: &Error) {
    found.put(&error.data());
    found.put(&error.index());
    found.put(&error.is_limit());
}

fn put_counts(found: &mut Answers, tracker: &LimitTracker) {
    found.put(&tracker.current());
    found.put(&tracker.high);
}

fn put_tracker(found: &mut Answers) {
    let mut tracker = LimitTracker::new(1);
    found.push_text("tracker:");
    found.put(&tracker.check_and_increment());
    put_counts(found, &tracker);
    found.put(&tracker.check_and_increment());
    put_counts(found, &tracker);
    tracker.decrement();
    put_counts(found, &tracker);
    found.put(&tracker);
    found.push_text(" ");
    found.show(&tracker);
    found.end_line();
}

fn put_token(found: &mut Answers, token: Token<'_>) {
    found.push_text(token.name());
    found.put(&token.data());
    found.put(&token.index());
    found.end_line();
}

fn put_fault(found: &mut Answers, error: LexError<'_>) {
    found.push_text("fault:");
    found.put(&error.message_parts());
    found.put(&error.data());
    found.put(&error.index());
    found.put(&error.is_limit());
    found.end_line();
}

fn put_next(found: &mut Answers, lexer: &mut Lexer<'_>) {
    match lexer.next() {
        Some(Ok(token)) => put_token(found, token),
        Some(Err(error)) => put_fault(found, error),
        None => found.push_text("nothing\n"),
    }
}

// A copy of a lexer goes on as the lexer does.
fn put_copies(found: &mut Answers) {
    let mut lexer = lexer_of("a b", 2);
    put_next(found, &mut lexer);
    let mut copy = lexer;
    found.push_text("copy:");
    found.put(&(lexer.next() == copy.next_counted(&mut Steps::zero())));
    found.end_line();
    put_next(found, &mut lexer);
    put_next(found, &mut lexer);
    found.push_text("highest count:");
    found.put(&lexer.limit_tracker().high);
    found.end_line();
}

pub fn put_answers(alloc: Global, found: &mut Answers) -> Result<(), AllocError> {
    put_later_limits(alloc, found)?;
    put_lists(alloc, found)?;
    put_tracker(found);
    put_copies(found);
    Ok(())
}
