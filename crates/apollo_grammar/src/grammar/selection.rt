// Selection sets.

ghost use Rattle.std.specs.Prelude.{◌≡◌, true};
ghost use Rattle.apollo_grammar.specs.Clauses.{fits, holds, Here, At, Child, Call, second, current_of, Parses};
ghost use Rattle.apollo_grammar.specs.Clauses.fragments;
ghost use Rattle.apollo_grammar.specs.Clauses.rule;
ghost use Rattle.apollo_grammar.specs.Clauses.rules;
ghost use Rattle.apollo_grammar.specs.Clauses.token;

use super::field::field;
use super::fragment;
use apollo_lexer::Token;
use document_grammar::SyntaxKind;
use lexical_grammar::TokenKind;
use parser_rules::Message;
use parser_state::{ParserState, is_kind, is_word};
use std::alloc::{AllocError, Allocator};

/// A selection set (GraphQL October 2021, section 2.4, "Selection Sets").
///     SelectionSet (2.4) : { Selection+ }
#[cycle(selection)]
pub fn selection_set<A: Allocator + Copy>(p: &mut ParserState<'_, A>) -> Result<(), AllocError>
    requires { true ≡ holds (At token.LCurly) p.old }
    ensures { Parses (Child rule.SelectionSet) result p.old p.new }
{
    p.start_node(SyntaxKind::SELECTION_SET)?;
    inside_selection_set(p)?;
    p.finish_node();
    Ok(())
}

// What is in a selection set, its braces too.
#[cycle(selection)]
fn inside_selection_set<A: Allocator + Copy>(p: &mut ParserState<'_, A>) -> Result<(), AllocError>
    requires { true ≡ holds (At token.LCurly) p.old }
    ensures { Parses (rules.inside rule.SelectionSet) result p.old p.new }
{
    p.bump(SyntaxKind::L_CURLY)?;
    if p.is_too_deep() {
        return p.too_deep();
    }
    p.enter();
    selections(p)?;
    p.leave();
    p.expect(
        TokenKind::RCurly,
        SyntaxKind::R_CURLY,
        Message::ExpectedRCurly,
    )
}

// The selections of a root that has no braces.
fn unbraced_selections<A: Allocator + Copy>(p: &mut ParserState<'_, A>) -> Result<(), AllocError>
    ensures { Parses fragments.unbraced_selections result p.old p.new }
{
    if p.is_too_deep() {
        return p.too_deep();
    }
    p.enter();
    selections(p)?;
    p.leave();
    Ok(())
}

/// The root of a selection set that is parsed by itself, with or without its braces.
pub fn field_set<A: Allocator + Copy>(p: &mut ParserState<'_, A>) -> Result<(), AllocError>
    ensures { Parses fragments.field_set result p.old p.new }
{
    if p.at(TokenKind::LCurly) {
        return inside_selection_set(p);
    }
    unbraced_selections(p)
}

// The selections of a set, one at least.
#[cycle(selection)]
fn selections<A: Allocator + Copy>(p: &mut ParserState<'_, A>) -> Result<(), AllocError>
    ensures { Parses (Call rule.Selections) result p.old p.new }
{
    want_selection(p)?;
    while starts_selection(p) {
        selection(p)?;
    }
    Ok(())
}

// Whether a selection starts here.
#[tactic(auto, unfolding(parser_rules::specs::RuleLanguage::holds))]
fn starts_selection<A: Allocator + Copy>(p: &ParserState<'_, A>) -> bool
    ensures { result ≡ holds (Here rules.selection_start) p.now }
{
    p.at(TokenKind::Name) || p.at(TokenKind::Spread)
}

// Reports an error where no selection starts.
fn want_selection<A: Allocator + Copy>(p: &mut ParserState<'_, A>) -> Result<(), AllocError>
    ensures { Parses rules.want_selection result p.old p.new }
{
    if starts_selection(p) {
        return Ok(());
    }
    p.err(Message::ExpectedSelection)
}

//     Selection (2.4) : Field, FragmentSpread, or InlineFragment
#[cycle(selection)]
fn selection<A: Allocator + Copy>(p: &mut ParserState<'_, A>) -> Result<(), AllocError>
    requires { true ≡ holds (Here rules.selection_start) p.old }
    ensures { Parses (Call rule.Selection) result p.old p.new }
{
    if p.at(TokenKind::Name) {
        return field(p);
    }
    spread(p)
}

// Whether a spread before the token is an inline fragment.
fn is_inline(next: Option<Token<'_>>) -> bool
    ensures { result ≡ fits rules.inline_fragment (current_of next.entry) }
{
    is_word(next, SyntaxKind::on_KW)
        || is_kind(next, TokenKind::At)
        || is_kind(next, TokenKind::LCurly)
}

// What starts with `...`: the token after it says which fragment it is. Where there is none, the `...` is popped.
#[cycle(selection)]
#[tactic(auto, using(crate::proofs::Looks::looking), unfolding(parser_rules::specs::Rules::body, parser_rules::specs::RuleLanguage::holds))]
fn spread<A: Allocator + Copy>(p: &mut ParserState<'_, A>) -> Result<(), AllocError>
    requires { true ≡ holds (At token.Spread) p.old }
    ensures { Parses (Call rule.Spread) result p.old p.new }
{
    let next = p.peek();
    spread_before(p, next)
}

// The same, where the token after the `...` is known.
#[cycle(selection)]
#[tactic(auto, using(crate::proofs::Looks::looking), unfolding(parser_rules::specs::Rules::body, parser_rules::specs::RuleLanguage::holds))]
fn spread_before<A: Allocator + Copy>(
    p: &mut ParserState<'_, A>,
    next: Option<Token<'_>>,
) -> Result<(), AllocError>
    requires at { true ≡ holds (At token.Spread) p.old }
    requires after { current_of next ≡ second p.old.items }
    ensures { Parses (Call rule.Spread) result p.old p.new }
{
    if is_inline(next) {
        return fragment::inline_fragment(p);
    }
    if is_kind(next, TokenKind::Name) {
        return fragment::fragment_spread(p);
    }
    if next.is_none() {
        return p.err_and_pop(Message::ExpectedFragment);
    }
    p.err(Message::ExpectedFragment)?;
    p.bump(SyntaxKind::SPREAD)
}
