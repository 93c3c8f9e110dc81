// Names.

ghost use Rattle.std.specs.Prelude.{◌≡◌, true};
ghost use Rattle.apollo_grammar.specs.Clauses.{holds, At, Next, Kind, Child, Call, Parses};
ghost use Rattle.apollo_grammar.specs.Clauses.rule;
ghost use Rattle.apollo_grammar.specs.Clauses.token;

use document_grammar::SyntaxKind;
use lexical_grammar::TokenKind;
use parser_rules::Message;
use parser_state::ParserState;
use std::alloc::{AllocError, Allocator};

/// A name (GraphQL October 2021, section 2.1.9, "Names").
pub fn name<A: Allocator + Copy>(p: &mut ParserState<'_, A>) -> Result<(), AllocError>
    ensures { Parses (Call rule.RequiredName) result p.old p.new }
{
    if p.at(TokenKind::Name) {
        return p.name();
    }
    p.err(Message::ExpectedName)
}

/// A name, where one comes next.
pub fn optional_name<A: Allocator + Copy>(p: &mut ParserState<'_, A>) -> Result<(), AllocError>
    ensures { Parses (Call rule.OptionalName) result p.old p.new }
{
    if p.at(TokenKind::Name) {
        return p.name();
    }
    Ok(())
}

/// A field's alias (GraphQL October 2021, section 2.7, "Field Alias").
///     Alias (2.7) : Name :
fn alias<A: Allocator + Copy>(p: &mut ParserState<'_, A>) -> Result<(), AllocError>
    requires { true ≡ holds (At token.Name) p.old }
    ensures { Parses (Child rule.Alias) result p.old p.new }
{
    p.start_node(SyntaxKind::ALIAS)?;
    p.name()?;
    p.bump(SyntaxKind::COLON)?;
    p.finish_node();
    Ok(())
}

/// A field's name, with its alias.
pub fn aliased_name<A: Allocator + Copy>(p: &mut ParserState<'_, A>) -> Result<(), AllocError>
    requires { true ≡ holds (At token.Name) p.old }
    ensures { Parses (Call rule.AliasedName) result p.old p.new }
{
    let next_is_colon = p.is_before(TokenKind::Colon);
    aliased_name_before(p, next_is_colon)
}

// The same, where it is known whether a `:` follows the first name.
#[tactic(auto, using(parser_rules::proofs::runs::Running::running), unfolding(parser_rules::specs::Rules::inside, parser_rules::specs::Rules::body, parser_rules::specs::RuleLanguage::holds))]
fn aliased_name_before<A: Allocator + Copy>(
    p: &mut ParserState<'_, A>,
    next_is_colon: bool,
) -> Result<(), AllocError>
    requires at { true ≡ holds (At token.Name) p.old }
    requires after { next_is_colon ≡ holds (Next (Kind token.Colon)) p.old }
    ensures { Parses (Call rule.AliasedName) result p.old p.new }
{
    if next_is_colon {
        alias(p)?;
        return name(p);
    }
    p.name()
}
