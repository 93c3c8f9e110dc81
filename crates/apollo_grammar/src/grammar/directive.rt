// Directives.

ghost use Rattle.std.specs.Prelude.{◌≡◌};
ghost use Rattle.apollo_grammar.specs.Clauses.{Child, Call, Parses, holds, Here, current_of};
ghost use Rattle.apollo_grammar.specs.Clauses.rule;
ghost use Rattle.apollo_grammar.specs.Clauses.rules;
ghost use Rattle.apollo_grammar.specs.Locations.{location_word};

use super::argument::{optional_arguments, optional_arguments_definition};
use super::description::described_keyword;
use super::name::name;
use apollo_lexer::Token;
use document_grammar::SyntaxKind;
use lexical_grammar::TokenKind;
use parser_rules::{Constness, Message};
use parser_state::{ParserState, is_word};
use std::alloc::{AllocError, Allocator};

/// Directives (GraphQL October 2021, section 2.12, "Directives"), if `@` comes next.
#[inline(always)]
pub fn optional_directives<A: Allocator + Copy>(
    p: &mut ParserState<'_, A>,
    constness: Constness,
) -> Result<(), AllocError>
    ensures { Parses (Call (rule.OptionalDirectives constness)) result p.old p.new }
{
    if p.at(TokenKind::At) {
        return directives(p, constness);
    }
    Ok(())
}

//     Directives[Const] (2.12) : Directive[?Const]+
fn directives<A: Allocator + Copy>(
    p: &mut ParserState<'_, A>,
    constness: Constness,
) -> Result<(), AllocError>
    ensures { Parses (Child (rule.Directives constness)) result p.old p.new }
{
    p.start_node(SyntaxKind::DIRECTIVES)?;
    while p.at(TokenKind::At) {
        directive(p, constness)?;
    }
    p.finish_node();
    Ok(())
}

//     Directive[Const] (2.12) : @ Name Arguments[?Const]?
fn directive<A: Allocator + Copy>(
    p: &mut ParserState<'_, A>,
    constness: Constness,
) -> Result<(), AllocError>
    ensures { Parses (Child (rule.Directive constness)) result p.old p.new }
{
    p.start_node_with(SyntaxKind::DIRECTIVE, SyntaxKind::AT)?;
    name(p)?;
    optional_arguments(p, constness)?;
    p.finish_node();
    Ok(())
}

// The executable directive locations, and after them those of the type system (GraphQL October 2021, section 3.13).
static LOCATIONS: [SyntaxKind; 19] = [
    SyntaxKind::QUERY_KW,
    SyntaxKind::MUTATION_KW,
    SyntaxKind::SUBSCRIPTION_KW,
    SyntaxKind::FIELD_KW,
    SyntaxKind::FRAGMENT_DEFINITION_KW,
    SyntaxKind::FRAGMENT_SPREAD_KW,
    SyntaxKind::INLINE_FRAGMENT_KW,
    SyntaxKind::VARIABLE_DEFINITION_KW,
    SyntaxKind::SCHEMA_KW,
    SyntaxKind::SCALAR_KW,
    SyntaxKind::OBJECT_KW,
    SyntaxKind::FIELD_DEFINITION_KW,
    SyntaxKind::ARGUMENT_DEFINITION_KW,
    SyntaxKind::INTERFACE_KW,
    SyntaxKind::UNION_KW,
    SyntaxKind::ENUM_KW,
    SyntaxKind::ENUM_VALUE_KW,
    SyntaxKind::INPUT_OBJECT_KW,
    SyntaxKind::INPUT_FIELD_DEFINITION_KW,
];

/// The definition of a directive (GraphQL October 2021, section 3.13, "Directives").
///     DirectiveDefinition (3.13) : Description? `directive` @ Name ArgumentsDefinition? `repeatable`? `on` DirectiveLocations
pub fn directive_definition<A: Allocator + Copy>(
    p: &mut ParserState<'_, A>,
) -> Result<(), AllocError>
    ensures { Parses (Child rule.DirectiveDefinition) result p.old p.new }
{
    p.start_node(SyntaxKind::DIRECTIVE_DEFINITION)?;
    described_keyword(p, SyntaxKind::directive_KW)?;
    directive_name(p)?;
    optional_arguments_definition(p)?;
    p.skip_word(SyntaxKind::repeatable_KW)?;
    on_locations(p)?;
    p.finish_node();
    Ok(())
}

// The name of a directive that is defined, after `@`.
fn directive_name<A: Allocator + Copy>(p: &mut ParserState<'_, A>) -> Result<(), AllocError>
    ensures { Parses (Call rule.DirectiveName) result p.old p.new }
{
    p.expect(TokenKind::At, SyntaxKind::AT, Message::ExpectedAt)?;
    name(p)
}

// The places where the directive may be, after `on`.
fn on_locations<A: Allocator + Copy>(p: &mut ParserState<'_, A>) -> Result<(), AllocError>
    ensures { Parses (Call rule.OnLocations) result p.old p.new }
{
    p.expect_word(SyntaxKind::on_KW, Message::ExpectedLocations)?;
    if starts_locations(p) {
        return directive_locations(p);
    }
    p.err(Message::ExpectedValidLocation)
}

#[tactic(auto, unfolding(parser_rules::specs::RuleLanguage::holds))]
fn starts_locations<A: Allocator + Copy>(p: &ParserState<'_, A>) -> bool
    ensures { result ≡ holds (Here rules.locations_start) p.now }
{
    p.at(TokenKind::Name) || p.at(TokenKind::Pipe)
}

// The places where a directive may be.
//     DirectiveLocations (3.13) : |? DirectiveLocation, or DirectiveLocations | DirectiveLocation
fn directive_locations<A: Allocator + Copy>(p: &mut ParserState<'_, A>) -> Result<(), AllocError>
    ensures { Parses (Child rule.DirectiveLocations) result p.old p.new }
{
    p.start_node(SyntaxKind::DIRECTIVE_LOCATIONS)?;
    p.skip(TokenKind::Pipe, SyntaxKind::PIPE)?;
    location(p)?;
    while p.at(TokenKind::Pipe) {
        p.bump(SyntaxKind::PIPE)?;
        location(p)?;
    }
    p.finish_node();
    Ok(())
}

// A place where a directive may be.
#[tactic(auto, using(crate::proofs::Locations::choosing))]
fn location<A: Allocator + Copy>(p: &mut ParserState<'_, A>) -> Result<(), AllocError>
    ensures { Parses (Call rule.Location) result p.old p.new }
{
    match location_kind(p.current()) {
        Some(kind) => directive_location(p, kind),
        None if p.at(TokenKind::Name) => p.err(Message::ExpectedValidLocation),
        None => p.err(Message::ExpectedLocation),
    }
}

// A location that is known to be next.
//     DirectiveLocation (3.13) : ExecutableDirectiveLocation, or TypeSystemDirectiveLocation
#[tactic(auto, using(crate::proofs::Locations::opening))]
fn directive_location<A: Allocator + Copy>(
    p: &mut ParserState<'_, A>,
    kind: SyntaxKind,
) -> Result<(), AllocError>
    requires { Some kind ≡ location_word p.old.current }
    ensures { Parses (Child rule.DirectiveLocation) result p.old p.new }
{
    p.start_node(SyntaxKind::DIRECTIVE_LOCATION)?;
    p.bump(kind)?;
    p.finish_node();
    Ok(())
}

// The first of the locations that the token is.
fn location_kind(token: Option<Token<'_>>) -> Option<SyntaxKind>
    ensures { result ≡ location_word (current_of token.entry) }
{
    for kind in &LOCATIONS {
        if is_word(token, *kind) {
            return Some(*kind);
        }
    }
    None
}
