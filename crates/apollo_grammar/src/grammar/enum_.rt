// Enums.

ghost use Rattle.std.specs.Prelude.{◌≡◌, true};
ghost use Rattle.apollo_grammar.specs.Clauses.{holds, At, Child, Parses};
ghost use Rattle.apollo_grammar.specs.Clauses.rule;
ghost use Rattle.apollo_grammar.specs.Clauses.token;

use super::description::{described_keyword, optional_description, starts_named, want_named};
use super::directive::optional_directives;
use super::extended::{Block, extended};
use super::name::name;
use super::value::enum_value;
use document_grammar::SyntaxKind;
use lexical_grammar::TokenKind;
use parser_rules::{Constness, Message};
use parser_state::ParserState;
use std::alloc::{AllocError, Allocator};

/// An enum (GraphQL October 2021, section 3.9, "Enums").
///     EnumTypeDefinition (3.9) : Description? `enum` Name Directives[Const]? EnumValuesDefinition?
pub fn enum_type_definition<A: Allocator + Copy>(
    p: &mut ParserState<'_, A>,
) -> Result<(), AllocError>
    ensures { Parses (Child rule.EnumTypeDefinition) result p.old p.new }
{
    p.start_node(SyntaxKind::ENUM_TYPE_DEFINITION)?;
    described_keyword(p, SyntaxKind::enum_KW)?;
    name(p)?;
    optional_directives(p, Constness::Const)?;
    if p.at(TokenKind::LCurly) {
        enum_values_definition(p)?;
    }
    p.finish_node();
    Ok(())
}

/// An extension of an enum (GraphQL October 2021, section 3.9.1, "Enum Extensions").
///     EnumTypeExtension (3.9.1) : `extend` `enum` Name, and one of Directives[Const] and EnumValuesDefinition at least, in this order
pub fn enum_type_extension<A: Allocator + Copy>(
    p: &mut ParserState<'_, A>,
) -> Result<(), AllocError>
    ensures { Parses (Child rule.EnumTypeExtension) result p.old p.new }
{
    p.start_node_with(SyntaxKind::ENUM_TYPE_EXTENSION, SyntaxKind::extend_KW)?;
    p.bump(SyntaxKind::enum_KW)?;
    name(p)?;
    extended(
        p,
        Block::EnumValuesDefinition,
        Message::ExpectedEnumExtension,
    )?;
    p.finish_node();
    Ok(())
}

/// The values of an enum, where `{` comes next.
///     EnumValuesDefinition (3.9) : { EnumValueDefinition+ }
pub fn enum_values_definition<A: Allocator + Copy>(
    p: &mut ParserState<'_, A>,
) -> Result<(), AllocError>
    requires { true ≡ holds (At token.LCurly) p.old }
    ensures { Parses (Child rule.EnumValuesDefinition) result p.old p.new }
{
    p.start_node_with(SyntaxKind::ENUM_VALUES_DEFINITION, SyntaxKind::L_CURLY)?;
    want_named(p, Message::ExpectedEnumValueDefinition)?;
    while starts_named(p) {
        enum_value_definition(p)?;
    }
    p.expect(
        TokenKind::RCurly,
        SyntaxKind::R_CURLY,
        Message::ExpectedRCurly,
    )?;
    p.finish_node();
    Ok(())
}

// The definition of an enum's value.
//     EnumValueDefinition (3.9) : Description? EnumValue Directives[Const]?
fn enum_value_definition<A: Allocator + Copy>(p: &mut ParserState<'_, A>) -> Result<(), AllocError>
    ensures { Parses (Child rule.EnumValueDefinition) result p.old p.new }
{
    p.start_node(SyntaxKind::ENUM_VALUE_DEFINITION)?;
    optional_description(p)?;
    enum_value(p)?;
    optional_directives(p, Constness::Const)?;
    p.finish_node();
    Ok(())
}
