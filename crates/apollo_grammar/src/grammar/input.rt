// Input objects.

ghost use Rattle.std.specs.Prelude.{◌≡◌, true};
ghost use Rattle.apollo_grammar.specs.Clauses.{holds, Here, At, Child, Parses};
ghost use Rattle.apollo_grammar.specs.Clauses.rule;
ghost use Rattle.apollo_grammar.specs.Clauses.rules;
ghost use Rattle.apollo_grammar.specs.Clauses.token;

use super::description::{described_keyword, optional_description, starts_named, want_named};
use super::directive::optional_directives;
use super::extended::{Block, extended};
use super::name::name;
use super::variable::variable_type;
use document_grammar::SyntaxKind;
use lexical_grammar::TokenKind;
use parser_rules::{Constness, Message};
use parser_state::ParserState;
use std::alloc::{AllocError, Allocator};

/// An input object (GraphQL October 2021, section 3.10, "Input Objects").
///     InputObjectTypeDefinition (3.10) : Description? `input` Name Directives[Const]? InputFieldsDefinition?
pub fn input_object_type_definition<A: Allocator + Copy>(
    p: &mut ParserState<'_, A>,
) -> Result<(), AllocError>
    ensures { Parses (Child rule.InputObjectTypeDefinition) result p.old p.new }
{
    p.start_node(SyntaxKind::INPUT_OBJECT_TYPE_DEFINITION)?;
    described_keyword(p, SyntaxKind::input_KW)?;
    name(p)?;
    optional_directives(p, Constness::Const)?;
    if p.at(TokenKind::LCurly) {
        input_fields_definition(p)?;
    }
    p.finish_node();
    Ok(())
}

/// An extension of an input object (GraphQL October 2021, section 3.10.1, "Input Object Extensions").
///     InputObjectTypeExtension (3.10.1) : `extend` `input` Name, and one of Directives[Const] and InputFieldsDefinition at least, in this order
pub fn input_object_type_extension<A: Allocator + Copy>(
    p: &mut ParserState<'_, A>,
) -> Result<(), AllocError>
    ensures { Parses (Child rule.InputObjectTypeExtension) result p.old p.new }
{
    p.start_node_with(
        SyntaxKind::INPUT_OBJECT_TYPE_EXTENSION,
        SyntaxKind::extend_KW,
    )?;
    p.bump(SyntaxKind::input_KW)?;
    name(p)?;
    extended(
        p,
        Block::InputFieldsDefinition,
        Message::ExpectedInputExtension,
    )?;
    p.finish_node();
    Ok(())
}

/// The fields of an input object, where `{` comes next.
///     InputFieldsDefinition (3.10) : { InputValueDefinition+ }
pub fn input_fields_definition<A: Allocator + Copy>(
    p: &mut ParserState<'_, A>,
) -> Result<(), AllocError>
    requires { true ≡ holds (At token.LCurly) p.old }
    ensures { Parses (Child rule.InputFieldsDefinition) result p.old p.new }
{
    p.start_node_with(SyntaxKind::INPUT_FIELDS_DEFINITION, SyntaxKind::L_CURLY)?;
    want_named(p, Message::ExpectedInputValueDefinition)?;
    while starts_named(p) {
        input_value_definition(p)?;
    }
    p.expect(
        TokenKind::RCurly,
        SyntaxKind::R_CURLY,
        Message::ExpectedRCurly,
    )?;
    p.finish_node();
    Ok(())
}

/// The definition of an argument or of an input field (GraphQL October 2021, section 3.6.1, "Field Arguments").
///     InputValueDefinition (3.6.1) : Description? Name : Type DefaultValue? Directives[Const]?
pub fn input_value_definition<A: Allocator + Copy>(
    p: &mut ParserState<'_, A>,
) -> Result<(), AllocError>
    requires { true ≡ holds (Here rules.named_start) p.old }
    ensures { Parses (Child rule.InputValueDefinition) result p.old p.new }
{
    p.start_node(SyntaxKind::INPUT_VALUE_DEFINITION)?;
    optional_description(p)?;
    name(p)?;
    if p.at(TokenKind::Colon) {
        p.bump(SyntaxKind::COLON)?;
        variable_type(p)?;
    } else {
        p.err(Message::ExpectedName)?;
    }
    p.finish_node();
    Ok(())
}
