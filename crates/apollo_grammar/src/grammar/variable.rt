// Variables.

ghost use Rattle.std.specs.Prelude.{◌≡◌};
ghost use Rattle.apollo_grammar.specs.Clauses.{holds, Here, Child, Call, Parses};
ghost use Rattle.apollo_grammar.specs.Clauses.rule;
ghost use Rattle.apollo_grammar.specs.Clauses.rules;

use super::description::description;
use super::directive::optional_directives;
use super::name::name;
use super::ty::{starts_type, ty};
use super::value::default_value;
use document_grammar::SyntaxKind;
use lexical_grammar::TokenKind;
use parser_rules::{Constness, Message};
use parser_state::ParserState;
use std::alloc::{AllocError, Allocator};

/// Variable definitions (GraphQL October 2021, section 2.10, "Variables"), where `(` comes next.
///     VariableDefinitions (2.10) : ( VariableDefinition+ )
pub fn variable_definitions<A: Allocator + Copy>(
    p: &mut ParserState<'_, A>,
) -> Result<(), AllocError>
    ensures { Parses (Call rule.OptionalVariableDefinitions) result p.old p.new }
{
    if !p.at(TokenKind::LParen) {
        return Ok(());
    }
    p.start_node_with(SyntaxKind::VARIABLE_DEFINITIONS, SyntaxKind::L_PAREN)?;
    want_variable(p)?;
    while starts_variable(p) {
        variable_definition(p)?;
    }
    p.expect(
        TokenKind::RParen,
        SyntaxKind::R_PAREN,
        Message::ExpectedRParen,
    )?;
    p.finish_node();
    Ok(())
}

//     VariableDefinition (2.10) : Description? Variable : Type DefaultValue? Directives[Const]?
fn variable_definition<A: Allocator + Copy>(p: &mut ParserState<'_, A>) -> Result<(), AllocError>
    ensures { Parses (Child rule.VariableDefinition) result p.old p.new }
{
    p.start_node(SyntaxKind::VARIABLE_DEFINITION)?;
    if p.at(TokenKind::StringValue) {
        description(p)?;
        if p.at(TokenKind::Dollar) {
            typed_variable(p)?;
        } else {
            p.err(Message::ExpectedVariable)?;
        }
    } else {
        typed_variable(p)?;
    }
    p.finish_node();
    Ok(())
}

// A variable definition after its description.
fn typed_variable<A: Allocator + Copy>(p: &mut ParserState<'_, A>) -> Result<(), AllocError>
    ensures { Parses (Call rule.TypedVariable) result p.old p.new }
{
    variable(p)?;
    if p.at(TokenKind::Colon) {
        p.bump(SyntaxKind::COLON)?;
        return variable_type(p);
    }
    p.err(Message::ExpectedName)
}

// Whether a variable definition starts here.
#[tactic(auto, unfolding(parser_rules::specs::RuleLanguage::holds))]
fn starts_variable<A: Allocator + Copy>(p: &ParserState<'_, A>) -> bool
    ensures { result ≡ holds (Here rules.variable_start) p.now }
{
    p.at(TokenKind::StringValue) || p.at(TokenKind::Dollar)
}

// Reports an error where no variable definition starts.
fn want_variable<A: Allocator + Copy>(p: &mut ParserState<'_, A>) -> Result<(), AllocError>
    ensures { Parses rules.want_variable result p.old p.new }
{
    if starts_variable(p) {
        return Ok(());
    }
    p.err(Message::ExpectedVariableDefinition)
}

/// What follows the `:` of a variable, of an argument or of an input field.
pub fn variable_type<A: Allocator + Copy>(p: &mut ParserState<'_, A>) -> Result<(), AllocError>
    ensures { Parses (Call rule.VariableType) result p.old p.new }
{
    if !starts_type(p) {
        return p.err(Message::ExpectedType);
    }
    ty(p)?;
    default_value(p)?;
    optional_directives(p, Constness::Const)
}

/// A variable (GraphQL October 2021, section 2.10, "Variables").
///     Variable (2.10) : $ Name
pub fn variable<A: Allocator + Copy>(p: &mut ParserState<'_, A>) -> Result<(), AllocError>
    ensures { Parses (Child rule.Variable) result p.old p.new }
{
    p.start_node_with(SyntaxKind::VARIABLE, SyntaxKind::DOLLAR)?;
    name(p)?;
    p.finish_node();
    Ok(())
}
