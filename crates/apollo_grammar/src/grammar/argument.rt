// Arguments.

ghost use Rattle.std.specs.Prelude.{◌≡◌, true};
ghost use Rattle.apollo_grammar.specs.Clauses.{holds, At, Child, Call, Parses};
ghost use Rattle.apollo_grammar.specs.Clauses.rule;
ghost use Rattle.apollo_grammar.specs.Clauses.token;

use super::description::{starts_named, want_named};
use super::input::input_value_definition;
use super::value::value;
use document_grammar::SyntaxKind;
use lexical_grammar::TokenKind;
use parser_rules::{Constness, Message};
use parser_state::ParserState;
use std::alloc::{AllocError, Allocator};

/// Arguments (GraphQL October 2021, section 2.6, "Arguments"), if `(` comes next.
#[inline(always)]
pub fn optional_arguments<A: Allocator + Copy>(
    p: &mut ParserState<'_, A>,
    constness: Constness,
) -> Result<(), AllocError>
    ensures { Parses (Call (rule.OptionalArguments constness)) result p.old p.new }
{
    if p.at(TokenKind::LParen) {
        return arguments(p, constness);
    }
    Ok(())
}

//     Arguments[Const] (2.6) : ( Argument[?Const]+ )
fn arguments<A: Allocator + Copy>(
    p: &mut ParserState<'_, A>,
    constness: Constness,
) -> Result<(), AllocError>
    requires { true ≡ holds (At token.LParen) p.old }
    ensures { Parses (Child (rule.Arguments constness)) result p.old p.new }
{
    p.start_node_with(SyntaxKind::ARGUMENTS, SyntaxKind::L_PAREN)?;
    p.want(TokenKind::Name, Message::ExpectedArgument)?;
    while p.at(TokenKind::Name) {
        argument(p, constness)?;
    }
    p.expect(
        TokenKind::RParen,
        SyntaxKind::R_PAREN,
        Message::ExpectedRParen,
    )?;
    p.finish_node();
    Ok(())
}

//     Argument[Const] (2.6) : Name : Value[?Const]
fn argument<A: Allocator + Copy>(
    p: &mut ParserState<'_, A>,
    constness: Constness,
) -> Result<(), AllocError>
    requires { true ≡ holds (At token.Name) p.old }
    ensures { Parses (Child (rule.Argument constness)) result p.old p.new }
{
    p.start_node(SyntaxKind::ARGUMENT)?;
    p.name()?;
    if p.at(TokenKind::Colon) {
        p.bump(SyntaxKind::COLON)?;
        value(p, constness, false)?;
    } else {
        p.err(Message::ExpectedColon)?;
    }
    p.finish_node();
    Ok(())
}

/// The arguments of a field or a directive that is defined (GraphQL October 2021, section 3.6.1, "Field Arguments"),
/// where `(` comes next.
///     ArgumentsDefinition (3.6.1) : ( InputValueDefinition+ )
pub fn arguments_definition<A: Allocator + Copy>(
    p: &mut ParserState<'_, A>,
) -> Result<(), AllocError>
    requires { true ≡ holds (At token.LParen) p.old }
    ensures { Parses (Child rule.ArgumentsDefinition) result p.old p.new }
{
    p.start_node_with(SyntaxKind::ARGUMENTS_DEFINITION, SyntaxKind::L_PAREN)?;
    want_named(p, Message::ExpectedArgumentDefinition)?;
    while starts_named(p) {
        input_value_definition(p)?;
    }
    p.expect(
        TokenKind::RParen,
        SyntaxKind::R_PAREN,
        Message::ExpectedRParen,
    )?;
    p.finish_node();
    Ok(())
}

/// The same, if `(` comes next.
pub fn optional_arguments_definition<A: Allocator + Copy>(
    p: &mut ParserState<'_, A>,
) -> Result<(), AllocError>
    ensures { Parses (Call rule.OptionalArgumentsDefinition) result p.old p.new }
{
    if p.at(TokenKind::LParen) {
        return arguments_definition(p);
    }
    Ok(())
}
