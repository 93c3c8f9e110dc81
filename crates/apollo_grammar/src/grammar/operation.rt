// Operations.

ghost use Rattle.std.specs.Prelude.{◌≡◌, true};
ghost use Rattle.apollo_grammar.specs.Clauses.{holds, At, Child, Parses};
ghost use Rattle.apollo_grammar.specs.Clauses.rule;
ghost use Rattle.apollo_grammar.specs.Clauses.rules;
ghost use Rattle.apollo_grammar.specs.Clauses.token;

use super::description::optional_description;
use super::directive::optional_directives;
use super::name::optional_name;
use super::selection::selection_set;
use super::variable::variable_definitions;
use document_grammar::SyntaxKind;
use lexical_grammar::TokenKind;
use parser_rules::{Constness, Message};
use parser_state::ParserState;
use std::alloc::{AllocError, Allocator};

/// An operation with its type (GraphQL October 2021, section 2.3, "Operations").
///     OperationDefinition (2.3) : Description? OperationType Name? VariableDefinitions? Directives? SelectionSet
pub fn operation_definition<A: Allocator + Copy>(
    p: &mut ParserState<'_, A>,
) -> Result<(), AllocError>
    ensures { Parses (Child rule.OperationDefinition) result p.old p.new }
{
    p.start_node(SyntaxKind::OPERATION_DEFINITION)?;
    operation_head(p)?;
    optional_name(p)?;
    variable_definitions(p)?;
    optional_directives(p, Constness::NotConst)?;
    if p.at(TokenKind::LCurly) {
        selection_set(p)?;
    } else {
        p.err_and_pop(Message::ExpectedSelectionSet)?;
    }
    p.finish_node();
    Ok(())
}

/// A query that is a selection set alone (GraphQL October 2021, section 2.3, "Operations", "Query shorthand").
///     OperationDefinition (2.3) : SelectionSet
pub fn query_shorthand<A: Allocator + Copy>(p: &mut ParserState<'_, A>) -> Result<(), AllocError>
    requires { true ≡ holds (At token.LCurly) p.old }
    ensures { Parses (Child rule.QueryShorthand) result p.old p.new }
{
    p.start_node(SyntaxKind::OPERATION_DEFINITION)?;
    selection_set(p)?;
    p.finish_node();
    Ok(())
}

// An operation's description, where it has one, and its type.
fn operation_head<A: Allocator + Copy>(p: &mut ParserState<'_, A>) -> Result<(), AllocError>
    ensures { Parses rules.operation_head result p.old p.new }
{
    optional_description(p)?;
    operation_type(p)
}

/// The type of an operation (GraphQL October 2021, section 2.3, "Operations").
///     OperationType (2.3) : one of `query` `mutation` `subscription`
pub fn operation_type<A: Allocator + Copy>(p: &mut ParserState<'_, A>) -> Result<(), AllocError>
    ensures { Parses (Child rule.OperationType) result p.old p.new }
{
    p.start_node(SyntaxKind::OPERATION_TYPE)?;
    operation_word(p)?;
    p.finish_node();
    Ok(())
}

fn operation_word<A: Allocator + Copy>(p: &mut ParserState<'_, A>) -> Result<(), AllocError>
    ensures { Parses rules.operation_word result p.old p.new }
{
    if p.at_word(SyntaxKind::query_KW) {
        return p.bump(SyntaxKind::query_KW);
    }
    if p.at_word(SyntaxKind::mutation_KW) {
        return p.bump(SyntaxKind::mutation_KW);
    }
    if p.at_word(SyntaxKind::subscription_KW) {
        return p.bump(SyntaxKind::subscription_KW);
    }
    p.err_and_pop(Message::ExpectedOperationType)
}
