// Fields.

ghost use Rattle.std.specs.Prelude.{◌≡◌, true};
ghost use Rattle.apollo_grammar.specs.Clauses.{holds, At, Child, Parses, Here, Call};
ghost use Rattle.apollo_grammar.specs.Clauses.rule;
ghost use Rattle.apollo_grammar.specs.Clauses.rules;
ghost use Rattle.apollo_grammar.specs.Clauses.token;

use super::argument::{optional_arguments, optional_arguments_definition};
use super::description::{optional_description, starts_named, want_named};
use super::directive::optional_directives;
use super::name::{aliased_name, name};
use super::selection::selection_set;
use super::ty::{starts_type, ty};
use document_grammar::SyntaxKind;
use lexical_grammar::TokenKind;
use parser_rules::{Constness, Message};
use parser_state::ParserState;
use std::alloc::{AllocError, Allocator};

/// A field (GraphQL October 2021, section 2.5, "Fields").
///     Field (2.5) : Alias? Name Arguments? Directives? SelectionSet?
#[cycle(selection)]
#[tactic(auto, using(parser_rules::proofs::runs::Running::running), unfolding(parser_rules::specs::Rules::inside, parser_rules::specs::Rules::body))]
pub fn field<A: Allocator + Copy>(p: &mut ParserState<'_, A>) -> Result<(), AllocError>
    requires { true ≡ holds (At token.Name) p.old }
    ensures { Parses (Child rule.Field) result p.old p.new }
{
    p.start_node(SyntaxKind::FIELD)?;
    aliased_name(p)?;
    optional_arguments(p, Constness::NotConst)?;
    optional_directives(p, Constness::NotConst)?;
    if p.at(TokenKind::LCurly) {
        selection_set(p)?;
    }
    p.finish_node();
    Ok(())
}

/// The fields of a type (GraphQL October 2021, section 3.6, "Objects"), where `{` comes next.
///     FieldsDefinition (3.6) : { FieldDefinition+ }
pub fn fields_definition<A: Allocator + Copy>(p: &mut ParserState<'_, A>) -> Result<(), AllocError>
    requires { true ≡ holds (At token.LCurly) p.old }
    ensures { Parses (Child rule.FieldsDefinition) result p.old p.new }
{
    p.start_node_with(SyntaxKind::FIELDS_DEFINITION, SyntaxKind::L_CURLY)?;
    want_named(p, Message::ExpectedFieldDefinition)?;
    while starts_named(p) {
        field_definition(p)?;
    }
    p.expect(
        TokenKind::RCurly,
        SyntaxKind::R_CURLY,
        Message::ExpectedRCurly,
    )?;
    p.finish_node();
    Ok(())
}

// The definition of a field.
//     FieldDefinition (3.6) : Description? Name ArgumentsDefinition? : Type Directives[Const]?
fn field_definition<A: Allocator + Copy>(p: &mut ParserState<'_, A>) -> Result<(), AllocError>
    requires { true ≡ holds (Here rules.named_start) p.old }
    ensures { Parses (Child rule.FieldDefinition) result p.old p.new }
{
    p.start_node(SyntaxKind::FIELD_DEFINITION)?;
    optional_description(p)?;
    name(p)?;
    optional_arguments_definition(p)?;
    if p.at(TokenKind::Colon) {
        p.bump(SyntaxKind::COLON)?;
        field_type(p)?;
    } else {
        p.err(Message::ExpectedFieldType)?;
    }
    p.finish_node();
    Ok(())
}

// What follows a field's `:`.
fn field_type<A: Allocator + Copy>(p: &mut ParserState<'_, A>) -> Result<(), AllocError>
    ensures { Parses (Call rule.FieldType) result p.old p.new }
{
    if !starts_type(p) {
        return p.err(Message::ExpectedType);
    }
    ty(p)?;
    optional_directives(p, Constness::Const)
}
