// Schemas.

ghost use Rattle.apollo_grammar.specs.Clauses.{Child, Call, Parses};
ghost use Rattle.apollo_grammar.specs.Clauses.rule;
ghost use Rattle.apollo_grammar.specs.Clauses.rules;

use super::description::described_keyword;
use super::directive::optional_directives;
use super::operation::operation_type;
use super::ty::named_type;
use document_grammar::SyntaxKind;
use lexical_grammar::TokenKind;
use parser_rules::{Constness, Message};
use parser_state::ParserState;
use std::alloc::{AllocError, Allocator};

/// A schema (GraphQL October 2021, section 3.3, "Schema").
///     SchemaDefinition (3.3) : Description? `schema` Directives[Const]? { RootOperationTypeDefinition+ }
pub fn schema_definition<A: Allocator + Copy>(p: &mut ParserState<'_, A>) -> Result<(), AllocError>
    ensures { Parses (Child rule.SchemaDefinition) result p.old p.new }
{
    p.start_node(SyntaxKind::SCHEMA_DEFINITION)?;
    described_keyword(p, SyntaxKind::schema_KW)?;
    optional_directives(p, Constness::Const)?;
    if p.at(TokenKind::LCurly) {
        root_operations(p, Message::ExpectedRootOperation)?;
    } else {
        p.err(Message::ExpectedLCurly)?;
    }
    p.finish_node();
    Ok(())
}

/// An extension of the schema (GraphQL October 2021, section 3.3.2, "Schema Extension").
///     SchemaExtension (3.3.2) : `extend` `schema` Directives[Const]? { RootOperationTypeDefinition+ }, or `extend` `schema` Directives[Const]
pub fn schema_extension<A: Allocator + Copy>(p: &mut ParserState<'_, A>) -> Result<(), AllocError>
    ensures { Parses (Child rule.SchemaExtension) result p.old p.new }
{
    p.start_node_with(SyntaxKind::SCHEMA_EXTENSION, SyntaxKind::extend_KW)?;
    p.bump(SyntaxKind::schema_KW)?;
    if p.at(TokenKind::At) {
        optional_directives(p, Constness::Const)?;
        if p.at(TokenKind::LCurly) {
            root_operations(p, Message::ExpectedSchemaExtension)?;
        }
    } else if p.at(TokenKind::LCurly) {
        root_operations(p, Message::ExpectedSchemaExtension)?;
    } else {
        p.err(Message::ExpectedSchemaExtension)?;
    }
    p.finish_node();
    Ok(())
}

// The root operations between braces, where `{` comes next. Where there is none, that is reported.
fn root_operations<A: Allocator + Copy>(
    p: &mut ParserState<'_, A>,
    message: Message,
) -> Result<(), AllocError>
    ensures { Parses (rules.root_operations message) result p.old p.new }
{
    p.bump(SyntaxKind::L_CURLY)?;
    p.want(TokenKind::Name, message)?;
    while p.at(TokenKind::Name) {
        root_operation_type_definition(p)?;
    }
    p.expect(
        TokenKind::RCurly,
        SyntaxKind::R_CURLY,
        Message::ExpectedRCurly,
    )
}

// The type of a root operation.
//     RootOperationTypeDefinition (3.3) : OperationType : NamedType
fn root_operation_type_definition<A: Allocator + Copy>(
    p: &mut ParserState<'_, A>,
) -> Result<(), AllocError>
    ensures { Parses (Child rule.RootOperationTypeDefinition) result p.old p.new }
{
    p.start_node(SyntaxKind::ROOT_OPERATION_TYPE_DEFINITION)?;
    operation_type(p)?;
    if p.at(TokenKind::Colon) {
        p.bump(SyntaxKind::COLON)?;
        root_type(p)?;
    } else {
        p.err(Message::ExpectedRootType)?;
    }
    p.finish_node();
    Ok(())
}

// What follows a root operation's `:`.
fn root_type<A: Allocator + Copy>(p: &mut ParserState<'_, A>) -> Result<(), AllocError>
    ensures { Parses (Call rule.RootType) result p.old p.new }
{
    if p.at(TokenKind::Name) {
        return named_type(p);
    }
    p.err(Message::ExpectedRootType)
}
