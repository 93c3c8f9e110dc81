// Object types.

ghost use Rattle.apollo_grammar.specs.Clauses.{Child, Call, Parses};
ghost use Rattle.apollo_grammar.specs.Clauses.rule;
ghost use Rattle.apollo_grammar.specs.Clauses.rules;

use super::description::described_keyword;
use super::directive::optional_directives;
use super::extended::{Block, extended};
use super::field::fields_definition;
use super::name::name;
use super::ty::named_type;
use document_grammar::SyntaxKind;
use lexical_grammar::TokenKind;
use parser_rules::{Constness, Message};
use parser_state::ParserState;
use std::alloc::{AllocError, Allocator};

/// An object type (GraphQL October 2021, section 3.6, "Objects").
///     ObjectTypeDefinition (3.6) : Description? `type` Name ImplementsInterfaces? Directives[Const]? FieldsDefinition?
pub fn object_type_definition<A: Allocator + Copy>(
    p: &mut ParserState<'_, A>,
) -> Result<(), AllocError>
    ensures { Parses (Child rule.ObjectTypeDefinition) result p.old p.new }
{
    p.start_node(SyntaxKind::OBJECT_TYPE_DEFINITION)?;
    described_keyword(p, SyntaxKind::type_KW)?;
    type_name(p)?;
    type_parts(p)?;
    p.finish_node();
    Ok(())
}

// The name of an object type.
fn type_name<A: Allocator + Copy>(p: &mut ParserState<'_, A>) -> Result<(), AllocError>
    ensures { Parses (Call rule.TypeName) result p.old p.new }
{
    if p.at(TokenKind::Name) {
        return p.name();
    }
    p.err(Message::ExpectedTypeName)
}

/// An extension of an object type (GraphQL October 2021, section 3.6.3, "Object Extensions").
///     ObjectTypeExtension (3.6.3) : `extend` `type` Name, and one of ImplementsInterfaces, Directives[Const], FieldsDefinition at least, in this order
pub fn object_type_extension<A: Allocator + Copy>(
    p: &mut ParserState<'_, A>,
) -> Result<(), AllocError>
    ensures { Parses (Child rule.ObjectTypeExtension) result p.old p.new }
{
    p.start_node_with(SyntaxKind::OBJECT_TYPE_EXTENSION, SyntaxKind::extend_KW)?;
    p.bump(SyntaxKind::type_KW)?;
    name(p)?;
    implementing(p, Message::ExpectedObjectExtension)?;
    p.finish_node();
    Ok(())
}

/// What an extension of an object type or of an interface adds.
pub fn implementing<A: Allocator + Copy>(
    p: &mut ParserState<'_, A>,
    message: Message,
) -> Result<(), AllocError>
    ensures { Parses (rules.implementing message) result p.old p.new }
{
    if p.at_word(SyntaxKind::implements_KW) {
        implements_interfaces(p)?;
        optional_directives(p, Constness::Const)?;
        if p.at(TokenKind::LCurly) {
            return fields_definition(p);
        }
        return Ok(());
    }
    extended(p, Block::FieldsDefinition, message)
}

/// What follows the name of an object type or of an interface that is defined.
pub fn type_parts<A: Allocator + Copy>(p: &mut ParserState<'_, A>) -> Result<(), AllocError>
    ensures { Parses rules.type_parts result p.old p.new }
{
    optional_implements(p)?;
    optional_directives(p, Constness::Const)?;
    if p.at(TokenKind::LCurly) {
        return fields_definition(p);
    }
    Ok(())
}

// The interfaces that a type implements, where `implements` comes next.
fn optional_implements<A: Allocator + Copy>(p: &mut ParserState<'_, A>) -> Result<(), AllocError>
    ensures { Parses (Call rule.OptionalImplements) result p.old p.new }
{
    if p.at_word(SyntaxKind::implements_KW) {
        return implements_interfaces(p);
    }
    Ok(())
}

// The interfaces that a type implements.
//     ImplementsInterfaces (3.6) : `implements` &? NamedType, or ImplementsInterfaces & NamedType
fn implements_interfaces<A: Allocator + Copy>(p: &mut ParserState<'_, A>) -> Result<(), AllocError>
    ensures { Parses (Child rule.ImplementsInterfaces) result p.old p.new }
{
    p.start_node_with(SyntaxKind::IMPLEMENTS_INTERFACES, SyntaxKind::implements_KW)?;
    p.skip(TokenKind::Amp, SyntaxKind::AMP)?;
    interface_name(p)?;
    while p.at(TokenKind::Amp) {
        p.bump(SyntaxKind::AMP)?;
        interface_name(p)?;
    }
    p.finish_node();
    Ok(())
}

// The name of an interface.
fn interface_name<A: Allocator + Copy>(p: &mut ParserState<'_, A>) -> Result<(), AllocError>
    ensures { Parses (Call rule.InterfaceName) result p.old p.new }
{
    if p.at(TokenKind::Name) {
        return named_type(p);
    }
    p.err(Message::ExpectedInterface)
}
