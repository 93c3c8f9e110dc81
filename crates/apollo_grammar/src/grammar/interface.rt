// Interfaces.

ghost use Rattle.apollo_grammar.specs.Clauses.{Child, Parses};
ghost use Rattle.apollo_grammar.specs.Clauses.rule;

use super::description::described_keyword;
use super::name::name;
use super::object::{implementing, type_parts};
use document_grammar::SyntaxKind;
use parser_rules::Message;
use parser_state::ParserState;
use std::alloc::{AllocError, Allocator};

/// An interface (GraphQL October 2021, section 3.7, "Interfaces").
///     InterfaceTypeDefinition (3.7) : Description? `interface` Name ImplementsInterfaces? Directives[Const]? FieldsDefinition?
pub fn interface_type_definition<A: Allocator + Copy>(
    p: &mut ParserState<'_, A>,
) -> Result<(), AllocError>
    ensures { Parses (Child rule.InterfaceTypeDefinition) result p.old p.new }
{
    p.start_node(SyntaxKind::INTERFACE_TYPE_DEFINITION)?;
    described_keyword(p, SyntaxKind::interface_KW)?;
    name(p)?;
    type_parts(p)?;
    p.finish_node();
    Ok(())
}

/// An extension of an interface (GraphQL October 2021, section 3.7.1, "Interface Extensions").
///     InterfaceTypeExtension (3.7.1) : `extend` `interface` Name, and one of ImplementsInterfaces, Directives[Const], FieldsDefinition at least, in this order
pub fn interface_type_extension<A: Allocator + Copy>(
    p: &mut ParserState<'_, A>,
) -> Result<(), AllocError>
    ensures { Parses (Child rule.InterfaceTypeExtension) result p.old p.new }
{
    p.start_node_with(SyntaxKind::INTERFACE_TYPE_EXTENSION, SyntaxKind::extend_KW)?;
    p.bump(SyntaxKind::interface_KW)?;
    name(p)?;
    implementing(p, Message::ExpectedInterfaceExtension)?;
    p.finish_node();
    Ok(())
}
