// Scalars.

ghost use Rattle.apollo_grammar.specs.Clauses.{Child, Parses};
ghost use Rattle.apollo_grammar.specs.Clauses.rule;

use super::description::described_keyword;
use super::directive::optional_directives;
use super::name::name;
use document_grammar::SyntaxKind;
use lexical_grammar::TokenKind;
use parser_rules::{Constness, Message};
use parser_state::ParserState;
use std::alloc::{AllocError, Allocator};

/// A scalar (GraphQL October 2021, section 3.5, "Scalars").
///     ScalarTypeDefinition (3.5) : Description? `scalar` Name Directives[Const]?
pub fn scalar_type_definition<A: Allocator + Copy>(
    p: &mut ParserState<'_, A>,
) -> Result<(), AllocError>
    ensures { Parses (Child rule.ScalarTypeDefinition) result p.old p.new }
{
    p.start_node(SyntaxKind::SCALAR_TYPE_DEFINITION)?;
    described_keyword(p, SyntaxKind::scalar_KW)?;
    name(p)?;
    optional_directives(p, Constness::Const)?;
    p.finish_node();
    Ok(())
}

/// An extension of a scalar (GraphQL October 2021, section 3.5.3, "Scalar Extensions").
///     ScalarTypeExtension (3.5.3) : `extend` `scalar` Name Directives[Const]
pub fn scalar_type_extension<A: Allocator + Copy>(
    p: &mut ParserState<'_, A>,
) -> Result<(), AllocError>
    ensures { Parses (Child rule.ScalarTypeExtension) result p.old p.new }
{
    p.start_node_with(SyntaxKind::SCALAR_TYPE_EXTENSION, SyntaxKind::extend_KW)?;
    p.bump(SyntaxKind::scalar_KW)?;
    name(p)?;
    if p.at(TokenKind::At) {
        optional_directives(p, Constness::Const)?;
    } else {
        p.err(Message::ExpectedScalarExtension)?;
    }
    p.finish_node();
    Ok(())
}
