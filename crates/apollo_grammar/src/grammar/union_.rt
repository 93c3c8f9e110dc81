// Unions.

ghost use Rattle.apollo_grammar.specs.Clauses.{Child, Call, Parses};
ghost use Rattle.apollo_grammar.specs.Clauses.rule;

use super::description::described_keyword;
use super::directive::optional_directives;
use super::extended::{Block, extended};
use super::name::name;
use super::ty::named_type;
use document_grammar::SyntaxKind;
use lexical_grammar::TokenKind;
use parser_rules::{Constness, Message};
use parser_state::ParserState;
use std::alloc::{AllocError, Allocator};

/// A union (GraphQL October 2021, section 3.8, "Unions").
///     UnionTypeDefinition (3.8) : Description? `union` Name Directives[Const]? UnionMemberTypes?
pub fn union_type_definition<A: Allocator + Copy>(
    p: &mut ParserState<'_, A>,
) -> Result<(), AllocError>
    ensures { Parses (Child rule.UnionTypeDefinition) result p.old p.new }
{
    p.start_node(SyntaxKind::UNION_TYPE_DEFINITION)?;
    described_keyword(p, SyntaxKind::union_KW)?;
    name(p)?;
    optional_directives(p, Constness::Const)?;
    if p.at(TokenKind::Eq) {
        union_member_types(p)?;
    }
    p.finish_node();
    Ok(())
}

/// An extension of a union (GraphQL October 2021, section 3.8.1, "Union Extensions").
///     UnionTypeExtension (3.8.1) : `extend` `union` Name, and one of Directives[Const] and UnionMemberTypes at least, in this order
pub fn union_type_extension<A: Allocator + Copy>(
    p: &mut ParserState<'_, A>,
) -> Result<(), AllocError>
    ensures { Parses (Child rule.UnionTypeExtension) result p.old p.new }
{
    p.start_node_with(SyntaxKind::UNION_TYPE_EXTENSION, SyntaxKind::extend_KW)?;
    p.bump(SyntaxKind::union_KW)?;
    name(p)?;
    extended(p, Block::UnionMemberTypes, Message::ExpectedUnionExtension)?;
    p.finish_node();
    Ok(())
}

/// The members of a union, where `=` comes next.
///     UnionMemberTypes (3.8) : = |? NamedType, or UnionMemberTypes | NamedType
pub fn union_member_types<A: Allocator + Copy>(p: &mut ParserState<'_, A>) -> Result<(), AllocError>
    ensures { Parses (Child rule.UnionMemberTypes) result p.old p.new }
{
    p.start_node_with(SyntaxKind::UNION_MEMBER_TYPES, SyntaxKind::EQ)?;
    p.skip(TokenKind::Pipe, SyntaxKind::PIPE)?;
    union_member(p)?;
    while p.at(TokenKind::Pipe) {
        p.bump(SyntaxKind::PIPE)?;
        union_member(p)?;
    }
    p.finish_node();
    Ok(())
}

// A member of a union.
fn union_member<A: Allocator + Copy>(p: &mut ParserState<'_, A>) -> Result<(), AllocError>
    ensures { Parses (Call rule.UnionMember) result p.old p.new }
{
    if p.at(TokenKind::Name) {
        return named_type(p);
    }
    p.err(Message::ExpectedUnionMember)
}
