// Fragments.

ghost use Rattle.std.specs.Prelude.{◌≡◌, true};
ghost use Rattle.apollo_grammar.specs.Clauses.{holds, At, Child, Call, Parses};
ghost use Rattle.apollo_grammar.specs.Clauses.rule;
ghost use Rattle.apollo_grammar.specs.Clauses.token;

use super::description::described_keyword;
use super::directive::optional_directives;
use super::selection::selection_set;
use super::ty::named_type;
use document_grammar::SyntaxKind;
use lexical_grammar::TokenKind;
use parser_rules::{Constness, Message};
use parser_state::ParserState;
use std::alloc::{AllocError, Allocator};

/// A fragment definition (GraphQL October 2021, section 2.8, "Fragments").
///     FragmentDefinition (2.8) : Description? `fragment` FragmentName TypeCondition Directives? SelectionSet
#[tactic(auto, using(parser_rules::proofs::runs::Running::running), unfolding(parser_rules::specs::Rules::inside, parser_rules::specs::Rules::body))]
pub fn fragment_definition<A: Allocator + Copy>(
    p: &mut ParserState<'_, A>,
) -> Result<(), AllocError>
    ensures { Parses (Child rule.FragmentDefinition) result p.old p.new }
{
    p.start_node(SyntaxKind::FRAGMENT_DEFINITION)?;
    described_keyword(p, SyntaxKind::fragment_KW)?;
    fragment_name(p)?;
    type_condition(p)?;
    optional_directives(p, Constness::NotConst)?;
    if p.at(TokenKind::LCurly) {
        selection_set(p)?;
    } else {
        p.err(Message::ExpectedSelectionSet)?;
    }
    p.finish_node();
    Ok(())
}

// The name of a fragment, which is not `on`.
//     FragmentName (2.8) : Name but not `on`
fn fragment_name<A: Allocator + Copy>(p: &mut ParserState<'_, A>) -> Result<(), AllocError>
    ensures { Parses (Child rule.FragmentName) result p.old p.new }
{
    p.start_node(SyntaxKind::FRAGMENT_NAME)?;
    if p.at_word(SyntaxKind::on_KW) {
        p.err(Message::FragmentNamedOn)?;
    } else if p.at(TokenKind::Name) {
        p.name()?;
    } else {
        p.err(Message::ExpectedFragmentName)?;
    }
    p.finish_node();
    Ok(())
}

// A type condition (section 2.8.1, "Type Conditions").
//     TypeCondition (2.8.1) : `on` NamedType
fn type_condition<A: Allocator + Copy>(p: &mut ParserState<'_, A>) -> Result<(), AllocError>
    ensures { Parses (Child rule.TypeCondition) result p.old p.new }
{
    p.start_node(SyntaxKind::TYPE_CONDITION)?;
    p.expect_word(SyntaxKind::on_KW, Message::ExpectedOn)?;
    if p.at(TokenKind::Name) {
        named_type(p)?;
    } else {
        p.err(Message::ExpectedConditionName)?;
    }
    p.finish_node();
    Ok(())
}

// A type condition, where a name comes next.
fn optional_type_condition<A: Allocator + Copy>(
    p: &mut ParserState<'_, A>,
) -> Result<(), AllocError>
    ensures { Parses (Call rule.OptionalTypeCondition) result p.old p.new }
{
    if p.at(TokenKind::Name) {
        return type_condition(p);
    }
    Ok(())
}

/// An inline fragment (GraphQL October 2021, section 2.8.2, "Inline Fragments").
///     InlineFragment (2.8.2) : ... TypeCondition? Directives? SelectionSet
#[cycle(selection)]
pub fn inline_fragment<A: Allocator + Copy>(p: &mut ParserState<'_, A>) -> Result<(), AllocError>
    requires { true ≡ holds (At token.Spread) p.old }
    ensures { Parses (Child rule.InlineFragment) result p.old p.new }
{
    p.start_node_with(SyntaxKind::INLINE_FRAGMENT, SyntaxKind::SPREAD)?;
    optional_type_condition(p)?;
    optional_directives(p, Constness::NotConst)?;
    if p.at(TokenKind::LCurly) {
        selection_set(p)?;
    } else {
        p.err(Message::ExpectedInlineSelectionSet)?;
    }
    p.finish_node();
    Ok(())
}

/// A fragment spread (GraphQL October 2021, section 2.8, "Fragments").
///     FragmentSpread (2.8) : ... FragmentName Directives?
pub fn fragment_spread<A: Allocator + Copy>(p: &mut ParserState<'_, A>) -> Result<(), AllocError>
    ensures { Parses (Child rule.FragmentSpread) result p.old p.new }
{
    p.start_node_with(SyntaxKind::FRAGMENT_SPREAD, SyntaxKind::SPREAD)?;
    fragment_name(p)?;
    optional_directives(p, Constness::NotConst)?;
    p.finish_node();
    Ok(())
}
