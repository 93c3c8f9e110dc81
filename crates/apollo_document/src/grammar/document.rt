// Documents.

ghost use Rattle.std.specs.Prelude.{◌≡◌};
ghost use Rattle.apollo_grammar.specs.Clauses.{Child, Call, second, current_of, Parses};
ghost use Rattle.apollo_grammar.specs.Clauses.rule;
ghost use Rattle.apollo_grammar.specs.Clauses.rules;
ghost use Rattle.apollo_document.specs.Keywords as keywords;

use super::extensions::extensions;
use super::keyword::{DefinitionKeyword, definition_keyword};
use apollo_grammar::{
    directive_definition, enum_type_definition, fragment_definition, input_object_type_definition,
    interface_type_definition, object_type_definition, operation_definition, query_shorthand,
    scalar_type_definition, schema_definition, union_type_definition,
};
use apollo_lexer::Token;
use document_grammar::SyntaxKind;
use lexical_grammar::TokenKind;
use parser_rules::Message;
use parser_state::{ParserState, is_kind, is_word};
use std::alloc::{AllocError, Allocator};

/// A document (GraphQL October 2021, section 2.2, "Document"), up to the end of the text.
///     Document (2.2) : Definition+
pub fn document<A: Allocator + Copy>(p: &mut ParserState<'_, A>) -> Result<(), AllocError>
    ensures { Parses (Call rule.Document) result p.old p.new }
{
    p.want_ready(Message::UnexpectedEof)?;
    while p.is_ready() {
        definition(p)?;
    }
    Ok(())
}

// A definition, or a token in its place that is popped.
//     Definition (2.2) : OperationDefinition, FragmentDefinition, or a definition or extension of the type system (3)
#[tactic(auto, using(crate::proofs::Keywords::defining), unfolding(parser_rules::specs::Rules::body))]
fn definition<A: Allocator + Copy>(p: &mut ParserState<'_, A>) -> Result<(), AllocError>
    ensures { Parses (Call rule.Definition) result p.old p.new }
{
    if let Some(keyword) = definition_keyword(p.current()) {
        return definition_of(p, keyword);
    }
    if p.at(TokenKind::LCurly) {
        return query_shorthand(p);
    }
    if p.at_word(SyntaxKind::extend_KW) {
        return extensions(p);
    }
    no_definition(p)
}

// The definition that has the keyword, with its description where it has one.
fn definition_of<A: Allocator + Copy>(
    p: &mut ParserState<'_, A>,
    keyword: DefinitionKeyword,
) -> Result<(), AllocError>
    ensures { Parses (Child (keywords.definition_of keyword)) result p.old p.new }
{
    match keyword {
        DefinitionKeyword::Query | DefinitionKeyword::Mutation | DefinitionKeyword::Subscription =>
            operation_definition(p),
        DefinitionKeyword::Fragment => fragment_definition(p),
        DefinitionKeyword::Schema => schema_definition(p),
        DefinitionKeyword::Directive => directive_definition(p),
        DefinitionKeyword::Scalar => scalar_type_definition(p),
        DefinitionKeyword::Object => object_type_definition(p),
        DefinitionKeyword::Interface => interface_type_definition(p),
        DefinitionKeyword::Union => union_type_definition(p),
        DefinitionKeyword::Enum => enum_type_definition(p),
        DefinitionKeyword::InputObject => input_object_type_definition(p),
    }
}

// A token in the place of a definition.
fn no_definition<A: Allocator + Copy>(p: &mut ParserState<'_, A>) -> Result<(), AllocError>
    ensures { Parses rules.no_definition result p.old p.new }
{
    if p.at(TokenKind::Name) {
        return p.err_and_pop(Message::ExpectedDefinition);
    }
    if p.at(TokenKind::StringValue) {
        return described_definition(p);
    }
    p.err_and_pop(Message::ExpectedDefinitionStart)
}

// A definition with its description: the token after the string says which.
#[tactic(auto, using(apollo_grammar::proofs::Looks::looking), unfolding(parser_rules::specs::Rules::body, parser_rules::specs::RuleLanguage::holds))]
fn described_definition<A: Allocator + Copy>(p: &mut ParserState<'_, A>) -> Result<(), AllocError>
    ensures { Parses (Call rule.DescribedDefinition) result p.old p.new }
{
    let next = p.peek();
    described_definition_before(p, next)
}

// The same, where the token after the string is known.
#[tactic(auto, using(crate::proofs::Keywords::describing), unfolding(parser_rules::specs::Rules::body, parser_rules::specs::RuleLanguage::holds))]
fn described_definition_before<A: Allocator + Copy>(
    p: &mut ParserState<'_, A>,
    next: Option<Token<'_>>,
) -> Result<(), AllocError>
    requires { current_of next ≡ second p.old.items }
    ensures { Parses (Call rule.DescribedDefinition) result p.old p.new }
{
    if let Some(keyword) = definition_keyword(next) {
        return definition_of(p, keyword);
    }
    if is_kind(next, TokenKind::LCurly) {
        return p.err_and_pop(Message::ExpectedOperation);
    }
    if is_word(next, SyntaxKind::extend_KW) {
        return p.err_and_pop(Message::InvalidExtension);
    }
    if next.is_some() {
        return p.err_and_pop(Message::ExpectedDefinition);
    }
    p.err_and_pop(Message::ExpectedDefinitionAfterString)
}
