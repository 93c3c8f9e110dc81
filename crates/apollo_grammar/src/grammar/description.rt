// Descriptions.

ghost use Rattle.std.specs.Prelude.{◌≡◌, true};
ghost use Rattle.apollo_grammar.specs.Clauses.{is_keyword, number, holds, At, Child, Call, Parses, Here};
ghost use Rattle.apollo_grammar.specs.Clauses.rule;
ghost use Rattle.apollo_grammar.specs.Clauses.rules;
ghost use Rattle.apollo_grammar.specs.Clauses.token;

use document_grammar::SyntaxKind;
use lexical_grammar::TokenKind;
use parser_rules::Message;
use parser_state::ParserState;
use std::alloc::{AllocError, Allocator};

/// A description (GraphQL October 2021, section 3, "Descriptions"), where a string comes next.
///     Description (3) : StringValue
pub fn description<A: Allocator + Copy>(p: &mut ParserState<'_, A>) -> Result<(), AllocError>
    requires { true ≡ holds (At token.StringValue) p.old }
    ensures { Parses (Child rule.Description) result p.old p.new }
{
    p.start_node(SyntaxKind::DESCRIPTION)?;
    p.string_value()?;
    p.finish_node();
    Ok(())
}

/// A description, where a string comes next.
pub fn optional_description<A: Allocator + Copy>(
    p: &mut ParserState<'_, A>,
) -> Result<(), AllocError>
    ensures { Parses (Call rule.OptionalDescription) result p.old p.new }
{
    if p.at(TokenKind::StringValue) {
        return description(p);
    }
    Ok(())
}

/// A definition's description, where it has one, and the keyword after it.
pub fn described_keyword<A: Allocator + Copy>(
    p: &mut ParserState<'_, A>,
    keyword: SyntaxKind,
) -> Result<(), AllocError>
    requires { is_keyword (number keyword) ≡ true }
    ensures { Parses (rules.described_keyword keyword) result p.old p.new }
{
    optional_description(p)?;
    if p.at_word(keyword) {
        return p.bump(keyword);
    }
    p.err_and_pop(Message::ExpectedDefinition)
}

/// Whether what has a description and a name starts here.
#[tactic(auto, unfolding(parser_rules::specs::RuleLanguage::holds))]
pub fn starts_named<A: Allocator + Copy>(p: &ParserState<'_, A>) -> bool
    ensures { result ≡ holds (Here rules.named_start) p.now }
{
    p.at(TokenKind::StringValue) || p.at(TokenKind::Name)
}

/// Reports an error where nothing with a description and a name starts.
pub fn want_named<A: Allocator + Copy>(
    p: &mut ParserState<'_, A>,
    message: Message,
) -> Result<(), AllocError>
    ensures { Parses (rules.want_named message) result p.old p.new }
{
    if starts_named(p) {
        return Ok(());
    }
    p.err(message)
}
