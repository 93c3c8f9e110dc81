// Values.

ghost use Rattle.std.specs.Prelude.{◌≡◌, true};
ghost use Rattle.apollo_grammar.specs.Clauses.{holds, Here, At, Child, Call, Parses};
ghost use Rattle.apollo_grammar.specs.Clauses.rule;
ghost use Rattle.apollo_grammar.specs.Clauses.rules;
ghost use Rattle.apollo_grammar.specs.Clauses.token;

use super::name::name;
use super::variable::variable;
use document_grammar::SyntaxKind;
use lexical_grammar::TokenKind;
use parser_rules::{Constness, Message};
use parser_state::ParserState;
use std::alloc::{AllocError, Allocator};

/// A value (GraphQL October 2021, section 2.9, "Input Values"). A token that starts none is reported, and popped where
/// that is asked.
///     Value[Const] (2.9) : [if not Const] Variable, IntValue, FloatValue, StringValue, BooleanValue, NullValue, EnumValue, ListValue[?Const], ObjectValue[?Const]
#[cycle(value)]
pub fn value<A: Allocator + Copy>(
    p: &mut ParserState<'_, A>,
    constness: Constness,
    pop_on_error: bool,
) -> Result<(), AllocError>
    ensures { Parses (Call (rule.Value constness pop_on_error)) result p.old p.new }
{
    if p.at(TokenKind::Dollar) {
        return variable_value(p, constness);
    }
    if p.at(TokenKind::Int) {
        return p.int_value();
    }
    if p.at(TokenKind::Float) {
        return float_value(p);
    }
    if p.at(TokenKind::StringValue) {
        return p.string_value();
    }
    if p.at(TokenKind::Name) {
        return word_value(p);
    }
    if p.at(TokenKind::LBracket) {
        return list_value(p, constness);
    }
    if p.at(TokenKind::LCurly) {
        return object_value(p, constness);
    }
    no_value(p, pop_on_error)
}

// A variable. In a constant place it is reported, and read all the same.
fn variable_value<A: Allocator + Copy>(
    p: &mut ParserState<'_, A>,
    constness: Constness,
) -> Result<(), AllocError>
    ensures { Parses (rules.variable_value constness) result p.old p.new }
{
    if let Constness::Const = constness {
        p.err(Message::VariableInConst)?;
    }
    variable(p)
}

fn no_value<A: Allocator + Copy>(
    p: &mut ParserState<'_, A>,
    pop_on_error: bool,
) -> Result<(), AllocError>
    ensures { Parses (rules.no_value pop_on_error) result p.old p.new }
{
    if pop_on_error {
        return p.err_and_pop(Message::ExpectedValue);
    }
    p.err(Message::ExpectedValue)
}

fn float_value<A: Allocator + Copy>(p: &mut ParserState<'_, A>) -> Result<(), AllocError>
    ensures { Parses (Child rule.FloatValue) result p.old p.new }
{
    p.start_node_with(SyntaxKind::FLOAT_VALUE, SyntaxKind::FLOAT)?;
    p.finish_node();
    Ok(())
}

// A value that is a word: a boolean, null, or an enum's value.
fn word_value<A: Allocator + Copy>(p: &mut ParserState<'_, A>) -> Result<(), AllocError>
    requires { true ≡ holds (At token.Name) p.old }
    ensures { Parses (Call rule.WordValue) result p.old p.new }
{
    if p.at_boolean() {
        return p.boolean_value();
    }
    if p.at_word(SyntaxKind::null_KW) {
        return null_value(p);
    }
    enum_value(p)
}

//     NullValue (2.9.5) : `null`
fn null_value<A: Allocator + Copy>(p: &mut ParserState<'_, A>) -> Result<(), AllocError>
    ensures { Parses (Child rule.NullValue) result p.old p.new }
{
    p.start_node_with(SyntaxKind::NULL_VALUE, SyntaxKind::null_KW)?;
    p.finish_node();
    Ok(())
}

/// An enum value (GraphQL October 2021, section 2.9.6, "Enum Value"), or a report of the token in its place.
///     EnumValue (2.9.6) : Name but not `true`, `false` or `null`
pub fn enum_value<A: Allocator + Copy>(p: &mut ParserState<'_, A>) -> Result<(), AllocError>
    ensures { Parses (Child rule.EnumValue) result p.old p.new }
{
    p.start_node(SyntaxKind::ENUM_VALUE)?;
    if at_reserved(p) {
        p.err(Message::InvalidEnumValue)?;
        name(p)?;
    } else if p.at(TokenKind::Name) {
        p.name()?;
    } else {
        p.err(Message::ExpectedEnumValue)?;
    }
    p.finish_node();
    Ok(())
}

// Whether a word that no enum value has as its name is here.
#[tactic(auto, unfolding(parser_rules::specs::RuleLanguage::holds))]
fn at_reserved<A: Allocator + Copy>(p: &ParserState<'_, A>) -> bool
    ensures { result ≡ holds (Here rules.reserved) p.now }
{
    p.at_boolean() || p.at_word(SyntaxKind::null_KW)
}

// A value one level deeper.
#[cycle(value)]
fn nested_value<A: Allocator + Copy>(
    p: &mut ParserState<'_, A>,
    constness: Constness,
) -> Result<(), AllocError>
    ensures { Parses (Call (rule.NestedValue constness)) result p.old p.new }
{
    if p.is_too_deep() {
        return p.too_deep();
    }
    p.enter();
    value(p, constness, true)?;
    p.leave();
    Ok(())
}

// A list value (section 2.9.7, "List Value").
//     ListValue[Const] (2.9.7) : [ ], or [ Value[?Const]+ ]
#[cycle(value)]
fn list_value<A: Allocator + Copy>(
    p: &mut ParserState<'_, A>,
    constness: Constness,
) -> Result<(), AllocError>
    requires { true ≡ holds (At token.LBracket) p.old }
    ensures { Parses (Child (rule.ListValue constness)) result p.old p.new }
{
    p.start_node_with(SyntaxKind::LIST_VALUE, SyntaxKind::L_BRACK)?;
    list_items(p, constness)?;
    p.finish_node();
    Ok(())
}

// The items of a list value, and its end.
#[cycle(value)]
fn list_items<A: Allocator + Copy>(
    p: &mut ParserState<'_, A>,
    constness: Constness,
) -> Result<(), AllocError>
    ensures { Parses (Call (rule.ListItems constness)) result p.old p.new }
{
    while has_item(p) {
        nested_value(p, constness)?;
    }
    if p.at(TokenKind::RBracket) {
        return p.bump(SyntaxKind::R_BRACK);
    }
    if p.is_ready() {
        return p.too_deep();
    }
    Ok(())
}

// Whether another item of a list value may start here.
#[tactic(auto, unfolding(parser_rules::specs::RuleLanguage::holds))]
fn has_item<A: Allocator + Copy>(p: &ParserState<'_, A>) -> bool
    ensures { result ≡ holds rules.has_item p.now }
{
    p.is_ready() && !p.at(TokenKind::RBracket) && !p.is_too_deep()
}

// An input object value (section 2.9.8, "Input Object Values").
//     ObjectValue[Const] (2.9.8) : { }, or { ObjectField[?Const]+ }
#[cycle(value)]
fn object_value<A: Allocator + Copy>(
    p: &mut ParserState<'_, A>,
    constness: Constness,
) -> Result<(), AllocError>
    requires { true ≡ holds (At token.LCurly) p.old }
    ensures { Parses (Child (rule.ObjectValue constness)) result p.old p.new }
{
    p.start_node_with(SyntaxKind::OBJECT_VALUE, SyntaxKind::L_CURLY)?;
    while p.at(TokenKind::Name) {
        object_field(p, constness)?;
    }
    p.expect(
        TokenKind::RCurly,
        SyntaxKind::R_CURLY,
        Message::ExpectedRCurly,
    )?;
    p.finish_node();
    Ok(())
}

//     ObjectField[Const] (2.9.8) : Name : Value[?Const]
#[cycle(value)]
fn object_field<A: Allocator + Copy>(
    p: &mut ParserState<'_, A>,
    constness: Constness,
) -> Result<(), AllocError>
    requires { true ≡ holds (At token.Name) p.old }
    ensures { Parses (Child (rule.ObjectField constness)) result p.old p.new }
{
    p.start_node(SyntaxKind::OBJECT_FIELD)?;
    p.name()?;
    if p.at(TokenKind::Colon) {
        p.bump(SyntaxKind::COLON)?;
        nested_value(p, constness)?;
    } else {
        p.err(Message::ExpectedColon)?;
    }
    p.finish_node();
    Ok(())
}

/// A default value (GraphQL October 2021, section 2.10, "Variables"), where `=` comes next.
///     DefaultValue (2.10) : = Value[Const]
pub fn default_value<A: Allocator + Copy>(p: &mut ParserState<'_, A>) -> Result<(), AllocError>
    ensures { Parses (Call rule.OptionalDefaultValue) result p.old p.new }
{
    if !p.at(TokenKind::Eq) {
        return Ok(());
    }
    p.start_node_with(SyntaxKind::DEFAULT_VALUE, SyntaxKind::EQ)?;
    value(p, Constness::Const, false)?;
    p.finish_node();
    Ok(())
}
