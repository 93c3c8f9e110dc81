// Violations of rules, collected up to a bound, of the rules and documents that are selected.
ghost use Rattle.std.specs.Prelude.{◌≡◌};
ghost use Rattle.validation_names.specs.Sites.{as_located};
ghost use Rattle.validation_rules.specs.TextOrder.{site_key};

use crate::selection::Selection;
use std::alloc::{AllocError, Global};
use validation_names::Site;

/// A rule of validation, under the name that graphql-js gives it, with its sections (GraphQL October 2021). The last
/// two have no name there.
#[derive(Clone, Copy)]
pub enum Rule {
    /// 5.1.1
    ExecutableDefinitions,
    /// 5.2.1.1
    UniqueOperationNames,
    /// 5.2.2.1
    LoneAnonymousOperation,
    /// 5.4.2
    UniqueArgumentNames,
    /// 5.5.1.1
    UniqueFragmentNames,
    /// 5.5.1.4
    NoUnusedFragments,
    /// 5.5.2.1
    KnownFragmentNames,
    /// 5.5.2.2
    NoFragmentCycles,
    /// 5.6.3
    UniqueInputFieldNames,
    /// 5.8.1
    UniqueVariableNames,
    /// 5.8.3
    NoUndefinedVariables,
    /// 5.8.4
    NoUnusedVariables,
    /// 3.6, 3.7 and 3.10
    UniqueFieldDefinitionNames,
    /// 3.6.1 and 3.13
    UniqueArgumentDefinitionNames,
    /// 3.9
    UniqueEnumValueNames,
    /// 3.8
    UniqueUnionMemberTypes,
    /// 3.6 and 3.7
    UniqueImplementedInterfaces,
}

impl Rule {
    ghost use Rattle.std.specs.Prelude.{◌≡◌, bytes_eq};
    ghost use Rattle.std.specs.List.{find};
    ghost use Rattle.validation_rules.specs.RuleNames.{rule_name};
    ghost use Rattle.validation_rules.specs.RuleNumbers.{rule_number};

    /// All rules, in the order of their numbers.
    pub const ALL: [Rule; 17] = [
        Rule::ExecutableDefinitions,
        Rule::UniqueOperationNames,
        Rule::LoneAnonymousOperation,
        Rule::UniqueArgumentNames,
        Rule::UniqueFragmentNames,
        Rule::NoUnusedFragments,
        Rule::KnownFragmentNames,
        Rule::NoFragmentCycles,
        Rule::UniqueInputFieldNames,
        Rule::UniqueVariableNames,
        Rule::NoUndefinedVariables,
        Rule::NoUnusedVariables,
        Rule::UniqueFieldDefinitionNames,
        Rule::UniqueArgumentDefinitionNames,
        Rule::UniqueEnumValueNames,
        Rule::UniqueUnionMemberTypes,
        Rule::UniqueImplementedInterfaces,
    ];

    /// Its number, from 0 on, in the order of this list. C has it too.
    pub fn number(self) -> u32
        ensures { result ≡ rule_number self }
    {
        self as u32
    }

    /// The rule of a name, or `None` where no rule has it.
    pub fn named(name: &str) -> Option<Rule>
        ensures { result ≡ find (λ rule. bytes_eq (rule_name rule) name.now) Self.ALL }
    {
        Rule::ALL.iter().copied().find(|rule| rule.name() == name)
    }

    /// Its name, without the `Rule` that graphql-js adds.
    pub fn name(self) -> &'static str
        ensures { result.now ≡ rule_name self }
    {
        match self {
            Rule::ExecutableDefinitions => "ExecutableDefinitions",
            Rule::UniqueOperationNames => "UniqueOperationNames",
            Rule::LoneAnonymousOperation => "LoneAnonymousOperation",
            Rule::UniqueArgumentNames => "UniqueArgumentNames",
            Rule::UniqueFragmentNames => "UniqueFragmentNames",
            Rule::NoUnusedFragments => "NoUnusedFragments",
            Rule::KnownFragmentNames => "KnownFragmentNames",
            Rule::NoFragmentCycles => "NoFragmentCycles",
            Rule::UniqueInputFieldNames => "UniqueInputFieldNames",
            Rule::UniqueVariableNames => "UniqueVariableNames",
            Rule::NoUndefinedVariables => "NoUndefinedVariables",
            Rule::NoUnusedVariables => "NoUnusedVariables",
            Rule::UniqueFieldDefinitionNames => "UniqueFieldDefinitionNames",
            Rule::UniqueArgumentDefinitionNames => "UniqueArgumentDefinitionNames",
            Rule::UniqueEnumValueNames => "UniqueEnumValueNames",
            Rule::UniqueUnionMemberTypes => "UniqueUnionMemberTypes",
            Rule::UniqueImplementedInterfaces => "UniqueImplementedInterfaces",
        }
    }
}

/// A place at which a document breaks a rule.
#[derive(Clone, Copy)]
pub struct Violation<'t> {
    pub rule: Rule,
    /// What breaks the rule.
    pub site: Site<'t>,
    /// The other party: the first of the name, the operation, or another operation or fragment.
    pub other: Option<Site<'t>>,
}

// A place in the order of the text: the number of the document, and the number of the node in it.
fn site_key(site: Site<'_>) -> (usize, usize)
    ensures { result ≡ site_key (as_located site.entry) }
{
    (site.document, site.node.index())
}

impl<'t> Violation<'t> {
    ghost use Rattle.std.specs.Prelude.{◌≡◌};
    ghost use Rattle.validation_rules.specs.TextOrder.{text_key};
    ghost use Rattle.validation_rules.specs.Violations.{as_breach};

    // Its place in the order of the text.
    fn text_key(&self) -> ((usize, usize), u32, Option<(usize, usize)>)
        ensures { result ≡ text_key (as_breach self.now) }
    {
        (
            site_key(self.site),
            self.rule.number(),
            self.other.map(|site| site_key(site)),
        )
    }
}

/// Violations of the rules and in the documents that are selected, no more than a bound.
#[derive(Drop)]
pub struct Violations<'t> {
    pub list: Vec<Violation<'t>>,
    pub most: usize,
    pub selection: Selection,
}

impl<'t> Violations<'t> {
    ghost use Rattle.std.specs.Prelude.{◌≡◌, [], ◌∷◌, IfOk, OnOk, map, option_map, length, nat_le};
    ghost use Rattle.validation_names.specs.Sites.{as_located};
    ghost use Rattle.validation_rules.specs.TextOrder.{IsInTextOrder};
    ghost use Rattle.validation_rules.specs.Violations.{Adds, as_breach, breach, found};

    /// None yet, and room for a number of those that are selected.
    pub fn new(alloc: Global, most: usize, selection: Selection) -> Violations<'t>
        ensures none { result.list.items ≡ [] }
        ensures most { result.most ≡ most }
        ensures selection { result.selection ≡ selection }
    {
        Violations {
            list: Vec::new(alloc),
            most,
            selection,
        }
    }

    /// Whether no more are taken.
    pub fn is_full(&self) -> bool
        ensures { result ≡ nat_le self.now.most (length self.now.list.items) }
    {
        self.most <= self.list.len()
    }

    /// Adds one, unless it is not selected or the list is full.
    pub fn add(
        &mut self,
        rule: Rule,
        site: Site<'t>,
        other: Option<Site<'t>>,
    ) -> Result<(), AllocError>
        ensures { OnOk result (Adds (breach rule (as_located site.entry) (option_map as_located other.entry) ∷ [])
            self.old self.new) }
    {
        if self.is_full() || !self.selection.includes(rule, &site) {
            return Ok(());
        }
        self.list.push(Violation { rule, site, other })?;
        Ok(())
    }

    /// The list in the order of the text: by the document and the node, then by the rule's number, and then by the
    /// other party. It fails only where memory is refused.
    pub fn into_text_order(self) -> Result<Vec<Violation<'t>>, AllocError>
        ensures { IfOk result (λ list. IsInTextOrder (found self.entry) (map as_breach list.items)) }
    {
        let Violations {
            mut list,
            most: _,
            selection: _,
        } = self;
        list.sort_by_key(|violation| violation.text_key())?;
        Ok(list)
    }
}
