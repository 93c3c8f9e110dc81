// The rules that words name.
ghost use Rattle.std.specs.Prelude.{◌≡◌, ◌==◌, if◌then◌else◌, All, IfErr, IfOk, map, option_map};
ghost use Rattle.command_lines.specs.Words.{texts};
ghost use Rattle.validation_rules.specs.RuleNames.{rule_name};
ghost use Rattle.validation_rules.specs.RuleNumbers.{rule_number};
ghost use Rattle.validation_rules.specs.Selection.{has_rule};
ghost use Rattle.validation_rules.specs.declared.violations.Rule.{Rule};
ghost use Rattle.gqlcheck_run.specs.Rules.{AreRead, IsNotRead, IsRuleName, IsUnknownRule, is_among, names_in, names_of};

use command_lines::misuse::{Mistake, Misuse, WordsError};
use std::alloc::{AllocError, Allocator};
use validation_rules::{Rule, RuleSet};

/// The rules whose breaches keep texts from passing, and those whose breaches are only told.
#[derive(Clone, Copy)]
pub struct Rules {
    pub judged: RuleSet,
    pub told: RuleSet,
}

// Names that are joined by commas.
fn names_in<'w, A: Allocator>(alloc: A, text: &'w str) -> Result<Vec<&'w str, A>, AllocError>
    ensures { IfOk result (λ names. texts names.items ≡ names_in text.now) }
{
    text.split(',').collect(alloc)
}

// The names that an option gives, if it is given.
fn names_of<'w, A: Allocator>(
    alloc: A,
    text: Option<&'w str>,
) -> Result<Vec<&'w str, A>, AllocError>
    ensures { IfOk result (λ names. texts names.items ≡ names_of (option_map (λ t. t.now) text.entry)) }
{
    match text {
        Some(text) => names_in(alloc, text),
        None => Ok(Vec::new(alloc)),
    }
}

// The rule that has a name.
fn rule_called<'w>(name: &'w str) -> Result<Rule, WordsError<'w>>
    ensures ok { IfOk result (λ rule. rule_name rule ≡ name.now) }
    ensures err { IfErr result (λ error. IsNotRead (λ word. (word ≡ name.now) × ¬ IsRuleName word) error) }
{
    match Rule::named(name) {
        Some(rule) => Ok(rule),
        None => Err(WordsError::Usage(Misuse {
            word: name,
            mistake: Mistake::UnknownRule,
        })),
    }
}

// A set with a rule in it, or without it.
fn put(set: RuleSet, rule: Rule, is_in: bool) -> RuleSet
    ensures { (other : Rule) → has_rule result other
        ≡ (if rule_number other == rule_number rule then is_in else has_rule set other) }
{
    if is_in {
        set.with(rule)
    } else {
        set.without(rule)
    }
}

// A set with the rules in it that have these names, or without them.
fn put_named<'w>(rules: RuleSet, names: &[&'w str], are_in: bool) -> Result<RuleSet, WordsError<'w>>
    ensures known { IfOk result (λ _. All IsRuleName (texts names.now)) }
    ensures has { IfOk result (λ set. (rule : Rule)
        → has_rule set rule ≡ (if is_among (texts names.now) rule then are_in else has_rule rules rule)) }
    ensures err { IfErr result (λ error. IsNotRead (IsUnknownRule (texts names.now)) error) }
{
    let mut set = rules;
    for name in names {
        set = put(set, rule_called(name)?, are_in);
    }
    Ok(set)
}

impl Rules {
    /// The rules by the words of `--allow` and `--warn`, if they are given. A name that no rule has is a wrong word.
    pub fn of<'w, A: Allocator + Copy>(
        alloc: A,
        allow: Option<&'w str>,
        warn: Option<&'w str>,
    ) -> Result<Rules, WordsError<'w>>
        ensures { AreRead (names_of (option_map (λ t. t.now) allow.entry))
            (names_of (option_map (λ t. t.now) warn.entry)) result }
    {
        let allowed = names_of(alloc, allow)?;
        let warned = names_of(alloc, warn)?;
        let (allowed, warned) = (allowed.as_slice(), warned.as_slice());
        let left = put_named(RuleSet::all(), allowed, false)?;
        let judged = put_named(left, warned, false)?;
        let named = put_named(RuleSet::none(), warned, true)?;
        let told = put_named(named, allowed, false)?;
        Ok(Rules { judged, told })
    }
}
