// Which violations are selected.
ghost use Rattle.validation_rules.specs.Selection.{has_rule};

use crate::violations::Rule;
use validation_names::Site;

/// Some of the rules.
#[derive(Clone, Copy)]
pub struct RuleSet {
    /// Whether the rule with a number is in the set.
    pub has: [bool; 17],
}

impl RuleSet {
    ghost use Rattle.std.specs.Prelude.{◌≡◌, ◌==◌, ◌||◌, ◌&&◌, false, not, true};
    ghost use Rattle.validation_rules.specs.declared.violations.Rule.{Rule};
    ghost use Rattle.validation_rules.specs.RuleNumbers.{rule_number};
    ghost use Rattle.validation_rules.specs.Selection.{has_rule};

    /// All rules.
    pub fn all() -> RuleSet
        ensures { (rule : Rule) → has_rule result rule ≡ true }
    {
        RuleSet { has: [true; 17] }
    }

    /// None of them.
    pub fn none() -> RuleSet
        ensures { (rule : Rule) → has_rule result rule ≡ false }
    {
        RuleSet { has: [false; 17] }
    }

    /// Whether a rule is in the set.
    pub fn contains(&self, rule: Rule) -> bool
        ensures { result ≡ has_rule self.now rule }
    {
        match self.has.get(rule.number() as usize) {
            Some(has) => *has,
            None => false,
        }
    }

    /// The set with a rule in it.
    pub fn with(self, rule: Rule) -> RuleSet
        ensures { (other : Rule)
            → has_rule result other ≡ (has_rule self other || rule_number other == rule_number rule) }
    {
        let mut has = self.has;
        has[rule.number() as usize] = true;
        RuleSet { has }
    }

    /// The set without a rule.
    pub fn without(self, rule: Rule) -> RuleSet
        ensures { (other : Rule)
            → has_rule result other ≡ (has_rule self other && not (rule_number other == rule_number rule)) }
    {
        let mut has = self.has;
        has[rule.number() as usize] = false;
        RuleSet { has }
    }
}

/// Which violations are selected: those of some rules, and in some of the documents.
#[derive(Clone, Copy)]
pub struct Selection {
    pub rules: RuleSet,
    /// How many of the documents are judged, from the first on, or `None` for all. The others are only known: their
    /// fragments may be spread, and nothing in them is a violation.
    pub judged: Option<usize>,
}

impl Selection {
    ghost use Rattle.std.specs.Prelude.{◌≡◌, true};
    ghost use Rattle.validation_names.specs.Sites.{Located, as_located};
    ghost use Rattle.validation_rules.specs.declared.violations.Rule.{Rule};
    ghost use Rattle.validation_rules.specs.Selection.{is_judged, is_selected_at};

    /// All rules, in all documents.
    pub fn everything() -> Selection
        ensures { (rule : Rule) (site : Located) → is_selected_at result rule site ≡ true }
    {
        Selection {
            rules: RuleSet::all(),
            judged: None,
        }
    }

    // Whether the document of a site is judged.
    fn judges(&self, site: &Site<'_>) -> bool
        ensures { result ≡ is_judged self.now.judged (as_located site.now) }
    {
        match self.judged {
            Some(judged) => site.document < judged,
            None => true,
        }
    }

    /// Whether violations of a rule at a site are selected.
    pub fn includes(&self, rule: Rule, site: &Site<'_>) -> bool
        ensures { result ≡ is_selected_at self.now rule (as_located site.now) }
    {
        self.rules.contains(rule) && self.judges(site)
    }
}
