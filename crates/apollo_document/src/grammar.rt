// Each function runs the rule of its name, and is proved by the forms of a run.
#![tactic(auto, using(parser_rules::proofs::runs::Running::nesting), unfolding(parser_rules::specs::Rules::inside, parser_rules::specs::Rules::body))]

pub mod document;
pub mod extensions;
pub mod keyword;
