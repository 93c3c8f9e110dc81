// Each function runs the rule of its name, and is proved by the forms of a run.
#![tactic(auto, using(parser_rules::proofs::runs::Running::nesting), unfolding(parser_rules::specs::Rules::inside, parser_rules::specs::Rules::body))]

pub mod argument;
pub mod description;
pub mod directive;
pub mod enum_;
pub mod extended;
pub mod field;
pub mod fragment;
pub mod input;
pub mod interface;
pub mod name;
pub mod object;
pub mod operation;
pub mod scalar;
pub mod schema;
pub mod selection;
pub mod ty;
pub mod union_;
pub mod value;
pub mod variable;
