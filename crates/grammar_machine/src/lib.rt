//! The machine that reads tokens by the rows of the document grammar, with two tokens of lookahead.
//!
//! It makes exactly the derivations, so that a text has one derivation; it never reads on where no sentence does; and
//! it is stuck only where no sentence goes on. It is used in proofs and never run: the crate's only code is the laws.
//!
//! `parser_rules`, the crate above, rests on the theorems of `proofs/SentenceTheorems.antt`; `one_derivation` is the
//! law that users see.
#![tactic(auto)]

pub mod laws;
