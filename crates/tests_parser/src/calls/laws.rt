// The laws: calls that do nothing, each with a theorem as its contract. So no answer shows anything of them; each is
// called once.
use apollo_cst_core::reading_back;
use apollo_lexer::{
    Lexer, answers_are_items, answers_count, answers_fit, answers_join, equal_errors_are_same,
};
use document_grammar::laws::{first_profile, ignored_leaves, one_cut, one_kind, starts};
use grammar_machine::laws::{no_early_fault, no_late_fault, one_derivation};
use lexical_grammar::{
    cuts_agree, items_are_texts, items_stand, joined_tokens, limited_items, one_token, one_value,
    the_cut, words_may_follow,
};

fn call_lexical_grammar() {
    one_token();
    items_stand();
    cuts_agree();
    the_cut("{a}");
    one_value();
    limited_items();
    items_are_texts();
    words_may_follow();
    joined_tokens();
}

fn call_document_grammar() {
    one_kind();
    one_cut();
    first_profile();
    ignored_leaves();
    starts();
}

fn call_grammar_machine() {
    one_derivation();
    no_late_fault();
    no_early_fault();
}

fn call_lexer() {
    let lexer = Lexer::new("a b").with_limit(2);
    answers_are_items(&lexer);
    answers_join("a b");
    answers_count();
    answers_fit(&lexer);
    equal_errors_are_same();
}

pub fn call_each() {
    call_lexical_grammar();
    call_document_grammar();
    call_grammar_machine();
    call_lexer();
    reading_back();
}
