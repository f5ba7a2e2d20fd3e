//! The readers of the grammar: what each of them takes from the front of a list of tokens, if anything. The definitions stand in
//! `specs/`; the parsers' contracts cite them, and `law_grammar` joins them to the grammar.
#![tactic(auto)]
