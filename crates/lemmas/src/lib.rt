//! Lemmas on lists, ranges and counts that no other crate's notions enter. It has no code.
#![tactic(auto)]
