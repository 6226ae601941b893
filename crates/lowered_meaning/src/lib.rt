//! That the graph of a program does what the program means. Lemmas alone, no code.
#![tactic(auto)]
