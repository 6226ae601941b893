//! What is known of the programs that the rules of types accept: they are sound, and their names are in scope. Lemmas alone; there is no code.
#![tactic(auto)]
