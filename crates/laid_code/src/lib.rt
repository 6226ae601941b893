//! Code that is laid out over positions, with heads, homes, saves, calls and loops that count their turns: where each position is what it
//! has to be, the code carries its flow. Lemmas alone; there is no code.
#![tactic(auto)]
