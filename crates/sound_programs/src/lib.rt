//! Which typed programs are sound: what every later step takes for granted of them. Definitions and lemmas alone; there is no code.
#![tactic(auto)]
