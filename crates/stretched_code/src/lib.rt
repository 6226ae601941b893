//! Code in stretches whose objects live in SRAM or FRAM: restores behind the wake, saves before the next head, loops that count their turns.
#![tactic(auto)]
