//! What a program does as its user sees it: the words that it puts and how it ends, after any number of steps.
#![tactic(auto)]
