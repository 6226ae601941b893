//! The code of a graph with a plan, as definitions alone: the sections between heads, what stands at each position of them, and the image.
#![tactic(auto)]
