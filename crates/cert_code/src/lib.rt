//! What a sweep without fault says of the code of an image, and of its functions beside one another.
#![tactic(auto)]
