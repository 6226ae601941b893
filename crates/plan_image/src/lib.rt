//! The images of plans.
#![tactic(auto)]
