//! What a run of a built image shows beside the plain meaning of its program.
#![tactic(auto)]

mod law;

pub use law::shown_alike;
