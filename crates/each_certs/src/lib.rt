//! The certificate of the image of a graph of one function.
#![tactic(auto)]

mod each;

pub use each::certificate_of;
