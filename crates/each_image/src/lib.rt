//! The image of a graph of one function, with all objects in FRAM and a head before chosen operations.
#![tactic(auto)]

mod laws;

pub use laws::each_images_agree;
