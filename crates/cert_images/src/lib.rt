//! That the images of graphs of one function keep the rules of their certificates.
#![tactic(auto)]

mod laws;

pub use laws::each_images_certified;
