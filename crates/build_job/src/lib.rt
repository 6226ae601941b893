//! The job `build`: the image of a program for a board is written.
#![tactic(auto)]

mod image_file;
mod image_text;
mod job;

pub use image_file::build;
pub use job::BuildJob;
