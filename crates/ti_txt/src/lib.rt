//! Images of a device's memory and their TI-TXT text.
#![tactic(auto)]

mod fault;
mod image;
mod laws;
mod reading;
mod spot;
mod sweep;
mod writing;

pub use fault::TxtFault;
pub use image::{Image, Segment};
pub use laws::{one_answer, some_answer};
pub use reading::read;
pub use writing::write;
