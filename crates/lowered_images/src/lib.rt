//! The image of a typed program whose `main` calls no function of the program: it agrees with the program's plain meaning.
#![tactic(auto)]

mod law;

pub use law::lowered_images_agree;
