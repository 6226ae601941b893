//! What all jobs share: the files that they read in order, what boards, images and inputs say, how a job ends, and its line.
#![tactic(auto)]

mod boards;
mod digits;
mod ending;
mod files;
mod images;
mod inputs;
mod limits;
mod operations;
mod refusal;
mod rules;
mod status;

pub use boards::board_with;
pub use ending::{Ending, put_line, put_lines, told};
pub use files::{TwoTexts, add, read, read_two};
pub use images::image_of;
pub use inputs::{input_of, text_refused};
pub use limits::{MOST_BOARD, MOST_CERTIFICATE, MOST_IMAGE, MOST_INPUT, MOST_PROGRAM};
pub use refusal::{BoardRefusal, ImageRefusal, ProgramRefusal, Refusal};
pub use status::{Status, status_of};
