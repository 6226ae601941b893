//! Certificates: their rows and their text.
#![tactic(auto)]

mod cert;
mod fault;
mod fields;
mod laws;
mod lines;
mod reading;
mod rows;
mod state;
mod sums;
mod text;
mod writing;

pub use cert::{Affine, Cert, Fact, FlatPart, FunctionRow, PointRow, Slot, Span, StretchRow, Term};
pub use fault::CertText;
pub use laws::{
    cut_anywhere, one_answer, rows_have_one_text, rows_so_far_are_first, texts_are_read_exactly,
};
pub use lines::Lines;
pub use reading::read;
pub use state::Row;
pub use writing::write;
