//! What is known where the code comes to an address, and how an instruction changes it.
#![tactic(auto)]

mod amounts;
mod effects;
mod factor;
mod factors;
mod fault;
mod hits;
mod memory;
mod ops;
mod places;
mod range;
mod ranges;
mod reach;
mod rows;
mod slots;
mod sought;
mod spending;
mod spent;
mod state;
mod values;
mod words;

pub use effects::{call, compute, on_edge};
pub use factors::lack;
pub use fault::{Fault, unless, unless_none};
pub use hits::Hit;
pub use ops::{is_move, reads_destination, writes_destination};
pub use places::{
    cost_of, destination_place, is_always, may_be_destination, may_move_to, may_read, nearest,
    source_place,
};
pub use range::Range;
pub use ranges::{just, known_even};
pub use reach::{Place, Reach};
pub use rows::{contains, head_around, is_head, is_split, lies_in};
pub use slots::{Spot, in_spans, is_memory, is_sram, spot_of};
pub use sought::{Sought, first_in};
pub use spending::greatest_bound;
pub use spent::Spending;
pub use state::{State, Test, bare, known_at};
pub use values::Held;
pub use words::{shown, word_fault, word_in, words_fault};
