//! One run of a device on recorded rows: what it puts, how it ends, and what it counts.
#![tactic(auto)]

mod end;
mod line;
mod running;
mod turn;

pub use end::End;
pub use line::put_end;
pub use running::run;
