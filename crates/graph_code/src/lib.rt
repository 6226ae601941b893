//! The code of a graph whose objects all stand in FRAM: where objects stand, and which operation follows which in the code.
#![tactic(auto)]

mod laws;

pub use laws::graphs_are_laid_out;
