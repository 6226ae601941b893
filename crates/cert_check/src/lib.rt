//! What a certificate promises of an image, tested by its rules.
#![tactic(auto)]

mod checking;
mod parts;
mod points;
mod refused;
mod row_rules;

pub use cert_rules::Rule;
pub use checking::check;
pub use parts::{point_order, tables};
pub use refused::Refused;

#[cfg(test)]
mod tests;
