//! The certificate of operations that stand one behind another, each behind its head where it has one, with all objects in FRAM.
#![tactic(auto)]

mod code;
mod frame;
mod inner;
mod lists;
mod overhead;
mod positions;
mod rows;
mod standing;
mod timing;
mod weighing;
mod whole;

pub use whole::certificate_of;
