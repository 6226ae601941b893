//! Places in a text, stores of files, sinks of bytes, and numbers as text.
#![tactic(auto)]

mod calls;
mod entry;
mod file_store;
mod mem_sink;
mod mem_store;
mod memory;
mod numbers;
mod place;
mod sink;
mod std_sink;
mod store;
mod streams;
#[cfg(test)]
mod tests;

pub use file_store::FileStore;
pub use mem_sink::MemSink;
pub use mem_store::MemStore;
pub use memory::Memory;
pub use numbers::{put_dec, put_hex};
pub use place::Place;
pub use sink::{Sink, SinkFault};
pub use std_sink::StdSink;
pub use store::{GetFault, PutFault, Store};
