//! What is known while objects are numbered.

use flow_graph::Object;
use sqlite_items::Items;

/// The objects so far, and where each variable and each function's result stands among them.
#[derive(Drop)]
pub struct Numbering {
    pub objects: Items<Object>,
    pub variables: Items<u32>,
    pub results: Items<u32>,
}
