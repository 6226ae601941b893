//! Where things stand.

use sqlite_items::Items;

/// The object of each variable and of each function's result, and the place of each function among those reached, by their numbers in the program.
#[derive(Drop)]
pub struct Homes {
    pub variables: Items<u32>,
    pub results: Items<u32>,
    pub places: Items<u32>,
}
