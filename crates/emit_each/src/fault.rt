//! Why there is no image.

use base_io::Place;
use flow_graph::OpKind;

/// What has no room.
#[derive(Clone, Copy, Debug, PartialEq, Eq)]
pub enum Room {
    Data,
    Calls,
}

/// The budget is below `need`, the weight of the operation with all that it touches in FRAM, a wake and a sleep (energy units); or the
/// objects or the code need more bytes than there is room for.
#[derive(Clone, Copy, Debug, PartialEq, Eq)]
pub enum EmitFault {
    BudgetTooSmall {
        op: OpKind,
        place: Place,
        need: u64,
        budget: u64,
    },
    DataTooLarge {
        what: Room,
        need: u32,
        room: u32,
    },
    CodeTooLarge {
        need: u32,
        room: u32,
    },
    Memory,
}
