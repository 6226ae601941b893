//! Which objects are live at each operation of a graph.
#![tactic(auto)]

ghost use Rattle.live_objects.specs.FreeFlow.{DeadObjectsAreFree};

mod begins;
mod links;
mod lists;
mod liveness;
mod roles;

pub use liveness::{Liveness, live};

/// A flow of a graph by the rules in which objects that aren't live change between two operations puts and ends as the graph itself does.
pub fn dead_objects_are_free()
    ensures { DeadObjectsAreFree }
{}
