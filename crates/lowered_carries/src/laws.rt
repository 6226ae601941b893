//! What every lowered graph is to its program.

ghost use Rattle.lowered_carries.specs.Laws.{LoweredGraphsAreEach, LoweredGraphsCarry};

use lowered_grounds::lowered_graphs_behave;
use lowered_rules::lowered_graphs_obey;

/// The graph of every sound program whose names are in scope carries the program, from every beginning of its objects: it is a steady flow
/// that needs at most six operations a step, and that has put the words of no more than N (m + 1) steps after m operations, where N is the
/// number of the program's nodes. So where it has at most 4,096 operations in one function, its heads stand where they have to, and objects
/// and code have room, it is one whose image agrees with the program and endures.
pub fn lowered_graphs_carry()
    ensures carry { LoweredGraphsCarry }
    ensures is_each { LoweredGraphsAreEach }
{
    lowered_graphs_behave();
    lowered_graphs_obey();
}
