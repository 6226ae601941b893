//! What flat functions cost.

ghost use Rattle.std.specs.Prelude.{◌≡◌, ◌<◌, ◌^◌, IfOk, List, ℕ, length};
ghost use Rattle.flow_graph.specs.Rules.{IsGraph};
ghost use Rattle.item_weights.specs.Flat.{AreFlats};
ghost use Rattle.board_weights.specs.OnBoard.{rule_on};
ghost use Rattle.weighed_runs.specs.Spending.{AreNumbers};
ghost use Rattle.call_summary.specs.Costs.{ArePaid, RunsCostNoMore, force_on};

use base_io::Memory;
use board_table::Board;
use board_weights::OnBoard;
use flow_graph::Graph;
use item_weights::flat_numbers;
use std::alloc::Global;

/// For each function what it costs with every object in FRAM, in energy units, where it is flat: it isn't `main`, its body has a
/// weight, given the costs of the functions that it calls, and one charge pays for the call, the body, a wake and a sleep. A split
/// function has none. It fails only for want of memory.
pub fn flat_costs(alloc: Global, b: &Board, g: &Graph) -> Result<Vec<Option<u64>>, Memory>
    requires rules { IsGraph g.now }
    requires functions { length g.now.functions < 2 ^ 32 }
    requires objects { length g.now.objects < 2 ^ 32 }
    // A function has a cost exactly where the rule gives it one.
    ensures flats { IfOk result (λ made. AreFlats (rule_on b.now (length g.now.objects)) g.now made.items) }
    // One charge pays for each of them.
    ensures paid { IfOk result (λ made. ArePaid b.now made.items) }
    // A run through the body of each costs no more.
    ensures runs { IfOk result (λ made. RunsCostNoMore b.now g.now made.items) }
    // They are numbers for the law of runs, whichever objects are in SRAM among a caller's items.
    ensures numbers { IfOk result (λ made. (sram : List ℕ) → AreNumbers g.now (force_on b.now sram (length g.now.objects)) made.items) }
{
    let made = flat_numbers(alloc, &OnBoard { board: *b }, g)?;
    Ok(made)
}
