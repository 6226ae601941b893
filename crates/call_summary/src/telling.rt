//! What a caller has to know of each function.

ghost use Rattle.std.specs.Prelude.{◌≡◌, ◌<◌, ◌^◌, ◌++◌, ◌∷◌, [], ℕ, IfOk, OnOk, List, length, if◌then◌else◌};
ghost use Rattle.flow_graph.specs.Owned.{operations};
ghost use Rattle.flow_graph.specs.Rules.{IsGraph};
ghost use Rattle.touched_objects.specs.Tables.{AreRowsOf, marked_at};
ghost use Rattle.item_weights.specs.Flat.{AreFlats};
ghost use Rattle.board_weights.specs.OnBoard.{rule_on};
ghost use Rattle.weighed_runs.specs.Spending.{AreNumbers};
ghost use Rattle.call_summary.specs.Costs.{ArePaid, RunsCostNoMore, force_on};
ghost use Rattle.call_summary.specs.Summaries.{AreMarked, TellTouched, TellsTouched, cost_in, costs_in};

use crate::costs::flat_costs;
use crate::lists::first_and_rest;
use base_io::Memory;
use board_table::Board;
use flow_graph::Graph;
use std::alloc::Global;
use touched_objects::touching;

/// A function that one charge pays for together with its call: what its body costs with every object in FRAM, in energy units, its
/// return included, and the objects, ascending, that it or a function called from it reads or writes. Any other function is split.
#[derive(Drop)]
pub enum Summary {
    Flat { cost: u64, touched: Vec<u32> },
    Split,
}

/// Whether the table marks the object for the function.
fn is_marked(rows: &[Vec<bool>], object: u32, function: u32) -> bool
    ensures { result ≡ marked_at rows.now object function }
{
    match rows.get(object as usize) {
        None => false,
        Some(row) => match row.as_slice().get(function as usize) {
            None => false,
            Some(flag) => *flag,
        },
    }
}

/// Puts the object behind the others where it is marked.
fn put_object(objects: &mut Vec<u32>, object: u32, marked: bool) -> Result<(), Memory>
    ensures { OnOk result (objects.new.items ≡ (if marked then objects.old.items ++ object ∷ [] else objects.old.items)) }
{
    if !marked {
        return Ok(());
    }
    match objects.push(object) {
        Ok(()) => Ok(()),
        Err(_) => Err(Memory),
    }
}

/// Of so many objects those that the table marks for the function.
fn marked(
    alloc: Global,
    rows: &[Vec<bool>],
    function: u32,
    objects: u32,
) -> Result<Vec<u32>, Memory>
    ensures { IfOk result (λ made. AreMarked rows.now function objects made.items) }
{
    let mut made = Vec::new(alloc);
    for object in 0..objects {
        put_object(&mut made, object, is_marked(rows, object, function))?;
    }
    Ok(made)
}

/// The summary of a function, given the table of a graph.
fn summary_of(
    alloc: Global,
    g: &Graph,
    rows: &[Vec<bool>],
    function: u32,
    cost: Option<u64>,
) -> Result<Summary, Memory>
    requires objects { length g.now.objects < 2 ^ 32 }
    requires function { function < length g.now.functions }
    requires table { AreRowsOf (operations g.now) (length g.now.functions) (length g.now.objects) rows.now }
    ensures cost { IfOk result (λ made. cost_in made ≡ cost) }
    ensures touched { IfOk result (λ made. TellsTouched g.now function made) }
{
    match cost {
        None => Ok(Summary::Split),
        Some(cost) => {
            let touched = marked(alloc, rows, function, g.objects.as_slice().len() as u32)?;
            Ok(Summary::Flat { cost, touched })
        }
    }
}

fn put_summary(summaries: &mut Vec<Summary>, summary: Summary) -> Result<(), Memory>
    ensures { OnOk result (summaries.new.items ≡ summaries.old.items ++ summary ∷ []) }
{
    match summaries.push(summary) {
        Ok(()) => Ok(()),
        Err(_) => Err(Memory),
    }
}

/// The summaries of all functions, given the table of a graph.
fn with_costs(
    alloc: Global,
    g: &Graph,
    rows: &[Vec<bool>],
    costs: &[Option<u64>],
) -> Result<Vec<Summary>, Memory>
    requires functions { length g.now.functions < 2 ^ 32 }
    requires objects { length g.now.objects < 2 ^ 32 }
    requires table { AreRowsOf (operations g.now) (length g.now.functions) (length g.now.objects) rows.now }
    requires so_many { length costs.now ≡ length g.now.functions }
    ensures costs { IfOk result (λ made. costs_in made.items ≡ costs.now) }
    ensures touched { IfOk result (λ made. TellTouched g.now made.items) }
{
    let mut made = Vec::new(alloc);
    let mut left = costs;
    let mut function = 0;
    while let Some((cost, rest)) = first_and_rest(left) {
        let one = summary_of(alloc, g, rows, function, *cost)?;
        put_summary(&mut made, one)?;
        function += 1;
        left = rest;
    }
    Ok(made)
}

/// The summary of each function. A function is flat where it isn't `main`, its body has a weight, given the costs of the functions
/// that it calls, and one charge pays for the call, the body, a wake and a sleep. It fails only for want of memory.
pub fn summaries(alloc: Global, g: &Graph, b: &Board) -> Result<Vec<Summary>, Memory>
    requires rules { IsGraph g.now }
    requires functions { length g.now.functions < 2 ^ 32 }
    requires objects { length g.now.objects < 2 ^ 32 }
    // A function is flat, with this cost, exactly where the rule gives it one.
    ensures flats { IfOk result (λ made. AreFlats (rule_on b.now (length g.now.objects)) g.now (costs_in made.items)) }
    // Those that are flat tell exactly the objects that they touch.
    ensures touched { IfOk result (λ made. TellTouched g.now made.items) }
    // One charge pays for each of them.
    ensures paid { IfOk result (λ made. ArePaid b.now (costs_in made.items)) }
    // A run through the body of each costs no more.
    ensures runs { IfOk result (λ made. RunsCostNoMore b.now g.now (costs_in made.items)) }
    // They are numbers for the law of runs, whichever objects are in SRAM among a caller's items.
    ensures numbers { IfOk result (λ made. (sram : List ℕ) → AreNumbers g.now (force_on b.now sram (length g.now.objects)) (costs_in made.items)) }
{
    let costs = flat_costs(alloc, b, g)?;
    let table = touching(alloc, g)?;
    let made = with_costs(alloc, g, table.rows.as_slice(), costs.as_slice())?;
    Ok(made)
}
