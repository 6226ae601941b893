//! Plans of graphs.

ghost use Rattle.std.specs.Prelude.{◌≡◌, ◌<◌, ◌^◌, ◌++◌, ◌∷◌, [], ℕ, IfOk, MatchOption, MatchResult, None, OnOk, Some, length, slice_get};
ghost use Rattle.std.specs.List.{AllByRecursion};
ghost use Rattle.flow_graph.specs.declared.graph.Func.{Func};
ghost use Rattle.flow_graph.specs.Owned.{operations};
ghost use Rattle.flow_graph.specs.Rules.{IsGraph};
ghost use Rattle.live_objects.specs.Rows.{IsLivenessOf};
ghost use Rattle.call_summary.specs.Summaries.{cost_in, costs_in};
ghost use Rattle.chain_units.specs.Chains.{chains, function_chains, other_chain, other_chains};
ghost use Rattle.chain_units.specs.Fits.{BodyFits};
ghost use Rattle.chain_units.specs.Planned.{AddsPlans, ArePlans};
ghost use Rattle.checkpoint_graph.specs.Placings.{AllFit, ArePlansOf, AreSummariesOf, IsFaultOf};

use crate::arrays::arrays;
use crate::budget::all_fit;
use crate::known::GraphOnBoard;
use crate::lists::first_and_rest;
use base_io::{Memory, Place};
use board_table::Board;
use call_summary::Summary;
use chain_units::{Chain, Knowledge, put_chains};
use flow_graph::{Func, Graph, OpKind};
use live_objects::Liveness;
use std::alloc::Global;

/// The chains of a graph, in the order of their numbers.
#[derive(Debug, Drop)]
pub struct Placing {
    pub chains: Vec<Chain>,
}

/// Why there is no plan: an operation costs more than the budget, with all that it touches in FRAM, a wake and a sleep, in
/// energy units; or want of memory.
#[derive(Clone, Copy, Debug, PartialEq, Eq)]
pub enum PlanFault {
    BudgetTooSmall {
        op: OpKind,
        place: Place,
        need: u64,
        budget: u64,
    },
    Memory,
}

/// Puts what a function costs behind the others.
fn put_cost(costs: &mut Vec<Option<u64>>, cost: Option<u64>) -> Result<(), Memory>
    ensures { OnOk result (costs.new.items ≡ costs.old.items ++ cost ∷ []) }
{
    match costs.push(cost) {
        Ok(()) => Ok(()),
        Err(_) => Err(Memory),
    }
}

fn cost_in(summary: &Summary) -> Option<u64>
    ensures { result ≡ cost_in summary.now }
{
    match summary {
        Summary::Flat { cost, touched: _ } => Some(*cost),
        Summary::Split => None,
    }
}

/// What the flat functions cost.
pub fn costs_in(alloc: Global, summaries: &[Summary]) -> Result<Vec<Option<u64>>, Memory>
    ensures { IfOk result (λ made. made.items ≡ costs_in summaries.now) }
{
    let mut made = Vec::new(alloc);
    let mut left = summaries;
    while let Some((summary, rest)) = first_and_rest(left) {
        put_cost(&mut made, cost_in(summary))?;
        left = rest;
    }
    Ok(made)
}

pub fn function_at(functions: &[Func], function: u32) -> Option<&Func>
    ensures { MatchOption result (slice_get functions.now function ≡ None) (λ func. slice_get functions.now function ≡ Some func.now) }
{
    functions.get(function as usize)
}

/// Puts the chains of one function behind the others.
fn put_function<K: Knowledge>(
    alloc: Global,
    k: &K,
    functions: &[Func],
    function: u32,
    chains: &mut Vec<Chain>,
) -> Result<(), Memory>
    requires { AllByRecursion (λ (f : Func). BodyFits (K.known k.now) f.body) functions.now }
    ensures { OnOk result (AddsPlans (K.known k.now) (function_chains (K.known k.now) function (slice_get functions.now function)) chains.old.items chains.new.items) }
{
    match function_at(functions, function) {
        None => Ok(()),
        Some(func) => put_chains(alloc, k, function, func.body.as_slice(), chains),
    }
}

/// Puts the chains of a function behind the others, if it is split and isn't `main`.
fn put_other<K: Knowledge>(
    alloc: Global,
    k: &K,
    main: u32,
    function: u32,
    func: &Func,
    chains: &mut Vec<Chain>,
) -> Result<(), Memory>
    requires fits { BodyFits (K.known k.now) func.now.body }
    requires main { main ≡ (K.known k.now).graph.main }
    ensures { OnOk result (AddsPlans (K.known k.now) (other_chain (K.known k.now) function func.now) chains.old.items chains.new.items) }
{
    if function == main || k.is_flat(function) {
        Ok(())
    } else {
        put_chains(alloc, k, function, func.body.as_slice(), chains)
    }
}

/// Puts the chains of all split functions but `main` behind the others.
fn put_others<K: Knowledge>(
    alloc: Global,
    k: &K,
    main: u32,
    functions: &[Func],
    chains: &mut Vec<Chain>,
) -> Result<(), Memory>
    requires fits { AllByRecursion (λ (f : Func). BodyFits (K.known k.now) f.body) functions.now }
    requires main { main ≡ (K.known k.now).graph.main }
    requires few { length functions.now < 2 ^ 32 }
    ensures { OnOk result (AddsPlans (K.known k.now) (other_chains (K.known k.now) 0 functions.now) chains.old.items chains.new.items) }
{
    let mut left = functions;
    let mut function = 0;
    while let Some((func, rest)) = first_and_rest(left) {
        put_other(alloc, k, main, function, func, chains)?;
        function += 1;
        left = rest;
    }
    Ok(())
}

/// The chains of a graph with their plans.
fn placed<K: Knowledge>(alloc: Global, k: &K, g: &Graph) -> Result<Placing, Memory>
    requires graph { g.now ≡ (K.known k.now).graph }
    requires fits { AllByRecursion (λ (f : Func). BodyFits (K.known k.now) f.body) g.now.functions }
    requires few { length g.now.functions < 2 ^ 32 }
    ensures { IfOk result (λ made. ArePlans (K.known k.now) 1 (chains (K.known k.now)) made.chains.items) }
{
    let mut chains = Vec::new(alloc);
    put_function(alloc, k, g.functions.as_slice(), g.main, &mut chains)?;
    put_others(alloc, k, g.main, g.functions.as_slice(), &mut chains)?;
    Ok(Placing { chains })
}

/// The chains of a graph whose operations fit.
fn planned(
    alloc: Global,
    g: &Graph,
    live: &Liveness,
    s: &[Summary],
    b: &Board,
) -> Result<Placing, Memory>
    requires rules { IsGraph g.now }
    requires functions { length g.now.functions < 2 ^ 32 }
    requires objects { length g.now.objects < 2 ^ 32 }
    requires live { IsLivenessOf live.now g.now }
    requires summaries { AreSummariesOf g.now b.now s.now }
    requires fit { AllFit b.now (operations g.now) }
    ensures { IfOk result (λ made. ArePlansOf g.now live.now s.now b.now made.chains.items) }
{
    let objects = g.objects.as_slice().len() as u32;
    let costs = costs_in(alloc, s)?;
    let arrays = arrays(alloc, live.operations.as_slice(), objects)?;
    let on = GraphOnBoard {
        graph: g,
        live,
        summaries: s,
        costs: costs.as_slice(),
        arrays: arrays.as_slice(),
        objects,
        board: *b,
    };
    placed(alloc, &on, g)
}

/// The chains of a graph on a board, `main`'s first and then those of each other split function in the order of the text,
/// each with a plan: a plain chain with one of least cost over all cuts into stretches and all sets of objects in SRAM, a
/// conditional loop with its greatest number of turns between two checkpoints. There is none where an operation doesn't fit
/// one charge, and the first of these by number is told.
pub fn plan(
    alloc: Global,
    g: &Graph,
    live: &Liveness,
    s: &[Summary],
    b: &Board,
) -> Result<Placing, PlanFault>
    requires rules { IsGraph g.now }
    requires functions { length g.now.functions < 2 ^ 32 }
    requires objects { length g.now.objects < 2 ^ 32 }
    requires live { IsLivenessOf live.now g.now }
    requires summaries { AreSummariesOf g.now b.now s.now }
    // The chains with their plans.
    ensures plans { IfOk result (λ made. ArePlansOf g.now live.now s.now b.now made.chains.items) }
    // An operation that doesn't fit is told exactly where there is one, unless memory is wanting.
    ensures fits { MatchResult result (λ made. AllFit b.now (operations g.now)) (λ fault. IsFaultOf b.now (operations g.now) fault) }
{
    all_fit(live.operations.as_slice(), b)?;
    match planned(alloc, g, live, s, b) {
        Ok(made) => Ok(made),
        Err(Memory) => Err(PlanFault::Memory),
    }
}
