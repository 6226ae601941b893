//! Plans of graphs, explained.

ghost use Rattle.std.specs.Prelude.{◌≡◌, ◌==◌, ◌||◌, ◌<◌, ◌^◌, IfOk, OnOk, length, slice_get};
ghost use Rattle.std.specs.List.{AllByRecursion};
ghost use Rattle.flow_graph.specs.declared.graph.Func.{Func};
ghost use Rattle.flow_graph.specs.Owned.{operations};
ghost use Rattle.flow_graph.specs.Rules.{IsGraph};
ghost use Rattle.live_objects.specs.Rows.{IsLivenessOf};
ghost use Rattle.chain_units.specs.Chains.{chains, function_chains, other_chain, other_chains};
ghost use Rattle.chain_units.specs.Explained.{AddsExplained, AreExplained};
ghost use Rattle.chain_units.specs.Fits.{BodyFits};
ghost use Rattle.checkpoint_graph.specs.Placings.{AllFit, AreExplainedOf, AreSummariesOf};

use crate::arrays::arrays;
use crate::known::GraphOnBoard;
use crate::lists::first_and_rest;
use crate::placing::{Placing, costs_in, function_at};
use base_io::Memory;
use board_table::Board;
use call_summary::Summary;
use chain_units::{Chain, ExplainedChain, Knowledge, put_explained};
use flow_graph::{Func, Graph};
use live_objects::Liveness;
use std::alloc::Global;

/// Explains the chains of one function behind the others.
fn explain_function<K: Knowledge>(
    alloc: Global,
    k: &K,
    functions: &[Func],
    function: u32,
    chains: &[Chain],
    made: &mut Vec<ExplainedChain>,
) -> Result<(), Memory>
    requires { AllByRecursion (λ (f : Func). BodyFits (K.known k.now) f.body) functions.now }
    ensures { OnOk result (AddsExplained (K.known k.now) (function_chains (K.known k.now) function (slice_get functions.now function)) chains.now made.old.items made.new.items) }
{
    match function_at(functions, function) {
        None => Ok(()),
        Some(func) => put_explained(alloc, k, func.body.as_slice(), chains, made),
    }
}

/// Whether a function is `main`, or flat.
fn is_left_out<K: Knowledge>(k: &K, main: u32, function: u32) -> bool
    ensures { result ≡ ((function == main) || (K.known k.now).is_flat function) }
{
    function == main || k.is_flat(function)
}

/// Explains the chains of a function behind the others, if it is split and isn't `main`.
fn explain_other<K: Knowledge>(
    alloc: Global,
    k: &K,
    main: u32,
    function: u32,
    func: &Func,
    chains: &[Chain],
    made: &mut Vec<ExplainedChain>,
) -> Result<(), Memory>
    requires fits { BodyFits (K.known k.now) func.now.body }
    requires main { main ≡ (K.known k.now).graph.main }
    ensures { OnOk result (AddsExplained (K.known k.now) (other_chain (K.known k.now) function func.now) chains.now made.old.items made.new.items) }
{
    let left_out = is_left_out(k, main, function);
    if left_out {
        Ok(())
    } else {
        put_explained(alloc, k, func.body.as_slice(), chains, made)
    }
}

/// Explains the chains of all split functions but `main` behind the others.
fn explain_others<K: Knowledge>(
    alloc: Global,
    k: &K,
    main: u32,
    functions: &[Func],
    chains: &[Chain],
    made: &mut Vec<ExplainedChain>,
) -> Result<(), Memory>
    requires fits { AllByRecursion (λ (f : Func). BodyFits (K.known k.now) f.body) functions.now }
    requires main { main ≡ (K.known k.now).graph.main }
    requires few { length functions.now < 2 ^ 32 }
    ensures { OnOk result (AddsExplained (K.known k.now) (other_chains (K.known k.now) 0 functions.now) chains.now made.old.items made.new.items) }
{
    let mut left = functions;
    let mut function = 0;
    while let Some((func, rest)) = first_and_rest(left) {
        explain_other(alloc, k, main, function, func, chains, made)?;
        function += 1;
        left = rest;
    }
    Ok(())
}

/// The chains of a graph, explained by their plans.
fn explained<K: Knowledge>(
    alloc: Global,
    k: &K,
    g: &Graph,
    plans: &[Chain],
) -> Result<Vec<ExplainedChain>, Memory>
    requires graph { g.now ≡ (K.known k.now).graph }
    requires fits { AllByRecursion (λ (f : Func). BodyFits (K.known k.now) f.body) g.now.functions }
    requires few { length g.now.functions < 2 ^ 32 }
    ensures { IfOk result (λ made. AreExplained (K.known k.now) (chains (K.known k.now)) plans.now made.items) }
{
    let mut made = Vec::new(alloc);
    explain_function(alloc, k, g.functions.as_slice(), g.main, plans, &mut made)?;
    explain_others(alloc, k, g.main, g.functions.as_slice(), plans, &mut made)?;
    Ok(made)
}

/// Explains the plan of a graph on a board whose operations all fit, which `plan` gave: for each chain, for each of its stretches the
/// operations that its items begin with, its weight, and which of its homes are restored and saved. It fails only for want of memory.
pub fn explain(
    alloc: Global,
    g: &Graph,
    live: &Liveness,
    s: &[Summary],
    b: &Board,
    placing: &Placing,
) -> Result<Vec<ExplainedChain>, Memory>
    requires rules { IsGraph g.now }
    requires functions { length g.now.functions < 2 ^ 32 }
    requires objects { length g.now.objects < 2 ^ 32 }
    requires live { IsLivenessOf live.now g.now }
    requires summaries { AreSummariesOf g.now b.now s.now }
    requires fit { AllFit b.now (operations g.now) }
    ensures { IfOk result (λ made. AreExplainedOf g.now live.now s.now b.now placing.now.chains.items made.items) }
{
    let objects = g.objects.as_slice().len() as u32;
    let costs = costs_in(alloc, s)?;
    let arrays = arrays(alloc, live.operations.as_slice(), objects)?;
    let on = GraphOnBoard {
        graph: g,
        live,
        summaries: s,
        costs: costs.as_slice(),
        arrays: arrays.as_slice(),
        objects,
        board: *b,
    };
    explained(alloc, &on, g, placing.chains.as_slice())
}
