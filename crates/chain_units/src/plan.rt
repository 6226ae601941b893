//! Plans of chains.

ghost use Rattle.std.specs.Prelude.{◌≡◌, ◌≤◌, ◌+◌, ◌++◌, ◌∷◌, [], ℕ, List, IfOk, OnOk, length};
ghost use Rattle.std.specs.List.{AllByRecursion};
ghost use Rattle.flow_graph.specs.declared.graph.Item.{Item};
ghost use Rattle.chain_units.specs.Known.{Known};
ghost use Rattle.chain_units.specs.Marks.{ChainUnit};
ghost use Rattle.chain_units.specs.Chains.{PlacedChain, all_of, body_chains};
ghost use Rattle.chain_units.specs.Fits.{BodyFits};
ghost use Rattle.chain_units.specs.Pieces.{ArePieces, FitsAlone};
ghost use Rattle.chain_units.specs.Placements.{AreRuns, IsRun, IsTurningOf, RunFits};
ghost use Rattle.chain_units.specs.Planned.{AddsPlans, IsPlainPlan, IsPlanOf, IsTurningPlan};

use crate::cutting::{Run, Turning};
use crate::knowledge::Knowledge;
use crate::lists::first_and_rest;
use crate::pieces::{Piece, first_of, plan_pieces, put_all};
use crate::placing::placed_runs;
use base_io::Memory;
use chain_plans::Stretch;
use flow_graph::Item;
use std::alloc::Global;

/// A chain with its plan: its number, from 1; the place of its function among those reached; the number of the operation
/// that is executed first in it; its number of items; 0, or the turns between two checkpoints of a conditional loop,
/// which has one item and one stretch; and its stretches.
#[derive(Debug, Drop)]
pub struct Chain {
    pub number: u32,
    pub function: u32,
    pub first_op: u32,
    pub items: u32,
    pub turns: u32,
    pub stretches: Vec<Stretch>,
}

/// Puts a stretch behind the others.
fn put_stretch(stretches: &mut Vec<Stretch>, stretch: Stretch) -> Result<(), Memory>
    ensures { OnOk result (stretches.new.items ≡ stretches.old.items ++ stretch ∷ []) }
{
    match stretches.push(stretch) {
        Ok(()) => Ok(()),
        Err(_) => Err(Memory),
    }
}

/// A plain chain with its cheapest plan.
fn plan_plain<K: Knowledge>(
    alloc: Global,
    k: &K,
    number: u32,
    function: u32,
    pieces: &[Piece],
) -> Result<Chain, Memory>
    requires few { length pieces.now ≤ 32 }
    requires alone { AllByRecursion (FitsAlone (K.known k.now)) pieces.now }
    ensures place { IfOk result (λ c. (c.number ≡ number) × (c.function ≡ function)) }
    ensures plan { IfOk result (λ c. (us : List ChainUnit) → ArePieces (K.known k.now) us pieces.now → IsPlainPlan (K.known k.now) us c) }
{
    let stretches = plan_pieces(alloc, k, pieces)?;
    Ok(Chain {
        number,
        function,
        first_op: first_of(pieces),
        items: pieces.len() as u32,
        turns: 0,
        stretches,
    })
}

/// A conditional loop with its one stretch.
fn plan_alone(alloc: Global, number: u32, function: u32, turning: &Turning) -> Result<Chain, Memory>
    ensures place { IfOk result (λ c. (c.number ≡ number) × (c.function ≡ function)) }
    ensures plan { IfOk result (λ c. (k : Known) (x : Item) (behind : ℕ) → IsTurningOf k x behind turning.now → IsTurningPlan k x behind c) }
{
    let mut homes = Vec::new(alloc);
    put_all(&mut homes, &turning.greatest.homes)?;
    let mut stretches = Vec::new(alloc);
    put_stretch(
        &mut stretches,
        Stretch {
            first_item: 0,
            items: 1,
            homes,
            cost: turning.greatest.cost,
        },
    )?;
    Ok(Chain {
        number,
        function,
        first_op: turning.turn.first,
        items: 1,
        turns: turning.greatest.turns,
        stretches,
    })
}

/// A chain with its plan.
fn plan_run<K: Knowledge>(
    alloc: Global,
    k: &K,
    number: u32,
    function: u32,
    run: &Run,
) -> Result<Chain, Memory>
    requires { RunFits (K.known k.now) run.now }
    ensures place { IfOk result (λ c. (c.number ≡ number) × (c.function ≡ function)) }
    ensures plan { IfOk result (λ c. (o : PlacedChain) → IsRun (K.known k.now) o run.now → IsPlanOf (K.known k.now) o c) }
{
    match run {
        Run::Plain(pieces) => plan_plain(alloc, k, number, function, pieces),
        Run::Alone(turning) => plan_alone(alloc, number, function, turning),
    }
}

/// The most chains of a graph: their numbers have 32 bits.
const MOST_CHAINS: usize = 0xffff_fffe;

/// The number of the chain behind some. It fails where numbers end.
fn next_number(chains: &[Chain]) -> Result<u32, Memory>
    ensures { IfOk result (λ number. number ≡ length chains.now + 1) }
{
    if chains.len() <= MOST_CHAINS {
        Ok(chains.len() as u32 + 1)
    } else {
        Err(Memory)
    }
}

/// Puts a chain behind the others.
fn put_chain(chains: &mut Vec<Chain>, chain: Chain) -> Result<(), Memory>
    ensures { OnOk result (chains.new.items ≡ chains.old.items ++ chain ∷ []) }
{
    match chains.push(chain) {
        Ok(()) => Ok(()),
        Err(_) => Err(Memory),
    }
}

/// Puts a function's chains with their plans behind the others.
fn put_plans<K: Knowledge>(
    alloc: Global,
    k: &K,
    function: u32,
    runs: &[Run],
    chains: &mut Vec<Chain>,
) -> Result<(), Memory>
    requires { AllByRecursion (RunFits (K.known k.now)) runs.now }
    ensures { OnOk result ((os : List PlacedChain) → AreRuns (K.known k.now) os runs.now → AddsPlans (K.known k.now) (all_of function os) chains.old.items chains.new.items) }
{
    let mut left = runs;
    while let Some((run, behind)) = first_and_rest(left) {
        let number = next_number(chains)?;
        let chain = plan_run(alloc, k, number, function, run)?;
        put_chain(chains, chain)?;
        left = behind;
    }
    Ok(())
}

/// Puts the chains of a function's body behind the others, each with its number, the function and its cheapest plan. It
/// fails only for want of memory, which more than 2^32 - 1 chains are told as.
pub fn put_chains<K: Knowledge>(
    alloc: Global,
    k: &K,
    function: u32,
    body: &[Item],
    chains: &mut Vec<Chain>,
) -> Result<(), Memory>
    requires { BodyFits (K.known k.now) body.now }
    ensures { OnOk result (AddsPlans (K.known k.now) (body_chains (K.known k.now) function body.now) chains.old.items chains.new.items) }
{
    let runs = placed_runs(alloc, k, body)?;
    put_plans(alloc, k, function, &runs, chains)
}
