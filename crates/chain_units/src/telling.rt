//! Plans, explained chain by chain.

ghost use Rattle.std.specs.Prelude.{◌≡◌, ◌++◌, ◌∷◌, [], ℕ, List, IfOk, OnOk, MatchOption, Some, None, length, slice_get};
ghost use Rattle.flow_graph.specs.declared.graph.Item.{Item};
ghost use Rattle.flow_graph.specs.declared.graph.Item.TheOpen.{Item-F};
ghost use Rattle.chain_units.specs.Chains.{Of, PlacedChain, all_of, body_chains};
ghost use Rattle.chain_units.specs.Explained.{AddsExplained, AreEach, IsChainExplained, IsOneExplained, IsStretchExplained, IsTurnExplained};
ghost use Rattle.chain_units.specs.Fits.{BodyFits};
ghost use Rattle.chain_units.specs.Marks.{ChainUnit};
ghost use Rattle.chain_units.specs.Pieces.{ArePieces};
ghost use Rattle.chain_units.specs.Placements.{AreRuns, IsRun, IsTurnBy};

use crate::cutting::Run;
use crate::explaining::{Explained, explain_code, explain_pieces, part_of, put_if};
use crate::knowledge::Knowledge;
use crate::lists::first_and_rest;
use crate::pieces::Piece;
use crate::placing::placed_runs;
use crate::plan::Chain;
use crate::turning::turning_frame;
use base_io::Memory;
use chain_plans::Stretch;
use flow_graph::Item;
use std::alloc::Global;

/// A chain of a plan: its number, and its stretches.
#[derive(Debug, Drop)]
pub struct ExplainedChain {
    pub number: u32,
    pub stretches: Vec<Explained>,
}

/// Explains a stretch of a plain chain.
fn explain_stretch<K: Knowledge>(
    alloc: Global,
    k: &K,
    pieces: &[Piece],
    stretch: &Stretch,
) -> Result<Explained, Memory>
    ensures { IfOk result (λ e. (us : List ChainUnit) → ArePieces (K.known k.now) us pieces.now → IsStretchExplained (K.known k.now) us stretch.now e) }
{
    let part = part_of(pieces, stretch.first_item, stretch.items);
    explain_pieces(alloc, k, part, &stretch.homes)
}

/// Explains the turns of a conditional loop.
fn explain_turn<K: Knowledge>(
    alloc: Global,
    k: &K,
    turn: &Piece,
    stretch: &Stretch,
) -> Result<Explained, Memory>
    ensures { IfOk result (λ e. (x : Item-F Item) (next : ℕ) → IsTurnBy (K.known k.now) x next turn.now → IsTurnExplained (K.known k.now) x next stretch.now e) }
{
    let frame = turning_frame(k, turn.first, turn.behind);
    let mut firsts = Vec::new(alloc);
    put_if(&mut firsts, turn.first, true)?;
    explain_code(
        alloc,
        k,
        frame,
        firsts,
        &turn.touched,
        &turn.weights,
        &stretch.homes,
    )
}

/// Explains a stretch of a chain.
fn explain_one<K: Knowledge>(
    alloc: Global,
    k: &K,
    run: &Run,
    stretch: &Stretch,
) -> Result<Explained, Memory>
    ensures { IfOk result (λ e. (o : PlacedChain) → IsRun (K.known k.now) o run.now → IsOneExplained (K.known k.now) o stretch.now e) }
{
    match run {
        Run::Plain(pieces) => explain_stretch(alloc, k, pieces, stretch),
        Run::Alone(turning) => explain_turn(alloc, k, &turning.turn, stretch),
    }
}

/// Puts a stretch behind the others.
fn put_explained_one(made: &mut Vec<Explained>, one: Explained) -> Result<(), Memory>
    ensures { OnOk result (made.new.items ≡ made.old.items ++ one ∷ []) }
{
    match made.push(one) {
        Ok(()) => Ok(()),
        Err(_) => Err(Memory),
    }
}

/// Explains all stretches of a chain.
fn explain_stretches<K: Knowledge>(
    alloc: Global,
    k: &K,
    run: &Run,
    stretches: &[Stretch],
) -> Result<Vec<Explained>, Memory>
    ensures { IfOk result (λ made. (o : PlacedChain) → IsRun (K.known k.now) o run.now → AreEach (IsOneExplained (K.known k.now) o) stretches.now made.items) }
{
    let mut made = Vec::new(alloc);
    let mut left = stretches;
    while let Some((stretch, behind)) = first_and_rest(left) {
        let one = explain_one(alloc, k, run, stretch)?;
        put_explained_one(&mut made, one)?;
        left = behind;
    }
    Ok(made)
}

/// Explains a chain by its plan.
fn explain_run<K: Knowledge>(
    alloc: Global,
    k: &K,
    run: &Run,
    chain: &Chain,
) -> Result<ExplainedChain, Memory>
    ensures { IfOk result (λ e. (o : PlacedChain) → IsRun (K.known k.now) o run.now → IsChainExplained (K.known k.now) o chain.now e) }
{
    let stretches = explain_stretches(alloc, k, run, chain.stretches.as_slice())?;
    Ok(ExplainedChain {
        number: chain.number,
        stretches,
    })
}

fn chain_at(chains: &[Chain], at: usize) -> Option<&Chain>
    ensures { MatchOption result (slice_get chains.now at ≡ None) (λ chain. slice_get chains.now at ≡ Some chain.now) }
{
    chains.get(at)
}

/// Puts a chain behind the others.
fn put_explained_chain(made: &mut Vec<ExplainedChain>, chain: ExplainedChain) -> Result<(), Memory>
    ensures { OnOk result (made.new.items ≡ made.old.items ++ chain ∷ []) }
{
    match made.push(chain) {
        Ok(()) => Ok(()),
        Err(_) => Err(Memory),
    }
}

/// Explains the next chain, where there is a plan of it.
fn explain_next<K: Knowledge>(
    alloc: Global,
    k: &K,
    run: &Run,
    chains: &[Chain],
    made: &mut Vec<ExplainedChain>,
) -> Result<(), Memory>
    ensures { OnOk result ((o : Of) → IsRun (K.known k.now) o.chain run.now → AddsExplained (K.known k.now) (o ∷ []) chains.now made.old.items made.new.items) }
{
    let done = made.as_slice().len();
    match chain_at(chains, done) {
        None => Ok(()),
        Some(chain) => {
            let one = explain_run(alloc, k, run, chain)?;
            put_explained_chain(made, one)
        }
    }
}

/// Explains the chains of a function.
fn explain_runs<K: Knowledge>(
    alloc: Global,
    k: &K,
    runs: &[Run],
    chains: &[Chain],
    made: &mut Vec<ExplainedChain>,
) -> Result<(), Memory>
    ensures { OnOk result ((f : ℕ) (os : List PlacedChain) → AreRuns (K.known k.now) os runs.now → AddsExplained (K.known k.now) (all_of f os) chains.now made.old.items made.new.items) }
{
    let mut left = runs;
    while let Some((run, behind)) = first_and_rest(left) {
        explain_next(alloc, k, run, chains, made)?;
        left = behind;
    }
    Ok(())
}

/// Explains the chains of a function's body, whose plans stand behind those of the chains that are explained already: each stretch
/// tells the operations that its items begin with, its weight, and which of its homes are restored and saved. A chain of which there
/// is no plan isn't told. It fails only for want of memory.
pub fn put_explained<K: Knowledge>(
    alloc: Global,
    k: &K,
    body: &[Item],
    chains: &[Chain],
    made: &mut Vec<ExplainedChain>,
) -> Result<(), Memory>
    requires { BodyFits (K.known k.now) body.now }
    ensures { OnOk result ((f : ℕ) → AddsExplained (K.known k.now) (body_chains (K.known k.now) f body.now) chains.now made.old.items made.new.items) }
{
    let runs = placed_runs(alloc, k, body)?;
    explain_runs(alloc, k, runs.as_slice(), chains, made)
}
