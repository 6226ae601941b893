//! The lines of chains.

ghost use Rattle.std.specs.Prelude.{◌≡◌, ◌++◌, IfOk, OnOk, string_bytes, sum_by};
ghost use Rattle.plan_report.specs.Report.{chain_line, chains_text, line_if, loop_line, plain_line};

use crate::lists::first_and_rest;
use base_io::Memory;
use checkpoint_graph::{Chain, Stretch};
use std::alloc::{AllocError, Global};

/// What stretches cost together.
fn cost_of(stretches: &[Stretch]) -> u128
    ensures { result ≡ sum_by (λ s. s.cost) stretches.now }
{
    let mut cost: u128 = 0;
    for stretch in stretches {
        cost += stretch.cost as u128;
    }
    cost
}

fn loop_line(alloc: Global, chain: &Chain) -> Result<String, AllocError>
    ensures { IfOk result (λ line. string_bytes line ≡ loop_line chain.now) }
{
    let number = chain.number;
    let turns = chain.turns;
    let cost = cost_of(chain.stretches.as_slice());
    format!(in alloc; "loop {number} turns {turns} cost {cost}\n")
}

fn plain_line(alloc: Global, chain: &Chain) -> Result<String, AllocError>
    ensures { IfOk result (λ line. string_bytes line ≡ plain_line chain.now) }
{
    let number = chain.number;
    let items = chain.items;
    let sites = chain.stretches.len().saturating_sub(1);
    let cost = cost_of(chain.stretches.as_slice());
    format!(in alloc; "chain {number} items {items} sites {sites} cost {cost}\n")
}

fn chain_line(alloc: Global, chain: &Chain) -> Result<String, AllocError>
    ensures { IfOk result (λ line. string_bytes line ≡ chain_line chain.now) }
{
    if chain.turns == 0 {
        plain_line(alloc, chain)
    } else {
        loop_line(alloc, chain)
    }
}

/// Puts a line behind a text.
pub fn put(text: &mut String, line: &str) -> Result<(), Memory>
    ensures { OnOk result (string_bytes text.new ≡ string_bytes text.old ++ line.now) }
{
    match text.push_str(line) {
        Ok(()) => Ok(()),
        Err(_) => Err(Memory),
    }
}

/// Puts the line of a chain behind a text, if it is one of the function.
fn put_chain(alloc: Global, text: &mut String, function: u32, chain: &Chain) -> Result<(), Memory>
    ensures { OnOk result (string_bytes text.new ≡ string_bytes text.old ++ line_if function chain.now) }
{
    if chain.function != function {
        return Ok(());
    }
    match chain_line(alloc, chain) {
        Ok(line) => put(text, line.as_str()),
        Err(_) => Err(Memory),
    }
}

/// Puts the lines of a function's chains behind a text.
pub fn put_chains(
    alloc: Global,
    text: &mut String,
    function: u32,
    chains: &[Chain],
) -> Result<(), Memory>
    ensures { OnOk result (string_bytes text.new ≡ string_bytes text.old ++ chains_text function chains.now) }
{
    let mut left = chains;
    while let Some((chain, rest)) = first_and_rest(left) {
        put_chain(alloc, text, function, chain)?;
        left = rest;
    }
    Ok(())
}
