//! The lines of functions.

ghost use Rattle.std.specs.Prelude.{◌≡◌, ◌<◌, ◌^◌, ◌++◌, ◌∷◌, [], IfOk, OnOk, length, slice_get, string_bytes};
ghost use Rattle.plan_report.specs.Report.{chains_text, flat_line, function_text, main_text, name_text, other_text, others_text, report, split_line, summary_text};

use crate::chains::{put, put_chains};
use crate::lists::first_and_rest;
use base_io::Memory;
use call_summary::Summary;
use checkpoint_graph::Chain;
use flow_graph::{Func, Graph};
use std::alloc::{AllocError, Global};

/// What is told of a graph: the summaries of its functions, and its chains.
#[derive(Clone, Copy)]
struct Told<'t> {
    summaries: &'t [Summary],
    chains: &'t [Chain],
}

fn put_letter(text: &mut String, letter: u8) -> Result<(), Memory>
    ensures { OnOk result (string_bytes text.new ≡ string_bytes text.old ++ name_text (letter ∷ [])) }
{
    match text.push(letter as char) {
        Ok(()) => Ok(()),
        Err(_) => Err(Memory),
    }
}

/// Puts a name behind a text.
fn put_name(text: &mut String, name: &[u8]) -> Result<(), Memory>
    ensures { OnOk result (string_bytes text.new ≡ string_bytes text.old ++ name_text name.now) }
{
    let mut left = name;
    while let Some((letter, rest)) = first_and_rest(left) {
        put_letter(text, *letter)?;
        left = rest;
    }
    Ok(())
}

fn flat_line(alloc: Global, cost: u64) -> Result<String, AllocError>
    ensures { IfOk result (λ line. string_bytes line ≡ flat_line cost) }
{
    format!(in alloc; " flat {cost}\n")
}

/// Puts behind a text what is told of a function behind its name.
fn put_summary(
    alloc: Global,
    text: &mut String,
    told: &Told<'_>,
    function: u32,
) -> Result<(), Memory>
    ensures { OnOk result (string_bytes text.new ≡ string_bytes text.old ++ summary_text told.now.chains.now function (slice_get told.now.summaries.now function)) }
{
    match told.summaries.get(function as usize) {
        Some(Summary::Flat { cost, touched: _ }) => match flat_line(alloc, *cost) {
            Ok(line) => put(text, line.as_str()),
            Err(_) => Err(Memory),
        },
        Some(Summary::Split) => put_split(alloc, text, told, function),
        None => put_split(alloc, text, told, function),
    }
}

fn put_split(alloc: Global, text: &mut String, told: &Told<'_>, function: u32) -> Result<(), Memory>
    ensures { OnOk result (string_bytes text.new ≡ string_bytes text.old ++ split_line ++ chains_text function told.now.chains.now) }
{
    put(text, " split\n")?;
    put_chains(alloc, text, function, told.chains)
}

/// Puts the lines of a function behind a text.
fn put_function(
    alloc: Global,
    text: &mut String,
    told: &Told<'_>,
    function: u32,
    func: &Func,
) -> Result<(), Memory>
    ensures { OnOk result (string_bytes text.new ≡ string_bytes text.old ++ function_text told.now.summaries.now told.now.chains.now function func.now) }
{
    put(text, "function ")?;
    put_name(text, func.name.as_slice())?;
    put_summary(alloc, text, told, function)
}

/// Puts behind a text the lines of a function, unless it is `main`.
fn put_other(
    alloc: Global,
    text: &mut String,
    told: &Told<'_>,
    main: u32,
    function: u32,
    func: &Func,
) -> Result<(), Memory>
    ensures { OnOk result (string_bytes text.new ≡ string_bytes text.old ++ other_text told.now.summaries.now told.now.chains.now main function func.now) }
{
    if function == main {
        Ok(())
    } else {
        put_function(alloc, text, told, function, func)
    }
}

/// Puts behind a text the lines of all functions but `main`.
fn put_others(
    alloc: Global,
    text: &mut String,
    told: &Told<'_>,
    main: u32,
    functions: &[Func],
) -> Result<(), Memory>
    requires few { length functions.now < 2 ^ 32 }
    ensures { OnOk result (string_bytes text.new ≡ string_bytes text.old ++ others_text told.now.summaries.now told.now.chains.now main 0 functions.now) }
{
    let mut left = functions;
    let mut function = 0;
    while let Some((func, rest)) = first_and_rest(left) {
        put_other(alloc, text, told, main, function, func)?;
        function += 1;
        left = rest;
    }
    Ok(())
}

/// Puts behind a text the lines of `main`, if it is there.
fn put_main(
    alloc: Global,
    text: &mut String,
    told: &Told<'_>,
    main: u32,
    functions: &[Func],
) -> Result<(), Memory>
    ensures { OnOk result (string_bytes text.new ≡ string_bytes text.old ++ main_text told.now.summaries.now told.now.chains.now main (slice_get functions.now main)) }
{
    match functions.get(main as usize) {
        None => Ok(()),
        Some(func) => put_function(alloc, text, told, main, func),
    }
}

/// The report of a graph, by the summaries of its functions and by its chains: a line for each function, `main` first and then in
/// the order of the text, and under each that is split a line for each of its chains. It fails only for want of memory.
pub fn report(
    alloc: Global,
    g: &Graph,
    summaries: &[Summary],
    chains: &[Chain],
) -> Result<String, Memory>
    requires few { length g.now.functions < 2 ^ 32 }
    ensures { IfOk result (λ text. string_bytes text ≡ report g.now summaries.now chains.now) }
{
    let told = Told { summaries, chains };
    let functions = g.functions.as_slice();
    let mut text = String::new(alloc);
    put_main(alloc, &mut text, &told, g.main, functions)?;
    put_others(alloc, &mut text, &told, g.main, functions)?;
    Ok(text)
}
