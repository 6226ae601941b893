//! The answer to all that was found of a text.
ghost use Rattle.std.specs.Prelude.{◌≡◌, ◌≢◌, ℕ, ◌∷◌, [], None, Some, ◌<◌, ◌≤◌, IfOk, IfErr, codes};
ghost use Rattle.std.specs.Str.{bytes_eq};
ghost use Rattle.c_values.specs.declared.ops.Ty.TheVariants.{I16};
ghost use Rattle.c_typing.specs.Functions.{same_result};
ghost use Rattle.c_typing.specs.declared.type_fault.TypeFault.TheVariants as faults;
ghost use Rattle.c_typing.specs.FirstFaults as first_faults;
ghost use Rattle.c_typing.specs.Cycles.{AreAmong};
ghost use Rattle.c_typing.specs.Texts as texts;
ghost use Rattle.c_typing.specs.Programs as spec;
ghost use Rattle.c_typing.specs.Programs.{IsTyped, IsFaulty};

use crate::cycles::first_on_cycle;
use crate::first_fault::FirstFault;
use base_io::Place;
use c_parse::NoMemory;
use c_tree::{Function, Program};
use c_typing::{CallSite, State, TypeFault};
use c_values::Ty;
use std::alloc::Global;

/// The answer to all that was found.
pub fn answer(alloc: Global, state: State) -> Result<Program, TypeFault>
    ensures accepts { IfOk result (λ p. IsTyped state p) }
    ensures refuses { IfErr result (λ fault. fault ≢ faults.Memory → IsFaulty state fault) }
{
    match first_of(state.faults.as_slice()) {
        Some(fault) => {
            drop(state);
            Err(fault)
        }
        None => faultless(alloc, state),
    }
}

/// The answer where there is no fault but those of calls and of `main`.
fn faultless(alloc: Global, state: State) -> Result<Program, TypeFault>
    requires { first_faults.first_of state.faults ≡ None }
    ensures accepts { IfOk result (λ p. IsTyped state p) }
    ensures refuses { IfErr result (λ fault. fault ≢ faults.Memory → IsFaulty state fault) }
{
    match recursion(alloc, state.calls.as_slice()) {
        Err(_) => {
            drop(state);
            Err(TypeFault::Memory)
        }
        Ok(Some(fault)) => {
            drop(state);
            Err(fault)
        }
        Ok(None) => finish(state),
    }
}

/// The program, where `main` is there.
fn finish(state: State) -> Result<Program, TypeFault>
    ensures program { IfOk result (λ p. (spec.main_in 0 state.functions ≡ Some p.main) × (p ≡ spec.program state p.main)) }
    ensures fault { IfErr result (λ fault. fault ≢ faults.Memory → (spec.main_in 0 state.functions ≡ None) × (fault ≡ faults.NoMain (record { line = 1; column = 1 }))) }
{
    let Ok(nodes) = u32::try_from(state.nodes) else {
        drop(state);
        return Err(TypeFault::Memory);
    };
    match main_in(state.functions.as_slice()) {
        Err(_) => {
            drop(state);
            Err(TypeFault::Memory)
        }
        Ok(None) => {
            drop(state);
            Err(TypeFault::NoMain {
                at: Place { line: 1, column: 1 },
            })
        }
        Ok(Some(main)) => Ok(Program {
            variables: state.variables,
            functions: state.functions,
            main,
            nodes,
        }),
    }
}

/// The first of these faults.
#[tactic(auto, using(crate::proofs::Firsts::sooner_on, crate::proofs::Firsts::none_behind))]
fn first_of(faults: &[TypeFault]) -> Option<TypeFault>
    ensures { result ≡ first_faults.first_of faults.now }
{
    let mut first = FirstFault::new();
    let mut rest = faults;
    while let Some((fault, behind)) = rest.split_first() {
        first.note(*fault);
        rest = behind;
    }
    first.get()
}

/// The fault of the first call that lies on a cycle.
fn recursion(alloc: Global, calls: &[CallSite]) -> Result<Option<TypeFault>, NoMemory>
    ensures { IfOk result (λ found. spec.IsFirstCycle calls.now found) }
{
    let functions = bound(calls)?;
    match first_on_cycle(alloc, functions, calls)? {
        None => Ok(None),
        Some(at) => match calls.get(at) {
            Some(call) => Ok(Some(TypeFault::Recursion { at: call.place })),
            None => Ok(None),
        },
    }
}

/// The functions that call or are called are among so many.
fn bound(calls: &[CallSite]) -> Result<u32, NoMemory>
    ensures { IfOk result (λ n. AreAmong n calls.now) }
{
    let mut n = 0;
    let mut rest = calls;
    while let Some((call, behind)) = rest.split_first() {
        n = above_both(n, call)?;
        rest = behind;
    }
    Ok(n)
}

/// A number that is no smaller, and above those of both functions of a call.
fn above_both(n: u32, call: &CallSite) -> Result<u32, NoMemory>
    ensures own { IfOk result (λ m. n ≤ m) }
    ensures caller { IfOk result (λ m. call.now.caller < m) }
    ensures callee { IfOk result (λ m. call.now.callee < m) }
{
    let m = above(n, call.caller)?;
    above(m, call.callee)
}

/// A number that is no smaller, and above another.
fn above(n: u32, k: u32) -> Result<u32, NoMemory>
    ensures own { IfOk result (λ m. n ≤ m) }
    ensures other { IfOk result (λ m. k < m) }
{
    if k < n {
        return Ok(n);
    }
    match k.checked_add(1) {
        Some(m) => Ok(m),
        None => Err(NoMemory),
    }
}

/// `int main(void)` (C11 5.1.2.2.1).
fn is_main(f: &Function) -> bool
    ensures { result ≡ spec.is_main f.now }
{
    is_named_main(f.name.as_slice()) && has_none(f.params.as_slice()) && is_int(f.result)
}

fn is_named_main(name: &[u8]) -> bool
    ensures { result ≡ bytes_eq name.now (codes "main") }
{
    name == b"main".as_slice()
}

/// The type of a result is `int`.
fn is_int(ty: Option<Ty>) -> bool
    ensures { result ≡ same_result ty (Some I16) }
{
    match ty {
        Some(Ty::I16) => true,
        _ => false,
    }
}

fn has_none(params: &[u32]) -> bool
    ensures { result ≡ texts.is_empty params.now }
{
    match params {
        [] => true,
        _ => false,
    }
}

/// The number of `main`.
fn main_in(fs: &[Function]) -> Result<Option<u32>, NoMemory>
    ensures { IfOk result (λ at. at ≡ spec.main_in 0 fs.now) }
{
    let mut at: u32 = 0;
    let mut rest = fs;
    while let Some((f, behind)) = rest.split_first() {
        if is_main(f) {
            return Ok(Some(at));
        }
        match at.checked_add(1) {
            Some(next) => at = next,
            None => return Err(NoMemory),
        }
        rest = behind;
    }
    Ok(None)
}
