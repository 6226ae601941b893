//! The typed program of a tree, or the type fault that is answered.
ghost use Rattle.std.specs.Prelude.{◌≡◌, ◌≢◌, ◌∷◌, [], ◌<◌, ◌^◌, IfOk, IfErr};
ghost use Rattle.c_tree.specs.declared.tree.Program.{Program};
ghost use Rattle.sound_programs.specs.SoundPrograms.{IsSound};
ghost use Rattle.sound_programs.specs.Scoped.{IsScoped};
ghost use Rattle.accepted_programs.specs.Texts.{IsRead};
ghost use Rattle.c_typing.specs.declared.type_fault.TypeFault.{TypeFault};
ghost use Rattle.c_typing.specs.declared.type_fault.TypeFault.TheVariants as faults;
ghost use Rattle.c_typing.specs.Programs as spec;
ghost use Rattle.c_typing.specs.Programs.{Accepts, Refuses};

use crate::externals::{add_defines, external};
use c_answers::answer;
use c_expressions::notes::push;
use c_parse::{NoMemory, Raw};
use c_tree::Program;
use c_typing::{Meaning, Role, Scopes, Signature, State, TypeFault};
use c_values::Ty;
use sqlite_items::Items;
use std::alloc::Global;

/// The typed program of a tree. Else the fault that is answered: of several the one that stands first in the text; where there is none but
/// recursion, that of the first call on a cycle; and only where there is none at all, that `main` is missing. A tree of 2^29 nodes or more
/// is answered by want of memory.
pub fn typed(alloc: Global, raw: &Raw) -> Result<Program, TypeFault>
    requires read { IsRead raw.now }
    ensures accepts { IfOk result (λ p. Accepts raw.now p) }
    // By the law of what is accepted: nothing of the program is looked over.
    ensures sound { IfOk result (λ p. IsSound p) }
    ensures scoped { IfOk result (λ p. IsScoped p) }
    ensures refuses { IfErr result (λ fault. fault ≢ faults.Memory → Refuses raw.now fault) }
    ensures only { IfOk result (λ p. (other : Program) → Accepts raw.now other → other ≡ p) }
    ensures no_fault { IfOk result (λ p. (fault : TypeFault) → Refuses raw.now fault → ⊥) }
    ensures only_fault { IfErr result (λ fault. fault ≢ faults.Memory → (other : TypeFault) → Refuses raw.now other → other ≡ fault) }
    ensures no_program { IfErr result (λ fault. fault ≢ faults.Memory → (p : Program) → Accepts raw.now p → ⊥) }
{
    match found(alloc, raw) {
        Err(_) => Err(TypeFault::Memory),
        Ok(state) => answer(alloc, state),
    }
}

/// A program has fewer nodes than this.
const MOST_NODES: u64 = 1 << 29;

/// All that is found of a text.
fn found(alloc: Global, raw: &Raw) -> Result<State, NoMemory>
    ensures is { IfOk result (λ state. state ≡ spec.found raw.now) }
    ensures few { IfOk result (λ state. state.nodes < 2 ^ 29) }
{
    let mut defined = Items::new(alloc);
    add_defines(alloc, raw, &mut defined)?;
    let mut state = start(alloc, defined)?;
    let Ok(()) = external(alloc, raw, &mut state) else {
        drop(state);
        return Err(NoMemory);
    };
    if state.nodes >= MOST_NODES {
        drop(state);
        return Err(NoMemory);
    }
    Ok(state)
}

/// What is known before the text.
fn start(alloc: Global, defined: Items<Items<u8>>) -> Result<State, NoMemory>
    ensures { IfOk result (λ state. state ≡ spec.start defined) }
{
    let signatures = first_signatures(alloc)?;
    let scopes = predeclared(alloc)?;
    Ok(State {
        scopes,
        signatures,
        variables: Items::new(alloc),
        functions: Items::new(alloc),
        calls: Items::new(alloc),
        nodes: 0,
        faults: Items::new(alloc),
        defined,
        unready: Items::new(alloc),
        result: None,
    })
}

/// `in` and `out` are declared before the text.
fn predeclared(alloc: Global) -> Result<Scopes, NoMemory>
    ensures { IfOk result (λ scopes. scopes ≡ spec.predeclared ∷ []) }
{
    let mut scopes = Scopes::new(alloc);
    scopes.declare(b"in", Meaning::Function(0))?;
    scopes.declare(b"out", Meaning::Function(1))?;
    Ok(scopes)
}

fn first_signatures(alloc: Global) -> Result<Items<Signature>, NoMemory>
    ensures { IfOk result (λ signatures. signatures ≡ spec.first_signatures) }
{
    let mut params = Items::new(alloc);
    push(&mut params, Ty::U16)?;
    let mut signatures = Items::new(alloc);
    push(
        &mut signatures,
        Signature {
            params: Items::new(alloc),
            result: Some(Ty::U16),
            role: Role::Input,
        },
    )?;
    push(
        &mut signatures,
        Signature {
            params,
            result: None,
            role: Role::Output,
        },
    )?;
    Ok(signatures)
}
