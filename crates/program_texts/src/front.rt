//! The front end: the program that a text is, or its first fault.
ghost use Rattle.std.specs.Prelude.{◌≡◌, ◌≢◌, ◌≤◌, ◌<◌, ℕ, length, slice_index, IfErr, IfOk};
ghost use Rattle.c_tree.specs.declared.tree.Program.{Program};
ghost use Rattle.lowered_graphs.specs.GraphOf.{graph_of};
ghost use Rattle.sound_programs.specs.SoundPrograms.{IsSound};
ghost use Rattle.sound_programs.specs.Scoped.{IsScoped};
ghost use Rattle.program_texts.specs.declared.fault.ProgramFault.{ProgramFault};
ghost use Rattle.program_texts.specs.Front.{HasFault, IsFault, IsGraphOfText, IsTextOf, IsTypedText, of_size, of_tokens, of_tree, of_types};

use crate::{ProgramFault, ProgramRefusal};
use base_io::Place;
use c_lex::{LexFault, tokens};
use c_lower::{LowerFault, lower};
use c_parse::{ParseFault, parse};
use c_tree::Program;
use c_types::{TypeFault, typed};
use flow_graph::Graph;
use std::alloc::Global;

// A typed program, and the graph that it is lowered to.
#[derive(Drop)]
struct Lowered {
    program: Program,
    graph: Graph,
}

fn refused(fault: ProgramRefusal, place: Place) -> ProgramFault
    ensures { result ≡ ProgramFault.Refused fault place }
{
    ProgramFault::Refused { fault, place }
}

fn of_tokens(fault: LexFault) -> ProgramFault
    ensures { result ≡ of_tokens fault }
{
    match fault {
        LexFault::BadByte { at } => refused(ProgramRefusal::BadByte, at),
        LexFault::BadLiteral { at } => refused(ProgramRefusal::BadLiteral, at),
        LexFault::TooBig { at } => refused(ProgramRefusal::TooBig, at),
        LexFault::OpenComment { at } => refused(ProgramRefusal::OpenComment, at),
        LexFault::HashLine { at } => refused(ProgramRefusal::HashLine, at),
        LexFault::Memory => ProgramFault::Memory,
    }
}

fn of_tree(fault: ParseFault) -> ProgramFault
    ensures { result ≡ of_tree fault }
{
    match fault {
        ParseFault::Unexpected { at } => refused(ProgramRefusal::Unexpected, at),
        ParseFault::NotInProfile { at } => refused(ProgramRefusal::NotInProfile, at),
        ParseFault::TooDeep { at } => refused(ProgramRefusal::TooDeep, at),
        ParseFault::Memory => ProgramFault::Memory,
    }
}

fn of_types(fault: TypeFault) -> ProgramFault
    ensures { result ≡ of_types fault }
{
    match fault {
        TypeFault::Unknown { at } => refused(ProgramRefusal::Unknown, at),
        TypeFault::Redeclared { at } => refused(ProgramRefusal::Redeclared, at),
        TypeFault::WrongArgs { at } => refused(ProgramRefusal::WrongArgs, at),
        TypeFault::NotConst { at } => refused(ProgramRefusal::NotConst, at),
        TypeFault::BadArray { at } => refused(ProgramRefusal::BadArray, at),
        TypeFault::BadAssign { at } => refused(ProgramRefusal::BadAssign, at),
        TypeFault::NoMain { at } => refused(ProgramRefusal::NoMain, at),
        TypeFault::Recursion { at } => refused(ProgramRefusal::Recursion, at),
        TypeFault::TooMany { at } => refused(ProgramRefusal::TooMany, at),
        TypeFault::Memory => ProgramFault::Memory,
    }
}

fn of_size(fault: LowerFault) -> ProgramFault
    ensures { result ≡ of_size fault }
{
    match fault {
        LowerFault::TooManyOps { count: _, at } => refused(ProgramRefusal::TooManyOps, at),
        LowerFault::Memory => ProgramFault::Memory,
    }
}

// What the type of bytes says of each of them.
fn bytes_are_small(text: &[u8])
    ensures { (i : ℕ) → slice_index text.now i < 256 }
{
    let _ = text;
}

/// The typed program of a text, which is sound and in scope, whatever the number of its operations, or the first fault of the text's tokens, its
/// tree or its types.
#[tactic(auto, using(crate::proofs::TreeRead::is_read))]
pub fn typed_of(alloc: Global, text: &[u8]) -> Result<Program, ProgramFault>
    requires { length text.now ≤ 65536 }
    ensures typed { IfOk result (λ p. IsTypedText text.now p) }
    ensures sound { IfOk result (λ p. IsSound p) }
    ensures scoped { IfOk result (λ p. IsScoped p) }
    ensures fault { IfErr result (λ fault. IsFault text.now fault) }
{
    let tokens = match tokens(alloc, text) {
        Ok(tokens) => tokens,
        Err(fault) => return Err(of_tokens(fault)),
    };
    let raw = match parse(alloc, text, &tokens) {
        Ok(raw) => raw,
        Err(fault) => return Err(of_tree(fault)),
    };
    bytes_are_small(text);
    match typed(alloc, &raw) {
        Ok(program) => Ok(program),
        Err(fault) => Err(of_types(fault)),
    }
}

// The program of a text, which is sound and in scope, with its graph, or the first fault of the text.
fn lowered_of(alloc: Global, text: &[u8]) -> Result<Lowered, ProgramFault>
    requires { length text.now ≤ 65536 }
    ensures found { IfOk result (λ r. IsTextOf text.now r.program) }
    ensures graph { IfOk result (λ r. r.graph ≡ graph_of r.program) }
    ensures sound { IfOk result (λ r. IsSound r.program) }
    ensures scoped { IfOk result (λ r. IsScoped r.program) }
    ensures fault { IfErr result (λ fault. IsFault text.now fault) }
{
    let program = match typed_of(alloc, text) {
        Ok(program) => program,
        Err(fault) => return Err(fault),
    };
    match lower(alloc, &program) {
        Ok(graph) => Ok(Lowered { program, graph }),
        Err(fault) => {
            drop(program);
            Err(of_size(fault))
        }
    }
}

/// The program of a text, which is sound and in scope, or the first fault of the text.
pub fn program_of(alloc: Global, text: &[u8]) -> Result<Program, ProgramFault>
    requires { length text.now ≤ 65536 }
    ensures found { IfOk result (λ p. IsTextOf text.now p) }
    ensures sound { IfOk result (λ p. IsSound p) }
    ensures scoped { IfOk result (λ p. IsScoped p) }
    ensures only { IfOk result (λ p. (other : Program) → IsTextOf text.now other → p ≡ other) }
    ensures fault { IfErr result (λ fault. IsFault text.now fault) }
    ensures first { IfErr result (λ fault. fault ≢ ProgramFault.Memory → (other : ProgramFault) → other ≢ ProgramFault.Memory → HasFault text.now other → fault ≡ other) }
    ensures none { IfErr result (λ fault. fault ≢ ProgramFault.Memory → (p : Program) → IsTextOf text.now p → ⊥) }
{
    match lowered_of(alloc, text) {
        Ok(lowered) => {
            let Lowered { program, graph } = lowered;
            drop(graph);
            Ok(program)
        }
        Err(fault) => Err(fault),
    }
}

/// The graph of the program of a text, or the first fault of the text.
pub fn graph_of_text(alloc: Global, text: &[u8]) -> Result<Graph, ProgramFault>
    requires { length text.now ≤ 65536 }
    ensures found { IfOk result (λ g. IsGraphOfText text.now g) }
    ensures fault { IfErr result (λ fault. IsFault text.now fault) }
{
    match lowered_of(alloc, text) {
        Ok(lowered) => {
            let Lowered { program, graph } = lowered;
            drop(program);
            Ok(graph)
        }
        Err(fault) => Err(fault),
    }
}
