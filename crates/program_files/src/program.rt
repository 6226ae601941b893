//! Texts of programs.
ghost use Rattle.std.specs.Prelude.{◌≡◌, ◌≤◌, IfOk, MatchResult, length};
ghost use Rattle.sound_programs.specs.SoundPrograms.{IsSound};
ghost use Rattle.sound_programs.specs.Scoped.{IsScoped};
ghost use Rattle.program_texts.specs.Front.{IsGraphOfText, IsTextOf};
ghost use Rattle.job_files.specs.Answers.{IsRefusedFor, answer_of};
ghost use Rattle.job_files.specs.Reads.{most_program};
ghost use Rattle.program_files.specs.Programs.{IsRefusalOf, RefusesProgram, fault_of};

use c_tree::Program;
use flow_graph::Graph;
use job_files::{ProgramRefusal, Refusal, Status};
use program_texts::{ProgramFault, ProgramRefusal as TextRefusal, graph_of_text, program_of};
use std::alloc::Global;

// A refusal by its name.
fn named(fault: TextRefusal) -> ProgramRefusal
    ensures { fault_of result ≡ fault }
{
    match fault {
        TextRefusal::BadByte => ProgramRefusal::BadByte,
        TextRefusal::BadLiteral => ProgramRefusal::BadLiteral,
        TextRefusal::TooBig => ProgramRefusal::TooBig,
        TextRefusal::OpenComment => ProgramRefusal::OpenComment,
        TextRefusal::HashLine => ProgramRefusal::HashLine,
        TextRefusal::Unexpected => ProgramRefusal::Unexpected,
        TextRefusal::NotInProfile => ProgramRefusal::NotInProfile,
        TextRefusal::TooDeep => ProgramRefusal::TooDeep,
        TextRefusal::Unknown => ProgramRefusal::Unknown,
        TextRefusal::Redeclared => ProgramRefusal::Redeclared,
        TextRefusal::WrongArgs => ProgramRefusal::WrongArgs,
        TextRefusal::NotConst => ProgramRefusal::NotConst,
        TextRefusal::BadArray => ProgramRefusal::BadArray,
        TextRefusal::BadAssign => ProgramRefusal::BadAssign,
        TextRefusal::NoMain => ProgramRefusal::NoMain,
        TextRefusal::Recursion => ProgramRefusal::Recursion,
        TextRefusal::TooMany => ProgramRefusal::TooMany,
        TextRefusal::TooManyOps => ProgramRefusal::TooManyOps,
    }
}

// The status of a fault.
fn refused(fault: ProgramFault) -> Status
    ensures { IsRefusalOf fault (answer_of result) }
{
    match fault {
        ProgramFault::Refused { fault, place } => {
            let fault = named(fault);
            Status::Refused(Refusal::Program { fault, place })
        }
        ProgramFault::Memory => Status::Memory,
    }
}

/// The program of a text, which is sound and in scope, or its first fault.
pub fn program_in(alloc: Global, text: &[u8]) -> Result<Program, Status>
    requires { length text.now ≤ most_program }
    ensures found { MatchResult result (λ p. IsTextOf text.now p) (λ s. IsRefusedFor (RefusesProgram text.now) (answer_of s)) }
    ensures sound { IfOk result (λ p. IsSound p) }
    ensures scoped { IfOk result (λ p. IsScoped p) }
{
    match program_of(alloc, text) {
        Ok(program) => Ok(program),
        Err(fault) => Err(refused(fault)),
    }
}

/// The graph of the program of a text, or its first fault.
pub fn graph_in(alloc: Global, text: &[u8]) -> Result<Graph, Status>
    requires { length text.now ≤ most_program }
    ensures { MatchResult result (λ g. IsGraphOfText text.now g) (λ s. IsRefusedFor (RefusesProgram text.now) (answer_of s)) }
{
    match graph_of_text(alloc, text) {
        Ok(graph) => Ok(graph),
        Err(fault) => Err(refused(fault)),
    }
}
