ghost use Rattle.std.specs.Prelude.{◌≡◌, ◌≤◌, ◌+◌, ◌∷◌, [], List, reverse, OnOk};
ghost use Rattle.c_parse.specs.Grammar.{weight};
ghost use Rattle.c_parse.specs.Machine.{level};
ghost use Rattle.c_parse.specs.Steps.{Popped};
ghost use Rattle.c_parse.specs.declared.form.Wait.{Wait};

use crate::form::{Form, Wait};
use crate::no_memory::NoMemory;
use std::alloc::Global;

/// What the parser waits for, the next last, and how deep the next token is nested.
#[derive(Drop)]
pub struct Waits {
    pub stack: Vec<Wait>,
    pub depth: usize,
    pub ghost counted: { depth ≡ level (reverse stack.items) },
}

// How much deeper its tokens are nested than the form itself.
fn weight(form: Form) -> usize
    ensures weight { result ≡ weight form }
    ensures small { result ≤ 1 }
{
    match form {
        Form::Statement(_)
        | Form::Operand
        | Form::Grouped
        | Form::Subscripted
        | Form::Passed
        | Form::CastType
        | Form::Chosen => 1,
        _ => 0,
    }
}

fn depth_of(wait: Wait) -> usize
    ensures adds { (c : List Wait) → level (wait ∷ c) ≡ level c + result }
    ensures small { result ≤ 1 }
{
    match wait {
        Wait::Close(form) => weight(form),
        _ => 0,
    }
}

impl Waits {
    pub fn new(alloc: Global) -> Waits
        ensures { result.stack.items ≡ [] }
    {
        Waits {
            stack: Vec::new(alloc),
            depth: 0,
        }
    }

    /// This is waited for next.
    #[tactic(auto, using(crate::proofs::Levels::level_length))]
    pub fn push(&mut self, wait: Wait) -> Result<(), NoMemory>
        ensures { OnOk result (reverse self.new.stack.items ≡ wait ∷ reverse self.old.stack.items) }
    {
        let deeper = depth_of(wait);
        match self.stack.push(wait) {
            Ok(()) => {
                self.depth += deeper;
                Ok(())
            },
            Err(_) => Err(NoMemory),
        }
    }

    /// What is waited for next is waited for no more.
    pub fn pop(&mut self) -> Option<Wait>
        ensures { Popped result (reverse self.old.stack.items) (reverse self.new.stack.items) }
    {
        let popped = self.stack.pop();
        if let Some(wait) = popped {
            self.depth -= depth_of(wait);
        }
        popped
    }
}
