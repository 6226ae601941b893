//! The text of a program that is made from a number.

ghost use Rattle.std.specs.Prelude.{◌≡◌, ◌≤◌, ◌++◌, IfOk, OnOk, string_bytes};
ghost use Rattle.generated_programs.specs.Generated.{generated, statement, statements};

use crate::draws::{count_in, next, variable_in};
use base_io::Memory;
use std::alloc::{AllocError, Global};

/// Puts a line behind a text.
fn put(text: &mut String, line: &str) -> Result<(), Memory>
    ensures { OnOk result (string_bytes text.new ≡ string_bytes text.old ++ line.now) }
{
    match text.push_str(line) {
        Ok(()) => Ok(()),
        Err(_) => Err(Memory),
    }
}

// The statement that three draws make.
fn statement_line(alloc: Global, p: u16, q: u16, r: u16) -> Result<String, AllocError>
    ensures { IfOk result (λ line. string_bytes line ≡ statement p q r) }
{
    let d = variable_in(q);
    let s = variable_in(r);
    let c = count_in(p);
    let m = 1 + c % 16;
    match p / 64 % 4 {
        0 => format!(in alloc; "v{d}=v{s}+{c}u;\n"),
        1 => format!(in alloc; "v{d}=v{d}^v{s};\n"),
        2 => format!(in alloc; "if(v{d}<v{s})v{d}={c}u;\n"),
        _ => format!(in alloc; "for(int i=0;i<{m};i++)v{d}=v{d}+v{s};\n"),
    }
}

fn put_statement(alloc: Global, text: &mut String, p: u16, q: u16, r: u16) -> Result<(), Memory>
    ensures { OnOk result (string_bytes text.new ≡ string_bytes text.old ++ statement p q r) }
{
    match statement_line(alloc, p, q, r) {
        Ok(line) => put(text, line.as_str()),
        Err(_) => Err(Memory),
    }
}

// Puts so many statements behind a text, the first of which is made from the draws behind a number.
fn put_statements(alloc: Global, text: &mut String, seed: u16, size: u16) -> Result<(), Memory>
    ensures { OnOk result (string_bytes text.new ≡ string_bytes text.old ++ statements size seed) }
{
    let mut left = size;
    let mut x = seed;
    while left > 0 {
        let p = next(x);
        let q = next(p);
        let r = next(q);
        put_statement(alloc, text, p, q, r)?;
        x = r;
        left -= 1;
    }
    Ok(())
}

/// The text of the program that is made from a number, with so many statements: eight variables, the statements, and what each
/// variable holds at the end. It fails only for want of memory.
pub fn generated(alloc: Global, seed: u16, size: u16) -> Result<Vec<u8>, Memory>
    requires some { 1 ≤ size }
    requires few { size ≤ 300 }
    ensures { IfOk result (λ text. text.items ≡ generated seed size) }
{
    let mut text = String::new(alloc);
    put(
        &mut text,
        "unsigned int v0=0u;\nunsigned int v1=1u;\nunsigned int v2=2u;\nunsigned int v3=3u;\nunsigned int v4=4u;\nunsigned int v5=5u;\nunsigned int v6=6u;\nunsigned int v7=7u;\nint main(void)\n{\n",
    )?;
    put_statements(alloc, &mut text, seed, size)?;
    put(
        &mut text,
        "out(v0);\nout(v1);\nout(v2);\nout(v3);\nout(v4);\nout(v5);\nout(v6);\nout(v7);\nreturn 0;\n}\n",
    )?;
    Ok(text.into_bytes())
}
