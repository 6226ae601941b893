//! The lines of the standard input.

use std::alloc::AllocError;

/// What is printed of a program.
#[derive(Clone, Copy, PartialEq, Eq, Debug)]
pub enum Shown {
    Graph,
    Last,
}

/// What is printed of the program that a line begins.
pub fn heading(line: &str) -> Option<Shown> {
    match line {
        "graph" => Some(Shown::Graph),
        "last" => Some(Shown::Last),
        _ => None,
    }
}

/// Adds a line to the text of a program, as often as it says.
pub fn add_line(text: &mut Vec<u8>, line: &str) -> Result<(), AllocError> {
    let (times, line) = repeated(line);
    for _ in 0..times {
        text.extend_from_slice(line.as_bytes())?;
        text.push(b'\n')?;
    }
    Ok(())
}

fn repeated(line: &str) -> (u32, &str) {
    match line.split_once(' ') {
        Some(("repeat", rest)) => match rest.split_once(' ') {
            Some((times, line)) => (times.parse().unwrap_or(1), line),
            None => (1, line),
        },
        _ => (1, line),
    }
}
