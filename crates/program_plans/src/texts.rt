//! The texts on standard input.

use std::alloc::{AllocError, Global};

/// What is asked of a program.
#[derive(Clone, Copy)]
pub enum Shown {
    Plan,
    Picture,
    Times,
}

/// The board file and the program that are being read, and what is asked of the program.
#[derive(Drop)]
pub struct Texts {
    pub board: Vec<u8>,
    pub program: Vec<u8>,
    pub shown: Shown,
    is_board: bool,
}

/// No text is read yet.
pub fn no_texts(alloc: Global) -> Texts {
    Texts {
        board: Vec::new(alloc),
        program: Vec::new(alloc),
        shown: Shown::Plan,
        is_board: true,
    }
}

/// What begins behind a line.
#[derive(Clone, Copy)]
pub enum Heading {
    Board,
    Program(Shown),
}

/// What a line begins, if it is a heading.
pub fn heading_of(line: &str) -> Option<Heading> {
    match line {
        "board" => Some(Heading::Board),
        "program" => Some(Heading::Program(Shown::Plan)),
        "picture" => Some(Heading::Program(Shown::Picture)),
        "times" => Some(Heading::Program(Shown::Times)),
        _ => None,
    }
}

impl Texts {
    /// Begins a text anew: a program on the same board, or a board and a program.
    pub fn begin(&mut self, heading: Heading) {
        self.program.clear();
        match heading {
            Heading::Program(shown) => {
                self.shown = shown;
                self.is_board = false;
            }
            Heading::Board => {
                self.board.clear();
                self.is_board = true;
            }
        }
    }

    /// Adds a line to the text that was begun last.
    pub fn add(&mut self, line: &str) -> Result<(), AllocError> {
        if self.is_board {
            add_line(&mut self.board, line)
        } else {
            add_line(&mut self.program, line)
        }
    }
}

fn add_line(text: &mut Vec<u8>, line: &str) -> Result<(), AllocError> {
    text.extend_from_slice(line.as_bytes())?;
    text.push(b'\n')?;
    Ok(())
}
