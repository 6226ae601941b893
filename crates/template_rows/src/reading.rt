//! Lines of text as operations.

use base_io::Place;
use flow_graph::{ArrayUse, Op, OpKind, Operand};
use std::alloc::{AllocError, Global};

/// The addresses of a line, 0 where one is no number of sixteen bits.
pub fn places_of(alloc: Global, text: &str) -> Result<Vec<u16>, AllocError> {
    let mut places = Vec::new(alloc);
    for word in text.split_whitespace() {
        places.push(word.parse().unwrap_or(0))?;
    }
    Ok(places)
}

/// The operation that a line names.
pub fn read_op(line: &str) -> Option<Op> {
    let mut words = line.split_whitespace();
    let kind = kind_of(words.next()?)?;
    let dest = dest_of(words.next()?)?;
    let a = operand_of(words.next()?)?;
    let b = operand_of(words.next()?)?;
    let array = array_of(words.next()?)?;
    Some(Op {
        number: 0,
        kind,
        dest,
        a,
        b,
        array,
        place: Place { line: 1, column: 1 },
    })
}

fn object_of(text: &str) -> Option<u32> {
    match text.split_once('o') {
        Some(("", number)) => number.parse().ok(),
        _ => None,
    }
}

fn dest_of(text: &str) -> Option<Option<u32>> {
    match text {
        "-" => Some(None),
        _ => Some(Some(object_of(text)?)),
    }
}

fn operand_of(text: &str) -> Option<Operand> {
    match object_of(text) {
        Some(object) => Some(Operand::Object(object)),
        None => Some(Operand::Const(text.parse().ok()?)),
    }
}

fn array_of(text: &str) -> Option<Option<ArrayUse>> {
    match text.split_once(':') {
        Some((object, length)) => {
            let object = object_of(object)?;
            let length = length.parse().ok()?;
            Some(Some(ArrayUse { object, length }))
        }
        None => Some(None),
    }
}

fn kind_of(name: &str) -> Option<OpKind> {
    match name {
        "Copy" => Some(OpKind::Copy),
        "Neg" => Some(OpKind::Neg),
        "Inv" => Some(OpKind::Inv),
        "ToU8" => Some(OpKind::ToU8),
        "ToS8" => Some(OpKind::ToS8),
        "Load" => Some(OpKind::Load),
        "Store" => Some(OpKind::Store),
        "Input" => Some(OpKind::Input),
        "Output" => Some(OpKind::Output),
        "Finish" => Some(OpKind::Finish),
        "Test" => Some(OpKind::Test),
        "Below" => Some(OpKind::Below),
        "Step" => Some(OpKind::Step),
        "Go" => Some(OpKind::Go),
        "Call" => Some(OpKind::Call),
        "Ret" => Some(OpKind::Ret),
        _ => two_operands_of(name),
    }
}

fn two_operands_of(name: &str) -> Option<OpKind> {
    match name {
        "Add" => Some(OpKind::Add),
        "Sub" => Some(OpKind::Sub),
        "BitAnd" => Some(OpKind::BitAnd),
        "BitOr" => Some(OpKind::BitOr),
        "BitXor" => Some(OpKind::BitXor),
        "Mul" => Some(OpKind::Mul),
        "DivS" => Some(OpKind::DivS),
        "DivU" => Some(OpKind::DivU),
        "RemS" => Some(OpKind::RemS),
        "RemU" => Some(OpKind::RemU),
        "Shl" => Some(OpKind::Shl),
        "ShrS" => Some(OpKind::ShrS),
        "ShrU" => Some(OpKind::ShrU),
        "Eq" => Some(OpKind::Eq),
        "Ne" => Some(OpKind::Ne),
        "LtS" => Some(OpKind::LtS),
        "LtU" => Some(OpKind::LtU),
        "LeS" => Some(OpKind::LeS),
        "LeU" => Some(OpKind::LeU),
        _ => None,
    }
}
