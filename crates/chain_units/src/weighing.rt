//! The weight of a piece of code between two heads, as the planners of chains and of loops take it.

ghost use Rattle.std.specs.Prelude.{◌≡◌, ◌<◌, ◌≤◌, ◌+◌, ◌*◌, ◌^◌, ◌++◌, ◌∷◌, [], ℕ, IfOk, OnOk, min};
ghost use Rattle.home_planner.specs.Sets.{is_in};
ghost use Rattle.chain_units.specs.Known as known;
ghost use Rattle.chain_units.specs.Known.{told_weights};
ghost use Rattle.item_weights.specs.Weights.{kept};
ghost use Rattle.chain_units.specs.Costs as costs;
ghost use Rattle.chain_units.specs.Costs.{weighed};
ghost use Rattle.chain_units.specs.Wanted.{IsWeightOf, wanted};

use crate::knowledge::Knowledge;
use base_io::Memory;
use board_table::Board;
use item_weights::{Use, Weights, product, sum};
use loop_checkpoints::{LoopObject, LoopWeight};
use std::alloc::Global;

/// Whose values are wanted behind a piece of code: those live before an operation, after one, or before one of two.
#[derive(Clone, Copy, Debug, PartialEq, Eq)]
pub enum Behind {
    Before(u32),
    After(u32),
    BeforeEither(u32, u32),
}

/// So many reads and writes at these costs.
fn accesses(reads: u64, read: u64, writes: u64, write: u64) -> u64
    ensures { result ≡ kept (reads * read + writes * write) }
{
    sum(product(reads, read), product(writes, write))
}

pub fn fram_cost(board: &Board, uses: &Use) -> u64
    ensures { result ≡ known.fram_cost board.now uses.now }
{
    accesses(
        uses.reads,
        board.access.fram_read,
        uses.writes,
        board.access.fram_write,
    )
}

fn sram_cost(board: &Board, uses: &Use) -> u64
    ensures { result ≡ known.sram_cost board.now uses.now }
{
    accesses(
        uses.reads,
        board.access.sram_read,
        uses.writes,
        board.access.sram_write,
    )
}

/// MOV from one place of memory to another.
fn move_word(board: &Board, read: u64, write: u64) -> u64
    requires read { read ≤ 1000000 }
    requires write { write ≤ 1000000 }
    ensures value { result ≡ costs.move_word board.now read write }
    ensures limit { result ≤ 6000000 }
{
    board.core.move_ + 3 * board.access.fetch + read + write
}

/// So many times a cost.
fn times(words: u16, cost: u64) -> u64
    requires { cost ≤ 10000000 }
    ensures value { result ≡ words * cost }
    ensures limit { result ≤ 2 ^ 40 }
{
    u64::from(words) * cost
}

/// Moves an object between FRAM and SRAM.
fn move_cost(board: &Board, array: bool, words: u16, read: u64, write: u64) -> u64
    requires read { read ≤ 1000000 }
    requires write { write ≤ 1000000 }
    ensures value { result ≡ costs.move_cost board.now array words read write }
    ensures limit { result ≤ 2 ^ 41 }
{
    let word = move_word(board, read, write);
    if array {
        let each = word + board.core.alu + board.core.jump + 2 * board.access.fetch;
        board.core.move_ + 2 * board.access.fetch + times(words, each)
    } else {
        word
    }
}

fn restore_cost(board: &Board, array: bool, words: u16) -> u64
    ensures value { result ≡ costs.restore_cost board.now array words }
    ensures limit { result ≤ 2 ^ 41 }
{
    move_cost(
        board,
        array,
        words,
        board.access.fram_read,
        board.access.sram_write,
    )
}

fn save_cost(board: &Board, array: bool, words: u16) -> u64
    ensures value { result ≡ costs.save_cost board.now array words }
    ensures limit { result ≤ 2 ^ 41 }
{
    move_cost(
        board,
        array,
        words,
        board.access.sram_read,
        board.access.fram_write,
    )
}

/// Whether the value of an object is wanted behind a piece of code.
pub fn is_wanted<K: Knowledge>(k: &K, behind: Behind, object: u32) -> bool
    ensures { result ≡ wanted (K.known k.now) behind object }
{
    match behind {
        Behind::Before(op) => k.before(op, object),
        Behind::After(op) => k.after(op, object),
        Behind::BeforeEither(op, other) => k.before(op, object) || k.before(other, object),
    }
}

/// What restoring and saving an object costs in a piece of code.
fn moves<K: Knowledge>(k: &K, first: u32, behind: Behind, uses: &Use) -> u64
    ensures { result ≡ costs.moves (K.known k.now) ((K.known k.now).before first) (wanted (K.known k.now) behind) uses.now }
{
    let board = k.board();
    let words = k.words(uses.object);
    let array = k.is_array(uses.object);
    let restored = array || k.before(first, uses.object);
    let saved = 0 < uses.writes && is_wanted(k, behind, uses.object);
    let restores = if restored {
        restore_cost(&board, array, words)
    } else {
        0
    };
    let saves = if saved {
        save_cost(&board, array, words)
    } else {
        0
    };
    restores + saves
}

/// An object of a piece of code.
fn object_of<K: Knowledge>(k: &K, first: u32, behind: Behind, uses: &Use) -> LoopObject
    ensures { result ≡ costs.object_of (K.known k.now) ((K.known k.now).before first) (wanted (K.known k.now) behind) uses.now }
{
    let board = k.board();
    LoopObject {
        object: uses.object,
        words: k.words(uses.object),
        fram: fram_cost(&board, uses),
        sram: sram_cost(&board, uses),
        moves: moves(k, first, behind, uses),
    }
}

/// Whether an object is among some.
fn is_among(objects: &[u32], object: u32) -> bool
    ensures { result ≡ is_in objects.now object }
{
    objects.iter().any(|other| object == *other)
}

/// Puts an object behind the others.
fn put(objects: &mut Vec<LoopObject>, object: LoopObject) -> Result<(), Memory>
    ensures { OnOk result (objects.new.items ≡ objects.old.items ++ object ∷ []) }
{
    match objects.push(object) {
        Ok(()) => Ok(()),
        Err(_) => Err(Memory),
    }
}

/// What a piece of code costs beside its moves and its accesses, and in whose time.
#[derive(Clone, Copy, Debug, PartialEq, Eq)]
pub struct Frame {
    pub once: u64,
    pub each_turn: u64,
    pub first: u32,
    pub behind: Behind,
}

/// The weight of a piece of code, whose flat functions touch the barred objects.
pub fn weigh<K: Knowledge>(
    alloc: Global,
    k: &K,
    frame: Frame,
    barred: &[u32],
    weights: &Weights,
) -> Result<LoopWeight, Memory>
    ensures { IfOk result (λ w. IsWeightOf w (weighed (K.known k.now) frame.once frame.each_turn barred.now ((K.known k.now).before frame.first) (wanted (K.known k.now) frame.behind) (told_weights weights.now))) }
{
    let board = k.board();
    let mut base = sum(weights.base, frame.each_turn);
    let mut objects = Vec::new(alloc);
    let mut left = weights.uses.as_slice();
    while let [uses, behind @ ..] = left {
        if is_among(barred, uses.object) {
            base = sum(base, fram_cost(&board, uses));
        } else {
            let object = object_of(k, frame.first, frame.behind, uses);
            put(&mut objects, object)?;
        }
        left = behind;
    }
    Ok(LoopWeight {
        fixed: frame.once,
        base,
        objects,
    })
}
