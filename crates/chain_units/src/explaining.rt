//! A piece of code between two heads, explained: with what it begins, what it costs, and which objects are restored and saved in it.

ghost use Rattle.std.specs.Prelude.{◌≡◌, ◌++◌, ◌∷◌, [], ℕ, IfOk, OnOk, drop, filter, if◌then◌else◌, map, take};
ghost use Rattle.chain_units.specs.Explained.{IsExplained, is_restored, is_saved, writes_in};
ghost use Rattle.chain_units.specs.Known.{nothing, told_weights};
ghost use Rattle.chain_units.specs.Pieces.{first_in, pieces_behind, pieces_first, pieces_sum, pieces_touched};

use crate::knowledge::Knowledge;
use crate::pieces::{Piece, first_of, put_all};
use crate::sums::add;
use crate::weighing::{Behind, Frame, is_wanted, weigh};
use base_io::Memory;
use item_weights::{Use, Weights};
use loop_checkpoints::LoopWeight;
use std::alloc::Global;

/// A stretch of a plan: the operations executed first in its items, one for each item, from which on the operations of the
/// item are numbered one by one; its weight, where a plain stretch counts as one turn, with what each of its objects costs in
/// FRAM and in SRAM; and those of its homes in SRAM that are restored behind its head, and saved before its end.
#[derive(Debug, Drop)]
pub struct Explained {
    pub firsts: Vec<u32>,
    pub weight: LoopWeight,
    pub restored: Vec<u32>,
    pub saved: Vec<u32>,
}

/// How often an object is written.
fn writes_of(uses: &[Use], object: u32) -> u64
    ensures { result ≡ writes_in uses.now object }
{
    let mut left = uses;
    while let [one, behind @ ..] = left {
        if one.object == object {
            return one.writes;
        }
        left = behind;
    }
    0
}

/// Whether an object kept in SRAM is restored.
fn is_restored<K: Knowledge>(k: &K, first: u32, object: u32) -> bool
    ensures { result ≡ is_restored (K.known k.now) first object }
{
    k.is_array(object) || k.before(first, object)
}

/// Whether an object kept in SRAM is saved.
fn is_saved<K: Knowledge>(k: &K, behind: Behind, uses: &[Use], object: u32) -> bool
    ensures { result ≡ is_saved (K.known k.now) behind uses.now object }
{
    0 < writes_of(uses, object) && is_wanted(k, behind, object)
}

/// Puts an object behind the others, if it is to be there.
pub fn put_if(objects: &mut Vec<u32>, object: u32, yes: bool) -> Result<(), Memory>
    ensures { OnOk result (objects.new.items ≡ objects.old.items ++ (if yes then object ∷ [] else [])) }
{
    if !yes {
        return Ok(());
    }
    match objects.push(object) {
        Ok(()) => Ok(()),
        Err(_) => Err(Memory),
    }
}

/// Those of the homes that are restored.
fn restored_of<K: Knowledge>(
    alloc: Global,
    k: &K,
    first: u32,
    homes: &[u32],
) -> Result<Vec<u32>, Memory>
    ensures { IfOk result (λ made. made.items ≡ filter (is_restored (K.known k.now) first) homes.now) }
{
    let mut made = Vec::new(alloc);
    let mut left = homes;
    while let [object, behind @ ..] = left {
        put_if(&mut made, *object, is_restored(k, first, *object))?;
        left = behind;
    }
    Ok(made)
}

/// Those of the homes that are saved.
fn saved_of<K: Knowledge>(
    alloc: Global,
    k: &K,
    behind: Behind,
    uses: &[Use],
    homes: &[u32],
) -> Result<Vec<u32>, Memory>
    ensures { IfOk result (λ made. made.items ≡ filter (is_saved (K.known k.now) behind uses.now) homes.now) }
{
    let mut made = Vec::new(alloc);
    let mut left = homes;
    while let [object, others @ ..] = left {
        put_if(&mut made, *object, is_saved(k, behind, uses, *object))?;
        left = others;
    }
    Ok(made)
}

/// Explains a piece of code between two heads.
pub fn explain_code<K: Knowledge>(
    alloc: Global,
    k: &K,
    frame: Frame,
    firsts: Vec<u32>,
    touched: &[u32],
    weights: &Weights,
    homes: &[u32],
) -> Result<Explained, Memory>
    ensures { IfOk result (IsExplained (K.known k.now) frame.once frame.each_turn firsts.items touched.now frame.first frame.behind (told_weights weights.now) homes.now) }
{
    let weight = weigh(alloc, k, frame, touched, weights)?;
    let restored = restored_of(alloc, k, frame.first, homes)?;
    let saved = saved_of(alloc, k, frame.behind, weights.uses.as_slice(), homes)?;
    Ok(Explained {
        firsts,
        weight,
        restored,
        saved,
    })
}

/// The weights of pieces together.
fn sum_of(alloc: Global, pieces: &[Piece]) -> Result<Weights, Memory>
    ensures { IfOk result (λ sum. told_weights sum ≡ pieces_sum nothing pieces.now) }
{
    let mut sum = Weights {
        base: 0,
        uses: Vec::new(alloc),
    };
    let mut left = pieces;
    while let [piece, behind @ ..] = left {
        add(&mut sum, &piece.weights)?;
        left = behind;
    }
    Ok(sum)
}

/// The objects that flat functions called in pieces touch.
fn touched_of(alloc: Global, pieces: &[Piece]) -> Result<Vec<u32>, Memory>
    ensures { IfOk result (λ made. made.items ≡ pieces_touched pieces.now) }
{
    let mut made = Vec::new(alloc);
    let mut left = pieces;
    while let [piece, behind @ ..] = left {
        put_all(&mut made, &piece.touched)?;
        left = behind;
    }
    Ok(made)
}

/// The operation executed first in each piece.
fn firsts_of(alloc: Global, pieces: &[Piece]) -> Result<Vec<u32>, Memory>
    ensures { IfOk result (λ made. made.items ≡ map first_in pieces.now) }
{
    let mut made = Vec::new(alloc);
    let mut left = pieces;
    while let [piece, behind @ ..] = left {
        put_if(&mut made, piece.first, true)?;
        left = behind;
    }
    Ok(made)
}

/// Whose values are wanted behind the last of some pieces.
fn behind_of(pieces: &[Piece]) -> Behind
    ensures { result ≡ pieces_behind pieces.now }
{
    let mut found = Behind::Before(0);
    let mut left = pieces;
    while let [piece, behind @ ..] = left {
        found = piece.behind;
        left = behind;
    }
    found
}

/// So many pieces from a place on, as far as there are any.
pub fn part_of(pieces: &[Piece], first: u32, items: u32) -> &[Piece]
    ensures { result.now ≡ take items (drop first pieces.now) }
{
    let behind = &pieces[pieces.len().min(first as usize)..];
    &behind[..behind.len().min(items as usize)]
}

/// Explains pieces between two heads.
pub fn explain_pieces<K: Knowledge>(
    alloc: Global,
    k: &K,
    pieces: &[Piece],
    homes: &[u32],
) -> Result<Explained, Memory>
    ensures { IfOk result (IsExplained (K.known k.now) (K.known k.now).overhead 0 (map first_in pieces.now) (pieces_touched pieces.now) (pieces_first pieces.now) (pieces_behind pieces.now) (pieces_sum nothing pieces.now) homes.now) }
{
    let frame = Frame {
        once: k.overhead(),
        each_turn: 0,
        first: first_of(pieces),
        behind: behind_of(pieces),
    };
    let firsts = firsts_of(alloc, pieces)?;
    let touched = touched_of(alloc, pieces)?;
    let sum = sum_of(alloc, pieces)?;
    explain_code(alloc, k, frame, firsts, &touched, &sum, homes)
}
