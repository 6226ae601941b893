//! Units that join the chain that is open: flat items, and operations that end a chain.

ghost use Rattle.std.specs.Prelude.{◌≡◌, ◌∷◌, [], IfOk, OnOk, if◌then◌else◌};
ghost use Rattle.flow_graph.specs.declared.graph.Item.TheVariants as variants;
ghost use Rattle.flow_graph.specs.declared.nodes.Node.{Node};
ghost use Rattle.flow_graph.specs.Nodes.{call_node};
ghost use Rattle.chain_units.specs.Known.{nothing, or_nothing, told_weights};
ghost use Rattle.chain_units.specs.Marks.{End, Flat, Joins, ends, one_marks};
ghost use Rattle.chain_units.specs.Pieces.{IsPieceOf};
ghost use Rattle.chain_units.specs.Placements.{Places};

use crate::cutting::{Placer, close, join};
use crate::knowledge::Knowledge;
use crate::pieces::Piece;
use crate::weighing::Behind;
use base_io::Memory;
use flow_graph::{Item, Op, OpKind};
use item_weights::Weights;
use std::alloc::Global;

fn no_weights(alloc: Global) -> Weights
    ensures { told_weights result ≡ nothing }
{
    Weights {
        base: 0,
        uses: Vec::new(alloc),
    }
}

/// The weights of items, nothing where they have none.
fn weights_of<K: Knowledge>(alloc: Global, k: &K, items: &[Item]) -> Result<Weights, Memory>
    ensures { IfOk result (λ w. told_weights w ≡ or_nothing ((K.known k.now).weights items.now)) }
{
    let found = k.weights(alloc, items)?;
    match found {
        Some(weights) => Ok(weights),
        None => Ok(no_weights(alloc)),
    }
}

/// The piece of flat items, behind which one operation is executed.
fn flat_piece<K: Knowledge>(
    alloc: Global,
    k: &K,
    items: &[Item],
    next: u32,
) -> Result<Piece, Memory>
    ensures { IfOk result (IsPieceOf (K.known k.now) (Flat items.now next)) }
{
    let touched = k.touched(alloc, items)?;
    let weights = weights_of(alloc, k, items)?;
    Ok(Piece {
        first: k.first_of(items, next),
        behind: Behind::Before(next),
        touched,
        weights,
    })
}

/// The piece of an operation that ends a chain.
fn end_piece<K: Knowledge>(alloc: Global, k: &K, op: &Op) -> Result<Piece, Memory>
    ensures { IfOk result (λ p. (x : Node) → x.op ≡ op.now → IsPieceOf (K.known k.now) (End x) p) }
{
    let weights = k.op_weights(alloc, op)?;
    Ok(Piece {
        first: op.number,
        behind: Behind::After(op.number),
        touched: Vec::new(alloc),
        weights,
    })
}

/// Flat items join the chain that is open.
pub fn join_flat<K: Knowledge>(
    alloc: Global,
    k: &K,
    items: &[Item],
    next: u32,
    placer: &mut Placer,
) -> Result<(), Memory>
    ensures { OnOk result (Places (K.known k.now) (Joins (Flat items.now next) ∷ []) placer.old placer.new) }
{
    let piece = flat_piece(alloc, k, items, next)?;
    join(alloc, placer, piece)
}

/// An operation joins the chain that is open, and ends it.
pub fn join_end<K: Knowledge>(
    alloc: Global,
    k: &K,
    op: &Op,
    placer: &mut Placer,
) -> Result<(), Memory>
    ensures { OnOk result ((x : Node) → x.op ≡ op.now → Places (K.known k.now) (ends x) placer.old placer.new) }
{
    let piece = end_piece(alloc, k, op)?;
    join(alloc, placer, piece)?;
    close(alloc, placer)
}

/// An operation by itself: a Go, a Ret or a Finish ends the chain, and any other joins it.
pub fn place_one<K: Knowledge>(
    alloc: Global,
    k: &K,
    one: &[Item],
    op: &Op,
    behind: u32,
    placer: &mut Placer,
) -> Result<(), Memory>
    requires { one.now ≡ variants.One op.now ∷ [] }
    ensures { OnOk result (Places (K.known k.now) (one_marks op.now op.now.kind behind) placer.old placer.new) }
{
    match op.kind {
        OpKind::Go | OpKind::Ret | OpKind::Finish => join_end(alloc, k, op, placer),
        _ => join_flat(alloc, k, one, behind, placer),
    }
}

/// A call: of a flat function it joins the chain, of a split one it ends it.
pub fn place_call<K: Knowledge>(
    alloc: Global,
    k: &K,
    one: &[Item],
    op: &Op,
    function: u32,
    behind: u32,
    placer: &mut Placer,
) -> Result<(), Memory>
    requires { one.now ≡ variants.CallTo op.now function ∷ [] }
    ensures { OnOk result (Places (K.known k.now) (if (K.known k.now).is_flat function then Joins (Flat (variants.CallTo op.now function ∷ []) behind) ∷ [] else ends (call_node op.now function behind)) placer.old placer.new) }
{
    if k.is_flat(function) {
        join_flat(alloc, k, one, behind, placer)
    } else {
        join_end(alloc, k, op, placer)
    }
}
