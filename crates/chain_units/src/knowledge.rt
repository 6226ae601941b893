//! What planning asks of the layers below.

ghost use Rattle.std.specs.Prelude.{◌≡◌, ◌≤◌, ◌^◌, ℕ, ◌∷◌, [], IfOk, IfSome, MatchOption, None, Some};
ghost use Rattle.flow_graph.specs.declared.graph.Item.TheVariants as item;
ghost use Rattle.flow_graph.specs.Nodes.{first_of, laid_items};
ghost use Rattle.chain_units.specs.Costs.{touched_in_all};
ghost use Rattle.chain_units.specs.Marks.{turn_of};
ghost use Rattle.chain_units.specs.Sums.{Rises};
ghost use Rattle.chain_units.specs.Known.{or_nothing, told_weights, Known, object_words};

use base_io::Memory;
use board_table::Board;
use flow_graph::{Item, Op};
use item_weights::Weights;
use std::alloc::Global;

/// A graph on a board, with what the layers below tell of it.
pub trait Knowledge {
    /// What is known.
    ghost known: { Self → Known };

    fn board(&self) -> Board
        ensures { result ≡ (known self.now).board };

    /// What waking and sleeping cost together.
    fn overhead(&self) -> u64
        ensures value { result ≡ (known self.now).overhead }
        ensures limit { result ≤ 2 ^ 40 };

    /// Whether an object is live before an operation.
    fn before(&self, op: u32, object: u32) -> bool
        ensures { result ≡ (known self.now).before op object };

    /// Whether an object is live after an operation.
    fn after(&self, op: u32, object: u32) -> bool
        ensures { result ≡ (known self.now).after op object };

    /// The words of an object.
    fn words(&self, object: u32) -> u16
        ensures { result ≡ object_words (known self.now).graph object };

    /// Whether an object is an array.
    fn is_array(&self, object: u32) -> bool
        ensures { result ≡ (known self.now).is_array object };

    /// Whether a function is flat.
    fn is_flat(&self, function: u32) -> bool
        ensures { result ≡ (known self.now).is_flat function };

    /// The weights of items, where they have any.
    fn weights(&self, alloc: Global, items: &[Item]) -> Result<Option<Weights>, Memory>
        ensures { IfOk result (λ found. MatchOption found ((known self.now).weights items.now ≡ None) (λ w. (known self.now).weights items.now ≡ Some (told_weights w))) };

    /// The weights of a turn of a loop without its last Go, where it has any.
    fn turn_weights(
        &self,
        alloc: Global,
        pre: &[Item],
        test: &Op,
        post: &[Item],
        step: &[Item],
    ) -> Result<Option<Weights>, Memory>
        ensures told { IfOk result (λ found. MatchOption found ((known self.now).weights (turn_of pre.now test.now post.now step.now) ≡ None) (λ w. (known self.now).weights (turn_of pre.now test.now post.now step.now) ≡ Some (told_weights w))) }
        ensures rises { IfOk result (λ found. IfSome found (λ w. Rises w.uses.items)) };

    /// The weights of an operation by itself.
    fn op_weights(&self, alloc: Global, op: &Op) -> Result<Weights, Memory>
        ensures { IfOk result (λ w. told_weights w ≡ or_nothing ((known self.now).weights (item.One op.now ∷ []))) };

    /// The objects that flat functions called in items touch.
    fn touched(&self, alloc: Global, items: &[Item]) -> Result<Vec<u32>, Memory>
        ensures { IfOk result (λ touched. touched.items ≡ touched_in_all (known self.now) items.now) };

    /// The operation that is executed first in items, or the one behind them.
    fn first_of(&self, items: &[Item], behind: u32) -> u32
        ensures { result ≡ first_of (laid_items items.now) behind };
}
