//! What has been lowered so far: the items given, and the numbers of the next operation and temporary.
ghost use Rattle.std.specs.Prelude.{◌≡◌, ℕ, ◌+◌, ◌++◌, ◌∷◌, [], Some, None, IfOk};
ghost use Rattle.std.specs.Option.{option_copied};
ghost use Rattle.lowered_graphs.specs.Making as spec;
ghost use Rattle.c_lower.specs.Emitting.{Emits, Emitted};
ghost use Rattle.flow_graph.specs.declared.graph.Item.TheVariants as item;

use base_io::{Memory, Place};
use flow_graph::{ArrayUse, Item, LeaveTo, Op, OpKind, Operand};
use sqlite_items::Items;
use std::alloc::Global;
use std::marker::Model;

/// An operand that isn't used.
pub const ZERO: Operand = Operand::Const(0);

/// What has been lowered so far.
#[derive(Drop)]
pub struct Making {
    items: Items<Item>,
    op: u32,
    temp: u32,
    alloc: Global,
}

impl Model for Making {
    ghost use Rattle.c_lower.specs.Emitting.{Emitted};

    ghost Value = { Emitted };

    ghost use Rattle.c_lower.specs.Emitted.{emitted_of};

    ghost view = { emitted_of };

    ghost use Rattle.flow_graph.specs.contracts.graph.Item as graph_item;
    ghost use Rattle.std.specs.Coded.{codes};

    ghost coded = { Prim.hlevel (codes, graph_item.the_row.coded) };
}

impl Making {
    /// Nothing lowered, from these numbers on.
    pub fn new(alloc: Global, op: u32, temp: u32) -> Making
        ensures { result ≡ record { items = []; counts = record { op = op; temp = temp } } }
    {
        Making {
            items: Items::new(alloc),
            op,
            temp,
            alloc,
        }
    }

    /// The allocator of the items.
    pub fn alloc(&self) -> Global {
        self.alloc
    }

    /// The number of the next operation.
    pub fn next_number(&self) -> u32
        ensures { result ≡ self.now.counts.op }
    {
        self.op
    }

    /// The number of the next temporary.
    pub fn next_temporary(&self) -> u32
        ensures { result ≡ self.now.counts.temp }
    {
        self.temp
    }

    /// No items.
    pub fn none(&self) -> Items<Item>
        ensures { result ≡ [] }
    {
        Items::new(self.alloc)
    }

    /// Hands out the items.
    pub fn into_items(self) -> Items<Item>
        ensures { result ≡ self.items }
    {
        let Making {
            items,
            op: _,
            temp: _,
            alloc: _,
        } = self;
        items
    }

    /// The next number of an operation.
    fn next_op(&mut self) -> Result<u32, Memory>
        ensures { IfOk result (λ n. (n ≡ self.old.counts.op) × (self.new ≡ record { items = self.old.items; counts = record { op = n + 1; temp = self.old.counts.temp } })) }
    {
        let n = self.op;
        match n.checked_add(1) {
            Some(next) => {
                self.op = next;
                Ok(n)
            }
            None => Err(Memory),
        }
    }

    /// A new temporary.
    pub fn temporary(&mut self) -> Result<u32, Memory>
        ensures { IfOk result (λ t. Emits spec.temporary t self.old self.new) }
    {
        let t = self.temp;
        match t.checked_add(1) {
            Some(next) => {
                self.temp = next;
                Ok(t)
            }
            None => Err(Memory),
        }
    }

    /// An item stands behind those given.
    pub fn give(&mut self, item: Item) -> Result<(), Memory>
        ensures { IfOk result (λ u. Emits (spec.give item) tt self.old self.new) }
    {
        match self.items.push(item) {
            Ok(_) => Ok(()),
            Err(_) => Err(Memory),
        }
    }

    /// Takes the items given so far; those that follow stand within an item.
    pub fn take(&mut self) -> Items<Item>
        ensures items { result ≡ self.old.items }
        ensures none { self.new ≡ record { items = []; counts = self.old.counts } }
    {
        let empty = Items::new(self.alloc);
        std::mem::replace(&mut self.items, empty)
    }

    /// Puts the items back that were taken, and hands out those given since.
    pub fn put_back(&mut self, outer: Items<Item>) -> Items<Item>
        ensures items { result ≡ self.old.items }
        ensures outer { self.new ≡ record { items = outer; counts = self.old.counts } }
    {
        std::mem::replace(&mut self.items, outer)
    }
}

/// An operation with the next number.
pub fn numbered(
    kind: OpKind,
    dest: Option<u32>,
    a: Operand,
    b: Operand,
    array: Option<ArrayUse>,
    place: Place,
    to: &mut Making,
) -> Result<Op, Memory>
    ensures { IfOk result (λ op. Emits (spec.numbered (spec.op_of kind dest a b array place)) op to.old to.new) }
{
    let number = to.next_op()?;
    Ok(Op {
        number,
        kind,
        dest,
        a,
        b,
        array,
        place,
    })
}

/// An operation of its own.
pub fn one(
    kind: OpKind,
    dest: Option<u32>,
    a: Operand,
    b: Operand,
    array: Option<ArrayUse>,
    place: Place,
    to: &mut Making,
) -> Result<(), Memory>
    ensures { IfOk result (λ u. Emits (spec.one (spec.op_of kind dest a b array place)) tt to.old to.new) }
{
    let op = numbered(kind, dest, a, b, array, place, to)?;
    to.give(Item::One(op))
}

/// An operation that writes a new temporary.
pub fn make(
    kind: OpKind,
    a: Operand,
    b: Operand,
    array: Option<ArrayUse>,
    place: Place,
    to: &mut Making,
) -> Result<Operand, Memory>
    ensures { IfOk result (λ x. Emits (spec.make kind a b array place) x to.old to.new) }
{
    let t = to.temporary()?;
    one(kind, Some(t), a, b, array, place, to)?;
    Ok(Operand::Object(t))
}

/// A word goes into an object.
pub fn copy_into(object: u32, a: Operand, place: Place, to: &mut Making) -> Result<(), Memory>
    ensures { IfOk result (λ u. Emits (spec.copy_into object a place) tt to.old to.new) }
{
    one(OpKind::Copy, Some(object), a, ZERO, None, place, to)
}

/// A word goes into an element of an array.
pub fn store_into(
    array: ArrayUse,
    a: Operand,
    index: Operand,
    place: Place,
    to: &mut Making,
) -> Result<(), Memory>
    ensures { IfOk result (λ u. Emits (spec.store_into array a index place) tt to.old to.new) }
{
    one(OpKind::Store, None, a, index, Some(array), place, to)
}

/// A test of a word.
pub fn test(a: Operand, place: Place, to: &mut Making) -> Result<Op, Memory>
    ensures { IfOk result (λ op. Emits (spec.numbered (spec.test_of a place)) op to.old to.new) }
{
    numbered(OpKind::Test, None, a, ZERO, None, place, to)
}

/// The Go at the end of an arm.
pub fn go(place: Place, to: &mut Making) -> Result<(), Memory>
    ensures { IfOk result (λ u. Emits (spec.one (spec.go place)) tt to.old to.new) }
{
    one(OpKind::Go, None, ZERO, ZERO, None, place, to)
}

/// A leave: an operation that names nothing but perhaps a value.
pub fn leave(
    way: LeaveTo,
    kind: OpKind,
    a: Operand,
    place: Place,
    to: &mut Making,
) -> Result<(), Memory>
    ensures { IfOk result (λ u. Emits (spec.leave way (spec.plain kind a place)) tt to.old to.new) }
{
    let op = numbered(kind, None, a, ZERO, None, place, to)?;
    to.give(Item::Leave { op, to: way })
}
