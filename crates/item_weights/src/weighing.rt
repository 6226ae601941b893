//! The weight of items, added up.

ghost use Rattle.std.specs.Prelude.{◌≡◌, ◌+◌, ◌<◌, ◌≤◌, ◌^◌, ℕ, Option, IfOk, Some, None, length, slice_get, slice_index};
ghost use Rattle.flow_graph.specs.declared.graph.Item.{out-Item};
ghost use Rattle.item_weights.specs.Weights.{Weight, call, greater, items_weight, joined, no_weight, plus, times, turns, with_base, with_read, with_write};
ghost use Rattle.item_weights.specs.Tallies.{IsAdded, IsPart, IsTally, weight_of_parts};

use crate::lists::first_and_rest;
use crate::tally::{add_all, add_one, join_all, multiply_all, product, sum};
use base_io::Memory;
use flow_graph::{Item, Op};
use std::alloc::Global;

/// A base in energy units, and of each object below some number its reads and its writes.
#[derive(Drop)]
pub struct Tally {
    pub base: u64,
    pub reads: Vec<u64>,
    pub writes: Vec<u64>,
}

impl Tally {
    /// Adds to the base.
    pub fn add_base(&mut self, base: u64)
        ensures { (n : ℕ) (v : Weight) → IsTally n v self.old → IsTally n (with_base base v) self.new }
    {
        self.base = sum(self.base, base);
    }

    /// Adds a read of an object.
    pub fn add_read(&mut self, object: u32)
        ensures { (n : ℕ) (v : Weight) → IsTally n v self.old → IsTally n (with_read object v) self.new }
    {
        add_one(self.reads.as_mut_slice(), object);
    }

    /// Adds a write of an object.
    pub fn add_write(&mut self, object: u32)
        ensures { (n : ℕ) (v : Weight) → IsTally n v self.old → IsTally n (with_write object v) self.new }
    {
        add_one(self.writes.as_mut_slice(), object);
    }
}

/// What single operations weigh.
pub trait OwnWeights {
    ghost use Rattle.item_weights.specs.Weights.{Own};

    ghost own: { Self → Own };

    /// Adds what an operation weighs.
    fn add_to(&self, op: &Op, tally: &mut Tally)
        ensures { (n : ℕ) (v : Weight) → IsTally n v tally.old → IsTally n (plus v (own self.now op.now)) tally.new };
}

fn zeros(alloc: Global, count: u32) -> Result<Vec<u64>, Memory>
    ensures length { IfOk result (λ made. length made.items ≡ count) }
    ensures zero { IfOk result (λ made. (k : ℕ) → slice_index made.items k ≡ 0) }
{
    match vec![in alloc; 0u64; count as usize] {
        Ok(made) => Ok(made),
        Err(_) => Err(Memory),
    }
}

/// The tally of nothing.
fn empty(alloc: Global, objects: u32) -> Result<Tally, Memory>
    ensures { IfOk result (λ t. IsTally objects no_weight t) }
{
    let reads = zeros(alloc, objects)?;
    let writes = zeros(alloc, objects)?;
    Ok(Tally {
        base: 0,
        reads,
        writes,
    })
}

/// Adds another tally.
fn add(tally: &mut Tally, other: &Tally)
    ensures { (n : ℕ) (v w : Weight) → IsTally n v tally.old → IsTally n w other.now → IsTally n (plus v w) tally.new }
{
    tally.base = sum(tally.base, other.base);
    add_all(tally.reads.as_mut_slice(), other.reads.as_slice());
    add_all(tally.writes.as_mut_slice(), other.writes.as_slice());
}

/// Keeps the greater numbers of two tallies.
fn join(tally: &mut Tally, other: &Tally)
    ensures { (n : ℕ) (v w : Weight) → IsTally n v tally.old → IsTally n w other.now → IsTally n (greater v w) tally.new }
{
    tally.base = tally.base.max(other.base);
    join_all(tally.reads.as_mut_slice(), other.reads.as_slice());
    join_all(tally.writes.as_mut_slice(), other.writes.as_slice());
}

/// Takes a tally so many times.
fn multiply(tally: &mut Tally, count: u32)
    ensures { (n : ℕ) (v : Weight) → IsTally n v tally.old → IsTally n (times count v) tally.new }
{
    tally.base = product(u64::from(count), tally.base);
    multiply_all(tally.reads.as_mut_slice(), count);
    multiply_all(tally.writes.as_mut_slice(), count);
}

/// The tally of one operation.
fn own_tally<O: OwnWeights>(alloc: Global, own: &O, op: &Op, objects: u32) -> Result<Tally, Memory>
    ensures { IfOk result (λ t. IsTally objects (O.own own.now op.now) t) }
{
    let mut tally = empty(alloc, objects)?;
    own.add_to(op, &mut tally);
    Ok(tally)
}

/// The tally of a branch, from those of its test and its arms.
fn branch_tally(mut test: Tally, yes: Option<Tally>, no: Option<Tally>) -> Option<Tally>
    ensures { (n : ℕ) (w : Weight) (a b : Option Weight) → IsTally n w test → IsPart n a yes → IsPart n b no → IsPart n (joined plus (Some w) (joined greater a b)) result }
{
    match yes {
        None => None,
        Some(mut arm) => match no {
            None => None,
            Some(other) => {
                join(&mut arm, &other);
                add(&mut test, &arm);
                Some(test)
            }
        },
    }
}

/// The tally of one part behind another.
fn sum_tally(first: Option<Tally>, second: Option<Tally>) -> Option<Tally>
    ensures { (n : ℕ) (a b : Option Weight) → IsPart n a first → IsPart n b second → IsPart n (joined plus a b) result }
{
    match first {
        None => None,
        Some(mut tally) => match second {
            None => None,
            Some(other) => {
                add(&mut tally, &other);
                Some(tally)
            }
        },
    }
}

/// The tally of a loop, from those of its test and of one turn.
fn loop_tally(count: Option<u32>, test: Tally, turn: Option<Tally>) -> Option<Tally>
    ensures { (n : ℕ) (w : Weight) (a : Option Weight) → IsTally n w test → IsPart n a turn → IsPart n (turns count w a) result }
{
    match count {
        None => None,
        Some(count) => match turn {
            None => None,
            Some(mut tally) => {
                multiply(&mut tally, count.max(1));
                add(&mut tally, &test);
                Some(tally)
            }
        },
    }
}

/// The tally of a call, from that of its operation and the number of the function.
fn call_tally(mut tally: Tally, number: Option<Option<u64>>) -> Option<Tally>
    ensures { (n : ℕ) (w : Weight) → IsTally n w tally → IsPart n (call w number) result }
{
    match number {
        None => None,
        Some(None) => None,
        Some(Some(cost)) => {
            tally.base = sum(tally.base, cost);
            Some(tally)
        }
    }
}

/// The number of a function: none where it isn't flat, or isn't there.
pub fn number_in(flats: &[Option<u64>], function: u32) -> Option<Option<u64>>
    ensures { result ≡ slice_get flats.now function }
{
    flats.get(function as usize).copied()
}

/// The tally of an item.
#[cycle(weighing)]
fn item_tally<O: OwnWeights>(
    alloc: Global,
    own: &O,
    flats: &[Option<u64>],
    item: &Item,
    objects: u32,
) -> Result<Option<Tally>, Memory>
    ensures { IfOk result (λ t. IsPart objects (weight_of_parts (O.own own.now) flats.now (out-Item item.now)) t) }
{
    match item {
        Item::One(op) => {
            let tally = own_tally(alloc, own, op, objects)?;
            Ok(Some(tally))
        }
        Item::Branch { test, yes, no } => {
            let tally = own_tally(alloc, own, test, objects)?;
            let arm = items_tally(alloc, own, flats, yes.as_slice(), objects)?;
            let other = items_tally(alloc, own, flats, no.as_slice(), objects)?;
            Ok(branch_tally(tally, arm, other))
        }
        Item::Loop {
            pre,
            test,
            post,
            step,
            back,
            count,
        } => {
            let again = own_tally(alloc, own, test, objects)?;
            let tested = own_tally(alloc, own, test, objects)?;
            let gone = own_tally(alloc, own, back, objects)?;
            let before = items_tally(alloc, own, flats, pre.as_slice(), objects)?;
            let body = items_tally(alloc, own, flats, post.as_slice(), objects)?;
            let stepped = items_tally(alloc, own, flats, step.as_slice(), objects)?;
            let ending = sum_tally(stepped, Some(gone));
            let passed = sum_tally(Some(tested), sum_tally(body, ending));
            Ok(loop_tally(*count, again, sum_tally(before, passed)))
        }
        Item::Switch { items } => items_tally(alloc, own, flats, items.as_slice(), objects),
        Item::CallTo { op, function } => {
            let tally = own_tally(alloc, own, op, objects)?;
            Ok(call_tally(tally, number_in(flats, *function)))
        }
        Item::Leave { op: _, to: _ } => Ok(None),
    }
}

/// Adds what an item weighs to a tally, if it has a weight; else the tally is of no more use. An operation takes no tally of its own.
#[cycle(weighing)]
fn add_item<O: OwnWeights>(
    alloc: Global,
    own: &O,
    flats: &[Option<u64>],
    item: &Item,
    objects: u32,
    tally: &mut Tally,
) -> Result<bool, Memory>
    ensures { IfOk result (λ is_added. IsAdded objects (weight_of_parts (O.own own.now) flats.now (out-Item item.now)) is_added tally.old tally.new) }
{
    if let Item::One(op) = item {
        own.add_to(op, tally);
        return Ok(true);
    }
    match item_tally(alloc, own, flats, item, objects)? {
        None => Ok(false),
        Some(one) => {
            add(tally, &one);
            Ok(true)
        }
    }
}

/// The tally of items one behind another.
#[cycle(weighing)]
pub fn items_tally<O: OwnWeights>(
    alloc: Global,
    own: &O,
    flats: &[Option<u64>],
    items: &[Item],
    objects: u32,
) -> Result<Option<Tally>, Memory>
    ensures { IfOk result (λ t. IsPart objects (items_weight (O.own own.now) flats.now items.now) t) }
{
    let mut tally = empty(alloc, objects)?;
    let mut left = items;
    while let Some((item, rest)) = first_and_rest(left) {
        if !add_item(alloc, own, flats, item, objects, &mut tally)? {
            return Ok(None);
        }
        left = rest;
    }
    Ok(Some(tally))
}
