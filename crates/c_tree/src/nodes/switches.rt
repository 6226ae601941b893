//! The groups of a `switch`.
ghost use Rattle.std.specs.Prelude.{◌≤◌};
ghost use Rattle.c_tree.specs.Nodes as nodes;
ghost use Rattle.c_tree.specs.Arms.{switch_on};
ghost use Rattle.c_tree.specs.Lines.{seen};
ghost use Rattle.c_tree.specs.Follows.{Does};

use crate::halt::Halt;
use crate::leaving::Leaving;
use crate::nodes::expressions::expr;
use crate::nodes::statements::block;
use crate::quiet::{chosen, left_switch};
use crate::run::Run;
use crate::tree::{BlockItem, Expr, Group, Program};
use base_io::Sink;

/// The value of a `switch`, and then the group that it leads to.
#[cycle(nodes)]
pub fn switch<K: Sink>(
    p: &Program,
    value: &Expr,
    groups: &[Group],
    run: &mut Run,
    sink: &mut K,
) -> Result<Leaving, Halt>
    ensures meets { Does p.now (λ d. switch_on p.now d value.now groups.now) run.old (seen (K.taken sink.old) (K.faults sink.old)) result run.new (seen (K.taken sink.new) (K.faults sink.new)) }
    ensures fewer { run.new.left ≤ run.old.left }
{
    let word = expr(p, value, run, sink)?;
    select(p, groups, word, run, sink)
}

/// The group that a word leads to, and those behind it.
#[cycle(nodes)]
fn select<K: Sink>(
    p: &Program,
    groups: &[Group],
    word: u16,
    run: &mut Run,
    sink: &mut K,
) -> Result<Leaving, Halt>
    ensures meets { Does p.now (λ d. nodes.switch_by p.now d groups.now word) run.old (seen (K.taken sink.old) (K.faults sink.old)) result run.new (seen (K.taken sink.new) (K.faults sink.new)) }
    ensures fewer { run.new.left ≤ run.old.left }
{
    let items = chosen(word, groups, run)?;
    switched(p, items, run, sink)
}

/// The items of a `switch` that is entered there.
#[cycle(nodes)]
fn switched<K: Sink>(
    p: &Program,
    items: &[BlockItem],
    run: &mut Run,
    sink: &mut K,
) -> Result<Leaving, Halt>
    ensures meets { Does p.now (λ d. nodes.switched_by p.now d items.now) run.old (seen (K.taken sink.old) (K.faults sink.old)) result run.new (seen (K.taken sink.new) (K.faults sink.new)) }
    ensures fewer { run.new.left ≤ run.old.left }
{
    let left = block(p, items, run, sink)?;
    Ok(left_switch(left))
}
