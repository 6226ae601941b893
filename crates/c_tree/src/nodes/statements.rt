//! How statements are left.
ghost use Rattle.std.specs.Prelude.{◌≤◌};
ghost use Rattle.std.specs.Option.{option_copied};
ghost use Rattle.c_tree.specs.Nodes as nodes;
ghost use Rattle.c_tree.specs.Arms.{acted_by, returned_by, if_by};
ghost use Rattle.c_tree.specs.declared.tree.StmtKind.{out-StmtKind};
ghost use Rattle.c_tree.specs.declared.tree.BlockItem.{out-BlockItem};
ghost use Rattle.c_tree.specs.Lines.{seen};
ghost use Rattle.c_tree.specs.Follows.{Does};

use crate::halt::Halt;
use crate::leaving::Leaving;
use crate::lists::first_and_rest;
use crate::nodes::actions::act;
use crate::nodes::declarations::declare_list;
use crate::nodes::expressions::{expr, value_or};
use crate::nodes::loops::{for_loop, turns};
use crate::nodes::switches::switch;
use crate::quiet::{begin, ends};
use crate::run::Run;
use crate::tree::{Action, BlockItem, Expr, Program, Stmt, StmtKind};
use base_io::Sink;
use c_values::is_set;
use sqlite_items::Boxed;

/// How a statement is left.
#[cycle(nodes)]
pub fn stmt<K: Sink>(p: &Program, s: &Stmt, run: &mut Run, sink: &mut K) -> Result<Leaving, Halt>
    ensures meets { Does p.now (λ d. d.stmt s.now) run.old (seen (K.taken sink.old) (K.faults sink.old)) result run.new (seen (K.taken sink.new) (K.faults sink.new)) }
    ensures fewer { run.new.left ≤ run.old.left }
{
    begin(run)?;
    stmt_node(p, s, run, sink)
}

/// The level of a statement.
#[cycle(nodes)]
fn stmt_node<K: Sink>(p: &Program, s: &Stmt, run: &mut Run, sink: &mut K) -> Result<Leaving, Halt>
    ensures meets { Does p.now (λ d. nodes.stmt_by p.now d s.now (out-StmtKind s.now.kind)) run.old (seen (K.taken sink.old) (K.faults sink.old)) result run.new (seen (K.taken sink.new) (K.faults sink.new)) }
    ensures fewer { run.new.left ≤ run.old.left }
{
    match &s.kind {
        StmtKind::Block(items) => block(p, items.as_slice(), run, sink),
        StmtKind::Empty => Ok(Leaving::Next),
        StmtKind::Act(action) => acted(p, action, run, sink),
        StmtKind::Break => Ok(Leaving::Broke),
        StmtKind::Continue => Ok(Leaving::Continued),
        StmtKind::Return(value) => {
            let value = value.as_ref();
            returned(p, value, run, sink)
        }
        StmtKind::If { test, yes, no } => {
            let yes = yes.get();
            if_arm(p, test, yes, no, run, sink)
        }
        StmtKind::While { test: _, body: _ } => turns(p, s, run, sink),
        StmtKind::Do { body: _, test: _ } => turns(p, s, run, sink),
        StmtKind::For {
            first,
            test: _,
            step: _,
            body: _,
        } => for_loop(p, s, first, run, sink),
        StmtKind::Switch { value, groups } => {
            let groups = groups.as_slice();
            switch(p, value, groups, run, sink)
        }
    }
}

/// An action as a statement.
#[cycle(nodes)]
fn acted<K: Sink>(
    p: &Program,
    action: &Action,
    run: &mut Run,
    sink: &mut K,
) -> Result<Leaving, Halt>
    ensures meets { Does p.now (λ d. acted_by p.now d action.now) run.old (seen (K.taken sink.old) (K.faults sink.old)) result run.new (seen (K.taken sink.new) (K.faults sink.new)) }
    ensures fewer { run.new.left ≤ run.old.left }
{
    act(p, action, run, sink)?;
    Ok(Leaving::Next)
}

/// A `return`, with its value where it has one.
#[cycle(nodes)]
fn returned<K: Sink>(
    p: &Program,
    value: Option<&Expr>,
    run: &mut Run,
    sink: &mut K,
) -> Result<Leaving, Halt>
    ensures meets { Does p.now (λ d. returned_by d (option_copied value.entry)) run.old (seen (K.taken sink.old) (K.faults sink.old)) result run.new (seen (K.taken sink.new) (K.faults sink.new)) }
    ensures fewer { run.new.left ≤ run.old.left }
{
    let word = value_or(p, value, 0, run, sink)?;
    Ok(Leaving::Returned(word))
}

/// The test of an `if`, and then an arm.
#[cycle(nodes)]
fn if_arm<K: Sink>(
    p: &Program,
    test: &Expr,
    yes: &Stmt,
    no: &Option<Boxed<Stmt>>,
    run: &mut Run,
    sink: &mut K,
) -> Result<Leaving, Halt>
    ensures meets { Does p.now (λ d. if_by d test.now yes.now no.now) run.old (seen (K.taken sink.old) (K.faults sink.old)) result run.new (seen (K.taken sink.new) (K.faults sink.new)) }
    ensures fewer { run.new.left ≤ run.old.left }
{
    let word = expr(p, test, run, sink)?;
    arm(p, yes, no, word, run, sink)
}

/// The arm that a word leads to.
#[cycle(nodes)]
fn arm<K: Sink>(
    p: &Program,
    yes: &Stmt,
    no: &Option<Boxed<Stmt>>,
    word: u16,
    run: &mut Run,
    sink: &mut K,
) -> Result<Leaving, Halt>
    ensures meets { Does p.now (λ d. nodes.arm_by d.stmt yes.now no.now word) run.old (seen (K.taken sink.old) (K.faults sink.old)) result run.new (seen (K.taken sink.new) (K.faults sink.new)) }
    ensures fewer { run.new.left ≤ run.old.left }
{
    if is_set(word) {
        stmt(p, yes, run, sink)
    } else {
        match no {
            Some(no) => stmt(p, no.get(), run, sink),
            None => Ok(Leaving::Next),
        }
    }
}

/// Items, up to the first that is left otherwise than to what follows.
#[cycle(nodes)]
pub fn block<K: Sink>(
    p: &Program,
    items: &[BlockItem],
    run: &mut Run,
    sink: &mut K,
) -> Result<Leaving, Halt>
    ensures meets { Does p.now (λ d. nodes.items_by p.now d.expr d.stmt items.now) run.old (seen (K.taken sink.old) (K.faults sink.old)) result run.new (seen (K.taken sink.new) (K.faults sink.new)) }
    ensures fewer { run.new.left ≤ run.old.left }
{
    let mut rest = items;
    while let Some((item, after)) = first_and_rest(rest) {
        let left = block_item(p, item, run, sink)?;
        if ends(left) {
            return Ok(left);
        }
        rest = after;
    }
    Ok(Leaving::Next)
}

/// A declaration or a statement.
#[cycle(nodes)]
fn block_item<K: Sink>(
    p: &Program,
    item: &BlockItem,
    run: &mut Run,
    sink: &mut K,
) -> Result<Leaving, Halt>
    ensures meets { Does p.now (λ d. nodes.item_by p.now d.expr d.stmt (out-BlockItem item.now)) run.old (seen (K.taken sink.old) (K.faults sink.old)) result run.new (seen (K.taken sink.new) (K.faults sink.new)) }
    ensures fewer { run.new.left ≤ run.old.left }
{
    match item {
        BlockItem::Declare(declared) => {
            declare_list(p, declared, run, sink)?;
            Ok(Leaving::Next)
        }
        BlockItem::Act(s) => stmt(p, s, run, sink),
    }
}
