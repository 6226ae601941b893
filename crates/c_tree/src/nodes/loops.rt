//! Loops and their turns.
ghost use Rattle.std.specs.Prelude.{◌≤◌};
ghost use Rattle.std.specs.Option.{option_copied};
ghost use Rattle.c_tree.specs.Nodes as nodes;
ghost use Rattle.c_tree.specs.Arms.{for_by};
ghost use Rattle.c_tree.specs.declared.tree.StmtKind.{out-StmtKind};
ghost use Rattle.c_tree.specs.Lines.{seen};
ghost use Rattle.c_tree.specs.Follows.{Does};

use crate::halt::Halt;
use crate::leaving::Leaving;
use crate::nodes::actions::{act, act_opt};
use crate::nodes::declarations::declare_list;
use crate::nodes::expressions::{expr, value_or};
use crate::nodes::statements::stmt;
use crate::quiet::{again, begin, goes_on, left_loop};
use crate::run::Run;
use crate::tree::{Action, Expr, ForFirst, Program, Stmt, StmtKind};
use base_io::Sink;
use c_values::is_set;

/// What a `for` does first, and then its turns.
#[cycle(nodes)]
pub fn for_loop<K: Sink>(
    p: &Program,
    s: &Stmt,
    first: &Option<ForFirst>,
    run: &mut Run,
    sink: &mut K,
) -> Result<Leaving, Halt>
    ensures meets { Does p.now (λ d. for_by p.now d s.now first.now) run.old (seen (K.taken sink.old) (K.faults sink.old)) result run.new (seen (K.taken sink.new) (K.faults sink.new)) }
    ensures fewer { run.new.left ≤ run.old.left }
{
    for_first(p, first, run, sink)?;
    turns(p, s, run, sink)
}

/// What a `for` does first.
#[cycle(nodes)]
fn for_first<K: Sink>(
    p: &Program,
    first: &Option<ForFirst>,
    run: &mut Run,
    sink: &mut K,
) -> Result<(), Halt>
    ensures meets { Does p.now (λ d. nodes.first_by p.now d.expr first.now) run.old (seen (K.taken sink.old) (K.faults sink.old)) result run.new (seen (K.taken sink.new) (K.faults sink.new)) }
    ensures fewer { run.new.left ≤ run.old.left }
{
    match first {
        None => Ok(()),
        Some(ForFirst::Declare(declared)) => declare_list(p, declared, run, sink),
        Some(ForFirst::Act(a)) => act(p, a, run, sink),
    }
}

/// The turns of a loop.
#[cycle(nodes)]
pub fn turns<K: Sink>(p: &Program, s: &Stmt, run: &mut Run, sink: &mut K) -> Result<Leaving, Halt>
    ensures meets { Does p.now (λ d. d.turns s.now) run.old (seen (K.taken sink.old) (K.faults sink.old)) result run.new (seen (K.taken sink.new) (K.faults sink.new)) }
    ensures fewer { run.new.left ≤ run.old.left }
{
    loop {
        begin(run)?;
        let turned = turn(p, s, run, sink)?;
        if let Some(left) = turned {
            return Ok(left);
        }
    }
}

/// One turn of a loop: how the loop is left, or nothing where another follows.
#[cycle(nodes)]
fn turn<K: Sink>(
    p: &Program,
    s: &Stmt,
    run: &mut Run,
    sink: &mut K,
) -> Result<Option<Leaving>, Halt>
    ensures meets { Does p.now (λ d. nodes.turn_by p.now d (out-StmtKind s.now.kind)) run.old (seen (K.taken sink.old) (K.faults sink.old)) result run.new (seen (K.taken sink.new) (K.faults sink.new)) }
    ensures fewer { run.new.left ≤ run.old.left }
{
    match &s.kind {
        StmtKind::While { test, body } => {
            let body = body.get();
            let word = expr(p, test, run, sink)?;
            loop_body(p, body, None, word, run, sink)
        }
        StmtKind::Do { body, test } => {
            let body = body.get();
            let left = stmt(p, body, run, sink)?;
            do_test(p, test, left, run, sink)
        }
        StmtKind::For {
            first: _,
            test,
            step,
            body,
        } => {
            let body = body.get();
            let test = test.as_ref();
            let step = step.as_ref();
            let word = value_or(p, test, 1, run, sink)?;
            loop_body(p, body, step, word, run, sink)
        }
        _ => Ok(Some(Leaving::Next)),
    }
}

/// The body and the step, where the test gave a word that is true.
#[cycle(nodes)]
fn loop_body<K: Sink>(
    p: &Program,
    body: &Stmt,
    step: Option<&Action>,
    word: u16,
    run: &mut Run,
    sink: &mut K,
) -> Result<Option<Leaving>, Halt>
    ensures meets { Does p.now (λ d. nodes.body_by p.now d body.now (option_copied step.entry) word) run.old (seen (K.taken sink.old) (K.faults sink.old)) result run.new (seen (K.taken sink.new) (K.faults sink.new)) }
    ensures fewer { run.new.left ≤ run.old.left }
{
    if is_set(word) {
        full_turn(p, body, step, run, sink)
    } else {
        Ok(Some(Leaving::Next))
    }
}

/// The body and the step.
#[cycle(nodes)]
fn full_turn<K: Sink>(
    p: &Program,
    body: &Stmt,
    step: Option<&Action>,
    run: &mut Run,
    sink: &mut K,
) -> Result<Option<Leaving>, Halt>
    ensures meets { Does p.now (λ d. nodes.full_turn p.now d body.now (option_copied step.entry)) run.old (seen (K.taken sink.old) (K.faults sink.old)) result run.new (seen (K.taken sink.new) (K.faults sink.new)) }
    ensures fewer { run.new.left ≤ run.old.left }
{
    let left = stmt(p, body, run, sink)?;
    stepped(p, step, left, run, sink)
}

/// The step, where the body was left to it.
#[cycle(nodes)]
fn stepped<K: Sink>(
    p: &Program,
    step: Option<&Action>,
    left: Leaving,
    run: &mut Run,
    sink: &mut K,
) -> Result<Option<Leaving>, Halt>
    ensures meets { Does p.now (λ d. nodes.stepped_by p.now d (option_copied step.entry) left) run.old (seen (K.taken sink.old) (K.faults sink.old)) result run.new (seen (K.taken sink.new) (K.faults sink.new)) }
    ensures fewer { run.new.left ≤ run.old.left }
{
    if goes_on(left) {
        step_on(p, step, run, sink)
    } else {
        Ok(Some(left_loop(left)))
    }
}

/// The step, and then another turn.
#[cycle(nodes)]
fn step_on<K: Sink>(
    p: &Program,
    step: Option<&Action>,
    run: &mut Run,
    sink: &mut K,
) -> Result<Option<Leaving>, Halt>
    ensures meets { Does p.now (λ d. nodes.step_on p.now d (option_copied step.entry)) run.old (seen (K.taken sink.old) (K.faults sink.old)) result run.new (seen (K.taken sink.new) (K.faults sink.new)) }
    ensures fewer { run.new.left ≤ run.old.left }
{
    act_opt(p, step, run, sink)?;
    Ok(None)
}

/// The test at the end, where the body was left to it.
#[cycle(nodes)]
fn do_test<K: Sink>(
    p: &Program,
    test: &Expr,
    left: Leaving,
    run: &mut Run,
    sink: &mut K,
) -> Result<Option<Leaving>, Halt>
    ensures meets { Does p.now (λ d. nodes.do_by d test.now left) run.old (seen (K.taken sink.old) (K.faults sink.old)) result run.new (seen (K.taken sink.new) (K.faults sink.new)) }
    ensures fewer { run.new.left ≤ run.old.left }
{
    if goes_on(left) {
        last_test(p, test, run, sink)
    } else {
        Ok(Some(left_loop(left)))
    }
}

/// The test at the end.
#[cycle(nodes)]
fn last_test<K: Sink>(
    p: &Program,
    test: &Expr,
    run: &mut Run,
    sink: &mut K,
) -> Result<Option<Leaving>, Halt>
    ensures meets { Does p.now (λ d. nodes.last_test d test.now) run.old (seen (K.taken sink.old) (K.faults sink.old)) result run.new (seen (K.taken sink.new) (K.faults sink.new)) }
    ensures fewer { run.new.left ≤ run.old.left }
{
    let word = expr(p, test, run, sink)?;
    Ok(again(word))
}
