//! Parts of a run that put nothing and evaluate no node.
ghost use Rattle.std.specs.Prelude.{◌≡◌, ℕ, ◌<◌, ◌≤◌, List, [], ◌∷◌, replicate, slice_get, if◌then◌else◌, IfOk, MatchResult, OnOk, ◌++◌};
ghost use Rattle.std.specs.Option.{option_copied};
ghost use Rattle.std.specs.Result.{result_map_both};
ghost use Rattle.c_values.specs.Values.{is_set, binary_of};
ghost use Rattle.c_tree.specs.Runs as runs;
ghost use Rattle.c_tree.specs.Nodes as nodes;
ghost use Rattle.c_tree.specs.Follows.{Follows, Quietly};
ghost use Rattle.c_tree.specs.Lines.{Seen};

use crate::halt::Halt;
use crate::leaving::Leaving;
use crate::lists::first_and_rest;
use crate::run::Run;
use crate::tree::{BlockItem, Expr, Group, Label, Program};
use c_values::{BinaryOp, Ty, binary, converted, is_set};
use sqlite_items::{Boxed, Items};
use std::alloc::{AllocError, Global};

/// A step begins.
pub fn begin(run: &mut Run) -> Result<(), Halt>
    ensures meets { Quietly runs.begin run.old result run.new }
    ensures down { OnOk result (run.new.left < run.old.left) }
    ensures fewer { run.new.left ≤ run.old.left }
{
    run.begin()
}

/// The result of an operator, or its trap.
pub fn work(ty: Ty, by: Ty, op: BinaryOp, x: u16, y: u16, run: &mut Run) -> Result<u16, Halt>
    ensures meets { Quietly (runs.word_or_trap (binary_of ty by op x y)) run.old result run.new }
    ensures fewer { run.new ≡ run.old }
{
    match binary(ty, by, op, x, y) {
        Ok(word) => Ok(word),
        Err(trap) => Err(Halt::Trap(trap)),
    }
}

/// Reads an element.
pub fn read_at(array: u32, ty: Ty, index: u16, run: &mut Run) -> Result<u16, Halt>
    ensures meets { Quietly (runs.read_at array ty index) run.old result run.new }
    ensures fewer { run.new ≡ run.old }
{
    run.read_at(array, ty, index)
}

/// A word becomes that of a scalar or an element.
pub fn store(
    variable: u32,
    index: Option<&Expr>,
    i: u16,
    word: u16,
    run: &mut Run,
) -> Result<(), Halt>
    ensures meets { Quietly (nodes.store_by variable (option_copied index.entry) i word) run.old result run.new }
    ensures fewer { run.new.left ≤ run.old.left }
{
    match index {
        Some(index) => run.write_at(variable, index.ty, i, word),
        None => {
            run.write_place(variable, 0, word);
            Ok(())
        }
    }
}

/// The word of a scalar or an element.
pub fn load(variable: u32, index: Option<&Expr>, i: u16, run: &mut Run) -> Result<u16, Halt>
    ensures meets { Quietly (nodes.load_by variable (option_copied index.entry) i) run.old result run.new }
    ensures fewer { run.new.left ≤ run.old.left }
{
    match index {
        Some(index) => run.read_at(variable, index.ty, i),
        None => Ok(run.read(variable)),
    }
}

fn same_type(a: Ty, b: Ty) -> bool
    ensures { result ≡ nodes.same_type a b }
{
    match (a, b) {
        (Ty::I8, Ty::I8) | (Ty::U8, Ty::U8) | (Ty::I16, Ty::I16) | (Ty::U16, Ty::U16) => true,
        _ => false,
    }
}

fn conversion(to: Ty, from: Ty, run: &mut Run) -> Result<(), Halt>
    ensures meets { Quietly (nodes.conversion to from) run.old result run.new }
    ensures fewer { run.new.left ≤ run.old.left }
{
    if same_type(to, from) {
        Ok(())
    } else {
        begin(run)
    }
}

fn begin_operator(own: Ty, ty: Ty, run: &mut Run) -> Result<(), Halt>
    ensures meets { Quietly (nodes.begin_operator own ty) run.old result run.new }
    ensures fewer { run.new.left ≤ run.old.left }
{
    begin(run)?;
    conversion(ty, own, run)
}

fn begin_update(own: Ty, ty: Ty, run: &mut Run) -> Result<(), Halt>
    ensures meets { Quietly (nodes.begin_update own ty) run.old result run.new }
    ensures fewer { run.new.left ≤ run.old.left }
{
    conversion(own, ty, run)?;
    begin_operator(own, ty, run)
}

/// The nodes of an assignment with an operator are begun, and the value is read.
pub fn opened(
    own: Ty,
    ty: Ty,
    variable: u32,
    index: Option<&Expr>,
    i: u16,
    run: &mut Run,
) -> Result<u16, Halt>
    ensures meets { Quietly (nodes.opened own ty variable (option_copied index.entry) i) run.old result run.new }
    ensures fewer { run.new.left ≤ run.old.left }
{
    begin_update(own, ty, run)?;
    load(variable, index, i, run)
}

/// What comes behind the right side of an assignment with an operator.
pub fn finish(
    own: Ty,
    variable: u32,
    index: Option<&Expr>,
    op: BinaryOp,
    ty: Ty,
    by: Ty,
    i: u16,
    x: u16,
    y: u16,
    run: &mut Run,
) -> Result<(), Halt>
    ensures meets { Quietly (nodes.finish_by own variable (option_copied index.entry) op ty by i x y) run.old result run.new }
    ensures fewer { run.new.left ≤ run.old.left }
{
    let operand = converted(ty, own, x);
    let word = work(ty, by, op, operand, y, run)?;
    let kept = converted(own, ty, word);
    store(variable, index, i, kept, run)
}

/// Parameters take the arguments.
pub fn bind(params: &[u32], values: &[u16], run: &mut Run)
    ensures is { nodes.bind params.now values.now run.old ≡ runs.Done [] tt run.new }
    ensures steps { run.new.left ≡ run.old.left }
{
    let mut to = params;
    let mut from = values;
    while let Some((param, params)) = first_and_rest(to) {
        let Some((word, words)) = first_and_rest(from) else {
            return;
        };
        run.write_place(*param, 0, *word);
        to = params;
        from = words;
    }
}

/// The value of a call, by how the body is left.
pub fn come_back(left: Leaving, run: &mut Run) -> Result<u16, Halt>
    ensures meets { Quietly (nodes.come_back left) run.old result run.new }
    ensures fewer { run.new.left ≤ run.old.left }
{
    match left {
        Leaving::Returned(word) => Ok(word),
        _ => implied_return(run),
    }
}

fn implied_return(run: &mut Run) -> Result<u16, Halt>
    ensures meets { Quietly nodes.implied_return run.old result run.new }
    ensures fewer { run.new.left ≤ run.old.left }
{
    begin(run)?;
    Ok(0)
}

/// This many steps begin.
pub fn begin_each(count: u16, run: &mut Run) -> Result<(), Halt>
    ensures meets { Quietly (runs.begin_each count) run.old result run.new }
    ensures fewer { run.new.left ≤ run.old.left }
{
    let mut rest = count;
    while rest > 0 {
        begin(run)?;
        rest -= 1;
    }
    Ok(())
}

/// Each label is a step.
fn begin_labels(labels: &[Label], run: &mut Run) -> Result<(), Halt>
    ensures meets { Quietly (nodes.begin_labels labels.now) run.old result run.new }
    ensures fewer { run.new.left ≤ run.old.left }
{
    let mut rest = labels;
    while let Some((_, after)) = first_and_rest(rest) {
        begin(run)?;
        rest = after;
    }
    Ok(())
}

fn has_default(labels: &[Label]) -> bool
    ensures { result ≡ nodes.has_default labels.now }
{
    let mut rest = labels;
    while let Some((label, after)) = first_and_rest(rest) {
        if label.value.is_none() {
            return true;
        }
        rest = after;
    }
    false
}

fn is_label(word: u16, value: Option<u32>) -> bool
    ensures { result ≡ nodes.is_label word value }
{
    match value {
        Some(value) => word as u32 == value,
        None => false,
    }
}

fn has_label(word: u16, labels: &[Label]) -> bool
    ensures { result ≡ nodes.has_label word labels.now }
{
    let mut rest = labels;
    while let Some((label, after)) = first_and_rest(rest) {
        if is_label(word, label.value) {
            return true;
        }
        rest = after;
    }
    false
}

/// The expression in a box, where there is one.
pub fn unboxed(index: &Option<Boxed<Expr>>) -> Option<&Expr>
    ensures { option_copied result ≡ index.now }
{
    match index {
        Some(index) => Some(index.get()),
        None => None,
    }
}

/// The type of a variable.
pub fn type_of(p: &Program, variable: u32) -> Ty
    ensures { result ≡ nodes.type_of p.now variable }
{
    match p.variables.get(variable as usize) {
        Some(variable) => variable.ty,
        None => Ty::U16,
    }
}

/// The type of a right side, which is that of the operator where there is none.
pub fn amount_type(ty: Ty, by: Option<&Expr>) -> Ty
    ensures { result ≡ nodes.amount_type ty (option_copied by.entry) }
{
    match by {
        Some(by) => by.ty,
        None => ty,
    }
}

/// The first operand decides.
pub fn decides(op: BinaryOp, x: u16) -> bool
    ensures { result ≡ nodes.decides op x }
{
    match op {
        BinaryOp::And => !is_set(x),
        BinaryOp::Or => is_set(x),
        _ => false,
    }
}

/// A statement is left otherwise than to what follows it.
pub fn ends(left: Leaving) -> bool
    ensures { result ≡ nodes.ends left }
{
    match left {
        Leaving::Next => false,
        Leaving::Broke | Leaving::Continued | Leaving::Returned(_) => true,
    }
}

/// Another turn follows a body that was left so.
pub fn goes_on(left: Leaving) -> bool
    ensures { result ≡ nodes.goes_on left }
{
    match left {
        Leaving::Next | Leaving::Continued => true,
        Leaving::Broke | Leaving::Returned(_) => false,
    }
}

/// How a loop is left.
pub fn left_loop(left: Leaving) -> Leaving
    ensures { result ≡ nodes.left_loop left }
{
    match left {
        Leaving::Returned(word) => Leaving::Returned(word),
        _ => Leaving::Next,
    }
}

/// How a `switch` is left.
pub fn left_switch(left: Leaving) -> Leaving
    ensures { result ≡ nodes.left_switch left }
{
    match left {
        Leaving::Broke => Leaving::Next,
        left => left,
    }
}

/// Another turn where the test at the end is passed.
pub fn again(word: u16) -> Option<Leaving>
    ensures { result ≡ nodes.again word }
{
    if is_set(word) {
        None
    } else {
        Some(Leaving::Next)
    }
}

/// A word becomes that of a scalar.
pub fn write(variable: u32, word: u16, run: &mut Run) -> Result<(), Halt>
    ensures meets { Quietly (runs.write variable word) run.old result run.new }
    ensures fewer { run.new.left ≤ run.old.left }
{
    run.write_place(variable, 0, word);
    Ok(())
}

/// An array becomes zeros, each a step.
pub fn open_array(variable: u32, length: u16, run: &mut Run) -> Result<(), Halt>
    ensures meets { Quietly (nodes.open_array variable length) run.old result run.new }
    ensures fewer { run.new.left ≤ run.old.left }
{
    let Ok(zeros) = zeros(run.alloc(), length) else {
        return Err(Halt::Memory);
    };
    run.set_words(variable, zeros);
    begin_each(length, run)
}

fn zeros(alloc: Global, count: u16) -> Result<Items<u16>, AllocError>
    ensures { IfOk result (λ words. words ≡ replicate count 0) }
{
    let mut zeros = Vec::new(alloc);
    zeros.resize(count as usize, 0)?;
    Ok(Items::from_vec(zeros))
}

fn default_items<'a>(groups: &'a [Group]) -> &'a [BlockItem]
    ensures { result.now ≡ nodes.default_items groups.now }
{
    let mut rest = groups;
    while let Some((group, after)) = first_and_rest(rest) {
        if has_default(group.labels.as_slice()) {
            return group.items.as_slice();
        }
        rest = after;
    }
    &[]
}

fn is_chosen(word: u16, labels: &[Label], run: &mut Run) -> Result<bool, Halt>
    ensures meets { Quietly (nodes.is_chosen word labels.now) run.old result run.new }
    ensures fewer { run.new.left ≤ run.old.left }
{
    if has_default(labels) {
        Ok(false)
    } else {
        tested(word, labels, run)
    }
}

fn tested(word: u16, labels: &[Label], run: &mut Run) -> Result<bool, Halt>
    ensures meets { Quietly (nodes.tested word labels.now) run.old result run.new }
    ensures fewer { run.new.left ≤ run.old.left }
{
    begin_labels(labels, run)?;
    Ok(has_label(word, labels))
}

/// The items that a word leads to.
pub fn chosen<'a>(word: u16, groups: &'a [Group], run: &mut Run) -> Result<&'a [BlockItem], Halt>
    ensures meets { (a : Seen) → Follows (nodes.chosen word (nodes.default_items groups.now) groups.now run.old) run.old a (result_map_both (λ r. r.now) (λ h. h) result) run.new a }
    ensures fewer { run.new.left ≤ run.old.left }
{
    let mut rest = groups;
    while let Some((group, after)) = first_and_rest(rest) {
        let found = is_chosen(word, group.labels.as_slice(), run)?;
        if found {
            return Ok(group.items.as_slice());
        }
        rest = after;
    }
    Ok(default_items(groups))
}

/// A word goes behind the others.
pub fn push(values: &mut Vec<u16>, word: u16) -> Result<(), Halt>
    ensures { MatchResult result (λ _. values.new.items ≡ values.old.items ++ word ∷ []) (λ h. h ≡ Halt.Memory) }
{
    match values.push(word) {
        Ok(_) => Ok(()),
        Err(_) => Err(Halt::Memory),
    }
}
