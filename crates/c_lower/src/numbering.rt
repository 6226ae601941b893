//! The numbers of objects.
ghost use Rattle.std.specs.Prelude.{◌≡◌, ℕ, suc, ◌+◌, ◌++◌, ◌∷◌, [], false, if◌then◌else◌, IfOk, replicate, length, slice_get, slice_index_or, slice_set, take};
ghost use Rattle.std.specs.Option.{option_copied};
ghost use Rattle.c_tree.specs.Meaning.{first_words};
ghost use Rattle.lowered_graphs.specs.GraphOf as spec;
ghost use Rattle.lowered_graphs.specs.Stmts.{Within, lowered_stmt};
ghost use Rattle.lowered_graphs.specs.Exprs.{length_or};
ghost use Rattle.c_lower.specs.Beginning.{filled};

use crate::bodies::temporaries;
use crate::lists::first_and_rest;
use crate::locals::{put_locals, put_number};
use crate::reached::{is_marked, next};
use base_io::Memory;
use c_tree::{Function, Program, Variable};
use c_values::Ty;
use flow_graph::Object;
use lowered_graphs::Numbering;
use sqlite_items::Items;
use std::alloc::Global;

fn put_word(words: &mut Items<u16>, word: u16) -> Result<(), Memory>
    ensures { IfOk result (λ u. words.new ≡ words.old ++ word ∷ []) }
{
    match words.push(word) {
        Ok(_) => Ok(()),
        Err(_) => Err(Memory),
    }
}

/// The first word, or zero where there is none, and those behind it.
fn word_and_rest<'a>(words: &'a [u16]) -> (u16, &'a [u16])
    ensures { (n : ℕ) → filled (suc n) words.now ≡ result.0 ∷ filled n result.1.now }
{
    match first_and_rest(words) {
        None => (0, words),
        Some((word, rest)) => (*word, rest),
    }
}

/// The words, and then zeros, as many as there are elements.
fn filled(alloc: Global, length: u16, words: &[u16]) -> Result<Items<u16>, Memory>
    ensures { IfOk result (λ made. made ≡ filled length words.now) }
{
    let mut made = Items::new(alloc);
    let mut left = words;
    let mut missing = length;
    while missing > 0 {
        let (word, rest) = word_and_rest(left);
        put_word(&mut made, word)?;
        left = rest;
        missing -= 1;
    }
    Ok(made)
}

/// The words with which a global begins.
fn first_words(alloc: Global, v: &Variable) -> Result<Items<u16>, Memory>
    ensures { IfOk result (λ made. made ≡ first_words v.now) }
{
    let made = filled(alloc, length_of(v), v.first.as_slice())?;
    Ok(made)
}

fn length_of(v: &Variable) -> u16
    ensures { result ≡ length_or v.now.length }
{
    match v.length {
        None => 1,
        Some(length) => length,
    }
}

/// How many objects there are.
pub fn count_of(m: &Numbering) -> Result<u32, Memory>
    ensures { IfOk result (λ n. n ≡ length m.now.objects) }
{
    match u32::try_from(m.objects.len()) {
        Ok(count) => Ok(count),
        Err(_) => Err(Memory),
    }
}

fn put_object(objects: &mut Items<Object>, object: Object) -> Result<(), Memory>
    ensures { IfOk result (λ u. objects.new ≡ objects.old ++ object ∷ []) }
{
    match objects.push(object) {
        Ok(_) => Ok(()),
        Err(_) => Err(Memory),
    }
}

fn set_number(numbers: &mut Items<u32>, at: u32, number: u32)
    ensures { numbers.new ≡ slice_set numbers.old at number }
{
    if (at as usize) < numbers.len() {
        numbers.set(at as usize, number);
    }
}

fn add_variable(x: u32, object: Object, m: &mut Numbering) -> Result<(), Memory>
    ensures { IfOk result (λ u. m.new ≡ spec.add_variable x object m.old) }
{
    let at = count_of(m)?;
    put_object(&mut m.objects, object)?;
    set_number(&mut m.variables, x, at);
    Ok(())
}

fn scalar(alloc: Global) -> Object
    ensures { result ≡ spec.scalar }
{
    Object {
        words: 1,
        first: Items::new(alloc),
    }
}

fn add_result(alloc: Global, f: u32, m: &mut Numbering) -> Result<(), Memory>
    ensures { IfOk result (λ u. m.new ≡ spec.add_result f m.old) }
{
    let at = count_of(m)?;
    put_object(&mut m.objects, scalar(alloc))?;
    set_number(&mut m.results, f, at);
    Ok(())
}

/// Scalars, as many as are said.
fn add_scalars(alloc: Global, count: u32, objects: &mut Items<Object>) -> Result<(), Memory>
    ensures { IfOk result (λ u. objects.new ≡ objects.old ++ replicate count spec.scalar) }
{
    let mut missing = count;
    while missing > 0 {
        put_object(objects, scalar(alloc))?;
        missing -= 1;
    }
    Ok(())
}

pub fn add_temporaries(alloc: Global, count: u32, m: &mut Numbering) -> Result<(), Memory>
    ensures { IfOk result (λ u. m.new ≡ spec.add_temporaries count m.old) }
{
    add_scalars(alloc, count, &mut m.objects)
}

fn global_object(alloc: Global, v: &Variable) -> Result<Object, Memory>
    ensures { IfOk result (λ o. o ≡ spec.object_of v.now (first_words v.now)) }
{
    let first = first_words(alloc, v)?;
    Ok(Object {
        words: length_of(v),
        first,
    })
}

fn add_global(alloc: Global, x: u32, v: &Variable, m: &mut Numbering) -> Result<(), Memory>
    ensures { IfOk result (λ u. m.new ≡ spec.add_global x v.now m.old) }
{
    if v.global {
        let object = global_object(alloc, v)?;
        add_variable(x, object, m)
    } else {
        Ok(())
    }
}

fn add_globals(alloc: Global, variables: &[Variable], m: &mut Numbering) -> Result<(), Memory>
    ensures { IfOk result (λ u. m.new ≡ spec.add_globals 0 variables.now m.old) }
{
    let mut left = variables;
    let mut x: u32 = 0;
    while let Some((v, rest)) = first_and_rest(left) {
        add_global(alloc, x, v, m)?;
        x = next(x)?;
        left = rest;
    }
    Ok(())
}

fn add_local(alloc: Global, p: &Program, x: u32, m: &mut Numbering) -> Result<(), Memory>
    ensures { IfOk result (λ u. m.new ≡ spec.add_local x (slice_get p.now.variables x) m.old) }
{
    match p.variables.as_slice().get(x as usize) {
        None => Ok(()),
        Some(v) => {
            let object = Object {
                words: length_of(v),
                first: Items::new(alloc),
            };
            add_variable(x, object, m)
        }
    }
}

fn add_locals(alloc: Global, p: &Program, xs: &[u32], m: &mut Numbering) -> Result<(), Memory>
    ensures { IfOk result (λ u. m.new ≡ spec.add_locals p.now xs.now m.old) }
{
    let mut left = xs;
    while let Some((x, rest)) = first_and_rest(left) {
        add_local(alloc, p, *x, m)?;
        left = rest;
    }
    Ok(())
}

fn add_result_of(
    alloc: Global,
    p: &Program,
    n: u32,
    given: Option<Ty>,
    m: &mut Numbering,
) -> Result<(), Memory>
    ensures { IfOk result (λ u. m.new ≡ spec.add_result_of p.now n given m.old) }
{
    match given {
        None => Ok(()),
        Some(_) => {
            if n == p.main {
                Ok(())
            } else {
                add_result(alloc, n, m)
            }
        }
    }
}

/// The parameters of a function and the variables that its body declares.
fn locals_of(alloc: Global, f: &Function) -> Result<Items<u32>, Memory>
    ensures { IfOk result (λ xs. (w : Within) → xs ≡ f.now.params ++ (lowered_stmt w f.now.body).locals) }
{
    let mut xs = match Items::from_slice(alloc, f.params.as_slice()) {
        Ok(xs) => xs,
        Err(_) => return Err(Memory),
    };
    put_locals(&f.body, &mut xs)?;
    Ok(xs)
}

/// The result, the parameters and the locals of a function.
pub fn add_named(
    alloc: Global,
    p: &Program,
    n: u32,
    f: &Function,
    m: &mut Numbering,
) -> Result<(), Memory>
    ensures { IfOk result (λ u. m.new ≡ spec.add_named p.now n f.now m.old) }
{
    add_result_of(alloc, p, n, f.result, m)?;
    let xs = locals_of(alloc, f)?;
    add_locals(alloc, p, xs.as_slice(), m)
}

fn add_function(
    alloc: Global,
    p: &Program,
    n: u32,
    f: &Function,
    m: &mut Numbering,
) -> Result<(), Memory>
    ensures { IfOk result (λ u. m.new ≡ spec.add_function p.now n f.now m.old) }
{
    add_named(alloc, p, n, f, m)?;
    let count = temporaries(alloc, p, n, f)?;
    add_temporaries(alloc, count, m)
}

/// A function's objects are numbered where it is reached.
fn add_reached(
    alloc: Global,
    p: &Program,
    marks: &[bool],
    n: u32,
    f: &Function,
    m: &mut Numbering,
) -> Result<(), Memory>
    requires { marks.now ≡ spec.reached p.now }
    ensures { IfOk result (λ u. m.new ≡ (if slice_index_or (spec.reached p.now) n false then spec.add_function p.now n f.now m.old else m.old)) }
{
    if is_marked(marks, n) {
        add_function(alloc, p, n, f, m)?;
        Ok(())
    } else {
        Ok(())
    }
}

fn add_functions(
    alloc: Global,
    p: &Program,
    marks: &[bool],
    m: &mut Numbering,
) -> Result<(), Memory>
    requires { marks.now ≡ spec.reached p.now }
    ensures { IfOk result (λ u. m.new ≡ spec.add_functions p.now 0 p.now.functions m.old) }
{
    let mut left = p.functions.as_slice();
    let mut n: u32 = 0;
    while let Some((f, rest)) = first_and_rest(left) {
        add_reached(alloc, p, marks, n, f, m)?;
        n = next(n)?;
        left = rest;
    }
    Ok(())
}

/// Zeros, as many as are said.
fn zeros(alloc: Global, count: usize) -> Result<Items<u32>, Memory>
    ensures { IfOk result (λ made. made ≡ replicate count 0) }
{
    let mut made = Items::new(alloc);
    let mut missing = count;
    while missing > 0 {
        put_number(&mut made, 0)?;
        missing -= 1;
    }
    Ok(made)
}

/// The globals, numbered.
pub fn globals(alloc: Global, p: &Program) -> Result<Numbering, Memory>
    ensures { IfOk result (λ m. m ≡ spec.globals p.now) }
{
    let variables = zeros(alloc, p.variables.len())?;
    let results = zeros(alloc, p.functions.len())?;
    let mut m = Numbering {
        objects: Items::new(alloc),
        variables,
        results,
    };
    add_globals(alloc, p.variables.as_slice(), &mut m)?;
    Ok(m)
}

/// All objects, numbered.
pub fn numbering(alloc: Global, p: &Program, marks: &[bool]) -> Result<Numbering, Memory>
    requires { marks.now ≡ spec.reached p.now }
    ensures { IfOk result (λ m. m ≡ spec.numbering p.now) }
{
    let mut m = globals(alloc, p)?;
    add_functions(alloc, p, marks, &mut m)?;
    Ok(m)
}
