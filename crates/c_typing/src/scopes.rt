//! Names in nested scopes.
ghost use Rattle.std.specs.Prelude.{◌≡◌, [], ◌∷◌, ◌++◌, None, MatchOption, OnOk, OnErr, IfOk};
ghost use Rattle.c_typing.specs.Scopes as spec;
ghost use Rattle.c_typing.specs.Scopes.{Scope};
ghost use Rattle.c_typing.specs.Kept.{scopes_of, scope_of};

use crate::meaning::{Declaring, Meaning};
use c_parse::NoMemory;
use indexmap::IndexMap;
use std::alloc::Global;
use std::marker::Model;
use std::mem;

/// The names that are known at a place of a text, in the scopes that hold it (C11 6.2.1). The outermost scope is always open.
#[derive(Drop)]
pub struct Scopes {
    inner: IndexMap<Vec<u8>, Meaning>,
    outer: Vec<IndexMap<Vec<u8>, Meaning>>,
    alloc: Global,
}

impl Model for Scopes {
    ghost use Rattle.std.specs.Prelude.{List, ◌∷◌};
    ghost use Rattle.c_typing.specs.Scopes.{Scope};

    ghost Value = { List Scope };

    ghost use Rattle.c_typing.specs.Kept.{scopes_of, scope_of};

    ghost view = { λ s. scope_of s.inner ∷ scopes_of s.outer.items };
}

impl Scopes {
    /// One scope, in which no name is declared.
    pub fn new(alloc: Global) -> Scopes
        ensures { result ≡ [] ∷ [] }
    {
        Scopes {
            inner: IndexMap::new(alloc),
            outer: Vec::new(alloc),
            alloc,
        }
    }

    /// A scope begins.
    pub fn open(&mut self) -> Result<(), NoMemory>
        ensures ok { OnOk result (self.new ≡ [] ∷ self.old) }
        ensures err { OnErr result (self.new ≡ self.old) }
    {
        let inner = mem::replace(&mut self.inner, IndexMap::new(self.alloc));
        match self.outer.push(inner) {
            Ok(()) => Ok(()),
            Err(failed) => {
                self.inner = failed.value;
                Err(NoMemory)
            }
        }
    }

    /// The innermost scope ends. Where no other is open, an empty one begins.
    pub fn close(&mut self)
        ensures { self.new ≡ spec.closed self.old }
    {
        self.inner = next_outer(self.alloc, &mut self.outer);
    }

    /// Declares a name in the innermost scope, unless it is declared there already.
    pub fn declare(&mut self, name: &[u8], meaning: Meaning) -> Result<Declaring, NoMemory>
        ensures told { IfOk result (λ told. told ≡ spec.declaring name.now self.old) }
        ensures ok { OnOk result (self.new ≡ spec.declared name.now meaning self.old) }
        ensures err { OnErr result (self.new ≡ self.old) }
    {
        declare_in(self.alloc, &mut self.inner, name, meaning)
    }

    /// What a name means, by the innermost scope in which it is declared.
    pub fn find(&self, name: &[u8]) -> Option<Meaning>
        ensures { result ≡ spec.find name.now self.now }
    {
        match find_in(&self.inner, name) {
            Some(meaning) => Some(meaning),
            None => find_around(self.outer.as_slice(), name),
        }
    }

    /// What a name means, if it is declared in the innermost scope.
    pub fn find_here(&self, name: &[u8]) -> Option<Meaning>
        ensures { result ≡ spec.find_here name.now self.now }
    {
        find_in(&self.inner, name)
    }
}

/// The scope round a scope, or an empty one where there is none.
fn next_outer(
    alloc: Global,
    outer: &mut Vec<IndexMap<Vec<u8>, Meaning>>,
) -> IndexMap<Vec<u8>, Meaning>
    ensures { (scope : Scope) → spec.closed (scope ∷ scopes_of outer.old.items) ≡ scope_of result ∷ scopes_of outer.new.items }
{
    match outer.pop() {
        Some(scope) => scope,
        None => IndexMap::new(alloc),
    }
}

/// Declares a name in a scope, unless it is declared there already.
fn declare_in(
    alloc: Global,
    scope: &mut IndexMap<Vec<u8>, Meaning>,
    name: &[u8],
    meaning: Meaning,
) -> Result<Declaring, NoMemory>
    ensures told { IfOk result (λ told. told ≡ spec.declaring_in name.now (scope_of scope.old)) }
    ensures ok { OnOk result (scope_of scope.new ≡ spec.declared_in name.now meaning (scope_of scope.old)) }
    ensures err { OnErr result (scope_of scope.new ≡ scope_of scope.old) }
{
    if find_in(scope, name).is_some() {
        return Ok(Declaring::AlreadyThere);
    }
    add(alloc, scope, name, meaning)?;
    Ok(Declaring::Declared)
}

/// Adds a name that a scope lacks.
fn add(
    alloc: Global,
    scope: &mut IndexMap<Vec<u8>, Meaning>,
    name: &[u8],
    meaning: Meaning,
) -> Result<(), NoMemory>
    requires { spec.find_in name.now (scope_of scope.old) ≡ None }
    ensures ok { OnOk result (scope_of scope.new ≡ scope_of scope.old ++ (name.now, meaning) ∷ []) }
    ensures err { OnErr result (scope_of scope.new ≡ scope_of scope.old) }
{
    let Ok(key) = Vec::from_slice(alloc, name) else {
        return Err(NoMemory);
    };
    let Ok(_before) = scope.insert(key, meaning) else {
        return Err(NoMemory);
    };
    Ok(())
}

/// What a name means in a scope.
fn find_in(scope: &IndexMap<Vec<u8>, Meaning>, name: &[u8]) -> Option<Meaning>
    ensures { result ≡ spec.find_in name.now (scope_of scope.now) }
{
    scope.get(name).copied()
}

/// What a name means by the last of these scopes in which it is declared.
fn find_around(scopes: &[IndexMap<Vec<u8>, Meaning>], name: &[u8]) -> Option<Meaning>
    ensures { result ≡ spec.find name.now (scopes_of scopes.now) }
{
    let mut rest = scopes;
    while let Some((last, others)) = last_and_others(rest) {
        match find_in(last, name) {
            Some(meaning) => return Some(meaning),
            None => rest = others,
        }
    }
    None
}

/// The last item and those before it.
pub fn last_and_others<T>(items: &[T]) -> Option<(&T, &[T])>
    ensures { MatchOption result (items.now ≡ []) (λ r. items.now ≡ r.1.now ++ r.0.now ∷ []) }
{
    items.split_last()
}
