//! The variables of a run, the input that is left and the steps that are left.
ghost use Rattle.std.specs.Prelude.{◌≡◌, ℕ, ◌<◌, ◌≤◌, ◌+◌, List, [], ◌∷◌, length, replicate, MatchResult, OnOk};
ghost use Rattle.std.specs.Option.{option_copied};
ghost use Rattle.c_values.specs.Values.{converted, binary_of};
ghost use Rattle.c_tree.specs.Runs as spec;
ghost use Rattle.c_tree.specs.Nodes as nodes;
ghost use Rattle.c_tree.specs.Follows.{Follows, Quietly};

use crate::halt::Halt;
use crate::tree::{Expr, Group, Label};
use c_values::{BinaryOp, INDEX_TRAP, Ty, binary, converted, value};
use sqlite_items::Items;
use std::alloc::Global;
use std::marker::Model;

/// The state of a run.
#[derive(Drop)]
pub struct Run<'a> {
    store: Vec<Items<u16>>,
    rest: &'a [u16],
    left: u64,
    alloc: Global,
}

impl<'a> Model for Run<'a> {
    ghost use Rattle.c_tree.specs.Runs.{State};

    ghost Value = { State };

    ghost use Rattle.c_tree.specs.Stored.{state_of};

    ghost view = { state_of };
}

impl<'a> Run<'a> {
    /// A run in which nothing has been done.
    pub fn new(alloc: Global, store: Vec<Items<u16>>, input: &'a [u16], left: u64) -> Run<'a>
        ensures { result ≡ record { store = store.items; input = input.now; left = left } }
    {
        Run {
            store,
            rest: input,
            left,
            alloc,
        }
    }

    /// The steps that are left.
    pub fn left(&self) -> u64
        ensures { result ≡ self.now.left }
    {
        self.left
    }

    pub fn alloc(&self) -> Global {
        self.alloc
    }

    /// Begins a step, where one is left.
    pub fn begin(&mut self) -> Result<(), Halt>
        ensures meets { MatchResult result (λ _. spec.begin self.old ≡ spec.Done (spec.Begun ∷ []) tt self.new)
            (λ h. (h ≡ Halt.Stopped) × (spec.begin self.old ≡ spec.Stopped []) × (self.new ≡ self.old)) }
        ensures down { OnOk result (self.new.left < self.old.left) }
    {
        if self.left == 0 {
            Err(Halt::Stopped)
        } else {
            self.left -= 1;
            Ok(())
        }
    }

    /// The next input word.
    pub fn take(&mut self) -> u16
        ensures is { spec.take_word self.old ≡ spec.Done [] result self.new }
        ensures steps { self.new.left ≡ self.old.left }
    {
        match self.rest {
            [word, rest @ ..] => {
                self.rest = rest;
                *word
            }
            [] => 0,
        }
    }

    /// The word of a scalar.
    pub fn read(&self, variable: u32) -> u16
        ensures { spec.read variable self.now ≡ spec.Done [] result self.now }
    {
        match self.store.get(variable as usize) {
            Some(words) => match words.get(0) {
                Some(word) => *word,
                None => 0,
            },
            None => 0,
        }
    }

    /// The word of an element, where the index is within the array.
    pub fn read_at(&self, array: u32, ty: Ty, index: u16) -> Result<u16, Halt>
        ensures { MatchResult result (λ w. spec.read_at array ty index self.now ≡ spec.Done [] w self.now)
            (λ h. (h ≡ Halt.Trap 2) × (spec.read_at array ty index self.now ≡ spec.Trapped [] 2)) }
    {
        let at = value(ty, index);
        match self.store.get(array as usize) {
            Some(words) => {
                if at >= 0 && (at as u64) < words.len() as u64 {
                    Ok(words.as_slice()[at as usize])
                } else {
                    Err(Halt::Trap(INDEX_TRAP))
                }
            }
            None => Err(Halt::Trap(INDEX_TRAP)),
        }
    }

    /// A word goes into a place of a variable.
    pub fn write_place(&mut self, variable: u32, place: usize, word: u16)
        ensures is { spec.write_place variable place word self.old ≡ spec.Done [] tt self.new }
        ensures steps { self.new.left ≡ self.old.left }
    {
        if let Some(words) = self.store.get_mut(variable as usize) {
            if place < words.len() {
                words.set(place, word);
            }
        }
    }

    /// A word goes into an element, where the index is within the array.
    pub fn write_at(&mut self, array: u32, ty: Ty, index: u16, word: u16) -> Result<(), Halt>
        ensures is { MatchResult result (λ _. spec.write_at array ty index word self.old ≡ spec.Done [] tt self.new)
            (λ h. (h ≡ Halt.Trap 2) × (spec.write_at array ty index word self.old ≡ spec.Trapped [] 2) × (self.new ≡ self.old)) }
        ensures steps { self.new.left ≡ self.old.left }
    {
        let at = value(ty, index);
        match self.store.get_mut(array as usize) {
            Some(words) => {
                if at >= 0 && (at as u64) < words.len() as u64 {
                    words.set(at as usize, word);
                    Ok(())
                } else {
                    Err(Halt::Trap(INDEX_TRAP))
                }
            }
            None => Err(Halt::Trap(INDEX_TRAP)),
        }
    }

    /// These words become all of a variable.
    pub fn set_words(&mut self, variable: u32, words: Items<u16>)
        ensures is { spec.set_words variable words self.old ≡ spec.Done [] tt self.new }
        ensures steps { self.new.left ≡ self.old.left }
    {
        if let Some(place) = self.store.get_mut(variable as usize) {
            *place = words;
        }
    }
}
