//! Supplies in a row.
ghost use Rattle.std.specs.Prelude.{◌≡◌, ◌<◌, ◌∷◌, ℕ, List, [], MatchOption, MatchResult, length};
ghost use Rattle.supply_trace.specs.Boxes.{AsksFront, ReplacesFront, TakesFront, all_rows, boxes_of, unended};
ghost use Rattle.supply_trace.specs.Supplies.{CountsFault, TakesRow};

use crate::{Given, Supply};
use std::collections::VecDeque;
use std::mem;

/// Boxes, of which the front one is asked for a row where a wake is due, and dropped once it has ended. No call takes
/// memory.
#[derive(Drop)]
pub struct Bench {
    boxes: VecDeque<Box<dyn Supply>>,
}

fn ask(front: &mut Box<dyn Supply>) -> Given
    ensures takes { TakesRow result (rows_left front.old) (rows_left front.new) }
    ensures cause { CountsFault result (supply_faults front.old) (supply_faults front.new) }
{
    front.refill()
}

impl Bench {
    /// A bench of these boxes, the front one first.
    pub fn new(boxes: Vec<Box<dyn Supply>>) -> Bench
        ensures { boxes_of result ≡ boxes.items }
    {
        Bench {
            boxes: VecDeque::from(boxes),
        }
    }

    /// How many boxes are left.
    pub fn left(&self) -> usize
        ensures { result ≡ length (boxes_of self.now) }
    {
        self.boxes.len()
    }

    /// The boxes left, the front one first.
    pub fn boxes(self) -> Vec<Box<dyn Supply>>
        ensures { result.items ≡ boxes_of self }
    {
        Vec::from(self.boxes)
    }

    /// Takes the front box out, with its rows, unasked.
    pub fn take_front(&mut self) -> Option<Box<dyn Supply>>
        ensures { TakesFront result (boxes_of self.old) (boxes_of self.new) }
    {
        self.boxes.pop_front()
    }

    /// Puts a box in the front one's place, and gives the front one back, with its rows, unasked.
    pub fn replace_front(&mut self, b: Box<dyn Supply>) -> Result<Box<dyn Supply>, Box<dyn Supply>>
        ensures { ReplacesFront b result (boxes_of self.old) (boxes_of self.new) }
    {
        if self.boxes.is_empty() {
            return Err(b);
        }
        Ok(mem::replace(&mut self.boxes[0], b))
    }

    // Asks the front box.
    fn ask_front(&mut self) -> Given
        requires { 0 < length (boxes_of self.old) }
        ensures { AsksFront (λ b. rows_left b) (λ b. supply_faults b) result (boxes_of self.old) (boxes_of self.new) }
    {
        ask(&mut self.boxes[0])
    }

    /// Asks the front box for its first row. A box that has ended is dropped, and the next one is asked.
    pub fn next(&mut self) -> Given
        ensures row { TakesRow result (all_rows (λ b. rows_left b) (boxes_of self.old)) (all_rows (λ b. rows_left b) (boxes_of self.new)) }
        ensures front { AsksFront (λ b. rows_left b) (λ b. supply_faults b) result
            (unended (λ b. rows_left b) (boxes_of self.old)) (boxes_of self.new) }
    {
        while !self.boxes.is_empty() {
            match self.ask_front() {
                Given::Ended => drop(self.boxes.pop_front()),
                given => return given,
            }
        }
        Given::Ended
    }
}
