//! Objects in FRAM.

ghost use Rattle.std.specs.Prelude.{◌≡◌, ◌≤◌, ◌<◌, ◌+◌, ◌*◌, ◌^◌, ◌++◌, ℕ, [], List, map, sum_by, length, IfOk, OnOk};
ghost use Rattle.ti_txt.specs.Image.{Block, block_of};
ghost use Rattle.resumed_runs.specs.Bytes.{bytes_of};
ghost use Rattle.emit_each.specs.Parts.{addresses_from, blocks_at, led_by};

use crate::bytes::put_words;
use crate::lists::first_and_rest;
use base_io::Memory;
use emit_templates::Places;
use flow_graph::Object;
use msp430_machine::FRAM_START;
use std::alloc::Global;
use ti_txt::Segment;

/// How many bytes objects need.
#[tactic(auto, using(crate::proofs::Objects::words_cons))]
pub fn data_bytes(objects: &[Object]) -> u64
    requires small { sum_by (λ x. x.words) objects.now < 2 ^ 31 }
    ensures { result ≡ 2 * sum_by (λ x. x.words) objects.now }
{
    let mut bytes = 0;
    let mut left = objects;
    while let Some((object, rest)) = first_and_rest(left) {
        bytes += 2 * u64::from(object.words);
        left = rest;
    }
    bytes
}

/// The address of each object: from 0x4400 on, in the order of their numbers.
#[tactic(auto, using(crate::proofs::Objects::words_cons))]
pub fn places_of(alloc: Global, objects: &[Object]) -> Result<Places, Memory>
    requires room { 2 * sum_by (λ x. x.words) objects.now ≤ 15104 }
    ensures { IfOk result (λ places. places.of.items ≡ addresses_from 0x4400 objects.now) }
{
    let mut places = Vec::new(alloc);
    let mut at = FRAM_START;
    let mut left = objects;
    while let Some((object, rest)) = first_and_rest(left) {
        if places.push(at).is_err() {
            return Err(Memory);
        }
        at += 2 * object.words;
        left = rest;
    }
    Ok(Places { of: places })
}

/// Appends a segment that has bytes.
fn close(segment: Segment, to: &mut Vec<Segment>) -> Result<(), Memory>
    ensures { OnOk result (map block_of to.new.items ≡ map block_of to.old.items ++ led_by segment.start segment.bytes.items []) }
{
    if segment.bytes.len() == 0 {
        return Ok(());
    }
    match to.push(segment) {
        Ok(()) => Ok(()),
        Err(_) => Err(Memory),
    }
}

/// The segment that words from an address on belong to: the last one where it ends there, and else a new one.
#[tactic(auto, using(crate::proofs::Objects::led_on, crate::proofs::Objects::led_apart))]
fn opened(alloc: Global, at: u16, last: Segment, to: &mut Vec<Segment>) -> Result<Segment, Memory>
    ensures { IfOk result (λ next. (ws : List ℕ) (blocks : List Block) → 0 < length ws →
        map block_of to.new.items ++ led_by next.start (next.bytes.items ++ ws) blocks
        ≡ map block_of to.old.items ++ led_by last.start last.bytes.items (led_by at ws blocks)) }
{
    if last.start as usize + last.bytes.len() == at as usize {
        return Ok(last);
    }
    close(last, to)?;
    Ok(Segment {
        start: at,
        bytes: Vec::new(alloc),
    })
}

/// Puts words that stand from an address on behind the last segment where it ends there, and else into a new one.
#[tactic(auto, using(crate::proofs::Objects::led_none, crate::proofs::Objects::some_bytes))]
fn put_object(
    alloc: Global,
    at: u16,
    words: &[u16],
    last: Segment,
    to: &mut Vec<Segment>,
) -> Result<Segment, Memory>
    ensures { IfOk result (λ next. (blocks : List Block) →
        map block_of to.new.items ++ led_by next.start next.bytes.items blocks
        ≡ map block_of to.old.items ++ led_by last.start last.bytes.items (led_by at (bytes_of words.now) blocks)) }
{
    if words.len() == 0 {
        return Ok(last);
    }
    let mut next = opened(alloc, at, last, to)?;
    put_words(words, &mut next.bytes)?;
    Ok(next)
}

/// Appends the words that objects begin with.
#[tactic(auto, using(crate::proofs::Objects::words_cons))]
pub fn put_objects(alloc: Global, objects: &[Object], to: &mut Vec<Segment>) -> Result<(), Memory>
    requires room { 2 * sum_by (λ x. x.words) objects.now ≤ 15104 }
    ensures { OnOk result (map block_of to.new.items ≡ map block_of to.old.items ++ blocks_at 0x4400 objects.now) }
{
    let mut at = FRAM_START;
    let mut last = Segment {
        start: at,
        bytes: Vec::new(alloc),
    };
    let mut left = objects;
    while let Some((object, rest)) = first_and_rest(left) {
        last = put_object(alloc, at, object.first.as_slice(), last, to)?;
        at += 2 * object.words;
        left = rest;
    }
    close(last, to)
}
