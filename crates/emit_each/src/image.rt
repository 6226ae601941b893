//! The image: what boot reads, the words of objects, the code, and the reset vector.

ghost use Rattle.std.specs.Prelude.{◌≡◌, ◌≤◌, ◌*◌, ◌++◌, [], ◌∷◌, ℕ, map, sum_by, slice_index_or, IfOk, OnOk};
ghost use Rattle.ti_txt.specs.Image.{IsImage, block_of};
ghost use Rattle.ti_txt.specs.Bytes.{blocks_of};
ghost use Rattle.msp430_machine.specs.Addresses.{code_start, gate, reset_vector};
ghost use Rattle.resumed_runs.specs.Bytes.{bytes_of};
ghost use Rattle.laid_code.specs.Chosen.{chosen_blocks};
ghost use Rattle.graph_code.specs.Pieces.{pieces_by};
ghost use Rattle.emit_each.specs.Parts.{AllAllowed, AllHave, address_in, blocks_at, end_from, head_in, placed_template};

use crate::bytes::put_words;
use crate::data::put_objects;
use crate::operations::code_of;
use crate::places::Starts;
use base_io::Memory;
use emit_templates::Places;
use flow_graph::{Node, Object};
use msp430_machine::{CODE_START, GATE, RESET_VECTOR};
use std::alloc::Global;
use ti_txt::{Image, Segment};

/// The address of the last instruction of the first head.
const FIRST_RESUME: u16 = 0x8024;

fn push(segment: Segment, to: &mut Vec<Segment>) -> Result<(), Memory>
    ensures { OnOk result (map block_of to.new.items ≡ map block_of to.old.items ++ block_of segment ∷ []) }
{
    match to.push(segment) {
        Ok(()) => Ok(()),
        Err(_) => Err(Memory),
    }
}

/// Appends a segment of words.
fn put_segment(
    alloc: Global,
    start: u16,
    words: &[u16],
    to: &mut Vec<Segment>,
) -> Result<(), Memory>
    ensures { OnOk result (map block_of to.new.items ≡ map block_of to.old.items ++ record { start = start; bytes = bytes_of words.now } ∷ []) }
{
    let mut bytes = Vec::new(alloc);
    put_words(words, &mut bytes)?;
    push(Segment { start, bytes }, to)
}

fn segments_of(alloc: Global, objects: &[Object], code: Vec<u8>) -> Result<Vec<Segment>, Memory>
    requires room { 2 * sum_by (λ x. x.words) objects.now ≤ 15104 }
    ensures { IfOk result (λ segments. map block_of segments.items ≡
        record { start = gate; bytes = bytes_of (1 ∷ 0x8024 ∷ code_start ∷ []) }
        ∷ (blocks_at 0x4400 objects.now ++ record { start = code_start; bytes = code.items } ∷ record { start = reset_vector; bytes = bytes_of (code_start ∷ []) } ∷ [])) }
{
    let mut segments = Vec::new(alloc);
    put_segment(alloc, GATE, &[1, FIRST_RESUME, CODE_START], &mut segments)?;
    put_objects(alloc, objects, &mut segments)?;
    push(
        Segment {
            start: CODE_START,
            bytes: code,
        },
        &mut segments,
    )?;
    put_segment(alloc, RESET_VECTOR, &[CODE_START], &mut segments)?;
    Ok(segments)
}

/// The image of operations that stand so.
pub fn image_of(
    alloc: Global,
    objects: &[Object],
    nodes: &[Node],
    places: &Places,
    heads: &[bool],
    starts: &Starts,
) -> Result<Image, Memory>
    requires objects { 2 * sum_by (λ x. x.words) objects.now ≤ 15104 }
    requires have { AllHave places.now.of.items nodes.now }
    requires allowed { AllAllowed (placed_template places.now.of.items) (address_in starts.now.of.items starts.now.end) nodes.now }
    requires low { (n : ℕ) → slice_index_or starts.now.of.items n starts.now.end ≤ 0x3FC0 }
    requires room { end_from 9 (pieces_by (placed_template places.now.of.items) (head_in heads.now) (address_in starts.now.of.items starts.now.end) nodes.now) ≤ 0x3FC0 }
    requires is_image { IsImage (chosen_blocks (blocks_at 0x4400 objects.now)
        (pieces_by (placed_template places.now.of.items) (head_in heads.now) (address_in starts.now.of.items starts.now.end) nodes.now)) }
    ensures { IfOk result (λ image. blocks_of image ≡ chosen_blocks (blocks_at 0x4400 objects.now)
        (pieces_by (placed_template places.now.of.items) (head_in heads.now) (address_in starts.now.of.items starts.now.end) nodes.now)) }
{
    let code = code_of(alloc, nodes, places, heads, starts)?;
    let segments = segments_of(alloc, objects, code)?;
    Ok(Image { segments })
}
