//! A machine with an image in its memory.

ghost use Rattle.std.specs.Prelude.{◌≡◌, ◌+◌, ◌*◌, ◌<◌, ◌≤◌, ℕ, IfOk, length, map, vec_len, slice_index, List, [], ◌∷◌};
ghost use Rattle.ti_txt.specs.Image.{IsImage, block_of, end_of};
ghost use Rattle.ti_txt.specs.Bytes.{blocks_of};
ghost use Rattle.msp430_machine.specs.First.{IsFirst, HoldsImage};
ghost use Rattle.msp430_machine.specs.Loading.{byte_over, IsZeroBut};
ghost use Rattle.msp430_machine.specs.Views.{state_of};

use base_io::Memory;
use std::alloc::Global;
use ti_txt::{Image, Segment};

fn zero_bytes(alloc: Global) -> Result<Vec<u8>, Memory>
    ensures zero { IfOk result (λ v. (a : ℕ) → slice_index v.items a ≡ 0) }
    ensures len { IfOk result (λ v. vec_len v ≡ 65536) }
{
    match vec![in alloc; 0; 65536] {
        Ok(bytes) => Ok(bytes),
        Err(_) => Err(Memory),
    }
}

/// SRAM when nothing is in it.
pub fn zero_words(alloc: Global) -> Result<Vec<u16>, Memory>
    ensures zero { IfOk result (λ v. (k : ℕ) → slice_index v.items k ≡ 0) }
    ensures len { IfOk result (λ v. vec_len v ≡ 1024) }
{
    match vec![in alloc; 0; 1024] {
        Ok(words) => Ok(words),
        Err(_) => Err(Memory),
    }
}

// Puts a segment's bytes at their addresses.
fn write_segment(bytes: &mut [u8], segment: &Segment)
    requires room { length bytes.old ≡ 65536 }
    requires within { end_of (block_of segment.now) ≤ 65536 }
    ensures { (a : ℕ) → slice_index bytes.new a ≡ byte_over (block_of segment.now ∷ []) bytes.old a }
{
    let start = segment.start as usize;
    for (i, byte) in segment.bytes.iter().enumerate() {
        bytes[start + i] = *byte;
    }
}

fn write_segments(bytes: &mut [u8], segments: &[Segment])
    requires room { length bytes.old ≡ 65536 }
    requires image { IsImage (map block_of segments.now) }
    ensures { (a : ℕ) → slice_index bytes.new a ≡ byte_over (map block_of segments.now) bytes.old a }
{
    for segment in segments {
        write_segment(bytes, segment);
    }
}

/// The byte of each address: the image's, or zero.
pub fn image_bytes(alloc: Global, img: &Image) -> Result<Vec<u8>, Memory>
    ensures bytes { IfOk result (λ v. (a : ℕ) → slice_index v.items a ≡ byte_over (blocks_of img.now) [] a) }
    ensures len { IfOk result (λ v. vec_len v ≡ 65536) }
{
    let mut bytes = zero_bytes(alloc)?;
    write_segments(bytes.as_mut_slice(), img.segments.as_slice());
    Ok(bytes)
}

/// What the type of bytes says of each of them.
pub fn bytes_are_small(bytes: &[u8])
    ensures { (a : ℕ) → slice_index bytes.now a < 256 }
{
    let _ = bytes;
}

/// So many words from the bytes, the low byte of each first.
pub fn words_from(
    alloc: Global,
    bytes: &[u8],
    start: usize,
    count: usize,
) -> Result<Vec<u16>, Memory>
    requires { start + 2 * count ≤ length bytes.now }
    ensures words { IfOk result (λ v. (k : ℕ) → k < count → slice_index v.items k ≡ slice_index bytes.now (start + 2 * k) + 256 * slice_index bytes.now (start + 2 * k + 1)) }
    ensures len { IfOk result (λ v. vec_len v ≡ count) }
{
    let mut words = Vec::new(alloc);
    for k in 0..count {
        let low = bytes[start + 2 * k] as u16;
        let high = bytes[start + 2 * k + 1] as u16;
        if words.push(low + 256 * high).is_err() {
            return Err(Memory);
        }
    }
    Ok(words)
}
