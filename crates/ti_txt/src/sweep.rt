ghost use Rattle.std.specs.Prelude.{◌≡◌, ◌≤◌, ◌++◌, ◌∷◌, [], ℕ, List, Some, None, true, IsSome, length, map, IfOk, IfErr, MatchResult};
ghost use Rattle.ti_txt.specs.Bytes.{blocks_of};
ghost use Rattle.ti_txt.specs.Grammar.{is_mapped};
ghost use Rattle.ti_txt.specs.Image.{block_of};
ghost use Rattle.ti_txt.specs.Spots.{cell_of};
ghost use Rattle.ti_txt.specs.Sweep.{closed, sweep};

use crate::{Image, Segment, TxtFault};
use std::alloc::Global;
use std::mem;

/// So many cells with no byte.
pub fn blank(alloc: Global, size: usize) -> Result<Vec<Option<u8>>, TxtFault>
    ensures size { IfOk result (λ cells. length cells.items ≡ size) }
    ensures none { IfOk result (λ cells. (address : ℕ) → cell_of cells.items address ≡ None) }
    ensures memory { IfErr result (λ fault. fault ≡ TxtFault.Memory) }
{
    match vec![in alloc; None; size] {
        Ok(cells) => Ok(cells),
        Err(_) => Err(TxtFault::Memory),
    }
}

fn push(byte: u8, bytes: &mut Vec<u8>) -> Result<(), TxtFault>
    ensures { MatchResult result (λ _. bytes.new.items ≡ bytes.old.items ++ byte ∷ []) (λ fault. fault ≡ TxtFault.Memory) }
{
    match bytes.push(byte) {
        Ok(()) => Ok(()),
        Err(_) => Err(TxtFault::Memory),
    }
}

// Takes the bytes before the address out as a segment, if there are any.
fn close(
    alloc: Global,
    address: usize,
    bytes: &mut Vec<u8>,
    segments: &mut Vec<Segment>,
) -> Result<(), TxtFault>
    requires within { length bytes.old.items ≤ address }
    requires small { address ≤ 0x10000 }
    ensures { MatchResult result
        (λ _. (bytes.new.items ≡ []) × (map block_of segments.new.items ≡ map block_of segments.old.items ++ closed address bytes.old.items))
        (λ fault. fault ≡ TxtFault.Memory) }
{
    if bytes.is_empty() {
        return Ok(());
    }
    let start = (address - bytes.len()) as u16;
    let bytes = mem::replace(bytes, Vec::new(alloc));
    match segments.push(Segment { start, bytes }) {
        Ok(()) => Ok(()),
        Err(_) => Err(TxtFault::Memory),
    }
}

fn segments_of(alloc: Global, cells: &[Option<u8>]) -> Result<Vec<Segment>, TxtFault>
    requires { length cells.now ≤ 0x10000 }
    ensures { MatchResult result (λ segments. map block_of segments.items ≡ sweep 0 [] cells.now) (λ fault. fault ≡ TxtFault.Memory) }
{
    let mut segments = Vec::new(alloc);
    let mut bytes = Vec::new(alloc);
    let mut address = 0;
    let mut rest = cells;
    while let [cell, after @ ..] = rest {
        match cell {
            Some(byte) => push(*byte, &mut bytes)?,
            None => close(alloc, address, &mut bytes, &mut segments)?,
        }
        rest = after;
        address += 1;
    }
    close(alloc, address, &mut bytes, &mut segments)?;
    Ok(segments)
}

/// The image of the bytes in a row of cells, one for each address.
pub fn image_of(alloc: Global, cells: &[Option<u8>]) -> Result<Image, TxtFault>
    requires size { length cells.now ≤ 0x10000 }
    requires mapped { (address : ℕ) → IsSome (cell_of cells.now address) → is_mapped address ≡ true }
    ensures { MatchResult result (λ image. blocks_of image ≡ sweep 0 [] cells.now) (λ fault. fault ≡ TxtFault.Memory) }
{
    let segments = segments_of(alloc, cells)?;
    Ok(Image { segments })
}
