ghost use Rattle.std.specs.Prelude.{◌≡◌, ℕ, List, ◌≢◌, ◌-◌, ◌≤◌, ◌<◌, ◌++◌, ◌∷◌, [], length, IfOk, IfErr, IfNone, MatchResult};
ghost use Rattle.ti_txt.specs.Grammar.{Faulty, Holds, fault_of, is_mapped};
ghost use Rattle.ti_txt.specs.Bytes.{blocks_of};
ghost use Rattle.ti_txt.specs.Image.{Block};
ghost use Rattle.ti_txt.specs.declared.fault.TxtFault.{TxtFault};
ghost use Rattle.ti_txt.specs.Spots.{Gives, GivesCells, IsMoved, IsPlaced, Keeps, Loaded, advanced, cell_of, put_of, settled, stored};

use crate::spot::{Spot, step};
use crate::sweep::{blank, image_of};
use crate::{Image, TxtFault};
use std::alloc::Global;

// An address where an image may have a byte.
fn is_mapped(address: u32) -> bool
    ensures { result ≡ is_mapped address }
{
    (0x1800 <= address && address <= 0x19ff) || (0x4400 <= address && address <= 0xffff)
}

// The fault of a byte at the offset that is put at the address, if it has one.
fn fault_of(at: usize, address: u32, cells: &[Option<u8>]) -> Option<TxtFault>
    requires { length cells.now ≡ 0x10000 }
    ensures exact { (value : ℕ) → result ≡ fault_of (cell_of cells.now) (put_of at address value) }
    ensures none { IfNone result (address < 0x10000) }
{
    if address > 0xffff {
        Some(TxtFault::PastEnd { at })
    } else if !is_mapped(address) {
        Some(TxtFault::Unmapped { at })
    } else if cells[address as usize].is_some() {
        Some(TxtFault::Overlap { at })
    } else {
        None
    }
}

// Puts a byte into its cell.
fn store(at: usize, address: u32, value: u8, cells: &mut [Option<u8>]) -> Result<(), TxtFault>
    requires { length cells.old ≡ 0x10000 }
    ensures cells { let p = put_of at address value in
        GivesCells result cells.new (stored cells.old p (fault_of (cell_of cells.old) p)) }
    ensures placed { IfOk result (λ _. address < 0x10000) }
{
    match fault_of(at, address, cells) {
        Some(fault) => Err(fault),
        None => {
            cells[address as usize] = Some(value);
            Ok(())
        }
    }
}

// Puts the byte that is whole at this spot into its cell, if one is. Its second digit stands at the offset.
fn settle(at: usize, spot: Spot, cells: &mut [Option<u8>]) -> Result<(), TxtFault>
    requires size { length cells.old ≡ 0x10000 }
    requires moved { IsMoved spot }
    ensures cells { GivesCells result cells.new (settled at spot cells.old) }
    ensures placed { IfOk result (λ _. IsPlaced spot) }
{
    match spot {
        Spot::Whole { address, value } => store(at.saturating_sub(1), address, value, cells),
        _ => Ok(()),
    }
}

// Goes on by the byte at the offset.
fn advance(at: usize, spot: Spot, byte: u8, cells: &mut [Option<u8>]) -> Result<Spot, TxtFault>
    requires size { length cells.old ≡ 0x10000 }
    requires placed { IsPlaced spot }
    ensures cells { Gives result cells.new (advanced at spot byte cells.old) }
    ensures placed { IfOk result IsPlaced }
{
    match step(spot, byte) {
        None => Err(TxtFault::BadByte { at }),
        Some(next) => {
            settle(at, next, cells)?;
            Ok(next)
        }
    }
}

// Reads a text into blank cells. A fault leaves any cells.
fn fill(text: &[u8], cells: &mut [Option<u8>]) -> Result<(), TxtFault>
    requires { Keeps cells.old [] }
    ensures loaded { IfOk result (λ _. Loaded text.now cells.new) }
    ensures fault { IfErr result (λ fault. Faulty text.now fault) }
{
    let mut rest = text;
    let mut spot = Spot::Before;
    let mut at = 0;
    while let [byte, after @ ..] = rest {
        spot = advance(at, spot, *byte, cells)?;
        rest = after;
        at += 1;
    }
    match spot {
        Spot::Ended => Ok(()),
        _ => Err(TxtFault::NoEnd { at }),
    }
}

fn cells_of(alloc: Global, text: &[u8]) -> Result<Vec<Option<u8>>, TxtFault>
    ensures loaded { IfOk result (λ cells. Loaded text.now cells.items) }
    ensures fault { IfErr result (λ fault. fault ≢ TxtFault.Memory → Faulty text.now fault) }
{
    let mut cells = blank(alloc, 0x10000)?;
    fill(text, &mut cells)?;
    Ok(cells)
}

/// Reads a TI-TXT text (SLAU101, appendix A.2): `@` and one to four digits, bytes of two digits, and `q`, with
/// white space behind each; digits in either case, segments in any order. Answers the one image that the text holds,
/// or the text's first fault.
pub fn read(alloc: Global, bytes: &[u8]) -> Result<Image, TxtFault>
    ensures holds { IfOk result (λ image. Holds bytes.now (blocks_of image)) }
    ensures faulty { IfErr result (λ fault. fault ≢ TxtFault.Memory → Faulty bytes.now fault) }
    ensures only_image { (blocks : List Block) → Holds bytes.now blocks →
        MatchResult result (λ image. blocks_of image ≡ blocks) (λ fault. fault ≡ TxtFault.Memory) }
    ensures only_fault { (wanted : TxtFault) → Faulty bytes.now wanted →
        MatchResult result (λ _. ⊥) (λ fault. fault ≢ TxtFault.Memory → fault ≡ wanted) }
    // What another text goes on from is a text with the same image, or ends too early.
    ensures front { (more : List ℕ) (blocks : List Block) → Holds (bytes.now ++ more) blocks →
        MatchResult result (λ image. blocks_of image ≡ blocks) (λ fault. fault ≢ TxtFault.Memory → fault ≡ TxtFault.NoEnd (length bytes.now)) }
    // A text that is cut off anywhere before its `q` ends too early.
    ensures cut_off { (rest more : List ℕ) (blocks : List Block) → Holds (bytes.now ++ (rest ++ 113 ∷ more)) blocks →
        MatchResult result (λ _. ⊥) (λ fault. fault ≢ TxtFault.Memory → fault ≡ TxtFault.NoEnd (length bytes.now)) }
{
    let cells = cells_of(alloc, bytes)?;
    image_of(alloc, &cells)
}
