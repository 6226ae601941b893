//! What stands at which address: the memory map of the MSP430FR5969 (its datasheet, "Memory Organization"), and this
//! profile's ports and words. The definitions have the same names in specs/Addresses.antt.

ghost use Rattle.std.specs.Prelude.{◌≡◌, ◌≤◌, ◌<◌};
ghost use Rattle.msp430_machine.specs.Addresses.{region, sram_start, sram_end, code_start};

/// An input word is read here.
pub const IN: u16 = 0x0F00;

/// A word written here is put.
pub const OUT: u16 = 0x0F02;

/// A word written here ends the program.
pub const END: u16 = 0x0F04;

/// A word written here traps.
pub const TRAP: u16 = 0x0F06;

/// The word that tells whether a program may be resumed.
pub const GATE: u16 = 0x1800;

/// The word that tells where it is resumed.
pub const RESUME: u16 = 0x1802;

/// The word that tells its stack pointer.
pub const SAVED_SP: u16 = 0x1804;

/// A cold wake begins at the address that stands here.
pub const RESET_VECTOR: u16 = 0xFFFE;

/// Where regions begin, and the first address behind them.
pub const PORTS_START: u16 = 0x0F00;

pub const PORTS_END: u16 = 0x0F08;

/// Information FRAM.
pub const INFO_START: u16 = 0x1800;

pub const INFO_END: u16 = 0x1A00;

pub const SRAM_START: u16 = 0x1C00;

pub const SRAM_END: u16 = 0x2400;

/// Main FRAM goes on to the code.
pub const FRAM_START: u16 = 0x4400;

/// Code goes on to the end of memory.
pub const CODE_START: u16 = 0x8000;

/// No word of an instruction lies here or above.
pub const FETCH_END: u16 = 0xFF80;

/// What an address belongs to.
#[derive(Clone, Copy, Debug, PartialEq, Eq)]
pub enum Region {
    Ports,
    Sram,
    /// FRAM that instructions may write: 0x1800 to 0x19FF, and 0x4400 to 0x7FFF.
    Fram,
    /// FRAM from 0x8000 on, which no instruction may write.
    Code,
    /// Nothing stands there.
    Empty,
}

/// What an address belongs to.
pub fn region_of(address: u16) -> Region
    ensures region { result ≡ region address }
    ensures sram { result ≡ Region.Sram → (sram_start ≤ address) × (address < sram_end) }
    ensures fram { result ≡ Region.Fram → address < code_start }
    ensures code { result ≡ Region.Code → code_start ≤ address }
{
    match address {
        PORTS_START..PORTS_END => Region::Ports,
        INFO_START..INFO_END | FRAM_START..CODE_START => Region::Fram,
        SRAM_START..SRAM_END => Region::Sram,
        CODE_START.. => Region::Code,
        _ => Region::Empty,
    }
}
