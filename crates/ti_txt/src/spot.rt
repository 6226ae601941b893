ghost use Rattle.std.specs.Prelude.{◌≡◌, ◌+◌, ◌*◌, ◌^◌, ◌<◌, ◌≤◌, Option, Some, None, IfSome};
ghost use Rattle.std.specs.Option.{option_map};
ghost use Rattle.ti_txt.specs.Grammar.{digit_of, is_white};
ghost use Rattle.ti_txt.specs.Spots.{IsMoved, IsPlaced, from_gap, step_of};

/// Where a reader stands in a text.
#[derive(Clone, Copy)]
pub enum Spot {
    /// Before the first segment, at no word.
    Before,
    /// In a segment at no word, with the address of the byte that comes next.
    Between { next: u32 },
    /// Behind `@` and so many digits of an address.
    Origin { digits: u8, address: u32 },
    /// Behind the first digit of a byte.
    Half { next: u32, high: u8 },
    /// Behind the second digit of a byte.
    Whole { address: u32, value: u8 },
    /// Behind `q`.
    Ended,
}

fn is_white(byte: u8) -> bool
    ensures { result ≡ is_white byte }
{
    matches!(byte, b' ' | b'\t' | b'\r' | b'\n')
}

// The value of a hexadecimal digit, in either case.
fn digit_of(byte: u8) -> Option<u8>
    ensures value { result ≡ digit_of byte }
    ensures small { IfSome result (λ d. d < 16) }
{
    match byte {
        b'0'..=b'9' => Some(byte - b'0'),
        b'A'..=b'F' => Some(byte - b'A' + 10),
        b'a'..=b'f' => Some(byte - b'a' + 10),
        _ => None,
    }
}

/// Where the next byte leads, or none where no text goes on with it.
pub fn step(spot: Spot, byte: u8) -> Option<Spot>
    requires { IsPlaced spot }
    ensures leads { result ≡ step_of spot byte }
    ensures moved { IfSome result IsMoved }
{
    match spot {
        Spot::Before => from_gap(spot, byte, None),
        Spot::Between { next } => from_gap(spot, byte, half(next, byte)),
        Spot::Origin { digits, address } => from_origin(digits, address, byte),
        Spot::Half { next, high } => whole(next, high, byte),
        Spot::Whole { address, .. } => {
            if is_white(byte) {
                Some(Spot::Between { next: address + 1 })
            } else {
                None
            }
        }
        Spot::Ended => {
            if is_white(byte) {
                Some(Spot::Ended)
            } else {
                None
            }
        }
    }
}

// Where the byte leads from between two words, if `other` is where a digit leads.
fn from_gap(gap: Spot, byte: u8, other: Option<Spot>) -> Option<Spot>
    requires gap { IsMoved gap }
    requires other { IfSome other IsMoved }
    ensures leads { result ≡ from_gap gap byte other }
    ensures moved { IfSome result IsMoved }
{
    if is_white(byte) {
        Some(gap)
    } else if byte == b'@' {
        Some(Spot::Origin {
            digits: 0,
            address: 0,
        })
    } else if byte == b'q' {
        Some(Spot::Ended)
    } else {
        other
    }
}

fn half(next: u32, byte: u8) -> Option<Spot>
    requires { next ≤ 0x10000 }
    ensures leads { result ≡ option_map (λ d. Spot.Half next d) (digit_of byte) }
    ensures moved { IfSome result IsMoved }
{
    let high = digit_of(byte)?;
    Some(Spot::Half { next, high })
}

fn whole(address: u32, high: u8, byte: u8) -> Option<Spot>
    requires address { address ≤ 0x10000 }
    requires high { high < 16 }
    ensures leads { result ≡ option_map (λ d. Spot.Whole address (16 * high + d)) (digit_of byte) }
    ensures moved { IfSome result IsMoved }
{
    let low = digit_of(byte)?;
    Some(Spot::Whole {
        address,
        value: 16 * high + low,
    })
}

fn from_origin(digits: u8, address: u32, byte: u8) -> Option<Spot>
    requires few { digits ≤ 4 }
    requires small { address < 16 ^ digits }
    ensures leads { result ≡ step_of (Spot.Origin digits address) byte }
    ensures moved { IfSome result IsMoved }
{
    if is_white(byte) {
        if digits == 0 {
            None
        } else {
            Some(Spot::Between { next: address })
        }
    } else if digits < 4 {
        longer(digits, address, byte)
    } else {
        None
    }
}

fn longer(digits: u8, address: u32, byte: u8) -> Option<Spot>
    requires short { digits < 4 }
    requires small { address < 16 ^ digits }
    ensures leads { result ≡ option_map (λ d. Spot.Origin (digits + 1) (16 * address + d)) (digit_of byte) }
    ensures moved { IfSome result IsMoved }
{
    let digit = u32::from(digit_of(byte)?);
    Some(Spot::Origin {
        digits: digits + 1,
        address: 16 * address + digit,
    })
}
