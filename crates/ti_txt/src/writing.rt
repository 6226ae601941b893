ghost use Rattle.std.specs.Prelude.{◌≡◌, ◌<◌, ◌/◌, ◌%◌, ◌++◌, ◌∷◌, [], flat_map, map, OnOk, OnErr};
ghost use Rattle.base_io.specs.Digits.{hex_digit, hex_word};
ghost use Rattle.ti_txt.specs.Grammar.{Holds};
ghost use Rattle.ti_txt.specs.Image.{block_of};
ghost use Rattle.ti_txt.specs.Bytes.{blocks_of};
ghost use Rattle.ti_txt.specs.Spelling.{AllFit, Appends, Fit, bytes_text, block_text, parting, text_of};

use crate::{Image, Segment};
use base_io::Memory;

/// Appends the one text that is written for the image, as TI's tools read it (SLAU101, appendix A.2).
/// Where there is no memory, nothing is appended.
pub fn write(img: &Image, to: &mut Vec<u8>) -> Result<(), Memory>
    ensures appended { OnOk result (to.new.items ≡ to.old.items ++ text_of (blocks_of img.now)) }
    ensures unchanged { OnErr result (to.new.items ≡ to.old.items) }
    // What is written holds the image.
    ensures again { OnOk result (Holds (text_of (blocks_of img.now)) (blocks_of img.now)) }
{
    let before = to.len();
    let outcome = append(&img.segments, to);
    if outcome.is_err() {
        to.truncate(before);
    }
    outcome
}

// Appends the segments and the last line. Where there is no memory, a part of it may have been appended.
fn append(segments: &[Segment], to: &mut Vec<u8>) -> Result<(), Memory>
    ensures appended { Appends (text_of (map block_of segments.now)) result to.old.items to.new.items }
    ensures fit { OnOk result (AllFit (map block_of segments.now)) }
{
    append_segments(segments, to)?;
    put(to, b"q\n")
}

fn append_segments(segments: &[Segment], to: &mut Vec<u8>) -> Result<(), Memory>
    ensures appended { Appends (flat_map block_text (map block_of segments.now)) result to.old.items to.new.items }
    ensures fit { OnOk result (AllFit (map block_of segments.now)) }
{
    for segment in segments {
        append_segment(segment, to)?;
    }
    Ok(())
}

fn append_segment(segment: &Segment, to: &mut Vec<u8>) -> Result<(), Memory>
    ensures appended { Appends (block_text (block_of segment.now)) result to.old.items to.new.items }
    ensures fit { OnOk result (Fit segment.now.bytes.items) }
{
    append_address(segment.start, to)?;
    append_bytes(&segment.bytes, to)
}

// Appends the line of a segment's address.
fn append_address(start: u16, to: &mut Vec<u8>) -> Result<(), Memory>
    ensures { Appends (64 ∷ hex_word start ++ 10 ∷ []) result to.old.items to.new.items }
{
    let line = [
        b'@',
        hex_digit((start / 4096) as u8),
        hex_digit((start / 256 % 16) as u8),
        hex_digit((start / 16 % 16) as u8),
        hex_digit((start % 16) as u8),
        b'\n',
    ];
    put(to, &line)
}

// Appends the bytes of a segment, sixteen to a line.
fn append_bytes(bytes: &[u8], to: &mut Vec<u8>) -> Result<(), Memory>
    ensures appended { Appends (bytes_text 0 bytes.now) result to.old.items to.new.items }
    ensures fit { Fit bytes.now }
{
    let mut rest = bytes;
    let mut number = 0;
    while let [byte, after @ ..] = rest {
        append_byte(*byte, parting(number, after), to)?;
        rest = after;
        number += 1;
    }
    Ok(())
}

// What stands behind the byte of this number.
fn parting(number: usize, after: &[u8]) -> u8
    ensures { result ≡ parting number after.now }
{
    if after.is_empty() || number % 16 == 15 {
        b'\n'
    } else {
        b' '
    }
}

fn append_byte(byte: u8, parting: u8, to: &mut Vec<u8>) -> Result<(), Memory>
    ensures { Appends (hex_digit (byte / 16) ∷ hex_digit (byte % 16) ∷ parting ∷ []) result to.old.items to.new.items }
{
    put(to, &[hex_digit(byte / 16), hex_digit(byte % 16), parting])
}

fn hex_digit(digit: u8) -> u8
    requires { digit < 16 }
    ensures { result ≡ hex_digit digit }
{
    if digit < 10 {
        b'0' + digit
    } else {
        b'A' - 10 + digit
    }
}

fn put(to: &mut Vec<u8>, piece: &[u8]) -> Result<(), Memory>
    ensures { Appends piece.now result to.old.items to.new.items }
{
    match to.extend_from_slice(piece) {
        Ok(()) => Ok(()),
        Err(_) => Err(Memory),
    }
}
