ghost use Rattle.std.specs.Prelude.{map};
ghost use Rattle.ti_txt.specs.Image.{IsImage, block_of, ascend_prop};

/// Bytes from an address on.
#[derive(Drop)]
pub struct Segment {
    pub start: u16,
    pub bytes: Vec<u8>,
}

/// What a device's memory is loaded with: segments that ascend and neither overlap nor touch, each with a byte at
/// least, in information FRAM (0x1800 to 0x19FF) or in 0x4400 to 0xFFFF (SLAU367, MSP430FR5969 datasheet).
#[derive(Drop)]
pub struct Image {
    pub segments: Vec<Segment>,
    pub ghost ordered: { IsImage (map block_of segments.items) } by { ascend_prop 0 (map block_of segments.items) },
}
