//! The most bytes of each kind of file. `specs/Reads.antt` has the same names.

/// Of the text of a program.
pub const MOST_PROGRAM: usize = 65_536;

/// Of a board file.
pub const MOST_BOARD: usize = 65_536;

/// Of the text of an image.
pub const MOST_IMAGE: usize = 262_144;

/// Of a certificate.
pub const MOST_CERTIFICATE: usize = 8_388_608;

/// Of an input, or of a supply.
pub const MOST_INPUT: usize = 4_194_304;
