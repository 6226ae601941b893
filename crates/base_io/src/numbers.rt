//! Numbers as digits.
ghost use Rattle.std.specs.Prelude.{◌≡◌, ◌<◌, decimal};
ghost use Rattle.base_io.specs.Counts.{CountsFaults};
ghost use Rattle.base_io.specs.Digits.{hex_digit, hex_word};
ghost use Rattle.base_io.specs.Pieces.{AddsTold};

use crate::{Sink, SinkFault};
use itoa::Buffer;

/// Puts the decimal digits of the number, with no leading zero, in one `put`. It takes no memory.
pub fn put_dec<K: Sink>(n: u64, sink: &mut K) -> Result<(), SinkFault>
    ensures told { AddsTold (decimal n) result (K.taken sink.old) (K.taken sink.new) }
    ensures cause { CountsFaults result (K.faults sink.old) (K.faults sink.new) }
{
    let mut buffer = Buffer::new();
    sink.put(buffer.format(n).as_bytes())
}

/// Puts the four upper-case hexadecimal digits of the number in one `put`. It takes no memory.
pub fn put_hex<K: Sink>(n: u16, sink: &mut K) -> Result<(), SinkFault>
    ensures told { AddsTold (hex_word n) result (K.taken sink.old) (K.taken sink.new) }
    ensures cause { CountsFaults result (K.faults sink.old) (K.faults sink.new) }
{
    let digits = [
        hex_digit(n / 4096),
        hex_digit(n / 256 % 16),
        hex_digit(n / 16 % 16),
        hex_digit(n % 16),
    ];
    sink.put(&digits)
}

fn hex_digit(d: u16) -> u8
    requires { d < 16 }
    ensures { result ≡ hex_digit d }
{
    if d < 10 { 48 + d as u8 } else { 55 + d as u8 }
}
