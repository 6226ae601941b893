//! Reading to a limit and writing to the end.
ghost use Rattle.std.specs.Prelude.{◌<◌};
ghost use Rattle.base_io.specs.Streams.{ReadsWithin, WritesWhole};

use crate::GetFault;
use std::alloc::Global;
use std::io::{ErrorKind, Read, Write};

const PIECE: usize = 4096;

/// Reads what is left, where there are no more bytes than the limit. It asks for one byte more at most.
pub(crate) fn read_within<F: Read>(
    alloc: Global,
    file: &mut F,
    limit: usize,
) -> Result<Vec<u8>, GetFault>
    requires { limit < usize.MAX }
    ensures { ReadsWithin limit (F.remaining file.old) (F.remaining file.new) result }
{
    let mut bytes = Vec::new(alloc);
    let mut piece = [0u8; PIECE];
    for _ in 0..u64::MAX {
        let room = (limit - bytes.len()).saturating_add(1).min(PIECE);
        let count = match file.read(&mut piece[..room]) {
            Ok(count) => count,
            Err(e) if e.kind() == ErrorKind::Interrupted => continue,
            Err(_) => return Err(GetFault::Failed),
        };
        if count == 0 {
            return Ok(bytes);
        }
        if count > limit - bytes.len() {
            return Err(GetFault::TooLong { seen: limit + 1 });
        }
        if bytes.extend_from_slice(&piece[..count]).is_err() {
            return Err(GetFault::Memory);
        }
    }
    Err(GetFault::Failed)
}

/// Writes all the bytes, or answers false. A write that takes none of the bytes that are left fails.
pub(crate) fn write_whole<W: Write>(to: &mut W, bytes: &[u8]) -> bool
    ensures { WritesWhole bytes.now result (W.contents to.old) (W.contents to.new) }
{
    let mut rest = bytes;
    for _ in 0..u64::MAX {
        if rest.is_empty() {
            return true;
        }
        match to.write(rest) {
            Ok(0) => return false,
            Ok(count) => rest = &rest[count..],
            Err(e) if e.kind() == ErrorKind::Interrupted => {}
            Err(_) => return false,
        }
    }
    false
}
