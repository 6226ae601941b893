//! Words as bytes.

ghost use Rattle.std.specs.Prelude.{◌≡◌, ◌++◌, OnOk};
ghost use Rattle.resumed_runs.specs.Bytes.{bytes_of};

use base_io::Memory;

/// Appends words, the low byte of each first.
pub fn put_words(words: &[u16], to: &mut Vec<u8>) -> Result<(), Memory>
    ensures { OnOk result (to.new.items ≡ to.old.items ++ bytes_of words.now) }
{
    let mut rest = words;
    while let [word, others @ ..] = rest {
        let bytes = [(*word % 256) as u8, (*word / 256) as u8];
        if to.extend_from_slice(&bytes).is_err() {
            return Err(Memory);
        }
        rest = others;
    }
    Ok(())
}
