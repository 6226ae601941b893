//! Texts that are built from pieces.
use std::alloc::{AllocError, Global};

/// A file by its name.
#[derive(Drop)]
pub struct Text {
    pub name: String,
    pub bytes: Vec<u8>,
}

/// The bytes of the file of a name; none where there is no such file.
pub fn bytes_of<'a>(texts: &'a [Text], name: &str) -> Option<&'a [u8]> {
    for text in texts {
        if text.name.as_str() == name {
            return Some(text.bytes.as_slice());
        }
    }
    None
}

/// Begins the file of a name, behind all others.
pub fn begin(alloc: Global, texts: &mut Vec<Text>, name: &str) -> Result<(), AllocError> {
    texts.retain(|text| text.name.as_str() != name);
    texts.push(Text {
        name: String::from_str(alloc, name)?,
        bytes: Vec::new(alloc),
    })?;
    Ok(())
}

/// Adds bytes to the last file a number of times.
pub fn add(texts: &mut [Text], bytes: &[u8], times: u32) -> Result<(), AllocError> {
    let Some(last) = texts.last_mut() else {
        return Ok(());
    };
    for _ in 0..times {
        last.bytes.extend_from_slice(bytes)?;
    }
    Ok(())
}

/// Adds a piece to the last file for each of these numbers.
pub fn add_each(
    alloc: Global,
    texts: &mut [Text],
    piece: &[u8],
    first: u32,
    last: u32,
) -> Result<(), AllocError> {
    for number in first..=last {
        let bytes = numbered(alloc, piece, number)?;
        add(texts, bytes.as_slice(), 1)?;
    }
    Ok(())
}

// The piece with the number in the place of each `#`, and the one before it in that of each `@`.
fn numbered(alloc: Global, piece: &[u8], number: u32) -> Result<Vec<u8>, AllocError> {
    let this = format!(in alloc; "{number}")?;
    let before = number.saturating_sub(1);
    let before = format!(in alloc; "{before}")?;
    let mut bytes = Vec::new(alloc);
    add_numbered(&mut bytes, piece, this.as_bytes(), before.as_bytes())?;
    Ok(bytes)
}

fn add_numbered(
    bytes: &mut Vec<u8>,
    piece: &[u8],
    this: &[u8],
    before: &[u8],
) -> Result<(), AllocError> {
    for byte in piece {
        match *byte {
            b'#' => bytes.extend_from_slice(this)?,
            b'@' => bytes.extend_from_slice(before)?,
            other => bytes.push(other)?,
        }
    }
    Ok(())
}
