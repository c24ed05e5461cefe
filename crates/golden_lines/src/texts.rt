//! Bytes as a text of one line.

use std::alloc::{AllocError, Global};

/// Appends the bytes that a text stands for: `|` is a newline, `^` a carriage return and `~` the byte 255.
pub fn push_text(bytes: &mut Vec<u8>, text: &str) -> Result<(), AllocError> {
    for byte in text.as_bytes() {
        bytes.push(match *byte {
            b'|' => b'\n',
            b'^' => b'\r',
            b'~' => 255,
            byte => byte,
        })?;
    }
    Ok(())
}

/// A text that stands for these bytes.
pub fn text_of(alloc: Global, bytes: &[u8]) -> Result<String, AllocError> {
    let mut text = String::new(alloc);
    for byte in bytes {
        text.push(match *byte {
            b'\n' => '|',
            b'\r' => '^',
            255 => '~',
            byte => byte as char,
        })?;
    }
    Ok(text)
}
