//! Texts of several lines in one.
use rows::RowFault;
use std::alloc::{AllocError, Global};
use std::str;

/// Writes the text with `\n` for each line feed, and `\\` for each backslash.
pub(crate) fn escape(text: &str, escaped: &mut String) -> Result<(), AllocError> {
    for letter in text.chars() {
        match letter {
            '\n' => escaped.push_str("\\n")?,
            '\\' => escaped.push_str("\\\\")?,
            _ => escaped.push(letter)?,
        }
    }
    Ok(())
}

/// The bytes of an escaped text.
pub(crate) fn unescaped(alloc: Global, text: &str) -> Result<Vec<u8>, RowFault> {
    let mut bytes = Vec::new(alloc);
    let mut is_escaped = false;
    for &byte in text.as_bytes() {
        if is_escaped {
            bytes.push(meant(byte)?).map_err(AllocError::from)?;
            is_escaped = false;
        } else if byte == b'\\' {
            is_escaped = true;
        } else {
            bytes.push(byte).map_err(AllocError::from)?;
        }
    }
    Ok(bytes)
}

/// The text that is escaped.
pub(crate) fn unescaped_text(alloc: Global, text: &str) -> Result<String, RowFault> {
    let bytes = unescaped(alloc, text)?;
    let text = str::from_utf8(bytes.as_slice()).map_err(|_| RowFault::Unread)?;
    Ok(String::from_str(alloc, text)?)
}

/// What is meant by the byte behind a backslash; `\?` is a byte that no text has.
fn meant(byte: u8) -> Result<u8, RowFault> {
    match byte {
        b'n' => Ok(b'\n'),
        b'r' => Ok(b'\r'),
        b'\\' => Ok(b'\\'),
        b'?' => Ok(255),
        _ => Err(RowFault::Unread),
    }
}
