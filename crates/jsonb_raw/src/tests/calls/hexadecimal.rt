//! Bytes from hexadecimal, and back.

use std::alloc::{AllocError, Global};

/// Returns the value of a lower-case digit.
fn value(digit: u8) -> u8 {
    match digit {
        b'0'..=b'9' => digit - b'0',
        b'a'..=b'f' => digit - b'a' + 10,
        _ => 0,
    }
}

/// Returns the bytes of hexadecimal digits.
pub fn bytes(alloc: Global, text: &str) -> Result<Vec<u8>, AllocError> {
    let mut bytes = Vec::new(alloc);
    let mut high = None;
    for digit in text.bytes() {
        high = match high {
            None => Some(value(digit)),
            Some(first) => {
                bytes.push((first << 4) | value(digit))?;
                None
            }
        };
    }
    Ok(bytes)
}

/// Returns the digit of a value below 16.
fn digit(value: u8) -> char {
    char::from_digit(u32::from(value), 16).unwrap_or('?')
}

/// Appends the bytes in hexadecimal.
pub fn push_digits(text: &mut String, bytes: &[u8]) -> Result<(), AllocError> {
    for byte in bytes {
        text.push(digit(byte >> 4))?;
        text.push(digit(byte & 15))?;
    }
    Ok(())
}

/// Returns the bytes in hexadecimal.
pub fn digits(alloc: Global, bytes: &[u8]) -> Result<String, AllocError> {
    let mut text = String::new(alloc);
    push_digits(&mut text, bytes)?;
    Ok(text)
}
