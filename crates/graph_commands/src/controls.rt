//! Names without control characters.

use std::alloc::{AllocError, Global};

/// The digit of the lowest four bits of a number.
fn digit(number: u32) -> char {
    char::from_digit(number % 16, 16).unwrap_or('0')
}

/// Puts a character behind a text, by its number.
fn put_number(text: &mut String, c: char) -> Result<(), AllocError> {
    let number = c as u32;
    text.push_str("\\x")?;
    text.push(digit(number / 16))?;
    text.push(digit(number))
}

/// A text with each control character by its number, as `\x1b`.
pub(crate) fn without_controls(alloc: Global, text: &str) -> Result<String, AllocError> {
    let mut shown = String::new(alloc);
    for c in text.chars() {
        if c.is_control() {
            put_number(&mut shown, c)?;
        } else {
            shown.push(c)?;
        }
    }
    Ok(shown)
}
