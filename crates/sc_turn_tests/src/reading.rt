//! The words of a row.

use sc_value::{NoMemory, Text};
use std::alloc::Global;

/// What stands before this character and behind it; nothing behind where it isn't there.
pub fn cut(text: &str, at: char) -> (&str, &str) {
    match text.split_once(at) {
        Some((before, behind)) => (before, behind),
        None => (text, ""),
    }
}

/// The word of this place, from 0; empty where there are fewer.
pub fn word(text: &str, place: usize) -> &str {
    match text.split_whitespace().nth(place) {
        Some(word) => word,
        None => "",
    }
}

/// The number that stands at this place, 0 for none.
pub fn number(text: &str, place: usize) -> u32 {
    match word(text, place).parse::<u32>() {
        Ok(number) => number,
        Err(_) => 0,
    }
}

/// A code or a count of seconds, 0 for none.
pub fn small_number(text: &str, place: usize) -> u16 {
    match word(text, place).parse::<u16>() {
        Ok(number) => number,
        Err(_) => 0,
    }
}

/// A number that may be below 0, 0 for none.
pub fn signed_number(text: &str, place: usize) -> i32 {
    match word(text, place).parse::<i32>() {
        Ok(number) => number,
        Err(_) => 0,
    }
}

fn meant(byte: u8) -> u8 {
    match byte {
        b'_' => b' ',
        b'^' => b'\r',
        b'|' => b'\n',
        b'!' => b'=',
        _ => byte,
    }
}

/// The text that a word stands for: `_` for a blank, `^` and `|` for CR and LF, `!` for `=`, `~`
/// for nothing.
pub fn text_of(alloc: Global, word: &str) -> Result<Text, NoMemory> {
    let mut text = Text::new(alloc);
    for byte in word.as_bytes() {
        if *byte != b'~' {
            text.append(&[meant(*byte)])?;
        }
    }
    Ok(text)
}
