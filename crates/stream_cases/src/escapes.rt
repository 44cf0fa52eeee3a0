//! Bytes as lines of a case have them.

use std::alloc::{AllocError, Global};

/// Where a line stands after a backslash.
#[derive(Clone, Copy, PartialEq, Eq)]
enum Escape {
    /// Not after one.
    None,
    /// Right after one.
    Begun,
    /// Before the two digits of a byte.
    Digits,
    /// Before the second digit, after this value of the first.
    Digit(u8),
}

/// The value of a digit to the base 16; that of any other byte is 0.
fn value_of(digit: u8) -> u8 {
    match digit {
        b'0'..=b'9' => digit - b'0',
        b'a'..=b'f' => digit - b'a' + 10,
        _ => 0,
    }
}

/// The byte of a letter after a backslash.
fn byte_of(letter: u8) -> u8 {
    match letter {
        b'n' => b'\n',
        b'r' => b'\r',
        b't' => b'\t',
        _ => letter,
    }
}

/// Adds what a byte of a line means, and returns where the line then stands.
fn push_byte(out: &mut Vec<u8>, escape: Escape, byte: u8) -> Result<Escape, AllocError> {
    match (escape, byte) {
        (Escape::None, b'\\') => return Ok(Escape::Begun),
        (Escape::None, byte) => out.push(byte)?,
        (Escape::Begun, b'x') => return Ok(Escape::Digits),
        (Escape::Begun, letter) => out.push(byte_of(letter))?,
        (Escape::Digits, digit) => return Ok(Escape::Digit(value_of(digit))),
        (Escape::Digit(first), digit) => out.push(first << 4 | value_of(digit))?,
    }
    Ok(Escape::None)
}

/// Adds the bytes of a line, and its end unless it is joined with the next.
pub(crate) fn push_line(out: &mut Vec<u8>, line: &str) -> Result<(), AllocError> {
    let mut escape = Escape::None;
    for byte in line.as_bytes() {
        escape = push_byte(out, escape, *byte)?;
    }
    if escape == Escape::Begun {
        return Ok(());
    }
    out.push(b'\n')?;
    Ok(())
}

/// Adds a byte as a line has it.
fn push_escaped(out: &mut String, byte: u8) -> Result<(), AllocError> {
    match byte {
        b'\\' => out.push_str("\\\\"),
        b'\n' | b' '..=b'~' => out.push(char::from(byte)),
        _ => {
            let alloc = out.allocator().clone()?;
            out.push_str(format!(in alloc; "\\x{byte:02x}")?.as_str())
        }
    }
}

/// Bytes as lines of a case have them, to be printed.
pub(crate) fn escaped(alloc: Global, bytes: &[u8]) -> Result<String, AllocError> {
    let mut out = String::new(alloc);
    for byte in bytes {
        push_escaped(&mut out, *byte)?;
    }
    Ok(out)
}
