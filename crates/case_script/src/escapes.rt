//! How bytes are written as lines of a file of cases.
//!
//! In a line `\r` stands for a carriage return, `\t` for a tab, `\\` for a backslash and `\xHH` for a byte. A line feed ends it,
//! which a backslash at its end takes away.

use crate::words;
use std::alloc::{AllocError, Global};

/// What was read last of a line.
#[derive(Clone, Copy)]
enum Read {
    Byte,
    Backslash,
    Hex,
    HighDigit(u8),
}

/// Puts the bytes that a line stands for at the end of others.
pub fn push_unescaped(bytes: &mut Vec<u8>, line: &[u8]) -> Result<(), AllocError> {
    let mut read = Read::Byte;
    for byte in line {
        read = take_byte(bytes, read, *byte)?;
    }
    match read {
        Read::Backslash => {}
        _ => bytes.push(b'\n')?,
    }
    Ok(())
}

/// Takes a byte as it stands in the line.
fn take_byte(bytes: &mut Vec<u8>, read: Read, byte: u8) -> Result<Read, AllocError> {
    let meant = match (read, byte) {
        (Read::Byte, b'\\') => return Ok(Read::Backslash),
        (Read::Backslash, b'x') => return Ok(Read::Hex),
        (Read::Hex, _) => return Ok(Read::HighDigit(words::digit(byte))),
        (Read::Backslash, b'r') => b'\r',
        (Read::Backslash, b't') => b'\t',
        (Read::HighDigit(high), _) => (high << 4) | words::digit(byte),
        (Read::Byte | Read::Backslash, _) => byte,
    };
    bytes.push(meant)?;
    Ok(Read::Byte)
}

/// The lines that stand for bytes, each behind a text, and behind a space where there is anything on it.
pub fn escaped(alloc: Global, before: &str, bytes: &[u8]) -> Result<Vec<u8>, AllocError> {
    let (lines, end) = match bytes.strip_suffix(b"\n") {
        Some(lines) => (lines, ""),
        None => (bytes, "\\"),
    };
    let mut written = Vec::new(alloc);
    for line in lines.split(|byte| *byte == b'\n') {
        if !written.is_empty() {
            written.push(b'\n')?;
        }
        written.extend_from_slice(before.as_bytes())?;
        push_escaped(alloc, &mut written, line)?;
    }
    written.extend_from_slice(end.as_bytes())?;
    Ok(written)
}

/// Puts a line that stands for bytes without a line feed behind a space, if there are any. Bytes that are no text, and a space at
/// the end, are written as numbers.
fn push_escaped(alloc: Global, written: &mut Vec<u8>, line: &[u8]) -> Result<(), AllocError> {
    let is_text = str::from_utf8(line).is_ok();
    if !line.is_empty() {
        written.push(b' ')?;
    }
    for (place, byte) in line.iter().enumerate() {
        let is_last = line.len() - place == 1;
        push_byte(alloc, written, *byte, is_text, is_last)?;
    }
    Ok(())
}

fn push_byte(
    alloc: Global,
    written: &mut Vec<u8>,
    byte: u8,
    is_text: bool,
    is_last: bool,
) -> Result<(), AllocError> {
    match byte {
        b'\\' => written.extend_from_slice(b"\\\\"),
        b'\r' => written.extend_from_slice(b"\\r"),
        b'\t' => written.extend_from_slice(b"\\t"),
        b' ' if !is_last => written.extend_from_slice(b" "),
        b'!'..=b'~' => written.extend_from_slice(&[byte]),
        128..=255 if is_text => written.extend_from_slice(&[byte]),
        _ => written.extend_from_slice(format!(in alloc; "\\x{byte:02x}")?.as_bytes()),
    }
}
