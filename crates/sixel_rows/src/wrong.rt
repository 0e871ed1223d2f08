//! What is printed for a wrong row.

use crate::format::Row;
use crate::tasks::{Ended, Wrong};
use std::alloc::{AllocError, Global};

/// The hexadecimal digit of a value.
fn hex(value: u8) -> u8 {
    let value = value & 15;
    if value < 10 {
        b'0' + value
    } else {
        b'A' + (value - 10)
    }
}

/// Adds a byte, written as in a file of rows.
fn push_escaped(text: &mut String, byte: u8) -> Result<(), AllocError> {
    match byte {
        b'\n' => text.push_str("\\n"),
        b'\\' => text.push_str("\\\\"),
        b' '..=b'~' => text.push(char::from(byte)),
        _ => {
            text.push_str("\\x")?;
            text.push(char::from(hex(byte >> 4)))?;
            text.push(char::from(hex(byte)))
        }
    }
}

/// The bytes, written as in a file of rows.
fn escaped(alloc: Global, bytes: &[u8]) -> Result<String, AllocError> {
    let mut text = String::new(alloc);
    if bytes.is_empty() {
        text.push('-')?;
    }
    for byte in bytes {
        push_escaped(&mut text, *byte)?;
    }
    Ok(text)
}

/// How a run ended or must end, as the last three columns of a row.
fn columns(alloc: Global, status: u8, output: &[u8], said: &[u8]) -> Result<String, AllocError> {
    let output = escaped(alloc, output)?;
    let said = escaped(alloc, said)?;
    format!(in alloc; "{status}\t{output}\t{said}")
}

/// The lines for a wrong row: where it is, in which cutting, how it ended, and how it must end.
pub fn wrong_lines(
    alloc: Global,
    file: &str,
    row: &Row<'_>,
    wrong: &Wrong,
) -> Result<String, AllocError> {
    let Row { line, words, .. } = row;
    let Wrong { cutting, ended } = wrong;
    let Ended {
        status,
        output,
        said,
        flushes,
    } = ended;
    let got = columns(alloc, *status, output.as_slice(), said.as_slice())?;
    let wanted = columns(
        alloc,
        row.status,
        row.output.as_slice(),
        row.said.as_slice(),
    )?;
    format!(in alloc;
        "{file}:{line}: {words}: {cutting:?}, flushed {flushes} times\n  got    {got}\n  wanted {wanted}"
    )
}
