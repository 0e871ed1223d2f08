//! Reads the lines of a file of rows. `data/README.md` describes the format.

use std::alloc::{AllocError, AllocFailed, Global};
use thiserror::Error;

/// One row: a task on an input, and how it must end.
#[derive(Drop)]
pub struct Row<'a> {
    /// The number of its line in the file, from 1.
    pub line: u64,
    /// The task as on the command line, without the program's name.
    pub words: &'a str,
    pub input: Vec<u8>,
    /// The exit status that it must have.
    pub status: u8,
    /// What it must write to standard output.
    pub output: Vec<u8>,
    /// The first line that it must write to standard error; empty for none.
    pub said: Vec<u8>,
}

/// Why a file of rows is malformed.
#[derive(Clone, Copy, Debug, Error)]
pub enum RowFault {
    #[error("a row has five columns with one tab between two")]
    Columns,
    #[error("a byte is written as itself, from space to `~`, or as one of the escapes")]
    Escape,
    #[error("a status is 0, 1 or 2")]
    Status,
    #[error("the words name no task")]
    Words,
    #[error("out of memory")]
    OutOfMemory,
}

impl From<AllocError> for RowFault {
    fn from(_: AllocError) -> RowFault {
        RowFault::OutOfMemory
    }
}

impl<T: Drop> From<AllocFailed<T>> for RowFault {
    fn from(_: AllocFailed<T>) -> RowFault {
        RowFault::OutOfMemory
    }
}

/// A fault, and its line.
#[derive(Clone, Copy, Debug, Error)]
#[error("line {line}: {fault}")]
pub struct Malformed {
    pub line: u64,
    pub fault: RowFault,
}

/// The rows of a file. Empty lines, and lines that begin with `#`, are skipped.
pub fn rows_of(alloc: Global, text: &str) -> Result<Vec<Row<'_>>, Malformed> {
    let mut rows = Vec::new(alloc);
    let mut line: u64 = 0;
    for written in text.lines() {
        line = line.saturating_add(1);
        if let Err(fault) = push_row(alloc, &mut rows, line, written) {
            return Err(Malformed { line, fault });
        }
    }
    Ok(rows)
}

/// Adds the row of a line, unless the line is skipped.
fn push_row<'a>(
    alloc: Global,
    rows: &mut Vec<Row<'a>>,
    line: u64,
    written: &'a str,
) -> Result<(), RowFault> {
    if !written.is_empty() && !written.starts_with('#') {
        rows.push(row_of(alloc, line, written)?)?;
    }
    Ok(())
}

/// What comes before and after the first tab.
fn column<'a>(written: &'a str) -> Result<(&'a str, &'a str), RowFault> {
    written.split_once('\t').ok_or(RowFault::Columns)
}

/// The row of a line.
fn row_of<'a>(alloc: Global, line: u64, written: &'a str) -> Result<Row<'a>, RowFault> {
    let (words, rest) = column(written)?;
    let (input, rest) = column(rest)?;
    let (status, rest) = column(rest)?;
    let (output, said) = column(rest)?;
    if said.contains('\t') {
        return Err(RowFault::Columns);
    }
    Ok(Row {
        line,
        words,
        input: bytes_of(alloc, input)?,
        status: status_of(status)?,
        output: bytes_of(alloc, output)?,
        said: bytes_of(alloc, said)?,
    })
}

fn status_of(written: &str) -> Result<u8, RowFault> {
    match written {
        "0" => Ok(0),
        "1" => Ok(1),
        "2" => Ok(2),
        _ => Err(RowFault::Status),
    }
}

/// The part of an escape that was read so far.
#[derive(Clone, Copy)]
enum Open {
    Nothing,
    /// A `\`.
    Escape,
    /// A `\x`.
    Hex,
    /// A `\x`, and a digit of this value.
    Digit(u8),
}

/// The bytes of a column: none for `-`.
fn bytes_of(alloc: Global, written: &str) -> Result<Vec<u8>, RowFault> {
    let mut bytes = Vec::new(alloc);
    if written == "-" {
        return Ok(bytes);
    }
    if written.is_empty() {
        return Err(RowFault::Columns);
    }
    let mut open = Open::Nothing;
    for sign in written.as_bytes() {
        open = step(&mut bytes, open, *sign)?;
    }
    match open {
        Open::Nothing => Ok(bytes),
        _ => Err(RowFault::Escape),
    }
}

/// Takes one character of a column, and adds the byte that it completes.
fn step(bytes: &mut Vec<u8>, open: Open, sign: u8) -> Result<Open, RowFault> {
    match (open, sign) {
        (Open::Nothing, b'\\') => return Ok(Open::Escape),
        (Open::Nothing, b' '..=b'~') => bytes.push(sign)?,
        (Open::Escape, b'\\') => bytes.push(b'\\')?,
        (Open::Escape, b'n') => bytes.push(b'\n')?,
        (Open::Escape, b'x') => return Ok(Open::Hex),
        (Open::Hex, _) => return Ok(Open::Digit(digit(sign)?)),
        (Open::Digit(high), _) => bytes.push((high & 15) * 16 + (digit(sign)? & 15))?,
        _ => return Err(RowFault::Escape),
    }
    Ok(Open::Nothing)
}

/// The value of a hexadecimal digit.
fn digit(sign: u8) -> Result<u8, RowFault> {
    match sign {
        b'0'..=b'9' => Ok(sign - b'0'),
        b'A'..=b'F' => Ok(sign - b'A' + 10),
        _ => Err(RowFault::Escape),
    }
}
