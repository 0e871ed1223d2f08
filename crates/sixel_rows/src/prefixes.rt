//! Rows that follow from another row: each prefix of a document is refused as truncated.

use crate::format::Row;
use crate::tasks::MOST_SHORT;
use std::alloc::{AllocError, Global};

/// Whether the row is a check of a short document that ends with ESC `\`, so that no prefix of it is a document.
pub fn has_prefixes(row: &Row<'_>) -> bool {
    row.input.len() <= MOST_SHORT
        && row.status < 2
        && row.words.starts_with("check")
        && row.input.as_slice().ends_with(b"\x1b\\")
}

/// The row of a prefix of `length` bytes: it is refused as truncated at its end, and nothing is written.
pub fn prefix_of<'a>(alloc: Global, row: &Row<'a>, length: usize) -> Result<Row<'a>, AllocError> {
    let prefix = row.input.as_slice().get(..length).unwrap_or(&[]);
    let said = format!(in alloc; "sixel: Truncated at {length}\n")?;
    Ok(Row {
        line: row.line,
        words: row.words,
        input: prefix.to_vec(alloc)?,
        status: 2,
        output: Vec::new(alloc),
        said: said.as_bytes().to_vec(alloc)?,
    })
}
