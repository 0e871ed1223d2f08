//! The rows of `mend`, mended from all of their bytes at once.

use crate::devices::KeepingSink;
use crate::format::{Row, RowFault};
use crate::words::task_of;
use sixel_encode::encode;
use sixel_fit::{Fitting, fit};
use sixel_mend::{MendFault, Mending, mend};
use sixel_model::Picture;
use sixel_report::{RunFault, Task, fault_line};
use std::alloc::Global;

/// Whether this is the text of the picture.
fn is_text_of(alloc: Global, picture: &Picture, text: &[u8]) -> bool {
    let mut sink = KeepingSink::new(alloc, usize::MAX);
    match encode(picture, &mut sink) {
        Ok(()) => sink.bytes.as_slice() == text,
        Err(_) => false,
    }
}

/// What named terminals show of a mended picture.
fn fitted(
    alloc: Global,
    fitting: Fitting,
    mended: Result<Picture, MendFault>,
) -> Result<Picture, RunFault> {
    match mended {
        Ok(picture) => match fit(alloc, fitting, picture) {
            Ok(picture) => Ok(picture),
            Err(fault) => Err(RunFault::from(fault)),
        },
        Err(fault) => Err(RunFault::from(fault)),
    }
}

/// Whether the row ends as this picture, or for this reason.
fn is_end_of(alloc: Global, row: &Row<'_>, mended: Result<Picture, RunFault>) -> bool {
    match mended {
        Ok(picture) => row.status == 0 && is_text_of(alloc, &picture, row.output.as_slice()),
        Err(fault) => {
            row.status == 2
                && row.output.is_empty()
                && fault_line(&fault).as_slice() == row.said.as_slice()
        }
    }
}

/// Whether `mend` makes of the row's input what the row says.
fn is_mended_so(alloc: Global, row: &Row<'_>) -> Result<bool, RowFault> {
    match task_of(row.words)? {
        Task::Mend {
            profile,
            background,
            showing,
            selects,
            fitting,
        } => {
            let mending = Mending {
                background,
                showing,
                selects,
            };
            let mended = mend(alloc, profile, &mending, row.input.as_slice());
            Ok(is_end_of(alloc, row, fitted(alloc, fitting, mended)))
        }
        _ => Ok(false),
    }
}

/// Mends the inputs of the rows, and prints their number and each one that `mend` makes otherwise. Returns the number of
/// these.
pub fn mend_rows(
    rt: &(impl AllocGlobal + Print),
    name: &str,
    rows: &[Row<'_>],
) -> Result<u64, anyhow::Error> {
    let mut wrong: u64 = 0;
    for row in rows {
        if !is_mended_so(rt.alloc(), row)? {
            println!(rt; "{name}:{}: {}: `mend` disagrees", row.line, row.words)?;
            wrong = wrong.saturating_add(1);
        }
    }
    println!(rt; "{name}: {} rows mended at once", rows.len())?;
    Ok(wrong)
}
