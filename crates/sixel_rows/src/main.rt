//! Runs the rows of `data/` through `run`, with inputs cut in many ways: the conformance suite of this repository.
//!
//! It prints the number of rows of each file. If a run ends in another way than its row says, it prints the row, and
//! the exit status is 1. The plain judge and the terminals also test the inputs of `check.rows`, and made documents;
//! those of `mend.rows` are mended at once too. A file that can't be read, an empty file and a malformed row are errors.
#![tactic(auto)]

mod devices;
mod format;
mod judged;
mod judges;
mod mended;
mod prefixes;
mod steps;
mod tasks;
mod terminals;
mod words;
mod wrong;

use crate::format::{Row, rows_of};
use crate::judged::{judge_made, judge_rows};
use crate::mended::mend_rows;
use crate::prefixes::{has_prefixes, prefix_of};
use crate::tasks::{Wrong, wrong_in_some_pieces, wrong_of};
use crate::wrong::wrong_lines;
use anyhow::{Context, anyhow};
use sixel_model::Profile;
use std::fs;
use std::process::ExitCode;

/// The files of rows, one for each task.
const FILES: [&str; 9] = [
    "list.rows",
    "check.rows",
    "survey.rows",
    "scan.rows",
    "render.rows",
    "show.rows",
    "encode.rows",
    "mend.rows",
    "differ.rows",
];

/// The file whose rows the plain judge judges too.
const JUDGED: &str = "check.rows";

/// The file whose inputs are mended at once too.
const MENDED: &str = "mend.rows";

fn main(rt: HostRuntime) -> Result<ExitCode, anyhow::Error> {
    let mut wrong: u64 = 0;
    for name in FILES {
        wrong = wrong.saturating_add(run_file(&rt, name)?);
    }
    for profile in [Profile::Registers16, Profile::Registers256] {
        wrong = wrong.saturating_add(judge_made(&rt, profile)?);
    }
    Ok(if wrong == 0 {
        ExitCode::SUCCESS
    } else {
        ExitCode::FAILURE
    })
}

/// Runs the rows of a file, and prints their number and each wrong one. Returns how many are wrong.
fn run_file(rt: &HostRuntime, name: &str) -> Result<u64, anyhow::Error> {
    let text = fs::read_to_string(rt, name).context(name)?;
    let rows = rows_of(rt.alloc(), text.as_str()).context(name)?;
    if rows.is_empty() {
        return Err(anyhow!("{name}: no rows"));
    }
    let mut wrong: u64 = 0;
    for row in &rows {
        wrong = wrong.saturating_add(run_row(rt, name, row)?);
    }
    println!(rt; "{name}: {} rows", rows.len())?;
    if name == JUDGED {
        wrong = wrong.saturating_add(judge_rows(rt, name, rows.as_slice())?);
    }
    if name == MENDED {
        wrong = wrong.saturating_add(mend_rows(rt, name, rows.as_slice())?);
    }
    Ok(wrong)
}

/// Runs a row, and its prefixes if it has any, and prints what is wrong. Returns how many are wrong.
fn run_row(rt: &HostRuntime, name: &str, row: &Row<'_>) -> Result<u64, anyhow::Error> {
    let wrong = wrong_of(rt.alloc(), row).map_err(|fault| anyhow!(
        "{name}: line {}: {fault}",
        row.line
    ))?;
    let mut count = report(rt, name, row, wrong)?;
    if has_prefixes(row) {
        for length in 0..row.input.len() {
            count = count.saturating_add(run_prefix(rt, name, row, length)?);
        }
    }
    Ok(count)
}

/// Runs a prefix of a row.
fn run_prefix(
    rt: &HostRuntime,
    name: &str,
    row: &Row<'_>,
    length: usize,
) -> Result<u64, anyhow::Error> {
    let prefix = prefix_of(rt.alloc(), row, length)?;
    let wrong = wrong_in_some_pieces(rt.alloc(), &prefix)?;
    report(rt, name, &prefix, wrong)
}

/// Prints what is wrong with a row, if anything is. Returns how many are wrong: 0 or 1.
fn report(
    rt: &HostRuntime,
    name: &str,
    row: &Row<'_>,
    wrong: Option<Wrong>,
) -> Result<u64, anyhow::Error> {
    match wrong {
        None => Ok(0),
        Some(wrong) => {
            rt.println(wrong_lines(rt.alloc(), name, row, &wrong)?)?;
            Ok(1)
        }
    }
}
