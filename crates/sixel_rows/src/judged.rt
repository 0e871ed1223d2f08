//! The rows of `check`, tested with the plain judge and with terminals.

use crate::format::Row;
use crate::judges::{are_neighbours_alike, is_judged_alike, make_tally};
use crate::terminals::{DIFFERENCES, is_shown_so};
use anyhow::anyhow;
use sixel_check::Rule;
use sixel_grammar::InputFault;
use sixel_model::Profile;
use std::alloc::Global;

/// The profile of a row's check, if its task is one, and only the rules of portable pictures count.
fn profile_of(words: &str) -> Option<Profile> {
    match words {
        "check" => Some(Profile::Registers16),
        "check --wide" => Some(Profile::Registers256),
        _ => None,
    }
}

/// Whether the check of the bytes and of their neighbours agrees with the plain judge, and the terminals agree with the
/// verdict. If two terminals differ by the choice of a broken rule, the rule is added to `rules`.
fn is_right(
    alloc: Global,
    profile: Profile,
    bytes: &[u8],
    rules: &mut Vec<Rule>,
) -> Result<bool, InputFault> {
    Ok(
        is_judged_alike(alloc, profile, bytes)?
            && are_neighbours_alike(alloc, profile, bytes)?
            && is_shown_so(alloc, profile, bytes, rules)?,
    )
}

/// The error for a fault that keeps the judges from judging.
fn reason_of(fault: InputFault) -> anyhow::Error {
    match fault {
        InputFault::Grammar(_) => anyhow!("no document"),
        InputFault::OutOfMemory => anyhow!("out of memory"),
        InputFault::Read => anyhow!("a slice is read"),
    }
}

/// Judges the rows in which only the rules of portable pictures count, and prints their number and each one on which
/// the judges or the terminals disagree. Returns the number of these.
pub fn judge_rows(
    rt: &(impl AllocGlobal + Print),
    name: &str,
    rows: &[Row<'_>],
) -> Result<u64, anyhow::Error> {
    let mut wrong: u64 = 0;
    let mut judged: u64 = 0;
    let mut rules = Vec::new(rt.alloc());
    for row in rows {
        if let Some(profile) = profile_of(row.words) {
            judged = judged.saturating_add(1);
            let right = is_right(rt.alloc(), profile, row.input.as_slice(), &mut rules);
            if !right.map_err(reason_of)? {
                println!(rt;
                    "{name}:{}: {}: the plain judge or the terminals disagree",
                    row.line, row.words
                )?;
                wrong = wrong.saturating_add(1);
            }
        }
    }
    if rules.len() < DIFFERENCES {
        println!(rt; "{name}: terminals differ only by {:?}", rules.as_slice())?;
        wrong = wrong.saturating_add(1);
    }
    println!(rt; "{name}: {judged} rows judged")?;
    Ok(wrong)
}

/// Judges made documents of a profile. If verdicts disagree, or some rule was never broken, it prints how many
/// disagree, and returns 1; else it returns 0.
pub fn judge_made(rt: &(impl AllocGlobal + Print), profile: Profile) -> Result<u64, anyhow::Error> {
    let tally = make_tally(rt.alloc(), profile).map_err(reason_of)?;
    if tally.wrong == 0 && tally.has_all() {
        return Ok(0);
    }
    println!(rt;
        "{profile:?}: {} made documents aren't judged alike",
        tally.wrong
    )?;
    Ok(1)
}
