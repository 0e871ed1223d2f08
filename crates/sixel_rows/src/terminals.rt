//! Whether terminals show what a verdict claims.

use sixel_check::{Finding, Rule, Verdict, check_bytes};
use sixel_grammar::{InputFault, Placed, read_all};
use sixel_io::SliceSource;
use sixel_model::{Picture, Profile};
use sixel_plain::{Choice, MOST_SHOWN, all_show, terminals_differ};
use std::alloc::{AllocError, Global};

/// Whether the terminals have room for the picture.
fn is_small(picture: &Picture) -> bool {
    picture.width() <= MOST_SHOWN && picture.height() <= MOST_SHOWN
}

/// Whether the terminals show the pixel that the finding names, if it names one.
fn is_in_sight(finding: &Finding) -> bool {
    let (x, y) = finding.pixel.unwrap_or((0, 0));
    x < MOST_SHOWN as u64 && y < MOST_SHOWN as u64
}

/// The choice by which two terminals must differ: for a pixel outside the box or uncovered, for an 8-bit control at the
/// end, and for painting in a register without a colour.
fn choice_of(finding: &Finding) -> Option<Choice> {
    let differs = match finding.rule {
        Rule::Outside | Rule::Uncovered | Rule::Undefined => is_in_sight(finding),
        Rule::EightBit => finding.place > 0,
        _ => false,
    };
    if differs {
        Choice::of_rule(finding.rule)
    } else {
        None
    }
}

/// Whether two terminals differ, if they must.
fn is_seen(
    alloc: Global,
    profile: Profile,
    events: &[Placed],
    finding: &Finding,
) -> Result<bool, AllocError> {
    match choice_of(finding) {
        Some(choice) => terminals_differ(alloc, profile, events, finding, choice),
        None => Ok(true),
    }
}

/// How many rules have a choice by which terminals differ.
pub const DIFFERENCES: usize = 10;

/// Adds the broken rule to `rules`, if two terminals differ by its choice and it isn't there yet.
fn add_rule(
    alloc: Global,
    profile: Profile,
    events: &[Placed],
    finding: &Finding,
    rules: &mut Vec<Rule>,
) -> Result<(), AllocError> {
    if rules.iter().any(|rule| *rule == finding.rule) {
        return Ok(());
    }
    if let Some(choice) = Choice::of_rule(finding.rule) {
        if terminals_differ(alloc, profile, events, finding, choice)? {
            rules.push(finding.rule)?;
        }
    }
    Ok(())
}

/// Whether all terminals with room show a portable picture, and two terminals differ if a finding says so.
fn is_verdict_shown(
    alloc: Global,
    profile: Profile,
    events: &[Placed],
    verdict: &Verdict,
    rules: &mut Vec<Rule>,
) -> Result<bool, AllocError> {
    match verdict {
        Verdict::Portable(picture) => Ok(
            !is_small(picture) || all_show(alloc, profile, events, picture)?,
        ),
        Verdict::Broken(finding) => {
            add_rule(alloc, profile, events, finding, rules)?;
            is_seen(alloc, profile, events, finding)
        }
    }
}

/// Whether the terminals agree with the verdict on the bytes; always true for bytes with a fault. If two differ by the
/// choice of the broken rule, the rule is added to `rules`.
pub fn is_shown_so(
    alloc: Global,
    profile: Profile,
    bytes: &[u8],
    rules: &mut Vec<Rule>,
) -> Result<bool, InputFault> {
    match check_bytes(alloc, profile, bytes) {
        Ok(verdict) => {
            let events = read_all(alloc, &mut SliceSource::new(bytes, 4096, None))?;
            Ok(is_verdict_shown(alloc, profile, &events, &verdict, rules)?)
        }
        Err(InputFault::Grammar(_)) => Ok(true),
        Err(fault) => Err(fault),
    }
}
