//! What is made of the answer of a checker, that of an asking, and the rules of which only bytes tell.

ghost use Rattle.std.specs.Prelude.{◌≡◌};
ghost use Rattle.sixel_emulator_check.specs.Checking.{earlier_outcome, earlier_than, joined_outcome, outcome_with};

use crate::verdict::NamedOutcome;
use sixel_emulator_rules::{AskedFinding, AskedRule};
use sixel_judge::{Finding, Outcome};

/// The finding of the rules that are asked for, if its place is before that of the other.
fn asked_before(finding: &Finding, asked: Option<AskedFinding>) -> Option<AskedFinding>
    ensures { result ≡ earlier_than finding.now asked }
{
    match asked {
        Some(asked) if asked.place < finding.place => Some(asked),
        _ => None,
    }
}

/// The first of both findings, or the size of the picture. At the same place it is that of portable pictures.
pub fn join_outcome(outcome: Outcome, asked: Option<AskedFinding>) -> NamedOutcome
    ensures { result ≡ joined_outcome outcome asked }
{
    match outcome {
        Outcome::Portable { width, height } => match asked {
            None => NamedOutcome::Portable { width, height },
            Some(asked) => NamedOutcome::Asked(asked),
        },
        Outcome::Broken(finding) => match asked_before(&finding, asked) {
            None => NamedOutcome::Broken(finding),
            Some(asked) => NamedOutcome::Asked(asked),
        },
    }
}

/// The finding, or the other outcome, whose finding is at this offset: the earlier of the two.
fn earlier(found: AskedFinding, place: u64, outcome: NamedOutcome) -> NamedOutcome
    ensures { result ≡ earlier_outcome found place outcome }
{
    if found.place < place {
        NamedOutcome::Asked(found)
    } else {
        outcome
    }
}

/// The outcome, where the rule is broken first at this offset, if it is. Its number is greater than that of the rule that
/// the outcome names.
pub fn add_rule(outcome: NamedOutcome, rule: AskedRule, first: Option<u64>) -> NamedOutcome
    ensures { result ≡ outcome_with rule first outcome }
{
    let Some(place) = first else {
        return outcome;
    };
    let found = AskedFinding { rule, place };
    match outcome {
        NamedOutcome::Portable { .. } => NamedOutcome::Asked(found),
        NamedOutcome::Broken(finding) => {
            let place = finding.place;
            earlier(found, place, NamedOutcome::Broken(finding))
        }
        NamedOutcome::Asked(finding) => earlier(found, finding.place, NamedOutcome::Asked(finding)),
    }
}
