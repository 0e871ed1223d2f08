//! Checking the bytes of a document for named terminals.

ghost use Rattle.std.specs.Prelude.{◌≡◌, IfOk, IsTrue, None, cond};
ghost use Rattle.sixel_model.specs.Profiles.{count_of};
ghost use Rattle.sixel_judge.specs.Growth.{MayGrowIn};
ghost use Rattle.sixel_check.specs.Checking.{IsWhole};
ghost use Rattle.sixel_emulator_rules.specs.Asked.{is_asked};
ghost use Rattle.sixel_survey.specs.Reads.{ReadsDocument};
ghost use Rattle.sixel_emulator_check.specs.Answers.{AnswersOutcomeOn};
ghost use Rattle.sixel_emulator_check.specs.Checking.{HaveTakenAll};
ghost use Rattle.sixel_emulator_check.specs.Laws.{none};

use crate::joining::{add_rule, join_outcome};
use crate::looks::{Looks, follow_looking};
use crate::verdict::NamedOutcome;
use sixel_check::outcome_with;
use sixel_emulator_rules::{AskedRule, Asking, Terminals};
use sixel_grammar::{Both, InputFault};
use sixel_io::{PIECE, Source};
use sixel_judge::Checker;
use sixel_model::Profile;
use sixel_plane::CoverPlane;
use std::alloc::Global;

/// Whether there is none.
pub(crate) fn are_none(terminals: Terminals) -> bool
    ensures { IsTrue result → terminals ≡ none }
{
    terminals == Terminals::none()
}

/// What is known of a document that was read.
#[derive(Drop)]
struct Checked {
    /// A checker and an asking that have taken its events.
    both: Both<Checker<CoverPlane>, Asking>,
    looks: Looks,
}

/// Where a rule is broken first, if one of the terminals asks for it.
pub(crate) fn if_asked(terminals: Terminals, rule: AskedRule, first: Option<u64>) -> Option<u64>
    ensures { result ≡ cond (is_asked terminals rule) first None }
{
    if terminals.asks_for(rule) {
        first
    } else {
        None
    }
}

/// Reads a source to its end.
#[inline(always)]
fn read_document<S: Source>(
    alloc: Global,
    profile: Profile,
    terminals: Terminals,
    input: &mut S,
    piece: &mut [u8; PIECE],
) -> Result<Checked, InputFault>
    ensures reads { ReadsDocument (HaveTakenAll (count_of profile) terminals) (MayGrowIn (count_of profile)) result
        (S.state input.old) (S.state input.new) }
    ensures whole { IfOk result (λ checked. IsWhole checked.both.one) }
{
    let one = Checker::new(alloc, profile);
    let other = Asking::new(terminals);
    let mut both = Both { one, other };
    let mut looks = Looks::new();
    follow_looking(input, piece, &mut both, &mut looks)?;
    Ok(Checked { both, looks })
}

/// Checks the document that the source gives, with the registers of the profile, by the rules of portable pictures and
/// by those that the terminals ask for: the size of its picture, or the first broken rule. It reads as
/// `sixel_check::outcome_with` does, takes as much memory, and has the same faults. Without a terminal it is that check.
pub fn outcome_on<S: Source>(
    alloc: Global,
    profile: Profile,
    terminals: Terminals,
    input: &mut S,
    piece: &mut [u8; PIECE],
) -> Result<NamedOutcome, InputFault>
    ensures { ReadsDocument (AnswersOutcomeOn (count_of profile) terminals) (MayGrowIn (count_of profile)) result
        (S.state input.old) (S.state input.new) }
{
    if are_none(terminals) {
        let outcome = outcome_with(alloc, profile, input, piece)?;
        return Ok(join_outcome(outcome, None));
    }
    let Checked { both, looks } = read_document(alloc, profile, terminals, input, piece)?;
    let asked = both.other.finding();
    let by_events = join_outcome(both.one.outcome(), asked);
    let bare = if_asked(terminals, AskedRule::Bare, looks.bare.first());
    let space = if_asked(terminals, AskedRule::SpaceAfter, looks.spaces.first());
    let with_bare = add_rule(by_events, AskedRule::Bare, bare);
    Ok(add_rule(with_bare, AskedRule::SpaceAfter, space))
}
