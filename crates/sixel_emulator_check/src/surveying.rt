//! Surveying the bytes of a document for named terminals.

ghost use Rattle.std.specs.Prelude.{◌≡◌, ◌++◌, ◌<◌, length};
ghost use Rattle.sixel_model.specs.Profiles.{count_of};
ghost use Rattle.sixel_survey.specs.Declaring.{DeclareBoxIn};
ghost use Rattle.sixel_survey.specs.Reads.{ReadsDocument};
ghost use Rattle.sixel_emulator_check.specs.Surveys.{size_beside};
ghost use Rattle.sixel_emulator_check.specs.Written.{SurveysOn, entry_at, size_unless};

use crate::checking::{are_none, if_asked};
use crate::looks::{Looks, follow_looking};
use arrayvec::ArrayVec;
use sixel_emulator_rules::{AskedEntries, AskedEntry, AskedRule, Tallying, Terminals};
use sixel_grammar::{Both, InputFault};
use sixel_io::{PIECE, Source};
use sixel_model::{Profile, RULE_COUNT};
use sixel_plane::CoverPlane;
use sixel_survey::{Entry, Survey, Surveying, survey_with};
use std::alloc::Global;

/// All broken rules of a document, or the size of its picture.
#[derive(Debug, Drop)]
pub struct NamedSurvey {
    /// An entry for each rule of portable pictures that counts anywhere, in order of the rules' numbers.
    pub entries: ArrayVec<Entry, RULE_COUNT>,
    /// The same of the rules that the terminals ask for.
    pub asked: AskedEntries,
    /// The width and the height of the picture in pixels, if there are no entries.
    pub size: Option<(u32, u32)>,
}

/// A survey, with the entries of the rules that the terminals ask for.
fn join_survey(survey: Survey, asked: AskedEntries) -> NamedSurvey
    ensures entries { result.entries ≡ survey.entries }
    ensures asked { result.asked ≡ asked }
    ensures size { result.size ≡ size_beside asked.items survey.size }
{
    let size = if asked.is_empty() { survey.size } else { None };
    NamedSurvey {
        entries: survey.entries,
        asked,
        size,
    }
}

/// The survey, with an entry of the rule if it is broken: the offset where first, and how often.
fn add_entry(survey: NamedSurvey, rule: AskedRule, first: Option<u64>, count: u64) -> NamedSurvey
    requires { length survey.asked.items < 11 }
    ensures entries { result.entries ≡ survey.entries }
    ensures asked { result.asked.items ≡ survey.asked.items ++ entry_at rule count first }
    ensures size { result.size ≡ size_unless first survey.size }
{
    let Some(place) = first else {
        return survey;
    };
    let NamedSurvey {
        entries,
        mut asked,
        ..
    } = survey;
    asked.push(AskedEntry { rule, count, place });
    NamedSurvey {
        entries,
        asked,
        size: None,
    }
}

/// Surveys by both lists of rules at once.
fn survey_both<S: Source>(
    alloc: Global,
    profile: Profile,
    terminals: Terminals,
    input: &mut S,
    piece: &mut [u8; PIECE],
) -> Result<NamedSurvey, InputFault>
    ensures { ReadsDocument (SurveysOn (count_of profile) terminals) DeclareBoxIn result
        (S.state input.old) (S.state input.new) }
{
    let one: Surveying<CoverPlane> = Surveying::new(alloc, profile);
    let other = Tallying::new(terminals);
    let mut both = Both { one, other };
    let mut looks = Looks::new();
    follow_looking(input, piece, &mut both, &mut looks)?;
    let asked = both.other.entries();
    let by_events = join_survey(both.one.finish(), asked);
    let bare = if_asked(terminals, AskedRule::Bare, looks.bare.first());
    let space = if_asked(terminals, AskedRule::SpaceAfter, looks.spaces.first());
    let with_bare = add_entry(by_events, AskedRule::Bare, bare, looks.bare.count());
    Ok(add_entry(
        with_bare,
        AskedRule::SpaceAfter,
        space,
        looks.spaces.count(),
    ))
}

/// Surveys the document that the source gives, by the rules of portable pictures and by those that the terminals ask
/// for. It reads as `sixel_survey::survey_with` does, takes as much memory, and has the same faults. Without a terminal
/// it is that survey.
pub fn survey_on<S: Source>(
    alloc: Global,
    profile: Profile,
    terminals: Terminals,
    input: &mut S,
    piece: &mut [u8; PIECE],
) -> Result<NamedSurvey, InputFault>
    ensures { ReadsDocument (SurveysOn (count_of profile) terminals) DeclareBoxIn result
        (S.state input.old) (S.state input.new) }
{
    if are_none(terminals) {
        let survey = survey_with(alloc, profile, input, piece)?;
        return Ok(join_survey(survey, ArrayVec::new()));
    }
    survey_both(alloc, profile, terminals, input, piece)
}
