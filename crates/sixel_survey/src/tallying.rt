//! Counting events one by one.

ghost use Rattle.std.specs.Prelude.{◌≡◌, ◌-◌, ◌<◌, ◌++◌, ◌∷◌, [], IfSome, List, false, is_some, slice_set, true};
ghost use Rattle.sixel_model.specs.Events.{columns_of as said_columns};
ghost use Rattle.std.specs.Option.{option_map};
ghost use Rattle.sixel_grammar.specs.declared.command.Placed.{Placed as PlacedValue};
ghost use Rattle.sixel_grammar.specs.Document.{events_of};
ghost use Rattle.sixel_model.specs.declared.rule.Rule.{Rule as RuleValue};
ghost use Rattle.sixel_model.specs.Profiles.{count_of};
ghost use Rattle.sixel_model.specs.Rules.{number_of};
ghost use Rattle.sixel_judge.specs.Covering.{IsCoverAfter};
ghost use Rattle.sixel_judge.specs.Notes.{IsNotesAfter, known_in, lacks_definition_in};
ghost use Rattle.sixel_judge.specs.Stretches.{Fits};
ghost use Rattle.sixel_survey.specs.Surveying.{AreTallies};
ghost use Rattle.sixel_survey.specs.Tallies.{AreTalliedFor, is_one_of, of_columns, tally_in};

use crate::entry::Entry;
use crate::tally::counted;
use sixel_grammar::{Command, Event, Placed};
use sixel_judge::Rule;
use sixel_judge::events::{columns_of, is_painting, is_repeat_of_zero};
use sixel_judge::hits::hit_of;
use sixel_judge::notes::Notes;
use sixel_judge::outside::fits;
use sixel_model::{Profile, RULE_COUNT};
use sixel_plane::Cover;

/// The place of the rule in the order, counted from 0.
#[inline(always)]
pub(crate) fn index_of(rule: Rule) -> usize
    ensures value { result ≡ number_of rule - 1 }
    ensures below { result < RULE_COUNT }
{
    rule as usize - 1
}

/// The tally of the rule.
#[inline(always)]
pub(crate) fn tally_of(tallies: &[Option<Entry>; RULE_COUNT], rule: Rule) -> Option<Entry>
    ensures { result ≡ tally_in tallies.now rule }
{
    tallies[index_of(rule)]
}

/// Sets the tally of the rule.
#[inline(always)]
pub(crate) fn put(tallies: &mut [Option<Entry>; RULE_COUNT], rule: Rule, tally: Option<Entry>)
    ensures { tallies.new ≡ slice_set tallies.old (number_of rule - 1) tally }
{
    tallies[index_of(rule)] = tally;
}

/// Counts an event for a rule.
#[inline(always)]
fn tally_rule<P: Cover>(
    tallies: &mut [Option<Entry>; RULE_COUNT],
    profile: Profile,
    notes: &Notes,
    plane: &Option<P>,
    placed: &Placed,
    rule: Rule,
)
    ensures { (seen : List PlacedValue) (done : List RuleValue) → IsNotesAfter notes.now (events_of seen)
        → IsCoverAfter (option_map P.grid plane.now) (events_of seen) → is_one_of done rule ≡ false
        → AreTalliedFor (count_of profile) seen (placed.now ∷ []) done tallies.old
        → AreTalliedFor (count_of profile) seen (placed.now ∷ []) (rule ∷ done) tallies.new }
{
    if let Some(hit) = hit_of(profile, notes, plane, &placed.event, rule) {
        let tally = tally_of(tallies, rule);
        put(tallies, rule, Some(counted(tally, rule, placed.place, hit)));
    }
}

/// Whether columns lie in the box, if there is one, with all six rows of their band.
#[inline(always)]
fn fits_box<P: Cover>(notes: &Notes, plane: &Option<P>, count: u16) -> bool
    ensures { result ≡ true → IfSome (option_map P.grid plane.now) (Fits notes.now count) }
{
    match plane {
        Some(plane) => fits(notes, plane, count as usize),
        None => true,
    }
}

/// Whether a command that paints breaks none of the rules on its register and on the box.
#[inline(always)]
fn paints_well<P: Cover>(profile: Profile, notes: &Notes, plane: &Option<P>, event: &Event) -> bool
    ensures known { result ≡ true → is_some (known_in notes.now) ≡ true }
    ensures defined { result ≡ true → lacks_definition_in (count_of profile) notes.now ≡ false }
    ensures fits { result ≡ true → IfSome (option_map P.grid plane.now) (Fits notes.now (said_columns 0 event.now)) }
{
    notes.known().is_some()
        && !notes.lacks_definition(profile)
        && fits_box(notes, plane, columns_of(event))
}

/// Counts a sixel or a repeat for the rules that it can break, one by one.
#[inline(never)]
fn tally_columns_fully<P: Cover>(
    tallies: &mut [Option<Entry>; RULE_COUNT],
    profile: Profile,
    notes: &Notes,
    plane: &Option<P>,
    placed: &Placed,
)
    ensures { (seen : List PlacedValue) → IsNotesAfter notes.now (events_of seen)
        → IsCoverAfter (option_map P.grid plane.now) (events_of seen)
        → AreTalliedFor (count_of profile) seen (placed.now ∷ []) [] tallies.old
        → AreTalliedFor (count_of profile) seen (placed.now ∷ []) of_columns tallies.new }
{
    tally_rule(tallies, profile, notes, plane, placed, Rule::RasterFirst);
    tally_rule(tallies, profile, notes, plane, placed, Rule::RepeatZero);
    tally_rule(tallies, profile, notes, plane, placed, Rule::Unselected);
    tally_rule(tallies, profile, notes, plane, placed, Rule::Undefined);
    tally_rule(tallies, profile, notes, plane, placed, Rule::Outside);
}

/// Counts a sixel or a repeat for the rules that it can break. Most break none, and are seen quickly.
#[inline(always)]
fn tally_columns<P: Cover>(
    tallies: &mut [Option<Entry>; RULE_COUNT],
    profile: Profile,
    notes: &Notes,
    plane: &Option<P>,
    placed: &Placed,
)
    ensures { (seen : List PlacedValue) → IsNotesAfter notes.now (events_of seen)
        → IsCoverAfter (option_map P.grid plane.now) (events_of seen)
        → AreTalliedFor (count_of profile) seen (placed.now ∷ []) [] tallies.old
        → AreTalliedFor (count_of profile) seen (placed.now ∷ []) of_columns tallies.new }
{
    if notes.declared && !is_repeat_of_zero(&placed.event) {
        if !is_painting(&placed.event) {
            return;
        }
        if paints_well(profile, notes, plane, &placed.event) {
            return;
        }
    }
    tally_columns_fully(tallies, profile, notes, plane, placed);
}

/// Counts an event for each rule: only for those that an event of its kind can break.
#[inline(always)]
pub(crate) fn tally<P: Cover>(
    tallies: &mut [Option<Entry>; RULE_COUNT],
    profile: Profile,
    notes: &Notes,
    plane: &Option<P>,
    placed: &Placed,
)
    ensures { (seen : List PlacedValue) → IsNotesAfter notes.now (events_of seen)
        → IsCoverAfter (option_map P.grid plane.now) (events_of seen)
        → AreTallies (count_of profile) seen tallies.old
        → AreTallies (count_of profile) (seen ++ placed.now ∷ []) tallies.new }
{
    match &placed.event {
        Event::Step(command) => match command {
            Command::Sixel(_) => tally_columns(tallies, profile, notes, plane, placed),
            Command::Repeat { .. } => tally_columns(tallies, profile, notes, plane, placed),
            Command::CarriageReturn => {
                tally_rule(tallies, profile, notes, plane, placed, Rule::RasterFirst);
            }
            Command::NextLine => {
                tally_rule(tallies, profile, notes, plane, placed, Rule::RasterFirst);
            }
            Command::Select(_) => {
                tally_rule(tallies, profile, notes, plane, placed, Rule::Register);
            }
            Command::Define { .. } => {
                tally_rule(tallies, profile, notes, plane, placed, Rule::Register);
                tally_rule(tallies, profile, notes, plane, placed, Rule::ColourValue);
                tally_rule(tallies, profile, notes, plane, placed, Rule::Redefined);
            }
            Command::Raster { .. } => {
                tally_rule(tallies, profile, notes, plane, placed, Rule::RasterTwice);
                tally_rule(tallies, profile, notes, plane, placed, Rule::Ratio);
                tally_rule(tallies, profile, notes, plane, placed, Rule::BoxSize);
            }
        },
        Event::Start { .. } => {
            tally_rule(tallies, profile, notes, plane, placed, Rule::EightBit);
        }
        Event::Finish { .. } => {
            tally_rule(tallies, profile, notes, plane, placed, Rule::RasterFirst);
            tally_rule(tallies, profile, notes, plane, placed, Rule::Uncovered);
            tally_rule(tallies, profile, notes, plane, placed, Rule::EightBit);
        }
    }
}
