//! Surveying events one by one.

ghost use Rattle.std.specs.Prelude.{◌≡◌, ◌≢◌, ◌<◌, ◌≤◌, ◌+◌, ◌++◌, ◌∷◌, [], ℕ, List, IsTrue, None, OnErr, OnOk};
ghost use Rattle.std.specs.Prelude.{filter_map, get_or, length, slice_index, take};
ghost use Rattle.sixel_grammar.specs.Bytes.{is_data};
ghost use Rattle.sixel_grammar.specs.Stretches.{sixels_from};
ghost use Rattle.sixel_model.specs.declared.rule.Rule.TheVariants.{EightBit};
ghost use Rattle.std.specs.Option.{option_map, option_map_or};
ghost use Rattle.sixel_grammar.specs.declared.command.Event.{Event};
ghost use Rattle.sixel_grammar.specs.declared.command.Placed.{Placed as PlacedValue};
ghost use Rattle.sixel_grammar.specs.Document.{Document, events_of, most_bytes};
ghost use Rattle.sixel_model.specs.Profiles.{count_of};
ghost use Rattle.sixel_model.specs.Rules.{all_rules as rules_in_order};
ghost use Rattle.sixel_judge.specs.Covering.{IsCoverAfter};
ghost use Rattle.sixel_survey.specs.Covering.{blank_cells, size_in};
ghost use Rattle.sixel_survey.specs.Declaring.{DeclaresBox};
ghost use Rattle.sixel_survey.specs.Surveying.{HasSurveyed};
ghost use Rattle.sixel_survey.specs.Surveys.{IsSurvey};
ghost use Rattle.sixel_survey.specs.Tallies.{entry_from as entry_made, entry_in};

use crate::cover::{count_blank, draw};
use crate::entry::{Entry, Survey};
use crate::stretch::{draw_stretch, note_stretch, tally_stretch};
use crate::tallying::{tally, tally_of};
use arrayvec::ArrayVec;
use sixel_grammar::Placed;
use sixel_judge::Rule;
use sixel_judge::notes::Notes;
use sixel_model::{ALL_RULES, Profile, RULE_COUNT};
use sixel_plane::Cover;
use std::alloc::{AllocError, Global};
use std::marker::Model;

/// The rule at this place in the order, counted from 0.
fn rule_at(index: usize) -> Rule
    requires { index < RULE_COUNT }
    ensures { result ≡ get_or rules_in_order index EightBit }
{
    ALL_RULES[index]
}

/// The entry that a tally makes. For `Uncovered` it has the number of blank pixels.
fn entry_from(blank: u64, rule: Rule, tally: Entry) -> Entry
    ensures { result ≡ entry_made blank rule tally }
{
    match rule {
        Rule::Uncovered => Entry {
            count: blank,
            ..tally
        },
        _ => tally,
    }
}

/// The entry of the rule at this place in the order, if the rule counted.
fn entry_at(tallies: &[Option<Entry>; RULE_COUNT], blank: u64, index: usize) -> Option<Entry>
    requires { index < RULE_COUNT }
    ensures { result ≡ entry_in tallies.now blank (get_or rules_in_order index EightBit) }
{
    let rule = rule_at(index);
    match tally_of(tallies, rule) {
        Some(tally) => Some(entry_from(blank, rule, tally)),
        None => None,
    }
}

/// The entries of the rules that counted, in order of number.
fn entries_of(tallies: &[Option<Entry>; RULE_COUNT], blank: u64) -> ArrayVec<Entry, RULE_COUNT>
    ensures { result.items ≡ filter_map (entry_in tallies.now blank) rules_in_order }
{
    let mut entries = ArrayVec::new();
    for index in 0..RULE_COUNT {
        match entry_at(tallies, blank, index) {
            Some(entry) => entries.push(entry),
            None => {}
        }
    }
    entries
}

/// How many pixels of the box are blank; 0 without a plane.
fn blank_in<P: Cover>(plane: &Option<P>) -> u64
    ensures { (events : List Event) → IsCoverAfter (option_map P.grid plane.now) events
        → result ≡ option_map_or blank_cells (option_map P.grid plane.now) 0 }
{
    match plane {
        Some(plane) => count_blank(plane),
        None => 0,
    }
}

/// The size of the picture in pixels, which a survey has if it has no entries.
fn size_without<P: Cover>(entries: &[Entry], plane: &Option<P>) -> Option<(u32, u32)>
    ensures none { entries.now ≡ [] → result ≡ size_in (option_map P.grid plane.now) }
    ensures some { entries.now ≢ [] → result ≡ None }
{
    if !entries.is_empty() {
        return None;
    }
    match plane {
        Some(plane) => Some((plane.width(), plane.height())),
        None => None,
    }
}

/// What a survey knows after some events.
#[derive(Drop)]
pub(crate) struct Surveyor<P: Cover> {
    profile: Profile,
    notes: Notes,
    /// The pixels of the box, from the first raster attributes on, if both sides are in range.
    plane: Option<P>,
    /// For each rule, in order of number: where it counted first, and how often it counted.
    tallies: [Option<Entry>; RULE_COUNT],
}

impl<P: Cover> Model for Surveyor<P> {
    ghost use Rattle.std.specs.Option.{option_map};
    ghost use Rattle.sixel_survey.specs.Surveying.{SurveyorValue};

    ghost Value = { SurveyorValue };

    ghost view = { λ s. record {
      profile = s.profile;
      notes = s.notes;
      grid = option_map P.grid s.plane;
      tallies = s.tallies;
    } };
}

impl<P: Cover> Surveyor<P> {
    /// A surveyor that has seen no event.
    pub(crate) fn new(profile: Profile) -> Surveyor<P>
        ensures { HasSurveyed (count_of profile) result [] }
    {
        Surveyor {
            profile,
            notes: Notes::new(),
            plane: None,
            tallies: [None; RULE_COUNT],
        }
    }

    /// Takes the next event. Only the plane is allocated.
    #[inline(always)]
    pub(crate) fn take(&mut self, alloc: Global, placed: &Placed) -> Result<(), AllocError>
        ensures ok { OnOk result ((registers : ℕ) (seen : List PlacedValue) → HasSurveyed registers self.old seen
            → HasSurveyed registers self.new (seen ++ placed.now ∷ [])) }
        ensures declares { OnErr result ((registers : ℕ) (seen : List PlacedValue)
            → HasSurveyed registers self.old seen → DeclaresBox (events_of seen) placed.now.event) }
    {
        tally(
            &mut self.tallies,
            self.profile,
            &self.notes,
            &self.plane,
            placed,
        );
        draw(alloc, &self.notes, &mut self.plane, &placed.event)?;
        self.notes.take(&placed.event);
        Ok(())
    }

    /// Takes the first `count` bytes of `bytes`, all of them data, as sixels; the first has the offset `place`.
    #[inline(always)]
    pub(crate) fn take_stretch(&mut self, place: u64, bytes: &[u8], count: usize)
        requires sixels { (k : ℕ) → k < count → IsTrue (is_data (slice_index bytes.now k)) }
        requires bytes { count ≤ length bytes.now }
        requires place { place + count ≤ most_bytes }
        ensures { (registers : ℕ) (seen : List PlacedValue) → HasSurveyed registers self.old seen
            → HasSurveyed registers self.new (seen ++ sixels_from place (take count bytes.now)) }
    {
        let stretch = &bytes[..count];
        tally_stretch(
            &mut self.tallies,
            self.profile,
            &self.notes,
            &self.plane,
            place,
            stretch,
        );
        draw_stretch(&self.notes, &mut self.plane, bytes, count);
        note_stretch(&mut self.notes, stretch);
    }

    /// The survey of a document.
    pub(crate) fn finish(self) -> Survey
        requires { (registers : ℕ) × (seen : List PlacedValue) × (bytes : List ℕ) × HasSurveyed registers self seen
            × Document seen bytes }
        ensures { (registers : ℕ) (seen : List PlacedValue) (bytes : List ℕ) → HasSurveyed registers self seen
            → Document seen bytes → IsSurvey registers seen result }
    {
        let entries = entries_of(&self.tallies, blank_in(&self.plane));
        let size = size_without(entries.as_slice(), &self.plane);
        Survey { entries, size }
    }
}
