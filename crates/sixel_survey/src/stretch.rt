//! Surveying stretches of sixels.

ghost use Rattle.std.specs.Prelude.{◌≡◌, ◌<◌, ◌≤◌, ◌+◌, ◌-◌, ◌*◌, ◌++◌, ◌∷◌, ◌||◌, ℕ, List, IsTrue, false, length};
ghost use Rattle.std.specs.Prelude.{slice_index, take, true};
ghost use Rattle.std.specs.Option.{option_map};
ghost use Rattle.sixel_grammar.specs.Bytes.{is_data};
ghost use Rattle.sixel_grammar.specs.Document.{events_of, most_bytes};
ghost use Rattle.sixel_grammar.specs.Stretches.{sixels_from};
ghost use Rattle.sixel_grammar.specs.declared.command.Command.TheVariants.{Sixel};
ghost use Rattle.sixel_grammar.specs.declared.command.Event.TheVariants.{Step};
ghost use Rattle.sixel_grammar.specs.declared.command.Placed.{Placed as PlacedValue};
ghost use Rattle.sixel_model.specs.Events.{is_painting};
ghost use Rattle.sixel_model.specs.Profiles.{count_of};
ghost use Rattle.sixel_plane.specs.Covers.{kept_by};
ghost use Rattle.sixel_plane.specs.Stretches.{sixel_of, stretched_grid};
ghost use Rattle.sixel_model.specs.declared.rule.Rule.{Rule as RuleValue};
ghost use Rattle.sixel_model.specs.declared.rule.Rule.TheVariants.{Outside};
ghost use Rattle.sixel_judge.specs.Covering.{IsCoverAfter, IsCoverOf};
ghost use Rattle.sixel_judge.specs.Notes.{IsNotesAfter};
ghost use Rattle.sixel_judge.specs.Stretches.{Fits};
ghost use Rattle.sixel_survey.specs.Stretches.{AreSixels, CountsIf, any_paints};
ghost use Rattle.sixel_survey.specs.Surveying.{AreTallies};
ghost use Rattle.sixel_survey.specs.Tallies.{AreTalliedFor, IsTallyOf, is_one_of};

use crate::cover::cover;
use crate::entry::Entry;
use crate::tally::{counted, counted_more};
use crate::tallying::{put, tally_of};
use sixel_judge::Rule;
use sixel_judge::hits::Hit;
use sixel_judge::notes::Notes;
use sixel_judge::outside::{fits, outside_pixel};
use sixel_model::{Profile, RULE_COUNT};
use sixel_plane::Cover;

/// Whether the sixel of the byte paints.
#[inline(always)]
fn does_paint(byte: u8) -> bool
    requires { is_data byte ≡ true }
    ensures { result ≡ is_painting (Step (Sixel (byte - 63))) }
{
    (byte - b'?') % 64 != 0
}

/// Whether a rule counts at the sixel of the byte, if it counts at each that paints, and at the others too if
/// `blank_too`.
#[inline(always)]
fn counts_at(byte: u8, blank_too: bool) -> bool
    requires { is_data byte ≡ true }
    ensures { result ≡ (blank_too || is_painting (Step (Sixel (byte - 63)))) }
{
    blank_too || does_paint(byte)
}

/// Whether a sixel of the stretch paints.
#[inline(always)]
fn paints(stretch: &[u8]) -> bool
    requires { AreSixels stretch.now }
    ensures { result ≡ any_paints stretch.now (length stretch.now) }
{
    for byte in stretch {
        if does_paint(*byte) {
            return true;
        }
    }
    false
}

/// The tally of a rule that counts at each sixel of a stretch that paints, and at the others too if `blank_too`.
#[inline(never)]
fn counted_stretch(
    tally: Option<Entry>,
    rule: Rule,
    place: u64,
    stretch: &[u8],
    blank_too: bool,
) -> Option<Entry>
    requires sixels { AreSixels stretch.now }
    requires place { place + length stretch.now ≤ most_bytes }
    ensures { (registers : ℕ) (seen : List PlacedValue)
        → CountsIf registers rule seen place stretch.now true blank_too → IsTallyOf registers seen rule tally
        → IsTallyOf registers (seen ++ sixels_from place stretch.now) rule result }
{
    let mut first = None;
    let mut more = 0;
    for (index, byte) in stretch.iter().enumerate() {
        if counts_at(*byte, blank_too) {
            first = first.or(Some(place + index as u64));
            more += 1;
        }
    }
    counted_more(tally, rule, first, more)
}

/// The tally of `Outside` after a stretch.
#[inline(never)]
fn counted_outside<P: Cover>(
    tally: Option<Entry>,
    notes: &Notes,
    plane: &P,
    place: u64,
    stretch: &[u8],
) -> Option<Entry>
    requires sixels { AreSixels stretch.now }
    requires place { place + length stretch.now ≤ most_bytes }
    ensures { (registers : ℕ) (seen : List PlacedValue) → IsNotesAfter notes.now (events_of seen)
        → IsCoverOf (P.grid plane.now) (events_of seen) → IsTallyOf registers seen Outside tally
        → IsTallyOf registers (seen ++ sixels_from place stretch.now) Outside result }
{
    let mut all = tally;
    let width = plane.width();
    let height = plane.height();
    for (index, byte) in stretch.iter().enumerate() {
        let column = notes.column.saturating_add(index as u64);
        let pixel = outside_pixel(column, notes.band, 1, *byte - b'?', width, height);
        if pixel.is_some() {
            all = Some(counted(all, Rule::Outside, place + index as u64, Hit { pixel }));
        }
    }
    all
}

/// Counts a stretch for a rule that doesn't look at pixels. If it `counts`, then at each sixel that paints, and at the
/// others too if `blank_too`; else at none.
#[inline(always)]
fn tally_each(
    tallies: &mut [Option<Entry>; RULE_COUNT],
    rule: Rule,
    counts: bool,
    blank_too: bool,
    place: u64,
    stretch: &[u8],
)
    requires sixels { AreSixels stretch.now }
    requires place { place + length stretch.now ≤ most_bytes }
    ensures { (registers : ℕ) (seen : List PlacedValue) (done : List RuleValue)
        → CountsIf registers rule seen place stretch.now counts blank_too → is_one_of done rule ≡ false
        → AreTalliedFor registers seen (sixels_from place stretch.now) done tallies.old
        → AreTalliedFor registers seen (sixels_from place stretch.now) (rule ∷ done) tallies.new }
{
    if counts {
        let tally = tally_of(tallies, rule);
        let all = counted_stretch(tally, rule, place, stretch, blank_too);
        put(tallies, rule, all);
    }
}

/// The tally of `Outside` after a stretch; the sixels that lie in the box aren't looked at.
#[inline(always)]
fn tally_with_box<P: Cover>(
    tally: Option<Entry>,
    notes: &Notes,
    plane: &P,
    place: u64,
    stretch: &[u8],
) -> Option<Entry>
    requires sixels { AreSixels stretch.now }
    requires place { place + length stretch.now ≤ most_bytes }
    ensures { (registers : ℕ) (seen : List PlacedValue) → IsNotesAfter notes.now (events_of seen)
        → IsCoverOf (P.grid plane.now) (events_of seen) → IsTallyOf registers seen Outside tally
        → IsTallyOf registers (seen ++ sixels_from place stretch.now) Outside result }
{
    if fits(notes, plane, stretch.len()) {
        tally
    } else {
        counted_outside(tally, notes, plane, place, stretch)
    }
}

/// Counts a stretch for `Outside`.
#[inline(always)]
fn tally_outside<P: Cover>(
    tallies: &mut [Option<Entry>; RULE_COUNT],
    notes: &Notes,
    plane: &Option<P>,
    place: u64,
    stretch: &[u8],
)
    requires sixels { AreSixels stretch.now }
    requires place { place + length stretch.now ≤ most_bytes }
    ensures { (registers : ℕ) (seen : List PlacedValue) (done : List RuleValue)
        → IsNotesAfter notes.now (events_of seen) → IsCoverAfter (option_map P.grid plane.now) (events_of seen)
        → is_one_of done Outside ≡ false
        → AreTalliedFor registers seen (sixels_from place stretch.now) done tallies.old
        → AreTalliedFor registers seen (sixels_from place stretch.now) (Outside ∷ done) tallies.new }
{
    match plane {
        Some(plane) => {
            let tally = tally_of(tallies, Rule::Outside);
            let all = tally_with_box(tally, notes, plane, place, stretch);
            put(tallies, Rule::Outside, all);
        }
        None => {}
    }
}

/// Counts a stretch for each rule: only for those that a sixel can break.
#[inline(always)]
pub(crate) fn tally_stretch<P: Cover>(
    tallies: &mut [Option<Entry>; RULE_COUNT],
    profile: Profile,
    notes: &Notes,
    plane: &Option<P>,
    place: u64,
    stretch: &[u8],
)
    requires sixels { AreSixels stretch.now }
    requires place { place + length stretch.now ≤ most_bytes }
    ensures { (seen : List PlacedValue) → IsNotesAfter notes.now (events_of seen)
        → IsCoverAfter (option_map P.grid plane.now) (events_of seen)
        → AreTallies (count_of profile) seen tallies.old
        → AreTallies (count_of profile) (seen ++ sixels_from place stretch.now) tallies.new }
{
    let early = !notes.declared;
    tally_each(tallies, Rule::RasterFirst, early, true, place, stretch);
    let unknown = notes.known().is_none();
    tally_each(tallies, Rule::Unselected, unknown, false, place, stretch);
    let lacks = notes.lacks_definition(profile);
    tally_each(tallies, Rule::Undefined, lacks, false, place, stretch);
    tally_outside(tallies, notes, plane, place, stretch);
}

/// Covers the pixels of the first `count` bytes of `bytes`, all of them data, in one step. Returns whether it did: only
/// if they lie in the box, and the plane can.
#[inline(always)]
fn try_cover<P: Cover>(notes: &Notes, plane: &mut P, bytes: &[u8], count: usize) -> bool
    requires sixels { (k : ℕ) → k < count → IsTrue (is_data (slice_index bytes.now k)) }
    requires bytes { count ≤ length bytes.now }
    ensures fits { result ≡ true → Fits notes.now count (P.grid plane.old) }
    ensures covered { result ≡ true → P.grid plane.new ≡ stretched_grid (P.grid plane.old) notes.now.column
        notes.now.band count (sixel_of bytes.now count) (kept_by P.keeps 0) }
    ensures kept { result ≡ false → plane.new ≡ plane.old }
{
    fits(notes, plane, count)
        && plane.try_paint_stretch(notes.column as u32, notes.band as u32, bytes, count, 0)
}

/// Covers the pixels of a stretch, sixel by sixel.
#[inline(never)]
fn cover_each<P: Cover>(notes: &Notes, plane: &mut P, stretch: &[u8])
    requires { AreSixels stretch.now }
    ensures { (seen : List PlacedValue) (place : ℕ) → IsNotesAfter notes.now (events_of seen)
        → IsCoverOf (P.grid plane.old) (events_of seen)
        → IsCoverOf (P.grid plane.new) (events_of (seen ++ sixels_from place stretch.now)) }
{
    for (index, byte) in stretch.iter().enumerate() {
        let column = notes.column.saturating_add(index as u64);
        cover(plane, column, notes.band, 1, *byte - b'?');
    }
}

/// Covers the pixels of the first `count` bytes of `bytes`, all of them data.
#[inline(always)]
pub(crate) fn draw_stretch<P: Cover>(
    notes: &Notes,
    plane: &mut Option<P>,
    bytes: &[u8],
    count: usize,
)
    requires sixels { (k : ℕ) → k < count → IsTrue (is_data (slice_index bytes.now k)) }
    requires bytes { count ≤ length bytes.now }
    ensures { (seen : List PlacedValue) (place : ℕ) → IsNotesAfter notes.now (events_of seen)
        → IsCoverAfter (option_map P.grid plane.old) (events_of seen)
        → IsCoverAfter (option_map P.grid plane.new) (events_of (seen ++ sixels_from place (take count bytes.now))) }
{
    match plane {
        Some(plane) => {
            if !try_cover(notes, plane, bytes, count) {
                cover_each(notes, plane, &bytes[..count]);
            }
        }
        None => {}
    }
}

/// Notes a stretch of sixels.
#[inline(always)]
pub(crate) fn note_stretch(notes: &mut Notes, stretch: &[u8])
    requires { AreSixels stretch.now }
    ensures { (seen : List PlacedValue) (place : ℕ) → IsNotesAfter notes.old (events_of seen)
        → IsNotesAfter notes.new (events_of (seen ++ sixels_from place stretch.now)) }
{
    notes.column = notes.column.saturating_add(stretch.len() as u64);
    if paints(stretch) {
        notes.paint();
    }
}
