//! Data commands that a model cuts, so that nothing is painted.

ghost use Rattle.std.specs.Prelude.{◌≡◌, ◌<◌, ◌≤◌, ◌+◌, ◌++◌, ◌∷◌, [], ℕ, IfSome, IsTrue, List, None, length};
ghost use Rattle.std.specs.Prelude.{slice_index, take};
ghost use Rattle.sixel_grammar.specs.Bytes.{is_data};
ghost use Rattle.sixel_grammar.specs.Document.{events_of, most_bytes};
ghost use Rattle.sixel_grammar.specs.Stretches.{sixels_from};
ghost use Rattle.sixel_grammar.specs.declared.command.Command.TheVariants.{Repeat};
ghost use Rattle.sixel_grammar.specs.declared.command.Event.{Event as AnEvent};
ghost use Rattle.sixel_grammar.specs.declared.command.Event.TheVariants.{Step};
ghost use Rattle.sixel_grammar.specs.declared.command.Placed.{Placed as Place};
ghost use Rattle.sixel_emulator.specs.Modelled.{HasCome, HasFollowed, first_at, placed_at, with_first, with_waiting};
ghost use Rattle.sixel_emulator.specs.Courses.{AreSixels};
ghost use Rattle.sixel_emulator.specs.Readings.{AreCut, ArePlainSixels, Model as AModel};

use crate::modelled::Modelled;
use crate::reading::Reading;
use crate::words::{leading_blanks, sixel};
use sixel_grammar::{Command, Event};

impl<R: Reading> Modelled<R> {
    /// If none of the data commands that come next paints: how many of their columns move on. `None` says nothing.
    #[inline(always)]
    pub(super) fn kept_columns(&self) -> Option<usize>
        ensures { IfSome result (λ columns. (before : List AnEvent) → R.has_seen self.now.waiting.reading before
            → AreCut R.model.rule before self.now.progress.drawing.terminal.choices.zero columns) }
    {
        self.waiting
            .reading
            .kept_columns(self.progress.drawing.zero_columns())
    }

    /// Takes the sixels of these data bytes, at least one, where none waits and none of them paints.
    #[inline(always)]
    pub(super) fn push_cut_sixels(&mut self, columns: usize, bytes: &[u8])
        requires sixels { (k : ℕ) → k < length bytes.now → IsTrue (is_data (slice_index bytes.now k)) }
        requires some { 0 < length bytes.now }
        requires none { self.old.waiting.pending ≡ None }
        requires cut { (before : List AnEvent) → R.has_seen self.old.waiting.reading before
            → AreCut R.model.rule before self.old.progress.drawing.terminal.choices.zero columns }
        ensures terminal { self.new.progress.drawing.terminal ≡ self.old.progress.drawing.terminal }
        ensures followed { (opening : List AnEvent) (before : List Place) (place : ℕ)
            → HasFollowed R.model R.has_seen (with_first self.old place bytes.now) opening
            (before ++ first_at place bytes.now)
            → HasFollowed R.model R.has_seen self.new opening (before ++ sixels_from place bytes.now) }
    {
        self.waiting.reading.note_sixels(bytes);
        self.progress.read_blanks(columns.min(bytes.len()));
    }

    /// How many of these data bytes come before one that paints, if they are drawn as they are. 0 says nothing.
    #[inline(always)]
    fn drawn_blanks(&self, bytes: &[u8]) -> usize
        ensures within { result ≤ length bytes.now }
        ensures plain { (before : List AnEvent) → R.has_seen self.now.waiting.reading before
            → ArePlainSixels R.model.rule before (take result bytes.now) }
    {
        if self.waiting.reading.draws_blanks() {
            leading_blanks(bytes)
        } else {
            0
        }
    }

    /// Takes the sixels of these data bytes that come before one that paints, or the first, where none waits. Gives how
    /// many it took.
    #[inline(always)]
    fn add_blanks(&mut self, place: u64, bytes: &[u8]) -> usize
        requires sixels { (k : ℕ) → k < length bytes.now → IsTrue (is_data (slice_index bytes.now k)) }
        requires some { 0 < length bytes.now }
        requires none { self.old.waiting.pending ≡ None }
        ensures terminal { self.new.progress.drawing.terminal ≡ self.old.progress.drawing.terminal }
        ensures counts { (0 < result) × (result ≤ length bytes.now) }
        ensures followed { (opening : List AnEvent) (before : List Place)
            → HasFollowed R.model R.has_seen (with_first self.old place bytes.now) opening
            (before ++ first_at place bytes.now)
            → HasFollowed R.model R.has_seen self.new opening (before ++ sixels_from place (take result bytes.now)) }
    {
        let blanks = self.drawn_blanks(bytes);
        if blanks == 0 {
            self.add(place, sixel(bytes[0]));
            return 1;
        }
        self.push_plain(&bytes[..blanks]);
        blanks
    }

    /// Takes the sixels of these data bytes, at least one, where none waits and nothing is drawn of them.
    #[inline(always)]
    fn pass_by(&mut self, bytes: &[u8])
        requires sixels { (k : ℕ) → k < length bytes.now → IsTrue (is_data (slice_index bytes.now k)) }
        requires some { 0 < length bytes.now }
        requires none { self.old.waiting.pending ≡ None }
        requires over { (m : AModel) (opening : List AnEvent) (placed : List Place) (n : ℕ)
            → AreSixels (events_of placed) n bytes.now → HasCome m opening placed n self.old.progress
            → HasCome m opening placed (n + length bytes.now) self.old.progress }
        ensures terminal { self.new.progress.drawing.terminal ≡ self.old.progress.drawing.terminal }
        ensures followed { (opening : List AnEvent) (before : List Place) (place : ℕ)
            → HasFollowed R.model R.has_seen (with_first self.old place bytes.now) opening
            (before ++ first_at place bytes.now)
            → HasFollowed R.model R.has_seen self.new opening (before ++ sixels_from place bytes.now) }
    {
        self.waiting.reading.note_sixels(bytes);
    }

    /// Takes the first of these sixels, where none waits, or more if that is as fast. Gives how many it took.
    pub(super) fn add_some(&mut self, place: u64, bytes: &[u8]) -> usize
        requires sixels { (k : ℕ) → k < length bytes.now → IsTrue (is_data (slice_index bytes.now k)) }
        requires some { 0 < length bytes.now }
        requires limit { place + length bytes.now ≤ most_bytes }
        requires none { self.old.waiting.pending ≡ None }
        ensures terminal { self.new.progress.drawing.terminal ≡ self.old.progress.drawing.terminal }
        ensures counts { (0 < result) × (result ≤ length bytes.now) }
        ensures followed { (opening : List AnEvent) (before : List Place)
            → HasFollowed R.model R.has_seen (with_first self.old place bytes.now) opening
            (before ++ first_at place bytes.now)
            → HasFollowed R.model R.has_seen self.new opening (before ++ sixels_from place (take result bytes.now)) }
    {
        if self.progress.is_over() {
            self.pass_by(bytes);
            return bytes.len();
        }
        match self.kept_columns() {
            Some(columns) => {
                self.push_cut_sixels(columns, bytes);
                bytes.len()
            }
            None => self.add_blanks(place, bytes),
        }
    }

    /// Takes a repeat with its offset, where none waits and it doesn't paint.
    #[inline(always)]
    fn push_cut_repeat(&mut self, columns: usize, count: u16, bits: u8)
        requires some { 0 < count }
        requires none { self.old.waiting.pending ≡ None }
        requires cut { (before : List AnEvent) → R.has_seen self.old.waiting.reading before
            → AreCut R.model.rule before self.old.progress.drawing.terminal.choices.zero columns }
        ensures terminal { self.new.progress.drawing.terminal ≡ self.old.progress.drawing.terminal }
        ensures followed { (opening : List AnEvent) (before : List Place) (place : ℕ)
            → HasFollowed R.model R.has_seen (with_waiting self.old place (Step (Repeat count bits))) opening
            (before ++ placed_at place (Step (Repeat count bits)) ∷ [])
            → HasFollowed R.model R.has_seen self.new opening
            (before ++ placed_at place (Step (Repeat count bits)) ∷ []) }
    {
        self.waiting.reading.note_repeat(count, bits);
        self.progress.read_blanks(columns.min(usize::from(count)));
    }

    /// Takes a repeat with its offset, where none waits.
    #[inline(never)]
    pub(super) fn add_repeat(&mut self, place: u64, count: u16, bits: u8)
        requires { self.old.waiting.pending ≡ None }
        ensures terminal { self.new.progress.drawing.terminal ≡ self.old.progress.drawing.terminal }
        ensures followed { (opening : List AnEvent) (before : List Place)
            → HasFollowed R.model R.has_seen (with_waiting self.old place (Step (Repeat count bits))) opening
            (before ++ placed_at place (Step (Repeat count bits)) ∷ [])
            → HasFollowed R.model R.has_seen self.new opening
            (before ++ placed_at place (Step (Repeat count bits)) ∷ []) }
    {
        match self.kept_columns() {
            Some(columns) if count != 0 => self.push_cut_repeat(columns, count, bits),
            _ => self.add(place, Event::Step(Command::Repeat { count, bits })),
        }
    }
}
