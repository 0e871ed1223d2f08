//! The size of foot's picture, and where the next sixel stands in it.

ghost use Rattle.std.specs.Prelude.{◌≡◌, ◌++◌, ◌∷◌, ℕ, [], List, length, max, true};
ghost use Rattle.sixel_grammar.specs.declared.command.Command.TheVariants.{Raster, NextLine};
ghost use Rattle.sixel_grammar.specs.declared.command.Event.{Event as AnEvent};
ghost use Rattle.sixel_grammar.specs.declared.command.Event.TheVariants.{Step};
ghost use Rattle.sixel_model.specs.Events.{is_data_command};
ghost use Rattle.sixel_terminal.specs.Stretches.{sixels_of};
ghost use Rattle.sixel_foot.specs.Foot.{counts_on_foot, cuts_on_foot, foot_size};
ghost use Rattle.sixel_foot.specs.FootSeen.{HasGrown, grows_not};
ghost use Rattle.sixel_emulator.specs.Places.{IsPlaceAfter};

use sixel_emulator::Place;
use sixel_grammar::{Command, Event};
use sixel_model::BAND_ROWS;

/// The largest side of raster attributes that count.
const MOST_SIDE: u16 = 10000;

/// The size of the picture. Sides stop at `u32::MAX`, which is more than any that raster attributes declare.
#[derive(Clone, Copy, Debug, PartialEq, Eq)]
pub(crate) struct Growing {
    pub place: Place,
    width: u32,
    height: u32,
    /// How many rows there are from the top of the band on.
    pub rows: u32,
}

impl Growing {
    /// The size before any event.
    pub(crate) fn new() -> Growing
        ensures { HasGrown result [] }
    {
        Growing {
            place: Place::new(),
            width: 0,
            height: BAND_ROWS,
            rows: BAND_ROWS,
        }
    }

    /// Whether raster attributes with these sides count.
    pub(crate) fn counts(&self, width: u16, height: u16) -> bool
        ensures { (before : List AnEvent) → HasGrown self.now before
            → result ≡ counts_on_foot (foot_size before) width height }
    {
        width.max(height) <= MOST_SIDE
            && u32::from(width) >= self.height
            && u32::from(height) >= self.width.max(1)
    }

    /// Whether raster attributes with these sides make the picture narrower or lower.
    pub(crate) fn cuts(&self, width: u16, height: u16) -> bool
        ensures { (before : List AnEvent) → HasGrown self.now before
            → result ≡ cuts_on_foot (foot_size before) width height }
    {
        u32::from(width) < self.width || u32::from(height) < self.height
    }

    /// With raster attributes of these sides. `place` is the one after them.
    fn in_box(self, place: Place, width: u16, height: u16) -> Growing
        ensures { (before : List AnEvent) (pan pad : ℕ) → HasGrown self before
            → IsPlaceAfter 1 place (before ++ Step (Raster pan pad width height) ∷ [])
            → HasGrown result (before ++ Step (Raster pan pad width height) ∷ []) }
    {
        if !self.counts(width, height) {
            return Growing { place, ..self };
        }
        let height = u32::from(height);
        Growing {
            place,
            width: u32::from(width),
            height,
            rows: height.saturating_sub(place.band.saturating_mul(BAND_ROWS)),
        }
    }

    /// With a data command. `place` is the one after it.
    #[inline(always)]
    fn widened(self, place: Place) -> Growing
        ensures { (before : List AnEvent) (e : AnEvent) → is_data_command e ≡ true → HasGrown self before
            → IsPlaceAfter 1 place (before ++ e ∷ []) → HasGrown result (before ++ e ∷ []) }
    {
        self.widened_to(place)
    }

    /// As wide as the place.
    #[inline(always)]
    fn widened_to(self, place: Place) -> Growing
        ensures { result ≡ record self { place = place; width = max self.width place.column } }
    {
        Growing {
            place,
            width: self.width.max(place.column),
            ..self
        }
    }

    /// With so many sixels.
    #[inline(always)]
    pub(crate) fn after_sixels(self, count: usize) -> Growing
        ensures { (before : List AnEvent) (bytes : List ℕ) → length bytes ≡ count → HasGrown self before
            → HasGrown result (before ++ sixels_of bytes) }
    {
        if count == 0 {
            return self;
        }
        self.widened_to(self.place.after_sixels(count))
    }

    /// With a new line. `place` is the one after it.
    fn lowered(self, place: Place) -> Growing
        ensures { (before : List AnEvent) → HasGrown self before
            → IsPlaceAfter 1 place (before ++ Step NextLine ∷ []) → HasGrown result (before ++ Step NextLine ∷ []) }
    {
        if self.rows > BAND_ROWS {
            return Growing {
                place,
                rows: self.rows - BAND_ROWS,
                ..self
            };
        }
        Growing {
            place,
            height: place
                .band
                .saturating_mul(BAND_ROWS)
                .saturating_add(BAND_ROWS),
            rows: BAND_ROWS,
            ..self
        }
    }

    /// With any other event. `place` is the one after it.
    #[inline(always)]
    fn moved(self, place: Place) -> Growing
        ensures { (before : List AnEvent) (e : AnEvent) → grows_not e ≡ true → HasGrown self before
            → IsPlaceAfter 1 place (before ++ e ∷ []) → HasGrown result (before ++ e ∷ []) }
    {
        Growing { place, ..self }
    }

    /// With one more command. `place` is the one after it.
    #[inline(always)]
    fn after_command(self, place: Place, command: Command) -> Growing
        ensures { (before : List AnEvent) → HasGrown self before → IsPlaceAfter 1 place (before ++ Step command ∷ [])
            → HasGrown result (before ++ Step command ∷ []) }
    {
        match command {
            Command::Raster { width, height, .. } => self.in_box(place, width, height),
            Command::Sixel(_) | Command::Repeat { .. } => self.widened(place),
            Command::NextLine => self.lowered(place),
            Command::Select(_) | Command::Define { .. } | Command::CarriageReturn => {
                self.moved(place)
            }
        }
    }

    /// With one more event.
    #[inline(always)]
    pub(crate) fn after(self, event: &Event) -> Growing
        ensures { (before : List AnEvent) → HasGrown self before → HasGrown result (before ++ event.now ∷ []) }
    {
        let place = self.place.after(event, 1);
        match event {
            Event::Step(command) => self.after_command(place, *command),
            Event::Start { .. } | Event::Finish { .. } => self.moved(place),
        }
    }
}
