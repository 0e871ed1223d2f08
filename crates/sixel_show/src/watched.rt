//! A drawing that notes whether a register above 15 is named.

ghost use Rattle.std.specs.Prelude.{◌≡◌, ◌<◌, ◌∷◌, ◌++◌, [], ℕ, IsTrue, List, length, slice_index};
ghost use Rattle.sixel_grammar.specs.declared.command.Event.{Event as AnEvent};
ghost use Rattle.sixel_grammar.specs.Bytes.{is_data};
ghost use Rattle.sixel_terminal.specs.Drawings.{HasDrawn};
ghost use Rattle.sixel_terminal.specs.Stretches.{sixels_of};
ghost use Rattle.sixel_show.specs.Notes.{has_high_register, names_high_register, shown_status};
ghost use Rattle.sixel_show.specs.Watching.{HasWatched, HasWatchedOn, IsShownAfter};

use crate::screen::Shown;
use sixel_grammar::{Command, Event, Follower, Placed};
use sixel_judge::events::named_by;
use sixel_model::Profile;
use sixel_report::{Note, Status};
use sixel_terminal::Drawing;
use std::convert::Infallible;

/// A drawing of some events, and whether one of them names a register above 15.
#[derive(Debug, Drop)]
pub struct Watched {
    drawing: Drawing,
    has_high_register: bool,
}

impl Watched {
    /// A drawing before any event.
    pub fn new(drawing: Drawing) -> Watched
        requires { HasDrawn drawing [] }
        ensures terminal { result.drawing.terminal ≡ drawing.terminal }
        ensures watched { HasWatched result [] }
    {
        Watched {
            drawing,
            has_high_register: false,
        }
    }

    /// Draws one more event, and looks at the register that it names.
    #[inline(always)]
    fn push(&mut self, event: &Event)
        ensures terminal { self.new.drawing.terminal ≡ self.old.drawing.terminal }
        ensures watched { (before : List AnEvent) → HasWatched self.old before
            → HasWatched self.new (before ++ event.now ∷ []) }
    {
        self.drawing.push(event);
        self.has_high_register |= names_high_register(event);
    }

    /// Draws the sixels of these data bytes, in order. They name no register.
    #[inline(always)]
    fn push_stretch(&mut self, bytes: &[u8])
        requires { (k : ℕ) → k < length bytes.now → IsTrue (is_data (slice_index bytes.now k)) }
        ensures terminal { self.new.drawing.terminal ≡ self.old.drawing.terminal }
        ensures watched { (before : List AnEvent) → HasWatched self.old before
            → HasWatched self.new (before ++ sixels_of bytes.now) }
    {
        self.drawing.push_stretch(bytes);
    }

    /// What the terminal shows after the events. The terminal has the registers of the profile.
    pub fn finish(self, profile: Profile) -> Shown
        ensures { (events : List AnEvent) → HasWatched self events
            → IsShownAfter profile self.drawing.terminal result events }
    {
        Shown {
            status: shown_status(profile, self.has_high_register),
            screen: self.drawing.finish(),
        }
    }
}

impl Follower for Watched {
    type Stop = Infallible;

    ghost has_taken = { HasWatchedOn };

    ghost may_stop = { λ first now stop seen. ⊥ };

    fn take(&mut self, placed: &Placed) -> Result<(), Infallible> {
        self.push(&placed.event);
        Ok(())
    }

    #[inline(always)]
    fn take_command(&mut self, _place: u64, command: Command) -> Result<(), Infallible> {
        self.push(&Event::Step(command));
        Ok(())
    }

    #[inline(always)]
    fn take_select(&mut self, _place: u64, register: u16) -> Result<(), Infallible> {
        self.push(&Event::Step(Command::Select(register)));
        Ok(())
    }

    #[inline(always)]
    fn take_repeat(&mut self, _place: u64, count: u16, bits: u8) -> Result<(), Infallible> {
        self.push(&Event::Step(Command::Repeat { count, bits }));
        Ok(())
    }

    fn take_stretch(&mut self, _place: u64, bytes: &[u8], count: usize) -> Result<(), Infallible> {
        self.push_stretch(&bytes[..count]);
        Ok(())
    }
}

/// Whether the event selects or defines a register above 15.
#[tactic(auto, unfolding(sixel_model::specs::Rules::breaks_register))]
#[inline]
fn names_high_register(event: &Event) -> bool
    ensures { result ≡ names_high_register event.now }
{
    match named_by(event) {
        Some(register) => register >= Profile::Registers16.count(),
        None => false,
    }
}

/// The status of a show with the registers of the profile.
fn shown_status(profile: Profile, high: bool) -> Status
    ensures { (events : List AnEvent) → high ≡ has_high_register events
        → result ≡ shown_status profile events }
{
    match profile {
        Profile::Registers16 if high => Status::Noted(Note::HighRegister),
        Profile::Registers16 | Profile::Registers256 => Status::Done,
    }
}
