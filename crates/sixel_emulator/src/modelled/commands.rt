//! Takes commands, each frequent kind by a call with the code for that kind alone.

ghost use Rattle.std.specs.Prelude.{◌≡◌, ◌++◌, ◌∷◌, [], List};
ghost use Rattle.sixel_grammar.specs.declared.command.Command.TheVariants.{CarriageReturn, NextLine, Select};
ghost use Rattle.sixel_grammar.specs.declared.command.Event.{Event as AnEvent};
ghost use Rattle.sixel_grammar.specs.declared.command.Event.TheVariants.{Step};
ghost use Rattle.sixel_grammar.specs.declared.command.Placed.{Placed as Place};
ghost use Rattle.sixel_emulator.specs.Modelled.{HasFollowed, placed_at};

use crate::modelled::Modelled;
use crate::reading::Reading;
use sixel_grammar::{Command, Event};

impl<R: Reading> Modelled<R> {
    /// Takes a return that comes next.
    #[inline(never)]
    fn push_return(&mut self, place: u64)
        ensures terminal { self.new.progress.drawing.terminal ≡ self.old.progress.drawing.terminal }
        ensures followed { (opening : List AnEvent) (before : List Place)
            → HasFollowed R.model R.has_seen self.old opening before
            → HasFollowed R.model R.has_seen self.new opening (before ++ placed_at place (Step CarriageReturn) ∷ []) }
    {
        self.push(place, Event::Step(Command::CarriageReturn));
    }

    /// Takes a new line that comes next.
    #[inline(never)]
    fn push_next_line(&mut self, place: u64)
        ensures terminal { self.new.progress.drawing.terminal ≡ self.old.progress.drawing.terminal }
        ensures followed { (opening : List AnEvent) (before : List Place)
            → HasFollowed R.model R.has_seen self.old opening before
            → HasFollowed R.model R.has_seen self.new opening (before ++ placed_at place (Step NextLine) ∷ []) }
    {
        self.push(place, Event::Step(Command::NextLine));
    }

    /// Takes a select that comes next.
    #[inline(never)]
    fn push_select(&mut self, place: u64, register: u16)
        ensures terminal { self.new.progress.drawing.terminal ≡ self.old.progress.drawing.terminal }
        ensures followed { (opening : List AnEvent) (before : List Place)
            → HasFollowed R.model R.has_seen self.old opening before
            → HasFollowed R.model R.has_seen self.new opening (before ++ placed_at place (Step (Select register)) ∷ []) }
    {
        self.push(place, Event::Step(Command::Select(register)));
    }

    /// Takes a command that comes next, of a kind that is rare.
    #[inline(never)]
    fn push_rarely(&mut self, place: u64, command: Command)
        ensures terminal { self.new.progress.drawing.terminal ≡ self.old.progress.drawing.terminal }
        ensures followed { (opening : List AnEvent) (before : List Place)
            → HasFollowed R.model R.has_seen self.old opening before
            → HasFollowed R.model R.has_seen self.new opening (before ++ placed_at place (Step command) ∷ []) }
    {
        self.push(place, Event::Step(command));
    }

    /// Takes the command that comes next. It is inlined, since it only tells the kinds apart.
    #[inline(always)]
    pub(crate) fn push_command(&mut self, place: u64, command: Command)
        ensures terminal { self.new.progress.drawing.terminal ≡ self.old.progress.drawing.terminal }
        ensures followed { (opening : List AnEvent) (before : List Place)
            → HasFollowed R.model R.has_seen self.old opening before
            → HasFollowed R.model R.has_seen self.new opening (before ++ placed_at place (Step command) ∷ []) }
    {
        match command {
            Command::CarriageReturn => self.push_return(place),
            Command::NextLine => self.push_next_line(place),
            Command::Select(register) => self.push_select(place, register),
            other => self.push_rarely(place, other),
        }
    }
}
