//! A checker as a follower of the events that are read.

ghost use Rattle.std.specs.Prelude.{◌++◌, ◌∷◌, [], ℕ, List, OnErr, OnOk};
ghost use Rattle.sixel_grammar.specs.Document.{events_of};
ghost use Rattle.sixel_grammar.specs.Following.{MayFollow, command_at};
ghost use Rattle.sixel_grammar.specs.declared.command.Event.TheVariants.{Step};
ghost use Rattle.sixel_grammar.specs.declared.command.Placed.{Placed as PlacedValue};
ghost use Rattle.sixel_model.specs.Profiles.{count_of};
ghost use Rattle.sixel_judge.specs.Growth.{MayGrow, MayGrowAmong};
ghost use Rattle.sixel_judge.specs.Standing.{StandsAfter};

use crate::checker::Checker;
use crate::pushing::push_stretch;
use sixel_grammar::{Command, Event, Follower, Placed};
use sixel_plane::Cover;
use std::alloc::AllocError;

/// Pushes a command. It is inlined, so that a caller that knows the kind keeps only the code for that kind.
#[inline(always)]
fn push_command<P: Cover>(
    checker: &mut Checker<P>,
    place: u64,
    command: Command,
) -> Result<(), AllocError>
    requires { (registers : ℕ) × (seen : List PlacedValue) × StandsAfter registers checker.old seen
        × MayFollow seen (command_at place command ∷ []) }
    ensures pushed { OnOk result ((registers : ℕ) (seen : List PlacedValue) → StandsAfter registers checker.old seen
        → StandsAfter registers checker.new (seen ++ command_at place command ∷ [])) }
    ensures grows { OnErr result ((registers : ℕ) (seen : List PlacedValue) → StandsAfter registers checker.old seen
        → MayGrow registers (events_of seen) (Step command)) }
{
    let event = Event::Step(command);
    checker.push(&Placed { place, event })
}

/// Pushes a command of any kind.
#[inline(never)]
fn push_rarely<P: Cover>(
    checker: &mut Checker<P>,
    place: u64,
    command: Command,
) -> Result<(), AllocError>
    requires { (registers : ℕ) × (seen : List PlacedValue) × StandsAfter registers checker.old seen
        × MayFollow seen (command_at place command ∷ []) }
    ensures pushed { OnOk result ((registers : ℕ) (seen : List PlacedValue) → StandsAfter registers checker.old seen
        → StandsAfter registers checker.new (seen ++ command_at place command ∷ [])) }
    ensures grows { OnErr result ((registers : ℕ) (seen : List PlacedValue) → StandsAfter registers checker.old seen
        → MayGrow registers (events_of seen) (Step command)) }
{
    push_command(checker, place, command)
}

/// It has the registers of the profile that it had first.
impl<P: Cover> Follower for Checker<P> {
    type Stop = AllocError;

    ghost has_taken = { λ first now seen. StandsAfter (count_of first.profile) now seen };

    ghost may_stop = { λ first now stop seen. MayGrowAmong (count_of first.profile) seen };

    #[inline(never)]
    fn take(&mut self, placed: &Placed) -> Result<(), AllocError> {
        self.push(placed)
    }

    /// Each kind that is frequent gets its own inlined call, with the code for that kind alone.
    #[inline(always)]
    fn take_command(&mut self, place: u64, command: Command) -> Result<(), AllocError> {
        match command {
            Command::CarriageReturn | Command::NextLine => push_command(self, place, command),
            Command::Select(_) => push_command(self, place, command),
            Command::Define { .. } => push_command(self, place, command),
            other => push_rarely(self, place, other),
        }
    }

    #[inline(always)]
    fn take_select(&mut self, place: u64, register: u16) -> Result<(), AllocError> {
        push_command(self, place, Command::Select(register))
    }

    #[inline(always)]
    fn take_repeat(&mut self, place: u64, count: u16, bits: u8) -> Result<(), AllocError> {
        push_command(self, place, Command::Repeat { count, bits })
    }

    #[inline(always)]
    fn take_stretch(&mut self, place: u64, bytes: &[u8], count: usize) -> Result<(), AllocError> {
        push_stretch(self, place, bytes, count)
    }
}
