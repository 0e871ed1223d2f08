//! The colours that foot's registers have.

ghost use Rattle.std.specs.Prelude.{◌≡◌, ◌<◌, ◌++◌, ◌∷◌, [], IfOk, List, Some, slice_set};
ghost use Rattle.sixel_grammar.specs.declared.command.Command.TheVariants.{Define};
ghost use Rattle.sixel_grammar.specs.declared.command.Event.{Event as AnEvent};
ghost use Rattle.sixel_grammar.specs.declared.command.Event.TheVariants.{Step};
ghost use Rattle.sixel_foot.specs.Foot.{foot_colour, foot_register};
ghost use Rattle.sixel_foot.specs.FootSeen.{HasColours};

use sixel_emulator::words::nearest;
use sixel_grammar::{Command, Event};
use sixel_model::Colour;
use std::alloc::{AllocError, Global};

/// The last register, which stands for greater numbers.
const LAST: u16 = 1023;

/// The colour of each register, if it has one.
#[derive(Debug, Drop)]
pub(crate) struct Colours {
    entries: Vec<Option<Colour>>,
}

/// The register with this number.
fn register_of(number: u16) -> u16
    ensures value { result ≡ foot_register number }
    ensures below { result < 1024 }
{
    number.min(LAST)
}

impl Colours {
    /// No register has a colour.
    pub(crate) fn new(alloc: Global) -> Result<Colours, AllocError>
        ensures { IfOk result (λ colours. HasColours colours []) }
    {
        Ok(Colours {
            entries: vec![in alloc; None; LAST as usize + 1]?,
        })
    }

    /// The colour of the register with this number.
    #[inline(always)]
    pub(crate) fn colour_of(&self, number: u16) -> Option<Colour>
        ensures { (before : List AnEvent) → HasColours self.now before
            → result ≡ foot_colour before (foot_register number) }
    {
        self.entries
            .get(register_of(number) as usize)
            .copied()
            .flatten()
    }

    /// Gives the register with this number a colour.
    fn define(&mut self, number: u16, colour: Colour)
        ensures { self.new.entries.items
            ≡ slice_set self.old.entries.items (foot_register number) (Some colour) }
    {
        if let Some(entry) = self.entries.get_mut(register_of(number) as usize) {
            *entry = Some(colour);
        }
    }

    /// Notes the colour that a definition gives, if it gives one.
    fn note_definition(&mut self, number: u16, system: u16, x: u16, y: u16, z: u16)
        ensures { (before : List AnEvent) → HasColours self.old before
            → HasColours self.new (before ++ Step (Define number system x y z) ∷ []) }
    {
        match nearest(system, x, y, z) {
            Some(colour) => self.define(number, colour),
            None => {}
        }
    }

    /// Notes the colour that the command gives, if it gives one.
    #[inline(always)]
    fn note_command(&mut self, command: Command)
        ensures { (before : List AnEvent) → HasColours self.old before
            → HasColours self.new (before ++ Step command ∷ []) }
    {
        match command {
            Command::Define {
                register,
                system,
                x,
                y,
                z,
            } => self.note_definition(register, system, x, y, z),
            _ => {}
        }
    }

    /// Notes the colour that the event gives, if it gives one.
    #[inline(always)]
    pub(crate) fn note(&mut self, event: &Event)
        ensures { (before : List AnEvent) → HasColours self.old before
            → HasColours self.new (before ++ event.now ∷ []) }
    {
        if let Event::Step(command) = event {
            self.note_command(*command);
        }
    }
}
