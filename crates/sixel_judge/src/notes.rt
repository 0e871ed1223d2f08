//! What the rules need to know of the events, except the pixels.

ghost use Rattle.std.specs.Prelude.{◌≡◌, ◌<◌, ◌++◌, ◌∷◌, ◌||◌, [], List, false, not, slice_index_or};
ghost use Rattle.std.specs.Option.{option_map};
ghost use Rattle.sixel_grammar.specs.declared.command.Event.{Event as EventValue};
ghost use Rattle.sixel_judge.specs.Notes.{next_definitions, next_painted, said, said_of};

use crate::events::{
    columns_of, is_next_line, is_painting, is_raster, is_return, named_by, select_of,
};
use sixel_grammar::{Command, Event};
use sixel_model::{MOST_REGISTERS, Profile};

/// What a definition of a register says, in range or not.
#[derive(Clone, Copy, Debug, PartialEq, Eq, Drop)]
pub struct Definition {
    pub system: u16,
    pub x: u16,
    pub y: u16,
    pub z: u16,
}

/// What the rules need to know of the events so far, except the pixels.
#[derive(Debug, Drop)]
pub struct Notes {
    /// The column of the next sixel: the sum of the widths since the last return, at most `u64::MAX`.
    pub column: u64,
    /// The band: the number of next lines, at most `u64::MAX`.
    pub band: u64,
    /// The register of the last select.
    pub selected: Option<u16>,
    /// The register of the last select or definition.
    pub named: Option<u16>,
    /// Whether a command painted in the register, for each register number of a byte.
    pub painted: [bool; MOST_REGISTERS],
    /// The last definition of the register, for each register number of a byte.
    pub definitions: [Option<Definition>; MOST_REGISTERS],
    /// Whether raster attributes came.
    pub declared: bool,
    /// Whether a command painted before the first raster attributes.
    pub early: bool,
}

impl Notes {
    ghost use Rattle.sixel_model.specs.Profiles.{count_of};
    ghost use Rattle.sixel_judge.specs.Notes.{IsNotesAfter, is_declared_with, is_early_with, known_in};
    ghost use Rattle.sixel_judge.specs.Notes.{lacks_definition_in, marked, next_band, next_but_early, next_column};
    ghost use Rattle.sixel_judge.specs.Notes.{next_named, next_selected};

    /// The notes before any event.
    pub fn new() -> Notes
        ensures { IsNotesAfter result [] }
    {
        Notes {
            column: 0,
            band: 0,
            selected: None,
            named: None,
            painted: [false; MOST_REGISTERS],
            definitions: [None; MOST_REGISTERS],
            declared: false,
            early: false,
        }
    }

    /// The known register: the one of the last select, if the last select or definition names it too.
    #[inline(always)]
    pub fn known(&self) -> Option<u16>
        ensures { result ≡ known_in self.now }
    {
        match (self.selected, self.named) {
            (Some(selected), Some(named)) if named == selected => Some(selected),
            _ => None,
        }
    }

    /// The last definition of the register, which must be the number of a byte.
    #[inline]
    pub fn definition(&self, register: u16) -> Option<Definition>
        requires { register < 256 }
        ensures { option_map said result ≡ said_of self.now.definitions register }
    {
        self.definitions[register as usize]
    }

    /// Whether a command painted in the register, which must be the number of a byte.
    #[inline]
    pub fn is_painted_in(&self, register: u16) -> bool
        requires { register < 256 }
        ensures { result ≡ slice_index_or self.now.painted register false }
    {
        self.painted[register as usize]
    }

    #[inline(always)]
    fn mark(&mut self, event: &Event)
        ensures { self.new ≡ record self.old { painted = next_painted self.old event.now } }
    {
        if is_painting(event)
            && let Some(register) = self.known()
            && (register as usize) < MOST_REGISTERS
        {
            self.painted[register as usize] = true;
        }
    }

    #[inline(always)]
    fn move_on(&mut self, event: &Event)
        ensures { self.new ≡ record self.old {
          column = next_column self.old event.now;
          band = next_band self.old event.now;
        } }
    {
        self.column = if is_return(event) {
            0
        } else {
            self.column.saturating_add(columns_of(event) as u64)
        };
        if is_next_line(event) {
            self.band = self.band.saturating_add(1);
        }
    }

    #[inline(always)]
    fn name(&mut self, event: &Event)
        ensures { self.new ≡ record self.old {
          selected = next_selected self.old event.now;
          named = next_named self.old event.now;
        } }
    {
        if let Some(register) = select_of(event) {
            self.selected = Some(register);
        }
        if let Some(register) = named_by(event) {
            self.named = Some(register);
        }
    }

    #[inline(always)]
    fn define(&mut self, event: &Event)
        ensures { self.new ≡ record self.old { definitions = next_definitions self.old.definitions event.now } }
    {
        if let Event::Step(
            Command::Define {
                register,
                system,
                x,
                y,
                z,
            },
        ) = event
            && (*register as usize) < MOST_REGISTERS
        {
            self.definitions[*register as usize] = Some(Definition {
                system: *system,
                x: *x,
                y: *y,
                z: *z,
            });
        }
    }

    #[inline(always)]
    fn declare(&mut self, event: &Event)
        ensures { self.new ≡ record self.old { declared = is_declared_with self.old event.now } }
    {
        if is_raster(event) {
            self.declared = true;
        }
    }

    /// Notes a command that paints before the first raster attributes.
    #[inline(always)]
    fn note_early(&mut self, event: &Event)
        ensures { self.new ≡ record self.old { early = is_early_with self.old event.now } }
    {
        if is_painting(event) && !self.declared {
            self.early = true;
        }
    }

    /// Whether the known register is one of the profile's and has no definition.
    #[inline(always)]
    pub fn lacks_definition(&self, profile: Profile) -> bool
        ensures { result ≡ lacks_definition_in (count_of profile) self.now }
    {
        match self.known() {
            Some(register) => { register < profile.count() && self.definition(register).is_none() }
            None => false,
        }
    }

    /// Notes that a sixel or a repeat painted.
    #[inline(always)]
    pub fn paint(&mut self)
        ensures { self.new ≡ record self.old {
          painted = marked self.old.painted (known_in self.old);
          early = self.old.early || not self.old.declared;
        } }
    {
        if let Some(register) = self.known()
            && (register as usize) < MOST_REGISTERS
        {
            self.painted[register as usize] = true;
        }
        self.early = self.early || !self.declared;
    }

    /// Notes all but whether the event paints before the first raster attributes.
    #[inline(always)]
    pub(crate) fn take_but_early(&mut self, event: &Event)
        ensures { self.new ≡ next_but_early self.old event.now }
    {
        self.mark(event);
        self.move_on(event);
        self.name(event);
        self.define(event);
        self.declare(event);
    }

    /// Notes the next event, whether or not it breaks a rule.
    #[inline(always)]
    pub fn take(&mut self, event: &Event)
        ensures { (before : List EventValue) → IsNotesAfter self.old before
            → IsNotesAfter self.new (before ++ event.now ∷ []) }
    {
        self.note_early(event);
        self.take_but_early(event);
    }
}
