//! What the rules need to know of the events so far.

ghost use Rattle.std.specs.Prelude.{◌≡◌, ◌++◌, ◌∷◌, ◌<◌, [], ℕ, List, None, false, is_some, length, min};
ghost use Rattle.std.specs.Option.{option_map, option_or};
ghost use Rattle.sixel_grammar.specs.declared.command.Event.{Event as AnEvent};
ghost use Rattle.sixel_model.specs.Events as said;
ghost use Rattle.sixel_model.specs.Rules.{known_by};
ghost use Rattle.sixel_emulator_rules.specs.Notes as by;
ghost use Rattle.sixel_emulator_rules.specs.Notes.{AreNarrow, IsNotesAfter};

use crate::events::{
    columns_of, is_next_line, is_raster, is_return, named_by, raster_of, select_of,
};
use crate::shade::{Shade, is_same, shade_in};
use sixel_grammar::{Command, Event};
use sixel_model::MOST_REGISTERS;

/// What raster attributes declare.
#[derive(Clone, Copy, Debug, PartialEq, Eq)]
pub struct Declared {
    pub pan: u16,
    pub pad: u16,
    pub width: u16,
    pub height: u16,
}

/// What the rules need to know of the events so far. Numbers of columns and bands stop at `u32::MAX`.
#[derive(Debug, Drop)]
pub struct Notes {
    /// The column of the next sixel.
    pub(crate) column: u32,
    /// Its band.
    pub(crate) band: u32,
    /// The first raster attributes.
    pub(crate) declared: Option<Declared>,
    /// Whether the last event is a select, a definition or raster attributes.
    pub(crate) droppable: bool,
    /// The register of the last select.
    pub(crate) selected: Option<u16>,
    /// The register of the last select or definition.
    pub(crate) named: Option<u16>,
    /// The colour of the last definition of each register up to 255.
    pub(crate) shades: [Option<Shade>; MOST_REGISTERS],
    /// The colour that the selected register had when it was selected.
    pub(crate) picked: Option<Shade>,
}

/// The first raster attributes, by those before the event.
#[inline(always)]
fn first_declared(declared: Option<Declared>, event: &Event) -> Option<Declared>
    ensures value { option_map by.attributes result
        ≡ option_or (option_map by.attributes declared) (said.raster_of event.now) }
    ensures narrow { AreNarrow declared → AreNarrow result }
{
    match declared {
        Some(declared) => Some(declared),
        None => raster_of(event),
    }
}

impl Notes {
    /// Before any event.
    pub(crate) fn new() -> Notes
        ensures { IsNotesAfter result [] }
    {
        Notes {
            column: 0,
            band: 0,
            declared: None,
            droppable: false,
            selected: None,
            named: None,
            shades: [None; MOST_REGISTERS],
            picked: None,
        }
    }

    /// The register that is known: the one of the last select, if the last select or definition names it too.
    #[inline(always)]
    pub(crate) fn known(&self) -> Option<u16>
        ensures { result ≡ known_by self.now.selected self.now.named }
    {
        match (self.selected, self.named) {
            (Some(selected), Some(named)) if named == selected => Some(selected),
            _ => None,
        }
    }

    /// The colour of a register up to 255.
    #[inline(always)]
    fn shade(&self, register: u16) -> Option<Shade>
        ensures { result ≡ by.shade_at self.now.shades register }
    {
        if (register as usize) < MOST_REGISTERS {
            self.shades[register as usize]
        } else {
            None
        }
    }

    /// Whether the known register has another colour than at its select.
    #[inline(always)]
    pub(crate) fn is_stale(&self) -> bool
        ensures { result ≡ by.stale_in self.now }
    {
        match self.known() {
            Some(register) => !is_same(self.shade(register), self.picked),
            None => false,
        }
    }

    /// The column at which the event ends.
    #[inline(always)]
    fn end(&self, columns: u32) -> u32
        ensures { result ≡ by.end_of self.now columns }
    {
        self.column.saturating_add(columns)
    }

    #[inline(always)]
    fn move_on(&mut self, event: &Event)
        ensures { self.new ≡ record self.old {
          column = by.next_column self.old event.now;
          band = by.next_band self.old event.now;
        } }
    {
        self.column = if is_return(event) {
            0
        } else {
            self.end(u32::from(columns_of(event)))
        };
        if is_next_line(event) {
            self.band = self.band.saturating_add(1);
        }
    }

    #[inline(always)]
    fn name(&mut self, event: &Event)
        ensures { self.new ≡ record self.old {
          selected = option_or (said.select_of event.now) self.old.selected;
          named = option_or (said.named_by event.now) self.old.named;
          picked = by.next_picked self.old event.now;
          droppable = by.is_droppable event.now;
        } }
    {
        if let Some(register) = select_of(event) {
            self.selected = Some(register);
            self.picked = self.shade(register);
        }
        if let Some(register) = named_by(event) {
            self.named = Some(register);
        }
        self.droppable = named_by(event).is_some() || is_raster(event);
    }

    #[inline(always)]
    fn define(&mut self, event: &Event)
        ensures { self.new ≡ record self.old { shades = by.next_shades self.old.shades event.now } }
    {
        if let Event::Step(
            Command::Define {
                register,
                system,
                x,
                y,
                z,
            },
        ) = event
            && (*register as usize) < MOST_REGISTERS
        {
            self.shades[*register as usize] = shade_in(*system, *x, *y, *z);
        }
    }

    /// Notes the next event.
    #[inline(always)]
    pub(crate) fn take(&mut self, event: &Event)
        ensures { (before : List AnEvent) → IsNotesAfter self.old before
            → IsNotesAfter self.new (before ++ event.now ∷ []) }
    {
        let declared = first_declared(self.declared, event);
        self.move_on(event);
        self.name(event);
        self.define(event);
        self.declared = declared;
    }

    /// Notes a select.
    #[inline(always)]
    pub(crate) fn select(&mut self, register: u16)
        ensures { self.new ≡ by.selecting self.old register }
    {
        self.droppable = true;
        self.selected = Some(register);
        self.named = Some(register);
        self.picked = self.shade(register);
    }

    /// Notes a return.
    #[inline(always)]
    pub(crate) fn go_back(&mut self)
        ensures { self.new ≡ by.returned self.old }
    {
        self.column = 0;
        self.droppable = false;
    }

    /// Notes a new line.
    #[inline(always)]
    pub(crate) fn go_down(&mut self)
        ensures { self.new ≡ by.lowered self.old }
    {
        self.column = 0;
        self.band = self.band.saturating_add(1);
        self.droppable = false;
    }

    /// Notes so many sixels, one or more.
    #[inline(always)]
    pub(crate) fn pass(&mut self, columns: u32)
        ensures { self.new ≡ by.passed self.old columns }
    {
        self.column = self.end(columns);
        self.droppable = false;
    }
}
