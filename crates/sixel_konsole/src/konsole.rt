//! What konsole makes of the events of a string.

mod noting;

ghost use Rattle.std.specs.Prelude.{◌≡◌, ◌==◌, ◌<◌, ◌&&◌, ◌||◌, ◌++◌, ◌∷◌, [], ℕ, List, None, Option, Some, false};
ghost use Rattle.std.specs.Prelude.{is_none, length, not, true};
ghost use Rattle.std.specs.Option.{option_map};
ghost use Rattle.sixel_grammar.specs.declared.command.Command.TheVariants.{Repeat};
ghost use Rattle.sixel_grammar.specs.declared.command.Event.{Event as AnEvent};
ghost use Rattle.sixel_grammar.specs.declared.command.Event.TheVariants.{Step as AStep};
ghost use Rattle.sixel_terminal.specs.Stretches.{sixels_of};
ghost use Rattle.sixel_konsole.specs.Konsole as rule;
ghost use Rattle.sixel_konsole.specs.KonsoleSeen.{HasSeenKonsole, begun_in, counting_in, konsole_in, may_count_in};
ghost use Rattle.sixel_konsole.specs.KonsoleSeen.{is_settled, keeps_settled, said, selects_or_paints};

use sixel_emulator::words::{
    defining, is_data_command, is_finish, is_raster, is_return, named_by, nearest,
};
use sixel_emulator::{Reading, Reads};
use sixel_grammar::{Command, Event};
use sixel_model::Colour;

/// How many registers konsole has. It ignores a greater number.
const REGISTERS: u16 = 256;

/// What raster attributes say.
#[derive(Clone, Copy, Debug, PartialEq, Eq)]
pub(crate) struct Stated {
    pub pan: u16,
    pub pad: u16,
    pub width: u16,
    pub height: u16,
}

/// The reading of konsole: what its rule needs to know of the events so far.
#[derive(Clone, Copy, Debug, PartialEq, Eq)]
pub struct Konsole {
    /// Whether all is dropped, up to the next return or new line.
    pub(crate) stuck: bool,
    /// Whether a select, a definition or a data command came.
    has_late: bool,
    /// Whether the picture has begun, whatever follows.
    begun: bool,
    /// Whether the last event is raster attributes that begin the picture, unless what follows drops them.
    declares: bool,
    /// The raster attributes that count, whatever follows.
    counting: Option<Stated>,
    /// The last event, if it is raster attributes that may count, unless what follows drops them.
    waiting: Option<Stated>,
    /// Whether a select or a data command changes nothing of what it stores; nor does a return or a new line, unless all
    /// is dropped.
    settled: bool,
}

/// Whether the event goes to the left margin or ends the string.
#[inline(always)]
pub(crate) fn moves_or_ends(event: &Event) -> bool
    ensures { result ≡ rule.moves_or_ends (Some event.now) }
{
    is_return(event) || is_finish(event)
}

/// Whether the event after drops a select, a definition or raster attributes.
#[inline(always)]
pub(crate) fn drops(next: Option<&Event>) -> bool
    ensures { result ≡ rule.moves_or_ends (option_map (λ e. e.now) next.entry) }
{
    match next {
        Some(event) => moves_or_ends(event),
        None => false,
    }
}

/// Whether what it makes of the event hangs on the one after it.
pub(crate) fn waits(event: &Event) -> bool
    ensures { result ≡ false → (before : List AnEvent) (next : Option AnEvent)
        → rule.konsole before event.now next ≡ rule.konsole before event.now None }
{
    named_by(event).is_some() || is_raster(event)
}

/// Whether it is a definition in a colour system but 1 and 2.
fn has_unknown_system(event: &Event) -> bool
    ensures { result ≡ rule.has_unknown_system event.now }
{
    match event {
        Event::Step(Command::Define { system, .. }) => *system != 1 && *system != 2,
        _ => false,
    }
}

/// Whether it is a select, a definition or a data command.
fn is_late(event: &Event) -> bool
    ensures { result ≡ rule.is_late event.now }
{
    named_by(event).is_some() || is_data_command(event)
}

/// Whether it is a select or a data command.
#[inline(always)]
fn selects_or_paints(event: &Event) -> bool
    ensures { result ≡ selects_or_paints event.now }
{
    matches!(
        event,
        Event::Step(Command::Select(_) | Command::Sixel(_) | Command::Repeat { .. })
    )
}

/// The definition of a register with this colour, if there is one, and its select.
fn colour_and_select(register: u16, colour: Option<Colour>) -> Reads
    ensures { result ≡ rule.colour_and_select register colour }
{
    match colour {
        Some(colour) => Reads::DrawsTwo(defining(register, colour), Command::Select(register)),
        None => Reads::Nothing,
    }
}

/// What it makes of a definition.
fn define(dropped: bool, register: u16, system: u16, x: u16, y: u16, z: u16) -> Reads
    ensures { result ≡ rule.konsole_define dropped register system x y z }
{
    if dropped || register >= REGISTERS {
        Reads::Nothing
    } else if system == 2 && (x > 100 || y > 100 || z > 100) {
        Reads::Unsaid
    } else {
        colour_and_select(register, nearest(system, x, y, z))
    }
}

impl Stated {
    /// Whether the ratio is a whole number, or one of its numbers is 0.
    fn is_whole(&self) -> bool
        ensures { result ≡ rule.is_whole (said self.now) }
    {
        self.pan == 0 || self.pad == 0 || self.pan % self.pad == 0
    }

    /// The height of a sixel pixel.
    pub(crate) fn tall(&self) -> u16
        ensures { result ≡ rule.ratio_of (said self.now) }
    {
        if self.pan == 0 || self.pad == 0 {
            1
        } else {
            self.pan / self.pad
        }
    }
}

impl Konsole {
    /// Before any event.
    pub fn new() -> Konsole
        ensures { HasSeenKonsole result [] }
    {
        Konsole {
            stuck: false,
            has_late: false,
            begun: false,
            declares: false,
            counting: None,
            waiting: None,
            settled: false,
        }
    }

    /// Whether the picture has begun, if the event after drops raster attributes or doesn't.
    #[inline(always)]
    pub(crate) fn has_begun(&self, dropped: bool) -> bool
        ensures { result ≡ begun_in self.now dropped }
    {
        self.begun || (self.declares && !dropped)
    }

    /// The raster attributes that count, if the event after drops raster attributes or doesn't.
    #[inline(always)]
    pub(crate) fn counting(&self, dropped: bool) -> Option<Stated>
        ensures { option_map said result ≡ counting_in self.now dropped }
    {
        match self.counting {
            Some(stated) => Some(stated),
            None if dropped => None,
            None => self.waiting,
        }
    }

    /// The height of a sixel pixel, if the events end here.
    fn tall(&self) -> u16
        ensures { result ≡ rule.konsole_tall (counting_in self.now false) }
    {
        match self.counting(false) {
            Some(stated) => stated.tall(),
            None => 1,
        }
    }

    /// Whether sixel pixels are one pixel high, whatever follows. `false` says nothing.
    pub(crate) fn stays_low(&self) -> bool
        ensures { result ≡ true → (before : List AnEvent) → HasSeenKonsole self.now before → rule.StaysLow before }
    {
        match self.waiting {
            None => self.has_late && self.tall() == 1,
            Some(_) => false,
        }
    }

    /// What raster attributes say that may count, unless the event after drops them.
    #[inline(always)]
    fn may_count(&self, event: &Event) -> Option<Stated>
        ensures { option_map said result ≡ may_count_in self.now event.now }
    {
        match event {
            Event::Step(
                Command::Raster {
                    pan,
                    pad,
                    width,
                    height,
                },
            ) if *width != 0 && !self.has_late => Some(Stated {
                pan: *pan,
                pad: *pad,
                width: *width,
                height: *height,
            }),
            _ => None,
        }
    }

    /// What it makes of raster attributes.
    #[inline(always)]
    fn raster(&self, dropped: bool, stated: Stated) -> Reads
        ensures { result ≡ rule.konsole_raster self.now.stuck
            (not ((stated.width == 0) || (dropped || self.now.has_late)) && is_none (counting_in self.now false))
            (said stated) }
    {
        let counts = stated.width != 0
            && !dropped
            && !self.has_late
            && self.counting(false).is_none();
        if self.stuck {
            Reads::Nothing
        } else if stated.height == 0 || (counts && !stated.is_whole()) {
            Reads::Unsaid
        } else {
            Reads::Nothing
        }
    }

    /// What it makes of a sixel or a repeat.
    #[inline(always)]
    fn data(&self, command: Command) -> Reads
        ensures { result ≡ rule.konsole_data self.now.stuck command }
    {
        if self.stuck {
            Reads::Nothing
        } else {
            Reads::Draws(command)
        }
    }

    /// What it makes of a return or a new line.
    #[inline(always)]
    fn go(&self, command: Command) -> Reads
        ensures { result ≡ rule.konsole_move (begun_in self.now true) command }
    {
        if self.has_begun(true) {
            Reads::Draws(command)
        } else {
            Reads::Nothing
        }
    }

    /// What it makes of a command, if the event after drops or doesn't.
    #[inline(always)]
    fn command(&self, dropped: bool, command: Command) -> Reads
        ensures { result ≡ konsole_in self.now dropped (AStep command) }
    {
        match command {
            Command::Sixel(_) => self.data(command),
            Command::Repeat { count, bits } => self.data(Command::Repeat {
                count: count.max(1),
                bits,
            }),
            Command::Raster {
                pan,
                pad,
                width,
                height,
            } => self.raster(
                dropped,
                Stated {
                    pan,
                    pad,
                    width,
                    height,
                },
            ),
            Command::Select(register) => self.select(dropped, register),
            Command::Define {
                register,
                system,
                x,
                y,
                z,
            } => define(dropped || self.stuck, register, system, x, y, z),
            Command::CarriageReturn | Command::NextLine => self.go(command),
        }
    }

    /// What it makes of a select.
    #[inline(always)]
    fn select(&self, dropped: bool, register: u16) -> Reads
        ensures { result ≡ rule.konsole_select (dropped || self.now.stuck) register }
    {
        if dropped || self.stuck || register >= REGISTERS {
            Reads::Nothing
        } else {
            Reads::Draws(Command::Select(register))
        }
    }

    /// What it makes of an event.
    #[inline(always)]
    fn reads(&self, event: &Event, dropped: bool) -> Reads
        ensures { result ≡ konsole_in self.now dropped event.now }
    {
        match event {
            Event::Step(command) => self.command(dropped, *command),
            _ => Reads::Nothing,
        }
    }

    /// Reads the next event, if the one after it drops or doesn't.
    #[inline(always)]
    pub(crate) fn read_before(&mut self, event: &Event, dropped: bool) -> Reads
        ensures reads { (before : List AnEvent) (next : Option AnEvent) → rule.moves_or_ends next ≡ dropped
            → HasSeenKonsole self.old before → result ≡ rule.konsole before event.now next }
        ensures seen { (before : List AnEvent) → HasSeenKonsole self.old before
            → HasSeenKonsole self.new (before ++ event.now ∷ []) }
    {
        let reads = self.reads(event, dropped);
        self.see(event);
        reads
    }

    /// The same, with whether it is settled.
    #[inline(always)]
    fn noted(self) -> Konsole
        ensures { result ≡ record self { settled = is_settled self } }
    {
        let settled = self.has_late && self.begun && !self.declares && self.waiting.is_none();
        Konsole { settled, ..self }
    }

    /// Notes one more event.
    #[inline(always)]
    pub(crate) fn see(&mut self, event: &Event)
        ensures { (before : List AnEvent) → HasSeenKonsole self.old before
            → HasSeenKonsole self.new (before ++ event.now ∷ []) }
    {
        if !self.stays_after(event) {
            *self = self.after(event);
        }
    }

    /// Whether the event changes nothing of what it stores.
    #[inline(always)]
    fn stays_after(&self, event: &Event) -> bool
        ensures { result ≡ (self.now.settled && keeps_settled self.now event.now) }
    {
        self.settled && (selects_or_paints(event) || (is_return(event) && !self.stuck))
    }

    /// Notes a repeat.
    #[inline(always)]
    pub(crate) fn see_repeat(&mut self, count: u16, bits: u8)
        ensures { (before : List AnEvent) → HasSeenKonsole self.old before
            → HasSeenKonsole self.new (before ++ AStep (Repeat count bits) ∷ []) }
    {
        if !self.settled {
            self.see_first_repeat(count, bits);
        }
    }

    /// The same, and slow.
    #[inline(never)]
    fn see_first_repeat(&mut self, count: u16, bits: u8)
        ensures { (before : List AnEvent) → HasSeenKonsole self.old before
            → HasSeenKonsole self.new (before ++ AStep (Repeat count bits) ∷ []) }
    {
        *self = self.after(&Event::Step(Command::Repeat { count, bits }));
    }

    /// What it notes of one more event.
    #[inline(always)]
    fn after(&self, event: &Event) -> Konsole
        ensures { (before : List AnEvent) → HasSeenKonsole self.now before
            → HasSeenKonsole result (before ++ event.now ∷ []) }
    {
        let dropped = moves_or_ends(event);
        Konsole {
            stuck: self.gets_stuck(event),
            has_late: self.gets_late(event),
            begun: self.begins(event),
            declares: self.declares(event),
            counting: self.counting(dropped),
            waiting: self.may_count(event),
            settled: false,
        }
        .noted()
    }

    /// Notes one sixel or more.
    #[inline(always)]
    fn see_sixels(&mut self)
        ensures { (before : List AnEvent) (bytes : List ℕ) → 0 < length bytes → HasSeenKonsole self.old before
            → HasSeenKonsole self.new (before ++ sixels_of bytes) }
    {
        if !self.settled {
            self.see_first_sixels();
        }
    }

    /// The same, and slow.
    #[inline(never)]
    fn see_first_sixels(&mut self)
        ensures { (before : List AnEvent) (bytes : List ℕ) → 0 < length bytes → HasSeenKonsole self.old before
            → HasSeenKonsole self.new (before ++ sixels_of bytes) }
    {
        *self = self.after_sixels();
    }

    /// What it notes of one sixel or more.
    #[inline(always)]
    fn after_sixels(&self) -> Konsole
        ensures { (before : List AnEvent) (bytes : List ℕ) → 0 < length bytes → HasSeenKonsole self.now before
            → HasSeenKonsole result (before ++ sixels_of bytes) }
    {
        Konsole {
            stuck: self.stuck,
            has_late: true,
            begun: self.has_begun(false) | !self.stuck,
            declares: false,
            counting: self.counting(false),
            waiting: None,
            settled: false,
        }
        .noted()
    }
}

impl Reading for Konsole {
    ghost model = { rule.konsole_model };

    ghost has_seen = { HasSeenKonsole };

    #[inline(always)]
    fn read(&mut self, event: &Event, next: Option<&Event>) -> Reads {
        self.read_before(event, drops(next))
    }

    fn waits(&self, event: &Event) -> bool {
        waits(event)
    }

    fn plain_sixels(&self) -> usize {
        if self.stuck { 0 } else { usize::MAX }
    }

    fn draws_blanks(&self) -> bool {
        false
    }

    fn note_sixels(&mut self, bytes: &[u8]) {
        if !bytes.is_empty() {
            self.see_sixels();
        }
    }

    fn kept_columns(&self, _zero_columns: u8) -> Option<usize> {
        if self.stuck { Some(0) } else { None }
    }

    #[inline(always)]
    fn is_plain_repeat(&self, count: u16, _bits: u8) -> bool {
        count != 0 && !self.stuck
    }

    #[inline(always)]
    fn note_repeat(&mut self, count: u16, bits: u8) {
        self.see_repeat(count, bits);
    }
}
