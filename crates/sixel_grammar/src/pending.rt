//! What is open after the bytes read so far, and how the next byte changes that.

ghost use Rattle.std.specs.Prelude.{◌≡◌, IsTrue, true, false, [], IsNone, IsSome, IfSome, OnSome, Some, None, ◌↔◌};
ghost use Rattle.std.specs.Option.{option_map};
ghost use Rattle.sixel_grammar.specs.declared.command.Event.TheVariants.{Step as step_of};
ghost use Rattle.sixel_grammar.specs.Bytes.{is_filler as filler_test, is_data as data_test};
ghost use Rattle.sixel_grammar.specs.Bytes.{is_body as body_test};
ghost use Rattle.sixel_grammar.specs.Faults.{NothingYet as NothingForm, NoCommand as NoCommandForm};
ghost use Rattle.sixel_grammar.specs.Faults.{RepeatNumber as RepeatForm, RasterFields as RasterForm};
ghost use Rattle.sixel_grammar.specs.Faults.{ColourFields as ColourForm, Ended as EndedForm, refusal, is_idle};
ghost use Rattle.sixel_grammar.specs.Next.{begin as begin_of, within as within_of, only_grown, only_whole};
ghost use Rattle.sixel_grammar.specs.Next.{settled as settled_of, next_of, ends_repeat};
ghost use Rattle.sixel_grammar.specs.Standing.{is_columns};
ghost use Rattle.sixel_grammar.specs.Pending.{Grows, MakesWhole, event_of, form_of};

use crate::command::{Command, Event};
use crate::fault::Reason;
use arrayvec::ArrayVec;

mod ending;
mod numbers;

pub(crate) use ending::Ending;

const ESCAPE: u8 = 0x1b;

/// The reader's state: what is open, if anything.
#[derive(Clone, Copy, Debug, PartialEq, Eq)]
pub(crate) enum Open {
    NothingYet,
    Introducing,
    Parameters,
    RepeatNumber,
    RasterFields,
    ColourFields,
    LastSeparator,
    NoCommand,
    Terminating,
    Ended,
}

/// The state, with the numbers read so far.
#[derive(Debug, Drop)]
pub(crate) struct Pending {
    form: Open,
    eight: bool,
    number: u16,
    parameters: ArrayVec<u16, 3>,
    fields: ArrayVec<u16, 4>,
}

/// An event that a byte completes.
#[derive(Clone, Copy, Debug, PartialEq, Eq)]
pub(crate) enum WholeEvent {
    Start,
    Step(Command),
    Finish { eight: bool },
}

/// A command that a byte ends, and the event that the byte itself completes.
#[derive(Clone, Copy, Debug, PartialEq, Eq)]
pub(crate) struct Both {
    pub ended: Command,
    pub whole: WholeEvent,
}

#[inline]
pub(crate) fn is_filler(byte: u8) -> bool
    ensures { result ≡ filler_test byte }
{
    matches!(byte, b'\t' | b'\n' | b'\r' | b' ')
}

#[inline]
pub(crate) fn is_data(byte: u8) -> bool
    ensures { result ≡ data_test byte }
{
    b'?' <= byte && byte <= b'~'
}

/// Whether the byte is allowed when no command is open.
fn is_body(byte: u8) -> bool
    ensures { result ≡ body_test byte }
{
    is_data(byte)
        || (b'!' <= byte && byte <= b'$')
        || byte == b'-'
        || is_filler(byte)
        || byte == ESCAPE
        || byte == 0x9c
}

fn raster(fields: &[u16], number: u16) -> Option<Command>
    ensures { option_map step_of result ≡ settled_of (RasterForm fields.now number) }
{
    let (pan, pad, width, height) = match fields {
        [] => (number, 0, 0, 0),
        [pan] => (*pan, number, 0, 0),
        [pan, pad] => (*pan, *pad, number, 0),
        [pan, pad, width] => (*pan, *pad, *width, number),
        _ => return None,
    };
    Some(Command::Raster {
        pan,
        pad,
        width,
        height,
    })
}

fn colour(fields: &[u16], number: u16) -> Option<Command>
    ensures { option_map step_of result ≡ settled_of (ColourForm fields.now number) }
{
    match fields {
        [] => Some(Command::Select(number)),
        [register, system, x, y] => Some(Command::Define {
            register: *register,
            system: *system,
            x: *x,
            y: *y,
            z: number,
        }),
        _ => None,
    }
}

impl Pending {
    pub(crate) fn new() -> Pending
        ensures { form_of result ≡ NothingForm }
    {
        Pending {
            form: Open::NothingYet,
            eight: false,
            number: 0,
            parameters: ArrayVec::new(),
            fields: ArrayVec::new(),
        }
    }

    /// Whether we are in the picture data and no command is open.
    #[inline]
    pub(crate) fn is_between_commands(&self) -> bool
        ensures { IsTrue result ↔ (form_of self.now ≡ NoCommandForm) }
    {
        matches!(self.form, Open::NoCommand)
    }

    /// The open command, if it has all its fields, so that the next byte may end it.
    fn settled(&self) -> Option<Command>
        ensures { option_map step_of result ≡ settled_of (form_of self.now) }
    {
        match self.form {
            Open::RasterFields => raster(self.fields.as_slice(), self.number),
            Open::ColourFields => colour(self.fields.as_slice(), self.number),
            _ => None,
        }
    }

    /// The command that the byte ends, if the byte is filler, ESC or another command's introducer.
    #[inline(always)]
    pub(crate) fn end_command(&mut self, byte: u8) -> Option<Command>
        ensures ended { IfSome result (λ command.
            next_of (form_of self.old) byte ≡ Some (Some (step_of command), form_of self.new, None)) }
        ensures not_ended { IsNone result → OnSome (settled_of (form_of self.old)) (only_grown (begin_of byte) ≡ None) }
        ensures refused { IsNone result → self.new ≡ self.old }
    {
        match self.settled() {
            Some(command) if self.try_begin(byte) => Some(command),
            _ => None,
        }
    }

    /// The command that the byte ends, and the event that the byte itself completes.
    pub(crate) fn end_and_make_whole(&mut self, byte: u8) -> Option<Both>
        requires { only_grown (within_of (form_of self.old) byte) ≡ None }
        ensures ended { IfSome result (λ both. next_of (form_of self.old) byte ≡
            Some (Some (step_of both.ended), form_of self.new, Some (event_of both.whole self.new))) }
        ensures not_ended { IsNone result → OnSome (settled_of (form_of self.old)) (only_whole (begin_of byte) ≡ None) }
        ensures refused { IsNone result → self.new ≡ self.old }
    {
        match self.settled() {
            None => None,
            Some(ended) => match self.begin_whole(byte) {
                Some(whole) => Some(Both { ended, whole }),
                None => None,
            },
        }
    }

    /// Takes filler, ESC or a command's introducer when no command is open. Returns whether it did.
    fn try_begin(&mut self, byte: u8) -> bool
        ensures grown { Grows result self.new (begin_of byte) }
        ensures refused { result ≡ false → self.new ≡ self.old }
    {
        match byte {
            b'\t' | b'\n' | b'\r' | b' ' => self.set(Open::NoCommand),
            b'!' => self.begin_repeat(),
            b'"' => self.begin_fields(Open::RasterFields),
            b'#' => self.begin_fields(Open::ColourFields),
            ESCAPE => self.set(Open::Terminating),
            _ => return false,
        }
        true
    }

    /// The event that the byte alone is when no command is open: a sixel, `$`, `-` or the terminator 9C.
    fn begin_whole(&mut self, byte: u8) -> Option<WholeEvent>
        ensures whole { MakesWhole result self.new (begin_of byte) }
        ensures refused { IsNone result → self.new ≡ self.old }
    {
        if is_data(byte) {
            self.set(Open::NoCommand);
            return Some(WholeEvent::Step(Command::Sixel(byte - b'?')));
        }
        match byte {
            b'$' => {
                self.set(Open::NoCommand);
                Some(WholeEvent::Step(Command::CarriageReturn))
            }
            b'-' => {
                self.set(Open::NoCommand);
                Some(WholeEvent::Step(Command::NextLine))
            }
            0x9c => {
                self.set(Open::Ended);
                Some(WholeEvent::Finish { eight: true })
            }
            _ => None,
        }
    }

    /// Takes a byte that continues what is open and completes nothing. Returns whether it did.
    pub(crate) fn try_grow(&mut self, byte: u8) -> bool
        ensures grown { Grows result self.new (within_of (form_of self.old) byte) }
        ensures refused { result ≡ false → self.new ≡ self.old }
    {
        match self.form {
            Open::NothingYet => self.try_open(byte),
            Open::Introducing => self.try_introduce(byte),
            Open::Parameters => self.try_grow_parameters(byte),
            Open::RepeatNumber => self.try_grow_repeat(byte),
            Open::RasterFields => self.try_grow_raster(byte),
            Open::ColourFields => self.try_grow_colour(byte),
            Open::LastSeparator => false,
            Open::NoCommand => self.try_begin(byte),
            Open::Terminating => false,
            Open::Ended => is_filler(byte),
        }
    }

    fn try_open(&mut self, byte: u8) -> bool
        requires { self.old.form ≡ Open.NothingYet }
        ensures grown { Grows result self.new (within_of (form_of self.old) byte) }
        ensures refused { result ≡ false → self.new ≡ self.old }
    {
        if is_filler(byte) {
            true
        } else if byte == ESCAPE {
            self.set(Open::Introducing);
            true
        } else if byte == 0x90 {
            self.introduce(true);
            true
        } else {
            false
        }
    }

    fn try_introduce(&mut self, byte: u8) -> bool
        requires { self.old.form ≡ Open.Introducing }
        ensures grown { Grows result self.new (within_of (form_of self.old) byte) }
        ensures refused { result ≡ false → self.new ≡ self.old }
    {
        if byte == b'P' {
            self.introduce(false);
            true
        } else {
            false
        }
    }

    fn try_grow_parameters(&mut self, byte: u8) -> bool
        requires { self.old.form ≡ Open.Parameters }
        ensures grown { Grows result self.new (within_of (form_of self.old) byte) }
        ensures refused { result ≡ false → self.new ≡ self.old }
    {
        if byte.is_ascii_digit() {
            self.try_add_digit(byte)
        } else if byte == b';' && !self.parameters.is_full() {
            let is_last = self.parameters.len() >= 2;
            self.add_parameter();
            if is_last {
                self.set(Open::LastSeparator);
            }
            true
        } else {
            false
        }
    }

    fn try_grow_repeat(&mut self, byte: u8) -> bool
        requires { self.old.form ≡ Open.RepeatNumber }
        ensures grown { Grows result self.new (within_of (form_of self.old) byte) }
        ensures refused { result ≡ false → self.new ≡ self.old }
    {
        byte.is_ascii_digit() && self.try_add_digit(byte)
    }

    fn try_grow_raster(&mut self, byte: u8) -> bool
        requires { self.old.form ≡ Open.RasterFields }
        ensures grown { Grows result self.new (within_of (form_of self.old) byte) }
        ensures refused { result ≡ false → self.new ≡ self.old }
    {
        if byte.is_ascii_digit() {
            self.try_add_digit(byte)
        } else if byte == b';' && self.fields.len() < 3 {
            self.add_field();
            true
        } else {
            false
        }
    }

    fn try_grow_colour(&mut self, byte: u8) -> bool
        requires { self.old.form ≡ Open.ColourFields }
        ensures grown { Grows result self.new (within_of (form_of self.old) byte) }
        ensures refused { result ≡ false → self.new ≡ self.old }
    {
        if byte.is_ascii_digit() {
            self.try_add_digit(byte)
        } else if byte == b';' && self.fields.len() < 4 {
            self.add_field();
            true
        } else {
            false
        }
    }

    /// Takes a byte that continues what is open and completes an event. Returns the event.
    pub(crate) fn make_whole(&mut self, byte: u8) -> Option<WholeEvent>
        ensures whole { MakesWhole result self.new (within_of (form_of self.old) byte) }
        ensures refused { IsNone result → self.new ≡ self.old }
    {
        match self.form {
            Open::Parameters => self.start(byte),
            Open::LastSeparator => self.start_after_separator(byte),
            Open::RepeatNumber => self.end_repeat(byte).map(WholeEvent::Step),
            Open::NoCommand => self.begin_whole(byte),
            Open::Terminating => self.finish(byte),
            _ => None,
        }
    }

    fn start(&mut self, byte: u8) -> Option<WholeEvent>
        requires { self.old.form ≡ Open.Parameters }
        ensures whole { MakesWhole result self.new (within_of (form_of self.old) byte) }
        ensures refused { IsNone result → self.new ≡ self.old }
    {
        if byte == b'q' && !self.parameters.is_full() {
            self.add_parameter();
            self.set(Open::NoCommand);
            Some(WholeEvent::Start)
        } else {
            None
        }
    }

    fn start_after_separator(&mut self, byte: u8) -> Option<WholeEvent>
        requires { self.old.form ≡ Open.LastSeparator }
        ensures whole { MakesWhole result self.new (within_of (form_of self.old) byte) }
        ensures refused { IsNone result → self.new ≡ self.old }
    {
        if byte == b'q' {
            self.set(Open::NoCommand);
            Some(WholeEvent::Start)
        } else {
            None
        }
    }

    fn finish(&mut self, byte: u8) -> Option<WholeEvent>
        requires { self.old.form ≡ Open.Terminating }
        ensures whole { MakesWhole result self.new (within_of (form_of self.old) byte) }
        ensures refused { IsNone result → self.new ≡ self.old }
    {
        if byte == b'\\' {
            self.set(Open::Ended);
            Some(WholeEvent::Finish { eight: false })
        } else {
            None
        }
    }

    /// Changes the state, and keeps the numbers.
    fn set(&mut self, form: Open)
        ensures { self.new ≡ record self.old { form = form } }
    {
        self.form = form;
    }

    /// The open repeat, if the byte ends it.
    #[inline]
    pub(crate) fn end_repeat(&mut self, byte: u8) -> Option<Command>
        ensures ended { IfSome result (λ command.
            within_of (form_of self.old) byte ≡ Some (NoCommandForm, Some (step_of command))) }
        ensures repeat { IfSome result (λ command. is_columns (step_of command) ≡ true) }
        ensures after { IsSome result → form_of self.new ≡ NoCommandForm }
        ensures unfinished { IsSome result → is_idle (form_of self.old) ≡ false }
        ensures not_whole { IsNone result → self.old.form ≡ Open.RepeatNumber →
            only_whole (within_of (form_of self.old) byte) ≡ None }
        ensures not_ended { IsNone result → ends_repeat (form_of self.old) byte ≡ false }
        ensures refused { IsNone result → self.new ≡ self.old }
    {
        match self.form {
            Open::RepeatNumber if is_data(byte) => {
                let count = self.number;
                self.set(Open::NoCommand);
                Some(Command::Repeat {
                    count,
                    bits: byte - b'?',
                })
            }
            _ => None,
        }
    }

    /// The completed event; a start has the parameters that were read.
    #[inline]
    pub(crate) fn event_of(&self, whole: WholeEvent) -> Event
        ensures { result ≡ event_of whole self.now }
    {
        match whole {
            WholeEvent::Start => self.start_event(),
            WholeEvent::Step(command) => Event::Step(command),
            WholeEvent::Finish { eight } => Event::Finish { eight },
        }
    }

    fn start_event(&self) -> Event
        ensures { result ≡ Event.Start self.now.eight self.now.parameters }
    {
        let mut parameters = ArrayVec::new();
        let _ = parameters.try_extend_from_slice(self.parameters.as_slice());
        Event::Start {
            eight: self.eight,
            parameters,
        }
    }

    /// Whether nothing is open.
    #[inline]
    pub(crate) fn is_idle(&self) -> bool
        ensures { result ≡ is_idle (form_of self.now) }
    {
        match self.form {
            Open::NothingYet => true,
            Open::NoCommand => true,
            Open::Ended => true,
            Open::Introducing => false,
            Open::Parameters => false,
            Open::LastSeparator => false,
            Open::RepeatNumber => false,
            Open::RasterFields => false,
            Open::ColourFields => false,
            Open::Terminating => false,
        }
    }

    /// Whether the string has ended.
    pub(crate) fn has_ended(&self) -> bool
        ensures { IsTrue result ↔ (form_of self.now ≡ EndedForm) }
    {
        matches!(self.form, Open::Ended)
    }

    /// The fault's reason, if the byte can't follow.
    pub(crate) fn reason_for(&self, byte: u8) -> Reason
        ensures { result ≡ refusal (form_of self.now) byte }
    {
        match self.form {
            Open::Parameters | Open::RepeatNumber | Open::RasterFields | Open::ColourFields
                if byte.is_ascii_digit() => Reason::NumberTooLarge,
            Open::LastSeparator if byte.is_ascii_digit() => Reason::FieldCount,
            Open::LastSeparator | Open::RasterFields | Open::ColourFields if byte == b';' =>
                Reason::FieldCount,
            Open::ColourFields if is_body(byte) => Reason::FieldCount,
            Open::NothingYet | Open::Introducing | Open::Parameters | Open::LastSeparator =>
                Reason::NotSixel,
            Open::NoCommand | Open::RasterFields | Open::ColourFields => Reason::BadByte,
            Open::RepeatNumber => Reason::BadRepeat,
            Open::Terminating => Reason::BadTerminator,
            Open::Ended => Reason::Trailing,
        }
    }
}
