//! Reads a document byte by byte.

ghost use Rattle.std.specs.Prelude.{◌≡◌, ◌↔◌, ◌<◌, ◌≤◌, ◌-◌, IsTrue, true, false, length, List, [], ℕ};
ghost use Rattle.std.specs.Prelude.{take, Option, Some, None, IfSome, IfOk, IfErr, MatchResult, IsNone};
ghost use Rattle.std.specs.Prelude.{IsSome, OnSome, Err};
ghost use Rattle.sixel_grammar.specs.declared.command.Placed.{Placed as PlacedEvent};
ghost use Rattle.sixel_grammar.specs.Bytes.{is_data as data_test, is_digit as digit_test};
ghost use Rattle.sixel_grammar.specs.Document.{Document, most_bytes};
ghost use Rattle.sixel_grammar.specs.Faults.{IsFaultOf, NoCommand as NoCommandForm};
ghost use Rattle.sixel_grammar.specs.Next.{begin as begin_of, settled as settled_of, within as within_of, only_grown};
ghost use Rattle.sixel_grammar.specs.Next.{ends_repeat, makes_columns, makes_command};
ghost use Rattle.sixel_grammar.specs.Pending.{form_of};
ghost use Rattle.sixel_grammar.specs.Plain.{plain_of};
ghost use Rattle.sixel_grammar.specs.declared.command.Plain.TheVariants.{Command as plain_command};

use crate::command::{Command, Completed, Event, Placed, Plain};
use crate::fault::{Fault, Reason};
use crate::pending::{Pending, is_data, is_filler};

mod at_once;

/// The greatest length of a document.
const MOST_BYTES: u64 = 268_435_456;

/// Reads a document byte by byte, and returns each event as soon as it is complete.
///
/// It stores no bytes, only what is open, and allocates nothing.
#[derive(Debug, Drop)]
pub struct Reader {
    /// How many more bytes may come before the limit; 0 after a fault.
    left: u64,
    /// The offset where what is open began.
    opened: u64,
    /// How many byte values from `?` on are single sixels now: 64 if no command is open and a byte may come, otherwise
    /// 0.
    sixels: u8,
    pending: Pending,
    fault: Option<Fault>,
    ghost within: { left ≤ most_bytes },
    ghost stopped: { IsSome fault → left ≡ 0 },
    ghost ready: { 0 < sixels → (sixels ≡ 64) × (0 < left) × (form_of pending ≡ NoCommandForm) },
    ghost open: { 0 < left → form_of pending ≡ NoCommandForm → sixels ≡ 64 },
}

impl Reader {
    ghost use Rattle.sixel_grammar.specs.Standing.{IsNotOneCommand, IsNotPlain, Refuses, StandsAfter, Takes};
    ghost use Rattle.sixel_grammar.specs.Standing.{are_plain, completions};
    ghost use Rattle.sixel_grammar.specs.Standing.{fault_of, opened_after};

    /// A reader that has read nothing.
    pub fn new() -> Reader
        ensures { StandsAfter result [] [] }
    {
        Reader {
            left: MOST_BYTES,
            opened: 0,
            sixels: 0,
            pending: Pending::new(),
            fault: None,
        }
    }

    /// The fault of the bytes so far, which is that of any longer ones.
    pub fn fault(&self) -> Option<Fault>
        ensures { result ≡ fault_of self.now }
    {
        self.fault
    }

    /// Reads one byte, and returns the events that it completes. An `Err` is the fault of the bytes up to this one, and
    /// has this byte's offset; each further call returns the same fault.
    #[inline(always)]
    pub fn feed(&mut self, byte: u8) -> Result<Completed, Fault>
        ensures kept { IfSome (fault_of self.old) (λ fault. (result ≡ Err fault) × (self.new ≡ self.old)) }
        ensures accepted { IfOk result (λ c. Takes self.old self.new byte (completions c)) }
        ensures refused { IfErr result (Refuses self.old self.new byte) }
        ensures in_order { IfOk result (λ c. IsNone c.first → IsNone c.second) }
    {
        if let Some(plain) = self.feed_quickly(byte) {
            return Ok(Completed::of_plain(plain));
        }
        if self.try_grow(byte) {
            return Ok(Completed::of_none());
        }
        self.complete_or_refuse(byte)
    }

    /// Reads one byte as `feed` does, if the byte completes nothing, or only a sixel or a repeat.
    ///
    /// `None` means that it completes something else, or is invalid. Then it wasn't read, and nothing has changed: give
    /// it to `feed`, which takes every byte. This method is faster.
    #[inline(always)]
    pub fn feed_plain(&mut self, byte: u8) -> Option<Plain>
        ensures accepted { IfSome result (λ p. Takes self.old self.new byte (completions (plain_of p))) }
        ensures plain { IfSome result (λ p. are_plain (completions (plain_of p)) ≡ true) }
        ensures kept { IsNone result → self.new ≡ self.old }
        ensures stopped { IsSome (fault_of self.old) → IsNone result }
        ensures refused { IsNone result → IsNotPlain self.old byte }
    {
        if let Some(plain) = self.feed_quickly(byte) {
            return Some(plain);
        }
        if !self.try_grow(byte) {
            return None;
        }
        Some(Plain::Nothing)
    }

    /// Reads one byte as `feed` does, if the byte completes nothing or one command.
    ///
    /// `None` means that it completes the start, the finish or two commands, or is invalid. Then it wasn't read, and
    /// nothing has changed: give it to `feed`, which takes every byte. This method is faster.
    #[inline(always)]
    pub fn feed_command(&mut self, byte: u8) -> Option<Plain>
        ensures accepted { IfSome result (λ p. Takes self.old self.new byte (completions (plain_of p))) }
        ensures kept { IsNone result → self.new ≡ self.old }
        ensures stopped { IsSome (fault_of self.old) → IsNone result }
        ensures refused { IsNone result → IsNotOneCommand self.old byte }
    {
        if let Some(whole) = self.take_whole(byte) {
            return Some(whole);
        }
        if let Some(inside) = self.feed_inside(byte) {
            return Some(inside);
        }
        if let Some(ended) = self.end_command(byte) {
            return Some(ended);
        }
        if self.try_grow(byte) {
            Some(Plain::Nothing)
        } else {
            None
        }
    }

    /// The fast paths, which take nearly all bytes: a single sixel, a digit, a separator of colour fields, a repeat
    /// from its introducer to its data byte.
    #[inline(always)]
    fn feed_quickly(&mut self, byte: u8) -> Option<Plain>
        ensures accepted { IfSome result (λ p. Takes self.old self.new byte (completions (plain_of p))) }
        ensures plain { IfSome result (λ p. are_plain (completions (plain_of p)) ≡ true) }
        ensures kept { IsNone result → self.new ≡ self.old }
        ensures stopped { IsSome (fault_of self.old) → IsNone result }
        ensures refused { IsNone result → 0 < self.old.left → makes_columns (form_of self.old.pending) byte ≡ false }
    {
        if self.is_sixel(byte) {
            Some(self.take_alone(Command::Sixel(byte - b'?')))
        } else {
            self.feed_inside(byte)
        }
    }

    /// The fast paths but that of a single sixel.
    #[inline(always)]
    fn feed_inside(&mut self, byte: u8) -> Option<Plain>
        ensures accepted { IfSome result (λ p. Takes self.old self.new byte (completions (plain_of p))) }
        ensures plain { IfSome result (λ p. are_plain (completions (plain_of p)) ≡ true) }
        ensures kept { IsNone result → self.new ≡ self.old }
        ensures stopped { IsSome (fault_of self.old) → IsNone result }
        ensures refused { IsNone result → 0 < self.old.left → ends_repeat (form_of self.old.pending) byte ≡ false }
    {
        if byte.is_ascii_digit() {
            self.take_digit(byte)
        } else if byte == b';' {
            self.take_separator()
        } else if byte == b'!' {
            self.begin_repeat()
        } else {
            self.end_repeat(byte)
        }
    }

    /// Appends the digit to the open number.
    #[inline(always)]
    fn take_digit(&mut self, byte: u8) -> Option<Plain>
        requires { IsTrue (digit_test byte) }
        ensures accepted { IfSome result (λ p. Takes self.old self.new byte (completions (plain_of p))) }
        ensures plain { IfSome result (λ p. are_plain (completions (plain_of p)) ≡ true) }
        ensures kept { IsNone result → self.new ≡ self.old }
        ensures stopped { IsSome (fault_of self.old) → IsNone result }
    {
        if self.left > 0 && self.pending.try_take_digit(byte) {
            self.left -= 1;
            Some(Plain::Nothing)
        } else {
            None
        }
    }

    /// Opens the next field of a colour command.
    #[inline(always)]
    fn take_separator(&mut self) -> Option<Plain>
        ensures accepted { IfSome result (λ p. Takes self.old self.new 59 (completions (plain_of p))) }
        ensures plain { IfSome result (λ p. are_plain (completions (plain_of p)) ≡ true) }
        ensures kept { IsNone result → self.new ≡ self.old }
        ensures stopped { IsSome (fault_of self.old) → IsNone result }
    {
        if self.left > 0 && self.pending.try_take_separator() {
            self.left -= 1;
            Some(Plain::Nothing)
        } else {
            None
        }
    }

    /// Opens a repeat, if no command is open.
    #[inline(always)]
    fn begin_repeat(&mut self) -> Option<Plain>
        ensures accepted { IfSome result (λ p. Takes self.old self.new 33 (completions (plain_of p))) }
        ensures plain { IfSome result (λ p. are_plain (completions (plain_of p)) ≡ true) }
        ensures kept { IsNone result → self.new ≡ self.old }
        ensures stopped { IsSome (fault_of self.old) → IsNone result }
    {
        if self.left > 0 && self.pending.try_begin_repeat() {
            self.opened = MOST_BYTES - self.left;
            self.left -= 1;
            self.sixels = 0;
            Some(Plain::Nothing)
        } else {
            None
        }
    }

    /// Returns the open repeat, if the byte ends it.
    #[inline(always)]
    fn end_repeat(&mut self, byte: u8) -> Option<Plain>
        ensures accepted { IfSome result (λ p. Takes self.old self.new byte (completions (plain_of p))) }
        ensures plain { IfSome result (λ p. are_plain (completions (plain_of p)) ≡ true) }
        ensures kept { IsNone result → self.new ≡ self.old }
        ensures stopped { IsSome (fault_of self.old) → IsNone result }
        ensures refused { IsNone result → 0 < self.old.left → ends_repeat (form_of self.old.pending) byte ≡ false }
    {
        if self.left == 0 {
            return None;
        }
        let command = self.pending.end_repeat(byte)?;
        self.left -= 1;
        self.sixels = ready_for(self.left, &self.pending);
        let place = self.opened;
        Some(Plain::Command { place, command })
    }

    /// Whether the byte is a single sixel.
    #[inline]
    fn is_sixel(&self, byte: u8) -> bool
        ensures { IsTrue result
            ↔ IsTrue (data_test byte) × (0 < self.now.left) × (form_of self.now.pending ≡ NoCommandForm) }
    {
        byte.wrapping_sub(b'?') < self.sixels
    }

    /// Takes a sixel, `$`, `-` or filler, if no command is open.
    #[inline(always)]
    fn take_whole(&mut self, byte: u8) -> Option<Plain>
        ensures accepted { IfSome result (λ p. Takes self.old self.new byte (completions (plain_of p))) }
        ensures kept { IsNone result → self.new ≡ self.old }
        ensures stopped { IsSome (fault_of self.old) → IsNone result }
        ensures refused { IsNone result → 0 < self.old.left → makes_command (form_of self.old.pending) byte ≡ false }
    {
        if self.sixels == 0 {
            return None;
        }
        match byte {
            b'$' => Some(self.take_alone(Command::CarriageReturn)),
            b'-' => Some(self.take_alone(Command::NextLine)),
            _ if is_data(byte) => Some(self.take_alone(Command::Sixel(byte - b'?'))),
            _ if is_filler(byte) => {
                self.pass();
                Some(Plain::Nothing)
            }
            _ => None,
        }
    }

    /// Takes a byte that is a whole command, while no command is open.
    #[inline]
    fn take_alone(&mut self, command: Command) -> Plain
        requires { 0 < self.old.left }
        ensures completed { result ≡ plain_command (most_bytes - self.old.left) command }
        ensures pending { self.new.pending ≡ self.old.pending }
        ensures fault { self.new.fault ≡ self.old.fault }
        ensures left { self.new.left ≡ self.old.left - 1 }
    {
        let place = MOST_BYTES - self.left;
        self.pass();
        Plain::Command { place, command }
    }

    /// Takes a byte, and keeps what is open.
    #[inline]
    fn pass(&mut self)
        requires { 0 < self.old.left }
        ensures pending { self.new.pending ≡ self.old.pending }
        ensures fault { self.new.fault ≡ self.old.fault }
        ensures left { self.new.left ≡ self.old.left - 1 }
    {
        self.left -= 1;
        if self.left == 0 {
            self.sixels = 0;
        }
    }

    /// Takes a byte that continues what is open and completes nothing. Returns whether it did.
    #[inline(never)]
    fn try_grow(&mut self, byte: u8) -> bool
        ensures accepted { result ≡ true → Takes self.old self.new byte [] }
        ensures kept { result ≡ false → self.new ≡ self.old }
        ensures stopped { IsSome (fault_of self.old) → result ≡ false }
        ensures refused { result ≡ false → 0 < self.old.left →
            only_grown (within_of (form_of self.old.pending) byte) ≡ None }
    {
        if self.left == 0 {
            return false;
        }
        let opened = self.opened_at(MOST_BYTES - self.left);
        if !self.pending.try_grow(byte) {
            return false;
        }
        self.opened = opened;
        self.left -= 1;
        self.sixels = ready_for(self.left, &self.pending);
        true
    }

    /// The command that the byte ends, if it completes nothing else.
    #[inline(always)]
    fn end_command(&mut self, byte: u8) -> Option<Plain>
        ensures accepted { IfSome result (λ p. Takes self.old self.new byte (completions (plain_of p))) }
        ensures kept { IsNone result → self.new ≡ self.old }
        ensures stopped { IsSome (fault_of self.old) → IsNone result }
        ensures refused { IsNone result → 0 < self.old.left →
            OnSome (settled_of (form_of self.old.pending)) (only_grown (begin_of byte) ≡ None) }
    {
        if self.left == 0 {
            return None;
        }
        let command = self.pending.end_command(byte)?;
        let place = self.opened;
        self.opened = MOST_BYTES - self.left;
        self.left -= 1;
        self.sixels = ready_for(self.left, &self.pending);
        Some(Plain::Command { place, command })
    }

    /// Any other byte. Its results have locals of their own here, so that the fast paths above write no memory for
    /// them.
    #[inline(always)]
    fn complete_or_refuse(&mut self, byte: u8) -> Result<Completed, Fault>
        requires { 0 < self.old.left → only_grown (within_of (form_of self.old.pending) byte) ≡ None }
        ensures kept { IfSome (fault_of self.old) (λ fault. (result ≡ Err fault) × (self.new ≡ self.old)) }
        ensures accepted { IfOk result (λ c. Takes self.old self.new byte (completions c)) }
        ensures refused { IfErr result (Refuses self.old self.new byte) }
        ensures in_order { IfOk result (λ c. IsNone c.first → IsNone c.second) }
    {
        if let Some(ended) = self.end_command(byte) {
            return Ok(Completed::of_plain(ended));
        }
        self.make_whole_or_refuse(byte)
    }

    #[inline(never)]
    fn make_whole_or_refuse(&mut self, byte: u8) -> Result<Completed, Fault>
        requires not_grown { 0 < self.old.left → only_grown (within_of (form_of self.old.pending) byte) ≡ None }
        requires not_ended { 0 < self.old.left →
            OnSome (settled_of (form_of self.old.pending)) (only_grown (begin_of byte) ≡ None) }
        ensures kept { IfSome (fault_of self.old) (λ fault. (result ≡ Err fault) × (self.new ≡ self.old)) }
        ensures accepted { IfOk result (λ c. Takes self.old self.new byte (completions c)) }
        ensures refused { IfErr result (Refuses self.old self.new byte) }
        ensures in_order { IfOk result (λ c. IsNone c.first → IsNone c.second) }
    {
        if let Some(fault) = self.fault {
            return Err(fault);
        }
        let place = MOST_BYTES - self.left;
        if self.left == 0 {
            return Err(self.refuse(Reason::TooLong, place));
        }
        let opened = self.opened_at(place);
        if let Some(whole) = self.pending.make_whole(byte) {
            self.opened = opened;
            self.left -= 1;
            self.sixels = ready_for(self.left, &self.pending);
            return Ok(Completed::of_one(opened, self.pending.event_of(whole)));
        }
        match self.pending.end_and_make_whole(byte) {
            Some(both) => {
                self.opened = place;
                self.left -= 1;
                self.sixels = ready_for(self.left, &self.pending);
                let first = Event::Step(both.ended);
                let second = self.pending.event_of(both.whole);
                Ok(Completed::of_two(opened, first, place, second))
            }
            None => {
                let reason = self.pending.reason_for(byte);
                Err(self.refuse(reason, place))
            }
        }
    }

    /// The offset where what is open began. If nothing is open, the next thing begins at `place`.
    #[inline]
    fn opened_at(&self, place: u64) -> u64
        ensures { result ≡ opened_after place self.now }
    {
        if self.pending.is_idle() {
            place
        } else {
            self.opened
        }
    }

    fn refuse(&mut self, reason: Reason, place: u64) -> Fault
        ensures answer { result ≡ record { reason = reason; place = place } }
        ensures after { self.new.fault ≡ Some result }
    {
        let fault = Fault { reason, place };
        self.left = 0;
        self.sixels = 0;
        self.fault = Some(fault);
        fault
    }

    /// Checks whether the bytes so far are a document, and returns their fault if not.
    ///
    /// It changes nothing, so feeding may go on after a `Truncated`.
    pub fn finish(&self) -> Result<(), Fault>
        ensures fault { IfSome (fault_of self.now) (λ fault. result ≡ Err fault) }
        ensures answer { (events : List PlacedEvent) (bytes : List ℕ) → StandsAfter self.now events bytes →
            MatchResult result (λ _. Document events bytes)
            (λ fault. IsFaultOf bytes fault × (fault.place ≡ length bytes)) }
    {
        if let Some(fault) = self.fault {
            return Err(fault);
        }
        if self.pending.has_ended() {
            Ok(())
        } else {
            Err(Fault {
                reason: Reason::Truncated,
                place: MOST_BYTES - self.left,
            })
        }
    }
}

/// How many byte values from `?` on are single sixels, if `left` more bytes may come.
#[inline]
fn ready_for(left: u64, pending: &Pending) -> u8
    ensures ready { 0 < result → (result ≡ 64) × (0 < left) × (form_of pending.now ≡ NoCommandForm) }
    ensures open { 0 < left → form_of pending.now ≡ NoCommandForm → result ≡ 64 }
{
    if left > 0 && pending.is_between_commands() {
        64
    } else {
        0
    }
}
