//! Reads a document, and hands its events on to what follows them.

ghost use Rattle.std.specs.Prelude.{◌≡◌, ◌+◌, ◌<◌, ◌≤◌, ◌∷◌, [], ℕ, IfErr, IfOk, IfSome, IsNone, IsTrue, List, OnOk};
ghost use Rattle.std.specs.Prelude.{length, slice_index, take};
ghost use Rattle.std.specs.Option.{option_to_list};
ghost use Rattle.sixel_grammar.specs.Bytes.{is_data};
ghost use Rattle.sixel_grammar.specs.Document.{most_bytes};
ghost use Rattle.sixel_grammar.specs.Following.{AreFollowed, FollowsBytes, HaltsWithin, MayFollow, StopsAmong};
ghost use Rattle.sixel_grammar.specs.Following.{TakesEvents, command_at, halt_of};
ghost use Rattle.sixel_grammar.specs.Runs.{column_events, events_of_run, select_events, two_commands};
ghost use Rattle.sixel_grammar.specs.Standing.{completions};
ghost use Rattle.sixel_grammar.specs.Stretches.{sixels_from};
ghost use Rattle.sixel_grammar.specs.declared.command.Columns.TheVariants.{Sixels as single_sixels};
ghost use Rattle.sixel_grammar.specs.declared.command.Placed.{Placed as PlacedValue};

use crate::command::{Columns, Command, Completed, Event, Placed, Plain, Run, TwoCommands};
use crate::halt::Halt;
use crate::reader::Reader;
use std::convert::Infallible;

/// What takes the events of a document, in order, each with its offset.
pub trait Follower {
    /// Why it stops before the end. If it never does, it is a type without values.
    type Stop;

    /// `has_taken first now events`: what was `first` before these events is `now` after them.
    ghost has_taken: { Self → Self → List PlacedValue → Type 0 };

    /// `may_stop first now stop events`: what was `first` before these events may stop so at the last of them, and is
    /// `now` then.
    ghost may_stop: { Self → Self → Self.Stop → List PlacedValue → Type 0 };

    /// Takes an event of any kind.
    fn take(&mut self, placed: &Placed) -> Result<(), Self::Stop>
        requires { (first : Self) × (seen : List PlacedValue) × has_taken first self.old seen
            × MayFollow seen (placed.now ∷ []) }
        ensures taken { OnOk result (TakesEvents has_taken self.old self.new (placed.now ∷ [])) }
        ensures stopped { IfErr result (StopsAmong has_taken may_stop self.old self.new (placed.now ∷ [])) };

    /// Takes a command whose first byte has the offset `place`. It is called where speed counts.
    fn take_command(&mut self, place: u64, command: Command) -> Result<(), Self::Stop>
        requires { (first : Self) × (seen : List PlacedValue) × has_taken first self.old seen
            × MayFollow seen (command_at place command ∷ []) }
        ensures taken { OnOk result (TakesEvents has_taken self.old self.new (command_at place command ∷ [])) }
        ensures stopped { IfErr result (StopsAmong has_taken may_stop self.old self.new
            (command_at place command ∷ [])) };

    /// Takes a select whose first byte has the offset `place`. It is called for each with columns behind it in one
    /// piece.
    fn take_select(&mut self, place: u64, register: u16) -> Result<(), Self::Stop>
        requires { (first : Self) × (seen : List PlacedValue) × has_taken first self.old seen
            × MayFollow seen (command_at place (Command.Select register) ∷ []) }
        ensures taken { OnOk result (TakesEvents has_taken self.old self.new
            (command_at place (Command.Select register) ∷ [])) }
        ensures stopped { IfErr result (StopsAmong has_taken may_stop self.old self.new
            (command_at place (Command.Select register) ∷ [])) };

    /// Takes a repeat whose first byte has the offset `place`. It is called for each whose columns stand in one piece.
    fn take_repeat(&mut self, place: u64, count: u16, bits: u8) -> Result<(), Self::Stop>
        requires { (first : Self) × (seen : List PlacedValue) × has_taken first self.old seen
            × MayFollow seen (command_at place (Command.Repeat count bits) ∷ []) }
        ensures taken { OnOk result (TakesEvents has_taken self.old self.new
            (command_at place (Command.Repeat count bits) ∷ [])) }
        ensures stopped { IfErr result (StopsAmong has_taken may_stop self.old self.new
            (command_at place (Command.Repeat count bits) ∷ [])) };

    /// Takes the sixels of the first `count` of these bytes; the first byte has the offset `place`. Some bytes may
    /// follow, which are of no matter.
    fn take_stretch(&mut self, place: u64, bytes: &[u8], count: usize) -> Result<(), Self::Stop>
        requires may { (first : Self) × (seen : List PlacedValue) × has_taken first self.old seen
            × MayFollow seen (sixels_from place (take count bytes.now)) }
        requires sixels { (k : ℕ) → k < count → IsTrue (is_data (slice_index bytes.now k)) }
        requires within { (0 < count) × (count ≤ length bytes.now) }
        requires limit { place + count ≤ most_bytes }
        ensures taken { OnOk result (TakesEvents has_taken self.old self.new (sixels_from place (take count bytes.now))) }
        ensures stopped { IfErr result (StopsAmong has_taken may_stop self.old self.new
            (sixels_from place (take count bytes.now))) };
}

/// Keeps nothing of the events.
impl Follower for () {
    type Stop = Infallible;

    ghost has_taken = { λ first now seen. Unit {0} };

    ghost may_stop = { λ first now stop seen. ⊥ };

    fn take(&mut self, _placed: &Placed) -> Result<(), Infallible> {
        Ok(())
    }

    fn take_command(&mut self, _place: u64, _command: Command) -> Result<(), Infallible> {
        Ok(())
    }

    fn take_select(&mut self, _place: u64, _register: u16) -> Result<(), Infallible> {
        Ok(())
    }

    fn take_repeat(&mut self, _place: u64, _count: u16, _bits: u8) -> Result<(), Infallible> {
        Ok(())
    }

    fn take_stretch(
        &mut self,
        _place: u64,
        _bytes: &[u8],
        _count: usize,
    ) -> Result<(), Infallible> {
        Ok(())
    }
}

/// Hands on an event, if there is one.
fn hand_one<F: Follower>(follower: &mut F, placed: Option<Placed>) -> Result<(), F::Stop>
    requires { (first : F) × (seen : List PlacedValue) × F.has_taken first follower.old seen
        × MayFollow seen (option_to_list placed) }
    ensures taken { OnOk result (TakesEvents F.has_taken follower.old follower.new (option_to_list placed)) }
    ensures stopped { IfErr result (StopsAmong F.has_taken F.may_stop follower.old follower.new
        (option_to_list placed)) }
{
    match placed {
        None => Ok(()),
        Some(placed) => follower.take(&placed),
    }
}

/// Hands on the events that a byte completed.
fn hand_completed<F: Follower>(follower: &mut F, completed: Completed) -> Result<(), F::Stop>
    requires { (first : F) × (seen : List PlacedValue) × F.has_taken first follower.old seen
        × MayFollow seen (completions completed) }
    ensures taken { OnOk result (TakesEvents F.has_taken follower.old follower.new (completions completed)) }
    ensures stopped { IfErr result (StopsAmong F.has_taken F.may_stop follower.old follower.new
        (completions completed)) }
{
    let Completed { first, second } = completed;
    hand_one(follower, first)?;
    hand_one(follower, second)
}

/// Hands on two commands that a byte completed.
fn hand_two<F: Follower>(follower: &mut F, two: TwoCommands) -> Result<(), F::Stop>
    requires { (first : F) × (seen : List PlacedValue) × F.has_taken first follower.old seen
        × MayFollow seen (two_commands two) }
    ensures taken { OnOk result (TakesEvents F.has_taken follower.old follower.new (two_commands two)) }
    ensures stopped { IfErr result (StopsAmong F.has_taken F.may_stop follower.old follower.new
        (two_commands two)) }
{
    let ended = Event::Step(two.ended);
    follower.take(&Placed {
        place: two.place,
        event: ended,
    })?;
    let own = Event::Step(two.own);
    follower.take(&Placed {
        place: two.own_place,
        event: own,
    })
}

/// Hands on a select, if there is one.
#[inline(always)]
fn hand_select<F: Follower>(
    follower: &mut F,
    place: u64,
    select: Option<u16>,
) -> Result<(), F::Stop>
    requires { (first : F) × (seen : List PlacedValue) × F.has_taken first follower.old seen
        × MayFollow seen (select_events place select) }
    ensures taken { OnOk result (TakesEvents F.has_taken follower.old follower.new (select_events place select)) }
    ensures stopped { IfErr result (StopsAmong F.has_taken F.may_stop follower.old follower.new
        (select_events place select)) }
{
    match select {
        Some(register) => follower.take_select(place, register),
        None => Ok(()),
    }
}

/// Hands on columns whose first byte has the offset `place`: the first `count` of the bytes.
#[inline(always)]
fn hand_columns<F: Follower>(
    follower: &mut F,
    place: u64,
    columns: Columns,
    bytes: &[u8],
    count: usize,
) -> Result<(), F::Stop>
    requires may { (first : F) × (seen : List PlacedValue) × F.has_taken first follower.old seen
        × MayFollow seen (column_events place columns (take count bytes.now)) }
    requires sixels { columns ≡ single_sixels → (k : ℕ) → k < count → IsTrue (is_data (slice_index bytes.now k)) }
    requires within { (0 < count) × (count ≤ length bytes.now) }
    requires limit { place + count ≤ most_bytes }
    ensures taken { OnOk result (TakesEvents F.has_taken follower.old follower.new
        (column_events place columns (take count bytes.now))) }
    ensures stopped { IfErr result (StopsAmong F.has_taken F.may_stop follower.old follower.new
        (column_events place columns (take count bytes.now))) }
{
    match columns {
        Columns::Sixels => follower.take_stretch(place, bytes, count),
        Columns::Repeat { count, bits } => follower.take_repeat(place, count, bits),
        Columns::Missing => Ok(()),
    }
}

/// Hands on the run at the beginning of the bytes.
#[inline(always)]
fn hand_run<F: Follower>(follower: &mut F, run: Run, bytes: &[u8]) -> Result<(), F::Stop>
    requires may { (first : F) × (seen : List PlacedValue) × F.has_taken first follower.old seen
        × MayFollow seen (events_of_run run bytes.now) }
    requires sixels { run.columns ≡ single_sixels → (k : ℕ) → run.start ≤ k → k < run.length
        → IsTrue (is_data (slice_index bytes.now k)) }
    requires within { (run.start < run.length) × (run.length ≤ length bytes.now) }
    requires limit { run.place + run.length ≤ most_bytes }
    ensures taken { OnOk result (TakesEvents F.has_taken follower.old follower.new (events_of_run run bytes.now)) }
    ensures stopped { IfErr result (StopsAmong F.has_taken F.may_stop follower.old follower.new
        (events_of_run run bytes.now)) }
{
    hand_select(follower, run.place, run.select)?;
    let columns = &bytes[run.start..];
    hand_columns(
        follower,
        run.place + run.start as u64,
        run.columns,
        columns,
        run.length - run.start,
    )
}

/// What a follower's result is for the reading.
#[inline(always)]
fn halted<S>(handed: Result<(), S>) -> Result<(), Halt<S>>
    ensures { result ≡ halt_of handed }
{
    match handed {
        Ok(()) => Ok(()),
        Err(stop) => Err(Halt::Stopped(stop)),
    }
}

/// Reads one byte of any kind, and hands on the events that it completes.
#[inline(never)]
fn follow_any<F: Follower>(
    reader: &mut Reader,
    follower: &mut F,
    byte: u8,
) -> Result<(), Halt<F::Stop>>
    requires { (first : F) × (prefix : List ℕ) × AreFollowed (F.has_taken first) reader.old follower.old prefix }
    ensures followed { OnOk result (FollowsBytes F.has_taken reader.old follower.old reader.new follower.new
        (byte ∷ [])) }
    ensures halted { IfErr result (HaltsWithin F.has_taken F.may_stop reader.old follower.old reader.new follower.new
        (byte ∷ [])) }
{
    let completed = reader.feed(byte)?;
    halted(hand_completed(follower, completed))
}

/// As `follow_any`. A byte that completes two commands has no whole events here.
#[inline(never)]
fn follow_rarely<F: Follower>(
    reader: &mut Reader,
    follower: &mut F,
    byte: u8,
) -> Result<(), Halt<F::Stop>>
    requires { (first : F) × (prefix : List ℕ) × AreFollowed (F.has_taken first) reader.old follower.old prefix }
    ensures followed { OnOk result (FollowsBytes F.has_taken reader.old follower.old reader.new follower.new
        (byte ∷ [])) }
    ensures halted { IfErr result (HaltsWithin F.has_taken F.may_stop reader.old follower.old reader.new follower.new
        (byte ∷ [])) }
{
    match reader.feed_two(byte) {
        Some(two) => halted(hand_two(follower, two)),
        None => follow_any(reader, follower, byte),
    }
}

/// As `follow_rarely`. The result has a local of its own here, so that the fast paths write no memory for it.
#[inline(always)]
fn follow_otherwise<F: Follower>(
    reader: &mut Reader,
    follower: &mut F,
    byte: u8,
) -> Result<(), Halt<F::Stop>>
    requires { (first : F) × (prefix : List ℕ) × AreFollowed (F.has_taken first) reader.old follower.old prefix }
    ensures followed { OnOk result (FollowsBytes F.has_taken reader.old follower.old reader.new follower.new
        (byte ∷ [])) }
    ensures halted { IfErr result (HaltsWithin F.has_taken F.may_stop reader.old follower.old reader.new follower.new
        (byte ∷ [])) }
{
    follow_rarely(reader, follower, byte)
}

/// Reads one byte, and hands on what it completes. It is for bytes below `?`.
#[inline(always)]
fn follow_sign<F: Follower>(
    reader: &mut Reader,
    follower: &mut F,
    byte: u8,
) -> Result<(), Halt<F::Stop>>
    requires { (first : F) × (prefix : List ℕ) × AreFollowed (F.has_taken first) reader.old follower.old prefix }
    ensures followed { OnOk result (FollowsBytes F.has_taken reader.old follower.old reader.new follower.new
        (byte ∷ [])) }
    ensures halted { IfErr result (HaltsWithin F.has_taken F.may_stop reader.old follower.old reader.new follower.new
        (byte ∷ [])) }
{
    match reader.feed_command(byte) {
        Some(Plain::Nothing) => Ok(()),
        Some(Plain::Command { place, command }) => halted(follower.take_command(place, command)),
        None => follow_otherwise(reader, follower, byte),
    }
}

/// Reads one byte, and hands on what it completes. It is for data bytes that begin no run.
#[inline(always)]
fn follow_data<F: Follower>(
    reader: &mut Reader,
    follower: &mut F,
    byte: u8,
) -> Result<(), Halt<F::Stop>>
    requires { (first : F) × (prefix : List ℕ) × AreFollowed (F.has_taken first) reader.old follower.old prefix }
    ensures followed { OnOk result (FollowsBytes F.has_taken reader.old follower.old reader.new follower.new
        (byte ∷ [])) }
    ensures halted { IfErr result (HaltsWithin F.has_taken F.may_stop reader.old follower.old reader.new follower.new
        (byte ∷ [])) }
{
    match reader.feed_plain(byte) {
        Some(Plain::Nothing) => Ok(()),
        Some(Plain::Command { place, command }) => {
            let event = Event::Step(command);
            halted(follower.take(&Placed { place, event }))
        }
        None => follow_otherwise(reader, follower, byte),
    }
}

/// Reads the run at the beginning of `bytes`, if there is one, and hands on its events. Returns how many bytes it has.
#[inline(always)]
fn try_follow_run<F: Follower>(
    reader: &mut Reader,
    follower: &mut F,
    bytes: &[u8],
) -> Result<Option<usize>, Halt<F::Stop>>
    requires { (first : F) × (prefix : List ℕ) × AreFollowed (F.has_taken first) reader.old follower.old prefix }
    ensures some { IfOk result (λ read. IfSome read (λ count. 0 < count)) }
    ensures within { IfOk result (λ read. IfSome read (λ count. count ≤ length bytes.now)) }
    ensures followed { IfOk result (λ read. IfSome read (λ count.
        FollowsBytes F.has_taken reader.old follower.old reader.new follower.new (take count bytes.now))) }
    ensures kept { IfOk result (λ read. IsNone read → (reader.new ≡ reader.old) × (follower.new ≡ follower.old)) }
    ensures halted { IfErr result (HaltsWithin F.has_taken F.may_stop reader.old follower.old reader.new follower.new
        bytes.now) }
{
    match reader.feed_run(bytes) {
        Some(run) => {
            halted(hand_run(follower, run, bytes))?;
            Ok(Some(run.length))
        }
        None => Ok(None),
    }
}

/// As `try_follow_run`. Each arm has its own copy of it, in which the compiler knows what the first byte begins: with
/// one copy for all, a check of a photo in 256 colours takes a quarter more instructions.
#[inline(always)]
fn follow_run<F: Follower>(
    reader: &mut Reader,
    follower: &mut F,
    bytes: &[u8],
) -> Result<Option<usize>, Halt<F::Stop>>
    requires some { 0 < length bytes.now }
    requires stands { (first : F) × (prefix : List ℕ) × AreFollowed (F.has_taken first) reader.old follower.old prefix }
    ensures some { IfOk result (λ read. IfSome read (λ count. 0 < count)) }
    ensures within { IfOk result (λ read. IfSome read (λ count. count ≤ length bytes.now)) }
    ensures followed { IfOk result (λ read. IfSome read (λ count.
        FollowsBytes F.has_taken reader.old follower.old reader.new follower.new (take count bytes.now))) }
    ensures kept { IfOk result (λ read. IsNone read → (reader.new ≡ reader.old) × (follower.new ≡ follower.old)) }
    ensures halted { IfErr result (HaltsWithin F.has_taken F.may_stop reader.old follower.old reader.new follower.new
        bytes.now) }
{
    match bytes[0] {
        b'!' => try_follow_run(reader, follower, bytes),
        b'#' => try_follow_run(reader, follower, bytes),
        byte if byte >= b'?' => try_follow_run(reader, follower, bytes),
        _ => Ok(None),
    }
}

/// Reads the first byte of `bytes`, one that begins no run, and hands on what it completes. Returns 1.
#[inline(always)]
fn follow_first<F: Follower>(
    reader: &mut Reader,
    follower: &mut F,
    bytes: &[u8],
) -> Result<usize, Halt<F::Stop>>
    requires some { 0 < length bytes.now }
    requires stands { (first : F) × (prefix : List ℕ) × AreFollowed (F.has_taken first) reader.old follower.old prefix }
    ensures some { IfOk result (λ count. 0 < count) }
    ensures within { IfOk result (λ count. count ≤ length bytes.now) }
    ensures followed { IfOk result (λ count.
        FollowsBytes F.has_taken reader.old follower.old reader.new follower.new (take count bytes.now)) }
    ensures halted { IfErr result (HaltsWithin F.has_taken F.may_stop reader.old follower.old reader.new follower.new
        bytes.now) }
{
    // No byte below `?` is data, so the compiler drops the code for data from this branch.
    if bytes[0] < b'?' {
        follow_sign(reader, follower, bytes[0])?;
        return Ok(1);
    }
    follow_data(reader, follower, bytes[0])?;
    Ok(1)
}

/// Reads at least one byte at the beginning of `bytes`, and hands on what these complete. Returns how many.
#[inline(always)]
fn follow_some<F: Follower>(
    reader: &mut Reader,
    follower: &mut F,
    bytes: &[u8],
) -> Result<usize, Halt<F::Stop>>
    requires some { 0 < length bytes.now }
    requires stands { (first : F) × (prefix : List ℕ) × AreFollowed (F.has_taken first) reader.old follower.old prefix }
    ensures some { IfOk result (λ count. 0 < count) }
    ensures within { IfOk result (λ count. count ≤ length bytes.now) }
    ensures followed { IfOk result (λ count.
        FollowsBytes F.has_taken reader.old follower.old reader.new follower.new (take count bytes.now)) }
    ensures halted { IfErr result (HaltsWithin F.has_taken F.may_stop reader.old follower.old reader.new follower.new
        bytes.now) }
{
    match follow_run(reader, follower, bytes)? {
        Some(count) => Ok(count),
        None => follow_first(reader, follower, bytes),
    }
}

/// Reads the bytes of a piece, and hands on the events that they complete. `Refused`: the fault of the bytes read so
/// far, whatever follows; the reader has it now, and the follower took the events before it. `Stopped`: the follower
/// stopped at an event, and was handed none after it; the reader is of no use then.
pub fn follow_bytes<F: Follower>(
    reader: &mut Reader,
    follower: &mut F,
    bytes: &[u8],
) -> Result<(), Halt<F::Stop>>
    requires { (first : F) × (prefix : List ℕ) × AreFollowed (F.has_taken first) reader.old follower.old prefix }
    ensures followed { OnOk result (FollowsBytes F.has_taken reader.old follower.old reader.new follower.new bytes.now) }
    ensures halted { IfErr result (HaltsWithin F.has_taken F.may_stop reader.old follower.old reader.new follower.new
        bytes.now) }
{
    let mut rest = bytes;
    while !rest.is_empty() {
        let count = follow_some(reader, follower, rest)?;
        rest = &rest[count..];
    }
    Ok(())
}
