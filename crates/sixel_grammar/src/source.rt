//! Reads a source to its end, and hands the events of its document on to what follows them.

ghost use Rattle.std.specs.Prelude.{◌≡◌, [], Err, IfErr, IfSome, OnOk, Some};
ghost use Rattle.sixel_io.specs.Devices.{ReadsToEnd};
ghost use Rattle.sixel_grammar.specs.Reading.{NoFaultBefore};
ghost use Rattle.sixel_grammar.specs.Source.{FollowsSource, HaltsSource, failures_of, source_halt_of};
ghost use Rattle.sixel_grammar.specs.declared.source.SourceHalt.TheVariants.{Read as SourceRead};

use crate::fault::{Fault, InputFault};
use crate::following::{Follower, follow_bytes};
use crate::halt::Halt;
use crate::pieces::read_source;
use crate::reader::Reader;
use sixel_io::{DeviceFault, PIECE, Source};
use std::alloc::AllocError;
use std::convert::Infallible;

/// Why the document of a source wasn't followed to its end.
#[derive(Clone, Copy, Debug, PartialEq, Eq)]
pub enum SourceHalt<S> {
    /// A call of the source failed.
    Read,
    /// The bytes are no document.
    Refused(Fault),
    /// The follower stopped.
    Stopped(S),
}

impl<S> From<DeviceFault> for SourceHalt<S> {
    ghost use Rattle.std.specs.Prelude.{◌≡◌};
    ghost use Rattle.sixel_grammar.specs.declared.source.SourceHalt.TheVariants.{Read};

    ghost from_gives = { λ fault result. result ≡ Read };

    fn from(_: DeviceFault) -> SourceHalt<S> {
        SourceHalt::Read
    }
}

impl<S> From<Fault> for SourceHalt<S> {
    ghost use Rattle.std.specs.Prelude.{◌≡◌};
    ghost use Rattle.sixel_grammar.specs.declared.source.SourceHalt.TheVariants.{Refused};

    ghost from_gives = { λ fault result. result ≡ Refused fault };

    fn from(fault: Fault) -> SourceHalt<S> {
        SourceHalt::Refused(fault)
    }
}

impl<S> From<Halt<S>> for SourceHalt<S> {
    ghost use Rattle.std.specs.Prelude.{◌≡◌};
    ghost use Rattle.sixel_grammar.specs.Source.{source_halt_of};

    ghost from_gives = { λ halt result. result ≡ source_halt_of halt };

    fn from(halt: Halt<S>) -> SourceHalt<S> {
        match halt {
            Halt::Refused(fault) => SourceHalt::Refused(fault),
            Halt::Stopped(stop) => SourceHalt::Stopped(stop),
        }
    }
}

impl From<SourceHalt<AllocError>> for InputFault {
    ghost use Rattle.std.specs.Prelude.{◌≡◌};
    ghost use Rattle.sixel_grammar.specs.Source.{fault_of_source};

    ghost from_gives = { λ halt result. result ≡ fault_of_source halt };

    fn from(halt: SourceHalt<AllocError>) -> InputFault {
        match halt {
            SourceHalt::Read => InputFault::Read,
            SourceHalt::Refused(fault) => InputFault::Grammar(fault),
            SourceHalt::Stopped(_) => InputFault::OutOfMemory,
        }
    }
}

/// Where the follower never stops.
impl From<SourceHalt<Infallible>> for InputFault {
    ghost use Rattle.std.specs.Prelude.{◌≡◌};
    ghost use Rattle.sixel_grammar.specs.Source.{fault_of_source};

    ghost from_gives = { λ halt result. result ≡ fault_of_source halt };

    fn from(halt: SourceHalt<Infallible>) -> InputFault {
        match halt {
            SourceHalt::Read => InputFault::Read,
            SourceHalt::Refused(fault) => InputFault::Grammar(fault),
            SourceHalt::Stopped(never) => match never {},
        }
    }
}

/// Reads the bytes of a whole document, and hands its events on. `Refused`: they are none. `Stopped`: the follower
/// stopped at an event.
pub fn follow_document<F: Follower>(bytes: &[u8], follower: &mut F) -> Result<(), Halt<F::Stop>>
    requires { (first : F) × F.has_taken first follower.old [] }
    ensures followed { OnOk result (FollowsSource F.has_taken follower.old follower.new (Some bytes.now)) }
    ensures halted { IfErr result (λ halt.
        HaltsSource F.has_taken F.may_stop follower.old follower.new (source_halt_of halt) bytes.now) }
{
    let mut reader = Reader::new();
    follow_bytes(&mut reader, follower, bytes)?;
    Ok(reader.finish()?)
}

/// Reads a source to its end, and hands on the events of its document. `piece` is the caller's room for the bytes that
/// are read at once.
///
/// The first halt ends it: `Read` (a call of the source failed), `Refused` (the bytes are no document) or `Stopped` (the
/// follower stopped). The source isn't read after a halt or after its end.
#[inline(always)]
pub fn follow_source<I: Source, F: Follower>(
    input: &mut I,
    piece: &mut [u8; PIECE],
    follower: &mut F,
) -> Result<(), SourceHalt<F::Stop>>
    requires { (first : F) × F.has_taken first follower.old [] }
    ensures followed { OnOk result (FollowsSource F.has_taken follower.old follower.new
        (I.state input.old).remaining) }
    ensures halted { IfErr result (λ halt. IfSome (I.state input.old).remaining
        (HaltsSource F.has_taken F.may_stop follower.old follower.new halt)) }
    ensures failures { (I.state input.new).failures ≡ failures_of result (I.state input.old).failures }
    ensures unread { result ≡ Err SourceRead →
        IfSome (I.state input.old).remaining (NoFaultBefore (I.state input.new).remaining) }
    ensures left { ReadsToEnd result (I.state input.old).remaining (I.state input.new).remaining }
{
    read_source(input, piece, follower, &mut ())
}
