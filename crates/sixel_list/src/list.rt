//! Lists the events of a sixel picture, a line each.

ghost use Rattle.std.specs.Prelude.{◌≡◌, ◌≢◌, ℕ, List, [], Err, IfErr, IfSome, OnOk};
ghost use Rattle.sixel_grammar.specs.Following.{AreFollowed, FollowsBytes, HaltsWithin};
ghost use Rattle.sixel_list.specs.declared.list.Listing.{Listing as ListingValue};
ghost use Rattle.sixel_list.specs.Listings.{HasListed, IsDrained, MayFail};
ghost use Rattle.sixel_list.specs.Outputs.{ListGives, ListsUnread};
ghost use Rattle.sixel_report.specs.Outputs.{CountsWrites, WroteBy, failures_by};

use crate::list_lines::{Lines, put_ended, put_line, put_register, put_repeat, put_sixels};
use crate::sixel_line::SixelLines;
use sixel_grammar::{Command, Follower, Halt, Placed, Reader, follow_bytes};
use sixel_io::{DeviceFault, PIECE, Sink, Source};
use sixel_report::{RunFault, Status};

/// Takes the events of a document, and puts the line of each into a block, which is drained into the sink when it is
/// full.
#[derive(Drop)]
struct Listing<'l, 'k, K> {
    sixels: SixelLines,
    lines: &'l mut Lines,
    out: &'k mut K,
}

impl<K: Sink> Follower for Listing<'_, '_, K> {
    type Stop = DeviceFault;

    ghost use Rattle.sixel_list.specs.Listings.{HasListed, MayFail};

    ghost has_taken = { HasListed K.state };

    ghost may_stop = { MayFail K.state };

    #[inline(never)]
    fn take(&mut self, placed: &Placed) -> Result<(), DeviceFault> {
        put_line(placed, self.lines, self.out)
    }

    #[inline(always)]
    fn take_command(&mut self, place: u64, command: Command) -> Result<(), DeviceFault> {
        put_ended(place, command, &mut self.sixels, self.lines, self.out)
    }

    #[inline(always)]
    fn take_select(&mut self, place: u64, register: u16) -> Result<(), DeviceFault> {
        put_register(place, register, &mut self.sixels, self.lines, self.out)
    }

    #[inline(always)]
    fn take_repeat(&mut self, place: u64, count: u16, bits: u8) -> Result<(), DeviceFault> {
        put_repeat(place, count, bits, &mut self.sixels, self.lines, self.out)
    }

    #[inline(always)]
    fn take_stretch(&mut self, place: u64, bytes: &[u8], count: usize) -> Result<(), DeviceFault> {
        put_sixels(
            place,
            &bytes[..count],
            &mut self.sixels,
            self.lines,
            self.out,
        )
    }
}

/// Writes a line for each event when it is complete, also before a fault. It allocates nothing and doesn't flush.
///
/// It isn't inlined, or its block would be on the stack of every task.
#[inline(never)]
pub fn list<S: Source, K: Sink>(
    input: &mut S,
    piece: &mut [u8; PIECE],
    output: &mut K,
) -> Result<Status, RunFault>
    ensures wrote { IfSome (S.state input.old).remaining (λ bytes.
        WroteBy (ListGives bytes) (ListsUnread bytes (S.state input.new).remaining) result
        (K.state output.old).taken (K.state output.new).taken) }
    ensures memory { result ≢ Err RunFault.OutOfMemory }
    ensures reads { (S.state input.new).failures ≡ failures_by RunFault.Read result (S.state input.old).failures }
    ensures writes { CountsWrites result (K.state output.old).failures (K.state output.new).failures }
{
    let mut lines = Lines::new();
    let mut listing = Listing {
        sixels: SixelLines::new(),
        lines: &mut lines,
        out: output,
    };
    list_all(input, piece, &mut listing)
}

/// Writes the lines of the whole input. Nothing waits in the block when it begins.
fn list_all<S: Source, K: Sink>(
    input: &mut S,
    piece: &mut [u8; PIECE],
    listing: &mut Listing<'_, '_, K>,
) -> Result<Status, RunFault>
    requires { listing.old.lines.now ≡ [] }
    ensures wrote { IfSome (S.state input.old).remaining (λ bytes.
        WroteBy (ListGives bytes) (ListsUnread bytes (S.state input.new).remaining) result
        (K.state listing.old.out.now).taken (K.state listing.new.out.now).taken) }
    ensures memory { result ≢ Err RunFault.OutOfMemory }
    ensures reads { (S.state input.new).failures ≡ failures_by RunFault.Read result (S.state input.old).failures }
    ensures writes { CountsWrites result
        (K.state listing.old.out.now).failures (K.state listing.new.out.now).failures }
    ensures same_out { listing.new.out.ghost_name ≡ listing.old.out.ghost_name }
{
    let mut reader = Reader::new();
    loop {
        let count = match input.fill(piece) {
            Ok(count) => count,
            Err(_) => return Err(RunFault::Read),
        };
        if count == 0 {
            return match reader.finish() {
                Ok(()) => Ok(Status::Done),
                Err(fault) => Err(RunFault::Grammar(fault)),
            };
        }
        list_piece(&mut reader, &piece[..count], listing)?;
    }
}

/// Reads the bytes of a piece, and writes the lines of the events that they complete, also before a fault.
fn list_piece<K: Sink>(
    reader: &mut Reader,
    piece: &[u8],
    listing: &mut Listing<'_, '_, K>,
) -> Result<(), Halt<DeviceFault>>
    requires { (first : ListingValue K) × (prefix : List ℕ)
        × AreFollowed (HasListed K.state first) reader.old listing.old prefix }
    ensures followed { OnOk result
        (FollowsBytes (HasListed K.state) reader.old listing.old reader.new listing.new piece.now) }
    ensures halted { IfErr result
        (HaltsWithin (HasListed K.state) (MayFail K.state) reader.old listing.old reader.new listing.new piece.now) }
    ensures drained { IsDrained result listing.new.lines.now }
{
    match follow_bytes(reader, listing, piece) {
        Ok(()) => match listing.lines.drain(listing.out) {
            Ok(()) => Ok(()),
            Err(stop) => Err(Halt::Stopped(stop)),
        },
        Err(Halt::Refused(fault)) => match listing.lines.drain(listing.out) {
            Ok(()) => Err(Halt::Refused(fault)),
            Err(stop) => Err(Halt::Stopped(stop)),
        },
        Err(Halt::Stopped(stop)) => Err(Halt::Stopped(stop)),
    }
}
