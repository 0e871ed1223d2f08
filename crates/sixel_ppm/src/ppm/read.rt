//! Reads pictures from PPM files.

ghost use Rattle.std.specs.Prelude.{◌≡◌, ℕ, List, Err, IfErr, IfOk, IfSome};
ghost use Rattle.sixel_ppm.specs.PpmFeeding.{FeedsHeader, HasStarted, ReadsHeader, ReadsRest};
ghost use Rattle.sixel_ppm.specs.PpmReading.{CountsReadFault, NoPpmFaultBefore, ReadsPpm, ppm_read};
ghost use Rattle.sixel_ppm.specs.PpmSamples.{Holds, samples_on};
ghost use Rattle.sixel_model.specs.Profiles.{count_of};
ghost use Rattle.sixel_model.specs.declared.colour.Parts.{Parts};
ghost use Rattle.sixel_ppm.specs.declared.ppm.PpmFault.TheVariants.{Read};

use crate::ppm::header::{Header, Next, Progress};
use crate::ppm::samples::Samples;
use crate::ppm::{PpmFault, PpmReason};
use sixel_io::{PIECE, Source};
use sixel_model::{Picture, Profile};
use std::alloc::Global;

/// The result of feeding a piece to a header.
#[derive(Clone, Copy, Debug, PartialEq, Eq)]
pub(crate) enum Fed {
    More(Progress),
    /// The header is complete, and this many bytes of the piece belong to it.
    Whole(Header, usize),
    Refused(PpmFault),
}

/// A complete header, and the range of the piece that has the samples after it.
#[derive(Clone, Copy, Debug, PartialEq, Eq)]
pub(crate) struct Started {
    pub(crate) header: Header,
    pub(crate) start: usize,
    pub(crate) end: usize,
}

/// Reads a picture from a Netpbm PPM: `P6`, a width and a height of 1 to 2,048 pixels, a maximum of 1 to 255, and three
/// samples a pixel, which become percentages of red, green and blue. Registers are numbered from 0 in the order in
/// which their colours first appear. The palette has the profile's registers and no other colours. A colour for which
/// no register is left is `TooManyColours`.
///
/// The source is read to its end. There is one allocation, for the registers, after the header.
pub fn read_ppm<S: Source>(
    alloc: Global,
    profile: Profile,
    input: &mut S,
) -> Result<Picture, PpmFault>
    ensures bytes { IfSome (S.state input.old).remaining (ReadsPpm (count_of profile) result) }
    ensures unread { result ≡ Err Read → IfSome (S.state input.old).remaining
        (NoPpmFaultBefore (ppm_read (count_of profile)) (S.state input.new).remaining) }
    ensures failures { CountsReadFault result (S.state input.old).failures (S.state input.new).failures }
{
    let mut piece = [0u8; PIECE];
    let started = read_header(input, &mut piece)?;
    let mut samples = Samples::new(alloc, profile, started.header)?;
    samples.feed(&piece[started.start..started.end])?;
    read_samples(samples, input, &mut piece)
}

/// Feeds a piece to the header.
fn feed_header(begun: Progress, piece: &[u8]) -> Fed
    ensures { FeedsHeader begun piece.now result }
{
    let mut progress = begun;
    for (index, byte) in piece.iter().enumerate() {
        match progress.step(*byte) {
            Next::More(next) => progress = next,
            Next::Whole(header) => return Fed::Whole(header, index + 1),
            Next::Refused { reason, place } => {
                return Fed::Refused(PpmFault::Format { reason, place });
            }
        }
    }
    Fed::More(progress)
}

/// Reads the header, piece by piece.
fn read_header<S: Source>(input: &mut S, piece: &mut [u8; PIECE]) -> Result<Started, PpmFault>
    ensures started { IfOk result (λ s.
        HasStarted (S.state input.old).remaining (S.state input.new).remaining piece.new s) }
    ensures failed { IfErr result (λ fault. IfSome (S.state input.old).remaining (ReadsHeader fault)) }
    ensures unread { result ≡ Err Read → (registers : ℕ) → IfSome (S.state input.old).remaining
        (NoPpmFaultBefore (ppm_read registers) (S.state input.new).remaining) }
    ensures failures { CountsReadFault result (S.state input.old).failures (S.state input.new).failures }
{
    let mut progress = Progress::new();
    loop {
        let count = input.fill(piece).map_err(|_| PpmFault::Read)?;
        if count == 0 {
            return Err(PpmFault::Format {
                reason: PpmReason::Short,
                place: progress.place,
            });
        }
        match feed_header(progress, &piece[..count]) {
            Fed::More(next) => progress = next,
            Fed::Whole(header, start) => {
                return Ok(Started {
                    header,
                    start,
                    end: count,
                });
            }
            Fed::Refused(fault) => return Err(fault),
        }
    }
}

/// Reads the samples to the end of the source, piece by piece.
fn read_samples<S: Source>(
    begun: Samples,
    input: &mut S,
    piece: &mut [u8; PIECE],
) -> Result<Picture, PpmFault>
    requires { (colours : List Parts) × Holds begun colours }
    ensures bytes { (colours : List Parts) → Holds begun colours →
        IfSome (S.state input.old).remaining (λ rest. ReadsRest result (samples_on begun colours rest)) }
    ensures unread { result ≡ Err Read → (colours : List Parts) → Holds begun colours →
        IfSome (S.state input.old).remaining
        (NoPpmFaultBefore (samples_on begun colours) (S.state input.new).remaining) }
    ensures failures { CountsReadFault result (S.state input.old).failures (S.state input.new).failures }
{
    let mut samples = begun;
    loop {
        let count = input.fill(piece).map_err(|_| PpmFault::Read)?;
        if count == 0 {
            return samples.finish();
        }
        samples.feed(&piece[..count])?;
    }
}
