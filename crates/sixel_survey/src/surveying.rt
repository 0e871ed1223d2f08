//! Surveying the bytes of a document.

ghost use Rattle.std.specs.Prelude.{◌≡◌, [], ℕ, Err, IfSome, List};
ghost use Rattle.sixel_io.specs.Devices.{ReadsToEnd};
ghost use Rattle.sixel_grammar.specs.Document.{Document};
ghost use Rattle.sixel_grammar.specs.Reading.{NoFaultBefore, failures_after};
ghost use Rattle.sixel_grammar.specs.declared.command.Placed.{Placed as PlacedValue};
ghost use Rattle.sixel_grammar.specs.declared.fault.InputFault.TheVariants.{Read as ReadFault};
ghost use Rattle.sixel_model.specs.Profiles.{count_of};
ghost use Rattle.sixel_survey.specs.Answers.{Answers};
ghost use Rattle.sixel_survey.specs.Declaring.{DeclareBox, DeclareBoxIn};
ghost use Rattle.sixel_survey.specs.Reads.{ReadsDocument};
ghost use Rattle.sixel_survey.specs.Surveying.{HasSurveyed};
ghost use Rattle.sixel_survey.specs.Surveys.{IsSurvey};

use crate::entry::Survey;
use crate::surveyor::Surveyor;
use sixel_grammar::{Command, Event, Follower, InputFault, Placed, follow_source};
use sixel_io::{PIECE, Source};
use sixel_model::Profile;
use sixel_plane::{Cover, CoverPlane};
use std::alloc::{AllocError, Global};

/// A surveyor that takes events as they are read, and where it allocates its pixels.
#[derive(Drop)]
pub struct Surveying<P: Cover> {
    surveyor: Surveyor<P>,
    alloc: Global,
}

impl<P: Cover> Surveying<P> {
    /// One that has seen no event, for pictures with the registers of the profile. This allocates nothing.
    pub fn new(alloc: Global, profile: Profile) -> Surveying<P>
        ensures { HasSurveyed (count_of profile) result.surveyor [] }
    {
        Surveying {
            surveyor: Surveyor::new(profile),
            alloc,
        }
    }

    /// The survey of a document whose events it has taken.
    pub fn finish(self) -> Survey
        requires { (registers : ℕ) × (seen : List PlacedValue) × (bytes : List ℕ)
            × HasSurveyed registers self.surveyor seen × Document seen bytes }
        ensures { (registers : ℕ) (seen : List PlacedValue) (bytes : List ℕ)
            → HasSurveyed registers self.surveyor seen → Document seen bytes → IsSurvey registers seen result }
    {
        self.surveyor.finish()
    }
}

impl<P: Cover> Follower for Surveying<P> {
    type Stop = AllocError;

    ghost has_taken = { λ first now seen. HasSurveyed (count_of first.surveyor.profile) now.surveyor seen };

    ghost may_stop = { λ first now stop seen. DeclareBox seen };

    #[inline(never)]
    fn take(&mut self, placed: &Placed) -> Result<(), AllocError> {
        self.surveyor.take(self.alloc, placed)
    }

    /// Each kind that is frequent gets its own inlined call, with the code for that kind alone.
    #[inline(always)]
    fn take_command(&mut self, place: u64, command: Command) -> Result<(), AllocError> {
        let event = Event::Step(command);
        match command {
            Command::CarriageReturn | Command::NextLine => {
                self.surveyor.take(self.alloc, &Placed { place, event })
            }
            Command::Select(_) => self.surveyor.take(self.alloc, &Placed { place, event }),
            Command::Define { .. } => self.surveyor.take(self.alloc, &Placed { place, event }),
            _ => self.take(&Placed { place, event }),
        }
    }

    #[inline(always)]
    fn take_select(&mut self, place: u64, register: u16) -> Result<(), AllocError> {
        self.take_command(place, Command::Select(register))
    }

    #[inline(always)]
    fn take_repeat(&mut self, place: u64, count: u16, bits: u8) -> Result<(), AllocError> {
        let event = Event::Step(Command::Repeat { count, bits });
        self.surveyor.take(self.alloc, &Placed { place, event })
    }

    #[inline(always)]
    fn take_stretch(&mut self, place: u64, bytes: &[u8], count: usize) -> Result<(), AllocError> {
        self.surveyor.take_stretch(place, bytes, count);
        Ok(())
    }
}

/// Surveys the document that the source gives, with the registers of the profile.
///
/// The bytes are read once, and the first failure ends the survey: `Grammar` (the bytes are no document), `Read` (the
/// source failed) or `OutOfMemory` (an allocation failed). The source isn't read after a fault or after its end.
///
/// Nothing of the input is kept. Memory is allocated at one point only, for the pixels of the box: when the first
/// raster attributes are complete, if both sides are from 1 to 2,048 pixels.
pub fn survey<S: Source>(
    alloc: Global,
    profile: Profile,
    input: &mut S,
) -> Result<Survey, InputFault>
    ensures answer { IfSome (S.state input.old).remaining (Answers (count_of profile) result) }
    ensures failures { (S.state input.new).failures ≡ failures_after result (S.state input.old).failures }
    ensures unread { result ≡ Err ReadFault →
        IfSome (S.state input.old).remaining (NoFaultBefore (S.state input.new).remaining) }
    ensures left { ReadsToEnd result (S.state input.old).remaining (S.state input.new).remaining }
    ensures memory { IfSome (S.state input.old).remaining (λ bytes. result ≡ Err InputFault.OutOfMemory
        → DeclareBoxIn bytes) }
{
    survey_with(alloc, profile, input, &mut [0u8; PIECE])
}

/// As `survey`, with the caller's room for the bytes that are read at once. So a caller with many documents clears it
/// once.
pub fn survey_with<S: Source>(
    alloc: Global,
    profile: Profile,
    input: &mut S,
    piece: &mut [u8; PIECE],
) -> Result<Survey, InputFault>
    ensures { ReadsDocument (Answers (count_of profile)) DeclareBoxIn result (S.state input.old) (S.state input.new) }
{
    let mut surveying: Surveying<CoverPlane> = Surveying::new(alloc, profile);
    follow_source(input, piece, &mut surveying)?;
    Ok(surveying.finish())
}
