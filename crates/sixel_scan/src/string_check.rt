//! The check of one string.

ghost use Rattle.std.specs.Prelude.{◌+◌, ◌<◌, ◌^◌, ◌++◌, ◌∷◌, ◌≡◌, [], ℕ, List, OnErr, OnOk, Result};
ghost use Rattle.sixel_model.specs.Profiles.{count_of};
ghost use Rattle.sixel_grammar.specs.declared.fault.Fault.{Fault};
ghost use Rattle.sixel_judge.specs.declared.verdict.Verdict.{Verdict};
ghost use Rattle.sixel_judge.specs.Growth.{MayGrowIn};
ghost use Rattle.sixel_scan.specs.Answers.{IsBrief, IsPlacedWithin, Tells, briefly};

use crate::answer::Answer;
use sixel_check::{Checker, Finding, Outcome};
use sixel_grammar::{Fault, Halt, Reader, follow_bytes};
use sixel_model::Profile;
use sixel_plane::CoverPlane;
use std::alloc::{AllocError, Global};

/// Checks the bytes of a string as they come, as `check` checks those of a document. After a fault of the grammar, the
/// bytes that follow change nothing.
#[derive(Drop)]
pub(crate) struct StringCheck {
    reader: Reader,
    checker: Checker<CoverPlane>,
}

impl StringCheck {
    ghost use Rattle.sixel_scan.specs.Checking.{AreAfter, HasRead};

    /// A check that has read nothing. This allocates nothing.
    pub(crate) fn new(alloc: Global, profile: Profile) -> StringCheck
        ensures { HasRead (count_of profile) result [] }
    {
        StringCheck {
            reader: Reader::new(),
            checker: Checker::new(alloc, profile),
        }
    }

    /// Reads some bytes. `AllocError`: an allocation for the pixels failed.
    pub(crate) fn read(&mut self, piece: &[u8]) -> Result<(), AllocError>
        requires { (registers : ℕ) × (bytes : List ℕ) × HasRead registers self.old bytes }
        ensures read { OnOk result ((registers : ℕ) (bytes : List ℕ) → HasRead registers self.old bytes
            → HasRead registers self.new (bytes ++ piece.now)) }
        ensures memory { OnErr result ((registers : ℕ) (bytes : List ℕ) → HasRead registers self.old bytes
            → MayGrowIn registers (bytes ++ piece.now)) }
    {
        match self.reader.fault() {
            Some(_) => Ok(()),
            None => self.read_on(piece),
        }
    }

    /// Reads some bytes, if there was no fault before them.
    fn read_on(&mut self, piece: &[u8]) -> Result<(), AllocError>
        requires { (registers : ℕ) × (bytes : List ℕ)
            × AreAfter registers self.old.reader self.old.checker bytes }
        ensures read { OnOk result ((registers : ℕ) (bytes : List ℕ)
            → AreAfter registers self.old.reader self.old.checker bytes
            → HasRead registers self.new (bytes ++ piece.now)) }
        ensures memory { OnErr result ((registers : ℕ) (bytes : List ℕ)
            → AreAfter registers self.old.reader self.old.checker bytes
            → MayGrowIn registers (bytes ++ piece.now)) }
    {
        match follow_bytes(&mut self.reader, &mut self.checker, piece) {
            Ok(()) => Ok(()),
            Err(Halt::Refused(_)) => Ok(()),
            Err(Halt::Stopped(stop)) => Err(stop),
        }
    }

    /// Reads one byte. `AllocError`: an allocation for the pixels failed.
    pub(crate) fn feed(&mut self, byte: u8) -> Result<(), AllocError>
        requires { (registers : ℕ) × (bytes : List ℕ) × HasRead registers self.old bytes }
        ensures read { OnOk result ((registers : ℕ) (bytes : List ℕ) → HasRead registers self.old bytes
            → HasRead registers self.new (bytes ++ byte ∷ [])) }
        ensures memory { OnErr result ((registers : ℕ) (bytes : List ℕ) → HasRead registers self.old bytes
            → MayGrowIn registers (bytes ++ byte ∷ [])) }
    {
        self.read(&[byte])
    }

    /// The answer at the end of the string.
    pub(crate) fn finish(self) -> Result<Outcome, Fault>
        requires { (registers : ℕ) × (bytes : List ℕ) × HasRead registers self bytes }
        ensures { (registers : ℕ) (bytes : List ℕ) → HasRead registers self bytes
            → IsBrief registers bytes result }
    {
        self.reader.finish()?;
        Ok(self.checker.outcome())
    }
}

/// The answer of a string at `place`, from that of its bytes.
pub(crate) fn told(place: u64, checked: Result<Outcome, Fault>) -> Answer
    requires { (whole : Result Verdict Fault) × (size : ℕ) × (checked ≡ briefly whole)
        × IsPlacedWithin size whole × (place + size < 2 ^ 64) }
    ensures { (whole : Result Verdict Fault) → checked ≡ briefly whole → Tells place whole result }
{
    match checked {
        Ok(Outcome::Portable { width, height }) => Answer::Portable { width, height },
        Ok(Outcome::Broken(finding)) => Answer::Broken(Finding {
            place: place + finding.place,
            ..finding
        }),
        Err(fault) => Answer::Refused(Fault {
            place: place + fault.place,
            ..fault
        }),
    }
}
