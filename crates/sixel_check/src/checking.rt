//! Checking the bytes of a document.

ghost use Rattle.std.specs.Prelude.{◌≡◌, Err, IfErr, IfOk, IfSome};
ghost use Rattle.sixel_io.specs.Devices.{ReadsToEnd};
ghost use Rattle.sixel_grammar.specs.Reading.{NoFaultBefore, failures_after};
ghost use Rattle.sixel_grammar.specs.declared.fault.InputFault.TheVariants.{Read as ReadFault};
ghost use Rattle.sixel_model.specs.Profiles.{count_of};
ghost use Rattle.sixel_judge.specs.Growth.{MayGrowIn};
ghost use Rattle.sixel_survey.specs.Reads.{ReadsDocument};
ghost use Rattle.sixel_check.specs.Answers.{Answers, AnswersOutcome};
ghost use Rattle.sixel_check.specs.Checking.{HasSeen, IsWhole};

use sixel_grammar::{InputFault, follow_document, follow_source};
use sixel_io::{PIECE, Source};
use sixel_judge::{Checker, Outcome, Verdict};
use sixel_model::Profile;
use sixel_plane::{BandPlane, Cover, CoverPlane};
use std::alloc::Global;

/// Reads a source to its end. Returns a checker that has seen the events of the document.
#[inline(always)]
fn read_document<S: Source, P: Cover>(
    alloc: Global,
    profile: Profile,
    input: &mut S,
    piece: &mut [u8; PIECE],
) -> Result<Checker<P>, InputFault>
    ensures reads { ReadsDocument (HasSeen (count_of profile)) (MayGrowIn (count_of profile)) result
        (S.state input.old) (S.state input.new) }
    ensures whole { IfOk result IsWhole }
{
    let mut checker = Checker::new(alloc, profile);
    follow_source(input, piece, &mut checker)?;
    Ok(checker)
}

/// Checks the document that the source gives, with the registers of the profile. A picture of the verdict is of that
/// profile.
///
/// The bytes are read once, and the first failure ends the check: `Grammar` (the bytes are no document), `Read` (the
/// source failed) or `OutOfMemory` (an allocation failed). The source isn't read after a fault or after its end.
///
/// Nothing of the input is kept. Memory is allocated at one point only, for the pixels of the box: when its raster
/// attributes are complete, if no rule is broken by then.
///
/// It isn't inlined, or its room would be on the stack of every task.
#[inline(never)]
pub fn check<S: Source>(
    alloc: Global,
    profile: Profile,
    input: &mut S,
) -> Result<Verdict, InputFault>
    ensures answer { IfSome (S.state input.old).remaining (Answers (count_of profile) result) }
    ensures failures { (S.state input.new).failures ≡ failures_after result (S.state input.old).failures }
    ensures unread { result ≡ Err ReadFault →
        IfSome (S.state input.old).remaining (NoFaultBefore (S.state input.new).remaining) }
    ensures left { ReadsToEnd result (S.state input.old).remaining (S.state input.new).remaining }
    ensures memory { IfSome (S.state input.old).remaining (λ bytes. result ≡ Err InputFault.OutOfMemory
        → MayGrowIn (count_of profile) bytes) }
{
    check_with(alloc, profile, input, &mut [0u8; PIECE])
}

/// As `check`, with the caller's room for the bytes that are read at once. So a caller with many documents clears it
/// once.
pub fn check_with<S: Source>(
    alloc: Global,
    profile: Profile,
    input: &mut S,
    piece: &mut [u8; PIECE],
) -> Result<Verdict, InputFault>
    ensures { ReadsDocument (Answers (count_of profile)) (MayGrowIn (count_of profile)) result
        (S.state input.old) (S.state input.new) }
{
    let checker: Checker<BandPlane> = read_document(alloc, profile, input, piece)?;
    Ok(checker.finish()?)
}

/// As `check_with`, without the picture: its size, or the first broken rule. What is painted of the box takes a seventh
/// of the memory.
pub fn outcome_with<S: Source>(
    alloc: Global,
    profile: Profile,
    input: &mut S,
    piece: &mut [u8; PIECE],
) -> Result<Outcome, InputFault>
    ensures { ReadsDocument (AnswersOutcome (count_of profile)) (MayGrowIn (count_of profile)) result
        (S.state input.old) (S.state input.new) }
{
    let checker: Checker<CoverPlane> = read_document(alloc, profile, input, piece)?;
    Ok(checker.outcome())
}

/// Checks the bytes of a document, as `check` does. `Grammar`: the bytes are no document. `OutOfMemory`: an allocation
/// failed before that was seen. Never `Read`.
pub fn check_bytes(alloc: Global, profile: Profile, bytes: &[u8]) -> Result<Verdict, InputFault>
    ensures answer { Answers (count_of profile) result bytes.now }
    ensures never_read { IfErr result (λ fault. fault ≡ InputFault.Read → ⊥) }
    ensures memory { result ≡ Err InputFault.OutOfMemory → MayGrowIn (count_of profile) bytes.now }
{
    let mut checker: Checker<BandPlane> = Checker::new(alloc, profile);
    follow_document(bytes, &mut checker)?;
    Ok(checker.finish()?)
}
