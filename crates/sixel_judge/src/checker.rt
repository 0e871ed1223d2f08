//! Checking events as they come.

ghost use Rattle.std.specs.Prelude.{◌≡◌, ◌<◌, ◌≤◌, ◌++◌, ◌∷◌, [], ℕ, List, IfOk, IsOk, IsTrue, OnErr, OnOk, false};
ghost use Rattle.std.specs.Prelude.{length, slice_index, take, true};
ghost use Rattle.sixel_grammar.specs.Bytes.{is_data};
ghost use Rattle.sixel_grammar.specs.Stretches.{sixels_from};
ghost use Rattle.sixel_judge.specs.Stretches.{MayStep, MayTakeSixels};
ghost use Rattle.sixel_grammar.specs.Document.{events_of};
ghost use Rattle.sixel_grammar.specs.declared.command.Placed.{Placed as PlacedValue};
ghost use Rattle.sixel_grammar.specs.Spelling.{IsSpellable};
ghost use Rattle.sixel_model.specs.Profiles.{count_of};
ghost use Rattle.sixel_judge.specs.Alarms.{MattersUnlessConservative};
ghost use Rattle.sixel_judge.specs.Growth.{MayGrow};
ghost use Rattle.sixel_judge.specs.Portable.{IsShownEverywhere};
ghost use Rattle.sixel_judge.specs.Standing.{StandsAfter, expects, is_whole};
ghost use Rattle.sixel_judge.specs.Outcomes.{IsOutcome};
ghost use Rattle.sixel_judge.specs.Verdicts.{IsVerdict};

use crate::judge::Judge;
use crate::progress::Progress;
use crate::verdict::{Outcome, Verdict};
use sixel_grammar::{Event, Placed};
use sixel_model::Profile;
use sixel_plane::{Cover, Plane};
use std::alloc::{AllocError, Global};
use std::marker::Model;

/// Checks events as they come: a start, commands, a finish. `P` holds what is painted of the box.
///
/// It keeps none of the events. In contracts, `StandsAfter` says which events it has seen.
#[derive(Drop)]
pub struct Checker<P: Cover> {
    alloc: Global,
    judge: Judge<P>,
    progress: Progress,
}

impl<P: Cover> Model for Checker<P> {
    ghost use Rattle.std.specs.Option.{option_map};
    ghost use Rattle.sixel_judge.specs.Standing.{CheckerValue};

    ghost Value = { CheckerValue };

    ghost view = { λ c. record {
      keeps = P.keeps;
      profile = c.judge.profile;
      finding = c.judge.finding;
      notes = c.judge.notes;
      grid = option_map P.grid c.judge.plane;
      progress = c.progress;
    } };
}

impl<P: Cover> Checker<P> {
    /// A checker that has seen no event, for pictures with the registers of `profile`. This allocates nothing; `push`
    /// allocates the pixels of the box from `alloc`.
    pub fn new(alloc: Global, profile: Profile) -> Checker<P>
        ensures { StandsAfter (count_of profile) result [] }
    {
        Checker {
            alloc,
            judge: Judge::new(profile),
            progress: Progress::Fresh,
        }
    }

    /// Whether the event may come next: a start first, then commands, then one finish, and then nothing.
    pub fn expects(&self, event: &Event) -> bool
        ensures { (registers : ℕ) (seen : List PlacedValue) → StandsAfter registers self.now seen
            → result ≡ expects seen event.now }
    {
        self.progress.expects(event)
    }

    /// Whether the finish came.
    pub fn is_whole(&self) -> bool
        ensures { (registers : ℕ) (seen : List PlacedValue) → StandsAfter registers self.now seen
            → result ≡ is_whole seen }
    {
        self.progress.is_whole()
    }

    /// Takes the next event. `expects` must allow it, and some bytes must spell it (`IsSpellable`).
    ///
    /// `AllocError`: an allocation failed, and the checker is unchanged.
    #[inline(always)]
    pub fn push(&mut self, placed: &Placed) -> Result<(), AllocError>
        requires expected { (registers : ℕ) × (seen : List PlacedValue) × StandsAfter registers self.old seen
            × IsTrue (expects seen placed.now.event) }
        requires spellable { IsSpellable placed.now.event }
        ensures ok { OnOk result ((registers : ℕ) (seen : List PlacedValue) → StandsAfter registers self.old seen
            → StandsAfter registers self.new (seen ++ placed.now ∷ [])) }
        ensures err { OnErr result (self.new ≡ self.old) }
        ensures grows { OnErr result ((registers : ℕ) (seen : List PlacedValue) → StandsAfter registers self.old seen
            → MayGrow registers (events_of seen) placed.now.event) }
    {
        self.judge.step(self.alloc, placed)?;
        self.progress = Progress::with(&placed.event);
        Ok(())
    }

    /// Takes the first `count` bytes of `bytes`, all of them data, in one step. Any command must be allowed next.
    /// Returns whether it did; it does only if these sixels break no rule, or if a rule was broken before. Else the
    /// checker is unchanged, and the caller pushes the sixels one by one.
    #[inline(always)]
    pub fn try_push_stretch(&mut self, bytes: &[u8], count: usize) -> bool
        requires expected { MayTakeSixels self.old }
        requires sixels { (k : ℕ) → k < count → IsTrue (is_data (slice_index bytes.now k)) }
        requires bytes { count ≤ length bytes.now }
        ensures pushed { result ≡ true → (registers place : ℕ) (seen : List PlacedValue)
            → StandsAfter registers self.old seen → MayStep seen
            → StandsAfter registers self.new (seen ++ sixels_from place (take count bytes.now)) }
        ensures kept { result ≡ false → self.new ≡ self.old }
    {
        self.judge.try_take_stretch(bytes, count)
    }

    /// The verdict on the whole list, without the picture.
    pub fn outcome(self) -> Outcome
        requires whole { (registers : ℕ) × (seen : List PlacedValue) × StandsAfter registers self seen
            × IsTrue (is_whole seen) }
        ensures { (registers : ℕ) (seen : List PlacedValue) → StandsAfter registers self seen
            → IsOutcome registers seen result }
    {
        self.judge.outcome()
    }
}

impl<P: Plane> Checker<P> {
    /// The verdict on the whole list. It allocates nothing, and is always `Ok`.
    pub fn finish(self) -> Result<Verdict, AllocError>
        requires whole { (registers : ℕ) × (seen : List PlacedValue) × StandsAfter registers self seen
            × IsTrue (is_whole seen) }
        ensures verdict { IfOk result (λ verdict. (registers : ℕ) (seen : List PlacedValue)
            → StandsAfter registers self seen → IsVerdict registers seen verdict) }
        ensures everywhere { IfOk result (λ verdict. (registers : ℕ) (seen : List PlacedValue)
            → StandsAfter registers self seen → IsShownEverywhere registers (events_of seen) verdict) }
        ensures matters { IfOk result (λ verdict. (registers : ℕ) (seen : List PlacedValue)
            → StandsAfter registers self seen → MattersUnlessConservative registers seen verdict) }
        ensures always { IsOk result }
    {
        Ok(self.judge.verdict())
    }
}
