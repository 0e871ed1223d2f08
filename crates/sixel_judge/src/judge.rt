//! Judging events one by one.

ghost use Rattle.std.specs.Prelude.{◌≡◌, ◌<◌, ◌≤◌, ◌++◌, ◌∷◌, [], ℕ, IsSome, IsTrue, List, None, OnOk, OnErr, false};
ghost use Rattle.std.specs.Prelude.{length, slice_index, true};
ghost use Rattle.sixel_grammar.specs.Bytes.{is_data};
ghost use Rattle.sixel_plane.specs.Covers.{kept_by};
ghost use Rattle.sixel_judge.specs.Stretches.{IsStretchedIn};
ghost use Rattle.std.specs.Option.{option_map};
ghost use Rattle.sixel_grammar.specs.declared.command.Placed.{Placed as PlacedValue};
ghost use Rattle.sixel_grammar.specs.Document.{AreWhole, events_of};
ghost use Rattle.sixel_grammar.specs.Spelling.{IsSpellable};
ghost use Rattle.sixel_model.specs.Profiles.{count_of};
ghost use Rattle.sixel_judge.specs.Growth.{MayGrow};
ghost use Rattle.sixel_judge.specs.Judging.{HasJudged};
ghost use Rattle.sixel_judge.specs.Verdicts.{IsVerdict, outcome_of};
ghost use Rattle.sixel_judge.specs.declared.verdict.Verdict.{Verdict as VerdictValue};

use crate::notes::Notes;
use crate::pixels::{draw, picture_of};
use crate::stretch::try_take_stretch;
use crate::verdict::{Finding, Outcome, Verdict};
use crate::violation::violation_of;
use sixel_grammar::Placed;
use sixel_model::Profile;
use sixel_plane::{Cover, Plane};
use std::alloc::{AllocError, Global};

/// The state after some events: the first broken rule, or, while none is broken, what the rules need to know of them.
#[derive(Drop)]
pub(crate) struct Judge<P: Cover> {
    pub profile: Profile,
    pub finding: Option<Finding>,
    pub notes: Notes,
    /// The pixels of the box, from the first raster attributes on.
    pub plane: Option<P>,
}

impl<P: Cover> Judge<P> {
    /// The state before any event.
    pub(crate) fn new(profile: Profile) -> Judge<P>
        ensures profile { result.profile ≡ profile }
        ensures none { HasJudged (kept_by P.keeps) P.grid result [] }
    {
        Judge {
            profile,
            finding: None,
            notes: Notes::new(),
            plane: None,
        }
    }

    /// Judges the next event. Only the plane is allocated; if that fails, nothing has changed.
    ///
    /// Its callees are inlined too: a caller that knows the kind of the event keeps only the code for that kind.
    #[inline(always)]
    pub(crate) fn step(&mut self, alloc: Global, placed: &Placed) -> Result<(), AllocError>
        requires stands { (seen : List PlacedValue) × HasJudged (kept_by P.keeps) P.grid self.old seen }
        requires spellable { IsSpellable placed.now.event }
        ensures ok { OnOk result ((seen : List PlacedValue) → HasJudged (kept_by P.keeps) P.grid self.old seen
            → HasJudged (kept_by P.keeps) P.grid self.new (seen ++ placed.now ∷ [])) }
        ensures profile { self.new.profile ≡ self.old.profile }
        ensures err { OnErr result (self.new ≡ self.old) }
        ensures grows { OnErr result ((seen : List PlacedValue) → HasJudged (kept_by P.keeps) P.grid self.old seen
            → MayGrow (count_of self.old.profile) (events_of seen) placed.now.event) }
    {
        if self.finding.is_some() {
            return Ok(());
        }
        match violation_of(self.profile, &self.notes, &self.plane, &placed.event) {
            Some(violation) => {
                self.finding = Some(Finding {
                    rule: violation.rule,
                    place: placed.place,
                    pixel: violation.pixel,
                });
            }
            None => {
                draw(alloc, &self.notes, &mut self.plane, &placed.event)?;
                self.notes.take_but_early(&placed.event);
            }
        }
        Ok(())
    }

    /// Judges the first `count` bytes of `bytes`, all of them data, in one step. Returns whether it did: after a broken
    /// rule always; else if there is a plane, and the sixels are blank or can be painted on it in one step. If not,
    /// nothing has changed.
    #[inline(always)]
    pub(crate) fn try_take_stretch(&mut self, bytes: &[u8], count: usize) -> bool
        requires stands { (seen : List PlacedValue) × HasJudged (kept_by P.keeps) P.grid self.old seen }
        requires sixels { (k : ℕ) → k < count → IsTrue (is_data (slice_index bytes.now k)) }
        requires bytes { count ≤ length bytes.now }
        ensures profile { self.new.profile ≡ self.old.profile }
        ensures finding { self.new.finding ≡ self.old.finding }
        ensures broken { IsSome self.old.finding → self.new ≡ self.old }
        ensures taken { result ≡ true → self.old.finding ≡ None → IsStretchedIn (kept_by P.keeps) bytes.now count
            self.old.notes (option_map P.grid self.old.plane) self.new.notes (option_map P.grid self.new.plane) }
        ensures kept { result ≡ false → self.new ≡ self.old }
    {
        if self.finding.is_some() {
            return true;
        }
        match &mut self.plane {
            Some(plane) => try_take_stretch(&mut self.notes, plane, bytes, count),
            None => false,
        }
    }

    /// The verdict on a whole list, without the picture.
    pub(crate) fn outcome(self) -> Outcome
        requires { (seen : List PlacedValue) × HasJudged (kept_by P.keeps) P.grid self seen
            × AreWhole (events_of seen) }
        ensures { (seen : List PlacedValue) → HasJudged (kept_by P.keeps) P.grid self seen
            → (verdict : VerdictValue) × IsVerdict (count_of self.profile) seen verdict
            × (result ≡ outcome_of verdict) }
    {
        let Judge { finding, plane, .. } = self;
        match (finding, plane) {
            (Some(finding), _) => Outcome::Broken(finding),
            (None, Some(plane)) => Outcome::Portable {
                width: plane.width(),
                height: plane.height(),
            },
            (None, None) => unreachable!(),
        }
    }
}

impl<P: Plane> Judge<P> {
    /// The verdict on a whole list.
    pub(crate) fn verdict(self) -> Verdict
        requires { (seen : List PlacedValue) × HasJudged (kept_by P.keeps) P.grid self seen
            × AreWhole (events_of seen) }
        ensures { (seen : List PlacedValue) → HasJudged (kept_by P.keeps) P.grid self seen
            → IsVerdict (count_of self.profile) seen result }
    {
        let Judge {
            profile,
            finding,
            notes,
            plane,
        } = self;
        match (finding, plane) {
            (Some(finding), _) => Verdict::Broken(finding),
            (None, Some(plane)) => Verdict::Portable(picture_of(profile, &notes, plane)),
            (None, None) => unreachable!(),
        }
    }
}
