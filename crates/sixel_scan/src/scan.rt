//! A scan of the stream that a source gives.

ghost use Rattle.std.specs.Prelude.{◌≡◌, ◌≢◌, ◌<◌, ◌++◌, [], ℕ, List, Option, None, Ok, Err, true, false, length};
ghost use Rattle.std.specs.Prelude.{IfOk, IsSome, OnErr, OnOk};
ghost use Rattle.std.specs.Option.{option_to_list};
ghost use Rattle.std.specs.Io.KnownBytes.{Consumes, Keeps};
ghost use Rattle.sixel_io.specs.Devices.{CountsFailure};
ghost use Rattle.sixel_model.specs.Profiles.{count_of};
ghost use Rattle.sixel_scan.specs.declared.fault.ScanFault.TheVariants.{OutOfMemory, Read};
ghost use Rattle.sixel_scan.specs.Prefixes.{AreGiven};
ghost use Rattle.sixel_scan.specs.Strings.{AreStrings, StringAt};
ghost use Rattle.sixel_scan.specs.Wrapping.{AreMarked};

use crate::answer::Scanned;
use crate::fault::ScanFault;
use crate::scanner::Scanner;
use crate::unread::Unread;
use sixel_io::{DeviceFault, Source};
use sixel_model::Profile;
use std::alloc::{AllocError, Global};

/// A scan of a stream: it finds the sixel strings, and checks each as its bytes come.
///
/// It keeps what the source gave in one call, at most 64 KiB, and the pixels of one string, if it has a size.
#[derive(Drop)]
pub struct Scan {
    scanner: Scanner,
    unread: Unread,
    /// Whether the stream has ended, and all its strings are told.
    ended: bool,
}

impl Scan {
    ghost use Rattle.sixel_scan.specs.Scans.{AfterTaking, GrowsWithin, HasTold, IsOver, IsReading, IsReady};
    ghost use Rattle.sixel_scan.specs.Scans.{Tells, TellsAll, TellsNext, failures_after, steps_left};

    /// A scan that has read nothing. `eight_bit`: whether the 8-bit controls count, the introducer 90 and the
    /// terminator 9C (hexadecimal). It allocates nothing.
    pub fn new(alloc: Global, profile: Profile, eight_bit: bool) -> Scan
        ensures { (remaining : Option (List ℕ)) → HasTold eight_bit (count_of profile) result remaining [] [] }
    {
        Scan {
            scanner: Scanner::new(alloc, profile, eight_bit),
            unread: Unread::new(),
            ended: false,
        }
    }

    /// Reads some of the unread bytes: text, or else one byte.
    fn read_some(&mut self) -> Result<Option<Scanned>, AllocError>
        requires some { 0 < length self.old.unread }
        requires reads { (told : List StringAt) × (bytes : List ℕ) × IsReading self.old told bytes }
        ensures tells { IfOk result (λ scanned. (told : List StringAt) (bytes : List ℕ)
            → IsReading self.old told bytes → Tells self.new told bytes (option_to_list scanned)) }
        ensures marked { IfOk result (λ scanned. (told : List StringAt) (bytes : List ℕ)
            → IsReading self.old told bytes → AreMarked bytes (option_to_list scanned)) }
        ensures memory { OnErr result ((told : List StringAt) (bytes : List ℕ) → IsReading self.old told bytes
            → GrowsWithin self.old.scanner.eight (count_of self.old.scanner.profile) told bytes) }
        ensures less { OnOk result (length self.new.unread < length self.old.unread) }
        ensures profile { self.new.scanner.profile ≡ self.old.scanner.profile }
        ensures eight { self.new.scanner.eight ≡ self.old.scanner.eight }
        ensures ended { self.new.ended ≡ self.old.ended }
    {
        let step = self.scanner.read_some(self.unread.as_slice())?;
        self.unread.pass(step.count);
        Ok(step.scanned)
    }

    /// Reads the unread bytes, up to the end of the next string.
    fn read_unread(&mut self) -> Result<Option<Scanned>, AllocError>
        requires reads { (told : List StringAt) × (bytes : List ℕ) × IsReading self.old told bytes }
        ensures tells { IfOk result (λ scanned. (told : List StringAt) (bytes : List ℕ)
            → IsReading self.old told bytes → Tells self.new told bytes (option_to_list scanned)) }
        ensures marked { IfOk result (λ scanned. (told : List StringAt) (bytes : List ℕ)
            → IsReading self.old told bytes → AreMarked bytes (option_to_list scanned)) }
        ensures memory { OnErr result ((told : List StringAt) (bytes : List ℕ) → IsReading self.old told bytes
            → GrowsWithin self.old.scanner.eight (count_of self.old.scanner.profile) told bytes) }
        ensures all { result ≡ Ok None → self.new.unread ≡ [] }
        ensures less { IfOk result (λ scanned. IsSome scanned → length self.new.unread < length self.old.unread) }
        ensures profile { self.new.scanner.profile ≡ self.old.scanner.profile }
        ensures eight { self.new.scanner.eight ≡ self.old.scanner.eight }
        ensures ended { self.new.ended ≡ self.old.ended }
    {
        while !self.unread.as_slice().is_empty() {
            let scanned = self.read_some()?;
            if scanned.is_some() {
                return Ok(scanned);
            }
        }
        Ok(None)
    }

    /// Takes more bytes from the source. Returns whether there were any.
    fn take_more<S: Source>(&mut self, input: &mut S) -> Result<bool, DeviceFault>
        requires { self.old.unread ≡ [] }
        ensures more { OnOk result ((told : List StringAt) (bytes : List ℕ) → IsReading self.old told bytes
            → IsReading self.new told (bytes ++ self.new.unread)) }
        ensures taken { OnOk result (Consumes (S.state input.old).remaining (S.state input.new).remaining
            self.new.unread) }
        ensures some { result ≡ Ok true → 0 < length self.new.unread }
        ensures none { result ≡ Ok false → self.new.unread ≡ [] }
        ensures over { result ≡ Ok false → (told : List StringAt) (bytes : List ℕ) → IsReading self.new told bytes
            → IsOver (S.state input.new).remaining bytes }
        ensures kept { OnErr result (Keeps (S.state input.old).remaining (S.state input.new).remaining) }
        ensures same { OnErr result (self.new ≡ self.old) }
        ensures failures { CountsFailure result (S.state input.old).failures (S.state input.new).failures }
        ensures rest { self.new ≡ record self.old { unread = self.new.unread } }
    {
        let room = self.scanner.room();
        self.unread.refill(input, room)
    }

    /// Ends the scan at the end of the stream: reports the string that is open, if there is one.
    fn finish(&mut self) -> Result<Option<Scanned>, AllocError>
        requires empty { self.old.unread ≡ [] }
        requires reads { (told : List StringAt) × (bytes : List ℕ) × IsReading self.old told bytes }
        ensures all { IfOk result (λ scanned. (told : List StringAt) (bytes : List ℕ) → IsReading self.old told bytes
            → TellsAll self.old told bytes (option_to_list scanned)) }
        ensures marked { IfOk result (λ scanned. (told : List StringAt) (bytes : List ℕ)
            → IsReading self.old told bytes → AreMarked bytes (option_to_list scanned)) }
        ensures memory { OnErr result ((told : List StringAt) (bytes : List ℕ) → IsReading self.old told bytes
            → GrowsWithin self.old.scanner.eight (count_of self.old.scanner.profile) told bytes) }
        ensures ended { self.new.ended ≡ true }
    {
        self.ended = true;
        self.scanner.finish()
    }
    /// The next string of the stream that the source gives, as soon as it has ended; `None` at the end of the stream.
    ///
    /// A stream has at most `u64::MAX` bytes: of a longer source it is the first of them. Pass the same source to each
    /// call. It is read only if no string has ended in the bytes that it gave, and not after its end. An ESC in a
    /// string waits for the next byte, which shows whether it ends the string.
    ///
    /// `Read`: the source failed; a later call reads on. `OutOfMemory`: an allocation for the pixels of the next string
    /// failed, and no further call is possible.
    pub fn next_string<S: Source>(&mut self, input: &mut S) -> Result<Option<Scanned>, ScanFault>
        requires { IsReady self.old (S.state input.old).remaining }
        ensures told { IfOk result (λ scanned.
            AfterTaking self.old (S.state input.old).remaining (S.state input.new).remaining
            (λ eight registers told bytes.
            TellsNext eight registers self.new (S.state input.new).remaining told bytes (option_to_list scanned))) }
        ensures marked { IfOk result (λ scanned.
            AfterTaking self.old (S.state input.old).remaining (S.state input.new).remaining
            (λ eight registers told bytes. AreMarked bytes (option_to_list scanned))) }
        ensures all { result ≡ Ok None →
            AfterTaking self.old (S.state input.old).remaining (S.state input.new).remaining
            (λ eight registers told bytes. AreStrings eight told bytes × IsOver (S.state input.new).remaining bytes) }
        ensures read { result ≡ Err Read →
            AfterTaking self.old (S.state input.old).remaining (S.state input.new).remaining
            (λ eight registers told bytes. AreGiven eight told bytes
            × HasTold eight registers self.new (S.state input.new).remaining told bytes) }
        ensures memory { result ≡ Err OutOfMemory →
            AfterTaking self.old (S.state input.old).remaining (S.state input.new).remaining GrowsWithin }
        ensures failures { (S.state input.new).failures ≡ failures_after result (S.state input.old).failures }
        ensures ready { result ≢ Err OutOfMemory → IsReady self.new (S.state input.new).remaining }
        ensures fewer { IfOk result (λ scanned. IsSome scanned → steps_left self.new < steps_left self.old) }
    {
        if self.ended {
            return Ok(None);
        }
        loop {
            let scanned = self.read_unread()?;
            if scanned.is_some() {
                return Ok(scanned);
            }
            let more = self.take_more(input)?;
            if !more {
                return Ok(self.finish()?);
            }
        }
    }
}
